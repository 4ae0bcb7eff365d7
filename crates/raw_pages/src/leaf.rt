//! A table of 1024 neighbouring pages.
ghost use Rattle.std.specs.Prelude.{◌≡◌, ◌+◌, ◌-◌, ◌<◌, ◌≤◌, ◌++◌, ℕ, length, replicate, Some, None, not, is_some, IfOk, OnOk, OnErr, IsOk, option_copied, option_map, slice_index_or, slice_set, true, false};
ghost use Rattle.raw_pages.specs.inside.Tables.{IsLastEntry, entry_count, absent_among, Fills};
ghost use Rattle.raw_pages.specs.Pages.{zero_page, with_piece, with_protection, cleared_page, is_ready, IsWriteAnswer};

use crate::page::Page;
use crate::write_error::WriteError;
use std::alloc::{AllocError, Global};
use std::marker::Model;
use std::mem::replace;

/// The number of entries of a table.
pub(crate) const ENTRIES: usize = 1024;

/// The entries of 1024 neighbouring page numbers, and how many of them have a page. An entry is empty where
/// no page is mapped.
#[derive(Drop)]
pub(crate) struct Leaf {
    entries: Vec<Option<Page>>,
    mapped: usize,
}

impl Model for Leaf {
    ghost use Rattle.std.specs.Prelude.{◌≡◌, List, Option, length};
    ghost use Rattle.std.specs.Coded.{coded_list, coded_option};
    ghost use Rattle.raw_pages.specs.Pages.{MappedPage, mapped_page_code};
    ghost use Rattle.raw_pages.specs.inside.Tables.{IsLeaf};

    ghost Value = { List (Option MappedPage) };

    ghost coded = { coded_list (coded_option mapped_page_code) };

    ghost view = { λ l. l.entries.items };

    ghost invariant = { λ l. IsLeaf l.entries.items l.mapped };
}

impl Leaf {
    /// A table with no page.
    pub(crate) fn new(alloc: Global) -> Result<Leaf, AllocError>
        ensures { IfOk result (λ l. l ≡ replicate 1024 None) }
    {
        let entries = empty_entries(alloc, ENTRIES)?;
        Ok(Leaf { entries, mapped: 0 })
    }

    /// A table with pages of zeros from the place `first` up to the end, and no other page.
    pub(crate) fn with_run(
        alloc: Global,
        first: usize,
        end: usize,
        protection: u8,
    ) -> Result<Leaf, AllocError>
        requires order { first ≤ end }
        requires inside { end ≤ 1024 }
        ensures { IfOk result (λ l. l ≡ replicate first None
            ++ (replicate (end - first) (Some (zero_page protection)) ++ replicate (1024 - end) None)) }
    {
        let mut entries = Vec::with_capacity(alloc, ENTRIES)?;
        entries.resize_with(first, || None)?;
        entries.resize_with(end, || Some(Page::zeros(alloc, protection)))?;
        entries.resize_with(ENTRIES, || None)?;
        Ok(Leaf {
            entries,
            mapped: end - first,
        })
    }

    #[inline(always)]
    pub(crate) fn page(&self, place: usize) -> Option<&Page>
        requires { place < 1024 }
        ensures { option_copied result ≡ slice_index_or self.now place None }
    {
        self.entries[place].as_ref()
    }

    /// The greatest place from `first` up to the end at which a page is mapped, or at which none is. The entries of
    /// a table that has no such place at all are not looked at.
    pub(crate) fn last(&self, mapped: bool, first: usize, end: usize) -> Option<usize>
        requires { end ≤ 1024 }
        ensures { IsLastEntry self.now mapped first end result }
    {
        if self.has(mapped) {
            return last_entry(self.entries.as_slice(), mapped, first, end);
        }
        None
    }

    /// Whether any entry has a page, or any has none.
    fn has(&self, mapped: bool) -> bool
        ensures { result ≡ false → (place : ℕ) → place < 1024 → is_some (slice_index_or self.now place None) ≡ not mapped }
    {
        if mapped {
            self.mapped > 0
        } else {
            self.mapped < ENTRIES
        }
    }

    /// Puts the page at the place, and gives the one that stood there.
    pub(crate) fn put(&mut self, place: usize, page: Page) -> Option<Page>
        requires { place < 1024 }
        ensures was { result ≡ slice_index_or self.old place None }
        ensures now { self.new ≡ slice_set self.old place (Some page) }
        ensures whole { length self.old ≡ 1024 }
    {
        let before = replace(&mut self.entries[place], Some(page));
        if before.is_none() {
            self.mapped += 1;
        }
        before
    }

    /// Puts a page of zeros at each place from `first` up to the end, and tells at how many of them there was none.
    pub(crate) fn fill(&mut self, alloc: Global, first: usize, end: usize, protection: u8) -> usize
        requires order { first ≤ end }
        requires inside { end ≤ 1024 }
        ensures now { Fills (λ place. slice_index_or self.old place None) (λ place. slice_index_or self.new place None)
            first end (zero_page protection) }
        ensures fresh { result ≡ absent_among (λ place. slice_index_or self.old place None) first (end - first) }
        ensures whole { length self.old ≡ 1024 }
    {
        let fresh = fill_entries(self.entries.as_mut_slice(), alloc, first, end, protection);
        self.mapped += fresh;
        fresh
    }

    /// Takes the place's page out.
    pub(crate) fn take(&mut self, place: usize) -> Option<Page>
        requires { place < 1024 }
        ensures was { result ≡ slice_index_or self.old place None }
        ensures now { self.new ≡ slice_set self.old place None }
        ensures whole { length self.old ≡ 1024 }
    {
        let before = replace(&mut self.entries[place], None);
        if before.is_some() {
            self.mapped -= 1;
        }
        before
    }

    /// Writes the bytes into the page from a place in it on, where it is mapped.
    pub(crate) fn write(
        &mut self,
        alloc: Global,
        place: usize,
        at: usize,
        bytes: &[u8],
    ) -> Result<(), AllocError>
        requires place { place < 1024 }
        requires inside { at + length bytes.now ≤ 4096 }
        ensures ok { OnOk result (self.new ≡ slice_set self.old place
            (option_map (λ p. with_piece p at bytes.now) (slice_index_or self.old place None))) }
        ensures err { OnErr result (self.new ≡ self.old) }
        ensures ready { is_ready (slice_index_or self.old place None) ≡ true → IsOk result }
        ensures whole { length self.old ≡ 1024 }
    {
        match &mut self.entries[place] {
            Some(page) => page.write(alloc, at, bytes)?,
            None => {}
        }
        Ok(())
    }

    /// The same where the page is mapped with leave to write.
    #[inline(always)]
    pub(crate) fn write_if_allowed(
        &mut self,
        alloc: Global,
        place: usize,
        at: usize,
        bytes: &[u8],
    ) -> Result<(), WriteError>
        requires place { place < 1024 }
        requires inside { at + length bytes.now ≤ 4096 }
        ensures ok { OnOk result (self.new ≡ slice_set self.old place
            (option_map (λ p. with_piece p at bytes.now) (slice_index_or self.old place None))) }
        ensures err { OnErr result (self.new ≡ self.old) }
        ensures answer { IsWriteAnswer (slice_index_or self.old place None) result }
        ensures whole { length self.old ≡ 1024 }
    {
        match &mut self.entries[place] {
            Some(page) => page.write_if_allowed(alloc, at, bytes)?,
            None => return Err(WriteError::Absent),
        }
        Ok(())
    }

    /// Makes the page one of zeros again, where it is mapped.
    pub(crate) fn clear(&mut self, alloc: Global, place: usize)
        requires { place < 1024 }
        ensures now { self.new ≡ slice_set self.old place (option_map cleared_page (slice_index_or self.old place None)) }
        ensures whole { length self.old ≡ 1024 }
    {
        if let Some(page) = &mut self.entries[place] {
            page.clear(alloc);
        }
    }

    /// Gives the page the protection, where it is mapped.
    pub(crate) fn protect(&mut self, place: usize, protection: u8)
        requires { place < 1024 }
        ensures now { self.new ≡ slice_set self.old place
            (option_map (λ p. with_protection p protection) (slice_index_or self.old place None)) }
        ensures whole { length self.old ≡ 1024 }
    {
        if let Some(page) = &mut self.entries[place] {
            page.protect(protection);
        }
    }
}

/// Puts a page of zeros at each place from `first` up to the end, and tells at how many of them there was none.
fn fill_entries(
    entries: &mut [Option<Page>],
    alloc: Global,
    first: usize,
    end: usize,
    protection: u8,
) -> usize
    requires order { first ≤ end }
    requires inside { end ≤ length entries.old }
    ensures now { Fills (λ place. slice_index_or entries.old place None) (λ place. slice_index_or entries.new place None)
        first end (zero_page protection) }
    ensures fresh { result ≡ absent_among (λ place. slice_index_or entries.old place None) first (end - first) }
    ensures counted { entry_count entries.new ≡ entry_count entries.old + result }
{
    let mut fresh = 0;
    for place in first..end {
        if replace(&mut entries[place], Some(Page::zeros(alloc, protection))).is_none() {
            fresh += 1;
        }
    }
    fresh
}

fn empty_entries(alloc: Global, count: usize) -> Result<Vec<Option<Page>>, AllocError>
    ensures { IfOk result (λ v. v.items ≡ replicate count None) }
{
    let mut entries = Vec::with_capacity(alloc, count)?;
    entries.resize_with(count, || None)?;
    Ok(entries)
}

fn last_entry(entries: &[Option<Page>], mapped: bool, first: usize, end: usize) -> Option<usize>
    requires { end ≤ length entries.now }
    ensures { IsLastEntry entries.now mapped first end result }
{
    let mut at = end;
    while at > first {
        at -= 1;
        if entries[at].is_some() == mapped {
            return Some(at);
        }
    }
    None
}
