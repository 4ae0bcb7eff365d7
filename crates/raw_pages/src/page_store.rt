//! The mapped pages by their numbers.
ghost use Rattle.std.specs.Prelude.{◌≡◌, ◌+◌, ◌-◌, ◌/◌, ◌<◌, ◌≤◌, ◌^◌, ℕ, length, IfOk, OnOk, OnErr, IsOk, option_copied, option_map, is_some, slice_range, replicate, None, true, false};
ghost use Rattle.std.specs.FinMap as map;
ghost use Rattle.raw_pages.specs.Pages.{zero_page, zero_bytes, pages_with_zeros, pages_cleared, pages_moved, IsLastBelow, IsLastMapped, IsLastFree, pages_with_piece, pages_with_protection, is_ready, shown_bytes, IsWriteAnswer};

use crate::leaf::Leaf;
use crate::page::Page;
use crate::table;
use crate::write_error::WriteError;
use kernel_core::NoMemory;
use std::alloc::{AllocError, Global};
use std::marker::Model;

/// The number of places for tables of pages.
const LEAVES: usize = 1024;

/// The number of page numbers that have a place.
const NUMBERS: u32 = 1_048_576;

/// A store of pages. Contracts see it as the finite map `Pages` of `specs/Pages.antt`.
#[derive(Drop)]
pub struct PageStore {
    leaves: Vec<Option<Leaf>>,
    mapped: u32,
    alloc: Global,
}

impl Model for PageStore {
    ghost use Rattle.raw_pages.specs.Pages.{Pages, pages_code};
    ghost use Rattle.raw_pages.specs.inside.Tables.{map_of, IsStore};

    ghost Value = { Pages };

    ghost coded = { pages_code };

    ghost view = { λ s. map_of s.leaves.items };

    ghost invariant = { λ s. IsStore s.leaves.items s.mapped };
}

impl PageStore {
    /// A store with no page. It takes its memory from `alloc`.
    pub fn new(alloc: Global) -> Result<PageStore, NoMemory>
        ensures { IfOk result (λ s. s ≡ map.empty) }
    {
        let leaves = no_leaves(alloc, LEAVES)?;
        Ok(PageStore {
            leaves,
            mapped: 0,
            alloc,
        })
    }

    /// The number of pages that are mapped. Nothing is counted for it.
    pub fn len(&self) -> u32
        ensures value { result ≡ map.len self.now }
        ensures small { result ≤ 1048576 }
    {
        self.mapped
    }

    /// The page of this number, where it is mapped.
    #[inline(always)]
    pub fn page(&self, page: u32) -> Option<&Page>
        ensures { option_copied result ≡ map.get self.now page }
    {
        let leaves = self.leaves.as_slice();
        if page >= NUMBERS {
            return None;
        }
        table::page(leaves, page)
    }

    /// Maps a page of zeros with this protection (1 read, 2 write, 4 execute, added up), in place of one
    /// that is there (mmap(2) with MAP_FIXED and MAP_ANONYMOUS). A refusal changes nothing.
    pub fn map(&mut self, page: u32, protection: u8) -> Result<(), NoMemory>
        requires inside { page < 524280 }
        requires three_bits { protection ≤ 7 }
        ensures ok { OnOk result (self.new ≡ map.insert self.old page (zero_page protection)) }
        ensures err { OnErr result (self.new ≡ self.old) }
    {
        if table::map(self.leaves.as_mut_slice(), self.alloc, page, protection)? {
            self.mapped += 1;
        }
        Ok(())
    }

    /// Maps `count` pages of zeros from `first` on with this protection, in place of those that are there, by one
    /// look-up for the numbers of a table. After a refusal a first part of them was mapped.
    pub fn map_run(&mut self, first: u32, count: u32, protection: u8) -> Result<(), NoMemory>
        requires inside { first + count ≤ 524280 }
        requires three_bits { protection ≤ 7 }
        ensures ok { OnOk result (self.new ≡ pages_with_zeros self.old first count protection) }
        ensures err { OnErr result ((k : ℕ) × (k < count) × (self.new ≡ pages_with_zeros self.old first k protection)) }
    {
        let end = first + count;
        let mut at = first;
        while at < end {
            let past = table::end_in_table(at, end);
            self.map_in_table(at, past, protection)?;
            at = past;
        }
        Ok(())
    }

    /// The same of the numbers of one table, from `first` up to the end. A refusal changes nothing.
    fn map_in_table(&mut self, first: u32, end: u32, protection: u8) -> Result<(), AllocError>
        requires some { first < end }
        requires one { first / 1024 ≡ (end - 1) / 1024 }
        requires inside { end ≤ 524280 }
        ensures ok { OnOk result (self.new ≡ pages_with_zeros self.old first (end - first) protection) }
        ensures err { OnErr result (self.new ≡ self.old) }
    {
        let leaves = self.leaves.as_mut_slice();
        let fresh = table::map_run(leaves, self.alloc, first, end, protection)?;
        self.mapped += fresh;
        Ok(())
    }

    /// Takes the page away, where it is mapped (munmap(2)).
    pub fn unmap(&mut self, page: u32)
        requires { page < 1048576 }
        ensures { self.new ≡ map.remove self.old page }
    {
        if table::take(self.leaves.as_mut_slice(), page).is_some() {
            self.mapped -= 1;
        }
    }

    /// Moves the page, where it is mapped, to another number, at which none is mapped: its protection, its
    /// bytes, and whether it is ready. A refusal changes nothing.
    pub fn move_page(&mut self, from: u32, to: u32) -> Result<(), NoMemory>
        requires from { from < 524280 }
        requires to { to < 524280 }
        requires free { map.get self.old to ≡ None }
        ensures ok { OnOk result (self.new ≡ pages_moved self.old from to (map.get self.old from)) }
        ensures err { OnErr result (self.new ≡ self.old) }
    {
        table::move_page(self.leaves.as_mut_slice(), self.alloc, from, to)?;
        Ok(())
    }

    /// The greatest number below the end at which a page is mapped. Numbers of tables with no page are not
    /// looked at one by one.
    pub fn last_below(&self, end: u32) -> Option<u32>
        requires { end ≤ 1048576 }
        ensures { IsLastBelow self.now end result }
    {
        self.last_mapped(0, end)
    }

    /// The greatest number from `first` up to the end at which a page is mapped. Numbers of tables with no page
    /// are not looked at one by one.
    pub fn last_mapped(&self, first: u32, end: u32) -> Option<u32>
        requires { end ≤ 1048576 }
        ensures { IsLastMapped self.now first end result }
    {
        table::last(self.leaves.as_slice(), true, first, end)
    }

    /// The greatest number from `first` up to the end at which no page is mapped. Numbers of tables with a page
    /// at each are not looked at one by one.
    pub fn last_free(&self, first: u32, end: u32) -> Option<u32>
        requires { end ≤ 1048576 }
        ensures { IsLastFree self.now first end result }
    {
        table::last(self.leaves.as_slice(), false, first, end)
    }

    /// The protection of the page, where it is mapped.
    pub fn prot(&self, page: u32) -> Option<u8>
        ensures { result ≡ option_map (λ p. p.protection) (map.get self.now page) }
    {
        match self.page(page) {
            Some(found) => Some(found.protection()),
            None => None,
        }
    }

    /// Whether the page is mapped.
    pub fn is_mapped(&self, page: u32) -> bool
        ensures { result ≡ is_some (map.get self.now page) }
    {
        self.page(page).is_some()
    }

    /// Gives the page the protection, where it is mapped (mprotect(2)).
    pub fn protect(&mut self, page: u32, protection: u8)
        requires inside { page < 524280 }
        requires three_bits { protection ≤ 7 }
        ensures { self.new ≡ pages_with_protection self.old page (map.get self.old page) protection }
    {
        table::protect(self.leaves.as_mut_slice(), page, protection);
    }

    /// Reads the bytes of the page from a place in it on; where the page isn't mapped they are 0.
    pub fn read(&self, page: u32, at: u32, buf: &mut [u8])
        requires { at + length buf.old ≤ 4096 }
        ensures value { buf.new ≡ slice_range (shown_bytes (map.get self.now page)) at (at + length buf.old) }
        ensures whole { length (shown_bytes (map.get self.now page)) ≡ 4096 }
    {
        match self.page(page) {
            Some(found) => found.read(at as usize, buf),
            None => buf.fill(0),
        }
    }

    /// Writes the bytes into the page from a place in it on, where it is mapped. It asks for memory only
    /// where the page isn't ready, and a refusal then changes nothing.
    pub fn write(&mut self, page: u32, at: u32, bytes: &[u8]) -> Result<(), NoMemory>
        requires number { page < 1048576 }
        requires inside { at + length bytes.now ≤ 4096 }
        ensures ok { OnOk result (self.new ≡ pages_with_piece self.old page (map.get self.old page) at bytes.now) }
        ensures err { OnErr result (self.new ≡ self.old) }
        ensures ready { is_ready (map.get self.old page) ≡ true → IsOk result }
    {
        table::write(
            self.leaves.as_mut_slice(),
            self.alloc,
            page,
            at as usize,
            bytes,
        )?;
        Ok(())
    }

    /// The same where the page is mapped with leave to write, by one look-up.
    #[inline(always)]
    pub fn write_if_allowed(&mut self, page: u32, at: u32, bytes: &[u8]) -> Result<(), WriteError>
        requires number { page < 1048576 }
        requires inside { at + length bytes.now ≤ 4096 }
        ensures ok { OnOk result (self.new ≡ pages_with_piece self.old page (map.get self.old page) at bytes.now) }
        ensures err { OnErr result (self.new ≡ self.old) }
        ensures answer { IsWriteAnswer (map.get self.old page) result }
    {
        table::write_if_allowed(
            self.leaves.as_mut_slice(),
            self.alloc,
            page,
            at as usize,
            bytes,
        )?;
        Ok(())
    }

    /// Makes the page as it was when it was mapped, with the protection that it has now: its bytes are 0 and
    /// it isn't ready. Its memory is given back.
    pub fn clear(&mut self, page: u32)
        requires { page < 1048576 }
        ensures { self.new ≡ pages_cleared self.old page (map.get self.old page) }
    {
        table::clear(self.leaves.as_mut_slice(), self.alloc, page);
    }

    /// Whether the page is mapped and was written since.
    pub fn ready(&self, page: u32) -> bool
        ensures value { result ≡ is_ready (map.get self.now page) }
        ensures zeros { result ≡ false → shown_bytes (map.get self.now page) ≡ zero_bytes }
    {
        match self.page(page) {
            Some(found) => found.is_ready(),
            None => false,
        }
    }
}

fn no_leaves(alloc: Global, count: usize) -> Result<Vec<Option<Leaf>>, AllocError>
    ensures { IfOk result (λ v. v.items ≡ replicate count None) }
{
    let mut leaves = Vec::with_capacity(alloc, count)?;
    for _ in 0..count {
        leaves.push(None)?;
    }
    Ok(leaves)
}
