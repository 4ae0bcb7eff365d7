//! The entries of page numbers in a table of tables.
ghost use Rattle.std.specs.Prelude.{◌≡◌, ◌+◌, ◌-◌, ◌*◌, ◌/◌, ◌%◌, ◌<◌, ◌≤◌, ℕ, length, IsSome, Some, None, not, is_some, IfOk, OnOk, OnErr, IsOk, option_copied, option_map, slice_index_or, true};
ghost use Rattle.raw_pages.specs.Pages.{zero_page, with_piece, with_protection, cleared_page, is_ready, IsWriteAnswer};
ghost use Rattle.raw_pages.specs.inside.Tables.{entry_of, absent_among, Fills, SetsEntry, MovesEntry, IsLastNumber};

use crate::leaf::{ENTRIES, Leaf};
use crate::page::Page;
use crate::write_error::WriteError;
use std::alloc::{AllocError, Global};

/// The place of the table that has the entry of the number.
#[inline(always)]
fn leaf_of(number: u32) -> usize
    ensures { result ≡ number / 1024 }
{
    number as usize / ENTRIES
}

/// The place of the number's entry in that table.
#[inline(always)]
fn place_of(number: u32) -> usize
    ensures place { result ≡ number % 1024 }
    ensures inside { result < 1024 }
{
    number as usize % ENTRIES
}

/// The page of the number.
#[inline(always)]
pub(crate) fn page(leaves: &[Option<Leaf>], number: u32) -> Option<&Page>
    requires { number / 1024 < length leaves.now }
    ensures { option_copied result ≡ entry_of leaves.now number }
{
    match &leaves[leaf_of(number)] {
        Some(leaf) => leaf.page(place_of(number)),
        None => None,
    }
}

/// Makes the number's table where there is none.
fn make_leaf(leaves: &mut [Option<Leaf>], alloc: Global, number: u32) -> Result<(), AllocError>
    requires { number / 1024 < length leaves.old }
    ensures there { OnOk result (IsSome (slice_index_or leaves.new (number / 1024) None)) }
    ensures same { (other : ℕ) → entry_of leaves.new other ≡ entry_of leaves.old other }
    ensures err { OnErr result (leaves.new ≡ leaves.old) }
{
    let at = leaf_of(number);
    if leaves[at].is_none() {
        leaves[at] = Some(Leaf::new(alloc)?);
    }
    Ok(())
}

/// Puts a page of zeros at the number, and tells whether none was mapped there.
pub(crate) fn map(
    leaves: &mut [Option<Leaf>],
    alloc: Global,
    number: u32,
    protection: u8,
) -> Result<bool, AllocError>
    requires { number / 1024 < length leaves.old }
    ensures was { IfOk result (λ fresh. fresh ≡ not (is_some (entry_of leaves.old number))) }
    ensures ok { OnOk result (SetsEntry leaves.old leaves.new number (Some (zero_page protection))) }
    ensures err { OnErr result (leaves.new ≡ leaves.old) }
{
    make_leaf(leaves, alloc, number)?;
    Ok(put(leaves, number, Page::zeros(alloc, protection)).is_none())
}

/// Puts a page of zeros at each of the numbers, which are those of one table, and tells at how many of them none was
/// mapped.
pub(crate) fn map_run(
    leaves: &mut [Option<Leaf>],
    alloc: Global,
    first: u32,
    end: u32,
    protection: u8,
) -> Result<u32, AllocError>
    requires some { first < end }
    requires one { first / 1024 ≡ (end - 1) / 1024 }
    requires room { first / 1024 < length leaves.old }
    ensures fresh { IfOk result (λ fresh. fresh ≡ absent_among (entry_of leaves.old) first (end - first)) }
    ensures ok { OnOk result (Fills (entry_of leaves.old) (entry_of leaves.new) first end (zero_page protection)) }
    ensures err { OnErr result (leaves.new ≡ leaves.old) }
{
    let at = leaf_of(first);
    if leaves[at].is_none() {
        let leaf = Leaf::with_run(alloc, place_of(first), place_of(end - 1) + 1, protection)?;
        leaves[at] = Some(leaf);
        return Ok(end - first);
    }
    Ok(fill(leaves, alloc, first, end, protection))
}

/// The same, where the table is there.
fn fill(leaves: &mut [Option<Leaf>], alloc: Global, first: u32, end: u32, protection: u8) -> u32
    requires some { first < end }
    requires one { first / 1024 ≡ (end - 1) / 1024 }
    requires room { first / 1024 < length leaves.old }
    requires there { IsSome (slice_index_or leaves.old (first / 1024) None) }
    ensures fresh { result ≡ absent_among (entry_of leaves.old) first (end - first) }
    ensures now { Fills (entry_of leaves.old) (entry_of leaves.new) first end (zero_page protection) }
{
    match &mut leaves[leaf_of(first)] {
        Some(leaf) => {
            leaf.fill(alloc, place_of(first), place_of(end - 1) + 1, protection) as u32
        }
        None => 0,
    }
}

/// The end of the numbers from `first` on that stand in its table, at most `end`.
pub(crate) fn end_in_table(first: u32, end: u32) -> u32
    requires { first < end }
    ensures from { first < result }
    ensures end { result ≤ end }
    ensures table { first / 1024 ≡ (result - 1) / 1024 }
{
    let room = ENTRIES as u32 - first % ENTRIES as u32;
    if room < end - first {
        first + room
    } else {
        end
    }
}

/// Puts the page at the number, whose table is there, and gives the one that stood there.
fn put(leaves: &mut [Option<Leaf>], number: u32, page: Page) -> Option<Page>
    requires room { number / 1024 < length leaves.old }
    requires there { IsSome (slice_index_or leaves.old (number / 1024) None) }
    ensures was { result ≡ entry_of leaves.old number }
    ensures now { SetsEntry leaves.old leaves.new number (Some page) }
{
    match &mut leaves[leaf_of(number)] {
        Some(leaf) => leaf.put(place_of(number), page),
        None => Some(page),
    }
}

/// Takes the number's entry out.
pub(crate) fn take(leaves: &mut [Option<Leaf>], number: u32) -> Option<Page>
    requires { number / 1024 < length leaves.old }
    ensures was { result ≡ entry_of leaves.old number }
    ensures now { SetsEntry leaves.old leaves.new number None }
    ensures tables { (at : ℕ) → IsSome (slice_index_or leaves.old at None) → IsSome (slice_index_or leaves.new at None) }
{
    match &mut leaves[leaf_of(number)] {
        Some(leaf) => leaf.take(place_of(number)),
        None => None,
    }
}

/// Writes the bytes into the number's page from a place in it on, where it is mapped.
pub(crate) fn write(
    leaves: &mut [Option<Leaf>],
    alloc: Global,
    number: u32,
    at: usize,
    bytes: &[u8],
) -> Result<(), AllocError>
    requires room { number / 1024 < length leaves.old }
    requires inside { at + length bytes.now ≤ 4096 }
    ensures ok { OnOk result (SetsEntry leaves.old leaves.new number
        (option_map (λ p. with_piece p at bytes.now) (entry_of leaves.old number))) }
    ensures err { OnErr result (leaves.new ≡ leaves.old) }
    ensures ready { is_ready (entry_of leaves.old number) ≡ true → IsOk result }
{
    match &mut leaves[leaf_of(number)] {
        Some(leaf) => leaf.write(alloc, place_of(number), at, bytes)?,
        None => {}
    }
    Ok(())
}

/// The same where the page is mapped with leave to write.
#[inline(always)]
pub(crate) fn write_if_allowed(
    leaves: &mut [Option<Leaf>],
    alloc: Global,
    number: u32,
    at: usize,
    bytes: &[u8],
) -> Result<(), WriteError>
    requires room { number / 1024 < length leaves.old }
    requires inside { at + length bytes.now ≤ 4096 }
    ensures ok { OnOk result (SetsEntry leaves.old leaves.new number
        (option_map (λ p. with_piece p at bytes.now) (entry_of leaves.old number))) }
    ensures err { OnErr result (leaves.new ≡ leaves.old) }
    ensures answer { IsWriteAnswer (entry_of leaves.old number) result }
{
    match &mut leaves[leaf_of(number)] {
        Some(leaf) => leaf.write_if_allowed(alloc, place_of(number), at, bytes)?,
        None => return Err(WriteError::Absent),
    }
    Ok(())
}

/// Makes the number's page one of zeros again, where it is mapped.
pub(crate) fn clear(leaves: &mut [Option<Leaf>], alloc: Global, number: u32)
    requires { number / 1024 < length leaves.old }
    ensures { SetsEntry leaves.old leaves.new number (option_map cleared_page (entry_of leaves.old number)) }
{
    if let Some(leaf) = &mut leaves[leaf_of(number)] {
        leaf.clear(alloc, place_of(number));
    }
}

/// Gives the number's page the protection, where it is mapped.
pub(crate) fn protect(leaves: &mut [Option<Leaf>], number: u32, protection: u8)
    requires { number / 1024 < length leaves.old }
    ensures { SetsEntry leaves.old leaves.new number
        (option_map (λ p. with_protection p protection) (entry_of leaves.old number)) }
{
    if let Some(leaf) = &mut leaves[leaf_of(number)] {
        leaf.protect(place_of(number), protection);
    }
}

/// The greatest number from `first` up to the end at which a page is mapped, or at which none is. Tables that have
/// no such number are passed over whole.
pub(crate) fn last(leaves: &[Option<Leaf>], mapped: bool, first: u32, end: u32) -> Option<u32>
    requires { end ≤ 1024 * length leaves.now }
    ensures { IsLastNumber leaves.now mapped first end result }
{
    let mut past = end;
    while past > first {
        let begin = begin_in_table(first, past);
        let found = last_in_table(leaves, mapped, begin, past);
        if found.is_some() {
            return found;
        }
        past = begin;
    }
    None
}

/// The least number from `first` on in the table of the last number below the end.
fn begin_in_table(first: u32, end: u32) -> u32
    requires { first < end }
    ensures begin { first ≤ result }
    ensures end { result < end }
    ensures table { result / 1024 ≡ (end - 1) / 1024 }
{
    let begin = (end - 1) / 1024 * 1024;
    if begin < first { first } else { begin }
}

/// The same of the numbers of one table.
fn last_in_table(leaves: &[Option<Leaf>], mapped: bool, first: u32, end: u32) -> Option<u32>
    requires some { first < end }
    requires one { first / 1024 ≡ (end - 1) / 1024 }
    requires room { end ≤ 1024 * length leaves.now }
    ensures { IsLastNumber leaves.now mapped first end result }
{
    let at = leaf_of(first);
    match &leaves[at] {
        Some(leaf) => match leaf.last(mapped, place_of(first), place_of(end - 1) + 1) {
            Some(place) => Some((at * ENTRIES + place) as u32),
            None => None,
        },
        None if mapped => None,
        None => Some(end - 1),
    }
}

/// Moves the page of one number to another one, at which none is mapped.
pub(crate) fn move_page(
    leaves: &mut [Option<Leaf>],
    alloc: Global,
    from: u32,
    to: u32,
) -> Result<(), AllocError>
    requires from { from / 1024 < length leaves.old }
    requires to { to / 1024 < length leaves.old }
    ensures ok { OnOk result (MovesEntry leaves.old leaves.new from to) }
    ensures err { OnErr result (leaves.new ≡ leaves.old) }
{
    make_leaf(leaves, alloc, to)?;
    if let Some(page) = take(leaves, from) {
        let _ = put(leaves, to, page);
    }
    Ok(())
}
