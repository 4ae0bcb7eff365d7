//! Ranges of pages of a page store.
ghost use Rattle.std.specs.Prelude.{◌≡◌, ◌+◌, ◌<◌, ◌≤◌, ◌⊎◌, ◌↔◌, ℕ, IsTrue, IsSome, OnOk, OnErr, true};
ghost use Rattle.std.specs.FinMap as map;
ghost use Rattle.guest_space.specs.Mapping.{with_zeros, with_protection, mapped_run, absent_count};
ghost use Rattle.guest_space.specs.Memory.{IsValid};
ghost use Rattle.guest_space.specs.Places.{IsFree, IsGreatestPlace};
ghost use Rattle.guest_space.specs.Remapping.{without, AreMoved};

use kernel_core::NoMemory;
use raw_pages::PageStore;

/// The pages at 0x10000000 and 0x70000000, between which a mapping goes whose caller names no place.
const PLACES_BEGIN: u32 = 0x1_0000;

const PLACES_END: u32 = 0x7_0000;

/// How many pages of the range are absent. Where all are, they are not looked at one by one.
pub(crate) fn absent_pages(pages: &PageStore, first: u32, count: u32) -> u32
    requires { first + count ≤ 524280 }
    ensures value { result ≡ absent_count pages.now first count }
    ensures bound { result ≤ count }
{
    if pages.last_mapped(first, first + count).is_none() {
        return count;
    }
    count_absent(pages, first, count)
}

/// The same, page by page.
fn count_absent(pages: &PageStore, first: u32, count: u32) -> u32
    requires { first + count ≤ 524280 }
    ensures value { result ≡ absent_count pages.now first count }
    ensures bound { result ≤ count }
{
    let mut absent = 0;
    for done in 0..count {
        if !pages.is_mapped(first + done) {
            absent += 1;
        }
    }
    absent
}

/// Maps pages of zeros. After an error a first part of them was mapped.
pub(crate) fn map_zeros(
    pages: &mut PageStore,
    first: u32,
    count: u32,
    protection: u8,
) -> Result<(), NoMemory>
    requires end { first + count ≤ 524280 }
    requires protection { protection ≤ 7 }
    ensures ok { OnOk result (pages.new ≡ with_zeros pages.old first count protection) }
    ensures err { OnErr result
        ((k : ℕ) × (k < count) × (pages.new ≡ with_zeros pages.old first k protection)) }
    ensures valid { IsValid pages.old → IsValid pages.new }
{
    pages.map_run(first, count, protection)?;
    Ok(())
}

/// How many pages are looked at together, where all of them may be mapped.
const TOGETHER: u32 = 1024;

/// The number of pages that are mapped from `first` on before the first absent one, at most `count`. So many
/// together as a table of pages has are passed over where they are all mapped.
pub(crate) fn mapped_pages(pages: &PageStore, first: u32, count: u32) -> u32
    requires { first + count ≤ 524280 }
    ensures value { result ≡ mapped_run pages.now first count }
    ensures bound { result ≤ count }
{
    let mut done = 0;
    while begins_mapped(pages, first + done, count - done) {
        done += TOGETHER;
    }
    done + leading_pages(pages, first + done, count - done)
}

/// Whether the range begins with so many mapped pages.
fn begins_mapped(pages: &PageStore, first: u32, count: u32) -> bool
    requires { first + count ≤ 524280 }
    ensures enough { result ≡ true → 1024 ≤ count }
    ensures mapped { result ≡ true → (number : ℕ) → first ≤ number → number < first + 1024 → IsSome (map.get pages.now number) }
{
    count >= TOGETHER && pages.last_free(first, first + TOGETHER).is_none()
}

/// The same, page by page.
fn leading_pages(pages: &PageStore, first: u32, count: u32) -> u32
    requires { first + count ≤ 524280 }
    ensures value { result ≡ mapped_run pages.now first count }
    ensures bound { result ≤ count }
{
    for done in 0..count {
        if !pages.is_mapped(first + done) {
            return done;
        }
    }
    count
}

/// Gives the mapped pages of the range this protection.
pub(crate) fn protect_pages(pages: &mut PageStore, first: u32, count: u32, protection: u8)
    requires end { first + count ≤ 524280 }
    requires protection { protection ≤ 7 }
    ensures { pages.new ≡ with_protection pages.old first count protection }
{
    for done in 0..count {
        pages.protect(first + done, protection);
    }
}

/// Takes the pages of the range away, where they are mapped.
pub(crate) fn unmap_pages(pages: &mut PageStore, first: u32, count: u32)
    requires { first + count ≤ 1048576 }
    ensures changed { pages.new ≡ without pages.old first count }
    ensures valid { IsValid pages.old → IsValid pages.new }
{
    for done in 0..count {
        pages.unmap(first + done);
    }
}

/// Whether none of the pages is mapped. Tables with no page are passed over whole.
pub(crate) fn is_free(pages: &PageStore, first: u32, count: u32) -> bool
    requires { first + count ≤ 1048576 }
    ensures { IsTrue result ↔ IsFree pages.now first count }
{
    pages.last_mapped(first, first + count).is_none()
}

/// The greatest first page of a free run of so many pages for a mapping. It is sought from the top down, a run of
/// mapped pages at a time.
pub(crate) fn greatest_place(pages: &PageStore, count: u32) -> Option<u32>
    requires { 0 < count }
    ensures { IsGreatestPlace pages.now count result }
{
    let mut end = PLACES_END;
    while end - PLACES_BEGIN >= count {
        match pages.last_mapped(end - count, end) {
            None => return Some(end - count),
            Some(last) => match pages.last_free(PLACES_BEGIN, last) {
                None => return None,
                Some(free) => end = free + 1,
            },
        }
    }
    None
}

/// Moves the pages of a range to another one, at which no page is mapped.
pub(crate) fn move_pages(
    pages: &mut PageStore,
    first: u32,
    to: u32,
    count: u32,
) -> Result<(), NoMemory>
    requires from_end { first + count ≤ 524280 }
    requires to_end { to + count ≤ 524280 }
    requires free { IsFree pages.old to count }
    requires apart { (first + count ≤ to) ⊎ (to + count ≤ first) }
    ensures ok { OnOk result (AreMoved pages.old pages.new first to count) }
    ensures valid { IsValid pages.old → IsValid pages.new }
{
    for done in 0..count {
        pages.move_page(first + done, to + done)?;
    }
    Ok(())
}
