//! Ranges of pages that get another size: mremap(2) and brk(2).
ghost use Rattle.std.specs.Prelude.{◌≡◌, ◌+◌, ◌-◌, ◌<◌, ◌≤◌, ◌&&◌, ℕ, Bool, if◌then◌else◌, IfOk, OnOk, IsTrue, ◌↔◌};
ghost use Rattle.std.specs.FinMap.{len};
ghost use Rattle.guest_space.specs.Memory.{IsValid};
ghost use Rattle.guest_space.specs.Mapping.{mapped_run};
ghost use Rattle.guest_space.specs.Places.{IsFree};
ghost use Rattle.guest_space.specs.Remapping.{IsRemapAnswer};
ghost use Rattle.guest_space.specs.Break.{may_add, pages_between, pages_up_to, with_break};

use crate::access::MapError;
use crate::range::{greatest_place, is_free, map_zeros, move_pages, unmap_pages};
use kernel_core::NoMemory;
use kernel_core::address_space::PAGE_LIMIT;
use raw_pages::PageStore;

/// The page at 0x7F7F0000, past which no range grows where it stands.
const GROWTH_END: u32 = 0x7_F7F0;

/// The greatest program break.
const BREAK_END: u32 = 0x7000_0000;

/// The protection of the pages that the break adds: read and write.
const BREAK_PROTECTION: u8 = 3;

/// Gives the range of `old` mapped pages the size of `new` pages, and answers its first page.
pub(crate) fn resize(
    pages: &mut PageStore,
    first: u32,
    old: u32,
    new: u32,
    may_move: bool,
) -> Result<u32, MapError>
    requires end { first + old ≤ 524280 }
    requires some_old { 0 < old }
    requires some_new { 0 < new }
    requires mapped { mapped_run pages.old first old ≡ old }
    requires valid { IsValid pages.old }
    ensures answer { IsRemapAnswer result pages.old pages.new first old new may_move }
    ensures valid { IsValid pages.new }
{
    if new <= old {
        unmap_pages(pages, first + new, old - new);
        return Ok(first);
    }
    if passes_limit(pages, new - old) {
        return Err(MapError::Full);
    }
    let protection = pages.prot(first + old - 1).unwrap_or(0);
    if may_grow(pages, first + old, new - old) {
        map_zeros(pages, first + old, new - old, protection)?;
        return Ok(first);
    }
    if !may_move {
        return Err(MapError::NoPlace);
    }
    match greatest_place(pages, new) {
        None => Err(MapError::NoPlace),
        Some(to) => {
            move_pages(pages, first, to, old)?;
            map_zeros(pages, to + old, new - old, protection)?;
            Ok(to)
        }
    }
}

/// Whether so many more pages would be too many.
fn passes_limit(pages: &PageStore, more: u32) -> bool
    ensures { IsTrue result ↔ (131072 < len pages.now + more) }
{
    u64::from(pages.len()) + u64::from(more) > u64::from(PAGE_LIMIT)
}

/// Whether the pages from `end` on are free and end where a range may grow.
fn may_grow(pages: &PageStore, end: u32, more: u32) -> bool
    requires { end ≤ 524280 }
    ensures { IsTrue result ↔ ((end + more ≤ 522224) × IsFree pages.now end more) }
{
    u64::from(end) + u64::from(more) <= u64::from(GROWTH_END) && is_free(pages, end, more)
}

/// The break after a wish for it, with the pages between both breaks mapped or taken away.
pub(crate) fn new_break(
    pages: &mut PageStore,
    start: u32,
    from: u32,
    to: u32,
) -> Result<u32, NoMemory>
    ensures ok { IfOk result (λ now. record { pages = pages.new; program_break = now; break_start = start }
        ≡ with_break (record { pages = pages.old; program_break = from; break_start = start }) to) }
    ensures valid { IsValid pages.old → IsValid pages.new }
{
    if to < start {
        return Ok(from);
    }
    if to > BREAK_END {
        return Ok(from);
    }
    let moved = move_break(pages, from, to)?;
    Ok(if moved { to } else { from })
}

/// Maps the pages between both breaks or takes them away, and tells whether that could be.
fn move_break(pages: &mut PageStore, from: u32, to: u32) -> Result<bool, NoMemory>
    requires { to ≤ 1879048192 }
    ensures answer { IfOk result (λ moved. moved ≡ may_add pages.old (pages_up_to from) (pages_up_to to - pages_up_to from)) }
    ensures ok { IfOk result (λ moved. pages.new ≡ (if moved then pages_between pages.old from to else pages.old)) }
    ensures valid { IsValid pages.old → IsValid pages.new }
{
    let old_end = page_up(from);
    let new_end = page_up(to);
    if new_end <= old_end {
        unmap_pages(pages, new_end, old_end - new_end);
        return Ok(true);
    }
    let more = new_end - old_end;
    if passes_limit(pages, more) {
        return Ok(false);
    }
    if !is_free(pages, old_end, more) {
        return Ok(false);
    }
    map_zeros(pages, old_end, more, BREAK_PROTECTION)?;
    Ok(true)
}

/// The number of pages up to the address, rounded up.
fn page_up(address: u32) -> u32
    ensures { result ≡ pages_up_to address }
{
    u64::from(address).div_ceil(4096) as u32
}
