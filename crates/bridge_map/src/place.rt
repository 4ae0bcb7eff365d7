//! Where a mapping goes.
ghost use Rattle.std.specs.Prelude.{◌≡◌, ◌≤◌, ◌<◌, ◌+◌, true, IfOk, IfSome};
ghost use Rattle.o32_model.specs.Mappings as rows;
ghost use Rattle.o32_model.specs.Ranges as ranges;

use crate::range::{is_beyond, page_count, page_of};
use guest_space::Space;
use kernel_core::{Errno, MapFlags};

/// The first page that a hint may name, at 0x10000.
const HINTS_BEGIN: u32 = 0x10;

/// The page past which no hint is taken, at 0x7F7F0000.
const HINTS_END: u32 = 0x7_F7F0;

/// The first page of a mapping of so many pages: its fixed place, its hint, or the greatest free place. EPERM
/// is for page 0 as a fixed place; ENOMEM where a fixed place lies beyond user space, and where there is no
/// place.
pub(crate) fn place_for(
    space: &Space,
    flags: MapFlags,
    address: u32,
    count: u32,
) -> Result<u32, Errno>
    requires some { 0 < count }
    requires count { count ≤ 1048576 }
    ensures value { result ≡ rows.place_for space.now.pages flags address count }
    ensures inside { IfOk result (λ first. first + count ≤ 524280) }
{
    if flags.fixed() {
        fixed_place(address, count)
    } else {
        free_place(space, address, count)
    }
}

fn fixed_place(address: u32, count: u32) -> Result<u32, Errno>
    requires count { count ≤ 1048576 }
    ensures value { result ≡ rows.fixed_place address count }
    ensures inside { IfOk result (λ first. first + count ≤ 524280) }
{
    let first = page_of(address);
    if is_beyond(first, count) {
        return Err(Errno::ENOMEM);
    }
    if first == 0 {
        return Err(Errno::EPERM);
    }
    Ok(first)
}

fn free_place(space: &Space, address: u32, count: u32) -> Result<u32, Errno>
    requires some { 0 < count }
    requires count { count ≤ 1048576 }
    ensures value { result ≡ rows.free_place space.now.pages address count }
    ensures inside { IfOk result (λ first. first + count ≤ 524280) }
{
    let hint = page_count(address);
    if takes_hint(space, hint, count) {
        return Ok(hint);
    }
    match greatest_place(space, count) {
        Some(first) => Ok(first),
        None => Err(Errno::ENOMEM),
    }
}

/// Whether a mapping of so many pages goes where its hint says.
fn takes_hint(space: &Space, first: u32, count: u32) -> bool
    requires first { first ≤ 1048576 }
    requires count { count ≤ 1048576 }
    ensures value { result ≡ ranges.takes_hint space.now.pages first count }
    ensures inside { result ≡ true → first + count ≤ 524280 }
{
    if first < HINTS_BEGIN || first + count > HINTS_END {
        return false;
    }
    is_free(space, first, count)
}

/// Whether none of the pages is mapped.
fn is_free(space: &Space, first: u32, count: u32) -> bool
    requires { first + count ≤ 524280 }
    ensures { result ≡ ranges.is_free space.now.pages first count }
{
    space.is_free(first, count)
}

/// The greatest first page of a free run of so many pages.
#[tactic(auto, using(crate::proofs::Ranges::place_tells))]
fn greatest_place(space: &Space, count: u32) -> Option<u32>
    requires some { 0 < count }
    ensures value { result ≡ ranges.greatest_place space.now.pages count }
    ensures inside { IfSome result (λ first. first + count ≤ 524280) }
{
    space.place(count)
}
