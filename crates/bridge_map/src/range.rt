//! Addresses and lengths as ranges of pages.
ghost use Rattle.std.specs.Prelude.{◌≡◌, ◌≤◌, ◌+◌, ◌<◌};
ghost use Rattle.guest_space.specs.Mapping.{mapped_run};
ghost use Rattle.o32_model.specs.Ranges as ranges;

use guest_space::Space;
use kernel_core::address_space::PAGE_SIZE;

/// How many pages a program's half of memory has.
pub(crate) const USER_PAGES: u32 = 524_280;

/// Whether the address is that of a page.
pub(crate) fn is_aligned(address: u32) -> bool
    ensures { result ≡ ranges.is_aligned address }
{
    address % PAGE_SIZE == 0
}

/// The page in which the address lies.
pub(crate) fn page_of(address: u32) -> u32
    ensures value { result ≡ ranges.page_of address }
    ensures small { result < 1048576 }
{
    address / PAGE_SIZE
}

/// How many pages the length has, rounded up as a whole number.
pub(crate) fn page_count(length: u32) -> u32
    ensures value { result ≡ ranges.page_count length }
    ensures some { 0 < length → 0 < result }
    ensures small { result ≤ 1048576 }
{
    u64::from(length).div_ceil(4096) as u32
}

/// Whether a page of the range lies past user space.
pub(crate) fn is_beyond(first: u32, count: u32) -> bool
    requires first { first ≤ 1048576 }
    requires count { count ≤ 1048576 }
    ensures { result ≡ ranges.is_beyond first count }
{
    first + count > USER_PAGES
}

/// How many pages are mapped from `first` on before the first absent one, at most `count`. No page past user
/// space is mapped.
pub(crate) fn mapped(space: &Space, first: u32, count: u32) -> u32
    ensures value { result ≡ mapped_run space.now.pages first count }
    ensures bound { result ≤ count }
    ensures run { mapped_run space.now.pages first result ≡ result }
    ensures inside { 0 < result → (first < 524280) × (first + result ≤ 524280) }
{
    space.whole();
    if first >= USER_PAGES {
        return 0;
    }
    space.mapped(first, count.min(USER_PAGES - first))
}
