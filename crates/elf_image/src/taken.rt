//! The memory that is taken: a map from the start of each part to its end.
ghost use Rattle.std.specs.Prelude.{◌≡◌, ◌<◌, ◌≤◌};
ghost use Rattle.std.specs.List.{list_any, AllByRecursion};
ghost use Rattle.elf_image.specs.Span.{Span, overlaps, pages_touched};
ghost use Rattle.elf_image.specs.inside.Taken.{entry_spans, AreApart};

use kernel_core::address_space::PAGE_SIZE;
use std::collections::BTreeMap;

/// Whether the bytes from `start` up to `end` have one in common with what is taken. Only the last
/// part that begins before `end` is looked at: the parts before it end before it.
pub fn meets(taken: &BTreeMap<u32, u32>, start: u32, end: u32) -> bool
    requires { AreApart taken.now.entries }
    ensures { result ≡ list_any (overlaps (record { start = start; end = end })) (entry_spans taken.now.entries) }
{
    match taken.range(..end).next_back() {
        Some((_, last)) => start < *last,
        None => false,
    }
}

/// How many pages the taken parts touch. They are gone through in order: of two neighbours the
/// second can begin in the page in which the first ends.
pub fn page_count(mut taken: BTreeMap<u32, u32>) -> u32
    requires { AreApart taken.entries }
    ensures { result ≡ pages_touched (entry_spans taken.entries) }
{
    let mut count = 0;
    let mut next = 0;
    while let Some((start, end)) = taken.pop_first() {
        let first = start / PAGE_SIZE;
        let after = (end - 1) / PAGE_SIZE + 1;
        count += after - first.max(next);
        next = after;
    }
    count
}
