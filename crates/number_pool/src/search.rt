//! The least free place, found in the words and by the tree over them.
ghost use Rattle.std.specs.Prelude.{◌<◌, ◌≤◌, ◌^◌, MatchOption};
ghost use Rattle.number_pool.specs.Places.{AreTakenFrom, IsLeastFreeFrom};
ghost use Rattle.number_pool.specs.inside.Tree.{IsTree, leaves};
ghost use Rattle.number_pool.specs.inside.Words.{AreOnesFrom, IsLeastZeroFrom, IsPool, word_count};

use crate::tree::least_free_below;
use crate::words::{WORD_PLACES, first_free_place, free_place, levels_above, word_count};

/// The least free place of the words that is not below `from`. Of the words after that of `from` only one is
/// looked at: the tree tells which.
pub(crate) fn least_free_place(words: &[u64], full: &[bool], levels: u32, from: u32) -> Option<u32>
    requires pool { IsPool levels words.now full.now }
    requires from { from < 2 ^ levels }
    ensures { MatchOption result (AreOnesFrom words.now from) (IsLeastZeroFrom words.now from) }
{
    let first = from / WORD_PLACES;
    if let Some(place) = free_place(words[first as usize], from % WORD_PLACES) {
        return Some(WORD_PLACES * first + place);
    }
    let number = first_not_full(full, levels, first + 1)?;
    let place = first_free_place(words[number as usize]);
    Some(WORD_PLACES * number + place)
}

/// The first word from one on that is not full.
fn first_not_full(full: &[bool], levels: u32, from: u32) -> Option<u32>
    requires tree { IsTree (word_count levels) full.now }
    requires small { levels < 31 }
    requires from { from ≤ word_count levels }
    ensures { MatchOption result
        (AreTakenFrom (leaves (word_count levels) full.now) from)
        (IsLeastFreeFrom (leaves (word_count levels) full.now) from) }
{
    let words = word_count(levels);
    let leaf = least_free_below(full, 1, levels_above(levels), words + from)?;
    Some(leaf - words)
}
