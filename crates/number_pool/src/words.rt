//! Places as bits, 64 in a word: the bit of a place is 1 where it is taken.
ghost use Rattle.std.specs.Prelude.{◌≡◌, ◌≢◌, ℕ, ◌-◌, ◌*◌, ◌<◌, ◌==◌, false, IfOk, MatchOption, length, replicate};
ghost use Rattle.std.specs.Int.{bit_at};
ghost use Rattle.number_pool.specs.inside.Words.{AreOnes, IsLeastZero, bit_of, is_full, word_count};

use std::alloc::{AllocError, Global};

/// How many places a word has.
pub(crate) const WORD_PLACES: u32 = 64;

/// The levels of a pool whose places fill one word.
const WORD_LEVELS: u32 = 6;

/// How many levels of a pool stand above its words.
pub(crate) fn levels_above(levels: u32) -> u32
    ensures { result ≡ levels - 6 }
{
    levels.saturating_sub(WORD_LEVELS)
}

/// How many words a pool with so many levels has.
pub(crate) fn word_count(levels: u32) -> u32
    requires { levels < 31 }
    ensures { result ≡ word_count levels }
{
    1 << levels_above(levels)
}

/// So many words in which every place is free.
pub(crate) fn free_words(alloc: Global, count: usize) -> Result<Vec<u64>, AllocError>
    ensures { IfOk result (λ words. words.items ≡ replicate count 0) }
{
    vec![in alloc; 0; count]
}

/// Whether no place of a word is free.
pub(crate) fn is_full(word: u64) -> bool
    ensures { result ≡ is_full word }
{
    word == u64::MAX
}

/// Whether a place of the words is taken.
pub(crate) fn is_taken(words: &[u64], place: u32) -> bool
    requires { place < 64 * length words.now }
    ensures { result ≡ (bit_of words.now place == 1) }
{
    let word = words[(place / WORD_PLACES) as usize];
    word >> (place % WORD_PLACES) & 1 == 1
}

/// The word with a place taken, or free, and the others as they were.
pub(crate) fn marked(word: u64, place: u32, taken: bool) -> u64
    requires { place < 64 }
    ensures place { (bit_at result place == 1) ≡ taken }
    ensures others { (other : ℕ) → other < 64 → other ≢ place → bit_at result other ≡ bit_at word other }
{
    let bit = 1 << place;
    if taken { word | bit } else { word & !bit }
}

/// The least free place of a word that is not below `from`.
pub(crate) fn free_place(word: u64, from: u32) -> Option<u32>
    requires { from < 64 }
    ensures { MatchOption result (AreOnes word from) (IsLeastZero word from) }
{
    let taken = word | ((1 << from) - 1);
    if is_full(taken) {
        None
    } else {
        Some(first_free_place(taken))
    }
}

/// The least free place of a word that is not full.
pub(crate) fn first_free_place(word: u64) -> u32
    requires { is_full word ≡ false }
    ensures { IsLeastZero word 0 result }
{
    word.trailing_ones()
}
