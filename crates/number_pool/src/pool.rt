//! The pool of places as callers see it.
ghost use Rattle.std.specs.Prelude.{◌≡◌, ◌<◌, ◌^◌, true, false, length, IfOk, MatchOption, slice_set};
ghost use Rattle.number_pool.specs.Places.{AreAllTaken, AreTakenFrom, IsLeastFree, IsLeastFreeFrom, is_taken_at, none_taken};

use crate::search::least_free_place;
use crate::tree::{new_tree, set_leaf};
use crate::words::{WORD_PLACES, free_words, is_full, is_taken, marked, word_count};
use kernel_core::NoMemory;
use std::alloc::Global;
use std::marker::Model;

/// Which of the places from 0 on, of which there are 2^`LEVELS`, are taken. Contracts see a pool as the list
/// that says of each place whether it is taken. Only `new` takes memory, ten bytes for 64 places.
#[derive(Drop)]
pub struct NumberPool<const LEVELS: u32> {
    /// The places, a bit for each.
    words: Vec<u64>,
    /// Which words have no free place, in the leaves of a tree.
    full: Vec<bool>,
}

impl<const LEVELS: u32> Model for NumberPool<LEVELS> {
    ghost use Rattle.std.specs.Prelude.{◌^◌, Bool, List};
    ghost use Rattle.number_pool.specs.inside.Words.{IsPool, places_in};

    ghost Value = { List Bool };

    ghost view = { λ p. places_in (2 ^ LEVELS) p.words.items };

    ghost invariant = { λ p. IsPool LEVELS p.words.items p.full.items };
}

impl<const LEVELS: u32> NumberPool<LEVELS> {
    /// A pool with every place free, of which there are fewer than 2^31. It takes its memory from `alloc`.
    pub fn new(alloc: Global) -> Result<NumberPool<LEVELS>, NoMemory>
        requires small { LEVELS < 31 }
        ensures free { IfOk result (λ pool. pool ≡ none_taken (2 ^ LEVELS)) }
        ensures whole { IfOk result (λ pool. length pool ≡ 2 ^ LEVELS) }
    {
        let count = word_count(LEVELS) as usize;
        let words = free_words(alloc, count)?;
        let full = new_tree(alloc, count)?;
        Ok(NumberPool { words, full })
    }

    /// Makes the place taken, whether or not it was. `place` is below 2^`LEVELS`. At most a step
    /// for each level, no memory.
    pub fn take(&mut self, place: u32)
        requires { place < 2 ^ LEVELS }
        ensures taken { self.new ≡ slice_set self.old place true }
        ensures whole { length self.new ≡ 2 ^ LEVELS }
    {
        self.mark(place, true);
    }

    /// Makes the place free, whether or not it was. `place` is below 2^`LEVELS`. At most a step
    /// for each level, no memory.
    pub fn give_back(&mut self, place: u32)
        requires { place < 2 ^ LEVELS }
        ensures free { self.new ≡ slice_set self.old place false }
        ensures whole { length self.new ≡ 2 ^ LEVELS }
    {
        self.mark(place, false);
    }

    /// Whether the place is taken. A number that is no place, 2^`LEVELS` or more, is never taken.
    pub fn is_taken(&self, place: u32) -> bool
        ensures value { result ≡ is_taken_at self.now place }
        ensures whole { length self.now ≡ 2 ^ LEVELS }
    {
        let words = self.words.as_slice();
        place < places(LEVELS) && is_taken(words, place)
    }

    /// The least free place, which is below 2^`LEVELS`, or None where every place is taken. At most two steps
    /// for each level, no memory.
    pub fn least_free(&self) -> Option<u32>
        ensures least { MatchOption result (AreAllTaken self.now) (IsLeastFree self.now) }
        ensures whole { length self.now ≡ 2 ^ LEVELS }
    {
        self.least_free_from(0)
    }

    /// The least free place that is not below `from`, or None where every place from there on is taken.
    /// At most two steps for each level, no memory.
    pub fn least_free_from(&self, from: u32) -> Option<u32>
        ensures least { MatchOption result (AreTakenFrom self.now from) (IsLeastFreeFrom self.now from) }
        ensures whole { length self.now ≡ 2 ^ LEVELS }
    {
        let (words, full) = (self.words.as_slice(), self.full.as_slice());
        let places = places(LEVELS);
        if from >= places {
            return None;
        }
        let place = least_free_place(words, full, LEVELS, from)?;
        if place < places { Some(place) } else { None }
    }

    fn mark(&mut self, place: u32, taken: bool)
        requires { place < 2 ^ LEVELS }
        ensures marked { self.new ≡ slice_set self.old place taken }
        ensures whole { length self.new ≡ 2 ^ LEVELS }
    {
        let number = (place / WORD_PLACES) as usize;
        let word = marked(self.words[number], place % WORD_PLACES, taken);
        self.words[number] = word;
        let count = word_count(LEVELS) as usize;
        set_leaf(self.full.as_mut_slice(), count, number, is_full(word));
    }
}

/// The number of places of a pool with so many levels below the root.
fn places(levels: u32) -> u32
    requires { levels < 31 }
    ensures { result ≡ 2 ^ levels }
{
    1 << levels
}
