//! The numbers of nodes, and the places of the pool that gives them out.
ghost use Rattle.std.specs.Prelude.{◌≡◌, ◌⊎◌, ◌+◌, ◌<◌, ◌≤◌, MatchOption};

use kernel_core::limits::NODE_LIMIT;

/// The number of the pool's first place: the root has the one below it (this project's own).
const FIRST_NUMBER: u64 = 2;

/// The number of the pool's last place: there is one for each node that there may be.
const LAST_NUMBER: u64 = FIRST_NUMBER + NODE_LIMIT as u64 - 1;

/// The levels of a pool with that many places: 2^16 is 65,536.
pub(crate) const NUMBER_LEVELS: u32 = 16;

/// The number of a place of the pool.
pub(crate) fn number_of(place: u32) -> u64
    ensures { result ≡ place + 2 }
{
    FIRST_NUMBER + u64::from(place)
}

/// The place that a number has in the pool, or None for the root's and those past the last place.
pub(crate) fn place_of(number: u64) -> Option<u32>
    ensures { MatchOption result ((number < 2) ⊎ (65538 ≤ number)) (λ place. (place < 65536) × (number ≡ place + 2)) }
{
    if number < FIRST_NUMBER || number > LAST_NUMBER {
        return None;
    }
    Some((number - FIRST_NUMBER) as u32)
}
