//! Sets of signals as the kernel keeps them: four words with a bit for each place (sigsetops(3)).
ghost use Rattle.std.specs.Prelude.{◌≡◌, ◌<◌, bit_or};
ghost use Rattle.kernel_model.specs.SignalRows.{changed_mask};
ghost use Rattle.kernel_model.specs.SignalSets as spec;
ghost use Rattle.kernel_model.specs.SignalSets.{place, signal_count, union};

use crate::clock::unblocked;
use kernel_core::{MaskChange, Sig};
use number_tables::O32Number;

/// KILL, at the place 8, and STOP, at the place 22.
pub(crate) const UNBLOCKABLE: [u32; 4] = [0x0040_0100, 0, 0, 0];

/// Whether a signal is in a set.
pub(crate) fn has(set: &[u32; 4], sig: Sig) -> bool
    ensures { result ≡ spec.has set.now sig }
{
    let place = place_of(sig);
    (set[place / 32] >> (place % 32)) % 2 == 1
}

/// The place of a signal among all, from 0 to 127: its number for an o32 program less 1.
#[tactic(auto, using(native_signal::proofs::PlaceNumbers::numbers))]
fn place_of(sig: Sig) -> usize
    ensures place { result ≡ place sig }
    ensures below { result < signal_count }
{
    sig.to_o32() as usize - 1
}

/// A mask that is changed by a set (sigprocmask(2)).
pub(crate) fn changed_mask(how: MaskChange, mask: [u32; 4], set: [u32; 4]) -> [u32; 4]
    ensures { result ≡ changed_mask how mask set }
{
    match how {
        MaskChange::Block => union(mask, set),
        MaskChange::Unblock => unblocked(mask, set),
        MaskChange::Set => set,
    }
}

/// The signals of two sets.
#[tactic(auto, using(crate::proofs::MaskLemmas::union_words))]
fn union(set: [u32; 4], other: [u32; 4]) -> [u32; 4]
    ensures { result ≡ union set other }
{
    [
        set[0] | other[0],
        set[1] | other[1],
        set[2] | other[2],
        set[3] | other[3],
    ]
}
