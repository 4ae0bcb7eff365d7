//! Sets of signals, as four words with a bit for each place.
ghost use Rattle.std.specs.Prelude.{◌≡◌, ◌<◌, ◌^◌, All};
ghost use Rattle.kernel_model.specs.Always.{IsMask};
ghost use Rattle.kernel_model.specs.SignalSets as spec;
ghost use Rattle.kernel_model.specs.SignalSets.{signal_count};
ghost use Rattle.native_signal.specs.inside.Pending.{marked};

use crate::places::place_of;
use kernel_core::Sig;

/// The bits of KILL, place 8, and STOP, place 22, in the first word of a set.
const UNBLOCKABLE: u32 = 0x0040_0100;

/// Puts a place into a set where something pends there, and else takes it out.
#[tactic(auto, using(crate::proofs::SetMarks::shifted))]
pub fn mark(set: &mut [u32; 4], place: usize, pends: bool)
    requires { place < signal_count }
    ensures { set.new ≡ marked set.old place pends }
{
    let bit = 1 << (place % 32);
    if pends {
        set[place / 32] |= bit;
    } else {
        set[place / 32] &= !bit;
    }
}

/// Whether a signal is in a set.
pub fn has(set: &[u32; 4], sig: Sig) -> bool
    ensures { result ≡ spec.has set.now sig }
{
    let place = place_of(sig);
    (set[place / 32] >> (place % 32)) % 2 == 1
}

/// A set without KILL and STOP, which no mask holds.
pub fn blockable(set: [u32; 4]) -> [u32; 4]
    ensures value { result ≡ spec.blockable set }
    ensures mask { IsMask result }
{
    words_fit(&set);
    [set[0] & !UNBLOCKABLE, set[1], set[2], set[3]]
}

/// Each word of a set fits 32 bits: it does nothing, and tells its caller this.
fn words_fit(set: &[u32; 4])
    ensures { All (λ word. word < 2 ^ 32) set.now }
{
    for word in set {
        fits(*word);
    }
}

fn fits(word: u32)
    ensures { word < 2 ^ 32 }
{}
