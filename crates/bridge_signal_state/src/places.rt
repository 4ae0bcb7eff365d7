//! Sets of one signal.
ghost use Rattle.std.specs.Prelude.{◌≡◌, ◌<◌, if◌then◌else◌, ◌==◌};
ghost use Rattle.kernel_model.specs.SignalSets as spec;
ghost use Rattle.kernel_model.specs.SignalSets.{place, signal_count};

use kernel_core::Sig;
use number_tables::O32Number;

/// The set of one signal.
#[tactic(auto, using(native_signal::proofs::SetMarks::shifted))]
pub(crate) fn only(sig: Sig) -> [u32; 4]
    ensures { result ≡ spec.only sig }
{
    let place = place_of(sig);
    let bit = 1 << (place % 32);
    let word = place / 32;
    [
        bit_if(word == 0, bit),
        bit_if(word == 1, bit),
        bit_if(word == 2, bit),
        bit_if(word == 3, bit),
    ]
}

/// The place of a signal among all, from 0 to 127: its number for an o32 program less 1.
#[tactic(auto, using(native_signal::proofs::PlaceNumbers::numbers))]
fn place_of(sig: Sig) -> usize
    ensures place { result ≡ place sig }
    ensures below { result < signal_count }
{
    sig.to_o32() as usize - 1
}

fn bit_if(is: bool, bit: u32) -> u32
    ensures { result ≡ (if is then bit else 0) }
{
    if is { bit } else { 0 }
}
