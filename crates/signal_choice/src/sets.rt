//! Sets of signals, as four words of 32 bits with a bit for each signal.
ghost use Rattle.std.specs.Prelude.{◌≡◌, ◌==◌, ◌<◌, ◌^◌, if◌then◌else◌};
ghost use Rattle.kernel_model.specs.Always.{IsSet};
ghost use Rattle.kernel_model.specs.SignalRows.{is_unblockable};
ghost use Rattle.kernel_model.specs.SignalSets as spec;
ghost use Rattle.kernel_model.specs.SignalSets.{blockable, place, signal_count};

use kernel_core::Sig;
use number_tables::O32Number;

/// How many signals an o32 program has (`_NSIG` of Linux `arch/mips/include/uapi/asm/signal.h`): they have the numbers
/// 1 to 128.
pub(crate) const SIGNALS: u32 = 128;

/// Whether a signal is in a set, which has bit s - 1 for signal s of an o32 program, the lowest of the first word for
/// signal 1 (sigismember(3)).
pub fn has(set: &[u32; 4], sig: Sig) -> bool
    ensures { result ≡ spec.has set.now sig }
{
    let place = place_of(sig);
    (set[place / 32] >> (place % 32)) % 2 == 1
}

/// Whether a call that waits for the signals of a set waits for this one: it is in the set, and it is not KILL or STOP,
/// which no call waits for (sigtimedwait(2)).
#[tactic(auto, using(crate::proofs::Blockable::named))]
pub fn is_named(set: &[u32; 4], sig: Sig) -> bool
    ensures { result ≡ spec.has (blockable set.now) sig }
{
    is_set(set);
    has(set, sig) && !is_unblockable(sig)
}

/// Whether a signal can't be blocked, nor waited for, nor get an action: KILL and STOP (signal(7)).
pub fn is_unblockable(sig: Sig) -> bool
    ensures { result ≡ is_unblockable sig }
{
    matches!(sig, Sig::Kill | Sig::Stop)
}

/// The set of one signal, as in [`has`].
#[tactic(auto, using(native_signal::proofs::SetMarks::shifted))]
pub fn only(sig: Sig) -> [u32; 4]
    ensures { result ≡ spec.only sig }
{
    let place = place_of(sig);
    let bit = 1 << (place % 32);
    let word = place / 32;
    [
        bit_if(word == 0, bit),
        bit_if(word == 1, bit),
        bit_if(word == 2, bit),
        bit_if(word == 3, bit),
    ]
}

fn bit_if(is: bool, bit: u32) -> u32
    ensures { result ≡ (if is then bit else 0) }
{
    if is { bit } else { 0 }
}

/// A set has four words of 32 bits: it does nothing, and tells its caller this.
fn is_set(set: &[u32; 4])
    ensures { IsSet set.now }
{
    for word in set {
        fits(*word);
    }
}

fn fits(word: u32)
    ensures { word < 2 ^ 32 }
{}

/// The place of a signal among all, from 0 to 127: its number for an o32 program less 1.
#[tactic(auto, using(native_signal::proofs::PlaceNumbers::numbers))]
fn place_of(sig: Sig) -> usize
    ensures place { result ≡ place sig }
    ensures below { result < signal_count }
{
    sig.to_o32() as usize - 1
}
