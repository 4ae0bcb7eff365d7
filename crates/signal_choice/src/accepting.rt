//! The signal that a call accepts which waits for those of a set.
ghost use Rattle.std.specs.Prelude.{◌≡◌, ◌&&◌, find};
ghost use Rattle.kernel_model.specs.SignalSets.{blockable, has};
ghost use Rattle.number_tables.specs.Signals.{signal_of_o32};
ghost use Rattle.o32_model.specs.Suspending.{all_signals};
ghost use Rattle.signal_choice.specs.inside.Passing.{passing};

use crate::sets::{SIGNALS, has, is_named};
use kernel_core::Sig;
use number_tables::O32Number;

/// The signal of the lowest number of an o32 program that is in `set`, KILL and STOP aside, and in
/// `pending`: the one that rt_sigtimedwait(2) accepts for this set. None exactly where there is none. Sets are as in [`crate::choose`].
pub fn accepted(pending: [u32; 4], set: [u32; 4]) -> Option<Sig>
    ensures { result ≡ find (λ signal. has (blockable set) signal && has pending signal) all_signals }
{
    for number in 1..SIGNALS + 1 {
        let found = named_at(number, &pending, &set);
        if found.is_some() {
            return found;
        }
    }
    None
}

/// The signal of a number, where it is named by `set` and in `pending`.
fn named_at(number: u32, pending: &[u32; 4], set: &[u32; 4]) -> Option<Sig>
    ensures { result ≡ passing (λ signal. has (blockable set.now) signal && has pending.now signal) (signal_of_o32 number) }
{
    match Sig::of_o32(number) {
        Some(sig) if is_named(set, sig) && has(pending, sig) => Some(sig),
        _ => None,
    }
}
