//! The first signal that pends and is not blocked.
ghost use Rattle.std.specs.Prelude.{◌≡◌, ◌&&◌, not, find};
ghost use Rattle.kernel_model.specs.SignalSets.{has};
ghost use Rattle.number_tables.specs.Signals.{signal_of_o32};
ghost use Rattle.o32_model.specs.Suspending.{all_signals};
ghost use Rattle.signal_choice.specs.inside.Passing.{passing};

use crate::sets::{SIGNALS, has};
use kernel_core::Sig;
use number_tables::O32Number;

/// The signal of the lowest number of an o32 program that is in `pending` and not in `mask`; None exactly where there
/// is none. Sets have bit s - 1 for signal s, the lowest of the first word for signal 1. (The order is this project's
/// own.)
pub fn choose(pending: [u32; 4], mask: [u32; 4]) -> Option<Sig>
    ensures { result ≡ find (λ signal. has pending signal && not (has mask signal)) all_signals }
{
    for number in 1..SIGNALS + 1 {
        let found = unblocked_at(number, &pending, &mask);
        if found.is_some() {
            return found;
        }
    }
    None
}

/// The signal of a number, where it is in `pending` and not in `mask`.
fn unblocked_at(number: u32, pending: &[u32; 4], mask: &[u32; 4]) -> Option<Sig>
    ensures { result ≡ passing (λ signal. has pending.now signal && not (has mask.now signal)) (signal_of_o32 number) }
{
    match Sig::of_o32(number) {
        Some(sig) if has(pending, sig) && !has(mask, sig) => Some(sig),
        _ => None,
    }
}
