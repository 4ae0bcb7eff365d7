//! The places of the signals, and what becomes of a signal without an action.
ghost use Rattle.std.specs.Prelude.{◌≡◌, ◌<◌};
ghost use Rattle.kernel_model.specs.SignalRows.{ignores, is_ignored_by_default};
ghost use Rattle.kernel_model.specs.SignalSets.{place, signal_count};

use kernel_core::Sig;
use kernel_model::Action;
use number_tables::O32Number;

/// How many signals there are.
pub const SIGNALS: usize = 128;

/// How many of them are standard ones, which pend once at most; the others queue.
pub const STANDARD_SIGNALS: usize = 31;

/// The handler of the default action, SIG_DFL, and that of an ignored signal, SIG_IGN.
pub const DEFAULT_HANDLER: u64 = 0;

const IGNORE_HANDLER: u64 = 1;

/// The place of a signal among all, from 0 to 127: its number for an o32 program less 1.
#[tactic(auto, using(crate::proofs::PlaceNumbers::numbers))]
pub fn place_of(sig: Sig) -> usize
    ensures place { result ≡ place sig }
    ensures below { result < signal_count }
{
    sig.to_o32() as usize - 1
}

/// Whether a signal with no action of its own is ignored (signal(7)).
fn is_ignored_by_default(sig: Sig) -> bool
    ensures { result ≡ is_ignored_by_default sig }
{
    matches!(sig, Sig::Chld | Sig::Urg | Sig::Winch | Sig::Cont)
}

/// Whether an action ignores its signal.
pub fn ignores(sig: Sig, action: &Action) -> bool
    ensures { result ≡ ignores sig action.now }
{
    match action.handler {
        IGNORE_HANDLER => true,
        DEFAULT_HANDLER => is_ignored_by_default(sig),
        _ => false,
    }
}
