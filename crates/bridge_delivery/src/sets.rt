//! Sets of signals, as four words of 32 bits with a bit for each signal.
ghost use Rattle.std.specs.Prelude.{◌≡◌};
ghost use Rattle.bridge_delivery.specs.inside.Standings.{handling_mask};
ghost use Rattle.kernel_model.specs.SignalSets as spec;
ghost use Rattle.o32_turns.specs.Handling.{own_mask};

use kernel_core::Sig;
use kernel_model::Action;
use signal_choice::only;

/// No signal.
const NONE: [u32; 4] = [0; 4];

/// What is blocked while a signal's handler runs: what was blocked before, what the action says, and, without
/// SA_NODEFER, the signal itself (sigaction(2)).
pub(crate) fn handling_mask(mask: [u32; 4], sig: Sig, action: &Action) -> [u32; 4]
    ensures { result ≡ handling_mask mask sig action.now }
{
    union(mask, union(action.mask, own_mask(sig, action)))
}

/// The signal itself, or none under SA_NODEFER.
fn own_mask(sig: Sig, action: &Action) -> [u32; 4]
    ensures { result ≡ own_mask sig action.now }
{
    if action.flags.nodefer() {
        NONE
    } else {
        only(sig)
    }
}

/// The signals of either set.
#[tactic(auto, using(crate::proofs::Unions::union_words))]
fn union(left: [u32; 4], right: [u32; 4]) -> [u32; 4]
    ensures { result ≡ spec.union left right }
{
    [
        left[0] | right[0],
        left[1] | right[1],
        left[2] | right[2],
        left[3] | right[3],
    ]
}
