//! Whether a signal can be delivered.
ghost use Rattle.std.specs.Prelude.{◌≡◌, is_none};
ghost use Rattle.o32_turns.specs.Delivering.{next_signal};

use bridge_ends::NativeKernel;

/// Whether no unblocked signal pends. It takes no memory and makes no native call.
#[tactic(auto, using(crate::proofs::Nothing::quiet))]
pub fn is_quiet(k: &NativeKernel) -> bool
    ensures { result ≡ is_none (next_signal k.now.signals) }
{
    k.signals_fit();
    !k.deliverable()
}
