//! What the kernel always is, kept by the rows on signals (sigaction(2), sigprocmask(2), sigtimedwait(2),
//! sigaltstack(2)).

ghost use Rattle.std.specs.Prelude.{Bool, List, Option, ℕ, ◌≡◌};
ghost use Rattle.kernel_core.specs.declared.mask.MaskChange.{MaskChange};
ghost use Rattle.kernel_core.specs.declared.signal.Sig.{Sig};
ghost use Rattle.kernel_laws.specs.Arguments.{WhereGiven};
ghost use Rattle.kernel_model.specs.Always.{IsKernel, IsSet};
ghost use Rattle.kernel_model.specs.Came.{Given};
ghost use Rattle.kernel_model.specs.SignalRows.{accept, change_mask, pause, pending, set_action, set_stack, suspend};
ghost use Rattle.kernel_model.specs.SignalSets.{SignalSet, blockable};
ghost use Rattle.kernel_model.specs.State.{Kernel};
ghost use Rattle.kernel_model.specs.declared.signal.Action.{Action};
ghost use Rattle.kernel_model.specs.declared.signal.SigStack.{SigStack};
ghost use Rattle.kernel_model.specs.declared.time.TimeSpec.{TimeSpec};

/// A set without KILL and STOP stays as it is.
pub fn a_set_that_can_be_blocked_stays()
    ensures { (set : SignalSet) → blockable (blockable set) ≡ blockable set }
{}

/// A signal gets another action.
pub fn setting_an_action_keeps_the_kernel()
    ensures { (kernel : Kernel) (size : ℕ) (signal : Option Sig) (action : Option (Given Action)) → IsKernel kernel → WhereGiven (λ a. IsSet a.mask) action
        → IsKernel (set_action kernel size signal action).state }
{}

/// Other signals are blocked.
pub fn changing_the_mask_keeps_the_kernel()
    ensures { (kernel : Kernel) (size : ℕ) (how : Option MaskChange) (set : Option (Given SignalSet)) → IsKernel kernel → WhereGiven IsSet set
        → IsKernel (change_mask kernel size how set).state }
{}

/// A signal that pends is taken, or waited for.
pub fn accepting_keeps_the_kernel()
    ensures accept { (kernel : Kernel) (order : List Sig) (waitable : SignalSet → SignalSet) (set : Given SignalSet) (time : Option (Given TimeSpec)) (size : ℕ)
        → IsKernel kernel → IsKernel (accept kernel order waitable set time size).state }
    ensures pending { (kernel : Kernel) (size : ℕ) → IsKernel kernel → IsKernel (pending kernel size).state }
    ensures suspend { (kernel : Kernel) (size : ℕ) (set : Given SignalSet) → IsKernel kernel → IsKernel (suspend kernel size set).state }
    ensures pause { (kernel : Kernel) → IsKernel kernel → IsKernel (pause kernel).state }
{}

/// The alternate stack is set.
pub fn setting_the_stack_keeps_the_kernel()
    ensures { (kernel : Kernel) (sp : Option ℕ) (stack : Option (Given SigStack)) → IsKernel kernel → IsKernel (set_stack kernel sp stack).state }
{}
