//! What signals always are, at first and after each change: laws over the definitions, each the contract
//! of a function that does nothing. (That a post keeps it is a law of `kernel_model`.)
ghost use Rattle.std.specs.Prelude.{◌≡◌, false, drop};
ghost use Rattle.kernel_core.specs.declared.signal.Sig.{Sig};
ghost use Rattle.kernel_model.specs.Always.{AreSignals, IsMask, IsSet, IsStack};
ghost use Rattle.kernel_model.specs.Begin.{first_signals};
ghost use Rattle.kernel_model.specs.SignalRows.{after_action, is_unblockable, kept_stack, pending_at, with_pending};
ghost use Rattle.kernel_model.specs.SignalSets.{SignalSet, blockable};
ghost use Rattle.kernel_model.specs.State.{Signals};
ghost use Rattle.kernel_model.specs.declared.signal.Action.{Action};
ghost use Rattle.kernel_model.specs.declared.signal.SigStack.{SigStack};

/// At first.
pub fn the_first_signals_are_signals()
    ensures { AreSignals first_signals }
{}

/// The first that pends of a signal is taken.
pub fn taking_keeps_signals()
    ensures { (signals : Signals) (signal : Sig) → AreSignals signals
        → AreSignals (with_pending signals signal (drop 1 (pending_at signals signal))) }
{}

/// A signal gets an action, which is neither KILL nor STOP.
pub fn an_action_keeps_signals()
    ensures { (signals : Signals) (signal : Sig) (action : Action) → is_unblockable signal ≡ false → IsSet action.mask
        → AreSignals signals → AreSignals (after_action signals signal action) }
{}

/// The mask is set.
pub fn a_mask_keeps_signals()
    ensures mask { (set : SignalSet) → IsSet set → IsMask (blockable set) }
    ensures signals { (signals : Signals) (set : SignalSet) → IsSet set → AreSignals signals
        → AreSignals (record signals { mask = blockable set }) }
{}

/// The alternate stack is set, to none or one that is not too small.
pub fn a_stack_keeps_signals()
    ensures { (signals : Signals) (stack : SigStack) → IsStack (kept_stack stack) → AreSignals signals
        → AreSignals (record signals { stack = kept_stack stack }) }
{}
