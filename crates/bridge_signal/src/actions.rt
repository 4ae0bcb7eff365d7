//! The actions of signals, set and told: sigaction(2).
ghost use Rattle.std.specs.Prelude.{◌≡◌, IfOk, false};
ghost use Rattle.bridge_signal_state.specs.Passed.{Proceeds};
ghost use Rattle.bridge_signal.specs.inside.Asked.{IsAllowed, action_changed, action_set, action_set_to};
ghost use Rattle.bridge_signal.specs.inside.Told.{did};
ghost use Rattle.bridge_signal_state.specs.Acts.{Acts};
ghost use Rattle.kernel_model.specs.SignalRows as rows;
ghost use Rattle.outside.specs.Streams.{contents};

use crate::asked::ActionSetting;
use crate::setting::set_action;
use bridge_signal_state::{Below, action};
use kernel_core::{Errno, Sig, Stop};
use kernel_model::Action;
use outside::{Devices, Sink, Source};

/// Tells the action of a signal and sets the new one, as is asked, or tells the error.
pub(crate) fn change_action<I: Source, O: Sink, E: Sink>(
    asked: Result<ActionSetting, Errno>,
    dev: &mut Devices<I, O, E>,
    below: &mut Below,
) -> Result<Result<Action, Errno>, Stop>
    requires allowed { IfOk asked (λ asked. IsAllowed asked.sig asked.action) }
    ensures acts { Acts (λ told became. action_changed below.old.kernel.now asked ≡ did became told) result below.old.kernel.now below.new.kernel.now
        (contents I.left O.written E.written dev.old) (contents I.left O.written E.written dev.new) below.old.log.now below.new.log.now }
    ensures proceeds { Proceeds I.faults O.faults E.faults result below.old below.new dev.old dev.new }
{
    match asked {
        Err(error) => Ok(Err(error)),
        Ok(asked) => {
            let before = replace_action(asked.sig, asked.action, dev, below)?;
            Ok(Ok(before))
        }
    }
}

/// Tells the action of a signal, and sets a new one where there is one.
fn replace_action<I: Source, O: Sink, E: Sink>(
    sig: Sig,
    new: Option<Action>,
    dev: &mut Devices<I, O, E>,
    below: &mut Below,
) -> Result<Action, Stop>
    requires allowed { IsAllowed sig new }
    ensures acts { Acts (λ before became. (before ≡ rows.action_at below.old.kernel.now.signals sig) × (became ≡ action_set below.old.kernel.now sig new)) result below.old.kernel.now below.new.kernel.now
        (contents I.left O.written E.written dev.old) (contents I.left O.written E.written dev.new) below.old.log.now below.new.log.now }
    ensures proceeds { Proceeds I.faults O.faults E.faults result below.old below.new dev.old dev.new }
{
    let before = action(sig, dev, below)?;
    set_new(sig, new, dev, below)?;
    Ok(before)
}

/// Sets the new action of a signal, where there is one.
fn set_new<I: Source, O: Sink, E: Sink>(
    sig: Sig,
    new: Option<Action>,
    dev: &mut Devices<I, O, E>,
    below: &mut Below,
) -> Result<(), Stop>
    requires allowed { IsAllowed sig new }
    ensures acts { Acts (λ _ became. became ≡ action_set below.old.kernel.now sig new) result below.old.kernel.now below.new.kernel.now
        (contents I.left O.written E.written dev.old) (contents I.left O.written E.written dev.new) below.old.log.now below.new.log.now }
    ensures proceeds { Proceeds I.faults O.faults E.faults result below.old below.new dev.old dev.new }
{
    match new {
        None => Ok(()),
        Some(action) => set_action(sig, action, dev, below),
    }
}
