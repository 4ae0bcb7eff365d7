//! What the native kernel keeps of signals, found out by native calls that change nothing.
ghost use Rattle.std.specs.Prelude.{◌≡◌};
ghost use Rattle.bridge_log.specs.Proceeding.{Proceeds};
ghost use Rattle.bridge_log.specs.Looks.{LooksFor};
ghost use Rattle.kernel_model.specs.SignalRows.{action_at, pending_set};
ghost use Rattle.outside.specs.Streams.{contents};

use crate::numbers::{ACTION_SIZE, SET_SIZE, SIGSETSIZE, STACK_SIZE};
use crate::showing::{action_shown, set_shown, stack_shown};
use bridge_log::{Below, fresh_room};
use host_mem::FIRST_ADDRESS;
use kernel_core::{Sig, Stop};
use kernel_model::{Action, SigStack};
use native_numbers::{RT_SIGACTION, RT_SIGPENDING, RT_SIGPROCMASK, SIGALTSTACK};
use number_tables::NativeNumber;
use outside::{Devices, Sink, Source};

/// The signals that pend, blocked or not (sigpending(2)): four words of 32 bits, with bit s - 1 for the signal of
/// number s of an o32 program. It stops for want of memory or by a device alone, as each call here does.
pub fn pending<I: Source, O: Sink, E: Sink>(
    dev: &mut Devices<I, O, E>,
    below: &mut Below,
) -> Result<[u32; 4], Stop>
    ensures looks { LooksFor (λ set. set ≡ pending_set below.old.kernel.now.signals) result below.old.kernel.now below.new.kernel.now
        (contents I.left O.written E.written dev.old) (contents I.left O.written E.written dev.new) below.old.log.now below.new.log.now }
    ensures proceeds { Proceeds I.faults O.faults E.faults result below.old below.new dev.old dev.new }
{
    fresh_room(below.memory, SET_SIZE as u32)?;
    let args = [FIRST_ADDRESS, SIGSETSIZE, 0, 0, 0, 0];
    below.look(RT_SIGPENDING, args, dev)?;
    Ok(set_shown(below.memory))
}

/// The signals that are blocked (sigprocmask(2)), as a set like that of [`pending`].
pub fn mask<I: Source, O: Sink, E: Sink>(
    dev: &mut Devices<I, O, E>,
    below: &mut Below,
) -> Result<[u32; 4], Stop>
    ensures looks { LooksFor (λ set. set ≡ below.old.kernel.now.signals.mask) result below.old.kernel.now below.new.kernel.now
        (contents I.left O.written E.written dev.old) (contents I.left O.written E.written dev.new) below.old.log.now below.new.log.now }
    ensures proceeds { Proceeds I.faults O.faults E.faults result below.old below.new dev.old dev.new }
{
    below.kernel.signals_fit();
    fresh_room(below.memory, SET_SIZE as u32)?;
    let args = [0, 0, FIRST_ADDRESS, SIGSETSIZE, 0, 0];
    below.look(RT_SIGPROCMASK, args, dev)?;
    Ok(set_shown(below.memory))
}

/// What is done when a signal is delivered (sigaction(2)).
pub fn action<I: Source, O: Sink, E: Sink>(
    sig: Sig,
    dev: &mut Devices<I, O, E>,
    below: &mut Below,
) -> Result<Action, Stop>
    ensures looks { LooksFor (λ action. action ≡ action_at below.old.kernel.now.signals sig) result below.old.kernel.now below.new.kernel.now
        (contents I.left O.written E.written dev.old) (contents I.left O.written E.written dev.new) below.old.log.now below.new.log.now }
    ensures proceeds { Proceeds I.faults O.faults E.faults result below.old below.new dev.old dev.new }
{
    below.kernel.signals_fit();
    fresh_room(below.memory, ACTION_SIZE)?;
    let args = [sig.to_native(), 0, FIRST_ADDRESS, SIGSETSIZE, 0, 0];
    below.look(RT_SIGACTION, args, dev)?;
    Ok(action_shown(below.memory))
}

/// The alternate stack as it is kept (sigaltstack(2)): no stack pointer is looked at, so it is never shown with
/// SS_ONSTACK.
pub fn stack<I: Source, O: Sink, E: Sink>(
    dev: &mut Devices<I, O, E>,
    below: &mut Below,
) -> Result<SigStack, Stop>
    ensures looks { LooksFor (λ stack. stack ≡ below.old.kernel.now.signals.stack) result below.old.kernel.now below.new.kernel.now
        (contents I.left O.written E.written dev.old) (contents I.left O.written E.written dev.new) below.old.log.now below.new.log.now }
    ensures proceeds { Proceeds I.faults O.faults E.faults result below.old below.new dev.old dev.new }
{
    below.kernel.signals_fit();
    fresh_room(below.memory, STACK_SIZE as u32)?;
    let args = [0, FIRST_ADDRESS, 0, 0, 0, 0];
    below.look(SIGALTSTACK, args, dev)?;
    Ok(stack_shown(below.memory))
}
