//! A handler begins.
ghost use Rattle.std.specs.Prelude.{◌≡◌};
ghost use Rattle.bridge_ends.specs.Passed.{LeadsOn, Proceeds};
ghost use Rattle.bridge_ends.specs.Ends.{KeepsEnd};
ghost use Rattle.bridge_delivery.specs.inside.Processes.{StaysOn, stands};
ghost use Rattle.bridge_delivery.specs.inside.Standings.{Becomes};
ghost use Rattle.guest_space.specs.Memory.{Pages};
ghost use Rattle.kernel_model.specs.Stops.{StopsOnlyIfRose};
ghost use Rattle.o32_turns.specs.Closing.{whole_end};
ghost use Rattle.o32_turns.specs.Going.{Carries};
ghost use Rattle.o32_turns.specs.Handling as spec;
ghost use Rattle.o32_turns.specs.Handling.{begun, wait_left_by, without_action};
ghost use Rattle.outside.specs.Streams.{NoCountFell, contents};

use crate::dispositions::{after_frame, frame_mask, keep_mask, tell};
use crate::frames::enter;
use crate::process::Process;
use crate::sets::handling_mask;
use crate::taken::TakenSignal;
use bridge_ends::{Below, end_wait, mask, set_default, set_mask, stack};
use kernel_core::{Delivery, Sig, Stop};
use kernel_model::{Action, SigStack};
use o32_model::Cause;
use outside::{Devices, Sink, Source};
use signal_choice::is_unblockable;

/// A signal's handler begins: the call that waits ends, the handler's frame is written, and the signals that it blocks
/// are blocked. A frame that can't be written whole is not written, and then neither the mask nor the action changes: the
/// process meets a SIGSEGV, and where that is its signal it is killed.
pub(crate) fn handle<I: Source, O: Sink, E: Sink>(
    clock: u64,
    taken: &TakenSignal,
    process: &mut Process,
    dev: &mut Devices<I, O, E>,
    below: &mut Below,
) -> Result<(), Stop>
    requires { below.old.kernel.now.clock ≡ clock }
    ensures handled { Carries (λ within. spec.handled whole_end within taken.now.info taken.now.action) result
        (stands process.old below.old.kernel.now) (stands process.new below.new.kernel.now)
        (contents I.left O.written E.written dev.old) (contents I.left O.written E.written dev.new) }
    ensures kept { KeepsEnd result (I.left dev.old.input) below.old.kernel.now below.new.kernel.now process.old.space.now.pages process.new.space.now.pages below.old.log.now below.new.log.now }
    ensures cause { StopsOnlyIfRose I.faults O.faults E.faults result dev.old dev.new }
    ensures counts { NoCountFell I.faults O.faults E.faults dev.old dev.new }
    ensures clock { below.new.kernel.now.clock ≡ clock }
    ensures same { LeadsOn below.old below.new }
    ensures stays { StaysOn process.old process.new }
{
    leave_wait(clock, &taken.action, process, dev, below)?;
    tell(taken.info.sig, Delivery::Handler, process.going)?;
    begin(taken, process, dev, below)
}

/// The call that waits, if there is one, ends by a handler with this action.
fn leave_wait<I: Source, O: Sink, E: Sink>(
    clock: u64,
    action: &Action,
    process: &mut Process,
    dev: &mut Devices<I, O, E>,
    below: &mut Below,
) -> Result<(), Stop>
    requires { below.old.kernel.now.clock ≡ clock }
    ensures left { Carries (λ within. wait_left_by whole_end action.now within.machine.wait within) result
        (stands process.old below.old.kernel.now) (stands process.new below.new.kernel.now)
        (contents I.left O.written E.written dev.old) (contents I.left O.written E.written dev.new) }
    ensures kept { KeepsEnd result (I.left dev.old.input) below.old.kernel.now below.new.kernel.now process.old.space.now.pages process.new.space.now.pages below.old.log.now below.new.log.now }
    ensures cause { StopsOnlyIfRose I.faults O.faults E.faults result dev.old dev.new }
    ensures counts { NoCountFell I.faults O.faults E.faults dev.old dev.new }
    ensures clock { below.new.kernel.now.clock ≡ clock }
    ensures same { LeadsOn below.old below.new }
    ensures stays { StaysOn process.old process.new }
{
    let restarts = action.flags.restart();
    keep_mask(process.going);
    end_wait(
        restarts,
        Cause::Handler,
        clock,
        process.going,
        process.cpu,
        process.space,
        below.kernel,
        below.memory,
        dev,
        below.log,
    )
}

/// The handler's frame is written below the stack that stands, with the mask that its return is to put back.
fn begin<I: Source, O: Sink, E: Sink>(
    taken: &TakenSignal,
    process: &mut Process,
    dev: &mut Devices<I, O, E>,
    below: &mut Below,
) -> Result<(), Stop>
    ensures begun { Carries (λ within. begun within taken.now.info taken.now.action) result
        (stands process.old below.old.kernel.now) (stands process.new below.new.kernel.now)
        (contents I.left O.written E.written dev.old) (contents I.left O.written E.written dev.new) }
    ensures kept { KeepsEnd result (I.left dev.old.input) below.old.kernel.now below.new.kernel.now process.old.space.now.pages process.new.space.now.pages below.old.log.now below.new.log.now }
    ensures proceeds { Proceeds I.faults O.faults E.faults result below.old below.new dev.old dev.new }
    ensures stays { StaysOn process.old process.new }
{
    let blocked = mask(dev, below)?;
    let stack = stack(dev, below)?;
    begin_on(taken, blocked, stack, process, dev, below)
}

/// The same, where this is the mask that stands and the alternate stack.
fn begin_on<I: Source, O: Sink, E: Sink>(
    taken: &TakenSignal,
    blocked: [u32; 4],
    stack: SigStack,
    process: &mut Process,
    dev: &mut Devices<I, O, E>,
    below: &mut Below,
) -> Result<(), Stop>
    ensures begun { blocked ≡ below.old.kernel.now.signals.mask → stack ≡ below.old.kernel.now.signals.stack
        → Carries (λ within. begun within taken.now.info taken.now.action) result
        (stands process.old below.old.kernel.now) (stands process.new below.new.kernel.now)
        (contents I.left O.written E.written dev.old) (contents I.left O.written E.written dev.new) }
    ensures kept { KeepsEnd result (I.left dev.old.input) below.old.kernel.now below.new.kernel.now process.old.space.now.pages process.new.space.now.pages below.old.log.now below.new.log.now }
    ensures proceeds { Proceeds I.faults O.faults E.faults result below.old below.new dev.old dev.new }
    ensures stays { StaysOn process.old process.new }
{
    let kept = frame_mask(process.going, blocked);
    let written = enter(taken, kept, stack, process.cpu, process.space, below.log)?;
    after_frame(written, taken.info.sig, process.going)?;
    if written {
        run_handler(taken.info.sig, &taken.action, blocked, dev, below)?;
    }
    Ok(())
}

/// The kernel once a handler begins: what it blocks is blocked, and under SA_RESETHAND the signal has its default
/// action again (sigaction(2)).
fn run_handler<I: Source, O: Sink, E: Sink>(
    sig: Sig,
    action: &Action,
    blocked: [u32; 4],
    dev: &mut Devices<I, O, E>,
    below: &mut Below,
) -> Result<(), Stop>
    ensures handling { blocked ≡ below.old.kernel.now.signals.mask → Becomes (λ kernel. spec.handling kernel sig action.now) result below.old.kernel.now below.new.kernel.now
        (contents I.left O.written E.written dev.old) (contents I.left O.written E.written dev.new) }
    ensures kept { (pages : Pages) → KeepsEnd result (I.left dev.old.input) below.old.kernel.now below.new.kernel.now pages pages below.old.log.now below.new.log.now }
    ensures proceeds { Proceeds I.faults O.faults E.faults result below.old below.new dev.old dev.new }
{
    set_mask(handling_mask(blocked, sig, action), dev, below)?;
    if action.flags.resethand() {
        reset(sig, dev, below)?;
    }
    Ok(())
}

/// A signal has its default action again; KILL and STOP always have it.
fn reset<I: Source, O: Sink, E: Sink>(
    sig: Sig,
    dev: &mut Devices<I, O, E>,
    below: &mut Below,
) -> Result<(), Stop>
    ensures reset { Becomes (without_action sig) result below.old.kernel.now below.new.kernel.now
        (contents I.left O.written E.written dev.old) (contents I.left O.written E.written dev.new) }
    ensures kept { (pages : Pages) → KeepsEnd result (I.left dev.old.input) below.old.kernel.now below.new.kernel.now pages pages below.old.log.now below.new.log.now }
    ensures proceeds { Proceeds I.faults O.faults E.faults result below.old below.new dev.old dev.new }
{
    if is_unblockable(sig) {
        return Ok(());
    }
    set_default(sig, dev, below)
}
