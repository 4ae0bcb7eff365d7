//! How a wait ends.
ghost use Rattle.std.specs.Prelude.{◌≡◌, ◌==◌, ◌||◌};
ghost use Rattle.bridge_poll.specs.Passed.{Closes, KeepsEnd, LeadsOn, Proceeds};
ghost use Rattle.bridge_ends.specs.Ended.{ended_wait};
ghost use Rattle.bridge_ends.specs.inside.Endings.{old_mask, suspension_end};
ghost use Rattle.guest_space.specs.Memory.{Memory, Pages};
ghost use Rattle.kernel_model.specs.Stops.{StopsOnlyIfRose};
ghost use Rattle.o32_calls.specs.Numbers.{time_number};
ghost use Rattle.o32_calls.specs.declared.times.TimeCall.TheVariants.{ClockNanosleep, Nanosleep};
ghost use Rattle.o32_model.specs.SignalWaitEnds.{signal_wait_ended, suspension_ended, transfer_ended};
ghost use Rattle.o32_model.specs.WaitEnds.{ends_with, wait_ended, with_old_mask};
ghost use Rattle.o32_turns.specs.Closing.{is_one_of, signal_waits, transfer_waits, whole_end};
ghost use Rattle.o32_turns.specs.Going.{Carries, within_of};
ghost use Rattle.outside.specs.Streams.{NoCountFell, contents};

use crate::closing::close;
use bridge_acceptance::{acceptance_end, is_acceptance_call};
use bridge_poll::{Below, NativeKernel, is_poll_call, poll_end, set_mask};
use bridge_select::select_end;
use bridge_wait::wait_end;
use guest_space::Space;
use host_mem::HostMem;
use kernel_core::{Errno, Stop};
use mips_exec::Cpu;
use o32_calls::{
    CLOCK_NANOSLEEP, NANOSLEEP, PAUSE, READ, READV, RT_SIGSUSPEND, RT_SIGTIMEDWAIT, WRITE, WRITEV,
};
use o32_model::{Cause, Close, Log, Wait};
use o32_turns::Going;
use outside::{Devices, Sink, Source};

/// What ends a wait.
#[derive(Clone, Copy)]
struct Ending {
    /// Why it ends.
    cause: Cause,
    /// Whether the action of the handler that ends it restarts calls (SA_RESTART of sigaction(2)).
    restarts: bool,
    /// The kernel's time, in nanoseconds.
    clock: u64,
}

/// Ends the call that waits, if there is one, for a cause, at the kernel's time `clock`, in nanoseconds; `restarts`
/// says that the action of the handler that ends it restarts calls (SA_RESTART of sigaction(2)). The call returns a
/// result or an error, or its SYSCALL comes again, with its own number or with that of restart_syscall(2), which then
/// goes on with the wait. A mask that the call has set is taken back, but not where a handler ends it (sigsuspend(2)).
/// It stops early for want of memory, or by a device, and then process and kernel are not used again.
pub fn end_wait<I: Source, O: Sink, E: Sink>(
    restarts: bool,
    cause: Cause,
    clock: u64,
    going: &mut Going,
    cpu: &mut Cpu,
    space: &mut Space,
    k: &mut NativeKernel,
    mem: &mut HostMem,
    dev: &mut Devices<I, O, E>,
    log: &mut Log,
) -> Result<(), Stop>
    requires clock { k.old.clock ≡ clock }
    ensures ends { Carries (λ within. ended_wait restarts cause within within.machine.wait) result
        (within_of going.old cpu.old space.old k.old) (within_of going.new cpu.new space.new k.new)
        (contents I.left O.written E.written dev.old) (contents I.left O.written E.written dev.new) }
    ensures kept { KeepsEnd result (I.left dev.old.input) k.old k.new space.old.pages space.new.pages log.old log.new }
    ensures cause { StopsOnlyIfRose I.faults O.faults E.faults result dev.old dev.new }
    ensures counts { NoCountFell I.faults O.faults E.faults dev.old dev.new }
    ensures clock { k.new.clock ≡ clock }
{
    let below = &mut Below {
        kernel: k,
        memory: mem,
        log,
    };
    let ending = Ending {
        cause,
        restarts,
        clock,
    };
    end_call(ending, going, cpu, space, dev, below)
}

/// The same, with the kernel and what its calls are made with as one value.
fn end_call<I: Source, O: Sink, E: Sink>(
    ending: Ending,
    going: &mut Going,
    cpu: &mut Cpu,
    space: &mut Space,
    dev: &mut Devices<I, O, E>,
    below: &mut Below,
) -> Result<(), Stop>
    requires clock { below.old.kernel.now.clock ≡ ending.clock }
    ensures ends { Carries (λ within. ended_wait ending.restarts ending.cause within within.machine.wait) result
        (within_of going.old cpu.old space.old below.old.kernel.now) (within_of going.new cpu.new space.new below.new.kernel.now)
        (contents I.left O.written E.written dev.old) (contents I.left O.written E.written dev.new) }
    ensures kept { KeepsEnd result (I.left dev.old.input) below.old.kernel.now below.new.kernel.now space.old.pages space.new.pages below.old.log.now below.new.log.now }
    ensures cause { StopsOnlyIfRose I.faults O.faults E.faults result dev.old dev.new }
    ensures counts { NoCountFell I.faults O.faults E.faults dev.old dev.new }
    ensures clock { below.new.kernel.now.clock ≡ ending.clock }
    ensures same { LeadsOn below.old below.new }
{
    let Some(wait) = going.wait else {
        return Ok(());
    };
    let end = wait_close(&wait, ending, space, dev, below)?;
    close(&wait, end, going, cpu)?;
    Ok(())
}

/// What the end of a wait comes to, by the number of its call; what it stores is stored.
fn wait_close<I: Source, O: Sink, E: Sink>(
    wait: &Wait,
    ending: Ending,
    space: &mut Space,
    dev: &mut Devices<I, O, E>,
    below: &mut Below,
) -> Result<Close, Stop>
    requires { below.old.kernel.now.clock ≡ ending.clock }
    ensures ends { Closes (whole_end ending.restarts wait.now ending.cause below.old.kernel.now space.old) result below.new.kernel.now space.new
        (contents I.left O.written E.written dev.old) (contents I.left O.written E.written dev.new) }
    ensures kept { KeepsEnd result (I.left dev.old.input) below.old.kernel.now below.new.kernel.now space.old.pages space.new.pages below.old.log.now below.new.log.now }
    ensures cause { StopsOnlyIfRose I.faults O.faults E.faults result dev.old dev.new }
    ensures counts { NoCountFell I.faults O.faults E.faults dev.old dev.new }
    ensures clock { below.new.kernel.now.clock ≡ ending.clock }
    ensures same { LeadsOn below.old below.new }
{
    let Ending {
        cause,
        restarts,
        clock,
    } = ending;
    if is_transfer(wait) {
        return Ok(transfer_close(restarts, wait, cause));
    }
    if is_signal_wait(wait) {
        return signal_wait_close(wait, cause, space, dev, below);
    }
    timed_wait_close(wait, cause, clock, space, dev, below)
}

/// Whether a wait is that of a transfer: read(2), write(2), readv(2), writev(2).
fn is_transfer(wait: &Wait) -> bool
    ensures { result ≡ is_one_of transfer_waits wait.now }
{
    matches!(wait.nr, READ | WRITE | READV | WRITEV)
}

/// The end of a transfer: the bytes that it has put already are its result. Without any it is carried out again, but
/// where a handler ends it whose action doesn't restart calls.
fn transfer_close(restarts: bool, wait: &Wait, cause: Cause) -> Close
    ensures { result ≡ transfer_ended restarts wait.now cause }
{
    if wait.done != 0 {
        return Close::Value(wait.done);
    }
    match cause {
        Cause::Handler if !restarts => Close::Error(Errno::EINTR),
        _ => Close::Again,
    }
}

/// Whether a wait is one for signals: pause(2), sigtimedwait(2), sigsuspend(2).
fn is_signal_wait(wait: &Wait) -> bool
    ensures { result ≡ is_one_of signal_waits wait.now }
{
    matches!(wait.nr, PAUSE | RT_SIGTIMEDWAIT | RT_SIGSUSPEND)
}

/// The end of a sleep, or of a wait for descriptors.
fn timed_wait_close<I: Source, O: Sink, E: Sink>(
    wait: &Wait,
    cause: Cause,
    clock: u64,
    space: &mut Space,
    dev: &mut Devices<I, O, E>,
    below: &mut Below,
) -> Result<Close, Stop>
    ensures ends { Closes (wait_ended wait.now cause clock below.old.kernel.now space.old) result below.new.kernel.now space.new
        (contents I.left O.written E.written dev.old) (contents I.left O.written E.written dev.new) }
    ensures kept { KeepsEnd result (I.left dev.old.input) below.old.kernel.now below.new.kernel.now space.old.pages space.new.pages below.old.log.now below.new.log.now }
    ensures proceeds { Proceeds I.faults O.faults E.faults result below.old below.new dev.old dev.new }
{
    if is_sleep(wait.nr) {
        return wait_end(wait, cause, clock, space, below);
    }
    if is_poll_call(wait.nr) {
        return poll_end(wait, cause, clock, space, dev, below);
    }
    select_end(wait, cause, clock, space, dev, below)
}

/// Whether a call's wait is that of a sleep: nanosleep(2), clock_nanosleep(2).
fn is_sleep(number: u32) -> bool
    ensures { result ≡ ((number == time_number Nanosleep) || (number == time_number ClockNanosleep)) }
{
    matches!(number, NANOSLEEP | CLOCK_NANOSLEEP)
}

/// The end of a wait for signals: of sigtimedwait(2), pause(2) and sigsuspend(2).
fn signal_wait_close<I: Source, O: Sink, E: Sink>(
    wait: &Wait,
    cause: Cause,
    space: &mut Space,
    dev: &mut Devices<I, O, E>,
    below: &mut Below,
) -> Result<Close, Stop>
    ensures ends { Closes (signal_wait_ended wait.now cause below.old.kernel.now space.old) result below.new.kernel.now space.new
        (contents I.left O.written E.written dev.old) (contents I.left O.written E.written dev.new) }
    ensures kept { KeepsEnd result (I.left dev.old.input) below.old.kernel.now below.new.kernel.now space.old.pages space.new.pages below.old.log.now below.new.log.now }
    ensures proceeds { Proceeds I.faults O.faults E.faults result below.old below.new dev.old dev.new }
{
    if is_acceptance_call(wait.nr) {
        return acceptance_end(wait, cause, space, dev, below);
    }
    suspension_close(wait, cause, dev, below)
}

/// The end of pause(2) and of sigsuspend(2).
fn suspension_close<I: Source, O: Sink, E: Sink>(
    wait: &Wait,
    cause: Cause,
    dev: &mut Devices<I, O, E>,
    below: &mut Below,
) -> Result<Close, Stop>
    ensures ends { (memory : Memory) → Closes (suspension_ended wait.now cause below.old.kernel.now memory) result below.new.kernel.now memory
        (contents I.left O.written E.written dev.old) (contents I.left O.written E.written dev.new) }
    ensures kept { (pages : Pages) → KeepsEnd result (I.left dev.old.input) below.old.kernel.now below.new.kernel.now pages pages below.old.log.now below.new.log.now }
    ensures proceeds { Proceeds I.faults O.faults E.faults result below.old below.new dev.old dev.new }
{
    with_old_mask(old_mask(wait, cause), suspension_end(cause), dev, below)
}

/// The mask that the end of a suspension puts back: that from before the call, if it has set one of its own. Where a
/// handler ends it the handler's frame keeps that mask, and the return puts it back.
fn old_mask(wait: &Wait, cause: Cause) -> Option<[u32; 4]>
    ensures { result ≡ old_mask wait.now cause }
{
    match cause {
        Cause::Handler => None,
        _ => wait.mask,
    }
}

/// How a suspension ends.
fn suspension_end(cause: Cause) -> Close
    ensures { result ≡ suspension_end cause }
{
    match cause {
        Cause::Stopped => Close::Again,
        _ => Close::Error(Errno::EINTR),
    }
}

/// An end at which the mask from before the call, if it has set one of its own, is put back.
fn with_old_mask<I: Source, O: Sink, E: Sink>(
    mask: Option<[u32; 4]>,
    close: Close,
    dev: &mut Devices<I, O, E>,
    below: &mut Below,
) -> Result<Close, Stop>
    ensures ends { (memory : Memory) → Closes (ends_with close (with_old_mask mask below.old.kernel.now) memory) result below.new.kernel.now memory
        (contents I.left O.written E.written dev.old) (contents I.left O.written E.written dev.new) }
    ensures kept { (pages : Pages) → KeepsEnd result (I.left dev.old.input) below.old.kernel.now below.new.kernel.now pages pages below.old.log.now below.new.log.now }
    ensures proceeds { Proceeds I.faults O.faults E.faults result below.old below.new dev.old dev.new }
{
    match mask {
        None => Ok(close),
        Some(mask) => {
            set_mask(mask, dev, below)?;
            Ok(close)
        }
    }
}
