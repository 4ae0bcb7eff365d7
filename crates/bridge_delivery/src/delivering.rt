//! The delivery of signals, round by round.
ghost use Rattle.std.specs.Prelude.{◌≡◌, Some, is_some};
ghost use Rattle.bridge_ends.specs.Passed.{LeadsOn, Proceeds};
ghost use Rattle.bridge_ends.specs.Ends.{KeepsEnd};
ghost use Rattle.bridge_delivery.specs.inside.Processes.{StaysOn, stands};
ghost use Rattle.bridge_delivery.specs.inside.Standings.{Finds, is_over};
ghost use Rattle.guest_space.specs.Memory.{Pages};
ghost use Rattle.kernel_model.specs.Stops.{StopsOnlyIfRose};
ghost use Rattle.o32_turns.specs.Closing.{whole_end};
ghost use Rattle.o32_turns.specs.Delivering as spec;
ghost use Rattle.o32_turns.specs.Delivering.{fault_delivered, next_signal, next_taken};
ghost use Rattle.o32_turns.specs.Going.{Carries, within_of};
ghost use Rattle.outside.specs.Streams.{NoCountFell, contents};

use crate::dispositions::{dispose, fault_of, has_handler, kill, use_up_fault};
use crate::handling::handle;
use crate::process::Process;
use crate::quiet::is_quiet;
use crate::taken::TakenSignal;
use bridge_ends::{Below, NativeKernel, action, mask, pending, take};
use guest_space::Space;
use host_mem::HostMem;
use kernel_core::{Info, Sig, Stop};
use mips_exec::Cpu;
use o32_model::Log;
use o32_turns::Going;
use outside::{Devices, Sink, Source};
use signal_choice::{choose, has};

/// At most how many rounds a delivery has: each uses up a fault or a signal that pends, of which there are 1,024
/// real-time ones and one of each of 31 others at most, and a signal makes at most one fault.
const MOST_ROUNDS: u32 = 2 * (1024 + 31) + 2;

/// Delivers signals at the kernel's time `clock`, in nanoseconds, until none is left, or the process was stopped or
/// killed: first the fault that it met, then the unblocked ones that pend, by rising numbers of the program (signal(7)).
/// A fault whose signal is blocked or ignored kills. What happens is added to the events, and to `log` the native calls
/// that it takes and the effects on pages, where they are kept. In a branch delay slot nothing is delivered. It stops
/// early for want of memory, or by a device.
pub fn deliver<I: Source, O: Sink, E: Sink>(
    clock: u64,
    going: &mut Going,
    cpu: &mut Cpu,
    space: &mut Space,
    k: &mut NativeKernel,
    mem: &mut HostMem,
    dev: &mut Devices<I, O, E>,
    log: &mut Log,
) -> Result<(), Stop>
    requires clock { k.old.clock ≡ clock }
    ensures delivered { Carries (spec.deliver whole_end) result
        (within_of going.old cpu.old space.old k.old) (within_of going.new cpu.new space.new k.new)
        (contents I.left O.written E.written dev.old) (contents I.left O.written E.written dev.new) }
    ensures kept { KeepsEnd result (I.left dev.old.input) k.old k.new space.old.pages space.new.pages log.old log.new }
    ensures cause { StopsOnlyIfRose I.faults O.faults E.faults result dev.old dev.new }
    ensures counts { NoCountFell I.faults O.faults E.faults dev.old dev.new }
    ensures clock { k.new.clock ≡ clock }
{
    let below = &mut Below {
        kernel: k,
        memory: mem,
        log,
    };
    let process = &mut Process { going, cpu, space };
    deliver_rounds(clock, process, dev, below)
}

/// The same, with the process as one value, and the kernel and what its calls are made with as another.
fn deliver_rounds<I: Source, O: Sink, E: Sink>(
    clock: u64,
    process: &mut Process,
    dev: &mut Devices<I, O, E>,
    below: &mut Below,
) -> Result<(), Stop>
    requires clock { below.old.kernel.now.clock ≡ clock }
    ensures delivered { Carries (spec.deliver whole_end) result
        (stands process.old below.old.kernel.now) (stands process.new below.new.kernel.now)
        (contents I.left O.written E.written dev.old) (contents I.left O.written E.written dev.new) }
    ensures kept { KeepsEnd result (I.left dev.old.input) below.old.kernel.now below.new.kernel.now process.old.space.now.pages process.new.space.now.pages below.old.log.now below.new.log.now }
    ensures cause { StopsOnlyIfRose I.faults O.faults E.faults result dev.old dev.new }
    ensures counts { NoCountFell I.faults O.faults E.faults dev.old dev.new }
    ensures clock { below.new.kernel.now.clock ≡ clock }
    ensures same { LeadsOn below.old below.new }
    ensures stays { StaysOn process.old process.new }
{
    if is_in_slot(process.cpu) {
        return Ok(());
    }
    for _round in 0..MOST_ROUNDS {
        if is_delivered(process.going, below.kernel) {
            return Ok(());
        }
        round(clock, process, dev, below)?;
    }
    Ok(())
}

/// Whether the processor stands in a branch delay slot.
fn is_in_slot(cpu: &Cpu) -> bool
    ensures { result ≡ is_some cpu.now.slot }
{
    cpu.slot.is_some()
}

/// Whether nothing is left to deliver, or the process was stopped or killed.
fn is_delivered(going: &Going, k: &NativeKernel) -> bool
    ensures { result ≡ is_over going.now k.now }
{
    going.over.is_some() || going.stopped || (going.fault.is_none() && is_quiet(k))
}

/// One round: the fault, or the next signal.
fn round<I: Source, O: Sink, E: Sink>(
    clock: u64,
    process: &mut Process,
    dev: &mut Devices<I, O, E>,
    below: &mut Below,
) -> Result<(), Stop>
    requires { below.old.kernel.now.clock ≡ clock }
    ensures delivered { Carries (λ within. spec.round_by whole_end within within.machine.fault) result
        (stands process.old below.old.kernel.now) (stands process.new below.new.kernel.now)
        (contents I.left O.written E.written dev.old) (contents I.left O.written E.written dev.new) }
    ensures kept { KeepsEnd result (I.left dev.old.input) below.old.kernel.now below.new.kernel.now process.old.space.now.pages process.new.space.now.pages below.old.log.now below.new.log.now }
    ensures cause { StopsOnlyIfRose I.faults O.faults E.faults result dev.old dev.new }
    ensures counts { NoCountFell I.faults O.faults E.faults dev.old dev.new }
    ensures clock { below.new.kernel.now.clock ≡ clock }
    ensures same { LeadsOn below.old below.new }
    ensures stays { StaysOn process.old process.new }
{
    match fault_of(process.going) {
        Some(info) => take_fault(clock, info, process, dev, below),
        None => take_next(clock, process, dev, below),
    }
}

/// The fault that the process met is used up and delivered.
fn take_fault<I: Source, O: Sink, E: Sink>(
    clock: u64,
    info: Info,
    process: &mut Process,
    dev: &mut Devices<I, O, E>,
    below: &mut Below,
) -> Result<(), Stop>
    requires { below.old.kernel.now.clock ≡ clock }
    ensures delivered { Carries (λ within. spec.fault_taken whole_end within info) result
        (stands process.old below.old.kernel.now) (stands process.new below.new.kernel.now)
        (contents I.left O.written E.written dev.old) (contents I.left O.written E.written dev.new) }
    ensures kept { KeepsEnd result (I.left dev.old.input) below.old.kernel.now below.new.kernel.now process.old.space.now.pages process.new.space.now.pages below.old.log.now below.new.log.now }
    ensures cause { StopsOnlyIfRose I.faults O.faults E.faults result dev.old dev.new }
    ensures counts { NoCountFell I.faults O.faults E.faults dev.old dev.new }
    ensures clock { below.new.kernel.now.clock ≡ clock }
    ensures same { LeadsOn below.old below.new }
    ensures stays { StaysOn process.old process.new }
{
    use_up_fault(process.going);
    let action = action(info.sig, dev, below)?;
    let blocked = mask(dev, below)?;
    let taken = TakenSignal { info, action };
    deliver_fault(clock, &taken, blocked, process, dev, below)
}

/// A fault is delivered, where this is the mask that stands.
fn deliver_fault<I: Source, O: Sink, E: Sink>(
    clock: u64,
    taken: &TakenSignal,
    blocked: [u32; 4],
    process: &mut Process,
    dev: &mut Devices<I, O, E>,
    below: &mut Below,
) -> Result<(), Stop>
    requires { below.old.kernel.now.clock ≡ clock }
    ensures delivered { blocked ≡ below.old.kernel.now.signals.mask
        → Carries (λ within. fault_delivered whole_end within taken.now.info taken.now.action) result
        (stands process.old below.old.kernel.now) (stands process.new below.new.kernel.now)
        (contents I.left O.written E.written dev.old) (contents I.left O.written E.written dev.new) }
    ensures kept { KeepsEnd result (I.left dev.old.input) below.old.kernel.now below.new.kernel.now process.old.space.now.pages process.new.space.now.pages below.old.log.now below.new.log.now }
    ensures cause { StopsOnlyIfRose I.faults O.faults E.faults result dev.old dev.new }
    ensures counts { NoCountFell I.faults O.faults E.faults dev.old dev.new }
    ensures clock { below.new.kernel.now.clock ≡ clock }
    ensures same { LeadsOn below.old below.new }
    ensures stays { StaysOn process.old process.new }
{
    if !has(&blocked, taken.info.sig) && has_handler(&taken.action) {
        return handle(clock, taken, process, dev, below);
    }
    kill(taken.info.sig, process.going)?;
    Ok(())
}

/// The unblocked signal of the lowest number that pends, if there is one, is used up and delivered.
fn take_next<I: Source, O: Sink, E: Sink>(
    clock: u64,
    process: &mut Process,
    dev: &mut Devices<I, O, E>,
    below: &mut Below,
) -> Result<(), Stop>
    requires { below.old.kernel.now.clock ≡ clock }
    ensures delivered { Carries (λ within. next_taken whole_end within (next_signal within.machine.kernel.signals)) result
        (stands process.old below.old.kernel.now) (stands process.new below.new.kernel.now)
        (contents I.left O.written E.written dev.old) (contents I.left O.written E.written dev.new) }
    ensures kept { KeepsEnd result (I.left dev.old.input) below.old.kernel.now below.new.kernel.now process.old.space.now.pages process.new.space.now.pages below.old.log.now below.new.log.now }
    ensures cause { StopsOnlyIfRose I.faults O.faults E.faults result dev.old dev.new }
    ensures counts { NoCountFell I.faults O.faults E.faults dev.old dev.new }
    ensures clock { below.new.kernel.now.clock ≡ clock }
    ensures same { LeadsOn below.old below.new }
    ensures stays { StaysOn process.old process.new }
{
    match next(dev, below)? {
        None => Ok(()),
        Some(sig) => take_signal(clock, sig, process, dev, below),
    }
}

/// Which signal is delivered next.
fn next<I: Source, O: Sink, E: Sink>(
    dev: &mut Devices<I, O, E>,
    below: &mut Below,
) -> Result<Option<Sig>, Stop>
    ensures looks { Finds (λ signal. signal ≡ next_signal below.old.kernel.now.signals) result below.old.kernel.now below.new.kernel.now
        (contents I.left O.written E.written dev.old) (contents I.left O.written E.written dev.new) }
    ensures kept { (pages : Pages) → KeepsEnd result (I.left dev.old.input) below.old.kernel.now below.new.kernel.now pages pages below.old.log.now below.new.log.now }
    ensures proceeds { Proceeds I.faults O.faults E.faults result below.old below.new dev.old dev.new }
{
    let pending = pending(dev, below)?;
    let blocked = mask(dev, below)?;
    Ok(choose(pending, blocked))
}

/// The first that pends of a signal is used up and delivered.
fn take_signal<I: Source, O: Sink, E: Sink>(
    clock: u64,
    sig: Sig,
    process: &mut Process,
    dev: &mut Devices<I, O, E>,
    below: &mut Below,
) -> Result<(), Stop>
    requires { below.old.kernel.now.clock ≡ clock }
    ensures delivered { Carries (λ within. next_taken whole_end within (Some sig)) result
        (stands process.old below.old.kernel.now) (stands process.new below.new.kernel.now)
        (contents I.left O.written E.written dev.old) (contents I.left O.written E.written dev.new) }
    ensures kept { KeepsEnd result (I.left dev.old.input) below.old.kernel.now below.new.kernel.now process.old.space.now.pages process.new.space.now.pages below.old.log.now below.new.log.now }
    ensures cause { StopsOnlyIfRose I.faults O.faults E.faults result dev.old dev.new }
    ensures counts { NoCountFell I.faults O.faults E.faults dev.old dev.new }
    ensures clock { below.new.kernel.now.clock ≡ clock }
    ensures same { LeadsOn below.old below.new }
    ensures stays { StaysOn process.old process.new }
{
    let action = action(sig, dev, below)?;
    match take(sig, dev, below)? {
        None => Ok(()),
        Some(info) => deliver_sent(clock, &TakenSignal { info, action }, process, dev, below),
    }
}

/// A signal that was sent is delivered.
fn deliver_sent<I: Source, O: Sink, E: Sink>(
    clock: u64,
    taken: &TakenSignal,
    process: &mut Process,
    dev: &mut Devices<I, O, E>,
    below: &mut Below,
) -> Result<(), Stop>
    requires { below.old.kernel.now.clock ≡ clock }
    ensures delivered { Carries (λ within. spec.delivered whole_end within taken.now.info taken.now.action) result
        (stands process.old below.old.kernel.now) (stands process.new below.new.kernel.now)
        (contents I.left O.written E.written dev.old) (contents I.left O.written E.written dev.new) }
    ensures kept { KeepsEnd result (I.left dev.old.input) below.old.kernel.now below.new.kernel.now process.old.space.now.pages process.new.space.now.pages below.old.log.now below.new.log.now }
    ensures cause { StopsOnlyIfRose I.faults O.faults E.faults result dev.old dev.new }
    ensures counts { NoCountFell I.faults O.faults E.faults dev.old dev.new }
    ensures clock { below.new.kernel.now.clock ≡ clock }
    ensures same { LeadsOn below.old below.new }
    ensures stays { StaysOn process.old process.new }
{
    if has_handler(&taken.action) {
        return handle(clock, taken, process, dev, below);
    }
    dispose(taken.info.sig, &taken.action, process.going)?;
    Ok(())
}
