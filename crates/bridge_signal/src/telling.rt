//! What is kept of signals, told and set: rt_sigaction(2), rt_sigprocmask(2), rt_sigpending(2), sigaltstack(2).
ghost use Rattle.std.specs.Prelude.{◌≡◌};
ghost use Rattle.bridge_signal_state.specs.Passed.{KeepsCall, Proceeds};
ghost use Rattle.bridge_signal.specs.inside.Told.{did};
ghost use Rattle.bridge_signal_state.specs.Acts.{Acts};
ghost use Rattle.kernel_model.specs.SignalRows as rows;
ghost use Rattle.o32_model.specs.Actions.{rt_sigaction_row, rt_sigpending_row, rt_sigprocmask_row, sigaltstack_row};
ghost use Rattle.o32_model.specs.Answered.{IsCall};
ghost use Rattle.o32_model.specs.Step.{Guest};
ghost use Rattle.o32_model.specs.Words.{argument};
ghost use Rattle.outside.specs.Streams.{contents};

use crate::actions::change_action;
use crate::asked::{asked_action, asked_change, is_set_size};
use crate::masks::change_mask;
use crate::stacks::{asked_stack, change_stack};
use crate::storing::{
    store_action_unless_null, store_set, store_set_unless_null, store_stack_unless_null,
};
use bridge_signal_state::{Below, pending};
use guest_space::Space;
use kernel_core::{Errno, Stop};
use mips_exec::Cpu;
use o32_model::{CallWords, Outcome};
use outside::{Devices, Sink, Source};

/// The number of the stack pointer among the registers (System V ABI, MIPS supplement).
const STACK_POINTER: u8 = 29;

/// rt_sigaction(2): EINVAL for another size of a set than 16, for a number that is not listed, and for a new action of
/// KILL or STOP; EFAULT. The old action is stored, where its address is not null; the new one stands also where that
/// is EFAULT.
pub(crate) fn rt_sigaction<I: Source, O: Sink, E: Sink>(
    words: &CallWords,
    space: &mut Space,
    dev: &mut Devices<I, O, E>,
    below: &mut Below,
) -> Result<Outcome, Stop>
    ensures row { (guest : Guest) → guest.memory ≡ space.old
        → IsCall (rt_sigaction_row below.old.kernel.now guest (argument words.now 0) (argument words.now 1) (argument words.now 2) (argument words.now 3)) result below.new.kernel.now space.new guest.processor
        (contents I.left O.written E.written dev.old) (contents I.left O.written E.written dev.new) }
    ensures kept { (guest : Guest) → guest.memory ≡ space.old
        → KeepsCall (rt_sigaction_row below.old.kernel.now guest (argument words.now 0) (argument words.now 1) (argument words.now 2) (argument words.now 3)) result below.old.kernel.now guest (I.left dev.old.input) below.old.log.now below.new.log.now }
    ensures proceeds { Proceeds I.faults O.faults E.faults result below.old below.new dev.old dev.new }
{
    let [number, new, old, size] = words.reg;
    let asked = asked_action(number, new, size, space);
    let told = change_action(asked, dev, below)?;
    let outcome = store_action_unless_null(told, old, space, below.log)?;
    Ok(outcome)
}

/// rt_sigprocmask(2): EINVAL for another size of a set than 16, and, where there is a set, for a change that is not
/// listed; EFAULT. The old mask is stored, where its address is not null; the new one stands also where that is EFAULT.
pub(crate) fn rt_sigprocmask<I: Source, O: Sink, E: Sink>(
    words: &CallWords,
    space: &mut Space,
    dev: &mut Devices<I, O, E>,
    below: &mut Below,
) -> Result<Outcome, Stop>
    ensures row { (guest : Guest) → guest.memory ≡ space.old
        → IsCall (rt_sigprocmask_row below.old.kernel.now guest (argument words.now 0) (argument words.now 1) (argument words.now 2) (argument words.now 3)) result below.new.kernel.now space.new guest.processor
        (contents I.left O.written E.written dev.old) (contents I.left O.written E.written dev.new) }
    ensures kept { (guest : Guest) → guest.memory ≡ space.old
        → KeepsCall (rt_sigprocmask_row below.old.kernel.now guest (argument words.now 0) (argument words.now 1) (argument words.now 2) (argument words.now 3)) result below.old.kernel.now guest (I.left dev.old.input) below.old.log.now below.new.log.now }
    ensures proceeds { Proceeds I.faults O.faults E.faults result below.old below.new dev.old dev.new }
{
    let [how, new, old, size] = words.reg;
    let asked = asked_change(how, new, size, space);
    let told = change_mask(asked, dev, below)?;
    let outcome = store_set_unless_null(told, old, space, below.log)?;
    Ok(outcome)
}

/// rt_sigpending(2): EINVAL for another size of a set than 16; EFAULT.
pub(crate) fn rt_sigpending<I: Source, O: Sink, E: Sink>(
    address: u32,
    size: u32,
    space: &mut Space,
    dev: &mut Devices<I, O, E>,
    below: &mut Below,
) -> Result<Outcome, Stop>
    ensures row { (guest : Guest) → guest.memory ≡ space.old
        → IsCall (rt_sigpending_row below.old.kernel.now guest address size) result below.new.kernel.now space.new guest.processor
        (contents I.left O.written E.written dev.old) (contents I.left O.written E.written dev.new) }
    ensures kept { (guest : Guest) → guest.memory ≡ space.old
        → KeepsCall (rt_sigpending_row below.old.kernel.now guest address size) result below.old.kernel.now guest (I.left dev.old.input) below.old.log.now below.new.log.now }
    ensures proceeds { Proceeds I.faults O.faults E.faults result below.old below.new dev.old dev.new }
{
    let told = told_pending(size, dev, below)?;
    let outcome = store_set(told, address, space, below.log)?;
    Ok(outcome)
}

/// What pends, or EINVAL for another size of a set than 16.
fn told_pending<I: Source, O: Sink, E: Sink>(
    size: u32,
    dev: &mut Devices<I, O, E>,
    below: &mut Below,
) -> Result<Result<[u32; 4], Errno>, Stop>
    ensures acts { Acts (λ told became. rows.pending below.old.kernel.now size ≡ did became told) result below.old.kernel.now below.new.kernel.now
        (contents I.left O.written E.written dev.old) (contents I.left O.written E.written dev.new) below.old.log.now below.new.log.now }
    ensures proceeds { Proceeds I.faults O.faults E.faults result below.old below.new dev.old dev.new }
{
    if !is_set_size(size) {
        return Ok(Err(Errno::EINVAL));
    }
    let set = pending(dev, below)?;
    Ok(Ok(set))
}

/// sigaltstack(2): EFAULT, EPERM while the stack pointer is on the old stack, EINVAL for flags above SS_DISABLE,
/// ENOMEM for a stack of fewer than 2048 bytes that is not disabled. The old stack is stored, where its address is not
/// null; the new one stands also where that is EFAULT.
pub(crate) fn sigaltstack<I: Source, O: Sink, E: Sink>(
    cpu: &Cpu,
    new: u32,
    old: u32,
    space: &mut Space,
    dev: &mut Devices<I, O, E>,
    below: &mut Below,
) -> Result<Outcome, Stop>
    ensures row { (guest : Guest) → guest.memory ≡ space.old → guest.processor ≡ cpu.now
        → IsCall (sigaltstack_row below.old.kernel.now guest new old) result below.new.kernel.now space.new guest.processor
        (contents I.left O.written E.written dev.old) (contents I.left O.written E.written dev.new) }
    ensures kept { (guest : Guest) → guest.memory ≡ space.old → guest.processor ≡ cpu.now
        → KeepsCall (sigaltstack_row below.old.kernel.now guest new old) result below.old.kernel.now guest (I.left dev.old.input) below.old.log.now below.new.log.now }
    ensures proceeds { Proceeds I.faults O.faults E.faults result below.old below.new dev.old dev.new }
{
    let asked = asked_stack(space, new);
    let sp = cpu.register(STACK_POINTER);
    let told = change_stack(asked, sp, dev, below)?;
    let outcome = store_stack_unless_null(told, old, space, below.log)?;
    Ok(outcome)
}
