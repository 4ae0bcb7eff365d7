//! The alternate stack, set and told: sigaltstack(2).
ghost use Rattle.std.specs.Prelude.{◌≡◌, Ok, Err, Some, if◌then◌else◌};
ghost use Rattle.bridge_signal_state.specs.Passed.{Proceeds};
ghost use Rattle.bridge_signal.specs.inside.Stacks.{changed_stack, set_from, set_taken, told_if, wrong_with};
ghost use Rattle.bridge_signal.specs.inside.Told.{did};
ghost use Rattle.bridge_signal_state.specs.Acts.{Acts};
ghost use Rattle.kernel_model.specs.Came.{given_or_none};
ghost use Rattle.kernel_model.specs.SignalRows as rows;
ghost use Rattle.o32_model.specs.Actions.{stack_at};
ghost use Rattle.outside.specs.Streams.{contents};

use crate::structures::stack_in_program;
use bridge_signal_state::{Below, set_stack, stack};
use guest_space::Space;
use kernel_core::{Errno, Stop};
use kernel_model::SigStack;
use outside::{Devices, Sink, Source};

/// SS_ONSTACK: the process is on the stack.
const ON_STACK: u32 = 1;

/// SS_DISABLE: the stack is disabled. It is the greatest of the flags.
const DISABLED: u32 = 2;

/// The new stack in the program's memory, none where the address is null, or EFAULT.
pub(crate) fn asked_stack(space: &Space, address: u32) -> Result<Option<SigStack>, Errno>
    ensures { result ≡ given_or_none (stack_at space.now address) }
{
    if address == 0 {
        return Ok(None);
    }
    match stack_in_program(space, address) {
        Err(error) => Err(error),
        Ok(stack) => Ok(Some(stack)),
    }
}

/// Tells the stack and sets the new one, where there is one, or tells the error. `sp` is the stack pointer.
pub(crate) fn change_stack<I: Source, O: Sink, E: Sink>(
    asked: Result<Option<SigStack>, Errno>,
    sp: u32,
    dev: &mut Devices<I, O, E>,
    below: &mut Below,
) -> Result<Result<SigStack, Errno>, Stop>
    ensures acts { Acts (λ told became. changed_stack below.old.kernel.now sp asked ≡ did became told) result below.old.kernel.now below.new.kernel.now
        (contents I.left O.written E.written dev.old) (contents I.left O.written E.written dev.new) below.old.log.now below.new.log.now }
    ensures proceeds { Proceeds I.faults O.faults E.faults result below.old below.new dev.old dev.new }
{
    match asked {
        Err(error) => Ok(Err(error)),
        Ok(new) => replace_stack(new, sp, dev, below),
    }
}

/// Tells the stack and sets a new one, where there is one: EPERM while the stack pointer is on the old one, EINVAL for
/// flags above SS_DISABLE, ENOMEM for a stack of fewer than 2048 bytes that is not disabled.
pub(crate) fn replace_stack<I: Source, O: Sink, E: Sink>(
    new: Option<SigStack>,
    sp: u32,
    dev: &mut Devices<I, O, E>,
    below: &mut Below,
) -> Result<Result<SigStack, Errno>, Stop>
    ensures acts { Acts (λ told became. rows.set_stack_to below.old.kernel.now (Some sp) new ≡ did became told) result below.old.kernel.now below.new.kernel.now
        (contents I.left O.written E.written dev.old) (contents I.left O.written E.written dev.new) below.old.log.now below.new.log.now }
    ensures proceeds { Proceeds I.faults O.faults E.faults result below.old below.new dev.old dev.new }
{
    let before = stack(dev, below)?;
    let told = set_over(before, new, sp, dev, below)?;
    Ok(told)
}

/// The same, where the stack was `before`.
fn set_over<I: Source, O: Sink, E: Sink>(
    before: SigStack,
    new: Option<SigStack>,
    sp: u32,
    dev: &mut Devices<I, O, E>,
    below: &mut Below,
) -> Result<Result<SigStack, Errno>, Stop>
    ensures acts { Acts (λ told became. set_from below.old.kernel.now before sp new ≡ did became told) result below.old.kernel.now below.new.kernel.now
        (contents I.left O.written E.written dev.old) (contents I.left O.written E.written dev.new) below.old.log.now below.new.log.now }
    ensures proceeds { Proceeds I.faults O.faults E.faults result below.old below.new dev.old dev.new }
{
    match new {
        None => Ok(Ok(shown_stack(before, sp))),
        Some(new) => set_unless_on(before, new, sp, dev, below),
    }
}

/// Sets the stack, unless the stack pointer is on the one before.
fn set_unless_on<I: Source, O: Sink, E: Sink>(
    before: SigStack,
    new: SigStack,
    sp: u32,
    dev: &mut Devices<I, O, E>,
    below: &mut Below,
) -> Result<Result<SigStack, Errno>, Stop>
    ensures acts { Acts (λ told became. set_from below.old.kernel.now before sp (Some new) ≡ did became told) result below.old.kernel.now below.new.kernel.now
        (contents I.left O.written E.written dev.old) (contents I.left O.written E.written dev.new) below.old.log.now below.new.log.now }
    ensures proceeds { Proceeds I.faults O.faults E.faults result below.old below.new dev.old dev.new }
{
    if is_on(before, sp) {
        return Ok(Err(Errno::EPERM));
    }
    take(shown_stack(before, sp), new, dev, below)
}

/// Sets the stack, and tells the one that was shown, or what is wrong.
fn take<I: Source, O: Sink, E: Sink>(
    shown: SigStack,
    new: SigStack,
    dev: &mut Devices<I, O, E>,
    below: &mut Below,
) -> Result<Result<SigStack, Errno>, Stop>
    ensures acts { Acts (λ told became. set_taken below.old.kernel.now shown new ≡ did became told) result below.old.kernel.now below.new.kernel.now
        (contents I.left O.written E.written dev.old) (contents I.left O.written E.written dev.new) below.old.log.now below.new.log.now }
    ensures proceeds { Proceeds I.faults O.faults E.faults result below.old below.new dev.old dev.new }
{
    let taken = set_stack(new, dev, below)?;
    Ok(told_if(taken, shown, new))
}

fn told_if(taken: bool, shown: SigStack, new: SigStack) -> Result<SigStack, Errno>
    ensures { result ≡ told_if taken shown new }
{
    if taken {
        Ok(shown)
    } else {
        Err(wrong_with(new))
    }
}

/// What is wrong with a stack that is not taken.
fn wrong_with(stack: SigStack) -> Errno
    ensures { result ≡ wrong_with stack }
{
    if stack.flags > DISABLED {
        Errno::EINVAL
    } else {
        Errno::ENOMEM
    }
}

/// Whether a stack pointer is on a stack, which is enabled.
fn is_on(stack: SigStack, sp: u32) -> bool
    ensures { result ≡ rows.is_on stack (Some sp) }
{
    let sp = u64::from(sp);
    stack.flags != DISABLED && stack.sp < sp && sp - stack.sp <= stack.size
}

/// The stack as it is shown: with SS_ONSTACK while the stack pointer is on it.
fn shown_stack(stack: SigStack, sp: u32) -> SigStack
    ensures { result ≡ rows.shown_stack stack (Some sp) }
{
    if is_on(stack, sp) {
        SigStack {
            flags: ON_STACK,
            ..stack
        }
    } else {
        stack
    }
}
