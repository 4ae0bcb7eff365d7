//! The frame of a handler: where it lies, and that it is written.
ghost use Rattle.std.specs.Prelude.{◌≡◌, ◌≤◌, ◌+◌, ◌%◌, ◌^◌, length, None, OnOk, Some};
ghost use Rattle.bridge_delivery.specs.inside.Frames as spec;
ghost use Rattle.bridge_delivery.specs.inside.Frames.{Enters};
ghost use Rattle.bridge_ends.specs.Passed.{EffectsLead, written};
ghost use Rattle.guest_space.specs.Access.{first_denied};
ghost use Rattle.guest_space.specs.Bytes.{bytes_at};
ghost use Rattle.guest_space.specs.Memory.{Memory};
ghost use Rattle.guest_space.specs.declared.access.Access.TheVariants.{Load};
ghost use Rattle.kernel_model.specs.SignalRows as rows;
ghost use Rattle.o32_model.specs.Logs.{with_more};
ghost use Rattle.o32_turns.specs.Handling.{handler_address};
ghost use Rattle.signal_frames.specs.Entering.{frame_address};

use crate::taken::TakenSignal;
use bridge_ends::wrote;
use guest_space::{Space, StoreError};
use kernel_core::NoMemory;
use kernel_model::{Action, SigStack};
use mips_exec::Cpu;
use o32_model::Log;
use signal_frames::{AltStack, write_frame, write_rt_frame};

/// The number of the stack pointer among the registers (System V ABI, MIPS supplement).
const STACK_POINTER: u8 = 29;

/// How many bytes a frame has without SA_SIGINFO (its layout is in `layouts`).
const FRAME_SIZE: u32 = 632;

/// The same under SA_SIGINFO.
const RT_FRAME_SIZE: u32 = 784;

/// How many bytes below the stack pointer a frame begins, which a program may use (this project's own).
const BELOW_POINTER: u32 = 32;

// The flags of an alternate stack (sigaltstack(2)).

const SS_ONSTACK: u32 = 1;

const SS_DISABLE: u32 = 2;

/// Writes the frame of a signal's handler and sets the processor to the handler's first instruction, or changes
/// nothing and answers false, where the frame can't be written whole. The frame keeps the registers, `mask`, and, under
/// SA_SIGINFO, what is known of the signal and the alternate stack. It lies on the alternate stack under SA_ONSTACK,
/// unless that is disabled or in use (sigaltstack(2)). Where effects are kept, its bytes are kept as one. After NoMemory
/// the memory is not used again.
pub(crate) fn enter(
    taken: &TakenSignal,
    mask: [u32; 4],
    stack: SigStack,
    cpu: &mut Cpu,
    space: &mut Space,
    log: &mut Log,
) -> Result<bool, NoMemory>
    ensures entered { Enters (spec.framed stack cpu.old taken.now.info taken.now.action mask) result cpu.old cpu.new space.old space.new }
    ensures effects { OnOk result (EffectsLead log.old log.new space.old space.new) }
    ensures native { log.new.native ≡ log.old.native }
{
    space.whole();
    let pointer = cpu.register(STACK_POINTER);
    let top = top_of(stack, pointer, taken.action.flags.onstack());
    let written = enter_below(taken, mask, shown(stack, pointer), top, cpu, space)?;
    if written {
        keep_frame(top, frame_size(&taken.action), space, log)?;
    }
    Ok(written)
}

/// The same of a frame below `top`, with the alternate stack as it is shown; nothing is kept of it.
fn enter_below(
    taken: &TakenSignal,
    mask: [u32; 4],
    stack: SigStack,
    top: u32,
    cpu: &mut Cpu,
    space: &mut Space,
) -> Result<bool, NoMemory>
    ensures { Enters (spec.framed_below top stack cpu.old taken.now.info taken.now.action mask) result cpu.old cpu.new space.old space.new }
{
    if taken.action.flags.siginfo() {
        enter_with_info(taken, mask, stack, top, cpu, space)
    } else {
        enter_plain(taken, mask, top, cpu, space)
    }
}

/// How many bytes a handler's frame has: more under SA_SIGINFO.
fn frame_size(action: &Action) -> u32
    ensures { result ≡ spec.frame_size action.now }
{
    if action.flags.siginfo() {
        RT_FRAME_SIZE
    } else {
        FRAME_SIZE
    }
}

/// Where a frame of this size lies below an address: at a multiple of 8 (this project's own).
fn frame_address(top: u32, size: u32) -> u32
    ensures { result ≡ frame_address top size }
{
    top.wrapping_sub(size) / 8 * 8
}

/// Keeps, where effects are kept, the bytes of a frame that was written. They are read back only then.
fn keep_frame(top: u32, size: u32, space: &Space, log: &mut Log) -> Result<(), NoMemory>
    requires small { size ≤ 784 }
    requires readable { first_denied Load space.now.pages (frame_address top size) size ≡ None }
    ensures effects { OnOk result (log.new.effects ≡ with_more log.old.effects
        (written (frame_address top size) (bytes_at space.now.pages (frame_address top size) size))) }
    ensures native { log.new.native ≡ log.old.native }
{
    if log.effects.is_none() {
        return Ok(());
    }
    let address = frame_address(top, size);
    let mut frame = [0; RT_FRAME_SIZE as usize];
    let bytes = &mut frame[..size as usize];
    read_loadable(space, address, bytes);
    wrote(log, address, bytes)?;
    Ok(())
}

/// Reads bytes of which each may be loaded.
fn read_loadable(space: &Space, address: u32, bytes: &mut [u8])
    requires { first_denied Load space.now.pages address (length bytes.old) ≡ None }
    ensures { bytes.new ≡ bytes_at space.now.pages address (length bytes.old) }
{
    match space.copy_in(address, bytes) {
        Ok(()) => {}
        Err(_) => unreachable!(),
    }
}

/// The same under SA_SIGINFO, of a frame below `top`.
fn enter_with_info(
    taken: &TakenSignal,
    mask: [u32; 4],
    stack: SigStack,
    top: u32,
    cpu: &mut Cpu,
    space: &mut Space,
) -> Result<bool, NoMemory>
    ensures { Enters (spec.with_info cpu.old taken.now.info taken.now.action mask stack top) result cpu.old cpu.new space.old space.new }
{
    let handler = handler_address(&taken.action);
    let written = write_rt_frame(cpu, space, &taken.info, handler, mask, words_of(stack), top);
    is_written(written)
}

/// The same without it.
fn enter_plain(
    taken: &TakenSignal,
    mask: [u32; 4],
    top: u32,
    cpu: &mut Cpu,
    space: &mut Space,
) -> Result<bool, NoMemory>
    ensures { Enters (spec.plain cpu.old taken.now.info taken.now.action mask top) result cpu.old cpu.new space.old space.new }
{
    let handler = handler_address(&taken.action);
    let written = write_frame(cpu, space, taken.info.sig, handler, mask, top);
    is_written(written)
}

/// Whether a frame is written; memory may have run out.
fn is_written(written: Result<(), StoreError>) -> Result<bool, NoMemory>
    ensures { spec.IsWritten written result }
{
    match written {
        Ok(()) => Ok(true),
        Err(StoreError::Denied(_)) => Ok(false),
        Err(StoreError::NoMemory) => Err(NoMemory),
    }
}

/// Below what a frame is put: the end of the alternate stack, or else the bytes below the stack pointer.
fn top_of(stack: SigStack, pointer: u32, onstack: bool) -> u32
    ensures { result ≡ spec.top_of stack pointer onstack }
{
    if onstack && stack.flags != SS_DISABLE && !is_within(stack, pointer) {
        (stack.sp.wrapping_add(stack.size) % (1 << 32)) as u32
    } else {
        pointer.wrapping_sub(BELOW_POINTER)
    }
}

/// Whether a stack pointer is on the alternate stack, which is enabled.
fn is_on(stack: SigStack, pointer: u32) -> bool
    ensures { result ≡ rows.is_on stack (Some pointer) }
{
    stack.flags != SS_DISABLE && is_within(stack, pointer)
}

/// Whether a stack pointer lies where the alternate stack has bytes below it.
fn is_within(stack: SigStack, pointer: u32) -> bool
    ensures { result ≡ spec.is_within stack pointer }
{
    let pointer = u64::from(pointer);
    stack.sp < pointer && pointer - stack.sp <= stack.size
}

/// The alternate stack as it is shown: with SS_ONSTACK where the stack pointer is on it.
fn shown(stack: SigStack, pointer: u32) -> SigStack
    ensures { result ≡ rows.shown_stack stack (Some pointer) }
{
    let flags = if is_on(stack, pointer) {
        SS_ONSTACK
    } else {
        stack.flags
    };
    SigStack {
        sp: stack.sp,
        size: stack.size,
        flags,
    }
}

/// The alternate stack as a frame keeps it: addresses and sizes of a program have 32 bits.
fn words_of(stack: SigStack) -> AltStack
    ensures { result ≡ spec.words_of stack }
{
    AltStack {
        sp: low_word(stack.sp),
        size: low_word(stack.size),
        flags: stack.flags,
    }
}

/// Where a handler begins, as addresses have 32 bits.
fn handler_address(action: &Action) -> u32
    ensures { result ≡ handler_address action.now }
{
    low_word(action.handler)
}

fn low_word(number: u64) -> u32
    ensures { result ≡ number % 2 ^ 32 }
{
    (number % (1 << 32)) as u32
}
