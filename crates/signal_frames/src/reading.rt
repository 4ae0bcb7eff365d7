//! Reading a frame back when its handler returns.
ghost use Rattle.std.specs.Prelude.{◌≡◌, ◌<◌, ◌≤◌, OnOk, OnErr, length, map, take, drop};
ghost use Rattle.guest_space.specs.Access.{first_denied, unless_denied};
ghost use Rattle.guest_space.specs.declared.access.Access.TheVariants.{Load};
ghost use Rattle.layouts.specs.Number.{low_number};
ghost use Rattle.layouts.specs.Frames.{context_of, stack_of, words_in, returned_mask, frame_context, frame_mask, rt_frame_context};
ghost use Rattle.layouts.specs.O32.{siginfo, frame, rt_frame_of, o32_shape};
ghost use Rattle.layouts.specs.Shape.{record_values};
ghost use Rattle.guest_space.specs.Bytes.{bytes_at};
ghost use Rattle.mips_exec.specs.Processor.{register, IsValidProcessor};
ghost use Rattle.signal_frames.specs.Returning as spec;
ghost use Rattle.signal_frames.specs.Returning.{frame_at, rt_frame_at, returned, shown_stack, return_of};

use crate::{AltStack, Return, STACK_POINTER};
use guest_space::{Denied, Space};
use layouts::{O32Structure, get_record, low_word, o32_layout};
use mips_exec::Cpu;

/// The bits of KILL and STOP in the first word of a mask: bit 8 for signal 9, and bit 22 for 23.
const UNBLOCKABLE: u32 = 0x0040_0100;

/// Reads the values of all fields of a structure in memory.
fn load_values(
    space: &Space,
    address: u32,
    structure: O32Structure,
    bytes: &mut [u8],
    values: &mut [i128],
) -> Result<(), Denied>
    requires whole { length bytes.old ≡ (o32_shape structure).size }
    requires one_each { length values.old ≡ length (o32_shape structure).fields }
    ensures answer { result ≡ unless_denied (first_denied Load space.now.pages address (o32_shape structure).size) tt }
    ensures values { OnOk result (values.new
        ≡ record_values (o32_shape structure) (bytes_at space.now.pages address (o32_shape structure).size)) }
{
    space.copy_in(address, bytes)?;
    get_record(o32_layout(structure), bytes, values);
    Ok(())
}

/// Sets the processor to what the fields of a sigcontext say, which come first.
fn return_to(cpu: &mut Cpu, context: &[i128])
    requires { 35 ≤ length context.now }
    ensures returned { cpu.new ≡ returned cpu.old (context_of (map (low_number 4) context.now)) }
    ensures valid { IsValidProcessor cpu.new }
{
    let mut registers = [0; 32];
    for number in 1..32 {
        registers[number] = low_word(context[number + 1]);
    }
    cpu.regs = registers;
    cpu.pc = low_word(context[0]);
    cpu.hi = low_word(context[33]);
    cpu.lo = low_word(context[34]);
}

/// The mask that the fields of one say, without KILL and STOP.
fn mask_of(words: &[i128]) -> [u32; 4]
    requires { length words.now ≡ 4 }
    ensures { result ≡ returned_mask (map (low_number 4) words.now) }
{
    [
        low_word(words[0]) & !UNBLOCKABLE,
        low_word(words[1]),
        low_word(words[2]),
        low_word(words[3]),
    ]
}

/// The alternate stack that the fields of one say, which come first.
fn stack_of(words: &[i128]) -> AltStack
    requires { 3 ≤ length words.now }
    ensures { result ≡ shown_stack (stack_of (map (low_number 4) words.now)) }
{
    AltStack {
        sp: low_word(words[0]),
        size: low_word(words[1]),
        flags: low_word(words[2]),
    }
}

/// Reads the frame of a handler without siginfo at the stack pointer: sets the registers, and answers
/// the mask, without KILL and STOP. Any bytes are a frame. Where a byte may not be loaded nothing
/// changes. It takes no memory.
pub fn read_frame(cpu: &mut Cpu, space: &Space) -> Result<[u32; 4], Denied>
    ensures answer { result ≡ unless_denied (first_denied Load space.now.pages (register cpu.old 29) frame.size)
        (frame_mask (frame_at space.now cpu.old)) }
    ensures returned { OnOk result (cpu.new ≡ returned cpu.old (frame_context (frame_at space.now cpu.old))) }
    ensures denied { OnErr result (cpu.new ≡ cpu.old) }
{
    let mut frame = [0; 632];
    let mut values = [0; 39];
    let address = cpu.register(STACK_POINTER);
    match load_values(space, address, O32Structure::Frame, &mut frame, &mut values) {
        Err(denied) => Err(denied),
        Ok(()) => {
            return_to(cpu, &values);
            Ok(mask_of(&values[35..]))
        }
    }
}

/// Reads the frame of a handler with siginfo at the stack pointer, as [`read_frame`] does: sets the
/// registers, and answers the mask and the alternate stack.
pub fn read_rt_frame(cpu: &mut Cpu, space: &Space) -> Result<Return, Denied>
    ensures answer { result
        ≡ unless_denied (first_denied Load space.now.pages (register cpu.old 29) (rt_frame_of siginfo).size)
        (return_of (rt_frame_at space.now cpu.old)) }
    ensures returned { OnOk result (cpu.new ≡ returned cpu.old (rt_frame_context (rt_frame_at space.now cpu.old))) }
    ensures denied { OnErr result (cpu.new ≡ cpu.old) }
{
    let mut rt_frame = [0; 784];
    let mut values = [0; 48];
    let address = cpu.register(STACK_POINTER);
    match load_values(
        space,
        address,
        O32Structure::RtFrame,
        &mut rt_frame,
        &mut values,
    ) {
        Err(denied) => Err(denied),
        Ok(()) => {
            let ucontext = &values[6..];
            let context = &ucontext[3..];
            return_to(cpu, context);
            Ok(Return {
                mask: mask_of(&context[35..]),
                stack: stack_of(ucontext),
            })
        }
    }
}
