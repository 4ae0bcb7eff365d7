//! Writing a frame and entering its handler.
ghost use Rattle.std.specs.Prelude.{◌≡◌, ◌+◌, ◌≤◌, ◌<◌, OnOk, IfErr, length, pos};
ghost use Rattle.guest_space.specs.Access.{first_denied, user_end};
ghost use Rattle.guest_space.specs.declared.access.Access.TheVariants.{Store};
ghost use Rattle.guest_space.specs.Answers.{IsStoreAnswer, LeavesPrefix};
ghost use Rattle.guest_space.specs.Bytes.{are_ready, copied_out};
ghost use Rattle.guest_space.specs.Memory.{IsValid};
ghost use Rattle.layouts.specs.Frames as frames;
ghost use Rattle.layouts.specs.O32.{siginfo, frame, rt_frame_of, o32_shape};
ghost use Rattle.mips_exec.specs.Processor.{IsValidProcessor};
ghost use Rattle.number_tables.specs.Signals.{o32_signal};
ghost use Rattle.signal_frames.specs.Entering as spec;
ghost use Rattle.signal_frames.specs.Entering.{context_of_processor, alternate_stack, information, entered, plain_entry, rt_entry, Enters};

use crate::values::{Values, push_context, push_info, push_mask, push_stack};
use crate::{AltStack, STACK_POINTER};
use guest_space::{Space, StoreError};
use kernel_core::{Info, Sig};
use layouts::{O32Structure, o32_layout, put_record};
use mips_exec::Cpu;
use number_tables::O32Number;

/// The registers of the first three arguments (System V ABI, MIPS supplement).
const FIRST_ARGUMENT: u8 = 4;

const SECOND_ARGUMENT: u8 = 5;

const THIRD_ARGUMENT: u8 = 6;

/// The register that has a function's own address when it begins, and the one that it returns to.
const FUNCTION: u8 = 25;

const RETURN_ADDRESS: u8 = 31;

/// In bytes.
const FRAME_SIZE: u32 = 632;

/// In bytes.
const RT_FRAME_SIZE: u32 = 784;

/// Where the parts of a frame lie in it, in bytes.
const SIGCONTEXT: u32 = 24;

const SIGINFO: u32 = 24;

const UCONTEXT: u32 = 152;

/// Where a handler returns to: a call of sigreturn(2), and one of rt_sigreturn (this project's own).
const SIGRETURN: u32 = 0x7FFF_4000;

const RT_SIGRETURN: u32 = 0x7FFF_4010;

/// What a handler is entered with.
#[derive(Clone, Copy)]
pub struct Entry {
    pub signal: u32,
    pub info: u32,
    pub context: u32,
    pub frame: u32,
    pub return_to: u32,
    pub handler: u32,
}

/// Where a frame of this size lies below an address, at a multiple of 8.
fn frame_address(top: u32, size: u32) -> u32
    ensures { result ≡ spec.frame_address top size }
{
    top.wrapping_sub(size) / 8 * 8
}

/// Sets the processor to a handler's first instruction.
fn enter(cpu: &mut Cpu, entry: Entry)
    ensures entered { cpu.new ≡ entered cpu.old entry }
    ensures valid { IsValidProcessor cpu.new }
{
    cpu.set_register(FIRST_ARGUMENT, entry.signal);
    cpu.set_register(SECOND_ARGUMENT, entry.info);
    cpu.set_register(THIRD_ARGUMENT, entry.context);
    cpu.set_register(FUNCTION, entry.handler);
    cpu.set_register(STACK_POINTER, entry.frame);
    cpu.set_register(RETURN_ADDRESS, entry.return_to);
    cpu.pc = entry.handler;
    cpu.slot = None;
    cpu.link = None;
}

/// The bytes of a frame of a handler without siginfo.
fn fill_frame(bytes: &mut [u8], cpu: &Cpu, mask: [u32; 4])
    requires { length bytes.old ≡ frame.size }
    ensures { bytes.new ≡ frames.frame_bytes (context_of_processor cpu.now) mask }
{
    let mut values = Values::new();
    push_context(&mut values, cpu);
    push_mask(&mut values, mask);
    let _ = put_record(o32_layout(O32Structure::Frame), values.as_slice(), bytes);
}

/// Writes the bytes of a frame, whose parts then lie in user space.
fn put_frame(space: &mut Space, address: u32, bytes: &[u8]) -> Result<(), StoreError>
    requires { 0 < length bytes.now }
    ensures ok { OnOk result (space.new ≡ copied_out space.old address bytes.now) }
    ensures err { IfErr result (λ e. LeavesPrefix e space.old space.new address bytes.now) }
    ensures answer { IsStoreAnswer (first_denied Store space.old.pages address (length bytes.now))
        (are_ready space.old.pages address (length bytes.now)) result }
    ensures valid { IsValid space.new.pages }
    ensures within { OnOk result (address < user_end) }
{
    space.copy_out(address, bytes)?;
    Ok(())
}

/// Writes the frame of a handler without siginfo below `top` and enters the handler, or does neither.
/// A frame's first byte that may not be stored to is named; where there is not enough memory for a
/// page, a first part of the frame is written.
pub fn write_frame(
    cpu: &mut Cpu,
    space: &mut Space,
    sig: Sig,
    handler: u32,
    mask: [u32; 4],
    top: u32,
) -> Result<(), StoreError>
    ensures enters { Enters result space.old space.new cpu.old cpu.new
        (frames.frame_bytes (context_of_processor cpu.old) mask)
        (plain_entry (o32_signal sig) handler (spec.frame_address top frame.size)) }
    ensures answer { IsStoreAnswer
        (first_denied Store space.old.pages (spec.frame_address top frame.size) frame.size)
        (are_ready space.old.pages (spec.frame_address top frame.size) frame.size) result }
    ensures valid { IsValid space.new.pages }
{
    let address = frame_address(top, FRAME_SIZE);
    let mut frame = [0; 632];
    fill_frame(&mut frame, cpu, mask);
    put_frame(space, address, &frame)?;
    enter(
        cpu,
        Entry {
            signal: sig.to_o32(),
            info: 0,
            context: address + SIGCONTEXT,
            frame: address,
            return_to: SIGRETURN,
            handler,
        },
    );
    Ok(())
}

/// The table of the frame of a handler with siginfo.
fn structure_of(info: &Info) -> O32Structure
    ensures { o32_shape result ≡ rt_frame_of (frames.siginfo_of (information info.now)) }
{
    if info.addr == 0 {
        O32Structure::RtFrame
    } else {
        O32Structure::RtFrameFault
    }
}

/// The bytes of a frame of a handler with siginfo, with the fields of a fault where its address is
/// not 0, and else with those of a sent signal.
fn fill_rt_frame(bytes: &mut [u8], info: &Info, stack: AltStack, cpu: &Cpu, mask: [u32; 4])
    requires { length bytes.old ≡ (rt_frame_of siginfo).size }
    ensures { bytes.new
        ≡ frames.rt_frame_bytes (information info.now) (alternate_stack stack) (context_of_processor cpu.now) mask }
{
    let structure = structure_of(info);
    let mut values = Values::new();
    push_info(&mut values, info);
    push_stack(&mut values, stack);
    push_context(&mut values, cpu);
    push_mask(&mut values, mask);
    let _ = put_record(o32_layout(structure), values.as_slice(), bytes);
}

/// Writes the frame of a handler with siginfo below `top` and enters the handler, or does neither, as
/// [`write_frame`] does.
pub fn write_rt_frame(
    cpu: &mut Cpu,
    space: &mut Space,
    info: &Info,
    handler: u32,
    mask: [u32; 4],
    stack: AltStack,
    top: u32,
) -> Result<(), StoreError>
    ensures enters { Enters result space.old space.new cpu.old cpu.new
        (frames.rt_frame_bytes (information info.now) (alternate_stack stack) (context_of_processor cpu.old) mask)
        (rt_entry (o32_signal info.now.sig) handler (spec.frame_address top (rt_frame_of siginfo).size)) }
    ensures answer { IsStoreAnswer
        (first_denied Store space.old.pages (spec.frame_address top (rt_frame_of siginfo).size) (rt_frame_of siginfo).size)
        (are_ready space.old.pages (spec.frame_address top (rt_frame_of siginfo).size) (rt_frame_of siginfo).size) result }
    ensures valid { IsValid space.new.pages }
{
    let address = frame_address(top, RT_FRAME_SIZE);
    let mut rt_frame = [0; 784];
    fill_rt_frame(&mut rt_frame, info, stack, cpu, mask);
    put_frame(space, address, &rt_frame)?;
    enter(
        cpu,
        Entry {
            signal: info.sig.to_o32(),
            info: address + SIGINFO,
            context: address + UCONTEXT,
            frame: address,
            return_to: RT_SIGRETURN,
            handler,
        },
    );
    Ok(())
}
