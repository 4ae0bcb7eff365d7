//! The values of a frame's fields, in the order of its table.
ghost use Rattle.std.specs.Prelude.{◌≡◌, ◌+◌, ◌≤◌, [], ◌∷◌, ◌++◌, map, pos, length};
ghost use Rattle.arrayvec.specs.ArrayVec.{array_vec_len};
ghost use Rattle.layouts.specs.Frames as frames;
ghost use Rattle.layouts.specs.Frames.{context_values, stack_values, siginfo_values, IsContext, IsMask, IsAlternateStack, IsInformation};
ghost use Rattle.signal_frames.specs.Entering.{context, context_of_processor, alternate_stack, information};

use crate::AltStack;
use arrayvec::ArrayVec;
use kernel_core::Info;
use mips_exec::Cpu;
use number_tables::O32Number;

/// The most fields that a frame has.
pub const MOST_FIELDS: usize = 48;

/// Values of fields.
pub type Values = ArrayVec<i128, MOST_FIELDS>;

/// A word as a number of 8 bytes that carries its sign on.
fn sign_extended(word: u32) -> i128
    ensures { result ≡ frames.sign_extended word }
{
    let value = i128::from(word);
    if word < 0x8000_0000 {
        value
    } else {
        value - 0x1_0000_0000
    }
}

/// Adds the values of a context.
fn push_words(values: &mut Values, pc: u32, registers: &[u32], hi: u32, lo: u32)
    requires room { array_vec_len values.old + 35 ≤ 48 }
    requires count { length registers.now ≡ 32 }
    ensures values { values.new.items ≡ values.old.items ++ context_values (context pc registers.now hi lo) }
    ensures words { IsContext (context pc registers.now hi lo) }
{
    values.push(sign_extended(pc));
    for register in registers {
        values.push(sign_extended(*register));
    }
    values.push(sign_extended(hi));
    values.push(sign_extended(lo));
}

/// Adds what a frame keeps of the processor.
pub fn push_context(values: &mut Values, cpu: &Cpu)
    requires { array_vec_len values.old + 35 ≤ 48 }
    ensures values { values.new.items ≡ values.old.items ++ context_values (context_of_processor cpu.now) }
    ensures words { IsContext (context_of_processor cpu.now) }
{
    push_words(values, cpu.pc, &cpu.regs, cpu.hi, cpu.lo);
}

/// Adds what a handler is told of its signal: the fields of a fault where its address is not 0, and
/// else those of a signal that was sent.
pub fn push_info(values: &mut Values, info: &Info)
    requires { array_vec_len values.old + 6 ≤ 48 }
    ensures values { values.new.items ≡ values.old.items ++ siginfo_values (information info.now) }
    ensures words { IsInformation (information info.now) }
{
    let Info {
        sig,
        code,
        errno,
        pid,
        uid,
        value,
        addr,
    } = *info;
    values.push(i128::from(sig.to_o32()));
    values.push(i128::from(code));
    values.push(i128::from(errno));
    if addr == 0 {
        values.push(i128::from(pid));
        values.push(i128::from(uid));
        values.push(i128::from(value));
    } else {
        values.push(i128::from(addr));
    }
}

/// Adds the four words of a mask.
pub fn push_mask(values: &mut Values, mask: [u32; 4])
    requires { array_vec_len values.old + 4 ≤ 48 }
    ensures values { values.new.items ≡ values.old.items ++ map pos mask }
    ensures words { IsMask mask }
{
    for word in &mask {
        values.push(i128::from(*word));
    }
}

/// Adds an alternate stack.
pub fn push_stack(values: &mut Values, stack: AltStack)
    requires { array_vec_len values.old + 3 ≤ 48 }
    ensures values { values.new.items ≡ values.old.items ++ stack_values (alternate_stack stack) }
    ensures words { IsAlternateStack (alternate_stack stack) }
{
    values.push(i128::from(stack.sp));
    values.push(i128::from(stack.size));
    values.push(i128::from(stack.flags));
}
