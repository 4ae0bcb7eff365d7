//! Returning from a handler: sigreturn(2), and rt_sigreturn.
ghost use Rattle.std.specs.Prelude.{◌≡◌};
ghost use Rattle.bridge_signal_state.specs.Passed.{KeepsCall, Proceeds};
ghost use Rattle.bridge_signal.specs.inside.Returns.{restored, sig_stack};
ghost use Rattle.bridge_signal_state.specs.Acts.{Acts};
ghost use Rattle.o32_model.specs.Answered.{IsCall};
ghost use Rattle.o32_model.specs.Returns.{rt_sigreturn_row, sigreturn_row};
ghost use Rattle.o32_model.specs.Step.{Guest};
ghost use Rattle.outside.specs.Streams.{contents};

use crate::stacks::replace_stack;
use bridge_signal_state::{Below, set_mask};
use guest_space::Space;
use kernel_core::Stop;
use kernel_model::SigStack;
use mips_exec::Cpu;
use o32_model::Outcome;
use outside::{Devices, Sink, Source};
use signal_frames::{AltStack, Return, read_frame, read_rt_frame};

/// The number of the stack pointer among the registers (System V ABI, MIPS supplement).
const STACK_POINTER: u8 = 29;

/// sigreturn(2): the registers and the mask are those of the frame at the stack pointer, but for KILL and STOP. Where
/// the frame can't be read whole nothing changes.
pub(crate) fn sigreturn<I: Source, O: Sink, E: Sink>(
    cpu: &mut Cpu,
    space: &Space,
    dev: &mut Devices<I, O, E>,
    below: &mut Below,
) -> Result<Outcome, Stop>
    ensures row { (guest : Guest) → guest.memory ≡ space.now → guest.processor ≡ cpu.old
        → IsCall (sigreturn_row below.old.kernel.now guest) result below.new.kernel.now space.now cpu.new
        (contents I.left O.written E.written dev.old) (contents I.left O.written E.written dev.new) }
    ensures kept { (guest : Guest) → guest.memory ≡ space.now → guest.processor ≡ cpu.old
        → KeepsCall (sigreturn_row below.old.kernel.now guest) result below.old.kernel.now guest (I.left dev.old.input) below.old.log.now below.new.log.now }
    ensures proceeds { Proceeds I.faults O.faults E.faults result below.old below.new dev.old dev.new }
{
    match read_frame(cpu, space) {
        Err(_) => Ok(Outcome::BadFrame), // the turn of the call makes a fault of it
        Ok(mask) => {
            set_mask(mask, dev, below)?;
            Ok(Outcome::Frame)
        }
    }
}

/// rt_sigreturn: as [`sigreturn`], and the alternate stack is that of the frame, by the rules of sigaltstack(2) with
/// the new stack pointer; what is wrong with it is ignored.
pub(crate) fn rt_sigreturn<I: Source, O: Sink, E: Sink>(
    cpu: &mut Cpu,
    space: &Space,
    dev: &mut Devices<I, O, E>,
    below: &mut Below,
) -> Result<Outcome, Stop>
    ensures row { (guest : Guest) → guest.memory ≡ space.now → guest.processor ≡ cpu.old
        → IsCall (rt_sigreturn_row below.old.kernel.now guest) result below.new.kernel.now space.now cpu.new
        (contents I.left O.written E.written dev.old) (contents I.left O.written E.written dev.new) }
    ensures kept { (guest : Guest) → guest.memory ≡ space.now → guest.processor ≡ cpu.old
        → KeepsCall (rt_sigreturn_row below.old.kernel.now guest) result below.old.kernel.now guest (I.left dev.old.input) below.old.log.now below.new.log.now }
    ensures proceeds { Proceeds I.faults O.faults E.faults result below.old below.new dev.old dev.new }
{
    match read_rt_frame(cpu, space) {
        Err(_) => Ok(Outcome::BadFrame),
        Ok(back) => {
            let sp = cpu.register(STACK_POINTER);
            restore(back, sp, dev, below)?;
            Ok(Outcome::Frame)
        }
    }
}

/// Sets the mask and the alternate stack of a frame, with the new stack pointer.
fn restore<I: Source, O: Sink, E: Sink>(
    back: Return,
    sp: u32,
    dev: &mut Devices<I, O, E>,
    below: &mut Below,
) -> Result<(), Stop>
    ensures acts { Acts (λ _ became. became ≡ restored below.old.kernel.now back sp) result below.old.kernel.now below.new.kernel.now
        (contents I.left O.written E.written dev.old) (contents I.left O.written E.written dev.new) below.old.log.now below.new.log.now }
    ensures proceeds { Proceeds I.faults O.faults E.faults result below.old below.new dev.old dev.new }
{
    set_mask(back.mask, dev, below)?;
    let _ = replace_stack(Some(sig_stack(back.stack)), sp, dev, below)?;
    Ok(())
}

/// The alternate stack of a frame, as the kernel keeps it.
fn sig_stack(stack: AltStack) -> SigStack
    ensures { result ≡ sig_stack stack }
{
    SigStack {
        sp: u64::from(stack.sp),
        size: u64::from(stack.size),
        flags: stack.flags,
    }
}
