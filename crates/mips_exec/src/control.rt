//! The program counter and the delay slot.
ghost use Rattle.std.specs.Prelude.{◌≡◌, None};
ghost use Rattle.mips_exec.specs.Arithmetic.{sum};
ghost use Rattle.mips_exec.specs.Step.{advanced, stopped, restart, with_link, jumps};

use crate::cpu::{Cpu, Slot};
use crate::execution::Stepped;
use kernel_core::Sig;

/// Goes on with what follows the instruction.
#[inline]
pub fn go_on(cpu: &mut Cpu) -> Stepped
    ensures processor { cpu.new ≡ advanced cpu.old }
    ensures came { result ≡ Stepped.Next }
{
    match cpu.slot {
        None => cpu.pc = cpu.pc.wrapping_add(4),
        Some(slot) => {
            cpu.pc = slot.target;
            cpu.slot = None;
        }
    }
    Stepped::Next
}

/// The address to come back to after a fault.
#[inline]
fn restart(cpu: &Cpu) -> u32
    ensures { result ≡ restart cpu.now.slot cpu.now.pc }
{
    match cpu.slot {
        None => cpu.pc,
        Some(slot) => slot.branch,
    }
}

/// Stops with a signal.
#[inline]
pub fn fault(cpu: &mut Cpu, signal: Sig, code: u32, address: u32) -> Stepped
    ensures processor { cpu.new ≡ stopped cpu.old }
    ensures came { result ≡ Stepped.Fault signal code address }
{
    if let Some(slot) = cpu.slot.take() {
        cpu.pc = slot.branch;
    }
    Stepped::Fault {
        sig: signal,
        code,
        addr: address,
    }
}

/// Stops with a signal whose address is the one that is left in pc.
#[inline]
pub fn fault_here(cpu: &mut Cpu, signal: Sig, code: u32) -> Stepped
    ensures processor { cpu.new ≡ stopped cpu.old }
    ensures came { result ≡ Stepped.Fault signal code (restart cpu.old.slot cpu.old.pc) }
{
    let address = restart(cpu);
    fault(cpu, signal, code, address)
}

/// Goes to the slot and then to the target, or past the slot.
#[inline]
pub fn jump(cpu: &mut Cpu, link: Option<u8>, target: Option<u32>) -> Stepped
    ensures processor { cpu.new ≡ jumps target (with_link link cpu.old) }
    ensures came { result ≡ Stepped.Next }
{
    let branch = cpu.pc;
    if let Some(number) = link {
        cpu.set_operand(number, branch.wrapping_add(8));
    }
    match target {
        Some(target) => {
            cpu.pc = branch.wrapping_add(4);
            cpu.slot = Some(Slot { branch, target });
        }
        None => cpu.pc = branch.wrapping_add(8),
    }
    Stepped::Next
}

/// Goes past a SYSCALL.
#[inline]
pub fn system_call(cpu: &mut Cpu) -> Stepped
    ensures processor { cpu.new ≡ record cpu.old { pc = sum cpu.old.pc 4; link = None } }
    ensures came { result ≡ Stepped.Syscall }
{
    cpu.pc = cpu.pc.wrapping_add(4);
    cpu.link = None;
    Stepped::Syscall
}
