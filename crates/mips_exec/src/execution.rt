//! One step of the processor.
ghost use Rattle.std.specs.Prelude.{◌≡◌, IfOk, OnErr, IsTrue};
ghost use Rattle.mips_exec.specs.Step.{step_of, carried_out, effect_at, needs_page, asks_for_page};
ghost use Rattle.mips_exec.specs.Processor.{IsValidProcessor};

use crate::codes::{BAD_ADDRESS, ILLEGAL};
use crate::control::{fault, fault_here, go_on, jump, system_call};
use crate::cpu::Cpu;
use crate::effect::Effect;
use crate::memory::{access_code, access_signal, load, load_linked, store, store_conditional};
use crate::table::effect_of;
use guest_space::Space;
use kernel_core::{NoMemory, Sig};
use mips_code::decode;

/// What came of a step.
#[derive(Clone, Copy)]
pub enum Stepped {
    /// The instruction was carried out.
    Next,
    /// A SYSCALL was met; the program counter is past it, and no address is linked.
    Syscall,
    /// A signal of the processor, with the code and the address of its siginfo. The program counter
    /// is at the instruction, or at its branch where it stood in a slot, and there is no slot, so
    /// that the branch is carried out again. No register and no memory has changed, but an SC
    /// clears the link.
    ///
    /// SIGSEGV (code 1 absent, 2 forbidden) and SIGBUS (code 1) have the address of the first byte
    /// that may not be used, or the unaligned one of an LL, an SC or a fetch; SIGILL (code 1) and
    /// SIGFPE (code 1 division by zero, 2 overflow) the program counter that is left; SIGTRAP (code
    /// 1 of BREAK, 0x80 of a trap instruction) has 0. Linux's asm-generic/siginfo.h names the
    /// signals and codes. The codes of SIGILL, SIGBUS and SIGTRAP, the addresses of SIGSEGV, SIGBUS
    /// and SIGILL, and what a trap's number means are this project's own.
    Fault { sig: Sig, code: u32, addr: u32 },
}

/// Carries out the instruction at the program counter (MIPS32 Architecture for Programmers, Volume
/// II). One call is one instruction: a branch and the instruction in its slot are two.
///
/// A SYSCALL clears the link and is told to the caller. A fault leaves the program counter at the
/// instruction, or at its branch where it stood in a slot, and no slot. A branch, a jump or a SYSCALL
/// in a slot is refused with SIGILL, code 1, which is this project's own.
///
/// # Errors
///
/// `NoMemory` comes only where the instruction stores to a page that was not written since it was
/// mapped, and changes nothing, so that the call can be made again.
#[inline(never)]
#[tactic(auto, unfolding(crate::specs::Step::step_of))]
pub fn step(cpu: &mut Cpu, space: &mut Space) -> Result<Stepped, NoMemory>
    ensures ok { IfOk result (λ came. step_of cpu.old space.old ≡ record { processor = cpu.new; memory = space.new; came = came }) }
    ensures unchanged_cpu { OnErr result (cpu.new ≡ cpu.old) }
    ensures unchanged_space { OnErr result (space.new ≡ space.old) }
    ensures cause { OnErr result (IsTrue (asks_for_page cpu.old space.old)) }
    ensures valid { IsValidProcessor cpu.new }
{
    let effect = effect_at(cpu, space);
    let came = carry_out(cpu, space, effect);
    let _ = &cpu.regs;
    came
}

/// The effect of the instruction at the program counter.
#[inline]
#[tactic(auto, unfolding(crate::specs::Step::effect_at))]
fn effect_at(cpu: &Cpu, space: &Space) -> Effect
    ensures { result ≡ effect_at cpu.now space.now }
{
    if cpu.pc % 4 != 0 {
        return Effect::FetchFault {
            signal: Sig::Bus,
            code: BAD_ADDRESS,
            address: cpu.pc,
        };
    }
    match space.fetch(cpu.pc) {
        Ok(word) => match decode(word) {
            Some(insn) => effect_of(insn, cpu),
            None => Effect::Reserved,
        },
        Err(denied) => Effect::FetchFault {
            signal: access_signal(denied.why),
            code: access_code(denied.why),
            address: denied.addr,
        },
    }
}

/// Carries out an effect.
#[inline]
fn carry_out(cpu: &mut Cpu, space: &mut Space, effect: Effect) -> Result<Stepped, NoMemory>
    ensures ok { IfOk result (λ came. carried_out cpu.old space.old effect ≡ record { processor = cpu.new; memory = space.new; came = came }) }
    ensures unchanged_cpu { OnErr result (cpu.new ≡ cpu.old) }
    ensures unchanged_space { OnErr result (space.new ≡ space.old) }
    ensures cause { OnErr result (IsTrue (needs_page cpu.old space.old effect)) }
{
    match effect {
        Effect::Proceed => Ok(go_on(cpu)),
        Effect::Register { register, value } => {
            cpu.set_operand(register, value);
            Ok(go_on(cpu))
        }
        Effect::HighLow { high, low } => {
            cpu.hi = high;
            cpu.lo = low;
            Ok(go_on(cpu))
        }
        Effect::Load {
            span,
            signed,
            address,
            register,
        } => Ok(load(cpu, space, span, signed, address, register)),
        Effect::LoadLinked { address, register } => Ok(load_linked(cpu, space, address, register)),
        Effect::Store {
            span,
            address,
            value,
        } => store(cpu, space, span, address, value),
        Effect::StoreConditional { address, register } => {
            store_conditional(cpu, space, address, register)
        }
        Effect::Branch { .. } | Effect::SystemCall if cpu.slot.is_some() => {
            Ok(fault_here(cpu, Sig::Ill, ILLEGAL))
        }
        Effect::Branch { link, target } => Ok(jump(cpu, link, target)),
        Effect::ArithmeticError { code } => Ok(fault_here(cpu, Sig::Fpe, code)),
        Effect::Breakpoint { code } => Ok(fault(cpu, Sig::Trap, code, 0)),
        Effect::SystemCall => Ok(system_call(cpu)),
        Effect::Reserved => Ok(fault_here(cpu, Sig::Ill, ILLEGAL)),
        Effect::FetchFault {
            signal,
            code,
            address,
        } => Ok(fault(cpu, signal, code, address)),
    }
}
