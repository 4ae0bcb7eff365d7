//! Instructions one after the other, up to one that makes a call or meets a fault.
//!
//! The page of the code is looked up once for a stretch of instructions. It is lent while they are carried out, so that
//! no store, no call and no fault comes between: a stretch ends there, and where the program counter leaves the page.
ghost use Rattle.std.specs.Prelude.{◌≡◌, ◌%◌, ◌/◌, ◌-◌, ◌≤◌, ◌<◌, IfSome, None, Some, true, false};
ghost use Rattle.std.specs.FinMap as map;
ghost use Rattle.raw_pages.specs.Pages.{shown_bytes};
ghost use Rattle.guest_space.specs.Access.{refusal};
ghost use Rattle.guest_space.specs.declared.access.Access.TheVariants as Access;
ghost use Rattle.mips_exec.specs.Step.{step_of, carried_out, effect_at};
ghost use Rattle.mips_exec.specs.Going.{Goes, GoesThen};
ghost use Rattle.mips_exec.specs.inside.Quietly.{IsEnded, IsNext, IsQuiet};

use crate::control::{go_on, jump, system_call};
use crate::cpu::Cpu;
use crate::effect::{Effect, Span};
use crate::execution::{Stepped, step};
use crate::memory::{load_quietly, store_quietly};
use crate::table::effect_of;
use guest_space::Space;
use kernel_core::NoMemory;
use kernel_core::address_space::PAGE_SIZE;
use mips_code::decode_in_line;

/// What came of a run of instructions.
#[derive(Clone, Copy)]
pub struct Ran {
    /// The instructions before the last one, which made no call and met no fault.
    pub quiet: u64,
    /// What the last one came to. Where memory was wanting it changed nothing.
    pub came: Result<Stepped, NoMemory>,
}

/// What a store writes, and where.
#[derive(Clone, Copy)]
struct Store {
    span: Span,
    address: u32,
    value: u32,
}

/// What came of an instruction that may store nothing.
#[derive(Clone, Copy)]
enum Quiet {
    /// It was carried out.
    Went,
    /// It is this store, and nothing was changed.
    Stores(Store),
    /// It makes a call and stands in no slot, and nothing was changed.
    Calls,
    /// It meets a fault or is rare, and nothing was changed.
    Stays,
}

/// What comes behind instructions that store nothing.
#[derive(Clone, Copy)]
enum Behind {
    /// This store.
    Store(Store),
    /// A call.
    Call,
    /// Another instruction, of this page or elsewhere.
    Other,
}

/// How a stretch of instructions ended.
#[derive(Clone, Copy)]
enum Ended {
    /// With a store.
    Stored,
    /// Before a call.
    AtCall,
    /// Before another instruction.
    AtOther,
}

/// What is left of a number of instructions, and what comes next.
#[derive(Clone, Copy)]
struct Rest {
    left: u64,
    next: Behind,
}

/// What is left of a number of instructions, and how they ended.
#[derive(Clone, Copy)]
struct Stretch {
    left: u64,
    ended: Ended,
}

/// Carries out an effect that stores nothing, where it makes no call and meets no fault. Else nothing changes.
#[inline(always)]
fn carry_out_quietly(cpu: &mut Cpu, space: &Space, effect: Effect) -> bool
    ensures went { result ≡ true → carried_out cpu.old space.now effect ≡ record { processor = cpu.new; memory = space.now; came = Stepped.Next } }
    ensures stays { result ≡ false → cpu.new ≡ cpu.old }
{
    match effect {
        Effect::Proceed => {
            let _ = go_on(cpu);
            true
        }
        Effect::Register { register, value } => {
            cpu.set_operand(register, value);
            let _ = go_on(cpu);
            true
        }
        Effect::HighLow { high, low } => {
            cpu.hi = high;
            cpu.lo = low;
            let _ = go_on(cpu);
            true
        }
        Effect::Load {
            span,
            signed,
            address,
            register,
        } => load_quietly(cpu, space, span, signed, address, register),
        Effect::Branch {
            link: None,
            target: Some(target),
        } => jump_quietly(cpu, space, None, Some(target)),
        Effect::Branch { link, target } => jump_quietly(cpu, space, link, target),
        _ => false,
    }
}

/// A jump or a branch that stands in no slot. In one nothing changes.
#[inline(always)]
fn jump_quietly(cpu: &mut Cpu, space: &Space, link: Option<u8>, target: Option<u32>) -> bool
    ensures went { result ≡ true → carried_out cpu.old space.now (Effect.Branch link target)
        ≡ record { processor = cpu.new; memory = space.now; came = Stepped.Next } }
    ensures stays { result ≡ false → cpu.new ≡ cpu.old }
{
    if cpu.slot.is_some() {
        return false;
    }
    let _ = jump(cpu, link, target);
    true
}

/// Carries out the instruction at the program counter, in the page of these bytes, which may be fetched, where it stores
/// nothing, makes no call and meets no fault. Else nothing changes.
#[inline(always)]
#[tactic(auto, unfolding(crate::specs::Step::step_of, crate::specs::Step::effect_at))]
fn step_in_page(cpu: &mut Cpu, space: &Space, page: &[u8; 4096]) -> Quiet
    requires aligned { cpu.old.pc % 4 ≡ 0 }
    requires usable { refusal Access.Load space.now.pages cpu.old.pc ≡ None }
    requires there { shown_bytes (map.get space.now.pages (cpu.old.pc / 4096)) ≡ page.now }
    ensures told { IsQuiet cpu.old space.now result cpu.new }
{
    match decode_in_line(space.word_in_page(page, cpu.pc)) {
        Some(insn) => match effect_of(insn, cpu) {
            Effect::Store {
                span,
                address,
                value,
            } => Quiet::Stores(Store {
                span,
                address,
                value,
            }),
            Effect::SystemCall if cpu.slot.is_none() => Quiet::Calls,
            effect => {
                if carry_out_quietly(cpu, space, effect) {
                    Quiet::Went
                } else {
                    Quiet::Stays
                }
            }
        },
        None => Quiet::Stays,
    }
}

/// Whether an address is aligned and lies in the page of this number. Its lowest two bits are moved to the top, so that
/// both take one test.
#[inline(always)]
fn lies_in_page(address: u32, number: u32) -> bool
    requires { number < 1048576 }
    ensures page { result ≡ true → address / 4096 ≡ number }
    ensures aligned { result ≡ true → address % 4 ≡ 0 }
{
    let place = address.wrapping_sub(number * PAGE_SIZE);
    place / 4 + place % 4 * 0x4000_0000 < PAGE_SIZE / 4
}

/// Carries out instructions of the page of these bytes, which may be fetched: at most `most`, up to one that stores, makes
/// a call, meets a fault or lies elsewhere.
#[inline(always)]
fn run_in_page(cpu: &mut Cpu, space: &Space, page: &[u8; 4096], most: u64) -> Rest
    requires usable { refusal Access.Load space.now.pages cpu.old.pc ≡ None }
    requires there { shown_bytes (map.get space.now.pages (cpu.old.pc / 4096)) ≡ page.now }
    ensures went { Goes (most - result.left) cpu.old space.now cpu.new space.now }
    ensures few { result.left ≤ most }
    ensures next { IsNext result.left cpu.new space.now result.next }
{
    let number = cpu.pc / PAGE_SIZE;
    let mut left = most;
    while left > 0 && lies_in_page(cpu.pc, number) {
        match step_in_page(cpu, space, page) {
            Quiet::Went => left -= 1,
            Quiet::Stores(store) => {
                return Rest {
                    left,
                    next: Behind::Store(store),
                };
            }
            Quiet::Calls => {
                return Rest {
                    left,
                    next: Behind::Call,
                };
            }
            Quiet::Stays => break,
        }
    }
    Rest {
        left,
        next: Behind::Other,
    }
}

/// The same in the page of the program counter, with no instruction where that may not be fetched or was never written.
#[inline(always)]
fn run_here(cpu: &mut Cpu, space: &Space, most: u64) -> Rest
    ensures went { Goes (most - result.left) cpu.old space.now cpu.new space.now }
    ensures few { result.left ≤ most }
    ensures next { IsNext result.left cpu.new space.now result.next }
{
    match space.code_page(cpu.pc) {
        Some(page) => run_in_page(cpu, space, page, most),
        None => Rest {
            left: most,
            next: Behind::Other,
        },
    }
}

/// Carries out instructions of one page, at most `most`: some that store nothing, and then a store, where one comes and
/// meets no fault and no want of memory.
#[inline(always)]
fn run_to_store(cpu: &mut Cpu, space: &mut Space, most: u64) -> Stretch
    ensures went { Goes (most - result.left) cpu.old space.old cpu.new space.new }
    ensures few { result.left ≤ most }
    ensures ended { IsEnded most result.left cpu.new space.new result.ended }
{
    let rest = run_here(cpu, space, most);
    match rest.next {
        Behind::Store(store) => {
            if store_quietly(cpu, space, store.span, store.address, store.value) {
                Stretch {
                    left: rest.left - 1,
                    ended: Ended::Stored,
                }
            } else {
                Stretch {
                    left: rest.left,
                    ended: Ended::AtOther,
                }
            }
        }
        Behind::Call => Stretch {
            left: rest.left,
            ended: Ended::AtCall,
        },
        Behind::Other => Stretch {
            left: rest.left,
            ended: Ended::AtOther,
        },
    }
}

/// Carries out instructions: at most `most` that make no call and meet no fault, and one more. Each is fetched and
/// decoded in its own turn, so that a word that was stored is the word that is executed.
#[inline(never)]
pub fn run(cpu: &mut Cpu, space: &mut Space, most: u64) -> Ran
    ensures last { GoesThen result.quiet cpu.old space.old result.came cpu.new space.new }
    ensures few { result.quiet ≤ most }
{
    let mut left = most;
    loop {
        let stretch = run_to_store(cpu, space, left);
        left = stretch.left;
        match stretch.ended {
            Ended::Stored => {}
            Ended::AtCall => {
                return Ran {
                    quiet: most - stretch.left,
                    came: Ok(system_call(cpu)),
                };
            }
            Ended::AtOther => match step(cpu, space) {
                Ok(Stepped::Next) if left > 0 => left -= 1,
                came => {
                    return Ran {
                        quiet: most - left,
                        came,
                    };
                }
            },
        }
    }
}
