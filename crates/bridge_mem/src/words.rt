//! The words of a call (System V ABI, MIPS RISC Processor Supplement, the calling convention).
ghost use Rattle.std.specs.Prelude.{◌≡◌, ◌<◌, [], ◌∷◌, None};
ghost use Rattle.guest_space.specs.Memory.{Memory};
ghost use Rattle.o32_model.specs.Words as spec;
ghost use Rattle.o32_model.specs.Words.{call_words, stack_argument};

use guest_space::Space;
use kernel_core::address_space::PAGE_SIZE;
use mips_exec::Cpu;
use o32_model::CallWords;

/// The numbers of $v0, of $a0 to $a3 and of the stack pointer among the registers.
const V0: u8 = 2;

const A0: u8 = 4;

const A1: u8 = 5;

const A2: u8 = 6;

const A3: u8 = 7;

const STACK_POINTER: u8 = 29;

/// Where the fifth argument lies from the stack pointer on, in bytes.
const STACK_ARGUMENTS: u32 = 16;

/// How many bytes the four arguments on the stack have.
const STACK_BYTES: u32 = 16;

/// What the call at which the processor stands is handed: its number, its arguments in registers and
/// those on the stack, each None where one of its bytes may not be loaded. It takes no memory.
#[tactic(auto, unfolding(o32_model::specs::Words::call_words))]
#[inline(always)]
pub fn args(space: &Space, cpu: &Cpu) -> CallWords
    ensures { result ≡ call_words cpu.now space.now }
{
    CallWords {
        stack: stack_arguments(space, cpu),
        ..register_words(cpu)
    }
}

/// Its number and its arguments in registers alone, for a call that takes none from the stack: each of those is None. It
/// takes no memory.
#[tactic(auto, unfolding(o32_model::specs::Words::call_words))]
#[inline(always)]
pub fn register_words(cpu: &Cpu) -> CallWords
    ensures registers { (memory : Memory) → call_words cpu.now memory ≡ record result { stack = (call_words cpu.now memory).stack } }
    ensures stack { result.stack ≡ None ∷ None ∷ None ∷ None ∷ [] }
{
    CallWords {
        nr: cpu.register(V0),
        reg: [
            cpu.register(A0),
            cpu.register(A1),
            cpu.register(A2),
            cpu.register(A3),
        ],
        stack: [None; 4],
    }
}

/// The arguments on the stack. Where they lie in one page that was written, as they mostly do, that page is looked up
/// once.
#[inline(always)]
fn stack_arguments(space: &Space, cpu: &Cpu) -> [Option<u32>; 4]
    ensures { result ≡ stack_argument cpu.now space.now 0 ∷ stack_argument cpu.now space.now 1
        ∷ stack_argument cpu.now space.now 2 ∷ stack_argument cpu.now space.now 3 ∷ [] }
{
    let first = cpu.register(STACK_POINTER).wrapping_add(STACK_ARGUMENTS);
    match space.code_page(first) {
        Some(page) if first % PAGE_SIZE <= PAGE_SIZE - STACK_BYTES => [
            Some(space.word_in_page(page, first)),
            Some(space.word_in_page(page, first + 4)),
            Some(space.word_in_page(page, first + 8)),
            Some(space.word_in_page(page, first + 12)),
        ],
        _ => [
            stack_argument(space, cpu, 0),
            stack_argument(space, cpu, 1),
            stack_argument(space, cpu, 2),
            stack_argument(space, cpu, 3),
        ],
    }
}

/// The argument on the stack at this place, from 0 for the fifth, by a look-up of its own.
#[cold]
#[inline(never)]
fn stack_argument(space: &Space, cpu: &Cpu, place: u32) -> Option<u32>
    requires { place < 4 }
    ensures { result ≡ stack_argument cpu.now space.now place }
{
    let address = cpu
        .register(STACK_POINTER)
        .wrapping_add(STACK_ARGUMENTS + 4 * place);
    space.load(address, 4).ok()
}

/// The fifth argument and the sixth as one number of 64 bits, the high word first: None where one of them
/// can't be read.
pub fn stack_pair(words: &CallWords) -> Option<u64>
    ensures { result ≡ spec.stack_pair words.now }
{
    match (words.stack[0], words.stack[1]) {
        (Some(high), Some(low)) => Some(u64::from(high) * 0x1_0000_0000 + u64::from(low)),
        _ => None,
    }
}

/// The first six arguments, as a wait keeps them: 0 for one that can't be read.
pub fn six_words(words: &CallWords) -> [u32; 6]
    ensures { result ≡ spec.six_words words.now }
{
    [
        words.reg[0],
        words.reg[1],
        words.reg[2],
        words.reg[3],
        words.stack[0].unwrap_or(0),
        words.stack[1].unwrap_or(0),
    ]
}
