//! The program as instructions, and these as words.
ghost use Rattle.std.specs.Prelude.{◌≡◌, ◌+◌, ◌*◌, ◌^◌, ◌<◌, ◌++◌, IfOk, IsTrue, OnOk, Some, length, map, ℕ};
ghost use Rattle.std.specs.Int.{to_be_bytes, w32};
ghost use Rattle.std.specs.List.{flat_map, list_all};
ghost use Rattle.mips_code.specs.Instructions.{instruction_of};
ghost use Rattle.mips_code.specs.Words.{is_in_range};
ghost use Rattle.soak_program.specs.Instructions.{code_of, finish, instructions, round, start, word_of};
ghost use Rattle.soak_program.specs.Numbers.{numbers};

use crate::numbers::successor;
use kernel_core::NoMemory;
use mips_code::{Insn, encode};
use std::alloc::Global;

/// The registers of the program, by their names in the o32 convention.
const ZERO: u8 = 0;

const V0: u8 = 2;

const A0: u8 = 4;

const A1: u8 = 5;

const A2: u8 = 6;

const T1: u8 = 9;

const S0: u8 = 16;

const S1: u8 = 17;

const S2: u8 = 18;

/// The upper half of the address of the data, in `s0` from the first instruction on.
const DATA_UPPER: u16 = 0x1000;

/// From the beginning of the data to the sum.
const SUM_OFFSET: i16 = 4;

/// The bytes of a sum.
const SUM_SIZE: i16 = 4;

/// The flags and the mode that the file is opened with: O_RDWR, O_CREAT, and 0644.
const FLAGS: i16 = 0x102;

const MODE: i16 = 0o644;

/// The numbers of the calls for an o32 program.
const EXIT: i16 = 4001;

const WRITE: i16 = 4004;

const OPEN: i16 = 4005;

/// Opens the file, and keeps its descriptor in `s1`.
#[tactic(auto, unfolding(crate::specs::Instructions::start))]
fn start() -> [Insn; 7]
    ensures insns { result ≡ start }
    ensures in_range { IsTrue (list_all is_in_range result) }
{
    [
        Insn::Lui {
            rt: S0,
            imm: DATA_UPPER,
        },
        Insn::Addu {
            rs: S0,
            rt: ZERO,
            rd: A0,
        },
        Insn::Addiu {
            rs: ZERO,
            rt: A1,
            imm: FLAGS,
        },
        Insn::Addiu {
            rs: ZERO,
            rt: A2,
            imm: MODE,
        },
        Insn::Addiu {
            rs: ZERO,
            rt: V0,
            imm: OPEN,
        },
        Insn::Syscall { code: 0 },
        Insn::Addu {
            rs: V0,
            rt: ZERO,
            rd: S1,
        },
    ]
}

/// Adds a number to the sum in `s2`, stores it, and writes it to the file.
#[tactic(auto, unfolding(crate::specs::Instructions::round))]
fn round(number: u32) -> [Insn; 9]
    ensures insns { result ≡ round number }
    ensures in_range { IsTrue (list_all is_in_range result) }
{
    [
        Insn::Lui {
            rt: T1,
            imm: (number >> 16) as u16,
        },
        Insn::Ori {
            rs: T1,
            rt: T1,
            imm: (number % (1 << 16)) as u16,
        },
        Insn::Addu {
            rs: S2,
            rt: T1,
            rd: S2,
        },
        Insn::Sw {
            rs: S0,
            rt: S2,
            imm: SUM_OFFSET,
        },
        Insn::Addu {
            rs: S1,
            rt: ZERO,
            rd: A0,
        },
        Insn::Addiu {
            rs: S0,
            rt: A1,
            imm: SUM_OFFSET,
        },
        Insn::Addiu {
            rs: ZERO,
            rt: A2,
            imm: SUM_SIZE,
        },
        Insn::Addiu {
            rs: ZERO,
            rt: V0,
            imm: WRITE,
        },
        Insn::Syscall { code: 0 },
    ]
}

/// Ends the process with 0.
#[tactic(auto, unfolding(crate::specs::Instructions::finish))]
fn finish() -> [Insn; 3]
    ensures insns { result ≡ finish }
    ensures in_range { IsTrue (list_all is_in_range result) }
{
    [
        Insn::Addu {
            rs: ZERO,
            rt: ZERO,
            rd: A0,
        },
        Insn::Addiu {
            rs: ZERO,
            rt: V0,
            imm: EXIT,
        },
        Insn::Syscall { code: 0 },
    ]
}

/// The program for so many numbers has this many instructions. (None of them jumps, so that a run is to take a
/// turn for each.)
pub fn one_turn_each()
    ensures { (count : ℕ) → length (instructions count) ≡ 10 + 9 * count }
{}

/// The words of the program's code decode to its instructions.
pub fn code_is_the_program()
    ensures { (count : ℕ) → count < 2 ^ 32 → map (λ insn. instruction_of (word_of insn)) (instructions count) ≡ map Some (instructions count) }
{}

/// The bytes of an instruction's word, high byte first.
fn bytes_of(insn: Insn) -> [u8; 4]
    requires { IsTrue (is_in_range insn) }
    ensures { result ≡ to_be_bytes w32 (word_of insn) }
{
    encode(insn).to_be_bytes()
}

fn put(code: &mut Vec<u8>, insns: &[Insn]) -> Result<(), NoMemory>
    requires { IsTrue (list_all is_in_range insns.now) }
    ensures { OnOk result (code.new.items ≡ code.old.items ++ code_of insns.now) }
{
    for insn in insns {
        code.extend_from_slice(&bytes_of(*insn))?;
    }
    Ok(())
}

/// The rounds for so many numbers.
#[tactic(auto, using(crate::proofs::Rounds::next_round), unfolding(crate::specs::Numbers::numbers))]
fn put_rounds(code: &mut Vec<u8>, count: u32) -> Result<(), NoMemory>
    ensures { OnOk result (code.new.items ≡ code.old.items ++ code_of (flat_map round (numbers count))) }
{
    let mut number = count;
    for _ in 0..count {
        put(code, &round(number))?;
        number = successor(number);
    }
    Ok(())
}

/// The code of the program for so many numbers.
pub(crate) fn code(alloc: Global, count: u32) -> Result<Vec<u8>, NoMemory>
    ensures code { IfOk result (λ code. code.items ≡ code_of (instructions count)) }
    ensures length { IfOk result (λ code. length code.items ≡ 4 * (10 + 9 * count)) }
{
    let mut code = Vec::new(alloc);
    put(&mut code, &start())?;
    put_rounds(&mut code, count)?;
    put(&mut code, &finish())?;
    Ok(code)
}
