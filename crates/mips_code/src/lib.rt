//! The 100 instructions of MIPS32 Release 2 that user programs have without a coprocessor, and their
//! words, both ways.
#![tactic(auto)]

ghost use Rattle.std.specs.Prelude.{◌≡◌, ◌^◌, ◌<◌, ℕ, Some, IsTrue, IfSome};
ghost use Rattle.mips_code.specs.Instructions.{instruction_of};
ghost use Rattle.mips_code.specs.Words.{is_in_range};

mod decoder;
mod fields;
mod insn;
mod mnemonic;
mod parts;

pub use insn::Insn;
use parts::{do_fit, keeps_bounds, parts_of_insn, word_of_parts};

/// The instruction of a word, by the instruction table of MIPS32 Release 2 (MIPS32 Architecture for
/// Programmers, Volume II); None exactly where the word is in no row, as where a field that its row
/// does not use is not 0. What comes is in range, so that it can be encoded. Takes no memory.
#[inline(always)]
pub fn decode(word: u32) -> Option<Insn>
    ensures meaning { result ≡ instruction_of word }
    ensures in_range { IfSome result (λ insn. IsTrue (is_in_range insn)) }
{
    decoder::look_up::<false>(word)
}

/// The same for the loop over instructions, in a copy of its own that is put in line there. Takes no memory.
#[inline(always)]
pub fn decode_in_line(word: u32) -> Option<Insn>
    ensures meaning { result ≡ instruction_of word }
    ensures in_range { IfSome result (λ insn. IsTrue (is_in_range insn)) }
{
    decoder::look_up::<true>(word)
}

/// The word of an instruction that is in range (`Insn::in_range`): it decodes to that instruction,
/// and no other word does. Takes no memory.
pub fn encode(insn: Insn) -> u32
    requires { IsTrue (is_in_range insn) }
    ensures decodes { instruction_of result ≡ Some insn }
    ensures only { (word : ℕ) → word < 2 ^ 32 → instruction_of word ≡ Some insn → word ≡ result }
{
    word_of_parts(parts_of_insn(insn))
}

impl Insn {
    /// Whether each field is below two to the number of its bits in the word, and keeps the bounds
    /// of its row: `msbd` and `lsb` of EXT add to at most 31, `msb` of INS is at least `lsb`, and
    /// `rt` of CLZ and CLO equals `rd`. Takes no memory.
    pub fn in_range(&self) -> bool
        ensures { result ≡ is_in_range self.now }
    {
        do_fit(parts_of_insn(*self)) && keeps_bounds(*self)
    }
}
