//! From a word to its instruction: one function for each part of the table.

ghost use Rattle.std.specs.Prelude.{◌≡◌};
ghost use Rattle.mips_code.specs.inside.Mnemonics.{read_as, row_of_opcode};
ghost use Rattle.mips_code.specs.Instructions.{instruction_of, find_special, find_row, plain_rows, memory_rows, special_rows, arithmetic_rows, regimm_rows, special2_rows, special3_rows};

use crate::fields::{function_of, opcode_of, rd_of, rs_of, rt_of, sa_of};
use crate::insn::Insn;
use crate::mnemonic::{Mnemonic, with_fields};

/// The instruction of a word, if it is in a row. It has a copy for the loop over instructions, which is put in line
/// there since nothing else calls it, and one for all others.
pub fn look_up<const IN_LINE: bool>(word: u32) -> Option<Insn>
    ensures { result ≡ instruction_of word }
{
    match mnemonic_at(opcode_of(word), word) {
        Some(mnemonic) => Some(with_fields(mnemonic, word)),
        None => None,
    }
}

/// The name of the row that a word of this opcode is in: that of the opcode, or one of the rows of SPECIAL, REGIMM,
/// SPECIAL2 and SPECIAL3.
#[tactic(auto, unfolding(crate::specs::Instructions::plain_rows, crate::specs::Instructions::memory_rows, crate::specs::Instructions::immediate_form))]
#[inline(always)]
fn mnemonic_at(opcode: u8, word: u32) -> Option<Mnemonic>
    ensures { read_as result word ≡ row_of_opcode opcode word }
{
    match opcode {
        0 => find_special_row(function_of(word), word),
        1 => regimm(rt_of(word), word),
        2 => Some(Mnemonic::J),
        3 => Some(Mnemonic::Jal),
        4 => Some(Mnemonic::Beq),
        5 => Some(Mnemonic::Bne),
        6 if rt_of(word) == 0 => Some(Mnemonic::Blez),
        7 if rt_of(word) == 0 => Some(Mnemonic::Bgtz),
        8 => Some(Mnemonic::Addi),
        9 => Some(Mnemonic::Addiu),
        10 => Some(Mnemonic::Slti),
        11 => Some(Mnemonic::Sltiu),
        12 => Some(Mnemonic::Andi),
        13 => Some(Mnemonic::Ori),
        14 => Some(Mnemonic::Xori),
        15 if rs_of(word) == 0 => Some(Mnemonic::Lui),
        20 => Some(Mnemonic::Beql),
        21 => Some(Mnemonic::Bnel),
        22 if rt_of(word) == 0 => Some(Mnemonic::Blezl),
        23 if rt_of(word) == 0 => Some(Mnemonic::Bgtzl),
        28 => special2(function_of(word), word),
        31 => special3(function_of(word), word),
        32 => Some(Mnemonic::Lb),
        33 => Some(Mnemonic::Lh),
        34 => Some(Mnemonic::Lwl),
        35 => Some(Mnemonic::Lw),
        36 => Some(Mnemonic::Lbu),
        37 => Some(Mnemonic::Lhu),
        38 => Some(Mnemonic::Lwr),
        40 => Some(Mnemonic::Sb),
        41 => Some(Mnemonic::Sh),
        42 => Some(Mnemonic::Swl),
        43 => Some(Mnemonic::Sw),
        46 => Some(Mnemonic::Swr),
        48 => Some(Mnemonic::Ll),
        51 => Some(Mnemonic::Pref),
        56 => Some(Mnemonic::Sc),
        _ => None,
    }
}

/// The rows of SPECIAL.
#[inline(always)]
fn find_special_row(function: u8, word: u32) -> Option<Mnemonic>
    ensures { read_as result word ≡ find_special function word }
{
    if function < 24 {
        special(function, word)
    } else {
        arithmetic(function, word)
    }
}

/// SPECIAL, by functions below 24.
#[tactic(auto, unfolding(crate::specs::Instructions::special_rows))]
#[inline(always)]
fn special(function: u8, word: u32) -> Option<Mnemonic>
    ensures { read_as result word ≡ find_row special_rows function word }
{
    match function {
        0 if rs_of(word) == 0 => Some(Mnemonic::Sll),
        2 if rs_of(word) == 0 => Some(Mnemonic::Srl),
        2 if rs_of(word) == 1 => Some(Mnemonic::Rotr),
        3 if rs_of(word) == 0 => Some(Mnemonic::Sra),
        4 if sa_of(word) == 0 => Some(Mnemonic::Sllv),
        6 if sa_of(word) == 0 => Some(Mnemonic::Srlv),
        6 if sa_of(word) == 1 => Some(Mnemonic::Rotrv),
        7 if sa_of(word) == 0 => Some(Mnemonic::Srav),
        8 if rt_of(word) == 0 && rd_of(word) == 0 => Some(Mnemonic::Jr),
        9 if rt_of(word) == 0 => Some(Mnemonic::Jalr),
        10 if sa_of(word) == 0 => Some(Mnemonic::Movz),
        11 if sa_of(word) == 0 => Some(Mnemonic::Movn),
        12 => Some(Mnemonic::Syscall),
        13 => Some(Mnemonic::Break),
        15 if rs_of(word) == 0 && rt_of(word) == 0 && rd_of(word) == 0 => Some(Mnemonic::Sync),
        16 if rs_of(word) == 0 && rt_of(word) == 0 && sa_of(word) == 0 => Some(Mnemonic::Mfhi),
        17 if rt_of(word) == 0 && rd_of(word) == 0 && sa_of(word) == 0 => Some(Mnemonic::Mthi),
        18 if rs_of(word) == 0 && rt_of(word) == 0 && sa_of(word) == 0 => Some(Mnemonic::Mflo),
        19 if rt_of(word) == 0 && rd_of(word) == 0 && sa_of(word) == 0 => Some(Mnemonic::Mtlo),
        _ => None,
    }
}

/// SPECIAL, by functions from 24.
#[tactic(auto, unfolding(crate::specs::Instructions::arithmetic_rows))]
#[inline(always)]
fn arithmetic(function: u8, word: u32) -> Option<Mnemonic>
    ensures { read_as result word ≡ find_row arithmetic_rows function word }
{
    match function {
        24 if rd_of(word) == 0 && sa_of(word) == 0 => Some(Mnemonic::Mult),
        25 if rd_of(word) == 0 && sa_of(word) == 0 => Some(Mnemonic::Multu),
        26 if rd_of(word) == 0 && sa_of(word) == 0 => Some(Mnemonic::Div),
        27 if rd_of(word) == 0 && sa_of(word) == 0 => Some(Mnemonic::Divu),
        32 if sa_of(word) == 0 => Some(Mnemonic::Add),
        33 if sa_of(word) == 0 => Some(Mnemonic::Addu),
        34 if sa_of(word) == 0 => Some(Mnemonic::Sub),
        35 if sa_of(word) == 0 => Some(Mnemonic::Subu),
        36 if sa_of(word) == 0 => Some(Mnemonic::And),
        37 if sa_of(word) == 0 => Some(Mnemonic::Or),
        38 if sa_of(word) == 0 => Some(Mnemonic::Xor),
        39 if sa_of(word) == 0 => Some(Mnemonic::Nor),
        42 if sa_of(word) == 0 => Some(Mnemonic::Slt),
        43 if sa_of(word) == 0 => Some(Mnemonic::Sltu),
        48 => Some(Mnemonic::Tge),
        49 => Some(Mnemonic::Tgeu),
        50 => Some(Mnemonic::Tlt),
        51 => Some(Mnemonic::Tltu),
        52 => Some(Mnemonic::Teq),
        54 => Some(Mnemonic::Tne),
        _ => None,
    }
}

/// REGIMM, by the field rt.
#[tactic(auto, unfolding(crate::specs::Instructions::regimm_rows, crate::specs::Instructions::register_immediate))]
#[inline(always)]
fn regimm(row: u8, word: u32) -> Option<Mnemonic>
    ensures { read_as result word ≡ find_row regimm_rows row word }
{
    match row {
        0 => Some(Mnemonic::Bltz),
        1 => Some(Mnemonic::Bgez),
        2 => Some(Mnemonic::Bltzl),
        3 => Some(Mnemonic::Bgezl),
        8 => Some(Mnemonic::Tgei),
        9 => Some(Mnemonic::Tgeiu),
        10 => Some(Mnemonic::Tlti),
        11 => Some(Mnemonic::Tltiu),
        12 => Some(Mnemonic::Teqi),
        14 => Some(Mnemonic::Tnei),
        16 => Some(Mnemonic::Bltzal),
        17 => Some(Mnemonic::Bgezal),
        18 => Some(Mnemonic::Bltzall),
        19 => Some(Mnemonic::Bgezall),
        31 => Some(Mnemonic::Synci),
        _ => None,
    }
}

/// SPECIAL2, by function.
#[tactic(auto, unfolding(crate::specs::Instructions::special2_rows))]
#[inline(always)]
fn special2(function: u8, word: u32) -> Option<Mnemonic>
    ensures { read_as result word ≡ find_row special2_rows function word }
{
    match function {
        0 if rd_of(word) == 0 && sa_of(word) == 0 => Some(Mnemonic::Madd),
        1 if rd_of(word) == 0 && sa_of(word) == 0 => Some(Mnemonic::Maddu),
        2 if sa_of(word) == 0 => Some(Mnemonic::Mul),
        4 if rd_of(word) == 0 && sa_of(word) == 0 => Some(Mnemonic::Msub),
        5 if rd_of(word) == 0 && sa_of(word) == 0 => Some(Mnemonic::Msubu),
        32 if sa_of(word) == 0 && rt_of(word) == rd_of(word) => Some(Mnemonic::Clz),
        33 if sa_of(word) == 0 && rt_of(word) == rd_of(word) => Some(Mnemonic::Clo),
        _ => None,
    }
}

/// SPECIAL3, by function.
#[tactic(auto, unfolding(crate::specs::Instructions::special3_rows))]
#[inline(always)]
fn special3(function: u8, word: u32) -> Option<Mnemonic>
    ensures { read_as result word ≡ find_row special3_rows function word }
{
    match function {
        0 if rd_of(word) + sa_of(word) <= 31 => Some(Mnemonic::Ext),
        4 if sa_of(word) <= rd_of(word) => Some(Mnemonic::Ins),
        32 if rs_of(word) == 0 && sa_of(word) == 2 => Some(Mnemonic::Wsbh),
        32 if rs_of(word) == 0 && sa_of(word) == 16 => Some(Mnemonic::Seb),
        32 if rs_of(word) == 0 && sa_of(word) == 24 => Some(Mnemonic::Seh),
        59 if rs_of(word) == 0 && sa_of(word) == 0 => Some(Mnemonic::Rdhwr),
        _ => None,
    }
}
