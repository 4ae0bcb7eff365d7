//! What stands in the fields of a word.

ghost use Rattle.std.specs.Prelude.{◌≡◌, ◌+◌, ◌*◌, ◌^◌, ◌<◌, IsTrue};
ghost use Rattle.mips_code.specs.Words.{parts_of, fit, is_bounded};
ghost use Rattle.mips_code.specs.inside.Assembled.{word_of_parts};

use crate::insn::Insn;

/// The numbers in the fields of a word, from the upper bits down, by its format.
#[derive(Clone, Copy)]
pub enum Parts {
    /// The opcode and the target.
    Jump(u8, u32),
    /// The opcode, rs, rt and bits 15 to 0 in two's complement.
    Signed(u8, u8, u8, i16),
    /// The opcode, rs, rt and bits 15 to 0.
    Immediate(u8, u8, u8, u16),
    /// The opcode, rs, rt, rd, sa and the function.
    Register(u8, u8, u8, u8, u8, u8),
    /// Bits 25 to 6 and the function, under SPECIAL.
    LongCode(u32, u8),
    /// rs, rt, bits 15 to 6 and the function, under SPECIAL.
    ShortCode(u8, u8, u16, u8),
}

/// The parts of an instruction's word.
pub fn parts_of_insn(insn: Insn) -> Parts
    ensures { result ≡ parts_of insn }
{
    match insn {
        Insn::J { target } => Parts::Jump(2, target),
        Insn::Jal { target } => Parts::Jump(3, target),
        Insn::Beq { rs, rt, imm } => Parts::Signed(4, rs, rt, imm),
        Insn::Bne { rs, rt, imm } => Parts::Signed(5, rs, rt, imm),
        Insn::Blez { rs, imm } => Parts::Signed(6, rs, 0, imm),
        Insn::Bgtz { rs, imm } => Parts::Signed(7, rs, 0, imm),
        Insn::Addi { rs, rt, imm } => Parts::Signed(8, rs, rt, imm),
        Insn::Addiu { rs, rt, imm } => Parts::Signed(9, rs, rt, imm),
        Insn::Slti { rs, rt, imm } => Parts::Signed(10, rs, rt, imm),
        Insn::Sltiu { rs, rt, imm } => Parts::Signed(11, rs, rt, imm),
        Insn::Andi { rs, rt, imm } => Parts::Immediate(12, rs, rt, imm),
        Insn::Ori { rs, rt, imm } => Parts::Immediate(13, rs, rt, imm),
        Insn::Xori { rs, rt, imm } => Parts::Immediate(14, rs, rt, imm),
        Insn::Lui { rt, imm } => Parts::Immediate(15, 0, rt, imm),
        Insn::Beql { rs, rt, imm } => Parts::Signed(20, rs, rt, imm),
        Insn::Bnel { rs, rt, imm } => Parts::Signed(21, rs, rt, imm),
        Insn::Blezl { rs, imm } => Parts::Signed(22, rs, 0, imm),
        Insn::Bgtzl { rs, imm } => Parts::Signed(23, rs, 0, imm),
        Insn::Lb { rs, rt, imm } => Parts::Signed(32, rs, rt, imm),
        Insn::Lh { rs, rt, imm } => Parts::Signed(33, rs, rt, imm),
        Insn::Lwl { rs, rt, imm } => Parts::Signed(34, rs, rt, imm),
        Insn::Lw { rs, rt, imm } => Parts::Signed(35, rs, rt, imm),
        Insn::Lbu { rs, rt, imm } => Parts::Signed(36, rs, rt, imm),
        Insn::Lhu { rs, rt, imm } => Parts::Signed(37, rs, rt, imm),
        Insn::Lwr { rs, rt, imm } => Parts::Signed(38, rs, rt, imm),
        Insn::Sb { rs, rt, imm } => Parts::Signed(40, rs, rt, imm),
        Insn::Sh { rs, rt, imm } => Parts::Signed(41, rs, rt, imm),
        Insn::Swl { rs, rt, imm } => Parts::Signed(42, rs, rt, imm),
        Insn::Sw { rs, rt, imm } => Parts::Signed(43, rs, rt, imm),
        Insn::Swr { rs, rt, imm } => Parts::Signed(46, rs, rt, imm),
        Insn::Ll { rs, rt, imm } => Parts::Signed(48, rs, rt, imm),
        Insn::Pref { rs, hint, imm } => Parts::Signed(51, rs, hint, imm),
        Insn::Sc { rs, rt, imm } => Parts::Signed(56, rs, rt, imm),
        Insn::Sll { rt, rd, sa } => Parts::Register(0, 0, rt, rd, sa, 0),
        Insn::Srl { rt, rd, sa } => Parts::Register(0, 0, rt, rd, sa, 2),
        Insn::Rotr { rt, rd, sa } => Parts::Register(0, 1, rt, rd, sa, 2),
        Insn::Sra { rt, rd, sa } => Parts::Register(0, 0, rt, rd, sa, 3),
        Insn::Sllv { rs, rt, rd } => Parts::Register(0, rs, rt, rd, 0, 4),
        Insn::Srlv { rs, rt, rd } => Parts::Register(0, rs, rt, rd, 0, 6),
        Insn::Rotrv { rs, rt, rd } => Parts::Register(0, rs, rt, rd, 1, 6),
        Insn::Srav { rs, rt, rd } => Parts::Register(0, rs, rt, rd, 0, 7),
        Insn::Jr { rs, hint } => Parts::Register(0, rs, 0, 0, hint, 8),
        Insn::Jalr { rs, rd, hint } => Parts::Register(0, rs, 0, rd, hint, 9),
        Insn::Movz { rs, rt, rd } => Parts::Register(0, rs, rt, rd, 0, 10),
        Insn::Movn { rs, rt, rd } => Parts::Register(0, rs, rt, rd, 0, 11),
        Insn::Syscall { code } => Parts::LongCode(code, 12),
        Insn::Break { code } => Parts::LongCode(code, 13),
        Insn::Sync { kind } => Parts::Register(0, 0, 0, 0, kind, 15),
        Insn::Mfhi { rd } => Parts::Register(0, 0, 0, rd, 0, 16),
        Insn::Mthi { rs } => Parts::Register(0, rs, 0, 0, 0, 17),
        Insn::Mflo { rd } => Parts::Register(0, 0, 0, rd, 0, 18),
        Insn::Mtlo { rs } => Parts::Register(0, rs, 0, 0, 0, 19),
        Insn::Mult { rs, rt } => Parts::Register(0, rs, rt, 0, 0, 24),
        Insn::Multu { rs, rt } => Parts::Register(0, rs, rt, 0, 0, 25),
        Insn::Div { rs, rt } => Parts::Register(0, rs, rt, 0, 0, 26),
        Insn::Divu { rs, rt } => Parts::Register(0, rs, rt, 0, 0, 27),
        Insn::Add { rs, rt, rd } => Parts::Register(0, rs, rt, rd, 0, 32),
        Insn::Addu { rs, rt, rd } => Parts::Register(0, rs, rt, rd, 0, 33),
        Insn::Sub { rs, rt, rd } => Parts::Register(0, rs, rt, rd, 0, 34),
        Insn::Subu { rs, rt, rd } => Parts::Register(0, rs, rt, rd, 0, 35),
        Insn::And { rs, rt, rd } => Parts::Register(0, rs, rt, rd, 0, 36),
        Insn::Or { rs, rt, rd } => Parts::Register(0, rs, rt, rd, 0, 37),
        Insn::Xor { rs, rt, rd } => Parts::Register(0, rs, rt, rd, 0, 38),
        Insn::Nor { rs, rt, rd } => Parts::Register(0, rs, rt, rd, 0, 39),
        Insn::Slt { rs, rt, rd } => Parts::Register(0, rs, rt, rd, 0, 42),
        Insn::Sltu { rs, rt, rd } => Parts::Register(0, rs, rt, rd, 0, 43),
        Insn::Tge { rs, rt, code } => Parts::ShortCode(rs, rt, code, 48),
        Insn::Tgeu { rs, rt, code } => Parts::ShortCode(rs, rt, code, 49),
        Insn::Tlt { rs, rt, code } => Parts::ShortCode(rs, rt, code, 50),
        Insn::Tltu { rs, rt, code } => Parts::ShortCode(rs, rt, code, 51),
        Insn::Teq { rs, rt, code } => Parts::ShortCode(rs, rt, code, 52),
        Insn::Tne { rs, rt, code } => Parts::ShortCode(rs, rt, code, 54),
        Insn::Bltz { rs, imm } => Parts::Signed(1, rs, 0, imm),
        Insn::Bgez { rs, imm } => Parts::Signed(1, rs, 1, imm),
        Insn::Bltzl { rs, imm } => Parts::Signed(1, rs, 2, imm),
        Insn::Bgezl { rs, imm } => Parts::Signed(1, rs, 3, imm),
        Insn::Tgei { rs, imm } => Parts::Signed(1, rs, 8, imm),
        Insn::Tgeiu { rs, imm } => Parts::Signed(1, rs, 9, imm),
        Insn::Tlti { rs, imm } => Parts::Signed(1, rs, 10, imm),
        Insn::Tltiu { rs, imm } => Parts::Signed(1, rs, 11, imm),
        Insn::Teqi { rs, imm } => Parts::Signed(1, rs, 12, imm),
        Insn::Tnei { rs, imm } => Parts::Signed(1, rs, 14, imm),
        Insn::Bltzal { rs, imm } => Parts::Signed(1, rs, 16, imm),
        Insn::Bgezal { rs, imm } => Parts::Signed(1, rs, 17, imm),
        Insn::Bltzall { rs, imm } => Parts::Signed(1, rs, 18, imm),
        Insn::Bgezall { rs, imm } => Parts::Signed(1, rs, 19, imm),
        Insn::Synci { rs, imm } => Parts::Signed(1, rs, 31, imm),
        Insn::Madd { rs, rt } => Parts::Register(28, rs, rt, 0, 0, 0),
        Insn::Maddu { rs, rt } => Parts::Register(28, rs, rt, 0, 0, 1),
        Insn::Mul { rs, rt, rd } => Parts::Register(28, rs, rt, rd, 0, 2),
        Insn::Msub { rs, rt } => Parts::Register(28, rs, rt, 0, 0, 4),
        Insn::Msubu { rs, rt } => Parts::Register(28, rs, rt, 0, 0, 5),
        Insn::Clz { rs, rt, rd } => Parts::Register(28, rs, rt, rd, 0, 32),
        Insn::Clo { rs, rt, rd } => Parts::Register(28, rs, rt, rd, 0, 33),
        Insn::Ext { rs, rt, msbd, lsb } => Parts::Register(31, rs, rt, msbd, lsb, 0),
        Insn::Ins { rs, rt, msb, lsb } => Parts::Register(31, rs, rt, msb, lsb, 4),
        Insn::Wsbh { rt, rd } => Parts::Register(31, 0, rt, rd, 2, 32),
        Insn::Seb { rt, rd } => Parts::Register(31, 0, rt, rd, 16, 32),
        Insn::Seh { rt, rd } => Parts::Register(31, 0, rt, rd, 24, 32),
        Insn::Rdhwr { rt, rd } => Parts::Register(31, 0, rt, rd, 0, 59),
    }
}

/// Whether each number fits its field's bits.
pub fn do_fit(parts: Parts) -> bool
    ensures { result ≡ fit parts }
{
    match parts {
        Parts::Jump(opcode, target) => opcode < 64 && target < 1 << 26,
        Parts::Signed(opcode, rs, rt, _) | Parts::Immediate(opcode, rs, rt, _) => {
            opcode < 64 && rs < 32 && rt < 32
        }
        Parts::Register(opcode, rs, rt, rd, sa, function) => {
            opcode < 64 && rs < 32 && rt < 32 && rd < 32 && sa < 32 && function < 64
        }
        Parts::LongCode(code, function) => code < 1 << 20 && function < 64,
        Parts::ShortCode(rs, rt, code, function) => {
            rs < 32 && rt < 32 && code < 1 << 10 && function < 64
        }
    }
}

/// Whether an instruction keeps the bounds that its row sets besides.
pub fn keeps_bounds(insn: Insn) -> bool
    ensures { result ≡ is_bounded insn }
{
    match insn {
        Insn::Clz { rt, rd, .. } | Insn::Clo { rt, rd, .. } => rt == rd,
        Insn::Ext { msbd, lsb, .. } => u16::from(msbd) + u16::from(lsb) <= 31,
        Insn::Ins { msb, lsb, .. } => lsb <= msb,
        _ => true,
    }
}

/// The word of parts that fit.
pub fn word_of_parts(parts: Parts) -> u32
    requires { IsTrue (fit parts) }
    ensures { result ≡ word_of_parts parts }
{
    match parts {
        Parts::Jump(opcode, target) => (u32::from(opcode) << 26) + target,
        Parts::Signed(opcode, rs, rt, imm) => {
            registers(opcode, rs, rt) + u32::from(imm.cast_unsigned())
        }
        Parts::Immediate(opcode, rs, rt, imm) => registers(opcode, rs, rt) + u32::from(imm),
        Parts::Register(opcode, rs, rt, rd, sa, function) => {
            let low = (u32::from(rd) << 11) + (u32::from(sa) << 6) + u32::from(function);
            registers(opcode, rs, rt) + low
        }
        Parts::LongCode(code, function) => (code << 6) + u32::from(function),
        Parts::ShortCode(rs, rt, code, function) => {
            registers(0, rs, rt) + (u32::from(code) << 6) + u32::from(function)
        }
    }
}

/// The upper half of a word.
fn registers(opcode: u8, rs: u8, rt: u8) -> u32
    requires opcode { opcode < 64 }
    requires rs { rs < 32 }
    requires rt { rt < 32 }
    ensures { result ≡ opcode * 2 ^ 26 + rs * 2 ^ 21 + rt * 2 ^ 16 }
{
    (u32::from(opcode) << 26) + (u32::from(rs) << 21) + (u32::from(rt) << 16)
}
