//! The instruction table: what each instruction does.
ghost use Rattle.std.specs.Prelude.{◌≡◌};
ghost use Rattle.mips_exec.specs.Effect.{effect_of};

use crate::accumulator::{
    accumulate, accumulator_of, divide, divide_unsigned, product, set_accumulator, signed_product,
};
use crate::arithmetic::{
    extend_byte, extend_half, extract, insert, is_signed_less, rotate, shift_arithmetically,
    swap_halves, word_of,
};
use crate::codes::BREAKPOINT;
use crate::computing::{add, add_immediate, hardware_register, set, set_if, subtract};
use crate::cpu::Cpu;
use crate::effect::{Effect, Span};
use crate::jumps::{
    RETURN_ADDRESS, branch_if, branch_to, is_negative, is_positive, jump_target, likely_if,
};
use crate::transfers::{address, load, store};
use crate::traps::{break_number, trap_by, trap_if};
use mips_code::Insn;

/// The effect of an instruction on a processor.
#[inline(always)]
pub fn effect_of(insn: Insn, cpu: &Cpu) -> Effect
    ensures { result ≡ effect_of insn cpu.now }
{
    match insn {
        Insn::Addi { rs, rt, imm } => add_immediate(cpu.operand(rs), imm, rt),
        Insn::Addiu { rs, rt, imm } => set(rt, cpu.operand(rs).wrapping_add(word_of(imm))),
        Insn::Slti { rs, rt, imm } => set(
            rt,
            u32::from(is_signed_less(cpu.operand(rs), word_of(imm))),
        ),
        Insn::Sltiu { rs, rt, imm } => set(rt, u32::from(cpu.operand(rs) < word_of(imm))),
        Insn::Andi { rs, rt, imm } => set(rt, cpu.operand(rs) & u32::from(imm)),
        Insn::Ori { rs, rt, imm } => set(rt, cpu.operand(rs) | u32::from(imm)),
        Insn::Xori { rs, rt, imm } => set(rt, cpu.operand(rs) ^ u32::from(imm)),
        Insn::Lui { rt, imm } => set(rt, u32::from(imm) << 16),

        Insn::Add { rs, rt, rd } => add(cpu.operand(rs), cpu.operand(rt), rd),
        Insn::Addu { rs, rt, rd } => set(rd, cpu.operand(rs).wrapping_add(cpu.operand(rt))),
        Insn::Sub { rs, rt, rd } => subtract(cpu.operand(rs), cpu.operand(rt), rd),
        Insn::Subu { rs, rt, rd } => set(rd, cpu.operand(rs).wrapping_sub(cpu.operand(rt))),
        Insn::And { rs, rt, rd } => set(rd, cpu.operand(rs) & cpu.operand(rt)),
        Insn::Or { rs, rt, rd } => set(rd, cpu.operand(rs) | cpu.operand(rt)),
        Insn::Xor { rs, rt, rd } => set(rd, cpu.operand(rs) ^ cpu.operand(rt)),
        Insn::Nor { rs, rt, rd } => set(rd, !(cpu.operand(rs) | cpu.operand(rt))),
        Insn::Slt { rs, rt, rd } => set(
            rd,
            u32::from(is_signed_less(cpu.operand(rs), cpu.operand(rt))),
        ),
        Insn::Sltu { rs, rt, rd } => set(rd, u32::from(cpu.operand(rs) < cpu.operand(rt))),
        Insn::Mul { rs, rt, rd } => set(rd, cpu.operand(rs).wrapping_mul(cpu.operand(rt))),
        Insn::Movz { rs, rt, rd } => set_if(cpu.operand(rt) == 0, rd, cpu.operand(rs)),
        Insn::Movn { rs, rt, rd } => set_if(cpu.operand(rt) != 0, rd, cpu.operand(rs)),

        Insn::Sll { rt, rd, sa } => set(rd, cpu.operand(rt) << (sa % 32)),
        Insn::Srl { rt, rd, sa } => set(rd, cpu.operand(rt) >> (sa % 32)),
        Insn::Rotr { rt, rd, sa } => set(rd, rotate(cpu.operand(rt), u32::from(sa % 32))),
        Insn::Sra { rt, rd, sa } => set(
            rd,
            shift_arithmetically(cpu.operand(rt), u32::from(sa % 32)),
        ),
        Insn::Sllv { rs, rt, rd } => set(rd, cpu.operand(rt) << (cpu.operand(rs) % 32)),
        Insn::Srlv { rs, rt, rd } => set(rd, cpu.operand(rt) >> (cpu.operand(rs) % 32)),
        Insn::Rotrv { rs, rt, rd } => set(rd, rotate(cpu.operand(rt), cpu.operand(rs) % 32)),
        Insn::Srav { rs, rt, rd } => set(
            rd,
            shift_arithmetically(cpu.operand(rt), cpu.operand(rs) % 32),
        ),

        Insn::Clz { rs, rd, .. } => set(rd, cpu.operand(rs).leading_zeros()),
        Insn::Clo { rs, rd, .. } => set(rd, (!cpu.operand(rs)).leading_zeros()),
        Insn::Ext { rs, rt, msbd, lsb } => set(
            rt,
            extract(cpu.operand(rs), lsb % 32, msbd % 32 + 1),
        ),
        Insn::Ins { rs, rt, msb, lsb } => set(
            rt,
            insert(cpu.operand(rs), lsb % 32, msb % 32, cpu.operand(rt)),
        ),
        Insn::Wsbh { rt, rd } => set(rd, swap_halves(cpu.operand(rt))),
        Insn::Seb { rt, rd } => set(rd, extend_byte(cpu.operand(rt))),
        Insn::Seh { rt, rd } => set(rd, extend_half(cpu.operand(rt))),
        Insn::Rdhwr { rt, rd } => hardware_register(rd, rt, cpu),

        Insn::Mfhi { rd } => set(rd, cpu.hi),
        Insn::Mthi { rs } => set_accumulator(cpu.operand(rs), cpu.lo),
        Insn::Mflo { rd } => set(rd, cpu.lo),
        Insn::Mtlo { rs } => set_accumulator(cpu.hi, cpu.operand(rs)),
        Insn::Mult { rs, rt } => accumulate(signed_product(cpu.operand(rs), cpu.operand(rt))),
        Insn::Multu { rs, rt } => accumulate(product(cpu.operand(rs), cpu.operand(rt))),
        Insn::Div { rs, rt } => divide(cpu.operand(rs), cpu.operand(rt)),
        Insn::Divu { rs, rt } => divide_unsigned(cpu.operand(rs), cpu.operand(rt)),
        Insn::Madd { rs, rt } => accumulate(accumulator_of(cpu).wrapping_add(signed_product(
            cpu.operand(rs),
            cpu.operand(rt),
        ))),
        Insn::Maddu { rs, rt } => accumulate(accumulator_of(cpu).wrapping_add(product(
            cpu.operand(rs),
            cpu.operand(rt),
        ))),
        Insn::Msub { rs, rt } => accumulate(accumulator_of(cpu).wrapping_sub(signed_product(
            cpu.operand(rs),
            cpu.operand(rt),
        ))),
        Insn::Msubu { rs, rt } => accumulate(accumulator_of(cpu).wrapping_sub(product(
            cpu.operand(rs),
            cpu.operand(rt),
        ))),

        Insn::Lb { rs, rt, imm } => load(Span::Byte, true, address(cpu, rs, imm), rt),
        Insn::Lh { rs, rt, imm } => load(Span::Half, true, address(cpu, rs, imm), rt),
        Insn::Lwl { rs, rt, imm } => load(Span::Left, false, address(cpu, rs, imm), rt),
        Insn::Lw { rs, rt, imm } => load(Span::Word, false, address(cpu, rs, imm), rt),
        Insn::Lbu { rs, rt, imm } => load(Span::Byte, false, address(cpu, rs, imm), rt),
        Insn::Lhu { rs, rt, imm } => load(Span::Half, false, address(cpu, rs, imm), rt),
        Insn::Lwr { rs, rt, imm } => load(Span::Right, false, address(cpu, rs, imm), rt),
        Insn::Sb { rs, rt, imm } => store(Span::Byte, address(cpu, rs, imm), cpu.operand(rt)),
        Insn::Sh { rs, rt, imm } => store(Span::Half, address(cpu, rs, imm), cpu.operand(rt)),
        Insn::Swl { rs, rt, imm } => store(Span::Left, address(cpu, rs, imm), cpu.operand(rt)),
        Insn::Sw { rs, rt, imm } => store(Span::Word, address(cpu, rs, imm), cpu.operand(rt)),
        Insn::Swr { rs, rt, imm } => store(Span::Right, address(cpu, rs, imm), cpu.operand(rt)),
        Insn::Ll { rs, rt, imm } => Effect::LoadLinked {
            address: address(cpu, rs, imm),
            register: rt,
        },
        Insn::Sc { rs, rt, imm } => Effect::StoreConditional {
            address: address(cpu, rs, imm),
            register: rt,
        },
        Insn::Pref { .. } | Insn::Synci { .. } => Effect::Proceed,

        Insn::Tge { rs, rt, code } => trap_if(
            !is_signed_less(cpu.operand(rs), cpu.operand(rt)),
            code,
        ),
        Insn::Tgeu { rs, rt, code } => trap_if(cpu.operand(rs) >= cpu.operand(rt), code),
        Insn::Tlt { rs, rt, code } => trap_if(
            is_signed_less(cpu.operand(rs), cpu.operand(rt)),
            code,
        ),
        Insn::Tltu { rs, rt, code } => trap_if(cpu.operand(rs) < cpu.operand(rt), code),
        Insn::Teq { rs, rt, code } => trap_if(cpu.operand(rs) == cpu.operand(rt), code),
        Insn::Tne { rs, rt, code } => trap_if(cpu.operand(rs) != cpu.operand(rt), code),
        Insn::Tgei { rs, imm } => trap_if(!is_signed_less(cpu.operand(rs), word_of(imm)), 0),
        Insn::Tgeiu { rs, imm } => trap_if(cpu.operand(rs) >= word_of(imm), 0),
        Insn::Tlti { rs, imm } => trap_if(is_signed_less(cpu.operand(rs), word_of(imm)), 0),
        Insn::Tltiu { rs, imm } => trap_if(cpu.operand(rs) < word_of(imm), 0),
        Insn::Teqi { rs, imm } => trap_if(cpu.operand(rs) == word_of(imm), 0),
        Insn::Tnei { rs, imm } => trap_if(cpu.operand(rs) != word_of(imm), 0),
        Insn::Break { code } => trap_by(break_number(code), BREAKPOINT),
        Insn::Syscall { .. } => Effect::SystemCall,
        Insn::Sync { .. } => Effect::Proceed,

        Insn::J { target } => branch_to(None, jump_target(cpu, target)),
        Insn::Jal { target } => branch_to(RETURN_ADDRESS, jump_target(cpu, target)),
        Insn::Jr { rs, .. } => branch_to(None, cpu.operand(rs)),
        Insn::Jalr { rs, rd, .. } => branch_to(Some(rd), cpu.operand(rs)),

        Insn::Beq { rs, rt, imm } => branch_if(None, cpu, imm, cpu.operand(rs) == cpu.operand(rt)),
        Insn::Bne { rs, rt, imm } => branch_if(None, cpu, imm, cpu.operand(rs) != cpu.operand(rt)),
        Insn::Blez { rs, imm } => branch_if(None, cpu, imm, !is_positive(cpu.operand(rs))),
        Insn::Bgtz { rs, imm } => branch_if(None, cpu, imm, is_positive(cpu.operand(rs))),
        Insn::Bltz { rs, imm } => branch_if(None, cpu, imm, is_negative(cpu.operand(rs))),
        Insn::Bgez { rs, imm } => branch_if(None, cpu, imm, !is_negative(cpu.operand(rs))),
        Insn::Bltzal { rs, imm } => branch_if(
            RETURN_ADDRESS,
            cpu,
            imm,
            is_negative(cpu.operand(rs)),
        ),
        Insn::Bgezal { rs, imm } => branch_if(
            RETURN_ADDRESS,
            cpu,
            imm,
            !is_negative(cpu.operand(rs)),
        ),

        Insn::Beql { rs, rt, imm } => likely_if(None, cpu, imm, cpu.operand(rs) == cpu.operand(rt)),
        Insn::Bnel { rs, rt, imm } => likely_if(None, cpu, imm, cpu.operand(rs) != cpu.operand(rt)),
        Insn::Blezl { rs, imm } => likely_if(None, cpu, imm, !is_positive(cpu.operand(rs))),
        Insn::Bgtzl { rs, imm } => likely_if(None, cpu, imm, is_positive(cpu.operand(rs))),
        Insn::Bltzl { rs, imm } => likely_if(None, cpu, imm, is_negative(cpu.operand(rs))),
        Insn::Bgezl { rs, imm } => likely_if(None, cpu, imm, !is_negative(cpu.operand(rs))),
        Insn::Bltzall { rs, imm } => likely_if(
            RETURN_ADDRESS,
            cpu,
            imm,
            is_negative(cpu.operand(rs)),
        ),
        Insn::Bgezall { rs, imm } => likely_if(
            RETURN_ADDRESS,
            cpu,
            imm,
            !is_negative(cpu.operand(rs)),
        ),
    }
}
