//! Words of each instruction as LLVM's assembler for MIPS32 Release 2 writes them, and the words of
//! the architecture manual's opcode tables.

use mips_code::{Insn, decode, encode};

macro_rules! words {
    ($($word:literal => $name:ident { $($field:ident: $value:expr),* },)*) => {
        [$(($word, Insn::$name { $($field: $value),* })),*]
    };
}

static WORDS: [(u32, Insn); 104] = words![
    0x08100040 => J { target: 0x100040 },
    0x0C100041 => Jal { target: 0x100041 },
    0x1109FFFD => Beq { rs: 8, rt: 9, imm: -3 },
    0x154B0005 => Bne { rs: 10, rt: 11, imm: 5 },
    0x1880FFFF => Blez { rs: 4, imm: -1 },
    0x1CA00064 => Bgtz { rs: 5, imm: 100 },
    0x23BDFFE0 => Addi { rs: 29, rt: 29, imm: -32 },
    0x27BD8000 => Addiu { rs: 29, rt: 29, imm: -32768 },
    0x28437FFF => Slti { rs: 2, rt: 3, imm: 32767 },
    0x2C43FFFF => Sltiu { rs: 2, rt: 3, imm: -1 },
    0x30C7FFFF => Andi { rs: 6, rt: 7, imm: 0xFFFF },
    0x34C78000 => Ori { rs: 6, rt: 7, imm: 0x8000 },
    0x38C70001 => Xori { rs: 6, rt: 7, imm: 1 },
    0x3C1CDEAD => Lui { rt: 28, imm: 0xDEAD },
    0x5109FFFD => Beql { rs: 8, rt: 9, imm: -3 },
    0x554B0005 => Bnel { rs: 10, rt: 11, imm: 5 },
    0x5880FFFF => Blezl { rs: 4, imm: -1 },
    0x5CA00064 => Bgtzl { rs: 5, imm: 100 },
    0x000947C0 => Sll { rt: 9, rd: 8, sa: 31 },
    0x00094042 => Srl { rt: 9, rd: 8, sa: 1 },
    0x00294042 => Rotr { rt: 9, rd: 8, sa: 1 },
    0x00094083 => Sra { rt: 9, rd: 8, sa: 2 },
    0x01494004 => Sllv { rs: 10, rt: 9, rd: 8 },
    0x01494006 => Srlv { rs: 10, rt: 9, rd: 8 },
    0x01494046 => Rotrv { rs: 10, rt: 9, rd: 8 },
    0x01494007 => Srav { rs: 10, rt: 9, rd: 8 },
    0x03E00008 => Jr { rs: 31, hint: 0 },
    0x03200408 => Jr { rs: 25, hint: 16 },
    0x0320F809 => Jalr { rs: 25, rd: 31, hint: 0 },
    0x0320F409 => Jalr { rs: 25, rd: 30, hint: 16 },
    0x012A400A => Movz { rs: 9, rt: 10, rd: 8 },
    0x012A400B => Movn { rs: 9, rt: 10, rd: 8 },
    0x0000000C => Syscall { code: 0 },
    0x03FFFFCC => Syscall { code: 0xFFFFF },
    0x0007000D => Break { code: 0x1C00 },
    0x0000000F => Sync { kind: 0 },
    0x0000040F => Sync { kind: 16 },
    0x00001010 => Mfhi { rd: 2 },
    0x00600011 => Mthi { rs: 3 },
    0x00002012 => Mflo { rd: 4 },
    0x00A00013 => Mtlo { rs: 5 },
    0x00C70018 => Mult { rs: 6, rt: 7 },
    0x00C70019 => Multu { rs: 6, rt: 7 },
    0x00C7001A => Div { rs: 6, rt: 7 },
    0x00C7001B => Divu { rs: 6, rt: 7 },
    0x02328020 => Add { rs: 17, rt: 18, rd: 16 },
    0x02328021 => Addu { rs: 17, rt: 18, rd: 16 },
    0x02328022 => Sub { rs: 17, rt: 18, rd: 16 },
    0x02328023 => Subu { rs: 17, rt: 18, rd: 16 },
    0x02328024 => And { rs: 17, rt: 18, rd: 16 },
    0x02328025 => Or { rs: 17, rt: 18, rd: 16 },
    0x02328026 => Xor { rs: 17, rt: 18, rd: 16 },
    0x02328027 => Nor { rs: 17, rt: 18, rd: 16 },
    0x0232802A => Slt { rs: 17, rt: 18, rd: 16 },
    0x0232802B => Sltu { rs: 17, rt: 18, rd: 16 },
    0x0109FFF0 => Tge { rs: 8, rt: 9, code: 1023 },
    0x0109FFF1 => Tgeu { rs: 8, rt: 9, code: 1023 },
    0x0109FFF2 => Tlt { rs: 8, rt: 9, code: 1023 },
    0x0109FFF3 => Tltu { rs: 8, rt: 9, code: 1023 },
    0x0109FFF4 => Teq { rs: 8, rt: 9, code: 1023 },
    0x0109FFF6 => Tne { rs: 8, rt: 9, code: 1023 },
    0x05808000 => Bltz { rs: 12, imm: -32768 },
    0x05818000 => Bgez { rs: 12, imm: -32768 },
    0x05828000 => Bltzl { rs: 12, imm: -32768 },
    0x05838000 => Bgezl { rs: 12, imm: -32768 },
    0x05908000 => Bltzal { rs: 12, imm: -32768 },
    0x05918000 => Bgezal { rs: 12, imm: -32768 },
    0x05928000 => Bltzall { rs: 12, imm: -32768 },
    0x05938000 => Bgezall { rs: 12, imm: -32768 },
    0x05A8FFFE => Tgei { rs: 13, imm: -2 },
    0x05A9FFFE => Tgeiu { rs: 13, imm: -2 },
    0x05AAFFFE => Tlti { rs: 13, imm: -2 },
    0x05ABFFFE => Tltiu { rs: 13, imm: -2 },
    0x05ACFFFE => Teqi { rs: 13, imm: -2 },
    0x05AEFFFE => Tnei { rs: 13, imm: -2 },
    0x05DFFFFC => Synci { rs: 14, imm: -4 },
    0x83AFFFF8 => Lb { rs: 29, rt: 15, imm: -8 },
    0x87AFFFF8 => Lh { rs: 29, rt: 15, imm: -8 },
    0x8BAFFFF8 => Lwl { rs: 29, rt: 15, imm: -8 },
    0x8FAFFFF8 => Lw { rs: 29, rt: 15, imm: -8 },
    0x93AFFFF8 => Lbu { rs: 29, rt: 15, imm: -8 },
    0x97AFFFF8 => Lhu { rs: 29, rt: 15, imm: -8 },
    0x9BAFFFF8 => Lwr { rs: 29, rt: 15, imm: -8 },
    0xA3AFFFF8 => Sb { rs: 29, rt: 15, imm: -8 },
    0xA7AFFFF8 => Sh { rs: 29, rt: 15, imm: -8 },
    0xABAFFFF8 => Swl { rs: 29, rt: 15, imm: -8 },
    0xAFAFFFF8 => Sw { rs: 29, rt: 15, imm: -8 },
    0xBBAFFFF8 => Swr { rs: 29, rt: 15, imm: -8 },
    0xC3AFFFF8 => Ll { rs: 29, rt: 15, imm: -8 },
    0xE3AFFFF8 => Sc { rs: 29, rt: 15, imm: -8 },
    0xCC9E0040 => Pref { rs: 4, hint: 30, imm: 64 },
    0x72740000 => Madd { rs: 19, rt: 20 },
    0x72740001 => Maddu { rs: 19, rt: 20 },
    0x72740004 => Msub { rs: 19, rt: 20 },
    0x72740005 => Msubu { rs: 19, rt: 20 },
    0x72D7A802 => Mul { rs: 22, rt: 23, rd: 21 },
    0x7338C020 => Clz { rs: 25, rt: 24, rd: 24 },
    0x7338C021 => Clo { rs: 25, rt: 24, rd: 24 },
    0x7D283E00 => Ext { rs: 9, rt: 8, msbd: 7, lsb: 24 },
    0x7D287A04 => Ins { rs: 9, rt: 8, msb: 15, lsb: 8 },
    0x7C0940A0 => Wsbh { rt: 9, rd: 8 },
    0x7C094420 => Seb { rt: 9, rd: 8 },
    0x7C094620 => Seh { rt: 9, rd: 8 },
    0x7C03E83B => Rdhwr { rt: 3, rd: 29 },
];

/// Whether this is the word of the instruction, both ways.
fn agree(word: u32, insn: Insn) -> bool {
    let read_back = match decode(word) {
        Some(read) => encode(read) == word,
        None => false,
    };
    read_back && insn.in_range() && encode(insn) == word
}

#[test]
fn words_are_those_of_an_assembler(rt: HostRuntime) {
    for (word, insn) in &WORDS {
        assert!(rt; agree(*word, *insn), "at {word:08x}");
    }
}

#[test]
fn words_in_no_row_are_refused(rt: HostRuntime) {
    // function 1; MULT with rd 1; SLL with rs 2; CLZ with rt 9 and rd 8; opcodes 17 and 59;
    // EXT past bit 31; INS that ends below its start; SEB with rs 1; SYNC with rd 1
    let words = [
        0x0000_0001,
        0x00C7_0818,
        0x0049_4000,
        0x7149_4020,
        0x4400_0000,
        0xEC00_0000,
        0x7D28_4600,
        0x7D28_3A04,
        0x7C29_4420,
        0x0000_080F,
    ];
    for word in words {
        assert!(rt; decode(word).is_none(), "at {word:08x}");
    }
}

/// Whether a word of this opcode and function, with no other bit set, is in a row.
fn is_in_a_row(opcode: u32, function: u32) -> bool {
    match opcode {
        0 => matches!(
            function,
            0 | 2..=4 | 6..=13 | 15..=19 | 24..=27 | 32..=39 | 42 | 43 | 48..=52 | 54
        ),
        28 => matches!(function, 0..=2 | 4 | 5 | 32 | 33),
        31 => matches!(function, 0 | 4 | 59),
        1..=15 | 20..=23 | 32..=38 | 40..=43 | 46 | 48 | 51 | 56 => true,
        _ => false,
    }
}

#[test]
fn opcodes_and_functions_are_those_of_the_manual(rt: HostRuntime) {
    for opcode in 0..64u32 {
        for function in 0..64u32 {
            let word = (opcode << 26) + function;
            let read = decode(word).is_some();
            assert_eq!(rt; read, is_in_a_row(opcode, function), "at {word:08x}");
        }
    }
}

#[test]
fn bounds_of_the_fields_hold(rt: HostRuntime) {
    let out_of_range = words![
        0 => Add { rs: 32, rt: 0, rd: 0 },
        1 => Jal { target: 0x400_0000 },
        2 => Break { code: 0x10_0000 },
        3 => Teq { rs: 0, rt: 0, code: 1024 },
        4 => Clz { rs: 1, rt: 2, rd: 3 },
        5 => Ext { rs: 1, rt: 2, msbd: 8, lsb: 24 },
        6 => Ins { rs: 1, rt: 2, msb: 7, lsb: 8 },
        7 => Pref { rs: 1, hint: 32, imm: 0 },
    ];
    for (place, insn) in &out_of_range {
        assert!(rt; !insn.in_range(), "at {place}");
    }
}
