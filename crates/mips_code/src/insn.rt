//! The instructions and their fields.

/// One of the 100 instructions of MIPS32 Release 2 that user programs have without a coprocessor
/// (MIPS32 Architecture for Programmers, Volume II): one variant for each row of the instruction
/// table, with the fields of its word from the upper bits down.
///
/// Not among them are the instructions of the coprocessors: of floating point (COP1, COP1X and their
/// loads and stores, and MOVF and MOVT, which test its conditions), of the system (COP0, CACHE) and
/// of COP2; and SDBBP, which calls a debugger.
///
/// `rs`, `rt` and `rd` are register numbers, `sa` is a shift amount, and `hint` and `kind` are hints,
/// each of 5 bits. `target` has 26 bits, and counts words. `imm` is bits 15 to 0, signed (`i16`)
/// or unsigned (`u16`) as the instruction takes it. The `code` of SYSCALL and BREAK has 20 bits,
/// that of a trap has 10. `lsb` is the place of the lowest bit of EXT and INS, `msbd` the size less
/// one of EXT, and `msb` the place of the highest bit of INS. CLZ and CLO carry both copies of their
/// destination, `rt` and `rd`.
#[derive(Clone, Copy)]
pub enum Insn {
    // By opcode: jumps, branches, and arithmetic with an immediate.
    /// `J target`
    J { target: u32 },
    /// `JAL target`
    Jal { target: u32 },
    /// `BEQ rs, rt, imm`
    Beq { rs: u8, rt: u8, imm: i16 },
    /// `BNE rs, rt, imm`
    Bne { rs: u8, rt: u8, imm: i16 },
    /// `BLEZ rs, imm`
    Blez { rs: u8, imm: i16 },
    /// `BGTZ rs, imm`
    Bgtz { rs: u8, imm: i16 },
    /// `ADDI rt, rs, imm`
    Addi { rs: u8, rt: u8, imm: i16 },
    /// `ADDIU rt, rs, imm`
    Addiu { rs: u8, rt: u8, imm: i16 },
    /// `SLTI rt, rs, imm`
    Slti { rs: u8, rt: u8, imm: i16 },
    /// `SLTIU rt, rs, imm`
    Sltiu { rs: u8, rt: u8, imm: i16 },
    /// `ANDI rt, rs, imm`
    Andi { rs: u8, rt: u8, imm: u16 },
    /// `ORI rt, rs, imm`
    Ori { rs: u8, rt: u8, imm: u16 },
    /// `XORI rt, rs, imm`
    Xori { rs: u8, rt: u8, imm: u16 },
    /// `LUI rt, imm`
    Lui { rt: u8, imm: u16 },
    /// `BEQL rs, rt, imm`
    Beql { rs: u8, rt: u8, imm: i16 },
    /// `BNEL rs, rt, imm`
    Bnel { rs: u8, rt: u8, imm: i16 },
    /// `BLEZL rs, imm`
    Blezl { rs: u8, imm: i16 },
    /// `BGTZL rs, imm`
    Bgtzl { rs: u8, imm: i16 },
    // By opcode: loads, stores and PREF, at the address rs plus imm.
    /// `LB rt, imm(rs)`
    Lb { rs: u8, rt: u8, imm: i16 },
    /// `LH rt, imm(rs)`
    Lh { rs: u8, rt: u8, imm: i16 },
    /// `LWL rt, imm(rs)`
    Lwl { rs: u8, rt: u8, imm: i16 },
    /// `LW rt, imm(rs)`
    Lw { rs: u8, rt: u8, imm: i16 },
    /// `LBU rt, imm(rs)`
    Lbu { rs: u8, rt: u8, imm: i16 },
    /// `LHU rt, imm(rs)`
    Lhu { rs: u8, rt: u8, imm: i16 },
    /// `LWR rt, imm(rs)`
    Lwr { rs: u8, rt: u8, imm: i16 },
    /// `SB rt, imm(rs)`
    Sb { rs: u8, rt: u8, imm: i16 },
    /// `SH rt, imm(rs)`
    Sh { rs: u8, rt: u8, imm: i16 },
    /// `SWL rt, imm(rs)`
    Swl { rs: u8, rt: u8, imm: i16 },
    /// `SW rt, imm(rs)`
    Sw { rs: u8, rt: u8, imm: i16 },
    /// `SWR rt, imm(rs)`
    Swr { rs: u8, rt: u8, imm: i16 },
    /// `LL rt, imm(rs)`
    Ll { rs: u8, rt: u8, imm: i16 },
    /// `PREF hint, imm(rs)`
    Pref { rs: u8, hint: u8, imm: i16 },
    /// `SC rt, imm(rs)`
    Sc { rs: u8, rt: u8, imm: i16 },
    // SPECIAL (opcode 0), by function: shifts, jumps by register, moves, SYSCALL, BREAK and SYNC.
    /// `SLL rd, rt, sa`
    Sll { rt: u8, rd: u8, sa: u8 },
    /// `SRL rd, rt, sa`
    Srl { rt: u8, rd: u8, sa: u8 },
    /// `ROTR rd, rt, sa`
    Rotr { rt: u8, rd: u8, sa: u8 },
    /// `SRA rd, rt, sa`
    Sra { rt: u8, rd: u8, sa: u8 },
    /// `SLLV rd, rt, rs`
    Sllv { rs: u8, rt: u8, rd: u8 },
    /// `SRLV rd, rt, rs`
    Srlv { rs: u8, rt: u8, rd: u8 },
    /// `ROTRV rd, rt, rs`
    Rotrv { rs: u8, rt: u8, rd: u8 },
    /// `SRAV rd, rt, rs`
    Srav { rs: u8, rt: u8, rd: u8 },
    /// `JR rs`
    Jr { rs: u8, hint: u8 },
    /// `JALR rd, rs`
    Jalr { rs: u8, rd: u8, hint: u8 },
    /// `MOVZ rd, rs, rt`
    Movz { rs: u8, rt: u8, rd: u8 },
    /// `MOVN rd, rs, rt`
    Movn { rs: u8, rt: u8, rd: u8 },
    /// `SYSCALL code`
    Syscall { code: u32 },
    /// `BREAK code`
    Break { code: u32 },
    /// `SYNC kind`
    Sync { kind: u8 },
    /// `MFHI rd`
    Mfhi { rd: u8 },
    /// `MTHI rs`
    Mthi { rs: u8 },
    /// `MFLO rd`
    Mflo { rd: u8 },
    /// `MTLO rs`
    Mtlo { rs: u8 },
    // SPECIAL (opcode 0), by function: products, quotients, sums, logic, comparisons and traps.
    /// `MULT rs, rt`
    Mult { rs: u8, rt: u8 },
    /// `MULTU rs, rt`
    Multu { rs: u8, rt: u8 },
    /// `DIV rs, rt`
    Div { rs: u8, rt: u8 },
    /// `DIVU rs, rt`
    Divu { rs: u8, rt: u8 },
    /// `ADD rd, rs, rt`
    Add { rs: u8, rt: u8, rd: u8 },
    /// `ADDU rd, rs, rt`
    Addu { rs: u8, rt: u8, rd: u8 },
    /// `SUB rd, rs, rt`
    Sub { rs: u8, rt: u8, rd: u8 },
    /// `SUBU rd, rs, rt`
    Subu { rs: u8, rt: u8, rd: u8 },
    /// `AND rd, rs, rt`
    And { rs: u8, rt: u8, rd: u8 },
    /// `OR rd, rs, rt`
    Or { rs: u8, rt: u8, rd: u8 },
    /// `XOR rd, rs, rt`
    Xor { rs: u8, rt: u8, rd: u8 },
    /// `NOR rd, rs, rt`
    Nor { rs: u8, rt: u8, rd: u8 },
    /// `SLT rd, rs, rt`
    Slt { rs: u8, rt: u8, rd: u8 },
    /// `SLTU rd, rs, rt`
    Sltu { rs: u8, rt: u8, rd: u8 },
    /// `TGE rs, rt, code`
    Tge { rs: u8, rt: u8, code: u16 },
    /// `TGEU rs, rt, code`
    Tgeu { rs: u8, rt: u8, code: u16 },
    /// `TLT rs, rt, code`
    Tlt { rs: u8, rt: u8, code: u16 },
    /// `TLTU rs, rt, code`
    Tltu { rs: u8, rt: u8, code: u16 },
    /// `TEQ rs, rt, code`
    Teq { rs: u8, rt: u8, code: u16 },
    /// `TNE rs, rt, code`
    Tne { rs: u8, rt: u8, code: u16 },
    // REGIMM (opcode 1), by the field rt.
    /// `BLTZ rs, imm`
    Bltz { rs: u8, imm: i16 },
    /// `BGEZ rs, imm`
    Bgez { rs: u8, imm: i16 },
    /// `BLTZL rs, imm`
    Bltzl { rs: u8, imm: i16 },
    /// `BGEZL rs, imm`
    Bgezl { rs: u8, imm: i16 },
    /// `TGEI rs, imm`
    Tgei { rs: u8, imm: i16 },
    /// `TGEIU rs, imm`
    Tgeiu { rs: u8, imm: i16 },
    /// `TLTI rs, imm`
    Tlti { rs: u8, imm: i16 },
    /// `TLTIU rs, imm`
    Tltiu { rs: u8, imm: i16 },
    /// `TEQI rs, imm`
    Teqi { rs: u8, imm: i16 },
    /// `TNEI rs, imm`
    Tnei { rs: u8, imm: i16 },
    /// `BLTZAL rs, imm`
    Bltzal { rs: u8, imm: i16 },
    /// `BGEZAL rs, imm`
    Bgezal { rs: u8, imm: i16 },
    /// `BLTZALL rs, imm`
    Bltzall { rs: u8, imm: i16 },
    /// `BGEZALL rs, imm`
    Bgezall { rs: u8, imm: i16 },
    /// `SYNCI imm(rs)`
    Synci { rs: u8, imm: i16 },
    // SPECIAL2 (opcode 28), by function.
    /// `MADD rs, rt`
    Madd { rs: u8, rt: u8 },
    /// `MADDU rs, rt`
    Maddu { rs: u8, rt: u8 },
    /// `MUL rd, rs, rt`
    Mul { rs: u8, rt: u8, rd: u8 },
    /// `MSUB rs, rt`
    Msub { rs: u8, rt: u8 },
    /// `MSUBU rs, rt`
    Msubu { rs: u8, rt: u8 },
    /// `CLZ rd, rs`
    Clz { rs: u8, rt: u8, rd: u8 },
    /// `CLO rd, rs`
    Clo { rs: u8, rt: u8, rd: u8 },
    // SPECIAL3 (opcode 31), by function.
    /// `EXT rt, rs, lsb, size`
    Ext { rs: u8, rt: u8, msbd: u8, lsb: u8 },
    /// `INS rt, rs, lsb, size`
    Ins { rs: u8, rt: u8, msb: u8, lsb: u8 },
    /// `WSBH rd, rt`
    Wsbh { rt: u8, rd: u8 },
    /// `SEB rd, rt`
    Seb { rt: u8, rd: u8 },
    /// `SEH rd, rt`
    Seh { rt: u8, rd: u8 },
    /// `RDHWR rt, rd`
    Rdhwr { rt: u8, rd: u8 },
}
