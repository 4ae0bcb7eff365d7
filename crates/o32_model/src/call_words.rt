//! What a call is handed (System V ABI, MIPS RISC Processor Supplement, the calling convention;
//! syscall(2)).

/// The words of a call.
#[derive(Clone, Copy)]
pub struct CallWords {
    /// The call's number, which is in $v0.
    pub nr: u32,
    /// The first four arguments, which are in $a0 to $a3.
    pub reg: [u32; 4],
    /// The next four, which stand on the stack from $sp + 16 on: None where a word can't be read.
    pub stack: [Option<u32>; 4],
}
