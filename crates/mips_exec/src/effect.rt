//! What an instruction can do.

use kernel_core::Sig;

/// The bytes of memory that a load or a store is about.
#[derive(Clone, Copy)]
pub enum Span {
    Byte,
    Half,
    Word,
    /// The bytes of an aligned word from the address on (LWL, SWL).
    Left,
    /// The bytes of an aligned word up to the address (LWR, SWR).
    Right,
}

/// What an instruction does, as far as its fields and the registers tell.
#[derive(Clone, Copy)]
pub enum Effect {
    /// Nothing but going on.
    Proceed,
    /// A register gets a value.
    Register {
        register: u8,
        value: u32,
    },
    /// HI and LO get values.
    HighLow {
        high: u32,
        low: u32,
    },
    /// A register is loaded from memory.
    Load {
        span: Span,
        signed: bool,
        address: u32,
        register: u8,
    },
    /// LL
    LoadLinked {
        address: u32,
        register: u8,
    },
    /// A value goes to memory.
    Store {
        span: Span,
        address: u32,
        value: u32,
    },
    /// SC, whose register holds the value and gets the answer.
    StoreConditional {
        address: u32,
        register: u8,
    },
    /// A jump or a branch: the register `link` gets the address past the slot; the slot comes next
    /// and then `target`, or the slot is left out where there is none.
    Branch {
        link: Option<u8>,
        target: Option<u32>,
    },
    /// SIGFPE with this code.
    ArithmeticError {
        code: u32,
    },
    /// SIGTRAP with this code.
    Breakpoint {
        code: u32,
    },
    /// SYSCALL
    SystemCall,
    /// There is no such instruction.
    Reserved,
    /// The instruction can't be fetched.
    FetchFault {
        signal: Sig,
        code: u32,
        address: u32,
    },
}
