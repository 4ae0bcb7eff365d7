//! The state of the processor.
ghost use Rattle.std.specs.Prelude.{◌≡◌, ◌%◌, ◌<◌, None};
ghost use Rattle.mips_exec.specs.Operands.{operand};
ghost use Rattle.mips_exec.specs.Processor.{register, with_register, fresh, IsValidProcessor};

use std::marker::Model;

/// A delay slot: the instruction at the program counter stands behind a branch or a jump (MIPS32
/// Architecture for Programmers, Volume II).
#[derive(Clone, Copy)]
pub struct Slot {
    /// The address of the branch or jump, where a fault in the slot leaves the program counter.
    pub branch: u32,
    /// The address that comes after the slot: where the branch goes, or the one past the slot where
    /// it is not taken.
    pub target: u32,
}

/// The state of a MIPS32 processor (MIPS32 Architecture for Programmers, Volume I). Register 0 is 0.
#[derive(Drop)]
pub struct Cpu {
    /// The general registers.
    pub regs: [u32; 32],
    /// The upper word of a product, or a remainder.
    pub hi: u32,
    /// The lower word of a product, or a quotient.
    pub lo: u32,
    /// The program counter: the address of the next instruction.
    pub pc: u32,
    /// The delay slot, where the instruction at `pc` stands in one.
    pub slot: Option<Slot>,
    /// The address of the last LL, until an SC or a system call clears it.
    pub link: Option<u32>,
    /// The thread pointer, which RDHWR gives as hardware register 29.
    pub tls: u32,
}

impl Model for Cpu {
    ghost use Rattle.std.specs.Prelude.{◌≡◌, slice_index};
    ghost use Rattle.mips_exec.specs.Processor.{Processor};

    ghost Value = { Processor };

    ghost view = { λ a. record { registers = a.regs; hi = a.hi; lo = a.lo; pc = a.pc; slot = a.slot; link = a.link; thread_pointer = a.tls } };

    ghost invariant = { λ a. slice_index a.regs 0 ≡ 0 };
}

impl Cpu {
    /// A processor at `pc` with all other registers 0, no slot and no link.
    pub fn new(pc: u32) -> Cpu
        ensures fresh { result ≡ fresh pc }
        ensures valid { IsValidProcessor result }
    {
        Cpu {
            regs: [0; 32],
            hi: 0,
            lo: 0,
            pc,
            slot: None,
            link: None,
            tls: 0,
        }
    }

    /// The register of a number below 32.
    #[inline]
    pub fn register(&self, number: u8) -> u32
        requires { number < 32 }
        ensures { result ≡ register self.now number }
    {
        self.regs[number as usize]
    }

    /// Sets the register of a number below 32; register 0 stays 0.
    #[inline]
    pub fn set_register(&mut self, number: u8, value: u32)
        requires { number < 32 }
        ensures set { self.new ≡ with_register self.old number value }
        ensures valid { IsValidProcessor self.new }
    {
        self.regs[number as usize] = value;
        self.regs[0] = 0;
    }

    /// The register that a field of 5 bits names.
    #[inline]
    pub(crate) fn operand(&self, field: u8) -> u32
        ensures { result ≡ operand self.now field }
    {
        self.register(field % 32)
    }

    /// Sets the register that a field of 5 bits names; register 0 stays 0.
    #[inline]
    pub(crate) fn set_operand(&mut self, field: u8, value: u32)
        ensures { self.new ≡ with_register self.old (field % 32) value }
    {
        self.set_register(field % 32, value);
    }
}
