//! The registers that an effect can set.
ghost use Rattle.std.specs.Prelude.{◌≡◌, ◌+◌, ◌-◌, ◌%◌, ◌^◌, OnOk};
ghost use Rattle.turn_records.specs.Entry.{registers_of};
ghost use Rattle.turn_records.specs.Entry as entry;
ghost use Rattle.turn_records.specs.inside.Setting.{Sets};

use crate::setting::{add_change, add_general};
use kernel_core::{Effect, NoMemory};
use mips_exec::Cpu;
use std::marker::Model;

/// The registers of a processor that an effect of the journal can set: the general ones, HI, LO, the program counter and
/// the thread pointer. Contracts see them as a processor without a delay slot and without an address that LL linked.
/// (The journal is this project's own.)
#[derive(Drop)]
pub struct Registers {
    general: [u32; 32],
    hi: u32,
    lo: u32,
    pc: u32,
    thread_pointer: u32,
}

impl Model for Registers {
    ghost use Rattle.std.specs.Prelude.{◌≡◌, None, slice_index};
    ghost use Rattle.mips_exec.specs.Processor.{Processor};

    ghost Value = { Processor };

    ghost view = { λ r. record { registers = r.general; hi = r.hi; lo = r.lo; pc = r.pc; slot = None; link = None; thread_pointer = r.thread_pointer } };

    ghost invariant = { λ r. slice_index r.general 0 ≡ 0 };
}

impl Registers {
    /// Those of a processor.
    #[inline]
    pub fn of(cpu: &Cpu) -> Registers
        ensures { result ≡ registers_of cpu.now }
    {
        Registers {
            general: cpu.regs,
            hi: cpu.hi,
            lo: cpu.lo,
            pc: cpu.pc,
            thread_pointer: cpu.tls,
        }
    }

    /// The six words that a record keeps: the program counter, $v0, and $a0 to $a3 (MIPS RISC Processor Supplement, 3rd
    /// edition).
    pub(crate) fn words(&self) -> [u32; 6]
        ensures { result ≡ entry.words_of self.now }
    {
        self.words_at(self.pc)
    }

    /// Those of a call, whose SYSCALL the program counter stands past.
    pub(crate) fn words_of_call(&self) -> [u32; 6]
        ensures { result ≡ entry.words_at ((self.now.pc + (2 ^ 32 - 4)) % 2 ^ 32) self.now }
    {
        self.words_at(self.pc.wrapping_sub(4))
    }

    fn words_at(&self, pc: u32) -> [u32; 6]
        ensures { result ≡ entry.words_at pc self.now }
    {
        [
            pc,
            self.general[2],
            self.general[4],
            self.general[5],
            self.general[6],
            self.general[7],
        ]
    }

    /// Adds the effects that set the registers to what they are `now`, where they are others.
    pub(crate) fn add_changes(
        &self,
        now: &Registers,
        effects: &mut Vec<Effect>,
    ) -> Result<(), NoMemory>
        ensures { OnOk result (Sets effects.old.items effects.new.items self.now now.now) }
    {
        add_general(effects, &self.general, &now.general)?;
        add_change(effects, 32, self.hi, now.hi)?;
        add_change(effects, 33, self.lo, now.lo)?;
        add_change(effects, 34, self.pc, now.pc)?;
        add_change(effects, 35, self.thread_pointer, now.thread_pointer)?;
        Ok(())
    }
}
