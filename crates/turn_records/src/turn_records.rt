//! The records of a turn.
ghost use Rattle.std.specs.Prelude.{◌≡◌, ◌<◌, ◌+◌, ◌-◌, ◌%◌, ◌^◌, false, [], ◌∷◌, List, length, None, Some, IfOk, IfSome, OnOk, is_none, option_map, unwrap_or};
ghost use Rattle.guest_space.specs.Memory.{Memory};
ghost use Rattle.journal.specs.Form.{AreSixWords, call_kind};
ghost use Rattle.kernel_core.specs.declared.event.Event.{Event as Happened};
ghost use Rattle.kernel_core.specs.declared.record.Record.{Record as Entry};
ghost use Rattle.kernel_model.specs.Pipes.{Sent, nothing};
ghost use Rattle.mips_exec.specs.Processor.{Processor};
ghost use Rattle.o32_model.specs.Logs.{with_more};
ghost use Rattle.o32_turns.specs.Machine.{Machine, Within};
ghost use Rattle.turn_records.specs.Entry.{IsEntry, IsOne, registers_of, target_of, words_at};
ghost use Rattle.turn_records.specs.Keeping.{AreKept, Gains, Records, emptied, first_records, no_effects};
ghost use Rattle.turn_records.specs.Turn.{IsBefore, IsIdleEntry, is_touched};

use crate::events::{is_entered, is_touched};
use crate::registers::Registers;
use kernel_core::{Delivery, Effect, Event, Items, NoMemory, Record};
use mips_exec::Cpu;
use std::alloc::Global;
use std::marker::Model;

/// The kinds of records: before an instruction, a call, a turn without an instruction.
const BEFORE: u8 = 1;

const CALL: u8 = 2;

const IDLE: u8 = 3;

/// The records of the last turn, where a journal is kept. Contracts see them as a list that may not be there. (The journal is
/// this project's own.)
#[derive(Drop)]
pub struct TurnRecords {
    /// None where no journal is kept.
    records: Option<Vec<Record>>,
}

impl Model for TurnRecords {
    ghost use Rattle.std.specs.Prelude.{option_map};
    ghost use Rattle.turn_records.specs.Keeping.{Records};

    ghost Value = { Records };

    ghost view = { λ r. option_map (λ v. v.items) r.records };
}

impl TurnRecords {
    /// The records before the first turn, or none where no journal is `kept`. It takes its memory from `alloc`.
    pub fn new(alloc: Global, kept: bool) -> TurnRecords
        ensures { result ≡ first_records kept }
    {
        let records = if kept { Some(Vec::new(alloc)) } else { None };
        TurnRecords { records }
    }

    /// The records of the last turn, in order; none where no journal is kept. It takes no memory.
    pub fn records(&self) -> &[Record]
        ensures { result.now ≡ unwrap_or self.now [] }
    {
        match &self.records {
            Some(records) => records.as_slice(),
            None => &[],
        }
    }

    /// Begins a turn, which has no record so far. It takes no memory.
    pub fn clear(&mut self)
        ensures { self.new ≡ emptied self.old }
    {
        if let Some(records) = &mut self.records {
            records.clear();
        }
    }

    /// What the calls of a part of a turn keep their effects in: no effect so far, and kept where a journal is. It takes no
    /// memory yet.
    pub fn part(&self) -> Option<Vec<Effect>>
        ensures { option_map (λ v. v.items) result ≡ no_effects self.now }
    {
        match &self.records {
            Some(records) => Some(Vec::new(*records.allocator())),
            None => None,
        }
    }

    /// Puts the registers before a part of a turn into `was`, where a journal is kept.
    #[inline]
    pub fn look(&self, cpu: &Cpu, was: &mut Registers)
        ensures { IfSome self.now (λ records. was.new ≡ registers_of cpu.now) }
    {
        if self.records.is_some() {
            *was = Registers::of(cpu);
        }
    }

    /// Adds the record of what was done before a turn's instruction, where something was: the registers were `was`, and
    /// `effects` is what calls did to pages. `events` is what happened in the turn so far, and `alive` that no signal killed
    /// the process in it.
    ///
    /// # Errors
    ///
    /// `NoMemory`, also for 2^32 effects and more. The records are not used again then.
    pub fn add_before(
        &mut self,
        turn: u64,
        was: &Registers,
        cpu: &Cpu,
        events: &[Event],
        alive: bool,
        effects: Option<Vec<Effect>>,
    ) -> Result<(), NoMemory>
        ensures { OnOk result ((machine : Machine) (within : Within) (p : Processor)
            → IfSome self.old (λ records. registers_of machine.processor ≡ was.now) → within.machine.processor ≡ cpu.now → within.events ≡ events.now → is_none within.over ≡ alive
            → AreKept self.old (option_map (λ v. v.items) effects) p machine.memory within.machine.memory nothing
            → (is_touched within ≡ false
            → target_of machine.processor machine.memory nothing ≡ target_of within.machine.processor within.machine.memory nothing)
            → Gains self.old self.new (IsBefore turn machine within)) }
    {
        let Some(mut effects) = effects else {
            return Ok(());
        };
        if !is_touched(events) {
            return Ok(());
        }
        was.add_changes(&Registers::of(cpu), &mut effects)?;
        if effects.is_empty() && !is_entered(events, alive) {
            return Ok(());
        }
        self.keep(entry(turn, BEFORE, was.words(), effects)?)?;
        Ok(())
    }

    /// Adds the record of a call in a turn: the registers were `was`, with the program counter past the SYSCALL, and `effects`
    /// is what the call did to pages and outputs.
    ///
    /// # Errors
    ///
    /// `NoMemory`, also for 2^32 effects and more. The records are not used again then.
    #[inline]
    pub fn add_call(
        &mut self,
        turn: u64,
        was: &Registers,
        cpu: &Cpu,
        effects: Option<Vec<Effect>>,
    ) -> Result<(), NoMemory>
        ensures { OnOk result ((p processor : Processor) (memory became : Memory) (sent : Sent)
            → IfSome self.old (λ records. registers_of processor ≡ was.now)
            → AreKept self.old (option_map (λ v. v.items) effects) p memory became sent
            → Gains self.old self.new (IsOne (IsEntry turn call_kind (words_at ((processor.pc + (2 ^ 32 - 4)) % 2 ^ 32) processor)
            (target_of processor memory nothing) (target_of cpu.now became sent)))) }
    {
        let Some(effects) = effects else {
            return Ok(());
        };
        self.keep_call(turn, was, cpu, effects)?;
        Ok(())
    }

    /// The same of effects that are kept. It stands apart from the path of a call of which nothing is kept.
    #[inline(never)]
    fn keep_call(
        &mut self,
        turn: u64,
        was: &Registers,
        cpu: &Cpu,
        mut effects: Vec<Effect>,
    ) -> Result<(), NoMemory>
        ensures { OnOk result ((p processor : Processor) (memory became : Memory) (sent : Sent)
            → registers_of processor ≡ was.now → AreKept self.old (Some effects.items) p memory became sent
            → Gains self.old self.new (IsOne (IsEntry turn call_kind (words_at ((processor.pc + (2 ^ 32 - 4)) % 2 ^ 32) processor)
            (target_of processor memory nothing) (target_of cpu.now became sent)))) }
    {
        was.add_changes(&Registers::of(cpu), &mut effects)?;
        self.keep(entry(turn, CALL, was.words_of_call(), effects)?)?;
        Ok(())
    }

    /// Adds the record of a turn without an instruction.
    ///
    /// # Errors
    ///
    /// `NoMemory`. The records are not used again then.
    pub fn add_idle(&mut self, turn: u64, cpu: &Cpu) -> Result<(), NoMemory>
        ensures { OnOk result ((machine : Machine) → machine.processor ≡ cpu.now → Gains self.old self.new (IsOne (IsIdleEntry turn machine))) }
    {
        let Some(effects) = self.part() else {
            return Ok(());
        };
        self.keep(entry(turn, IDLE, Registers::of(cpu).words(), effects)?)?;
        Ok(())
    }

    /// Keeps a record.
    fn keep(&mut self, entry: Record) -> Result<(), NoMemory>
        ensures { OnOk result (self.new ≡ with_more self.old (entry ∷ [])) }
    {
        if let Some(records) = &mut self.records {
            records.push(entry)?;
        }
        Ok(())
    }
}

/// The record of a turn, which is not the end of a run.
fn entry(turn: u64, kind: u8, words: [u32; 6], effects: Vec<Effect>) -> Result<Record, NoMemory>
    ensures entry { IfOk result (λ entry. entry ≡ record { turn = turn; kind = kind; words = words; effects = effects.items; finish = None }) }
    ensures few { OnOk result (length effects.items < 2 ^ 32) }
    ensures six { AreSixWords words }
{
    if u32::try_from(effects.len()).is_err() {
        return Err(NoMemory);
    }
    Ok(Record {
        turn,
        kind,
        words,
        effects: Items::from(effects),
        finish: None,
    })
}
