//! The machine that takes the turns of a run again.
ghost use Rattle.std.specs.Prelude.{◌≡◌, ◌+◌, ◌<◌, ◌≤◌, ◌^◌, ℕ, None};
ghost use Rattle.journal.specs.Form.{IsRecord};
ghost use Rattle.journal.specs.Seen.{record_seen};
ghost use Rattle.kernel_model.specs.Pipes.{Sent};
ghost use Rattle.replay_core.specs.Answered.{Gains, Written, written};
ghost use Rattle.replay_core.specs.Replay.{after_step, before_instruction, carried_unless, first_difference, instruction, instruction_or_none, turn_after};
ghost use Rattle.replay_core.specs.inside.Parts.{Comes, Does, HaltsOnlyIfRose, replay_at, call_or_differs, idle_turn, take_words};
ghost use Rattle.replay_core.specs.inside.Stretch.{IsFree, Takes};

use crate::carrying::carry_out_all;
use crate::coming::{BEFORE, CALL, Coming, IDLE};
use crate::difference::{Difference, Halt, compare, words_of};
use guest_space::Space;
use journal::ReadRecord;
use mips_exec::{Cpu, Stepped, run, step};
use outside::Sink;

/// A machine between two turns, with the records that are left of its journal.
#[derive(Drop)]
pub(crate) struct Machine<'a> {
    pub(crate) cpu: Cpu,
    pub(crate) space: Space,
    pub(crate) coming: Coming<'a>,
}

/// Turns that were taken at once.
#[derive(Clone, Copy)]
pub(crate) struct Taken {
    /// Those before the last one, which had no record, made no call and met no fault.
    pub(crate) quiet: u64,
    /// What the last one came to.
    pub(crate) came: Result<(), Halt>,
}

/// Clears the link: no LL before a record goes on to an SC behind it.
fn clear_link(cpu: &mut Cpu)
    ensures { cpu.new ≡ record cpu.old { link = None } }
{
    cpu.link = None;
}

impl<'a> Machine<'a> {
    /// Carries out a record that was taken. Its words have to be these.
    fn carry_record<O: Sink, E: Sink>(
        &mut self,
        entry: ReadRecord<'_>,
        words: &[u32; 6],
        out: &mut O,
        err: &mut E,
    ) -> Result<(), Halt>
        requires { IsRecord (record_seen entry) }
        ensures came { Does (carried_unless (first_difference entry.entry.words words.now) entry.entry.effects)
            self.old self.new (written O.written E.written out.old err.old) (written O.written E.written out.new err.new) result }
        ensures cause { HaltsOnlyIfRose result (O.faults out.old) (O.faults out.new) (E.faults err.old) (E.faults err.new) }
    {
        match compare(&entry.words, words) {
            Ok(()) => {
                clear_link(&mut self.cpu);
                carry_out_all(entry.effects, &mut self.cpu, &mut self.space, out, err)
            }
            Err(halt) => Err(halt),
        }
    }

    /// Takes the next record and carries it out. Its words have to be these.
    fn take<O: Sink, E: Sink>(
        &mut self,
        words: &[u32; 6],
        out: &mut O,
        err: &mut E,
    ) -> Result<(), Halt>
        ensures came { Does (take_words words.now)
            self.old self.new (written O.written E.written out.old err.old) (written O.written E.written out.new err.new) result }
        ensures cause { HaltsOnlyIfRose result (O.faults out.old) (O.faults out.new) (E.faults err.old) (E.faults err.new) }
    {
        match self.coming.take() {
            Some(entry) => self.carry_record(entry, words, out, err),
            None => Ok(()),
        }
    }

    /// What was done before the instruction of this turn.
    fn before_instruction<O: Sink, E: Sink>(
        &mut self,
        turn: u64,
        out: &mut O,
        err: &mut E,
    ) -> Result<(), Halt>
        ensures came { Does (before_instruction turn)
            self.old self.new (written O.written E.written out.old err.old) (written O.written E.written out.new err.new) result }
        ensures cause { HaltsOnlyIfRose result (O.faults out.old) (O.faults out.new) (E.faults err.old) (E.faults err.new) }
    {
        if self.coming.comes(turn, BEFORE) {
            let words = words_of(&self.cpu);
            self.take(&words, out, err)
        } else {
            Ok(())
        }
    }

    /// A call of this turn, before which the words were these.
    fn system_call<O: Sink, E: Sink>(
        &mut self,
        turn: u64,
        words: &[u32; 6],
        out: &mut O,
        err: &mut E,
    ) -> Result<(), Halt>
        ensures came { Does (call_or_differs turn words.now)
            self.old self.new (written O.written E.written out.old err.old) (written O.written E.written out.new err.new) result }
        ensures cause { HaltsOnlyIfRose result (O.faults out.old) (O.faults out.new) (E.faults err.old) (E.faults err.new) }
    {
        if self.coming.comes(turn, CALL) {
            self.take(words, out, err)
        } else {
            Err(Halt::Differs(Difference {
                wanted: 0,
                found: 1,
            }))
        }
    }

    /// What the instruction of this turn came to, before which the words were these.
    fn after_step<O: Sink, E: Sink>(
        &mut self,
        turn: u64,
        words: &[u32; 6],
        came: Stepped,
        out: &mut O,
        err: &mut E,
    ) -> Result<(), Halt>
        requires { turn + 1 < 2 ^ 64 }
        ensures came { Does (after_step turn words.now came)
            self.old self.new (written O.written E.written out.old err.old) (written O.written E.written out.new err.new) result }
        ensures cause { HaltsOnlyIfRose result (O.faults out.old) (O.faults out.new) (E.faults err.old) (E.faults err.new) }
    {
        match came {
            Stepped::Next => self.coming.check_without_call(turn, false),
            Stepped::Syscall => self.system_call(turn, words, out, err),
            Stepped::Fault { .. } => self.coming.check_without_call(turn, true),
        }
    }

    /// The instruction of this turn, with its call.
    fn instruction<O: Sink, E: Sink>(
        &mut self,
        turn: u64,
        out: &mut O,
        err: &mut E,
    ) -> Result<(), Halt>
        requires { turn + 1 < 2 ^ 64 }
        ensures came { Does (instruction turn)
            self.old self.new (written O.written E.written out.old err.old) (written O.written E.written out.new err.new) result }
        ensures cause { HaltsOnlyIfRose result (O.faults out.old) (O.faults out.new) (E.faults err.old) (E.faults err.new) }
    {
        let words = words_of(&self.cpu);
        match step(&mut self.cpu, &mut self.space) {
            Ok(came) => self.after_step(turn, &words, came, out, err),
            Err(_) => Err(Halt::NoMemory),
        }
    }

    /// A turn in which the process waits.
    fn wait(&mut self) -> Result<(), Halt>
        ensures came { (held : Written) → Does idle_turn self.old self.new held held result }
        ensures still { (out err : ℕ) → HaltsOnlyIfRose result out out err err }
    {
        let words = words_of(&self.cpu);
        match self.coming.take() {
            Some(entry) => compare(&entry.words, &words),
            None => Ok(()),
        }
    }

    /// The instruction of this turn, where it has one.
    fn instruction_or_none<O: Sink, E: Sink>(
        &mut self,
        turn: u64,
        out: &mut O,
        err: &mut E,
    ) -> Result<(), Halt>
        requires { turn + 1 < 2 ^ 64 }
        ensures came { Does (instruction_or_none turn)
            self.old self.new (written O.written E.written out.old err.old) (written O.written E.written out.new err.new) result }
        ensures cause { HaltsOnlyIfRose result (O.faults out.old) (O.faults out.new) (E.faults err.old) (E.faults err.new) }
    {
        if self.coming.ends_killed(turn) {
            Ok(())
        } else if self.coming.comes(turn, IDLE) {
            self.wait()
        } else {
            self.instruction(turn, out, err)
        }
    }

    /// The turn behind so many.
    fn turn<O: Sink, E: Sink>(&mut self, turns: u64, out: &mut O, err: &mut E) -> Result<(), Halt>
        requires { turns + 2 < 2 ^ 64 }
        ensures came { (first : Written) (sent : Sent) → Gains first (written O.written E.written out.old err.old) sent
            → Comes (turn_after (replay_at self.old turns sent)) self.new (turns + 1) first sent (written O.written E.written out.new err.new) result }
        ensures cause { HaltsOnlyIfRose result (O.faults out.old) (O.faults out.new) (E.faults err.old) (E.faults err.new) }
    {
        let turn = turns + 1;
        match self.before_instruction(turn, out, err) {
            Ok(()) => self.instruction_or_none(turn, out, err),
            Err(halt) => Err(halt),
        }
    }

    /// The turns behind so many before the next record's: quiet ones, at most `most`, and one more.
    fn stretch(&mut self, turns: u64, most: u64) -> Taken
        requires few { turns + most + 2 < 2 ^ 64 }
        requires free { IsFree (turns + most + 1) self.old.coming }
        ensures few { result.quiet ≤ most }
        ensures came { (held : Written) → Takes self.old self.new turns result.quiet held held result.came }
        ensures still { (out err : ℕ) → HaltsOnlyIfRose result.came out out err err }
    {
        let ran = run(&mut self.cpu, &mut self.space, most);
        match ran.came {
            Ok(came) => Taken {
                quiet: ran.quiet,
                came: self.coming.check_unrecorded(turns + ran.quiet + 1, came),
            },
            Err(_) => Taken {
                quiet: ran.quiet,
                came: Err(Halt::NoMemory),
            },
        }
    }

    /// The next turns behind so many, up to the turn `last` at most: the next record's turn, or those
    /// before it, up to the first that makes a call or meets a fault.
    pub(crate) fn turns<O: Sink, E: Sink>(
        &mut self,
        turns: u64,
        last: u64,
        out: &mut O,
        err: &mut E,
    ) -> Taken
        requires some { turns < last }
        requires few { last + 1 < 2 ^ 64 }
        ensures few { turns + result.quiet < last }
        ensures came { Takes self.old self.new turns result.quiet (written O.written E.written out.old err.old) (written O.written E.written out.new err.new) result.came }
        ensures cause { HaltsOnlyIfRose result.came (O.faults out.old) (O.faults out.new) (E.faults err.old) (E.faults err.new) }
    {
        match self.coming.most_quiet(turns, last) {
            None => Taken {
                quiet: 0,
                came: self.turn(turns, out, err),
            },
            Some(most) => self.stretch(turns, most),
        }
    }
}
