//! A whole replay.
ghost use Rattle.std.specs.Prelude.{◌≡◌, ◌<◌, ◌≤◌, ◌↔◌, Some};
ghost use Rattle.elf_image.specs.Loading.{IsValidPlan};
ghost use Rattle.journal.specs.Form.{IsJournal, greatest_turn};
ghost use Rattle.journal.specs.Meaning.{kept};
ghost use Rattle.kernel_model.specs.Pipes.{nothing};
ghost use Rattle.replay_core.specs.Answered.{AnswersBy, StopsOnlyIfRose, written};
ghost use Rattle.replay_core.specs.Whole.{last_of, start_of};
ghost use Rattle.replay_core.specs.inside.Parts.{IsGoing, end_by, replay_at};
ghost use Rattle.replay_core.specs.declared.answer.ReplayEnd.TheVariants as replay_end;
ghost use Rattle.start_stack.specs.Stack.{start_limit, start_size};

use crate::answer::{ReplayAnswer, ReplayEnd};
use crate::coming::Coming;
use crate::difference::Halt;
use crate::last::{End, end_of};
use crate::machine::Machine;
use elf_image::Plan;
use journal::Journal;
use outside::Sink;
use start_stack::{Start, StartError, build};
use std::alloc::Global;

/// What a replay ends with that does not go on after so many turns.
fn end_by(turns: u64, halt: Halt) -> ReplayEnd
    requires { turns < greatest_turn }
    ensures { result ≡ end_by turns halt }
{
    match halt {
        Halt::Differs(difference) => ReplayEnd::Diverged {
            turn: turns + 1,
            wanted: difference.wanted,
            found: difference.found,
        },
        Halt::WriteFault => ReplayEnd::WriteFault,
        Halt::NoMemory => ReplayEnd::NoMemory,
    }
}

/// All turns of a machine, up to that of the journal's end.
fn take_turns<O: Sink, E: Sink>(
    machine: &mut Machine<'_>,
    end: End,
    out: &mut O,
    err: &mut E,
) -> ReplayAnswer
    requires { end.turn ≤ greatest_turn }
    ensures answers { AnswersBy (replay_at machine.old 0 nothing) end.turn (Some end.finish) result.end result.turns
        (written O.written E.written out.old err.old) (written O.written E.written out.new err.new) }
    ensures goes { IsGoing result.end }
    ensures cause { StopsOnlyIfRose result.end (O.faults out.old) (O.faults out.new) (E.faults err.old) (E.faults err.new) }
{
    let mut turns = 0;
    while turns < end.turn {
        let taken = machine.turns(turns, end.turn, out, err);
        turns += taken.quiet;
        match taken.came {
            Ok(()) => turns += 1,
            Err(halt) => {
                return ReplayAnswer {
                    end: end_by(turns, halt),
                    turns,
                };
            }
        }
    }
    ReplayAnswer {
        end: ReplayEnd::Finished(end.finish),
        turns: end.turn,
    }
}

/// A machine at its start.
fn machine_of<'a>(start: Start, journal: &Journal<'a>) -> Machine<'a>
    requires { IsJournal (kept journal.now) }
    ensures { result ≡ record { cpu = start.cpu; space = start.space; coming = journal.now.records } }
{
    Machine {
        cpu: start.cpu,
        space: start.space,
        coming: Coming::new(&journal.records),
    }
}

/// Repeats the run of a journal from the executable's load plan and the journal alone: what it
/// writes, how it is over and its turns. No kernel stands behind it.
///
/// `Diverged` comes exactly where journal and machine differ, with the turn, and the word that the
/// journal has there and the machine's; `Start` exactly where the journal's words are too long for a
/// start; `WriteFault` only where an output counted a fault; and `NoMemory` for want of memory. After
/// an early stop the outputs have what the finished turns send, and a first part of what one more
/// sends. A turn costs a constant, and an effect by its bytes and pages. (The journal and its replay are
/// this project's own.)
pub fn replay<O: Sink, E: Sink>(
    alloc: Global,
    plan: &Plan,
    journal: &Journal<'_>,
    out: &mut O,
    err: &mut E,
) -> ReplayAnswer
    requires valid { IsValidPlan plan.now }
    requires form { IsJournal (kept journal.now) }
    ensures answers { AnswersBy (start_of plan.now (kept journal.now)) (last_of journal.now.records).turn (last_of journal.now.records).finish
        result.end result.turns (written O.written E.written out.old err.old) (written O.written E.written out.new err.new) }
    ensures start { (result.end ≡ replay_end.Start) ↔ (start_limit < start_size (kept journal.now).args (kept journal.now).env) }
    ensures cause { StopsOnlyIfRose result.end (O.faults out.old) (O.faults out.new) (E.faults err.old) (E.faults err.new) }
{
    let built = build(
        alloc,
        plan,
        journal.args.as_slice(),
        journal.env.as_slice(),
        journal.random,
    );
    match built {
        Ok(start) => {
            let mut machine = machine_of(start, journal);
            take_turns(&mut machine, end_of(&journal.records), out, err)
        }
        Err(StartError::TooLong) => ReplayAnswer {
            end: ReplayEnd::Start,
            turns: 0,
        },
        Err(StartError::NoMemory) => ReplayAnswer {
            end: ReplayEnd::NoMemory,
            turns: 0,
        },
    }
}
