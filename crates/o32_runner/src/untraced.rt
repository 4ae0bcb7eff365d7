//! A whole run.
ghost use Rattle.std.specs.Prelude.{ℕ, List, ◌≡◌, ◌≤◌, IfOk, Some};
ghost use Rattle.kernel_model.specs.Stops.{StopsOnlyIfRose};
ghost use Rattle.o32_runner.specs.Runs.{IsFresh, KeepsTexts, RunsAs, WithinBudget, no_turn_follows};
ghost use Rattle.outside.specs.Streams.{NoCountFell, contents};

use kernel_core::{Finish, Stop};
use o32_machine::{Emulator, Turn};
use outside::{Devices, Sink, Source};

/// What a run came to.
#[derive(Clone, Copy)]
pub struct Ran {
    /// How the run was over, or why it stopped early, in the turn after those that are counted.
    pub end: Result<Finish, Stop>,
    /// The turns that were finished.
    pub turns: u64,
}

/// Runs a fresh emulator for at most `budget` turns.
pub fn run<I: Source, O: Sink, E: Sink>(
    emulator: &mut Emulator,
    budget: u64,
    dev: &mut Devices<I, O, E>,
) -> Ran
    requires fresh { IsFresh emulator.old }
    requires budget { budget ≤ 1_000_000_000_000 }
    ensures run { RunsAs emulator.old.quantum emulator.old.machine budget result.turns result.end
        (contents I.left O.written E.written dev.old) (contents I.left O.written E.written dev.new) emulator.new.machine }
    ensures within { WithinBudget result.end result.turns budget }
    ensures turns { emulator.new.turns ≡ result.turns }
    ensures quantum { emulator.new.quantum ≡ emulator.old.quantum }
    ensures keeps { (left : List ℕ) → I.left dev.old.input ≡ Some left → IfOk result.end (λ finish. KeepsTexts emulator.old emulator.new) }
    ensures over { (left : List ℕ) → I.left dev.old.input ≡ Some left → IfOk result.end (λ finish. emulator.new.over ≡ no_turn_follows finish) }
    ensures cause { StopsOnlyIfRose I.faults O.faults E.faults result.end dev.old dev.new }
    ensures counts { NoCountFell I.faults O.faults E.faults dev.old dev.new }
{
    while emulator.turns() < budget {
        let left = budget - emulator.turns();
        match emulator.next_turns(left, dev) {
            Ok(Turn::Went) => {}
            Ok(Turn::Ended(finish)) => {
                return Ran {
                    end: Ok(finish),
                    turns: emulator.turns(),
                };
            }
            Err(stop) => {
                return Ran {
                    end: Err(stop),
                    turns: emulator.turns(),
                };
            }
        }
    }
    Ran {
        end: Ok(Finish::Budget),
        turns: emulator.turns(),
    }
}
