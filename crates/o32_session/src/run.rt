//! A run, and the texts that it writes where files are named for them.
ghost use Rattle.std.specs.Prelude.{ℕ, List, ◌≡◌, ◌<◌, ◌≤◌, IfOk, None, Some};
ghost use Rattle.std.specs.Option.{option_copied};
ghost use Rattle.outside.specs.Streams.{NoCountFell, contents};
ghost use Rattle.o32_runner.specs.Making.{StopsBehind};
ghost use Rattle.o32_runner.specs.Runs.{IsFresh, KeepsTexts, RunsAs, WithinBudget, no_turn_follows};
ghost use Rattle.stored_files.specs.Stored.{stored_of};
ghost use Rattle.o32_runner.specs.Texts.{AllDiffer, BeginsJournal, BeginsLog, WritesTexts};
ghost use Rattle.o32_runner.specs.Traced.{StopsOnlyIfAnyRose};

use o32_runner::{Emulator, Ran, Texts, run, run_told};
use outside::{Devices, Sink, Source, Store};
use std::alloc::Global;

/// Runs a fresh emulator for at most `budget` turns, and writes its trace, its native log and its journal to the files that are
/// named for them. Where none is, the run has no store and no text.
pub(crate) fn run_named<F: Store, I: Source, O: Sink, E: Sink>(
    alloc: Global,
    emulator: &mut Emulator,
    budget: u64,
    texts: Texts<'_>,
    files: &mut F,
    dev: &mut Devices<I, O, E>,
) -> Ran
    requires fresh { IsFresh emulator.old }
    requires log { BeginsLog (option_copied texts.names.native) emulator.old.native }
    requires records { BeginsJournal (option_copied texts.names.journal) emulator.old.records }
    requires some { 0 < budget }
    requires bounded { budget ≤ 1_000_000_000_000 }
    requires differ { AllDiffer (option_copied texts.names.trace) (option_copied texts.names.native) (option_copied texts.names.journal) }
    ensures run { RunsAs emulator.old.quantum emulator.old.machine budget result.turns result.end
        (contents I.left O.written E.written dev.old) (contents I.left O.written E.written dev.new) emulator.new.machine }
    ensures texts { WritesTexts (option_copied texts.entry.names.trace) (option_copied texts.entry.names.native) (option_copied texts.entry.names.journal) texts.entry.front.now emulator.old.quantum emulator.old.machine budget result.turns result.end
        (contents I.left O.written E.written dev.old) (contents I.left O.written E.written dev.new)
        (stored_of F.files F.created F.loads F.turned_away F.write_faults files.old)
        (stored_of F.files F.created F.loads F.turned_away F.write_faults files.new) }
    ensures within { result.turns ≤ budget }
    ensures early { (option_copied texts.entry.names.trace ≡ None) → (option_copied texts.entry.names.journal ≡ None) → WithinBudget result.end result.turns budget }
    ensures behind { StopsBehind result.end result.turns budget (F.write_faults files.old) (F.write_faults files.new) }
    ensures turns { IfOk result.end (λ finish. emulator.new.turns ≡ result.turns) }
    ensures quantum { emulator.new.quantum ≡ emulator.old.quantum }
    ensures keeps { (left : List ℕ) → I.left dev.old.input ≡ Some left → IfOk result.end (λ finish. KeepsTexts emulator.old emulator.new) }
    ensures over { (left : List ℕ) → I.left dev.old.input ≡ Some left → IfOk result.end (λ finish. emulator.new.over ≡ no_turn_follows finish) }
    ensures cause { StopsOnlyIfAnyRose I.faults O.faults E.faults result.end (F.write_faults files.old) (F.write_faults files.new) dev.old dev.new }
    ensures counts { NoCountFell I.faults O.faults E.faults dev.old dev.new }
    ensures writes_later { F.write_faults files.old ≤ F.write_faults files.new }
    ensures loads { F.load_faults files.new ≡ F.load_faults files.old }
{
    let Texts { names, front } = texts;
    match (names.trace, names.native, names.journal) {
        (None, None, None) => run(emulator, budget, dev),
        _ => run_told(alloc, emulator, budget, names, front, files, dev),
    }
}
