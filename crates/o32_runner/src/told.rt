//! A run that writes its texts, the trace, the native log and the journal.
ghost use Rattle.std.specs.Prelude.{ℕ, List, ◌≡◌, ◌+◌, ◌<◌, ◌≤◌, ◌⊎◌, [], IfOk, IsOk, OnOk, OnErr, None, Some, false};
ghost use Rattle.std.specs.Option.{option_copied};
ghost use Rattle.kernel_core.specs.declared.event.Event.TheVariants as event;
ghost use Rattle.o32_machine.specs.Answered.{is_end, turns_of};
ghost use Rattle.o32_runner.specs.JournalText.{front_to_come};
ghost use Rattle.o32_runner.specs.Making.{Makes, MakesAll, MakesBoth, MakesNone, MakesNotAll, MakesNotBoth, StopsBehind};
ghost use Rattle.o32_runner.specs.NativeText.{entry_lines};
ghost use Rattle.o32_runner.specs.Runs.{IsFresh, KeepsTexts, RunsAs, WithinBudget, no_turn_follows};
ghost use Rattle.stored_files.specs.Stored.{Stored, stored_of};
ghost use Rattle.o32_runner.specs.Texts.{AllDiffer, BeginsJournal, BeginsLog, WritesTexts};
ghost use Rattle.o32_runner.specs.Traced.{StopsOnlyIfAnyRose};
ghost use Rattle.o32_runner.specs.inside.Told.{Adds, AddsAll, AddsBoth, AddsPart, AddsPartOfAll, AddsPartOfBoth, EndsBudget, IsMade, TakesAll, WritesOnlyIfRose, budget_record, journal_of, native_of, stop_in, stop_of, told_lines, trace_of};
ghost use Rattle.outside.specs.Causes.{FailsOnlyIfRose};
ghost use Rattle.outside.specs.Streams.{NoCountFell, contents};
ghost use Rattle.trace_text.specs.Trace.{trace_line};

use crate::lines::{entry_lines, told_lines};
use crate::records::{budget_record, told_records};
use crate::untraced::Ran;
use kernel_core::{Event, Finish, LogEntry, Stop};
use o32_machine::{Emulator, Turn};
use outside::{DevError, Devices, Sink, Source, Store};
use std::alloc::Global;
use trace_text::trace_line;

/// The names of the files that a run writes, one for each of its texts. Where none is named, that text is not written.
#[derive(Clone, Copy)]
pub struct Names<'a> {
    /// The file of the trace.
    pub trace: Option<&'a str>,
    /// The file of the native log.
    pub native: Option<&'a str>,
    /// The file of the journal.
    pub journal: Option<&'a str>,
}

/// The texts that a run writes.
#[derive(Clone, Copy)]
pub struct Texts<'a> {
    /// The names of their files.
    pub names: Names<'a>,
    /// What the journal begins with.
    pub front: &'a [u8],
}

/// Where a run stopped early.
#[derive(Clone, Copy)]
struct Cut {
    stop: Stop,
    /// The turns that were finished and told.
    turns: u64,
}

fn stop_of(error: DevError) -> Stop
    ensures { result ≡ stop_of error }
{
    match error {
        DevError::Failed => Stop::WriteFault,
        DevError::NoMemory => Stop::NoMemory,
    }
}

/// How many turns a turn that came to this counts for.
fn count(turn: Turn) -> u64
    ensures { result ≡ turns_of turn }
{
    match turn {
        Turn::Ended(Finish::Blocked) => 0,
        Turn::Went | Turn::Ended(_) => 1,
    }
}

/// Makes a file, where one is named.
fn make<F: Store>(name: Option<&str>, files: &mut F) -> Result<(), DevError>
    ensures made { OnOk result (Makes (option_copied name.entry)
        (stored_of F.files F.created F.loads F.turned_away F.write_faults files.old)
        (stored_of F.files F.created F.loads F.turned_away F.write_faults files.new)) }
    ensures unmade { OnErr result (MakesNone (option_copied name.entry)
        (stored_of F.files F.created F.loads F.turned_away F.write_faults files.old)
        (stored_of F.files F.created F.loads F.turned_away F.write_faults files.new)) }
    ensures cause { FailsOnlyIfRose result (F.write_faults files.old) (F.write_faults files.new) }
    ensures later { F.write_faults files.old ≤ F.write_faults files.new }
    ensures loads { F.load_faults files.new ≡ F.load_faults files.old }
{
    match name {
        Some(name) => files.create(name),
        None => Ok(()),
    }
}

/// Makes the files of the trace and of the native log, where they are named, first that of the trace.
fn make_both<F: Store>(names: Names<'_>, files: &mut F) -> Result<(), DevError>
    ensures made { OnOk result (MakesBoth (option_copied names.entry.trace) (option_copied names.entry.native)
        (stored_of F.files F.created F.loads F.turned_away F.write_faults files.old)
        (stored_of F.files F.created F.loads F.turned_away F.write_faults files.new)) }
    ensures unmade { OnErr result (MakesNotBoth (option_copied names.entry.trace) (option_copied names.entry.native)
        (stored_of F.files F.created F.loads F.turned_away F.write_faults files.old)
        (stored_of F.files F.created F.loads F.turned_away F.write_faults files.new)) }
    ensures cause { FailsOnlyIfRose result (F.write_faults files.old) (F.write_faults files.new) }
    ensures later { F.write_faults files.old ≤ F.write_faults files.new }
    ensures loads { F.load_faults files.new ≡ F.load_faults files.old }
{
    make(names.trace, files)?;
    make(names.native, files)
}

/// Makes the files that are named: those of the trace, of the native log and of the journal, in this order.
fn make_all<F: Store>(names: Names<'_>, files: &mut F) -> Result<(), DevError>
    ensures made { OnOk result (MakesAll (option_copied names.entry.trace) (option_copied names.entry.native) (option_copied names.entry.journal)
        (stored_of F.files F.created F.loads F.turned_away F.write_faults files.old)
        (stored_of F.files F.created F.loads F.turned_away F.write_faults files.new)) }
    ensures unmade { OnErr result (MakesNotAll (option_copied names.entry.trace) (option_copied names.entry.native) (option_copied names.entry.journal)
        (stored_of F.files F.created F.loads F.turned_away F.write_faults files.old)
        (stored_of F.files F.created F.loads F.turned_away F.write_faults files.new)) }
    ensures cause { FailsOnlyIfRose result (F.write_faults files.old) (F.write_faults files.new) }
    ensures later { F.write_faults files.old ≤ F.write_faults files.new }
    ensures loads { F.load_faults files.new ≡ F.load_faults files.old }
{
    make_both(names, files)?;
    make(names.journal, files)
}

/// Adds a text to a file that was made, where there is something to add.
fn add_text<F: Store>(name: &str, text: &[u8], files: &mut F) -> Result<(), DevError>
    requires made { IsMade (F.created files.old) (Some name.now) }
    ensures added { OnOk result (Adds (Some name.now) text.now
        (stored_of F.files F.created F.loads F.turned_away F.write_faults files.old)
        (stored_of F.files F.created F.loads F.turned_away F.write_faults files.new)) }
    ensures part { OnErr result (AddsPart (Some name.now) text.now
        (stored_of F.files F.created F.loads F.turned_away F.write_faults files.old)
        (stored_of F.files F.created F.loads F.turned_away F.write_faults files.new)) }
    ensures created { F.created files.new ≡ F.created files.old }
    ensures cause { FailsOnlyIfRose result (F.write_faults files.old) (F.write_faults files.new) }
    ensures later { F.write_faults files.old ≤ F.write_faults files.new }
    ensures loads { F.load_faults files.new ≡ F.load_faults files.old }
{
    if text.is_empty() {
        return Ok(());
    }
    files.append(name, text)
}

/// Adds the lines of the events of a turn that came to this to the file of the trace, where one is named.
fn tell_trace<F: Store>(
    alloc: Global,
    name: Option<&str>,
    turns: u64,
    turn: Turn,
    events: &[Event],
    files: &mut F,
) -> Result<(), DevError>
    requires few { turns ≤ 1_000_000_000_000 }
    requires made { IsMade (F.created files.old) (option_copied name) }
    ensures added { OnOk result (Adds (option_copied name.entry) (told_lines turns turn events.now)
        (stored_of F.files F.created F.loads F.turned_away F.write_faults files.old)
        (stored_of F.files F.created F.loads F.turned_away F.write_faults files.new)) }
    ensures part { OnErr result (AddsPart (option_copied name.entry) (told_lines turns turn events.now)
        (stored_of F.files F.created F.loads F.turned_away F.write_faults files.old)
        (stored_of F.files F.created F.loads F.turned_away F.write_faults files.new)) }
    ensures created { F.created files.new ≡ F.created files.old }
    ensures cause { FailsOnlyIfRose result (F.write_faults files.old) (F.write_faults files.new) }
    ensures later { F.write_faults files.old ≤ F.write_faults files.new }
    ensures loads { F.load_faults files.new ≡ F.load_faults files.old }
{
    let Some(name) = name else {
        return Ok(());
    };
    match told_lines(alloc, turns, turn, events) {
        Ok(text) => add_text(name, &text, files),
        Err(_) => Err(DevError::NoMemory),
    }
}

/// Adds the lines of the entries of the turn of this number to the file of the native log, where one is named.
fn tell_native<F: Store>(
    alloc: Global,
    name: Option<&str>,
    number: u64,
    entries: &[LogEntry],
    files: &mut F,
) -> Result<(), DevError>
    requires made { IsMade (F.created files.old) (option_copied name) }
    ensures added { OnOk result (Adds (option_copied name.entry) (entry_lines number entries.now)
        (stored_of F.files F.created F.loads F.turned_away F.write_faults files.old)
        (stored_of F.files F.created F.loads F.turned_away F.write_faults files.new)) }
    ensures part { OnErr result (AddsPart (option_copied name.entry) (entry_lines number entries.now)
        (stored_of F.files F.created F.loads F.turned_away F.write_faults files.old)
        (stored_of F.files F.created F.loads F.turned_away F.write_faults files.new)) }
    ensures created { F.created files.new ≡ F.created files.old }
    ensures cause { FailsOnlyIfRose result (F.write_faults files.old) (F.write_faults files.new) }
    ensures later { F.write_faults files.old ≤ F.write_faults files.new }
    ensures loads { F.load_faults files.new ≡ F.load_faults files.old }
{
    let Some(name) = name else {
        return Ok(());
    };
    match entry_lines(alloc, number, entries) {
        Ok(text) => add_text(name, &text, files),
        Err(_) => Err(DevError::NoMemory),
    }
}

/// Adds the records of a turn that came to this to the file of the journal, where one is named: behind `front`, and before the end,
/// where the run is over with it.
fn tell_records<F: Store>(
    alloc: Global,
    name: Option<&str>,
    front: &[u8],
    emulator: &Emulator,
    turn: Turn,
    files: &mut F,
) -> Result<(), DevError>
    requires few { emulator.now.turns ≤ 1_000_000_000_000 }
    requires made { IsMade (F.created files.old) (option_copied name) }
    ensures added { OnOk result (Adds (option_copied name.entry) (journal_of front.now emulator.now turn)
        (stored_of F.files F.created F.loads F.turned_away F.write_faults files.old)
        (stored_of F.files F.created F.loads F.turned_away F.write_faults files.new)) }
    ensures part { OnErr result (AddsPart (option_copied name.entry) (journal_of front.now emulator.now turn)
        (stored_of F.files F.created F.loads F.turned_away F.write_faults files.old)
        (stored_of F.files F.created F.loads F.turned_away F.write_faults files.new)) }
    ensures created { F.created files.new ≡ F.created files.old }
    ensures cause { FailsOnlyIfRose result (F.write_faults files.old) (F.write_faults files.new) }
    ensures later { F.write_faults files.old ≤ F.write_faults files.new }
    ensures loads { F.load_faults files.new ≡ F.load_faults files.old }
{
    let Some(name) = name else {
        return Ok(());
    };
    match told_records(alloc, front, emulator.records(), emulator.turns(), turn) {
        Ok(text) => add_text(name, &text, files),
        Err(_) => Err(DevError::NoMemory),
    }
}

/// Adds the end of a run whose budget's turns are done to the file of the journal, where one is named, behind `front`.
fn tell_end<F: Store>(
    alloc: Global,
    name: Option<&str>,
    front: &[u8],
    turns: u64,
    files: &mut F,
) -> Result<(), DevError>
    requires few { turns ≤ 1_000_000_000_000 }
    requires made { IsMade (F.created files.old) (option_copied name) }
    ensures added { OnOk result (Adds (option_copied name.entry) (budget_record front.now turns)
        (stored_of F.files F.created F.loads F.turned_away F.write_faults files.old)
        (stored_of F.files F.created F.loads F.turned_away F.write_faults files.new)) }
    ensures part { OnErr result (AddsPart (option_copied name.entry) (budget_record front.now turns)
        (stored_of F.files F.created F.loads F.turned_away F.write_faults files.old)
        (stored_of F.files F.created F.loads F.turned_away F.write_faults files.new)) }
    ensures created { F.created files.new ≡ F.created files.old }
    ensures cause { FailsOnlyIfRose result (F.write_faults files.old) (F.write_faults files.new) }
    ensures later { F.write_faults files.old ≤ F.write_faults files.new }
    ensures loads { F.load_faults files.new ≡ F.load_faults files.old }
    ensures unnamed { (option_copied name.entry ≡ None) → IsOk result }
{
    let Some(name) = name else {
        return Ok(());
    };
    match budget_record(alloc, front, turns) {
        Ok(text) => add_text(name, &text, files),
        Err(_) => Err(DevError::NoMemory),
    }
}

/// Adds the line that the budget's turns are done to the file of the trace, where one is named.
fn tell_budget<F: Store>(
    alloc: Global,
    name: Option<&str>,
    turns: u64,
    files: &mut F,
) -> Result<(), DevError>
    requires made { IsMade (F.created files.old) (option_copied name) }
    ensures added { OnOk result (Adds (option_copied name.entry) (trace_line turns event.Budget)
        (stored_of F.files F.created F.loads F.turned_away F.write_faults files.old)
        (stored_of F.files F.created F.loads F.turned_away F.write_faults files.new)) }
    ensures part { OnErr result (AddsPart (option_copied name.entry) (trace_line turns event.Budget)
        (stored_of F.files F.created F.loads F.turned_away F.write_faults files.old)
        (stored_of F.files F.created F.loads F.turned_away F.write_faults files.new)) }
    ensures created { F.created files.new ≡ F.created files.old }
    ensures cause { FailsOnlyIfRose result (F.write_faults files.old) (F.write_faults files.new) }
    ensures later { F.write_faults files.old ≤ F.write_faults files.new }
    ensures loads { F.load_faults files.new ≡ F.load_faults files.old }
    ensures unnamed { (option_copied name.entry ≡ None) → IsOk result }
{
    let Some(name) = name else {
        return Ok(());
    };
    let mut text = Vec::new(alloc);
    match trace_line(turns, &Event::Budget, &mut text) {
        Ok(()) => add_text(name, &text, files),
        Err(_) => Err(DevError::NoMemory),
    }
}

/// Adds the lines of the last turn of an emulator, which came to this, to the files of the trace and of the native log, where
/// they are named: first those of the trace.
fn tell<F: Store>(
    alloc: Global,
    names: Names<'_>,
    emulator: &Emulator,
    turn: Turn,
    files: &mut F,
) -> Result<(), DevError>
    requires few { emulator.now.turns ≤ 1_000_000_000_000 }
    requires counted { turns_of turn ≤ emulator.now.turns }
    requires trace { IsMade (F.created files.old) (option_copied names.trace) }
    requires native { IsMade (F.created files.old) (option_copied names.native) }
    ensures added { OnOk result (AddsBoth (option_copied names.entry.trace) (option_copied names.entry.native) (trace_of emulator.now turn) (native_of emulator.now turn)
        (stored_of F.files F.created F.loads F.turned_away F.write_faults files.old)
        (stored_of F.files F.created F.loads F.turned_away F.write_faults files.new)) }
    ensures part { OnErr result (AddsPartOfBoth (option_copied names.entry.trace) (option_copied names.entry.native) (trace_of emulator.now turn) (native_of emulator.now turn)
        (stored_of F.files F.created F.loads F.turned_away F.write_faults files.old)
        (stored_of F.files F.created F.loads F.turned_away F.write_faults files.new)) }
    ensures created { F.created files.new ≡ F.created files.old }
    ensures cause { FailsOnlyIfRose result (F.write_faults files.old) (F.write_faults files.new) }
    ensures later { F.write_faults files.old ≤ F.write_faults files.new }
    ensures loads { F.load_faults files.new ≡ F.load_faults files.old }
{
    let turns = emulator.turns();
    tell_trace(alloc, names.trace, turns, turn, emulator.events(), files)?;
    let number = turns - count(turn) + 1;
    tell_native(alloc, names.native, number, emulator.native(), files)
}

/// Adds the texts of the last turn of an emulator, which came to this, to the files that are named: its lines, and then its
/// records behind `front`.
fn tell_all<F: Store>(
    alloc: Global,
    names: Names<'_>,
    front: &[u8],
    emulator: &Emulator,
    turn: Turn,
    files: &mut F,
) -> Result<(), DevError>
    requires few { emulator.now.turns ≤ 1_000_000_000_000 }
    requires counted { turns_of turn ≤ emulator.now.turns }
    requires trace { IsMade (F.created files.old) (option_copied names.trace) }
    requires native { IsMade (F.created files.old) (option_copied names.native) }
    requires journal { IsMade (F.created files.old) (option_copied names.journal) }
    ensures added { OnOk result (AddsAll (option_copied names.entry.trace) (option_copied names.entry.native) (option_copied names.entry.journal)
        (trace_of emulator.now turn) (native_of emulator.now turn) (journal_of front.now emulator.now turn)
        (stored_of F.files F.created F.loads F.turned_away F.write_faults files.old)
        (stored_of F.files F.created F.loads F.turned_away F.write_faults files.new)) }
    ensures part { OnErr result (AddsPartOfAll (option_copied names.entry.trace) (option_copied names.entry.native) (option_copied names.entry.journal)
        (trace_of emulator.now turn) (native_of emulator.now turn) (journal_of front.now emulator.now turn)
        (stored_of F.files F.created F.loads F.turned_away F.write_faults files.old)
        (stored_of F.files F.created F.loads F.turned_away F.write_faults files.new)) }
    ensures created { F.created files.new ≡ F.created files.old }
    ensures cause { FailsOnlyIfRose result (F.write_faults files.old) (F.write_faults files.new) }
    ensures later { F.write_faults files.old ≤ F.write_faults files.new }
    ensures loads { F.load_faults files.new ≡ F.load_faults files.old }
{
    tell(alloc, names, emulator, turn, files)?;
    tell_records(alloc, names.journal, front, emulator, turn, files)
}

/// Takes turns up to the first that does more than an instruction, at most `limit`, and adds its texts to the files. What the
/// journal begins with is empty once it stands in the file.
fn take_turns<F: Store, I: Source, O: Sink, E: Sink>(
    alloc: Global,
    emulator: &mut Emulator,
    limit: u64,
    texts: Texts<'_>,
    files: &mut F,
    dev: &mut Devices<I, O, E>,
) -> Result<Turn, Cut>
    requires on { emulator.old.over ≡ false }
    requires some { 0 < limit }
    requires few { emulator.old.turns + limit ≤ 1_000_000_000_000 }
    requires trace { IsMade (F.created files.old) (option_copied texts.names.trace) }
    requires native { IsMade (F.created files.old) (option_copied texts.names.native) }
    requires journal { IsMade (F.created files.old) (option_copied texts.names.journal) }
    ensures turns { TakesAll texts.entry.front.now limit result emulator.old emulator.new
        (contents I.left O.written E.written dev.old) (contents I.left O.written E.written dev.new)
        (option_copied texts.entry.names.trace) (option_copied texts.entry.names.native) (option_copied texts.entry.names.journal)
        (stored_of F.files F.created F.loads F.turned_away F.write_faults files.old)
        (stored_of F.files F.created F.loads F.turned_away F.write_faults files.new) }
    ensures quantum { emulator.new.quantum ≡ emulator.old.quantum }
    ensures over { IfOk result (λ turn. emulator.new.over ≡ is_end turn) }
    ensures created { F.created files.new ≡ F.created files.old }
    ensures cause { StopsOnlyIfAnyRose I.faults O.faults E.faults (stop_in result) (F.write_faults files.old) (F.write_faults files.new) dev.old dev.new }
    ensures counts { NoCountFell I.faults O.faults E.faults dev.old dev.new }
    ensures later { F.write_faults files.old ≤ F.write_faults files.new }
    ensures loads { F.load_faults files.new ≡ F.load_faults files.old }
{
    match emulator.next_turns(limit, dev) {
        Ok(turn) => match tell_all(alloc, texts.names, texts.front, emulator, turn, files) {
            Ok(()) => Ok(turn),
            Err(error) => Err(Cut {
                stop: stop_of(error),
                turns: emulator.turns() - count(turn),
            }),
        },
        Err(stop) => Err(Cut {
            stop,
            turns: emulator.turns(),
        }),
    }
}

/// What is still to come of the front of a journal after so many turns: it is told with the first.
fn front_to_come(front: &[u8], turns: u64) -> &[u8]
    ensures { result.now ≡ front_to_come turns front.now }
{
    if turns == 0 { front } else { &[] }
}

/// How many turns are taken at most before the next are told: one where the front of the journal is still to come.
fn limit_of(front: &[u8], left: u64) -> u64
    requires { 0 < left }
    ensures some { 0 < result }
    ensures few { result ≤ left }
    ensures first { (front.now ≡ []) ⊎ (result ≡ 1) }
{
    if front.is_empty() { left } else { 1 }
}

/// Runs a fresh emulator for at most `budget` turns, and writes its trace, its native log and its journal, each to the file
/// that is named for it: the files are made before the first turn, in this order, and what each turn has for them is added in
/// that turn, once for each file, in this order too. An emulator whose native log or journal is written has to keep it.
/// `front` is what the journal begins with, and counts to its first turn. (The texts are this project's own.)
///
/// # Errors
///
/// As a run's; and `WriteFault` where the store failed, whose count of faulty writes rose. The turn whose lines could not be
/// added whole does not count then.
pub fn run_told<F: Store, I: Source, O: Sink, E: Sink>(
    alloc: Global,
    emulator: &mut Emulator,
    budget: u64,
    names: Names<'_>,
    front: &[u8],
    files: &mut F,
    dev: &mut Devices<I, O, E>,
) -> Ran
    requires fresh { IsFresh emulator.old }
    requires log { BeginsLog (option_copied names.native) emulator.old.native }
    requires records { BeginsJournal (option_copied names.journal) emulator.old.records }
    requires budget { budget ≤ 1_000_000_000_000 }
    requires differ { AllDiffer (option_copied names.trace) (option_copied names.native) (option_copied names.journal) }
    ensures run { RunsAs emulator.old.quantum emulator.old.machine budget result.turns result.end
        (contents I.left O.written E.written dev.old) (contents I.left O.written E.written dev.new) emulator.new.machine }
    ensures texts { WritesTexts (option_copied names.entry.trace) (option_copied names.entry.native) (option_copied names.entry.journal) front.now emulator.old.quantum emulator.old.machine budget result.turns result.end
        (contents I.left O.written E.written dev.old) (contents I.left O.written E.written dev.new)
        (stored_of F.files F.created F.loads F.turned_away F.write_faults files.old)
        (stored_of F.files F.created F.loads F.turned_away F.write_faults files.new) }
    ensures within { result.turns ≤ budget }
    ensures early { (option_copied names.entry.trace ≡ None) → (option_copied names.entry.journal ≡ None) → 0 < budget → WithinBudget result.end result.turns budget }
    ensures behind { StopsBehind result.end result.turns budget (F.write_faults files.old) (F.write_faults files.new) }
    ensures turns { IfOk result.end (λ finish. emulator.new.turns ≡ result.turns) }
    ensures quantum { emulator.new.quantum ≡ emulator.old.quantum }
    ensures keeps { (left : List ℕ) → I.left dev.old.input ≡ Some left → IfOk result.end (λ finish. KeepsTexts emulator.old emulator.new) }
    ensures over { (left : List ℕ) → I.left dev.old.input ≡ Some left → IfOk result.end (λ finish. emulator.new.over ≡ no_turn_follows finish) }
    ensures cause { StopsOnlyIfAnyRose I.faults O.faults E.faults result.end (F.write_faults files.old) (F.write_faults files.new) dev.old dev.new }
    ensures counts { NoCountFell I.faults O.faults E.faults dev.old dev.new }
    ensures later { F.write_faults files.old ≤ F.write_faults files.new }
    ensures loads { F.load_faults files.new ≡ F.load_faults files.old }
{
    match make_all(names, files) {
        Ok(()) => run_made(alloc, emulator, budget, Texts { names, front }, files, dev),
        Err(error) => Ran {
            end: Err(stop_of(error)),
            turns: 0,
        },
    }
}

/// The run, once its files are made.
fn run_made<F: Store, I: Source, O: Sink, E: Sink>(
    alloc: Global,
    emulator: &mut Emulator,
    budget: u64,
    texts: Texts<'_>,
    files: &mut F,
    dev: &mut Devices<I, O, E>,
) -> Ran
    requires fresh { IsFresh emulator.old }
    requires log { BeginsLog (option_copied texts.names.native) emulator.old.native }
    requires records { BeginsJournal (option_copied texts.names.journal) emulator.old.records }
    requires budget { budget ≤ 1_000_000_000_000 }
    requires differ { AllDiffer (option_copied texts.names.trace) (option_copied texts.names.native) (option_copied texts.names.journal) }
    requires trace { IsMade (F.created files.old) (option_copied texts.names.trace) }
    requires native { IsMade (F.created files.old) (option_copied texts.names.native) }
    requires journal { IsMade (F.created files.old) (option_copied texts.names.journal) }
    ensures run { RunsAs emulator.old.quantum emulator.old.machine budget result.turns result.end
        (contents I.left O.written E.written dev.old) (contents I.left O.written E.written dev.new) emulator.new.machine }
    ensures texts { (start : Stored) → MakesAll (option_copied texts.entry.names.trace) (option_copied texts.entry.names.native) (option_copied texts.entry.names.journal) start (stored_of F.files F.created F.loads F.turned_away F.write_faults files.old)
        → WritesTexts (option_copied texts.entry.names.trace) (option_copied texts.entry.names.native) (option_copied texts.entry.names.journal) texts.entry.front.now emulator.old.quantum emulator.old.machine budget result.turns result.end
        (contents I.left O.written E.written dev.old) (contents I.left O.written E.written dev.new) start
        (stored_of F.files F.created F.loads F.turned_away F.write_faults files.new) }
    ensures within { result.turns ≤ budget }
    ensures early { (option_copied texts.entry.names.trace ≡ None) → (option_copied texts.entry.names.journal ≡ None) → WithinBudget result.end result.turns budget }
    ensures behind { StopsBehind result.end result.turns budget (F.write_faults files.old) (F.write_faults files.new) }
    ensures turns { IfOk result.end (λ finish. emulator.new.turns ≡ result.turns) }
    ensures quantum { emulator.new.quantum ≡ emulator.old.quantum }
    ensures keeps { (left : List ℕ) → I.left dev.old.input ≡ Some left → IfOk result.end (λ finish. KeepsTexts emulator.old emulator.new) }
    ensures over { (left : List ℕ) → I.left dev.old.input ≡ Some left → IfOk result.end (λ finish. emulator.new.over ≡ no_turn_follows finish) }
    ensures cause { StopsOnlyIfAnyRose I.faults O.faults E.faults result.end (F.write_faults files.old) (F.write_faults files.new) dev.old dev.new }
    ensures counts { NoCountFell I.faults O.faults E.faults dev.old dev.new }
    ensures later { F.write_faults files.old ≤ F.write_faults files.new }
    ensures loads { F.load_faults files.new ≡ F.load_faults files.old }
{
    let Texts { names, front } = texts;
    while emulator.turns() < budget {
        let turns = emulator.turns();
        let coming = front_to_come(front, turns);
        let limit = limit_of(coming, budget - turns);
        let texts = Texts {
            names,
            front: coming,
        };
        match take_turns(alloc, emulator, limit, texts, files, dev) {
            Ok(Turn::Went) => {}
            Ok(Turn::Ended(finish)) => {
                return Ran {
                    end: Ok(finish),
                    turns: emulator.turns(),
                };
            }
            Err(cut) => {
                return Ran {
                    end: Err(cut.stop),
                    turns: cut.turns,
                };
            }
        }
    }
    let turns = emulator.turns();
    end_of_budget(alloc, turns, names, front_to_come(front, turns), files)
}

/// Adds to the files that are named that the budget's turns are done: the line to the trace, and the end to the journal, behind
/// `front`.
fn tell_done<F: Store>(
    alloc: Global,
    turns: u64,
    names: Names<'_>,
    front: &[u8],
    files: &mut F,
) -> Result<(), DevError>
    requires few { turns ≤ 1_000_000_000_000 }
    requires trace { IsMade (F.created files.old) (option_copied names.trace) }
    requires journal { IsMade (F.created files.old) (option_copied names.journal) }
    ensures added { OnOk result (AddsBoth (option_copied names.entry.trace) (option_copied names.entry.journal) (trace_line turns event.Budget) (budget_record front.now turns)
        (stored_of F.files F.created F.loads F.turned_away F.write_faults files.old)
        (stored_of F.files F.created F.loads F.turned_away F.write_faults files.new)) }
    ensures part { OnErr result (AddsPartOfBoth (option_copied names.entry.trace) (option_copied names.entry.journal) (trace_line turns event.Budget) (budget_record front.now turns)
        (stored_of F.files F.created F.loads F.turned_away F.write_faults files.old)
        (stored_of F.files F.created F.loads F.turned_away F.write_faults files.new)) }
    ensures cause { FailsOnlyIfRose result (F.write_faults files.old) (F.write_faults files.new) }
    ensures later { F.write_faults files.old ≤ F.write_faults files.new }
    ensures loads { F.load_faults files.new ≡ F.load_faults files.old }
    ensures unnamed { (option_copied names.entry.trace ≡ None) → (option_copied names.entry.journal ≡ None) → IsOk result }
{
    tell_budget(alloc, names.trace, turns, files)?;
    tell_end(alloc, names.journal, front, turns, files)
}

/// A run whose budget is done, once it is told that it is.
fn end_of_budget<F: Store>(
    alloc: Global,
    turns: u64,
    names: Names<'_>,
    front: &[u8],
    files: &mut F,
) -> Ran
    requires few { turns ≤ 1_000_000_000_000 }
    requires trace { IsMade (F.created files.old) (option_copied names.trace) }
    requires journal { IsMade (F.created files.old) (option_copied names.journal) }
    ensures turns { result.turns ≡ turns }
    ensures end { EndsBudget (option_copied names.entry.trace) (option_copied names.entry.journal) front.now turns result.end
        (stored_of F.files F.created F.loads F.turned_away F.write_faults files.old)
        (stored_of F.files F.created F.loads F.turned_away F.write_faults files.new) }
    ensures unnamed { (option_copied names.entry.trace ≡ None) → (option_copied names.entry.journal ≡ None) → IsOk result.end }
    ensures cause { WritesOnlyIfRose result.end (F.write_faults files.old) (F.write_faults files.new) }
    ensures later { F.write_faults files.old ≤ F.write_faults files.new }
    ensures loads { F.load_faults files.new ≡ F.load_faults files.old }
{
    match tell_done(alloc, turns, names, front, files) {
        Ok(()) => Ran {
            end: Ok(Finish::Budget),
            turns,
        },
        Err(error) => Ran {
            end: Err(stop_of(error)),
            turns,
        },
    }
}
