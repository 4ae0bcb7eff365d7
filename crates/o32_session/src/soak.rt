//! The soak program, run and told.
ghost use Rattle.std.specs.Prelude.{ℕ, ◌≡◌, ◌<◌, ◌≤◌, [], IfErr, IfOk, None, OnErr, OnOk, Some, length, unwrap_or};
ghost use Rattle.outside.specs.Causes.{FailsOnlyIfRose};
ghost use Rattle.outside.specs.Output.{GainsBetween, GainsText};
ghost use Rattle.outside.specs.Streams.{NoCountFell};
ghost use Rattle.o32_runner.specs.Runs.{IsFresh, KeepsTexts, no_turn_follows};
ghost use Rattle.stored_files.specs.Stored.{Stored};
ghost use Rattle.session_files.specs.Answers.{finish_of};
ghost use Rattle.session_files.specs.Inputs.{empty_schedule, no_names};
ghost use Rattle.session_files.specs.Faults.{TellsFaults};
ghost use Rattle.o32_session.specs.Session.{KeepsNamed, final_tree};
ghost use Rattle.session_files.specs.Seen.{seen_of};
ghost use Rattle.o32_session.specs.Soaked.{AnswersSoak, AnswersSoakReading, EndsSo, GoesSoFar, IsSoak, StopsSoak, line_on, soak_arguments, soak_machine};
ghost use Rattle.o32_session.specs.Words.{default_budget, read_soak, texts};
ghost use Rattle.session_files.specs.Steps.{LineFailsOnlyIfRose};
ghost use Rattle.o32_session.specs.inside.Soaking.{IsSoakOf, TellsSoak};
ghost use Rattle.session_words.specs.Read.{IsCount};

use crate::prepare::machine_of_plan;
use kernel_core::{Bytes, Finish, NoMemory};
use o32_runner::{Emulator, run};
use outside::{DevError, Devices, Sink, Source, SureSink, SureSource};
use session_files::{End, NotRun, Refusal, empty_schedule, empty_tree, refuse};
use session_words::{DEFAULT_BUDGET, RunLine, read_soak};
use soak_ends::soak_plan;
use std::alloc::{AllocError, Global};

/// The program's name, its one argument.
const NAME: &str = "soak";

/// A run of the soak program that is over.
#[derive(Drop)]
struct SoakRun {
    /// The emulator in the run's last state.
    pub emulator: Emulator,
    /// How the run was over.
    pub finish: Finish,
    /// The turns that it took.
    pub turns: u64,
    /// The line on it, where there is one.
    pub line: Option<Bytes>,
}

/// Memory ran out.
#[derive(Clone, Copy)]
struct Stopped {
    /// The turns that were finished: none where nothing ran, and all of them where the line found no memory.
    pub turns: u64,
}

/// How a run of the soak program was over.
#[derive(Clone, Copy)]
struct Ended {
    finish: Finish,
    /// The turns that it took.
    turns: u64,
}

/// How a soak ended.
#[derive(Drop)]
pub(crate) struct Told {
    /// The end of the session.
    pub end: End,
    /// The turns that were finished.
    pub turns: u64,
    /// The emulator in the run's last state, where the run was told.
    pub host: Option<Emulator>,
}

/// The program's arguments.
fn arguments(alloc: Global) -> Result<Vec<String>, AllocError>
    ensures texts { IfOk result (λ words. texts words.items ≡ soak_arguments) }
    ensures named { IfOk result (λ words. 0 < length words.items) }
{
    let mut words = Vec::new(alloc);
    words.push(String::from_str(alloc, NAME)?)?;
    Ok(words)
}

/// An input of no bytes.
fn empty_input(alloc: Global) -> SureSource
    ensures { result ≡ [] }
{
    SureSource::new(Vec::new(alloc))
}

/// The line of a run without options.
fn line_without_options(alloc: Global) -> RunLine
    ensures environment { texts result.environment.items ≡ [] }
    ensures budget { result.budget ≡ default_budget }
    ensures native { result.native ≡ None }
    ensures journal { result.journal ≡ None }
{
    RunLine {
        budget: DEFAULT_BUDGET,
        environment: Vec::new(alloc),
        program: 0,
        image: None,
        schedule: None,
        trace: None,
        native: None,
        journal: None,
        save: None,
    }
}

/// The emulator of the program for so many numbers at its first instruction, made as that of any run is.
fn begin(alloc: Global, count: u32) -> Result<Emulator, NotRun>
    requires { IsCount count }
    ensures machine { IfOk result (λ emulator. emulator.machine ≡ soak_machine count) }
    ensures quantum { IfOk result (λ emulator. emulator.quantum ≡ empty_schedule.quantum) }
    ensures fresh { IfOk result IsFresh }
    ensures keeps { IfOk result (KeepsNamed no_names) }
{
    let plan = soak_plan(alloc, count)?;
    let words = arguments(alloc)?;
    let line = line_without_options(alloc);
    let tree = empty_tree(alloc)?;
    let schedule = empty_schedule(alloc)?;
    let ready = machine_of_plan(alloc, &words, line, &plan, tree, schedule)?;
    Ok(ready.emulator)
}

/// Runs a fresh emulator over an input of no bytes.
fn run_over<I: Source, O: Sink, E: Sink>(
    emulator: &mut Emulator,
    dev: &mut Devices<I, O, E>,
) -> Result<Ended, Stopped>
    requires quantum { emulator.old.quantum ≡ empty_schedule.quantum }
    requires fresh { IsFresh emulator.old }
    requires input { I.left dev.old.input ≡ Some [] }
    ensures run { IfOk result (λ ended. EndsSo emulator.old.machine ended.turns ended.finish emulator.new.machine) }
    ensures turns { IfOk result (λ ended. emulator.new.turns ≡ ended.turns) }
    ensures quantum { emulator.new.quantum ≡ emulator.old.quantum }
    ensures keeps { IfOk result (λ ended. KeepsTexts emulator.old emulator.new) }
    ensures over { IfOk result (λ ended. emulator.new.over ≡ no_turn_follows ended.finish) }
    ensures stopped { IfErr result (λ stopped. GoesSoFar emulator.old.machine stopped.turns) }
{
    let ran = run(emulator, DEFAULT_BUDGET, dev);
    match ran.end {
        Ok(finish) => Ok(Ended {
            finish,
            turns: ran.turns,
        }),
        Err(_) => Err(Stopped { turns: ran.turns }),
    }
}

/// The same over an input and outputs in memory. They never fail.
fn run_to_end(alloc: Global, emulator: &mut Emulator) -> Result<Ended, Stopped>
    requires quantum { emulator.old.quantum ≡ empty_schedule.quantum }
    requires fresh { IsFresh emulator.old }
    ensures run { IfOk result (λ ended. EndsSo emulator.old.machine ended.turns ended.finish emulator.new.machine) }
    ensures turns { IfOk result (λ ended. emulator.new.turns ≡ ended.turns) }
    ensures quantum { emulator.new.quantum ≡ emulator.old.quantum }
    ensures keeps { IfOk result (λ ended. KeepsTexts emulator.old emulator.new) }
    ensures over { IfOk result (λ ended. emulator.new.over ≡ no_turn_follows ended.finish) }
    ensures stopped { IfErr result (λ stopped. GoesSoFar emulator.old.machine stopped.turns) }
{
    let mut dev = Devices {
        input: empty_input(alloc),
        out: SureSink::new(alloc),
        err: SureSink::new(alloc),
    };
    run_over(emulator, &mut dev)
}

/// The line on a run that was over so and left this emulator.
fn line_on(
    alloc: Global,
    count: u32,
    ended: Ended,
    emulator: &Emulator,
) -> Result<Option<Bytes>, NoMemory>
    ensures { IfOk result (λ line. line ≡ line_on count ended.turns ended.finish (final_tree emulator.now.machine)) }
{
    match ended.finish {
        Finish::Exited(0) => {
            let tree = emulator.tree()?;
            soak_ends::line_on(alloc, count, ended.turns, &tree)
        }
        Finish::Exited(_) | Finish::Killed(_) | Finish::Budget | Finish::Blocked => Ok(None),
    }
}

/// Runs an emulator of the program that has taken no turn, and makes the line on the run.
fn soak_begun(alloc: Global, count: u32, mut emulator: Emulator) -> Result<SoakRun, Stopped>
    requires machine { emulator.machine ≡ soak_machine count }
    requires quantum { emulator.quantum ≡ empty_schedule.quantum }
    requires fresh { IsFresh emulator }
    requires keeps { KeepsNamed no_names emulator }
    ensures soaked { IfOk result (IsSoakOf count) }
    ensures stopped { IfErr result (λ stopped. StopsSoak count stopped.turns) }
{
    match run_to_end(alloc, &mut emulator) {
        Ok(ended) => line_of_run(alloc, count, ended, emulator),
        Err(stopped) => Err(stopped),
    }
}

/// A run that was over so and left this emulator, with its line.
fn line_of_run(
    alloc: Global,
    count: u32,
    ended: Ended,
    emulator: Emulator,
) -> Result<SoakRun, Stopped>
    requires over { IsSoak count ended.turns ended.finish emulator.machine }
    requires turned { emulator.turns ≡ ended.turns }
    requires last { emulator.over ≡ no_turn_follows ended.finish }
    requires quantum { emulator.quantum ≡ empty_schedule.quantum }
    requires keeps { KeepsNamed no_names emulator }
    ensures soaked { IfOk result (IsSoakOf count) }
    ensures stopped { IfErr result (λ stopped. StopsSoak count stopped.turns) }
{
    match line_on(alloc, count, ended, &emulator) {
        Ok(line) => Ok(SoakRun {
            emulator,
            finish: ended.finish,
            turns: ended.turns,
            line,
        }),
        Err(NoMemory) => Err(Stopped { turns: ended.turns }),
    }
}

/// Runs the soak program for so many numbers: by the path of a run, with the one argument `soak` and no environment, for the budget of
/// words that give none, beside an empty tree, under the schedule of the empty text, and over streams in memory that never fail.
fn soak(alloc: Global, count: u32) -> Result<SoakRun, Stopped>
    requires { IsCount count }
    ensures soaked { IfOk result (IsSoakOf count) }
    ensures stopped { IfErr result (λ stopped. StopsSoak count stopped.turns) }
{
    match begin(alloc, count) {
        Ok(emulator) => soak_begun(alloc, count, emulator),
        Err(_) => Err(Stopped { turns: 0 }),
    }
}

/// Writes the line on a run, where there is one.
fn put_line<O: Sink>(line: &Option<Bytes>, out: &mut O) -> Result<(), DevError>
    ensures line { OnOk result (GainsText (O.written out.old) (O.written out.new) (unwrap_or line.now [])) }
    ensures part { OnErr result (GainsBetween (O.written out.old) (O.written out.new) [] (unwrap_or line.now [])) }
    ensures cause { FailsOnlyIfRose result (O.faults out.old) (O.faults out.new) }
    ensures later { O.faults out.old ≤ O.faults out.new }
{
    match line {
        Some(line) => out.put(line.as_slice()),
        None => Ok(()),
    }
}

/// Tells a run of the soak program that is over.
fn tell<O: Sink>(soaked: SoakRun, out: &mut O) -> Told
    ensures told { TellsSoak soaked result.end result.host (O.written out.old) (O.written out.new) }
    ensures turns { result.turns ≡ soaked.turns }
    ensures cause { LineFailsOnlyIfRose result.end (O.faults out.old) (O.faults out.new) }
    ensures later { O.faults out.old ≤ O.faults out.new }
{
    let SoakRun {
        emulator,
        finish,
        turns,
        line,
    } = soaked;
    match put_line(&line, out) {
        Ok(()) => Told {
            end: End::Soaked(finish),
            turns,
            host: Some(emulator),
        },
        Err(DevError::Failed) => Told {
            end: End::WriteFault,
            turns,
            host: None,
        },
        Err(DevError::NoMemory) => Told {
            end: End::NoMemory,
            turns,
            host: None,
        },
    }
}

/// Runs the soak program for so many numbers, and tells what came of it.
fn soak_count<I: Source, O: Sink, E: Sink>(
    alloc: Global,
    count: u32,
    dev: &mut Devices<I, O, E>,
) -> Told
    requires { IsCount count }
    ensures answer { (loads : ℕ) (store : Stored) → AnswersSoak count
        (seen_of I.left O.written E.written I.faults O.faults E.faults dev.old loads store)
        (seen_of I.left O.written E.written I.faults O.faults E.faults dev.new loads store) result.turns result.end result.host }
    ensures no_host { finish_of result.end ≡ None → result.host ≡ None }
    ensures input { dev.new.input ≡ dev.old.input }
    ensures faults { (loads : ℕ) (store : Stored) → TellsFaults result.end
        (seen_of I.left O.written E.written I.faults O.faults E.faults dev.old loads store)
        (seen_of I.left O.written E.written I.faults O.faults E.faults dev.new loads store) }
    ensures later { NoCountFell I.faults O.faults E.faults dev.old dev.new }
{
    match soak(alloc, count) {
        Ok(soaked) => tell(soaked, &mut dev.out),
        Err(stopped) => Told {
            end: End::NoMemory,
            turns: stopped.turns,
            host: None,
        },
    }
}

/// Runs the soak program as the words ask for it. The input is not looked at, and no file is.
pub(crate) fn soak_words<I: Source, O: Sink, E: Sink>(
    alloc: Global,
    words: &[String],
    dev: &mut Devices<I, O, E>,
) -> Told
    ensures answer { (loads : ℕ) (store : Stored) → AnswersSoakReading (read_soak (texts words.now))
        (seen_of I.left O.written E.written I.faults O.faults E.faults dev.old loads store)
        (seen_of I.left O.written E.written I.faults O.faults E.faults dev.new loads store) result.turns result.end result.host }
    ensures no_host { finish_of result.end ≡ None → result.host ≡ None }
    ensures input { dev.new.input ≡ dev.old.input }
    ensures faults { (loads : ℕ) (store : Stored) → TellsFaults result.end
        (seen_of I.left O.written E.written I.faults O.faults E.faults dev.old loads store)
        (seen_of I.left O.written E.written I.faults O.faults E.faults dev.new loads store) }
    ensures later { NoCountFell I.faults O.faults E.faults dev.old dev.new }
{
    match read_soak(words) {
        Ok(count) => soak_count(alloc, count, dev),
        Err(word) => Told {
            end: refuse(alloc, Refusal::Usage { word }, &mut dev.err),
            turns: 0,
            host: None,
        },
    }
}
