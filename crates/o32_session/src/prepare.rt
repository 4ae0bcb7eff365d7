//! The steps before a run: words, the files that they name, and the first machine.
ghost use Rattle.std.specs.Prelude.{All, ◌≡◌, ◌≤◌, ◌<◌, length, drop, is_some, IfOk, IfErr};
ghost use Rattle.elf_image.specs.Loading as plans;
ghost use Rattle.kernel_core.specs.ValidTree as trees;
ghost use Rattle.journal.specs.Form.{AreTexts};
ghost use Rattle.journal.specs.Text.{head_text};
ghost use Rattle.o32_runner.specs.Passed.{first_log};
ghost use Rattle.o32_session.specs.Words.{IsPlain, texts, read_words};
ghost use Rattle.session_words.specs.Read.{line_seen};
ghost use Rattle.schedule.specs.Ranges.{IsGivenSchedule};
ghost use Rattle.o32_session.specs.Asked.{asked_of_schedule, Run};
ghost use Rattle.session_files.specs.Inputs.{names_of};
ghost use Rattle.o32_runner.specs.Runs.{IsFresh};
ghost use Rattle.o32_session.specs.inside.Prepared.{IsStartReason, IsPrepared, IsPreparedLine};
ghost use Rattle.session_files.specs.Steps.{LoadsFiles, LoadsReading, ReasonOnlyIfRose};
ghost use Rattle.stored_files.specs.Stored.{stored_of};
ghost use Rattle.turn_records.specs.Keeping.{first_records};

use elf_image::Plan;
use journal::head;
use kernel_core::{NoMemory, Tree};
use o32_runner::Emulator;
use outside::Store;
use schedule::Schedule;
use session_files::{Inputs, NotRun, load_inputs, stack_chance};
use session_words::{RunLine, read};
use start_stack::build;
use std::alloc::Global;

/// An emulator that is ready to run.
#[derive(Drop)]
pub(crate) struct Ready {
    /// The emulator of the program at its first instruction.
    pub emulator: Emulator,
    /// The most turns that it may take.
    pub budget: u64,
    /// The index of the name of the file of the trace, where one is written.
    pub trace: Option<usize>,
    /// The index of the name of the file of the native log, where one is written. The emulator keeps a log then, and no other does.
    pub native: Option<usize>,
    /// The index of the name of the file of the journal, where one is written. The emulator keeps one then, and no other does.
    pub journal: Option<usize>,
    /// What a journal of the run begins with.
    pub front: Vec<u8>,
    /// The index of the name of the file that the final tree is saved to, where it is saved.
    pub save: Option<usize>,
}

/// What the journal of a run with these arguments, this environment and these bytes of chance begins with.
fn journal_front(
    alloc: Global,
    args: &[String],
    environment: &[String],
    chance: [u8; 16],
) -> Result<Vec<u8>, NoMemory>
    requires { AreTexts (texts args.now) (texts environment.now) }
    ensures { IfOk result (λ front. front.items ≡ head_text (texts args.now) (texts environment.now) chance) }
{
    let mut front = Vec::new(alloc);
    head(args, environment, chance, &mut front)?;
    Ok(front)
}

/// The emulator of a plan with these arguments, beside this tree of files, under this schedule.
pub(crate) fn machine_of_plan(
    alloc: Global,
    args: &[String],
    line: RunLine,
    plan: &Plan,
    tree: Tree,
    schedule: Schedule,
) -> Result<Ready, NotRun>
    requires named { 0 < length args.now }
    requires args { All IsPlain (texts args.now) }
    requires environment { All IsPlain (texts line.environment.items) }
    requires plan { plans.IsValidPlan plan.now }
    requires tree { trees.IsValidTree tree }
    requires schedule { IsGivenSchedule schedule }
    requires some { 0 < line.budget }
    requires bounded { line.budget ≤ 1_000_000_000_000 }
    ensures ready { IfOk result (λ ready. asked_of_schedule (texts args.now) (line_seen line) plan.now tree schedule ≡ Run ready.emulator.quantum ready.emulator.machine ready.budget ready.front.items) }
    ensures fresh { IfOk result (λ ready. IsFresh ready.emulator) }
    ensures some { IfOk result (λ ready. 0 < ready.budget) }
    ensures bounded { IfOk result (λ ready. ready.budget ≤ 1_000_000_000_000) }
    ensures log { IfOk result (λ ready. ready.emulator.native ≡ first_log (is_some ready.native)) }
    ensures records { IfOk result (λ ready. ready.emulator.records ≡ first_records (is_some ready.journal)) }
    ensures trace { IfOk result (λ ready. ready.trace ≡ line.trace) }
    ensures native { IfOk result (λ ready. ready.native ≡ line.native) }
    ensures journal { IfOk result (λ ready. ready.journal ≡ line.journal) }
    ensures save { IfOk result (λ ready. ready.save ≡ line.save) }
    ensures reason { IfErr result (IsStartReason (asked_of_schedule (texts args.now) (line_seen line) plan.now tree schedule)) }
{
    let environment = line.environment.as_slice();
    let chance = stack_chance(schedule.random.as_slice());
    let start = build(alloc, plan, args, environment, chance)?;
    let front = journal_front(alloc, args, environment, chance)?;
    let (log, journal) = (line.native.is_some(), line.journal.is_some());
    Ok(Ready {
        emulator: Emulator::new(alloc, start, tree, schedule, log, journal)?,
        budget: line.budget,
        trace: line.trace,
        native: line.native,
        journal: line.journal,
        front,
        save: line.save,
    })
}

/// What the words ask for, with the program, the image and the schedule loaded and the first machine made.
pub(crate) fn prepare<F: Store>(
    alloc: Global,
    words: &[String],
    files: &mut F,
) -> Result<Ready, NotRun>
    ensures prepared { IsPrepared (texts words.now) (read_words (texts words.now)) (F.files files.old) result }
    ensures fresh { IfOk result (λ ready. IsFresh ready.emulator) }
    ensures log { IfOk result (λ ready. ready.emulator.native ≡ first_log (is_some ready.native)) }
    ensures records { IfOk result (λ ready. ready.emulator.records ≡ first_records (is_some ready.journal)) }
    ensures some { IfOk result (λ ready. 0 < ready.budget) }
    ensures bounded { IfOk result (λ ready. ready.budget ≤ 1_000_000_000_000) }
    ensures loads { LoadsReading (texts words.now) (read_words (texts words.now)) result
        (stored_of F.files F.created F.loads F.turned_away F.write_faults files.old)
        (stored_of F.files F.created F.loads F.turned_away F.write_faults files.new) }
    ensures cause { ReasonOnlyIfRose result (F.load_faults files.old) (F.load_faults files.new) }
    ensures later { F.load_faults files.old ≤ F.load_faults files.new }
{
    let line = read(alloc, words)?;
    prepare_line(alloc, words, line, files)
}

/// The same, where the words are in order.
fn prepare_line<F: Store>(
    alloc: Global,
    words: &[String],
    line: RunLine,
    files: &mut F,
) -> Result<Ready, NotRun>
    requires program { line.program < length words.now }
    requires words { All IsPlain (drop line.program (texts words.now)) }
    requires environment { All IsPlain (texts line.environment.items) }
    requires some { 0 < line.budget }
    requires bounded { line.budget ≤ 1_000_000_000_000 }
    ensures prepared { IsPreparedLine (texts words.now) (line_seen line) (F.files files.old) result }
    ensures fresh { IfOk result (λ ready. IsFresh ready.emulator) }
    ensures log { IfOk result (λ ready. ready.emulator.native ≡ first_log (is_some ready.native)) }
    ensures records { IfOk result (λ ready. ready.emulator.records ≡ first_records (is_some ready.journal)) }
    ensures some { IfOk result (λ ready. 0 < ready.budget) }
    ensures bounded { IfOk result (λ ready. ready.budget ≤ 1_000_000_000_000) }
    ensures loads { LoadsFiles (names_of (texts words.now) (line_seen line)) result
        (stored_of F.files F.created F.loads F.turned_away F.write_faults files.old)
        (stored_of F.files F.created F.loads F.turned_away F.write_faults files.new) }
    ensures cause { ReasonOnlyIfRose result (F.load_faults files.old) (F.load_faults files.new) }
    ensures later { F.load_faults files.old ≤ F.load_faults files.new }
{
    let inputs = load_inputs(alloc, words, &line, files)?;
    let Inputs {
        plan,
        tree,
        schedule,
    } = inputs;
    machine_of_plan(
        alloc,
        arguments(words, line.program),
        line,
        &plan,
        tree,
        schedule,
    )
}

/// The words from an index on.
fn arguments(words: &[String], from: usize) -> &[String]
    requires { from < length words.now }
    ensures words { texts result.now ≡ drop from (texts words.now) }
    ensures named { 0 < length result.now }
{
    &words[from..]
}
