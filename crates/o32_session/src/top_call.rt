//! The top call: from words and devices to an answer.
ghost use Rattle.std.specs.Prelude.{ℕ, List, ◌≡◌, ◌<◌, ◌≤◌, ◌⊎◌, Some, None, is_some, option_map};
ghost use Rattle.outside.specs.Count.{Rose};
ghost use Rattle.outside.specs.Streams.{NoCountFell};
ghost use Rattle.journal.specs.Form.{IsFinish};
ghost use Rattle.o32_runner.specs.Passed.{first_log};
ghost use Rattle.session_files.specs.Answers.{IsRefusal, finish_of, status_of};
ghost use Rattle.session_files.specs.Inputs.{Names, names_of};
ghost use Rattle.o32_session.specs.Asked.{Run};
ghost use Rattle.session_files.specs.Faults.{TellsFaults};
ghost use Rattle.o32_session.specs.LeftJournal.{LeavesJournal};
ghost use Rattle.o32_runner.specs.Runs.{IsFresh};
ghost use Rattle.o32_session.specs.inside.Runs.{AnswersRun};
ghost use Rattle.session_replay.specs.Replayed.{AnswersReplayWords, AsksForReplay, EndsAsReplay};
ghost use Rattle.o32_session.specs.Soaked.{AnswersSession, AnswersSoakReading, AsksForSoak, EndsAsSoak};
ghost use Rattle.o32_session.specs.Session.{Answers, AnswersWords, AsksForRun, EndsAsRun};
ghost use Rattle.session_files.specs.Seen.{seen_of};
ghost use Rattle.stored_files.specs.Stored.{Stored, stored_of};
ghost use Rattle.o32_runner.specs.Texts.{AllDiffer};
ghost use Rattle.o32_session.specs.SavedFile.{SavesWords};
ghost use Rattle.turn_records.specs.Keeping.{first_records};
ghost use Rattle.o32_session.specs.Words.{ReplayCommand, SoakCommand, command_of, read_soak, texts, word_at};

use crate::answer::Answer;
use crate::prepare::{Ready, prepare};
use crate::run::run_named;
use crate::save::save_final;
use crate::soak::soak_words;
use kernel_core::Finish;
use o32_runner::{Emulator, Names as TextNames, Texts};
use outside::{Devices, Sink, Source, Store};
use session_files::{End, end_without_run};
use session_replay::replay_words;
use session_words::{Command, command_of, word_of};
use std::alloc::Global;

/// The answer of a session that ends so after these turns, and hands this emulator out.
fn answer_of(end: End, turns: u64, host: Option<Emulator>) -> Answer
    ensures status { result.status ≡ status_of end }
    ensures end { result.end ≡ end }
    ensures turns { result.turns ≡ turns }
    ensures host { result.host ≡ host }
{
    Answer {
        status: end.status(),
        end,
        turns,
        host,
    }
}

/// One run of the emulator: reads the words after its own name, loads the program, the image and the schedule that
/// they name from `files`, runs the program over the devices, writes its trace, its native log and its journal where the
/// words name files for them, and saves the final tree of files where they name one for that. Or the replay of a run, from the program and the
/// journal that the words name, with no kernel behind it. Or a run of the soak program, which looks at no file and takes no input.
/// Every list of words, every file and every budget has an answer.
///
/// What the program writes to standard output goes to `dev.out`, and the line of a refusal or of a divergence to `dev.err`. The
/// line on a run of the soak program goes to `dev.out`. The
/// answers, their statuses and the lines are this project's own.
pub fn session<F: Store, I: Source, O: Sink, E: Sink>(
    alloc: Global,
    words: &[String],
    files: &mut F,
    dev: &mut Devices<I, O, E>,
) -> Answer
    // What the words, the files, the input and the machine say, of a replay the words, the program and the journal alone, and of a soak the words alone: each refusal and its line; the run's end, turns, outputs and what it leaves of the
    // input, the files of the trace, of the native log, of the journal and of the final tree, and the emulator in its last state; the moment of the run at an early stop. Each says
    // what became of the whole store.
    ensures answer { AnswersSession (texts words.now)
        (seen_of I.left O.written E.written I.faults O.faults E.faults dev.old (F.load_faults files.old) (stored_of F.files F.created F.loads F.turned_away F.write_faults files.old))
        (seen_of I.left O.written E.written I.faults O.faults E.faults dev.new (F.load_faults files.new) (stored_of F.files F.created F.loads F.turned_away F.write_faults files.new))
        result.turns result.end result.host }
    ensures status { result.status ≡ status_of result.end }
    ensures no_host { finish_of result.end ≡ None → result.host ≡ None }

    // A refusal leaves the input as it was, and so does every replay and every soak.
    ensures input { IsRefusal result.end → dev.new.input ≡ dev.old.input }
    ensures untaken { command_of (texts words.now) ≡ ReplayCommand → dev.new.input ≡ dev.old.input }
    ensures unread { command_of (texts words.now) ≡ SoakCommand → dev.new.input ≡ dev.old.input }

    // The same of the files alone: after each finish those of `--trace`, `--native` and `--journal` are there, that of `--save` holds the image of a tree, and no other changes.
    ensures saved { SavesWords (texts words.now) result.end (F.files files.old) (F.files files.new) }

    // A run that is over leaves its journal in the file of `--journal`, whole and in the form that a replay asks for.
    ensures journal { (run : AsksForRun (texts words.now) (F.files files.old)) (left name : List ℕ) (finish : Finish) → I.left dev.old.input ≡ Some left
        → (names_of (texts words.now) run.line).journal ≡ Some name → finish_of result.end ≡ Some finish
        → LeavesJournal (texts words.now) (F.files files.old) run left result.turns finish name (F.files files.new) }

    // Where a run is asked for, the input tells what is left of it, and no device failed, the answer is the run's end, unless memory ran out.
    ensures complete { (run : AsksForRun (texts words.now) (F.files files.old)) (left : List ℕ) → I.left dev.old.input ≡ Some left
        → (Rose (F.load_faults files.old) (F.load_faults files.new) → ⊥)
        → (Rose (I.faults dev.old.input) (I.faults dev.new.input) → ⊥)
        → (Rose (F.write_faults files.old) (F.write_faults files.new) → ⊥)
        → (Rose (O.faults dev.old.out) (O.faults dev.new.out) → ⊥)
        → (Rose (E.faults dev.old.err) (E.faults dev.new.err) → ⊥)
        → (result.end ≡ End.NoMemory) ⊎ EndsAsRun (texts words.now) (F.files files.old) run left result.turns result.end }

    // The same of a replay, of any input: the answer is how the replay is over.
    ensures replays { (replay : AsksForReplay (texts words.now) (F.files files.old))
        → (Rose (F.load_faults files.old) (F.load_faults files.new) → ⊥)
        → (Rose (O.faults dev.old.out) (O.faults dev.new.out) → ⊥)
        → (Rose (E.faults dev.old.err) (E.faults dev.new.err) → ⊥)
        → (result.end ≡ End.NoMemory) ⊎ EndsAsReplay (texts words.now) (F.files files.old) replay result.turns result.end }

    // The same of a run of the soak program.
    ensures soaks { (count : ℕ) → AsksForSoak (texts words.now) count
        → (Rose (O.faults dev.old.out) (O.faults dev.new.out) → ⊥)
        → (result.end ≡ End.NoMemory) ⊎ EndsAsSoak count result.turns result.end }

    // A count of faults rose where a fault is told, and nowhere else: want of memory is told for no device that failed.
    ensures faults { TellsFaults result.end
        (seen_of I.left O.written E.written I.faults O.faults E.faults dev.old (F.load_faults files.old) (stored_of F.files F.created F.loads F.turned_away F.write_faults files.old))
        (seen_of I.left O.written E.written I.faults O.faults E.faults dev.new (F.load_faults files.new) (stored_of F.files F.created F.loads F.turned_away F.write_faults files.new)) }

    // No count falls.
    ensures later { NoCountFell I.faults O.faults E.faults dev.old dev.new }
    ensures loads_later { F.load_faults files.old ≤ F.load_faults files.new }
    ensures writes_later { F.write_faults files.old ≤ F.write_faults files.new }
{
    answer_command(alloc, words, files, dev)
}

/// The answer, by the command that the words begin with.
fn answer_command<F: Store, I: Source, O: Sink, E: Sink>(
    alloc: Global,
    words: &[String],
    files: &mut F,
    dev: &mut Devices<I, O, E>,
) -> Answer
    ensures answer { AnswersSession (texts words.now)
        (seen_of I.left O.written E.written I.faults O.faults E.faults dev.old (F.load_faults files.old) (stored_of F.files F.created F.loads F.turned_away F.write_faults files.old))
        (seen_of I.left O.written E.written I.faults O.faults E.faults dev.new (F.load_faults files.new) (stored_of F.files F.created F.loads F.turned_away F.write_faults files.new))
        result.turns result.end result.host }
    ensures status { result.status ≡ status_of result.end }
    ensures no_host { finish_of result.end ≡ None → result.host ≡ None }
    ensures input { IsRefusal result.end → dev.new.input ≡ dev.old.input }
    ensures untaken { command_of (texts words.now) ≡ ReplayCommand → dev.new.input ≡ dev.old.input }
    ensures unread { command_of (texts words.now) ≡ SoakCommand → dev.new.input ≡ dev.old.input }
    ensures faults { TellsFaults result.end
        (seen_of I.left O.written E.written I.faults O.faults E.faults dev.old (F.load_faults files.old) (stored_of F.files F.created F.loads F.turned_away F.write_faults files.old))
        (seen_of I.left O.written E.written I.faults O.faults E.faults dev.new (F.load_faults files.new) (stored_of F.files F.created F.loads F.turned_away F.write_faults files.new)) }
    ensures later { NoCountFell I.faults O.faults E.faults dev.old dev.new }
    ensures loads_later { F.load_faults files.old ≤ F.load_faults files.new }
    ensures writes_later { F.write_faults files.old ≤ F.write_faults files.new }
{
    match command_of(words) {
        Command::Run => answer_words(alloc, words, files, dev),
        Command::Replay => answer_replay(alloc, words, files, dev),
        Command::Soak => answer_soak(alloc, words, dev),
    }
}

/// The answer to the words of a replay.
fn answer_replay<F: Store, I: Source, O: Sink, E: Sink>(
    alloc: Global,
    words: &[String],
    files: &mut F,
    dev: &mut Devices<I, O, E>,
) -> Answer
    ensures answer { AnswersReplayWords (texts words.now)
        (seen_of I.left O.written E.written I.faults O.faults E.faults dev.old (F.load_faults files.old) (stored_of F.files F.created F.loads F.turned_away F.write_faults files.old))
        (seen_of I.left O.written E.written I.faults O.faults E.faults dev.new (F.load_faults files.new) (stored_of F.files F.created F.loads F.turned_away F.write_faults files.new))
        result.turns result.end }
    ensures status { result.status ≡ status_of result.end }
    ensures no_host { result.host ≡ None }
    ensures input { dev.new.input ≡ dev.old.input }
    ensures faults { TellsFaults result.end
        (seen_of I.left O.written E.written I.faults O.faults E.faults dev.old (F.load_faults files.old) (stored_of F.files F.created F.loads F.turned_away F.write_faults files.old))
        (seen_of I.left O.written E.written I.faults O.faults E.faults dev.new (F.load_faults files.new) (stored_of F.files F.created F.loads F.turned_away F.write_faults files.new)) }
    ensures later { NoCountFell I.faults O.faults E.faults dev.old dev.new }
    ensures loads_later { F.load_faults files.old ≤ F.load_faults files.new }
    ensures writes_later { F.write_faults files.old ≤ F.write_faults files.new }
{
    let replied = replay_words(alloc, words, files, dev);
    answer_of(replied.end, replied.turns, None)
}

/// The answer to the words of a soak.
fn answer_soak<I: Source, O: Sink, E: Sink>(
    alloc: Global,
    words: &[String],
    dev: &mut Devices<I, O, E>,
) -> Answer
    ensures answer { (loads : ℕ) (store : Stored) → AnswersSoakReading (read_soak (texts words.now))
        (seen_of I.left O.written E.written I.faults O.faults E.faults dev.old loads store)
        (seen_of I.left O.written E.written I.faults O.faults E.faults dev.new loads store) result.turns result.end result.host }
    ensures status { result.status ≡ status_of result.end }
    ensures no_host { finish_of result.end ≡ None → result.host ≡ None }
    ensures input { dev.new.input ≡ dev.old.input }
    ensures faults { (loads : ℕ) (store : Stored) → TellsFaults result.end
        (seen_of I.left O.written E.written I.faults O.faults E.faults dev.old loads store)
        (seen_of I.left O.written E.written I.faults O.faults E.faults dev.new loads store) }
    ensures later { NoCountFell I.faults O.faults E.faults dev.old dev.new }
{
    let told = soak_words(alloc, words, dev);
    answer_of(told.end, told.turns, told.host)
}

/// The answer, by what the words, the files and the run say.
fn answer_words<F: Store, I: Source, O: Sink, E: Sink>(
    alloc: Global,
    words: &[String],
    files: &mut F,
    dev: &mut Devices<I, O, E>,
) -> Answer
    ensures answer { AnswersWords (texts words.now)
        (seen_of I.left O.written E.written I.faults O.faults E.faults dev.old (F.load_faults files.old) (stored_of F.files F.created F.loads F.turned_away F.write_faults files.old))
        (seen_of I.left O.written E.written I.faults O.faults E.faults dev.new (F.load_faults files.new) (stored_of F.files F.created F.loads F.turned_away F.write_faults files.new))
        result.turns result.end result.host }
    ensures status { result.status ≡ status_of result.end }
    ensures no_host { finish_of result.end ≡ None → result.host ≡ None }
    ensures input { IsRefusal result.end → dev.new.input ≡ dev.old.input }
    ensures faults { TellsFaults result.end
        (seen_of I.left O.written E.written I.faults O.faults E.faults dev.old (F.load_faults files.old) (stored_of F.files F.created F.loads F.turned_away F.write_faults files.old))
        (seen_of I.left O.written E.written I.faults O.faults E.faults dev.new (F.load_faults files.new) (stored_of F.files F.created F.loads F.turned_away F.write_faults files.new)) }
    ensures later { NoCountFell I.faults O.faults E.faults dev.old dev.new }
    ensures loads_later { F.load_faults files.old ≤ F.load_faults files.new }
    ensures writes_later { F.write_faults files.old ≤ F.write_faults files.new }
{
    match prepare(alloc, words, files) {
        Ok(ready) => run_ready(alloc, words, ready, files, dev),
        Err(reason) => answer_of(end_without_run(alloc, reason, &mut dev.err), 0, None),
    }
}

/// Runs an emulator that is ready, and saves the final tree.
fn run_ready<F: Store, I: Source, O: Sink, E: Sink>(
    alloc: Global,
    words: &[String],
    ready: Ready,
    files: &mut F,
    dev: &mut Devices<I, O, E>,
) -> Answer
    requires fresh { IsFresh ready.emulator }
    requires log { ready.emulator.native ≡ first_log (is_some ready.native) }
    requires records { ready.emulator.records ≡ first_records (is_some ready.journal) }
    requires some { 0 < ready.budget }
    requires bounded { ready.budget ≤ 1_000_000_000_000 }
    requires differ { AllDiffer (option_map (word_at (texts words.now)) ready.trace) (option_map (word_at (texts words.now)) ready.native) (option_map (word_at (texts words.now)) ready.journal) }
    ensures run { (names : Names) → names.save ≡ option_map (word_at (texts words.now)) ready.save
        → names.trace ≡ option_map (word_at (texts words.now)) ready.trace
        → names.native ≡ option_map (word_at (texts words.now)) ready.native
        → names.journal ≡ option_map (word_at (texts words.now)) ready.journal → Answers (Run ready.emulator.quantum ready.emulator.machine ready.budget ready.front.items) names
        (seen_of I.left O.written E.written I.faults O.faults E.faults dev.old (F.load_faults files.old) (stored_of F.files F.created F.loads F.turned_away F.write_faults files.old))
        (seen_of I.left O.written E.written I.faults O.faults E.faults dev.new (F.load_faults files.new) (stored_of F.files F.created F.loads F.turned_away F.write_faults files.new))
        result.turns result.end result.host }
    ensures status { result.status ≡ status_of result.end }
    ensures no_host { finish_of result.end ≡ None → result.host ≡ None }
    ensures faults { TellsFaults result.end
        (seen_of I.left O.written E.written I.faults O.faults E.faults dev.old (F.load_faults files.old) (stored_of F.files F.created F.loads F.turned_away F.write_faults files.old))
        (seen_of I.left O.written E.written I.faults O.faults E.faults dev.new (F.load_faults files.new) (stored_of F.files F.created F.loads F.turned_away F.write_faults files.new)) }
    ensures later { NoCountFell I.faults O.faults E.faults dev.old dev.new }
    ensures loads { F.load_faults files.new ≡ F.load_faults files.old }
    ensures writes_later { F.write_faults files.old ≤ F.write_faults files.new }
{
    let Ready {
        mut emulator,
        budget,
        trace,
        native,
        journal,
        front,
        save,
    } = ready;
    let names = TextNames {
        trace: word_of(words, trace),
        native: word_of(words, native),
        journal: word_of(words, journal),
    };
    let texts = Texts {
        names,
        front: front.as_slice(),
    };
    let ran = run_named(alloc, &mut emulator, budget, texts, files, dev);
    match ran.end {
        Ok(finish) => answer_run(alloc, words, save, emulator, finish, files),
        Err(stop) => answer_of(End::from(stop), ran.turns, None),
    }
}

/// The answer of a run that is over so, once its final tree is saved.
fn answer_run<F: Store>(
    alloc: Global,
    words: &[String],
    save: Option<usize>,
    emulator: Emulator,
    finish: Finish,
    files: &mut F,
) -> Answer
    ensures answer { AnswersRun (option_map (word_at (texts words.now)) save) emulator finish result
        (stored_of F.files F.created F.loads F.turned_away F.write_faults files.old)
        (stored_of F.files F.created F.loads F.turned_away F.write_faults files.new) }
    ensures small { IsFinish finish }
    ensures status { result.status ≡ status_of result.end }
    ensures loads { F.load_faults files.new ≡ F.load_faults files.old }
    ensures writes_later { F.write_faults files.old ≤ F.write_faults files.new }
{
    let turns = emulator.turns();
    match save_final(alloc, words, save, &emulator, files) {
        Ok(()) => answer_of(End::from(finish), turns, Some(emulator)),
        Err(error) => answer_of(End::from(error), turns, None),
    }
}
