//! The replay of a run, from the program and the journal that the words name.
ghost use Rattle.std.specs.Prelude.{ℕ, ◌≡◌, ◌≤◌, ◌⊎◌};
ghost use Rattle.outside.specs.Streams.{NoCountFell};
ghost use Rattle.elf_image.specs.Loading.{IsValidPlan};
ghost use Rattle.journal.specs.Reading.{reading_of};
ghost use Rattle.replay_core.specs.Answered.{written};
ghost use Rattle.stored_files.specs.Stored.{Stored, stored_of};
ghost use Rattle.session_files.specs.Faults.{TellsFaults};
ghost use Rattle.session_words.specs.Words.{texts};
ghost use Rattle.session_files.specs.Unrun.{DoesNothing};
ghost use Rattle.session_files.specs.Seen.{seen_of};
ghost use Rattle.session_replay.specs.Replayed.{AnswersReplay, AnswersReplayReading, AnswersReplayWords, asked_of_reading};
ghost use Rattle.session_words.specs.Words as Words;
ghost use Rattle.session_files.specs.Steps.{ReasonOnlyIfRose};
ghost use Rattle.session_replay.specs.inside.Repeated.{EndFailsOnlyIfRose, EndsReplay, IsLoadedFor, LoadsBoth, ReplayFailsOnlyIfRose, Replays};
ghost use Rattle.session_words.specs.Read.{replay_line_seen};
ghost use Rattle.session_files.specs.declared.end.End.TheVariants as ends;

use elf_image::Plan;
use journal::parse;
use outside::{Devices, Sink, Source, Store};
use replay_core::{ReplayAnswer, ReplayEnd, replay};
use session_files::{
    Divergence, End, NotRun, Refusal, SessionFile, diverge, end_without_run, load_file, load_plan,
    refuse,
};
use session_words::{ReplayLine, read_replay};
use std::alloc::Global;

/// What a replay begins with.
#[derive(Drop)]
pub(crate) struct Loaded {
    /// The plan of the program.
    pub plan: Plan,
    /// The bytes of the journal's file.
    pub bytes: Vec<u8>,
}

/// How a replay ended. (Its parts are this project's own.)
#[derive(Clone, Copy)]
pub struct Replied {
    /// The end of the session.
    pub end: End,
    /// The turns that were finished, 0 where nothing was replayed.
    pub turns: u64,
}

/// The program's plan and the journal's bytes, loaded in this order.
fn load_both<F: Store>(alloc: Global, line: ReplayLine<'_>, files: &mut F) -> Result<Loaded, NotRun>
    ensures loaded { IsLoadedFor (replay_line_seen line.entry) (F.files files.old) result }
    ensures loads { LoadsBoth (replay_line_seen line.entry) result
        (stored_of F.files F.created F.loads F.turned_away F.write_faults files.old)
        (stored_of F.files F.created F.loads F.turned_away F.write_faults files.new) }
    ensures cause { ReasonOnlyIfRose result (F.load_faults files.old) (F.load_faults files.new) }
    ensures later { F.load_faults files.old ≤ F.load_faults files.new }
{
    let plan = load_plan(alloc, line.program, files)?;
    let bytes = load_file(alloc, SessionFile::Journal, line.journal, files)?;
    Ok(Loaded { plan, bytes })
}

/// Replays the journal that was loaded.
fn replay_loaded<O: Sink, E: Sink>(
    alloc: Global,
    loaded: &Loaded,
    out: &mut O,
    err: &mut E,
) -> Result<ReplayAnswer, NotRun>
    requires { IsValidPlan loaded.now.plan }
    ensures replays { Replays loaded.now.plan (reading_of loaded.now.bytes.items) result
        (written O.written E.written out.old err.old) (written O.written E.written out.new err.new) }
    ensures cause { ReplayFailsOnlyIfRose result (O.faults out.old) (O.faults out.new) (E.faults err.old) (E.faults err.new) }
{
    let journal = parse(alloc, &loaded.bytes)?;
    Ok(replay(alloc, &loaded.plan, &journal, out, err))
}

/// The end of a session whose replay came to this: a divergence is told by its line, and so are words that are too long.
fn end_of_replay<E: Sink>(alloc: Global, end: ReplayEnd, err: &mut E) -> End
    ensures line { EndsReplay end result (E.written err.old) (E.written err.new) }
    ensures cause { EndFailsOnlyIfRose end result (E.faults err.old) (E.faults err.new) }
    ensures later { E.faults err.old ≤ E.faults err.new }
{
    match end {
        ReplayEnd::Finished(finish) => End::Replayed(finish),
        ReplayEnd::Diverged {
            turn,
            wanted,
            found,
        } => {
            let divergence = Divergence {
                turn,
                wanted,
                found,
            };
            diverge(alloc, divergence, err)
        }
        ReplayEnd::Start => refuse(alloc, Refusal::Start, err),
        ReplayEnd::WriteFault => End::WriteFault,
        ReplayEnd::NoMemory => End::NoMemory,
    }
}

/// Replays what was loaded, and tells what came of it.
fn reply_loaded<I: Source, O: Sink, E: Sink>(
    alloc: Global,
    loaded: &Loaded,
    dev: &mut Devices<I, O, E>,
) -> Replied
    requires { IsValidPlan loaded.now.plan }
    ensures answer { (loads : ℕ) (store : Stored)
        → ((result.end ≡ ends.NoMemory)
        × DoesNothing (seen_of I.left O.written E.written I.faults O.faults E.faults dev.old loads store)
        (seen_of I.left O.written E.written I.faults O.faults E.faults dev.new loads store) result.turns)
        ⊎ AnswersReplay (asked_of_reading loaded.now.plan (reading_of loaded.now.bytes.items))
        (seen_of I.left O.written E.written I.faults O.faults E.faults dev.old loads store)
        (seen_of I.left O.written E.written I.faults O.faults E.faults dev.new loads store) result.turns result.end }
    ensures input { dev.new.input ≡ dev.old.input }
    ensures faults { (loads : ℕ) (store : Stored) → TellsFaults result.end
        (seen_of I.left O.written E.written I.faults O.faults E.faults dev.old loads store)
        (seen_of I.left O.written E.written I.faults O.faults E.faults dev.new loads store) }
    ensures later { NoCountFell I.faults O.faults E.faults dev.old dev.new }
{
    match replay_loaded(alloc, loaded, &mut dev.out, &mut dev.err) {
        Ok(answer) => Replied {
            end: end_of_replay(alloc, answer.end, &mut dev.err),
            turns: answer.turns,
        },
        Err(reason) => Replied {
            end: end_without_run(alloc, reason, &mut dev.err),
            turns: 0,
        },
    }
}

/// Replays what a line asks for, where the words are in order.
fn reply_line<F: Store, I: Source, O: Sink, E: Sink>(
    alloc: Global,
    line: ReplayLine<'_>,
    files: &mut F,
    dev: &mut Devices<I, O, E>,
) -> Replied
    ensures answer { AnswersReplayReading (Words.AsksReplay (replay_line_seen line.entry))
        (seen_of I.left O.written E.written I.faults O.faults E.faults dev.old (F.load_faults files.old) (stored_of F.files F.created F.loads F.turned_away F.write_faults files.old))
        (seen_of I.left O.written E.written I.faults O.faults E.faults dev.new (F.load_faults files.new) (stored_of F.files F.created F.loads F.turned_away F.write_faults files.new))
        result.turns result.end }
    ensures input { dev.new.input ≡ dev.old.input }
    ensures faults { TellsFaults result.end
        (seen_of I.left O.written E.written I.faults O.faults E.faults dev.old (F.load_faults files.old) (stored_of F.files F.created F.loads F.turned_away F.write_faults files.old))
        (seen_of I.left O.written E.written I.faults O.faults E.faults dev.new (F.load_faults files.new) (stored_of F.files F.created F.loads F.turned_away F.write_faults files.new)) }
    ensures later { NoCountFell I.faults O.faults E.faults dev.old dev.new }
    ensures loads_later { F.load_faults files.old ≤ F.load_faults files.new }
    ensures writes { F.write_faults files.new ≡ F.write_faults files.old }
{
    match load_both(alloc, line, files) {
        Ok(loaded) => reply_loaded(alloc, &loaded, dev),
        Err(reason) => Replied {
            end: end_without_run(alloc, reason, &mut dev.err),
            turns: 0,
        },
    }
}

/// Replays what the words ask for: reads them, loads the program and the journal that they name, repeats the run from both and writes what it
/// sends to both outputs. The input is not looked at, and no file is made or changed.
///
/// The line of a refusal or of a divergence goes to `dev.err`. The form of the words, the lines and the ends are this project's own.
pub fn replay_words<F: Store, I: Source, O: Sink, E: Sink>(
    alloc: Global,
    words: &[String],
    files: &mut F,
    dev: &mut Devices<I, O, E>,
) -> Replied
    ensures answer { AnswersReplayWords (texts words.now)
        (seen_of I.left O.written E.written I.faults O.faults E.faults dev.old (F.load_faults files.old) (stored_of F.files F.created F.loads F.turned_away F.write_faults files.old))
        (seen_of I.left O.written E.written I.faults O.faults E.faults dev.new (F.load_faults files.new) (stored_of F.files F.created F.loads F.turned_away F.write_faults files.new))
        result.turns result.end }
    ensures input { dev.new.input ≡ dev.old.input }
    ensures faults { TellsFaults result.end
        (seen_of I.left O.written E.written I.faults O.faults E.faults dev.old (F.load_faults files.old) (stored_of F.files F.created F.loads F.turned_away F.write_faults files.old))
        (seen_of I.left O.written E.written I.faults O.faults E.faults dev.new (F.load_faults files.new) (stored_of F.files F.created F.loads F.turned_away F.write_faults files.new)) }
    ensures later { NoCountFell I.faults O.faults E.faults dev.old dev.new }
    ensures loads_later { F.load_faults files.old ≤ F.load_faults files.new }
    ensures writes { F.write_faults files.new ≡ F.write_faults files.old }
{
    match read_replay(words) {
        Ok(line) => reply_line(alloc, line, files, dev),
        Err(word) => Replied {
            end: refuse(alloc, Refusal::Usage { word }, &mut dev.err),
            turns: 0,
        },
    }
}
