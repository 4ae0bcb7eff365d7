//! The schedule of a run, and the bytes of chance that its first stack takes.
ghost use Rattle.std.specs.Prelude.{◌≡◌, ◌≤◌, ◌<◌, length, IfOk, IfErr, Some, option_map};
ghost use Rattle.kernel_model.specs.System.{round};
ghost use Rattle.schedule.specs.Ranges.{IsGivenSchedule};
ghost use Rattle.session_files.specs.Inputs.{empty_schedule};
ghost use Rattle.session_files.specs.Steps.{IsTaken, IsScheduledAs, LoadsFile, ReasonOnlyIfRose};
ghost use Rattle.stored_files.specs.Stored.{stored_of};
ghost use Rattle.session_words.specs.Words.{texts, word_at};
ghost use Rattle.session_files.specs.declared.load.SessionFile.TheVariants as which;

use crate::load::{SessionFile, load_file};
use crate::not_run::NotRun;
use outside::Store;
use schedule::{Schedule, parse};
use session_words::word_at;
use std::alloc::Global;

/// How many bytes of chance the first stack takes. (This project's own.)
const STACK_CHANCE: usize = 16;

/// The schedule of the empty text: a turn takes 1,000 nanoseconds, the clock begins at the epoch, the streams are no terminal, chance is
/// zeros, and no signal comes from outside. (Schedules are this project's own.)
///
/// # Errors
///
/// Fails where memory runs out, and for no other reason.
#[tactic(auto, unfolding(schedule::specs::Grammar::meaning_of))]
pub fn empty_schedule(alloc: Global) -> Result<Schedule, NotRun>
    ensures empty { IfOk result (λ schedule. schedule ≡ empty_schedule) }
    ensures given { IfOk result IsGivenSchedule }
    ensures reason { IfErr result (λ reason. reason ≡ NotRun.NoMemory) }
{
    match parse(alloc, b"") {
        Ok(schedule) => Ok(schedule),
        Err(_) => Err(NotRun::NoMemory),
    }
}

/// The schedule of a text.
fn schedule_of_text(alloc: Global, text: &[u8]) -> Result<Schedule, NotRun>
    ensures taken { IsTaken text.now result }
    ensures given { IfOk result IsGivenSchedule }
{
    Ok(parse(alloc, text)?)
}

/// The schedule of the file of this name.
fn load_schedule<F: Store>(alloc: Global, name: &str, files: &mut F) -> Result<Schedule, NotRun>
    ensures scheduled { IsScheduledAs (F.files files.old) (Some name.now) result }
    ensures given { IfOk result IsGivenSchedule }
    ensures loads { LoadsFile which.Schedule (Some name.now) result
        (stored_of F.files F.created F.loads F.turned_away F.write_faults files.old)
        (stored_of F.files F.created F.loads F.turned_away F.write_faults files.new) }
    ensures cause { ReasonOnlyIfRose result (F.load_faults files.old) (F.load_faults files.new) }
    ensures later { F.load_faults files.old ≤ F.load_faults files.new }
{
    let text = load_file(alloc, SessionFile::Schedule, name, files)?;
    schedule_of_text(alloc, &text)
}

/// The schedule of a run: that of the file whose name is at index `schedule` of the words, or without one that of the
/// empty text.
pub(crate) fn run_schedule<F: Store>(
    alloc: Global,
    words: &[String],
    schedule: Option<usize>,
    files: &mut F,
) -> Result<Schedule, NotRun>
    ensures scheduled { IsScheduledAs (F.files files.old) (option_map (word_at (texts words.now)) schedule) result }
    ensures given { IfOk result IsGivenSchedule }
    ensures loads { LoadsFile which.Schedule (option_map (word_at (texts words.now)) schedule) result
        (stored_of F.files F.created F.loads F.turned_away F.write_faults files.old)
        (stored_of F.files F.created F.loads F.turned_away F.write_faults files.new) }
    ensures cause { ReasonOnlyIfRose result (F.load_faults files.old) (F.load_faults files.new) }
    ensures later { F.load_faults files.old ≤ F.load_faults files.new }
{
    match schedule {
        Some(at) => load_schedule(alloc, word_at(words, at), files),
        None => empty_schedule(alloc),
    }
}

/// The sixteen bytes that the first stack takes: the first ones of these bytes of chance, at least one, which are used round and round.
/// (Which bytes these are is this project's own; that there are sixteen is AT_RANDOM of getauxval(3).)
pub fn stack_chance(chance: &[u8]) -> [u8; STACK_CHANCE]
    requires { 0 < length chance.now }
    ensures { result ≡ round chance.now 0 16 }
{
    let mut bytes = [0; STACK_CHANCE];
    fill_round(chance, &mut bytes);
    bytes
}

/// Fills a buffer with bytes of a list, round and round.
fn fill_round(bytes: &[u8], buffer: &mut [u8])
    requires { 0 < length bytes.now }
    ensures { buffer.new ≡ round bytes.now 0 (length buffer.old) }
{
    for (i, byte) in buffer.iter_mut().enumerate() {
        *byte = bytes[i % bytes.len()];
    }
}
