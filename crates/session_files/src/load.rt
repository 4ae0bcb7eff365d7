//! The files that a session loads whole.
ghost use Rattle.std.specs.Prelude.{◌≡◌, ◌≤◌, Some};
ghost use Rattle.session_files.specs.Steps.{number_of, limit_of, IsLoaded, LoadsFile, ReasonOnlyIfRose};
ghost use Rattle.stored_files.specs.Stored.{stored_of};

use crate::not_run::NotRun;
use outside::Store;
use std::alloc::Global;

/// A file that a session loads. (Its number in a refusal, 1 to 4, and its greatest length in bytes are this project's own.)
#[derive(Clone, Copy)]
pub enum SessionFile {
    /// The program.
    Program,
    /// The image.
    Image,
    /// The schedule.
    Schedule,
    /// The journal of a replay.
    Journal,
}

impl SessionFile {
    /// The number by which a refusal names it.
    fn number(self) -> u8
        ensures { result ≡ number_of self }
    {
        match self {
            SessionFile::Program => 1,
            SessionFile::Image => 2,
            SessionFile::Schedule => 3,
            SessionFile::Journal => 4,
        }
    }

    /// Its greatest length: 64 MiB for the program, 640 MiB for the image, 16 MiB for the schedule, 256 MiB for
    /// the journal.
    fn limit(self) -> usize
        ensures { result ≡ limit_of self }
    {
        match self {
            SessionFile::Program => 67_108_864,
            SessionFile::Image => 671_088_640,
            SessionFile::Schedule => 16_777_216,
            SessionFile::Journal => 268_435_456,
        }
    }
}

/// The bytes of the file of this name, which a session loads as `file`, under that file's limit. (The form is this project's own.)
///
/// # Errors
///
/// Refused where the store has no such file, or a longer one than the limit; a read fault where the store fails, and want of memory.
pub fn load_file<F: Store>(
    alloc: Global,
    file: SessionFile,
    name: &str,
    files: &mut F,
) -> Result<Vec<u8>, NotRun>
    ensures bytes { IsLoaded (F.files files.old) file name.now result }
    ensures loads { LoadsFile file (Some name.now) result
        (stored_of F.files F.created F.loads F.turned_away F.write_faults files.old)
        (stored_of F.files F.created F.loads F.turned_away F.write_faults files.new) }
    ensures cause { ReasonOnlyIfRose result (F.load_faults files.old) (F.load_faults files.new) }
    ensures later { F.load_faults files.old ≤ F.load_faults files.new }
{
    let mut bytes = Vec::new(alloc);
    files
        .load(name, file.limit(), &mut bytes)
        .map_err(|error| NotRun::of_load(file.number(), error))?;
    Ok(bytes)
}
