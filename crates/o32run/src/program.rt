//! What the program does between its arguments and its end, over any files and streams.
ghost use Rattle.std.specs.Prelude.{◌≡◌};
ghost use Rattle.std.specs.Process.{exit_status};
ghost use Rattle.session_files.specs.Seen.{seen_of};
ghost use Rattle.o32_session.specs.Session.{stored_of};
ghost use Rattle.o32_session.specs.Words.{texts};
ghost use Rattle.o32run.specs.Program.{EndsAs};

use crate::words::read_words;
use o32_session::{End, session};
use outside::{Devices, Sink, Source, Store};
use std::alloc::Global;
use std::process::{ExitCode, Termination};
use std::rt::Env;

/// The program has ended with this status. Only [`run_program`] makes it, so `main` cannot end otherwise.
#[derive(Clone, Copy, Debug, PartialEq, Eq)]
pub(crate) struct Ended {
    status: u8,
}

impl Ended {
    /// The status that the process ends with.
    pub(crate) fn status(self) -> u8
        ensures status { result ≡ self.status }
    {
        self.status
    }
}

impl Termination for Ended {
    fn report<R: Eprint>(self, _rt: &R) -> ExitCode
        ensures status { exit_status result ≡ self.status }
    {
        ExitCode::from(self.status)
    }
}

/// The whole program over these arguments, files and streams. Where there is no memory for its words, it ends as a
/// session does for want of memory.
pub(crate) fn run_program<R: Env, F: Store, I: Source, O: Sink, E: Sink>(
    alloc: Global,
    rt: &R,
    files: &mut F,
    streams: &mut Devices<I, O, E>,
) -> Ended {
    match read_words(alloc, rt) {
        Ok(words) => run_words(alloc, &words, files, streams),
        Err(_) => Ended {
            status: End::NoMemory.status(),
        },
    }
}

/// The session of these words: the program ends with the status of its answer.
fn run_words<F: Store, I: Source, O: Sink, E: Sink>(
    alloc: Global,
    words: &[String],
    files: &mut F,
    streams: &mut Devices<I, O, E>,
) -> Ended
    ensures session { EndsAs (texts words.now)
        (seen_of I.left O.written E.written I.faults O.faults E.faults streams.old (F.load_faults files.old) (stored_of F.files F.created F.loads F.turned_away F.write_faults files.old))
        (seen_of I.left O.written E.written I.faults O.faults E.faults streams.new (F.load_faults files.new) (stored_of F.files F.created F.loads F.turned_away F.write_faults files.new))
        result.status }
{
    let answer = session(alloc, words, files, streams);
    Ended {
        status: answer.status,
    }
}
