//! How a session ends, and with which status.
ghost use Rattle.std.specs.Prelude.{◌≡◌};
ghost use Rattle.session_files.specs.Answers.{status_of, status_of_finish};
ghost use Rattle.session_files.specs.Ends.{end_of, end_of_error, end_of_stop};

use crate::refusal::Refusal;
use crate::save::SaveError;
use kernel_core::{Finish, Stop};

/// How a session ends. (The kinds of ends are this project's own; exit and signal are those of wait(2).)
#[derive(Clone, Copy, PartialEq, Eq)]
pub enum End {
    /// The guest exited with this status, the low 8 bits of what it gave.
    Exited(u8),
    /// A signal killed the guest: its o32 number, 1 to 128.
    Killed(u8),
    /// The budget's turns are done.
    Budget,
    /// A call of the guest waits, and nothing can come any more that would end its wait.
    Blocked,
    /// The soak program was run, and its run was over so.
    Soaked(Finish),
    /// A journal was replayed to the end of its run, which was over so.
    Replayed(Finish),
    /// Nothing was run.
    Refused(Refusal),
    /// Journal and machine differ first in this turn of a replay: what the journal has there, and what the machine has.
    Diverged { turn: u64, wanted: u64, found: u64 },
    /// The store's count of faulty loads rose, or the input's count of faults.
    ReadFault,
    /// A count of faults of standard output or standard error, or the store's count of faulty writes, rose.
    WriteFault,
    /// Memory ran out.
    NoMemory,
}

/// The status of a run that is over so.
fn status_of_finish(finish: Finish) -> u8
    ensures { result ≡ status_of_finish finish }
{
    match finish {
        Finish::Exited(status) => status,
        Finish::Killed(signal) => signal.saturating_add(128),
        Finish::Budget => 124,
        Finish::Blocked => 123,
    }
}

impl From<Finish> for End {
    ghost from_gives = { λ finish end. end ≡ end_of finish };

    fn from(finish: Finish) -> End {
        match finish {
            Finish::Exited(status) => End::Exited(status),
            Finish::Killed(signal) => End::Killed(signal),
            Finish::Budget => End::Budget,
            Finish::Blocked => End::Blocked,
        }
    }
}

impl From<Stop> for End {
    ghost from_gives = { λ stop end. end ≡ end_of_stop stop };

    fn from(stop: Stop) -> End {
        match stop {
            Stop::WriteFault => End::WriteFault,
            Stop::ReadFault => End::ReadFault,
            Stop::NoMemory => End::NoMemory,
        }
    }
}

impl From<SaveError> for End {
    ghost from_gives = { λ error end. end ≡ end_of_error error };

    fn from(error: SaveError) -> End {
        match error {
            SaveError::Failed => End::WriteFault,
            SaveError::NoImage | SaveError::NoMemory => End::NoMemory,
        }
    }
}

impl End {
    /// The exit status of the emulator: that of the guest, the lesser of 255 and 128 plus the signal's number, 124 where
    /// the budget is done, 123 where the guest is blocked, 125 where nothing was run, 120 where a replay differs from its journal, 122 and 119 for
    /// faults, and 121 for want of memory. A replay has the status of its run, and so has a soak. The numbers are this project's own, after those of a shell and of
    /// timeout(1).
    pub fn status(self) -> u8
        ensures status { result ≡ status_of self }
    {
        match self {
            End::Exited(status) => status,
            End::Killed(signal) => signal.saturating_add(128),
            End::Budget => 124,
            End::Blocked => 123,
            End::Soaked(finish) | End::Replayed(finish) => status_of_finish(finish),
            End::Refused(_) => 125,
            End::Diverged { .. } => 120,
            End::ReadFault => 122,
            End::WriteFault => 119,
            End::NoMemory => 121,
        }
    }
}
