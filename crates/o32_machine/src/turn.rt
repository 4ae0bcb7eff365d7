//! What a turn comes to.
ghost use Rattle.std.specs.Prelude.{◌≡◌};
ghost use Rattle.o32_machine.specs.Answered.{is_end, turns_of};

use kernel_core::Finish;

/// What a turn comes to. (Turns are this project's own.)
#[derive(Clone, Copy)]
pub enum Turn {
    /// The process goes on, or waits.
    Went,
    /// There is no further turn: the process exited or was killed, or it is blocked.
    Ended(Finish),
}

impl Turn {
    /// Whether no further turn follows.
    pub(crate) fn is_end(self) -> bool
        ensures { result ≡ is_end self }
    {
        match self {
            Turn::Went => false,
            Turn::Ended(_) => true,
        }
    }

    /// How many turns it counts for: an attempt that finds the process blocked counts for none.
    pub(crate) fn count(self) -> u64
        ensures { result ≡ turns_of self }
    {
        match self {
            Turn::Ended(Finish::Blocked) => 0,
            Turn::Went | Turn::Ended(_) => 1,
        }
    }
}
