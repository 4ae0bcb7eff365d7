//! What is kept of turns.
ghost use Rattle.std.specs.Prelude.{◌≡◌};
ghost use Rattle.native_log.specs.NativeLog as native_log;
ghost use Rattle.turn_records.specs.Keeping as records;

use native_log::NativeLog;
use o32_model::Log;
use turn_records::{Registers, TurnRecords};

/// What is kept of turns, for the native log and for the journal.
#[derive(Drop)]
pub(crate) struct Kept {
    /// What the kernel was told and asked in the last turns that were taken at once.
    pub native: NativeLog,
    /// What a journal keeps of the last turn.
    pub records: TurnRecords,
    /// The registers before the last part of a turn that was looked at for the journal.
    pub was: Registers,
}

impl Kept {
    /// Nothing is kept any more, and what is kept next is that of a new turn. The room is kept.
    pub(crate) fn clear(&mut self)
        ensures entries { self.new.native.entries ≡ native_log.emptied self.old.native.entries }
        ensures told { self.new.native.told ≡ self.old.native.told }
        ensures records { self.new.records ≡ records.emptied self.old.records }
    {
        self.native.clear();
        self.records.clear();
    }

    /// What the calls of a part of a turn keep: the native calls where a native log is kept, and the effects where a journal is.
    pub(crate) fn part(&self) -> Log
        ensures native { result.native ≡ native_log.emptied self.now.native.entries }
        ensures effects { result.effects ≡ records.no_effects self.now.records }
    {
        Log {
            native: self.native.part(),
            effects: self.records.part(),
        }
    }
}
