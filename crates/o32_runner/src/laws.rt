//! The form of a run's journal.
ghost use Rattle.std.specs.Prelude.{◌≤◌, ℕ, List};
ghost use Rattle.journal.specs.Form.{AreRecords, IsFinish, greatest_turn, none_before};
ghost use Rattle.kernel_core.specs.declared.finish.Finish.{Finish};
ghost use Rattle.kernel_core.specs.declared.record.Record.{Record};
ghost use Rattle.o32_turns.specs.Machine.{Machine};
ghost use Rattle.turn_records.specs.Run.{AreRecordsOfRun};

/// The records of a run of at most 10^12 turns, with its end, have the form and the order that a journal asks for.
pub fn records_of_a_run_are_in_order()
    ensures { (quantum budget k : ℕ) (machine : Machine) (left : List ℕ) (finish : Finish) (records : List Record)
        → k ≤ greatest_turn → IsFinish finish
        → AreRecordsOfRun quantum machine left budget k finish records → AreRecords none_before records }
{}
