//! A finished run is repeated from its journal.
ghost use Rattle.std.specs.Prelude.{◌≡◌, ℕ, List, None};
ghost use Rattle.elf_image.specs.declared.load_plan.Plan.{Plan};
ghost use Rattle.journal.specs.Text.{Kept};
ghost use Rattle.journal_laws.specs.Replaying.{EndsWith, IsRepeated, IsStartOf, replay_from};
ghost use Rattle.kernel_core.specs.declared.finish.Finish.{Finish};
ghost use Rattle.kernel_core.specs.declared.record.Record.{Record};
ghost use Rattle.kernel_model.specs.Always.{AreSignals};
ghost use Rattle.o32_turns.specs.Machine.{Machine};
ghost use Rattle.o32_turns.specs.Runs.{reached};
ghost use Rattle.replay_core.specs.Answered.{EndsBy};
ghost use Rattle.replay_core.specs.Replay.{replayed};
ghost use Rattle.replay_core.specs.Whole.{last_of, replay_of};
ghost use Rattle.turn_records.specs.Run.{AreRecordsOfRun, IsJournalOfRun};

/// A run that is over so after k turns is repeated by the replay of its records: it takes these turns, meets no
/// difference and sends what the run sent, and the last of the records is the end with these turns and this finish.
pub fn a_replay_is_the_run()
    ensures repeated { (quantum budget k : ℕ) (machine : Machine) (left : List ℕ) (finish : Finish) (records : List Record)
        → machine.wait ≡ None → AreSignals machine.kernel.signals
        → AreRecordsOfRun quantum machine left budget k finish records
        → IsRepeated (reached quantum machine left k) k (replayed (replay_from machine records) k) }
    ensures last { (quantum budget k : ℕ) (machine : Machine) (left : List ℕ) (finish : Finish) (records : List Record)
        → AreRecordsOfRun quantum machine left budget k finish records → EndsWith records k finish }
{}

/// The whole replay of the journal of a run, whose program started with these arguments, environment and random bytes, is
/// the run: it takes all turns up to the journal's end and meets no difference, that end has the run's turns and finish,
/// and what it sends is what the run sent.
pub fn a_journal_repeats_its_run()
    ensures ends { (quantum budget k : ℕ) (machine : Machine) (left : List ℕ) (finish : Finish)
        (plan : Plan) (args env : List (List ℕ)) (random : List ℕ) (journal : Kept)
        → IsStartOf plan args env random machine
        → IsJournalOfRun quantum machine left budget k finish args env random journal
        → EndsBy (replay_of plan journal) (last_of journal.records).turn (last_of journal.records).finish k finish }
    ensures sent { (quantum budget k : ℕ) (machine : Machine) (left : List ℕ) (finish : Finish)
        (plan : Plan) (args env : List (List ℕ)) (random : List ℕ) (journal : Kept)
        → IsStartOf plan args env random machine
        → IsJournalOfRun quantum machine left budget k finish args env random journal
        → (replay_of plan journal).sent ≡ (reached quantum machine left k).sent }
{}
