//! A run is repeated from the journal that it left.
ghost use Rattle.std.specs.Prelude.{◌≡◌, ◌≤◌, ◌<◌, ◌⊎◌, ℕ, List, Option, Some, length};
ghost use Rattle.elf_image.specs.Loading.{plan_of};
ghost use Rattle.session_files.specs.Answers.{finish_of};
ghost use Rattle.session_files.specs.Inputs.{journal_file, journal_limit};
ghost use Rattle.session_replay.specs.Replayed.{AsksForReplay, EndsAsReplay, Repeat, RefuseReplay, ReplayAsked, ReplayAsksFor, StopsUnbegun, once_replay_loaded};
ghost use Rattle.o32_session.specs.Session.{Emulated};
ghost use Rattle.session_files.specs.Seen.{Seen, Writes};
ghost use Rattle.o32_session.specs.Soaked.{AnswersSession};
ghost use Rattle.o32_session.specs.Words.{ReplayLine};
ghost use Rattle.session_files.specs.declared.end.End.{End};
ghost use Rattle.session_files.specs.declared.end.End.TheVariants as ends;
ghost use Rattle.session_files.specs.declared.refusal.Refusal.TheVariants as refusals;
ghost use Rattle.outside.specs.Files.{Files};
ghost use Rattle.session_laws.specs.Later.{AreReplayWords, HasBoth, LeftRun, RepeatsRun, run_left, text_left};

use journal::text_is_accepted;

/// What a replay asks for over a store that has the program of a run and the journal that this run left: the replay of
/// that very journal, from that program's plan. A journal that is longer than a replay takes is refused, and nothing else
/// comes of it.
pub fn a_left_journal_is_asked_for()
    ensures asked { (left : LeftRun) (line : ReplayLine) (told : Option Files) (asked : ReplayAsked)
        → HasBoth left line told → length (text_left left) ≤ journal_limit → ReplayAsksFor line told asked
        → asked ≡ Repeat (plan_of left.run.bytes) left.leaves.journal }
    ensures too_long { (left : LeftRun) (line : ReplayLine) (told : Option Files) (asked : ReplayAsked)
        → HasBoth left line told → journal_limit < length (text_left left) → ReplayAsksFor line told asked
        → asked ≡ RefuseReplay (refusals.TooLong journal_file) }
{
    text_is_accepted();
}

/// What a session answers to the words of such a replay. Nothing was begun, where a load failed or memory ran out; or the
/// run is repeated: the answer is the run's finish, with its turns, and on both outputs stands what the run sent. It is
/// never a divergence, and where it stops early it is within the run. Where the run's own session had that finish, it wrote
/// the same. So where no device fails the answer is the run's finish and turns, unless memory ran out.
pub fn a_left_journal_repeats_its_run()
    ensures answer { (left : LeftRun) (words : List (List ℕ)) (line : ReplayLine) (old new : Seen) (turns : ℕ) (end : End) (host : Option Emulated)
        → AreReplayWords words line → HasBoth left line old.store.files → length (text_left left) ≤ journal_limit
        → AnswersSession words old new turns end host
        → StopsUnbegun line old new turns end
        ⊎ RepeatsRun left (once_replay_loaded (Repeat (plan_of left.run.bytes) left.leaves.journal) line old) new turns end }
    ensures complete { (left : LeftRun) (words : List (List ℕ)) (line : ReplayLine) (told : Option Files)
        → AreReplayWords words line → HasBoth left line told → length (text_left left) ≤ journal_limit
        → (asked : AsksForReplay words told) × ((turns : ℕ) (end : End) → EndsAsReplay words told asked turns end
        → (turns ≡ left.turns) × (end ≡ ends.Replayed left.finish)) }
    ensures wrote { (left : LeftRun) (old new : Seen) (end : End) (host : Option Emulated)
        → old.store.files ≡ left.before → old.left ≡ Some left.input → finish_of end ≡ Some left.finish
        → AnswersSession left.words old new left.turns end host
        → Writes old new (run_left left).sent.out (run_left left).sent.err }
{
    text_is_accepted();
}
