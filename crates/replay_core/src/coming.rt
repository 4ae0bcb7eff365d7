//! The records of a journal that are left while its run is repeated.
ghost use Rattle.std.specs.Prelude.{◌≡◌, ◌+◌, ◌<◌, ◌^◌, ◌∷◌, [], All, IfSome, MatchOption};
ghost use Rattle.journal.specs.Form.{IsRecord};
ghost use Rattle.journal.specs.Seen.{record_seen};
ghost use Rattle.replay_core.specs.Replay.{comes, ends_killed, is_excused, is_killing};
ghost use Rattle.replay_core.specs.inside.Parts.{Meets, without_call};
ghost use Rattle.replay_core.specs.inside.Stretch.{IsFree, unrecorded};

use crate::difference::{Difference, Halt};
use journal::{ReadRecord, Records};
use kernel_core::Finish;
use mips_exec::Stepped;
use std::marker::Model;

/// The kind of a record of what was done before an instruction.
pub(crate) const BEFORE: u8 = 1;

/// The kind of a record of a call.
pub(crate) const CALL: u8 = 2;

/// The kind of a record of a turn without an instruction.
pub(crate) const IDLE: u8 = 3;

/// The kind of the end.
const END: u8 = 4;

/// The records that are left, of which the first is read ahead: a list.
#[derive(Drop)]
pub(crate) struct Coming<'a> {
    next: Option<ReadRecord<'a>>,
    left: Records<'a>,
}

impl<'a> Model for Coming<'a> {
    ghost use Rattle.std.specs.Prelude.{List};
    ghost use Rattle.kernel_core.specs.declared.record.Record.{Record};

    ghost Value = { List Record };

    ghost use Rattle.replay_core.specs.inside.Left.{records_left, AreFormed};

    ghost view = { records_left };

    ghost invariant = { AreFormed };
}

impl<'a> Coming<'a> {
    /// All of these records.
    pub(crate) fn new(records: &Records<'a>) -> Coming<'a>
        requires { All IsRecord records.now }
        ensures { result ≡ records.now }
    {
        let mut left = records.iter();
        let next = left.next();
        Coming { next, left }
    }

    /// Whether the next record is of this turn and of this kind.
    pub(crate) fn comes(&self, turn: u64, kind: u8) -> bool
        ensures { result ≡ comes turn kind self.now }
    {
        match &self.next {
            Some(entry) => entry.turn == turn && entry.kind == kind,
            None => false,
        }
    }

    /// Whether a signal ended the run in this turn.
    pub(crate) fn ends_killed(&self, turn: u64) -> bool
        ensures { result ≡ ends_killed turn self.now }
    {
        match &self.next {
            Some(entry) => entry.turn == turn && entry.kind == END && is_killing(entry.finish),
            None => false,
        }
    }

    /// Whether the journal goes on as after a fault in this turn: with a record before the next
    /// instruction, or with the end of the run in this turn or the next.
    fn is_excused(&self, turn: u64) -> bool
        requires { turn + 1 < 2 ^ 64 }
        ensures { result ≡ is_excused turn self.now }
    {
        self.comes(turn + 1, BEFORE) || self.comes(turn + 1, END) || self.comes(turn, END)
    }

    /// That an instruction of this turn that made no call, but may have met a fault, goes with the
    /// records.
    pub(crate) fn check_without_call(&self, turn: u64, faulted: bool) -> Result<(), Halt>
        requires { turn + 1 < 2 ^ 64 }
        ensures { Meets (without_call turn faulted self.now) result }
    {
        if self.comes(turn, CALL) {
            return Err(Halt::Differs(Difference {
                wanted: 1,
                found: 0,
            }));
        }
        if faulted && !self.is_excused(turn) {
            return Err(Halt::Differs(Difference {
                wanted: 0,
                found: 2,
            }));
        }
        Ok(())
    }

    /// How many quiet turns there can be behind so many before one more, up to the turn `last`: the next
    /// record comes behind all of these. None where it comes in the next turn.
    pub(crate) fn most_quiet(&self, turns: u64, last: u64) -> Option<u64>
        requires { turns < last }
        ensures few { IfSome result (λ most. turns + most < last) }
        ensures free { IfSome result (λ most. IsFree (turns + most + 1) self.now) }
    {
        match &self.next {
            None => Some(last - turns - 1),
            Some(entry) if entry.turn <= turns + 1 => None,
            Some(entry) => Some((entry.turn - 1).min(last) - turns - 1),
        }
    }

    /// That what the instruction of this turn came to goes with the records, where this turn has none.
    pub(crate) fn check_unrecorded(&self, turn: u64, came: Stepped) -> Result<(), Halt>
        requires { turn + 1 < 2 ^ 64 }
        ensures { Meets (unrecorded turn came self.now) result }
    {
        match came {
            Stepped::Next => Ok(()),
            Stepped::Syscall => Err(Halt::Differs(Difference {
                wanted: 0,
                found: 1,
            })),
            Stepped::Fault { .. } => {
                if self.is_excused(turn) {
                    return Ok(());
                }
                Err(Halt::Differs(Difference {
                    wanted: 0,
                    found: 2,
                }))
            }
        }
    }

    /// Takes the next record.
    pub(crate) fn take(&mut self) -> Option<ReadRecord<'a>>
        ensures taken { MatchOption result ((self.old ≡ []) × (self.new ≡ [])) (λ entry. self.old ≡ record_seen entry ∷ self.new) }
        ensures formed { IfSome result (λ entry. IsRecord (record_seen entry)) }
    {
        match self.next.take() {
            Some(entry) => {
                self.next = self.left.next();
                Some(entry)
            }
            None => None,
        }
    }
}

/// Whether a signal ended a run.
fn is_killing(finish: Option<Finish>) -> bool
    ensures { result ≡ is_killing finish }
{
    matches!(finish, Some(Finish::Killed(_)))
}
