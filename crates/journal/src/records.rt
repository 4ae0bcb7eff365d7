//! The records of a journal: reading one, and all of them up to the end.
ghost use Rattle.std.specs.Prelude.{◌≡◌, ◌-◌, ◌==◌, [], ◌∷◌, MatchOption, if◌then◌else◌};
ghost use Rattle.kernel_core.specs.declared.record.Record.{Record};
ghost use Rattle.journal.specs.Reading.{words_at, changes_at, end_at, finish_of, breaks_finish, record_at, ended, records_at};
ghost use Rattle.journal.specs.Form.{end_kind, none_before, front_of};
ghost use Rattle.journal.specs.Meaning.{fault_in};
ghost use Rattle.journal.specs.Seen.{record_seen};
ghost use Rattle.journal.specs.inside.Reads.{ReadsBy, fault_of};

use crate::effects::{Effects, effects_at};
use crate::fields::{place, u8_at, u32_at};
use crate::refusal::BadField;
use crate::turns::{END, Front, IDLE, NONE_BEFORE, front_at, has_ended_turn};
use kernel_core::Finish;
use std::marker::Model;

/// What a journal keeps of a turn, as it stands in the journal's bytes: a `kernel_core::Record` whose
/// effects are read there.
#[derive(Drop)]
pub struct ReadRecord<'a> {
    /// The turn, counted from 1; for an end the turns that are done.
    pub turn: u64,
    /// 1 before an instruction, 2 a call, 3 a turn without an instruction, 4 the end.
    pub kind: u8,
    /// pc, $v0, and $a0 to $a3, for kind 2 as they stand before the call; zeros for an end.
    pub words: [u32; 6],
    /// What was done, in order.
    pub effects: Effects<'a>,
    /// How the run is over: Some exactly for kind 4.
    pub finish: Option<Finish>,
}

/// The pc, $v0, and $a0 to $a3.
#[tactic(auto, unfolding(crate::specs::Reading::words_at))]
fn words_at(file: u64, rest: &[u8]) -> Result<([u32; 6], &[u8]), BadField>
    ensures { ReadsBy (λ x. (x.0, x.1.now)) result (words_at file rest.now) }
{
    let (pc, rest) = u32_at(file, rest)?;
    let (v0, rest) = u32_at(file, rest)?;
    let (a0, rest) = u32_at(file, rest)?;
    let (a1, rest) = u32_at(file, rest)?;
    let (a2, rest) = u32_at(file, rest)?;
    let (a3, rest) = u32_at(file, rest)?;
    Ok(([pc, v0, a0, a1, a2, a3], rest))
}

/// The words and the effects of a record.
#[tactic(auto, unfolding(crate::specs::Reading::changes_at))]
fn changes_at(front: Front, file: u64, rest: &[u8]) -> Result<(ReadRecord<'_>, &[u8]), BadField>
    ensures { ReadsBy (λ x. (record_seen x.0, x.1.now)) result (changes_at front file rest.now) }
{
    let (words, rest) = words_at(file, rest)?;
    let at = place(file, rest);
    let (count, rest) = u32_at(file, rest)?;
    if front.kind == IDLE && count != 0 {
        return Err(BadField { at });
    }
    let (effects, rest) = effects_at(count, file, rest)?;
    let entry = ReadRecord {
        turn: front.turn,
        kind: front.kind,
        words,
        effects,
        finish: None,
    };
    Ok((entry, rest))
}

/// How a run is over, by its number and its value.
fn finish_of(number: u8, value: u8) -> Finish
    ensures { result ≡ finish_of number value }
{
    match number {
        1 => Finish::Exited(value),
        2 => Finish::Killed(value),
        3 => Finish::Budget,
        _ => Finish::Blocked,
    }
}

/// Whether a number is no finish, or a signal ended a run in a turn that has a call or no
/// instruction.
fn breaks_finish(before: Front, turn: u64, number: u8) -> bool
    ensures { result ≡ breaks_finish before turn number }
{
    number < 1 || number > 4 || (number == 2 && has_ended_turn(before, turn))
}

/// How the run is over.
#[tactic(auto, unfolding(crate::specs::Reading::end_at))]
fn end_at(
    before: Front,
    front: Front,
    file: u64,
    rest: &[u8],
) -> Result<(ReadRecord<'_>, &[u8]), BadField>
    ensures { ReadsBy (λ x. (record_seen x.0, x.1.now)) result (end_at before front file rest.now) }
{
    let at = place(file, rest);
    let (number, rest) = u8_at(file, rest)?;
    if breaks_finish(before, front.turn, number) {
        return Err(BadField { at });
    }
    let at = place(file, rest);
    let (value, rest) = u8_at(file, rest)?;
    if number > 2 && value != 0 {
        return Err(BadField { at });
    }
    let entry = ReadRecord {
        turn: front.turn,
        kind: front.kind,
        words: [0; 6],
        effects: Effects::none(rest),
        finish: Some(finish_of(number, value)),
    };
    Ok((entry, rest))
}

/// A record behind another.
#[tactic(auto, unfolding(crate::specs::Reading::record_at))]
fn record_at(before: Front, file: u64, rest: &[u8]) -> Result<(ReadRecord<'_>, &[u8]), BadField>
    ensures { ReadsBy (λ x. (record_seen x.0, x.1.now)) result (record_at before file rest.now) }
{
    let (front, rest) = front_at(before, file, rest)?;
    if front.kind == END {
        end_at(before, front, file, rest)
    } else {
        changes_at(front, file, rest)
    }
}

/// The turn and the kind of a record.
fn front_of(entry: &ReadRecord<'_>) -> Front
    ensures { result ≡ front_of (record_seen entry.now) }
{
    Front {
        turn: entry.turn,
        kind: entry.kind,
    }
}

/// How many records may stand behind one of this kind, where so many may with it.
fn more_behind(more: u64, kind: u8) -> u64
    ensures { result ≡ (if kind == end_kind then 0 else more - 1) }
{
    if kind == END {
        0
    } else {
        more.saturating_sub(1)
    }
}

/// That nothing stands behind the end.
fn check_end(file: u64, rest: &[u8]) -> Result<(), BadField>
    ensures { (entry : Record) → fault_of result ≡ fault_in (ended entry file rest.now) }
{
    if rest.is_empty() {
        Ok(())
    } else {
        Err(BadField {
            at: place(file, rest),
        })
    }
}

/// That these are records, the end is the last, and nothing stands behind it. A record takes a byte at
/// least, so there are no more of them than bytes in the file.
fn check_records(file: u64, rest: &[u8]) -> Result<(), BadField>
    ensures { fault_of result ≡ fault_in (records_at file none_before file rest.now) }
{
    let mut before = NONE_BEFORE;
    let mut left = rest;
    for _ in 0..file {
        let (entry, after) = record_at(before, file, left)?;
        before = front_of(&entry);
        left = after;
        if before.kind == END {
            return check_end(file, left);
        }
    }
    Err(BadField { at: file })
}

/// All records.
pub(crate) fn records_at(file: u64, rest: &[u8]) -> Result<Records<'_>, BadField>
    ensures { ReadsBy (λ x. x) result (records_at file none_before file rest.now) }
{
    check_records(file, rest)?;
    Ok(Records {
        more: file,
        before: NONE_BEFORE,
        file,
        rest,
    })
}

/// The records of a journal that are left: a list, which is read from the journal's bytes one by one and
/// takes no memory of its own.
#[derive(Drop)]
pub struct Records<'a> {
    more: u64,
    before: Front,
    file: u64,
    rest: &'a [u8],
}

impl<'a> Model for Records<'a> {
    ghost use Rattle.std.specs.Prelude.{List};
    ghost use Rattle.kernel_core.specs.declared.record.Record.{Record};

    ghost Value = { List Record };

    ghost use Rattle.journal.specs.inside.Left.{records_left, AreLeft};

    ghost view = { records_left };

    ghost invariant = { AreLeft };
}

impl<'a> Records<'a> {
    /// The same records once more. Costs a constant.
    pub fn iter(&self) -> Records<'a>
        ensures { result ≡ self.now }
    {
        Records {
            more: self.more,
            before: self.before,
            file: self.file,
            rest: self.rest,
        }
    }

    /// Takes the first record that is left; `None` exactly where none is. Costs by the number of its
    /// effects.
    pub fn next(&mut self) -> Option<ReadRecord<'a>>
        ensures { MatchOption result ((self.old ≡ []) × (self.new ≡ [])) (λ entry. self.old ≡ record_seen entry ∷ self.new) }
    {
        if self.more == 0 {
            return None;
        }
        match record_at(self.before, self.file, self.rest) {
            Ok((entry, rest)) => {
                self.more = more_behind(self.more, entry.kind);
                self.before = front_of(&entry);
                self.rest = rest;
                Some(entry)
            }
            Err(_) => None,
        }
    }
}
