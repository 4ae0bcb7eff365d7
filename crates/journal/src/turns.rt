//! The turns and kinds of records, in their order.
ghost use Rattle.std.specs.Prelude.{◌≡◌};
ghost use Rattle.journal.specs.Form.{follows_in_turn, has_ended_turn};
ghost use Rattle.journal.specs.Reading.{front_at, breaks_turn, breaks_kind};
ghost use Rattle.journal.specs.inside.Reads.{ReadsBy};

use crate::fields::{place, u8_at, u64_at};
use crate::refusal::BadField;

/// The greatest turn, 10^12 (this project's own).
const GREATEST_TURN: u64 = 1_000_000_000_000;

/// A call.
pub(crate) const CALL: u8 = 2;

/// A turn without an instruction.
pub(crate) const IDLE: u8 = 3;

/// The end of the run.
pub(crate) const END: u8 = 4;

/// The turn and the kind of a record; zeros where there is none.
#[derive(Clone, Copy)]
pub(crate) struct Front {
    pub(crate) turn: u64,
    pub(crate) kind: u8,
}

/// Front the first record.
pub(crate) const NONE_BEFORE: Front = Front { turn: 0, kind: 0 };

/// Whether a kind may stand behind another in one turn.
fn follows_in_turn(before: u8, kind: u8) -> bool
    ensures { result ≡ follows_in_turn before kind }
{
    before < kind && !(before == CALL && kind == IDLE)
}

/// Whether a turn has a call, or no instruction.
pub(crate) fn has_ended_turn(before: Front, turn: u64) -> bool
    ensures { result ≡ has_ended_turn before turn }
{
    before.turn == turn && (before.kind == CALL || before.kind == IDLE)
}

/// Whether a turn falls, or is too great.
fn breaks_turn(before: Front, turn: u64) -> bool
    ensures { result ≡ breaks_turn before turn }
{
    turn < before.turn || turn > GREATEST_TURN
}

/// Whether a kind is none, or comes out of order within its turn.
fn breaks_kind(before: Front, turn: u64, kind: u8) -> bool
    ensures { result ≡ breaks_kind before turn kind }
{
    kind < 1 || kind > END || (turn == before.turn && !follows_in_turn(before.kind, kind))
}

/// The turn and the kind of the record behind another.
#[tactic(auto, unfolding(crate::specs::Reading::front_at))]
pub(crate) fn front_at(before: Front, file: u64, rest: &[u8]) -> Result<(Front, &[u8]), BadField>
    ensures { ReadsBy (λ x. (x.0, x.1.now)) result (front_at before file rest.now) }
{
    let turn_at = place(file, rest);
    let (turn, rest) = u64_at(file, rest)?;
    if breaks_turn(before, turn) {
        return Err(BadField { at: turn_at });
    }
    let kind_at = place(file, rest);
    let (kind, rest) = u8_at(file, rest)?;
    if turn == 0 && kind != END {
        return Err(BadField { at: turn_at });
    }
    if breaks_kind(before, turn, kind) {
        return Err(BadField { at: kind_at });
    }
    Ok((Front { turn, kind }, rest))
}
