//! What getdents(2) of the program comes to, by the native records that were given with room enough.
ghost use Rattle.std.specs.Prelude.{◌≡◌, [], ◌∷◌, IfOk, List, None};
ghost use Rattle.std.specs.List.{flat_map};
ghost use Rattle.bridge_entries.specs.inside.Answers.{IsAnswer, came_by, if_room, narrow};
ghost use Rattle.bridge_entries.specs.inside.Given.{AreListed};
ghost use Rattle.bridge_log.specs.Outcomes.{outcome_of};
ghost use Rattle.kernel_model.specs.ContentRows.{Entry, fitting};
ghost use Rattle.native_calls.specs.Status.{entry_bytes};
ghost use Rattle.o32_model.specs.declared.call_words.CallWords.{CallWords};

use crate::records::Form;
use crate::showing::{Shown, refusal, show_all};
use bridge_log::outcome_of;
use kernel_core::{Errno, NoMemory, Reply};
use o32_model::{CallWords, Outcome};
use std::alloc::Global;

/// What the program's call comes to.
#[derive(Drop)]
pub(crate) struct Answer {
    pub(crate) outcome: Outcome,
    /// The records that go to its buffer.
    pub(crate) bytes: Vec<u8>,
    /// Where the position has to be, where the native call moved it.
    pub(crate) place: Option<u64>,
}

/// What bounds the records of an answer, in bytes.
#[derive(Clone, Copy)]
pub(crate) struct Bounds {
    /// How many are asked for.
    pub(crate) asked: u32,
    /// How many can be stored.
    pub(crate) room: u32,
}

/// The answer by the native records that were given behind a position, within these bounds. Where none was given it is
/// the reply's.
pub(crate) fn answer_to(
    alloc: Global,
    words: &CallWords,
    bounds: Bounds,
    position: u64,
    reply: Reply,
    given: &[u8],
) -> Result<Answer, NoMemory>
    ensures none { IfOk result (λ answer. given.now ≡ [] → (answer.outcome ≡ outcome_of words.now reply)
        × (answer.bytes.items ≡ []) × (answer.place ≡ None)) }
    ensures some { IfOk result (λ answer. (first : Entry) (rest : List Entry) → AreListed position (first ∷ rest)
        → given.now ≡ flat_map entry_bytes (first ∷ rest) → IsAnswer words.now position (came_by bounds.asked bounds.room (first ∷ rest)) answer) }
{
    if given.is_empty() {
        return Ok(without_records(alloc, outcome_of(words, reply), None));
    }
    match refusal(Form::Narrow, bounds.asked as usize, given) {
        Some(error) => Ok(without_records(alloc, Outcome::Error(error), Some(position))),
        None => {
            let answer = with_records(alloc, bounds, position, given)?;
            Ok(answer)
        }
    }
}

/// An answer without records.
fn without_records(alloc: Global, outcome: Outcome, place: Option<u64>) -> Answer
    ensures outcome { result.outcome ≡ outcome }
    ensures bytes { result.bytes.items ≡ [] }
    ensures place { result.place ≡ place }
{
    Answer {
        outcome,
        bytes: Vec::new(alloc),
        place,
    }
}

/// The answer where nothing is wrong with the first record: EFAULT where the records that fit have no room.
fn with_records(
    alloc: Global,
    bounds: Bounds,
    position: u64,
    given: &[u8],
) -> Result<Answer, NoMemory>
    ensures { IfOk result (λ answer. (words : CallWords) (entries : List Entry) → AreListed position entries
        → given.now ≡ flat_map entry_bytes entries
        → IsAnswer words position (if_room bounds.room (fitting narrow bounds.asked entries)) answer) }
{
    let Shown {
        bytes,
        cookie,
        left: _,
    } = show_all(alloc, Form::Narrow, bounds.asked as usize, position, given)?;
    if bytes.len() > bounds.room as usize {
        return Ok(without_records(alloc, Outcome::Error(Errno::EFAULT), Some(position)));
    }
    Ok(Answer {
        outcome: Outcome::Value(bytes.len() as u32),
        bytes,
        place: Some(cookie),
    })
}
