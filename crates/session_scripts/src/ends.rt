//! How sessions end, in words.
use crate::sessions::Outcome;
use guest_scripts::reading::Words;
use o32_session::{End, Refusal};
use session_settings::refusals::{finish_of, image_refusal, rule_of, schedule_refusal};
use std::alloc::Global;
use std::test::Fail;

/// The status of a session that is refused.
const REFUSED: u8 = 125;

/// The turn of a difference, what the journal has there, and what the machine has.
fn divergence(words: &mut Words) -> Result<End, Fail> {
    let turn = words.number()?;
    let wanted = words.number()?;
    let found = words.number()?;
    Ok(End::Diverged {
        turn,
        wanted,
        found,
    })
}

/// An end that is no refusal.
fn end_of(words: &mut Words) -> Result<End, Fail> {
    match words.next()? {
        "exited" => Ok(End::Exited(words.byte()?)),
        "killed" => Ok(End::Killed(words.byte()?)),
        "budget" => Ok(End::Budget),
        "blocked" => Ok(End::Blocked),
        "soaked" => Ok(End::Soaked(finish_of(words)?)),
        "replayed" => Ok(End::Replayed(finish_of(words)?)),
        "diverged" => divergence(words),
        "read_fault" => Ok(End::ReadFault),
        "write_fault" => Ok(End::WriteFault),
        _ => Err(Fail::from("no end")),
    }
}

/// Why nothing was run.
fn refusal_of(words: &mut Words) -> Result<Refusal, Fail> {
    match words.next()? {
        "usage" => Ok(Refusal::Usage {
            word: words.place()?,
        }),
        "missing" => Ok(Refusal::Missing {
            file: words.byte()?,
        }),
        "elf" => Ok(Refusal::Elf(rule_of(words.next()?).ok_or("no rule")?)),
        "image" => Ok(Refusal::Image(image_refusal(words)?)),
        "schedule" => Ok(Refusal::Schedule(schedule_refusal(words)?)),
        "start" => Ok(Refusal::Start),
        "journal" => Ok(Refusal::Journal {
            at: words.number()?,
        }),
        _ => Err(Fail::from("no refusal")),
    }
}

/// An end, its status and the turns, in words.
fn next_outcome(words: &mut Words) -> Result<Outcome, Fail> {
    let end = end_of(words)?;
    let status = words.byte()?;
    let turns = words.number()?;
    words.end()?;
    Ok(Outcome { end, status, turns })
}

/// What a refusal comes to, in words: it takes no turn.
fn next_refusal(words: &mut Words) -> Result<Outcome, Fail> {
    let refusal = refusal_of(words)?;
    words.end()?;
    Ok(Outcome {
        end: End::Refused(refusal),
        status: REFUSED,
        turns: 0,
    })
}

/// An end, its status and the turns.
pub(crate) fn outcome_of(alloc: Global, text: &str) -> Result<Outcome, Fail> {
    let items: Vec<&str> = text.split_whitespace().collect(alloc)?;
    next_outcome(&mut Words::new(items.as_slice()))
}

/// What a refusal comes to.
pub(crate) fn refused(alloc: Global, text: &str) -> Result<Outcome, Fail> {
    let items: Vec<&str> = text.split_whitespace().collect(alloc)?;
    next_refusal(&mut Words::new(items.as_slice()))
}
