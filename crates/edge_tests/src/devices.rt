//! Devices that fail, one call after the other, under a run with every option: what it leaves is a moment of the run in which none fails.
//!
//! The run is that of the calls which a C library makes before and around a small `main` that lists a directory: twelve calls in 124
//! turns. Each text that it writes grows turn by turn. How long each is behind every turn is found by a run whose budget is so many turns: its
//! trace ends with a line and its journal with a record more, by which that run is over.
use crate::runs::{BUDGET, Device, Failing, Left, Loaded, NONE_FAILS, TURNS, made_files, run};
use session_scripts::End;
use session_scripts::listing::TRACE;
use std::alloc::{AllocError, Global};
use std::test::Fail;

/// How long the texts of a run are behind a turn.
#[derive(Clone, Copy)]
struct Lengths {
    out: usize,
    trace: usize,
    native: usize,
    journal: usize,
}

/// Before the first turn.
const NOTHING: Lengths = Lengths {
    out: 0,
    trace: 0,
    native: 0,
    journal: 0,
};

/// A record of how a run ended.
const LENGTH_OF_AN_END: usize = 11;

/// How long the texts of a run are behind its last turn, and behind the next one.
#[derive(Clone, Copy)]
struct Moment {
    turns: u64,
    low: Lengths,
    high: Lengths,
}

/// How long the line is by which a trace ends behind a budget: its number, `budget` and two more.
fn length_of_end(alloc: Global, budget: u64) -> Result<usize, AllocError> {
    Ok(format!(in alloc; "{budget} budget\n")?.len())
}

/// How long the texts are of a run that goes on behind its last turn.
fn lengths_of(alloc: Global, left: &Left) -> Result<Lengths, Fail> {
    if left.end != End::Budget {
        return Err(Fail::from("it is over before"));
    }
    let end = length_of_end(alloc, left.turns)?;
    Ok(Lengths {
        out: left.out.len(),
        trace: left.trace.len().saturating_sub(end),
        native: left.native.len(),
        journal: left.journal.len().saturating_sub(LENGTH_OF_AN_END),
    })
}

/// How long the texts are behind a turn, up to the last, behind which they are whole.
fn lengths_behind(
    alloc: Global,
    loaded: &Loaded,
    turn: u64,
    whole: &Left,
) -> Result<Lengths, Fail> {
    if turn == 0 {
        return Ok(NOTHING);
    }
    if turn >= TURNS {
        return Ok(Lengths {
            out: whole.out.len(),
            trace: whole.trace.len(),
            native: whole.native.len(),
            journal: whole.journal.len(),
        });
    }
    lengths_of(alloc, &run(alloc, loaded, turn, NONE_FAILS)?)
}

/// What a run has to have written that stops behind a turn, and what it may have at most. The end of a journal stands behind the last turn.
fn moment_behind(alloc: Global, loaded: &Loaded, turns: u64, whole: &Left) -> Result<Moment, Fail> {
    let mut low = lengths_behind(alloc, loaded, turns, whole)?;
    if turns >= TURNS {
        low.journal = low.journal.saturating_sub(LENGTH_OF_AN_END);
    }
    let high = lengths_behind(alloc, loaded, turns.saturating_add(1), whole)?;
    Ok(Moment { turns, low, high })
}

/// Whether a text is a first part of a whole one, of a length between two.
fn is_part(low: usize, text: &[u8], high: usize, whole: &[u8]) -> bool {
    low <= text.len() && text.len() <= high && whole.starts_with(text)
}

/// Whether texts are those behind the turns that are finished, or behind these and a part of the next.
fn are_parts(left: &Left, moment: &Moment, whole: &Left) -> bool {
    let Moment { low, high, .. } = *moment;
    is_part(low.out, &left.out, high.out, &whole.out)
        && is_part(low.trace, &left.trace, high.trace, &whole.trace)
        && is_part(low.native, &left.native, high.native, &whole.native)
        && is_part(low.journal, &left.journal, high.journal, &whole.journal)
}

/// Whether the image is saved in part, behind the last turn, or not at all.
fn is_saved_in_part(left: &Left, whole: &Left) -> bool {
    match (&left.saved, &whole.saved) {
        (Some(part), Some(image)) => left.turns == TURNS && image.starts_with(part.as_slice()),
        (None, _) => true,
        _ => false,
    }
}

/// Whether what is left is this moment of the whole run.
fn is_moment(left: &Left, moment: &Moment, whole: &Left) -> bool {
    !left.is_hosted
        && left.are_others_left
        && left.turns == moment.turns
        && are_parts(left, moment, whole)
        && is_saved_in_part(left, whole)
}

/// Whether the answer is that of a failing call on the store: a load is one of the first three, and the trace, the native log and the
/// journal are made by the next three, in this order, before the first turn.
fn is_told(left: &Left, call: u64) -> bool {
    let [trace, native, journal, saved] = left.created;
    let end = if call <= 3 {
        End::ReadFault
    } else {
        End::WriteFault
    };
    left.end == end
        && left.status == (if call <= 3 { 122 } else { 119 })
        && (left.turns == 0 || call > 6)
        && (trace, native, journal) == (call > 4, call > 5, call > 6)
        && (!saved || left.turns == TURNS)
}

/// Whether a run came to its end.
fn is_whole(left: &Left, image: &[u8]) -> bool {
    (left.end, left.status, left.turns) == (End::Exited(0), 0, TURNS)
        && left.is_hosted
        && left.are_others_left
        && left.out.as_slice() == b"3 files\n".as_slice()
        && left.trace.as_slice() == TRACE.as_bytes()
        && left.saved.as_deref() == Some(image)
}

/// The calls on the store that are made, or the first whose failure comes to something else.
#[derive(Clone, Copy)]
enum Tried {
    Calls(u64),
    Wrong(u64),
}

/// A run in which a call fails.
fn run_over(alloc: Global, loaded: &Loaded, device: Device, call: u64) -> Result<Left, Fail> {
    run(alloc, loaded, BUDGET, Failing { device, call })
}

/// What is found by a run in which this call on the store fails: it is told where no such call is made, or the run comes to something else.
fn found_by(
    alloc: Global,
    loaded: &Loaded,
    whole: &Left,
    left: &Left,
    call: u64,
    moment: &mut Moment,
) -> Result<Option<Tried>, Fail> {
    if left.end == whole.end {
        return Ok(Some(Tried::Calls(call.saturating_sub(1))));
    }
    if left.turns != moment.turns {
        *moment = moment_behind(alloc, loaded, left.turns, whole)?;
    }
    if !is_told(left, call) || !is_moment(left, moment, whole) {
        return Ok(Some(Tried::Wrong(call)));
    }
    Ok(None)
}

/// The same, of a run that is made.
fn try_call(
    alloc: Global,
    loaded: &Loaded,
    whole: &Left,
    call: u64,
    moment: &mut Moment,
) -> Result<Option<Tried>, Fail> {
    let left = run_over(alloc, loaded, Device::Store, call)?;
    found_by(alloc, loaded, whole, &left, call, moment)
}

/// Has each call on the store fail, counted from 1, until none of that number is made.
fn try_store(alloc: Global, loaded: &Loaded, whole: &Left) -> Result<Tried, Fail> {
    let mut moment = moment_behind(alloc, loaded, 0, whole)?;
    for call in 1..BUDGET {
        if let Some(tried) = try_call(alloc, loaded, whole, call, &mut moment)? {
            return Ok(tried);
        }
    }
    Err(Fail::from("no end"))
}

/// Whether a run over a store that fails behind its last turn has all but the saved image, which is there in part or not at all.
fn has_all_but_the_image(left: &Left, whole: &Left, is_made: bool) -> bool {
    left.end == End::WriteFault
        && left.turns == TURNS
        && left.saved.is_some() == is_made
        && left.out.as_slice() == whole.out.as_slice()
        && left.trace.as_slice() == whole.trace.as_slice()
        && left.native.as_slice() == whole.native.as_slice()
        && left.journal.as_slice() == whole.journal.as_slice()
}

/// Whether a run in which this call on the store fails has all but the image.
fn misses_the_image(
    alloc: Global,
    loaded: &Loaded,
    whole: &Left,
    call: u64,
    is_made: bool,
) -> Result<bool, Fail> {
    let left = run_over(alloc, loaded, Device::Store, call)?;
    Ok(has_all_but_the_image(&left, whole, is_made))
}

/// Whether each call on the store fails as it has to. There are three loads, four files that are made, twelve turns in the trace and the journal each, and
/// the image: 32 calls and those of the native log. The last call adds the image, and the one before makes its file.
fn store_fails_well(alloc: Global, loaded: &Loaded, whole: &Left) -> Result<bool, Fail> {
    match try_store(alloc, loaded, whole)? {
        Tried::Calls(calls) if calls > 32 => {
            let last = misses_the_image(alloc, loaded, whole, calls, true)?;
            let before = misses_the_image(alloc, loaded, whole, calls.saturating_sub(1), false)?;
            Ok(last && before)
        }
        _ => Ok(false),
    }
}

/// Whether a run in which this put of standard output fails comes to what it has to; None where it does, and such a put is made.
fn put_fails_well(
    loaded: &Loaded,
    whole: &Left,
    left: &Left,
    call: u64,
    moment: &Moment,
) -> Option<bool> {
    if left.end == whole.end {
        return Some(call > 1 && is_whole(left, &loaded.image));
    }
    if left.end != End::WriteFault || left.status != 119 || !is_moment(left, moment, whole) {
        return Some(false);
    }
    None
}

/// Whether each put of standard output fails as it has to, in turn 114, until none of that number is made.
fn output_fails_well(alloc: Global, loaded: &Loaded, whole: &Left) -> Result<bool, Fail> {
    let moment = moment_behind(alloc, loaded, 113, whole)?;
    for call in 1..BUDGET {
        let left = run_over(alloc, loaded, Device::Out, call)?;
        if let Some(fails_well) = put_fails_well(loaded, whole, &left, call, &moment) {
            return Ok(fails_well);
        }
    }
    Ok(false)
}

/// Whether a run comes to its end of which a call fails that is not made. The end of the journal is an exit with 0 in turn 124.
fn comes_to_its_end(alloc: Global, loaded: &Loaded, device: Device) -> Result<bool, Fail> {
    let left = run_over(alloc, loaded, device, 1)?;
    let end = b"\0\0\0\0\0\0\0\x7C\x04\x01\0".as_slice();
    Ok(is_whole(&left, &loaded.image) && left.journal.ends_with(end) && !left.native.is_empty())
}

#[test]
fn no_call_fails(rt: HostRuntime) -> Result<(), Fail> {
    let loaded = made_files(rt.alloc())?;
    assert!(rt; comes_to_its_end(rt.alloc(), &loaded, Device::Input)?);
    assert!(rt; comes_to_its_end(rt.alloc(), &loaded, Device::Err)?);
    Ok(())
}

#[test]
fn a_store_that_fails(rt: HostRuntime) -> Result<(), Fail> {
    let loaded = made_files(rt.alloc())?;
    let whole = run(rt.alloc(), &loaded, BUDGET, NONE_FAILS)?;
    assert!(rt; store_fails_well(rt.alloc(), &loaded, &whole)?);
    Ok(())
}

#[test]
fn an_output_that_fails(rt: HostRuntime) -> Result<(), Fail> {
    let loaded = made_files(rt.alloc())?;
    let whole = run(rt.alloc(), &loaded, BUDGET, NONE_FAILS)?;
    assert!(rt; output_fails_well(rt.alloc(), &loaded, &whole)?);
    Ok(())
}
