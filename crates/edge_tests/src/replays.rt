//! Replays of the journals that runs leave.
use crate::runs::{BUDGET, Left, Loaded, NONE_FAILS, TURNS, file_of, made_files, run};
use session_scripts::guest::executable;
use session_scripts::{Done, End, Given, carry_out};
use std::alloc::Global;
use std::test::Fail;

/// A program that writes `Hi` and a newline from 0x00400100 in its sixth turn, and exits with 7 in its ninth.
const HELLO: [u32; 9] = [
    0x2402_0FA4,
    0x2404_0001,
    0x3C05_0040,
    0x34A5_0100,
    0x2406_0003,
    0x0000_000C,
    0x2402_0FA1,
    0x2404_0007,
    0x0000_000C,
];

/// `Hi` and a newline, in a word.
const HI: u32 = 0x4869_0A00;

/// The record of write(2), 4004, in turn 6, up to the number of its effects: the turn, the kind, the address of the SYSCALL, $v0 and $a0 to $a3; and of
/// exit(2), 4001, in turn 9.
const WRITES: &[u8] =
    b"\0\0\0\0\0\0\0\x06\x02\0\x40\0\x14\0\0\x0F\xA4\0\0\0\x01\0\x40\x01\0\0\0\0\x03\0\0\0\0";

const EXITS: &[u8] =
    b"\0\0\0\0\0\0\0\x09\x02\0\x40\0\x20\0\0\x0F\xA1\0\0\0\x07\0\x40\x01\0\0\0\0\x03\0\0\0\0";

/// The same of brk(2), 4045, of 0x00413000 in turn 54 of the start of a C program, up to $a0; and with 0 there.
const BREAKS: &[u8] = b"\0\0\0\0\0\0\0\x36\x02\0\x40\0\xD4\0\0\x0F\xCD\0\x41\x30\0";

const BREAKS_AT_0: &[u8] = b"\0\0\0\0\0\0\0\x36\x02\0\x40\0\xD4\0\0\x0F\xCD\0\0\0\0";

/// Gives a session its words, the program `p` and the journal `j`.
fn give(
    alloc: Global,
    given: &mut Given,
    line: &str,
    program: &[u8],
    journal: &[u8],
) -> Result<(), Fail> {
    given.add_words(alloc, line)?;
    given.add_file(alloc, "p", program.to_vec(alloc)?)?;
    given.add_file(alloc, "j", journal.to_vec(alloc)?)
}

/// Carries out a session of these words over a program and a journal. No call fails.
fn session_with(alloc: Global, line: &str, program: &[u8], journal: &[u8]) -> Result<Done, Fail> {
    let mut given = Given::new(alloc);
    give(alloc, &mut given, line, program, journal)?;
    Ok(carry_out(alloc, given))
}

/// Whether a session ends after so many turns with this status, and writes this to standard output and to standard error.
fn is_told_so(done: &Done, status: u8, turns: u64, out: &[u8], err: &[u8]) -> bool {
    done.answer.status == status
        && done.answer.turns == turns
        && done.dev.out.bytes() == out
        && done.dev.err.bytes() == err
}

/// Whether a journal is replayed to its end, which is an exit, since no other end has a status below 123.
fn is_replayed(
    alloc: Global,
    program: &[u8],
    journal: &[u8],
    status: u8,
    turns: u64,
    out: &[u8],
) -> Result<bool, Fail> {
    let done = session_with(alloc, "replay p j", program, journal)?;
    let is_whole = matches!(done.answer.end, End::Replayed(_)) && done.answer.host_turns.is_none();
    Ok(is_whole && status < 123 && is_told_so(&done, status, turns, out, b""))
}

/// Whether the replay of a journal comes to this difference, before which nothing is sent.
fn is_difference(
    alloc: Global,
    program: &[u8],
    journal: &[u8],
    end: End,
    err: &str,
) -> Result<bool, Fail> {
    let turns = match end {
        End::Diverged { turn, .. } => turn.saturating_sub(1),
        _ => return Err(Fail::from("no difference")),
    };
    let done = session_with(alloc, "replay p j", program, journal)?;
    Ok(done.answer.end == end && is_told_so(&done, 120, turns, b"", err.as_bytes()))
}

/// Whether a journal is refused at this place.
fn is_refused_at(
    alloc: Global,
    program: &[u8],
    journal: &[u8],
    place: usize,
) -> Result<bool, Fail> {
    let line = format!(in alloc; "o32run: journal at {place}\n")?;
    let done = session_with(alloc, "replay p j", program, journal)?;
    Ok(is_told_so(&done, 125, 0, b"", line.as_bytes()))
}

/// Where bytes stand first in others.
fn first_place(bytes: &[u8], part: &[u8]) -> Result<usize, Fail> {
    for place in 0..bytes.len() {
        let rest = bytes.get(place..).ok_or("no place")?;
        if rest.starts_with(part) {
            return Ok(place);
        }
    }
    Err(Fail::from("the bytes are not there"))
}

/// Puts bytes behind others, with a part in place of those from one place up to another.
fn push_changed(
    changed: &mut Vec<u8>,
    bytes: &[u8],
    from: usize,
    to: usize,
    part: &[u8],
) -> Result<(), Fail> {
    changed.extend_from_slice(bytes.get(..from).ok_or("no place")?)?;
    changed.extend_from_slice(part)?;
    changed.extend_from_slice(bytes.get(to..).ok_or("no place")?)?;
    Ok(())
}

/// Bytes with others in place of those from one place up to another.
fn with_part(
    alloc: Global,
    bytes: &[u8],
    from: usize,
    to: usize,
    part: &[u8],
) -> Result<Vec<u8>, Fail> {
    let mut changed = Vec::new(alloc);
    push_changed(&mut changed, bytes, from, to, part)?;
    Ok(changed)
}

/// Bytes with others in place of the first part that is like this.
fn with_another(alloc: Global, bytes: &[u8], part: &[u8], other: &[u8]) -> Result<Vec<u8>, Fail> {
    let from = first_place(bytes, part)?;
    with_part(alloc, bytes, from, from.saturating_add(part.len()), other)
}

/// The program that writes `Hi`.
fn hello(alloc: Global) -> Result<Vec<u8>, Fail> {
    let mut code = Vec::from_slice(alloc, &HELLO)?;
    code.resize(64, 0)?;
    code.push(HI)?;
    Ok(executable(alloc, &code, b"")?)
}

/// The journal that a run of that program left.
fn journal_of(alloc: Global, done: &Done) -> Result<Vec<u8>, Fail> {
    if done.answer.end != End::Exited(7) || !is_told_so(done, 7, 9, b"Hi\n", b"") {
        return Err(Fail::from("the run comes to something else"));
    }
    Ok(file_of(alloc, &done.store, "j")?.ok_or("no journal")?)
}

/// The journal that a run of that program leaves.
fn journal_of_hello(alloc: Global, program: &[u8]) -> Result<Vec<u8>, Fail> {
    let done = session_with(alloc, "run --journal j p", program, b"old")?;
    journal_of(alloc, &done)
}

/// Whether that journal is replayed as it is, and with another output, which is the journal's.
fn hello_is_replayed(alloc: Global, program: &[u8], journal: &[u8]) -> Result<bool, Fail> {
    let changed = with_another(alloc, journal, b"Hi\n", b"Ji\n")?;
    Ok(
        is_replayed(alloc, program, journal, 7, 9, b"Hi\n")?
            && is_replayed(alloc, program, &changed, 7, 9, b"Ji\n")?,
    )
}

/// Whether that journal is bad at its end without its last byte, and differs in turn 6 without the record of that turn.
fn hello_is_cut_well(alloc: Global, program: &[u8], journal: &[u8]) -> Result<bool, Fail> {
    let last = journal.len().saturating_sub(1);
    let short = journal.get(..last).ok_or("no journal")?;
    let writes = first_place(journal, WRITES)?;
    let cut = with_part(alloc, journal, writes, first_place(journal, EXITS)?, b"")?;
    let end = End::Diverged {
        turn: 6,
        wanted: 0,
        found: 1,
    };
    let line = "o32run: diverged at turn 6 wanted 0 found 1\n";
    Ok(
        is_refused_at(alloc, program, short, last)?
            && is_difference(alloc, program, &cut, end, line)?,
    )
}

/// Whether the journal of the start of a C program is replayed with its output, and differs where a word of its call in turn 54 is another.
fn start_is_replayed(alloc: Global, loaded: &Loaded, whole: &Left) -> Result<bool, Fail> {
    let changed = with_another(alloc, &whole.journal, BREAKS, BREAKS_AT_0)?;
    let end = End::Diverged {
        turn: 54,
        wanted: 0,
        found: 4_272_128,
    };
    let line = "o32run: diverged at turn 54 wanted 0 found 4272128\n";
    let program = loaded.program.as_slice();
    Ok(
        is_replayed(alloc, program, &whole.journal, 0, TURNS, b"3 files\n")?
            && is_difference(alloc, program, &changed, end, line)?,
    )
}

#[test]
fn a_journal_of_a_run(rt: HostRuntime) -> Result<(), Fail> {
    let program = hello(rt.alloc())?;
    let journal = journal_of_hello(rt.alloc(), &program)?;
    assert!(rt; hello_is_replayed(rt.alloc(), &program, &journal)?);
    assert!(rt; hello_is_cut_well(rt.alloc(), &program, &journal)?);
    Ok(())
}

#[test]
fn a_journal_of_a_whole_start(rt: HostRuntime) -> Result<(), Fail> {
    let loaded = made_files(rt.alloc())?;
    let whole = run(rt.alloc(), &loaded, BUDGET, NONE_FAILS)?;
    assert!(rt; start_is_replayed(rt.alloc(), &loaded, &whole)?);
    Ok(())
}
