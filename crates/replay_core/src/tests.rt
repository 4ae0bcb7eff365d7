//! Small replays: a program that writes `Hi` and exits.
ghost use Rattle.std.specs.Prelude.{IfOk};
ghost use Rattle.elf_image.specs.Loading.{IsValidPlan};

use crate::{ReplayAnswer, ReplayEnd, replay};
use elf_image::Plan;
use journal::parse;
use kernel_core::Finish;
use outside::MemSink;
use std::alloc::{AllocError, Global};
use std::test::Fail;

/// The headers of an executable: one load header, of 0x103 bytes from place 0x1000 of the file on, which lie
/// at 0x400000 and may be read and executed. It begins there.
const HEADERS: [u32; 21] = [
    0x7F45_4C46,
    0x0102_0100,
    0,
    0,
    0x0002_0008,
    1,
    0x0040_0000,
    52,
    0,
    0,
    0x0034_0020,
    0x0001_0028,
    0,
    1,
    0x1000,
    0x0040_0000,
    0x0040_0000,
    0x103,
    0x103,
    5,
    0x1000,
];

/// Words behind what is there.
fn add_words(out: &mut Vec<u8>, words: &[u32]) -> Result<(), AllocError> {
    for word in words {
        out.extend_from_slice(word.to_be_bytes().as_slice())?;
    }
    Ok(())
}

/// The plan of a program of these words at 0x400000, and `Hi` and a newline at 0x400100.
fn plan(alloc: Global, words: &[u32]) -> Result<Plan, Fail>
    ensures { IfOk result IsValidPlan }
{
    let mut bytes = Vec::new(alloc);
    add_words(&mut bytes, HEADERS.as_slice())?;
    bytes.resize(0x1000, 0)?;
    add_words(&mut bytes, words)?;
    bytes.resize(0x1100, 0)?;
    bytes.extend_from_slice(b"Hi\n".as_slice())?;
    Ok(elf_image::parse(alloc, &bytes)?)
}

/// write(1, 0x400100, 3), then exit(7): nine instructions.
const HELLO: [u32; 9] = [
    0x2402_0FA4,
    0x2404_0001,
    0x3C05_0040,
    0x34A5_0100,
    0x2406_0003,
    0x0000_000C,
    0x2402_0FA1,
    0x2404_0007,
    0x0000_000C,
];

/// The front of its journal.
fn front(alloc: Global) -> Result<Vec<u8>, AllocError> {
    let mut out = Vec::from_slice(alloc, b"O32JRN1\n\0\0\0\x01\0\0\0\0".as_slice())?;
    out.extend_from_slice(b"\0\0\0\x05hellosixteen bytes ..".as_slice())?;
    Ok(out)
}

/// The record of its write in turn 6, with the text that went out.
fn add_write(out: &mut Vec<u8>, text: &[u8; 3]) -> Result<(), AllocError> {
    out.extend_from_slice(b"\0\0\0\0\0\0\0\x06\x02\0\x40\0\x14\0\0\x0F\xA4".as_slice())?;
    out.extend_from_slice(b"\0\0\0\x01\0\x40\x01\0\0\0\0\x03\0\0\0\0".as_slice())?;
    out.extend_from_slice(b"\0\0\0\x02\x01\x02\0\0\0\x03\x06\x01\0\0\0\x03".as_slice())?;
    out.extend_from_slice(text.as_slice())?;
    Ok(())
}

/// The record of its exit in turn 9, and the end.
fn add_exit(out: &mut Vec<u8>) -> Result<(), AllocError> {
    out.extend_from_slice(b"\0\0\0\0\0\0\0\x09\x02\0\x40\0\x20\0\0\x0F\xA1".as_slice())?;
    out.extend_from_slice(b"\0\0\0\x07\0\x40\x01\0\0\0\0\x03\0\0\0\0\0\0\0\0".as_slice())?;
    out.extend_from_slice(b"\0\0\0\0\0\0\0\x09\x04\x01\x07".as_slice())?;
    Ok(())
}

/// What the replay of a journal by a program answers, and what goes out.
fn replayed(
    alloc: Global,
    words: &[u32],
    bytes: &[u8],
) -> Result<(ReplayAnswer, Vec<u8>, Vec<u8>), Fail> {
    let plan = plan(alloc, words)?;
    let Ok(journal) = parse(alloc, bytes) else {
        return Err(Fail::from("a journal"));
    };
    let mut out = MemSink::new(alloc, Vec::new(alloc));
    let mut err = MemSink::new(alloc, Vec::new(alloc));
    let answer = replay(alloc, &plan, &journal, &mut out, &mut err);
    let written = Vec::from_slice(alloc, out.bytes())?;
    let complained = Vec::from_slice(alloc, err.bytes())?;
    Ok((answer, written, complained))
}

#[test]
fn the_output_is_the_journals(rt: HostRuntime) -> Result<(), Fail> {
    let mut journal = front(rt.alloc())?;
    add_write(&mut journal, b"Ji\n")?;
    add_exit(&mut journal)?;
    let (answer, out, err) = replayed(rt.alloc(), &HELLO, journal.as_slice())?;
    assert!(rt; answer.end == ReplayEnd::Finished(Finish::Exited(7)) && answer.turns == 9);
    assert!(rt; out.as_slice() == b"Ji\n".as_slice() && err.is_empty());
    Ok(())
}

#[test]
fn a_call_without_its_record_is_found(rt: HostRuntime) -> Result<(), Fail> {
    let mut journal = front(rt.alloc())?;
    add_exit(&mut journal)?;
    let (answer, out, _) = replayed(rt.alloc(), &HELLO, journal.as_slice())?;
    let wanted = ReplayEnd::Diverged {
        turn: 6,
        wanted: 0,
        found: 1,
    };
    assert!(rt; answer.end == wanted && answer.turns == 5 && out.is_empty());
    Ok(())
}

#[test]
fn a_killed_run_has_no_last_instruction(rt: HostRuntime) -> Result<(), Fail> {
    let mut journal = front(rt.alloc())?;
    journal.extend_from_slice(b"\0\0\0\0\0\0\0\x06\x04\x02\x0F".as_slice())?;
    let (answer, out, _) = replayed(rt.alloc(), &HELLO, journal.as_slice())?;
    assert!(rt; answer.end == ReplayEnd::Finished(Finish::Killed(15)));
    assert!(rt; answer.turns == 6 && out.is_empty());
    Ok(())
}
