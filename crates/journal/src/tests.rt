//! Small journals: what is read and written, what is bad and where.
ghost use Rattle.journal.specs.Form.{IsRecord};
ghost use Rattle.std.specs.Prelude.{IfOk};

use crate::{JournalError, ReadEffect, ReadRecord, add, head, parse};
use kernel_core::{Bytes, Effect, Finish, Items, Record};
use std::alloc::{AllocError, Global};
use std::test::Fail;

/// A journal of one argument and one text of the environment, with random bytes at 28. Its records are
/// turn 1 before an instruction at 44, with a register at 81 and a write at 87; a call in it at 99,
/// with pages mapped at 136, unmapped at 146 and protected at 155, and an output at 165; turn 2
/// without an instruction at 173; and the end in turn 3 at 210. 221 bytes.
fn journal(alloc: Global) -> Result<Vec<u8>, AllocError> {
    let mut out = Vec::from_slice(alloc, b"O32JRN1\n\0\0\0\x01\0\0\0\x01".as_slice())?;
    out.extend_from_slice(b"\0\0\0\x01a\0\0\0\x03K=Vsixteen bytes ..".as_slice())?;
    out.extend_from_slice(b"\0\0\0\0\0\0\0\x01\x01".as_slice())?;
    out.extend_from_slice(&[0; 27])?;
    out.extend_from_slice(b"\x02\x01\x22\0\x40\0\0\x02\0\0\0\x10\0\0\0\x03abc".as_slice())?;
    out.extend_from_slice(b"\0\0\0\0\0\0\0\x01\x02".as_slice())?;
    out.extend_from_slice(&[0; 27])?;
    out.extend_from_slice(b"\x04\x03\0\0\0\x01\0\0\0\x02\x07".as_slice())?;
    out.extend_from_slice(b"\x04\0\x07\xFF\xF7\0\0\0\x01".as_slice())?;
    out.extend_from_slice(b"\x05\0\0\0\0\0\x07\xFF\xF8\0\x06\x01\0\0\0\x02H\n".as_slice())?;
    out.extend_from_slice(b"\0\0\0\0\0\0\0\x02\x03".as_slice())?;
    out.extend_from_slice(&[0; 28])?;
    out.extend_from_slice(b"\0\0\0\0\0\0\0\x03\x04\x01\x07".as_slice())?;
    Ok(out)
}

/// Where the bytes are bad; none where they are a journal.
fn fault(alloc: Global, bytes: &[u8]) -> Result<Option<u64>, Fail> {
    match parse(alloc, bytes) {
        Ok(_) => Ok(None),
        Err(JournalError::Bad { at }) => Ok(Some(at)),
        Err(JournalError::NoMemory) => Err(Fail::from("out of memory")),
    }
}

/// Bytes of [`journal`] that are changed, by their places; where it is bad then.
type Row<'a> = (&'a [(usize, u8)], u64);

/// The journal with some bytes changed.
fn changed(alloc: Global, changes: &[(usize, u8)]) -> Result<Vec<u8>, AllocError> {
    let mut bytes = journal(alloc)?;
    for (place, value) in changes {
        if let Some(byte) = bytes.as_mut_slice().get_mut(*place) {
            *byte = *value;
        }
    }
    Ok(bytes)
}

/// The first row that does not come out as it says, counted from 0.
fn first_wrong(alloc: Global, rows: &[Row<'_>]) -> Result<Option<usize>, Fail> {
    for (row, (changes, at)) in rows.iter().enumerate() {
        let bytes = changed(alloc, changes)?;
        if fault(alloc, bytes.as_slice())? != Some(*at) {
            return Ok(Some(row));
        }
    }
    Ok(None)
}

#[test]
fn each_form_is_kept(rt: HostRuntime) -> Result<(), Fail> {
    let rows: [Row<'_>; 32] = [
        (&[(7, b'2')], 0),
        (&[(11, 0)], 8),
        (&[(20, 0)], 20),
        (&[(25, 0xFF)], 25),
        (&[(51, 0)], 44),
        (&[(46, 1)], 44),
        (&[(52, 0)], 52),
        (&[(52, 5)], 52),
        (&[(81, 0)], 81),
        (&[(81, 7)], 81),
        (&[(82, 0)], 82),
        (&[(82, 36)], 82),
        (&[(106, 0)], 99),
        (&[(107, 1)], 107),
        (&[(52, 2)], 107),
        (&[(52, 2), (107, 3)], 107),
        (&[(138, 7), (139, 0xFF), (140, 0xF8)], 137),
        (&[(142, 7), (143, 0xFF), (144, 0xF8)], 141),
        (&[(145, 8)], 145),
        (&[(149, 0xFF), (150, 0xF8)], 147),
        (&[(154, 2)], 151),
        (&[(163, 0xF9)], 160),
        (&[(164, 8)], 164),
        (&[(166, 0)], 166),
        (&[(166, 3)], 166),
        (&[(209, 1)], 206),
        (&[(219, 0)], 219),
        (&[(219, 5)], 219),
        (&[(217, 2), (219, 2)], 219),
        (&[(219, 3)], 220),
        (&[(218, 3)], 221),
        (&[(95, 2), (98, 0)], 98),
    ];
    let wrong = first_wrong(rt.alloc(), &rows)?;
    assert!(rt; wrong.is_none());
    Ok(())
}

#[test]
fn a_journal_cut_anywhere_is_bad_at_its_length(rt: HostRuntime) -> Result<(), Fail> {
    let bytes = journal(rt.alloc())?;
    assert!(rt; bytes.len() == 221);
    assert!(rt; fault(rt.alloc(), bytes.as_slice())?.is_none());
    for (length, _) in bytes.iter().enumerate() {
        let cut = &bytes.as_slice()[..length];
        assert!(rt; fault(rt.alloc(), cut)? == Some(length as u64));
    }
    Ok(())
}

#[test]
fn bytes_behind_the_end_are_bad_at_the_first(rt: HostRuntime) -> Result<(), Fail> {
    let mut bytes = journal(rt.alloc())?;
    bytes.push(0)?;
    assert!(rt; fault(rt.alloc(), bytes.as_slice())? == Some(221));
    Ok(())
}

/// What an effect that was read is, in a few words: its tag and its numbers, and how many bytes it has.
fn summary(effect: ReadEffect<'_>) -> (u8, u32, u32, usize) {
    match effect {
        ReadEffect::Register { r, value } => (1, u32::from(r), value, 0),
        ReadEffect::Write { address, bytes } => (2, address, 0, bytes.len()),
        ReadEffect::Map { first, count, prot } => (3, first, count, prot as usize),
        ReadEffect::Unmap { first, count } => (4, first, count, 0),
        ReadEffect::Protect { first, count, prot } => (5, first, count, prot as usize),
        ReadEffect::Output { stream, bytes } => (6, u32::from(stream), 0, bytes.len()),
    }
}

/// Whether a record has this turn, this kind and these effects.
fn is_read(
    entry: Option<ReadRecord<'_>>,
    turn: u64,
    kind: u8,
    effects: &[(u8, u32, u32, usize)],
) -> bool {
    let Some(mut entry) = entry else {
        return false;
    };
    for wanted in effects {
        match entry.effects.next() {
            Some(effect) if summary(effect) == *wanted => {}
            _ => return false,
        }
    }
    entry.effects.next().is_none() && entry.turn == turn && entry.kind == kind
}

#[test]
fn records_are_read_one_by_one(rt: HostRuntime) -> Result<(), Fail> {
    let bytes = journal(rt.alloc())?;
    let Ok(journal) = parse(rt.alloc(), bytes.as_slice()) else {
        return Err(Fail::from("a journal"));
    };
    assert!(rt; journal.args.len() == 1 && journal.env.len() == 1);
    assert!(rt; journal.random == *b"sixteen bytes ..");
    let mut left = journal.records.iter();
    assert!(rt; is_read(left.next(), 1, 1, &[(1, 34, 0x40_0000, 0), (2, 16, 0, 3)]));
    let call = [
        (3, 1, 2, 7),
        (4, 524_279, 1, 0),
        (5, 0, 524_280, 0),
        (6, 1, 0, 2),
    ];
    assert!(rt; is_read(left.next(), 1, 2, &call));
    assert!(rt; is_read(left.next(), 2, 3, &[]));
    let Some(end) = left.next() else {
        return Err(Fail::from("an end"));
    };
    assert!(rt; end.turn == 3 && end.finish == Some(Finish::Exited(7)));
    assert!(rt; left.next().is_none());
    Ok(())
}

/// The call of turn 6, with what it did.
fn call(alloc: Global) -> Result<Record, AllocError>
    ensures { IfOk result IsRecord }
{
    let effects = vec![in alloc;
        Effect::Register { r: 2, value: 3 },
        Effect::Output {
            stream: 1,
            bytes: Bytes::from(Vec::from_slice(alloc, b"Hi\n".as_slice())?)
        },
    ]?;
    Ok(Record {
        turn: 6,
        kind: 2,
        words: [0x40_0014, 4004, 1, 0x40_0100, 3, 0],
        effects: Items::from(effects),
        finish: None,
    })
}

#[test]
fn a_record_is_written(rt: HostRuntime) -> Result<(), Fail> {
    let mut out = Vec::new(rt.alloc());
    add(&call(rt.alloc())?, &mut out).map_err(|_| "memory")?;
    let mut wanted = Vec::new(rt.alloc());
    wanted.extend_from_slice(b"\0\0\0\0\0\0\0\x06\x02\0\x40\0\x14\0\0\x0F\xA4".as_slice())?;
    wanted.extend_from_slice(b"\0\0\0\x01\0\x40\x01\0\0\0\0\x03\0\0\0\0".as_slice())?;
    wanted.extend_from_slice(b"\0\0\0\x02\x01\x02\0\0\0\x03".as_slice())?;
    wanted.extend_from_slice(b"\x06\x01\0\0\0\x03Hi\n".as_slice())?;
    assert!(rt; out.as_slice() == wanted.as_slice());
    Ok(())
}

/// The journal of nine turns: a program that writes `Hi` in turn 6, by a call at 0x400014, and exits with
/// status 7 in turn 9. Its front has 41 bytes.
fn hello(alloc: Global) -> Result<Vec<u8>, AllocError> {
    let mut out = Vec::from_slice(alloc, b"O32JRN1\n\0\0\0\x01\0\0\0\0".as_slice())?;
    out.extend_from_slice(b"\0\0\0\x05hellosixteen bytes ..".as_slice())?;
    out.extend_from_slice(b"\0\0\0\0\0\0\0\x06\x02\0\x40\0\x14\0\0\x0F\xA4".as_slice())?;
    out.extend_from_slice(b"\0\0\0\x01\0\x40\x01\0\0\0\0\x03\0\0\0\0".as_slice())?;
    out.extend_from_slice(b"\0\0\0\x02\x01\x02\0\0\0\x03\x06\x01\0\0\0\x03Hi\n".as_slice())?;
    out.extend_from_slice(b"\0\0\0\0\0\0\0\x09\x02\0\x40\0\x20\0\0\x0F\xA1".as_slice())?;
    out.extend_from_slice(b"\0\0\0\x07\0\x40\x01\0\0\0\0\x03\0\0\0\0\0\0\0\0".as_slice())?;
    out.extend_from_slice(b"\0\0\0\0\0\0\0\x09\x04\x01\x07".as_slice())?;
    Ok(out)
}

#[test]
fn a_journal_without_its_last_byte_is_bad_at_its_length(rt: HostRuntime) -> Result<(), Fail> {
    let mut bytes = hello(rt.alloc())?;
    assert!(rt; fault(rt.alloc(), bytes.as_slice())?.is_none());
    let _last = bytes.pop();
    assert!(rt; bytes.len() == 140);
    assert!(rt; fault(rt.alloc(), bytes.as_slice())? == Some(140));
    Ok(())
}

#[test]
fn a_front_is_written_as_it_was_read(rt: HostRuntime) -> Result<(), Fail> {
    let bytes = hello(rt.alloc())?;
    let Ok(journal) = parse(rt.alloc(), bytes.as_slice()) else {
        return Err(Fail::from("a journal"));
    };
    let mut out = Vec::new(rt.alloc());
    let args = journal.args.as_slice();
    head(args, journal.env.as_slice(), journal.random, &mut out).map_err(|_| "memory")?;
    assert!(rt; out.len() == 41 && bytes.as_slice().starts_with(out.as_slice()));
    Ok(())
}
