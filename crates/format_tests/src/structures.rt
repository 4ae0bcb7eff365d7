//! The tables beside the headers, and each public call once.

use layouts::{
    EntryType, Field, Fit, Layout, NativeStructure, O32Structure, UtsnameText, dirent_length,
    dirent64_length, field_index, get, get_record, low_word, native_characters, native_layout,
    o32_characters, o32_layout, put, put_dirent, put_dirent64, put_low, put_record, put_text,
};

mod native_tables;
mod o32_tables;

/// What a header says of a field's type.
#[derive(Clone, Copy)]
enum Kind {
    Byte,
    Short,
    Word,
    Double,
    SignedWord,
    SignedDouble,
}

impl Kind {
    /// The field of this type at an offset.
    fn at(self, offset: u16) -> Field {
        let (width, signed) = match self {
            Kind::Byte => (1, false),
            Kind::Short => (2, false),
            Kind::Word => (4, false),
            Kind::Double => (8, false),
            Kind::SignedWord => (4, true),
            Kind::SignedDouble => (8, true),
        };
        Field {
            offset,
            width,
            signed,
        }
    }
}

/// Fields as a header has them: the place of the first in the table, its offset, the type, and how
/// many there are, one behind the other.
type Row = (usize, u16, Kind, usize);

/// Whether a table has the fields of a row.
fn has(layout: &Layout, row: &Row) -> bool {
    let (first, offset, kind, count) = *row;
    let mut place = first;
    let mut expected = kind.at(offset);
    for _ in 0..count {
        if layout.fields.get(place).copied() != Some(expected) {
            return false;
        }
        place = place.saturating_add(1);
        expected.offset = expected.offset.saturating_add(u16::from(expected.width));
    }
    true
}

/// The first row that a table does not have, counted from 0; the count of the rows where the size, the
/// order of bytes or the count of fields is another.
fn first_wrong(layout: &Layout, size: u16, big: bool, rows: &[Row]) -> Option<usize> {
    let mut count = 0usize;
    for (place, row) in rows.iter().enumerate() {
        if !has(layout, row) {
            return Some(place);
        }
        count = count.saturating_add(row.3);
    }
    if layout.size == size && layout.big == big && layout.fields.len() == count {
        None
    } else {
        Some(rows.len())
    }
}

#[test]
fn size_of_a_file(rt: HostRuntime) {
    let mut bytes = [0; 144];
    let stat = o32_layout(O32Structure::Stat);
    assert!(rt; put(stat, field_index::stat::SIZE, &mut bytes, -1) == Fit::Fits);
    assert!(rt; bytes[48..52] == [0xFF, 0xFF, 0xFF, 0xFF]);
    assert!(rt; bytes[..48] == [0; 48]);
    assert!(rt; bytes[52..] == [0; 92]);
    assert!(rt; get(stat, field_index::stat::SIZE, &bytes) == -1);
    let before = bytes;
    assert!(rt; put(stat, field_index::stat::SIZE, &mut bytes, 0x8000_0000) == Fit::TooWide);
    assert!(rt; bytes == before);
    let mut bytes = [0; 128];
    let stat = native_layout(NativeStructure::Stat);
    assert!(rt;
        put(
            stat,
            field_index::stat::SIZE,
            &mut bytes,
            0x0102_0304_0506_0708
        ) == Fit::Fits
    );
    assert!(rt; bytes[48..56] == [8, 7, 6, 5, 4, 3, 2, 1]);
}

#[test]
fn times_past_the_guest(rt: HostRuntime) {
    let mut bytes = [0; 8];
    let time = o32_layout(O32Structure::Timespec);
    for (value, written) in [
        (0x8000_0000, [0x80, 0, 0, 0]),
        (0x1_0000_0005, [0, 0, 0, 5]),
        (-1, [0xFF, 0xFF, 0xFF, 0xFF]),
        (-0x1_0000_0002, [0xFF, 0xFF, 0xFF, 0xFE]),
        (7, [0, 0, 0, 7]),
    ] {
        put_low(time, field_index::timespec::SECONDS, &mut bytes, value);
        assert_eq!(rt; &bytes[..4], written.as_slice());
        assert_eq!(rt; low_word(value).to_be_bytes(), written);
    }
    assert!(rt; bytes[4..] == [0; 4]);
}

#[test]
fn records(rt: HostRuntime) {
    let pollfd = o32_layout(O32Structure::Pollfd);
    let mut bytes = [0xFF; 8];
    assert!(rt; put_record(pollfd, &[-1, 1, 0x8000], &mut bytes) == Fit::Fits);
    assert!(rt; bytes == [0xFF, 0xFF, 0xFF, 0xFF, 0, 1, 0x80, 0]);
    let mut values = [0; 3];
    get_record(pollfd, &bytes, &mut values);
    assert!(rt; values == [-1, 1, 0x8000]);
    assert!(rt; put_record(pollfd, &[5, 1, 0x1_0000], &mut bytes) == Fit::TooWide);
    assert!(rt; bytes == [0xFF, 0xFF, 0xFF, 0xFF, 0, 1, 0x80, 0]);
}

#[test]
fn texts_of_uname(rt: HostRuntime) {
    let mut bytes = [0xFF; 390];
    put_text(&mut bytes, UtsnameText::Machine, b"mips");
    assert!(rt; bytes[..260] == [0xFF; 260]);
    assert!(rt; bytes[260..265] == [b'm', b'i', b'p', b's', 0]);
    assert!(rt; bytes[265..325] == [0; 60]);
    assert!(rt; bytes[325..] == [0xFF; 65]);
}

#[test]
fn characters_of_a_terminal(rt: HostRuntime) {
    let o32 = *b"IQEKMT2WSTPxRDWLFLabcde";
    let native = native_characters(o32);
    // INTR, QUIT, ERASE, KILL, EOF, TIME, MIN, SWTC, START, STOP, SUSP, EOL, REPRINT to LNEXT, EOL2.
    assert_eq!(rt; native, *b"IQEKFTMWSTPLRDWL2\0\0");
    assert_eq!(rt; o32_characters(native), *b"IQEKMT2WSTP\0RDWLFL\0\0\0\0\0");
}

#[test]
fn entries_of_a_directory(rt: HostRuntime) {
    let mut entry = [0xFF; 16];
    put_dirent(&mut entry, 7, 3, EntryType::File.number(), b"ab");
    assert!(rt; entry == *b"\0\0\0\x07\0\0\0\x03\0\x10ab\0\0\0\x08");
    let mut entry = [0xFF; 24];
    put_dirent64(true, &mut entry, 7, 3, EntryType::Directory.number(), b"ab");
    assert!(rt; entry == *b"\0\0\0\0\0\0\0\x07\0\0\0\0\0\0\0\x03\0\x18\x04ab\0\0\0");
    put_dirent64(false, &mut entry, 7, 3, EntryType::Link.number(), b"abc");
    assert!(rt; entry == *b"\x07\0\0\0\0\0\0\0\x03\0\0\0\0\0\0\0\x18\0\x0Aabc\0\0");
    assert_eq!(rt; dirent_length(4), 16);
    assert_eq!(rt; dirent_length(5), 20);
    assert_eq!(rt; dirent64_length(4), 24);
    assert_eq!(rt; dirent64_length(5), 32);
}
