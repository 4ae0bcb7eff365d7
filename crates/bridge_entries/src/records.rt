//! Records of native getdents64(2), as they are read, and those of the program, as they are written.
ghost use Rattle.std.specs.Prelude.{◌≡◌, ◌==◌, ◌≤◌, ◌++◌, IsTrue, IfSome, OnOk, length, position};
ghost use Rattle.bridge_entries.specs.inside.Records.{IsWithin, can_hold, length_for, name_length, record_bytes, record_in};

use byteorder::{ByteOrder, LittleEndian};
use kernel_core::NoMemory;
use layouts::{dirent_length, dirent64_length, put_dirent, put_dirent64};

/// How many bytes the shortest native record has (struct linux_dirent64 of Linux `include/linux/dirent.h`).
const SHORTEST: usize = 24;

/// Where the name begins in a native record, in bytes.
pub(crate) const NAME: usize = 19;

/// How many bytes a name has at most (NAME_MAX of limits.h).
const LONGEST_NAME: usize = 255;

/// How many bytes a record has at most, in either world.
pub(crate) const LONGEST: usize = 280;

/// The greatest node number that a record of getdents(2) holds.
const GREATEST_NODE: u64 = 0xFFFF_FFFF;

/// What a native record says.
#[derive(Clone, Copy)]
pub(crate) struct Record {
    pub(crate) node: u64,
    /// The low 32 bits of the place of the next entry.
    pub(crate) cookie: u32,
    /// The number of the type.
    pub(crate) kind: u8,
    /// How many bytes the native record has.
    pub(crate) length: usize,
    /// How many bytes its name has.
    pub(crate) name: usize,
}

/// The record that bytes begin with; None where they begin with none.
pub(crate) fn record_in(bytes: &[u8]) -> Option<Record>
    ensures told { result ≡ record_in bytes.now }
    ensures within { IfSome result (λ found. IsWithin found (length bytes.now)) }
{
    if bytes.len() < SHORTEST {
        return None;
    }
    let length = usize::from(LittleEndian::read_u16(&bytes[16..]));
    let name = name_length(&bytes[NAME..])?;
    if length < SHORTEST || bytes.len() < length || length < NAME + name {
        return None;
    }
    Some(Record {
        node: LittleEndian::read_u64(bytes),
        cookie: LittleEndian::read_u32(&bytes[8..]),
        kind: bytes[18],
        length,
        name,
    })
}

/// How many bytes stand before the first NUL; None where there is none, or where they are more than a name has.
fn name_length(bytes: &[u8]) -> Option<usize>
    ensures told { result ≡ name_length bytes.now }
    ensures short { IfSome result (λ name. name ≤ 255) }
    ensures within { IfSome result (λ name. name ≤ length bytes.now) }
{
    match first_nul(bytes) {
        Some(name) if name <= LONGEST_NAME => Some(name),
        _ => None,
    }
}

/// The place of the first NUL.
fn first_nul(bytes: &[u8]) -> Option<usize>
    ensures told { result ≡ position (λ byte. byte == 0) bytes.now }
    ensures within { IfSome result (λ place. place ≤ length bytes.now) }
{
    bytes.iter().position(|byte| *byte == 0)
}

/// How the program's call writes records.
#[derive(Clone, Copy)]
pub(crate) enum Form {
    /// Those of getdents(2), whose node numbers have 32 bits.
    Narrow,
    /// Those of getdents64(2).
    Wide,
}

impl Form {
    /// How many bytes a record takes with a name of this length.
    pub(crate) fn length_for(self, name: usize) -> usize
        requires { name ≤ 255 }
        ensures told { result ≡ length_for self name }
        ensures short { result ≤ 280 }
    {
        match self {
            Form::Narrow => dirent_length(name),
            Form::Wide => dirent64_length(name),
        }
    }

    /// Whether a record holds a node number.
    pub(crate) fn can_hold(self, node: u64) -> bool
        ensures { result ≡ can_hold self node }
    {
        match self {
            Form::Narrow => node <= GREATEST_NODE,
            Form::Wide => true,
        }
    }
}

/// Adds a record of the program with this name, which is made in `room`.
pub(crate) fn push_record(
    bytes: &mut Vec<u8>,
    form: Form,
    entry: Record,
    name: &[u8],
    room: &mut [u8],
) -> Result<(), NoMemory>
    requires short { length name.now ≤ 255 }
    requires holds { IsTrue (can_hold form entry.node) }
    requires room { length room.old ≡ 280 }
    ensures { OnOk result (bytes.new.items ≡ bytes.old.items ++ record_bytes form entry name.now) }
{
    let space = &mut room[..form.length_for(name.len())];
    write_record(form, entry, name, space);
    bytes.extend_from_slice(space)?;
    Ok(())
}

/// Writes a record of the program.
fn write_record(form: Form, entry: Record, name: &[u8], space: &mut [u8])
    requires short { length name.now ≤ 255 }
    requires holds { IsTrue (can_hold form entry.node) }
    requires whole { length space.old ≡ length_for form (length name.now) }
    ensures { space.new ≡ record_bytes form entry name.now }
{
    match form {
        Form::Narrow => put_dirent(space, entry.node as u32, entry.cookie, entry.kind, name),
        Form::Wide => put_dirent64(
            true,
            space,
            entry.node,
            u64::from(entry.cookie),
            entry.kind,
            name,
        ),
    }
}
