//! A status of the native kernel as a structure of the program.
ghost use Rattle.std.specs.Prelude.{◌≡◌, ◌+◌, ◌<◌, ◌≤◌, ◌++◌, EachIndex, drop, length, replicate, take};
ghost use Rattle.byteorder.specs.Endian.{big_bytes, little_number};
ghost use Rattle.layouts.specs.Number.{IsPlaced, field_at};
ghost use Rattle.layouts.specs.O32 as o32;
ghost use Rattle.layouts.specs.Shape.{IsSound, shape};
ghost use Rattle.bridge_status.specs.inside.Statuses.{is_too_wide, is_wide, low_bytes, shown, with_low_bytes};

use byteorder::{BigEndian, ByteOrder, LittleEndian};
use layouts::field_index::stat;
use layouts::{Field, Layout, NativeStructure, O32Structure, native_layout, o32_layout};

/// The structure of a status.
#[derive(Clone, Copy)]
pub(crate) enum Form {
    /// The old one (struct stat), which holds neither each node number nor each size.
    Old,
    /// That of 64 bits (struct stat64).
    Wide,
}

/// The greatest node number that the old structure holds (an ino_t of 32 bits).
const GREATEST_NODE: u64 = 0xFFFF_FFFF;

/// The greatest size that it holds (an off_t of 32 bits).
const GREATEST_SIZE: u64 = 0x7FFF_FFFF;

/// Where the node number lies in a native status, in bytes (struct stat of Linux
/// `include/uapi/asm-generic/stat.h`).
const NUMBER_OFFSET: usize = 8;

/// Where the size lies there.
const SIZE_OFFSET: usize = 48;

/// Whether the structure can't hold the node number or the size of a native status.
pub(crate) fn is_too_wide(form: Form, status: &[u8]) -> bool
    requires { length status.now ≡ 128 }
    ensures { result ≡ is_too_wide form status.now }
{
    match form {
        Form::Old => is_wide(status),
        Form::Wide => false,
    }
}

fn is_wide(status: &[u8]) -> bool
    requires { length status.now ≡ 128 }
    ensures { result ≡ is_wide status.now }
{
    LittleEndian::read_u64(&status[NUMBER_OFFSET..]) > GREATEST_NODE
        || LittleEndian::read_u64(&status[SIZE_OFFSET..]) > GREATEST_SIZE
}

/// A native status as the old structure.
pub(crate) fn old_bytes(status: &[u8]) -> [u8; 144]
    requires { length status.now ≡ 128 }
    ensures { result ≡ shown o32.stat status.now }
{
    let mut bytes = [0; 144];
    show(
        o32_layout(O32Structure::Stat),
        native_layout(NativeStructure::Stat),
        status,
        &mut bytes,
    );
    bytes
}

/// A native status as the structure of 64 bits.
pub(crate) fn wide_bytes(status: &[u8]) -> [u8; 104]
    requires { length status.now ≡ 128 }
    ensures { result ≡ shown o32.stat64 status.now }
{
    let mut bytes = [0; 104];
    show(
        o32_layout(O32Structure::Stat64),
        native_layout(NativeStructure::Stat),
        status,
        &mut bytes,
    );
    bytes
}

/// Makes bytes a structure of the program with what a native one tells: each field has the low bytes of the
/// native field that stands at its place in the table. The fields are named one by one, so that each place, and
/// with it each offset and width, is known before the program runs.
#[inline(always)]
fn show(layout: &Layout, native: &Layout, status: &[u8], bytes: &mut [u8])
    requires sound { IsSound (shape layout.now) }
    requires all { length layout.now.fields.now ≡ 16 }
    requires twins { length native.now.fields.now ≡ length layout.now.fields.now }
    requires there { EachIndex layout.now.fields.now (λ k. (field_at native.now.fields.now k).offset + (field_at layout.now.fields.now k).width ≤ length status.now) }
    requires whole { length bytes.old ≡ layout.now.size }
    ensures { bytes.new ≡ with_low_bytes layout.now.fields.now native.now.fields.now status.now (replicate layout.now.size 0) }
{
    clear(bytes);
    show_field(layout, native, stat::DEV, status, bytes);
    show_field(layout, native, stat::INO, status, bytes);
    show_field(layout, native, stat::MODE, status, bytes);
    show_field(layout, native, stat::NLINK, status, bytes);
    show_field(layout, native, stat::UID, status, bytes);
    show_field(layout, native, stat::GID, status, bytes);
    show_field(layout, native, stat::RDEV, status, bytes);
    show_field(layout, native, stat::SIZE, status, bytes);
    show_field(layout, native, stat::ATIME, status, bytes);
    show_field(layout, native, stat::ATIME_NS, status, bytes);
    show_field(layout, native, stat::MTIME, status, bytes);
    show_field(layout, native, stat::MTIME_NS, status, bytes);
    show_field(layout, native, stat::CTIME, status, bytes);
    show_field(layout, native, stat::CTIME_NS, status, bytes);
    show_field(layout, native, stat::BLKSIZE, status, bytes);
    show_field(layout, native, stat::BLOCKS, status, bytes);
}

/// Makes all bytes 0.
#[inline(always)]
fn clear(bytes: &mut [u8])
    ensures { bytes.new ≡ replicate (length bytes.old) 0 }
{
    bytes.fill(0);
}

/// Shows the field at this place: with those behind it still to come, the bytes give the same structure as before.
#[inline(always)]
fn show_field(layout: &Layout, native: &Layout, place: usize, status: &[u8], bytes: &mut [u8])
    requires sound { IsSound (shape layout.now) }
    requires twins { length native.now.fields.now ≡ length layout.now.fields.now }
    requires there { EachIndex layout.now.fields.now (λ k. (field_at native.now.fields.now k).offset + (field_at layout.now.fields.now k).width ≤ length status.now) }
    requires in_table { place < length layout.now.fields.now }
    requires whole { length bytes.old ≡ layout.now.size }
    ensures step { with_low_bytes (drop (place + 1) layout.now.fields.now) (drop (place + 1) native.now.fields.now) status.now bytes.new
        ≡ with_low_bytes (drop place layout.now.fields.now) (drop place native.now.fields.now) status.now bytes.old }
    ensures whole { length bytes.new ≡ layout.now.size }
{
    let from = usize::from(native.fields[place].offset);
    put_low_bytes(layout.fields[place], &status[from..], bytes);
}

/// Puts the low bytes of a native number into a field, as many as the field has.
#[inline(always)]
fn put_low_bytes(field: Field, number: &[u8], bytes: &mut [u8])
    requires placed { IsPlaced (length bytes.old) field }
    requires there { field.width ≤ length number.now }
    ensures { bytes.new ≡ take field.offset bytes.old ++ low_bytes field number.now ++ drop (field.offset + field.width) bytes.old }
{
    put_turned(field.width, number, &mut bytes[usize::from(field.offset)..]);
}

/// Puts a number of so many bytes, the first counting least, with the first counting most.
#[inline(always)]
fn put_turned(width: u8, number: &[u8], bytes: &mut [u8])
    requires some { 1 ≤ width }
    requires few { width ≤ 8 }
    requires there { width ≤ length number.now }
    requires whole { width ≤ length bytes.old }
    ensures { bytes.new ≡ big_bytes width (little_number width number.now) ++ drop width bytes.old }
{
    match width {
        4 => BigEndian::write_u32(bytes, LittleEndian::read_u32(number)),
        8 => BigEndian::write_u64(bytes, LittleEndian::read_u64(number)),
        _ => {
            let width = usize::from(width);
            let low = LittleEndian::read_uint(number, width);
            BigEndian::write_uint(bytes, low, width);
        }
    }
}
