//! Reading and writing one field of a structure in place.
//!
//! The functions on the way are inlined: where a caller names a field of a table by constants, nothing of the look-up
//! is left to run, and a field of 4 or 8 bytes is one load or store.
ghost use Rattle.std.specs.Prelude.{◌≡◌, ◌+◌, ◌^◌, ◌<◌, ◌≤◌, ◌++◌, IsTrue, length, take, drop, pos};
ghost use Rattle.byteorder.specs.Endian.{big_bytes, big_number, little_bytes, little_number};
ghost use Rattle.layouts.specs.Number as spec;
ghost use Rattle.layouts.specs.Number.{IsPlaced, field_at, field_value, fit_of, after_put, with_value, low_value, bytes_of, EachByteOutside};

use byteorder::{BigEndian, ByteOrder, LittleEndian};

/// A number in a structure: where it stands, how long it is, and whether it may be below 0.
#[derive(Clone, Copy, PartialEq, Eq)]
pub struct Field {
    /// Where it begins, in bytes from the structure's start.
    pub offset: u16,
    /// How many bytes it has, 1 to 8.
    pub width: u8,
    /// Whether its top bit counts as negative (two's complement).
    pub signed: bool,
}

/// A structure: its size in bytes, the order of the bytes in its numbers, and its fields.
pub struct Layout {
    /// In bytes.
    pub size: u16,
    /// Whether the first byte of a number counts most.
    pub big: bool,
    /// A byte in no field is 0.
    pub fields: &'static [Field],
}

/// Whether a value was in its field's range.
#[derive(Clone, Copy, PartialEq, Eq)]
pub enum Fit {
    /// It was, and stands in the field.
    Fits,
    /// It was not, and nothing was written.
    TooWide,
}

/// The value of a field, by its place in the table.
#[inline(always)]
pub fn get(layout: &Layout, field: usize, bytes: &[u8]) -> i128
    requires in_table { field < length layout.now.fields.now }
    requires placed { IsPlaced layout.now.size (field_at layout.now.fields.now field) }
    requires whole { length bytes.now ≡ layout.now.size }
    ensures { result ≡ field_value layout.now.big (field_at layout.now.fields.now field) bytes.now }
{
    let field = layout.fields[field];
    let bytes = &bytes[usize::from(field.offset)..];
    let number = if layout.big {
        big_number(field.width, bytes)
    } else {
        little_number(field.width, bytes)
    };
    value_of(field, number)
}

/// Puts a value into a field, by its place in the table, where the value is in the field's range.
#[inline(always)]
pub fn put(layout: &Layout, field: usize, bytes: &mut [u8], value: i128) -> Fit
    requires in_table { field < length layout.now.fields.now }
    requires placed { IsPlaced layout.now.size (field_at layout.now.fields.now field) }
    requires whole { length bytes.old ≡ layout.now.size }
    ensures fit { result ≡ fit_of (field_at layout.now.fields.now field) value }
    ensures bytes { bytes.new ≡ after_put layout.now.big (field_at layout.now.fields.now field) value bytes.old }

    // After a put that fits the field has the value, and every other byte is as it was.
    ensures value { result ≡ Fit.Fits → field_value layout.now.big (field_at layout.now.fields.now field) bytes.new ≡ value }
    ensures others { EachByteOutside (field_at layout.now.fields.now field) bytes.old bytes.new }
{
    put_into(layout.big, layout.fields[field], bytes, value)
}

/// Puts the low bits of a value into a field, as many as the field has: the value itself where it is
/// in the field's range.
pub fn put_low(layout: &Layout, field: usize, bytes: &mut [u8], value: i128)
    requires in_table { field < length layout.now.fields.now }
    requires placed { IsPlaced layout.now.size (field_at layout.now.fields.now field) }
    requires whole { length bytes.old ≡ layout.now.size }
    ensures bytes { bytes.new ≡ with_value layout.now.big (field_at layout.now.fields.now field)
        (low_value (field_at layout.now.fields.now field) value) bytes.old }
    ensures value { field_value layout.now.big (field_at layout.now.fields.now field) bytes.new ≡ low_value (field_at layout.now.fields.now field) value }
    ensures others { EachByteOutside (field_at layout.now.fields.now field) bytes.old bytes.new }
{
    let field = layout.fields[field];
    let number = low_number(field, value);
    write_value(layout.big, field, bytes, value_of(field, number));
}

/// The low 32 bits of a value.
pub fn low_word(value: i128) -> u32
    ensures { result ≡ spec.low_number 4 value }
{
    value.rem_euclid(0x1_0000_0000) as u32
}

/// Puts a value into a field, where the value is in the field's range.
#[inline(always)]
pub(crate) fn put_into(big: bool, field: Field, bytes: &mut [u8], value: i128) -> Fit
    requires { IsPlaced (length bytes.old) field }
    ensures fit { result ≡ fit_of field value }
    ensures bytes { bytes.new ≡ after_put big field value bytes.old }
{
    if !is_in_range(field, value) {
        return Fit::TooWide;
    }
    write_value(big, field, bytes, value);
    Fit::Fits
}

/// Puts a value of the field's range into the field.
#[inline(always)]
pub(crate) fn write_value(big: bool, field: Field, bytes: &mut [u8], value: i128)
    requires placed { IsPlaced (length bytes.old) field }
    requires in_range { IsTrue (spec.is_in_range field.signed field.width value) }
    ensures { bytes.new ≡ with_value big field value bytes.old }
{
    let number = number_for(field, value);
    write(big, field, bytes, number);
}

/// 256 to this power.
#[inline(always)]
fn limit(width: u8) -> i128
    requires { width ≤ 8 }
    ensures { result ≡ pos (256 ^ width) }
{
    match width {
        0 => 1,
        1 => 0x100,
        2 => 0x1_0000,
        3 => 0x100_0000,
        4 => 0x1_0000_0000,
        5 => 0x100_0000_0000,
        6 => 0x1_0000_0000_0000,
        7 => 0x100_0000_0000_0000,
        _ => 0x1_0000_0000_0000_0000,
    }
}

/// What a field's number is as a value.
#[inline(always)]
fn value_of(field: Field, number: u64) -> i128
    requires { field.width ≤ 8 }
    ensures { result ≡ spec.value_of field.signed field.width number }
{
    let value = i128::from(number);
    let limit = limit(field.width);
    if field.signed && value >= limit / 2 {
        value - limit
    } else {
        value
    }
}

/// Whether a value is in a field's range.
#[inline(always)]
pub(crate) fn is_in_range(field: Field, value: i128) -> bool
    requires { field.width ≤ 8 }
    ensures { result ≡ spec.is_in_range field.signed field.width value }
{
    let limit = limit(field.width);
    if field.signed {
        -(limit / 2) <= value && value < limit / 2
    } else {
        0 <= value && value < limit
    }
}

/// The low bits of a value, as many as the field has.
fn low_number(field: Field, value: i128) -> u64
    requires { field.width ≤ 8 }
    ensures value { result ≡ spec.low_number field.width value }
    ensures fits { result < 256 ^ field.width }
{
    value.rem_euclid(limit(field.width)).unsigned_abs() as u64
}

/// The number that stands for a value of the field's range.
#[inline(always)]
fn number_for(field: Field, value: i128) -> u64
    requires few { field.width ≤ 8 }
    requires in_range { IsTrue (spec.is_in_range field.signed field.width value) }
    ensures value { result ≡ spec.number_for field.width value }
    ensures fits { result < 256 ^ field.width }
{
    if value < 0 {
        (value + limit(field.width)) as u64
    } else {
        value as u64
    }
}

/// Puts a number of the field's width into its bytes.
#[inline(always)]
fn write(big: bool, field: Field, bytes: &mut [u8], number: u64)
    requires placed { IsPlaced (length bytes.old) field }
    requires fits { number < 256 ^ field.width }
    ensures { bytes.new ≡ take field.offset bytes.old ++ bytes_of big field.width number ++ drop (field.offset + field.width) bytes.old }
{
    let bytes = &mut bytes[usize::from(field.offset)..];
    if big {
        write_big(field.width, bytes, number);
    } else {
        write_little(field.width, bytes, number);
    }
}

/// The number of so many bytes, the first counting most.
#[inline(always)]
fn big_number(width: u8, bytes: &[u8]) -> u64
    requires some { 1 ≤ width }
    requires few { width ≤ 8 }
    requires whole { width ≤ length bytes.now }
    ensures { result ≡ big_number width bytes.now }
{
    match width {
        4 => u64::from(BigEndian::read_u32(bytes)),
        8 => BigEndian::read_u64(bytes),
        _ => BigEndian::read_uint(bytes, usize::from(width)),
    }
}

/// The number of so many bytes, the first counting least.
#[inline(always)]
fn little_number(width: u8, bytes: &[u8]) -> u64
    requires some { 1 ≤ width }
    requires few { width ≤ 8 }
    requires whole { width ≤ length bytes.now }
    ensures { result ≡ little_number width bytes.now }
{
    match width {
        4 => u64::from(LittleEndian::read_u32(bytes)),
        8 => LittleEndian::read_u64(bytes),
        _ => LittleEndian::read_uint(bytes, usize::from(width)),
    }
}

/// Puts a number into so many bytes, the first counting most.
#[inline(always)]
fn write_big(width: u8, bytes: &mut [u8], number: u64)
    requires some { 1 ≤ width }
    requires few { width ≤ 8 }
    requires whole { width ≤ length bytes.old }
    requires fits { number < 256 ^ width }
    ensures { bytes.new ≡ big_bytes width number ++ drop width bytes.old }
{
    match width {
        4 => BigEndian::write_u32(bytes, number as u32),
        8 => BigEndian::write_u64(bytes, number),
        _ => BigEndian::write_uint(bytes, number, usize::from(width)),
    }
}

/// Puts a number into so many bytes, the first counting least.
#[inline(always)]
fn write_little(width: u8, bytes: &mut [u8], number: u64)
    requires some { 1 ≤ width }
    requires few { width ≤ 8 }
    requires whole { width ≤ length bytes.old }
    requires fits { number < 256 ^ width }
    ensures { bytes.new ≡ little_bytes width number ++ drop width bytes.old }
{
    match width {
        4 => LittleEndian::write_u32(bytes, number as u32),
        8 => LittleEndian::write_u64(bytes, number),
        _ => LittleEndian::write_uint(bytes, number, usize::from(width)),
    }
}
