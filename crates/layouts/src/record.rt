//! Reading and writing all fields of a structure at once.
ghost use Rattle.std.specs.Prelude.{◌≡◌, ◌≤◌, List, ℤ, All, IsTrue, length, replicate};
ghost use Rattle.layouts.specs.Shape as spec;
ghost use Rattle.layouts.specs.Shape.{Shape, shape, IsSound, record_fit, record_bytes, record_values, after_put_record};

use crate::field::{Field, Fit, Layout, get, is_in_range, write_value};

/// Writes a whole structure, the value of each field in its place and 0 elsewhere; or nothing, where
/// a value is not in its field's range.
pub fn put_record(layout: &Layout, values: &[i128], bytes: &mut [u8]) -> Fit
    requires sound { IsSound (shape layout.now) }
    requires one_each { length values.now ≡ length layout.now.fields.now }
    requires whole { length bytes.old ≡ layout.now.size }
    ensures fit { result ≡ record_fit (shape layout.now) values.now }
    ensures bytes { bytes.new ≡ after_put_record (shape layout.now) values.now bytes.old }
{
    if !are_in_range(layout.fields, values) {
        return Fit::TooWide;
    }
    write_values(layout, values, bytes);
    Fit::Fits
}

/// Reads the value of each field of a structure.
pub fn get_record(layout: &Layout, bytes: &[u8], values: &mut [i128])
    requires sound { IsSound (shape layout.now) }
    requires one_each { length values.old ≡ length layout.now.fields.now }
    requires whole { length bytes.now ≡ layout.now.size }
    ensures { values.new ≡ record_values (shape layout.now) bytes.now }
{
    for place in 0..values.len() {
        values[place] = get(layout, place, bytes);
    }
}

/// What the bytes of a record say is the record, where each value is in its field's range.
pub fn a_record_reads_back()
    ensures { (shape : Shape) (values : List ℤ) → IsSound shape → length values ≡ length shape.fields
        → IsTrue (spec.are_in_range shape.fields values) → record_values shape (record_bytes shape values) ≡ values }
{}

/// Whether each value is in its field's range.
fn are_in_range(fields: &[Field], values: &[i128]) -> bool
    requires few { All (λ (field : Field). field.width ≤ 8) fields.now }
    requires one_each { length values.now ≡ length fields.now }
    ensures { result ≡ spec.are_in_range fields.now values.now }
{
    for place in 0..fields.len() {
        if !is_in_range(fields[place], values[place]) {
            return false;
        }
    }
    true
}

/// Makes all bytes 0.
fn clear(bytes: &mut [u8])
    ensures { bytes.new ≡ replicate (length bytes.old) 0 }
{
    bytes.fill(0);
}

/// Writes the value of each field in its place, and 0 elsewhere.
fn write_values(layout: &Layout, values: &[i128], bytes: &mut [u8])
    requires sound { IsSound (shape layout.now) }
    requires one_each { length values.now ≡ length layout.now.fields.now }
    requires whole { length bytes.old ≡ layout.now.size }
    requires in_range { IsTrue (spec.are_in_range layout.now.fields.now values.now) }
    ensures { bytes.new ≡ record_bytes (shape layout.now) values.now }
{
    clear(bytes);
    for place in 0..values.len() {
        write_value(layout.big, layout.fields[place], bytes, values[place]);
    }
}
