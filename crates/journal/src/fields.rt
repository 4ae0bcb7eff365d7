//! The fields of a journal: each is read from the front of what is left of a file.
//!
//! `file` is the length of the whole file, in bytes, and `rest` what is left of it. A reader gives
//! the field and what stands behind it; where the file ends inside the field, it is bad at its
//! length.
ghost use Rattle.std.specs.Prelude.{◌≡◌};
ghost use Rattle.journal.specs.Reading.{place, bytes_at, number_at};
ghost use Rattle.journal.specs.inside.Reads.{ReadsBy};

use crate::refusal::BadField;
use byteorder::{BigEndian, ByteOrder};

/// The offset of what is left.
pub(crate) fn place(file: u64, rest: &[u8]) -> u64
    ensures { result ≡ place file rest.now }
{
    file.saturating_sub(rest.len() as u64)
}

/// So many bytes.
pub(crate) fn bytes_at(file: u64, count: usize, rest: &[u8]) -> Result<(&[u8], &[u8]), BadField>
    ensures { ReadsBy (λ x. (x.0.now, x.1.now)) result (bytes_at count file rest.now) }
{
    if rest.len() < count {
        return Err(BadField { at: file });
    }
    let (bytes, rest) = rest.split_at(count);
    Ok((bytes, rest))
}

/// A number of one byte.
pub(crate) fn u8_at(file: u64, rest: &[u8]) -> Result<(u8, &[u8]), BadField>
    ensures { ReadsBy (λ x. (x.0, x.1.now)) result (number_at 1 file rest.now) }
{
    let (bytes, rest) = bytes_at(file, 1, rest)?;
    Ok((bytes[0], rest))
}

/// A number of four bytes.
pub(crate) fn u32_at(file: u64, rest: &[u8]) -> Result<(u32, &[u8]), BadField>
    ensures { ReadsBy (λ x. (x.0, x.1.now)) result (number_at 4 file rest.now) }
{
    let (bytes, rest) = bytes_at(file, 4, rest)?;
    Ok((BigEndian::read_u32(bytes), rest))
}

/// A number of eight bytes.
pub(crate) fn u64_at(file: u64, rest: &[u8]) -> Result<(u64, &[u8]), BadField>
    ensures { ReadsBy (λ x. (x.0, x.1.now)) result (number_at 8 file rest.now) }
{
    let (bytes, rest) = bytes_at(file, 8, rest)?;
    Ok((BigEndian::read_u64(bytes), rest))
}
