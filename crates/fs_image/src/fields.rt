//! The fields of an image: each is read from the front of what is left of a file.
//!
//! `file` is the length of the whole file, in bytes, and `rest` what is left of it. A reader gives
//! the field and what stands behind it, and refuses where the file ends inside the field.
ghost use Rattle.std.specs.Prelude.{◌≡◌};
ghost use Rattle.fs_image.specs.Refusal.{refused};
ghost use Rattle.fs_image.specs.Reading.{place, rises, bytes_at, number_at};
ghost use Rattle.fs_image.specs.Meaning.{GivesBy};

use crate::refusal::{ImageError, ImageRefusal, ImageRule};
use byteorder::{BigEndian, ByteOrder};

/// The offset of what is left.
pub(crate) fn place(file: u64, rest: &[u8]) -> u64
    ensures { result ≡ place file rest.now }
{
    file.saturating_sub(rest.len() as u64)
}

/// The error for a rule that fails at an offset.
pub(crate) fn refused(rule: ImageRule, at: u64) -> ImageError
    ensures { result ≡ ImageError.Refused (refused rule at) }
{
    ImageError::Refused(ImageRefusal::new(rule, at))
}

/// Whether a number rises above the one before.
pub(crate) fn rises(before: Option<u32>, number: u32) -> bool
    ensures { result ≡ rises before number }
{
    match before {
        Some(before) => before < number,
        None => true,
    }
}

/// So many bytes.
pub(crate) fn bytes_at(file: u64, count: usize, rest: &[u8]) -> Result<(&[u8], &[u8]), ImageError>
    ensures { GivesBy (λ x. (x.0.now, x.1.now)) result (bytes_at count file rest.now) }
{
    if rest.len() < count {
        return Err(refused(ImageRule::Short, file));
    }
    let (bytes, rest) = rest.split_at(count);
    Ok((bytes, rest))
}

/// A number of one byte.
pub(crate) fn u8_at(file: u64, rest: &[u8]) -> Result<(u8, &[u8]), ImageError>
    ensures { GivesBy (λ x. (x.0, x.1.now)) result (number_at 1 file rest.now) }
{
    let (bytes, rest) = bytes_at(file, 1, rest)?;
    Ok((bytes[0], rest))
}

/// A number of two bytes.
pub(crate) fn u16_at(file: u64, rest: &[u8]) -> Result<(u16, &[u8]), ImageError>
    ensures { GivesBy (λ x. (x.0, x.1.now)) result (number_at 2 file rest.now) }
{
    let (bytes, rest) = bytes_at(file, 2, rest)?;
    Ok((BigEndian::read_u16(bytes), rest))
}

/// A number of four bytes.
pub(crate) fn u32_at(file: u64, rest: &[u8]) -> Result<(u32, &[u8]), ImageError>
    ensures { GivesBy (λ x. (x.0, x.1.now)) result (number_at 4 file rest.now) }
{
    let (bytes, rest) = bytes_at(file, 4, rest)?;
    Ok((BigEndian::read_u32(bytes), rest))
}

/// A number of eight bytes.
pub(crate) fn u64_at(file: u64, rest: &[u8]) -> Result<(u64, &[u8]), ImageError>
    ensures { GivesBy (λ x. (x.0, x.1.now)) result (number_at 8 file rest.now) }
{
    let (bytes, rest) = bytes_at(file, 8, rest)?;
    Ok((BigEndian::read_u64(bytes), rest))
}
