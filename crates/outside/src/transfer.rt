// Loops over the reads and writes of real streams and files.
ghost use Rattle.std.specs.Prelude.{◌≡◌, ◌<◌, ◌≤◌, [], length, vec_len, IfSome, OnOk, OnErr};
ghost use Rattle.std.specs.Io.KnownBytes.{Appends};
ghost use Rattle.outside.specs.Adapted.{AppendsPart};
ghost use Rattle.outside.specs.declared.transfer.ReadError.TheVariants.{NoMemory};

use crate::errors::Failed;
use std::alloc::AllocError;
use std::io::{Read, Write};

/// Why a file was not read to its end.
#[derive(Clone, Copy, Debug, PartialEq, Eq)]
pub enum ReadError {
    /// A read failed.
    Failed,
    /// It has more bytes than the limit.
    TooLong,
    /// Memory ran out.
    NoMemory,
}

impl From<AllocError> for ReadError {
    ghost use Rattle.std.specs.Prelude.{◌≡◌};
    ghost use Rattle.outside.specs.declared.transfer.ReadError.TheVariants.{NoMemory};

    ghost from_gives = { λ _ e. e ≡ NoMemory };

    fn from(_error: AllocError) -> ReadError {
        ReadError::NoMemory
    }
}

/// Writes all the bytes, in as many writes as it takes, and flushes them. A write that takes
/// nothing is a failure. A writer that tells what it holds holds the bytes in their order, and after
/// a failure a prefix of them.
pub fn write_whole<W: Write>(writer: &mut W, bytes: &[u8]) -> Result<(), Failed>
    ensures whole { OnOk result (Appends (W.contents writer.old) (W.contents writer.new) bytes.now) }
    ensures part { OnErr result (AppendsPart (W.contents writer.old) (W.contents writer.new) bytes.now) }
{
    let mut rest = bytes;
    while !rest.is_empty() {
        match writer.write(rest) {
            Ok(0) => return Err(Failed),
            Ok(count) => rest = &rest[count..],
            Err(_) => return Err(Failed),
        }
    }
    match writer.flush() {
        Ok(()) => Ok(()),
        Err(_) => Err(Failed),
    }
}

/// Reads to the end, where that comes within the limit. It takes at most one byte more than that
/// out of the reader. What is read goes through `piece`.
pub fn read_whole<R: Read>(
    reader: &mut R,
    limit: usize,
    piece: &mut [u8],
    into: &mut Vec<u8>,
) -> Result<(), ReadError>
    requires room { 0 < length piece.old }
    requires empty { into.old.items ≡ [] }
    ensures within { OnOk result (vec_len into.new ≤ limit) }
    ensures whole { OnOk result (IfSome (R.remaining reader.old) (λ bytes. into.new.items ≡ bytes)) }
    ensures too_long { result ≡ Err ReadError.TooLong →
        IfSome (R.remaining reader.old) (λ bytes. limit < length bytes) }
{
    let mut left = limit;
    loop {
        let room = left.saturating_add(1).min(piece.len());
        let count = match reader.read(&mut piece[..room]) {
            Ok(0) => return Ok(()),
            Ok(count) => count,
            Err(_) => return Err(ReadError::Failed),
        };
        if count > left {
            return Err(ReadError::TooLong);
        }
        into.extend_from_slice(&piece[..count])?;
        left -= count;
    }
}
