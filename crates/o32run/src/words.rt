//! The words of the program, which are its arguments without its own name.
ghost use Rattle.std.specs.Prelude.{◌≡◌, ◌∷◌, [], IfOk};
ghost use Rattle.std.specs.String.{string_bytes};
ghost use Rattle.std.specs.Str.{IsUtf8};

use std::alloc::{AllocError, Global};
use std::env::FillError;
use std::rt::Env;
use std::str::from_utf8;

/// The size of the first buffer for a word. A word that is longer gets one of twice the size, and so on.
const FIRST_SIZE: usize = 4096;

/// How often the buffer is doubled: a word of 4 GiB would have room, which is more than any host hands over.
const DOUBLINGS: usize = 20;

/// A word that stands in no place of the line, since it holds a NUL.
const NO_WORD: &str = "\0";

/// The words of the program. One that is not UTF-8 becomes a word that stands in no place of the line, so that it is
/// refused where it stands. Want of memory is the only error.
pub(crate) fn read_words<R: Env>(alloc: Global, rt: &R) -> Result<Vec<String>, AllocError> {
    let mut words = Vec::new(alloc);
    let mut buffer = vec![in alloc; 0; FIRST_SIZE]?;
    for at in 1..usize::MAX {
        match read_word(alloc, rt, at, &mut buffer)? {
            Some(word) => words.push(word)?,
            None => break,
        }
    }
    Ok(words)
}

/// The argument at this index, where there is one.
fn read_word<R: Env>(
    alloc: Global,
    rt: &R,
    at: usize,
    buffer: &mut Vec<u8>,
) -> Result<Option<String>, AllocError> {
    for _ in 0..DOUBLINGS {
        match rt.arg(at, buffer) {
            Ok(length) => return Ok(Some(word_of(alloc, &buffer[..length])?)),
            Err(FillError::NotPresent) => return Ok(None),
            Err(FillError::TooLong) => buffer.resize(buffer.len().saturating_mul(2), 0)?,
        }
    }
    Ok(Some(String::from_str(alloc, NO_WORD)?))
}

/// The word with these bytes.
fn word_of(alloc: Global, bytes: &[u8]) -> Result<String, AllocError>
    ensures text { IsUtf8 bytes.now → IfOk result (λ word. string_bytes word ≡ bytes.now) }
    ensures other { ¬ (IsUtf8 bytes.now) → IfOk result (λ word. string_bytes word ≡ 0 ∷ []) }
{
    match from_utf8(bytes) {
        Ok(text) => String::from_str(alloc, text),
        Err(_) => String::from_str(alloc, NO_WORD),
    }
}
