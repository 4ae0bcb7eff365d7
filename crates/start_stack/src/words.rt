//! Words as the machine's memory holds them, the high byte first.

ghost use Rattle.std.specs.Prelude.{◌≡◌, ℕ, ◌+◌, ◌^◌, ◌<◌, ◌++◌, length, map, string_bytes, OnOk, IfOk};
ghost use Rattle.start_stack.specs.Stack.{strings, addresses, big_endian, word_bytes};

use std::alloc::AllocError;

/// Adds one word to `bytes`. After an error nothing was added.
#[tactic(auto, unfolding(crate::specs::Stack::big_endian))]
pub(crate) fn push_word(bytes: &mut Vec<u8>, word: u32) -> Result<(), AllocError>
    ensures { OnOk result (bytes.new.items ≡ bytes.old.items ++ big_endian word) }
{
    bytes.extend_from_slice(&word.to_be_bytes())
}

/// Adds the words to `bytes`. After an error a part of them was added.
pub(crate) fn push_words(bytes: &mut Vec<u8>, words: &[u32]) -> Result<(), AllocError>
    ensures { OnOk result (bytes.new.items ≡ bytes.old.items ++ word_bytes words.now) }
{
    for word in words {
        push_word(bytes, *word)?;
    }
    Ok(())
}

/// Adds the address of each text to `bytes`, where the first text begins at `first`, and gives the
/// address behind the last text's NUL. After an error a part of the addresses was added.
pub(crate) fn push_addresses(
    bytes: &mut Vec<u8>,
    first: u32,
    texts: &[String],
) -> Result<u32, AllocError>
    requires { first + length (strings (map string_bytes texts.now)) < 2 ^ 32 }
    ensures bytes { OnOk result (bytes.new.items ≡ bytes.old.items ++ word_bytes (addresses first (map string_bytes texts.now))) }
    ensures end { IfOk result (λ at. at ≡ first + length (strings (map string_bytes texts.now))) }
{
    let mut at = first;
    for text in texts {
        push_word(bytes, at)?;
        at += text.len() as u32 + 1;
    }
    Ok(at)
}
