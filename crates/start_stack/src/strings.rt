//! Texts as they lie on the first stack: one behind the other, each with a NUL.

ghost use Rattle.std.specs.Prelude.{◌≡◌, ℕ, ◌+◌, ◌-◌, ◌*◌, ◌≤◌, [], ◌∷◌, ◌++◌, length, map, string_bytes, SomeIff, OnOk};
ghost use Rattle.start_stack.specs.Stack.{strings};

use std::alloc::AllocError;

/// What is left of `room` bytes when the texts, each with its NUL, and a word for the address of
/// each are taken from it, or `None` if they do not fit.
pub(crate) fn room_left(texts: &[String], room: usize) -> Option<usize>
    ensures { let need = length (strings (map string_bytes texts.now)) + 4 * length texts.now in SomeIff result (need ≤ room) (room - need) }
{
    let mut left = room;
    for text in texts {
        left = left.checked_sub(5)?.checked_sub(text.len())?;
    }
    Some(left)
}

/// Adds the texts to `bytes`, each with a NUL behind it. After an error a part of them was added.
pub(crate) fn push_strings(bytes: &mut Vec<u8>, texts: &[String]) -> Result<(), AllocError>
    ensures { OnOk result (bytes.new.items ≡ bytes.old.items ++ strings (map string_bytes texts.now)) }
{
    for text in texts {
        push_string(bytes, text)?;
    }
    Ok(())
}

/// Adds one text and its NUL to `bytes`. After an error a part of them was added.
fn push_string(bytes: &mut Vec<u8>, text: &String) -> Result<(), AllocError>
    ensures { OnOk result (bytes.new.items ≡ bytes.old.items ++ (string_bytes text.now ++ 0 ∷ [])) }
{
    bytes.extend_from_slice(text.as_bytes())?;
    bytes.push(0)?;
    Ok(())
}
