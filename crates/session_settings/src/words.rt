//! The words of a session, as they are typed. `""` is the empty one, and `a*9` has nine letters.
use guest_scripts::numbers::number_of;
use guest_scripts::reading::bytes_of;
use std::alloc::Global;
use std::test::Fail;

/// The bytes of a word.
fn letters_of(alloc: Global, word: &str) -> Result<Vec<u8>, Fail> {
    let Some(letters) = word.strip_prefix("a*") else {
        return bytes_of(alloc, word);
    };
    let letters = number_of(letters).ok_or("no number")?;
    let letters = usize::try_from(letters).ok().ok_or("too many")?;
    Ok(vec![in alloc; b'a'; letters]?)
}

/// A word of a session.
fn word_of(alloc: Global, word: &str) -> Result<String, Fail> {
    if word == "\"\"" {
        return Ok(String::new(alloc));
    }
    let bytes = letters_of(alloc, word)?;
    Ok(String::from_utf8(bytes).ok().ok_or("no text")?)
}

/// Puts the words of a text behind others.
pub(crate) fn push_words(alloc: Global, words: &mut Vec<String>, text: &str) -> Result<(), Fail> {
    for word in text.split_whitespace() {
        words.push(word_of(alloc, word)?).ok().ok_or("no memory")?;
    }
    Ok(())
}
