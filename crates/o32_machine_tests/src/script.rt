//! Scripts, word by word.
use guest_scripts::numbers::{number_of, value};
use std::test::Fail;

/// The words of a script, of which some are read.
#[derive(Drop)]
pub(crate) struct Words<'a> {
    words: &'a [&'a str],
    place: usize,
}

impl<'a> Words<'a> {
    /// A script of which nothing is read.
    pub(crate) fn new(words: &'a [&'a str]) -> Words<'a> {
        Words { words, place: 0 }
    }

    /// How many words there are, read or not.
    pub(crate) fn count(&self) -> usize {
        self.words.len()
    }

    pub(crate) fn is_over(&self) -> bool {
        self.place >= self.words.len()
    }

    pub(crate) fn next(&mut self) -> Result<&'a str, Fail> {
        let word = *self.words.get(self.place).ok_or("a word is missing")?;
        self.place = self.place.saturating_add(1);
        Ok(word)
    }

    /// A number in digits.
    pub(crate) fn number(&mut self) -> Result<u64, Fail> {
        let word = self.next()?;
        Ok(number_of(word).ok_or("no number")?)
    }

    /// A number in digits below 256.
    pub(crate) fn byte(&mut self) -> Result<u8, Fail> {
        let number = self.number()?;
        if number < 256 {
            Ok(number as u8)
        } else {
            Err(Fail::from("no byte"))
        }
    }

    /// A number or a name.
    pub(crate) fn value(&mut self) -> Result<u32, Fail> {
        let word = self.next()?;
        Ok(value(word).ok_or("no value")?)
    }
}
