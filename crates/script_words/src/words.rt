//! The words of a line, one after the other.
use crate::numbers::number_of;
use std::test::Fail;

/// The words of a line that are left.
#[derive(Drop)]
pub struct Words<'a> {
    words: &'a [&'a str],
    place: usize,
}

impl<'a> Words<'a> {
    /// All of these words.
    pub fn new(words: &'a [&'a str]) -> Words<'a> {
        Words { words, place: 0 }
    }

    /// The next word; a failure where none is left.
    pub fn next(&mut self) -> Result<&'a str, Fail> {
        let word = *self.words.get(self.place).ok_or("a word is missing")?;
        self.place = self.place.saturating_add(1);
        Ok(word)
    }

    /// The number that the next word stands for; a failure where it stands for none.
    pub fn number(&mut self) -> Result<u64, Fail> {
        let word = self.next()?;
        Ok(number_of(word).ok_or("no number")?)
    }

    /// The place that the next word stands for.
    pub fn place(&mut self) -> Result<usize, Fail> {
        let number = self.number()?;
        Ok(usize::try_from(number).ok().ok_or("no place")?)
    }

    /// The byte that the next word stands for.
    pub fn byte(&mut self) -> Result<u8, Fail> {
        let number = self.number()?;
        Ok(u8::try_from(number).ok().ok_or("no byte")?)
    }

    /// Whether the next word is this one, which is then taken.
    pub fn next_is(&mut self, word: &str) -> bool {
        match self.words.get(self.place) {
            Some(next) if *next == word => {
                self.place = self.place.saturating_add(1);
                true
            }
            _ => false,
        }
    }

    /// Whether no word is left.
    pub fn is_over(&self) -> bool {
        self.place >= self.words.len()
    }

    /// That no word is left; a failure where one is.
    pub fn end(&self) -> Result<(), Fail> {
        if self.is_over() {
            return Ok(());
        }
        Err(Fail::from("a word too many"))
    }
}
