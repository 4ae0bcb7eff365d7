//! The bytes of host memory in words.
//!
//!     'text      a text and a NUL
//!     <text>     a text alone, where `_` stands for a space
//!     int 3 4    numbers, of which the first byte counts least: of one byte (`byte`), two (`short`), four (`int`), eight (`long`)
//!     room 8     so many bytes `z`
//!     zeros 8    so many zeros
//!     align      zeros up to the next multiple of 8
use crate::numbers::value;
use std::alloc::{AllocError, Global};
use std::test::Fail;

/// The address of the first byte of host memory.
const FIRST_ADDRESS: u64 = 65_536;

/// What the next number says.
#[derive(Clone, Copy)]
enum Form {
    Byte,
    Short,
    Int,
    Long,
    /// How many bytes `z` there are.
    Room,
    /// How many zeros there are.
    Zeros,
}

/// Bytes that are written up to a word.
#[derive(Drop)]
pub struct Memory {
    bytes: Vec<u8>,
    form: Option<Form>,
}

fn form_of(word: &str) -> Option<Form> {
    if word == "byte" {
        Some(Form::Byte)
    } else if word == "short" {
        Some(Form::Short)
    } else if word == "int" {
        Some(Form::Int)
    } else if word == "long" {
        Some(Form::Long)
    } else if word == "room" {
        Some(Form::Room)
    } else if word == "zeros" {
        Some(Form::Zeros)
    } else {
        None
    }
}

/// What a letter of a text stands for.
pub fn character(letter: u8) -> u8 {
    match letter {
        b'_' => b' ',
        _ => letter,
    }
}

/// What stands between `<` and `>`.
fn in_brackets(word: &str) -> Option<&str> {
    word.strip_prefix("<")?.strip_suffix(">")
}

/// Whether a word is a text, of either kind.
pub fn is_text(word: &str) -> bool {
    word.strip_prefix("'").is_some() || in_brackets(word).is_some()
}

impl Memory {
    /// No bytes.
    pub fn new(alloc: Global) -> Memory {
        Memory {
            bytes: Vec::new(alloc),
            form: None,
        }
    }

    /// The bytes.
    pub fn bytes(&self) -> &[u8] {
        self.bytes.as_slice()
    }

    /// How many bytes there are.
    pub fn len(&self) -> usize {
        self.bytes.len()
    }

    /// The address of the next byte.
    pub fn address(&self) -> u64 {
        FIRST_ADDRESS.saturating_add(self.bytes.len() as u64)
    }

    /// Adds bytes.
    pub fn push(&mut self, bytes: &[u8]) -> Result<(), AllocError> {
        self.bytes.extend_from_slice(bytes)
    }

    /// Takes the bytes behind the first ones away.
    pub fn truncate(&mut self, count: usize) {
        self.bytes.truncate(count);
        self.form = None;
    }

    fn push_text(&mut self, text: &str) -> Result<(), AllocError> {
        self.form = None;
        for letter in text.as_bytes() {
            self.bytes.push(character(*letter))?;
        }
        Ok(())
    }

    /// Adds so many bytes of one value.
    fn push_many(&mut self, count: u64, byte: u8) -> Result<(), Fail> {
        let end = self.bytes.len().saturating_add(usize::try_from(count)?);
        self.bytes.resize(end, byte)?;
        Ok(())
    }

    fn push_number(&mut self, number: u64) -> Result<(), Fail> {
        match self.form.ok_or("no form of a number")? {
            Form::Byte => self.push(&u8::try_from(number)?.to_le_bytes())?,
            Form::Short => self.push(&u16::try_from(number)?.to_le_bytes())?,
            Form::Int => self.push(&u32::try_from(number)?.to_le_bytes())?,
            Form::Long => self.push(&number.to_le_bytes())?,
            Form::Room => self.push_many(number, b'z')?,
            Form::Zeros => self.push_many(number, 0)?,
        }
        Ok(())
    }

    fn align(&mut self) -> Result<(), AllocError> {
        self.form = None;
        let past = self.bytes.len() % 8;
        if past > 0 {
            let end = self.bytes.len().saturating_add(8 - past);
            self.bytes.resize(end, 0)?;
        }
        Ok(())
    }

    /// Adds what a word says.
    pub fn take(&mut self, word: &str) -> Result<(), Fail> {
        if let Some(text) = word.strip_prefix("'") {
            self.push_text(text)?;
            self.bytes.push(0)?;
        } else if let Some(text) = in_brackets(word) {
            self.push_text(text)?;
        } else if word == "align" {
            self.align()?;
        } else if let Some(form) = form_of(word) {
            self.form = Some(form);
        } else {
            self.push_number(value(word).ok_or("no number in memory")?)?;
        }
        Ok(())
    }
}
