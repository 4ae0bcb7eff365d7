//! The words of a line, and the words that are numbers.

ghost use Rattle.std.specs.Prelude.{◌≡◌, ◌+◌, ◌-◌, ◌∷◌, [], ◌<◌, ◌≤◌, ◌^◌, length, position, min, ◌==◌, IfOk, MatchOption, IsTrue};
ghost use Rattle.std.specs.List.{list_all};
ghost use Rattle.schedule.specs.Text.{pieces, is_printed, is_decimal, is_hexadecimal, is_number, are_bytes, number_of, within, number_said, pair_said, triple_said};

use crate::refusal::ScheduleRule;
use std::marker::Model;

/// The range of a number, both ends included.
#[derive(Clone, Copy)]
pub struct Bounds {
    pub least: u64,
    pub most: u64,
}

/// The place of the first separator.
fn place_of(bytes: &[u8], separator: u8) -> Option<usize>
    ensures { result ≡ position (λ b. b == separator) bytes.now }
{
    bytes.iter().position(|b| *b == separator)
}

/// The bytes in front of the first separator, and those behind it; `None` where there is none.
pub fn split_once(bytes: &[u8], separator: u8) -> Option<(&[u8], &[u8])>
    ensures { MatchOption result
        (pieces separator bytes.now ≡ bytes.now ∷ [])
        (λ halves. (pieces separator bytes.now ≡ halves.0.now ∷ pieces separator halves.1.now)
        × (length halves.1.now < length bytes.now)) }
{
    match place_of(bytes, separator) {
        Some(place) => Some((&bytes[..place], &bytes[place + 1..])),
        None => None,
    }
}

/// The words of a line that are left, one space between them.
#[derive(Drop)]
pub struct Words<'a> {
    rest: Option<&'a [u8]>,
}

impl<'a> Model for Words<'a> {
    ghost use Rattle.std.specs.Prelude.{List, ℕ};
    ghost use Rattle.schedule.specs.inside.Words.{words_left};

    ghost Value = { List (List ℕ) };

    ghost view = { λ words. words_left words.rest };
}

impl<'a> Words<'a> {
    ghost use Rattle.schedule.specs.Text.{words_of};

    /// All words of a line.
    pub fn new(line: &'a [u8]) -> Words<'a>
        ensures { result ≡ words_of line.now }
    {
        Words { rest: Some(line) }
    }

    /// Takes the first word; `None` where none is left.
    pub fn next(&mut self) -> Option<&'a [u8]>
        ensures { MatchOption result
            ((self.old ≡ []) × (self.new ≡ []))
            (λ word. self.old ≡ word.now ∷ self.new) }
    {
        let rest = self.rest?;
        match split_once(rest, b' ') {
            Some((word, after)) => {
                self.rest = Some(after);
                Some(word)
            }
            None => {
                self.rest = None;
                Some(rest)
            }
        }
    }
}

/// Whether all bytes are spaces or other printed characters of ASCII.
pub fn are_printed(bytes: &[u8]) -> bool
    ensures { result ≡ list_all is_printed bytes.now }
{
    bytes.iter().all(|b| matches!(*b, b' '..=b'~'))
}

fn are_decimal(bytes: &[u8]) -> bool
    ensures { result ≡ list_all is_decimal bytes.now }
{
    bytes.iter().all(|b| matches!(*b, b'0'..=b'9'))
}

fn are_hexadecimal(bytes: &[u8]) -> bool
    ensures { result ≡ list_all is_hexadecimal bytes.now }
{
    bytes
        .iter()
        .all(|b| matches!(*b, b'0'..=b'9' | b'a'..=b'f'))
}

/// Whether a word is a number without sign and leading zero.
fn is_number(word: &[u8]) -> bool
    ensures { result ≡ is_number word.now }
{
    match word {
        [] => false,
        [_] => are_decimal(word),
        [first, ..] => *first != b'0' && are_decimal(word),
    }
}

/// Whether a word is an even count of lower-case hexadecimal digits, and not empty.
pub fn are_bytes(word: &[u8]) -> bool
    ensures { result ≡ are_bytes word.now }
{
    !word.is_empty() && word.len() % 2 == 0 && are_hexadecimal(word)
}

/// The number that a word of decimal digits says; from 2^64 - 1 on, 2^64 - 1.
fn number_of(word: &[u8]) -> u64
    ensures { result ≡ min (number_of word.now) (2 ^ 64 - 1) }
{
    let mut number = 0u64;
    for digit in word {
        number = number
            .saturating_mul(10)
            .saturating_add(u64::from(digit.saturating_sub(b'0')));
    }
    number
}

/// A number in its range.
fn within(bounds: Bounds, number: u64) -> Result<u64, ScheduleRule>
    ensures { result ≡ within bounds number }
{
    if bounds.least <= number && number <= bounds.most {
        Ok(number)
    } else {
        Err(ScheduleRule::Range)
    }
}

/// The number that a word says, in its range.
fn number_within(bounds: Bounds, word: &[u8]) -> Result<u64, ScheduleRule>
    requires { bounds.most < 2 ^ 64 - 1 }
    ensures value { result ≡ within bounds (number_of word.now) }
    ensures bounded { IfOk result (λ n. n ≤ bounds.most) }
{
    within(bounds, number_of(word))
}

/// A word that is a number in its range.
pub fn number(bounds: Bounds, word: &[u8]) -> Result<u64, ScheduleRule>
    requires { bounds.most < 2 ^ 64 - 1 }
    ensures { result ≡ number_said bounds word.now }
{
    if !is_number(word) {
        return Err(ScheduleRule::Form);
    }
    number_within(bounds, word)
}

/// Two words that are numbers in their ranges.
pub fn pair(first: Bounds, second: Bounds, a: &[u8], b: &[u8]) -> Result<(u64, u64), ScheduleRule>
    requires first_bounded { first.most < 2 ^ 64 - 1 }
    requires second_bounded { second.most < 2 ^ 64 - 1 }
    ensures value { result ≡ pair_said first second a.now b.now }
    ensures bounded { IfOk result (λ n. (n.0 ≤ first.most) × (n.1 ≤ second.most)) }
{
    if !(is_number(a) && is_number(b)) {
        return Err(ScheduleRule::Form);
    }
    Ok((number_within(first, a)?, number_within(second, b)?))
}

/// Three words that are numbers in their ranges.
pub fn triple(
    first: (Bounds, &[u8]),
    second: (Bounds, &[u8]),
    third: (Bounds, &[u8]),
) -> Result<(u64, u64, u64), ScheduleRule>
    requires first_bounded { first.0.most < 2 ^ 64 - 1 }
    requires second_bounded { second.0.most < 2 ^ 64 - 1 }
    requires third_bounded { third.0.most < 2 ^ 64 - 1 }
    ensures value { result
        ≡ triple_said first.entry.0 second.entry.0 third.entry.0 first.entry.1.now second.entry.1.now third.entry.1.now }
    ensures bounded { IfOk result
        (λ n. (n.0 ≤ first.entry.0.most) × (n.1 ≤ second.entry.0.most) × (n.2 ≤ third.entry.0.most)) }
{
    let (a, b, c) = (first.1, second.1, third.1);
    if !(is_number(a) && is_number(b) && is_number(c)) {
        return Err(ScheduleRule::Form);
    }
    Ok((
        number_within(first.0, a)?,
        number_within(second.0, b)?,
        number_within(third.0, c)?,
    ))
}
