//! What one line of a schedule says.

ghost use Rattle.std.specs.Prelude.{◌≡◌, ◌<◌, ◌%◌, ◌++◌, ◌∷◌, [], length, IsTrue, IfOk};
ghost use Rattle.std.specs.List.{list_all};
ghost use Rattle.schedule.specs.inside.Draft.{Means};
ghost use Rattle.schedule.specs.Grammar.{starts_event};
ghost use Rattle.schedule.specs.Statement.{keyword_of, deed_of, quantum_said, epoch_said, tty_said, random_said, kill_said, queue_said, deed_said, event_said, row_said, words_said, line_said};
ghost use Rattle.schedule.specs.Text.{bytes_of, hexadecimal, is_hexadecimal, words_of};

use crate::draft::LineError;
use crate::events::{Due, Winsize};
use crate::random::RandomBytes;
use crate::refusal::ScheduleRule;
use crate::text::{self, Bounds, Words};
use std::alloc::{AllocError, Global};

/// A kind of line, by its first word.
#[derive(Clone, Copy)]
pub enum Keyword {
    Quantum,
    Epoch,
    Tty,
    Random,
    At,
}

/// What happens at a time, by the third word of `at`.
#[derive(Clone, Copy)]
pub enum Deed {
    Kill,
    Queue,
}

/// What a line says.
#[derive(Drop)]
pub enum Statement {
    /// Nanoseconds a turn.
    Quantum(u64),
    /// Seconds and nanoseconds from the Unix epoch to the clock's 0.
    Epoch(u64, u32),
    /// The terminal's size.
    Tty(Winsize),
    /// The bytes that stand for chance.
    Random(RandomBytes),
    /// A signal from outside.
    At(Due),
}

/// The range of a time, in nanoseconds.
const TIME: Bounds = Bounds {
    least: 0,
    most: 1 << 60,
};

/// The range of a signal's number by o32.
const SIGNAL: Bounds = Bounds {
    least: 1,
    most: 128,
};

/// The ranges of an epoch's seconds and nanoseconds.
const SECONDS: Bounds = Bounds {
    least: 0,
    most: 1 << 40,
};

const NANOSECONDS: Bounds = Bounds {
    least: 0,
    most: 999_999_999,
};

/// The range of a terminal's rows and columns.
const SIDE: Bounds = Bounds {
    least: 0,
    most: 65_535,
};

/// The range of a queued signal's value.
const VALUE: Bounds = Bounds {
    least: 0,
    most: 0xffff_ffff,
};

/// The greatest count of bytes that stand for chance.
const MOST_BYTES: usize = 4096;

fn keyword_of(word: &[u8]) -> Option<Keyword>
    ensures { result ≡ keyword_of word.now }
{
    if word == b"quantum".as_slice() {
        Some(Keyword::Quantum)
    } else if word == b"epoch".as_slice() {
        Some(Keyword::Epoch)
    } else if word == b"tty".as_slice() {
        Some(Keyword::Tty)
    } else if word == b"random".as_slice() {
        Some(Keyword::Random)
    } else if word == b"at".as_slice() {
        Some(Keyword::At)
    } else {
        None
    }
}

fn deed_of(word: &[u8]) -> Option<Deed>
    ensures { result ≡ deed_of word.now }
{
    if word == b"kill".as_slice() {
        Some(Deed::Kill)
    } else if word == b"queue".as_slice() {
        Some(Deed::Queue)
    } else {
        None
    }
}

fn quantum(words: &mut Words<'_>) -> Result<Statement, ScheduleRule>
    ensures { result ≡ quantum_said words.old }
{
    let (Some(nanoseconds), None) = (words.next(), words.next()) else {
        return Err(ScheduleRule::Form);
    };
    let bounds = Bounds {
        least: 1,
        most: 1_000_000,
    };
    Ok(Statement::Quantum(text::number(bounds, nanoseconds)?))
}

fn epoch(words: &mut Words<'_>) -> Result<Statement, ScheduleRule>
    ensures { result ≡ epoch_said words.old }
{
    let (Some(seconds), Some(nanoseconds), None) = (words.next(), words.next(), words.next()) else {
        return Err(ScheduleRule::Form);
    };
    let (seconds, nanoseconds) = text::pair(SECONDS, NANOSECONDS, seconds, nanoseconds)?;
    Ok(Statement::Epoch(seconds, nanoseconds as u32))
}

fn tty(words: &mut Words<'_>) -> Result<Statement, ScheduleRule>
    ensures { result ≡ tty_said words.old }
{
    let (Some(rows), Some(cols), None) = (words.next(), words.next(), words.next()) else {
        return Err(ScheduleRule::Form);
    };
    let (rows, cols) = text::pair(SIDE, SIDE, rows, cols)?;
    Ok(Statement::Tty(Winsize {
        rows: rows as u16,
        cols: cols as u16,
    }))
}

fn kill(time: &[u8], words: &mut Words<'_>) -> Result<Statement, ScheduleRule>
    ensures { result ≡ kill_said time.now words.old }
{
    let (Some(sig), None) = (words.next(), words.next()) else {
        return Err(ScheduleRule::Form);
    };
    let (time, sig) = text::pair(TIME, SIGNAL, time, sig)?;
    Ok(Statement::At(Due {
        time,
        sig: sig as u8,
        value: None,
    }))
}

fn queue(time: &[u8], words: &mut Words<'_>) -> Result<Statement, ScheduleRule>
    ensures { result ≡ queue_said time.now words.old }
{
    let (Some(sig), Some(value), None) = (words.next(), words.next(), words.next()) else {
        return Err(ScheduleRule::Form);
    };
    let (time, sig, value) = text::triple((TIME, time), (SIGNAL, sig), (VALUE, value))?;
    Ok(Statement::At(Due {
        time,
        sig: sig as u8,
        value: Some(value as u32),
    }))
}

fn event(words: &mut Words<'_>) -> Result<Statement, ScheduleRule>
    ensures { result ≡ event_said words.old }
{
    let (Some(time), Some(deed)) = (words.next(), words.next()) else {
        return Err(ScheduleRule::Form);
    };
    match deed_of(deed).ok_or(ScheduleRule::Word)? {
        Deed::Kill => kill(time, words),
        Deed::Queue => queue(time, words),
    }
}

/// What one hexadecimal digit says.
fn hexadecimal(digit: u8) -> u8
    requires { IsTrue (is_hexadecimal digit) }
    ensures value { result ≡ hexadecimal digit }
    ensures small { result < 16 }
{
    if digit <= b'9' {
        digit - b'0'
    } else {
        digit - b'a' + 10
    }
}

/// The bytes that hexadecimal digits say.
fn bytes_of(alloc: Global, digits: &[u8]) -> Result<RandomBytes, AllocError>
    requires { IsTrue (list_all is_hexadecimal digits.now) }
    ensures { IfOk result (λ bytes. bytes ≡ bytes_of digits.now) }
{
    let mut bytes = Vec::with_capacity(alloc, digits.len() / 2)?;
    let mut left = digits;
    while let [high, low, rest @ ..] = left {
        bytes.push(16 * hexadecimal(*high) + hexadecimal(*low))?;
        left = rest;
    }
    Ok(RandomBytes::from_vec(bytes))
}

fn random(alloc: Global, words: &mut Words<'_>) -> Result<Statement, LineError>
    ensures { Means result (random_said words.old) }
{
    let (Some(digits), None) = (words.next(), words.next()) else {
        return Err(LineError::Broken(ScheduleRule::Form));
    };
    if !text::are_bytes(digits) {
        return Err(LineError::Broken(ScheduleRule::Form));
    }
    if digits.len() > 2 * MOST_BYTES {
        return Err(LineError::Broken(ScheduleRule::Range));
    }
    let bytes = bytes_of(alloc, digits).map_err(|_| LineError::NoMemory)?;
    Ok(Statement::Random(bytes))
}

fn row(
    alloc: Global,
    keyword: Option<Keyword>,
    words: &mut Words<'_>,
) -> Result<Statement, LineError>
    ensures { Means result (row_said keyword words.old) }
{
    let said = match keyword {
        Some(Keyword::Random) => return random(alloc, words),
        Some(Keyword::Quantum) => quantum(words),
        Some(Keyword::Epoch) => epoch(words),
        Some(Keyword::Tty) => tty(words),
        Some(Keyword::At) => event(words),
        None => Err(ScheduleRule::Word),
    };
    said.map_err(LineError::Broken)
}

/// Whether a line's first word is that of an event.
pub fn starts_event(line: &[u8]) -> bool
    ensures { result ≡ starts_event (words_of line.now) }
{
    match Words::new(line).next() {
        Some(first) => matches!(keyword_of(first), Some(Keyword::At)),
        None => false,
    }
}

/// What a line says by itself, or the first of the rules that speak of one line that it breaks.
pub fn read_line(alloc: Global, line: &[u8]) -> Result<Statement, LineError>
    ensures { Means result (line_said line.now) }
{
    if !text::are_printed(line) {
        return Err(LineError::Broken(ScheduleRule::Ascii));
    }
    let mut words = Words::new(line);
    let Some(first) = words.next() else {
        return Err(LineError::Broken(ScheduleRule::Word));
    };
    row(alloc, keyword_of(first), &mut words)
}
