ghost use Rattle.std.specs.Prelude.{◌≡◌};

use thiserror::Error;

/// The rules of a schedule's lines, by the numbers that a refusal shows. At one line they are looked
/// at in this order: `End` first, then the others as they stand. The rules are this project's own.
#[derive(Clone, Copy)]
pub enum ScheduleRule {
    /// A byte outside 32 to 126.
    Ascii = 1,
    /// The first word, or the third one of `at`, is unknown.
    Word = 2,
    /// The number of words is wrong, a number is none without sign and leading zero, or the bytes are
    /// no even count of lower-case hexadecimal digits.
    Form = 3,
    /// A number or a count of bytes is out of its range.
    Range = 4,
    /// A setting stands again.
    Twice = 5,
    /// A setting stands after an `at`.
    Late = 6,
    /// A time is below the one before.
    Order = 7,
    /// The last line has no newline.
    End = 8,
}

impl ScheduleRule {
    ghost use Rattle.schedule.specs.Grammar.{number_of_rule};

    /// The number that a refusal shows.
    pub fn number(self) -> u8
        ensures { result ≡ number_of_rule self }
    {
        self as u8
    }
}

/// The first line of a text that breaks a rule, counted from 1, and the first rule that it breaks, by
/// its number (`ScheduleRule`), 1 to 8.
#[derive(Clone, Copy, Debug, PartialEq, Eq)]
pub struct ScheduleRefusal {
    pub line: u64,
    pub rule: u8,
}

/// Why a text gives no schedule.
#[derive(Debug, Drop, Error)]
pub enum ScheduleError {
    #[error("rule {} is broken at line {}", .0.rule, .0.line)]
    Refused(ScheduleRefusal),
    #[error("out of memory")]
    NoMemory,
}
