//! Why nothing was run, and how it is said.
ghost use Rattle.std.specs.Prelude.{Some};
ghost use Rattle.session_files.specs.Lines.{text_of};

use elf_image::ElfRefusal;
use fs_image::ImageRefusal;
use schedule::ScheduleRefusal;
use std::fmt;

/// Why nothing was run. The names and their numbers are this project's own.
#[derive(Clone, Copy, PartialEq, Eq)]
pub enum Refusal {
    /// The words are not in the grammar: the index, from 0, of the first word at which a reading from the left fails,
    /// or the number of words where one is missing.
    Usage { word: usize },
    /// There is no such file: 1 is the program, 2 the image, 3 the schedule, 4 the journal.
    Missing { file: u8 },
    /// The file is longer than its limit: 1 is the program, which has at most 64 MiB, 2 the image, which has at most
    /// 640 MiB, 3 the schedule, which has at most 16 MiB, and 4 the journal, which has at most 256 MiB.
    TooLong { file: u8 },
    /// The program breaks this rule on executables.
    Elf(ElfRefusal),
    /// The image breaks this rule of its format, at this byte.
    Image(ImageRefusal),
    /// The schedule breaks this rule of its format, at this line, counted from 1.
    Schedule(ScheduleRefusal),
    /// The guest's arguments and environment, with the words of its first stack, pass 131,072 bytes.
    Start,
    /// The journal breaks its form at the field that begins at this byte, or ends early there.
    Journal { at: u64 },
}

impl fmt::Display for Refusal {
    ghost output = { λ refusal. Some (text_of refusal) };

    fn fmt<W: fmt::Write>(&self, f: &mut fmt::Formatter<W>) -> fmt::Result {
        match self {
            Refusal::Usage { word } => write!(f, "o32run: usage at word {word}"),
            Refusal::Missing { file } => write!(f, "o32run: file {file} missing"),
            Refusal::TooLong { file } => write!(f, "o32run: file {file} too long"),
            Refusal::Elf(rule) => {
                let number = rule.number();
                write!(f, "o32run: elf rule {number}")
            }
            Refusal::Image(broken) => {
                let rule = broken.rule;
                let at = broken.at;
                write!(f, "o32run: image rule {rule} at {at}")
            }
            Refusal::Schedule(broken) => {
                let rule = broken.rule;
                let line = broken.line;
                write!(f, "o32run: schedule rule {rule} line {line}")
            }
            Refusal::Start => write!(f, "o32run: arguments too long"),
            Refusal::Journal { at } => write!(f, "o32run: journal at {at}"),
        }
    }
}
