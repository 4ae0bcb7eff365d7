//! Programs as scripts in words: what each does, and how its run ends.
//!
//!     addiu $a0 $zero 7  syscall      instructions, as `instructions` reads them
//!     input 7879                      what its input has, two digits for each byte
//!     out 48690a  err 48              what it writes to standard output and to standard error
//!     exited 7 turns 12               how it ends, and how many turns it takes
//!
//! An end is `exited` with a status, `killed` with a signal's number, or `blocked`. Input and outputs that are left out are empty.
use crate::emulators::{Look, Streams, look_at, new_streams, run};
use crate::instructions::instruction;
use crate::script::Words;
use guest_scripts::reading::push_bytes;
use kernel_core::Finish;
use o32_machine::Emulator;
use std::alloc::Global;
use std::test::Fail;

/// A program, and what its run takes and gives.
#[derive(Drop)]
struct Program {
    /// What it does.
    code: Vec<u32>,
    /// What its input has.
    input: Vec<u8>,
    /// What it writes to standard output.
    out: Vec<u8>,
    /// What it writes to standard error.
    err: Vec<u8>,
}

/// How a program's run ends, and how many turns it takes.
#[derive(Clone, Copy)]
struct End {
    finish: Finish,
    turns: u64,
}

impl Program {
    /// Takes up what a word begins that begins no end.
    fn take(&mut self, word: &str, words: &mut Words) -> Result<(), Fail> {
        match word {
            "input" => push_bytes(&mut self.input, words.next()?),
            "out" => push_bytes(&mut self.out, words.next()?),
            "err" => push_bytes(&mut self.err, words.next()?),
            mnemonic => {
                self.code.push(instruction(mnemonic, words)?)?;
                Ok(())
            }
        }
    }

    /// Whether its run ends so.
    fn ends(&self, alloc: Global, end: End) -> Result<bool, Fail> {
        look_at(alloc, &self.code, &EndsSo { program: self, end })
    }

    fn is_written(&self, streams: &Streams) -> bool {
        streams.out.bytes() == self.out.as_slice() && streams.err.bytes() == self.err.as_slice()
    }
}

/// Whether the run of a program ends so.
#[derive(Clone, Copy)]
struct EndsSo<'a> {
    program: &'a Program,
    end: End,
}

impl Look for EndsSo<'_> {
    type Seen = bool;

    fn see(&self, alloc: Global, emulator: &mut Emulator) -> Result<bool, Fail> {
        let mut streams = new_streams(alloc, &self.program.input, &[])?;
        Ok(is_end(emulator, &mut streams, self.end) && self.program.is_written(&streams))
    }
}

/// Whether a run ends so.
fn is_end(emulator: &mut Emulator, streams: &mut Streams, end: End) -> bool {
    let finish = run(emulator, streams);
    finish == Some(end.finish) && emulator.is_over() && emulator.turns() == end.turns
}

/// How a run is over, where a word begins an end.
fn finish_of(word: &str, words: &mut Words) -> Result<Option<Finish>, Fail> {
    match word {
        "exited" => Ok(Some(Finish::Exited(words.byte()?))),
        "killed" => Ok(Some(Finish::Killed(words.byte()?))),
        "blocked" => Ok(Some(Finish::Blocked)),
        _ => Ok(None),
    }
}

/// The number of turns of an end.
fn turns_of(words: &mut Words) -> Result<u64, Fail> {
    if words.next()? == "turns" {
        words.number()
    } else {
        Err(Fail::from("no turns"))
    }
}

/// Reads a program, and its end.
fn next_program(alloc: Global, words: &mut Words) -> Result<(Program, End), Fail> {
    let mut program = Program {
        code: Vec::new(alloc),
        input: Vec::new(alloc),
        out: Vec::new(alloc),
        err: Vec::new(alloc),
    };
    for _ in 0..words.count() {
        let word = words.next()?;
        if let Some(finish) = finish_of(word, words)? {
            let turns = turns_of(words)?;
            return Ok((program, End { finish, turns }));
        }
        program.take(word, words)?;
    }
    Err(Fail::from("a program without an end"))
}

/// The first program of a script whose run does not end so, counted from 0.
pub(crate) fn first_wrong(alloc: Global, text: &str) -> Result<Option<usize>, Fail> {
    let items: Vec<&str> = text.split_whitespace().collect(alloc)?;
    let mut words = Words::new(items.as_slice());
    if words.is_over() {
        return Err(Fail::from("no program"));
    }
    for place in 0..words.count() {
        if words.is_over() {
            break;
        }
        let (program, end) = next_program(alloc, &mut words)?;
        if !program.ends(alloc, end)? {
            return Ok(Some(place));
        }
    }
    Ok(None)
}
