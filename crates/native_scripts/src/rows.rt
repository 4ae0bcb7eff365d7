//! Rows of a script: what is done with the native kernel, and what comes of it.
//!
//!     openat at_fdcwd '/f o_creat+o_rdwr 0o600 = 3      a call, its arguments, and its result
//!     openat at_fdcwd '/none o_rdonly ! enoent          the same, with its error
//!     read 3 at 5 : room 5 waits 0                      the same, where it waits; of a write, so many bytes are put already
//!     nanosleep at : long 1 1 until 1000000001          the same, where it waits until a time of the clock
//!     read 0 at 3 : room 3 stops read_fault             the same, where the kernel stops
//!     read 3 at+1 8 : room 6 = 3 : room 1 <abc> room 2  a call with memory, and what it has afterwards
//!     # words                                           a remark
//!
//! The rows that are no calls are those of `steps`. Arguments that are left out are 0. A text as an argument stands in host memory,
//! one behind the other, and the argument is its address. What memory has besides stands behind a colon. After the call it has the
//! same, or, from there on, what stands behind a second colon.
use crate::memory::{Memory, is_text};
use crate::numbers::{call_number, error_number, value};
use kernel_core::{Reply, Stop, Wake};
use std::alloc::Global;
use std::test::Fail;

/// What comes of a call.
pub type Came = Result<Reply, Stop>;

/// A call by its number; what host memory has before and after; and what comes of it.
#[derive(Drop)]
pub struct Call {
    pub number: u64,
    pub arguments: [u64; 6],
    pub before: Memory,
    pub after: Memory,
    pub came: Came,
}

/// What the next word of a line is.
#[derive(Clone, Copy)]
enum Next {
    Name,
    Argument,
    Memory,
    Value,
    Error,
    Waiting,
    Time,
    Stop,
    /// A second colon, or nothing.
    Colon,
    MemoryAfter,
}

/// A line that is read up to a word.
#[derive(Drop)]
struct Reader {
    call: Call,
    /// How many arguments there are.
    count: usize,
    /// Where the memory begins that stands behind the colon.
    place: usize,
    next: Next,
}

/// What stands behind this word, where it ends the arguments and the memory before the call.
fn outcome(word: &str) -> Option<Next> {
    if word == "=" {
        Some(Next::Value)
    } else if word == "!" {
        Some(Next::Error)
    } else if word == "waits" {
        Some(Next::Waiting)
    } else if word == "until" {
        Some(Next::Time)
    } else if word == "stops" {
        Some(Next::Stop)
    } else {
        None
    }
}

fn stop_of(word: &str) -> Option<Stop> {
    if word == "read_fault" {
        Some(Stop::ReadFault)
    } else if word == "write_fault" {
        Some(Stop::WriteFault)
    } else {
        None
    }
}

/// A result.
fn given(word: &str) -> Option<Came> {
    Some(Ok(Reply::Done(value(word)?.cast_signed())))
}

/// An error, whose number has its sign turned.
fn refused(word: &str) -> Option<Came> {
    let number = error_number(word)?.cast_signed();
    Some(Ok(Reply::Done(0i64.wrapping_sub(number))))
}

/// A wait without a deadline.
fn waiting(word: &str) -> Option<Came> {
    Some(Ok(Reply::Sleep(Wake {
        done: value(word)?,
        until: None,
    })))
}

/// A wait until a time, in nanoseconds.
fn waiting_until(word: &str) -> Option<Came> {
    Some(Ok(Reply::Sleep(Wake {
        done: 0,
        until: Some(value(word)?),
    })))
}

fn stopped(word: &str) -> Option<Came> {
    Some(Err(stop_of(word)?))
}

impl Reader {
    fn begin(&mut self, word: &str) -> Result<(), Fail> {
        self.call.number = call_number(word).ok_or("no call")?;
        self.next = Next::Argument;
        Ok(())
    }

    /// The number of an argument, whose text is put into memory.
    fn argument(&mut self, word: &str) -> Result<u64, Fail> {
        if is_text(word) {
            let address = self.call.before.address();
            self.call.before.take(word)?;
            return Ok(address);
        }
        Ok(value(word).ok_or("no argument")?)
    }

    fn add_argument(&mut self, word: &str) -> Result<(), Fail> {
        let number = self.argument(word)?;
        if self.count >= 6 {
            return Err(Fail::from("more than six arguments"));
        }
        self.call.arguments[self.count] = number;
        self.count += 1;
        Ok(())
    }

    /// An argument, or what stands behind the last one.
    fn go_on(&mut self, word: &str) -> Result<(), Fail> {
        if let Some(next) = outcome(word) {
            self.next = next;
        } else if word == ":" {
            self.place = self.call.before.len();
            self.next = Next::Memory;
        } else {
            self.add_argument(word)?;
        }
        Ok(())
    }

    /// What memory has before the call, or what stands behind it.
    fn remember(&mut self, word: &str) -> Result<(), Fail> {
        match outcome(word) {
            Some(next) => {
                self.next = next;
                Ok(())
            }
            None => self.call.before.take(word),
        }
    }

    /// What comes of the call.
    fn end(&mut self, came: Option<Came>) -> Result<(), Fail> {
        self.call.came = came.ok_or("no outcome")?;
        self.call.after.push(self.call.before.bytes())?;
        self.next = Next::Colon;
        Ok(())
    }

    /// The second colon.
    fn change(&mut self, word: &str) -> Result<(), Fail> {
        if word != ":" {
            return Err(Fail::from("no colon"));
        }
        self.call.after.truncate(self.place);
        self.next = Next::MemoryAfter;
        Ok(())
    }

    fn take(&mut self, word: &str) -> Result<(), Fail> {
        match self.next {
            Next::Name => self.begin(word),
            Next::Argument => self.go_on(word),
            Next::Memory => self.remember(word),
            Next::Value => self.end(given(word)),
            Next::Error => self.end(refused(word)),
            Next::Waiting => self.end(waiting(word)),
            Next::Time => self.end(waiting_until(word)),
            Next::Stop => self.end(stopped(word)),
            Next::Colon => self.change(word),
            Next::MemoryAfter => self.call.after.take(word),
        }
    }
}

fn new_reader(alloc: Global) -> Reader {
    Reader {
        call: Call {
            number: 0,
            arguments: [0; 6],
            before: Memory::new(alloc),
            after: Memory::new(alloc),
            came: Ok(Reply::Done(0)),
        },
        count: 0,
        place: 0,
        next: Next::Name,
    }
}

/// Reads a call.
pub fn read_call(alloc: Global, words: &[&str]) -> Result<Call, Fail> {
    let mut reader = new_reader(alloc);
    for word in words {
        reader.take(word)?;
    }
    match reader.next {
        Next::Colon | Next::MemoryAfter => Ok(reader.call),
        _ => Err(Fail::from("a row is cut off")),
    }
}
