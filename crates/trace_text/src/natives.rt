//! What the log of the native kernel tells of an entry.
ghost use Rattle.std.specs.Prelude.{◌≡◌, ◌++◌, IfOk, Some, codes};
ghost use Rattle.std.specs.String.{string_bytes};
ghost use Rattle.trace_text.specs.Digits.{long_word};
ghost use Rattle.trace_text.specs.NativeLog.{arguments_text, deadline_text, memory_text, reply_text};
ghost use Rattle.trace_text.specs.Trace.{space};

use crate::digits::LongWord;
use kernel_core::{Bytes, NoMemory, Reply};
use std::alloc::Global;
use std::fmt;

/// The six arguments of a call.
#[derive(Clone, Copy)]
pub(crate) struct Arguments {
    pub(crate) words: [u64; 6],
}

#[tactic(auto, unfolding(crate::specs::NativeLog::three_text))]
impl fmt::Display for Arguments {
    ghost output = { λ arguments. Some (arguments_text arguments.words) };

    fn fmt<W: fmt::Write>(&self, f: &mut fmt::Formatter<W>) -> fmt::Result {
        let head = Three {
            first: self.words[0],
            second: self.words[1],
            third: self.words[2],
        };
        let tail = Three {
            first: self.words[3],
            second: self.words[4],
            third: self.words[5],
        };
        write!(f, "{head} {tail}")
    }
}

/// Three arguments of a call.
#[derive(Clone, Copy)]
struct Three {
    first: u64,
    second: u64,
    third: u64,
}

impl fmt::Display for Three {
    ghost output = { λ three. Some (long_word three.first ++ space ++ long_word three.second ++ space ++ long_word three.third) };

    fn fmt<W: fmt::Write>(&self, f: &mut fmt::Formatter<W>) -> fmt::Result {
        let first = LongWord { number: self.first };
        let second = LongWord {
            number: self.second,
        };
        let third = LongWord { number: self.third };
        write!(f, "{first} {second} {third}")
    }
}

/// What a call gave: host memory before and after it, as texts, and its reply.
#[derive(Drop)]
pub(crate) struct Gave<'a> {
    pub(crate) before: &'a str,
    pub(crate) after: &'a str,
    pub(crate) reply: Reply,
}

impl fmt::Display for Gave<'_> {
    ghost output = { λ gave. Some (gave.before.now ++ space ++ gave.after.now ++ codes " = " ++ reply_text gave.reply) };

    fn fmt<W: fmt::Write>(&self, f: &mut fmt::Formatter<W>) -> fmt::Result {
        let before = self.before;
        let after = self.after;
        let replied = Replied { reply: self.reply };
        write!(f, "{before} {after} = {replied}")
    }
}

/// What a call replied.
#[derive(Clone, Copy)]
struct Replied {
    reply: Reply,
}

#[tactic(auto, unfolding(crate::specs::NativeLog::reply_text))]
impl fmt::Display for Replied {
    ghost output = { λ replied. Some (reply_text replied.reply) };

    fn fmt<W: fmt::Write>(&self, f: &mut fmt::Formatter<W>) -> fmt::Result {
        match self.reply {
            Reply::Done(number) => write!(f, "{number}"),
            Reply::Sleep(wake) => {
                let done = wake.done;
                let until = Deadline { time: wake.until };
                write!(f, "sleep {done} {until}")
            }
        }
    }
}

/// The deadline of a wait.
#[derive(Clone, Copy)]
struct Deadline {
    time: Option<u64>,
}

#[tactic(auto, unfolding(crate::specs::NativeLog::deadline_text))]
impl fmt::Display for Deadline {
    ghost output = { λ deadline. Some (deadline_text deadline.time) };

    fn fmt<W: fmt::Write>(&self, f: &mut fmt::Formatter<W>) -> fmt::Result {
        match self.time {
            None => write!(f, "-"),
            Some(time) => write!(f, "{time}"),
        }
    }
}

/// The bytes of host memory.
#[tactic(auto, unfolding(crate::specs::NativeLog::memory_text))]
pub(crate) fn memory_text(alloc: Global, bytes: &Bytes) -> Result<String, NoMemory>
    ensures { IfOk result (λ text. string_bytes text ≡ memory_text bytes.now) }
{
    if bytes.is_empty() {
        return Ok(String::from_str(alloc, "-")?);
    }
    Ok(hex::encode(alloc, bytes.as_slice())?)
}
