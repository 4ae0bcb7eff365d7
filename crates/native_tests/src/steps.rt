//! The rows of a script that are no calls.
//!
//!     clock 1000000000            the clock goes to this time, in nanoseconds
//!     post chld dropped           a signal is posted from outside, and what becomes of it: it is `queued`, `dropped`, or there is
//!                                 no room (`full`); `post_awaited` says that an rt_sigtimedwait(2) waits for it
//!     deliverable yes             whether a signal that is not blocked pends
//!     next_time none              when the interval timer is due next: a time, or `none`
//!     output <Hi>                 all that was written to standard output; `errors`, to standard error
//!     names 9 mkdirat at_fdcwd at+2 0o700 = 9   of so many calls of this kind, each with another name, how many are carried out
//!                                 until one is refused; host memory has `f` and a NUL, and at its third byte the name
//!     blocks 9 pwrite64 3 = 9     the same, where each writes one byte to another block of an open file
use kernel_core::{RealTime, Sig};
use native_kernel::Post;
use native_scripts::Words;
use native_scripts::memory::Memory;
use native_scripts::rows::{Call, read_call};
use std::alloc::Global;
use std::test::Fail;

/// A row of a script.
#[derive(Drop)]
pub(crate) enum Step {
    /// The line is empty, or a remark.
    Nothing,
    Makes(Call),
    Clock(u64),
    Posts {
        signal: Sig,
        is_awaited: bool,
        came: Post,
    },
    IsDeliverable(bool),
    NextTime(Option<u64>),
    Output(Memory),
    Errors(Memory),
    /// So many calls at most, and their result is how many are carried out.
    Names(u64, Call),
    Blocks(u64, Call),
}

/// What a word does that stands before a signal, a time or something else.
fn read_event(name: &str, words: &mut Words) -> Result<Option<Step>, Fail> {
    if name == "clock" {
        Ok(Some(Step::Clock(words.number()?)))
    } else if name == "post" {
        Ok(Some(posts(words, false)?))
    } else if name == "post_awaited" {
        Ok(Some(posts(words, true)?))
    } else if name == "deliverable" {
        Ok(Some(Step::IsDeliverable(is_yes(words)?)))
    } else if name == "next_time" {
        Ok(Some(Step::NextTime(time_or_none(words)?)))
    } else {
        Ok(None)
    }
}

fn posts(words: &mut Words, is_awaited: bool) -> Result<Step, Fail> {
    let signal = signal_of(words.next()?).ok_or("no signal")?;
    let came = post_of(words.next()?).ok_or("neither queued, dropped nor full")?;
    Ok(Step::Posts {
        signal,
        is_awaited,
        came,
    })
}

/// The signals that are posted from outside; `rt40` is the real-time signal 40.
fn signal_of(word: &str) -> Option<Sig> {
    if word == "hup" {
        Some(Sig::Hup)
    } else if word == "usr1" {
        Some(Sig::Usr1)
    } else if word == "term" {
        Some(Sig::Term)
    } else if word == "chld" {
        Some(Sig::Chld)
    } else if word == "cont" {
        Some(Sig::Cont)
    } else if word == "tstp" {
        Some(Sig::Tstp)
    } else if word == "rt40" {
        Some(Sig::RealTime(RealTime::new(40)?))
    } else {
        None
    }
}

fn post_of(word: &str) -> Option<Post> {
    if word == "queued" {
        Some(Post::Queued)
    } else if word == "dropped" {
        Some(Post::Dropped)
    } else if word == "full" {
        Some(Post::Full)
    } else {
        None
    }
}

fn is_yes(words: &mut Words) -> Result<bool, Fail> {
    let word = words.next()?;
    if word == "yes" {
        Ok(true)
    } else if word == "no" {
        Ok(false)
    } else {
        Err(Fail::from("neither yes nor no"))
    }
}

fn time_or_none(words: &mut Words) -> Result<Option<u64>, Fail> {
    if words.next_is("none") {
        return Ok(None);
    }
    Ok(Some(words.number()?))
}

fn bytes_of(alloc: Global, words: &[&str]) -> Result<Memory, Fail> {
    let mut bytes = Memory::new(alloc);
    for word in words {
        bytes.take(word)?;
    }
    Ok(bytes)
}

/// A row with bytes, or many calls.
fn read_many(alloc: Global, name: &str, rest: &[&str]) -> Result<Option<Step>, Fail> {
    if name == "output" {
        Ok(Some(Step::Output(bytes_of(alloc, rest)?)))
    } else if name == "errors" {
        Ok(Some(Step::Errors(bytes_of(alloc, rest)?)))
    } else if name == "names" {
        let (most, call) = many_calls(alloc, rest)?;
        Ok(Some(Step::Names(most, call)))
    } else if name == "blocks" {
        let (most, call) = many_calls(alloc, rest)?;
        Ok(Some(Step::Blocks(most, call)))
    } else {
        Ok(None)
    }
}

fn many_calls(alloc: Global, words: &[&str]) -> Result<(u64, Call), Fail> {
    let (first, call) = words.split_first().ok_or("no count")?;
    let most = Words::new(&[*first]).number()?;
    Ok((most, read_call(alloc, call)?))
}

fn read_words(alloc: Global, words: &[&str]) -> Result<Step, Fail> {
    let Some((name, rest)) = words.split_first() else {
        return Ok(Step::Nothing);
    };
    if *name == "#" {
        return Ok(Step::Nothing);
    }
    if let Some(step) = read_many(alloc, name, rest)? {
        return Ok(step);
    }
    let mut left = Words::new(rest);
    match read_event(name, &mut left)? {
        Some(step) if left.is_over() => Ok(step),
        Some(_) => Err(Fail::from("a word too many")),
        None => Ok(Step::Makes(read_call(alloc, words)?)),
    }
}

/// Reads a line.
pub(crate) fn read(alloc: Global, line: &str) -> Result<Step, Fail> {
    let words: Vec<&str> = line.split_whitespace().collect(alloc)?;
    read_words(alloc, words.as_slice())
}
