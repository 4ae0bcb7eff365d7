//! Which descriptors a call asks for: how many count, and where the three sets are (select(2)).
ghost use Rattle.std.specs.Prelude.{◌≡◌, ◌≤◌};
ghost use Rattle.bridge_select.specs.inside.Requests.{asked_of, asked_words};
ghost use Rattle.kernel_model.specs.Readiness.{counted_fds};
ghost use Rattle.o32_model.specs.Selecting as spec;
ghost use Rattle.o32_model.specs.WaitEnds as ends;

use o32_model::{CallWords, Wait};

/// How many descriptors count at most.
const FDS: u32 = 1024;

/// The number of bits of a word of a set.
const WORD_BITS: u32 = 32;

/// The number of descriptors, and the addresses of the three sets, 0 where there is none.
#[derive(Clone, Copy)]
pub(crate) struct Asked {
    pub(crate) count: i32,
    pub(crate) read: u32,
    pub(crate) write: u32,
    pub(crate) except: u32,
}

impl Asked {
    /// What a call with these words asks for.
    pub(crate) fn of_call(words: &CallWords) -> Asked
        ensures { asked_of result ≡ asked_words words.now.reg }
    {
        Asked::of(words.reg)
    }

    /// What a call that waits has asked for.
    pub(crate) fn of_wait(wait: &Wait) -> Asked
        ensures { asked_of result ≡ ends.asked_by wait.now }
    {
        let [count, read, write, except, _, _] = wait.words;
        Asked::of([count, read, write, except])
    }

    fn of(words: [u32; 4]) -> Asked
        ensures { asked_of result ≡ asked_words words }
    {
        let [count, read, write, except] = words;
        Asked {
            count: count.cast_signed(),
            read,
            write,
            except,
        }
    }
}

/// How many descriptors count.
fn counted(count: i32) -> u32
    ensures value { result ≡ counted_fds count }
    ensures few { result ≤ 1024 }
{
    count.unsigned_abs().min(FDS)
}

/// How many words of 32 bits the sets have.
pub(crate) fn word_count(count: i32) -> usize
    ensures value { result ≡ spec.word_count count }
    ensures few { result ≤ 32 }
{
    ((counted(count) + (WORD_BITS - 1)) / WORD_BITS) as usize
}
