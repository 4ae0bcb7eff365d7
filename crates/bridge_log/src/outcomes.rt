//! What a native reply comes to for an o32 program.
ghost use Rattle.std.specs.Prelude.{◌≡◌};
ghost use Rattle.bridge_log.specs.Outcomes.{outcome_of, wait_for};
ghost use Rattle.o32_model.specs.Words.{six_words};

use kernel_core::{Errno, Reply, Wake};
use number_tables::NativeNumber;
use o32_model::{CallWords, Outcome, Wait};

/// What a call comes to that is one native call with this reply, where a number of the reply is the
/// call's result (syscall(2)). An error is the one of the native number; a wait keeps the call's words.
pub fn outcome_of(words: &CallWords, reply: Reply) -> Outcome
    ensures { result ≡ outcome_of words.now reply }
{
    match reply {
        Reply::Done(number) if number < 0 => {
            Outcome::Error(Errno::of_native(number.unsigned_abs()).unwrap_or(Errno::ENOSYS))
        }
        Reply::Done(number) => Outcome::Value((number as u64 % (1 << 32)) as u32),
        Reply::Sleep(wake) => Outcome::Sleep(wait_for(words, wake)),
    }
}

fn wait_for(words: &CallWords, wake: Wake) -> Wait
    ensures { result ≡ wait_for words.now wake }
{
    Wait {
        nr: words.nr,
        words: six_words(words),
        deadline: wake.until,
        done: (wake.done % (1 << 32)) as u32,
        mask: None,
    }
}

fn six_words(words: &CallWords) -> [u32; 6]
    ensures { result ≡ six_words words.now }
{
    [
        words.reg[0],
        words.reg[1],
        words.reg[2],
        words.reg[3],
        words.stack[0].unwrap_or(0),
        words.stack[1].unwrap_or(0),
    ]
}
