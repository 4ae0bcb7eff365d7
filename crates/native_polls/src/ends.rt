//! How a call that waits for descriptors ends.
ghost use Rattle.std.specs.Prelude.{◌≡◌, nat_lt, Ok};
ghost use Rattle.native_calls.specs.Polls.{at_end};
ghost use Rattle.native_calls.specs.Step.{failure, reply_to, value};
ghost use Rattle.native_polls.specs.inside.Waiting.{came_of, found_or_wait, left_stored};

use crate::times::{end_of_wait, store_left};
use host_mem::HostMem;
use kernel_core::{Errno, Reply, Wake};
use number_tables::NativeNumber;

/// What a call came to that was not refused.
#[derive(Clone, Copy)]
pub(crate) enum Found {
    /// It is done: how many were found.
    Told(u32),
    /// It waits.
    Waits(Wake),
}

/// What a call comes to that found so many: it is done where there is one, or where the wait is over, and else
/// it waits.
pub(crate) fn found_or_wait(clock: u64, wait: Option<u128>, count: u32) -> Found
    ensures { came_of (Ok result) ≡ found_or_wait clock wait (nat_lt 0 count) count }
{
    if count > 0 {
        return Found::Told(count);
    }
    match end_of_wait(clock, wait) {
        Some(time) if time <= clock => Found::Told(count),
        until => Found::Waits(Wake { done: 0, until }),
    }
}

/// The reply of a call. At an end the time left is stored, where the time was accepted.
pub(crate) fn ended(
    came: Result<Found, Errno>,
    clock: u64,
    time: u64,
    wait: Result<Option<u128>, Errno>,
    mem: &mut HostMem,
) -> Reply
    ensures reply { result ≡ reply_to value (came_of came) }
    ensures memory { mem.new ≡ at_end (left_stored clock time wait) mem.old (came_of came) }
{
    match came {
        Ok(Found::Waits(wake)) => Reply::Sleep(wake),
        Ok(Found::Told(count)) => {
            store_left(clock, time, wait, mem);
            Reply::Done(i64::from(count))
        }
        Err(error) => {
            store_left(clock, time, wait, mem);
            failure(error)
        }
    }
}

/// An error as a reply: its native number with the sign turned.
#[tactic(auto, using(crate::proofs::ErrorNumbers::number_is_small))]
fn failure(error: Errno) -> Reply
    ensures { result ≡ failure error }
{
    Reply::Done(-(error.to_native() as i64))
}
