//! The native call, ppoll(2).
ghost use Rattle.std.specs.Prelude.{◌≡◌};
ghost use Rattle.bridge_limits.specs.Passed.{LooksFor, Proceeds, error_of};
ghost use Rattle.bridge_poll.specs.inside.Asking as spec;
ghost use Rattle.bridge_poll.specs.inside.Asking.{IsAnswer, polling};
ghost use Rattle.outside.specs.Streams.{contents};

use crate::entries::{Entries, put_entries};
use crate::limited::Limits;
use bridge_limits::{Below, put_limits};
use guest_space::Space;
use kernel_core::{Errno, Reply, Stop};
use native_numbers::PPOLL;
use number_tables::NativeNumber;
use outside::{Devices, Sink, Source};

/// What a call comes to.
#[derive(Clone, Copy)]
pub(crate) enum Came {
    /// It ends: of so many entries any event is told, or there is an error.
    Ended(Result<u32, Errno>),
    /// It waits until this time of the clock, in nanoseconds, or without end.
    Waits(Option<u64>),
}

/// What a call comes to, and where in host memory the entries and the time stand then, 0 where there is none.
#[derive(Clone, Copy)]
pub(crate) struct Answer {
    pub(crate) came: Came,
    pub(crate) entries: u64,
    pub(crate) time: u64,
}

/// Makes the native call of what the program asks for, which finds each error in its order: EINVAL and EFAULT of the
/// mask, EINVAL for more than 1,024 entries, EFAULT of the entries. It stops early for want of memory, or by a device.
pub(crate) fn ask<I: Source, O: Sink, E: Sink>(
    entries: Entries,
    limits: Limits,
    space: &Space,
    dev: &mut Devices<I, O, E>,
    below: &mut Below,
) -> Result<Answer, Stop>
    ensures looks { LooksFor (λ answer. IsAnswer below.old.kernel.now limits.wait (polling below.old.kernel.now space.now entries limits)
        entries.count answer below.new.memory.now) result below.old.kernel.now below.new.kernel.now
        (contents I.left O.written E.written dev.old) (contents I.left O.written E.written dev.new) below.old.log.now below.new.log.now }
    ensures proceeds { Proceeds I.faults O.faults E.faults result below.old below.new dev.old dev.new }
{
    space.whole();
    let placed = put_limits(limits.wait, limits.own, below.memory)?;
    let place = put_entries(space, entries, below.memory)?;
    let count = u64::from(entries.count);
    let size = u64::from(limits.size);
    let args = [place, count, placed.time, placed.mask, size, 0];
    let reply = below.look(PPOLL, args, dev)?;
    Ok(Answer {
        came: came_of(reply),
        entries: place,
        time: placed.time,
    })
}

/// What a reply comes to.
fn came_of(reply: Reply) -> Came
    ensures { result ≡ spec.came_of reply }
{
    match reply {
        Reply::Done(number) => Came::Ended(count_of(number)),
        Reply::Sleep(wake) => Came::Waits(wake.until),
    }
}

/// The number of a reply, or the error that it stands for.
fn count_of(number: i64) -> Result<u32, Errno>
    ensures { result ≡ spec.count_of number }
{
    if number < 0 {
        return Err(error_of(number.unsigned_abs()));
    }
    Ok((number as u64 % (1 << 32)) as u32)
}

/// The error of a native number; no call replies with a number that is none.
fn error_of(number: u64) -> Errno
    ensures { result ≡ error_of number }
{
    Errno::of_native(number).unwrap_or(Errno::ENOSYS)
}
