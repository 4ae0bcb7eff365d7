//! How long a call waits, and how much of that is left (poll(2), select(2)).
ghost use Rattle.std.specs.Prelude.{◌≡◌, ◌+◌, ◌≤◌, length};
ghost use Rattle.kernel_model.specs.Clock.{capped, checked_or_none, is_below, length_of};
ghost use Rattle.native_calls.specs.HostBytes.{unless_null};
ghost use Rattle.native_calls.specs.Polls.{wait_at, with_left};
ghost use Rattle.native_calls.specs.Times.{time_at, time_bytes, time_in};
ghost use Rattle.native_polls.specs.inside.Waiting.{end_of_wait, left_at, left_stored};

use crate::structures::{double_at, put};
use host_mem::HostMem;
use kernel_core::Errno;
use kernel_model::TimeSpec;
use layouts::NativeStructure;

/// The latest time of the clock that a wait ends at: a later one counts as this (this project's own rule).
const LATEST_TIME: u64 = (1 << 63) - 1;

const TIME_SIZE: usize = 16;

/// The place of the nanoseconds behind the seconds.
const NANOSECONDS: usize = 8;

const NANOSECONDS_PER_SECOND: u128 = 1_000_000_000;

/// How long a call waits, in nanoseconds, and without end where the address of the time is null: EFAULT, and
/// EINVAL for a time that is none.
pub(crate) fn wait_at(mem: &HostMem, time: u64) -> Result<Option<u128>, Errno>
    ensures { result ≡ wait_at mem.now time }
{
    length_or_none(time_unless_null(mem, time))
}

/// The time at an address that may be null: nothing is read there.
fn time_unless_null(mem: &HostMem, address: u64) -> Option<Result<TimeSpec, Errno>>
    ensures { result ≡ unless_null address (time_at mem.now address) }
{
    if address == 0 {
        None
    } else {
        Some(time_at(mem, address))
    }
}

/// The time in memory, or EFAULT where it is not there.
#[tactic(auto, using(crate::proofs::Read::length_read))]
fn time_at(mem: &HostMem, address: u64) -> Result<TimeSpec, Errno>
    ensures { result ≡ time_at mem.now address }
{
    match mem.read(address, TIME_SIZE as u64) {
        None => Err(Errno::EFAULT),
        Some(bytes) => Ok(time_in(bytes)),
    }
}

/// The time in a structure.
fn time_in(bytes: &[u8]) -> TimeSpec
    requires { 16 ≤ length bytes.now }
    ensures { result ≡ time_in bytes.now }
{
    TimeSpec {
        seconds: double_at(bytes, 0).cast_signed(),
        nanoseconds: double_at(bytes, NANOSECONDS).cast_signed(),
    }
}

/// The length of a time that may not be there, which is none then.
fn length_or_none(time: Option<Result<TimeSpec, Errno>>) -> Result<Option<u128>, Errno>
    ensures { result ≡ checked_or_none length_of time }
{
    match time {
        None => Ok(None),
        Some(Err(error)) => Err(error),
        Some(Ok(time)) => match length_of(time) {
            Err(error) => Err(error),
            Ok(length) => Ok(Some(length)),
        },
    }
}

/// A length of time in nanoseconds: EINVAL for seconds below 0, and for a part that is no part of a second.
fn length_of(time: TimeSpec) -> Result<u128, Errno>
    ensures { result ≡ length_of time }
{
    if time.seconds < 0 || !is_below(time.nanoseconds, 1_000_000_000) {
        return Err(Errno::EINVAL);
    }
    let seconds = u128::from(time.seconds.unsigned_abs());
    Ok(seconds * NANOSECONDS_PER_SECOND + u128::from(time.nanoseconds.unsigned_abs()))
}

/// Whether a number is from 0 on and below another.
fn is_below(number: i64, end: u32) -> bool
    ensures { result ≡ is_below number end }
{
    number >= 0 && number < i64::from(end)
}

/// The time of the clock at which a wait of a length ends, which may be without end.
pub(crate) fn end_of_wait(clock: u64, length: Option<u128>) -> Option<u64>
    ensures { result ≡ end_of_wait clock length }
{
    match length {
        None => None,
        Some(length) => Some(time_after(clock, length)),
    }
}

/// The time of the clock after a length, at most the latest one.
fn time_after(clock: u64, length: u128) -> u64
    ensures { result ≡ capped (clock + length) }
{
    length
        .saturating_add(u128::from(clock))
        .min(u128::from(LATEST_TIME)) as u64
}

/// How long it is to the end of a wait of a length, at least 0.
fn left_at(clock: u64, length: Option<u128>) -> Option<u64>
    ensures { result ≡ left_at clock length }
{
    match end_of_wait(clock, length) {
        None => None,
        Some(until) => Some(until.saturating_sub(clock)),
    }
}

/// Stores the time left where the time was, if it was accepted.
pub(crate) fn store_left(
    clock: u64,
    time: u64,
    wait: Result<Option<u128>, Errno>,
    mem: &mut HostMem,
)
    ensures { mem.new ≡ left_stored clock time wait mem.old }
{
    if let Ok(length) = wait {
        store_time(time, left_at(clock, length), mem);
    }
}

/// Stores a time, where there is one. There is room for it, since the time was read.
fn store_time(address: u64, left: Option<u64>, mem: &mut HostMem)
    ensures { mem.new ≡ with_left mem.old address left }
{
    if let Some(left) = left {
        let _there = mem.write(address, &time_bytes(left));
    }
}

/// The structure of a time in nanoseconds.
fn time_bytes(time: u64) -> [u8; TIME_SIZE]
    ensures { result ≡ time_bytes time }
{
    let time = u128::from(time);
    let values = [
        (time / NANOSECONDS_PER_SECOND) as i128,
        (time % NANOSECONDS_PER_SECOND) as i128,
    ];
    let mut bytes = [0; TIME_SIZE];
    put(NativeStructure::Timespec, &values, &mut bytes);
    bytes
}
