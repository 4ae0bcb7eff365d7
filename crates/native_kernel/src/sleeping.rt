//! The calls on the clock: clock_gettime(2), clock_getres(2), nanosleep(2), clock_nanosleep(2).
ghost use Rattle.std.specs.Prelude.{◌≡◌, ◌+◌, ◌<◌, ◌^◌, IfSome, Some, option_map};
ghost use Rattle.kernel_model.specs.Came.{done, told_as, told_zero};
ghost use Rattle.kernel_model.specs.Clock.{capped, checked_or_none, clock_time, is_below, is_sleep_clock, length_of, read_clock, resolution, sleep, sleep_end, waits_until};
ghost use Rattle.native_calls.specs.HostBytes.{unless_null};
ghost use Rattle.native_calls.specs.Times.{time_at, time_bytes};
ghost use Rattle.native_kernel.specs.inside.Quiet.{Gives, Stores};
ghost use Rattle.native_kernel.specs.inside.Signals.{StoresUnlessNull};

use crate::kernel::NativeKernel;
use crate::replies::failure;
use crate::structures::{put, store, store_unless_null};
use crate::times::time_in;
use host_mem::HostMem;
use kernel_core::{Errno, Reply, Wake};
use kernel_model::TimeSpec;
use layouts::NativeStructure;
use native_timer::LATEST_TIME;

/// The clocks that calls tell apart (clock_gettime(2)).
const CLOCK_REALTIME: u32 = 0;

pub(crate) const CLOCK_MONOTONIC: u32 = 1;

const CLOCK_REALTIME_COARSE: u32 = 5;

const CLOCK_BOOTTIME: u32 = 7;

/// The flag of clock_nanosleep(2) by which a time is one of the clock (Linux `include/uapi/linux/time.h`).
pub(crate) const TIMER_ABSTIME: u64 = 1;

/// The clock of the greatest id, CLOCK_BOOTTIME.
const LAST_CLOCK: u32 = 7;

const TIME_SIZE: usize = 16;

const NANOSECONDS_PER_SECOND: u128 = 1_000_000_000;

impl NativeKernel {
    /// clock_gettime(2): EINVAL for a clock that there is none of; EFAULT.
    #[tactic(auto, unfolding(kernel_model::specs::Clock::read_clock))]
    pub(crate) fn read_clock(&self, id: u32, address: u64, mem: &mut HostMem) -> Reply
        ensures { Stores (told_as time_bytes (read_clock self.now self.now.clock id)) address result self.now mem.old mem.new }
    {
        match self.clock_time(id) {
            None => failure(Errno::EINVAL),
            Some(time) => store(mem, address, &time_bytes(time)),
        }
    }

    /// What the clock of an id shows, in nanoseconds.
    fn clock_time(&self, id: u32) -> Option<u128>
        ensures time { result ≡ clock_time self.now self.now.clock id }
        ensures bounded { IfSome result (λ time. time < 2 ^ 73) }
    {
        match id {
            CLOCK_REALTIME => Some(self.epoch + u128::from(self.clock)),
            CLOCK_REALTIME_COARSE => Some(self.epoch + u128::from(self.clock)),
            _ if id <= LAST_CLOCK => Some(u128::from(self.clock)),
            _ => None,
        }
    }

    /// clock_getres(2): EINVAL for a clock that there is none of; EFAULT. Each counts nanoseconds.
    #[tactic(auto, unfolding(kernel_model::specs::Clock::resolution))]
    pub(crate) fn clock_resolution(&self, id: u32, address: u64, mem: &mut HostMem) -> Reply
        ensures { StoresUnlessNull (told_as time_bytes (resolution self.now id)) address result self.now mem.old mem.new }
    {
        if id > LAST_CLOCK {
            return failure(Errno::EINVAL);
        }
        store_unless_null(mem, address, &time_bytes(1))
    }

    /// clock_nanosleep(2): EINVAL for another clock than that of real time, the monotonic one and that since
    /// boot, and for other flags than TIMER_ABSTIME, where `absolute` is None; EFAULT; EINVAL for a time that is
    /// none. nanosleep(2) is this by the monotonic clock, for a length.
    #[tactic(auto, unfolding(kernel_model::specs::Clock::sleep))]
    pub(crate) fn sleep(&self, id: u32, absolute: Option<bool>, time: u64, mem: &HostMem) -> Reply
        ensures { Gives (told_zero (sleep self.now id absolute (time_at mem.now time))) result self.now }
    {
        if !is_sleep_clock(id) {
            return failure(Errno::EINVAL);
        }
        let Some(absolute) = absolute else {
            return failure(Errno::EINVAL);
        };
        match time_at(mem, time) {
            Err(error) => failure(error),
            Ok(time) => match length_of(time) {
                Err(error) => failure(error),
                Ok(length) => self.sleep_until(self.sleep_end(id, absolute, length)),
            },
        }
    }

    /// The time of the clock at which a sleep ends.
    fn sleep_end(&self, id: u32, absolute: bool, time: u128) -> u64
        ensures { result ≡ sleep_end self.now id absolute time }
    {
        if !absolute {
            time_after(self.clock, time)
        } else if id == CLOCK_REALTIME {
            capped(time.saturating_sub(self.epoch))
        } else {
            capped(time)
        }
    }

    /// A sleep until a time of the clock, which is over where that is not past it.
    fn sleep_until(&self, until: u64) -> Reply
        ensures { Gives (told_zero (waits_until self.now (Some until) (done self.now tt))) result self.now }
    {
        if until <= self.clock {
            Reply::Done(0)
        } else {
            Reply::Sleep(Wake {
                done: 0,
                until: Some(until),
            })
        }
    }
}

/// Whether a sleep may be by the clock of an id.
fn is_sleep_clock(id: u32) -> bool
    ensures { result ≡ is_sleep_clock id }
{
    matches!(id, CLOCK_REALTIME | CLOCK_MONOTONIC | CLOCK_BOOTTIME)
}

/// A time that is at most the latest one.
fn capped(time: u128) -> u64
    ensures { result ≡ capped time }
{
    time.min(u128::from(LATEST_TIME)) as u64
}

/// The time of the clock after a length, at most the latest one.
pub(crate) fn time_after(clock: u64, length: u128) -> u64
    ensures { result ≡ capped (clock + length) }
{
    capped(length.saturating_add(u128::from(clock)))
}

/// When a wait of a length ends, which may be without end.
pub(crate) fn deadline(clock: u64, length: Option<u128>) -> Option<u64>
    ensures { result ≡ option_map (λ n. capped (clock + n)) length }
{
    match length {
        None => None,
        Some(length) => Some(time_after(clock, length)),
    }
}

/// The time in memory, or EFAULT where it is not there.
#[tactic(auto, using(crate::proofs::Read::length_read))]
fn time_at(mem: &HostMem, address: u64) -> Result<TimeSpec, Errno>
    ensures { result ≡ time_at mem.now address }
{
    match mem.read(address, TIME_SIZE as u64) {
        None => Err(Errno::EFAULT),
        Some(bytes) => Ok(time_in(bytes)),
    }
}

/// The time at an address that may be null: nothing is read there.
pub(crate) fn time_unless_null(mem: &HostMem, address: u64) -> Option<Result<TimeSpec, Errno>>
    ensures { result ≡ unless_null address (time_at mem.now address) }
{
    if address == 0 {
        None
    } else {
        Some(time_at(mem, address))
    }
}

/// The structure of a time in nanoseconds.
fn time_bytes(time: u128) -> [u8; TIME_SIZE]
    requires { time < 2 ^ 73 }
    ensures { result ≡ time_bytes time }
{
    let values = [
        (time / NANOSECONDS_PER_SECOND) as i128,
        (time % NANOSECONDS_PER_SECOND) as i128,
    ];
    let mut bytes = [0; TIME_SIZE];
    put(NativeStructure::Timespec, &values, &mut bytes);
    bytes
}

/// Whether a number is from 0 on and below another.
pub(crate) fn is_below(number: i64, end: u32) -> bool
    ensures { result ≡ is_below number end }
{
    number >= 0 && number < i64::from(end)
}

/// A length of time in nanoseconds: EINVAL for seconds below 0, and for a part that is no part of a second.
pub(crate) fn length_of(time: TimeSpec) -> Result<u128, Errno>
    ensures { result ≡ length_of time }
{
    if time.seconds < 0 || !is_below(time.nanoseconds, 1_000_000_000) {
        return Err(Errno::EINVAL);
    }
    let seconds = u128::from(time.seconds.unsigned_abs());
    Ok(seconds * NANOSECONDS_PER_SECOND + u128::from(time.nanoseconds.unsigned_abs()))
}

/// The length of a time that may not be there, which is none then.
pub(crate) fn length_or_none(time: Option<Result<TimeSpec, Errno>>) -> Result<Option<u128>, Errno>
    ensures { result ≡ checked_or_none length_of time }
{
    match time {
        None => Ok(None),
        Some(Err(error)) => Err(error),
        Some(Ok(time)) => match length_of(time) {
            Err(error) => Err(error),
            Ok(length) => Ok(Some(length)),
        },
    }
}
