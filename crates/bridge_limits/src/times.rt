//! How long a program's call may wait: times in the program's memory (timespec(3), timeval(3)).
ghost use Rattle.std.specs.Prelude.{◌≡◌, length};
ghost use Rattle.bridge_limits.specs.Limits.{length_at};
ghost use Rattle.bridge_limits.specs.inside.Lengths as spec;
ghost use Rattle.kernel_model.specs.Clock.{length_of};
ghost use Rattle.kernel_model.specs.Readiness.{select_length};

use crate::words::signed_word_at;
use bridge_signal_state::load_structure;
use guest_space::Space;
use kernel_core::Errno;

/// How many bytes a time has in the program's memory.
const TIME_SIZE: usize = 8;

const NANOSECONDS_PER_SECOND: u64 = 1_000_000_000;

const NANOSECONDS_PER_MICROSECOND: u64 = 1000;

/// The nanoseconds of a time are below this.
const NANOSECONDS_END: i32 = 1_000_000_000;

/// What a time has beside its seconds.
#[derive(Clone, Copy)]
pub enum TimeForm {
    /// Nanoseconds (timespec(3)).
    Nanoseconds,
    /// Microseconds (timeval(3)).
    Microseconds,
}

/// Where a time is in the program's memory.
#[derive(Clone, Copy)]
pub struct TimePlace {
    /// What it has beside its seconds.
    pub form: TimeForm,
    /// 0 where there is no time.
    pub address: u32,
}

/// How long a call may wait at most, in nanoseconds, and None where there is no time: EFAULT where the time can't be
/// loaded, EINVAL where it is no length of time. Of microseconds those above 999,999 carry into the seconds
/// (select(2)), and nanoseconds above 999,999,999 are EINVAL (ppoll(2), pselect(2)).
pub fn wait_at(space: &Space, place: TimePlace) -> Result<Option<u64>, Errno>
    ensures { result ≡ length_at space.now place }
{
    if place.address == 0 {
        return Ok(None);
    }
    match length_there(space, place) {
        Err(error) => Err(error),
        Ok(length) => Ok(Some(length)),
    }
}

/// The length of the time that is there.
fn length_there(space: &Space, place: TimePlace) -> Result<u64, Errno>
    ensures { result ≡ spec.length_there space.now place }
{
    let mut bytes = [0; TIME_SIZE];
    match load_structure(space, place.address, &mut bytes) {
        Err(error) => Err(error),
        Ok(()) => length_in(&bytes, place.form),
    }
}

/// The length of the time that some bytes are.
fn length_in(bytes: &[u8], form: TimeForm) -> Result<u64, Errno>
    requires { length bytes.now ≡ 8 }
    ensures { result ≡ spec.length_in form bytes.now }
{
    let seconds = signed_word_at(bytes, 0);
    let parts = signed_word_at(bytes, 4);
    match form {
        TimeForm::Nanoseconds => spec_length(seconds, parts),
        TimeForm::Microseconds => val_length(seconds, parts),
    }
}

fn spec_length(seconds: i32, nanoseconds: i32) -> Result<u64, Errno>
    ensures { result ≡ length_of (record { seconds = seconds; nanoseconds = nanoseconds }) }
{
    if seconds < 0 || nanoseconds < 0 || nanoseconds >= NANOSECONDS_END {
        return Err(Errno::EINVAL);
    }
    let whole = u64::from(seconds.unsigned_abs()) * NANOSECONDS_PER_SECOND;
    Ok(whole + u64::from(nanoseconds.unsigned_abs()))
}

fn val_length(seconds: i32, microseconds: i32) -> Result<u64, Errno>
    ensures { result ≡ select_length (record { seconds = seconds; microseconds = microseconds }) }
{
    if seconds < 0 || microseconds < 0 {
        return Err(Errno::EINVAL);
    }
    let whole = u64::from(seconds.unsigned_abs()) * NANOSECONDS_PER_SECOND;
    Ok(whole + u64::from(microseconds.unsigned_abs()) * NANOSECONDS_PER_MICROSECOND)
}
