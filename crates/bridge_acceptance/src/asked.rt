//! What a call asks for, when its arguments can be read: sigtimedwait(2).
ghost use Rattle.std.specs.Prelude.{◌≡◌};
ghost use Rattle.bridge_acceptance.specs.inside.Accepting as spec;
ghost use Rattle.kernel_model.specs.Came.{given_or_none};
ghost use Rattle.kernel_model.specs.Clock as clock;
ghost use Rattle.o32_model.specs.GuestBytes.{unless_null};
ghost use Rattle.o32_model.specs.Masks.{set_at};
ghost use Rattle.o32_model.specs.Times.{spec_at};

use crate::structures::time_in_program;
use bridge_signal_state::set_in_program;
use guest_space::Space;
use kernel_core::Errno;
use kernel_model::TimeSpec;

/// The size of a set of signals, in bytes.
const SET_SIZE: u32 = 16;

const NANOSECONDS_PER_SECOND: u32 = 1_000_000_000;

/// For which signals a call waits, and how long at most; without a time it waits without end.
#[derive(Clone, Copy)]
pub(crate) struct Wanted {
    pub(crate) set: [u32; 4],
    pub(crate) time: Option<TimeSpec>,
}

/// What a call asks for by its words: EINVAL for another size of a set than 16; EFAULT for the set, and for the time
/// where its address is not null.
pub(crate) fn asked(set: u32, time: u32, size: u32, space: &Space) -> Result<Wanted, Errno>
    ensures { result ≡ spec.asked size (set_at space.now set) (unless_null time (spec_at space.now time)) }
{
    if size != SET_SIZE {
        return Err(Errno::EINVAL);
    }
    match set_in_program(space, set) {
        Err(error) => Err(error),
        Ok(set) => asked_time(set, time, space),
    }
}

fn asked_time(set: [u32; 4], time: u32, space: &Space) -> Result<Wanted, Errno>
    ensures { result ≡ spec.asked_time set (given_or_none (unless_null time (spec_at space.now time))) }
{
    if time == 0 {
        return Ok(Wanted { set, time: None });
    }
    match time_in_program(space, time) {
        Err(error) => Err(error),
        Ok(time) => Ok(Wanted {
            set,
            time: Some(time),
        }),
    }
}

/// Whether a time, where there is one, is a length of time: its seconds are not below 0, and its nanoseconds are a part
/// of a second.
pub(crate) fn is_timed(time: Option<TimeSpec>) -> bool
    ensures { result ≡ spec.is_timed time }
{
    match time {
        None => true,
        Some(time) => is_length(time),
    }
}

fn is_length(time: TimeSpec) -> bool
    ensures { result ≡ spec.is_length time }
{
    !(time.seconds < 0 || !is_below(time.nanoseconds, NANOSECONDS_PER_SECOND))
}

/// Whether a number is from 0 on and below another.
fn is_below(number: i64, end: u32) -> bool
    ensures { result ≡ clock.is_below number end }
{
    number >= 0 && number < i64::from(end)
}
