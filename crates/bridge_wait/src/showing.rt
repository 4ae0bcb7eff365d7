//! What a clock shows the program.
ghost use Rattle.std.specs.Prelude.{◌≡◌, Ok, Err, if◌then◌else◌};
ghost use Rattle.bridge_log.specs.Proceeding.{Proceeds};
ghost use Rattle.bridge_log.specs.Looks.{LooksFor};
ghost use Rattle.bridge_wait.specs.inside.Shown.{clock_of, is_cpu_clock, is_real_clock, shown_of};
ghost use Rattle.kernel_model.specs.Clock.{clock_time};
ghost use Rattle.o32_model.specs.Clocks.{is_late};
ghost use Rattle.outside.specs.Streams.{contents};

use crate::clock_times::{ClockTime, shown_of};
use crate::looking::{clock_shown, is_late};
use crate::numbers::{
    CLOCK_PROCESS_CPUTIME_ID, CLOCK_REALTIME, CLOCK_REALTIME_COARSE, CLOCK_THREAD_CPUTIME_ID,
};
use bridge_log::Below;
use kernel_core::{Errno, Stop};
use outside::{Devices, Sink, Source};

/// What a clock shows: EINVAL where there is none with this id, EOVERFLOW past second 2^31 - 1. The clocks of CPU
/// time show `quanta`, in nanoseconds, which no native clock tells.
pub(crate) fn shown_time<I: Source, O: Sink, E: Sink>(
    clock: u32,
    quanta: u64,
    dev: &mut Devices<I, O, E>,
    below: &mut Below,
) -> Result<Result<ClockTime, Errno>, Stop>
    ensures looks { LooksFor (λ shown. shown ≡ shown_of (clock_time below.old.kernel.now quanta clock)) result below.old.kernel.now below.new.kernel.now
        (contents I.left O.written E.written dev.old) (contents I.left O.written E.written dev.new) below.old.log.now below.new.log.now }
    ensures proceeds { Proceeds I.faults O.faults E.faults result below.old below.new dev.old dev.new }
{
    if is_cpu_clock(clock) {
        return Ok(shown_of(quanta));
    }
    match clock_shown(clock, dev, below)? {
        None => Ok(Err(Errno::EINVAL)),
        Some(time) => unless_late(time, is_real_clock(clock), dev, below),
    }
}

/// The time, or EOVERFLOW where second 2^31 has come by the native clock.
fn unless_late<I: Source, O: Sink, E: Sink>(
    time: ClockTime,
    real: bool,
    dev: &mut Devices<I, O, E>,
    below: &mut Below,
) -> Result<Result<ClockTime, Errno>, Stop>
    ensures looks { LooksFor (λ shown. shown ≡ (if is_late (clock_of below.old.kernel.now real) then Err Errno.EOVERFLOW else Ok time)) result below.old.kernel.now below.new.kernel.now
        (contents I.left O.written E.written dev.old) (contents I.left O.written E.written dev.new) below.old.log.now below.new.log.now }
    ensures proceeds { Proceeds I.faults O.faults E.faults result below.old below.new dev.old dev.new }
{
    let late = is_late(real, dev, below)?;
    Ok(time_unless(late, time))
}

fn time_unless(late: bool, time: ClockTime) -> Result<ClockTime, Errno>
    ensures { result ≡ (if late then Err Errno.EOVERFLOW else Ok time) }
{
    if late {
        Err(Errno::EOVERFLOW)
    } else {
        Ok(time)
    }
}

/// Whether a clock counts the time of instructions alone (clock_gettime(2)).
fn is_cpu_clock(clock: u32) -> bool
    ensures { result ≡ is_cpu_clock clock }
{
    matches!(clock, CLOCK_PROCESS_CPUTIME_ID | CLOCK_THREAD_CPUTIME_ID)
}

/// Whether a clock counts from the Unix epoch.
fn is_real_clock(clock: u32) -> bool
    ensures { result ≡ is_real_clock clock }
{
    matches!(clock, CLOCK_REALTIME | CLOCK_REALTIME_COARSE)
}
