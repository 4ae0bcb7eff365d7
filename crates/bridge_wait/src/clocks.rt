//! The clocks: time(2), gettimeofday(2), clock_gettime(2), clock_getres(2).
ghost use Rattle.std.specs.Prelude.{◌≡◌};
ghost use Rattle.bridge_log.specs.Proceeding.{Proceeds};
ghost use Rattle.bridge_log.specs.Keeping.{KeepsCall};
ghost use Rattle.o32_model.specs.Answered.{IsCall};
ghost use Rattle.o32_model.specs.Clocks.{clock_getres_row, clock_gettime_row, gettimeofday_row, time_row};
ghost use Rattle.o32_model.specs.Step.{Guest};
ghost use Rattle.outside.specs.Streams.{contents};

use crate::looking::clock_resolution;
use crate::numbers::CLOCK_REALTIME;
use crate::showing::shown_time;
use crate::storing::{store_day, store_resolution, store_seconds, store_time};
use bridge_log::Below;
use guest_space::Space;
use kernel_core::Stop;
use o32_model::Outcome;
use outside::{Devices, Sink, Source};

/// clock_gettime(2): EINVAL for a clock that there is none of, EOVERFLOW past second 2^31 - 1, EFAULT. The clocks
/// of CPU time show `quanta`, in nanoseconds.
pub(crate) fn clock_gettime<I: Source, O: Sink, E: Sink>(
    clock: u32,
    address: u32,
    quanta: u64,
    space: &mut Space,
    dev: &mut Devices<I, O, E>,
    below: &mut Below,
) -> Result<Outcome, Stop>
    ensures row { (guest : Guest) → guest.memory ≡ space.old
        → IsCall (clock_gettime_row quanta below.old.kernel.now guest clock address) result below.new.kernel.now space.new guest.processor
        (contents I.left O.written E.written dev.old) (contents I.left O.written E.written dev.new) }
    ensures kept { (guest : Guest) → guest.memory ≡ space.old
        → KeepsCall (clock_gettime_row quanta below.old.kernel.now guest clock address) result below.old.kernel.now guest (I.left dev.old.input) below.old.log.now below.new.log.now }
    ensures proceeds { Proceeds I.faults O.faults E.faults result below.old below.new dev.old dev.new }
{
    let shown = shown_time(clock, quanta, dev, below)?;
    let outcome = store_time(shown, address, space, below.log)?;
    Ok(outcome)
}

/// clock_getres(2): EINVAL for a clock that there is none of, EFAULT.
pub(crate) fn clock_getres<I: Source, O: Sink, E: Sink>(
    clock: u32,
    address: u32,
    space: &mut Space,
    dev: &mut Devices<I, O, E>,
    below: &mut Below,
) -> Result<Outcome, Stop>
    ensures row { (guest : Guest) → guest.memory ≡ space.old
        → IsCall (clock_getres_row below.old.kernel.now guest clock address) result below.new.kernel.now space.new guest.processor
        (contents I.left O.written E.written dev.old) (contents I.left O.written E.written dev.new) }
    ensures kept { (guest : Guest) → guest.memory ≡ space.old
        → KeepsCall (clock_getres_row below.old.kernel.now guest clock address) result below.old.kernel.now guest (I.left dev.old.input) below.old.log.now below.new.log.now }
    ensures proceeds { Proceeds I.faults O.faults E.faults result below.old below.new dev.old dev.new }
{
    let shown = clock_resolution(clock, dev, below)?;
    let outcome = store_resolution(shown, address, space, below.log)?;
    Ok(outcome)
}

/// time(2): EOVERFLOW past second 2^31 - 1, EFAULT.
pub(crate) fn time<I: Source, O: Sink, E: Sink>(
    address: u32,
    space: &mut Space,
    dev: &mut Devices<I, O, E>,
    below: &mut Below,
) -> Result<Outcome, Stop>
    ensures row { (guest : Guest) → guest.memory ≡ space.old
        → IsCall (time_row below.old.kernel.now guest address) result below.new.kernel.now space.new guest.processor
        (contents I.left O.written E.written dev.old) (contents I.left O.written E.written dev.new) }
    ensures kept { (guest : Guest) → guest.memory ≡ space.old
        → KeepsCall (time_row below.old.kernel.now guest address) result below.old.kernel.now guest (I.left dev.old.input) below.old.log.now below.new.log.now }
    ensures proceeds { Proceeds I.faults O.faults E.faults result below.old below.new dev.old dev.new }
{
    let shown = shown_time(CLOCK_REALTIME, 0, dev, below)?;
    let outcome = store_seconds(shown, address, space, below.log)?;
    Ok(outcome)
}

/// gettimeofday(2): EOVERFLOW past second 2^31 - 1, EFAULT.
pub(crate) fn gettimeofday<I: Source, O: Sink, E: Sink>(
    value: u32,
    zone: u32,
    space: &mut Space,
    dev: &mut Devices<I, O, E>,
    below: &mut Below,
) -> Result<Outcome, Stop>
    ensures row { (guest : Guest) → guest.memory ≡ space.old
        → IsCall (gettimeofday_row below.old.kernel.now guest value zone) result below.new.kernel.now space.new guest.processor
        (contents I.left O.written E.written dev.old) (contents I.left O.written E.written dev.new) }
    ensures kept { (guest : Guest) → guest.memory ≡ space.old
        → KeepsCall (gettimeofday_row below.old.kernel.now guest value zone) result below.old.kernel.now guest (I.left dev.old.input) below.old.log.now below.new.log.now }
    ensures proceeds { Proceeds I.faults O.faults E.faults result below.old below.new dev.old dev.new }
{
    let shown = shown_time(CLOCK_REALTIME, 0, dev, below)?;
    let outcome = store_day(shown, value, zone, space, below.log)?;
    Ok(outcome)
}
