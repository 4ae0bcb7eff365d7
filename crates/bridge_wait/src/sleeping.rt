//! Sleeping: nanosleep(2), clock_nanosleep(2).
ghost use Rattle.std.specs.Prelude.{◌≡◌};
ghost use Rattle.bridge_log.specs.Proceeding.{Proceeds};
ghost use Rattle.bridge_log.specs.Keeping.{KeepsCall};
ghost use Rattle.o32_model.specs.Answered.{IsCall};
ghost use Rattle.o32_model.specs.Sleeps.{clock_nanosleep_row, nanosleep_row};
ghost use Rattle.o32_model.specs.Step.{Guest};
ghost use Rattle.o32_model.specs.Words.{argument};
ghost use Rattle.outside.specs.Streams.{contents};

use crate::times::take_time;
use bridge_log::Below;
use guest_space::Space;
use kernel_core::Stop;
use native_numbers::{CLOCK_NANOSLEEP, NANOSLEEP};
use o32_model::{CallWords, Outcome};
use outside::{Devices, Sink, Source};

/// nanosleep(2): EFAULT where the time can't be loaded, EINVAL where it is none. What is left of the time is
/// stored where a handler ends the sleep, and not here.
pub(crate) fn nanosleep<I: Source, O: Sink, E: Sink>(
    words: &CallWords,
    address: u32,
    space: &Space,
    dev: &mut Devices<I, O, E>,
    below: &mut Below,
) -> Result<Outcome, Stop>
    ensures row { (guest : Guest) → guest.words ≡ words.now → guest.memory ≡ space.now
        → IsCall (nanosleep_row below.old.kernel.now guest address) result below.new.kernel.now space.now guest.processor
        (contents I.left O.written E.written dev.old) (contents I.left O.written E.written dev.new) }
    ensures kept { (guest : Guest) → guest.words ≡ words.now → guest.memory ≡ space.now
        → KeepsCall (nanosleep_row below.old.kernel.now guest address) result below.old.kernel.now guest (I.left dev.old.input) below.old.log.now below.new.log.now }
    ensures proceeds { Proceeds I.faults O.faults E.faults result below.old below.new dev.old dev.new }
{
    let place = take_time(space, address, below.memory)?;
    below.number_call(words, NANOSLEEP, [place, 0, 0, 0, 0, 0], dev)
}

/// clock_nanosleep(2): EINVAL for another clock than CLOCK_REALTIME, CLOCK_MONOTONIC and CLOCK_BOOTTIME and for
/// flags other than TIMER_ABSTIME; then as nanosleep(2).
pub(crate) fn clock_nanosleep<I: Source, O: Sink, E: Sink>(
    words: &CallWords,
    space: &Space,
    dev: &mut Devices<I, O, E>,
    below: &mut Below,
) -> Result<Outcome, Stop>
    ensures row { (guest : Guest) → guest.words ≡ words.now → guest.memory ≡ space.now
        → IsCall (clock_nanosleep_row below.old.kernel.now guest (argument words.now 0) (argument words.now 1) (argument words.now 2)) result below.new.kernel.now space.now guest.processor
        (contents I.left O.written E.written dev.old) (contents I.left O.written E.written dev.new) }
    ensures kept { (guest : Guest) → guest.words ≡ words.now → guest.memory ≡ space.now
        → KeepsCall (clock_nanosleep_row below.old.kernel.now guest (argument words.now 0) (argument words.now 1) (argument words.now 2)) result below.old.kernel.now guest (I.left dev.old.input) below.old.log.now below.new.log.now }
    ensures proceeds { Proceeds I.faults O.faults E.faults result below.old below.new dev.old dev.new }
{
    let [clock, flags, address, _] = words.reg;
    let place = take_time(space, address, below.memory)?;
    let args = [u64::from(clock), u64::from(flags), place, 0, 0, 0];
    below.number_call(words, CLOCK_NANOSLEEP, args, dev)
}
