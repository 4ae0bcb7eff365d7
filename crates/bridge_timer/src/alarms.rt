//! alarm(2).
ghost use Rattle.std.specs.Prelude.{◌≡◌, ◌%◌, ◌^◌};
ghost use Rattle.bridge_log.specs.Proceeding.{Proceeds};
ghost use Rattle.bridge_log.specs.Keeping.{KeepsCall};
ghost use Rattle.kernel_model.specs.Clock.{left_until, rounded_seconds};
ghost use Rattle.o32_model.specs.Answered.{IsCall};
ghost use Rattle.o32_model.specs.Sleeps.{alarm_row};
ghost use Rattle.o32_model.specs.Step.{Guest};
ghost use Rattle.outside.specs.Streams.{contents};

use crate::setting::set_timer;
use crate::settings::once_after;
use bridge_log::Below;
use kernel_core::Stop;
use o32_model::Outcome;
use outside::{Devices, Sink, Source};

const NANOSECONDS_PER_SECOND: u64 = 1_000_000_000;

/// alarm(2): the timer goes off once after so many seconds, and 0 disarms it. The seconds that were left are given,
/// to the nearest, a half up, and 1 for less than a half. Native calls tell no time below a microsecond, so the
/// kernel itself is asked for it.
pub(crate) fn alarm<I: Source, O: Sink, E: Sink>(
    seconds: u32,
    dev: &mut Devices<I, O, E>,
    below: &mut Below,
) -> Result<Outcome, Stop>
    ensures row { (guest : Guest) → IsCall (alarm_row below.old.kernel.now guest seconds) result below.new.kernel.now guest.memory guest.processor
        (contents I.left O.written E.written dev.old) (contents I.left O.written E.written dev.new) }
    ensures kept { (guest : Guest) → KeepsCall (alarm_row below.old.kernel.now guest seconds) result below.old.kernel.now guest (I.left dev.old.input) below.old.log.now below.new.log.now }
    ensures proceeds { Proceeds I.faults O.faults E.faults result below.old below.new dev.old dev.new }
{
    let before = below.kernel.timer_left();
    alarm_from(before, seconds, dev, below)
}

/// The same, by how many nanoseconds were left.
fn alarm_from<I: Source, O: Sink, E: Sink>(
    before: u64,
    seconds: u32,
    dev: &mut Devices<I, O, E>,
    below: &mut Below,
) -> Result<Outcome, Stop>
    ensures row { before ≡ left_until below.old.kernel.now.clock below.old.kernel.now.timer.due → (guest : Guest)
        → IsCall (alarm_row below.old.kernel.now guest seconds) result below.new.kernel.now guest.memory guest.processor
        (contents I.left O.written E.written dev.old) (contents I.left O.written E.written dev.new) }
    ensures kept { before ≡ left_until below.old.kernel.now.clock below.old.kernel.now.timer.due → (guest : Guest)
        → KeepsCall (alarm_row below.old.kernel.now guest seconds) result below.old.kernel.now guest (I.left dev.old.input) below.old.log.now below.new.log.now }
    ensures proceeds { Proceeds I.faults O.faults E.faults result below.old below.new dev.old dev.new }
{
    let place = once_after(seconds, below.memory)?;
    set_timer(place, dev, below)?;
    Ok(Outcome::Value(rounded_seconds(before)))
}

/// The low 32 bits of a time in whole seconds, to the nearest, a half up, and 1 for less than a half.
fn rounded_seconds(time: u64) -> u32
    ensures { result ≡ rounded_seconds time % 2 ^ 32 }
{
    if time == 0 {
        return 0;
    }
    let whole = time / NANOSECONDS_PER_SECOND;
    let is_more = time % NANOSECONDS_PER_SECOND >= NANOSECONDS_PER_SECOND / 2;
    let seconds = (whole + u64::from(is_more)).max(1);
    (seconds % (1 << 32)) as u32
}
