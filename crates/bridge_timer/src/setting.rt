//! The native call that sets the timer.
ghost use Rattle.bridge_log.specs.Proceeding.{Proceeds};
ghost use Rattle.bridge_timer.specs.inside.Acts.{Acts};
ghost use Rattle.bridge_timer.specs.inside.Shown.{IsSet};
ghost use Rattle.native_calls.specs.Clocks.{setting_at};
ghost use Rattle.native_calls.specs.HostBytes.{unless_null};
ghost use Rattle.outside.specs.Streams.{contents};

use crate::numbers::ITIMER_REAL;
use bridge_log::Below;
use kernel_core::{Reply, Stop};
use native_numbers::SETITIMER;
use outside::{Devices, Sink, Source};

/// Sets the timer to the setting at a place in host memory, or disarms it where that is 0 (setitimer(2)): EFAULT
/// where no setting is there, EINVAL for one that is none. What the timer showed is not asked for.
pub(crate) fn set_timer<I: Source, O: Sink, E: Sink>(
    place: u64,
    dev: &mut Devices<I, O, E>,
    below: &mut Below,
) -> Result<Reply, Stop>
    ensures acts { Acts (IsSet below.old.kernel.now (unless_null place (setting_at below.old.memory.now place))) result below.old.kernel.now below.new.kernel.now
        (contents I.left O.written E.written dev.old) (contents I.left O.written E.written dev.new) below.old.log.now below.new.log.now }
    ensures proceeds { Proceeds I.faults O.faults E.faults result below.old below.new dev.old dev.new }
{
    let args = [u64::from(ITIMER_REAL), place, 0, 0, 0, 0];
    below.native(SETITIMER, args, dev)
}
