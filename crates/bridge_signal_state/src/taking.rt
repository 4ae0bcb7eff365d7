//! A signal that pends is taken.
ghost use Rattle.bridge_log.specs.Proceeding.{Proceeds};
ghost use Rattle.bridge_signal_state.specs.Acts.{Acts};
ghost use Rattle.bridge_signal_state.specs.Setting.{Takes};
ghost use Rattle.outside.specs.Streams.{contents};

use crate::acting::act;
use crate::filling::put_taking;
use crate::numbers::{INFO_SIZE, SIGSETSIZE};
use crate::showing::{INFO_PLACE, info_shown};
use bridge_log::Below;
use host_mem::FIRST_ADDRESS;
use kernel_core::{Info, Sig, Stop};
use native_numbers::RT_SIGTIMEDWAIT;
use outside::{Devices, Sink, Source};

/// Where the time lies, behind what is known of a signal.
const TIME_PLACE: u64 = INFO_PLACE + INFO_SIZE;

/// Takes the first that pends of a signal, blocked or not, and tells what is known of it; None, and nothing is taken,
/// where it doesn't pend (rt_sigtimedwait(2), with a time of 0, so that it never waits). It stops for want of memory or
/// by a device alone.
pub fn take<I: Source, O: Sink, E: Sink>(
    sig: Sig,
    dev: &mut Devices<I, O, E>,
    below: &mut Below,
) -> Result<Option<Info>, Stop>
    ensures acts { Acts (Takes below.old.kernel.now sig) result below.old.kernel.now below.new.kernel.now
        (contents I.left O.written E.written dev.old) (contents I.left O.written E.written dev.new) below.old.log.now below.new.log.now }
    ensures proceeds { Proceeds I.faults O.faults E.faults result below.old below.new dev.old dev.new }
{
    below.kernel.signals_fit();
    put_taking(sig, below.memory)?;
    let args = [FIRST_ADDRESS, INFO_PLACE, TIME_PLACE, SIGSETSIZE, 0, 0];
    let reply = act(RT_SIGTIMEDWAIT, args, dev, below)?;
    Ok(info_shown(below.memory, reply))
}
