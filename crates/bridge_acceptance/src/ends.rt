//! How the wait of the call ends.
ghost use Rattle.std.specs.Prelude.{[]};
ghost use Rattle.bridge_signal_state.specs.Passed.{Proceeds};
ghost use Rattle.bridge_signal_state.specs.Ends.{Closes, KeepsEnd};
ghost use Rattle.o32_model.specs.SignalWaitEnds.{acceptance_ended, ended_by, finding};
ghost use Rattle.o32_model.specs.Suspending.{rt_sigtimedwait_row};
ghost use Rattle.o32_model.specs.WaitEnds.{wait_word};
ghost use Rattle.outside.specs.Streams.{contents};

use crate::accepting::accept;
use crate::telling::{close_of, tell};
use bridge_signal_state::Below;
use guest_space::Space;
use kernel_core::{Errno, Stop};
use o32_model::{Cause, Close, Wait};
use outside::{Devices, Sink, Source};

/// Ends the wait of rt_sigtimedwait(2) for a cause: EAGAIN where its time is over, EINTR by a handler and where the
/// process was stopped; and where a signal pends that it waits for, what the call comes to now with its words
/// (signal(7)). It stops early for want of memory, or by a device.
pub fn acceptance_end<I: Source, O: Sink, E: Sink>(
    wait: &Wait,
    cause: Cause,
    space: &mut Space,
    dev: &mut Devices<I, O, E>,
    below: &mut Below,
) -> Result<Close, Stop>
    ensures ends { Closes (acceptance_ended wait.now cause below.old.kernel.now space.old) result below.new.kernel.now space.new
        (contents I.left O.written E.written dev.old) (contents I.left O.written E.written dev.new) }
    ensures kept { KeepsEnd result (I.left dev.old.input) below.old.kernel.now below.new.kernel.now space.old.pages space.new.pages below.old.log.now below.new.log.now }
    ensures proceeds { Proceeds I.faults O.faults E.faults result below.old below.new dev.old dev.new }
{
    match cause {
        Cause::Due => Ok(Close::Error(Errno::EAGAIN)),
        Cause::Accepted => accept_again(wait, space, dev, below),
        Cause::Handler => Ok(Close::Error(Errno::EINTR)),
        Cause::Stopped => Ok(Close::Error(Errno::EINTR)),
    }
}

/// Carries the call out again, with the words of its wait.
fn accept_again<I: Source, O: Sink, E: Sink>(
    wait: &Wait,
    space: &mut Space,
    dev: &mut Devices<I, O, E>,
    below: &mut Below,
) -> Result<Close, Stop>
    ensures ends { Closes (ended_by (rt_sigtimedwait_row below.old.kernel.now (finding wait.now space.old) (wait_word wait.now 0)
        (wait_word wait.now 1) (wait_word wait.now 2) (wait_word wait.now 3) [])) result below.new.kernel.now space.new
        (contents I.left O.written E.written dev.old) (contents I.left O.written E.written dev.new) }
    ensures kept { KeepsEnd result (I.left dev.old.input) below.old.kernel.now below.new.kernel.now space.old.pages space.new.pages below.old.log.now below.new.log.now }
    ensures proceeds { Proceeds I.faults O.faults E.faults result below.old below.new dev.old dev.new }
{
    let [set, info, time, size, _, _] = wait.words;
    let came = accept(set, time, size, space, dev, below)?;
    let told = tell(came, info, space, below.log)?;
    Ok(close_of(told))
}
