//! How the waits of these calls end.
ghost use Rattle.std.specs.Prelude.{◌≡◌, ◌⊎◌, IfOk, OnOk};
ghost use Rattle.bridge_limits.specs.Passed.{EffectsLead, Proceeds};
ghost use Rattle.bridge_limits.specs.Ends.{Closes, KeepsEnd};
ghost use Rattle.bridge_poll.specs.inside.Ending.{ended_so, told_if};
ghost use Rattle.kernel_model.specs.State.{Kernel};
ghost use Rattle.o32_calls.specs.Numbers.{poll_number};
ghost use Rattle.o32_calls.specs.declared.times.PollCall.TheVariants.{Poll, Ppoll};
ghost use Rattle.o32_model.specs.Times.{spec_bytes};
ghost use Rattle.o32_model.specs.WaitEnds.{ends_with, entries_told, limited_ended, told, wait_ended, wait_word};
ghost use Rattle.outside.specs.Streams.{contents};

use crate::entries::Entries;
use crate::telling::store_told;
use bridge_limits::{Below, TimeForm, TimePlace, again_or_interrupted, end_limited};
use guest_space::Space;
use kernel_core::{Errno, NoMemory, Stop};
use o32_calls::POLL;
use o32_model::{Cause, Close, Log, Wait};
use outside::{Devices, Sink, Source};

/// Ends the wait of poll(2) or ppoll(2) for a cause, at the kernel's time `clock`, in nanoseconds: where its time is over
/// nothing is told of any entry; a handler is EINTR; and after a stop poll(2) goes on with its own deadline, and ppoll(2)
/// is carried out again with the time that is left (signal(7)). ppoll(2) puts back its mask and stores the time that
/// is left. It stops early for want of memory, or by a device.
pub fn poll_end<I: Source, O: Sink, E: Sink>(
    wait: &Wait,
    cause: Cause,
    clock: u64,
    space: &mut Space,
    dev: &mut Devices<I, O, E>,
    below: &mut Below,
) -> Result<Close, Stop>
    requires { (wait.now.nr ≡ poll_number Poll) ⊎ (wait.now.nr ≡ poll_number Ppoll) }
    ensures ends { Closes (wait_ended wait.now cause clock below.old.kernel.now space.old) result below.new.kernel.now space.new
        (contents I.left O.written E.written dev.old) (contents I.left O.written E.written dev.new) }
    ensures kept { KeepsEnd result (I.left dev.old.input) below.old.kernel.now below.new.kernel.now space.old.pages space.new.pages below.old.log.now below.new.log.now }
    ensures proceeds { Proceeds I.faults O.faults E.faults result below.old below.new dev.old dev.new }
{
    match wait.nr {
        POLL => {
            let close = end(wait, cause, Close::Restart, space, below.log)?;
            Ok(close)
        }
        _ => ppoll_end(wait, cause, clock, space, dev, below),
    }
}

/// The end of a ppoll(2).
fn ppoll_end<I: Source, O: Sink, E: Sink>(
    wait: &Wait,
    cause: Cause,
    clock: u64,
    space: &mut Space,
    dev: &mut Devices<I, O, E>,
    below: &mut Below,
) -> Result<Close, Stop>
    ensures ends { Closes (limited_ended (record { address = wait_word wait.now 2; bytes = spec_bytes })
        (entries_told wait.now space.old) wait.now cause clock below.old.kernel.now space.old) result below.new.kernel.now space.new
        (contents I.left O.written E.written dev.old) (contents I.left O.written E.written dev.new) }
    ensures kept { KeepsEnd result (I.left dev.old.input) below.old.kernel.now below.new.kernel.now space.old.pages space.new.pages below.old.log.now below.new.log.now }
    ensures proceeds { Proceeds I.faults O.faults E.faults result below.old below.new dev.old dev.new }
{
    let at = TimePlace {
        form: TimeForm::Nanoseconds,
        address: wait.words[2],
    };
    let stopped = again_or_interrupted(at, space, wait, clock);
    let close = end(wait, cause, stopped, space, below.log)?;
    end_limited(close, at, wait, cause, clock, space, dev, below)
}

/// What a wait is closed by, and what it tells; `stopped` closes one after a stop.
fn end(
    wait: &Wait,
    cause: Cause,
    stopped: Close,
    space: &mut Space,
    log: &mut Log,
) -> Result<Close, NoMemory>
    ensures ends { IfOk result (λ close. (kernel : Kernel)
        → ended_so wait.now cause stopped kernel space.old ≡ ends_with close kernel space.new) }
    ensures effects { OnOk result (EffectsLead log.old log.new space.old space.new) }
    ensures native { log.new.native ≡ log.old.native }
{
    match cause {
        Cause::Due => tell_nothing(wait, space, log),
        Cause::Accepted => tell_nothing(wait, space, log),
        Cause::Handler => Ok(Close::Error(Errno::EINTR)),
        Cause::Stopped => Ok(stopped),
    }
}

/// Stores of each entry that nothing is told, and gives 0, or EFAULT where one of them can't be stored.
fn tell_nothing(wait: &Wait, space: &mut Space, log: &mut Log) -> Result<Close, NoMemory>
    ensures ends { IfOk result (λ close. (kernel : Kernel)
        → told (entries_told wait.now space.old) kernel space.old ≡ ends_with close kernel space.new) }
    ensures effects { OnOk result (EffectsLead log.old log.new space.old space.new) }
    ensures native { log.new.native ≡ log.old.native }
{
    let entries = Entries {
        address: wait.words[0],
        count: wait.words[1],
    };
    let stored = store_told(&[], entries, space, log)?;
    Ok(told_if(stored))
}

/// How a wait is closed where its time is over.
fn told_if(stored: bool) -> Close
    ensures { result ≡ told_if stored }
{
    if stored {
        Close::Value(0)
    } else {
        Close::Error(Errno::EFAULT)
    }
}
