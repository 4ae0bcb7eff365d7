//! How the waits of these calls end.
ghost use Rattle.std.specs.Prelude.{◌≡◌, IfOk, OnOk, if◌then◌else◌};
ghost use Rattle.bridge_limits.specs.Passed.{EffectsLead, Proceeds};
ghost use Rattle.bridge_limits.specs.Ends.{Closes, KeepsEnd};
ghost use Rattle.bridge_limits.specs.Limits.{StoresAlike, left_form, unmasked_kernel};
ghost use Rattle.bridge_select.specs.Ends.{select_ended};
ghost use Rattle.bridge_select.specs.inside.Ending.{closing, time_form};
ghost use Rattle.bridge_select.specs.inside.Telling.{pieces_of};
ghost use Rattle.kernel_core.specs.declared.error.Errno.TheVariants.{EFAULT};
ghost use Rattle.kernel_model.specs.State.{Kernel};
ghost use Rattle.o32_model.specs.Selecting as o32;
ghost use Rattle.o32_model.specs.Selecting.{sets_pieces};
ghost use Rattle.o32_model.specs.WaitEnds.{ends_with, no_sets, sets_told, told};
ghost use Rattle.o32_model.specs.declared.wait.Close.TheVariants as closes;
ghost use Rattle.outside.specs.Streams.{contents};

use crate::asked::Asked;
use crate::fd_sets::WORDS;
use crate::telling::{FdSets, store_sets};
use bridge_limits::{Below, TimeForm, TimePlace, again_or_interrupted, end_limited};
use guest_space::Space;
use kernel_core::{Errno, NoMemory, Stop};
use o32_calls::NEWSELECT;
use o32_model::{Cause, Close, Log, Wait};
use outside::{Devices, Sink, Source};

/// Ends the wait of select(2) or pselect(2) at the kernel's time `clock`, in nanoseconds: where its time is over it stores
/// empty sets and comes to 0, or to EFAULT; EINTR by a handler; and after a stop it is carried out again (signal(7)). The
/// mask from before the call is put back, and the time that is left is stored. It stops early for want of memory, or by a
/// device.
pub fn select_end<I: Source, O: Sink, E: Sink>(
    wait: &Wait,
    cause: Cause,
    clock: u64,
    space: &mut Space,
    dev: &mut Devices<I, O, E>,
    below: &mut Below,
) -> Result<Close, Stop>
    ensures ends { Closes (select_ended wait.now cause clock below.old.kernel.now space.old) result below.new.kernel.now space.new
        (contents I.left O.written E.written dev.old) (contents I.left O.written E.written dev.new) }
    ensures kept { KeepsEnd result (I.left dev.old.input) below.old.kernel.now below.new.kernel.now space.old.pages space.new.pages below.old.log.now below.new.log.now }
    ensures proceeds { Proceeds I.faults O.faults E.faults result below.old below.new dev.old dev.new }
{
    let at = time_place(wait);
    let close = close(at, wait, cause, clock, space, below.log)?;
    end_limited(close, at, wait, cause, clock, space, dev, below)
}

/// Where the time of a call stands that waits.
fn time_place(wait: &Wait) -> TimePlace
    ensures { left_form result ≡ time_form wait.now }
{
    let form = if wait.nr == NEWSELECT {
        TimeForm::Microseconds
    } else {
        TimeForm::Nanoseconds
    };
    TimePlace {
        form,
        address: wait.words[4],
    }
}

/// How a wait closes, which at the time's end stores empty sets.
fn close(
    at: TimePlace,
    wait: &Wait,
    cause: Cause,
    clock: u64,
    space: &mut Space,
    log: &mut Log,
) -> Result<Close, NoMemory>
    ensures ends { IfOk result (λ close. (kernel : Kernel)
        → closing (left_form at) wait.now cause clock kernel space.old ≡ ends_with close (unmasked_kernel wait.now cause kernel) space.new) }
    ensures alike { OnOk result (StoresAlike space.old space.new) }
    ensures effects { OnOk result (EffectsLead log.old log.new space.old space.new) }
    ensures native { log.new.native ≡ log.old.native }
{
    match cause {
        Cause::Due => store_empty(wait, space, log),
        Cause::Accepted => store_empty(wait, space, log),
        Cause::Handler => Ok(Close::Error(Errno::EINTR)),
        Cause::Stopped => Ok(again_or_interrupted(at, space, wait, clock)),
    }
}

/// Stores empty sets, and closes with 0, or with EFAULT where one of them can't be stored.
fn store_empty(wait: &Wait, space: &mut Space, log: &mut Log) -> Result<Close, NoMemory>
    ensures ends { IfOk result (λ close. (kernel : Kernel) → told (sets_told wait.now) kernel space.old ≡ ends_with close kernel space.new) }
    ensures alike { OnOk result (StoresAlike space.old space.new) }
    ensures effects { OnOk result (EffectsLead log.old log.new space.old space.new) }
    ensures native { log.new.native ≡ log.old.native }
{
    let stored = store_sets(Asked::of_wait(wait), &empty_sets(), space, log)?;
    Ok(close_if(stored))
}

fn empty_sets() -> FdSets
    ensures { (asked : o32.Asked) → pieces_of asked result ≡ sets_pieces asked no_sets }
{
    let empty = [0; WORDS];
    FdSets {
        read: empty,
        write: empty,
        except: empty,
    }
}

/// The close with 0 where all was stored, and else with EFAULT.
fn close_if(stored: bool) -> Close
    ensures { result ≡ (if stored then closes.Value 0 else closes.Error EFAULT) }
{
    if stored {
        Close::Value(0)
    } else {
        Close::Error(Errno::EFAULT)
    }
}
