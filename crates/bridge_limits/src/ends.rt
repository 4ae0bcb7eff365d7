//! How the waits of ppoll(2), select(2) and pselect(2) end: the mask from before the call is put back, and the time that
//! is left is stored.
ghost use Rattle.std.specs.Prelude.{◌≡◌, OnOk};
ghost use Rattle.bridge_signal_state.specs.Acts.{Acts};
ghost use Rattle.bridge_signal_state.specs.Passed.{EffectsLead, Proceeds};
ghost use Rattle.bridge_signal_state.specs.Ends.{Closes, KeepsEnd};
ghost use Rattle.bridge_limits.specs.Limits.{StoresAlike, left_form, unmasked_kernel};
ghost use Rattle.bridge_limits.specs.inside.Lefts as spec_lefts;
ghost use Rattle.guest_space.specs.Memory.{Memory};
ghost use Rattle.kernel_model.specs.Clock.{left_until};
ghost use Rattle.o32_model.specs.GuestBytes.{is_storable};
ghost use Rattle.o32_model.specs.WaitEnds as spec;
ghost use Rattle.o32_model.specs.WaitEnds.{ends_with, with_left};
ghost use Rattle.outside.specs.Streams.{contents};

use crate::lefts::{Left, put_left};
use crate::times::TimePlace;
use bridge_signal_state::{Below, set_mask};
use guest_space::Space;
use kernel_core::{Errno, NoMemory, Stop};
use o32_model::{Cause, Close, Log, Wait};
use outside::{Devices, Sink, Source};

/// How many bytes a time has in the program's memory.
const TIME_SIZE: u32 = 8;

/// How a wait ends after a stop: the call is carried out again, which takes the time that is left, and is EINTR where
/// that can't be stored.
pub fn again_or_interrupted(at: TimePlace, space: &Space, wait: &Wait, clock: u64) -> Close
    ensures { result ≡ spec.again_or_interrupted (left_form at) wait.now clock space.now }
{
    if at.address != 0 && !has_room(space, at.address) {
        Close::Error(Errno::EINTR)
    } else {
        Close::Again
    }
}

/// Whether a time can be stored at an address.
fn has_room(space: &Space, address: u32) -> bool
    ensures { result ≡ is_storable space.now address 8 }
{
    space.writable(address, TIME_SIZE) == TIME_SIZE
}

/// Ends the wait of a call with a time, at the kernel's time `clock` in nanoseconds, with this close: the mask from before
/// it is put back, if it has set one of its own, but not where a handler ends it, whose frame keeps that mask; and the
/// time that is left is stored, where there is room for it. It stops for want of memory or by a device alone.
pub fn end_limited<I: Source, O: Sink, E: Sink>(
    close: Close,
    at: TimePlace,
    wait: &Wait,
    cause: Cause,
    clock: u64,
    space: &mut Space,
    dev: &mut Devices<I, O, E>,
    below: &mut Below,
) -> Result<Close, Stop>
    ensures ends { (before : Memory) → StoresAlike before space.old
        → Closes (with_left (left_form at) wait.now clock before
        (ends_with close (unmasked_kernel wait.now cause below.old.kernel.now) space.old)) result below.new.kernel.now space.new
        (contents I.left O.written E.written dev.old) (contents I.left O.written E.written dev.new) }
    ensures kept { KeepsEnd result (I.left dev.old.input) below.old.kernel.now below.new.kernel.now space.old.pages space.new.pages below.old.log.now below.new.log.now }
    ensures proceeds { Proceeds I.faults O.faults E.faults result below.old below.new dev.old dev.new }
{
    put_back(wait, cause, dev, below)?;
    store_remaining(at, wait, clock, space, below.log)?;
    Ok(close)
}

/// Stores the time that is left until the wait's deadline, 0 where it has none, unless the call has no time or there is
/// no room for it.
fn store_remaining(
    at: TimePlace,
    wait: &Wait,
    clock: u64,
    space: &mut Space,
    log: &mut Log,
) -> Result<(), NoMemory>
    ensures stored { OnOk result (space.new ≡ spec_lefts.with_remaining (left_form at) wait.now clock space.old) }
    ensures effects { OnOk result (EffectsLead log.old log.new space.old space.new) }
    ensures native { log.new.native ≡ log.old.native }
{
    if at.address == 0 {
        return Ok(());
    }
    let left = Left::of(left_until(clock, wait.deadline));
    put_left(at, left, space, log)
}

/// How long it is to a deadline, in nanoseconds, at least 0; 0 where there is none.
fn left_until(clock: u64, deadline: Option<u64>) -> u64
    ensures { result ≡ left_until clock deadline }
{
    match deadline {
        None => 0,
        Some(deadline) => deadline.saturating_sub(clock),
    }
}

/// Puts the mask from before the call back, but not where a handler ends the wait.
fn put_back<I: Source, O: Sink, E: Sink>(
    wait: &Wait,
    cause: Cause,
    dev: &mut Devices<I, O, E>,
    below: &mut Below,
) -> Result<(), Stop>
    ensures acts { Acts (λ _ became. became ≡ unmasked_kernel wait.now cause below.old.kernel.now) result below.old.kernel.now below.new.kernel.now
        (contents I.left O.written E.written dev.old) (contents I.left O.written E.written dev.new) below.old.log.now below.new.log.now }
    ensures proceeds { Proceeds I.faults O.faults E.faults result below.old below.new dev.old dev.new }
{
    match old_mask(wait, cause) {
        None => Ok(()),
        Some(mask) => {
            set_mask(mask, dev, below)?;
            Ok(())
        }
    }
}

/// The mask that is put back.
fn old_mask(wait: &Wait, cause: Cause) -> Option<[u32; 4]>
    ensures { result ≡ spec_lefts.old_mask wait.now cause }
{
    match cause {
        Cause::Due => wait.mask,
        Cause::Accepted => wait.mask,
        Cause::Handler => None,
        Cause::Stopped => wait.mask,
    }
}
