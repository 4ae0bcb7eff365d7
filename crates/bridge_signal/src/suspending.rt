//! Waiting for signals: pause(2), rt_sigsuspend(2); and restart_syscall(2), by which a wait goes on.
ghost use Rattle.std.specs.Prelude.{◌≡◌};
ghost use Rattle.bridge_signal_state.specs.Passed.{KeepsCall, LooksFor, Proceeds};
ghost use Rattle.bridge_signal.specs.inside.Waiting.{asleep, masked, restart_outcome};
ghost use Rattle.bridge_signal_state.specs.Acts.{Acts};
ghost use Rattle.kernel_model.specs.SignalRows as rows;
ghost use Rattle.o32_model.specs.Answered.{IsCall};
ghost use Rattle.o32_model.specs.Step.{Guest};
ghost use Rattle.o32_model.specs.Suspending.{pause_row, rt_sigsuspend_row};
ghost use Rattle.outside.specs.Streams.{contents};

use crate::asked::asked_mask;
use crate::numbers::SIGSETSIZE;
use bridge_signal_state::{Below, mask, outcome_of, put_set, set_mask};
use guest_space::Space;
use host_mem::FIRST_ADDRESS;
use kernel_core::{Errno, Stop};
use native_numbers::RT_SIGSUSPEND;
use o32_model::{CallWords, Outcome, Wait};
use outside::{Devices, Sink, Source};

/// pause(2), which waits as rt_sigsuspend(2) does with the mask as it is.
pub(crate) fn pause<I: Source, O: Sink, E: Sink>(
    words: &CallWords,
    dev: &mut Devices<I, O, E>,
    below: &mut Below,
) -> Result<Outcome, Stop>
    ensures row { (guest : Guest) → guest.words ≡ words.now
        → IsCall (pause_row below.old.kernel.now guest) result below.new.kernel.now guest.memory guest.processor
        (contents I.left O.written E.written dev.old) (contents I.left O.written E.written dev.new) }
    ensures kept { (guest : Guest) → guest.words ≡ words.now
        → KeepsCall (pause_row below.old.kernel.now guest) result below.old.kernel.now guest (I.left dev.old.input) below.old.log.now below.new.log.now }
    ensures proceeds { Proceeds I.faults O.faults E.faults result below.old below.new dev.old dev.new }
{
    let set = mask(dev, below)?;
    let outcome = sleep(words, set, dev, below)?;
    Ok(outcome)
}

/// rt_sigsuspend(2): EINVAL for another size of a set than 16; EFAULT. While it waits the set is the mask, and the wait
/// keeps the one before.
pub(crate) fn rt_sigsuspend<I: Source, O: Sink, E: Sink>(
    words: &CallWords,
    address: u32,
    size: u32,
    space: &Space,
    dev: &mut Devices<I, O, E>,
    below: &mut Below,
) -> Result<Outcome, Stop>
    ensures row { (guest : Guest) → guest.words ≡ words.now → guest.memory ≡ space.now
        → IsCall (rt_sigsuspend_row below.old.kernel.now guest address size) result below.new.kernel.now space.now guest.processor
        (contents I.left O.written E.written dev.old) (contents I.left O.written E.written dev.new) }
    ensures kept { (guest : Guest) → guest.words ≡ words.now → guest.memory ≡ space.now
        → KeepsCall (rt_sigsuspend_row below.old.kernel.now guest address size) result below.old.kernel.now guest (I.left dev.old.input) below.old.log.now below.new.log.now }
    ensures proceeds { Proceeds I.faults O.faults E.faults result below.old below.new dev.old dev.new }
{
    match asked_mask(address, size, space) {
        Err(error) => Ok(Outcome::Error(error)),
        Ok(set) => suspend(words, set, dev, below),
    }
}

/// Waits with a mask, and keeps the one before.
fn suspend<I: Source, O: Sink, E: Sink>(
    words: &CallWords,
    set: [u32; 4],
    dev: &mut Devices<I, O, E>,
    below: &mut Below,
) -> Result<Outcome, Stop>
    ensures acts { Acts (λ outcome became. (outcome ≡ masked (asleep words.now) below.old.kernel.now.signals.mask) × (became ≡ rows.with_mask below.old.kernel.now set)) result below.old.kernel.now below.new.kernel.now
        (contents I.left O.written E.written dev.old) (contents I.left O.written E.written dev.new) below.old.log.now below.new.log.now }
    ensures proceeds { Proceeds I.faults O.faults E.faults result below.old below.new dev.old dev.new }
{
    let before = mask(dev, below)?;
    let outcome = sleep_with(words, set, dev, below)?;
    Ok(masked(outcome, before))
}

/// Waits with a mask, which stays.
fn sleep_with<I: Source, O: Sink, E: Sink>(
    words: &CallWords,
    set: [u32; 4],
    dev: &mut Devices<I, O, E>,
    below: &mut Below,
) -> Result<Outcome, Stop>
    ensures acts { Acts (λ outcome became. (outcome ≡ asleep words.now) × (became ≡ rows.with_mask below.old.kernel.now set)) result below.old.kernel.now below.new.kernel.now
        (contents I.left O.written E.written dev.old) (contents I.left O.written E.written dev.new) below.old.log.now below.new.log.now }
    ensures proceeds { Proceeds I.faults O.faults E.faults result below.old below.new dev.old dev.new }
{
    let outcome = sleep(words, set, dev, below)?;
    set_mask(set, dev, below)?;
    Ok(outcome)
}

/// Makes the native call that waits with a mask, which leaves the mask as it is.
fn sleep<I: Source, O: Sink, E: Sink>(
    words: &CallWords,
    set: [u32; 4],
    dev: &mut Devices<I, O, E>,
    below: &mut Below,
) -> Result<Outcome, Stop>
    ensures looks { LooksFor (λ outcome. outcome ≡ asleep words.now) result below.old.kernel.now below.new.kernel.now
        (contents I.left O.written E.written dev.old) (contents I.left O.written E.written dev.new) below.old.log.now below.new.log.now }
    ensures proceeds { Proceeds I.faults O.faults E.faults result below.old below.new dev.old dev.new }
{
    put_set(set, below.memory)?;
    let args = [FIRST_ADDRESS, SIGSETSIZE, 0, 0, 0, 0];
    let reply = below.look(RT_SIGSUSPEND, args, dev)?;
    Ok(outcome_of(words, reply))
}

/// A wait with the mask that was before it.
fn masked(outcome: Outcome, before: [u32; 4]) -> Outcome
    ensures { result ≡ masked outcome before }
{
    match outcome {
        Outcome::Sleep(wait) => Outcome::Sleep(Wait {
            mask: Some(before),
            ..wait
        }),
        other => other,
    }
}

/// restart_syscall(2): the wait goes on as it was, or EINTR where there is none.
pub(crate) fn restart_syscall(restart: Option<Wait>) -> Outcome
    ensures { result ≡ restart_outcome restart }
{
    match restart {
        None => Outcome::Error(Errno::EINTR),
        Some(wait) => Outcome::Sleep(wait),
    }
}
