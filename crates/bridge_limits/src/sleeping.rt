//! Calls that wait, with a mask of their own.
ghost use Rattle.std.specs.Prelude.{◌≡◌, None, Some, Option};
ghost use Rattle.bridge_signal_state.specs.Acts.{Acts};
ghost use Rattle.bridge_signal_state.specs.Passed.{Proceeds};
ghost use Rattle.bridge_limits.specs.Limits.{asleep, given_mask, masked_kernel};
ghost use Rattle.bridge_limits.specs.inside.Waiting as spec;
ghost use Rattle.kernel_model.specs.SignalRows.{with_mask};
ghost use Rattle.o32_model.specs.Step as o32_step;
ghost use Rattle.outside.specs.Streams.{contents};

use crate::masks::OwnMask;
use bridge_signal_state::{Below, mask, set_mask, six_words};
use kernel_core::Stop;
use o32_model::{CallWords, Outcome, Wait};
use outside::{Devices, Sink, Source};

/// A call with these words waits, until a time of the clock in nanoseconds or without end. Where it has a mask of its own
/// that becomes the mask, without KILL and STOP, and the wait keeps the one before (ppoll(2), pselect(2)). It stops for want
/// of memory or by a device alone.
pub fn sleep<I: Source, O: Sink, E: Sink>(
    words: &CallWords,
    until: Option<u64>,
    own: OwnMask,
    dev: &mut Devices<I, O, E>,
    below: &mut Below,
) -> Result<Outcome, Stop>
    ensures acts { Acts (λ outcome became.
        (outcome ≡ asleep below.old.kernel.now (o32_step.wait_of words.now (record { done = 0; until = until })) (given_mask own))
        × (became ≡ masked_kernel below.old.kernel.now (given_mask own))) result below.old.kernel.now below.new.kernel.now
        (contents I.left O.written E.written dev.old) (contents I.left O.written E.written dev.new) below.old.log.now below.new.log.now }
    ensures proceeds { Proceeds I.faults O.faults E.faults result below.old below.new dev.old dev.new }
{
    match own {
        OwnMask::None => Ok(Outcome::Sleep(waiting(words, until, None))),
        OwnMask::Unreadable => Ok(Outcome::Sleep(waiting(words, until, None))),
        OwnMask::Set(set) => sleep_masked(words, until, set, dev, below),
    }
}

/// The same with a mask.
fn sleep_masked<I: Source, O: Sink, E: Sink>(
    words: &CallWords,
    until: Option<u64>,
    set: [u32; 4],
    dev: &mut Devices<I, O, E>,
    below: &mut Below,
) -> Result<Outcome, Stop>
    ensures acts { Acts (λ outcome became.
        (outcome ≡ spec.sleeping words.now until (Some below.old.kernel.now.signals.mask)) × (became ≡ with_mask below.old.kernel.now set)) result below.old.kernel.now below.new.kernel.now
        (contents I.left O.written E.written dev.old) (contents I.left O.written E.written dev.new) below.old.log.now below.new.log.now }
    ensures proceeds { Proceeds I.faults O.faults E.faults result below.old below.new dev.old dev.new }
{
    let before = mask(dev, below)?;
    set_mask(set, dev, below)?;
    Ok(Outcome::Sleep(waiting(words, until, Some(before))))
}

/// A wait with the call's words.
fn waiting(words: &CallWords, until: Option<u64>, mask: Option<[u32; 4]>) -> Wait
    ensures { result ≡ spec.waiting words.now until mask }
{
    Wait {
        nr: words.nr,
        words: six_words(words),
        deadline: until,
        done: 0,
        mask,
    }
}
