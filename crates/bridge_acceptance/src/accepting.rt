//! Accepting a signal: sigtimedwait(2).
ghost use Rattle.std.specs.Prelude.{◌≡◌, true, Some};
ghost use Rattle.bridge_signal_state.specs.Passed.{Proceeds};
ghost use Rattle.bridge_acceptance.specs.inside.Accepting as spec;
ghost use Rattle.bridge_acceptance.specs.inside.Accepting.{acceptance, did, met};
ghost use Rattle.bridge_signal_state.specs.Acts.{Acts};
ghost use Rattle.kernel_model.specs.Came.{Did};
ghost use Rattle.kernel_model.specs.Shared as shared;
ghost use Rattle.kernel_model.specs.SignalRows.{accept, accept_signal, pends};
ghost use Rattle.kernel_model.specs.SignalSets.{blockable};
ghost use Rattle.kernel_model.specs.State.{Kernel};
ghost use Rattle.o32_model.specs.GuestBytes.{unless_null};
ghost use Rattle.o32_model.specs.Masks.{set_at};
ghost use Rattle.o32_model.specs.Suspending.{all_signals};
ghost use Rattle.o32_model.specs.Times.{spec_at};
ghost use Rattle.outside.specs.Streams.{contents};

use crate::asked::{Wanted, asked, is_timed};
use crate::waiting::wait;
use bridge_signal_state::{Below, pending, take};
use guest_space::Space;
use kernel_core::{Errno, Info, Sig, Stop};
use kernel_model::TimeSpec;
use outside::{Devices, Sink, Source};
use signal_choice::accepted;

/// What accepting comes to.
#[derive(Clone, Copy)]
pub(crate) enum Accepted {
    /// This is known of the signal, which pends no more.
    Signal(Info),
    /// The error.
    Refused(Errno),
    /// It waits until this time of the clock, or without end.
    Waits(Option<u64>),
}

/// Accepts a signal of the set at an address, by the call's words: EINVAL for another size of a set than 16; EFAULT;
/// EINVAL for a time that is no length of time. Of the set's signals that pend, but for KILL and STOP, it takes the one
/// of the lowest number. Where none pends it waits, or comes to EAGAIN where the time is over.
pub(crate) fn accept<I: Source, O: Sink, E: Sink>(
    set: u32,
    time: u32,
    size: u32,
    space: &Space,
    dev: &mut Devices<I, O, E>,
    below: &mut Below,
) -> Result<Accepted, Stop>
    ensures acts { Acts (λ came became. accept below.old.kernel.now all_signals blockable (set_at space.now set)
        (unless_null time (spec_at space.now time)) size ≡ did became came) result below.old.kernel.now below.new.kernel.now
        (contents I.left O.written E.written dev.old) (contents I.left O.written E.written dev.new) below.old.log.now below.new.log.now }
    ensures proceeds { Proceeds I.faults O.faults E.faults result below.old below.new dev.old dev.new }
{
    match asked(set, time, size, space) {
        Err(error) => Ok(Accepted::Refused(error)),
        Ok(asked) => accept_asked(asked, dev, below),
    }
}

/// The same by what is asked for.
fn accept_asked<I: Source, O: Sink, E: Sink>(
    asked: Wanted,
    dev: &mut Devices<I, O, E>,
    below: &mut Below,
) -> Result<Accepted, Stop>
    ensures acts { Acts (λ came became. acceptance below.old.kernel.now asked ≡ did became came) result below.old.kernel.now below.new.kernel.now
        (contents I.left O.written E.written dev.old) (contents I.left O.written E.written dev.new) below.old.log.now below.new.log.now }
    ensures proceeds { Proceeds I.faults O.faults E.faults result below.old below.new dev.old dev.new }
{
    let pending = pending(dev, below)?;
    match accepted(pending, asked.set) {
        None => wait(asked, dev, below),
        Some(sig) => accept_signal(sig, asked.time, dev, below),
    }
}

/// Accepts a signal that pends, where the time is a length of time.
fn accept_signal<I: Source, O: Sink, E: Sink>(
    sig: Sig,
    time: Option<TimeSpec>,
    dev: &mut Devices<I, O, E>,
    below: &mut Below,
) -> Result<Accepted, Stop>
    ensures acts { pends below.old.kernel.now.signals sig ≡ true
        → Acts (λ came became. met below.old.kernel.now time (Some sig) ≡ did became came) result below.old.kernel.now below.new.kernel.now
        (contents I.left O.written E.written dev.old) (contents I.left O.written E.written dev.new) below.old.log.now below.new.log.now }
    ensures proceeds { Proceeds I.faults O.faults E.faults result below.old below.new dev.old dev.new }
{
    if !is_timed(time) {
        return Ok(Accepted::Refused(Errno::EINVAL));
    }
    take_signal(sig, dev, below)
}

/// Takes a signal that pends.
fn take_signal<I: Source, O: Sink, E: Sink>(
    sig: Sig,
    dev: &mut Devices<I, O, E>,
    below: &mut Below,
) -> Result<Accepted, Stop>
    ensures acts { (none : Did Kernel shared.Info) → pends below.old.kernel.now.signals sig ≡ true
        → Acts (λ came became. accept_signal below.old.kernel.now (Some sig) none ≡ did became came) result below.old.kernel.now below.new.kernel.now
        (contents I.left O.written E.written dev.old) (contents I.left O.written E.written dev.new) below.old.log.now below.new.log.now }
    ensures proceeds { Proceeds I.faults O.faults E.faults result below.old below.new dev.old dev.new }
{
    let info = take(sig, dev, below)?;
    Ok(taken(info))
}

/// What it comes to that this was taken; one that pends is never none.
fn taken(info: Option<Info>) -> Accepted
    ensures { result ≡ spec.taken info }
{
    match info {
        None => Accepted::Refused(Errno::EAGAIN),
        Some(info) => Accepted::Signal(info),
    }
}
