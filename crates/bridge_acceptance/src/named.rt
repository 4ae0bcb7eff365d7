//! The signals that a call waits for by name.
ghost use Rattle.std.specs.Prelude.{◌≡◌, ◌==◌};
ghost use Rattle.std.specs.List.{list_any};
ghost use Rattle.bridge_acceptance.specs.inside.Named.{named_set};
ghost use Rattle.bridge_signal_state.specs.Passed.{LooksFor, Proceeds};
ghost use Rattle.kernel_core.specs.declared.signal.Sig.{Sig};
ghost use Rattle.kernel_model.specs.SignalRows.{pends};
ghost use Rattle.kernel_model.specs.SignalSets.{place};
ghost use Rattle.kernel_model.specs.Stops.{StopsOnlyIfRose};
ghost use Rattle.o32_calls.specs.Numbers.{rt_sigtimedwait_number};
ghost use Rattle.o32_model.specs.SignalWaitEnds.{named_signals};
ghost use Rattle.outside.specs.Streams.{NoCountFell, contents};

use bridge_signal_state::{Below, NativeKernel, pending, set_in_program};
use guest_space::Space;
use host_mem::HostMem;
use kernel_core::{Sig, Stop};
use o32_calls::RT_SIGTIMEDWAIT;
use o32_model::{Log, Wait};
use outside::{Devices, Sink, Source};
use signal_choice::{accepted, is_named};

/// Whether a number is that of rt_sigtimedwait(2).
pub fn is_acceptance_call(number: u32) -> bool
    ensures { result ≡ (number == rt_sigtimedwait_number) }
{
    number == RT_SIGTIMEDWAIT
}

/// Whether a call that waits waits for a signal by its name: rt_sigtimedwait(2), for those of the set in the program's
/// memory, but not for KILL and STOP. One whose set can't be read waits for none.
pub fn awaits(wait: &Wait, space: &Space, sig: Sig) -> bool
    ensures { result ≡ list_any (λ (other : Sig). place other == place sig) (named_signals space.now wait.now) }
{
    match named_set(wait, space) {
        None => false,
        Some(set) => is_named(&set, sig),
    }
}

/// Whether a signal pends for which a call waits by its name, as in [`awaits`]. It stops for want of memory or by a
/// device alone.
pub fn accepts<I: Source, O: Sink, E: Sink>(
    wait: &Wait,
    space: &Space,
    k: &mut NativeKernel,
    mem: &mut HostMem,
    dev: &mut Devices<I, O, E>,
    log: &mut Log,
) -> Result<bool, Stop>
    ensures looks { LooksFor (λ found. found ≡ list_any (λ (signal : Sig). pends k.old.signals signal)
        (named_signals space.now wait.now)) result k.old k.new
        (contents I.left O.written E.written dev.old) (contents I.left O.written E.written dev.new) log.old log.new }
    ensures cause { StopsOnlyIfRose I.faults O.faults E.faults result dev.old dev.new }
    ensures counts { NoCountFell I.faults O.faults E.faults dev.old dev.new }
    ensures clock { k.new.clock ≡ k.old.clock }
{
    let below = &mut Below {
        kernel: k,
        memory: mem,
        log,
    };
    pends_named(wait, space, dev, below)
}

/// The same, with the kernel and what its calls are made with as one value.
fn pends_named<I: Source, O: Sink, E: Sink>(
    wait: &Wait,
    space: &Space,
    dev: &mut Devices<I, O, E>,
    below: &mut Below,
) -> Result<bool, Stop>
    ensures looks { LooksFor (λ found. found ≡ list_any (λ (signal : Sig). pends below.old.kernel.now.signals signal)
        (named_signals space.now wait.now)) result below.old.kernel.now below.new.kernel.now
        (contents I.left O.written E.written dev.old) (contents I.left O.written E.written dev.new) below.old.log.now below.new.log.now }
    ensures proceeds { Proceeds I.faults O.faults E.faults result below.old below.new dev.old dev.new }
{
    let Some(set) = named_set(wait, space) else {
        return Ok(false);
    };
    let pending = pending(dev, below)?;
    Ok(accepted(pending, set).is_some())
}

/// The set whose signals a call waits for, none where it can't be read; no other call than rt_sigtimedwait(2) has one.
fn named_set(wait: &Wait, space: &Space) -> Option<[u32; 4]>
    ensures { result ≡ named_set space.now wait.now }
{
    if wait.nr != RT_SIGTIMEDWAIT {
        return None;
    }
    match set_in_program(space, wait.words[0]) {
        Err(_) => None,
        Ok(set) => Some(set),
    }
}
