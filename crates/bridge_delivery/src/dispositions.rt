//! What a delivery does to what a process keeps within a turn.
ghost use Rattle.std.specs.Prelude.{◌≡◌, false, None, OnOk, unwrap_or};
ghost use Rattle.bridge_delivery.specs.inside.Standings as spec;
ghost use Rattle.kernel_model.specs.SignalRows.{is_ignored_by_default, is_stop};
ghost use Rattle.number_tables.specs.Signals.{o32_signal};
ghost use Rattle.o32_turns.specs.Delivering.{has_handler};

use kernel_core::{Delivery, Event, Finish, Info, NoMemory, Sig};
use kernel_model::Action;
use number_tables::{O32Number, SI_KERNEL};
use o32_model::Wait;
use o32_turns::Going;

/// SIG_DFL and SIG_IGN (sigaction(2)).
const DEFAULT_HANDLER: u64 = 0;

const IGNORE_HANDLER: u64 = 1;

/// Whether an action is a handler of the program.
pub(crate) fn has_handler(action: &Action) -> bool
    ensures { result ≡ has_handler action.now }
{
    !matches!(action.handler, DEFAULT_HANDLER | IGNORE_HANDLER)
}

/// A signal that was sent and has no handler is delivered: it is ignored, or its default action is taken.
pub(crate) fn dispose(sig: Sig, action: &Action, going: &mut Going) -> Result<(), NoMemory>
    requires { has_handler action.now ≡ false }
    ensures { OnOk result (going.new ≡ spec.disposed sig action.now going.old) }
{
    if action.handler == IGNORE_HANDLER || is_ignored_by_default(sig) {
        tell(sig, Delivery::Ignored, going)
    } else {
        by_default(sig, going)
    }
}

/// A signal that was sent is delivered so.
pub(crate) fn tell(sig: Sig, delivery: Delivery, going: &mut Going) -> Result<(), NoMemory>
    ensures { OnOk result (going.new ≡ spec.told going.old sig delivery) }
{
    going.events.push(Event::Signal { sig, delivery })?;
    Ok(())
}

/// The default action of a signal that is not ignored: it stops the process or kills it (signal(7)).
fn by_default(sig: Sig, going: &mut Going) -> Result<(), NoMemory>
    ensures { OnOk result (going.new ≡ spec.by_default sig going.old) }
{
    if is_stop(sig) {
        stop(sig, going)
    } else {
        kill(sig, going)
    }
}

/// A signal stops the process, and interrupts the call that waits.
fn stop(sig: Sig, going: &mut Going) -> Result<(), NoMemory>
    ensures { OnOk result (going.new ≡ spec.stopped sig going.old) }
{
    going.stopped = true;
    going.interrupted = going.wait.is_some();
    tell(sig, Delivery::Stop, going)
}

/// A signal kills the process.
pub(crate) fn kill(sig: Sig, going: &mut Going) -> Result<(), NoMemory>
    ensures { OnOk result (going.new ≡ spec.killed sig going.old) }
{
    going.over = Some(Finish::Killed(number_of(sig)));
    going.events.push(Event::Killed { sig })?;
    Ok(())
}

/// A handler's frame can't be written: the process meets a SIGSEGV, and where that is its signal it is killed.
fn not_entered(sig: Sig, going: &mut Going) -> Result<(), NoMemory>
    ensures { OnOk result (going.new ≡ spec.not_entered sig going.old) }
{
    match sig {
        Sig::Segv => kill(sig, going),
        _ => meet_fault(going),
    }
}

/// A SIGSEGV without an address.
fn meet_fault(going: &mut Going) -> Result<(), NoMemory>
    ensures { OnOk result (going.new ≡ spec.unframed going.old) }
{
    going.fault = Some(Info {
        sig: Sig::Segv,
        code: SI_KERNEL,
        errno: 0,
        pid: 0,
        uid: 0,
        value: 0,
        addr: 0,
    });
    going.events.push(Event::Fault {
        sig: Sig::Segv,
        code: SI_KERNEL as u32,
        addr: 0,
    })?;
    Ok(())
}

/// What a frame that was written or not comes to.
pub(crate) fn after_frame(written: bool, sig: Sig, going: &mut Going) -> Result<(), NoMemory>
    ensures { OnOk result (going.new ≡ spec.begun written sig going.old) }
{
    if written {
        enter(going);
        Ok(())
    } else {
        not_entered(sig, going)
    }
}

/// A handler begins: no call can go on by restart_syscall(2) any more.
fn enter(going: &mut Going)
    ensures { going.new ≡ spec.entered going.old }
{
    going.restart = None;
    going.saved = None;
}

/// The fault that the process met and that is not yet delivered.
pub(crate) fn fault_of(going: &Going) -> Option<Info>
    ensures { result ≡ going.now.fault }
{
    going.fault
}

/// That fault is used up.
pub(crate) fn use_up_fault(going: &mut Going)
    ensures { going.new ≡ record going.old { fault = None } }
{
    going.fault = None;
}

/// The mask that a handler's frame keeps: the one that was kept for it, or else the one that stands.
pub(crate) fn frame_mask(going: &Going, blocked: [u32; 4]) -> [u32; 4]
    ensures { result ≡ unwrap_or going.now.saved blocked }
{
    going.saved.unwrap_or(blocked)
}

/// The mask from before the call that waits, where that has one of its own, is the one that the handler's frame keeps.
pub(crate) fn keep_mask(going: &mut Going)
    ensures { going.new ≡ spec.keeping going.old }
{
    if let Some(
        Wait {
            mask: Some(mask),
            ..
        },
    ) = going.wait
    {
        going.saved = Some(mask);
    }
}

/// Whether a signal without an action is ignored (signal(7)).
fn is_ignored_by_default(sig: Sig) -> bool
    ensures { result ≡ is_ignored_by_default sig }
{
    matches!(sig, Sig::Chld | Sig::Urg | Sig::Winch | Sig::Cont)
}

/// Whether it stops the process then.
fn is_stop(sig: Sig) -> bool
    ensures { result ≡ is_stop sig }
{
    matches!(sig, Sig::Stop | Sig::Tstp | Sig::Ttin | Sig::Ttou)
}

/// The number of a signal for an o32 program, 1 to 128.
#[tactic(auto, using(crate::proofs::Numbers::few))]
fn number_of(sig: Sig) -> u8
    ensures { result ≡ o32_signal sig }
{
    sig.to_o32() as u8
}
