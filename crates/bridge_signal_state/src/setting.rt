//! What the native kernel keeps of signals, set by native calls.
ghost use Rattle.std.specs.Prelude.{◌≡◌, false};
ghost use Rattle.bridge_log.specs.Proceeding.{Proceeds};
ghost use Rattle.bridge_signal_state.specs.Acts.{Acts};
ghost use Rattle.bridge_signal_state.specs.Setting.{SetsStack};
ghost use Rattle.kernel_model.specs.SignalRows.{after_action, is_unblockable, no_action, with_mask, with_signals};
ghost use Rattle.outside.specs.Streams.{contents};

use crate::acting::act;
use crate::filling::{put_set, put_stack};
use crate::numbers::{ACTION_SIZE, SIG_SETMASK, SIGSETSIZE};
use crate::showing::is_fine;
use crate::words::{is_set, stack_fits};
use bridge_log::{Below, fresh_room};
use host_mem::FIRST_ADDRESS;
use kernel_core::{Sig, Stop};
use kernel_model::SigStack;
use native_numbers::{RT_SIGACTION, RT_SIGPROCMASK, SIGALTSTACK};
use number_tables::NativeNumber;
use outside::{Devices, Sink, Source};

/// Blocks the signals of a set and no others (sigprocmask(2)): four words of 32 bits, with bit s - 1 for the signal of
/// number s of an o32 program. KILL and STOP are left out. It stops for want of memory or by a device alone, as each
/// call here does.
pub fn set_mask<I: Source, O: Sink, E: Sink>(
    mask: [u32; 4],
    dev: &mut Devices<I, O, E>,
    below: &mut Below,
) -> Result<(), Stop>
    ensures acts { Acts (λ _ became. became ≡ with_mask below.old.kernel.now mask) result below.old.kernel.now below.new.kernel.now
        (contents I.left O.written E.written dev.old) (contents I.left O.written E.written dev.new) below.old.log.now below.new.log.now }
    ensures proceeds { Proceeds I.faults O.faults E.faults result below.old below.new dev.old dev.new }
{
    is_set(mask);
    put_set(mask, below.memory)?;
    let args = [SIG_SETMASK, FIRST_ADDRESS, 0, SIGSETSIZE, 0, 0];
    act(RT_SIGPROCMASK, args, dev, below)?;
    Ok(())
}

/// Gives a signal, which is neither KILL nor STOP, its default action again, with no flag and an empty mask
/// (sigaction(2)). What pends of one that is ignored by default goes.
pub fn set_default<I: Source, O: Sink, E: Sink>(
    sig: Sig,
    dev: &mut Devices<I, O, E>,
    below: &mut Below,
) -> Result<(), Stop>
    requires blockable { is_unblockable sig ≡ false }
    ensures acts { Acts (λ _ became. became ≡ with_signals below.old.kernel.now (after_action below.old.kernel.now.signals sig no_action)) result below.old.kernel.now below.new.kernel.now
        (contents I.left O.written E.written dev.old) (contents I.left O.written E.written dev.new) below.old.log.now below.new.log.now }
    ensures proceeds { Proceeds I.faults O.faults E.faults result below.old below.new dev.old dev.new }
{
    fresh_room(below.memory, ACTION_SIZE)?;
    let args = [sig.to_native(), FIRST_ADDRESS, 0, SIGSETSIZE, 0, 0];
    act(RT_SIGACTION, args, dev, below)?;
    Ok(())
}

/// Sets the alternate stack (sigaltstack(2)) and answers true. False, and nothing is set, where its flags are more than
/// SS_DISABLE (EINVAL), or it is enabled with fewer than 2048 bytes (ENOMEM). No stack pointer is looked at.
pub fn set_stack<I: Source, O: Sink, E: Sink>(
    stack: SigStack,
    dev: &mut Devices<I, O, E>,
    below: &mut Below,
) -> Result<bool, Stop>
    ensures acts { Acts (SetsStack below.old.kernel.now stack) result below.old.kernel.now below.new.kernel.now
        (contents I.left O.written E.written dev.old) (contents I.left O.written E.written dev.new) below.old.log.now below.new.log.now }
    ensures proceeds { Proceeds I.faults O.faults E.faults result below.old below.new dev.old dev.new }
{
    stack_fits(stack);
    put_stack(stack, below.memory)?;
    let args = [FIRST_ADDRESS, 0, 0, 0, 0, 0];
    let reply = act(SIGALTSTACK, args, dev, below)?;
    Ok(is_fine(reply))
}
