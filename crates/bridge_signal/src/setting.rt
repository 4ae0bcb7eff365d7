//! New actions in host memory, and the native call that sets them.
ghost use Rattle.std.specs.Prelude.{◌≡◌, ◌∷◌, ◌<◌, OnOk, false, map, pos};
ghost use Rattle.bridge_signal_state.specs.Passed.{Proceeds};
ghost use Rattle.bridge_signal.specs.inside.Asked.{action_set_to};
ghost use Rattle.bridge_signal_state.specs.Acts.{Acts};
ghost use Rattle.kernel_model.specs.SignalRows.{is_unblockable};
ghost use Rattle.native_calls.specs.SignalBytes as spec;
ghost use Rattle.number_tables.specs.SaNumbers.{native_sa};
ghost use Rattle.outside.specs.Streams.{contents};
ghost use Rattle.signal_sets.specs.NativeSets.{native_of};

use crate::numbers::SIGSETSIZE;
use bridge_signal_state::{Below, act, is_set};
use host_mem::{FIRST_ADDRESS, HostMem};
use kernel_core::{NoMemory, Sig, Stop};
use kernel_model::Action;
use layouts::{NativeStructure, native_layout, put_record};
use native_numbers::RT_SIGACTION;
use number_tables::NativeNumber;
use outside::{Devices, Sink, Source};
use signal_sets::to_native;

/// How many bytes an action has in host memory (struct sigaction of Linux `include/uapi/asm-generic/signal.h`).
const ACTION_SIZE: usize = 32;

/// Sets the action of a signal, which is neither KILL nor STOP.
pub(crate) fn set_action<I: Source, O: Sink, E: Sink>(
    sig: Sig,
    action: Action,
    dev: &mut Devices<I, O, E>,
    below: &mut Below,
) -> Result<(), Stop>
    requires blockable { is_unblockable sig ≡ false }
    ensures acts { Acts (λ _ became. became ≡ action_set_to below.old.kernel.now sig action) result below.old.kernel.now below.new.kernel.now
        (contents I.left O.written E.written dev.old) (contents I.left O.written E.written dev.new) below.old.log.now below.new.log.now }
    ensures proceeds { Proceeds I.faults O.faults E.faults result below.old below.new dev.old dev.new }
{
    is_set(action.mask);
    put_action(action, below.memory)?;
    let args = [sig.to_native(), FIRST_ADDRESS, 0, SIGSETSIZE, 0, 0];
    act(RT_SIGACTION, args, dev, below)?;
    Ok(())
}

/// Makes host memory of an action.
fn put_action(action: Action, mem: &mut HostMem) -> Result<(), NoMemory>
    ensures { OnOk result (mem.new ≡ spec.action_bytes action) }
{
    mem.clear();
    mem.push(&action_bytes(action))?;
    Ok(())
}

/// The structure of an action.
fn action_bytes(action: Action) -> [u8; ACTION_SIZE]
    ensures { result ≡ spec.action_bytes action }
{
    let values = action_values(action);
    let mut bytes = [0; ACTION_SIZE];
    put_record(
        native_layout(NativeStructure::Sigaction),
        &values,
        &mut bytes,
    );
    bytes
}

/// Its fields: flags, handler and the two words of its mask.
fn action_values(action: Action) -> [i128; 4]
    ensures { result ≡ map pos (native_sa action.flags ∷ action.handler ∷ native_of action.mask) }
{
    let mask = to_native(action.mask);
    [
        i128::from(action.flags.to_native()),
        i128::from(action.handler),
        i128::from(mask[0]),
        i128::from(mask[1]),
    ]
}
