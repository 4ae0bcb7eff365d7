//! What the calls on the mask and on actions ask for, when their arguments are fine: sigprocmask(2), sigaction(2),
//! sigsuspend(2).
ghost use Rattle.std.specs.Prelude.{◌≡◌, ◌<◌, ◌==◌, IfOk};
ghost use Rattle.bridge_signal.specs.inside.Asked as spec;
ghost use Rattle.bridge_signal.specs.inside.Asked.{IsAllowed, asked_set, if_sized};
ghost use Rattle.kernel_model.specs.SignalRows as rows;
ghost use Rattle.kernel_model.specs.SignalSets as sets;
ghost use Rattle.kernel_model.specs.SignalSets.{place, signal_count};
ghost use Rattle.number_tables.specs.MaskChanges.{mask_change_of_o32};
ghost use Rattle.number_tables.specs.Signals.{signal_of_o32};
ghost use Rattle.o32_model.specs.Actions.{action_at};
ghost use Rattle.o32_model.specs.GuestBytes.{unless_null};
ghost use Rattle.o32_model.specs.Masks.{set_at};

use crate::structures::action_in_program;
use bridge_signal_state::set_in_program;
use guest_space::Space;
use kernel_core::{Errno, MaskChange, Sig};
use kernel_model::Action;
use number_tables::O32Number;

/// The size of a set of signals, in bytes.
const SET_SIZE: u32 = 16;

/// KILL, at the place 8, and STOP, at the place 22.
const UNBLOCKABLE: [u32; 4] = [0x0040_0100, 0, 0, 0];

/// How the mask is changed.
#[derive(Clone, Copy)]
pub(crate) struct MaskSetting {
    pub(crate) how: MaskChange,
    pub(crate) set: [u32; 4],
}

/// A signal whose action is told, and its new action.
#[derive(Clone, Copy)]
pub(crate) struct ActionSetting {
    pub(crate) sig: Sig,
    pub(crate) action: Option<Action>,
}

/// Whether this is the size of a set.
pub(crate) fn is_set_size(size: u32) -> bool
    ensures { result ≡ (size == 16) }
{
    size == SET_SIZE
}

/// A set in the program's memory: EINVAL for another size than 16, EFAULT.
pub(crate) fn asked_mask(address: u32, size: u32, space: &Space) -> Result<[u32; 4], Errno>
    ensures { result ≡ if_sized size (set_at space.now address) }
{
    if !is_set_size(size) {
        return Err(Errno::EINVAL);
    }
    set_in_program(space, address)
}

/// The change of the mask, none where the address is null: EINVAL for another size of a set than 16 and for a change
/// that is not listed, EFAULT.
pub(crate) fn asked_change(
    how: u32,
    address: u32,
    size: u32,
    space: &Space,
) -> Result<Option<MaskSetting>, Errno>
    ensures { result ≡ if_sized size (asked_set (mask_change_of_o32 how) (unless_null address (set_at space.now address))) }
{
    if !is_set_size(size) {
        return Err(Errno::EINVAL);
    }
    if address == 0 {
        return Ok(None);
    }
    match MaskChange::of_o32(how) {
        None => Err(Errno::EINVAL),
        Some(how) => change_by(how, set_in_program(space, address)),
    }
}

fn change_by(how: MaskChange, set: Result<[u32; 4], Errno>) -> Result<Option<MaskSetting>, Errno>
    ensures { result ≡ spec.asked_change how set }
{
    match set {
        Err(error) => Err(error),
        Ok(set) => Ok(Some(MaskSetting { how, set })),
    }
}

/// The signal of a number and its new action, none where the address is null: EINVAL for another size of a set than
/// 16, for a number that is not listed, and for a new action of KILL or STOP; EFAULT.
pub(crate) fn asked_action(
    number: u32,
    address: u32,
    size: u32,
    space: &Space,
) -> Result<ActionSetting, Errno>
    ensures row { result ≡ if_sized size (spec.asked_of (signal_of_o32 number) (action_at space.now address)) }
    ensures allowed { IfOk result (λ asked. IsAllowed asked.sig asked.action) }
{
    if !is_set_size(size) {
        return Err(Errno::EINVAL);
    }
    match Sig::of_o32(number) {
        None => Err(Errno::EINVAL),
        Some(sig) => new_action(sig, address, space),
    }
}

/// The same of a signal.
fn new_action(sig: Sig, address: u32, space: &Space) -> Result<ActionSetting, Errno>
    ensures row { result ≡ spec.asked_new sig (action_at space.now address) }
    ensures allowed { IfOk result (λ asked. IsAllowed asked.sig asked.action) }
{
    if address == 0 {
        return Ok(ActionSetting { sig, action: None });
    }
    if is_unblockable(sig) {
        return Err(Errno::EINVAL);
    }
    match action_in_program(space, address) {
        Err(error) => Err(error),
        Ok(action) => Ok(ActionSetting {
            sig,
            action: Some(action),
        }),
    }
}

/// Whether a signal can't be blocked, and gets no action.
fn is_unblockable(sig: Sig) -> bool
    ensures { result ≡ rows.is_unblockable sig }
{
    has(&UNBLOCKABLE, sig)
}

/// Whether a signal is in a set.
fn has(set: &[u32; 4], sig: Sig) -> bool
    ensures { result ≡ sets.has set.now sig }
{
    let place = place_of(sig);
    (set[place / 32] >> (place % 32)) % 2 == 1
}

/// The place of a signal among all, from 0 to 127: its number for an o32 program less 1.
#[tactic(auto, using(native_signal::proofs::PlaceNumbers::numbers))]
fn place_of(sig: Sig) -> usize
    ensures place { result ≡ place sig }
    ensures below { result < signal_count }
{
    sig.to_o32() as usize - 1
}
