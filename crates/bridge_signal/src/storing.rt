//! What a call stores of what it was told, and what it comes to.
ghost use Rattle.std.specs.Prelude.{◌≡◌, IfOk, OnOk};
ghost use Rattle.bridge_signal_state.specs.Passed.{EffectsLead, ending};
ghost use Rattle.bridge_signal.specs.inside.Endings.{stores_told, stores_told_unless_null};
ghost use Rattle.o32_model.specs.Actions as actions;
ghost use Rattle.o32_model.specs.Masks as masks;

use crate::structures::{action_bytes, set_bytes, stack_bytes};
use bridge_signal_state::{store, store_unless_null};
use guest_space::Space;
use kernel_core::{Errno, NoMemory};
use kernel_model::{Action, SigStack};
use o32_model::{Log, Outcome};

/// Stores a set that was told, or gives the error.
pub(crate) fn store_set(
    told: Result<[u32; 4], Errno>,
    address: u32,
    space: &mut Space,
    log: &mut Log,
) -> Result<Outcome, NoMemory>
    ensures ends { IfOk result (λ outcome. stores_told masks.set_bytes space.old address told ≡ ending outcome space.new) }
    ensures effects { OnOk result (EffectsLead log.old log.new space.old space.new) }
    ensures native { log.new.native ≡ log.old.native }
{
    match told {
        Err(error) => Ok(Outcome::Error(error)),
        Ok(set) => store(address, &set_bytes(set), 0, space, log),
    }
}

/// The same, where a null pointer stores nothing.
pub(crate) fn store_set_unless_null(
    told: Result<[u32; 4], Errno>,
    address: u32,
    space: &mut Space,
    log: &mut Log,
) -> Result<Outcome, NoMemory>
    ensures ends { IfOk result (λ outcome. stores_told_unless_null masks.set_bytes space.old address told ≡ ending outcome space.new) }
    ensures effects { OnOk result (EffectsLead log.old log.new space.old space.new) }
    ensures native { log.new.native ≡ log.old.native }
{
    match told {
        Err(error) => Ok(Outcome::Error(error)),
        Ok(set) => store_unless_null(address, &set_bytes(set), 0, space, log),
    }
}

/// Stores an action that was told, or gives the error; a null pointer stores nothing.
pub(crate) fn store_action_unless_null(
    told: Result<Action, Errno>,
    address: u32,
    space: &mut Space,
    log: &mut Log,
) -> Result<Outcome, NoMemory>
    ensures ends { IfOk result (λ outcome. stores_told_unless_null actions.action_bytes space.old address told ≡ ending outcome space.new) }
    ensures effects { OnOk result (EffectsLead log.old log.new space.old space.new) }
    ensures native { log.new.native ≡ log.old.native }
{
    match told {
        Err(error) => Ok(Outcome::Error(error)),
        Ok(action) => store_unless_null(address, &action_bytes(action), 0, space, log),
    }
}

/// Stores an alternate stack that was told, or gives the error; a null pointer stores nothing.
pub(crate) fn store_stack_unless_null(
    told: Result<SigStack, Errno>,
    address: u32,
    space: &mut Space,
    log: &mut Log,
) -> Result<Outcome, NoMemory>
    ensures ends { IfOk result (λ outcome. stores_told_unless_null actions.stack_bytes space.old address told ≡ ending outcome space.new) }
    ensures effects { OnOk result (EffectsLead log.old log.new space.old space.new) }
    ensures native { log.new.native ≡ log.old.native }
{
    match told {
        Err(error) => Ok(Outcome::Error(error)),
        Ok(stack) => store_unless_null(address, &stack_bytes(stack), 0, space, log),
    }
}
