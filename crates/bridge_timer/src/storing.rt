//! What a call stores of what it was shown, and what it comes to.
ghost use Rattle.std.specs.Prelude.{◌≡◌, IfOk, OnOk};
ghost use Rattle.bridge_log.specs.Keeping.{EffectsLead};
ghost use Rattle.bridge_log.specs.Storing.{ending, stores, stores_unless_null};
ghost use Rattle.bridge_timer.specs.inside.Endings.{set_ending, shown_ending};
ghost use Rattle.bridge_timer.specs.inside.Shown.{shown_bytes};

use crate::shown::Shown;
use bridge_log::{outcome_of, store, store_unless_null};
use guest_space::Space;
use kernel_core::{Errno, NoMemory, Reply};
use o32_model::{CallWords, Log, Outcome};

/// getitimer(2), by what the timer shows: EINVAL where there is none.
pub(crate) fn store_there(
    shown: Option<Shown>,
    address: u32,
    space: &mut Space,
    log: &mut Log,
) -> Result<Outcome, NoMemory>
    ensures ends { IfOk result (λ outcome. shown_ending space.old address shown ≡ ending outcome space.new) }
    ensures effects { OnOk result (EffectsLead log.old log.new space.old space.new) }
    ensures native { log.new.native ≡ log.old.native }
{
    match shown {
        None => Ok(Outcome::Error(Errno::EINVAL)),
        Some(shown) => store_shown(shown, address, space, log),
    }
}

/// setitimer(2), by what the timer showed and the native reply: nothing is stored where it was not set, and where
/// the pointer is null.
pub(crate) fn store_before(
    words: &CallWords,
    shown: Shown,
    reply: Reply,
    address: u32,
    space: &mut Space,
    log: &mut Log,
) -> Result<Outcome, NoMemory>
    ensures ends { IfOk result (λ outcome. set_ending words.now space.old address shown reply ≡ ending outcome space.new) }
    ensures effects { OnOk result (EffectsLead log.old log.new space.old space.new) }
    ensures native { log.new.native ≡ log.old.native }
{
    match reply {
        Reply::Done(number) if number >= 0 => {
            store_shown_unless_null(shown, address, space, log)
        }
        _ => Ok(outcome_of(words, reply)),
    }
}

/// Stores what the timer shows.
fn store_shown(
    shown: Shown,
    address: u32,
    space: &mut Space,
    log: &mut Log,
) -> Result<Outcome, NoMemory>
    ensures ends { IfOk result (λ outcome. stores space.old address (shown_bytes shown) 0 ≡ ending outcome space.new) }
    ensures effects { OnOk result (EffectsLead log.old log.new space.old space.new) }
    ensures native { log.new.native ≡ log.old.native }
{
    store(address, &shown.bytes(), 0, space, log)
}

/// The same, where a null pointer stores nothing.
fn store_shown_unless_null(
    shown: Shown,
    address: u32,
    space: &mut Space,
    log: &mut Log,
) -> Result<Outcome, NoMemory>
    ensures ends { IfOk result (λ outcome. stores_unless_null space.old address (shown_bytes shown) 0 ≡ ending outcome space.new) }
    ensures effects { OnOk result (EffectsLead log.old log.new space.old space.new) }
    ensures native { log.new.native ≡ log.old.native }
{
    store_unless_null(address, &shown.bytes(), 0, space, log)
}
