//! What a program is told of the signal that was accepted, and what the call then comes to.
ghost use Rattle.std.specs.Prelude.{◌≡◌, IfOk, OnOk};
ghost use Rattle.bridge_acceptance.specs.inside.Telling as spec;
ghost use Rattle.bridge_acceptance.specs.inside.Telling.{stores, stores_unless_null, telling, tells};
ghost use Rattle.bridge_signal_state.specs.Passed.{EffectsLead};
ghost use Rattle.o32_model.specs.Step as o32_step;

use crate::accepting::Accepted;
use crate::infos::info_bytes;
use bridge_signal_state::{put, six_words};
use guest_space::Space;
use kernel_core::{Errno, Info, NoMemory};
use number_tables::O32Number;
use o32_model::{CallWords, Close, Log, Outcome, Wait};

/// What a program is told.
#[derive(Clone, Copy)]
pub(crate) enum Told {
    /// The number of the signal that was accepted.
    Number(u32),
    /// The error.
    Refused(Errno),
    /// Nothing yet: it waits until this time of the clock, or without end.
    Waits(Option<u64>),
}

/// Stores what is known of a signal that was accepted, unless the address is null, and tells its number: EFAULT where
/// it can't be stored whole, and then none of it is. The signal is gone all the same.
pub(crate) fn tell(
    came: Accepted,
    address: u32,
    space: &mut Space,
    log: &mut Log,
) -> Result<Told, NoMemory>
    ensures ends { IfOk result (λ told. tells space.old address came ≡ telling told space.new) }
    ensures effects { OnOk result (EffectsLead log.old log.new space.old space.new) }
    ensures native { log.new.native ≡ log.old.native }
{
    match came {
        Accepted::Signal(info) => store_unless_null(info, address, space, log),
        Accepted::Refused(error) => Ok(Told::Refused(error)),
        Accepted::Waits(until) => Ok(Told::Waits(until)),
    }
}

fn store_unless_null(
    info: Info,
    address: u32,
    space: &mut Space,
    log: &mut Log,
) -> Result<Told, NoMemory>
    ensures ends { IfOk result (λ told. stores_unless_null space.old address info ≡ telling told space.new) }
    ensures effects { OnOk result (EffectsLead log.old log.new space.old space.new) }
    ensures native { log.new.native ≡ log.old.native }
{
    let number = info.sig.to_o32();
    if address == 0 {
        return Ok(Told::Number(number));
    }
    store(address, &info_bytes(info), number, space, log)
}

/// Stores bytes whole and tells a number, or EFAULT where one of them can't be stored, and then stores none.
fn store(
    address: u32,
    bytes: &[u8],
    number: u32,
    space: &mut Space,
    log: &mut Log,
) -> Result<Told, NoMemory>
    ensures ends { IfOk result (λ told. stores space.old address bytes.now number ≡ telling told space.new) }
    ensures effects { OnOk result (EffectsLead log.old log.new space.old space.new) }
    ensures native { log.new.native ≡ log.old.native }
{
    let stored = put(space, address, bytes, log)?;
    Ok(number_if(stored, number))
}

/// The number where all was stored, and else EFAULT.
fn number_if(stored: bool, number: u32) -> Told
    ensures { result ≡ spec.number_if stored number }
{
    if stored {
        Told::Number(number)
    } else {
        Told::Refused(Errno::EFAULT)
    }
}

/// The outcome of a call with these words.
pub(crate) fn outcome_of(words: &CallWords, told: Told) -> Outcome
    ensures { result ≡ spec.outcome_of words.now told }
{
    match told {
        Told::Number(number) => Outcome::Value(number),
        Told::Refused(error) => Outcome::Error(error),
        Told::Waits(until) => Outcome::Sleep(wait_until(words, until)),
    }
}

/// A wait with the call's words.
fn wait_until(words: &CallWords, until: Option<u64>) -> Wait
    ensures { result ≡ o32_step.wait_of words.now (record { done = 0; until = until }) }
{
    Wait {
        nr: words.nr,
        words: six_words(words),
        deadline: until,
        done: 0,
        mask: None,
    }
}

/// How a wait is closed by what is told; where it would wait on, its call is carried out again.
pub(crate) fn close_of(told: Told) -> Close
    ensures { result ≡ spec.close_of told }
{
    match told {
        Told::Number(number) => Close::Value(number),
        Told::Refused(error) => Close::Error(error),
        Told::Waits(_) => Close::Again,
    }
}
