//! getitimer(2), setitimer(2).
ghost use Rattle.std.specs.Prelude.{◌≡◌};
ghost use Rattle.bridge_log.specs.Proceeding.{Proceeds};
ghost use Rattle.bridge_log.specs.Keeping.{KeepsCall};
ghost use Rattle.bridge_timer.specs.inside.Shown.{shown_of};
ghost use Rattle.kernel_model.specs.Clock.{timer_value};
ghost use Rattle.o32_model.specs.Answered.{IsCall};
ghost use Rattle.o32_model.specs.Sleeps.{getitimer_row, setitimer_row};
ghost use Rattle.o32_model.specs.Step.{Guest};
ghost use Rattle.o32_model.specs.Words.{argument};
ghost use Rattle.outside.specs.Streams.{contents};

use crate::looking::timer_shown;
use crate::setting::set_timer;
use crate::settings::take_setting;
use crate::shown::Shown;
use crate::storing::{store_before, store_there};
use bridge_log::Below;
use guest_space::Space;
use kernel_core::{Errno, Stop};
use o32_model::{CallWords, Outcome};
use outside::{Devices, Sink, Source};

/// getitimer(2): EINVAL for another timer than that of real time, EFAULT.
pub(crate) fn getitimer<I: Source, O: Sink, E: Sink>(
    which: u32,
    address: u32,
    space: &mut Space,
    dev: &mut Devices<I, O, E>,
    below: &mut Below,
) -> Result<Outcome, Stop>
    ensures row { (guest : Guest) → guest.memory ≡ space.old
        → IsCall (getitimer_row below.old.kernel.now guest which address) result below.new.kernel.now space.new guest.processor
        (contents I.left O.written E.written dev.old) (contents I.left O.written E.written dev.new) }
    ensures kept { (guest : Guest) → guest.memory ≡ space.old
        → KeepsCall (getitimer_row below.old.kernel.now guest which address) result below.old.kernel.now guest (I.left dev.old.input) below.old.log.now below.new.log.now }
    ensures proceeds { Proceeds I.faults O.faults E.faults result below.old below.new dev.old dev.new }
{
    let shown = timer_shown(which, dev, below)?;
    let outcome = store_there(shown, address, space, below.log)?;
    Ok(outcome)
}

/// setitimer(2): EINVAL for another timer than that of real time; EFAULT; EINVAL for a value or a period that is no
/// time. Without a new setting the timer is disarmed. What it showed is stored where its address is not null; the
/// setting stands also where that is EFAULT.
pub(crate) fn setitimer<I: Source, O: Sink, E: Sink>(
    words: &CallWords,
    space: &mut Space,
    dev: &mut Devices<I, O, E>,
    below: &mut Below,
) -> Result<Outcome, Stop>
    ensures row { (guest : Guest) → guest.words ≡ words.now → guest.memory ≡ space.old
        → IsCall (setitimer_row below.old.kernel.now guest (argument words.now 0) (argument words.now 1) (argument words.now 2)) result below.new.kernel.now space.new guest.processor
        (contents I.left O.written E.written dev.old) (contents I.left O.written E.written dev.new) }
    ensures kept { (guest : Guest) → guest.words ≡ words.now → guest.memory ≡ space.old
        → KeepsCall (setitimer_row below.old.kernel.now guest (argument words.now 0) (argument words.now 1) (argument words.now 2)) result below.old.kernel.now guest (I.left dev.old.input) below.old.log.now below.new.log.now }
    ensures proceeds { Proceeds I.faults O.faults E.faults result below.old below.new dev.old dev.new }
{
    let [which, _, _, _] = words.reg;
    match timer_shown(which, dev, below)? {
        None => Ok(Outcome::Error(Errno::EINVAL)),
        Some(shown) => exchange(words, shown, space, dev, below),
    }
}

/// The same for the timer of real time, by what it shows.
fn exchange<I: Source, O: Sink, E: Sink>(
    words: &CallWords,
    shown: Shown,
    space: &mut Space,
    dev: &mut Devices<I, O, E>,
    below: &mut Below,
) -> Result<Outcome, Stop>
    ensures row { (guest : Guest) → guest.words ≡ words.now → guest.memory ≡ space.old → shown ≡ shown_of (timer_value below.old.kernel.now)
        → IsCall (setitimer_row below.old.kernel.now guest 0 (argument words.now 1) (argument words.now 2)) result below.new.kernel.now space.new guest.processor
        (contents I.left O.written E.written dev.old) (contents I.left O.written E.written dev.new) }
    ensures kept { (guest : Guest) → guest.words ≡ words.now → guest.memory ≡ space.old → shown ≡ shown_of (timer_value below.old.kernel.now)
        → KeepsCall (setitimer_row below.old.kernel.now guest 0 (argument words.now 1) (argument words.now 2)) result below.old.kernel.now guest (I.left dev.old.input) below.old.log.now below.new.log.now }
    ensures proceeds { Proceeds I.faults O.faults E.faults result below.old below.new dev.old dev.new }
{
    let [_, setting, before, _] = words.reg;
    let place = take_setting(space, setting, below.memory)?;
    let reply = set_timer(place, dev, below)?;
    let outcome = store_before(words, shown, reply, before, space, below.log)?;
    Ok(outcome)
}
