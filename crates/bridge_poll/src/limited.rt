//! Calls that wait for their entries, with a limit of time and a mask.
ghost use Rattle.std.specs.Prelude.{◌≡◌, ℕ, Option, Result, IfOk, OnOk};
ghost use Rattle.bridge_limits.specs.Passed.{EffectsLead, KeepsCall, Proceeds};
ghost use Rattle.bridge_limits.specs.Limits.{ShowsLeft};
ghost use Rattle.bridge_poll.specs.inside.Limited.{limited_row, outcome_by, told_memory, with_left_if};
ghost use Rattle.bridge_poll.specs.inside.Telling.{pieces_told, told_bytes};
ghost use Rattle.o32_model.specs.Answered.{IsCall};
ghost use Rattle.o32_model.specs.Step.{Guest};
ghost use Rattle.outside.specs.Streams.{contents};

use crate::asking::{Answer, Came, ask};
use crate::entries::Entries;
use crate::telling::{native_entries, number_if, store_told};
use bridge_limits::{Below, OwnMask, TimePlace, sleep, store_left};
use guest_space::Space;
use host_mem::HostMem;
use kernel_core::{Errno, NoMemory, Stop};
use o32_model::{CallWords, Log, Outcome};
use outside::{Devices, Sink, Source};

/// How long a call may wait, and the mask that stands meanwhile.
#[derive(Clone, Copy)]
pub(crate) struct Limits {
    /// In nanoseconds; without end where it is None.
    pub(crate) wait: Option<u64>,
    pub(crate) own: OwnMask,
    /// The size of the mask, in bytes, as the program gives it.
    pub(crate) size: u32,
    /// Where the time that is left is stored; nowhere where it is None.
    pub(crate) left: Option<TimePlace>,
}

/// Makes a call on entries with these limits: it tells of each what is there, or waits.
pub(crate) fn limited<I: Source, O: Sink, E: Sink>(
    words: &CallWords,
    entries: Entries,
    limits: Limits,
    space: &mut Space,
    dev: &mut Devices<I, O, E>,
    below: &mut Below,
) -> Result<Outcome, Stop>
    ensures row { (guest : Guest) → guest.words ≡ words.now → guest.memory ≡ space.old
        → IsCall (limited_row below.old.kernel.now guest entries limits) result below.new.kernel.now space.new guest.processor
        (contents I.left O.written E.written dev.old) (contents I.left O.written E.written dev.new) }
    ensures kept { (guest : Guest) → guest.words ≡ words.now → guest.memory ≡ space.old
        → KeepsCall (limited_row below.old.kernel.now guest entries limits) result below.old.kernel.now guest (I.left dev.old.input) below.old.log.now below.new.log.now }
    ensures proceeds { Proceeds I.faults O.faults E.faults result below.old below.new dev.old dev.new }
{
    let answer = ask(entries, limits, space, dev, below)?;
    match answer.came {
        Came::Ended(ended) => {
            let places = Places {
                entries,
                left: limits.left,
            };
            let outcome = end(ended, answer, places, below.memory, space, below.log)?;
            Ok(outcome)
        }
        Came::Waits(until) => sleep(words, until, limits.own, dev, below),
    }
}

/// Where a call stores what it came to.
#[derive(Clone, Copy)]
struct Places {
    /// Its entries (struct pollfd of poll(2)), of each of which revents is stored.
    entries: Entries,
    /// Where the time that is left is stored; nowhere where it is None.
    left: Option<TimePlace>,
}

/// The end of a call: what is told of its entries is stored, and then the time that is left.
fn end(
    ended: Result<u32, Errno>,
    answer: Answer,
    places: Places,
    mem: &HostMem,
    space: &mut Space,
    log: &mut Log,
) -> Result<Outcome, NoMemory>
    ensures answer { IfOk result (λ outcome. outcome ≡ outcome_by ended space.old
        (pieces_told space.old places.entries (told_bytes mem.now answer.entries places.entries.count))) }
    ensures stored { (time : Option ℕ) → ShowsLeft mem.now answer.time time
        → OnOk result (space.new ≡ with_left_if places.left space.old time (told_memory ended space.old
        (pieces_told space.old places.entries (told_bytes mem.now answer.entries places.entries.count)))) }
    ensures effects { OnOk result (EffectsLead log.old log.new space.old space.new) }
    ensures native { log.new.native ≡ log.old.native }
{
    let told = native_entries(mem, answer.entries, places.entries.count);
    let outcome = tell(ended, told, places.entries, space, log)?;
    store_time(places.left, answer.time, mem, space, log)?;
    Ok(outcome)
}

/// Stores what is told of the entries, and gives the number of those of which anything is told; or the error.
fn tell(
    ended: Result<u32, Errno>,
    told: &[u8],
    entries: Entries,
    space: &mut Space,
    log: &mut Log,
) -> Result<Outcome, NoMemory>
    ensures answer { IfOk result (λ outcome. outcome ≡ outcome_by ended space.old (pieces_told space.old entries told.now)) }
    ensures stored { OnOk result (space.new ≡ told_memory ended space.old (pieces_told space.old entries told.now)) }
    ensures effects { OnOk result (EffectsLead log.old log.new space.old space.new) }
    ensures native { log.new.native ≡ log.old.native }
{
    match ended {
        Err(error) => Ok(Outcome::Error(error)),
        Ok(number) => {
            let stored = store_told(told, entries, space, log)?;
            Ok(number_if(stored, number))
        }
    }
}

/// Stores the time that is left, from a place in host memory, if the call stores one.
fn store_time(
    left: Option<TimePlace>,
    place: u64,
    mem: &HostMem,
    space: &mut Space,
    log: &mut Log,
) -> Result<(), NoMemory>
    ensures stored { (time : Option ℕ) → ShowsLeft mem.now place time
        → OnOk result (space.new ≡ with_left_if left space.old time space.old) }
    ensures effects { OnOk result (EffectsLead log.old log.new space.old space.new) }
    ensures native { log.new.native ≡ log.old.native }
{
    match left {
        None => Ok(()),
        Some(at) => store_left(at, place, mem, space, log),
    }
}
