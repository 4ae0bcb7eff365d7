//! What a program is told of the sets, and of the time that is left.
ghost use Rattle.std.specs.Prelude.{◌≡◌, ◌≤◌, ℕ, Option, IfOk, OnOk};
ghost use Rattle.bridge_limits.specs.Limits.{left_form};
ghost use Rattle.bridge_limits.specs.Passed.{EffectsLead};
ghost use Rattle.bridge_select.specs.inside.FdSets.{words_bytes};
ghost use Rattle.bridge_select.specs.inside.Requests.{asked_of};
ghost use Rattle.bridge_select.specs.inside.Telling.{Shows, ShowsSets, Tells, pieces_of, told_memory, told_outcome};
ghost use Rattle.kernel_model.specs.Came.{Came};
ghost use Rattle.kernel_model.specs.Readiness.{Sets, set_count};
ghost use Rattle.o32_model.specs.Results as results;
ghost use Rattle.o32_model.specs.Results.{all_fit, piece_unless_null, with_pieces};
ghost use Rattle.o32_model.specs.Selecting as o32;
ghost use Rattle.o32_model.specs.Selecting.{sets_pieces};
ghost use Rattle.o32_model.specs.Step.{outcome_of, value};
ghost use Rattle.o32_model.specs.TimeLeft.{with_left_of};
ghost use Rattle.o32_model.specs.declared.call_words.CallWords.{CallWords};

use crate::asked::{Asked, word_count};
use crate::fd_sets::{FdSet, WORD_SIZE, program_bytes, set_in};
use crate::requests::Request;
use crate::rooms::Places;
use bridge_limits::{outcome_of, put, store_left};
use guest_space::Space;
use host_mem::HostMem;
use kernel_core::{Errno, NoMemory, Reply};
use o32_model::{CallWords, Log, Outcome};

/// The three sets of a call.
#[derive(Clone, Copy)]
pub(crate) struct FdSets {
    pub(crate) read: FdSet,
    pub(crate) write: FdSet,
    pub(crate) except: FdSet,
}

/// What the native kernel replied, and where host memory has what it left.
#[derive(Clone, Copy)]
pub(crate) struct Answer {
    pub(crate) reply: Reply,
    pub(crate) places: Places,
}

/// Tells what a native call that does not wait has left: which descriptors are ready, and the time that is left.
pub(crate) fn tell(
    words: &CallWords,
    request: &Request,
    answer: Answer,
    mem: &HostMem,
    space: &mut Space,
    log: &mut Log,
) -> Result<Outcome, NoMemory>
    ensures ends { (came : Came Sets) (left : Option ℕ) → Tells (asked_of request.now.asked) left came answer mem.now
        → IfOk result (λ outcome. (outcome ≡ told_outcome space.old (asked_of request.now.asked) words.now came)
        × (space.new ≡ with_left_of (left_form request.now.time) space.old left (told_memory space.old (asked_of request.now.asked) came))) }
    ensures effects { OnOk result (EffectsLead log.old log.new space.old space.new) }
    ensures native { log.new.native ≡ log.old.native }
{
    let found = outcome_of(words, answer.reply);
    let outcome = store_found(found, request.asked, answer.places, mem, space, log)?;
    store_left(request.time, answer.places.time, mem, space, log)?;
    Ok(outcome)
}

/// Stores the sets of what is ready where a call has found that, and gives what it comes to.
fn store_found(
    found: Outcome,
    asked: Asked,
    places: Places,
    mem: &HostMem,
    space: &mut Space,
    log: &mut Log,
) -> Result<Outcome, NoMemory>
    ensures ends { (words : CallWords) (came : Came Sets) → found ≡ outcome_of (λ sets. value (set_count sets)) words came
        → Shows (asked_of asked) places came mem.now
        → IfOk result (λ outcome. (outcome ≡ told_outcome space.old (asked_of asked) words came)
        × (space.new ≡ told_memory space.old (asked_of asked) came)) }
    ensures effects { OnOk result (EffectsLead log.old log.new space.old space.new) }
    ensures native { log.new.native ≡ log.old.native }
{
    match found {
        Outcome::Value(number) => store_ready(number, asked, places, mem, space, log),
        _ => Ok(found),
    }
}

/// Stores the sets that host memory has, and gives how many descriptors they have in all, or EFAULT where one of the sets
/// can't be stored.
fn store_ready(
    number: u32,
    asked: Asked,
    places: Places,
    mem: &HostMem,
    space: &mut Space,
    log: &mut Log,
) -> Result<Outcome, NoMemory>
    ensures ends { (sets : Sets) → ShowsSets (asked_of asked) places sets mem.now
        → IfOk result (λ outcome. (outcome ≡ results.value_if (all_fit space.old (sets_pieces (asked_of asked) sets)) number)
        × (space.new ≡ with_pieces space.old (sets_pieces (asked_of asked) sets))) }
    ensures effects { OnOk result (EffectsLead log.old log.new space.old space.new) }
    ensures native { log.new.native ≡ log.old.native }
{
    let sets = sets_in(mem, places);
    let stored = store_sets(asked, &sets, space, log)?;
    Ok(value_if(stored, number))
}

/// The three sets that host memory has.
fn sets_in(mem: &HostMem, places: Places) -> FdSets
    ensures { (asked : o32.Asked) (sets : Sets) → ShowsSets asked places sets mem.now → pieces_of asked result ≡ sets_pieces asked sets }
{
    FdSets {
        read: set_in(mem, places.read),
        write: set_in(mem, places.write),
        except: set_in(mem, places.except),
    }
}

/// Stores the sets whose addresses are not null in the order read, write, exceptions, up to the first that can't be stored
/// whole, and answers whether all are.
pub(crate) fn store_sets(
    asked: Asked,
    sets: &FdSets,
    space: &mut Space,
    log: &mut Log,
) -> Result<bool, NoMemory>
    ensures answer { IfOk result (λ stored. stored ≡ all_fit space.old (pieces_of (asked_of asked) sets.now)) }
    ensures stored { OnOk result (space.new ≡ with_pieces space.old (pieces_of (asked_of asked) sets.now)) }
    ensures effects { OnOk result (EffectsLead log.old log.new space.old space.new) }
    ensures native { log.new.native ≡ log.old.native }
{
    let words = word_count(asked.count);
    if !store_set(asked.read, &sets.read, words, space, log)? {
        return Ok(false);
    }
    if !store_set(asked.write, &sets.write, words, space, log)? {
        return Ok(false);
    }
    store_set(asked.except, &sets.except, words, space, log)
}

/// Stores the first words of a set, unless the address is null, and answers whether they are stored.
fn store_set(
    address: u32,
    set: &FdSet,
    words: usize,
    space: &mut Space,
    log: &mut Log,
) -> Result<bool, NoMemory>
    requires { words ≤ 32 }
    ensures answer { IfOk result (λ stored. stored ≡ all_fit space.old (piece_unless_null address (words_bytes words set.now))) }
    ensures stored { OnOk result (space.new ≡ with_pieces space.old (piece_unless_null address (words_bytes words set.now))) }
    ensures effects { OnOk result (EffectsLead log.old log.new space.old space.new) }
    ensures native { log.new.native ≡ log.old.native }
{
    if address == 0 {
        return Ok(true);
    }
    let bytes = program_bytes(set);
    put(space, address, &bytes[..WORD_SIZE * words], log)
}

/// The value where all was stored, and else EFAULT.
fn value_if(stored: bool, number: u32) -> Outcome
    ensures { result ≡ results.value_if stored number }
{
    if stored {
        Outcome::Value(number)
    } else {
        Outcome::Error(Errno::EFAULT)
    }
}
