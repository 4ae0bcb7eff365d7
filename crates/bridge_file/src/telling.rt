//! Calls that are one native call which tells a text or a place.
ghost use Rattle.std.specs.Prelude.{◌≡◌, ◌-◌, ℕ, List, IfOk, OnOk, drop, take};
ghost use Rattle.bridge_paths.specs.Passed.{AreUnusedZero, EffectsLead, IsPlaced, KeepsCall, Proceeds, built_call};
ghost use Rattle.bridge_file.specs.inside.Tells.{Tells, bytes_told, memory_told, outcome_stored, outcome_told, value_told};
ghost use Rattle.host_mem.specs.Memory.{first_address};
ghost use Rattle.native_calls.specs.Table.{native_call};
ghost use Rattle.o32_model.specs.Answered.{IsCall};
ghost use Rattle.o32_model.specs.GuestBytes.{with_stored};
ghost use Rattle.o32_model.specs.Opening.{place_bytes};
ghost use Rattle.o32_model.specs.Step.{Guest, O32Step};
ghost use Rattle.outside.specs.Streams.{contents};

use bridge_paths::{Below, NativeWords, outcome_of, store};
use guest_space::Space;
use host_mem::{FIRST_ADDRESS, HostMem};
use kernel_core::{NoMemory, Reply, Stop};
use o32_model::{CallWords, Log, Outcome};
use outside::{Devices, Sink, Source};

/// What a call tells of what the native kernel replied.
#[derive(Clone, Copy)]
pub(crate) enum Told {
    /// As many bytes of host memory as the reply says, from this address on. The result is their number.
    Text(u64),
    /// The reply's number, as a place in a file (loff_t). The result is 0.
    Place,
}

/// What a call tells, and where that goes.
#[derive(Clone, Copy)]
pub(crate) struct ToldAt {
    /// What it tells.
    pub(crate) what: Told,
    /// The address in the program's memory that it goes to.
    pub(crate) address: u32,
}

/// Makes the native call that a call of the program is, where it tells something, which goes to the
/// program's memory, whole or with EFAULT. `row` and `kept` hold of every o32 call that this native call
/// tells for.
pub(crate) fn tell_call<I: Source, O: Sink, E: Sink>(
    words: &CallWords,
    told: ToldAt,
    space: &mut Space,
    call: NativeWords,
    dev: &mut Devices<I, O, E>,
    below: &mut Below,
) -> Result<Outcome, Stop>
    requires built { built_call call.nr ≡ native_call call.nr }
    requires unused { AreUnusedZero call.nr call.args }
    requires placed { IsPlaced call.nr below.old.memory.now }
    ensures row { (guest : Guest) (step : List ℕ → O32Step) → guest.words ≡ words.now → guest.memory ≡ space.old
        → ((left : List ℕ) → Tells guest told.address told.what (native_call call.nr call.args below.old.kernel.now below.old.memory.now left) (step left))
        → IsCall step result below.new.kernel.now space.new guest.processor
        (contents I.left O.written E.written dev.old) (contents I.left O.written E.written dev.new) }
    ensures kept { (guest : Guest) (step : List ℕ → O32Step) → guest.words ≡ words.now → guest.memory ≡ space.old
        → ((left : List ℕ) → Tells guest told.address told.what (native_call call.nr call.args below.old.kernel.now below.old.memory.now left) (step left))
        → KeepsCall step result below.old.kernel.now guest (I.left dev.old.input) below.old.log.now below.new.log.now }
    ensures proceeds { Proceeds I.faults O.faults E.faults result below.old below.new dev.old dev.new }
{
    let reply = below.native(call.nr, call.args, dev)?;
    let outcome = tell(words, told, below.memory, reply, space, below.log)?;
    Ok(outcome)
}

/// What the call comes to by a reply: what was told is stored, or nothing after an error.
fn tell(
    words: &CallWords,
    told: ToldAt,
    mem: &HostMem,
    reply: Reply,
    space: &mut Space,
    log: &mut Log,
) -> Result<Outcome, NoMemory>
    ensures outcome { IfOk result (λ outcome. outcome ≡ outcome_told words.now space.old told.address told.what mem.now reply) }
    ensures stored { OnOk result (space.new ≡ memory_told space.old told.address told.what mem.now reply) }
    ensures effects { OnOk result (EffectsLead log.old log.new space.old space.new) }
    ensures native { log.new.native ≡ log.old.native }
{
    match reply {
        Reply::Done(number) if number >= 0 => tell_number(told, mem, number as u64, space, log),
        _ => Ok(outcome_of(words, reply)),
    }
}

/// Stores what the number of a reply tells.
fn tell_number(
    told: ToldAt,
    mem: &HostMem,
    number: u64,
    space: &mut Space,
    log: &mut Log,
) -> Result<Outcome, NoMemory>
    ensures outcome { IfOk result (λ outcome. outcome ≡ outcome_stored space.old told.address (bytes_told told.what mem.now number) (value_told told.what number)) }
    ensures stored { OnOk result (space.new ≡ with_stored space.old told.address (bytes_told told.what mem.now number)) }
    ensures effects { OnOk result (EffectsLead log.old log.new space.old space.new) }
    ensures native { log.new.native ≡ log.old.native }
{
    match told.what {
        Told::Text(at) => {
            let result = (number % (1 << 32)) as u32;
            store(told.address, text_at(mem, at, number), result, space, log)
        }
        Told::Place => store(told.address, &place_bytes(number), 0, space, log),
    }
}

/// The first bytes of host memory from an address on, at most so many.
fn text_at(mem: &HostMem, at: u64, count: u64) -> &[u8]
    ensures { result.now ≡ take count (drop (at - first_address) mem.now) }
{
    first_of(
        behind(mem.as_slice(), at.saturating_sub(FIRST_ADDRESS)),
        count,
    )
}

/// The bytes behind the first ones.
fn behind(bytes: &[u8], place: u64) -> &[u8]
    ensures { result.now ≡ drop place bytes.now }
{
    let from = bytes.len().min(place as usize);
    &bytes[from..]
}

/// The first bytes, at most so many.
fn first_of(bytes: &[u8], count: u64) -> &[u8]
    ensures { result.now ≡ take count bytes.now }
{
    let there = bytes.len().min(count as usize);
    &bytes[..there]
}

/// A place in a file in the program's memory.
fn place_bytes(place: u64) -> [u8; 8]
    ensures { result ≡ place_bytes place }
{
    place.to_be_bytes()
}
