//! Calls that are one native call which gives names or a limit.
ghost use Rattle.std.specs.Prelude.{◌≡◌, ℕ, List, IfOk, OnOk};
ghost use Rattle.bridge_io.specs.Passed.{AreUnusedZero, EffectsLead, IsPlaced, KeepsCall, Proceeds, built_call};
ghost use Rattle.native_calls.specs.Table.{native_call};
ghost use Rattle.bridge_system.specs.inside.Tells.{Tells, bytes_told, memory_told, outcome_told};
ghost use Rattle.o32_model.specs.Answered.{IsCall};
ghost use Rattle.o32_model.specs.GuestBytes.{with_stored};
ghost use Rattle.o32_model.specs.Step.{Guest, O32Step, stored};
ghost use Rattle.outside.specs.Streams.{contents};

use crate::rlimit::{limit_bytes, limit_there, shown_bytes};
use bridge_io::{Below, NativeWords, outcome_of, store};
use guest_space::Space;
use host_mem::HostMem;
use kernel_core::{NoMemory, Reply, Stop};
use o32_model::{CallWords, Log, Outcome};
use outside::{Devices, Sink, Source};

/// What a call tells of what the native kernel gave in host memory.
#[derive(Clone, Copy)]
pub(crate) enum Told {
    /// All of it, as it stands: the names of the system.
    Names,
    /// A limit in two words.
    Limits,
    /// A limit in two numbers of eight bytes.
    WideLimits,
}

/// What a call tells, and where in the program's memory.
#[derive(Clone, Copy)]
pub(crate) struct ToldAt {
    /// Where it begins.
    pub(crate) address: u32,
    /// What it is.
    pub(crate) told: Told,
}

/// Makes the native call that a call of the program is, where it gives names or a limit over host memory of their
/// size, from where they then go to the program's memory, whole or with EFAULT. `row` and `kept` hold of every o32
/// call that this native call tells for.
pub(crate) fn tell_call<I: Source, O: Sink, E: Sink>(
    words: &CallWords,
    to: ToldAt,
    space: &mut Space,
    call: NativeWords,
    dev: &mut Devices<I, O, E>,
    below: &mut Below,
) -> Result<Outcome, Stop>
    requires built { built_call call.nr ≡ native_call call.nr }
    requires unused { AreUnusedZero call.nr call.args }
    requires placed { IsPlaced call.nr below.old.memory.now }
    ensures row { (guest : Guest) (step : List ℕ → O32Step) → guest.words ≡ words.now → guest.memory ≡ space.old
        → ((left : List ℕ) → Tells guest to.address to.told (native_call call.nr call.args below.old.kernel.now below.old.memory.now left) (step left))
        → IsCall step result below.new.kernel.now space.new guest.processor
        (contents I.left O.written E.written dev.old) (contents I.left O.written E.written dev.new) }
    ensures kept { (guest : Guest) (step : List ℕ → O32Step) → guest.words ≡ words.now → guest.memory ≡ space.old
        → ((left : List ℕ) → Tells guest to.address to.told (native_call call.nr call.args below.old.kernel.now below.old.memory.now left) (step left))
        → KeepsCall step result below.old.kernel.now guest (I.left dev.old.input) below.old.log.now below.new.log.now }
    ensures proceeds { Proceeds I.faults O.faults E.faults result below.old below.new dev.old dev.new }
{
    let reply = below.native(call.nr, call.args, dev)?;
    let outcome = tell(words, to, below.memory, reply, space, below.log)?;
    Ok(outcome)
}

/// What the call comes to by a reply: what was given is stored, or nothing after an error.
fn tell(
    words: &CallWords,
    to: ToldAt,
    mem: &HostMem,
    reply: Reply,
    space: &mut Space,
    log: &mut Log,
) -> Result<Outcome, NoMemory>
    ensures outcome { IfOk result (λ outcome. outcome ≡ outcome_told words.now space.old to.address to.told mem.now reply) }
    ensures stored { OnOk result (space.new ≡ memory_told space.old to.address to.told mem.now reply) }
    ensures effects { OnOk result (EffectsLead log.old log.new space.old space.new) }
    ensures native { log.new.native ≡ log.old.native }
{
    match reply {
        Reply::Done(number) if number >= 0 => tell_bytes(to, mem, space, log),
        _ => Ok(outcome_of(words, reply)),
    }
}

fn tell_bytes(
    to: ToldAt,
    mem: &HostMem,
    space: &mut Space,
    log: &mut Log,
) -> Result<Outcome, NoMemory>
    ensures outcome { IfOk result (λ outcome. outcome ≡ stored space.old to.address (bytes_told to.told mem.now)) }
    ensures stored { OnOk result (space.new ≡ with_stored space.old to.address (bytes_told to.told mem.now)) }
    ensures effects { OnOk result (EffectsLead log.old log.new space.old space.new) }
    ensures native { log.new.native ≡ log.old.native }
{
    match to.told {
        Told::Names => store(to.address, mem.as_slice(), 0, space, log),
        Told::Limits => store(to.address, &shown_bytes(limit_there(mem)), 0, space, log),
        Told::WideLimits => store(to.address, &limit_bytes(limit_there(mem)), 0, space, log),
    }
}
