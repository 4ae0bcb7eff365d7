//! Calls that are one native call which tells a status.
ghost use Rattle.std.specs.Prelude.{◌≡◌, ℕ, List, IfOk, IfSome, OnOk, Some, length, option_map};
ghost use Rattle.bridge_paths.specs.Passed.{AreUnusedZero, EffectsLead, IsPlaced, KeepsCall, Proceeds, built_call};
ghost use Rattle.bridge_status.specs.inside.Statuses.{shape_of, shown};
ghost use Rattle.bridge_status.specs.inside.Tells.{Tells, memory_by, memory_told, outcome_by, outcome_told, status_there};
ghost use Rattle.native_calls.specs.Table.{native_call};
ghost use Rattle.o32_model.specs.Answered.{IsCall};
ghost use Rattle.o32_model.specs.GuestBytes.{with_stored};
ghost use Rattle.o32_model.specs.Step.{Guest, O32Step, stored};
ghost use Rattle.outside.specs.Streams.{contents};

use crate::structures::{Form, is_too_wide, old_bytes, wide_bytes};
use bridge_paths::{Below, NativeWords, outcome_of, store};
use guest_space::Space;
use host_mem::{FIRST_ADDRESS, HostMem};
use kernel_core::{Errno, NoMemory, Reply, Stop};
use o32_model::{CallWords, Log, Outcome};
use outside::{Devices, Sink, Source};

/// How many bytes a native status has (struct stat of Linux `include/uapi/asm-generic/stat.h`).
pub(crate) const STATUS_SIZE: u32 = 128;

/// Where the program wants a status.
#[derive(Clone, Copy)]
pub(crate) struct StatusAt {
    /// The address.
    pub(crate) address: u32,
    /// The structure that is to stand there.
    pub(crate) form: Form,
}

/// Makes the native call that a call of the program is, where it tells a status at the first address of host memory,
/// from where it then goes to the program's memory, whole or with EFAULT; one that the structure can't hold is
/// EOVERFLOW. `row` and `kept` hold of every o32 call that this native call tells for.
pub(crate) fn tell_call<I: Source, O: Sink, E: Sink>(
    words: &CallWords,
    to: StatusAt,
    space: &mut Space,
    call: NativeWords,
    dev: &mut Devices<I, O, E>,
    below: &mut Below,
) -> Result<Outcome, Stop>
    requires built { built_call call.nr ≡ native_call call.nr }
    requires unused { AreUnusedZero call.nr call.args }
    requires placed { IsPlaced call.nr below.old.memory.now }
    ensures row { (guest : Guest) (step : List ℕ → O32Step) → guest.words ≡ words.now → guest.memory ≡ space.old
        → ((left : List ℕ) → Tells guest to.address to.form (native_call call.nr call.args below.old.kernel.now below.old.memory.now left) (step left))
        → IsCall step result below.new.kernel.now space.new guest.processor
        (contents I.left O.written E.written dev.old) (contents I.left O.written E.written dev.new) }
    ensures kept { (guest : Guest) (step : List ℕ → O32Step) → guest.words ≡ words.now → guest.memory ≡ space.old
        → ((left : List ℕ) → Tells guest to.address to.form (native_call call.nr call.args below.old.kernel.now below.old.memory.now left) (step left))
        → KeepsCall step result below.old.kernel.now guest (I.left dev.old.input) below.old.log.now below.new.log.now }
    ensures proceeds { Proceeds I.faults O.faults E.faults result below.old below.new dev.old dev.new }
{
    let reply = below.native(call.nr, call.args, dev)?;
    let outcome = tell(words, to, below.memory, reply, space, below.log)?;
    Ok(outcome)
}

/// What the call comes to by a reply: the status is stored, or nothing after an error.
fn tell(
    words: &CallWords,
    to: StatusAt,
    mem: &HostMem,
    reply: Reply,
    space: &mut Space,
    log: &mut Log,
) -> Result<Outcome, NoMemory>
    ensures outcome { IfOk result (λ outcome. outcome ≡ outcome_told words.now space.old to.address to.form mem.now reply) }
    ensures stored { OnOk result (space.new ≡ memory_told space.old to.address to.form mem.now reply) }
    ensures effects { OnOk result (EffectsLead log.old log.new space.old space.new) }
    ensures native { log.new.native ≡ log.old.native }
{
    match reply {
        Reply::Done(number) if number >= 0 => tell_there(to, mem, space, log),
        _ => Ok(outcome_of(words, reply)),
    }
}

/// What the call comes to by what stands in host memory.
fn tell_there(
    to: StatusAt,
    mem: &HostMem,
    space: &mut Space,
    log: &mut Log,
) -> Result<Outcome, NoMemory>
    ensures outcome { IfOk result (λ outcome. outcome ≡ outcome_by space.old to.address to.form (status_there mem.now)) }
    ensures stored { OnOk result (space.new ≡ memory_by space.old to.address to.form (status_there mem.now)) }
    ensures effects { OnOk result (EffectsLead log.old log.new space.old space.new) }
    ensures native { log.new.native ≡ log.old.native }
{
    match status_there(mem) {
        Some(status) => tell_status(to, status, space, log),
        None => Ok(Outcome::Error(Errno::EFAULT)),
    }
}

/// The status that stands in host memory; None where it has too few bytes.
fn status_there(mem: &HostMem) -> Option<&[u8]>
    ensures there { option_map (λ status. status.now) result ≡ status_there mem.now }
    ensures long { IfSome result (λ status. length status.now ≡ 128) }
{
    mem.read(FIRST_ADDRESS, u64::from(STATUS_SIZE))
}

/// What the call comes to by a status.
fn tell_status(
    to: StatusAt,
    status: &[u8],
    space: &mut Space,
    log: &mut Log,
) -> Result<Outcome, NoMemory>
    requires { length status.now ≡ 128 }
    ensures outcome { IfOk result (λ outcome. outcome ≡ outcome_by space.old to.address to.form (Some status.now)) }
    ensures stored { OnOk result (space.new ≡ memory_by space.old to.address to.form (Some status.now)) }
    ensures effects { OnOk result (EffectsLead log.old log.new space.old space.new) }
    ensures native { log.new.native ≡ log.old.native }
{
    if is_too_wide(to.form, status) {
        Ok(Outcome::Error(Errno::EOVERFLOW))
    } else {
        store_status(to, status, space, log)
    }
}

/// Stores a status as a structure of the program.
fn store_status(
    to: StatusAt,
    status: &[u8],
    space: &mut Space,
    log: &mut Log,
) -> Result<Outcome, NoMemory>
    requires { length status.now ≡ 128 }
    ensures outcome { IfOk result (λ outcome. outcome ≡ stored space.old to.address (shown (shape_of to.form) status.now)) }
    ensures stored { OnOk result (space.new ≡ with_stored space.old to.address (shown (shape_of to.form) status.now)) }
    ensures effects { OnOk result (EffectsLead log.old log.new space.old space.new) }
    ensures native { log.new.native ≡ log.old.native }
{
    match to.form {
        Form::Old => store(to.address, &old_bytes(status), 0, space, log),
        Form::Wide => store(to.address, &wide_bytes(status), 0, space, log),
    }
}
