//! Bytes that go to the program's memory, and are kept as effects.
ghost use Rattle.std.specs.Prelude.{◌≡◌, ◌<◌, ◌^◌, ◌⊎◌, length, take, IfOk, OnOk};
ghost use Rattle.bridge_log.specs.Fills.{bytes_back};
ghost use Rattle.bridge_log.specs.Keeping.{EffectsLead, reached};
ghost use Rattle.bridge_log.specs.Moved as moved;
ghost use Rattle.bridge_log.specs.Sending.{sent_by};
ghost use Rattle.bridge_log.specs.Storing.{ending, stores_unless_null};
ghost use Rattle.guest_space.specs.Memory.{Pages};
ghost use Rattle.kernel_model.specs.Pipes.{nothing};
ghost use Rattle.mips_exec.specs.Processor.{Processor};
ghost use Rattle.o32_model.specs.Effects.{Effected};
ghost use Rattle.o32_model.specs.GuestBytes.{is_storable, with_stored};
ghost use Rattle.o32_model.specs.Logs.{with_more};
ghost use Rattle.o32_model.specs.Results.{value_if};

use crate::effects::{sent, wrote};
use bridge_mem::store_structure;
use guest_space::Space;
use host_mem::HostMem;
use kernel_core::{Errno, NoMemory, Reply};
use o32_model::{Log, Outcome};

/// Writes the bytes from `address` on and answers true, or changes nothing and answers false where one of
/// them may not be stored to. Where effects are kept, what was written is kept as one effect; no byte is none.
pub fn put(space: &mut Space, address: u32, bytes: &[u8], log: &mut Log) -> Result<bool, NoMemory>
    ensures answer { IfOk result (λ stored. stored ≡ is_storable space.old address (length bytes.now)) }
    ensures stored { OnOk result (space.new ≡ with_stored space.old address bytes.now) }
    ensures effects { OnOk result (EffectsLead log.old log.new space.old space.new) }
    ensures kept { OnOk result (log.new.effects ≡ with_more log.old.effects (moved.stored space.old address bytes.now)) }
    ensures native { log.new.native ≡ log.old.native }
{
    if !store_structure(space, address, bytes)? {
        return Ok(false);
    }
    wrote(log, address, bytes)?;
    Ok(true)
}

/// Stores bytes whole, which gives a value, or none of them, which is EFAULT, where one may not be stored to. They are kept
/// as [`put`] keeps them.
pub fn store(
    address: u32,
    bytes: &[u8],
    value: u32,
    space: &mut Space,
    log: &mut Log,
) -> Result<Outcome, NoMemory>
    ensures outcome { IfOk result (λ outcome. outcome ≡ value_if (is_storable space.old address (length bytes.now)) value) }
    ensures stored { OnOk result (space.new ≡ with_stored space.old address bytes.now) }
    ensures effects { OnOk result (EffectsLead log.old log.new space.old space.new) }
    ensures native { log.new.native ≡ log.old.native }
{
    let stored = put(space, address, bytes, log)?;
    Ok(value_if(stored, value))
}

/// The same, unless the address is null: then nothing is stored, and that gives the value, too.
pub fn store_unless_null(
    address: u32,
    bytes: &[u8],
    value: u32,
    space: &mut Space,
    log: &mut Log,
) -> Result<Outcome, NoMemory>
    ensures ends { IfOk result (λ outcome. stores_unless_null space.old address bytes.now value ≡ ending outcome space.new) }
    ensures effects { OnOk result (EffectsLead log.old log.new space.old space.new) }
    ensures native { log.new.native ≡ log.old.native }
{
    if address == 0 {
        return Ok(Outcome::Value(value));
    }
    store(address, bytes, value, space, log)
}

/// The value where all was stored, and else EFAULT.
pub fn value_if(stored: bool, value: u32) -> Outcome
    ensures { result ≡ value_if stored value }
{
    if stored {
        Outcome::Value(value)
    } else {
        Outcome::Error(Errno::EFAULT)
    }
}

/// Writes the bytes from `address` on, where there are any and each may be stored to, and keeps them so.
pub fn put_some(
    space: &mut Space,
    address: u32,
    bytes: &[u8],
    log: &mut Log,
) -> Result<(), NoMemory>
    ensures stored { OnOk result (space.new ≡ with_stored space.old address bytes.now) }
    ensures effects { OnOk result (EffectsLead log.old log.new space.old space.new) }
    ensures native { log.new.native ≡ log.old.native }
{
    if bytes.is_empty() {
        return Ok(());
    }
    put(space, address, bytes, log)?;
    Ok(())
}

/// Keeps, where effects are kept, that those bytes of host memory went out on stream 1 or 2 which a reply
/// counts; for a reply that counts none, nothing is kept.
pub fn sent_back(log: &mut Log, stream: u8, mem: &HostMem, reply: Reply) -> Result<(), NoMemory>
    ensures effects { OnOk result ((stream ≡ 1) ⊎ (stream ≡ 2) → length mem.now < 2 ^ 32
        → (processor : Processor) (pages : Pages)
        → Effected log.old.effects log.new.effects (reached processor pages nothing)
        (reached processor pages (sent_by stream (bytes_back mem.now reply)))) }
    ensures kept { OnOk result (log.new.effects ≡ with_more log.old.effects (moved.sent_on stream (bytes_back mem.now reply))) }
    ensures native { log.new.native ≡ log.old.native }
{
    sent(log, stream, bytes_back(mem, reply))
}

/// The bytes of host memory that a reply says were put there: none for one that counts none.
pub fn bytes_back(mem: &HostMem, reply: Reply) -> &[u8]
    ensures { result.now ≡ bytes_back mem.now reply }
{
    match reply {
        Reply::Done(count) => {
            if count > 0 {
                first_bytes(mem, count as u64)
            } else {
                &[]
            }
        }
        Reply::Sleep(_) => &[],
    }
}

/// The first bytes of host memory, at most so many.
fn first_bytes(mem: &HostMem, count: u64) -> &[u8]
    ensures { result.now ≡ take count mem.now }
{
    let bytes = mem.as_slice();
    let there = bytes.len().min(count as usize);
    &bytes[..there]
}
