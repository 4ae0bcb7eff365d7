//! Effects on pages and outputs, where they are kept.
ghost use Rattle.std.specs.Prelude.{◌≡◌, ◌++◌, OnOk};
ghost use Rattle.bridge_log.specs.Moved as moved;
ghost use Rattle.o32_model.specs.Logs.{with_more};

use kernel_core::{Bytes, Effect, NoMemory};
use o32_model::Log;

/// Keeps, where effects are kept, that these bytes were written from an address on; no byte is no effect. It
/// copies them only then.
pub fn wrote(log: &mut Log, address: u32, bytes: &[u8]) -> Result<(), NoMemory>
    ensures effects { OnOk result (log.new.effects ≡ with_more log.old.effects (moved.written address bytes.now)) }
    ensures native { log.new.native ≡ log.old.native }
{
    if let Some(effects) = &mut log.effects {
        push_write(effects, address, bytes)?;
    }
    Ok(())
}

fn push_write(effects: &mut Vec<Effect>, address: u32, bytes: &[u8]) -> Result<(), NoMemory>
    ensures { OnOk result (effects.new.items ≡ effects.old.items ++ moved.written address bytes.now) }
{
    if bytes.is_empty() {
        return Ok(());
    }
    let bytes = Bytes::from(Vec::from_slice(*effects.allocator(), bytes)?);
    effects.push(Effect::Write { address, bytes })?;
    Ok(())
}

/// Keeps, where effects are kept, that these bytes went out on stream 1 or 2; no byte is no effect. It copies
/// them only then.
pub fn sent(log: &mut Log, stream: u8, bytes: &[u8]) -> Result<(), NoMemory>
    ensures effects { OnOk result (log.new.effects ≡ with_more log.old.effects (moved.sent_on stream bytes.now)) }
    ensures native { log.new.native ≡ log.old.native }
{
    if let Some(effects) = &mut log.effects {
        push_output(effects, stream, bytes)?;
    }
    Ok(())
}

fn push_output(effects: &mut Vec<Effect>, stream: u8, text: &[u8]) -> Result<(), NoMemory>
    ensures { OnOk result (effects.new.items ≡ effects.old.items ++ moved.sent_on stream text.now) }
{
    if text.is_empty() {
        return Ok(());
    }
    let bytes = Bytes::from(Vec::from_slice(*effects.allocator(), text)?);
    effects.push(Effect::Output { stream, bytes })?;
    Ok(())
}
