//! Native calls, where they are kept.
ghost use Rattle.std.specs.Prelude.{◌≡◌, [], ◌∷◌, ◌++◌, IfOk, OnOk};
ghost use Rattle.bridge_log.specs.Arguments.{AreUnusedZero, IsPlaced};
ghost use Rattle.bridge_log.specs.Keeping.{LogsCall, with_call};
ghost use Rattle.kernel_model.specs.Stops.{StopsOnlyIfRose};
ghost use Rattle.native_calls.specs.Answered.{IsCall};
ghost use Rattle.native_calls.specs.Table.{native_call};
ghost use Rattle.native_kernel.specs.Built.{built_call};
ghost use Rattle.outside.specs.Streams.{NoCountFell, contents};

use host_mem::HostMem;
use kernel_core::{Bytes, LogEntry, NoMemory, Reply, Stop};
use native_kernel::NativeKernel;
use o32_model::Log;
use outside::{Devices, Sink, Source};
use std::alloc::Global;

/// Makes a native call, and keeps it where native calls are kept.
#[inline(always)]
pub(crate) fn native<I: Source, O: Sink, E: Sink>(
    k: &mut NativeKernel,
    nr: u64,
    args: [u64; 6],
    mem: &mut HostMem,
    dev: &mut Devices<I, O, E>,
    log: &mut Log,
) -> Result<Reply, Stop>
    requires built { built_call nr ≡ native_call nr }
    requires unused { AreUnusedZero nr args }
    requires placed { IsPlaced nr mem.old }
    ensures row { IsCall (native_call nr args k.old mem.old) result k.new mem.new
        (contents I.left O.written E.written dev.old) (contents I.left O.written E.written dev.new) }
    ensures kept { LogsCall (native_call nr args k.old mem.old) result k.old
        (I.left dev.old.input) log.old.native log.new.native }
    ensures entry { IfOk result (λ reply. log.new.native ≡ with_call log.old.native nr args mem.old mem.new reply) }
    ensures effects { log.new.effects ≡ log.old.effects }
    ensures cause { StopsOnlyIfRose I.faults O.faults E.faults result dev.old dev.new }
    ensures counts { NoCountFell I.faults O.faults E.faults dev.old dev.new }
    ensures clock { k.new.clock ≡ k.old.clock }
{
    match &mut log.native {
        None => make(k, nr, args, mem, dev),
        Some(entries) => kept_call(k, nr, args, mem, dev, entries),
    }
}

/// Makes a native call.
#[inline(always)]
fn make<I: Source, O: Sink, E: Sink>(
    k: &mut NativeKernel,
    nr: u64,
    args: [u64; 6],
    mem: &mut HostMem,
    dev: &mut Devices<I, O, E>,
) -> Result<Reply, Stop>
    requires built { built_call nr ≡ native_call nr }
    ensures row { IsCall (native_call nr args k.old mem.old) result k.new mem.new
        (contents I.left O.written E.written dev.old) (contents I.left O.written E.written dev.new) }
    ensures cause { StopsOnlyIfRose I.faults O.faults E.faults result dev.old dev.new }
    ensures counts { NoCountFell I.faults O.faults E.faults dev.old dev.new }
    ensures clock { k.new.clock ≡ k.old.clock }
{
    k.call(nr, args, mem, dev)
}

/// Makes a native call and adds its entry. It stands apart from the path of a call that isn't kept.
#[cold]
#[inline(never)]
fn kept_call<I: Source, O: Sink, E: Sink>(
    k: &mut NativeKernel,
    nr: u64,
    args: [u64; 6],
    mem: &mut HostMem,
    dev: &mut Devices<I, O, E>,
    entries: &mut Vec<LogEntry>,
) -> Result<Reply, Stop>
    requires built { built_call nr ≡ native_call nr }
    ensures row { IsCall (native_call nr args k.old mem.old) result k.new mem.new
        (contents I.left O.written E.written dev.old) (contents I.left O.written E.written dev.new) }
    ensures entry { IfOk result (λ reply. entries.new.items ≡ entries.old.items ++ (LogEntry.Call nr args mem.old mem.new reply ∷ [])) }
    ensures cause { StopsOnlyIfRose I.faults O.faults E.faults result dev.old dev.new }
    ensures counts { NoCountFell I.faults O.faults E.faults dev.old dev.new }
    ensures clock { k.new.clock ≡ k.old.clock }
{
    let alloc = *entries.allocator();
    let before = copied(alloc, mem)?;
    let reply = make(k, nr, args, mem, dev)?;
    let after = copied(alloc, mem)?;
    let entry = LogEntry::Call {
        nr,
        args,
        before,
        after,
        reply,
    };
    add(entries, entry)?;
    Ok(reply)
}

fn add(entries: &mut Vec<LogEntry>, entry: LogEntry) -> Result<(), NoMemory>
    ensures { OnOk result (entries.new.items ≡ entries.old.items ++ (entry ∷ [])) }
{
    entries.push(entry)?;
    Ok(())
}

/// The bytes of host memory.
fn copied(alloc: Global, mem: &HostMem) -> Result<Bytes, NoMemory>
    ensures { IfOk result (λ bytes. bytes ≡ mem.now) }
{
    Ok(Bytes::from(Vec::from_slice(alloc, mem.as_slice())?))
}
