//! A call by its name.
ghost use Rattle.std.specs.Prelude.{◌≡◌};
ghost use Rattle.bridge_entries.specs.Found.{found};
ghost use Rattle.bridge_log.specs.Keeping.{KeepsCall};
ghost use Rattle.kernel_model.specs.Stops.{StopsOnlyIfRose};
ghost use Rattle.o32_calls.specs.Numbers.{entries_number};
ghost use Rattle.o32_model.specs.Answered.{IsCall};
ghost use Rattle.o32_model.specs.Table.{o32_call};
ghost use Rattle.outside.specs.Streams.{NoCountFell, contents};

use crate::listing::{getdents, getdents64};
use bridge_log::{Below, NativeKernel};
use guest_space::Space;
use host_mem::HostMem;
use kernel_core::Stop;
use mips_exec::Cpu;
use o32_calls::EntriesCall;
use o32_model::{CallWords, Log, Outcome, Seen};
use outside::{Devices, Sink, Source};
use std::alloc::Global;

/// Makes a call of the program on the entries of a directory, by its words: getdents(2) or getdents64(2). It stops
/// early for want of memory, or by a device.
#[inline(never)]
pub fn entries_call<I: Source, O: Sink, E: Sink>(
    call: EntriesCall,
    alloc: Global,
    args: &CallWords,
    cpu: &mut Cpu,
    space: &mut Space,
    k: &mut NativeKernel,
    mem: &mut HostMem,
    dev: &mut Devices<I, O, E>,
    log: &mut Log,
    _seen: &Seen,
) -> Result<Outcome, Stop>
    requires { args.now.nr ≡ entries_number call }
    ensures row { IsCall (o32_call k.old (found args.now cpu.old space.old)) result k.new space.new cpu.new
        (contents I.left O.written E.written dev.old) (contents I.left O.written E.written dev.new) }
    ensures kept { KeepsCall (o32_call k.old (found args.now cpu.old space.old)) result k.old
        (found args.now cpu.old space.old) (I.left dev.old.input) log.old log.new }
    ensures cause { StopsOnlyIfRose I.faults O.faults E.faults result dev.old dev.new }
    ensures counts { NoCountFell I.faults O.faults E.faults dev.old dev.new }
    ensures clock { k.new.clock ≡ k.old.clock }
{
    let below = &mut Below {
        kernel: k,
        memory: mem,
        log,
    };
    match call {
        EntriesCall::Getdents => getdents(alloc, args, space, dev, below),
        EntriesCall::Getdents64 => getdents64(alloc, args, space, dev, below),
    }
}
