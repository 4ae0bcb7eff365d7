//! A call on mappings by its name.
ghost use Rattle.std.specs.Prelude.{◌≡◌, true, false, IfOk, OnErr, OnOk};
ghost use Rattle.bridge_log.specs.Keeping.{KeepsCall};
ghost use Rattle.bridge_map.specs.Rows.{HasRoom, IsCallOfMemory, Leads, asks_for_room, guest_of, is_call_of_memory, is_mmap, maps_no_file};
ghost use Rattle.kernel_model.specs.Stops.{StopsOnlyIfRose};
ghost use Rattle.o32_calls.specs.Numbers.{map_number};
ghost use Rattle.o32_model.specs.Answered.{IsCall};
ghost use Rattle.o32_model.specs.Table.{o32_call};
ghost use Rattle.outside.specs.Streams.{NoCountFell, contents};

use crate::mmap::mmap;
use crate::mmap_file::mmap_file;
use crate::program_break::brk;
use crate::ranges_mapped::{madvise, mprotect, msync, munmap};
use crate::remap::mremap;
use bridge_log::{Below, NativeKernel};
use guest_space::Space;
use host_mem::HostMem;
use kernel_core::address_space::PAGE_SIZE;
use kernel_core::{NoMemory, Stop};
use mips_exec::Cpu;
use o32_calls::MapCall;
use o32_model::{CallWords, Log, Outcome, Seen};
use outside::{Devices, Sink, Source};

/// Makes a call on mappings, by its words: brk(2), mmap(2), mmap2(2), munmap(2), mprotect(2), msync(2),
/// mremap(2), madvise(2). A file is asked for its bytes when it is mapped. It stops early for want of memory, or
/// by a device; a new mapping of no file, or another size of a range, that is ENOMEM doesn't.
#[inline(never)]
pub fn map_call<I: Source, O: Sink, E: Sink>(
    call: MapCall,
    args: &CallWords,
    cpu: &mut Cpu,
    space: &mut Space,
    k: &mut NativeKernel,
    mem: &mut HostMem,
    dev: &mut Devices<I, O, E>,
    log: &mut Log,
    _seen: &Seen,
) -> Result<Outcome, Stop>
    requires { args.now.nr ≡ map_number call }
    ensures no_memory { OnErr result (asks_for_room args.now ≡ true → HasRoom args.now space.old) }
    ensures row { IsCall (o32_call k.old (guest_of args.now cpu.old space.old)) result k.new space.new cpu.new
        (contents I.left O.written E.written dev.old) (contents I.left O.written E.written dev.new) }
    ensures kept { KeepsCall (o32_call k.old (guest_of args.now cpu.old space.old)) result k.old
        (guest_of args.now cpu.old space.old) (I.left dev.old.input) log.old log.new }
    ensures cause { StopsOnlyIfRose I.faults O.faults E.faults result dev.old dev.new }
    ensures counts { NoCountFell I.faults O.faults E.faults dev.old dev.new }
    ensures clock { k.new.clock ≡ k.old.clock }
{
    let below = &mut Below {
        kernel: k,
        memory: mem,
        log,
    };
    if maps_no_file(args) {
        return Ok(memory_call(call, args, space, below.log)?);
    }
    match call {
        MapCall::Mmap => mmap_file(args, 1, space, dev, below),
        MapCall::Mmap2 => mmap_file(args, PAGE_SIZE, space, dev, below),
        MapCall::Brk
        | MapCall::Munmap
        | MapCall::Mprotect
        | MapCall::Msync
        | MapCall::Mremap
        | MapCall::Madvise => Ok(memory_call(call, args, space, below.log)?),
    }
}

/// Whether MAP_ANONYMOUS is set in what are the flags of mmap(2).
fn maps_no_file(args: &CallWords) -> bool
    ensures { result ≡ maps_no_file args.now }
{
    args.reg[3] / 0x800 % 2 == 1
}

/// Carries out a call on mappings that asks the kernel for nothing: brk(2), munmap(2), mprotect(2), msync(2),
/// mremap(2), madvise(2), and mmap(2) and mmap2(2) with MAP_ANONYMOUS. It gives what the call comes to, and
/// keeps its effects on pages where effects are kept. After NoMemory nothing is promised of memory; a new mapping,
/// or another size of a range, that is ENOMEM never answers it.
pub fn memory_call(
    call: MapCall,
    args: &CallWords,
    space: &mut Space,
    log: &mut Log,
) -> Result<Outcome, NoMemory>
    requires call { args.now.nr ≡ map_number call }
    requires memory { is_call_of_memory args.now ≡ true }
    ensures no_memory { OnErr result (asks_for_room args.now ≡ true → HasRoom args.now space.old) }
    ensures row { IfOk result (λ outcome. IsCallOfMemory args.now outcome space.old space.new) }
    ensures effects { OnOk result (Leads log.old.effects log.new.effects space.old.pages space.new.pages) }
    ensures native { log.new.native ≡ log.old.native }
{
    match call {
        MapCall::Brk => brk(args, space, log),
        MapCall::Mmap => mmap(args, 1, space, log),
        MapCall::Munmap => munmap(args, space, log),
        MapCall::Mprotect => mprotect(args, space, log),
        MapCall::Msync => Ok(msync(args, space)),
        MapCall::Mremap => mremap(args, space, log),
        MapCall::Mmap2 => mmap(args, PAGE_SIZE, space, log),
        MapCall::Madvise => Ok(madvise(args, space)),
    }
}
