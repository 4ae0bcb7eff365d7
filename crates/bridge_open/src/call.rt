//! A call by its name.
ghost use Rattle.bridge_paths.specs.Passed.{KeepsCall};
ghost use Rattle.std.specs.Prelude.{◌≡◌};
ghost use Rattle.bridge_paths.specs.Found.{found};
ghost use Rattle.kernel_model.specs.Stops.{StopsOnlyIfRose};
ghost use Rattle.o32_calls.specs.Numbers.{open_number};
ghost use Rattle.o32_model.specs.Answered.{IsCall};
ghost use Rattle.o32_model.specs.Table.{o32_call};
ghost use Rattle.outside.specs.Streams.{NoCountFell, contents};

use crate::opening::{OpenRequest, open};
use bridge_paths::{Below, NativeKernel};
use guest_space::Space;
use host_mem::HostMem;
use kernel_core::Stop;
use mips_exec::Cpu;
use o32_calls::OpenCall;
use o32_model::{CallWords, Log, Outcome, Seen};
use outside::{Devices, Sink, Source};
use std::alloc::Global;

/// AT_FDCWD, as an int (Linux `include/uapi/linux/fcntl.h`): a path begins at the working directory.
const WORKING: u32 = 0xFFFF_FF9C;

/// O_WRONLY, O_CREAT and O_TRUNC (Linux `arch/mips/include/uapi/asm/fcntl.h`), with which open(2) is creat(2).
const CREAT_FLAGS: u32 = 0x301;

/// Makes a call of the program that opens a file, by its words: open(2), creat(2), openat(2). It stops early
/// for want of memory, or by a device.
#[inline(never)]
pub fn open_call<I: Source, O: Sink, E: Sink>(
    call: OpenCall,
    alloc: Global,
    args: &CallWords,
    cpu: &mut Cpu,
    space: &mut Space,
    k: &mut NativeKernel,
    mem: &mut HostMem,
    dev: &mut Devices<I, O, E>,
    log: &mut Log,
    _seen: &Seen,
) -> Result<Outcome, Stop>
    requires { args.now.nr ≡ open_number call }
    ensures row { IsCall (o32_call k.old (found args.now cpu.old space.old)) result k.new space.new cpu.new
        (contents I.left O.written E.written dev.old) (contents I.left O.written E.written dev.new) }
    ensures kept { KeepsCall (o32_call k.old (found args.now cpu.old space.old)) result k.old
        (found args.now cpu.old space.old) (I.left dev.old.input) log.old log.new }
    ensures cause { StopsOnlyIfRose I.faults O.faults E.faults result dev.old dev.new }
    ensures counts { NoCountFell I.faults O.faults E.faults dev.old dev.new }
    ensures clock { k.new.clock ≡ k.old.clock }
{
    let below = &mut Below {
        kernel: k,
        memory: mem,
        log,
    };
    let [a0, a1, a2, a3] = args.reg;
    match call {
        OpenCall::Open => {
            let request = OpenRequest {
                directory: WORKING,
                address: a0,
                flags: a1,
                mode: a2,
            };
            open(alloc, args, request, space, dev, below)
        }
        OpenCall::Creat => {
            let request = OpenRequest {
                directory: WORKING,
                address: a0,
                flags: CREAT_FLAGS,
                mode: a1,
            };
            open(alloc, args, request, space, dev, below)
        }
        OpenCall::Openat => {
            let request = OpenRequest {
                directory: a0,
                address: a1,
                flags: a2,
                mode: a3,
            };
            open(alloc, args, request, space, dev, below)
        }
    }
}
