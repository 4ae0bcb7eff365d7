//! A small call that asks the kernel, by its name.
ghost use Rattle.bridge_io.specs.Passed.{KeepsCall};
ghost use Rattle.std.specs.Prelude.{◌≡◌};
ghost use Rattle.bridge_system.specs.Found.{found};
ghost use Rattle.bridge_system.specs.System.{small_call};
ghost use Rattle.kernel_model.specs.Stops.{StopsOnlyIfRose};
ghost use Rattle.o32_calls.specs.Numbers.{system_number};
ghost use Rattle.o32_model.specs.Answered.{IsCall};
ghost use Rattle.outside.specs.Streams.{NoCountFell, contents};

use crate::chance::getrandom;
use crate::limits::{getrlimit, prlimit};
use crate::names::uname;
use bridge_io::{Below, NativeKernel};
use guest_space::Space;
use host_mem::HostMem;
use kernel_core::Stop;
use mips_exec::Cpu;
use o32_calls::SystemCall;
use o32_model::{CallWords, Log, Outcome};
use outside::{Devices, Sink, Source};

/// Makes a small call of the program that asks the kernel, by its words: uname(2), getrlimit(2), prlimit(2),
/// getrandom(2). It stops early for want of memory, or by a device.
#[inline(never)]
pub fn system_call<I: Source, O: Sink, E: Sink>(
    call: SystemCall,
    args: &CallWords,
    cpu: &mut Cpu,
    space: &mut Space,
    k: &mut NativeKernel,
    mem: &mut HostMem,
    dev: &mut Devices<I, O, E>,
    log: &mut Log,
) -> Result<Outcome, Stop>
    requires { args.now.nr ≡ system_number call }
    ensures row { IsCall (small_call (found args.now cpu.old space.old) k.old) result k.new space.new cpu.new
        (contents I.left O.written E.written dev.old) (contents I.left O.written E.written dev.new) }
    ensures kept { KeepsCall (small_call (found args.now cpu.old space.old) k.old) result k.old
        (found args.now cpu.old space.old) (I.left dev.old.input) log.old log.new }
    ensures clock { k.new.clock ≡ k.old.clock }
    ensures cause { StopsOnlyIfRose I.faults O.faults E.faults result dev.old dev.new }
    ensures counts { NoCountFell I.faults O.faults E.faults dev.old dev.new }
{
    let below = &mut Below {
        kernel: k,
        memory: mem,
        log,
    };
    let [a0, a1, _, _] = args.reg;
    match call {
        SystemCall::Getrlimit => getrlimit(args, a0, a1, space, dev, below),
        SystemCall::Uname => uname(args, a0, space, dev, below),
        SystemCall::Prlimit64 => prlimit(args, space, dev, below),
        SystemCall::Getrandom => getrandom(args, space, dev, below),
    }
}
