//! A call on time by its name.
ghost use Rattle.std.specs.Prelude.{◌≡◌};
ghost use Rattle.bridge_log.specs.Keeping.{KeepsCall};
ghost use Rattle.bridge_wait.specs.Found.{found};
ghost use Rattle.kernel_model.specs.Stops.{StopsOnlyIfRose};
ghost use Rattle.o32_calls.specs.Numbers.{time_number};
ghost use Rattle.o32_model.specs.Answered.{IsCall};
ghost use Rattle.o32_model.specs.Table.{machine_call};
ghost use Rattle.outside.specs.Streams.{NoCountFell, contents};

use crate::clocks::{clock_getres, clock_gettime, gettimeofday, time};
use crate::sleeping::{clock_nanosleep, nanosleep};
use bridge_log::{Below, NativeKernel};
use guest_space::Space;
use host_mem::HostMem;
use kernel_core::Stop;
use mips_exec::Cpu;
use o32_calls::TimeCall;
use o32_model::{CallWords, Log, Outcome, Seen};
use outside::{Devices, Sink, Source};

/// Makes a call of the program on time, by its words: time(2), gettimeofday(2), nanosleep(2), clock_gettime(2),
/// clock_getres(2), clock_nanosleep(2). The clock is the native kernel's, and `seen` has the time of instructions
/// alone. It stops early for want of memory, or by a device.
#[inline(never)]
pub fn wait_call<I: Source, O: Sink, E: Sink>(
    call: TimeCall,
    args: &CallWords,
    cpu: &mut Cpu,
    space: &mut Space,
    k: &mut NativeKernel,
    mem: &mut HostMem,
    dev: &mut Devices<I, O, E>,
    log: &mut Log,
    seen: &Seen,
) -> Result<Outcome, Stop>
    requires { args.now.nr ≡ time_number call }
    ensures row { IsCall (machine_call seen.now k.old (found args.now cpu.old space.old)) result k.new space.new cpu.new
        (contents I.left O.written E.written dev.old) (contents I.left O.written E.written dev.new) }
    ensures kept { KeepsCall (machine_call seen.now k.old (found args.now cpu.old space.old)) result k.old
        (found args.now cpu.old space.old) (I.left dev.old.input) log.old log.new }
    ensures cause { StopsOnlyIfRose I.faults O.faults E.faults result dev.old dev.new }
    ensures counts { NoCountFell I.faults O.faults E.faults dev.old dev.new }
    ensures clock { k.new.clock ≡ k.old.clock }
{
    let below = &mut Below {
        kernel: k,
        memory: mem,
        log,
    };
    let [a0, a1, _, _] = args.reg;
    match call {
        TimeCall::Time => time(a0, space, dev, below),
        TimeCall::Gettimeofday => gettimeofday(a0, a1, space, dev, below),
        TimeCall::Nanosleep => nanosleep(args, a0, space, dev, below),
        TimeCall::ClockGettime => clock_gettime(a0, a1, seen.quanta, space, dev, below),
        TimeCall::ClockGetres => clock_getres(a0, a1, space, dev, below),
        TimeCall::ClockNanosleep => clock_nanosleep(args, space, dev, below),
    }
}
