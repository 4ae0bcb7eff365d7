//! The calls by their words: select(2) and pselect(2).
ghost use Rattle.bridge_limits.specs.Passed.{KeepsCall};
ghost use Rattle.std.specs.Prelude.{◌≡◌};
ghost use Rattle.bridge_select.specs.Found.{found};
ghost use Rattle.kernel_model.specs.Stops.{StopsOnlyIfRose};
ghost use Rattle.o32_calls.specs.Numbers.{select_number};
ghost use Rattle.o32_model.specs.Answered.{IsCall};
ghost use Rattle.o32_model.specs.Table.{machine_call};
ghost use Rattle.outside.specs.Streams.{NoCountFell, contents};

use crate::requests::read_request;
use crate::selecting::select;
use bridge_limits::{Below, NativeKernel};
use guest_space::Space;
use host_mem::HostMem;
use kernel_core::Stop;
use mips_exec::Cpu;
use o32_calls::SelectCall;
use o32_model::{CallWords, Log, Outcome, Seen};
use outside::{Devices, Sink, Source};

/// Makes the call of the program, select(2) or pselect(2), by its words: EFAULT where a word on its stack can't be read;
/// for pselect the pair of the mask; the time; the mask; and then what the native kernel says of the descriptors. It stops
/// early for want of memory, or by a device.
#[inline(never)]
pub fn select_call<I: Source, O: Sink, E: Sink>(
    call: SelectCall,
    args: &CallWords,
    cpu: &mut Cpu,
    space: &mut Space,
    k: &mut NativeKernel,
    mem: &mut HostMem,
    dev: &mut Devices<I, O, E>,
    log: &mut Log,
    seen: &Seen,
) -> Result<Outcome, Stop>
    requires { args.now.nr ≡ select_number call }
    ensures row { IsCall (machine_call seen.now k.old (found args.now cpu.old space.old)) result k.new space.new cpu.new
        (contents I.left O.written E.written dev.old) (contents I.left O.written E.written dev.new) }
    ensures kept { KeepsCall (machine_call seen.now k.old (found args.now cpu.old space.old)) result k.old
        (found args.now cpu.old space.old) (I.left dev.old.input) log.old log.new }
    ensures cause { StopsOnlyIfRose I.faults O.faults E.faults result dev.old dev.new }
    ensures counts { NoCountFell I.faults O.faults E.faults dev.old dev.new }
    ensures clock { k.new.clock ≡ k.old.clock }
{
    let below = &mut Below {
        kernel: k,
        memory: mem,
        log,
    };
    match read_request(call, args, space) {
        Err(error) => Ok(Outcome::Error(error)),
        Ok(request) => select(args, &request, space, dev, below),
    }
}
