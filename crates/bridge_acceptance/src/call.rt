//! The call by its words.
ghost use Rattle.bridge_signal_state.specs.Passed.{KeepsCall};
ghost use Rattle.std.specs.Prelude.{◌≡◌};
ghost use Rattle.bridge_acceptance.specs.Found.{found};
ghost use Rattle.kernel_model.specs.Stops.{StopsOnlyIfRose};
ghost use Rattle.o32_calls.specs.Numbers.{rt_sigtimedwait_number};
ghost use Rattle.o32_model.specs.Answered.{IsCall};
ghost use Rattle.o32_model.specs.Table.{machine_call};
ghost use Rattle.outside.specs.Streams.{NoCountFell, contents};

use crate::accepting::accept;
use crate::telling::{outcome_of, tell};
use bridge_signal_state::{Below, NativeKernel};
use guest_space::Space;
use host_mem::HostMem;
use kernel_core::Stop;
use mips_exec::Cpu;
use o32_model::{CallWords, Log, Outcome, Seen};
use outside::{Devices, Sink, Source};

/// Makes the call rt_sigtimedwait(2) of the program, by its words: it accepts the signal of the lowest number that
/// pends of a set, but for KILL and STOP, stores what is known of it, and gives its number; or it waits for one. It
/// stops early for want of memory, or by a device.
#[inline(never)]
pub fn acceptance_call<I: Source, O: Sink, E: Sink>(
    args: &CallWords,
    cpu: &mut Cpu,
    space: &mut Space,
    k: &mut NativeKernel,
    mem: &mut HostMem,
    dev: &mut Devices<I, O, E>,
    log: &mut Log,
    seen: &Seen,
) -> Result<Outcome, Stop>
    requires { args.now.nr ≡ rt_sigtimedwait_number }
    ensures row { IsCall (machine_call seen.now k.old (found args.now cpu.old space.old)) result k.new space.new cpu.new
        (contents I.left O.written E.written dev.old) (contents I.left O.written E.written dev.new) }
    ensures kept { KeepsCall (machine_call seen.now k.old (found args.now cpu.old space.old)) result k.old
        (found args.now cpu.old space.old) (I.left dev.old.input) log.old log.new }
    ensures cause { StopsOnlyIfRose I.faults O.faults E.faults result dev.old dev.new }
    ensures counts { NoCountFell I.faults O.faults E.faults dev.old dev.new }
    ensures clock { k.new.clock ≡ k.old.clock }
{
    let below = &mut Below {
        kernel: k,
        memory: mem,
        log,
    };
    let [set, info, time, size] = args.reg;
    let came = accept(set, time, size, space, dev, below)?;
    let told = tell(came, info, space, below.log)?;
    Ok(outcome_of(args, told))
}
