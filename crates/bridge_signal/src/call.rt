//! A call on signals by its name.
ghost use Rattle.bridge_signal_state.specs.Passed.{KeepsCall};
ghost use Rattle.std.specs.Prelude.{◌≡◌};
ghost use Rattle.bridge_signal.specs.Found.{found};
ghost use Rattle.kernel_model.specs.Stops.{StopsOnlyIfRose};
ghost use Rattle.o32_calls.specs.Numbers.{signal_number};
ghost use Rattle.o32_model.specs.Answered.{IsCall};
ghost use Rattle.o32_model.specs.Table.{machine_call};
ghost use Rattle.outside.specs.Streams.{NoCountFell, contents};

use crate::returning::{rt_sigreturn, sigreturn};
use crate::sending::{kill, rt_sigqueueinfo, tgkill, tkill};
use crate::suspending::{pause, restart_syscall, rt_sigsuspend};
use crate::telling::{rt_sigaction, rt_sigpending, rt_sigprocmask, sigaltstack};
use bridge_signal_state::{Below, NativeKernel};
use guest_space::Space;
use host_mem::HostMem;
use kernel_core::Stop;
use mips_exec::Cpu;
use o32_calls::SignalCall;
use o32_model::{CallWords, Log, Outcome, Seen};
use outside::{Devices, Sink, Source};

/// Makes a call of the program on signals, by its words: kill(2), tkill(2), tgkill(2), rt_sigqueueinfo(2); rt_sigaction(2),
/// rt_sigprocmask(2), rt_sigpending(2), sigaltstack(2); pause(2), rt_sigsuspend(2), restart_syscall(2); sigreturn(2) and
/// rt_sigreturn. `seen` has the wait that restart_syscall(2) goes on with. It stops early for want of memory, or by a
/// device.
#[inline(never)]
pub fn signal_call<I: Source, O: Sink, E: Sink>(
    call: SignalCall,
    args: &CallWords,
    cpu: &mut Cpu,
    space: &mut Space,
    k: &mut NativeKernel,
    mem: &mut HostMem,
    dev: &mut Devices<I, O, E>,
    log: &mut Log,
    seen: &Seen,
) -> Result<Outcome, Stop>
    requires { args.now.nr ≡ signal_number call }
    ensures row { IsCall (machine_call seen.now k.old (found args.now cpu.old space.old)) result k.new space.new cpu.new
        (contents I.left O.written E.written dev.old) (contents I.left O.written E.written dev.new) }
    ensures kept { KeepsCall (machine_call seen.now k.old (found args.now cpu.old space.old)) result k.old
        (found args.now cpu.old space.old) (I.left dev.old.input) log.old log.new }
    ensures cause { StopsOnlyIfRose I.faults O.faults E.faults result dev.old dev.new }
    ensures counts { NoCountFell I.faults O.faults E.faults dev.old dev.new }
    ensures clock { k.new.clock ≡ k.old.clock }
{
    let below = &mut Below {
        kernel: k,
        memory: mem,
        log,
    };
    let [a0, a1, a2, _] = args.reg;
    match call {
        SignalCall::Pause => pause(args, dev, below),
        SignalCall::Kill => kill(args, a0, a1, dev, below),
        SignalCall::Sigreturn => sigreturn(cpu, space, dev, below),
        SignalCall::RtSigreturn => rt_sigreturn(cpu, space, dev, below),
        SignalCall::RtSigaction => rt_sigaction(args, space, dev, below),
        SignalCall::RtSigprocmask => rt_sigprocmask(args, space, dev, below),
        SignalCall::RtSigpending => rt_sigpending(a0, a1, space, dev, below),
        SignalCall::RtSigqueueinfo => rt_sigqueueinfo(args, space, dev, below),
        SignalCall::RtSigsuspend => rt_sigsuspend(args, a0, a1, space, dev, below),
        SignalCall::Sigaltstack => sigaltstack(cpu, a0, a1, space, dev, below),
        SignalCall::Tkill => tkill(args, a0, a1, dev, below),
        SignalCall::RestartSyscall => Ok(restart_syscall(seen.restart)),
        SignalCall::Tgkill => tgkill(args, a0, a1, a2, dev, below),
    }
}
