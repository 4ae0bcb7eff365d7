//! A call by its name.
ghost use Rattle.std.specs.Prelude.{◌≡◌};
ghost use Rattle.bridge_io.specs.Found.{found};
ghost use Rattle.bridge_log.specs.Keeping.{KeepsCall};
ghost use Rattle.kernel_model.specs.Stops.{StopsOnlyIfRose};
ghost use Rattle.o32_calls.specs.Numbers.{io_number};
ghost use Rattle.o32_model.specs.Answered.{IsCall};
ghost use Rattle.o32_model.specs.Table.{o32_call};
ghost use Rattle.outside.specs.Streams.{NoCountFell, contents};

use crate::commands::fcntl;
use crate::descriptors::{close, dup, dup2, dup3};
use crate::gathering::writev;
use crate::pipes::{pipe, pipe2};
use crate::placing::pwrite;
use crate::reading::{pread, read};
use crate::terminal::ioctl;
use crate::vectors::readv;
use crate::writing::write;
use bridge_log::{Below, NativeKernel};
use guest_space::Space;
use host_mem::HostMem;
use kernel_core::Stop;
use mips_exec::Cpu;
use o32_calls::IoCall;
use o32_model::{CallWords, Log, Outcome, Seen};
use outside::{Devices, Sink, Source};

/// Makes a call of the program on descriptors and what they have open, by its words.
#[inline(never)]
pub fn io_call<I: Source, O: Sink, E: Sink>(
    call: IoCall,
    args: &CallWords,
    cpu: &mut Cpu,
    space: &mut Space,
    k: &mut NativeKernel,
    mem: &mut HostMem,
    dev: &mut Devices<I, O, E>,
    log: &mut Log,
    seen: &Seen,
) -> Result<Outcome, Stop>
    requires { args.now.nr ≡ io_number call }
    ensures row { IsCall (o32_call k.old (found args.now cpu.old space.old)) result k.new space.new cpu.new
        (contents I.left O.written E.written dev.old) (contents I.left O.written E.written dev.new) }
    ensures kept { KeepsCall (o32_call k.old (found args.now cpu.old space.old)) result k.old
        (found args.now cpu.old space.old) (I.left dev.old.input) log.old log.new }
    ensures cause { StopsOnlyIfRose I.faults O.faults E.faults result dev.old dev.new }
    ensures counts { NoCountFell I.faults O.faults E.faults dev.old dev.new }
    ensures clock { k.new.clock ≡ k.old.clock }
{
    let below = &mut Below {
        kernel: k,
        memory: mem,
        log,
    };
    let [a0, a1, a2, _] = args.reg;
    match call {
        IoCall::Read => read(args, space, dev, below),
        IoCall::Write => write(args, space, dev, below),
        IoCall::Close => close(args, a0, dev, below),
        IoCall::Dup => dup(args, a0, dev, below),
        IoCall::Pipe => pipe(args, dev, below),
        IoCall::Ioctl => ioctl(args, space, dev, below),
        IoCall::Fcntl => fcntl(args, a0, a1, a2, dev, below),
        IoCall::Dup2 => dup2(args, a0, a1, dev, below),
        IoCall::Readv => readv(args, space, dev, below),
        IoCall::Writev => writev(args, space, dev, below),
        IoCall::Pread64 => pread(args, space, dev, below),
        IoCall::Pwrite64 => pwrite(args, space, dev, below),
        IoCall::Fcntl64 => fcntl(args, a0, a1, a2, dev, below),
        IoCall::Dup3 => dup3(args, a0, a1, a2, dev, below),
        IoCall::Pipe2 => pipe2(args, a0, a1, space, dev, below),
    }
}
