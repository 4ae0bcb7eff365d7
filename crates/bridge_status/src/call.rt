//! A call by its name.
ghost use Rattle.bridge_paths.specs.Passed.{KeepsCall};
ghost use Rattle.std.specs.Prelude.{◌≡◌};
ghost use Rattle.bridge_paths.specs.Found.{found};
ghost use Rattle.bridge_status.specs.inside.StatusQueries.{from_directory, from_working};
ghost use Rattle.kernel_model.specs.Stops.{StopsOnlyIfRose};
ghost use Rattle.o32_calls.specs.Numbers.{status_number};
ghost use Rattle.o32_model.specs.Answered.{IsCall};
ghost use Rattle.o32_model.specs.PathArguments.{nofollow_flag};
ghost use Rattle.o32_model.specs.Table.{o32_call};
ghost use Rattle.outside.specs.Streams.{NoCountFell, contents};

use crate::status::{StatusQuery, fstat, fstatat};
use crate::structures::Form;
use crate::telling::StatusAt;
use bridge_paths::{Below, NativeKernel};
use guest_space::Space;
use host_mem::HostMem;
use kernel_core::Stop;
use mips_exec::Cpu;
use o32_calls::StatusCall;
use o32_model::{CallWords, Log, Outcome, Seen};
use outside::{Devices, Sink, Source};
use std::alloc::Global;

/// AT_FDCWD, as an int (Linux `include/uapi/linux/fcntl.h`): a path begins at the working directory.
const WORKING: u32 = 0xFFFF_FF9C;

/// AT_SYMLINK_NOFOLLOW (Linux `include/uapi/linux/fcntl.h`): a last link is not followed.
const NOFOLLOW: u32 = 0x100;

/// Makes a call of the program on status, by its words: stat(2), lstat(2), fstat(2) in the old structure, and
/// stat64, lstat64, fstat64, fstatat64 in that of 64 bits. It stops early for want of memory, or by a device.
#[inline(never)]
pub fn status_call<I: Source, O: Sink, E: Sink>(
    call: StatusCall,
    alloc: Global,
    args: &CallWords,
    cpu: &mut Cpu,
    space: &mut Space,
    k: &mut NativeKernel,
    mem: &mut HostMem,
    dev: &mut Devices<I, O, E>,
    log: &mut Log,
    _seen: &Seen,
) -> Result<Outcome, Stop>
    requires { args.now.nr ≡ status_number call }
    ensures row { IsCall (o32_call k.old (found args.now cpu.old space.old)) result k.new space.new cpu.new
        (contents I.left O.written E.written dev.old) (contents I.left O.written E.written dev.new) }
    ensures kept { KeepsCall (o32_call k.old (found args.now cpu.old space.old)) result k.old
        (found args.now cpu.old space.old) (I.left dev.old.input) log.old log.new }
    ensures cause { StopsOnlyIfRose I.faults O.faults E.faults result dev.old dev.new }
    ensures counts { NoCountFell I.faults O.faults E.faults dev.old dev.new }
    ensures clock { k.new.clock ≡ k.old.clock }
{
    let below = &mut Below {
        kernel: k,
        memory: mem,
        log,
    };
    match call {
        StatusCall::Stat => fstatat(alloc, args, of_stat(args, Form::Old), space, dev, below),
        StatusCall::Lstat => fstatat(alloc, args, of_lstat(args, Form::Old), space, dev, below),
        StatusCall::Fstat => fstat(args, Form::Old, space, dev, below),
        StatusCall::Stat64 => fstatat(alloc, args, of_stat(args, Form::Wide), space, dev, below),
        StatusCall::Lstat64 => fstatat(alloc, args, of_lstat(args, Form::Wide), space, dev, below),
        StatusCall::Fstat64 => fstat(args, Form::Wide, space, dev, below),
        StatusCall::Fstatat64 => fstatat(alloc, args, of_fstatat(args), space, dev, below),
    }
}

/// What stat(2) asks for, in one of the two structures.
fn of_stat(words: &CallWords, form: Form) -> StatusQuery
    ensures { result ≡ from_working words.now 0 form }
{
    from_working(words, 0, form)
}

/// What lstat(2) asks for, in one of the two structures.
fn of_lstat(words: &CallWords, form: Form) -> StatusQuery
    ensures { result ≡ from_working words.now nofollow_flag form }
{
    from_working(words, NOFOLLOW, form)
}

/// What both ask for, whose path begins at the working directory.
fn from_working(words: &CallWords, flags: u32, form: Form) -> StatusQuery
    ensures { result ≡ from_working words.now flags form }
{
    let [address, buffer, _, _] = words.reg;
    StatusQuery {
        directory: WORKING,
        address,
        flags,
        to: StatusAt {
            address: buffer,
            form,
        },
    }
}

/// What fstatat64 asks for.
fn of_fstatat(words: &CallWords) -> StatusQuery
    ensures { result ≡ from_directory words.now }
{
    let [directory, address, buffer, flags] = words.reg;
    StatusQuery {
        directory,
        address,
        flags,
        to: StatusAt {
            address: buffer,
            form: Form::Wide,
        },
    }
}
