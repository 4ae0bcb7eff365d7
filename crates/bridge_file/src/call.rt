//! A call by its name.
ghost use Rattle.std.specs.Prelude.{◌≡◌};
ghost use Rattle.bridge_paths.specs.Passed.{KeepsCall, Proceeds};
ghost use Rattle.bridge_paths.specs.Found.{found};
ghost use Rattle.kernel_model.specs.Stops.{StopsOnlyIfRose};
ghost use Rattle.o32_calls.specs.Numbers.{file_number, name_number, node_number, place_number, size_number, text_number};
ghost use Rattle.o32_model.specs.Answered.{IsCall};
ghost use Rattle.o32_model.specs.Step.{Guest};
ghost use Rattle.o32_model.specs.Table.{o32_call};
ghost use Rattle.outside.specs.Streams.{NoCountFell, contents};

use crate::arguments::{pair, widened};
use crate::names::{link, linkat, mkdir, remove, rename, symlink};
use crate::nodes::{access, chdir, chmod, fchdir, fchmod, fdatasync, fsync, umask};
use crate::paths::{Caller, at, here};
use crate::seeking::{llseek, lseek};
use crate::sizes::{ftruncate, truncate};
use crate::texts::{LinkQuery, getcwd, readlink};
use crate::times::utimensat;
use bridge_paths::{Below, NativeKernel};
use guest_space::Space;
use host_mem::HostMem;
use kernel_core::Stop;
use mips_exec::Cpu;
use o32_calls::{FileCall, NameCall, NodeCall, PlaceCall, SizeCall, TextCall};
use o32_model::{CallWords, Log, Outcome, Seen};
use outside::{Devices, Sink, Source};
use std::alloc::Global;

/// The flag of unlinkat(2) by which a directory is removed (Linux `include/uapi/linux/fcntl.h`).
const AT_REMOVEDIR: u32 = 0x200;

/// Makes a call of the program on files, by its words: link(2), unlink(2), rename(2), mkdir(2), rmdir(2),
/// symlink(2), readlink(2), chdir(2), getcwd(2), umask(2), chmod(2), access(2), fchmod(2), fsync(2), fchdir(2),
/// fdatasync(2), utimensat(2), truncate(2), ftruncate(2), lseek(2), _llseek(2), and their forms with descriptors
/// of directories and with sizes of 64 bits. It stops early for want of memory, or by a device.
#[inline(never)]
pub fn file_call<I: Source, O: Sink, E: Sink>(
    call: FileCall,
    alloc: Global,
    args: &CallWords,
    cpu: &mut Cpu,
    space: &mut Space,
    k: &mut NativeKernel,
    mem: &mut HostMem,
    dev: &mut Devices<I, O, E>,
    log: &mut Log,
    _seen: &Seen,
) -> Result<Outcome, Stop>
    requires { args.now.nr ≡ file_number call }
    ensures row { IsCall (o32_call k.old (found args.now cpu.old space.old)) result k.new space.new cpu.new
        (contents I.left O.written E.written dev.old) (contents I.left O.written E.written dev.new) }
    ensures kept { KeepsCall (o32_call k.old (found args.now cpu.old space.old)) result k.old
        (found args.now cpu.old space.old) (I.left dev.old.input) log.old log.new }
    ensures cause { StopsOnlyIfRose I.faults O.faults E.faults result dev.old dev.new }
    ensures counts { NoCountFell I.faults O.faults E.faults dev.old dev.new }
    ensures clock { k.new.clock ≡ k.old.clock }
{
    let below = &mut Below {
        kernel: k,
        memory: mem,
        log,
    };
    let caller = &Caller {
        alloc,
        words: args,
        space,
    };
    match call {
        FileCall::Name(call) => name_call(call, caller, dev, below),
        FileCall::Node(call) => node_call(call, caller, dev, below),
        FileCall::Text(call) => text_call(call, alloc, args, space, dev, below),
        FileCall::Size(call) => size_call(call, caller, dev, below),
        FileCall::Place(call) => place_call(call, args, space, dev, below),
    }
}

/// A call on names.
fn name_call<I: Source, O: Sink, E: Sink>(
    call: NameCall,
    caller: &Caller,
    dev: &mut Devices<I, O, E>,
    below: &mut Below,
) -> Result<Outcome, Stop>
    requires { caller.now.words.now.nr ≡ name_number call }
    ensures row { (guest : Guest) → guest.words ≡ caller.now.words.now → guest.memory ≡ caller.now.space.now
        → IsCall (o32_call below.old.kernel.now guest) result below.new.kernel.now guest.memory guest.processor
        (contents I.left O.written E.written dev.old) (contents I.left O.written E.written dev.new) }
    ensures kept { (guest : Guest) → guest.words ≡ caller.now.words.now → guest.memory ≡ caller.now.space.now
        → KeepsCall (o32_call below.old.kernel.now guest) result below.old.kernel.now guest (I.left dev.old.input) below.old.log.now below.new.log.now }
    ensures proceeds { Proceeds I.faults O.faults E.faults result below.old below.new dev.old dev.new }
{
    let [a0, a1, a2, a3] = caller.words.reg;
    match call {
        NameCall::Link => link(caller, here(a0), here(a1), 0, dev, below),
        NameCall::Unlink => remove(caller, here(a0), 0, dev, below),
        NameCall::Rename => rename(caller, here(a0), here(a1), dev, below),
        NameCall::Mkdir => mkdir(caller, here(a0), a1, dev, below),
        NameCall::Rmdir => remove(caller, here(a0), AT_REMOVEDIR, dev, below),
        NameCall::Symlink => symlink(caller, a0, here(a1), dev, below),
        NameCall::Mkdirat => mkdir(caller, at(a0, a1), a2, dev, below),
        NameCall::Unlinkat => remove(caller, at(a0, a1), a2, dev, below),
        NameCall::Renameat => rename(caller, at(a0, a1), at(a2, a3), dev, below),
        NameCall::Linkat => linkat(caller, at(a0, a1), at(a2, a3), dev, below),
        NameCall::Symlinkat => symlink(caller, a0, at(a1, a2), dev, below),
    }
}

/// A call on nodes.
fn node_call<I: Source, O: Sink, E: Sink>(
    call: NodeCall,
    caller: &Caller,
    dev: &mut Devices<I, O, E>,
    below: &mut Below,
) -> Result<Outcome, Stop>
    requires { caller.now.words.now.nr ≡ node_number call }
    ensures row { (guest : Guest) → guest.words ≡ caller.now.words.now → guest.memory ≡ caller.now.space.now
        → IsCall (o32_call below.old.kernel.now guest) result below.new.kernel.now guest.memory guest.processor
        (contents I.left O.written E.written dev.old) (contents I.left O.written E.written dev.new) }
    ensures kept { (guest : Guest) → guest.words ≡ caller.now.words.now → guest.memory ≡ caller.now.space.now
        → KeepsCall (o32_call below.old.kernel.now guest) result below.old.kernel.now guest (I.left dev.old.input) below.old.log.now below.new.log.now }
    ensures proceeds { Proceeds I.faults O.faults E.faults result below.old below.new dev.old dev.new }
{
    let [a0, a1, a2, _] = caller.words.reg;
    match call {
        NodeCall::Chdir => chdir(caller, a0, dev, below),
        NodeCall::Chmod => chmod(caller, here(a0), a1, dev, below),
        NodeCall::Access => access(caller, here(a0), a1, dev, below),
        NodeCall::Umask => umask(caller.words, a0, dev, below),
        NodeCall::Fchmod => fchmod(caller.words, a0, a1, dev, below),
        NodeCall::Fsync => fsync(caller.words, a0, dev, below),
        NodeCall::Fchdir => fchdir(caller.words, a0, dev, below),
        NodeCall::Fdatasync => fdatasync(caller.words, a0, dev, below),
        NodeCall::Fchmodat => chmod(caller, at(a0, a1), a2, dev, below),
        NodeCall::Faccessat => access(caller, at(a0, a1), a2, dev, below),
        NodeCall::Utimensat => utimensat(caller, dev, below),
    }
}

/// A call that tells a text.
fn text_call<I: Source, O: Sink, E: Sink>(
    call: TextCall,
    alloc: Global,
    words: &CallWords,
    space: &mut Space,
    dev: &mut Devices<I, O, E>,
    below: &mut Below,
) -> Result<Outcome, Stop>
    requires { words.now.nr ≡ text_number call }
    ensures row { (guest : Guest) → guest.words ≡ words.now → guest.memory ≡ space.old
        → IsCall (o32_call below.old.kernel.now guest) result below.new.kernel.now space.new guest.processor
        (contents I.left O.written E.written dev.old) (contents I.left O.written E.written dev.new) }
    ensures kept { (guest : Guest) → guest.words ≡ words.now → guest.memory ≡ space.old
        → KeepsCall (o32_call below.old.kernel.now guest) result below.old.kernel.now guest (I.left dev.old.input) below.old.log.now below.new.log.now }
    ensures proceeds { Proceeds I.faults O.faults E.faults result below.old below.new dev.old dev.new }
{
    let [a0, a1, a2, a3] = words.reg;
    match call {
        TextCall::Readlink => {
            let query = LinkQuery {
                link: here(a0),
                buffer: a1,
                size: a2,
            };
            readlink(alloc, words, query, space, dev, below)
        }
        TextCall::Getcwd => getcwd(words, a0, a1, space, dev, below),
        TextCall::Readlinkat => {
            let query = LinkQuery {
                link: at(a0, a1),
                buffer: a2,
                size: a3,
            };
            readlink(alloc, words, query, space, dev, below)
        }
    }
}

/// A call on sizes.
fn size_call<I: Source, O: Sink, E: Sink>(
    call: SizeCall,
    caller: &Caller,
    dev: &mut Devices<I, O, E>,
    below: &mut Below,
) -> Result<Outcome, Stop>
    requires { caller.now.words.now.nr ≡ size_number call }
    ensures row { (guest : Guest) → guest.words ≡ caller.now.words.now → guest.memory ≡ caller.now.space.now
        → IsCall (o32_call below.old.kernel.now guest) result below.new.kernel.now guest.memory guest.processor
        (contents I.left O.written E.written dev.old) (contents I.left O.written E.written dev.new) }
    ensures kept { (guest : Guest) → guest.words ≡ caller.now.words.now → guest.memory ≡ caller.now.space.now
        → KeepsCall (o32_call below.old.kernel.now guest) result below.old.kernel.now guest (I.left dev.old.input) below.old.log.now below.new.log.now }
    ensures proceeds { Proceeds I.faults O.faults E.faults result below.old below.new dev.old dev.new }
{
    let [a0, a1, a2, a3] = caller.words.reg;
    match call {
        SizeCall::Truncate => truncate(caller, a0, widened(a1), dev, below),
        SizeCall::Ftruncate => ftruncate(caller.words, a0, widened(a1), dev, below),
        SizeCall::Truncate64 => truncate(caller, a0, pair(a2, a3), dev, below),
        SizeCall::Ftruncate64 => ftruncate(caller.words, a0, pair(a2, a3), dev, below),
    }
}

/// A call on places.
fn place_call<I: Source, O: Sink, E: Sink>(
    call: PlaceCall,
    words: &CallWords,
    space: &mut Space,
    dev: &mut Devices<I, O, E>,
    below: &mut Below,
) -> Result<Outcome, Stop>
    requires { words.now.nr ≡ place_number call }
    ensures row { (guest : Guest) → guest.words ≡ words.now → guest.memory ≡ space.old
        → IsCall (o32_call below.old.kernel.now guest) result below.new.kernel.now space.new guest.processor
        (contents I.left O.written E.written dev.old) (contents I.left O.written E.written dev.new) }
    ensures kept { (guest : Guest) → guest.words ≡ words.now → guest.memory ≡ space.old
        → KeepsCall (o32_call below.old.kernel.now guest) result below.old.kernel.now guest (I.left dev.old.input) below.old.log.now below.new.log.now }
    ensures proceeds { Proceeds I.faults O.faults E.faults result below.old below.new dev.old dev.new }
{
    let [a0, a1, a2, _] = words.reg;
    match call {
        PlaceCall::Lseek => lseek(words, a0, a1, a2, dev, below),
        PlaceCall::Llseek => llseek(words, space, dev, below),
    }
}
