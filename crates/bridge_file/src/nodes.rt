//! The calls on the node that a path or a descriptor names, and on the working directory: access(2), chmod(2),
//! fchmod(2), fsync(2), chdir(2), fchdir(2), umask(2). What is wrong with a path is EFAULT or ENAMETOOLONG, and what the
//! walk finds.
ghost use Rattle.std.specs.Prelude.{◌≡◌};
ghost use Rattle.bridge_paths.specs.Passed.{KeepsCall, Proceeds};
ghost use Rattle.o32_model.specs.Answered.{IsCall};
ghost use Rattle.o32_model.specs.NodeCalls.{access_row, chdir_row, chmod_row, fchdir_row, fchmod_row, sync_row, umask_row};
ghost use Rattle.o32_model.specs.PathArguments.{base};
ghost use Rattle.o32_model.specs.Step.{Guest};
ghost use Rattle.outside.specs.Streams.{contents};

use crate::calls::path_call;
use crate::paths::{Caller, PathAt};
use bridge_paths::{Below, NativeWords};
use host_mem::FIRST_ADDRESS;
use kernel_core::Stop;
use native_numbers::{CHDIR, FACCESSAT, FCHDIR, FCHMOD, FCHMODAT, FDATASYNC, FSYNC, UMASK};
use o32_model::{CallWords, Outcome};
use outside::{Devices, Sink, Source};

/// access(2), faccessat(2): what is wrong with the path; EINVAL for other bits, EACCES.
pub(crate) fn access<I: Source, O: Sink, E: Sink>(
    caller: &Caller,
    path: PathAt,
    mode: u32,
    dev: &mut Devices<I, O, E>,
    below: &mut Below,
) -> Result<Outcome, Stop>
    ensures row { (guest : Guest) → guest.words ≡ caller.now.words.now → guest.memory ≡ caller.now.space.now
        → IsCall (access_row below.old.kernel.now guest (base path.directory) path.address mode) result below.new.kernel.now guest.memory guest.processor
        (contents I.left O.written E.written dev.old) (contents I.left O.written E.written dev.new) }
    ensures kept { (guest : Guest) → guest.words ≡ caller.now.words.now → guest.memory ≡ caller.now.space.now
        → KeepsCall (access_row below.old.kernel.now guest (base path.directory) path.address mode) result below.old.kernel.now guest (I.left dev.old.input) below.old.log.now below.new.log.now }
    ensures proceeds { Proceeds I.faults O.faults E.faults result below.old below.new dev.old dev.new }
{
    let args = [
        u64::from(path.directory),
        FIRST_ADDRESS,
        u64::from(mode),
        0,
        0,
        0,
    ];
    let call = NativeWords {
        nr: FACCESSAT,
        args,
    };
    path_call(caller, path.address, call, dev, below)
}

/// chmod(2), fchmodat(2): what is wrong with the path.
pub(crate) fn chmod<I: Source, O: Sink, E: Sink>(
    caller: &Caller,
    path: PathAt,
    mode: u32,
    dev: &mut Devices<I, O, E>,
    below: &mut Below,
) -> Result<Outcome, Stop>
    ensures row { (guest : Guest) → guest.words ≡ caller.now.words.now → guest.memory ≡ caller.now.space.now
        → IsCall (chmod_row below.old.kernel.now guest (base path.directory) path.address mode) result below.new.kernel.now guest.memory guest.processor
        (contents I.left O.written E.written dev.old) (contents I.left O.written E.written dev.new) }
    ensures kept { (guest : Guest) → guest.words ≡ caller.now.words.now → guest.memory ≡ caller.now.space.now
        → KeepsCall (chmod_row below.old.kernel.now guest (base path.directory) path.address mode) result below.old.kernel.now guest (I.left dev.old.input) below.old.log.now below.new.log.now }
    ensures proceeds { Proceeds I.faults O.faults E.faults result below.old below.new dev.old dev.new }
{
    let args = [
        u64::from(path.directory),
        FIRST_ADDRESS,
        u64::from(mode),
        0,
        0,
        0,
    ];
    let call = NativeWords { nr: FCHMODAT, args };
    path_call(caller, path.address, call, dev, below)
}

/// chdir(2): what is wrong with the path; ENOTDIR.
pub(crate) fn chdir<I: Source, O: Sink, E: Sink>(
    caller: &Caller,
    address: u32,
    dev: &mut Devices<I, O, E>,
    below: &mut Below,
) -> Result<Outcome, Stop>
    ensures row { (guest : Guest) → guest.words ≡ caller.now.words.now → guest.memory ≡ caller.now.space.now
        → IsCall (chdir_row below.old.kernel.now guest address) result below.new.kernel.now guest.memory guest.processor
        (contents I.left O.written E.written dev.old) (contents I.left O.written E.written dev.new) }
    ensures kept { (guest : Guest) → guest.words ≡ caller.now.words.now → guest.memory ≡ caller.now.space.now
        → KeepsCall (chdir_row below.old.kernel.now guest address) result below.old.kernel.now guest (I.left dev.old.input) below.old.log.now below.new.log.now }
    ensures proceeds { Proceeds I.faults O.faults E.faults result below.old below.new dev.old dev.new }
{
    let args = [FIRST_ADDRESS, 0, 0, 0, 0, 0];
    let call = NativeWords { nr: CHDIR, args };
    path_call(caller, address, call, dev, below)
}

/// fchmod(2): EBADF.
pub(crate) fn fchmod<I: Source, O: Sink, E: Sink>(
    words: &CallWords,
    fd: u32,
    mode: u32,
    dev: &mut Devices<I, O, E>,
    below: &mut Below,
) -> Result<Outcome, Stop>
    ensures row { (guest : Guest) → guest.words ≡ words.now
        → IsCall (fchmod_row below.old.kernel.now guest fd mode) result below.new.kernel.now guest.memory guest.processor
        (contents I.left O.written E.written dev.old) (contents I.left O.written E.written dev.new) }
    ensures kept { (guest : Guest) → guest.words ≡ words.now
        → KeepsCall (fchmod_row below.old.kernel.now guest fd mode) result below.old.kernel.now guest (I.left dev.old.input) below.old.log.now below.new.log.now }
    ensures proceeds { Proceeds I.faults O.faults E.faults result below.old below.new dev.old dev.new }
{
    below.memory.clear();
    let args = [u64::from(fd), u64::from(mode), 0, 0, 0, 0];
    below.number_call(words, FCHMOD, args, dev)
}

/// fchdir(2): EBADF, ENOTDIR.
pub(crate) fn fchdir<I: Source, O: Sink, E: Sink>(
    words: &CallWords,
    fd: u32,
    dev: &mut Devices<I, O, E>,
    below: &mut Below,
) -> Result<Outcome, Stop>
    ensures row { (guest : Guest) → guest.words ≡ words.now
        → IsCall (fchdir_row below.old.kernel.now guest fd) result below.new.kernel.now guest.memory guest.processor
        (contents I.left O.written E.written dev.old) (contents I.left O.written E.written dev.new) }
    ensures kept { (guest : Guest) → guest.words ≡ words.now
        → KeepsCall (fchdir_row below.old.kernel.now guest fd) result below.old.kernel.now guest (I.left dev.old.input) below.old.log.now below.new.log.now }
    ensures proceeds { Proceeds I.faults O.faults E.faults result below.old below.new dev.old dev.new }
{
    below.memory.clear();
    let args = [u64::from(fd), 0, 0, 0, 0, 0];
    below.number_call(words, FCHDIR, args, dev)
}

/// fsync(2): EBADF, EINVAL.
pub(crate) fn fsync<I: Source, O: Sink, E: Sink>(
    words: &CallWords,
    fd: u32,
    dev: &mut Devices<I, O, E>,
    below: &mut Below,
) -> Result<Outcome, Stop>
    ensures row { (guest : Guest) → guest.words ≡ words.now
        → IsCall (sync_row below.old.kernel.now guest fd) result below.new.kernel.now guest.memory guest.processor
        (contents I.left O.written E.written dev.old) (contents I.left O.written E.written dev.new) }
    ensures kept { (guest : Guest) → guest.words ≡ words.now
        → KeepsCall (sync_row below.old.kernel.now guest fd) result below.old.kernel.now guest (I.left dev.old.input) below.old.log.now below.new.log.now }
    ensures proceeds { Proceeds I.faults O.faults E.faults result below.old below.new dev.old dev.new }
{
    below.memory.clear();
    let args = [u64::from(fd), 0, 0, 0, 0, 0];
    below.number_call(words, FSYNC, args, dev)
}

/// fdatasync(2): EBADF, EINVAL.
pub(crate) fn fdatasync<I: Source, O: Sink, E: Sink>(
    words: &CallWords,
    fd: u32,
    dev: &mut Devices<I, O, E>,
    below: &mut Below,
) -> Result<Outcome, Stop>
    ensures row { (guest : Guest) → guest.words ≡ words.now
        → IsCall (sync_row below.old.kernel.now guest fd) result below.new.kernel.now guest.memory guest.processor
        (contents I.left O.written E.written dev.old) (contents I.left O.written E.written dev.new) }
    ensures kept { (guest : Guest) → guest.words ≡ words.now
        → KeepsCall (sync_row below.old.kernel.now guest fd) result below.old.kernel.now guest (I.left dev.old.input) below.old.log.now below.new.log.now }
    ensures proceeds { Proceeds I.faults O.faults E.faults result below.old below.new dev.old dev.new }
{
    below.memory.clear();
    let args = [u64::from(fd), 0, 0, 0, 0, 0];
    below.number_call(words, FDATASYNC, args, dev)
}

/// umask(2), which always succeeds: nine bits are kept, and the result is the old ones.
pub(crate) fn umask<I: Source, O: Sink, E: Sink>(
    words: &CallWords,
    mask: u32,
    dev: &mut Devices<I, O, E>,
    below: &mut Below,
) -> Result<Outcome, Stop>
    ensures row { (guest : Guest) → guest.words ≡ words.now
        → IsCall (umask_row below.old.kernel.now guest mask) result below.new.kernel.now guest.memory guest.processor
        (contents I.left O.written E.written dev.old) (contents I.left O.written E.written dev.new) }
    ensures kept { (guest : Guest) → guest.words ≡ words.now
        → KeepsCall (umask_row below.old.kernel.now guest mask) result below.old.kernel.now guest (I.left dev.old.input) below.old.log.now below.new.log.now }
    ensures proceeds { Proceeds I.faults O.faults E.faults result below.old below.new dev.old dev.new }
{
    below.kernel.files_valid();
    below.memory.clear();
    let args = [u64::from(mask), 0, 0, 0, 0, 0];
    below.number_call(words, UMASK, args, dev)
}
