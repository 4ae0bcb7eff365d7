//! The calls on names: mkdir(2), rmdir(2), unlink(2), symlink(2), link(2), rename(2), and their forms with
//! descriptors of directories. What is wrong with a path is EFAULT or ENAMETOOLONG, and what the walk finds.
ghost use Rattle.std.specs.Prelude.{◌≡◌};
ghost use Rattle.bridge_paths.specs.Passed.{KeepsCall, Proceeds};
ghost use Rattle.o32_model.specs.Answered.{IsCall};
ghost use Rattle.o32_model.specs.Names.{follow_flag, linked, linkat_row, mkdir_row, remove_directory_flag, remove_row, rename_row, symlink_row};
ghost use Rattle.o32_model.specs.PathArguments.{base, one_flag};
ghost use Rattle.o32_model.specs.Step.{Guest, gives};
ghost use Rattle.o32_model.specs.Words.{stack_word};
ghost use Rattle.outside.specs.Streams.{contents};

use crate::arguments::fifth;
use crate::calls::{TwoPaths, path_call, paths_call};
use crate::paths::{Caller, PathAt};
use bridge_paths::{Below, NativeWords};
use host_mem::FIRST_ADDRESS;
use kernel_core::{Errno, Stop};
use native_numbers::{LINKAT, MKDIRAT, RENAMEAT, SYMLINKAT, UNLINKAT};
use o32_model::Outcome;
use outside::{Devices, Sink, Source};

/// mkdir(2), mkdirat(2): what is wrong with the path; EEXIST, ENOSPC.
pub(crate) fn mkdir<I: Source, O: Sink, E: Sink>(
    caller: &Caller,
    path: PathAt,
    mode: u32,
    dev: &mut Devices<I, O, E>,
    below: &mut Below,
) -> Result<Outcome, Stop>
    ensures row { (guest : Guest) → guest.words ≡ caller.now.words.now → guest.memory ≡ caller.now.space.now
        → IsCall (mkdir_row below.old.kernel.now guest (base path.directory) path.address mode) result below.new.kernel.now guest.memory guest.processor
        (contents I.left O.written E.written dev.old) (contents I.left O.written E.written dev.new) }
    ensures kept { (guest : Guest) → guest.words ≡ caller.now.words.now → guest.memory ≡ caller.now.space.now
        → KeepsCall (mkdir_row below.old.kernel.now guest (base path.directory) path.address mode) result below.old.kernel.now guest (I.left dev.old.input) below.old.log.now below.new.log.now }
    ensures proceeds { Proceeds I.faults O.faults E.faults result below.old below.new dev.old dev.new }
{
    let args = [
        u64::from(path.directory),
        FIRST_ADDRESS,
        u64::from(mode),
        0,
        0,
        0,
    ];
    let call = NativeWords { nr: MKDIRAT, args };
    path_call(caller, path.address, call, dev, below)
}

/// unlinkat(2), of which unlink(2) and rmdir(2) are forms: what is wrong with the path; EINVAL for flags other than
/// AT_REMOVEDIR; EISDIR, EBUSY, EINVAL, ENOTDIR, ENOTEMPTY.
pub(crate) fn remove<I: Source, O: Sink, E: Sink>(
    caller: &Caller,
    path: PathAt,
    flags: u32,
    dev: &mut Devices<I, O, E>,
    below: &mut Below,
) -> Result<Outcome, Stop>
    ensures row { (guest : Guest) → guest.words ≡ caller.now.words.now → guest.memory ≡ caller.now.space.now
        → IsCall (remove_row below.old.kernel.now guest (base path.directory) path.address (one_flag remove_directory_flag flags)) result below.new.kernel.now guest.memory guest.processor
        (contents I.left O.written E.written dev.old) (contents I.left O.written E.written dev.new) }
    ensures kept { (guest : Guest) → guest.words ≡ caller.now.words.now → guest.memory ≡ caller.now.space.now
        → KeepsCall (remove_row below.old.kernel.now guest (base path.directory) path.address (one_flag remove_directory_flag flags)) result below.old.kernel.now guest (I.left dev.old.input) below.old.log.now below.new.log.now }
    ensures proceeds { Proceeds I.faults O.faults E.faults result below.old below.new dev.old dev.new }
{
    let args = [
        u64::from(path.directory),
        FIRST_ADDRESS,
        u64::from(flags),
        0,
        0,
        0,
    ];
    let call = NativeWords { nr: UNLINKAT, args };
    path_call(caller, path.address, call, dev, below)
}

/// symlink(2), symlinkat(2): what is wrong with the target and the path; ENOENT for an empty target, EEXIST, ENOSPC.
pub(crate) fn symlink<I: Source, O: Sink, E: Sink>(
    caller: &Caller,
    target: u32,
    path: PathAt,
    dev: &mut Devices<I, O, E>,
    below: &mut Below,
) -> Result<Outcome, Stop>
    ensures row { (guest : Guest) → guest.words ≡ caller.now.words.now → guest.memory ≡ caller.now.space.now
        → IsCall (symlink_row below.old.kernel.now guest target (base path.directory) path.address) result below.new.kernel.now guest.memory guest.processor
        (contents I.left O.written E.written dev.old) (contents I.left O.written E.written dev.new) }
    ensures kept { (guest : Guest) → guest.words ≡ caller.now.words.now → guest.memory ≡ caller.now.space.now
        → KeepsCall (symlink_row below.old.kernel.now guest target (base path.directory) path.address) result below.old.kernel.now guest (I.left dev.old.input) below.old.log.now below.new.log.now }
    ensures proceeds { Proceeds I.faults O.faults E.faults result below.old below.new dev.old dev.new }
{
    let args = [FIRST_ADDRESS, u64::from(path.directory), 0, 0, 0, 0];
    let paths = TwoPaths {
        first: target,
        second: path.address,
        place: 2,
    };
    let call = NativeWords {
        nr: SYMLINKAT,
        args,
    };
    paths_call(caller, paths, call, dev, below)
}

/// rename(2), renameat(2): what is wrong with the paths; EBUSY, EINVAL, EISDIR, ENOTDIR, ENOTEMPTY, ENOSPC.
pub(crate) fn rename<I: Source, O: Sink, E: Sink>(
    caller: &Caller,
    old: PathAt,
    new: PathAt,
    dev: &mut Devices<I, O, E>,
    below: &mut Below,
) -> Result<Outcome, Stop>
    ensures row { (guest : Guest) → guest.words ≡ caller.now.words.now → guest.memory ≡ caller.now.space.now
        → IsCall (rename_row below.old.kernel.now guest (base old.directory) old.address (base new.directory) new.address) result below.new.kernel.now guest.memory guest.processor
        (contents I.left O.written E.written dev.old) (contents I.left O.written E.written dev.new) }
    ensures kept { (guest : Guest) → guest.words ≡ caller.now.words.now → guest.memory ≡ caller.now.space.now
        → KeepsCall (rename_row below.old.kernel.now guest (base old.directory) old.address (base new.directory) new.address) result below.old.kernel.now guest (I.left dev.old.input) below.old.log.now below.new.log.now }
    ensures proceeds { Proceeds I.faults O.faults E.faults result below.old below.new dev.old dev.new }
{
    let args = [
        u64::from(old.directory),
        FIRST_ADDRESS,
        u64::from(new.directory),
        0,
        0,
        0,
    ];
    let paths = TwoPaths {
        first: old.address,
        second: new.address,
        place: 3,
    };
    let call = NativeWords { nr: RENAMEAT, args };
    paths_call(caller, paths, call, dev, below)
}

/// linkat(2), of which link(2) is a form: what is wrong with the paths; EINVAL for flags other than AT_SYMLINK_FOLLOW;
/// EPERM, EEXIST, ENOSPC.
pub(crate) fn link<I: Source, O: Sink, E: Sink>(
    caller: &Caller,
    old: PathAt,
    new: PathAt,
    flags: u32,
    dev: &mut Devices<I, O, E>,
    below: &mut Below,
) -> Result<Outcome, Stop>
    ensures row { (guest : Guest) → guest.words ≡ caller.now.words.now → guest.memory ≡ caller.now.space.now
        → IsCall (λ left. gives guest (linked below.old.kernel.now guest (base old.directory) old.address (base new.directory) new.address (one_flag follow_flag flags)) left) result below.new.kernel.now guest.memory guest.processor
        (contents I.left O.written E.written dev.old) (contents I.left O.written E.written dev.new) }
    ensures kept { (guest : Guest) → guest.words ≡ caller.now.words.now → guest.memory ≡ caller.now.space.now
        → KeepsCall (λ left. gives guest (linked below.old.kernel.now guest (base old.directory) old.address (base new.directory) new.address (one_flag follow_flag flags)) left) result below.old.kernel.now guest (I.left dev.old.input) below.old.log.now below.new.log.now }
    ensures proceeds { Proceeds I.faults O.faults E.faults result below.old below.new dev.old dev.new }
{
    let args = [
        u64::from(old.directory),
        FIRST_ADDRESS,
        u64::from(new.directory),
        0,
        u64::from(flags),
        0,
    ];
    let paths = TwoPaths {
        first: old.address,
        second: new.address,
        place: 3,
    };
    let call = NativeWords { nr: LINKAT, args };
    paths_call(caller, paths, call, dev, below)
}

/// linkat(2), whose flags are the fifth argument: EFAULT before all else where they can't be read (this
/// project's own), and what linkat(2) has.
pub(crate) fn linkat<I: Source, O: Sink, E: Sink>(
    caller: &Caller,
    old: PathAt,
    new: PathAt,
    dev: &mut Devices<I, O, E>,
    below: &mut Below,
) -> Result<Outcome, Stop>
    ensures row { (guest : Guest) → guest.words ≡ caller.now.words.now → guest.memory ≡ caller.now.space.now
        → IsCall (linkat_row below.old.kernel.now guest (base old.directory) old.address (base new.directory) new.address (stack_word caller.now.words.now 0)) result below.new.kernel.now guest.memory guest.processor
        (contents I.left O.written E.written dev.old) (contents I.left O.written E.written dev.new) }
    ensures kept { (guest : Guest) → guest.words ≡ caller.now.words.now → guest.memory ≡ caller.now.space.now
        → KeepsCall (linkat_row below.old.kernel.now guest (base old.directory) old.address (base new.directory) new.address (stack_word caller.now.words.now 0)) result below.old.kernel.now guest (I.left dev.old.input) below.old.log.now below.new.log.now }
    ensures proceeds { Proceeds I.faults O.faults E.faults result below.old below.new dev.old dev.new }
{
    match fifth(caller.words) {
        None => Ok(Outcome::Error(Errno::EFAULT)),
        Some(flags) => link(caller, old, new, flags, dev, below),
    }
}
