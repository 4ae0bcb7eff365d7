//! The calls on status: stat(2), lstat(2), fstat(2), fstatat(2), in the old structure and in that of 64 bits.
ghost use Rattle.std.specs.Prelude.{◌≡◌, ◌<◌, None, Ok, length, position};
ghost use Rattle.bridge_paths.specs.Passed.{KeepsCall, Proceeds};
ghost use Rattle.bridge_status.specs.inside.StatusCalls.{is_listed, open_status, path_status};
ghost use Rattle.o32_model.specs.Answered.{IsCall};
ghost use Rattle.o32_model.specs.PathArguments.{base};
ghost use Rattle.o32_model.specs.Paths.{is_nul, path_at, path_limit};
ghost use Rattle.o32_model.specs.Step.{Guest};
ghost use Rattle.o32_model.specs.Words.{argument};
ghost use Rattle.outside.specs.Streams.{contents};

use crate::structures::Form;
use crate::telling::{STATUS_SIZE, StatusAt, tell_call};
use bridge_paths::{Below, NativeWords, fresh_room, put_behind, read_path};
use guest_space::Space;
use host_mem::FIRST_ADDRESS;
use kernel_core::{Bytes, Errno, Stop};
use native_numbers::{FSTAT, NEWFSTATAT};
use o32_model::{CallWords, Outcome};
use outside::{Devices, Sink, Source};
use std::alloc::Global;

/// AT_SYMLINK_NOFOLLOW, AT_NO_AUTOMOUNT and AT_EMPTY_PATH (Linux `include/uapi/linux/fcntl.h`).
const FLAGS: u32 = 0x1900;

/// What a call asks for that tells the status of what a path leads to.
#[derive(Clone, Copy)]
pub(crate) struct StatusQuery {
    /// What a relative path counts from.
    pub(crate) directory: u32,
    /// The address of the path.
    pub(crate) address: u32,
    /// The flags of fstatat(2).
    pub(crate) flags: u32,
    /// Where the program wants the status.
    pub(crate) to: StatusAt,
}

/// fstat(2), fstat64(2): EBADF; EOVERFLOW for a status that the old structure can't hold; EFAULT.
pub(crate) fn fstat<I: Source, O: Sink, E: Sink>(
    words: &CallWords,
    form: Form,
    space: &mut Space,
    dev: &mut Devices<I, O, E>,
    below: &mut Below,
) -> Result<Outcome, Stop>
    ensures row { (guest : Guest) → guest.words ≡ words.now → guest.memory ≡ space.old
        → IsCall (open_status form below.old.kernel.now guest (argument words.now 0) (argument words.now 1)) result below.new.kernel.now space.new guest.processor
        (contents I.left O.written E.written dev.old) (contents I.left O.written E.written dev.new) }
    ensures kept { (guest : Guest) → guest.words ≡ words.now → guest.memory ≡ space.old
        → KeepsCall (open_status form below.old.kernel.now guest (argument words.now 0) (argument words.now 1)) result below.old.kernel.now guest (I.left dev.old.input) below.old.log.now below.new.log.now }
    ensures proceeds { Proceeds I.faults O.faults E.faults result below.old below.new dev.old dev.new }
{
    below.kernel.files_valid();
    let [fd, address, _, _] = words.reg;
    fresh_room(below.memory, STATUS_SIZE)?;
    let call = NativeWords {
        nr: FSTAT,
        args: [u64::from(fd), FIRST_ADDRESS, 0, 0, 0, 0],
    };
    tell_call(words, StatusAt { address, form }, space, call, dev, below)
}

/// fstatat(2), of which stat(2) and lstat(2) are forms: EINVAL for flags other than AT_SYMLINK_NOFOLLOW,
/// AT_NO_AUTOMOUNT and AT_EMPTY_PATH; what is wrong with the path; EOVERFLOW for a status that the old structure
/// can't hold; EFAULT.
pub(crate) fn fstatat<I: Source, O: Sink, E: Sink>(
    alloc: Global,
    words: &CallWords,
    asked: StatusQuery,
    space: &mut Space,
    dev: &mut Devices<I, O, E>,
    below: &mut Below,
) -> Result<Outcome, Stop>
    ensures row { (guest : Guest) → guest.words ≡ words.now → guest.memory ≡ space.old
        → IsCall (path_status asked.to.form below.old.kernel.now guest (base asked.directory) asked.address asked.to.address asked.flags) result below.new.kernel.now space.new guest.processor
        (contents I.left O.written E.written dev.old) (contents I.left O.written E.written dev.new) }
    ensures kept { (guest : Guest) → guest.words ≡ words.now → guest.memory ≡ space.old
        → KeepsCall (path_status asked.to.form below.old.kernel.now guest (base asked.directory) asked.address asked.to.address asked.flags) result below.old.kernel.now guest (I.left dev.old.input) below.old.log.now below.new.log.now }
    ensures proceeds { Proceeds I.faults O.faults E.faults result below.old below.new dev.old dev.new }
{
    if !is_listed(asked.flags) {
        return Ok(Outcome::Error(Errno::EINVAL));
    }
    match read_path(alloc, space, asked.address)? {
        Err(error) => Ok(Outcome::Error(error)),
        Ok(path) => path_status(words, asked, &path, space, dev, below),
    }
}

/// Whether a number has no flags but those three.
fn is_listed(flags: u32) -> bool
    ensures { result ≡ is_listed flags }
{
    flags & FLAGS == flags
}

/// The same once the path is read.
fn path_status<I: Source, O: Sink, E: Sink>(
    words: &CallWords,
    asked: StatusQuery,
    path: &Bytes,
    space: &mut Space,
    dev: &mut Devices<I, O, E>,
    below: &mut Below,
) -> Result<Outcome, Stop>
    requires found { path_at space.old asked.address ≡ Ok path.now }
    requires short { length path.now < path_limit }
    requires plain { position is_nul path.now ≡ None }
    ensures row { (guest : Guest) → guest.words ≡ words.now → guest.memory ≡ space.old
        → IsCall (path_status asked.to.form below.old.kernel.now guest (base asked.directory) asked.address asked.to.address asked.flags) result below.new.kernel.now space.new guest.processor
        (contents I.left O.written E.written dev.old) (contents I.left O.written E.written dev.new) }
    ensures kept { (guest : Guest) → guest.words ≡ words.now → guest.memory ≡ space.old
        → KeepsCall (path_status asked.to.form below.old.kernel.now guest (base asked.directory) asked.address asked.to.address asked.flags) result below.old.kernel.now guest (I.left dev.old.input) below.old.log.now below.new.log.now }
    ensures proceeds { Proceeds I.faults O.faults E.faults result below.old below.new dev.old dev.new }
{
    below.kernel.files_valid();
    let at = put_behind(below.memory, STATUS_SIZE, path)?;
    let call = NativeWords {
        nr: NEWFSTATAT,
        args: [
            u64::from(asked.directory),
            at,
            FIRST_ADDRESS,
            u64::from(asked.flags),
            0,
            0,
        ],
    };
    tell_call(words, asked.to, space, call, dev, below)
}
