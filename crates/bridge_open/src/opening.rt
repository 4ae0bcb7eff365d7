//! The calls that open files: open(2), openat(2), creat(2). For a program a file of more than 2^31 - 1 bytes
//! is opened with O_LARGEFILE alone, which the native kernel does not ask for. So its size is looked at
//! first.
ghost use Rattle.std.specs.Prelude.{◌≡◌, ◌<◌, ◌&&◌, IsTrue, None, Ok, Some, false, length, position, if◌then◌else◌};
ghost use Rattle.bridge_paths.specs.Passed.{KeepsCall, Proceeds};
ghost use Rattle.bridge_open.specs.inside.Openings.{Unlimited, is_unlimited, size_led};
ghost use Rattle.kernel_model.specs.Opening.{follows};
ghost use Rattle.number_tables.specs.OpenNumbers.{is_synced, open_of_o32};
ghost use Rattle.o32_model.specs.Answered.{IsCall};
ghost use Rattle.o32_model.specs.Opening.{open_row};
ghost use Rattle.o32_model.specs.PathArguments.{base};
ghost use Rattle.o32_model.specs.Paths.{is_nul, path_at, path_limit};
ghost use Rattle.o32_model.specs.Step.{Guest};
ghost use Rattle.outside.specs.Streams.{contents};

use crate::large::too_large;
use crate::sizes::size_led;
use bridge_paths::{Below, put_one, read_path};
use guest_space::Space;
use host_mem::FIRST_ADDRESS;
use kernel_core::{Bytes, Errno, OpenFlags, Stop};
use native_numbers::OPENAT;
use number_tables::{NativeNumber, O32Number};
use o32_model::{CallWords, Outcome};
use outside::{Devices, Sink, Source};
use std::alloc::Global;

/// The greatest size of a file that is opened without O_LARGEFILE, in bytes (open(2): what an off_t of 32
/// bits holds).
const SMALL_FILE_LIMIT: u64 = 0x7FFF_FFFF;

/// What a call that opens a file asks for, by its words.
#[derive(Clone, Copy)]
pub(crate) struct OpenRequest {
    /// What a relative path counts from.
    pub(crate) directory: u32,
    /// The address of the path.
    pub(crate) address: u32,
    /// The flags, by the program's numbers.
    pub(crate) flags: u32,
    /// The mode of a file that is made.
    pub(crate) mode: u32,
}

/// What such a call asks for, with flags that are listed.
#[derive(Clone, Copy)]
struct Opening {
    /// What a relative path counts from.
    directory: u32,
    /// The address of the path.
    address: u32,
    /// The flags.
    flags: OpenFlags,
    /// The mode of a file that is made.
    mode: u32,
}

/// open(2), openat(2), and creat(2) by its flags: EINVAL for flags that are none, and for O_CREAT with
/// O_DIRECTORY; what is wrong with the path; EMFILE, EEXIST, EISDIR, ENOTDIR, ELOOP, ENOSPC; EOVERFLOW for a
/// file of more than 2^31 - 1 bytes without O_LARGEFILE.
pub(crate) fn open<I: Source, O: Sink, E: Sink>(
    alloc: Global,
    words: &CallWords,
    request: OpenRequest,
    space: &Space,
    dev: &mut Devices<I, O, E>,
    below: &mut Below,
) -> Result<Outcome, Stop>
    ensures row { (guest : Guest) → guest.words ≡ words.now → guest.memory ≡ space.now
        → IsCall (open_row below.old.kernel.now guest (base request.directory) request.address (open_of_o32 request.flags) request.mode) result
        below.new.kernel.now guest.memory guest.processor
        (contents I.left O.written E.written dev.old) (contents I.left O.written E.written dev.new) }
    ensures kept { (guest : Guest) → guest.words ≡ words.now → guest.memory ≡ space.now
        → KeepsCall (open_row below.old.kernel.now guest (base request.directory) request.address (open_of_o32 request.flags) request.mode) result below.old.kernel.now guest
        (I.left dev.old.input) below.old.log.now below.new.log.now }
    ensures proceeds { Proceeds I.faults O.faults E.faults result below.old below.new dev.old dev.new }
{
    match OpenFlags::of_o32(request.flags) {
        Some(flags) if !makes_directory(flags) => open_listed(
            alloc,
            words,
            Opening {
                directory: request.directory,
                address: request.address,
                flags,
                mode: request.mode,
            },
            space,
            dev,
            below,
        ),
        _ => Ok(Outcome::Error(Errno::EINVAL)),
    }
}

/// The same with flags that are listed, of which O_CREAT doesn't stand with O_DIRECTORY.
fn open_listed<I: Source, O: Sink, E: Sink>(
    alloc: Global,
    words: &CallWords,
    opening: Opening,
    space: &Space,
    dev: &mut Devices<I, O, E>,
    below: &mut Below,
) -> Result<Outcome, Stop>
    requires listed { IsTrue (is_synced opening.flags) }
    requires allowed { (opening.flags.creat && opening.flags.directory) ≡ false }
    ensures row { (guest : Guest) → guest.words ≡ words.now → guest.memory ≡ space.now
        → IsCall (open_row below.old.kernel.now guest (base opening.directory) opening.address (Some opening.flags) opening.mode) result
        below.new.kernel.now guest.memory guest.processor
        (contents I.left O.written E.written dev.old) (contents I.left O.written E.written dev.new) }
    ensures kept { (guest : Guest) → guest.words ≡ words.now → guest.memory ≡ space.now
        → KeepsCall (open_row below.old.kernel.now guest (base opening.directory) opening.address (Some opening.flags) opening.mode) result below.old.kernel.now guest
        (I.left dev.old.input) below.old.log.now below.new.log.now }
    ensures proceeds { Proceeds I.faults O.faults E.faults result below.old below.new dev.old dev.new }
{
    match read_path(alloc, space, opening.address)? {
        Err(error) => Ok(Outcome::Error(error)),
        Ok(path) => open_path(words, opening, &path, dev, below),
    }
}

/// Whether O_CREAT stands with O_DIRECTORY.
fn makes_directory(flags: OpenFlags) -> bool
    ensures { result ≡ (flags.creat && flags.directory) }
{
    flags.creat() && flags.directory()
}

/// The same once the path is read.
fn open_path<I: Source, O: Sink, E: Sink>(
    words: &CallWords,
    opening: Opening,
    path: &Bytes,
    dev: &mut Devices<I, O, E>,
    below: &mut Below,
) -> Result<Outcome, Stop>
    requires listed { IsTrue (is_synced opening.flags) }
    requires short { length path.now < path_limit }
    requires plain { position is_nul path.now ≡ None }
    ensures row { (guest : Guest) → guest.words ≡ words.now → path_at guest.memory opening.address ≡ Ok path.now
        → IsCall (open_row below.old.kernel.now guest (base opening.directory) opening.address (Some opening.flags) opening.mode) result
        below.new.kernel.now guest.memory guest.processor
        (contents I.left O.written E.written dev.old) (contents I.left O.written E.written dev.new) }
    ensures kept { (guest : Guest) → guest.words ≡ words.now → path_at guest.memory opening.address ≡ Ok path.now
        → KeepsCall (open_row below.old.kernel.now guest (base opening.directory) opening.address (Some opening.flags) opening.mode) result below.old.kernel.now guest
        (I.left dev.old.input) below.old.log.now below.new.log.now }
    ensures proceeds { Proceeds I.faults O.faults E.faults result below.old below.new dev.old dev.new }
{
    if is_unlimited(opening.flags) {
        return open_now(words, opening, path, dev, below);
    }
    let size = size_led(opening.directory, path, follows(opening.flags), dev, below)?;
    open_sized(words, opening, path, size, dev, below)
}

/// Whether the flags say by themselves that no size limits the opening.
fn is_unlimited(flags: OpenFlags) -> bool
    ensures { result ≡ is_unlimited flags }
{
    flags.largefile() || flags.directory() || flags.creat() && flags.excl()
}

/// Whether a last link is followed.
fn follows(flags: OpenFlags) -> bool
    ensures { result ≡ follows flags }
{
    !(flags.nofollow() || flags.creat() && flags.excl())
}

/// The same, by the size of what the path leads to.
fn open_sized<I: Source, O: Sink, E: Sink>(
    words: &CallWords,
    opening: Opening,
    path: &Bytes,
    size: u64,
    dev: &mut Devices<I, O, E>,
    below: &mut Below,
) -> Result<Outcome, Stop>
    requires listed { IsTrue (is_synced opening.flags) }
    requires short { length path.now < path_limit }
    requires plain { position is_nul path.now ≡ None }
    requires limited { is_unlimited opening.flags ≡ false }
    ensures row { (guest : Guest) → guest.words ≡ words.now → path_at guest.memory opening.address ≡ Ok path.now
        → size ≡ size_led below.old.kernel.now.files (base opening.directory) path.now (follows opening.flags)
        → IsCall (open_row below.old.kernel.now guest (base opening.directory) opening.address (Some opening.flags) opening.mode) result
        below.new.kernel.now guest.memory guest.processor
        (contents I.left O.written E.written dev.old) (contents I.left O.written E.written dev.new) }
    ensures kept { (guest : Guest) → guest.words ≡ words.now → path_at guest.memory opening.address ≡ Ok path.now
        → size ≡ size_led below.old.kernel.now.files (base opening.directory) path.now (follows opening.flags)
        → KeepsCall (open_row below.old.kernel.now guest (base opening.directory) opening.address (Some opening.flags) opening.mode) result below.old.kernel.now guest
        (I.left dev.old.input) below.old.log.now below.new.log.now }
    ensures proceeds { Proceeds I.faults O.faults E.faults result below.old below.new dev.old dev.new }
{
    below.kernel.files_valid();
    if size > SMALL_FILE_LIMIT {
        too_large(words, dev, below)
    } else {
        open_now(words, opening, path, dev, below)
    }
}

/// Opens where no size limits it.
fn open_now<I: Source, O: Sink, E: Sink>(
    words: &CallWords,
    opening: Opening,
    path: &Bytes,
    dev: &mut Devices<I, O, E>,
    below: &mut Below,
) -> Result<Outcome, Stop>
    requires listed { IsTrue (is_synced opening.flags) }
    requires short { length path.now < path_limit }
    requires plain { position is_nul path.now ≡ None }
    ensures row { (guest : Guest) → guest.words ≡ words.now → path_at guest.memory opening.address ≡ Ok path.now
        → Unlimited below.old.kernel.now.files (base opening.directory) path.now opening.flags
        → IsCall (open_row below.old.kernel.now guest (base opening.directory) opening.address (Some opening.flags) opening.mode) result
        below.new.kernel.now guest.memory guest.processor
        (contents I.left O.written E.written dev.old) (contents I.left O.written E.written dev.new) }
    ensures kept { (guest : Guest) → guest.words ≡ words.now → path_at guest.memory opening.address ≡ Ok path.now
        → Unlimited below.old.kernel.now.files (base opening.directory) path.now opening.flags
        → KeepsCall (open_row below.old.kernel.now guest (base opening.directory) opening.address (Some opening.flags) opening.mode) result below.old.kernel.now guest
        (I.left dev.old.input) below.old.log.now below.new.log.now }
    ensures proceeds { Proceeds I.faults O.faults E.faults result below.old below.new dev.old dev.new }
{
    below.kernel.whole();
    put_one(below.memory, path)?;
    let args = [
        u64::from(opening.directory),
        FIRST_ADDRESS,
        opening.flags.to_native(),
        handed(opening.flags, opening.mode),
        0,
        0,
    ];
    below.number_call(words, OPENAT, args, dev)
}

/// The mode that the native call is handed: 0 without O_CREAT, where there is none.
fn handed(flags: OpenFlags, mode: u32) -> u64
    ensures { result ≡ (if flags.creat then mode else 0) }
{
    if flags.creat() { u64::from(mode) } else { 0 }
}
