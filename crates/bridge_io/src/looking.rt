//! What a write finds out about a descriptor before it moves bytes, by native calls that change nothing.
ghost use Rattle.std.specs.Prelude.{◌≡◌, false};
ghost use Rattle.bridge_log.specs.Proceeding.{Proceeds};
ghost use Rattle.bridge_log.specs.Looks.{LooksFor};
ghost use Rattle.bridge_io.specs.inside.Rooms.{
  IsRoom,
  begin_there,
  flags_there,
  is_ready,
  position_there,
  size_there,
};
ghost use Rattle.kernel_model.specs.Descriptions.{opened};
ghost use Rattle.o32_model.specs.Transfers.{small_file_limit};
ghost use Rattle.outside.specs.Streams.{contents};

use crate::numbers::{F_GETFL, FIONREAD, SEEK_CUR};
use crate::room::{Room, WriteFlags};
use crate::telling::{flags_in, is_fault, number_in, size_in};
use bridge_log::{Below, fresh_room};
use host_mem::FIRST_ADDRESS;
use kernel_core::Stop;
use native_numbers::{FCNTL, FSTAT, IOCTL, LSEEK};
use outside::{Devices, Sink, Source};

/// How many bytes a status has (struct stat of Linux `include/uapi/asm-generic/stat.h`).
const STATUS_SIZE: u32 = 128;

/// The size from which on a file without O_LARGEFILE takes no byte (open(2)).
pub(crate) const SMALL_FILE_LIMIT: u64 = 0x7FFF_FFFF;

/// The flags of a descriptor; None where it is not open.
pub(crate) fn write_flags<I: Source, O: Sink, E: Sink>(
    fd: u32,
    dev: &mut Devices<I, O, E>,
    below: &mut Below,
) -> Result<Option<WriteFlags>, Stop>
    ensures looks { LooksFor (λ found. found ≡ flags_there (opened below.old.kernel.now.files fd)) result below.old.kernel.now below.new.kernel.now
        (contents I.left O.written E.written dev.old) (contents I.left O.written E.written dev.new) below.old.log.now below.new.log.now }
    ensures proceeds { Proceeds I.faults O.faults E.faults result below.old below.new dev.old dev.new }
{
    below.memory.clear();
    let args = [u64::from(fd), F_GETFL, 0, 0, 0, 0];
    let reply = below.look(FCNTL, args, dev)?;
    Ok(flags_in(reply))
}

/// The position of a descriptor, where it has one.
fn position<I: Source, O: Sink, E: Sink>(
    fd: u32,
    dev: &mut Devices<I, O, E>,
    below: &mut Below,
) -> Result<Option<u64>, Stop>
    ensures looks { LooksFor (λ found. found ≡ position_there (opened below.old.kernel.now.files fd)) result below.old.kernel.now below.new.kernel.now
        (contents I.left O.written E.written dev.old) (contents I.left O.written E.written dev.new) below.old.log.now below.new.log.now }
    ensures proceeds { Proceeds I.faults O.faults E.faults result below.old below.new dev.old dev.new }
{
    below.memory.clear();
    let args = [u64::from(fd), 0, SEEK_CUR, 0, 0, 0];
    let reply = below.look(LSEEK, args, dev)?;
    Ok(number_in(reply))
}

/// The size of what a descriptor has open, where it has one.
pub(crate) fn size<I: Source, O: Sink, E: Sink>(
    fd: u32,
    dev: &mut Devices<I, O, E>,
    below: &mut Below,
) -> Result<Option<u64>, Stop>
    ensures looks { LooksFor (λ found. found ≡ size_there below.old.kernel.now.files (opened below.old.kernel.now.files fd)) result below.old.kernel.now below.new.kernel.now
        (contents I.left O.written E.written dev.old) (contents I.left O.written E.written dev.new) below.old.log.now below.new.log.now }
    ensures proceeds { Proceeds I.faults O.faults E.faults result below.old below.new dev.old dev.new }
{
    fresh_room(below.memory, STATUS_SIZE)?;
    let args = [u64::from(fd), FIRST_ADDRESS, 0, 0, 0, 0];
    let reply = below.look(FSTAT, args, dev)?;
    Ok(size_in(below.memory, reply))
}

/// Where a write begins, where what is open has places: its end under O_APPEND, and else its position.
fn begin<I: Source, O: Sink, E: Sink>(
    fd: u32,
    append: bool,
    dev: &mut Devices<I, O, E>,
    below: &mut Below,
) -> Result<Option<u64>, Stop>
    ensures looks { LooksFor (λ found. found ≡ begin_there append below.old.kernel.now.files (opened below.old.kernel.now.files fd)) result below.old.kernel.now below.new.kernel.now
        (contents I.left O.written E.written dev.old) (contents I.left O.written E.written dev.new) below.old.log.now below.new.log.now }
    ensures proceeds { Proceeds I.faults O.faults E.faults result below.old below.new dev.old dev.new }
{
    if append {
        return size(fd, dev, below);
    }
    position(fd, dev, below)
}

/// Whether FIONREAD tells how many bytes of a descriptor are ready. Of nodes it does so of regular files
/// alone.
pub(crate) fn is_ready<I: Source, O: Sink, E: Sink>(
    fd: u32,
    dev: &mut Devices<I, O, E>,
    below: &mut Below,
) -> Result<bool, Stop>
    ensures looks { LooksFor (λ found. found ≡ is_ready below.old.kernel.now.files (opened below.old.kernel.now.files fd)) result below.old.kernel.now below.new.kernel.now
        (contents I.left O.written E.written dev.old) (contents I.left O.written E.written dev.new) below.old.log.now below.new.log.now }
    ensures proceeds { Proceeds I.faults O.faults E.faults result below.old below.new dev.old dev.new }
{
    below.memory.clear();
    let args = [u64::from(fd), FIONREAD, 0, 0, 0, 0];
    let reply = below.look(IOCTL, args, dev)?;
    Ok(is_fault(reply))
}

/// How many bytes of a write count, at the position of a descriptor or at the end of its file.
pub(crate) fn room<I: Source, O: Sink, E: Sink>(
    fd: u32,
    dev: &mut Devices<I, O, E>,
    below: &mut Below,
) -> Result<Room, Stop>
    ensures looks { LooksFor (IsRoom below.old.kernel.now.files small_file_limit (λ d. d.position) (opened below.old.kernel.now.files fd)) result below.old.kernel.now below.new.kernel.now
        (contents I.left O.written E.written dev.old) (contents I.left O.written E.written dev.new) below.old.log.now below.new.log.now }
    ensures proceeds { Proceeds I.faults O.faults E.faults result below.old below.new dev.old dev.new }
{
    match write_flags(fd, dev, below)? {
        None => Ok(Room::Most(u64::MAX)),
        Some(flags) => room_under(fd, flags, dev, below),
    }
}

/// The same, by the flags of the descriptor.
fn room_under<I: Source, O: Sink, E: Sink>(
    fd: u32,
    flags: WriteFlags,
    dev: &mut Devices<I, O, E>,
    below: &mut Below,
) -> Result<Room, Stop>
    ensures looks { flags_there (opened below.old.kernel.now.files fd) ≡ Some flags
        → LooksFor (IsRoom below.old.kernel.now.files small_file_limit (λ d. d.position) (opened below.old.kernel.now.files fd)) result below.old.kernel.now below.new.kernel.now
        (contents I.left O.written E.written dev.old) (contents I.left O.written E.written dev.new) below.old.log.now below.new.log.now }
    ensures proceeds { Proceeds I.faults O.faults E.faults result below.old below.new dev.old dev.new }
{
    if flags.largefile {
        return Ok(Room::Most(u64::MAX));
    }
    match begin(fd, flags.append, dev, below)? {
        None => Ok(Room::Most(u64::MAX)),
        Some(begin) => room_from(fd, flags, begin, dev, below),
    }
}

/// The same without O_LARGEFILE, by where it begins.
fn room_from<I: Source, O: Sink, E: Sink>(
    fd: u32,
    flags: WriteFlags,
    begin: u64,
    dev: &mut Devices<I, O, E>,
    below: &mut Below,
) -> Result<Room, Stop>
    ensures looks { flags_there (opened below.old.kernel.now.files fd) ≡ Some flags → flags.largefile ≡ false
        → begin_there flags.append below.old.kernel.now.files (opened below.old.kernel.now.files fd) ≡ Some begin
        → LooksFor (IsRoom below.old.kernel.now.files small_file_limit (λ d. d.position) (opened below.old.kernel.now.files fd)) result below.old.kernel.now below.new.kernel.now
        (contents I.left O.written E.written dev.old) (contents I.left O.written E.written dev.new) below.old.log.now below.new.log.now }
    ensures proceeds { Proceeds I.faults O.faults E.faults result below.old below.new dev.old dev.new }
{
    if begin < SMALL_FILE_LIMIT {
        return Ok(Room::Most(SMALL_FILE_LIMIT - begin));
    }
    let file = is_ready(fd, dev, below)?;
    Ok(Room::Past {
        writable: flags.writable,
        file,
    })
}
