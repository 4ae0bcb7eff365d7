//! The size of what a path leads to, by a native call that changes nothing.
ghost use Rattle.std.specs.Prelude.{◌≡◌, ◌+◌, ◌<◌, None, length, position, if◌then◌else◌};
ghost use Rattle.bridge_paths.specs.Passed.{LooksFor, Proceeds};
ghost use Rattle.bridge_open.specs.inside.Openings.{size_led, size_there, size_told};
ghost use Rattle.host_mem.specs.Memory.{bytes_at, first_address};
ghost use Rattle.o32_model.specs.PathArguments.{base};
ghost use Rattle.o32_model.specs.Paths.{is_nul, path_limit};
ghost use Rattle.outside.specs.Streams.{contents};

use bridge_paths::{Below, put_behind};
use byteorder::{ByteOrder, LittleEndian};
use host_mem::{FIRST_ADDRESS, HostMem};
use kernel_core::{Bytes, Reply, Stop};
use native_numbers::NEWFSTATAT;
use outside::{Devices, Sink, Source};

/// How many bytes a status has (struct stat of Linux `include/uapi/asm-generic/stat.h`).
const STATUS_SIZE: u32 = 128;

/// Where the size lies there, in bytes.
const SIZE_OFFSET: u64 = 48;

/// AT_SYMLINK_NOFOLLOW (Linux `include/uapi/linux/fcntl.h`).
const NOFOLLOW: u64 = 0x100;

/// The size of what a path leads to, in bytes, and 0 where it leads to nothing.
pub(crate) fn size_led<I: Source, O: Sink, E: Sink>(
    directory: u32,
    path: &Bytes,
    follow: bool,
    dev: &mut Devices<I, O, E>,
    below: &mut Below,
) -> Result<u64, Stop>
    requires short { length path.now < path_limit }
    requires plain { position is_nul path.now ≡ None }
    ensures looks { LooksFor (λ found. found ≡ size_led below.old.kernel.now.files (base directory) path.now follow) result below.old.kernel.now below.new.kernel.now
        (contents I.left O.written E.written dev.old) (contents I.left O.written E.written dev.new) below.old.log.now below.new.log.now }
    ensures proceeds { Proceeds I.faults O.faults E.faults result below.old below.new dev.old dev.new }
{
    below.kernel.files_valid();
    let at = put_behind(below.memory, STATUS_SIZE, path)?;
    let args = [
        u64::from(directory),
        at,
        FIRST_ADDRESS,
        look_flags(follow),
        0,
        0,
    ];
    let reply = below.look(NEWFSTATAT, args, dev)?;
    Ok(size_told(below.memory, reply))
}

/// The flags of fstatat(2) by which a last link is followed, or is not.
fn look_flags(follow: bool) -> u64
    ensures { result ≡ (if follow then 0 else 256) }
{
    if follow { 0 } else { NOFOLLOW }
}

/// The size that a status at the beginning of host memory has, after a reply that is no error.
fn size_told(mem: &HostMem, reply: Reply) -> u64
    ensures { result ≡ size_told mem.now reply }
{
    match reply {
        Reply::Done(number) if number >= 0 => size_there(mem),
        _ => 0,
    }
}

/// The size in a status at the beginning of host memory, and 0 where none is there.
fn size_there(mem: &HostMem) -> u64
    ensures { result ≡ size_there (bytes_at mem.now (first_address + 48) 8) }
{
    match mem.read(FIRST_ADDRESS + SIZE_OFFSET, 8) {
        Some(bytes) => LittleEndian::read_u64(bytes),
        None => 0,
    }
}
