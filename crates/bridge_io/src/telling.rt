//! What native replies tell that are no outcome yet.
ghost use Rattle.std.specs.Prelude.{◌≡◌, ◌+◌, option_map};
ghost use Rattle.byteorder.specs.Endian.{little_number};
ghost use Rattle.bridge_io.specs.inside.Rooms.{
  flags_in,
  flags_of,
  is_fault,
  number_in,
  past_outcome,
  size_in,
};
ghost use Rattle.host_mem.specs.Memory.{bytes_at, first_address};

use crate::room::WriteFlags;
use byteorder::{ByteOrder, LittleEndian};
use host_mem::{FIRST_ADDRESS, HostMem};
use kernel_core::{Errno, Reply};
use o32_model::Outcome;

/// Where the size lies in a status, in bytes (struct stat of Linux `include/uapi/asm-generic/stat.h`).
const SIZE_OFFSET: u64 = 48;

/// The native number of EFAULT with its sign turned (Linux `include/uapi/asm-generic/errno-base.h`).
const FAULT: i64 = -14;

/// The flags of an open descriptor, from the reply of F_GETFL; None where it is an error.
pub(crate) fn flags_in(reply: Reply) -> Option<WriteFlags>
    ensures { result ≡ flags_in reply }
{
    match reply {
        Reply::Done(number) if number >= 0 => Some(flags_of(number as u64)),
        _ => None,
    }
}

fn flags_of(number: u64) -> WriteFlags
    ensures { result ≡ flags_of number }
{
    WriteFlags {
        writable: is_writable(number),
        append: number / 0x400 % 2 == 1,
        largefile: number / 0x8000 % 2 == 1,
    }
}

/// Whether the access mode in the two low bits is that of writing, or of reading and writing.
fn is_writable(number: u64) -> bool
    ensures { result ≡ (flags_of number).writable }
{
    match number % 4 {
        1 => true,
        2 => true,
        _ => false,
    }
}

/// The reply's number; None where it is an error.
pub(crate) fn number_in(reply: Reply) -> Option<u64>
    ensures { result ≡ number_in reply }
{
    match reply {
        Reply::Done(number) if number >= 0 => Some(number as u64),
        _ => None,
    }
}

/// The size of the status that stands in host memory; None where the reply is an error.
pub(crate) fn size_in(mem: &HostMem, reply: Reply) -> Option<u64>
    ensures { result ≡ size_in mem.now reply }
{
    match reply {
        Reply::Done(number) if number >= 0 => size_there(mem),
        _ => None,
    }
}

fn size_there(mem: &HostMem) -> Option<u64>
    ensures { result ≡ option_map (little_number 8) (bytes_at mem.now (first_address + 48) 8) }
{
    match mem.read(FIRST_ADDRESS + SIZE_OFFSET, 8) {
        Some(bytes) => Some(LittleEndian::read_u64(bytes)),
        None => None,
    }
}

/// Whether the reply is EFAULT.
pub(crate) fn is_fault(reply: Reply) -> bool
    ensures { result ≡ is_fault reply }
{
    match reply {
        Reply::Done(number) => number == FAULT,
        Reply::Sleep(_) => false,
    }
}

/// What a write comes to that would begin past a file's greatest size, by what is open, how many bytes are
/// asked for, and how many of them can be loaded.
pub(crate) fn past_outcome(writable: bool, file: bool, count: u32, there: usize) -> Outcome
    ensures { result ≡ past_outcome writable file count there }
{
    if !writable {
        return Outcome::Error(Errno::EBADF);
    }
    if count == 0 {
        return Outcome::Value(0);
    }
    if there == 0 {
        return Outcome::Error(Errno::EFAULT);
    }
    Outcome::Error(if file { Errno::EFBIG } else { Errno::EBADF })
}
