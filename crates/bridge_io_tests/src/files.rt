//! The calls that move bytes, of a regular file and a directory, which the 64-bit kernel itself opens.

use crate::calls::{Call, Row};
use crate::machine::{AT, CONST_END, TAIL_END, first_wrong};
use crate::numbers::{F_GETFL, FIONREAD, O_APPEND, O_LARGEFILE, O_RDWR, O_WRONLY};
use kernel_core::Errno;
use native_numbers::{LSEEK, OPENAT};
use std::test::Fail;

/// AT_FDCWD of openat(2) (Linux `include/uapi/linux/fcntl.h`).
const AT_FDCWD: u64 = 0xFFFF_FF9C;

/// Its flags of open(2) (Linux `include/uapi/asm-generic/fcntl.h`).
const CREATED: u64 = 0x42;

const LARGE: u64 = 0x8002;

const APPENDED: u64 = 0x401;

/// The address of the first byte of host memory.
const HOST: u64 = 65_536;

const PREAD: Call = Call::Pread64(Some(0), Some(0));

const PWRITE: Call = Call::Pwrite64(Some(0), Some(0));

/// At the place -1.
const PREAD_BELOW: Call = Call::Pread64(Some(u32::MAX), Some(u32::MAX));

const PWRITE_BELOW: Call = Call::Pwrite64(Some(u32::MAX), Some(u32::MAX));

/// At the place 2^31 - 1, where a file ends that is not open with O_LARGEFILE.
const PWRITE_AT_LIMIT: Call = Call::Pwrite64(Some(0), Some(0x7FFF_FFFF));

/// A file `/f` that is open as 3 for reading and writing, as 4 with O_LARGEFILE, and as 5 for writing with
/// O_APPEND; and the root directory, as 6.
static FILES: [Row; 87] = [
    Row::Native(OPENAT, [AT_FDCWD, HOST, CREATED, 0o600], b"/f\0", 3),
    Row::Native(OPENAT, [AT_FDCWD, HOST, LARGE, 0], b"/f\0", 4),
    Row::Native(OPENAT, [AT_FDCWD, HOST, APPENDED, 0], b"/f\0", 5),
    Row::Native(OPENAT, [AT_FDCWD, HOST, 0, 0], b"/\0", 6),
    Row::Gives(Call::Fcntl, [3, F_GETFL, 0], O_RDWR),
    Row::Gives(Call::Fcntl, [4, F_GETFL, 0], O_LARGEFILE + O_RDWR),
    Row::Gives(Call::Fcntl, [5, F_GETFL, 0], O_APPEND + O_WRONLY),
    // A place has no part in a position. Under O_APPEND each write goes to the file's end.
    Row::Puts(AT, b"abcdefXY"),
    Row::Gives(Call::Write, [3, AT, 6], 6),
    Row::Gives(Call::Read, [3, AT + 16, 8], 0),
    Row::Fails(Call::Read, [3, TAIL_END, 8], Errno::EFAULT),
    Row::Gives(Call::Read, [4, AT + 16, 2], 2),
    Row::Holds(AT + 16, b"ab\0"),
    Row::Gives(Call::Read, [4, TAIL_END - 1, 8], 1),
    Row::Holds(TAIL_END - 2, b"\0c"),
    Row::Gives(Call::Ioctl, [4, FIONREAD, AT + 32], 0),
    Row::Holds(AT + 32, b"\0\0\0\x03\0"),
    Row::Gives(PREAD, [3, AT + 16, 4], 4),
    Row::Holds(AT + 16, b"abcd\0"),
    Row::Gives(Call::Pread64(Some(0), Some(4)), [3, AT + 16, 8], 2),
    Row::Holds(AT + 16, b"efcd\0"),
    Row::Gives(Call::Pread64(Some(0), Some(1)), [3, TAIL_END - 2, 8], 2),
    Row::Holds(TAIL_END - 3, b"\0bc"),
    Row::Gives(Call::Pread64(Some(0), Some(6)), [3, AT + 16, 8], 0),
    Row::Gives(Call::Pread64(Some(1), Some(0)), [3, AT + 16, 8], 0),
    Row::Holds(AT + 16, b"efcd\0"),
    Row::Fails(PREAD, [3, TAIL_END, 1], Errno::EFAULT),
    Row::Gives(PREAD, [3, TAIL_END, 0], 0),
    Row::Fails(PREAD_BELOW, [3, AT, 1], Errno::EINVAL),
    Row::Fails(PREAD, [5, AT, 1], Errno::EBADF),
    Row::Fails(Call::Pread64(Some(0), None), [3, AT, 1], Errno::EFAULT),
    Row::Gives(Call::Pwrite64(Some(0), Some(1)), [3, AT + 6, 2], 2),
    Row::Gives(Call::Pwrite64(Some(0), Some(4)), [3, CONST_END - 1, 8], 1),
    Row::Fails(PWRITE, [3, CONST_END, 1], Errno::EFAULT),
    Row::Gives(PWRITE, [3, CONST_END, 0], 0),
    Row::Fails(PWRITE_BELOW, [3, AT, 1], Errno::EINVAL),
    Row::Fails(Call::Pwrite64(None, Some(0)), [3, AT, 1], Errno::EFAULT),
    Row::Gives(PREAD, [4, AT + 16, 8], 6),
    Row::Holds(AT + 16, b"aXYd.f\0"),
    Row::Gives(Call::Read, [4, AT + 16, 1], 1),
    Row::Holds(AT + 16, b"dXYd.f\0"),
    Row::Gives(Call::Read, [3, AT + 16, 8], 0),
    Row::Gives(PWRITE, [5, AT, 1], 1),
    Row::Gives(Call::Write, [5, AT + 1, 1], 1),
    Row::Gives(Call::Pread64(Some(0), Some(5)), [4, AT + 16, 8], 3),
    Row::Holds(AT + 16, b"fabd.f\0"),
    Row::Puts(AT + 64, b"\0\x01\0\x10\0\0\0\x01\0\x01\0\x20\0\0\0\x04"),
    Row::Gives(Call::Readv, [3, AT + 64, 2], 2),
    Row::Holds(AT + 16, b"aabd.f\0"),
    Row::Holds(AT + 32, b"b\0\0\x03\0"),
    Row::Gives(Call::Writev, [3, AT + 64, 2], 5),
    Row::Gives(Call::Pread64(Some(0), Some(7)), [4, AT + 48, 8], 6),
    Row::Holds(AT + 48, b"bab\0\0\x03\0"),
    // A directory is open for reading, and has no bytes.
    Row::Fails(Call::Read, [6, AT, 1], Errno::EISDIR),
    Row::Gives(Call::Read, [6, TAIL_END, 0], 0),
    Row::Fails(Call::Read, [6, TAIL_END, 1], Errno::EFAULT),
    Row::Fails(PREAD, [6, AT, 1], Errno::EISDIR),
    Row::Fails(Call::Readv, [6, AT + 64, 2], Errno::EISDIR),
    Row::Fails(Call::Write, [6, AT, 1], Errno::EBADF),
    Row::Fails(PWRITE, [6, AT, 1], Errno::EBADF),
    Row::Fails(Call::Ioctl, [6, FIONREAD, AT], Errno::ENOTTY),
    // A write that would pass 2^31 - 1 bytes without O_LARGEFILE is cut, and one that begins there is EFBIG.
    Row::Native(LSEEK, [3, 0x7FFF_FFFD, 0, 0], b"", 0x7FFF_FFFD),
    Row::Gives(Call::Write, [3, AT, 4], 2),
    Row::Fails(Call::Write, [3, AT, 1], Errno::EFBIG),
    Row::Fails(Call::Write, [3, CONST_END, 1], Errno::EFAULT),
    Row::Gives(Call::Write, [3, CONST_END, 0], 0),
    Row::Fails(Call::Writev, [3, AT + 64, 2], Errno::EFBIG),
    Row::Gives(Call::Pwrite64(Some(0), Some(0x7FFF_FFFE)), [3, AT, 4], 1),
    Row::Fails(PWRITE_AT_LIMIT, [3, AT, 4], Errno::EFBIG),
    Row::Fails(Call::Pwrite64(Some(1), Some(0)), [3, AT, 4], Errno::EFBIG),
    Row::Fails(PWRITE_AT_LIMIT, [3, CONST_END, 1], Errno::EFAULT),
    Row::Gives(PWRITE_AT_LIMIT, [3, CONST_END, 0], 0),
    Row::Fails(PWRITE_AT_LIMIT, [6, AT, 1], Errno::EBADF),
    Row::Fails(PWRITE_AT_LIMIT, [1, AT, 1], Errno::ESPIPE),
    Row::Fails(Call::Write, [5, AT, 1], Errno::EFBIG),
    Row::Fails(PWRITE, [5, AT, 1], Errno::EFBIG),
    Row::Fails(Call::Writev, [5, AT + 64, 2], Errno::EFBIG),
    Row::Fails(Call::Write, [5, CONST_END, 1], Errno::EFAULT),
    Row::Gives(Call::Write, [5, CONST_END, 0], 0),
    Row::Gives(PWRITE_AT_LIMIT, [4, AT, 1], 1),
    Row::Fails(PWRITE_AT_LIMIT, [3, AT, 1], Errno::EFBIG),
    Row::Gives(PWRITE, [3, AT, 1], 1),
    Row::Fails(
        Call::Pwrite64(Some(0x1000), Some(0)),
        [4, AT, 1],
        Errno::EFBIG,
    ),
    Row::Gives(Call::Ioctl, [4, FIONREAD, AT + 32], 0),
    Row::Holds(AT + 32, b"\x7F\xFF\xFF\xFC\0"),
    Row::Native(LSEEK, [4, 0, 2, 0], b"", 0x8000_0000),
    Row::Gives(Call::Write, [4, AT, 2], 2),
];

#[test]
fn files(rt: HostRuntime) -> Result<(), Fail> {
    assert_eq!(rt; first_wrong(rt.alloc(), b"", b"", &FILES)?, None);
    Ok(())
}
