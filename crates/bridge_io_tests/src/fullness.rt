//! The calls that write, where 65,536 blocks of 4096 bytes are kept, or nearly so many (the limit is this project's
//! own).

use crate::calls::{Call, Row};
use crate::machine::{AT, CONST_END, LARGE, first_wrong};
use kernel_core::Errno;
use native_numbers::{LSEEK, OPENAT, UNLINKAT};
use std::test::Fail;

/// AT_FDCWD of openat(2) (Linux `include/uapi/linux/fcntl.h`).
const AT_FDCWD: u64 = 0xFFFF_FF9C;

/// Its flags of open(2) (Linux `include/uapi/asm-generic/fcntl.h`).
const CREATED: u64 = 0x42;

const APPENDED: u64 = 0x401;

/// The address of the first byte of host memory.
const HOST: u64 = 65_536;

const PWRITE: Call = Call::Pwrite64(Some(0), Some(0));

/// At the end of two blocks, and a few bytes before it.
const PWRITE_AT_END: Call = Call::Pwrite64(Some(0), Some(8192));

const PWRITE_BEFORE_END: Call = Call::Pwrite64(Some(0), Some(8190));

const PREAD_BEFORE_END: Call = Call::Pread64(Some(0), Some(8188));

/// A file `/f` that is open as 3, and `/g` that is open as 4 for reading and writing, and as 5 for writing with
/// O_APPEND. `/f` leaves two blocks, which `/g` takes, and gives its own back where its last descriptor is closed.
static NO_BLOCK: [Row; 36] = [
    Row::Native(OPENAT, [AT_FDCWD, HOST, CREATED, 0o600], b"/f\0", 3),
    Row::Native(OPENAT, [AT_FDCWD, HOST, CREATED, 0o600], b"/g\0", 4),
    Row::Native(OPENAT, [AT_FDCWD, HOST, APPENDED, 0], b"/g\0", 5),
    Row::Fills(3, 65_534),
    // As many bytes are written as have blocks, and the position moves by them.
    Row::Puts(LARGE + 8188, b"wxyz!"),
    Row::Gives(Call::Write, [4, LARGE, 9000], 8192),
    Row::Fails(Call::Write, [4, LARGE, 9000], Errno::ENOSPC),
    Row::Fails(Call::Write, [4, LARGE, 1], Errno::ENOSPC),
    Row::Native(LSEEK, [4, 0, 1, 0], b"", 8192),
    Row::Gives(PREAD_BEFORE_END, [4, AT + 16, 8], 4),
    Row::Holds(AT + 16, b"wxyz\0"),
    Row::Puts(AT, b"abcdef"),
    Row::Gives(PWRITE_BEFORE_END, [4, AT, 6], 2),
    Row::Fails(PWRITE_AT_END, [4, AT, 6], Errno::ENOSPC),
    Row::Gives(PREAD_BEFORE_END, [4, AT + 16, 8], 4),
    Row::Holds(AT + 16, b"wxab\0"),
    // Two buffers of three bytes, of which the second begins in a block that is there; then none does.
    Row::Puts(AT + 64, b"\0\x01\0\0\0\0\0\x03\0\x01\0\x03\0\0\0\x03"),
    Row::Native(LSEEK, [4, 8188, 0, 0], b"", 8188),
    Row::Gives(Call::Writev, [4, AT + 64, 2], 4),
    Row::Fails(Call::Writev, [4, AT + 64, 2], Errno::ENOSPC),
    Row::Native(LSEEK, [4, 0, 1, 0], b"", 8192),
    Row::Gives(PREAD_BEFORE_END, [4, AT + 16, 8], 4),
    Row::Holds(AT + 16, b"abcd\0"),
    // Under O_APPEND each write goes to the file's end.
    Row::Fails(Call::Write, [5, AT, 1], Errno::ENOSPC),
    Row::Fails(PWRITE, [5, AT, 1], Errno::ENOSPC),
    Row::Fails(Call::Writev, [5, AT + 64, 2], Errno::ENOSPC),
    // No byte needs no block, and what else is wrong is told first.
    Row::Gives(Call::Write, [4, AT, 0], 0),
    Row::Gives(PWRITE_AT_END, [4, AT, 0], 0),
    Row::Fails(Call::Write, [4, CONST_END, 1], Errno::EFAULT),
    Row::Fails(PWRITE_AT_END, [4, CONST_END, 1], Errno::EFAULT),
    Row::Fails(
        Call::Pwrite64(Some(0), Some(0x7FFF_FFFF)),
        [4, AT, 1],
        Errno::EFBIG,
    ),
    Row::Native(UNLINKAT, [AT_FDCWD, HOST, 0, 0], b"/f\0", 0),
    Row::Fails(Call::Write, [4, AT, 1], Errno::ENOSPC),
    Row::Gives(Call::Close, [3, 0, 0], 0),
    Row::Gives(Call::Write, [4, LARGE, 9000], 9000),
    Row::Written(b"", b""),
];

#[test]
fn no_block_is_left(rt: HostRuntime) -> Result<(), Fail> {
    assert_eq!(rt; first_wrong(rt.alloc(), b"", b"", &NO_BLOCK)?, None);
    Ok(())
}
