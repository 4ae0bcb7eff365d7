//! readv(2) and writev(2). A vector has 8 bytes a buffer: the address, and the length.

use crate::calls::{Call, Row};
use crate::machine::{AT, CONST, CONST_END, TAIL_END, first_wrong};
use crate::numbers::{F_SETFL, O_NONBLOCK};
use kernel_core::Errno;
use std::test::Fail;

/// Three buffers, of which the second has no byte; then two, of which the first ends on a page that can't be
/// stored to, and two, of which it ends on a page that is not there; then one there; then two of 2^31 bytes
/// in all; then vectors that can't be loaded whole; and a pipe.
static READV: [Row; 27] = [
    Row::Puts(
        AT,
        b"\0\x01\x01\0\0\0\0\x03\0\x01\x20\0\0\0\0\0\0\x01\x01\x40\0\0\0\x04",
    ),
    Row::Gives(Call::Readv, [0, AT, 3], 7),
    Row::Holds(0x1_0100, b"abc\0"),
    Row::Holds(0x1_0140, b"defg\0"),
    Row::Puts(AT, b"\0\x01\x1F\xFE\0\0\0\x04\0\x01\x01\0\0\0\0\x02"),
    Row::Gives(Call::Readv, [0, AT, 2], 2),
    Row::Holds(CONST - 2, b"hi\0\0"),
    Row::Puts(AT, b"\0\x01\x4F\xFF\0\0\0\x04\0\x01\x01\0\0\0\0\x02"),
    Row::Gives(Call::Readv, [0, AT, 2], 1),
    Row::Holds(TAIL_END - 2, b"\0j"),
    Row::Holds(0x1_0100, b"abc\0"),
    Row::Puts(AT, b"\0\x01\x20\0\0\0\0\x01\0\x01\x01\0\0\0\0\x02"),
    Row::Fails(Call::Readv, [0, AT, 2], Errno::EFAULT),
    Row::Puts(AT, b"\0\x01\x01\0\x7F\xFF\xFF\xFF\0\x01\x01\0\0\0\0\x01"),
    Row::Fails(Call::Readv, [0, AT, 2], Errno::EINVAL),
    Row::Fails(Call::Readv, [0, CONST_END - 4, 1], Errno::EFAULT),
    Row::Fails(Call::Readv, [0, CONST_END - 8, 2], Errno::EFAULT),
    Row::Fails(Call::Readv, [0, AT, 1025], Errno::EINVAL),
    Row::Fails(Call::Readv, [9, AT, 1025], Errno::EBADF),
    Row::Fails(Call::Readv, [1, CONST_END, 1], Errno::EBADF),
    Row::Gives(Call::Readv, [0, CONST_END, 0], 0),
    Row::GivesTwo(Call::Pipe, [0, 0, 0], 3, 4),
    Row::Puts(AT, b"\0\x01\x01\0\0\0\0\x01\0\x01\x01\x40\0\0\0\x04"),
    Row::Waits(Call::Readv, [3, AT, 2], 0),
    Row::Gives(Call::Fcntl, [3, F_SETFL, O_NONBLOCK], 0),
    Row::Fails(Call::Readv, [3, AT, 2], Errno::EAGAIN),
    Row::Holds(0x1_0140, b"defg\0"),
];

#[test]
fn readv(rt: HostRuntime) -> Result<(), Fail> {
    assert_eq!(rt;
        first_wrong(rt.alloc(), b"", b"abcdefghijkl", &READV)?,
        None
    );
    Ok(())
}

/// The same for bytes that are written: `abc` and `defg` to standard output, then two of a buffer that ends on
/// a page that is not there, behind which nothing is written; and a pipe, with one reader and without.
static WRITEV: [Row; 26] = [
    Row::Puts(0x1_0100, b"abcdefg"),
    Row::Puts(
        AT,
        b"\0\x01\x01\0\0\0\0\x03\0\x01\x30\0\0\0\0\0\0\x01\x01\x03\0\0\0\x04",
    ),
    Row::Gives(Call::Writev, [1, AT, 3], 7),
    Row::Puts(AT, b"\0\x01\x2F\xFE\0\0\0\x04\0\x01\x01\0\0\0\0\x02"),
    Row::Gives(Call::Writev, [1, AT, 2], 2),
    Row::Puts(AT, b"\0\x01\x30\0\0\0\0\x01\0\x01\x01\0\0\0\0\x02"),
    Row::Fails(Call::Writev, [1, AT, 2], Errno::EFAULT),
    Row::Puts(AT, b"\0\x01\x01\0\x7F\xFF\xFF\xFF\0\x01\x01\0\0\0\0\x01"),
    Row::Fails(Call::Writev, [1, AT, 2], Errno::EINVAL),
    Row::Fails(Call::Writev, [1, CONST_END - 4, 1], Errno::EFAULT),
    Row::Fails(Call::Writev, [1, AT, 1025], Errno::EINVAL),
    Row::Fails(Call::Writev, [9, AT, 1025], Errno::EBADF),
    Row::Fails(Call::Writev, [0, CONST_END, 1], Errno::EBADF),
    Row::Gives(Call::Writev, [1, CONST_END, 0], 0),
    Row::GivesTwo(Call::Pipe, [0, 0, 0], 3, 4),
    Row::Puts(AT, b"\0\x01\x01\x05\0\0\0\x02\0\x01\x01\0\0\0\0\x02"),
    Row::Gives(Call::Writev, [4, AT, 2], 4),
    Row::Gives(Call::Read, [3, 0x1_0200, 8], 4),
    Row::Holds(0x1_0200, b"fgab\0"),
    Row::Fails(Call::Writev, [3, AT, 2], Errno::EBADF),
    Row::Gives(Call::Close, [3, 0, 0], 0),
    Row::Fails(Call::Writev, [4, AT, 1025], Errno::EINVAL),
    Row::Fails(Call::Writev, [4, CONST_END, 1], Errno::EFAULT),
    Row::Fails(Call::Writev, [4, AT, 2], Errno::EPIPE),
    Row::Signalled(true),
    Row::Written(b"abcdefgd.", b""),
];

#[test]
fn writev(rt: HostRuntime) -> Result<(), Fail> {
    assert_eq!(rt; first_wrong(rt.alloc(), b"", b"", &WRITEV)?, None);
    Ok(())
}
