//! read(2) and write(2), at streams and pipes.

use crate::calls::{Call, Row};
use crate::machine::{AT, CONST, CONST_END, LARGE, TAIL_END, first_wrong};
use crate::numbers::{F_SETFL, O_NONBLOCK};
use kernel_core::Errno;
use std::test::Fail;

/// An input of eight bytes, into buffers that end on a page that is not there, or that can't be stored to; then
/// a pipe without a byte, with two of them, and without a writer.
static READS: [Row; 34] = [
    Row::Gives(Call::Read, [0, AT, 2], 2),
    Row::Holds(AT, b"ab\0"),
    Row::Gives(Call::Read, [0, TAIL_END - 3, 8], 3),
    Row::Holds(TAIL_END - 4, b"\0cde"),
    Row::Gives(Call::Read, [0, CONST - 1, 8], 1),
    Row::Holds(CONST - 2, b"\0f\0"),
    Row::Fails(Call::Read, [0, CONST, 1], Errno::EFAULT),
    Row::Fails(Call::Read, [0, TAIL_END, 1], Errno::EFAULT),
    Row::Fails(Call::Read, [0, 0x7FFF_8000, 1], Errno::EFAULT),
    Row::Gives(Call::Read, [0, CONST, 0], 0),
    Row::Fails(Call::Read, [1, AT, 1], Errno::EBADF),
    Row::Fails(Call::Read, [9, AT, 1], Errno::EBADF),
    Row::Fails(Call::Read, [9, TAIL_END, 1], Errno::EBADF),
    Row::Fails(Call::Read, [u32::MAX, AT, 0], Errno::EBADF),
    Row::Gives(Call::Read, [0, AT, 8], 2),
    Row::Holds(AT, b"gh\0"),
    Row::Gives(Call::Read, [0, AT, 8], 0),
    Row::Fails(Call::Read, [0, TAIL_END, 8], Errno::EFAULT),
    Row::GivesTwo(Call::Pipe, [0, 0, 0], 3, 4),
    Row::Fails(Call::Read, [4, AT, 1], Errno::EBADF),
    Row::Waits(Call::Read, [3, AT, 5], 0),
    Row::Fails(Call::Read, [3, TAIL_END, 5], Errno::EFAULT),
    Row::Gives(Call::Fcntl, [3, F_SETFL, O_NONBLOCK], 0),
    Row::Fails(Call::Read, [3, AT, 5], Errno::EAGAIN),
    Row::Gives(Call::Write, [4, AT, 2], 2),
    Row::Gives(Call::Read, [3, TAIL_END - 1, 8], 1),
    Row::Holds(TAIL_END - 4, b"\0cdg"),
    Row::Gives(Call::Read, [3, AT + 16, 8], 1),
    Row::Holds(AT + 16, b"h\0"),
    Row::Fails(Call::Read, [3, AT, 5], Errno::EAGAIN),
    Row::Holds(AT, b"gh\0"),
    Row::Gives(Call::Close, [4, 0, 0], 0),
    Row::Gives(Call::Read, [3, AT, 5], 0),
    Row::Holds(AT, b"gh\0"),
];

#[test]
fn reads(rt: HostRuntime) -> Result<(), Fail> {
    assert_eq!(rt; first_wrong(rt.alloc(), b"", b"abcdefgh", &READS)?, None);
    Ok(())
}

/// Standard output and error, and a duplicate of the first, from buffers that end on a page that is not there;
/// then a pipe, which is read, and which nobody reads any more. SIGPIPE comes with EPIPE, and not before it.
static WRITES: [Row; 30] = [
    Row::Puts(AT, b"Hi\n?"),
    Row::Gives(Call::Write, [1, AT, 3], 3),
    Row::Gives(Call::Write, [2, AT + 3, 1], 1),
    Row::Gives(Call::Write, [1, CONST_END - 2, 8], 2),
    Row::Gives(Call::Write, [2, CONST_END - 4, 0x7FFF_FFFF], 4),
    Row::Fails(Call::Write, [1, CONST_END, 1], Errno::EFAULT),
    Row::Fails(Call::Write, [2, 0x7FFF_8000, 1], Errno::EFAULT),
    Row::Gives(Call::Write, [1, CONST_END, 0], 0),
    Row::Fails(Call::Write, [0, AT, 1], Errno::EBADF),
    Row::Fails(Call::Write, [9, AT, 1], Errno::EBADF),
    Row::Fails(Call::Write, [9, CONST_END, 0], Errno::EBADF),
    Row::Gives(Call::Dup, [1, 0, 0], 3),
    Row::Gives(Call::Close, [1, 0, 0], 0),
    Row::Gives(Call::Write, [3, AT, 1], 1),
    Row::Fails(Call::Write, [1, AT, 1], Errno::EBADF),
    Row::GivesTwo(Call::Pipe, [0, 0, 0], 1, 4),
    Row::Fails(Call::Write, [1, AT, 1], Errno::EBADF),
    Row::Gives(Call::Write, [4, CONST_END - 2, 8], 2),
    Row::Gives(Call::Write, [4, AT, 2], 2),
    Row::Fails(Call::Write, [4, CONST_END, 8], Errno::EFAULT),
    Row::Gives(Call::Read, [1, AT + 16, 8], 4),
    Row::Holds(AT + 16, b"d.Hi\0"),
    Row::Gives(Call::Close, [1, 0, 0], 0),
    Row::Gives(Call::Write, [4, AT, 0], 0),
    Row::Fails(Call::Write, [4, CONST_END, 1], Errno::EFAULT),
    Row::Gives(Call::Write, [2, AT, 1], 1),
    Row::Written(b"Hi\nd.H", b"?end.H"),
    Row::Signalled(false),
    Row::Fails(Call::Write, [4, AT, 1], Errno::EPIPE),
    Row::Signalled(true),
];

#[test]
fn writes(rt: HostRuntime) -> Result<(), Fail> {
    assert_eq!(rt; first_wrong(rt.alloc(), b"", b"", &WRITES)?, None);
    Ok(())
}

/// A pipe has room for 65,536 bytes. A write of at most 4096 goes whole or waits, and one of more goes as far as
/// there is room.
static FULL_PIPE: [Row; 18] = [
    Row::GivesTwo(Call::Pipe, [0, 0, 0], 3, 4),
    Row::Waits(Call::Write, [4, LARGE, 70_000], 65_536),
    Row::Waits(Call::Write, [4, LARGE, 1], 0),
    Row::Puts(AT, b"\0\x02\0\0\0\0\0\x01"),
    Row::Waits(Call::Writev, [4, AT, 1], 0),
    Row::Gives(Call::Read, [3, LARGE, 4095], 4095),
    Row::Waits(Call::Write, [4, LARGE, 4096], 0),
    Row::Waits(Call::Write, [4, LARGE, 4097], 4095),
    Row::Gives(Call::Read, [3, LARGE, 4095], 4095),
    Row::Gives(Call::Write, [4, LARGE, 4095], 4095),
    Row::Gives(Call::Fcntl, [4, F_SETFL, O_NONBLOCK], 0),
    Row::Fails(Call::Write, [4, LARGE, 1], Errno::EAGAIN),
    Row::Fails(Call::Writev, [4, AT, 1], Errno::EAGAIN),
    Row::Fails(Call::Write, [4, LARGE, 4097], Errno::EAGAIN),
    Row::Gives(Call::Read, [3, LARGE, 100], 100),
    Row::Fails(Call::Write, [4, LARGE, 4096], Errno::EAGAIN),
    Row::Gives(Call::Write, [4, LARGE, 4097], 100),
    Row::Gives(Call::Read, [3, LARGE, 70_000], 65_536),
];

#[test]
fn full_pipe(rt: HostRuntime) -> Result<(), Fail> {
    assert_eq!(rt; first_wrong(rt.alloc(), b"", b"", &FULL_PIPE)?, None);
    Ok(())
}
