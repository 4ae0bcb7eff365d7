//! pipe(2) and pipe2(2).

use crate::calls::{Call, Row};
use crate::machine::{AT, CONST, TAIL_END, first_wrong};
use crate::numbers::{
    F_GETFD, F_GETFL, FD_CLOEXEC, O_CLOEXEC, O_NONBLOCK, O_WRONLY, OTHER_NONBLOCK,
};
use kernel_core::Errno;
use std::test::Fail;

/// pipe(2) stores nothing. Where pipe2(2) can't store its pair whole, the two lowest descriptors are free
/// again.
static PIPES: [Row; 24] = [
    Row::GivesTwo(Call::Pipe, [AT, 0, 0], 3, 4),
    Row::Holds(AT, b"\0\0\0\0\0\0\0\0"),
    Row::Puts(AT, b"ab"),
    Row::Gives(Call::Write, [4, AT, 2], 2),
    Row::Gives(Call::Read, [3, AT + 8, 8], 2),
    Row::Holds(AT + 8, b"ab\0"),
    Row::Waits(Call::Read, [3, AT, 1], 0),
    Row::Gives(Call::Pipe2, [AT, O_CLOEXEC + O_NONBLOCK, 0], 0),
    Row::Holds(AT, b"\0\0\0\x05\0\0\0\x06ab"),
    Row::Gives(Call::Fcntl, [5, F_GETFD, 0], FD_CLOEXEC),
    Row::Gives(Call::Fcntl, [6, F_GETFD, 0], FD_CLOEXEC),
    Row::Gives(Call::Fcntl, [3, F_GETFD, 0], 0),
    Row::Gives(Call::Fcntl, [5, F_GETFL, 0], O_NONBLOCK),
    Row::Gives(Call::Fcntl, [6, F_GETFL, 0], O_NONBLOCK + O_WRONLY),
    Row::Fails(Call::Read, [5, AT, 1], Errno::EAGAIN),
    Row::Gives(Call::Close, [6, 0, 0], 0),
    Row::Gives(Call::Read, [5, AT, 1], 0),
    Row::Fails(Call::Pipe2, [AT, OTHER_NONBLOCK, 0], Errno::EINVAL),
    Row::Fails(Call::Pipe2, [CONST - 4, 0, 0], Errno::EFAULT),
    Row::Holds(CONST - 4, b"\0\0\0\0"),
    Row::Fails(Call::Pipe2, [TAIL_END - 7, 0, 0], Errno::EFAULT),
    Row::Holds(TAIL_END - 7, b"\0\0\0\0\0\0\0"),
    Row::Gives(Call::Dup, [0, 0, 0], 6),
    Row::Gives(Call::Dup, [0, 0, 0], 7),
];

#[test]
fn pipes(rt: HostRuntime) -> Result<(), Fail> {
    assert_eq!(rt; first_wrong(rt.alloc(), b"", b"", &PIPES)?, None);
    Ok(())
}
