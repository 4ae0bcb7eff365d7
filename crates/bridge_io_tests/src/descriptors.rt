//! close(2), dup(2), dup2(2), dup3(2) and fcntl(2).

use crate::calls::{Call, Row};
use crate::machine::{AT, CONST_END, first_wrong};
use crate::numbers::{
    F_DUPFD, F_DUPFD_CLOEXEC, F_GETFD, F_GETFL, F_GETLK, F_SETFD, F_SETFL, FD_CLOEXEC, O_APPEND,
    O_CLOEXEC, O_LARGEFILE, O_NONBLOCK, O_WRONLY, OTHER_NONBLOCK,
};
use kernel_core::Errno;
use std::test::Fail;

/// dup2(2) onto itself changes nothing, and onto another one closes that; dup3(2) refuses the first.
static DUPLICATES: [Row; 38] = [
    Row::Gives(Call::Dup, [1, 0, 0], 3),
    Row::Fails(Call::Dup, [9, 0, 0], Errno::EBADF),
    Row::Gives(Call::Close, [3, 0, 0], 0),
    Row::Fails(Call::Close, [3, 0, 0], Errno::EBADF),
    Row::Fails(Call::Close, [u32::MAX, 0, 0], Errno::EBADF),
    Row::Gives(Call::Dup2, [1, 7, 0], 7),
    Row::Gives(Call::Fcntl, [7, F_SETFD, FD_CLOEXEC], 0),
    Row::Gives(Call::Dup2, [7, 7, 0], 7),
    Row::Gives(Call::Fcntl, [7, F_GETFD, 0], FD_CLOEXEC),
    Row::Gives(Call::Dup2, [2, 7, 0], 7),
    Row::Gives(Call::Fcntl, [7, F_GETFD, 0], 0),
    Row::Fails(Call::Dup2, [9, 9, 0], Errno::EBADF),
    Row::Fails(Call::Dup2, [9, 7, 0], Errno::EBADF),
    Row::Fails(Call::Dup2, [0, 1024, 0], Errno::EBADF),
    Row::Puts(AT, b"e"),
    Row::Gives(Call::Write, [7, AT, 1], 1),
    Row::Gives(Call::Dup2, [0, 1023, 0], 1023),
    Row::Gives(Call::Dup3, [1, 6, O_CLOEXEC], 6),
    Row::Gives(Call::Fcntl, [6, F_GETFD, 0], FD_CLOEXEC),
    Row::Gives(Call::Dup3, [1, 6, 0], 6),
    Row::Gives(Call::Fcntl, [6, F_GETFD, 0], 0),
    Row::Fails(Call::Dup3, [1, 1, 0], Errno::EINVAL),
    Row::Fails(Call::Dup3, [9, 9, 0], Errno::EBADF),
    Row::Fails(Call::Dup3, [9, 1, 0], Errno::EBADF),
    Row::Fails(Call::Dup3, [1, 1024, O_NONBLOCK], Errno::EBADF),
    Row::Fails(Call::Dup3, [1, 5, O_NONBLOCK], Errno::EINVAL),
    Row::Fails(Call::Close, [5, 0, 0], Errno::EBADF),
    Row::GivesTwo(Call::Pipe, [0, 0, 0], 3, 4),
    Row::Waits(Call::Read, [3, AT, 1], 0),
    Row::Gives(Call::Dup2, [1, 4, 0], 4),
    Row::Gives(Call::Read, [3, AT, 1], 0),
    Row::Gives(Call::Write, [4, AT, 1], 1),
    Row::GivesTwo(Call::Pipe, [0, 0, 0], 5, 8),
    Row::Gives(Call::Dup3, [8, 1, 0], 1),
    Row::Gives(Call::Close, [8, 0, 0], 0),
    Row::Gives(Call::Write, [1, AT, 1], 1),
    Row::Gives(Call::Read, [5, AT, 8], 1),
    Row::Written(b"e", b"e"),
];

#[test]
fn duplicates(rt: HostRuntime) -> Result<(), Fail> {
    assert_eq!(rt; first_wrong(rt.alloc(), b"", b"", &DUPLICATES)?, None);
    Ok(())
}

/// The streams are open with O_LARGEFILE. F_SETFL sets O_APPEND and O_NONBLOCK alone.
static COMMANDS: [Row; 29] = [
    Row::Gives(Call::Fcntl, [0, F_DUPFD, 10], 10),
    Row::Gives(Call::Fcntl64, [0, F_DUPFD_CLOEXEC, 10], 11),
    Row::Gives(Call::Fcntl, [10, F_GETFD, 0], 0),
    Row::Gives(Call::Fcntl64, [11, F_GETFD, 0], FD_CLOEXEC),
    Row::Fails(Call::Fcntl, [0, F_DUPFD, 1024], Errno::EINVAL),
    Row::Fails(Call::Fcntl64, [0, F_DUPFD, u32::MAX], Errno::EINVAL),
    Row::Fails(Call::Fcntl, [0, F_DUPFD_CLOEXEC, 1024], Errno::EINVAL),
    Row::Fails(Call::Fcntl, [9, F_DUPFD_CLOEXEC, 0], Errno::EBADF),
    Row::Fails(Call::Fcntl, [9, F_DUPFD, 1024], Errno::EBADF),
    Row::Gives(Call::Fcntl, [11, F_SETFD, 0], 0),
    Row::Gives(Call::Fcntl, [11, F_GETFD, 0], 0),
    Row::Gives(Call::Fcntl64, [11, F_SETFD, 3], 0),
    Row::Gives(Call::Fcntl64, [11, F_GETFD, 0], FD_CLOEXEC),
    Row::Fails(Call::Fcntl, [9, F_GETFD, 0], Errno::EBADF),
    Row::Fails(Call::Fcntl, [9, F_SETFD, 0], Errno::EBADF),
    Row::Gives(Call::Fcntl, [0, F_GETFL, 0], O_LARGEFILE),
    Row::Gives(Call::Fcntl64, [1, F_GETFL, 0], O_LARGEFILE + O_WRONLY),
    Row::Gives(
        Call::Fcntl,
        [1, F_SETFL, O_APPEND + O_NONBLOCK + O_CLOEXEC + 2],
        0,
    ),
    Row::Gives(
        Call::Fcntl,
        [1, F_GETFL, 0],
        O_LARGEFILE + O_WRONLY + O_APPEND + O_NONBLOCK,
    ),
    Row::Gives(Call::Fcntl64, [1, F_SETFL, O_APPEND], 0),
    Row::Gives(
        Call::Fcntl64,
        [1, F_GETFL, 0],
        O_LARGEFILE + O_WRONLY + O_APPEND,
    ),
    Row::Gives(Call::Fcntl, [1, F_SETFL, OTHER_NONBLOCK], 0),
    Row::Gives(Call::Fcntl, [1, F_GETFL, 0], O_LARGEFILE + O_WRONLY),
    Row::Fails(Call::Fcntl, [9, F_GETFL, 0], Errno::EBADF),
    Row::Fails(Call::Fcntl64, [9, F_SETFL, 0], Errno::EBADF),
    Row::Fails(Call::Fcntl, [0, F_GETLK, AT], Errno::EINVAL),
    Row::Fails(Call::Fcntl64, [0, 99, 0], Errno::EINVAL),
    Row::Fails(Call::Fcntl64, [9, 99, 0], Errno::EBADF),
    Row::Gives(Call::Close, [11, 0, 0], 0),
];

/// With all descriptors open; then 7 and 8 are closed, of which the first alone is not enough for a pipe, and
/// is free again after it.
static NO_DESCRIPTOR: [Row; 15] = [
    Row::OpensAll,
    Row::Fails(Call::Dup, [0, 0, 0], Errno::EMFILE),
    Row::Fails(Call::Dup, [1024, 0, 0], Errno::EBADF),
    Row::Fails(Call::Fcntl, [0, F_DUPFD, 0], Errno::EMFILE),
    Row::Fails(Call::Fcntl64, [0, F_DUPFD_CLOEXEC, 1023], Errno::EMFILE),
    Row::Fails(Call::Pipe, [0, 0, 0], Errno::EMFILE),
    Row::Fails(Call::Pipe2, [CONST_END, 0, 0], Errno::EMFILE),
    Row::Fails(Call::Pipe2, [CONST_END, OTHER_NONBLOCK, 0], Errno::EINVAL),
    Row::Gives(Call::Close, [7, 0, 0], 0),
    Row::Fails(Call::Pipe, [0, 0, 0], Errno::EMFILE),
    Row::Fails(Call::Pipe2, [AT, 0, 0], Errno::EMFILE),
    Row::Fails(Call::Fcntl, [0, F_DUPFD, 8], Errno::EMFILE),
    Row::Gives(Call::Close, [8, 0, 0], 0),
    Row::GivesTwo(Call::Pipe, [0, 0, 0], 7, 8),
    Row::Gives(Call::Dup2, [0, 1023, 0], 1023),
];

#[test]
fn commands(rt: HostRuntime) -> Result<(), Fail> {
    assert_eq!(rt; first_wrong(rt.alloc(), b"", b"", &COMMANDS)?, None);
    Ok(())
}

#[test]
fn no_descriptor(rt: HostRuntime) -> Result<(), Fail> {
    assert_eq!(rt; first_wrong(rt.alloc(), b"", b"", &NO_DESCRIPTOR)?, None);
    Ok(())
}
