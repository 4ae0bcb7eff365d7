//! pread64(2) and pwrite64(2).

use crate::calls::{Call, Row};
use crate::machine::{AT, CONST_END, first_wrong};
use kernel_core::Errno;
use std::test::Fail;

const PREAD: Call = Call::Pread64(Some(0), Some(0));

const PWRITE: Call = Call::Pwrite64(Some(0), Some(0));

/// At the place -1.
const PREAD_BELOW: Call = Call::Pread64(Some(u32::MAX), Some(u32::MAX));

const PWRITE_BELOW: Call = Call::Pwrite64(Some(u32::MAX), Some(u32::MAX));

/// Streams and pipes have no places.
static NO_PLACES: [Row; 21] = [
    Row::GivesTwo(Call::Pipe, [0, 0, 0], 3, 4),
    Row::Fails(PREAD, [0, AT, 1], Errno::ESPIPE),
    Row::Fails(PREAD, [3, CONST_END, 0], Errno::ESPIPE),
    Row::Fails(PREAD_BELOW, [3, AT, 1], Errno::EINVAL),
    Row::Fails(PREAD, [1, AT, 1], Errno::EBADF),
    Row::Fails(PREAD_BELOW, [4, AT, 1], Errno::EBADF),
    Row::Fails(PREAD, [9, AT, 1], Errno::EBADF),
    Row::Fails(Call::Pread64(None, None), [9, AT, 1], Errno::EFAULT),
    Row::Fails(Call::Pread64(Some(0), None), [9, AT, 1], Errno::EFAULT),
    Row::Fails(Call::Pread64(None, Some(0)), [9, AT, 1], Errno::EFAULT),
    Row::Fails(PWRITE, [1, AT, 1], Errno::ESPIPE),
    Row::Fails(PWRITE, [4, CONST_END, 0], Errno::ESPIPE),
    Row::Fails(PWRITE_BELOW, [4, AT, 1], Errno::EINVAL),
    Row::Fails(PWRITE, [0, AT, 1], Errno::EBADF),
    Row::Fails(PWRITE_BELOW, [3, AT, 1], Errno::EBADF),
    Row::Fails(PWRITE, [9, AT, 1], Errno::EBADF),
    Row::Fails(Call::Pwrite64(None, None), [9, AT, 1], Errno::EFAULT),
    Row::Fails(Call::Pwrite64(Some(0), None), [9, AT, 1], Errno::EFAULT),
    Row::Fails(Call::Pwrite64(None, Some(0)), [9, AT, 1], Errno::EFAULT),
    Row::Gives(Call::Read, [0, AT, 8], 2),
    Row::Written(b"", b""),
];

#[test]
fn no_places(rt: HostRuntime) -> Result<(), Fail> {
    assert_eq!(rt; first_wrong(rt.alloc(), b"", b"xy", &NO_PLACES)?, None);
    Ok(())
}
