//! What calls leave in the log of effects: the bytes that they store and send, each once.

use crate::calls::{Call, Row};
use crate::machine::{AT, CONST_END, TAIL_END, first_wrong};
use crate::numbers::{FIONREAD, O_CLOEXEC};
use kernel_core::Errno;
use std::test::Fail;

/// A call that fails or waits stores and sends nothing, nor does one that moves no byte of memory and of no
/// output.
static EFFECTS: [Row; 33] = [
    Row::Puts(
        AT,
        b"Hi\n\0\0\x01\x01\0\0\0\0\x03\0\x01\x20\0\0\0\0\0\0\x01\x01\x40\0\0\0\x04",
    ),
    Row::Gives(Call::Write, [1, AT, 3], 3),
    Row::Sends(1, b"Hi\n"),
    Row::Gives(Call::Write, [2, CONST_END - 2, 8], 2),
    Row::Sends(2, b"d."),
    Row::Gives(Call::Write, [1, AT, 0], 0),
    Row::Fails(Call::Write, [1, CONST_END, 1], Errno::EFAULT),
    Row::Gives(Call::Read, [0, TAIL_END - 3, 8], 3),
    Row::Stores(TAIL_END - 3, b"abc"),
    Row::Gives(Call::Readv, [0, AT + 4, 3], 7),
    Row::Stores(0x1_0100, b"def"),
    Row::Stores(0x1_0140, b"ghij"),
    Row::Gives(Call::Read, [0, AT, 8], 0),
    Row::Fails(Call::Read, [1, AT, 8], Errno::EBADF),
    Row::GivesTwo(Call::Pipe, [AT + 64, 0, 0], 3, 4),
    Row::Waits(Call::Read, [3, AT, 8], 0),
    Row::Gives(Call::Write, [4, AT, 2], 2),
    Row::Gives(Call::Ioctl, [3, FIONREAD, AT + 64], 0),
    Row::Stores(AT + 64, b"\0\0\0\x02"),
    Row::Fails(Call::Ioctl, [3, FIONREAD, TAIL_END - 3], Errno::EFAULT),
    Row::Gives(Call::Read, [3, AT + 64, 1], 1),
    Row::Stores(AT + 64, b"H"),
    Row::Gives(Call::Pipe2, [AT + 64, O_CLOEXEC, 0], 0),
    Row::Stores(AT + 64, b"\0\0\0\x05\0\0\0\x06"),
    Row::Fails(Call::Pipe2, [TAIL_END - 7, 0, 0], Errno::EFAULT),
    Row::Gives(Call::Writev, [2, AT + 4, 3], 7),
    Row::Sends(2, b"defghij"),
    Row::Gives(Call::Dup2, [1, 8, 0], 8),
    Row::Gives(Call::Write, [8, AT, 1], 1),
    Row::Sends(1, b"H"),
    Row::Gives(Call::Close, [3, 0, 0], 0),
    Row::Fails(Call::Write, [4, AT, 1], Errno::EPIPE),
    Row::NoEffect,
];

#[test]
fn effects(rt: HostRuntime) -> Result<(), Fail> {
    assert_eq!(rt;
        first_wrong(rt.alloc(), b"", b"abcdefghij", &EFFECTS)?,
        None
    );
    Ok(())
}
