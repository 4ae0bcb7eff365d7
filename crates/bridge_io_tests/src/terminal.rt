//! ioctl(2).

use crate::calls::{Call, Row};
use crate::machine::{AT, CONST, CONST_END, TAIL_END, first_wrong};
use crate::numbers::{
    F_GETFD, F_GETFL, FD_CLOEXEC, FIOCLEX, FIONBIO, FIONCLEX, FIONREAD, O_NONBLOCK, OTHER_TCGETS,
    TCGETS, TCSETS, TCSETSF, TCSETSW, TIOCGWINSZ,
};
use kernel_core::Errno;
use std::test::Fail;

/// A terminal of 24 rows and 80 columns, whose settings are zeros at first. Of the 23 characters of settings
/// the 64-bit kernel has no place for the one at 11 and those from 18 on, so they are 0 when the settings are
/// read again.
static TERMINAL: [Row; 26] = [
    Row::Gives(Call::Ioctl, [0, TIOCGWINSZ, AT], 0),
    Row::Holds(AT, b"\0\x18\0\x50\0\0\0\0"),
    Row::Gives(Call::Ioctl, [0, TCGETS, AT], 0),
    Row::Holds(AT, b"\0\0\0\0\0\0\0\0"),
    Row::Puts(
        AT,
        b"\0\0\x01\x02\0\0\x03\x04\0\0\x05\x06\0\0\x07\x08\x09\x11\x12\x13\x14\x15\x16\x17\x18\x19\x1A\x1B\x1C\x1D\x1E\x1F\x20\x21\x22\x23\x24\x25\x26\x27",
    ),
    Row::Gives(Call::Ioctl, [1, TCSETS, AT], 0),
    Row::Gives(Call::Ioctl, [0, TCGETS, AT + 64], 0),
    Row::Holds(
        AT + 64,
        b"\0\0\x01\x02\0\0\x03\x04\0\0\x05\x06\0\0\x07\x08\x09\x11\x12\x13\x14\x15\x16\x17\x18\x19\x1A\x1B\0\x1D\x1E\x1F\x20\x21\x22\0\0\0\0\0",
    ),
    Row::Puts(AT + 16, b"\x0A"),
    Row::Gives(Call::Ioctl, [2, TCSETSW, AT], 0),
    Row::Gives(Call::Ioctl, [0, TCGETS, AT + 64], 0),
    Row::Holds(AT + 80, b"\x0A\x11"),
    Row::Puts(AT + 16, b"\x0B"),
    Row::Gives(Call::Ioctl, [2, TCSETSF, AT], 0),
    Row::Gives(Call::Ioctl, [0, TCGETS, AT + 64], 0),
    Row::Holds(AT + 80, b"\x0B\x11"),
    Row::Fails(Call::Ioctl, [0, TCGETS, CONST - 39], Errno::EFAULT),
    Row::Holds(CONST - 39, b"\0\0\0\0\0\0\0\0"),
    Row::Fails(Call::Ioctl, [0, TIOCGWINSZ, TAIL_END - 7], Errno::EFAULT),
    Row::Holds(TAIL_END - 7, b"\0\0\0\0\0\0\0"),
    Row::Fails(Call::Ioctl, [0, TCSETS, CONST_END - 39], Errno::EFAULT),
    Row::Fails(Call::Ioctl, [0, TCSETSW, CONST_END - 39], Errno::EFAULT),
    Row::Fails(Call::Ioctl, [0, TCSETSF, CONST_END - 39], Errno::EFAULT),
    Row::Gives(Call::Ioctl, [0, TCGETS, AT + 128], 0),
    Row::Holds(
        AT + 128,
        b"\0\0\x01\x02\0\0\x03\x04\0\0\x05\x06\0\0\x07\x08\x0B\x11",
    ),
    Row::Fails(Call::Ioctl, [0, FIONREAD, AT], Errno::ENOTTY),
];

/// Without a terminal; and a pipe, with three bytes in it.
static NO_TERMINAL: [Row; 37] = [
    Row::Fails(Call::Ioctl, [1, TIOCGWINSZ, AT], Errno::ENOTTY),
    Row::Fails(Call::Ioctl, [0, TCGETS, TAIL_END], Errno::ENOTTY),
    Row::Fails(Call::Ioctl, [0, TCSETS, CONST_END], Errno::ENOTTY),
    Row::Fails(Call::Ioctl, [0, TCSETSW, CONST_END], Errno::ENOTTY),
    Row::Fails(Call::Ioctl, [0, TCSETSF, CONST_END], Errno::ENOTTY),
    Row::Fails(Call::Ioctl, [9, TIOCGWINSZ, TAIL_END], Errno::EBADF),
    Row::Fails(Call::Ioctl, [9, TCSETS, CONST_END], Errno::EBADF),
    Row::Fails(Call::Ioctl, [9, TCSETSW, CONST_END], Errno::EBADF),
    Row::Fails(Call::Ioctl, [9, TCSETSF, CONST_END], Errno::EBADF),
    Row::Fails(Call::Ioctl, [9, TCGETS, TAIL_END], Errno::EBADF),
    Row::Fails(Call::Ioctl, [9, FIONREAD, TAIL_END], Errno::EBADF),
    Row::Fails(Call::Ioctl, [9, FIONBIO, CONST_END], Errno::EBADF),
    Row::Fails(Call::Ioctl, [9, FIONCLEX, CONST_END], Errno::EBADF),
    Row::Fails(Call::Ioctl, [0, OTHER_TCGETS, AT], Errno::ENOTTY),
    Row::Fails(Call::Ioctl, [9, OTHER_TCGETS, AT], Errno::EBADF),
    Row::GivesTwo(Call::Pipe, [0, 0, 0], 3, 4),
    Row::Fails(Call::Ioctl, [3, TCGETS, AT], Errno::ENOTTY),
    Row::Gives(Call::Write, [4, CONST_END - 3, 8], 3),
    Row::Gives(Call::Ioctl, [3, FIONREAD, AT], 0),
    Row::Holds(AT, b"\0\0\0\x03\0"),
    Row::Puts(AT, b"\x01\x02\x03\x04"),
    Row::Gives(Call::Ioctl, [4, FIONREAD, AT], 0),
    Row::Holds(AT, b"\0\0\0\x03\0"),
    Row::Fails(Call::Ioctl, [3, FIONREAD, TAIL_END - 3], Errno::EFAULT),
    Row::Holds(TAIL_END - 3, b"\0\0\0"),
    Row::Puts(AT, b"\x01\0\0\0"),
    Row::Gives(Call::Ioctl, [3, FIONBIO, AT], 0),
    Row::Gives(Call::Fcntl, [3, F_GETFL, 0], O_NONBLOCK),
    Row::Gives(Call::Ioctl, [3, FIONBIO, AT + 1], 0),
    Row::Gives(Call::Fcntl, [3, F_GETFL, 0], 0),
    Row::Fails(Call::Ioctl, [3, FIONBIO, CONST_END - 3], Errno::EFAULT),
    Row::Gives(Call::Fcntl, [3, F_GETFL, 0], 0),
    Row::Gives(Call::Ioctl, [3, FIOCLEX, CONST_END], 0),
    Row::Gives(Call::Fcntl, [3, F_GETFD, 0], FD_CLOEXEC),
    Row::Gives(Call::Ioctl, [3, FIONCLEX, CONST_END], 0),
    Row::Gives(Call::Fcntl, [3, F_GETFD, 0], 0),
    Row::Fails(Call::Ioctl, [9, FIOCLEX, CONST_END], Errno::EBADF),
];

#[test]
fn terminal(rt: HostRuntime) -> Result<(), Fail> {
    assert_eq!(rt;
        first_wrong(rt.alloc(), b"tty 24 80\n", b"", &TERMINAL)?,
        None
    );
    Ok(())
}

#[test]
fn no_terminal(rt: HostRuntime) -> Result<(), Fail> {
    assert_eq!(rt; first_wrong(rt.alloc(), b"", b"", &NO_TERMINAL)?, None);
    Ok(())
}
