//! The tables of the native kernel, with offsets, widths and sizes as the headers of Linux
//! `include/uapi/asm-generic` have them on 64 bits.

use super::Kind::*;
use super::{Row, first_wrong};
use layouts::field_index::{
    dirent64, iovec, itimerval, pollfd, rlimit, sigaction, siginfo, stack, stat, termios, timespec,
    timeval, utsname, winsize,
};
use layouts::*;

static STAT: [Row; 16] = [
    (stat::DEV, 0, Double, 1),
    (stat::INO, 8, Double, 1),
    (stat::MODE, 16, Word, 1),
    (stat::NLINK, 20, Word, 1),
    (stat::UID, 24, Word, 1),
    (stat::GID, 28, Word, 1),
    (stat::RDEV, 32, Double, 1),
    (stat::SIZE, 48, Double, 1),
    (stat::ATIME, 72, SignedDouble, 1),
    (stat::ATIME_NS, 80, Double, 1),
    (stat::MTIME, 88, SignedDouble, 1),
    (stat::MTIME_NS, 96, Double, 1),
    (stat::CTIME, 104, SignedDouble, 1),
    (stat::CTIME_NS, 112, Double, 1),
    (stat::BLKSIZE, 56, Word, 1),
    (stat::BLOCKS, 64, Double, 1),
];

static DIRENT64: [Row; 4] = [
    (dirent64::INO, 0, Double, 1),
    (dirent64::OFF, 8, Double, 1),
    (dirent64::RECLEN, 16, Short, 1),
    (dirent64::KIND, 18, Byte, 1),
];

static IOVEC: [Row; 2] = [(iovec::BASE, 0, Double, 1), (iovec::LENGTH, 8, Double, 1)];

static TIMESPEC: [Row; 2] = [
    (timespec::SECONDS, 0, SignedDouble, 1),
    (timespec::NANOSECONDS, 8, SignedDouble, 1),
];

static TIMEVAL: [Row; 2] = [
    (timeval::SECONDS, 0, SignedDouble, 1),
    (timeval::MICROSECONDS, 8, SignedDouble, 1),
];

static RLIMIT: [Row; 2] = [(rlimit::SOFT, 0, Double, 1), (rlimit::HARD, 8, Double, 1)];

static ITIMERVAL: [Row; 4] = [
    (itimerval::INTERVAL_SECONDS, 0, SignedDouble, 1),
    (itimerval::INTERVAL_MICROSECONDS, 8, SignedDouble, 1),
    (itimerval::VALUE_SECONDS, 16, SignedDouble, 1),
    (itimerval::VALUE_MICROSECONDS, 24, SignedDouble, 1),
];

static POLLFD: [Row; 3] = [
    (pollfd::FD, 0, SignedWord, 1),
    (pollfd::EVENTS, 4, Short, 1),
    (pollfd::REVENTS, 6, Short, 1),
];

static WINSIZE: [Row; 4] = [
    (winsize::ROWS, 0, Short, 1),
    (winsize::COLUMNS, 2, Short, 1),
    (winsize::X_PIXELS, 4, Short, 1),
    (winsize::Y_PIXELS, 6, Short, 1),
];

static UTSNAME: [Row; 12] = [
    (utsname::SYSNAME, 0, Double, 8),
    (utsname::SYSNAME + 8, 64, Byte, 1),
    (utsname::NODENAME, 65, Double, 8),
    (utsname::NODENAME + 8, 129, Byte, 1),
    (utsname::RELEASE, 130, Double, 8),
    (utsname::RELEASE + 8, 194, Byte, 1),
    (utsname::VERSION, 195, Double, 8),
    (utsname::VERSION + 8, 259, Byte, 1),
    (utsname::MACHINE, 260, Double, 8),
    (utsname::MACHINE + 8, 324, Byte, 1),
    (utsname::DOMAINNAME, 325, Double, 8),
    (utsname::DOMAINNAME + 8, 389, Byte, 1),
];

static TERMIOS: [Row; 6] = [
    (termios::INPUT_FLAGS, 0, Word, 1),
    (termios::OUTPUT_FLAGS, 4, Word, 1),
    (termios::CONTROL_FLAGS, 8, Word, 1),
    (termios::LOCAL_FLAGS, 12, Word, 1),
    (termios::LINE, 16, Byte, 1),
    (termios::CHARACTERS, 17, Byte, 19),
];

static SIGACTION: [Row; 3] = [
    (sigaction::HANDLER, 0, Double, 1),
    (sigaction::FLAGS, 8, Double, 1),
    (sigaction::MASK, 16, Double, 2),
];

static STACK: [Row; 3] = [
    (stack::SP, 0, Double, 1),
    (stack::FLAGS, 8, Word, 1),
    (stack::SIZE, 16, Double, 1),
];

static SIGINFO: [Row; 6] = [
    (siginfo::SIGNO, 0, SignedWord, 1),
    (siginfo::ERRNO, 4, SignedWord, 1),
    (siginfo::CODE, 8, SignedWord, 1),
    (siginfo::PID, 16, Word, 1),
    (siginfo::UID, 20, Word, 1),
    (siginfo::VALUE, 24, Double, 1),
];

#[test]
fn native_tables(rt: HostRuntime) {
    assert_eq!(rt; first_wrong(&NAT_STAT, 128, false, &STAT), None);
    assert_eq!(rt; first_wrong(&NAT_DIRENT64, 19, false, &DIRENT64), None);
    assert_eq!(rt; first_wrong(&NAT_IOVEC, 16, false, &IOVEC), None);
    assert_eq!(rt; first_wrong(&NAT_TIMESPEC, 16, false, &TIMESPEC), None);
    assert_eq!(rt; first_wrong(&NAT_TIMEVAL, 16, false, &TIMEVAL), None);
    assert_eq!(rt; first_wrong(&NAT_RLIMIT, 16, false, &RLIMIT), None);
    assert_eq!(rt; first_wrong(&NAT_ITIMERVAL, 32, false, &ITIMERVAL), None);
    assert_eq!(rt; first_wrong(&NAT_POLLFD, 8, false, &POLLFD), None);
    assert_eq!(rt; first_wrong(&NAT_WINSIZE, 8, false, &WINSIZE), None);
    assert_eq!(rt; first_wrong(&NAT_UTSNAME, 390, false, &UTSNAME), None);
    assert_eq!(rt; first_wrong(&NAT_TERMIOS, 36, false, &TERMIOS), None);
    assert_eq!(rt; first_wrong(&NAT_SIGACTION, 32, false, &SIGACTION), None);
    assert_eq!(rt; first_wrong(&NAT_STACK, 24, false, &STACK), None);
    assert_eq!(rt; first_wrong(&NAT_SIGINFO, 128, false, &SIGINFO), None);
}
