//! The tables of an o32 program, with offsets, widths and sizes as the headers of Linux `arch/mips` have them.

use super::Kind::*;
use super::{Row, first_wrong};
use layouts::field_index::{
    dirent, dirent64, frame, iovec, itimerval, pollfd, rlimit, rt_frame, rt_frame_fault, sigaction,
    sigcontext, siginfo, siginfo_fault, stack, stat, termios, timespec, timeval, utsname, winsize,
};
use layouts::*;

static STAT: [Row; 16] = [
    (stat::DEV, 0, Word, 1),
    (stat::INO, 16, Word, 1),
    (stat::MODE, 20, Word, 1),
    (stat::NLINK, 24, Word, 1),
    (stat::UID, 28, Word, 1),
    (stat::GID, 32, Word, 1),
    (stat::RDEV, 36, Word, 1),
    (stat::SIZE, 48, SignedWord, 1),
    (stat::ATIME, 56, SignedWord, 1),
    (stat::ATIME_NS, 60, Word, 1),
    (stat::MTIME, 64, SignedWord, 1),
    (stat::MTIME_NS, 68, Word, 1),
    (stat::CTIME, 72, SignedWord, 1),
    (stat::CTIME_NS, 76, Word, 1),
    (stat::BLKSIZE, 80, Word, 1),
    (stat::BLOCKS, 84, Word, 1),
];

static STAT64: [Row; 16] = [
    (stat::DEV, 0, Word, 1),
    (stat::INO, 16, Double, 1),
    (stat::MODE, 24, Word, 1),
    (stat::NLINK, 28, Word, 1),
    (stat::UID, 32, Word, 1),
    (stat::GID, 36, Word, 1),
    (stat::RDEV, 40, Word, 1),
    (stat::SIZE, 56, Double, 1),
    (stat::ATIME, 64, SignedWord, 1),
    (stat::ATIME_NS, 68, Word, 1),
    (stat::MTIME, 72, SignedWord, 1),
    (stat::MTIME_NS, 76, Word, 1),
    (stat::CTIME, 80, SignedWord, 1),
    (stat::CTIME_NS, 84, Word, 1),
    (stat::BLKSIZE, 88, Word, 1),
    (stat::BLOCKS, 96, Double, 1),
];

static DIRENT: [Row; 3] = [
    (dirent::INO, 0, Word, 1),
    (dirent::OFF, 4, Word, 1),
    (dirent::RECLEN, 8, Short, 1),
];

static DIRENT64: [Row; 4] = [
    (dirent64::INO, 0, Double, 1),
    (dirent64::OFF, 8, Double, 1),
    (dirent64::RECLEN, 16, Short, 1),
    (dirent64::KIND, 18, Byte, 1),
];

static IOVEC: [Row; 2] = [(iovec::BASE, 0, Word, 1), (iovec::LENGTH, 4, Word, 1)];

static TIMESPEC: [Row; 2] = [
    (timespec::SECONDS, 0, SignedWord, 1),
    (timespec::NANOSECONDS, 4, SignedWord, 1),
];

static TIMEVAL: [Row; 2] = [
    (timeval::SECONDS, 0, SignedWord, 1),
    (timeval::MICROSECONDS, 4, SignedWord, 1),
];

static RLIMIT: [Row; 2] = [(rlimit::SOFT, 0, Word, 1), (rlimit::HARD, 4, Word, 1)];

static ITIMERVAL: [Row; 4] = [
    (itimerval::INTERVAL_SECONDS, 0, SignedWord, 1),
    (itimerval::INTERVAL_MICROSECONDS, 4, SignedWord, 1),
    (itimerval::VALUE_SECONDS, 8, SignedWord, 1),
    (itimerval::VALUE_MICROSECONDS, 12, SignedWord, 1),
];

static RLIMIT64: [Row; 2] = [(rlimit::SOFT, 0, Double, 1), (rlimit::HARD, 8, Double, 1)];

static POLLFD: [Row; 3] = [
    (pollfd::FD, 0, SignedWord, 1),
    (pollfd::EVENTS, 4, Short, 1),
    (pollfd::REVENTS, 6, Short, 1),
];

static WINSIZE: [Row; 4] = [
    (winsize::ROWS, 0, Short, 1),
    (winsize::COLUMNS, 2, Short, 1),
    (winsize::X_PIXELS, 4, Short, 1),
    (winsize::Y_PIXELS, 6, Short, 1),
];

static UTSNAME: [Row; 12] = [
    (utsname::SYSNAME, 0, Double, 8),
    (utsname::SYSNAME + 8, 64, Byte, 1),
    (utsname::NODENAME, 65, Double, 8),
    (utsname::NODENAME + 8, 129, Byte, 1),
    (utsname::RELEASE, 130, Double, 8),
    (utsname::RELEASE + 8, 194, Byte, 1),
    (utsname::VERSION, 195, Double, 8),
    (utsname::VERSION + 8, 259, Byte, 1),
    (utsname::MACHINE, 260, Double, 8),
    (utsname::MACHINE + 8, 324, Byte, 1),
    (utsname::DOMAINNAME, 325, Double, 8),
    (utsname::DOMAINNAME + 8, 389, Byte, 1),
];

static TERMIOS: [Row; 6] = [
    (termios::INPUT_FLAGS, 0, Word, 1),
    (termios::OUTPUT_FLAGS, 4, Word, 1),
    (termios::CONTROL_FLAGS, 8, Word, 1),
    (termios::LOCAL_FLAGS, 12, Word, 1),
    (termios::LINE, 16, Byte, 1),
    (termios::CHARACTERS, 17, Byte, 23),
];

static SIGACTION: [Row; 3] = [
    (sigaction::FLAGS, 0, Word, 1),
    (sigaction::HANDLER, 4, Word, 1),
    (sigaction::MASK, 8, Word, 4),
];

static STACK: [Row; 3] = [
    (stack::SP, 0, Word, 1),
    (stack::SIZE, 4, Word, 1),
    (stack::FLAGS, 8, Word, 1),
];

static SIGINFO: [Row; 6] = [
    (siginfo::SIGNO, 0, SignedWord, 1),
    (siginfo::CODE, 4, SignedWord, 1),
    (siginfo::ERRNO, 8, SignedWord, 1),
    (siginfo::PID, 12, Word, 1),
    (siginfo::UID, 16, Word, 1),
    (siginfo::VALUE, 20, Word, 1),
];

static SIGINFO_FAULT: [Row; 4] = [
    (siginfo_fault::SIGNO, 0, SignedWord, 1),
    (siginfo_fault::CODE, 4, SignedWord, 1),
    (siginfo_fault::ERRNO, 8, SignedWord, 1),
    (siginfo_fault::ADDRESS, 12, Word, 1),
];

static SIGCONTEXT: [Row; 4] = [
    (sigcontext::PC, 8, SignedDouble, 1),
    (sigcontext::REGISTERS, 16, SignedDouble, 32),
    (sigcontext::HI, 552, SignedDouble, 1),
    (sigcontext::LO, 560, SignedDouble, 1),
];

static FRAME: [Row; 5] = [
    (frame::PC, 32, SignedDouble, 1),
    (frame::REGISTERS, 40, SignedDouble, 32),
    (frame::HI, 576, SignedDouble, 1),
    (frame::LO, 584, SignedDouble, 1),
    (frame::MASK, 616, Word, 4),
];

static RT_FRAME: [Row; 14] = [
    (rt_frame::SIGNO, 24, SignedWord, 1),
    (rt_frame::CODE, 28, SignedWord, 1),
    (rt_frame::ERRNO, 32, SignedWord, 1),
    (rt_frame::PID, 36, Word, 1),
    (rt_frame::UID, 40, Word, 1),
    (rt_frame::VALUE, 44, Word, 1),
    (rt_frame::STACK_SP, 160, Word, 1),
    (rt_frame::STACK_SIZE, 164, Word, 1),
    (rt_frame::STACK_FLAGS, 168, Word, 1),
    (rt_frame::PC, 184, SignedDouble, 1),
    (rt_frame::REGISTERS, 192, SignedDouble, 32),
    (rt_frame::HI, 728, SignedDouble, 1),
    (rt_frame::LO, 736, SignedDouble, 1),
    (rt_frame::MASK, 768, Word, 4),
];

static RT_FRAME_FAULT: [Row; 12] = [
    (rt_frame_fault::SIGNO, 24, SignedWord, 1),
    (rt_frame_fault::CODE, 28, SignedWord, 1),
    (rt_frame_fault::ERRNO, 32, SignedWord, 1),
    (rt_frame_fault::ADDRESS, 36, Word, 1),
    (rt_frame_fault::STACK_SP, 160, Word, 1),
    (rt_frame_fault::STACK_SIZE, 164, Word, 1),
    (rt_frame_fault::STACK_FLAGS, 168, Word, 1),
    (rt_frame_fault::PC, 184, SignedDouble, 1),
    (rt_frame_fault::REGISTERS, 192, SignedDouble, 32),
    (rt_frame_fault::HI, 728, SignedDouble, 1),
    (rt_frame_fault::LO, 736, SignedDouble, 1),
    (rt_frame_fault::MASK, 768, Word, 4),
];

#[test]
fn o32_tables(rt: HostRuntime) {
    assert_eq!(rt; first_wrong(&O32_STAT, 144, true, &STAT), None);
    assert_eq!(rt; first_wrong(&O32_STAT64, 104, true, &STAT64), None);
    assert_eq!(rt; first_wrong(&O32_DIRENT, 10, true, &DIRENT), None);
    assert_eq!(rt; first_wrong(&O32_DIRENT64, 19, true, &DIRENT64), None);
    assert_eq!(rt; first_wrong(&O32_IOVEC, 8, true, &IOVEC), None);
    assert_eq!(rt; first_wrong(&O32_TIMESPEC, 8, true, &TIMESPEC), None);
    assert_eq!(rt; first_wrong(&O32_TIMEVAL, 8, true, &TIMEVAL), None);
    assert_eq!(rt; first_wrong(&O32_RLIMIT, 8, true, &RLIMIT), None);
    assert_eq!(rt; first_wrong(&O32_ITIMERVAL, 16, true, &ITIMERVAL), None);
    assert_eq!(rt; first_wrong(&O32_RLIMIT64, 16, true, &RLIMIT64), None);
    assert_eq!(rt; first_wrong(&O32_POLLFD, 8, true, &POLLFD), None);
    assert_eq!(rt; first_wrong(&O32_WINSIZE, 8, true, &WINSIZE), None);
    assert_eq!(rt; first_wrong(&O32_UTSNAME, 390, true, &UTSNAME), None);
    assert_eq!(rt; first_wrong(&O32_TERMIOS, 40, true, &TERMIOS), None);
    assert_eq!(rt; first_wrong(&O32_SIGACTION, 24, true, &SIGACTION), None);
    assert_eq!(rt; first_wrong(&O32_STACK, 12, true, &STACK), None);
    assert_eq!(rt; first_wrong(&O32_SIGINFO, 128, true, &SIGINFO), None);
    assert_eq!(rt;
        first_wrong(&O32_SIGINFO_FAULT, 128, true, &SIGINFO_FAULT),
        None
    );
    assert_eq!(rt; first_wrong(&O32_SIGCONTEXT, 592, true, &SIGCONTEXT), None);
    assert_eq!(rt; first_wrong(&O32_FRAME, 632, true, &FRAME), None);
    assert_eq!(rt; first_wrong(&O32_RT_FRAME, 784, true, &RT_FRAME), None);
    assert_eq!(rt;
        first_wrong(&O32_RT_FRAME_FAULT, 784, true, &RT_FRAME_FAULT),
        None
    );
}
