//! The structures of the native kernel.
ghost use Rattle.std.specs.Prelude.{◌≡◌};
ghost use Rattle.layouts.specs.Shape.{shape, IsSound};
ghost use Rattle.layouts.specs.Native.{native_shape};

use crate::table::{field, fields};
use crate::{Field, Layout};

/// stat(2): struct stat of Linux `include/uapi/asm-generic/stat.h`.
pub static NAT_STAT: Layout = Layout {
    size: 128,
    big: false,
    fields: fields![
        dev double 0, ino double 8, mode word 16, nlink word 20, uid word 24, gid word 28,
        rdev double 32, size double 48, atime signed_double 72, atime_ns double 80,
        mtime signed_double 88, mtime_ns double 96, ctime signed_double 104, ctime_ns double 112,
        blksize word 56, blocks double 64,
    ],
};

/// getdents64(2): the head of struct linux_dirent64, which the name follows.
pub static NAT_DIRENT64: Layout = Layout {
    size: 19,
    big: false,
    fields: fields![
        ino double 0, off double 8, reclen short 16, kind byte 18,
    ],
};

/// readv(2): struct iovec.
pub static NAT_IOVEC: Layout = Layout {
    size: 16,
    big: false,
    fields: fields![
        base double 0, length double 8,
    ],
};

/// clock_gettime(2): struct timespec.
pub static NAT_TIMESPEC: Layout = Layout {
    size: 16,
    big: false,
    fields: fields![
        seconds signed_double 0, nanoseconds signed_double 8,
    ],
};

/// gettimeofday(2): struct timeval.
pub static NAT_TIMEVAL: Layout = Layout {
    size: 16,
    big: false,
    fields: fields![
        seconds signed_double 0, microseconds signed_double 8,
    ],
};

/// prlimit(2): struct rlimit.
pub static NAT_RLIMIT: Layout = Layout {
    size: 16,
    big: false,
    fields: fields![
        soft double 0, hard double 8,
    ],
};

/// setitimer(2): struct itimerval.
pub static NAT_ITIMERVAL: Layout = Layout {
    size: 32,
    big: false,
    fields: fields![
        interval_seconds signed_double 0, interval_microseconds signed_double 8,
        value_seconds signed_double 16, value_microseconds signed_double 24,
    ],
};

/// poll(2): struct pollfd.
pub static NAT_POLLFD: Layout = Layout {
    size: 8,
    big: false,
    fields: fields![
        fd signed_word 0, events short 4, revents short 6,
    ],
};

/// ioctl_tty(2): struct winsize.
pub static NAT_WINSIZE: Layout = Layout {
    size: 8,
    big: false,
    fields: fields![
        rows short 0, columns short 2, x_pixels short 4, y_pixels short 6,
    ],
};

/// uname(2): struct new_utsname, six texts of 65 bytes, each in eight numbers of 8 bytes and
/// one of 1.
pub static NAT_UTSNAME: Layout = Layout {
    size: 390,
    big: false,
    fields: fields![
        sysname_0 double 0, sysname_1 double 8, sysname_2 double 16, sysname_3 double 24,
        sysname_4 double 32, sysname_5 double 40, sysname_6 double 48, sysname_7 double 56,
        sysname_8 byte 64, nodename_0 double 65, nodename_1 double 73, nodename_2 double 81,
        nodename_3 double 89, nodename_4 double 97, nodename_5 double 105, nodename_6 double 113,
        nodename_7 double 121, nodename_8 byte 129, release_0 double 130, release_1 double 138,
        release_2 double 146, release_3 double 154, release_4 double 162, release_5 double 170,
        release_6 double 178, release_7 double 186, release_8 byte 194, version_0 double 195,
        version_1 double 203, version_2 double 211, version_3 double 219, version_4 double 227,
        version_5 double 235, version_6 double 243, version_7 double 251, version_8 byte 259,
        machine_0 double 260, machine_1 double 268, machine_2 double 276, machine_3 double 284,
        machine_4 double 292, machine_5 double 300, machine_6 double 308, machine_7 double 316,
        machine_8 byte 324, domainname_0 double 325, domainname_1 double 333,
        domainname_2 double 341, domainname_3 double 349, domainname_4 double 357,
        domainname_5 double 365, domainname_6 double 373, domainname_7 double 381,
        domainname_8 byte 389,
    ],
};

/// termios(3): struct termios of Linux `include/uapi/asm-generic/termbits.h`.
pub static NAT_TERMIOS: Layout = Layout {
    size: 36,
    big: false,
    fields: fields![
        input_flags word 0, output_flags word 4, control_flags word 8, local_flags word 12,
        line byte 16, character_0 byte 17, character_1 byte 18, character_2 byte 19,
        character_3 byte 20, character_4 byte 21, character_5 byte 22, character_6 byte 23,
        character_7 byte 24, character_8 byte 25, character_9 byte 26, character_10 byte 27,
        character_11 byte 28, character_12 byte 29, character_13 byte 30, character_14 byte 31,
        character_15 byte 32, character_16 byte 33, character_17 byte 34, character_18 byte 35,
    ],
};

/// sigaction(2): struct sigaction of Linux `include/uapi/asm-generic/signal.h`.
pub static NAT_SIGACTION: Layout = Layout {
    size: 32,
    big: false,
    fields: fields![
        flags double 8, handler double 0, mask_0 double 16, mask_1 double 24,
    ],
};

/// sigaltstack(2): stack_t of Linux `include/uapi/asm-generic/signal.h`.
pub static NAT_STACK: Layout = Layout {
    size: 24,
    big: false,
    fields: fields![
        sp double 0, size double 16, flags word 8,
    ],
};

/// sigaction(2): siginfo_t of a signal that was sent.
pub static NAT_SIGINFO: Layout = Layout {
    size: 128,
    big: false,
    fields: fields![
        signo signed_word 0, code signed_word 8, errno signed_word 4, pid word 16, uid word 20,
        value double 24,
    ],
};

/// The structures of the native kernel.
#[derive(Clone, Copy)]
pub enum NativeStructure {
    Stat,
    Dirent64,
    Iovec,
    Timespec,
    Timeval,
    Rlimit,
    Itimerval,
    Pollfd,
    Winsize,
    Utsname,
    Termios,
    Sigaction,
    Stack,
    Siginfo,
}

/// The table of a structure of the native kernel.
#[inline(always)]
pub fn native_layout(structure: NativeStructure) -> &'static Layout
    ensures table { shape result.now ≡ native_shape structure }
    ensures sound { IsSound (shape result.now) }
{
    match structure {
        NativeStructure::Stat => &NAT_STAT,
        NativeStructure::Dirent64 => &NAT_DIRENT64,
        NativeStructure::Iovec => &NAT_IOVEC,
        NativeStructure::Timespec => &NAT_TIMESPEC,
        NativeStructure::Timeval => &NAT_TIMEVAL,
        NativeStructure::Rlimit => &NAT_RLIMIT,
        NativeStructure::Itimerval => &NAT_ITIMERVAL,
        NativeStructure::Pollfd => &NAT_POLLFD,
        NativeStructure::Winsize => &NAT_WINSIZE,
        NativeStructure::Utsname => &NAT_UTSNAME,
        NativeStructure::Termios => &NAT_TERMIOS,
        NativeStructure::Sigaction => &NAT_SIGACTION,
        NativeStructure::Stack => &NAT_STACK,
        NativeStructure::Siginfo => &NAT_SIGINFO,
    }
}
