//! The structures of an o32 program.
ghost use Rattle.std.specs.Prelude.{◌≡◌};
ghost use Rattle.layouts.specs.Shape.{shape, IsSound};
ghost use Rattle.layouts.specs.O32.{o32_shape};

use crate::table::{field, fields};
use crate::{Field, Layout};

/// stat(2): struct stat of Linux `arch/mips/include/uapi/asm/stat.h`.
pub static O32_STAT: Layout = Layout {
    size: 144,
    big: true,
    fields: fields![
        dev word 0, ino word 16, mode word 20, nlink word 24, uid word 28, gid word 32,
        rdev word 36, size signed_word 48, atime signed_word 56, atime_ns word 60,
        mtime signed_word 64, mtime_ns word 68, ctime signed_word 72, ctime_ns word 76,
        blksize word 80, blocks word 84,
    ],
};

/// stat64(2): struct stat64 of Linux `arch/mips/include/uapi/asm/stat.h`.
pub static O32_STAT64: Layout = Layout {
    size: 104,
    big: true,
    fields: fields![
        dev word 0, ino double 16, mode word 24, nlink word 28, uid word 32, gid word 36,
        rdev word 40, size double 56, atime signed_word 64, atime_ns word 68, mtime signed_word 72,
        mtime_ns word 76, ctime signed_word 80, ctime_ns word 84, blksize word 88, blocks double 96,
    ],
};

/// getdents(2): the head of struct linux_dirent, which the name follows.
pub static O32_DIRENT: Layout = Layout {
    size: 10,
    big: true,
    fields: fields![
        ino word 0, off word 4, reclen short 8,
    ],
};

/// getdents64(2): the head of struct linux_dirent64, which the name follows.
pub static O32_DIRENT64: Layout = Layout {
    size: 19,
    big: true,
    fields: fields![
        ino double 0, off double 8, reclen short 16, kind byte 18,
    ],
};

/// readv(2): struct iovec.
pub static O32_IOVEC: Layout = Layout {
    size: 8,
    big: true,
    fields: fields![
        base word 0, length word 4,
    ],
};

/// clock_gettime(2): struct timespec.
pub static O32_TIMESPEC: Layout = Layout {
    size: 8,
    big: true,
    fields: fields![
        seconds signed_word 0, nanoseconds signed_word 4,
    ],
};

/// gettimeofday(2): struct timeval.
pub static O32_TIMEVAL: Layout = Layout {
    size: 8,
    big: true,
    fields: fields![
        seconds signed_word 0, microseconds signed_word 4,
    ],
};

/// getrlimit(2): struct rlimit.
pub static O32_RLIMIT: Layout = Layout {
    size: 8,
    big: true,
    fields: fields![
        soft word 0, hard word 4,
    ],
};

/// setitimer(2): struct itimerval.
pub static O32_ITIMERVAL: Layout = Layout {
    size: 16,
    big: true,
    fields: fields![
        interval_seconds signed_word 0, interval_microseconds signed_word 4,
        value_seconds signed_word 8, value_microseconds signed_word 12,
    ],
};

/// prlimit(2): struct rlimit64.
pub static O32_RLIMIT64: Layout = Layout {
    size: 16,
    big: true,
    fields: fields![
        soft double 0, hard double 8,
    ],
};

/// poll(2): struct pollfd.
pub static O32_POLLFD: Layout = Layout {
    size: 8,
    big: true,
    fields: fields![
        fd signed_word 0, events short 4, revents short 6,
    ],
};

/// ioctl_tty(2): struct winsize.
pub static O32_WINSIZE: Layout = Layout {
    size: 8,
    big: true,
    fields: fields![
        rows short 0, columns short 2, x_pixels short 4, y_pixels short 6,
    ],
};

/// uname(2): struct new_utsname, six texts of 65 bytes, each in eight numbers of 8 bytes and
/// one of 1.
pub static O32_UTSNAME: Layout = Layout {
    size: 390,
    big: true,
    fields: fields![
        sysname_0 double 0, sysname_1 double 8, sysname_2 double 16, sysname_3 double 24,
        sysname_4 double 32, sysname_5 double 40, sysname_6 double 48, sysname_7 double 56,
        sysname_8 byte 64, nodename_0 double 65, nodename_1 double 73, nodename_2 double 81,
        nodename_3 double 89, nodename_4 double 97, nodename_5 double 105, nodename_6 double 113,
        nodename_7 double 121, nodename_8 byte 129, release_0 double 130, release_1 double 138,
        release_2 double 146, release_3 double 154, release_4 double 162, release_5 double 170,
        release_6 double 178, release_7 double 186, release_8 byte 194, version_0 double 195,
        version_1 double 203, version_2 double 211, version_3 double 219, version_4 double 227,
        version_5 double 235, version_6 double 243, version_7 double 251, version_8 byte 259,
        machine_0 double 260, machine_1 double 268, machine_2 double 276, machine_3 double 284,
        machine_4 double 292, machine_5 double 300, machine_6 double 308, machine_7 double 316,
        machine_8 byte 324, domainname_0 double 325, domainname_1 double 333,
        domainname_2 double 341, domainname_3 double 349, domainname_4 double 357,
        domainname_5 double 365, domainname_6 double 373, domainname_7 double 381,
        domainname_8 byte 389,
    ],
};

/// termios(3): struct termios of Linux `arch/mips/include/uapi/asm/termbits.h`.
pub static O32_TERMIOS: Layout = Layout {
    size: 40,
    big: true,
    fields: fields![
        input_flags word 0, output_flags word 4, control_flags word 8, local_flags word 12,
        line byte 16, character_0 byte 17, character_1 byte 18, character_2 byte 19,
        character_3 byte 20, character_4 byte 21, character_5 byte 22, character_6 byte 23,
        character_7 byte 24, character_8 byte 25, character_9 byte 26, character_10 byte 27,
        character_11 byte 28, character_12 byte 29, character_13 byte 30, character_14 byte 31,
        character_15 byte 32, character_16 byte 33, character_17 byte 34, character_18 byte 35,
        character_19 byte 36, character_20 byte 37, character_21 byte 38, character_22 byte 39,
    ],
};

/// sigaction(2): struct sigaction of Linux `arch/mips/include/uapi/asm/signal.h`.
pub static O32_SIGACTION: Layout = Layout {
    size: 24,
    big: true,
    fields: fields![
        flags word 0, handler word 4, mask_0 word 8, mask_1 word 12, mask_2 word 16, mask_3 word 20,
    ],
};

/// sigaltstack(2): stack_t of Linux `arch/mips/include/uapi/asm/signal.h`.
pub static O32_STACK: Layout = Layout {
    size: 12,
    big: true,
    fields: fields![
        sp word 0, size word 4, flags word 8,
    ],
};

/// sigaction(2): siginfo_t of a signal that was sent.
pub static O32_SIGINFO: Layout = Layout {
    size: 128,
    big: true,
    fields: fields![
        signo signed_word 0, code signed_word 4, errno signed_word 8, pid word 12, uid word 16,
        value word 20,
    ],
};

/// sigaction(2): siginfo_t of a fault of the processor.
pub static O32_SIGINFO_FAULT: Layout = Layout {
    size: 128,
    big: true,
    fields: fields![
        signo signed_word 0, code signed_word 4, errno signed_word 8, address word 12,
    ],
};

/// what a handler's return puts back into the processor (this project's own profile).
pub static O32_SIGCONTEXT: Layout = Layout {
    size: 592,
    big: true,
    fields: fields![
        pc signed_double 8, register_0 signed_double 16, register_1 signed_double 24,
        register_2 signed_double 32, register_3 signed_double 40, register_4 signed_double 48,
        register_5 signed_double 56, register_6 signed_double 64, register_7 signed_double 72,
        register_8 signed_double 80, register_9 signed_double 88, register_10 signed_double 96,
        register_11 signed_double 104, register_12 signed_double 112, register_13 signed_double 120,
        register_14 signed_double 128, register_15 signed_double 136, register_16 signed_double 144,
        register_17 signed_double 152, register_18 signed_double 160, register_19 signed_double 168,
        register_20 signed_double 176, register_21 signed_double 184, register_22 signed_double 192,
        register_23 signed_double 200, register_24 signed_double 208, register_25 signed_double 216,
        register_26 signed_double 224, register_27 signed_double 232, register_28 signed_double 240,
        register_29 signed_double 248, register_30 signed_double 256, register_31 signed_double 264,
        hi signed_double 552, lo signed_double 560,
    ],
};

/// the frame of a handler without SA_SIGINFO (this project's own profile).
pub static O32_FRAME: Layout = Layout {
    size: 632,
    big: true,
    fields: fields![
        pc signed_double 32, register_0 signed_double 40, register_1 signed_double 48,
        register_2 signed_double 56, register_3 signed_double 64, register_4 signed_double 72,
        register_5 signed_double 80, register_6 signed_double 88, register_7 signed_double 96,
        register_8 signed_double 104, register_9 signed_double 112, register_10 signed_double 120,
        register_11 signed_double 128, register_12 signed_double 136, register_13 signed_double 144,
        register_14 signed_double 152, register_15 signed_double 160, register_16 signed_double 168,
        register_17 signed_double 176, register_18 signed_double 184, register_19 signed_double 192,
        register_20 signed_double 200, register_21 signed_double 208, register_22 signed_double 216,
        register_23 signed_double 224, register_24 signed_double 232, register_25 signed_double 240,
        register_26 signed_double 248, register_27 signed_double 256, register_28 signed_double 264,
        register_29 signed_double 272, register_30 signed_double 280, register_31 signed_double 288,
        hi signed_double 576, lo signed_double 584, mask_0 word 616, mask_1 word 620,
        mask_2 word 624, mask_3 word 628,
    ],
};

/// the frame of a handler with SA_SIGINFO for a signal that was sent (this project's own profile).
pub static O32_RT_FRAME: Layout = Layout {
    size: 784,
    big: true,
    fields: fields![
        signo signed_word 24, code signed_word 28, errno signed_word 32, pid word 36, uid word 40,
        value word 44, stack_sp word 160, stack_size word 164, stack_flags word 168,
        pc signed_double 184, register_0 signed_double 192, register_1 signed_double 200,
        register_2 signed_double 208, register_3 signed_double 216, register_4 signed_double 224,
        register_5 signed_double 232, register_6 signed_double 240, register_7 signed_double 248,
        register_8 signed_double 256, register_9 signed_double 264, register_10 signed_double 272,
        register_11 signed_double 280, register_12 signed_double 288, register_13 signed_double 296,
        register_14 signed_double 304, register_15 signed_double 312, register_16 signed_double 320,
        register_17 signed_double 328, register_18 signed_double 336, register_19 signed_double 344,
        register_20 signed_double 352, register_21 signed_double 360, register_22 signed_double 368,
        register_23 signed_double 376, register_24 signed_double 384, register_25 signed_double 392,
        register_26 signed_double 400, register_27 signed_double 408, register_28 signed_double 416,
        register_29 signed_double 424, register_30 signed_double 432, register_31 signed_double 440,
        hi signed_double 728, lo signed_double 736, mask_0 word 768, mask_1 word 772,
        mask_2 word 776, mask_3 word 780,
    ],
};

/// the frame of a handler with SA_SIGINFO for a fault (this project's own profile).
pub static O32_RT_FRAME_FAULT: Layout = Layout {
    size: 784,
    big: true,
    fields: fields![
        signo signed_word 24, code signed_word 28, errno signed_word 32, address word 36,
        stack_sp word 160, stack_size word 164, stack_flags word 168, pc signed_double 184,
        register_0 signed_double 192, register_1 signed_double 200, register_2 signed_double 208,
        register_3 signed_double 216, register_4 signed_double 224, register_5 signed_double 232,
        register_6 signed_double 240, register_7 signed_double 248, register_8 signed_double 256,
        register_9 signed_double 264, register_10 signed_double 272, register_11 signed_double 280,
        register_12 signed_double 288, register_13 signed_double 296, register_14 signed_double 304,
        register_15 signed_double 312, register_16 signed_double 320, register_17 signed_double 328,
        register_18 signed_double 336, register_19 signed_double 344, register_20 signed_double 352,
        register_21 signed_double 360, register_22 signed_double 368, register_23 signed_double 376,
        register_24 signed_double 384, register_25 signed_double 392, register_26 signed_double 400,
        register_27 signed_double 408, register_28 signed_double 416, register_29 signed_double 424,
        register_30 signed_double 432, register_31 signed_double 440, hi signed_double 728,
        lo signed_double 736, mask_0 word 768, mask_1 word 772, mask_2 word 776, mask_3 word 780,
    ],
};

/// The structures of an o32 program.
#[derive(Clone, Copy)]
pub enum O32Structure {
    Stat,
    Stat64,
    Dirent,
    Dirent64,
    Iovec,
    Timespec,
    Timeval,
    Rlimit,
    Itimerval,
    Rlimit64,
    Pollfd,
    Winsize,
    Utsname,
    Termios,
    Sigaction,
    Stack,
    Siginfo,
    SiginfoFault,
    Sigcontext,
    Frame,
    RtFrame,
    RtFrameFault,
}

/// The table of a structure of an o32 program.
#[inline(always)]
pub fn o32_layout(structure: O32Structure) -> &'static Layout
    ensures table { shape result.now ≡ o32_shape structure }
    ensures sound { IsSound (shape result.now) }
{
    match structure {
        O32Structure::Stat => &O32_STAT,
        O32Structure::Stat64 => &O32_STAT64,
        O32Structure::Dirent => &O32_DIRENT,
        O32Structure::Dirent64 => &O32_DIRENT64,
        O32Structure::Iovec => &O32_IOVEC,
        O32Structure::Timespec => &O32_TIMESPEC,
        O32Structure::Timeval => &O32_TIMEVAL,
        O32Structure::Rlimit => &O32_RLIMIT,
        O32Structure::Itimerval => &O32_ITIMERVAL,
        O32Structure::Rlimit64 => &O32_RLIMIT64,
        O32Structure::Pollfd => &O32_POLLFD,
        O32Structure::Winsize => &O32_WINSIZE,
        O32Structure::Utsname => &O32_UTSNAME,
        O32Structure::Termios => &O32_TERMIOS,
        O32Structure::Sigaction => &O32_SIGACTION,
        O32Structure::Stack => &O32_STACK,
        O32Structure::Siginfo => &O32_SIGINFO,
        O32Structure::SiginfoFault => &O32_SIGINFO_FAULT,
        O32Structure::Sigcontext => &O32_SIGCONTEXT,
        O32Structure::Frame => &O32_FRAME,
        O32Structure::RtFrame => &O32_RT_FRAME,
        O32Structure::RtFrameFault => &O32_RT_FRAME_FAULT,
    }
}
