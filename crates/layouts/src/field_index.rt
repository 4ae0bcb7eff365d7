//! The places of the fields in their tables, by the names of the headers. A structure that both
//! worlds have names its fields in one order.

/// The places in the tables of stat, stat64 and the native stat.
pub mod stat {
    pub const DEV: usize = 0;

    pub const INO: usize = 1;

    pub const MODE: usize = 2;

    pub const NLINK: usize = 3;

    pub const UID: usize = 4;

    pub const GID: usize = 5;

    pub const RDEV: usize = 6;

    pub const SIZE: usize = 7;

    pub const ATIME: usize = 8;

    pub const ATIME_NS: usize = 9;

    pub const MTIME: usize = 10;

    pub const MTIME_NS: usize = 11;

    pub const CTIME: usize = 12;

    pub const CTIME_NS: usize = 13;

    pub const BLKSIZE: usize = 14;

    pub const BLOCKS: usize = 15;
}

/// The places in the table of dirent.
pub mod dirent {
    pub const INO: usize = 0;

    pub const OFF: usize = 1;

    pub const RECLEN: usize = 2;
}

/// The places in the tables of dirent64 in both worlds.
pub mod dirent64 {
    pub const INO: usize = 0;

    pub const OFF: usize = 1;

    pub const RECLEN: usize = 2;

    pub const KIND: usize = 3;
}

/// The places in the tables of iovec in both worlds.
pub mod iovec {
    pub const BASE: usize = 0;

    pub const LENGTH: usize = 1;
}

/// The places in the tables of timespec in both worlds.
pub mod timespec {
    pub const SECONDS: usize = 0;

    pub const NANOSECONDS: usize = 1;
}

/// The places in the tables of timeval in both worlds.
pub mod timeval {
    pub const SECONDS: usize = 0;

    pub const MICROSECONDS: usize = 1;
}

/// The places in the tables of rlimit and rlimit64 in both worlds.
pub mod rlimit {
    pub const SOFT: usize = 0;

    pub const HARD: usize = 1;
}

/// The places in the tables of itimerval in both worlds.
pub mod itimerval {
    pub const INTERVAL_SECONDS: usize = 0;

    pub const INTERVAL_MICROSECONDS: usize = 1;

    pub const VALUE_SECONDS: usize = 2;

    pub const VALUE_MICROSECONDS: usize = 3;
}

/// The places in the tables of pollfd in both worlds.
pub mod pollfd {
    pub const FD: usize = 0;

    pub const EVENTS: usize = 1;

    pub const REVENTS: usize = 2;
}

/// The places in the tables of winsize in both worlds.
pub mod winsize {
    pub const ROWS: usize = 0;

    pub const COLUMNS: usize = 1;

    pub const X_PIXELS: usize = 2;

    pub const Y_PIXELS: usize = 3;
}

/// The places in the tables of utsname in both worlds; each text has nine numbers.
pub mod utsname {
    /// The first of 9.
    pub const SYSNAME: usize = 0;
    /// The first of 9.
    pub const NODENAME: usize = 9;
    /// The first of 9.
    pub const RELEASE: usize = 18;
    /// The first of 9.
    pub const VERSION: usize = 27;
    /// The first of 9.
    pub const MACHINE: usize = 36;
    /// The first of 9.
    pub const DOMAINNAME: usize = 45;
}

/// The places in the tables of termios in both worlds; the native one has 19 characters.
pub mod termios {
    pub const INPUT_FLAGS: usize = 0;

    pub const OUTPUT_FLAGS: usize = 1;

    pub const CONTROL_FLAGS: usize = 2;

    pub const LOCAL_FLAGS: usize = 3;

    pub const LINE: usize = 4;
    /// The first of 23.
    pub const CHARACTERS: usize = 5;
}

/// The places in the tables of sigaction in both worlds; the native mask has two numbers.
pub mod sigaction {
    pub const FLAGS: usize = 0;

    pub const HANDLER: usize = 1;
    /// The first of 4.
    pub const MASK: usize = 2;
}

/// The places in the tables of stack_t in both worlds.
pub mod stack {
    pub const SP: usize = 0;

    pub const SIZE: usize = 1;

    pub const FLAGS: usize = 2;
}

/// The places in the tables of siginfo_t of a sent signal in both worlds.
pub mod siginfo {
    pub const SIGNO: usize = 0;

    pub const CODE: usize = 1;

    pub const ERRNO: usize = 2;

    pub const PID: usize = 3;

    pub const UID: usize = 4;

    pub const VALUE: usize = 5;
}

/// The places in the table of siginfo_t of a fault.
pub mod siginfo_fault {
    pub const SIGNO: usize = 0;

    pub const CODE: usize = 1;

    pub const ERRNO: usize = 2;

    pub const ADDRESS: usize = 3;
}

/// The places in the table of sigcontext.
pub mod sigcontext {
    pub const PC: usize = 0;
    /// The first of 32.
    pub const REGISTERS: usize = 1;

    pub const HI: usize = 33;

    pub const LO: usize = 34;
}

/// The places in the table of the frame of a handler without siginfo.
pub mod frame {
    pub const PC: usize = 0;
    /// The first of 32.
    pub const REGISTERS: usize = 1;

    pub const HI: usize = 33;

    pub const LO: usize = 34;
    /// The first of 4.
    pub const MASK: usize = 35;
}

/// The places in the table of the frame of a handler with siginfo for a signal that was sent.
pub mod rt_frame {
    pub const SIGNO: usize = 0;

    pub const CODE: usize = 1;

    pub const ERRNO: usize = 2;

    pub const PID: usize = 3;

    pub const UID: usize = 4;

    pub const VALUE: usize = 5;

    pub const STACK_SP: usize = 6;

    pub const STACK_SIZE: usize = 7;

    pub const STACK_FLAGS: usize = 8;

    pub const PC: usize = 9;
    /// The first of 32.
    pub const REGISTERS: usize = 10;

    pub const HI: usize = 42;

    pub const LO: usize = 43;
    /// The first of 4.
    pub const MASK: usize = 44;
}

/// The places in the table of the frame of a handler with siginfo for a fault.
pub mod rt_frame_fault {
    pub const SIGNO: usize = 0;

    pub const CODE: usize = 1;

    pub const ERRNO: usize = 2;

    pub const ADDRESS: usize = 3;

    pub const STACK_SP: usize = 4;

    pub const STACK_SIZE: usize = 5;

    pub const STACK_FLAGS: usize = 6;

    pub const PC: usize = 7;
    /// The first of 32.
    pub const REGISTERS: usize = 8;

    pub const HI: usize = 40;

    pub const LO: usize = 41;
    /// The first of 4.
    pub const MASK: usize = 42;
}
