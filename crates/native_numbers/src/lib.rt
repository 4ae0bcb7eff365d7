//! The numbers of the calls of the 64-bit kernel (Linux `include/uapi/asm-generic/unistd.h`), for the kernel that makes them and for
//! the bridges that ask it.
#![tactic(auto)]

/// getcwd(2)
pub const GETCWD: u64 = 17;

/// dup(2)
pub const DUP: u64 = 23;

/// dup3(2)
pub const DUP3: u64 = 24;

/// fcntl(2)
pub const FCNTL: u64 = 25;

/// ioctl(2)
pub const IOCTL: u64 = 29;

/// mkdirat(2)
pub const MKDIRAT: u64 = 34;

/// unlinkat(2)
pub const UNLINKAT: u64 = 35;

/// symlinkat(2)
pub const SYMLINKAT: u64 = 36;

/// linkat(2)
pub const LINKAT: u64 = 37;

/// renameat(2)
pub const RENAMEAT: u64 = 38;

/// truncate(2)
pub const TRUNCATE: u64 = 45;

/// ftruncate(2)
pub const FTRUNCATE: u64 = 46;

/// faccessat(2)
pub const FACCESSAT: u64 = 48;

/// chdir(2)
pub const CHDIR: u64 = 49;

/// fchdir(2)
pub const FCHDIR: u64 = 50;

/// fchmod(2)
pub const FCHMOD: u64 = 52;

/// fchmodat(2)
pub const FCHMODAT: u64 = 53;

/// openat(2)
pub const OPENAT: u64 = 56;

/// close(2)
pub const CLOSE: u64 = 57;

/// pipe2(2)
pub const PIPE2: u64 = 59;

/// getdents64(2)
pub const GETDENTS64: u64 = 61;

/// lseek(2)
pub const LSEEK: u64 = 62;

/// read(2)
pub const READ: u64 = 63;

/// write(2)
pub const WRITE: u64 = 64;

/// readv(2)
pub const READV: u64 = 65;

/// writev(2)
pub const WRITEV: u64 = 66;

/// pread(2)
pub const PREAD64: u64 = 67;

/// pwrite(2)
pub const PWRITE64: u64 = 68;

/// pselect(2)
pub const PSELECT6: u64 = 72;

/// ppoll(2)
pub const PPOLL: u64 = 73;

/// readlinkat(2)
pub const READLINKAT: u64 = 78;

/// fstatat(2)
pub const NEWFSTATAT: u64 = 79;

/// fstat(2)
pub const FSTAT: u64 = 80;

/// fsync(2)
pub const FSYNC: u64 = 82;

/// fdatasync(2)
pub const FDATASYNC: u64 = 83;

/// utimensat(2)
pub const UTIMENSAT: u64 = 88;

/// nanosleep(2)
pub const NANOSLEEP: u64 = 101;

/// getitimer(2)
pub const GETITIMER: u64 = 102;

/// setitimer(2)
pub const SETITIMER: u64 = 103;

/// clock_gettime(2)
pub const CLOCK_GETTIME: u64 = 113;

/// clock_getres(2)
pub const CLOCK_GETRES: u64 = 114;

/// clock_nanosleep(2)
pub const CLOCK_NANOSLEEP: u64 = 115;

/// kill(2)
pub const KILL: u64 = 129;

/// tkill(2)
pub const TKILL: u64 = 130;

/// tgkill(2)
pub const TGKILL: u64 = 131;

/// sigaltstack(2)
pub const SIGALTSTACK: u64 = 132;

/// sigsuspend(2)
pub const RT_SIGSUSPEND: u64 = 133;

/// sigaction(2)
pub const RT_SIGACTION: u64 = 134;

/// sigprocmask(2)
pub const RT_SIGPROCMASK: u64 = 135;

/// sigpending(2)
pub const RT_SIGPENDING: u64 = 136;

/// sigtimedwait(2)
pub const RT_SIGTIMEDWAIT: u64 = 137;

/// rt_sigqueueinfo(2)
pub const RT_SIGQUEUEINFO: u64 = 138;

/// uname(2)
pub const UNAME: u64 = 160;

/// umask(2)
pub const UMASK: u64 = 166;

/// getpid(2)
pub const GETPID: u64 = 172;

/// getppid(2)
pub const GETPPID: u64 = 173;

/// prlimit(2)
pub const PRLIMIT64: u64 = 261;

/// getrandom(2)
pub const GETRANDOM: u64 = 278;
