//! Numbers of the o32 interface (Linux `include/uapi/asm-generic/fcntl.h`, `include/uapi/linux/fcntl.h`,
//! `arch/mips/include/uapi/asm/fcntl.h` and `ioctls.h`).

/// Commands of fcntl(2), with the flag of the third.
pub(crate) const F_DUPFD: u32 = 0;

pub(crate) const F_GETFD: u32 = 1;

pub(crate) const F_SETFD: u32 = 2;

pub(crate) const F_GETFL: u32 = 3;

pub(crate) const F_SETFL: u32 = 4;

pub(crate) const F_GETLK: u32 = 14;

pub(crate) const F_DUPFD_CLOEXEC: u32 = 1030;

pub(crate) const FD_CLOEXEC: u32 = 1;

/// Flags of open(2).
pub(crate) const O_WRONLY: u32 = 1;

pub(crate) const O_RDWR: u32 = 2;

pub(crate) const O_APPEND: u32 = 0x8;

pub(crate) const O_NONBLOCK: u32 = 0x80;

pub(crate) const O_LARGEFILE: u32 = 0x2000;

pub(crate) const O_CLOEXEC: u32 = 0x8_0000;

/// O_NONBLOCK of the 64-bit kernel, which is O_NOCTTY here.
pub(crate) const OTHER_NONBLOCK: u32 = 0x800;

/// Requests of ioctl(2).
pub(crate) const TCGETS: u32 = 0x540D;

pub(crate) const TCSETS: u32 = 0x540E;

pub(crate) const TCSETSW: u32 = 0x540F;

pub(crate) const TCSETSF: u32 = 0x5410;

pub(crate) const TIOCGWINSZ: u32 = 0x4008_7468;

pub(crate) const FIONREAD: u32 = 0x467F;

pub(crate) const FIONBIO: u32 = 0x667E;

pub(crate) const FIOCLEX: u32 = 0x6601;

pub(crate) const FIONCLEX: u32 = 0x6602;

/// TCGETS of the 64-bit kernel, which is none here.
pub(crate) const OTHER_TCGETS: u32 = 0x5401;
