//! Native commands of fcntl(2) (Linux `include/uapi/asm-generic/fcntl.h`), a request of ioctl(2) (`ioctls.h` there), and what
//! lseek(2) counts from (`include/uapi/linux/fs.h`).

pub(crate) const F_GETFD: u64 = 1;

pub(crate) const F_GETFL: u64 = 3;

pub(crate) const F_SETFL: u64 = 4;

pub(crate) const FIONREAD: u64 = 0x541B;

pub(crate) const SEEK_CUR: u64 = 1;
