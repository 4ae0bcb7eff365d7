//! A native command of fcntl(2), and an access mode of open(2) (Linux `include/uapi/asm-generic/fcntl.h`).

pub(crate) const F_GETFL: u64 = 3;

/// The access mode, in the two low bits, of what is open for writing alone.
pub(crate) const O_WRONLY: i64 = 1;
