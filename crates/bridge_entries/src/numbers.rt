//! What lseek(2) counts from (Linux `include/uapi/linux/fs.h`).

/// From the beginning.
pub(crate) const SEEK_SET: u64 = 0;

/// From the position on.
pub(crate) const SEEK_CUR: u64 = 1;
