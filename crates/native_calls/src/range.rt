//! One buffer of a vector (readv(2)).

/// A buffer of a vector: struct iovec of Linux `include/uapi/linux/uio.h`.
#[derive(Clone, Copy)]
pub struct Range {
    /// The address of its first byte.
    pub address: u64,
    /// In bytes.
    pub length: u64,
}
