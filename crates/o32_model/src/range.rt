//! One buffer of a vector (readv(2)).

/// A buffer of a vector: struct iovec of Linux `include/uapi/linux/uio.h`.
#[derive(Clone, Copy, Default)]
pub struct Range {
    /// The address of its first byte.
    pub address: u32,
    /// In bytes.
    pub length: u32,
}
