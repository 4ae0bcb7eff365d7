//! The calls that open, tell of and list files.

/// A call that opens a file.
#[derive(Clone, Copy)]
pub enum OpenCall {
    /// open(2)
    Open,
    /// creat(2)
    Creat,
    /// openat(2)
    Openat,
}

/// A call that tells a status.
#[derive(Clone, Copy)]
pub enum StatusCall {
    /// stat(2)
    Stat,
    /// lstat(2)
    Lstat,
    /// fstat(2)
    Fstat,
    /// stat(2), with fields of 64 bits
    Stat64,
    /// lstat(2), with fields of 64 bits
    Lstat64,
    /// fstat(2), with fields of 64 bits
    Fstat64,
    /// fstatat(2), with fields of 64 bits
    Fstatat64,
}

/// A call that lists a directory.
#[derive(Clone, Copy)]
pub enum EntriesCall {
    /// getdents(2)
    Getdents,
    /// getdents64(2)
    Getdents64,
}
