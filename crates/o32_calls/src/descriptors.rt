//! The calls on descriptors.

/// A call on descriptors and what they have open.
#[derive(Clone, Copy)]
pub enum IoCall {
    /// read(2)
    Read,
    /// write(2)
    Write,
    /// close(2)
    Close,
    /// dup(2)
    Dup,
    /// pipe(2)
    Pipe,
    /// ioctl(2)
    Ioctl,
    /// fcntl(2)
    Fcntl,
    /// dup2(2)
    Dup2,
    /// readv(2)
    Readv,
    /// writev(2)
    Writev,
    /// pread(2)
    Pread64,
    /// pwrite(2)
    Pwrite64,
    /// fcntl(2), with offsets of 64 bits
    Fcntl64,
    /// dup3(2)
    Dup3,
    /// pipe2(2)
    Pipe2,
}
