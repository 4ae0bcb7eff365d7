//! What a file descriptor leads to (open(2), dup(2)).

use crate::stream::Stream;
use kernel_core::OpenFlags;

/// An open file descriptor.
#[derive(Clone, Copy)]
pub struct Descriptor {
    /// The number of its description, from 0 to 1023.
    pub number: u32,
    /// Whether it is closed on execve(2) (FD_CLOEXEC of fcntl(2)).
    pub cloexec: bool,
}

/// What a description has open.
#[derive(Clone, Copy)]
pub enum Object {
    /// One of the three streams that the process begins with.
    Stream(Stream),
    /// The read end of the pipe of this number, from 0 to 1023.
    ReadEnd(u32),
    /// The write end of the pipe of this number, from 0 to 1023.
    WriteEnd(u32),
    /// The node of this number, which is a regular file or a directory.
    Node(u64),
}

/// An open file description (open(2)).
#[derive(Clone, Copy)]
pub struct Description {
    pub object: Object,
    /// The place in bytes at which the next read or write of a regular file begins, and the cookie after
    /// which the next entries of a directory are read (`d_off` of getdents(2)). Streams and pipes have 0.
    pub position: u64,
    /// The access mode and the flags that F_GETFL of fcntl(2) shows: none of O_CREAT, O_EXCL, O_NOCTTY,
    /// O_TRUNC and O_CLOEXEC stands here.
    pub flags: OpenFlags,
}
