//! The calls on files by their names, and on their sizes, times and offsets.

/// A call that makes, moves or removes a name.
#[derive(Clone, Copy)]
pub enum NameCall {
    /// link(2)
    Link,
    /// unlink(2)
    Unlink,
    /// rename(2)
    Rename,
    /// mkdir(2)
    Mkdir,
    /// rmdir(2)
    Rmdir,
    /// symlink(2)
    Symlink,
    /// mkdirat(2)
    Mkdirat,
    /// unlinkat(2)
    Unlinkat,
    /// renameat(2)
    Renameat,
    /// linkat(2)
    Linkat,
    /// symlinkat(2)
    Symlinkat,
}

/// A call on a file itself, or on what a process keeps of files: its working directory and its mask.
#[derive(Clone, Copy)]
pub enum NodeCall {
    /// chdir(2)
    Chdir,
    /// chmod(2)
    Chmod,
    /// access(2)
    Access,
    /// umask(2)
    Umask,
    /// fchmod(2)
    Fchmod,
    /// fsync(2)
    Fsync,
    /// fchdir(2)
    Fchdir,
    /// fdatasync(2)
    Fdatasync,
    /// fchmodat(2)
    Fchmodat,
    /// faccessat(2)
    Faccessat,
    /// utimensat(2)
    Utimensat,
}

/// A call that tells a path.
#[derive(Clone, Copy)]
pub enum TextCall {
    /// readlink(2)
    Readlink,
    /// getcwd(2)
    Getcwd,
    /// readlinkat(2)
    Readlinkat,
}

/// A call that sets the size of a file.
#[derive(Clone, Copy)]
pub enum SizeCall {
    /// truncate(2)
    Truncate,
    /// ftruncate(2)
    Ftruncate,
    /// truncate(2), with a size of 64 bits
    Truncate64,
    /// ftruncate(2), with a size of 64 bits
    Ftruncate64,
}

/// A call that sets a file offset.
#[derive(Clone, Copy)]
pub enum PlaceCall {
    /// lseek(2)
    Lseek,
    /// _llseek(2)
    Llseek,
}

/// A call on files by their names, or on their sizes, places and times.
#[derive(Clone, Copy)]
pub enum FileCall {
    /// One that changes names.
    Name(NameCall),
    /// One on one node.
    Node(NodeCall),
    /// One that tells a text.
    Text(TextCall),
    /// One that sets a size.
    Size(SizeCall),
    /// One that sets a file offset.
    Place(PlaceCall),
}
