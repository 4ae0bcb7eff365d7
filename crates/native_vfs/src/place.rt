//! What the calls are told, and what they tell.

use kernel_core::Bytes;

/// Where a path's last name stands (path_resolution(7)): the directory, the name, and the node that the
/// name stands for there, or None where the directory has no such name. A node is given by the key that
/// the file system gave it. The name `.` and the empty name stand for the directory itself, and `..`
/// for its parent, or for nothing where the directory was removed. A call that takes a place needs one
/// that a walk would find now: its nodes live, and its name still stands for its node. (The form is this
/// project's own.)
#[derive(Drop)]
pub struct Place {
    pub dir: usize,
    pub name: Bytes,
    pub node: Option<usize>,
}

/// What a node is (inode(7)).
#[derive(Clone, Copy, PartialEq, Eq)]
pub enum NodeKind {
    /// A regular file.
    File,
    Directory,
    /// A symbolic link.
    Link,
}

/// What stat(2) tells of a node.
#[derive(Clone, Copy)]
pub struct Status {
    /// Its number (`st_ino`).
    pub number: u64,
    /// Its type, as S_IFREG, S_IFDIR or S_IFLNK of inode(7), and its twelve mode bits.
    pub mode: u16,
    /// A file or a link counts its names, a directory 2 and its subdirectories, or 0 once removed.
    pub links: u32,
    /// In bytes: a directory has 4096, a link as many as its target.
    pub size: u64,
    /// In units of 512 bytes: 8 for each block that a file keeps, 8 for a directory.
    pub blocks: u32,
    /// The time of the last access, in nanoseconds since the Epoch.
    pub access: i128,
    /// The time of the last modification, in nanoseconds since the Epoch.
    pub modified: i128,
    /// The time of the last change, in nanoseconds since the Epoch.
    pub changed: i128,
}
