//! A file tree as plain data: what an image holds, and what a kernel is begun with and gives back.

ghost use Rattle.std.specs.Prelude.{◌≡◌};
ghost use Rattle.kernel_core.specs.ValidTree.{entries_of, blocks_of};

use crate::byte_list::Bytes;
use crate::items::Items;

/// A file tree: its nodes, by rising number. (The form is this project's own.)
#[derive(Drop)]
pub struct Tree {
    pub nodes: Items<Node>,
}

/// A node of a file tree (inode(7)).
#[derive(Drop)]
pub struct Node {
    /// Its number, from 1 to 2^63 - 1; the root has 1.
    pub number: u64,
    /// The twelve mode bits of chmod(2), at most 07777.
    pub mode: u16,
    /// The time of its last modification in whole seconds since the Epoch, rounded down.
    pub mtime: i64,
    pub kind: Kind,
}

/// What a node is, with its content.
#[derive(Drop)]
pub enum Kind {
    /// A regular file of `size` bytes, at most 2^44. Its blocks stand by rising index; a byte of a
    /// block that is not there is 0.
    File { size: u64, blocks: Items<Block> },
    /// A directory. Its entries stand by rising cookie, and no name stands twice.
    Dir { entries: Items<DirEntry> },
    /// A symbolic link with its target, of 1 to 4095 bytes without NUL.
    Link { target: Bytes },
}

impl Kind {
    /// The entries of a directory, and none of another kind.
    pub fn entries(&self) -> &[DirEntry]
        ensures { result.now ≡ entries_of self.now }
    {
        match self {
            Kind::Dir { entries } => entries.as_slice(),
            Kind::File { .. } | Kind::Link { .. } => &[],
        }
    }

    /// The blocks of a file, and none of another kind.
    pub fn blocks(&self) -> &[Block]
        ensures { result.now ≡ blocks_of self.now }
    {
        match self {
            Kind::File { blocks, .. } => blocks.as_slice(),
            Kind::Dir { .. } | Kind::Link { .. } => &[],
        }
    }
}

/// A block of a file that is kept.
#[derive(Drop)]
pub struct Block {
    /// Its place in the file, counted in blocks of 4096 bytes.
    pub index: u32,
    /// Its 4096 bytes.
    pub bytes: Bytes,
}

/// A name in a directory, other than `.` and `..`.
#[derive(Drop)]
pub struct DirEntry {
    /// Where the entry stands in the directory, from 3 to 2^31 - 1 (the `d_off` of getdents(2)).
    pub cookie: u32,
    /// Its 1 to 255 bytes, without `/` and NUL.
    pub name: Bytes,
    /// The number of the node that it names.
    pub node: u64,
}
