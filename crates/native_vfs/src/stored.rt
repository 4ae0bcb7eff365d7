//! How a node is kept.
ghost use Rattle.std.specs.Prelude.{◌≡◌, IfOk};

use directory_names::{Directory, NodeRef};
use file_blocks::Content;
use kernel_core::Bytes;
use std::alloc::{AllocError, Global};

/// The number of the root.
pub(crate) const ROOT: u64 = 1;

/// A node (inode(7)): times are in nanoseconds since the Epoch.
#[derive(Drop)]
pub(crate) struct Stored {
    pub(crate) number: u64,
    pub(crate) mode: u16,
    pub(crate) access: i128,
    pub(crate) modified: i128,
    pub(crate) changed: i128,
    pub(crate) links: u32,
    /// How many file descriptions have it open, and uses as working directory.
    pub(crate) holds: u32,
    pub(crate) content: StoredContent,
}

/// What a node is.
#[derive(Drop)]
pub(crate) enum StoredContent {
    File(Content),
    Directory(StoredDirectory),
    Link(Bytes),
}

/// A directory: what its `..` stands for, which is nothing once it was removed, and its names.
#[derive(Drop)]
pub(crate) struct StoredDirectory {
    pub(crate) parent: Option<NodeRef>,
    pub(crate) names: Directory,
}

/// The bytes, in memory of their own.
pub(crate) fn copied(alloc: Global, bytes: &[u8]) -> Result<Bytes, AllocError>
    ensures { IfOk result (λ copy. copy ≡ bytes.now) }
{
    Ok(Bytes::from(bytes.to_vec(alloc)?))
}
