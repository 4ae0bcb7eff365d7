//! The file system.

use crate::inodes::Inodes;
use std::alloc::Global;
use std::marker::Model;

/// A file system in memory: its nodes (inode(7)), and the names under which they hang together
/// (path_resolution(7)). Contracts see it as a `Keyed` of `specs/Keyed.antt`: the live nodes by their
/// numbers, which are a file system of `kernel_core`, and the number of the node that each key stands
/// for.
///
/// Calls are told a node by its key, which `walk`, `create`, `mkdir`, `parent` or `entry_after` gave. A
/// key stands for its node as long as the node lives: until it has neither a name nor a hold. (The type
/// and its keys are this project's own.)
#[derive(Drop)]
pub struct Vfs {
    pub(crate) inodes: Inodes,
    /// The key of the root.
    pub(crate) root: usize,
    pub(crate) alloc: Global,
}

impl Model for Vfs {
    ghost use Rattle.native_vfs.specs.Keyed.{Keyed, keyed_code};
    ghost use Rattle.native_vfs.specs.inside.Stored.{keyed_of, IsKept};

    ghost Value = { Keyed };

    ghost coded = { keyed_code };

    ghost view = { λ v. keyed_of v.inodes.table };

    ghost invariant = { λ v. IsKept v.inodes.table v.inodes.entries v.root };
}
