//! The nodes of a file system, and what is counted of them.
ghost use Rattle.std.specs.Prelude.{◌≡◌};
ghost use Rattle.kernel_core.specs.Totals.{live_blocks};
ghost use Rattle.native_vfs.specs.inside.Stored.{nodes_of, HasDistinctNumbers, AgreesPool};

use crate::numbers::NUMBER_LEVELS;
use crate::stored::Stored;
use number_pool::NumberPool;
use slab::Slab;

/// The nodes (inode(7)) under their keys, the pool of their numbers, and how many entries and blocks they
/// have. Numbers and blocks agree with the nodes in every function that is handed this, entries only between
/// calls. (The struct is this project's own.)
#[derive(Drop)]
pub(crate) struct Inodes {
    pub(crate) table: Slab<Stored>,
    /// A place is taken where a node has its number.
    pub(crate) numbers: NumberPool<NUMBER_LEVELS>,
    /// How many entries all directories have.
    pub(crate) entries: u32,
    /// How many blocks all files keep.
    pub(crate) blocks: u32,
    ghost distinct: { HasDistinctNumbers table },
    ghost pool: { AgreesPool (nodes_of table) numbers },
    ghost block_total: { blocks ≡ live_blocks (nodes_of table) },
}
