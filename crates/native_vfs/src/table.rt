//! What the table of nodes tells of a key.
ghost use Rattle.std.specs.Prelude.{◌≡◌, IsSome, option_map};
ghost use Rattle.slab.specs.Slab.{get as slab_get};
ghost use Rattle.kernel_core.specs.NameCalls as names;
ghost use Rattle.kernel_core.specs.Nodes as nodes;
ghost use Rattle.native_vfs.specs.Keyed.{AgreesAt, place_at};
ghost use Rattle.native_vfs.specs.inside.Stored.{keyed_of, nodes_of, number_of_key, listing_of, HasDistinctNumbers};

use crate::place::Place;
use crate::stored::{Stored, StoredContent, StoredDirectory};
use slab::Slab;

/// The node at a key.
pub(crate) fn node(table: &Slab<Stored>, key: usize) -> &Stored
    requires live { IsSome (slab_get table.now key) }
    ensures node { slab_get table.now key ≡ Some result.now }
{
    &table[key]
}

/// The number of the node at a key.
pub(crate) fn number(table: &Slab<Stored>, key: usize) -> u64
    requires live { IsSome (slab_get table.now key) }
    ensures { result ≡ number_of_key table.now key }
{
    node(table, key).number
}

/// The directory at a key, where it is one.
pub(crate) fn directory(table: &Slab<Stored>, key: usize) -> Option<&StoredDirectory>
    requires live { IsSome (slab_get table.now key) }
    requires distinct { HasDistinctNumbers table.now }
    ensures listing { option_map (λ d. listing_of d.now) result ≡ nodes.listing_at (nodes_of table.now) (number_of_key table.now key) }
{
    match &node(table, key).content {
        StoredContent::Directory(directory) => Some(directory),
        _ => None,
    }
}

/// Whether the node at a key is a directory.
pub(crate) fn is_directory(table: &Slab<Stored>, key: usize) -> bool
    requires live { IsSome (slab_get table.now key) }
    requires distinct { HasDistinctNumbers table.now }
    ensures { result ≡ nodes.is_directory (nodes_of table.now) (number_of_key table.now key) }
{
    directory(table, key).is_some()
}

/// Whether a place's name stands for a node.
pub(crate) fn stands_for(table: &Slab<Stored>, at: &Place, node: usize) -> bool
    requires agrees { AgreesAt (keyed_of table.now) at.now }
    requires live { IsSome (slab_get table.now node) }
    ensures { result ≡ names.is_node (place_at (keyed_of table.now) at.now).node (number_of_key table.now node) }
{
    let own = number(table, node);
    match at.node {
        Some(found) => number(table, found) == own,
        None => false,
    }
}
