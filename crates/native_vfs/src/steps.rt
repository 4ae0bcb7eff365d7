//! The steps of which the calls are made: each changes one node of the table.
ghost use Rattle.std.specs.Prelude.{◌≡◌, ◌+◌, ◌<◌, ◌^◌, Some, None, IsSome, IsOk, OnOk, IfOk, OnErr};
ghost use Rattle.std.specs.FinMap.{get};
ghost use Rattle.std.specs.Option.{unwrap_or};
ghost use Rattle.slab.specs.Slab.{get as slab_get};
ghost use Rattle.kernel_core.specs.NameCalls.{changed_at, one_link_more, one_link_less, unlinked, orphaned, reparented, relisted, with_entry, without_entry};
ghost use Rattle.kernel_core.specs.NodeCalls.{held, let_go, with_mode, with_times};
ghost use Rattle.kernel_core.specs.Nodes.{listing_at};
ghost use Rattle.kernel_core.specs.ValidTree.{IsName};
ghost use Rattle.native_vfs.specs.inside.Steps.{IsSame, IsAddition, IsInsertion, IsRemoval, IsUnnamed, links_at, holds_at};
ghost use Rattle.native_vfs.specs.inside.Stored.{nodes_of, number_of_key, HasDistinctNumbers, HasRoom, Leads, ContentLeads, IsStep, CanAdd};

use crate::stored::{Stored, StoredContent};
use directory_names::NodeRef;
use kernel_core::{Bytes, NoMemory};
use slab::Slab;

/// Sets the time of the last change.
pub(crate) fn mark_changed(table: &mut Slab<Stored>, key: usize, now: i128)
    requires live { IsSome (slab_get table.old key) }
    requires distinct { HasDistinctNumbers table.old }
    ensures step { IsStep table.old table.new key (changed_at now) }
{
    let node = &mut table[key];
    node.changed = now;
}

/// Counts one more link.
pub(crate) fn add_link(table: &mut Slab<Stored>, key: usize)
    requires live { IsSome (slab_get table.old key) }
    requires distinct { HasDistinctNumbers table.old }
    requires few { links_at table.old key + 1 < 2 ^ 32 }
    ensures step { IsStep table.old table.new key one_link_more }
{
    let node = &mut table[key];
    node.links += 1;
}

/// Counts one link less.
pub(crate) fn drop_link(table: &mut Slab<Stored>, key: usize)
    requires live { IsSome (slab_get table.old key) }
    requires distinct { HasDistinctNumbers table.old }
    requires some { 0 < links_at table.old key }
    ensures step { IsStep table.old table.new key one_link_less }
{
    let node = &mut table[key];
    node.links -= 1;
}

/// Counts one more name of a file or link, and sets the time of its last change.
pub(crate) fn link(table: &mut Slab<Stored>, key: usize, now: i128)
    requires live { IsSome (slab_get table.old key) }
    requires distinct { HasDistinctNumbers table.old }
    requires few { links_at table.old key + 1 < 2 ^ 32 }
    ensures step { IsStep table.old table.new key (λ i. changed_at now (one_link_more i)) }
{
    let node = &mut table[key];
    node.links += 1;
    node.changed = now;
}

/// Counts one name of a file or link less, and sets the time of its last change.
pub(crate) fn unlink(table: &mut Slab<Stored>, key: usize, now: i128)
    requires live { IsSome (slab_get table.old key) }
    requires distinct { HasDistinctNumbers table.old }
    requires some { 0 < links_at table.old key }
    ensures step { IsStep table.old table.new key (unlinked now) }
{
    let node = &mut table[key];
    node.links -= 1;
    node.changed = now;
}

/// A directory has lost its name: it has no parent and no link.
pub(crate) fn orphan(table: &mut Slab<Stored>, key: usize)
    requires live { IsSome (slab_get table.old key) }
    requires distinct { HasDistinctNumbers table.old }
    ensures step { IsStep table.old table.new key orphaned }
{
    let node = &mut table[key];
    node.links = 0;
    if let StoredContent::Directory(directory) = &mut node.content {
        directory.parent = None;
    }
}

/// Gives a directory another parent.
pub(crate) fn reparent(table: &mut Slab<Stored>, key: usize, parent: NodeRef)
    requires live { IsSome (slab_get table.old key) }
    requires distinct { HasDistinctNumbers table.old }
    requires leads { Leads table.old parent }
    ensures step { IsStep table.old table.new key (reparented parent.number) }
{
    let node = &mut table[key];
    if let StoredContent::Directory(directory) = &mut node.content {
        directory.parent = Some(parent);
    }
}

/// Counts one more hold.
pub(crate) fn hold(table: &mut Slab<Stored>, key: usize)
    requires live { IsSome (slab_get table.old key) }
    requires distinct { HasDistinctNumbers table.old }
    requires few { holds_at table.old key + 1 < 2 ^ 32 }
    ensures step { IsStep table.old table.new key held }
{
    let node = &mut table[key];
    node.holds += 1;
}

/// Counts one hold less.
pub(crate) fn let_go(table: &mut Slab<Stored>, key: usize)
    requires live { IsSome (slab_get table.old key) }
    requires distinct { HasDistinctNumbers table.old }
    requires some { 0 < holds_at table.old key }
    ensures step { IsStep table.old table.new key let_go }
{
    let node = &mut table[key];
    node.holds -= 1;
}

/// Sets the twelve mode bits and the time of the last change.
pub(crate) fn set_mode(table: &mut Slab<Stored>, key: usize, mode: u16, now: i128)
    requires live { IsSome (slab_get table.old key) }
    requires distinct { HasDistinctNumbers table.old }
    ensures step { IsStep table.old table.new key (with_mode mode now) }
{
    let node = &mut table[key];
    node.mode = mode;
    node.changed = now;
}

/// Sets the times of the last access and modification, where they are given, and that of the last change.
pub(crate) fn set_times(
    table: &mut Slab<Stored>,
    key: usize,
    access: Option<i128>,
    modified: Option<i128>,
    now: i128,
)
    requires live { IsSome (slab_get table.old key) }
    requires distinct { HasDistinctNumbers table.old }
    ensures step { IsStep table.old table.new key (with_times access modified now) }
{
    let node = &mut table[key];
    give_times(node, access, modified, now);
}

/// Sets the times of the last access and modification, where they are given, and that of the last change.
fn give_times(node: &mut Stored, access: Option<i128>, modified: Option<i128>, now: i128)
    ensures { node.new ≡ record node.old { access = unwrap_or access node.old.access; modified = unwrap_or modified node.old.modified; changed = now } }
{
    node.access = access.unwrap_or(node.access);
    node.modified = modified.unwrap_or(node.modified);
    node.changed = now;
}

/// Makes room for one more name in a directory.
pub(crate) fn reserve_name(table: &mut Slab<Stored>, dir: usize) -> Result<(), NoMemory>
    requires live { IsSome (slab_get table.old dir) }
    requires distinct { HasDistinctNumbers table.old }
    requires directory { IsSome (listing_at (nodes_of table.old) (number_of_key table.old dir)) }
    ensures same { IsSame table.old table.new }
    ensures room { OnOk result (HasRoom table.new dir) }
{
    let node = &mut table[dir];
    match &mut node.content {
        StoredContent::Directory(directory) => directory.names.reserve(),
        _ => unreachable!(),
    }
}

/// Adds a name to a directory that has room for it, and sets the times of its last modification and change.
pub(crate) fn add_name(table: &mut Slab<Stored>, dir: usize, name: Bytes, node: NodeRef, now: i128)
    requires live { IsSome (slab_get table.old dir) }
    requires distinct { HasDistinctNumbers table.old }
    requires room { HasRoom table.old dir }
    requires name { IsName name }
    requires leads { Leads table.old node }
    requires can { CanAdd (listing_at (nodes_of table.old) (number_of_key table.old dir)) name }
    ensures step { IsAddition table.old table.new dir (relisted now (with_entry name node.number)) }
{
    let stored = &mut table[dir];
    stored.modified = now;
    stored.changed = now;
    if let StoredContent::Directory(directory) = &mut stored.content {
        directory.names.add(name, node);
    }
}

/// Takes a name from a directory, where it has it, and sets the times of its last modification and change.
pub(crate) fn take_name(table: &mut Slab<Stored>, dir: usize, name: &[u8], now: i128)
    requires live { IsSome (slab_get table.old dir) }
    requires distinct { HasDistinctNumbers table.old }
    ensures step { IsStep table.old table.new dir (relisted now (without_entry name.now)) }
{
    let node = &mut table[dir];
    node.modified = now;
    node.changed = now;
    if let StoredContent::Directory(directory) = &mut node.content {
        directory.names.remove(name);
    }
}

/// Takes in a node under a key of the table's choice. After an error nothing has changed.
pub(crate) fn insert(table: &mut Slab<Stored>, node: Stored) -> Result<usize, NoMemory>
    requires distinct { HasDistinctNumbers table.old }
    requires new { get (nodes_of table.old) node.number ≡ None }
    requires leads { ContentLeads table.old node.content }
    ensures ok { IfOk result (λ key. IsInsertion table.old table.new key node) }
    ensures err { OnErr result (IsSame table.old table.new) }
{
    let key = table.insert(node)?;
    Ok(key)
}

/// Takes out a node that no name and no parent of a directory is.
pub(crate) fn remove(table: &mut Slab<Stored>, key: usize)
    requires live { IsSome (slab_get table.old key) }
    requires distinct { HasDistinctNumbers table.old }
    requires unnamed { IsUnnamed (nodes_of table.old) (number_of_key table.old key) }
    ensures removal { IsRemoval table.old table.new key }
{
    table.remove(key);
}
