//! The call that moves a name.
ghost use Rattle.std.specs.Prelude.{◌≡◌, ◌+◌, ◌<◌, ◌^◌, ℕ, Some, None, IsSome, IfOk, OnOk, OnErr, false};
ghost use Rattle.slab.specs.Slab.{get as slab_get};
ghost use Rattle.kernel_core.specs.FileSystem.{IsFileSystem, IsTime};
ghost use Rattle.kernel_core.specs.NameCalls as names;
ghost use Rattle.kernel_core.specs.Nodes.{listing_at, update};
ghost use Rattle.kernel_core.specs.ValidTree.{IsName};
ghost use Rattle.native_vfs.specs.Answers.{IsAnswer, with_node};
ghost use Rattle.native_vfs.specs.Held.{KeepsHeld};
ghost use Rattle.native_vfs.specs.Keyed.{AreKeys, AgreesAt, KeepsKeys, place_at, number_at};
ghost use Rattle.native_vfs.specs.inside.Renames.{entry_moved, MayGive, IsCleared, Becomes};
ghost use Rattle.native_vfs.specs.inside.Steps.{IsSame, links_at};
ghost use Rattle.native_vfs.specs.inside.Stored.{nodes_of, keyed_of, number_of_key, HasDistinctNumbers, HasRoom, CanAdd, IsSound};

use crate::inodes::Inodes;
use crate::place::Place;
use crate::refusals::rename_refusal;
use crate::removing::{rmdir_at, unlink_at};
use crate::steps::{
    add_link, add_name, drop_link, mark_changed, reparent, reserve_name, take_name,
};
use crate::stored::{Stored, copied};
use crate::table::{is_directory, number, stands_for};
use crate::vfs::Vfs;
use directory_names::NodeRef;
use kernel_core::{Bytes, CoreError, NoMemory};
use slab::Slab;
use std::alloc::Global;

impl Vfs {
    /// Moves a name (rename(2)). What stood under the new name loses it, as by unlink(2) or rmdir(2); two
    /// names of one node are left as they are. It is refused with ENOENT where nothing has the old name;
    /// EBUSY where either name is `.`, `..` or empty; EINVAL where a directory would go into its own
    /// subtree; ENOTDIR, ENOTEMPTY or EISDIR by what is replaced; ENOENT where the new directory was
    /// removed; and ENOSPC where it has no cookie left. `..` in a removed directory names nothing: as the old
    /// name it is ENOENT there, and as the new one EBUSY, with a slash behind it too. After an error, also for
    /// want of memory, nothing has changed. `now` is in nanoseconds since the Epoch, within whole seconds of 64
    /// bits.
    pub fn rename(&mut self, from: &Place, to: &Place, now: i128) -> Result<(), CoreError>
        requires from { AgreesAt self.old from.now }
        requires to { AgreesAt self.old to.now }
        requires time { IsTime now }
        ensures answer { IsAnswer (names.rename_refusal self.old.nodes (place_at self.old from.now) (place_at self.old to.now)) result }
        ensures ok { OnOk result (self.new.nodes ≡ with_node (place_at self.old from.now).node self.old.nodes (λ moved. names.after_rename self.old.nodes (place_at self.old from.now) (place_at self.old to.now) moved now)) }
        ensures kept { OnOk result (KeepsKeys self.old self.new) }
        ensures err { OnErr result (self.new ≡ self.old) }
        ensures held { KeepsHeld self.old self.new }
        ensures valid { IsFileSystem self.new.nodes }
        ensures keys { AreKeys self.new }
    {
        if let Some(error) = rename_refusal(&self.inodes, from, to) {
            return Err(CoreError::Refused(error));
        }
        let Some(moved) = from.node else {
            unreachable!()
        };
        if stands_for(&self.inodes.table, to, moved) {
            return Ok(());
        }
        self.move_entry(from, to, moved, now)?;
        Ok(())
    }

    /// Moves a node's name to one that stands for another node or for none. After an error nothing has
    /// changed.
    fn move_entry(
        &mut self,
        from: &Place,
        to: &Place,
        moved: usize,
        now: i128,
    ) -> Result<(), NoMemory>
        requires from { AgreesAt self.old from.now }
        requires to { AgreesAt self.old to.now }
        requires time { IsTime now }
        requires node { from.now.node ≡ Some moved }
        requires other { names.is_node (place_at self.old to.now).node (number_at self.old moved) ≡ false }
        requires allowed { names.rename_refusal self.old.nodes (place_at self.old from.now) (place_at self.old to.now) ≡ None }
        ensures ok { OnOk result (self.new.nodes ≡ names.after_move self.old.nodes (place_at self.old from.now) (place_at self.old to.now) (number_at self.old moved) now) }
        ensures kept { OnOk result (KeepsKeys self.old self.new) }
        ensures err { OnErr result (self.new ≡ self.old) }
        ensures valid { IsFileSystem self.new.nodes }
        ensures keys { AreKeys self.new }
    {
        let name = new_name(&mut self.inodes.table, to, self.alloc)?;
        clear(&mut self.inodes, to, now);
        move_name(&mut self.inodes.table, from, moved, to.dir, name, now);
        Ok(())
    }
}

/// A place's name in memory of its own, and room for it in the place's directory.
fn new_name(table: &mut Slab<Stored>, at: &Place, alloc: Global) -> Result<Bytes, NoMemory>
    requires distinct { HasDistinctNumbers table.old }
    requires agrees { AgreesAt (keyed_of table.old) at.now }
    ensures same { IsSame table.old table.new }
    ensures name { IfOk result (λ name. name ≡ at.now.name) }
    ensures room { OnOk result (HasRoom table.new at.now.dir) }
{
    let name = copied(alloc, at.name.as_slice())?;
    reserve_name(table, at.dir)?;
    Ok(name)
}

/// Takes away a name that is to stand for another node, where it stands for one.
fn clear(inodes: &mut Inodes, at: &Place, now: i128)
    requires sound { IsSound inodes.old.table inodes.old.entries }
    requires agrees { AgreesAt (keyed_of inodes.old.table) at.now }
    requires entry { names.is_no_entry at.now.name ≡ false }
    requires gives { MayGive (nodes_of inodes.old.table) (place_at (keyed_of inodes.old.table) at.now).node }
    requires time { IsTime now }
    ensures nodes { nodes_of inodes.new.table ≡ names.replace_name (nodes_of inodes.old.table) (place_at (keyed_of inodes.old.table) at.now) (place_at (keyed_of inodes.old.table) at.now).node now }
    ensures sound { IsSound inodes.new.table inodes.new.entries }
    ensures cleared { IsCleared inodes.old.table inodes.new.table at.now.dir }
{
    let Some(old) = at.node else {
        return;
    };
    if is_directory(&inodes.table, old) {
        rmdir_at(inodes, at, old, now);
    } else {
        unlink_at(inodes, at, old, now);
    }
}

/// Moves a node's name to one that stands for nothing, in a directory that has room for it.
fn move_name(
    table: &mut Slab<Stored>,
    from: &Place,
    moved: usize,
    dir: usize,
    name: Bytes,
    now: i128,
)
    requires distinct { HasDistinctNumbers table.old }
    requires from { IsSome (slab_get table.old from.now.dir) }
    requires moved { IsSome (slab_get table.old moved) }
    requires dir { IsSome (slab_get table.old dir) }
    requires room { HasRoom table.old dir }
    requires name { IsName name }
    requires can { CanAdd (listing_at (names.take_name (nodes_of table.old) (number_of_key table.old from.now.dir) from.now.name now) (number_of_key table.old dir)) name }
    requires some { 0 < links_at table.old from.now.dir }
    requires few { links_at table.old dir + 1 < 2 ^ 32 }
    ensures becomes { Becomes table.old table.new (entry_moved (nodes_of table.old) (number_of_key table.old from.now.dir) from.now.name (number_of_key table.old moved) (number_of_key table.old dir) name now) }
{
    let node = NodeRef {
        number: number(table, moved),
        key: moved,
    };
    take_name(table, from.dir, from.name.as_slice(), now);
    add_name(table, dir, name, node, now);
    change_parent(table, moved, from.dir, dir);
    mark_changed(table, moved, now);
}

/// Gives a directory that went from one directory to another its new parent; what is no directory has none.
fn change_parent(table: &mut Slab<Stored>, moved: usize, from: usize, to: usize)
    requires distinct { HasDistinctNumbers table.old }
    requires moved { IsSome (slab_get table.old moved) }
    requires from { IsSome (slab_get table.old from) }
    requires to { IsSome (slab_get table.old to) }
    requires some { 0 < links_at table.old from }
    requires few { links_at table.old to + 1 < 2 ^ 32 }
    ensures becomes { Becomes table.old table.new (names.move_parent (nodes_of table.old) (number_of_key table.old moved) (number_of_key table.old from) (number_of_key table.old to)) }
{
    if is_directory(table, moved) {
        let parent = NodeRef {
            number: number(table, to),
            key: to,
        };
        drop_link(table, from);
        add_link(table, to);
        reparent(table, moved, parent);
    }
}
