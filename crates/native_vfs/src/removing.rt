//! The calls that take a name away.
ghost use Rattle.std.specs.Prelude.{◌≡◌, Some, OnOk, OnErr, true, false};
ghost use Rattle.kernel_core.specs.FileSystem.{IsFileSystem, IsTime};
ghost use Rattle.kernel_core.specs.NameCalls as names;
ghost use Rattle.kernel_core.specs.Nodes.{is_directory};
ghost use Rattle.native_vfs.specs.Answers.{IsSureAnswer, with_node};
ghost use Rattle.native_vfs.specs.Held.{KeepsHeld};
ghost use Rattle.native_vfs.specs.Keyed.{AreKeys, AgreesAt, KeepsKeys, place_at};
ghost use Rattle.native_vfs.specs.inside.Removals.{IsLoss};
ghost use Rattle.native_vfs.specs.inside.Stored.{nodes_of, keyed_of, number_of_key, IsSound};

use crate::inodes::Inodes;
use crate::place::Place;
use crate::refusals::{rmdir_refusal, unlink_refusal};
use crate::settle::settle;
use crate::steps::{drop_link, orphan, take_name, unlink};
use crate::vfs::Vfs;
use kernel_core::CoreError;

impl Vfs {
    /// Takes a name away from a file or symbolic link (unlink(2)), which goes where that was its last name
    /// and nothing holds it. It is refused with ENOENT where nothing has the name, and with EISDIR where a
    /// directory has it. After an error nothing has changed, and it takes no memory. `now` is in
    /// nanoseconds since the Epoch, within whole seconds of 64 bits.
    pub fn unlink(&mut self, at: &Place, now: i128) -> Result<(), CoreError>
        requires agrees { AgreesAt self.old at.now }
        requires time { IsTime now }
        ensures answer { IsSureAnswer (names.unlink_refusal self.old.nodes (place_at self.old at.now)) result }
        ensures ok { OnOk result (self.new.nodes ≡ with_node (place_at self.old at.now).node self.old.nodes (λ node. names.after_unlink self.old.nodes (place_at self.old at.now) node now)) }
        ensures kept { OnOk result (KeepsKeys self.old self.new) }
        ensures err { OnErr result (self.new ≡ self.old) }
        ensures held { KeepsHeld self.old self.new }
        ensures valid { IsFileSystem self.new.nodes }
        ensures keys { AreKeys self.new }
    {
        if let Some(error) = unlink_refusal(&self.inodes, at) {
            return Err(CoreError::Refused(error));
        }
        let Some(node) = at.node else { unreachable!() };
        unlink_at(&mut self.inodes, at, node, now);
        Ok(())
    }

    /// Takes its name away from an empty directory (rmdir(2)), which goes where nothing holds it. It is
    /// refused with ENOENT where nothing has the name, EINVAL for `.`, ENOTEMPTY for `..`, EBUSY for the
    /// root, EINVAL for the empty name of another directory (this project's own), ENOTDIR where it is no
    /// directory, and ENOTEMPTY where it has entries. After an error nothing has changed, and it takes no
    /// memory. `now` is in nanoseconds since the Epoch, within whole seconds of 64 bits.
    pub fn rmdir(&mut self, at: &Place, now: i128) -> Result<(), CoreError>
        requires agrees { AgreesAt self.old at.now }
        requires time { IsTime now }
        ensures answer { IsSureAnswer (names.rmdir_refusal self.old.nodes (place_at self.old at.now)) result }
        ensures ok { OnOk result (self.new.nodes ≡ with_node (place_at self.old at.now).node self.old.nodes (λ node. names.after_rmdir self.old.nodes (place_at self.old at.now) node now)) }
        ensures kept { OnOk result (KeepsKeys self.old self.new) }
        ensures err { OnErr result (self.new ≡ self.old) }
        ensures held { KeepsHeld self.old self.new }
        ensures valid { IsFileSystem self.new.nodes }
        ensures keys { AreKeys self.new }
    {
        if let Some(error) = rmdir_refusal(&self.inodes, at) {
            return Err(CoreError::Refused(error));
        }
        let Some(node) = at.node else { unreachable!() };
        rmdir_at(&mut self.inodes, at, node, now);
        Ok(())
    }
}

/// Takes a name away from a file or symbolic link.
pub(crate) fn unlink_at(inodes: &mut Inodes, at: &Place, node: usize, now: i128)
    requires sound { IsSound inodes.old.table inodes.old.entries }
    requires agrees { AgreesAt (keyed_of inodes.old.table) at.now }
    requires node { at.now.node ≡ Some node }
    requires file { is_directory (nodes_of inodes.old.table) (number_of_key inodes.old.table node) ≡ false }
    requires time { IsTime now }
    ensures nodes { nodes_of inodes.new.table ≡ names.after_unlink (nodes_of inodes.old.table) (place_at (keyed_of inodes.old.table) at.now) (number_of_key inodes.old.table node) now }
    ensures sound { IsSound inodes.new.table inodes.new.entries }
    ensures loss { IsLoss inodes.old.table inodes.new.table node }
{
    take_name(&mut inodes.table, at.dir, at.name.as_slice(), now);
    unlink(&mut inodes.table, node, now);
    settle(inodes, node);
    inodes.entries -= 1;
}

/// Takes its name away from an empty directory.
pub(crate) fn rmdir_at(inodes: &mut Inodes, at: &Place, node: usize, now: i128)
    requires sound { IsSound inodes.old.table inodes.old.entries }
    requires agrees { AgreesAt (keyed_of inodes.old.table) at.now }
    requires node { at.now.node ≡ Some node }
    requires entry { names.is_no_entry at.now.name ≡ false }
    requires directory { is_directory (nodes_of inodes.old.table) (number_of_key inodes.old.table node) ≡ true }
    requires empty { names.has_entries (nodes_of inodes.old.table) (number_of_key inodes.old.table node) ≡ false }
    requires time { IsTime now }
    ensures nodes { nodes_of inodes.new.table ≡ names.after_rmdir (nodes_of inodes.old.table) (place_at (keyed_of inodes.old.table) at.now) (number_of_key inodes.old.table node) now }
    ensures sound { IsSound inodes.new.table inodes.new.entries }
    ensures loss { IsLoss inodes.old.table inodes.new.table node }
{
    take_name(&mut inodes.table, at.dir, at.name.as_slice(), now);
    drop_link(&mut inodes.table, at.dir);
    orphan(&mut inodes.table, node);
    settle(inodes, node);
    inodes.entries -= 1;
}
