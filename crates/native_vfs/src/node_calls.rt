//! The calls on one node: its holds, its mode and times, and what it is.
ghost use Rattle.std.specs.Prelude.{◌≡◌, ◌+◌, ◌-◌, ◌<◌, ◌≤◌, ◌^◌, IfSome};
ghost use Rattle.kernel_core.specs.FileSystem.{IsFileSystem, IsTime};
ghost use Rattle.kernel_core.specs.NodeCalls.{held, released, with_mode, with_times};
ghost use Rattle.kernel_core.specs.Nodes.{update};
ghost use Rattle.kernel_core.specs.ValidTree.{greatest_mode};
ghost use Rattle.native_vfs.specs.Held.{KeepsHeld, ChangesHeld};
ghost use Rattle.native_vfs.specs.Keyed.{AreKeys, IsLiveKey, KeepsKeys, number_at, inode_at};

use crate::settle::settle;
use crate::steps;
use crate::vfs::Vfs;

impl Vfs {
    /// Holds a node once more, as a file description that has it open does, or a use as working
    /// directory (open(2), chdir(2)): it stays, also without a name, until it is released as often.
    /// `node` is the key of a live node of any kind, which has fewer than 2^32 - 1 holds (this project's
    /// own limit).
    pub fn hold(&mut self, node: usize)
        requires live { IsLiveKey self.old node }
        requires few { IfSome (inode_at self.old node) (λ inode. inode.holds + 1 < 2 ^ 32) }
        ensures nodes { self.new.nodes ≡ update self.old.nodes (number_at self.old node) held }
        ensures same { self.new.keys ≡ self.old.keys }
        ensures held { ChangesHeld self.old self.new (number_at self.old node) (λ holds. holds + 1) }
        ensures valid { IsFileSystem self.new.nodes }
        ensures keys { AreKeys self.new }
    {
        steps::hold(&mut self.inodes.table, node);
    }

    /// Releases one of a node's holds (close(2)). A node that has no name and no other hold goes, and its
    /// key with it. `node` is the key of a live node of any kind, which was held more often than released.
    pub fn release(&mut self, node: usize)
        requires live { IsLiveKey self.old node }
        requires held { IfSome (inode_at self.old node) (λ inode. 0 < inode.holds) }
        ensures nodes { self.new.nodes ≡ released self.old.nodes (number_at self.old node) }
        ensures kept { KeepsKeys self.old self.new }
        ensures held { ChangesHeld self.old self.new (number_at self.old node) (λ holds. holds - 1) }
        ensures valid { IsFileSystem self.new.nodes }
        ensures keys { AreKeys self.new }
    {
        steps::let_go(&mut self.inodes.table, node);
        settle(&mut self.inodes, node);
    }

    /// Sets the twelve mode bits of a node, and the time of its last change (chmod(2)). `node` is the key
    /// of a live node of any kind, `mode` is at most 0o7777, and `now` is in nanoseconds since the Epoch,
    /// within whole seconds of 64 bits.
    pub fn set_mode(&mut self, node: usize, mode: u16, now: i128)
        requires live { IsLiveKey self.old node }
        requires mode { mode ≤ greatest_mode }
        requires time { IsTime now }
        ensures nodes { self.new.nodes ≡ update self.old.nodes (number_at self.old node) (with_mode mode now) }
        ensures same { self.new.keys ≡ self.old.keys }
        ensures held { KeepsHeld self.old self.new }
        ensures valid { IsFileSystem self.new.nodes }
        ensures keys { AreKeys self.new }
    {
        steps::set_mode(&mut self.inodes.table, node, mode, now);
    }

    /// Sets the times of a node's last access and last modification where they are given, and that of
    /// its last change (utimensat(2)). `node` is the key of a live node of any kind, and each time is in
    /// nanoseconds since the Epoch, within whole seconds of 64 bits.
    pub fn set_times(
        &mut self,
        node: usize,
        access: Option<i128>,
        modified: Option<i128>,
        now: i128,
    )
        requires live { IsLiveKey self.old node }
        requires access { IfSome access IsTime }
        requires modified { IfSome modified IsTime }
        requires time { IsTime now }
        ensures nodes { self.new.nodes ≡ update self.old.nodes (number_at self.old node) (with_times access modified now) }
        ensures same { self.new.keys ≡ self.old.keys }
        ensures held { KeepsHeld self.old self.new }
        ensures valid { IsFileSystem self.new.nodes }
        ensures keys { AreKeys self.new }
    {
        steps::set_times(&mut self.inodes.table, node, access, modified, now);
    }
}
