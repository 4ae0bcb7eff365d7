//! The calls that change a file's content.
ghost use Rattle.std.specs.Prelude.{◌≡◌, ◌+◌, ◌≤◌, None, IsSome, IfSome, IsOk, IfOk, IfErr, OnOk, OnErr, length, nat_lt, take};
ghost use Rattle.slab.specs.Slab.{get as slab_get};
ghost use Rattle.kernel_core.specs.FileContent.{IsContent, greatest_size, resized};
ghost use Rattle.kernel_core.specs.FileSystem.{IsFileSystem, IsTime};
ghost use Rattle.kernel_core.specs.NodeCalls.{modified_at, write_length, write_refusal, after_write, resize_refusal, after_resize};
ghost use Rattle.kernel_core.specs.Nodes.{file_at};
ghost use Rattle.kernel_core.specs.Totals.{live_blocks};
ghost use Rattle.kernel_core.specs.ValidTree.{block_limit};
ghost use Rattle.native_vfs.specs.Answers.{IsAnswer, IsSureAnswer, LeavesWritten};
ghost use Rattle.native_vfs.specs.Held.{KeepsHeld};
ghost use Rattle.native_vfs.specs.Keyed.{AreKeys, IsLiveKey, number_at};
ghost use Rattle.native_vfs.specs.inside.Steps.{IsFileStep, LeavesPart, file_written};
ghost use Rattle.native_vfs.specs.inside.Stored.{nodes_of, number_of_key};

use crate::file_steps;
use crate::inodes::Inodes;
use crate::vfs::Vfs;
use kernel_core::limits::GREATEST_SIZE;
use kernel_core::{CoreError, Errno};

impl Vfs {
    /// Writes the bytes to a file from byte `at` on and answers how many (pwrite(2)): as many as there
    /// are blocks for. The times of its last modification and change are set. `node` is the key of a live
    /// regular file, and `now` is in nanoseconds since the Epoch, within whole seconds of 64 bits. It is
    /// refused with EFBIG where it would end past 2^44 bytes, and with ENOSPC where no byte has a block; a
    /// write of no byte is never refused, and changes nothing. After NoMemory a first part of the bytes may
    /// be written, and the times are as they were. (The limits are this project's own.)
    pub fn write(
        &mut self,
        node: usize,
        at: u64,
        bytes: &[u8],
        now: i128,
    ) -> Result<usize, CoreError>
        requires live { IsLiveKey self.old node }
        requires file { IsSome (file_at self.old.nodes (number_at self.old node)) }
        requires time { IsTime now }
        ensures answer { IfSome (file_at self.old.nodes (number_at self.old node)) (λ content. IsAnswer (write_refusal self.old.nodes content at (length bytes.now)) result) }
        ensures count { IfSome (file_at self.old.nodes (number_at self.old node)) (λ content. IfOk result (λ n. n ≡ write_length self.old.nodes content at (length bytes.now))) }
        ensures ok { IfOk result (λ n. self.new.nodes ≡ after_write self.old.nodes (number_at self.old node) at (take n bytes.now) now) }
        ensures same { self.new.keys ≡ self.old.keys }
        ensures held { KeepsHeld self.old self.new }
        ensures err { IfSome (file_at self.old.nodes (number_at self.old node)) (λ content.
            IfErr result (λ e. LeavesWritten e self.old self.new (number_at self.old node) at bytes.now (write_length self.old.nodes content at (length bytes.now)))) }
        ensures valid { IsFileSystem self.new.nodes }
        ensures keys { AreKeys self.new }
    {
        write_file(&mut self.inodes, node, at, bytes, now)
    }

    /// Makes `to` a file's size in bytes (ftruncate(2)), and sets the times of its last modification and
    /// change. `node` is the key of a live regular file, and `now` is in nanoseconds since the Epoch, within
    /// whole seconds of 64 bits. It is refused with EFBIG where the size is above 2^44 (this project's own).
    /// It takes no memory.
    pub fn set_size(&mut self, node: usize, to: u64, now: i128) -> Result<(), CoreError>
        requires live { IsLiveKey self.old node }
        requires file { IsSome (file_at self.old.nodes (number_at self.old node)) }
        requires time { IsTime now }
        ensures answer { IsSureAnswer (resize_refusal to) result }
        ensures ok { OnOk result (self.new.nodes ≡ after_resize self.old.nodes (number_at self.old node) to now) }
        ensures same { self.new.keys ≡ self.old.keys }
        ensures held { KeepsHeld self.old self.new }
        ensures err { OnErr result (self.new ≡ self.old) }
        ensures valid { IsFileSystem self.new.nodes }
        ensures keys { AreKeys self.new }
    {
        resize_file(&mut self.inodes, node, to, now)
    }
}

/// Writes to a file, where that is not refused.
fn write_file(
    inodes: &mut Inodes,
    key: usize,
    at: u64,
    bytes: &[u8],
    now: i128,
) -> Result<usize, CoreError>
    requires live { IsSome (slab_get inodes.old.table key) }
    requires file { IsSome (file_at (nodes_of inodes.old.table) (number_of_key inodes.old.table key)) }
    requires content { IfSome (file_at (nodes_of inodes.old.table) (number_of_key inodes.old.table key)) IsContent }
    requires few { live_blocks (nodes_of inodes.old.table) ≤ block_limit }
    ensures answer { IfSome (file_at (nodes_of inodes.old.table) (number_of_key inodes.old.table key)) (λ content. IsAnswer (write_refusal (nodes_of inodes.old.table) content at (length bytes.now)) result) }
    ensures count { IfSome (file_at (nodes_of inodes.old.table) (number_of_key inodes.old.table key)) (λ content. IfOk result (λ n. n ≡ write_length (nodes_of inodes.old.table) content at (length bytes.now))) }
    ensures ok { IfOk result (λ n. IsFileStep inodes.old.table inodes.new.table key (file_written at (take n bytes.now) now)) }
    ensures err { IfSome (file_at (nodes_of inodes.old.table) (number_of_key inodes.old.table key)) (λ content.
        IfErr result (λ e. LeavesPart e inodes.old.table inodes.new.table key at bytes.now (write_length (nodes_of inodes.old.table) content at (length bytes.now)))) }
    ensures entries { inodes.new.entries ≡ inodes.old.entries }
{
    if bytes.is_empty() {
        return Ok(0);
    }
    if ends_past(at, bytes.len()) {
        return Err(CoreError::Refused(Errno::EFBIG));
    }
    if file_steps::is_full(inodes, key, at) {
        return Err(CoreError::Refused(Errno::ENOSPC));
    }
    let count = file_steps::write(inodes, key, at, bytes, now)?;
    Ok(count)
}

/// Whether so many bytes from `at` on end past the greatest size of a file.
fn ends_past(at: u64, count: usize) -> bool
    ensures { result ≡ nat_lt greatest_size (at + count) }
{
    at > GREATEST_SIZE || count as u64 > GREATEST_SIZE - at
}

/// Gives a file another size, where that is not refused.
fn resize_file(inodes: &mut Inodes, key: usize, to: u64, now: i128) -> Result<(), CoreError>
    requires live { IsSome (slab_get inodes.old.table key) }
    requires file { IsSome (file_at (nodes_of inodes.old.table) (number_of_key inodes.old.table key)) }
    requires few { live_blocks (nodes_of inodes.old.table) ≤ block_limit }
    ensures answer { IsSureAnswer (resize_refusal to) result }
    ensures ok { OnOk result (IsFileStep inodes.old.table inodes.new.table key (modified_at now (λ content. resized content to))) }
    ensures err { OnErr result (inodes.new.table ≡ inodes.old.table) }
    ensures entries { inodes.new.entries ≡ inodes.old.entries }
{
    if to > GREATEST_SIZE {
        return Err(CoreError::Refused(Errno::EFBIG));
    }
    file_steps::set_size(inodes, key, to, now);
    Ok(())
}
