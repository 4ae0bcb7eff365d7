//! What is done with an open node, by its key.
ghost use Rattle.std.specs.Prelude.{◌≡◌, ◌+◌, ◌<◌, ◌≤◌, ◌^◌, IsSome, IfOk, IfSome, Some, length};
ghost use Rattle.std.specs.FinMap as map;
ghost use Rattle.kernel_core.specs.FileContent.{greatest_size};
ghost use Rattle.kernel_core.specs.FileSystem.{IsFileSystem, IsTime};
ghost use Rattle.kernel_core.specs.Nodes.{Inode, file_at};
ghost use Rattle.kernel_model.specs.Came.{came_as};
ghost use Rattle.kernel_model.specs.ContentRows.{node_status, size_of};
ghost use Rattle.kernel_model.specs.Descriptions.{content_at};
ghost use Rattle.kernel_model.specs.Table.{description_at};
ghost use Rattle.kernel_model.specs.Transfers.{write_place};
ghost use Rattle.native_files.specs.Answers.{IsStatus, came_of, filled, status_told};
ghost use Rattle.native_files.specs.inside.Contents.{WritesNode, content_read, shown};
ghost use Rattle.native_files.specs.inside.Kept.{AreKeyed, node_in};
ghost use Rattle.native_vfs.specs.Held.{KeepsHeld};
ghost use Rattle.native_vfs.specs.Keyed.{IsLiveKey, Keyed, inode_at, number_at};

use crate::progress::Status;
use kernel_core::{CoreError, Errno};
use kernel_model::Description;
use native_fd::Table;
use native_vfs::{NodeKind, Status as NodeStatus, Vfs};

/// The device on which nodes lie (`st_dev` of stat(2), this project's own).
const NODE_DEVICE: u64 = 1;

/// What a write to a file took.
#[derive(Clone, Copy)]
pub(crate) struct Written {
    /// How many bytes.
    pub(crate) count: usize,
    /// The place behind the last of them.
    pub(crate) end: u64,
}

/// The key of the node that a descriptor has open.
pub(crate) fn key_at(table: &Table<Description>, node_keys: &[usize], fd: u32) -> usize
    requires sized { length node_keys.now ≡ 1024 }
    requires open { IsSome (node_in (description_at table.now fd)) }
    ensures { (system : Keyed) → AreKeyed system table.now.live node_keys.now → map.get system.keys result ≡ node_in (description_at table.now fd) }
{
    match table.number(fd) {
        Some(number) => node_keys[number as usize],
        None => unreachable!(),
    }
}

/// Reads a file from byte `at` on into the beginning of a buffer, as far as it goes, and tells how many
/// bytes. EISDIR for a directory; EBADF for a symbolic link.
pub(crate) fn read_file(vfs: &Vfs, key: usize, at: u64, buffer: &mut [u8]) -> Result<usize, Errno>
    requires live { IsLiveKey vfs.now key }
    requires valid { IsFileSystem vfs.now.nodes }
    ensures came { came_of result ≡ came_as length (content_read at (length buffer.old) (content_at vfs.now.nodes (number_at vfs.now key))) }
    ensures stored { buffer.new ≡ filled buffer.old (content_read at (length buffer.old) (content_at vfs.now.nodes (number_at vfs.now key))) }
    ensures end { IfOk result (λ count. at + count < 2 ^ 64) }
{
    match vfs.kind(key) {
        NodeKind::File => Ok(vfs.read(key, at, buffer)),
        NodeKind::Directory => Err(Errno::EISDIR),
        NodeKind::Link => Err(Errno::EBADF),
    }
}

/// Writes to a file from byte `at` on, or under `append` from its end on. EBADF for another node; EFBIG and
/// ENOSPC as pwrite(2) has them. After NoMemory a first part may be written.
pub(crate) fn write_file(
    vfs: &mut Vfs,
    key: usize,
    append: bool,
    at: u64,
    bytes: &[u8],
    now: i128,
) -> Result<Written, CoreError>
    requires live { IsLiveKey vfs.old key }
    requires time { IsTime now }
    requires valid { IsFileSystem vfs.old.nodes }
    ensures written { WritesNode vfs.old.nodes now (number_at vfs.old key) append at bytes.now (file_at vfs.old.nodes (number_at vfs.old key)) result vfs.new.nodes }
    ensures same { vfs.new.keys ≡ vfs.old.keys }
    ensures held { KeepsHeld vfs.old vfs.new }
    ensures valid { IsFileSystem vfs.new.nodes }
    ensures within { IfOk result (λ written. written.count ≤ length bytes.now) }
{
    match vfs.kind(key) {
        NodeKind::File => {
            let begin = write_begin(vfs, key, append, at);
            match vfs.write(key, begin, bytes, now) {
                Ok(count) => Ok(Written {
                    count,
                    end: begin + count as u64,
                }),
                Err(error) => Err(error),
            }
        }
        NodeKind::Directory => Err(CoreError::Refused(Errno::EBADF)),
        NodeKind::Link => Err(CoreError::Refused(Errno::EBADF)),
    }
}

/// Where a write to a file begins.
fn write_begin(vfs: &Vfs, key: usize, append: bool, at: u64) -> u64
    requires live { IsLiveKey vfs.now key }
    ensures { IfSome (file_at vfs.now.nodes (number_at vfs.now key)) (λ content. result ≡ write_place append at content) }
{
    if append { vfs.status(key).size } else { at }
}

/// The size of a file, or None for another node.
pub(crate) fn file_size(vfs: &Vfs, key: usize) -> Option<u64>
    requires live { IsLiveKey vfs.now key }
    requires valid { IsFileSystem vfs.now.nodes }
    ensures size { result ≡ size_of (content_at vfs.now.nodes (number_at vfs.now key)) }
    ensures small { IfSome result (λ size. size ≤ greatest_size) }
{
    match vfs.kind(key) {
        NodeKind::File => Some(vfs.status(key).size),
        NodeKind::Directory => None,
        NodeKind::Link => None,
    }
}

/// What stat(2) tells of a node.
pub(crate) fn node_status(vfs: &Vfs, key: usize) -> Status
    requires live { IsLiveKey vfs.now key }
    requires valid { IsFileSystem vfs.now.nodes }
    ensures told { (inode : Inode) × (inode_at vfs.now key ≡ Some inode) × (status_told result ≡ node_status (number_at vfs.now key) inode) }
    ensures fits { IsStatus result }
{
    shown(vfs.status(key))
}

fn shown(status: NodeStatus) -> Status
    ensures { status_told result ≡ shown status }
{
    Status {
        device: NODE_DEVICE,
        number: status.number,
        mode: u32::from(status.mode),
        links: status.links,
        terminal_device: 0,
        size: status.size,
        sectors: status.blocks,
        access: status.access,
        modified: status.modified,
        changed: status.changed,
    }
}
