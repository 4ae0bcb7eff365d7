//! What one node is: its status, its bytes, its target, its parent and its entries.
ghost use Rattle.std.specs.Prelude.{◌≡◌, ◌<◌, ◌≤◌, ◌^◌, true, Some, IsSome, IfSome, length, option_map};
ghost use Rattle.std.specs.FinMap as map;
ghost use Rattle.kernel_core.specs.FileContent.{readable, read_into};
ghost use Rattle.kernel_core.specs.FileSystem.{parent_at};
ghost use Rattle.kernel_core.specs.NodeCalls.{entry_above, type_bits, content_size, content_sectors};
ghost use Rattle.kernel_core.specs.Nodes.{Inode, file_at, target_at, listing_at, is_directory, entries_in};
ghost use Rattle.kernel_core.specs.Queries.{kind_at};
ghost use Rattle.kernel_core.specs.ValidTree.{greatest_mode, root};
ghost use Rattle.native_vfs.specs.Keyed.{IsLiveKey, number_at, inode_at};
ghost use Rattle.native_vfs.specs.Seen.{kind_told, status_of, shown_entry};
ghost use Rattle.native_vfs.specs.inside.Stored.{content_of, inode_of};

use crate::place::{NodeKind, Status};
use crate::stored::{Stored, StoredContent};
use crate::vfs::Vfs;
use kernel_core::limits::BLOCK_SIZE;

/// The type bits of a regular file in a mode (inode(7)).
const S_IFREG: u16 = 0o100_000;

/// The type bits of a directory in a mode (inode(7)).
const S_IFDIR: u16 = 0o040_000;

/// The type bits of a symbolic link in a mode (inode(7)).
const S_IFLNK: u16 = 0o120_000;

/// The size of a directory in bytes, which is that of one block (this project's own).
const DIRECTORY_SIZE: u64 = BLOCK_SIZE as u64;

/// The unit of `st_blocks` in bytes (stat(2)).
const SECTOR_SIZE: usize = 512;

/// How many units of `st_blocks` a block has.
const SECTORS_PER_BLOCK: u32 = (BLOCK_SIZE / SECTOR_SIZE) as u32;

impl Vfs {
    /// The key of the root (path_resolution(7)), which always lives. It takes no memory.
    pub fn root_key(&self) -> usize
        ensures key { map.get self.now.keys result ≡ Some root }
        ensures directory { is_directory self.now.nodes root ≡ true }
    {
        self.root
    }

    /// What a node is (inode(7)), of which `node` is the key: a live one of any kind. It takes no memory.
    pub fn kind(&self, node: usize) -> NodeKind
        requires live { IsLiveKey self.now node }
        ensures { kind_at self.now.nodes (number_at self.now node) ≡ Some (kind_told result) }
    {
        match &self.inodes.table[node].content {
            StoredContent::File(_) => NodeKind::File,
            StoredContent::Directory(_) => NodeKind::Directory,
            StoredContent::Link(_) => NodeKind::Link,
        }
    }

    /// What stat(2) tells of a node, of which `node` is the key: a live one of any kind. It takes no memory.
    pub fn status(&self, node: usize) -> Status
        requires live { IsLiveKey self.now node }
        ensures { (inode : Inode) × (inode_at self.now node ≡ Some inode) × (result ≡ status_of (number_at self.now node) inode) }
    {
        let stored = &self.inodes.table[node];
        describe(stored)
    }

    /// The number of a node (inode(7)), of which `node` is the key: a live one of any kind. It takes no memory.
    pub fn number(&self, node: usize) -> u64
        requires live { IsLiveKey self.now node }
        ensures { result ≡ number_at self.now node }
    {
        self.inodes.table[node].number
    }

    /// Reads a file from byte `at` on into the beginning of `buf`, as many bytes as there are before its
    /// end, and answers their number (pread(2)). The rest of `buf` stays as it was. `node` is the key of a
    /// live regular file. It takes no memory.
    pub fn read(&self, node: usize, at: u64, buf: &mut [u8]) -> usize
        requires live { IsLiveKey self.now node }
        requires file { IsSome (file_at self.now.nodes (number_at self.now node)) }
        ensures count { IfSome (file_at self.now.nodes (number_at self.now node)) (λ content. result ≡ readable content at (length buf.old)) }
        ensures bytes { IfSome (file_at self.now.nodes (number_at self.now node)) (λ content. buf.new ≡ read_into content at buf.old) }
    {
        match &self.inodes.table[node].content {
            StoredContent::File(content) => content.read(at, buf),
            _ => unreachable!(),
        }
    }

    /// The target of a symbolic link (readlink(2)). `node` is the key of a live one.
    pub fn target(&self, node: usize) -> &[u8]
        requires live { IsLiveKey self.now node }
        requires link { IsSome (target_at self.now.nodes (number_at self.now node)) }
        ensures { target_at self.now.nodes (number_at self.now node) ≡ Some result.now }
    {
        match &self.inodes.table[node].content {
            StoredContent::Link(target) => target.as_slice(),
            _ => unreachable!(),
        }
    }

    /// The key of the directory that `..` names (path_resolution(7)) in the directory of which `dir` is
    /// the key: a live one that was not removed.
    pub fn parent(&self, dir: usize) -> usize
        requires live { IsLiveKey self.now dir }
        requires directory { IsSome (parent_at self.now.nodes (number_at self.now dir)) }
        ensures parent { parent_at self.now.nodes (number_at self.now dir) ≡ Some (number_at self.now result) }
        ensures live { IsLiveKey self.now result }
    {
        let StoredContent::Directory(directory) = &self.inodes.table[dir].content else {
            unreachable!()
        };
        let Some(parent) = directory.parent else {
            unreachable!()
        };
        parent.key
    }

    /// The entry of a directory with the least cookie above this one: the cookie, the name and the node's
    /// key; or None where no cookie is above it (getdents(2)). `dir` is the key of a live directory. It
    /// costs the logarithm of the entries' number.
    pub fn entry_after(&self, dir: usize, cookie: u32) -> Option<(u32, &[u8], usize)>
        requires live { IsLiveKey self.now dir }
        requires directory { IsSome (listing_at self.now.nodes (number_at self.now dir)) }
        ensures entry { option_map (shown_entry self.now) result ≡ entry_above (entries_in (listing_at self.now.nodes (number_at self.now dir))) cookie }
        ensures live { IfSome result (λ entry. IsLiveKey self.now entry.2) }
    {
        match &self.inodes.table[dir].content {
            StoredContent::Directory(directory) => {
                let entry = directory.names.entry_after(cookie)?;
                Some((entry.cookie, entry.name, entry.node.key))
            }
            _ => unreachable!(),
        }
    }
}

/// What stat(2) tells of a node.
fn describe(stored: &Stored) -> Status
    requires mode { stored.now.mode ≤ greatest_mode }
    requires few { content_sectors (content_of stored.now.content) < 2 ^ 32 }
    ensures { result ≡ status_of stored.now.number (inode_of stored.now) }
{
    Status {
        number: stored.number,
        mode: type_bits(&stored.content) + stored.mode,
        links: stored.links,
        size: size(&stored.content),
        blocks: sectors(&stored.content),
        access: stored.access,
        modified: stored.modified,
        changed: stored.changed,
    }
}

/// The type bits of a node's mode.
fn type_bits(content: &StoredContent) -> u16
    ensures { result ≡ type_bits (content_of content.now) }
{
    match content {
        StoredContent::File(_) => S_IFREG,
        StoredContent::Directory(_) => S_IFDIR,
        StoredContent::Link(_) => S_IFLNK,
    }
}

/// The size in bytes.
fn size(content: &StoredContent) -> u64
    ensures { result ≡ content_size (content_of content.now) }
{
    match content {
        StoredContent::File(content) => content.size(),
        StoredContent::Directory(_) => DIRECTORY_SIZE,
        StoredContent::Link(target) => target.len() as u64,
    }
}

/// How many units of 512 bytes are kept.
fn sectors(content: &StoredContent) -> u32
    requires few { content_sectors (content_of content.now) < 2 ^ 32 }
    ensures { result ≡ content_sectors (content_of content.now) }
{
    match content {
        StoredContent::File(content) => SECTORS_PER_BLOCK * content.blocks(),
        StoredContent::Directory(_) => SECTORS_PER_BLOCK,
        StoredContent::Link(_) => 0,
    }
}
