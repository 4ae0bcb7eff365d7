//! The file tree that the nodes stand for.
ghost use Rattle.std.specs.Prelude.{◌≡◌, ◌↔◌, ℕ, IfOk, map, All, Contains};
ghost use Rattle.std.specs.FinMap.{entries};
ghost use Rattle.kernel_core.specs.FileSystem.{IsTime};
ghost use Rattle.kernel_core.specs.LoadedTree as tree;
ghost use Rattle.kernel_core.specs.ValidTree.{IsValidTree, IsReached, numbers};
ghost use Rattle.directory_names.specs.Names.{plain};
ghost use Rattle.native_vfs.specs.inside.Saving.{block_of, linked_in, numbered, saved_of, HasTime};
ghost use Rattle.native_vfs.specs.inside.Stored.{nodes_of, inode_of, content_of, HasDistinctNumbers};

use crate::seconds::whole_seconds;
use crate::stored::{Stored, StoredContent, copied};
use crate::vfs::Vfs;
use directory_names::Directory;
use file_blocks::Content;
use kernel_core::{Block, Bytes, DirEntry, Items, Kind, NoMemory, Node, Tree};
use slab::Slab;
use std::alloc::{AllocError, Global};
use std::collections::BTreeMap;

impl Vfs {
    /// The nodes as a file tree: those that names lead to from the root, by rising number, each with the
    /// time of its last modification in whole seconds. It copies every byte once. (The form is this
    /// project's own.)
    pub fn tree(&self) -> Result<Tree, NoMemory>
        ensures saved { IfOk result (λ t. t ≡ tree.saved self.now.nodes) }
        ensures valid { IfOk result IsValidTree }
        ensures reached { IfOk result (λ t. (number : ℕ) → Contains (numbers t.nodes) number ↔ IsReached t.nodes number) }
    {
        let linked = linked_nodes(self.alloc, &self.inodes.table)?;
        let nodes = saved_nodes(self.alloc, &linked)?;
        Ok(Tree {
            nodes: Items::from(nodes),
        })
    }
}

/// The nodes that have a link, by their numbers.
fn linked_nodes(alloc: Global, table: &Slab<Stored>) -> Result<BTreeMap<u64, &Stored>, AllocError>
    requires distinct { HasDistinctNumbers table.now }
    ensures { IfOk result (λ m. map numbered m.entries ≡ linked_in (nodes_of table.now)) }
{
    let mut linked = BTreeMap::new(alloc);
    for (_key, node) in table.iter() {
        if node.links > 0 {
            let _ = linked.insert(node.number, node)?;
        }
    }
    Ok(linked)
}

fn saved_nodes(alloc: Global, linked: &BTreeMap<u64, &Stored>) -> Result<Vec<Node>, AllocError>
    requires times { All HasTime linked.now.entries }
    ensures { IfOk result (λ v. v.items ≡ map saved_of linked.now.entries) }
{
    let mut nodes = Vec::new(alloc);
    for (number, node) in linked {
        nodes.push(saved_node(alloc, *number, node)?)?;
    }
    Ok(nodes)
}

fn saved_node(alloc: Global, number: u64, node: &Stored) -> Result<Node, AllocError>
    requires time { IsTime node.now.modified }
    ensures { IfOk result (λ n. n ≡ tree.saved_node number (inode_of node.now)) }
{
    let kind = saved_kind(alloc, &node.content)?;
    Ok(Node {
        number,
        mode: node.mode,
        mtime: whole_seconds(node.modified),
        kind,
    })
}

fn saved_kind(alloc: Global, content: &StoredContent) -> Result<Kind, AllocError>
    ensures { IfOk result (λ k. k ≡ tree.kind_of (content_of content.now)) }
{
    match content {
        StoredContent::File(content) => {
            let blocks = saved_blocks(alloc, content)?;
            Ok(Kind::File {
                size: content.size(),
                blocks: Items::from(blocks),
            })
        }
        StoredContent::Directory(directory) => {
            let entries = saved_entries(alloc, &directory.names)?;
            Ok(Kind::Dir {
                entries: Items::from(entries),
            })
        }
        StoredContent::Link(target) => {
            let target = copied(alloc, target.as_slice())?;
            Ok(Kind::Link { target })
        }
    }
}

/// The blocks that the file keeps, by rising index.
fn saved_blocks(alloc: Global, content: &Content) -> Result<Vec<Block>, AllocError>
    ensures { IfOk result (λ v. v.items ≡ map block_of (entries content.now.blocks)) }
{
    let mut blocks = Vec::new(alloc);
    let mut from = 0;
    while let Some((index, bytes)) = content.first_from(from) {
        let bytes = copied(alloc, bytes)?;
        blocks.push(Block { index, bytes })?;
        from = u64::from(index) + 1;
    }
    Ok(blocks)
}

/// The entries of the directory, by rising cookie.
fn saved_entries(alloc: Global, names: &Directory) -> Result<Vec<DirEntry>, AllocError>
    ensures { IfOk result (λ v. v.items ≡ map plain names.now.entries) }
{
    let mut entries = Vec::with_capacity(alloc, names.len())?;
    let mut cookie = 0;
    while let Some(entry) = names.entry_after(cookie) {
        let name = copied(alloc, entry.name)?;
        entries.push(DirEntry {
            cookie: entry.cookie,
            name,
            node: entry.node.number,
        })?;
        cookie = entry.cookie;
    }
    Ok(entries)
}
