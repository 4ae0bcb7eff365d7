//! The nodes of the file tree that a file system begins with.
ghost use Rattle.std.specs.Prelude.{◌≡◌, ◌+◌, ◌<◌, ◌≤◌, ◌^◌, ◌==◌, ℕ, [], ◌∷◌, Some, None, IsSome, IsSomeAnd, IfOk, OnOk, All, map, length, count_by, if◌then◌else◌, is_some, FitsSigned};
ghost use Rattle.std.specs.BTreeMap.{get as tree_get};
ghost use Rattle.std.specs.FinMap.{from_entries, get};
ghost use Rattle.std.specs.Int.{w64};
ghost use Rattle.std.specs.Ordering.{nat_cmp};
ghost use Rattle.slab.specs.Slab.{get as slab_get};
ghost use Rattle.kernel_core.specs.FileContent.{greatest_size};
ghost use Rattle.kernel_core.specs.FileSystem.{IsFileSystem};
ghost use Rattle.kernel_core.specs.LoadedTree.{loaded, is_dir_in, nanoseconds};
ghost use Rattle.kernel_core.specs.Nodes.{is_directory};
ghost use Rattle.kernel_core.specs.ValidTree.{IsValidTree, IsNode, IsKind, AreEntries, AreBlocks, all_entries, all_blocks, entries_of, blocks_of, names_in, entry_limit, block_limit};
ghost use Rattle.native_vfs.specs.Keyed.{AreKeys};
ghost use Rattle.native_vfs.specs.inside.Loading as load;
ghost use Rattle.native_vfs.specs.inside.Steps.{IsAddition};
ghost use Rattle.native_vfs.specs.inside.Stored.{Table, nodes_of, inode_of, content_of, listing_of, HasDistinctNumbers, ContentLeads, DirectoryLeads, AgreesPool, Leads};

use crate::inodes::Inodes;
use crate::numbers::{NUMBER_LEVELS, place_of};
use crate::seconds::nanoseconds;
use crate::steps::insert;
use crate::stored::{ROOT, Stored, StoredContent, StoredDirectory, copied};
use crate::table::is_directory;
use crate::vfs::Vfs;
use directory_names::{Directory, NodeRef};
use file_blocks::Content;
use kernel_core::{Block, DirEntry, Kind, NoMemory, Node, Tree};
use number_pool::NumberPool;
use slab::Slab;
use std::alloc::{AllocError, Global};
use std::collections::BTreeMap;

/// How often a number is named, and the number of the node that names it first.
#[derive(Clone, Copy)]
pub(crate) struct Naming {
    pub(crate) times: u32,
    pub(crate) parent: u64,
}

impl Vfs {
    /// A file system with the nodes of the tree, to which nothing holds. Their times are the tree's time of
    /// modification. It takes all its memory from `alloc`. (The form is this project's own.)
    pub fn new(alloc: Global, tree: Tree) -> Result<Vfs, NoMemory>
        requires valid { IsValidTree tree }
        ensures loaded { IfOk result (λ v. v.nodes ≡ loaded tree) }
        ensures valid { IfOk result (λ v. IsFileSystem v.nodes) }
        ensures keys { IfOk result AreKeys }
    {
        let nodes = tree.nodes.as_slice();
        let namings = namings(alloc, nodes)?;
        let mut table = Slab::new(alloc);
        let places = place_nodes(alloc, &mut table, &namings, nodes)?;
        name_nodes(alloc, &mut table, &places, &namings, nodes)?;
        let numbers = taken_numbers(alloc, nodes)?;
        let root = node_ref(&places, ROOT).key;
        let inodes = Inodes {
            table,
            numbers,
            entries: entry_count(nodes),
            blocks: block_count(nodes),
        };
        Ok(Vfs {
            inodes,
            root,
            alloc,
        })
    }
}

fn entries(node: &Node) -> &[DirEntry]
    ensures { result.now ≡ entries_of node.now.kind }
{
    match &node.kind {
        Kind::Dir { entries } => entries.as_slice(),
        _ => &[],
    }
}

fn blocks(node: &Node) -> &[Block]
    ensures { result.now ≡ blocks_of node.now.kind }
{
    match &node.kind {
        Kind::File { blocks, .. } => blocks.as_slice(),
        _ => &[],
    }
}

/// How many entries all directories have.
fn entry_count(nodes: &[Node]) -> u32
    requires few { all_entries nodes.now ≤ entry_limit }
    ensures { result ≡ all_entries nodes.now }
{
    let count: usize = nodes.iter().map(|node| entries(node).len()).sum();
    count as u32
}

/// How many blocks all files keep.
fn block_count(nodes: &[Node]) -> u32
    requires few { all_blocks nodes.now ≤ block_limit }
    ensures { result ≡ all_blocks nodes.now }
{
    let count: usize = nodes.iter().map(|node| blocks(node).len()).sum();
    count as u32
}

/// A pool from which the numbers of the nodes are taken.
fn taken_numbers(alloc: Global, nodes: &[Node]) -> Result<NumberPool<NUMBER_LEVELS>, NoMemory>
    ensures { IfOk result (λ p. AgreesPool (from_entries (map (load.loaded_entry nodes.now) nodes.now)) p) }
{
    let mut numbers = NumberPool::new(alloc)?;
    for node in nodes {
        if let Some(place) = place_of(node.number) {
            numbers.take(place);
        }
    }
    Ok(numbers)
}

// Which names there are

/// How often each number is named, and by which node first.
fn namings(alloc: Global, nodes: &[Node]) -> Result<BTreeMap<u64, Naming>, AllocError>
    requires few { all_entries nodes.now ≤ entry_limit }
    ensures { IfOk result (λ m. load.AreNamings m nodes.now) }
{
    let mut namings = BTreeMap::new(alloc);
    for node in nodes {
        note_names(&mut namings, node.number, entries(node))?;
    }
    Ok(namings)
}

fn note_names(
    namings: &mut BTreeMap<u64, Naming>,
    namer: u64,
    entries: &[DirEntry],
) -> Result<(), AllocError>
    requires few { (number : ℕ) → load.times_at namings.old number + length entries.now < 2 ^ 32 }
    ensures { OnOk result (load.Notes namings.old namings.new namer (names_in entries.now)) }
{
    for entry in entries {
        note(namings, namer, entry.node)?;
    }
    Ok(())
}

fn note(namings: &mut BTreeMap<u64, Naming>, namer: u64, number: u64) -> Result<(), AllocError>
    requires few { load.times_at namings.old number + 1 < 2 ^ 32 }
    ensures { OnOk result (load.Notes namings.old namings.new namer (λ other. if number == other then 1 else 0)) }
{
    if let Some(naming) = namings.get_mut(&number) {
        naming.times += 1;
        return Ok(());
    }
    let naming = Naming {
        times: 1,
        parent: namer,
    };
    let _ = namings.insert(number, naming)?;
    Ok(())
}

fn times(namings: &BTreeMap<u64, Naming>, number: u64) -> u32
    ensures { result ≡ load.times_at namings.now number }
{
    match namings.get(&number) {
        Some(naming) => naming.times,
        None => 0,
    }
}

/// The node of a number, with its key.
fn node_ref(places: &BTreeMap<u64, usize>, number: u64) -> NodeRef
    requires found { load.HasPlace places.now number }
    ensures number { result.number ≡ number }
    ensures key { tree_get nat_cmp places.now number ≡ Some result.key }
{
    let Some(key) = places.get(&number) else {
        unreachable!()
    };
    NodeRef { number, key: *key }
}

/// The parent of a directory, which is the node that names it, or the root itself.
fn parent_ref(
    places: &BTreeMap<u64, usize>,
    namings: &BTreeMap<u64, Naming>,
    number: u64,
) -> NodeRef
    requires found { IsSomeAnd (load.parent_told namings.now number) (load.HasPlace places.now) }
    ensures number { load.parent_told namings.now number ≡ Some result.number }
    ensures key { tree_get nat_cmp places.now result.number ≡ Some result.key }
{
    if number == ROOT {
        return node_ref(places, ROOT);
    }
    let Some(naming) = namings.get(&number) else {
        unreachable!()
    };
    node_ref(places, naming.parent)
}

// Nodes without entries

/// Puts each node into the table, a directory without its entries, and tells their keys.
fn place_nodes(
    alloc: Global,
    table: &mut Slab<Stored>,
    namings: &BTreeMap<u64, Naming>,
    nodes: &[Node],
) -> Result<BTreeMap<u64, usize>, NoMemory>
    requires empty { (key : ℕ) → slab_get table.old key ≡ None }
    requires valid { IsValidTree (load.tree_of nodes.now) }
    requires namings { load.AreNamings namings.now nodes.now }
    ensures { IfOk result (load.ArePlaced nodes.now nodes.now table.new) }
{
    let mut places = BTreeMap::new(alloc);
    for node in nodes {
        let times = times(namings, node.number);
        let stored = bare_node(alloc, node, times)?;
        let key = insert(table, stored)?;
        let _ = places.insert(node.number, key)?;
    }
    Ok(places)
}

/// A node that is named so many times, without what a directory lists.
fn bare_node(alloc: Global, node: &Node, times: u32) -> Result<Stored, NoMemory>
    requires node { IsNode node.now }
    requires few { length (blocks_of node.now.kind) ≤ block_limit }
    ensures number { IfOk result (λ s. s.number ≡ node.now.number) }
    ensures inode { IfOk result (λ s. inode_of s ≡ load.bare_inode times node.now) }
    ensures leads { IfOk result (λ s. (table : Table) → ContentLeads table s.content) }
{
    let content = bare_content(alloc, &node.kind)?;
    let time = nanoseconds(node.mtime);
    Ok(Stored {
        number: node.number,
        mode: node.mode,
        access: time,
        modified: time,
        changed: time,
        links: bare_links(&node.kind, times),
        holds: 0,
        content,
    })
}

fn bare_links(kind: &Kind, times: u32) -> u32
    ensures { result ≡ load.bare_links times kind.now }
{
    match kind {
        Kind::Dir { .. } => 0,
        _ => times,
    }
}

fn bare_content(alloc: Global, kind: &Kind) -> Result<StoredContent, NoMemory>
    requires kind { IsKind kind.now }
    requires few { length (blocks_of kind.now) ≤ block_limit }
    ensures content { IfOk result (λ c. content_of c ≡ load.bare_content kind.now) }
    ensures leads { IfOk result (λ c. (table : Table) → ContentLeads table c) }
{
    match kind {
        Kind::File { size, blocks } => {
            let content = loaded_file(alloc, *size, blocks.as_slice())?;
            Ok(StoredContent::File(content))
        }
        Kind::Dir { .. } => Ok(StoredContent::Directory(StoredDirectory {
            parent: None,
            names: Directory::new(alloc),
        })),
        Kind::Link { target } => {
            let target = copied(alloc, target.as_slice())?;
            Ok(StoredContent::Link(target))
        }
    }
}

fn loaded_file(alloc: Global, size: u64, blocks: &[Block]) -> Result<Content, NoMemory>
    requires size { size ≤ greatest_size }
    requires blocks { AreBlocks size blocks.now }
    requires few { length blocks.now ≤ block_limit }
    ensures { IfOk result (λ c. c ≡ record { size = size; blocks = from_entries (map (λ b. (b.index, b.bytes)) blocks.now) }) }
{
    let mut content = Content::new(alloc);
    content.set_size(size);
    for block in blocks {
        content.load_block(block.index, block.bytes.as_slice())?;
    }
    Ok(content)
}

// Entries

/// Gives each directory its entries, its parent and its links.
fn name_nodes(
    alloc: Global,
    table: &mut Slab<Stored>,
    places: &BTreeMap<u64, usize>,
    namings: &BTreeMap<u64, Naming>,
    nodes: &[Node],
) -> Result<(), NoMemory>
    requires valid { IsValidTree (load.tree_of nodes.now) }
    requires namings { load.AreNamings namings.now nodes.now }
    requires placed { load.ArePlaced nodes.now nodes.now table.old places.now }
    ensures { OnOk result (load.AreNamed nodes.now nodes.now [] table.new places.now) }
{
    for node in nodes {
        if let Kind::Dir { entries } = &node.kind {
            let parent = parent_ref(places, namings, node.number);
            let key = node_ref(places, node.number).key;
            name_entries(alloc, table, places, key, parent, entries.as_slice())?;
        }
    }
    Ok(())
}

/// Gives the directory at the key its entries, its parent and its links.
fn name_entries(
    alloc: Global,
    table: &mut Slab<Stored>,
    places: &BTreeMap<u64, usize>,
    key: usize,
    parent: NodeRef,
    entries: &[DirEntry],
) -> Result<(), NoMemory>
    requires live { IsSome (slab_get table.old key) }
    requires distinct { HasDistinctNumbers table.old }
    requires leads { load.PlacesLead table.old places.now }
    requires parent { Leads table.old parent }
    requires entries { AreEntries entries.now }
    requires found { All (λ e. load.HasPlace places.now e.node) entries.now }
    requires few { length entries.now ≤ entry_limit }
    ensures { OnOk result (IsAddition table.old table.new key (load.filled (load.directory_links table.old entries.now) (load.loaded_listing parent.number entries.now))) }
{
    let names = loaded_names(alloc, places, entries)?;
    let links = directory_links(table, places, entries);
    let directory = StoredDirectory {
        parent: Some(parent),
        names,
    };
    fill(table, key, links, directory);
    Ok(())
}

fn loaded_names(
    alloc: Global,
    places: &BTreeMap<u64, usize>,
    entries: &[DirEntry],
) -> Result<Directory, NoMemory>
    requires entries { AreEntries entries.now }
    requires found { All (λ e. load.HasPlace places.now e.node) entries.now }
    ensures { IfOk result (load.AreLoadedNames places.now entries.now) }
{
    let mut names = Directory::new(alloc);
    for entry in entries {
        let node = node_ref(places, entry.node);
        let name = copied(alloc, entry.name.as_slice())?;
        names.load(entry.cookie, name, node)?;
    }
    Ok(names)
}

/// The links of a directory: 2, and one for each subdirectory.
fn directory_links(table: &Slab<Stored>, places: &BTreeMap<u64, usize>, entries: &[DirEntry]) -> u32
    requires distinct { HasDistinctNumbers table.now }
    requires leads { load.PlacesLead table.now places.now }
    requires found { All (λ e. load.HasPlace places.now e.node) entries.now }
    requires few { length entries.now ≤ entry_limit }
    ensures { result ≡ load.directory_links table.now entries.now }
{
    let mut links = 2;
    for entry in entries {
        let key = node_ref(places, entry.node).key;
        if is_directory(table, key) {
            links += 1;
        }
    }
    links
}

/// Gives the directory at the key what it lists.
fn fill(table: &mut Slab<Stored>, key: usize, links: u32, directory: StoredDirectory)
    requires live { IsSome (slab_get table.old key) }
    requires distinct { HasDistinctNumbers table.old }
    requires leads { DirectoryLeads table.old directory }
    ensures { IsAddition table.old table.new key (load.filled links (listing_of directory)) }
{
    let node = &mut table[key];
    node.links = links;
    node.content = StoredContent::Directory(directory);
}
