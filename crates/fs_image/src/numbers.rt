//! Nodes by their numbers, and how long their texts are.
ghost use Rattle.std.specs.Prelude.{◌≡◌, ◌<◌, ◌^◌, length, slice_index_or, All, IfSome, is_some};
ghost use Rattle.std.specs.List.{flat_map, sum_by};
ghost use Rattle.std.specs.List.Sorted.{IsStrictlySortedBy};
ghost use Rattle.std.specs.Ordering.{nat_cmp};
ghost use Rattle.kernel_core.specs.declared.tree.DirEntry.{DirEntry};
ghost use Rattle.kernel_core.specs.declared.tree.Node.{Node};
ghost use Rattle.kernel_core.specs.ValidTree.{numbers, IsKind};
ghost use Rattle.fs_image.specs.Text.{block_text, entry_text, node_text};
ghost use Rattle.fs_image.specs.Naming.{is_there};

use kernel_core::limits::BLOCK_SIZE;
use kernel_core::{Block, DirEntry, Kind, Node};

/// The length of a count of nodes, blocks or entries, in bytes.
pub(crate) const COUNT_LEN: u64 = 4;

/// The length of a node's front, in bytes: its number, kind, mode and time.
const HEAD_LEN: u64 = 8 + 1 + 2 + 8;

/// The length of a file's text before its blocks, in bytes: the front, the size and the count.
const FILE_FRONT_LEN: u64 = HEAD_LEN + 8 + COUNT_LEN;

/// The length of a directory's text before its entries, in bytes: the front and the count.
pub(crate) const DIR_FRONT_LEN: u64 = HEAD_LEN + COUNT_LEN;

/// The length of a link's text before its target, in bytes: the front and the target's length.
const LINK_FRONT_LEN: u64 = HEAD_LEN + 2;

/// The length of a block's text, in bytes: its index and its bytes.
const BLOCK_LEN: u64 = 4 + BLOCK_SIZE as u64;

/// The length of an entry's text without the name, in bytes: the cookie, the name's length and the
/// node's number.
const BARE_ENTRY_LEN: u64 = 4 + 1 + 8;

/// The place of the node of a number. Costs by the logarithm of the count of nodes.
pub(crate) fn place_of(nodes: &[Node], number: u64) -> Option<usize>
    requires { IsStrictlySortedBy nat_cmp (numbers nodes.now) }
    ensures found { IfSome result (λ at. (at < length nodes.now)
        × ((d : Node) → (slice_index_or nodes.now at d).number ≡ number)) }
    ensures there { is_some result ≡ is_there nodes.now number }
{
    match nodes.binary_search_by_key(&number, |node| node.number) {
        Ok(at) => Some(at),
        Err(_) => None,
    }
}

/// The length of an entry's text, in bytes.
pub(crate) fn entry_len(entry: &DirEntry) -> u64
    requires { length (entry_text entry.now) < 2 ^ 63 }
    ensures { result ≡ length (entry_text entry.now) }
{
    BARE_ENTRY_LEN + entry.name.len() as u64
}

/// The length of the texts of some blocks, in bytes.
fn blocks_len(blocks: &[Block]) -> u64
    requires whole { All (λ b. length b.bytes ≡ 4096) blocks.now }
    requires short { length (flat_map block_text blocks.now) < 2 ^ 63 }
    ensures { result ≡ length (flat_map block_text blocks.now) }
{
    BLOCK_LEN * blocks.len() as u64
}

/// The length of the names of some entries, in bytes.
fn names_len(entries: &[DirEntry]) -> u64
    requires { sum_by (λ (e : DirEntry). length e.name) entries.now < 2 ^ 64 }
    ensures { result ≡ sum_by (λ (e : DirEntry). length e.name) entries.now }
{
    entries.iter().map(|entry| entry.name.len() as u64).sum()
}

/// The length of the texts of some entries, in bytes.
fn entries_len(entries: &[DirEntry]) -> u64
    requires { length (flat_map entry_text entries.now) < 2 ^ 63 }
    ensures { result ≡ length (flat_map entry_text entries.now) }
{
    BARE_ENTRY_LEN * entries.len() as u64 + names_len(entries)
}

/// The length of a node's text, in bytes.
pub(crate) fn node_len(node: &Node) -> u64
    requires valid { IsKind node.now.kind }
    requires short { length (node_text node.now) < 2 ^ 63 }
    ensures { result ≡ length (node_text node.now) }
{
    match &node.kind {
        Kind::File { blocks, .. } => FILE_FRONT_LEN + blocks_len(blocks.as_slice()),
        Kind::Dir { entries } => DIR_FRONT_LEN + entries_len(entries.as_slice()),
        Kind::Link { target } => LINK_FRONT_LEN + target.len() as u64,
    }
}
