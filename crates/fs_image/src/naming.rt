//! The rules of a tree that speak of all its nodes.
ghost use Rattle.std.specs.Prelude.{◌≡◌, ◌<◌, ◌≤◌, ◌+◌, ◌^◌, ℕ, length, All, IfOk, not, ◌&&◌};
ghost use Rattle.std.specs.List.{flat_map};
ghost use Rattle.std.specs.List.Sorted.{IsStrictlySortedBy};
ghost use Rattle.std.specs.Ordering.{nat_cmp};
ghost use Rattle.kernel_core.specs.declared.tree.Node.{Node};
ghost use Rattle.kernel_core.specs.ValidTree.{numbers, IsKind, times_named, names_in, root};
ghost use Rattle.fs_image.specs.Text.{entry_text, node_text};
ghost use Rattle.fs_image.specs.Naming.{lost_entry, lost_target, is_named_rightly, stray_node, naming_failure};
ghost use Rattle.fs_image.specs.inside.Walk.{count_of, is_in, AreUnreached};
ghost use Rattle.fs_image.specs.inside.Valid.{IsRead};

use crate::nodes::MAGIC;
use crate::numbers::{COUNT_LEN, DIR_FRONT_LEN, entry_len, node_len, place_of};
use crate::refusal::{ImageRefusal, ImageRule};
use crate::walk::{count_names, unreached};
use kernel_core::limits::ROOT_NUMBER;
use kernel_core::{DirEntry, Kind, Node, Tree};
use std::alloc::{AllocError, Global};
use std::collections::{HashMap, HashSet};

/// The offset of the first node, in bytes: behind the first bytes and the count of nodes.
const FIRST_NODE: u64 = MAGIC.len() as u64 + COUNT_LEN;

/// The first of some entries, which stand from a place on, whose node is not there.
fn lost_entry(nodes: &[Node], start: u64, entries: &[DirEntry]) -> Option<ImageRefusal>
    requires sorted { IsStrictlySortedBy nat_cmp (numbers nodes.now) }
    requires short { length (flat_map entry_text entries.now) < 2 ^ 63 }
    requires fits { start + length (flat_map entry_text entries.now) < 2 ^ 64 }
    ensures { result ≡ lost_entry nodes.now start entries.now }
{
    let mut place = start;
    for entry in entries {
        if place_of(nodes, entry.node).is_none() {
            return Some(ImageRefusal::new(ImageRule::Target, place));
        }
        place += entry_len(entry);
    }
    None
}

/// The first entry of a tree whose node is not there.
fn lost_target(nodes: &[Node]) -> Option<ImageRefusal>
    requires sorted { IsStrictlySortedBy nat_cmp (numbers nodes.now) }
    requires valid { All (λ n. IsKind n.kind) nodes.now }
    requires short { 12 + length (flat_map node_text nodes.now) < 2 ^ 63 }
    ensures { result ≡ lost_target nodes.now 12 nodes.now }
{
    let mut place = FIRST_NODE;
    for node in nodes {
        let entries = node.kind.entries();
        if let Some(refusal) = lost_entry(nodes, place + DIR_FRONT_LEN, entries) {
            return Some(refusal);
        }
        place += node_len(node);
    }
    None
}

/// Whether a node may be named so many times.
fn is_named_rightly(times: u64, node: &Node) -> bool
    ensures { result ≡ is_named_rightly times node.now }
{
    if node.number == ROOT_NUMBER {
        return times == 0;
    }
    match &node.kind {
        Kind::Dir { .. } => times == 1,
        Kind::File { .. } => times >= 1,
        Kind::Link { .. } => times >= 1,
    }
}

/// Whether a node is named rightly and reached.
fn is_in_tree(node: &Node, counts: &HashMap<u64, u64>, unreached: &HashSet<u64>) -> bool
    ensures { result ≡ (is_named_rightly (count_of counts.now node.now.number) node.now
        && not (is_in unreached.now node.now.number)) }
{
    let times = counts.get(&node.number).copied().unwrap_or(0);
    is_named_rightly(times, node) && !unreached.contains(&node.number)
}

/// The first node that breaks [`ImageRule::Tree`], by how often each number is named and which numbers
/// are not reached.
fn stray_node(
    nodes: &[Node],
    counts: &HashMap<u64, u64>,
    unreached: &HashSet<u64>,
) -> Option<ImageRefusal>
    requires valid { All (λ n. IsKind n.kind) nodes.now }
    requires short { 12 + length (flat_map node_text nodes.now) < 2 ^ 63 }
    requires counts { (q : ℕ) → count_of counts.now q ≡ times_named nodes.now q }
    requires unreached { AreUnreached nodes.now unreached.now }
    ensures { result ≡ stray_node nodes.now 12 nodes.now }
{
    let mut place = FIRST_NODE;
    for node in nodes {
        if !is_in_tree(node, counts, unreached) {
            return Some(ImageRefusal::new(ImageRule::Tree, place));
        }
        place += node_len(node);
    }
    None
}

/// The first failure of [`ImageRule::Target`] in a tree, and then of [`ImageRule::Tree`], with its offset in
/// the tree's text. Costs by the nodes and entries, and takes memory by the nodes and gives it back.
pub(crate) fn naming_failure(alloc: Global, tree: &Tree) -> Result<Option<ImageRefusal>, AllocError>
    requires read { IsRead tree.now }
    requires short { 12 + length (flat_map node_text tree.now.nodes) < 2 ^ 63 }
    ensures { IfOk result (λ failure. failure ≡ naming_failure tree.now) }
{
    let nodes = tree.nodes.as_slice();
    if let Some(refusal) = lost_target(nodes) {
        return Ok(Some(refusal));
    }
    let counts = count_names(alloc, nodes)?;
    let unreached = unreached(alloc, nodes)?;
    Ok(stray_node(nodes, &counts, &unreached))
}
