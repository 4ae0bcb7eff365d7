//! A complete binary tree of flags, which tells full parts from parts with a free leaf.
//!
//! Node 1 is the root, and the children of node n are 2n and 2n + 1. With `size` leaves, a power of two,
//! leaf p is node `size` + p. A leaf's flag says whether it is taken, an inner node's whether every leaf
//! below it is. Entry 0 is not used.
ghost use Rattle.std.specs.Prelude.{◌≡◌, ◌+◌, ◌*◌, ◌/◌, ◌^◌, ◌<◌, ◌≤◌, ◌&&◌, false, length, IfOk, MatchOption, replicate, slice_set};
ghost use Rattle.number_pool.specs.inside.Tree.{AreFullFrom, IsLeastNode, IsTree, is_full_at, leaves};

use std::alloc::{AllocError, Global};

/// The tree with `size` free leaves.
pub(crate) fn new_tree(alloc: Global, size: usize) -> Result<Vec<bool>, AllocError>
    requires { size ≤ 2 ^ 31 }
    ensures tree { IfOk result (λ flags. IsTree size flags.items) }
    ensures free { IfOk result (λ flags. leaves size flags.items ≡ replicate size false) }
{
    let flags = vec![in alloc; false; size + size]?;
    Ok(flags)
}

/// Marks a leaf, and mends the nodes on the way up to the root where the leaf was not marked so before.
pub(crate) fn set_leaf(flags: &mut [bool], size: usize, leaf: usize, taken: bool)
    requires tree { IsTree size flags.old }
    requires inside { leaf < size }
    ensures tree { IsTree size flags.new }
    ensures marked { leaves size flags.new ≡ slice_set (leaves size flags.old) leaf taken }
{
    let mut node = size + leaf;
    if flags[node] == taken {
        return;
    }
    flags[node] = taken;
    while node > 1 {
        node /= 2;
        flags[node] = has_full_children(flags, node);
    }
}

/// Whether both children of an inner node are full.
fn has_full_children(flags: &[bool], node: usize) -> bool
    requires { 2 * node + 1 < length flags.now }
    ensures { result ≡ (is_full_at flags.now (2 * node) && is_full_at flags.now (2 * node + 1)) }
{
    flags[2 * node] && flags[2 * node + 1]
}

/// The least free leaf below a node that is not below `from`. Leaves go by the numbers of their nodes, and
/// `height` is how many levels below the node they stand. Of a part that is full, or below `from`, only the
/// topmost node is looked at.
pub(crate) fn least_free_below(flags: &[bool], node: u32, height: u32, from: u32) -> Option<u32>
    requires tree { IsTree (length flags.now / 2) flags.now }
    requires small { length flags.now ≤ 2 ^ 31 }
    requires low { length flags.now / 2 ≤ node * 2 ^ height }
    requires high { (node + 1) * 2 ^ height ≤ length flags.now }
    requires height { height < 31 }
    ensures { MatchOption result
        (AreFullFrom flags.now (node * 2 ^ height) ((node + 1) * 2 ^ height) from)
        (IsLeastNode flags.now (node * 2 ^ height) ((node + 1) * 2 ^ height) from) }
{
    let end = (node + 1) * (1 << height);
    if end <= from || flags[node as usize] {
        return None;
    }
    if height == 0 {
        return Some(node);
    }
    match least_free_below(flags, 2 * node, height - 1, from) {
        Some(leaf) => Some(leaf),
        None => least_free_below(flags, 2 * node + 1, height - 1, from),
    }
}
