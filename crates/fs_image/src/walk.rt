//! How often each node is named, and which nodes the root leads to.
ghost use Rattle.std.specs.Prelude.{◌≡◌, ◌≤◌, ◌<◌, ◌+◌, ◌^◌, ℕ, Some, length, slice_get, IfOk, OnOk};
ghost use Rattle.std.specs.List.Sorted.{IsStrictlySortedBy};
ghost use Rattle.std.specs.Ordering.{nat_cmp};
ghost use Rattle.kernel_core.specs.declared.tree.Node.{Node};
ghost use Rattle.kernel_core.specs.ValidTree.{numbers, names_in, times_named, all_entries, entry_limit, root};
ghost use Rattle.fs_image.specs.Naming.{is_there};
ghost use Rattle.fs_image.specs.inside.Walk.{count_of, is_in, Spreads, AreUnreached};

use crate::numbers::place_of;
use kernel_core::limits::ROOT_NUMBER;
use kernel_core::{DirEntry, Node};
use std::alloc::{AllocError, Global};
use std::collections::{HashMap, HashSet};

/// Counts the numbers that some entries name.
fn count_entries(counts: &mut HashMap<u64, u64>, entries: &[DirEntry]) -> Result<(), AllocError>
    requires { (q : ℕ) → count_of counts.old q + length entries.now < 2 ^ 64 }
    ensures { OnOk result ((q : ℕ) → count_of counts.new q ≡ count_of counts.old q + names_in entries.now q) }
{
    for entry in entries {
        let before = counts.get(&entry.node).copied().unwrap_or(0);
        counts.insert(entry.node, before + 1)?;
    }
    Ok(())
}

/// How often each number is named by an entry of some nodes.
pub(crate) fn count_names(alloc: Global, nodes: &[Node]) -> Result<HashMap<u64, u64>, AllocError>
    requires { all_entries nodes.now ≤ entry_limit }
    ensures { IfOk result (λ counts. (q : ℕ) → count_of counts q ≡ times_named nodes.now q) }
{
    let mut counts = HashMap::new(alloc);
    for node in nodes {
        count_entries(&mut counts, node.kind.entries())?;
    }
    Ok(counts)
}

/// The numbers of some nodes.
fn numbers_of(alloc: Global, nodes: &[Node]) -> Result<HashSet<u64>, AllocError>
    ensures { IfOk result (λ numbers. (q : ℕ) → is_in numbers q ≡ is_there nodes.now q) }
{
    let mut numbers = HashSet::new(alloc);
    for node in nodes {
        numbers.insert(node.number)?;
    }
    Ok(numbers)
}

/// Takes what some entries name out of a set; what was in it goes on the stack.
fn spread(
    unreached: &mut HashSet<u64>,
    stack: &mut Vec<u64>,
    entries: &[DirEntry],
) -> Result<(), AllocError>
    ensures { OnOk result (Spreads entries.now unreached.old stack.old.items unreached.new stack.new.items) }
{
    for entry in entries {
        if unreached.remove(&entry.node) {
            stack.push(entry.node)?;
        }
    }
    Ok(())
}

/// The numbers of the nodes that are not reached from the root. Costs by the nodes and entries.
pub(crate) fn unreached(alloc: Global, nodes: &[Node]) -> Result<HashSet<u64>, AllocError>
    requires sorted { IsStrictlySortedBy nat_cmp (numbers nodes.now) }
    requires begins { (first : Node) × (slice_get nodes.now 0 ≡ Some first) × (first.number ≡ root) }
    ensures { IfOk result (AreUnreached nodes.now) }
{
    let mut unreached = numbers_of(alloc, nodes)?;
    unreached.remove(&ROOT_NUMBER);
    let mut stack = Vec::new(alloc);
    stack.push(ROOT_NUMBER)?;
    while let Some(number) = stack.pop() {
        if let Some(at) = place_of(nodes, number) {
            spread(&mut unreached, &mut stack, nodes[at].kind.entries())?;
        }
    }
    Ok(unreached)
}
