//! Why a call on names is refused, found on the nodes that are kept.
ghost use Rattle.std.specs.Prelude.{◌≡◌, ◌==◌, Some, None, IsSome, IfSome, option_map, if◌then◌else◌};
ghost use Rattle.slab.specs.Slab.{get as slab_get};
ghost use Rattle.kernel_core.specs.FileSystem.{parent_at};
ghost use Rattle.kernel_core.specs.NameCalls as names;
ghost use Rattle.kernel_core.specs.Nodes as nodes;
ghost use Rattle.kernel_core.specs.Totals.{live_entries};
ghost use Rattle.kernel_core.specs.ValidTree as valid;
ghost use Rattle.native_vfs.specs.Keyed.{place_at, AgreesAt};
ghost use Rattle.native_vfs.specs.inside.Stored.{keyed_of, nodes_of, number_of_key, HasReferences};

use crate::inodes::Inodes;
use crate::place::Place;
use crate::stored::{ROOT, StoredContent};
use crate::table::{directory, is_directory, node, number, stands_for};
use kernel_core::Errno;
use kernel_core::limits::{ENTRY_LIMIT, GREATEST_COOKIE, NODE_LIMIT};

/// Whether the directory was removed.
pub(crate) fn is_orphan(inodes: &Inodes, key: usize) -> bool
    requires live { IsSome (slab_get inodes.now.table key) }
    ensures { result ≡ names.is_orphan (nodes.listing_at (nodes_of inodes.now.table) (number_of_key inodes.now.table key)) }
{
    directory(&inodes.table, key).is_some_and(|directory| directory.parent.is_none())
}

/// Whether the directory has given out its last cookie.
pub(crate) fn lacks_cookie(inodes: &Inodes, key: usize) -> bool
    requires live { IsSome (slab_get inodes.now.table key) }
    ensures { result ≡ names.is_used_up (nodes.listing_at (nodes_of inodes.now.table) (number_of_key inodes.now.table key)) }
{
    directory(&inodes.table, key).is_some_and(|directory| directory.names.greatest()
        >= GREATEST_COOKIE)
}

pub(crate) fn has_entries(inodes: &Inodes, key: usize) -> bool
    requires live { IsSome (slab_get inodes.now.table key) }
    ensures { result ≡ names.has_entries (nodes_of inodes.now.table) (number_of_key inodes.now.table key) }
{
    directory(&inodes.table, key).is_some_and(|directory| !directory.names.is_empty())
}

/// Why a name can't be made, where `full` tells that a limit of the whole file system is reached.
pub(crate) fn name_refusal(inodes: &Inodes, at: &Place, full: bool) -> Option<Errno>
    requires agrees { AgreesAt (keyed_of inodes.now.table) at.now }
    ensures { result ≡ names.name_refusal (nodes_of inodes.now.table) (place_at (keyed_of inodes.now.table) at.now) full }
{
    if at.node.is_some() {
        return Some(Errno::EEXIST);
    }
    if is_orphan(inodes, at.dir) {
        return Some(Errno::ENOENT);
    }
    if full || lacks_cookie(inodes, at.dir) {
        return Some(Errno::ENOSPC);
    }
    None
}

/// Why a node can't be made under a name.
pub(crate) fn make_refusal(inodes: &Inodes, at: &Place) -> Option<Errno>
    requires agrees { AgreesAt (keyed_of inodes.now.table) at.now }
    requires entries { inodes.now.entries ≡ live_entries (nodes_of inodes.now.table) }
    ensures { result ≡ names.make_refusal (nodes_of inodes.now.table) (place_at (keyed_of inodes.now.table) at.now) }
{
    let full = inodes.table.len() >= NODE_LIMIT as usize || inodes.entries >= ENTRY_LIMIT;
    name_refusal(inodes, at, full)
}

/// Why a symbolic link can't be made under a name.
pub(crate) fn symlink_refusal(inodes: &Inodes, at: &Place, target: &[u8]) -> Option<Errno>
    requires agrees { AgreesAt (keyed_of inodes.now.table) at.now }
    requires entries { inodes.now.entries ≡ live_entries (nodes_of inodes.now.table) }
    ensures { result ≡ names.symlink_refusal (nodes_of inodes.now.table) (place_at (keyed_of inodes.now.table) at.now) target.now }
{
    if target.is_empty() {
        return Some(Errno::ENOENT);
    }
    make_refusal(inodes, at)
}

/// Why a node can't have a second name.
pub(crate) fn link_refusal(inodes: &Inodes, node: usize, at: &Place) -> Option<Errno>
    requires live { IsSome (slab_get inodes.now.table node) }
    requires agrees { AgreesAt (keyed_of inodes.now.table) at.now }
    requires entries { inodes.now.entries ≡ live_entries (nodes_of inodes.now.table) }
    ensures { result ≡ names.link_refusal (nodes_of inodes.now.table) (number_of_key inodes.now.table node) (place_at (keyed_of inodes.now.table) at.now) }
{
    if is_directory(&inodes.table, node) {
        return Some(Errno::EPERM);
    }
    name_refusal(inodes, at, inodes.entries >= ENTRY_LIMIT)
}

/// Why a name can't be taken from a file or link.
pub(crate) fn unlink_refusal(inodes: &Inodes, at: &Place) -> Option<Errno>
    requires agrees { AgreesAt (keyed_of inodes.now.table) at.now }
    ensures { result ≡ names.unlink_refusal (nodes_of inodes.now.table) (place_at (keyed_of inodes.now.table) at.now) }
{
    match at.node {
        Some(node) => file_refusal(inodes, node),
        None => Some(Errno::ENOENT),
    }
}

/// Why a directory can't be removed.
pub(crate) fn rmdir_refusal(inodes: &Inodes, at: &Place) -> Option<Errno>
    requires agrees { AgreesAt (keyed_of inodes.now.table) at.now }
    ensures { result ≡ names.rmdir_refusal (nodes_of inodes.now.table) (place_at (keyed_of inodes.now.table) at.now) }
{
    let Some(node) = at.node else {
        return Some(Errno::ENOENT);
    };
    let name = at.name.as_slice();
    if name == b".".as_slice() {
        return Some(Errno::EINVAL);
    }
    if name == b"..".as_slice() {
        return Some(Errno::ENOTEMPTY);
    }
    if number(&inodes.table, node) == ROOT {
        return Some(Errno::EBUSY);
    }
    if name.is_empty() {
        return Some(Errno::EINVAL);
    }
    if !is_directory(&inodes.table, node) {
        return Some(Errno::ENOTDIR);
    }
    if has_entries(inodes, node) {
        return Some(Errno::ENOTEMPTY);
    }
    None
}

/// Whether a directory lies in the subtree of a node, or is that node. It goes up from the directory, and
/// needs no more steps than there are nodes.
pub(crate) fn is_in_subtree(inodes: &Inodes, above: usize, dir: usize) -> bool
    requires references { HasReferences inodes.now.table }
    requires above { IsSome (slab_get inodes.now.table above) }
    requires dir { IsSome (slab_get inodes.now.table dir) }
    ensures { result ≡ names.is_in_subtree (nodes_of inodes.now.table) (number_of_key inodes.now.table above) (number_of_key inodes.now.table dir) }
{
    let above = number(&inodes.table, above);
    let mut key = dir;
    for _step in 0..inodes.table.len() {
        if number(&inodes.table, key) == above {
            return true;
        }
        match parent_below_root(inodes, key) {
            Some(parent) => key = parent,
            None => return false,
        }
    }
    number(&inodes.table, key) == above
}

/// Why a node can't have another name, in the order of rename(2). Two names of one node are no reason.
pub(crate) fn rename_refusal(inodes: &Inodes, from: &Place, to: &Place) -> Option<Errno>
    requires references { HasReferences inodes.now.table }
    requires from { AgreesAt (keyed_of inodes.now.table) from.now }
    requires to { AgreesAt (keyed_of inodes.now.table) to.now }
    ensures { result ≡ names.rename_refusal (nodes_of inodes.now.table) (place_at (keyed_of inodes.now.table) from.now) (place_at (keyed_of inodes.now.table) to.now) }
{
    let Some(moved) = from.node else {
        return Some(Errno::ENOENT);
    };
    if is_no_entry(from.name.as_slice()) || is_no_entry(to.name.as_slice()) {
        return Some(Errno::EBUSY);
    }
    if stands_for(&inodes.table, to, moved) {
        return None;
    }
    move_refusal(inodes, moved, to)
}

/// Why a node can't go under a new name, which doesn't stand for it yet.
fn move_refusal(inodes: &Inodes, moved: usize, to: &Place) -> Option<Errno>
    requires references { HasReferences inodes.now.table }
    requires live { IsSome (slab_get inodes.now.table moved) }
    requires to { AgreesAt (keyed_of inodes.now.table) to.now }
    ensures { result ≡ names.move_refusal (nodes_of inodes.now.table) (place_at (keyed_of inodes.now.table) to.now) (number_of_key inodes.now.table moved) }
{
    if is_directory(&inodes.table, moved) && is_in_subtree(inodes, moved, to.dir) {
        return Some(Errno::EINVAL);
    }
    if let Some(old) = to.node {
        if let Some(error) = replace_refusal(inodes, moved, old) {
            return Some(error);
        }
    }
    if is_orphan(inodes, to.dir) {
        return Some(Errno::ENOENT);
    }
    if lacks_cookie(inodes, to.dir) {
        return Some(Errno::ENOSPC);
    }
    None
}

/// Why a node can't take the place of another one.
fn replace_refusal(inodes: &Inodes, moved: usize, old: usize) -> Option<Errno>
    requires moved { IsSome (slab_get inodes.now.table moved) }
    requires old { IsSome (slab_get inodes.now.table old) }
    ensures { result ≡ names.replace_refusal (nodes_of inodes.now.table) (number_of_key inodes.now.table moved) (Some (number_of_key inodes.now.table old)) }
{
    if !is_directory(&inodes.table, moved) {
        return file_refusal(inodes, old);
    }
    if !is_directory(&inodes.table, old) {
        return Some(Errno::ENOTDIR);
    }
    if has_entries(inodes, old) {
        return Some(Errno::ENOTEMPTY);
    }
    None
}

/// Whether the name is that of no entry: the empty one, `.` or `..`.
fn is_no_entry(name: &[u8]) -> bool
    ensures { result ≡ names.is_no_entry name.now }
{
    name.is_empty() || name == b".".as_slice() || name == b"..".as_slice()
}

/// A directory can't be unlinked, and no file or link can take its place.
fn file_refusal(inodes: &Inodes, key: usize) -> Option<Errno>
    requires live { IsSome (slab_get inodes.now.table key) }
    ensures { result ≡ names.unlink_of (nodes_of inodes.now.table) (Some (number_of_key inodes.now.table key)) }
{
    if is_directory(&inodes.table, key) {
        Some(Errno::EISDIR)
    } else {
        None
    }
}

/// The parent of a directory other than the root.
fn parent_below_root(inodes: &Inodes, key: usize) -> Option<usize>
    requires live { IsSome (slab_get inodes.now.table key) }
    requires references { HasReferences inodes.now.table }
    ensures live { IfSome result (λ parent. IsSome (slab_get inodes.now.table parent)) }
    ensures parent { option_map (number_of_key inodes.now.table) result ≡ (if number_of_key inodes.now.table key == valid.root then None else parent_at (nodes_of inodes.now.table) (number_of_key inodes.now.table key)) }
{
    let node = node(&inodes.table, key);
    if node.number == ROOT {
        return None;
    }
    match &node.content {
        StoredContent::Directory(directory) => directory.parent.map(|parent| parent.key),
        _ => None,
    }
}
