//! Where a directory lies: the names from the root to it (getcwd(2)).
ghost use Rattle.std.specs.Prelude.{◌≡◌, ◌∷◌, ◌++◌, IsSome, IfOk, OnOk, [], option_map, reverse};
ghost use Rattle.kernel_core.specs.FileSystem.{IsFileSystem};
ghost use Rattle.kernel_core.specs.Nodes.{listing_at};
ghost use Rattle.kernel_core.specs.ValidTree.{node_limit};
ghost use Rattle.kernel_model.specs.NodeRows as rows;
ghost use Rattle.native_files.specs.inside.Locations.{slash_before};
ghost use Rattle.native_vfs.specs.Keyed.{IsLiveKey, number_at};

use crate::listing::parent_of;
use kernel_core::NoMemory;
use kernel_core::limits::{NODE_LIMIT, ROOT_NUMBER};
use native_vfs::Vfs;
use std::alloc::{AllocError, Global};

/// The path of a directory, or None where it was removed.
pub(crate) fn path_to(vfs: &Vfs, alloc: Global, key: usize) -> Result<Option<Vec<u8>>, NoMemory>
    requires live { IsLiveKey vfs.now key }
    requires valid { IsFileSystem vfs.now.nodes }
    requires directory { IsSome (listing_at vfs.now.nodes (number_at vfs.now key)) }
    ensures { IfOk result (λ path. option_map (λ p. p.items) path ≡ rows.path_to vfs.now.nodes (number_at vfs.now key)) }
{
    match names_back(vfs, alloc, key)? {
        None => Ok(None),
        Some(back) => Ok(Some(turned(alloc, &back)?)),
    }
}

/// A path from its bytes backwards: that of the root is one slash.
fn turned(alloc: Global, back: &Vec<u8>) -> Result<Vec<u8>, AllocError>
    ensures { IfOk result (λ path. path.items ≡ rows.or_slash (reverse back.now.items)) }
{
    let mut path = Vec::with_capacity(alloc, back.len() + 1)?;
    if back.is_empty() {
        path.push(b'/')?;
    } else {
        push_backwards(&mut path, back.as_slice())?;
    }
    Ok(path)
}

/// The names from the root to a directory, each after a slash, backwards; or None where it was removed.
fn names_back(vfs: &Vfs, alloc: Global, key: usize) -> Result<Option<Vec<u8>>, NoMemory>
    requires live { IsLiveKey vfs.now key }
    requires valid { IsFileSystem vfs.now.nodes }
    requires directory { IsSome (listing_at vfs.now.nodes (number_at vfs.now key)) }
    ensures { IfOk result (λ back. option_map (λ b. reverse b.items) back ≡ rows.names_to node_limit vfs.now.nodes (number_at vfs.now key)) }
{
    let mut back = Vec::new(alloc);
    let mut at = key;
    for _step in 0..NODE_LIMIT {
        let number = vfs.status(at).number;
        if number == ROOT_NUMBER {
            return Ok(Some(back));
        }
        match parent_of(vfs, at) {
            None => return Ok(None),
            Some(parent) => {
                put_name(vfs, &mut back, parent, number)?;
                at = parent;
            }
        }
    }
    if vfs.status(at).number == ROOT_NUMBER {
        return Ok(Some(back));
    }
    Ok(None)
}

/// Puts the name that a directory has in its parent behind others, backwards, and a slash.
fn put_name(vfs: &Vfs, back: &mut Vec<u8>, parent: usize, number: u64) -> Result<(), AllocError>
    requires live { IsLiveKey vfs.now parent }
    requires valid { IsFileSystem vfs.now.nodes }
    requires directory { IsSome (listing_at vfs.now.nodes (number_at vfs.now parent)) }
    ensures { OnOk result (back.new.items ≡ back.old.items ++ reverse (rows.name_below vfs.now.nodes (number_at vfs.now parent) number)) }
{
    match name_in(vfs, parent, number) {
        None => {}
        Some(name) => {
            push_backwards(back, name)?;
            back.push(b'/')?;
        }
    }
    Ok(())
}

/// The name of the first entry of a directory that names this node.
fn name_in(vfs: &Vfs, parent: usize, number: u64) -> Option<&[u8]>
    requires live { IsLiveKey vfs.now parent }
    requires valid { IsFileSystem vfs.now.nodes }
    requires directory { IsSome (listing_at vfs.now.nodes (number_at vfs.now parent)) }
    ensures { slash_before result ≡ rows.name_below vfs.now.nodes (number_at vfs.now parent) number }
{
    let mut cookie = 0;
    while let Some((next, name, node)) = vfs.entry_after(parent, cookie) {
        if vfs.status(node).number == number {
            return Some(name);
        }
        cookie = next;
    }
    None
}

/// Pushes bytes from the last to the first.
fn push_backwards(onto: &mut Vec<u8>, bytes: &[u8]) -> Result<(), AllocError>
    ensures { OnOk result (onto.new.items ≡ onto.old.items ++ reverse bytes.now) }
{
    let mut left = bytes.len();
    while left > 0 {
        left -= 1;
        onto.push(bytes[left])?;
    }
    Ok(())
}
