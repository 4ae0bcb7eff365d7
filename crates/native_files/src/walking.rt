//! Where paths lead, by the keys of nodes (path_resolution(7), openat(2)).
ghost use Rattle.std.specs.Prelude.{◌≡◌, false, ◌==◌};
ghost use Rattle.std.specs.List.{list_any};
ghost use Rattle.kernel_model.specs.Paths.{directory_of, node_found};
ghost use Rattle.kernel_model.specs.Table.{description_at};
ghost use Rattle.native_files.specs.Answers.{base_of};
ghost use Rattle.native_files.specs.inside.Kept.{AreKept, AreKeyed};
ghost use Rattle.native_files.specs.inside.Walks.{BeginsAt, FindsNode, LeadsTo, base_in, walk_in};
ghost use Rattle.native_vfs.specs.Keyed.{number_at};

use crate::nodes::key_at;
use kernel_core::{CoreError, Errno};
use kernel_model::{Description, Object};
use native_fd::Table;
use native_vfs::{NodeKind, Place, Vfs};

/// Where a path begins that does not begin with a slash (openat(2)).
#[derive(Clone, Copy)]
pub enum Base {
    /// At the working directory (AT_FDCWD).
    Working,
    /// At the directory that a descriptor has open.
    Descriptor(u32),
}

/// A path, and where it begins if not with a slash.
#[derive(Clone, Copy)]
pub(crate) struct PathFrom<'a> {
    pub(crate) base: Base,
    pub(crate) path: &'a [u8],
}

/// Walks a path and tells where its last name stands. `directory` is the key of the working directory, and the
/// path has no NUL. ENOENT for an empty path; where the path does not begin with a slash, EBADF for a descriptor
/// that is not open and ENOTDIR for one that has no directory open; then what `Vfs::walk` has.
pub(crate) fn walk(
    vfs: &Vfs,
    table: &Table<Description>,
    node_keys: &[usize],
    directory: usize,
    from: PathFrom,
    follow: bool,
) -> Result<Place, CoreError>
    requires kept { AreKept vfs.now table.now.live node_keys.now directory }
    requires plain { list_any (λ byte. byte == 0) from.path.now ≡ false }
    ensures { LeadsTo vfs.now (walk_in vfs.now.nodes table.now (number_at vfs.now directory) (base_of from.entry.base) from.entry.path.now follow) result }
{
    let path = from.path;
    if path.is_empty() {
        return Err(CoreError::Refused(Errno::ENOENT));
    }
    if path[0] == b'/' {
        return vfs.walk(directory, path, follow);
    }
    match base_key(vfs, table, node_keys, directory, from.base) {
        Err(error) => Err(CoreError::Refused(error)),
        Ok(start) => vfs.walk(start, path, follow),
    }
}

/// Walks a path to a node that is there, and gives its key. ENOENT where the last name is not there; else what
/// `walk` has.
pub(crate) fn walk_to_node(
    vfs: &Vfs,
    table: &Table<Description>,
    node_keys: &[usize],
    directory: usize,
    from: PathFrom,
    follow: bool,
) -> Result<usize, CoreError>
    requires kept { AreKept vfs.now table.now.live node_keys.now directory }
    requires plain { list_any (λ byte. byte == 0) from.path.now ≡ false }
    ensures { FindsNode vfs.now (node_found (walk_in vfs.now.nodes table.now (number_at vfs.now directory) (base_of from.entry.base) from.entry.path.now follow)) result }
{
    match walk(vfs, table, node_keys, directory, from, follow) {
        Err(error) => Err(error),
        Ok(place) => match place.node {
            None => Err(CoreError::Refused(Errno::ENOENT)),
            Some(node) => Ok(node),
        },
    }
}

/// The key of the directory where a path begins that does not begin with a slash.
fn base_key(
    vfs: &Vfs,
    table: &Table<Description>,
    node_keys: &[usize],
    directory: usize,
    base: Base,
) -> Result<usize, Errno>
    requires kept { AreKept vfs.now table.now.live node_keys.now directory }
    ensures { BeginsAt vfs.now (base_in vfs.now.nodes table.now (number_at vfs.now directory) (base_of base)) result }
{
    match base {
        Base::Working => Ok(directory),
        Base::Descriptor(fd) => directory_key(vfs, table, node_keys, fd),
    }
}

/// The key of the directory that a descriptor has open. EBADF where it is not open; ENOTDIR where it has
/// something else open.
pub(crate) fn directory_key(
    vfs: &Vfs,
    table: &Table<Description>,
    node_keys: &[usize],
    fd: u32,
) -> Result<usize, Errno>
    requires keyed { AreKeyed vfs.now table.now.live node_keys.now }
    ensures { BeginsAt vfs.now (directory_of vfs.now.nodes (description_at table.now fd)) result }
{
    match table.get(fd) {
        None => Err(Errno::EBADF),
        Some(description) => match description.object {
            Object::Stream(_) => Err(Errno::ENOTDIR),
            Object::ReadEnd(_) => Err(Errno::ENOTDIR),
            Object::WriteEnd(_) => Err(Errno::ENOTDIR),
            Object::Node(_) => {
                let key = key_at(table, node_keys, fd);
                match vfs.kind(key) {
                    NodeKind::Directory => Ok(key),
                    NodeKind::File => Err(Errno::ENOTDIR),
                    NodeKind::Link => Err(Errno::ENOTDIR),
                }
            }
        },
    }
}
