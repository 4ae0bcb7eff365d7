//! What a call on one node requires, looked at when a test runs.
ghost use Rattle.std.specs.Prelude.{◌≡◌, IsTrue, IsSome, true};
ghost use Rattle.kernel_core.specs.FileSystem.{parent_at};
ghost use Rattle.kernel_core.specs.Nodes.{file_at, target_at, is_directory as is_directory_at};
ghost use Rattle.kernel_core.specs.PathWalk.{begins_with_slash};
ghost use Rattle.native_vfs.specs.Answers.{MayStart};
ghost use Rattle.native_vfs.specs.Keyed.{AgreesAt, IsLiveKey, number_at};

use native_vfs::{NodeKind, Place, Vfs};

/// Whether a key stands for a file.
pub(crate) fn is_file(vfs: &Vfs, key: usize) -> bool
    requires live { IsLiveKey vfs.now key }
    ensures { IsTrue result → IsSome (file_at vfs.now.nodes (number_at vfs.now key)) }
{
    match vfs.kind(key) {
        NodeKind::File => true,
        NodeKind::Directory | NodeKind::Link => false,
    }
}

/// Whether a key stands for a directory.
pub(crate) fn is_directory(vfs: &Vfs, key: usize) -> bool
    requires live { IsLiveKey vfs.now key }
    ensures { IsTrue result → is_directory_at vfs.now.nodes (number_at vfs.now key) ≡ true }
{
    match vfs.kind(key) {
        NodeKind::Directory => true,
        NodeKind::File | NodeKind::Link => false,
    }
}

/// Whether a key stands for a symbolic link.
pub(crate) fn is_link(vfs: &Vfs, key: usize) -> bool
    requires live { IsLiveKey vfs.now key }
    ensures { IsTrue result → IsSome (target_at vfs.now.nodes (number_at vfs.now key)) }
{
    match vfs.kind(key) {
        NodeKind::Link => true,
        NodeKind::File | NodeKind::Directory => false,
    }
}

/// Whether a place is that of the directory above a directory, by its name `..`.
pub(crate) fn is_parent(vfs: &Vfs, place: &Place) -> bool
    requires { AgreesAt vfs.now place.now }
    ensures { IsTrue result → IsSome (parent_at vfs.now.nodes (number_at vfs.now place.now.dir)) }
{
    place.name.as_slice() == b"..".as_slice() && place.node.is_some()
}

fn begins_with_slash(text: &[u8]) -> bool
    ensures { result ≡ begins_with_slash text.now }
{
    matches!(text, [b'/', ..])
}

/// Whether a walk of a path may start at a key.
pub(crate) fn may_start(vfs: &Vfs, key: usize, path: &[u8]) -> bool
    requires live { IsLiveKey vfs.now key }
    ensures { IsTrue result → MayStart vfs.now key path.now }
{
    if path.is_empty() {
        return true;
    }
    if begins_with_slash(path) {
        return true;
    }
    is_directory(vfs, key)
}
