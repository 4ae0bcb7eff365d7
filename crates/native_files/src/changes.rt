//! What the calls on names do to the nodes, at places that a walk gave.
ghost use Rattle.std.specs.Prelude.{◌≡◌, ◌≤◌, Some};
ghost use Rattle.kernel_core.specs.FileSystem.{IsFileSystem, IsTime};
ghost use Rattle.kernel_core.specs.NameCalls as names;
ghost use Rattle.kernel_core.specs.Nodes.{is_directory};
ghost use Rattle.kernel_core.specs.Queries.{new_number};
ghost use Rattle.kernel_core.specs.ValidTree.{greatest_mode};
ghost use Rattle.kernel_model.specs.Modes.{permitted};
ghost use Rattle.kernel_model.specs.NameRows.{makes_file_before_slash};
ghost use Rattle.kernel_model.specs.Paths.{is_missing_before_slash};
ghost use Rattle.native_files.specs.Answers.{IsShortPlain};
ghost use Rattle.native_files.specs.inside.Changes.{Changes, link_reason, make_link_reason, rename_reason};
ghost use Rattle.native_vfs.specs.Answers.{with_node};
ghost use Rattle.native_vfs.specs.Held.{KeepsHeld};
ghost use Rattle.native_vfs.specs.Keyed.{AgreesAt, IsLiveKey, Keyed, number_at, place_at};

use kernel_core::{CoreError, Errno};
use native_vfs::{NodeKind, Place, Vfs, ends_with_slash};

/// The bits of a mode that the umask leaves (umask(2)).
pub(crate) fn permitted(umask: u16, mode: u16) -> u16
    ensures bits { result ≡ permitted umask mode }
    ensures within { result ≤ mode }
{
    mode - (mode & umask)
}

/// Makes an empty directory with these mode bits.
pub(crate) fn make_directory_at(
    vfs: &mut Vfs,
    at: &Place,
    mode: u16,
    now: i128,
) -> Result<(), CoreError>
    requires agrees { AgreesAt vfs.old at.now }
    requires mode { mode ≤ greatest_mode }
    requires time { IsTime now }
    ensures changed { Changes vfs.old.nodes (names.make_refusal vfs.old.nodes (place_at vfs.old at.now)) (names.after_mkdir vfs.old.nodes (place_at vfs.old at.now) (new_number vfs.old.nodes) mode now) result vfs.new.nodes }
    ensures held { KeepsHeld vfs.old vfs.new }
    ensures valid { IsFileSystem vfs.new.nodes }
{
    match vfs.mkdir(at, mode, now) {
        Ok(_) => Ok(()),
        Err(error) => Err(error),
    }
}

/// Makes a symbolic link to this target. `path` led to the place: ENOENT where a name is missing before its slash.
pub(crate) fn make_link_at(
    vfs: &mut Vfs,
    at: &Place,
    path: &[u8],
    target: &[u8],
    now: i128,
) -> Result<(), CoreError>
    requires agrees { AgreesAt vfs.old at.now }
    requires target { IsShortPlain target.now }
    requires valid { IsFileSystem vfs.old.nodes }
    requires time { IsTime now }
    ensures changed { Changes vfs.old.nodes (make_link_reason vfs.old.nodes path.now (place_at vfs.old at.now) target.now) (names.after_symlink vfs.old.nodes (place_at vfs.old at.now) (new_number vfs.old.nodes) target.now now) result vfs.new.nodes }
    ensures held { KeepsHeld vfs.old vfs.new }
    ensures valid { IsFileSystem vfs.new.nodes }
{
    if is_missing_before_slash(path, at) {
        return Err(CoreError::Refused(Errno::ENOENT));
    }
    vfs.symlink(at, target, now)
}

/// Gives a node one name more. `path` led to the place: ENOENT where a name is missing before its slash. EPERM for a
/// directory comes first.
pub(crate) fn link_at(
    vfs: &mut Vfs,
    node: usize,
    at: &Place,
    path: &[u8],
    now: i128,
) -> Result<(), CoreError>
    requires live { IsLiveKey vfs.old node }
    requires agrees { AgreesAt vfs.old at.now }
    requires valid { IsFileSystem vfs.old.nodes }
    requires time { IsTime now }
    ensures changed { Changes vfs.old.nodes (link_reason vfs.old.nodes (number_at vfs.old node) path.now (place_at vfs.old at.now)) (names.after_link vfs.old.nodes (number_at vfs.old node) (place_at vfs.old at.now) now) result vfs.new.nodes }
    ensures held { KeepsHeld vfs.old vfs.new }
    ensures valid { IsFileSystem vfs.new.nodes }
{
    if is_directory(vfs, node) {
        return Err(CoreError::Refused(Errno::EPERM));
    }
    if is_missing_before_slash(path, at) {
        return Err(CoreError::Refused(Errno::ENOENT));
    }
    vfs.link(node, at, now)
}

/// Takes a name away from a file or a symbolic link.
pub(crate) fn unlink_at(vfs: &mut Vfs, at: &Place, now: i128) -> Result<(), CoreError>
    requires agrees { AgreesAt vfs.old at.now }
    requires time { IsTime now }
    ensures changed { Changes vfs.old.nodes (names.unlink_refusal vfs.old.nodes (place_at vfs.old at.now)) (with_node (place_at vfs.old at.now).node vfs.old.nodes (λ node. names.after_unlink vfs.old.nodes (place_at vfs.old at.now) node now)) result vfs.new.nodes }
    ensures held { KeepsHeld vfs.old vfs.new }
    ensures valid { IsFileSystem vfs.new.nodes }
{
    vfs.unlink(at, now)
}

/// Takes its name away from an empty directory.
pub(crate) fn remove_directory_at(vfs: &mut Vfs, at: &Place, now: i128) -> Result<(), CoreError>
    requires agrees { AgreesAt vfs.old at.now }
    requires time { IsTime now }
    ensures changed { Changes vfs.old.nodes (names.rmdir_refusal vfs.old.nodes (place_at vfs.old at.now)) (with_node (place_at vfs.old at.now).node vfs.old.nodes (λ node. names.after_rmdir vfs.old.nodes (place_at vfs.old at.now) node now)) result vfs.new.nodes }
    ensures held { KeepsHeld vfs.old vfs.new }
    ensures valid { IsFileSystem vfs.new.nodes }
{
    vfs.rmdir(at, now)
}

/// Moves the name of a node. `path` led to the new place: ENOENT where no directory would get a name before its slash.
pub(crate) fn rename_at(
    vfs: &mut Vfs,
    moved: usize,
    from: &Place,
    to: &Place,
    path: &[u8],
    now: i128,
) -> Result<(), CoreError>
    requires node { from.now.node ≡ Some moved }
    requires from { AgreesAt vfs.old from.now }
    requires to { AgreesAt vfs.old to.now }
    requires valid { IsFileSystem vfs.old.nodes }
    requires time { IsTime now }
    ensures changed { Changes vfs.old.nodes (rename_reason vfs.old.nodes (number_at vfs.old moved) (place_at vfs.old from.now) path.now (place_at vfs.old to.now)) (names.after_rename vfs.old.nodes (place_at vfs.old from.now) (place_at vfs.old to.now) (number_at vfs.old moved) now) result vfs.new.nodes }
    ensures held { KeepsHeld vfs.old vfs.new }
    ensures valid { IsFileSystem vfs.new.nodes }
{
    if makes_file_before_slash(vfs, moved, from, path, to) {
        return Err(CoreError::Refused(Errno::ENOENT));
    }
    vfs.rename(from, to, now)
}

/// Whether a file or a link would get a name that is missing before a slash. `.`, `..` and the empty name are refused
/// for what they are.
fn makes_file_before_slash(vfs: &Vfs, moved: usize, from: &Place, path: &[u8], to: &Place) -> bool
    requires live { IsLiveKey vfs.now moved }
    ensures { result ≡ makes_file_before_slash vfs.now.nodes (number_at vfs.now moved) (place_at vfs.now from.now) path.now (place_at vfs.now to.now) }
{
    if is_no_entry(from.name.as_slice()) || is_no_entry(to.name.as_slice()) {
        return false;
    }
    is_missing_before_slash(path, to) && !is_directory(vfs, moved)
}

/// A name that is missing, at the end of a path that ends in a slash.
pub(crate) fn is_missing_before_slash(path: &[u8], at: &Place) -> bool
    ensures { (system : Keyed) → result ≡ is_missing_before_slash path.now (place_at system at.now) }
{
    at.node.is_none() && ends_with_slash(path)
}

/// Whether the name is that of no entry: the empty one, `.` or `..`.
fn is_no_entry(name: &[u8]) -> bool
    ensures { result ≡ names.is_no_entry name.now }
{
    name.is_empty() || name == b".".as_slice() || name == b"..".as_slice()
}

/// Whether a node is a directory.
pub(crate) fn is_directory(vfs: &Vfs, key: usize) -> bool
    requires live { IsLiveKey vfs.now key }
    ensures { result ≡ is_directory vfs.now.nodes (number_at vfs.now key) }
{
    match vfs.kind(key) {
        NodeKind::Directory => true,
        NodeKind::File => false,
        NodeKind::Link => false,
    }
}
