//! What is told of the node that a path names: stat(2), lstat(2), fstatat(2) and access(2).
ghost use Rattle.std.specs.Prelude.{◌≡◌, ◌&&◌, IfOk};
ghost use Rattle.std.specs.FinMap as map;
ghost use Rattle.kernel_core.specs.FileSystem.{IsFileSystem};
ghost use Rattle.kernel_core.specs.Nodes.{Inode};
ghost use Rattle.kernel_model.specs.Came.{came_as};
ghost use Rattle.kernel_model.specs.NodeRows as rows;
ghost use Rattle.native_files.specs.Answers.{Answers, IsPlain, IsStatus, WhereRead, base_of, came_of, status_answered, status_flags_of, status_flags_told, status_told, text_of};
ghost use Rattle.native_files.specs.inside.NodeSteps.{access_answer, access_by_path};
ghost use Rattle.native_vfs.specs.Keyed.{IsLiveKey, inode_at, number_at};

use crate::files::Files;
use crate::nodes::node_status;
use crate::progress::Status;
use crate::walking::{Base, PathFrom, walk_to_node};
use kernel_core::{CoreError, Errno};
use native_vfs::{NodeKind, Vfs};

/// The greatest mode of access(2): R_OK, W_OK and X_OK.
const GREATEST_ACCESS: u32 = 7;

/// The bits of a mode that allow to execute (inode(7)): those of owner, group and others.
const EXECUTE_BITS: u16 = 0o111;

/// The end of the twelve mode bits, above which a status has the type.
const MODES: u16 = 0x1000;

/// The flags of fstatat(2).
#[derive(Clone, Copy)]
pub struct StatusFlags {
    /// Whether a last link is followed (not AT_SYMLINK_NOFOLLOW).
    pub follow: bool,
    /// Whether an empty path means the descriptor itself (AT_EMPTY_PATH).
    pub empty: bool,
}

impl Files {
    /// What stat(2) tells of the node that a path names (fstatat(2), of which stat(2) and lstat(2) are forms).
    /// `flags` is None where there are others. EINVAL for those; then it is refused with what was wrong with the
    /// path; then as the walk is, and ENOENT where the node is not there. Where an empty path means the descriptor
    /// itself, EBADF for one that is not open.
    #[tactic(auto, unfolding(kernel_model::specs::NodeRows::status_at_path))]
    pub fn status_at_path(
        &self,
        base: Base,
        path: Result<&[u8], Errno>,
        flags: Option<StatusFlags>,
    ) -> Result<Status, CoreError>
        requires path { WhereRead IsPlain (text_of path) }
        ensures row { Answers (rows.status_at_path self.now (base_of base) (text_of path.entry) (status_flags_told flags)) (status_answered result) self.now }
        ensures fits { IfOk result IsStatus }
    {
        let Some(flags) = flags else {
            return Err(CoreError::Refused(Errno::EINVAL));
        };
        match path {
            Err(error) => Err(CoreError::Refused(error)),
            Ok(path) => {
                if flags.empty && path.is_empty() {
                    return match self.status_of_base(base) {
                        Err(error) => Err(CoreError::Refused(error)),
                        Ok(status) => Ok(status),
                    };
                }
                self.status_by_path(base, path, flags)
            }
        }
    }

    /// What stat(2) tells of the working directory, or of what a descriptor has open.
    fn status_of_base(&self, base: Base) -> Result<Status, Errno>
        ensures came { came_as status_told (came_of result) ≡ (rows.status_of_base self.now (base_of base)).came }
        ensures state { (rows.status_of_base self.now (base_of base)).state ≡ self.now }
        ensures fits { IfOk result IsStatus }
    {
        match base {
            Base::Working => Ok(node_status(&self.vfs, self.directory)),
            Base::Descriptor(fd) => self.status(fd),
        }
    }

    fn status_by_path(
        &self,
        base: Base,
        path: &[u8],
        flags: StatusFlags,
    ) -> Result<Status, CoreError>
        requires path { IsPlain path.now }
        ensures row { Answers (rows.status_by_path self.now (base_of base) path.now (status_flags_of flags)) (status_answered result) self.now }
        ensures fits { IfOk result IsStatus }
    {
        let keys = self.node_keys.as_slice();
        let from = PathFrom { base, path };
        match walk_to_node(
            &self.vfs,
            &self.table,
            keys,
            self.directory,
            from,
            flags.follow,
        ) {
            Err(error) => Err(error),
            Ok(node) => Ok(node_status(&self.vfs, node)),
        }
    }

    /// Whether the node that a path names may be used so (access(2), faccessat(2)): the bits of `mode` are execute
    /// (1), write (2) and read (4), and 0 asks whether it is there. It is refused with what was wrong with the path;
    /// EINVAL for other bits; then as the walk is, and ENOENT where the node is not there; EACCES where a file is to
    /// be executed whose mode has no execute bit. Other bits of a mode are not looked at (this project's own).
    #[tactic(auto, unfolding(kernel_model::specs::NodeRows::access))]
    pub fn access(&self, base: Base, path: Result<&[u8], Errno>, mode: u32) -> Result<(), CoreError>
        requires path { WhereRead IsPlain (text_of path) }
        ensures row { Answers (rows.access self.now (base_of base) (text_of path.entry) mode) result self.now }
    {
        match path {
            Err(error) => Err(CoreError::Refused(error)),
            Ok(path) => {
                if mode > GREATEST_ACCESS {
                    return Err(CoreError::Refused(Errno::EINVAL));
                }
                self.access_named(base, path, mode % 2 == 1)
            }
        }
    }

    fn access_named(&self, base: Base, path: &[u8], execute: bool) -> Result<(), CoreError>
        requires path { IsPlain path.now }
        ensures row { Answers (access_by_path self.now (base_of base) path.now execute) result self.now }
    {
        let keys = self.node_keys.as_slice();
        let from = PathFrom { base, path };
        match walk_to_node(&self.vfs, &self.table, keys, self.directory, from, true) {
            Err(error) => Err(error),
            Ok(node) => access_to(&self.vfs, node, execute),
        }
    }
}

/// EACCES where a regular file is to be executed that no execute bit of its mode allows to execute.
fn access_to(vfs: &Vfs, key: usize, execute: bool) -> Result<(), CoreError>
    requires live { IsLiveKey vfs.now key }
    requires valid { IsFileSystem vfs.now.nodes }
    ensures { result ≡ access_answer (execute && rows.is_not_executable (map.get vfs.now.nodes (number_at vfs.now key))) }
{
    if execute && is_not_executable(vfs, key) {
        Err(CoreError::Refused(Errno::EACCES))
    } else {
        Ok(())
    }
}

/// Whether a node is a regular file that no execute bit of its mode allows to execute.
fn is_not_executable(vfs: &Vfs, key: usize) -> bool
    requires live { IsLiveKey vfs.now key }
    requires valid { IsFileSystem vfs.now.nodes }
    ensures { result ≡ rows.is_not_executable (map.get vfs.now.nodes (number_at vfs.now key)) }
{
    match vfs.kind(key) {
        NodeKind::File => mode_bits(vfs, key) & EXECUTE_BITS == 0,
        NodeKind::Directory => false,
        NodeKind::Link => false,
    }
}

/// The twelve mode bits of a node.
fn mode_bits(vfs: &Vfs, key: usize) -> u16
    requires live { IsLiveKey vfs.now key }
    requires valid { IsFileSystem vfs.now.nodes }
    ensures { (inode : Inode) × (inode_at vfs.now key ≡ Some inode) × (result ≡ inode.mode) }
{
    vfs.status(key).mode % MODES
}
