//! The sizes of files: truncate(2) and ftruncate(2).
ghost use Rattle.std.specs.Prelude.{◌≡◌, IsSome, Some};
ghost use Rattle.kernel_core.specs.FileSystem.{IsFileSystem, IsTime};
ghost use Rattle.kernel_core.specs.NodeCalls.{after_resize};
ghost use Rattle.kernel_model.specs.Descriptions.{content_at, node_of, opened};
ghost use Rattle.kernel_model.specs.NodeRows as rows;
ghost use Rattle.native_files.specs.Answers.{Answers, IsPlain, WhereRead, base_of, came_of, text_of};
ghost use Rattle.native_files.specs.inside.Contents.{number_in};
ghost use Rattle.native_files.specs.inside.NodeSteps.{ChangesSurely, truncate_by_path, truncate_refusal, truncate_writable, wide};
ghost use Rattle.native_vfs.specs.Held.{KeepsHeld};
ghost use Rattle.native_vfs.specs.Keyed.{IsLiveKey, number_at};

use crate::files::Files;
use crate::nodes::key_at;
use crate::walking::{Base, PathFrom, walk_to_node};
use kernel_core::{CoreError, Errno};
use kernel_model::{Description, Object};
use native_vfs::{NodeKind, Vfs};

impl Files {
    /// Makes `size` the size in bytes of the file that a path names (truncate(2)), of which what is new reads as
    /// zeros. `now` is in nanoseconds since the Epoch, within whole seconds of 64 bits. It is refused with what was
    /// wrong with the path; EINVAL for a size below 0; then as the walk is, and ENOENT where the node is not there;
    /// EISDIR for a directory; EFBIG for a size above 2^44 (this project's own). After NoMemory the files are not
    /// used again.
    #[tactic(auto, unfolding(kernel_model::specs::NodeRows::truncate))]
    pub fn truncate(
        &mut self,
        now: i128,
        base: Base,
        path: Result<&[u8], Errno>,
        size: i64,
    ) -> Result<(), CoreError>
        requires time { IsTime now }
        requires path { WhereRead IsPlain (text_of path) }
        ensures row { Answers (rows.truncate self.old now (base_of base) (text_of path.entry) size) result self.new }
    {
        match path {
            Err(error) => Err(CoreError::Refused(error)),
            Ok(path) => {
                if size < 0 {
                    return Err(CoreError::Refused(Errno::EINVAL));
                }
                self.truncate_named(now, base, path, size.unsigned_abs())
            }
        }
    }

    fn truncate_named(
        &mut self,
        now: i128,
        base: Base,
        path: &[u8],
        size: u64,
    ) -> Result<(), CoreError>
        requires time { IsTime now }
        requires path { IsPlain path.now }
        ensures row { Answers (truncate_by_path self.old now (base_of base) path.now size) result self.new }
    {
        let keys = self.node_keys.as_slice();
        let from = PathFrom { base, path };
        match walk_to_node(&self.vfs, &self.table, keys, self.directory, from, true) {
            Err(error) => Err(error),
            Ok(node) => as_answer(truncate_at(&mut self.vfs, node, size, now)),
        }
    }

    /// Makes `size` the size in bytes of the file that a descriptor has open (ftruncate(2)). `now` is in
    /// nanoseconds since the Epoch, within whole seconds of 64 bits. EBADF where the descriptor is not open;
    /// EINVAL for a size below 0, where it is not open for writing, and for streams and pipes; EFBIG for a size
    /// above 2^44 (this project's own). It takes no memory.
    #[tactic(auto, unfolding(kernel_model::specs::NodeRows::truncate_open))]
    pub fn truncate_open(&mut self, now: i128, fd: u32, size: i64) -> Result<(), Errno>
        requires { IsTime now }
        ensures came { came_of result ≡ (rows.truncate_open self.old now fd size).came }
        ensures state { self.new ≡ (rows.truncate_open self.old now fd size).state }
    {
        match self.opened(fd) {
            None => Err(Errno::EBADF),
            Some(_) => {
                if size < 0 {
                    return Err(Errno::EINVAL);
                }
                self.truncate_writable(now, fd, size.unsigned_abs())
            }
        }
    }

    /// Gives the file that a descriptor has open for writing another size.
    fn truncate_writable(&mut self, now: i128, fd: u32, size: u64) -> Result<(), Errno>
        requires { IsTime now }
        ensures came { came_of result ≡ (truncate_writable self.old now fd size).came }
        ensures state { self.new ≡ (truncate_writable self.old now fd size).state }
    {
        match self.writable(fd) {
            None => Err(Errno::EINVAL),
            Some(description) => match description.object {
                Object::Stream(_) => Err(Errno::EINVAL),
                Object::ReadEnd(_) => Err(Errno::EINVAL),
                Object::WriteEnd(_) => Err(Errno::EINVAL),
                Object::Node(_) => self.truncate_node(now, fd, &description, size),
            },
        }
    }

    /// Gives the node that a description has open another size.
    fn truncate_node(
        &mut self,
        now: i128,
        fd: u32,
        description: &Description,
        size: u64,
    ) -> Result<(), Errno>
        requires open { opened self.old fd ≡ Some description.now }
        requires node { IsSome (node_of description.now.object) }
        requires time { IsTime now }
        ensures came { came_of result ≡ (rows.truncate_content self.old now (number_in description.now.object) size (content_at self.old.nodes (number_in description.now.object))).came }
        ensures state { self.new ≡ (rows.truncate_content self.old now (number_in description.now.object) size (content_at self.old.nodes (number_in description.now.object))).state }
    {
        let key = key_at(&self.table, self.node_keys.as_slice(), fd);
        truncate_at(&mut self.vfs, key, size, now)
    }
}

/// The answer of a call that takes no memory, as that of one that may.
pub(crate) fn as_answer(answer: Result<(), Errno>) -> Result<(), CoreError>
    ensures { result ≡ wide answer }
{
    match answer {
        Ok(()) => Ok(()),
        Err(error) => Err(CoreError::Refused(error)),
    }
}

/// Gives a file another size. EISDIR for a directory; EINVAL for a symbolic link; EFBIG for a size above 2^44.
fn truncate_at(vfs: &mut Vfs, key: usize, size: u64, now: i128) -> Result<(), Errno>
    requires live { IsLiveKey vfs.old key }
    requires valid { IsFileSystem vfs.old.nodes }
    requires time { IsTime now }
    ensures changed { ChangesSurely vfs.old.nodes (truncate_refusal size (content_at vfs.old.nodes (number_at vfs.old key))) (after_resize vfs.old.nodes (number_at vfs.old key) size now) result vfs.new.nodes }
    ensures same { vfs.new.keys ≡ vfs.old.keys }
    ensures held { KeepsHeld vfs.old vfs.new }
    ensures valid { IsFileSystem vfs.new.nodes }
{
    match vfs.kind(key) {
        NodeKind::Directory => Err(Errno::EISDIR),
        NodeKind::Link => Err(Errno::EINVAL),
        NodeKind::File => match vfs.set_size(key, size, now) {
            Ok(()) => Ok(()),
            Err(CoreError::Refused(error)) => Err(error),
            Err(CoreError::Stop(_)) => unreachable!(),
        },
    }
}
