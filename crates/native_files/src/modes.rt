//! The mode bits of nodes: chmod(2), fchmod(2), and umask(2).
ghost use Rattle.std.specs.Prelude.{◌≡◌, IsSome, Some, Ok};
ghost use Rattle.kernel_core.specs.FileSystem.{IsTime};
ghost use Rattle.kernel_model.specs.Came.{Done};
ghost use Rattle.kernel_model.specs.Descriptions.{node_of, opened};
ghost use Rattle.kernel_model.specs.NodeRows as rows;
ghost use Rattle.native_files.specs.Answers.{Answers, IsPlain, WhereRead, base_of, came_of, text_of};
ghost use Rattle.native_files.specs.inside.Contents.{number_in};

use crate::files::Files;
use crate::nodes::key_at;
use crate::walking::{Base, PathFrom, walk_to_node};
use kernel_core::{CoreError, Errno};
use kernel_model::{Description, Object};

/// The end of the modes that a node has: twelve bits.
const MODES: u32 = 0x1000;

/// The end of the masks that umask(2) keeps: nine bits.
const MASKS: u32 = 0x200;

impl Files {
    /// Sets the mode bits that a new node does not get to the low nine bits of `umask`, and gives the old ones
    /// (umask(2)). It takes no memory.
    #[tactic(auto, unfolding(kernel_model::specs::NodeRows::set_umask))]
    pub fn set_umask(&mut self, umask: u32) -> u16
        ensures came { (rows.set_umask self.old umask).came ≡ Done result }
        ensures state { self.new ≡ (rows.set_umask self.old umask).state }
    {
        let old = self.umask;
        self.umask = (umask % MASKS) as u16;
        old
    }

    /// Sets the mode of the node that a descriptor has open to the low twelve bits of `mode` (fchmod(2)). `now` is
    /// in nanoseconds since the Epoch, within whole seconds of 64 bits. A stream and an end of a pipe stay as they
    /// are (this project's own). EBADF where the descriptor is not open. It takes no memory.
    #[tactic(auto, unfolding(kernel_model::specs::NodeRows::change_open_mode))]
    pub fn change_open_mode(&mut self, now: i128, fd: u32, mode: u32) -> Result<(), Errno>
        requires { IsTime now }
        ensures came { came_of result ≡ (rows.change_open_mode self.old now fd mode).came }
        ensures state { self.new ≡ (rows.change_open_mode self.old now fd mode).state }
    {
        match self.opened(fd) {
            None => Err(Errno::EBADF),
            Some(description) => match description.object {
                Object::Stream(_) => Ok(()),
                Object::ReadEnd(_) => Ok(()),
                Object::WriteEnd(_) => Ok(()),
                Object::Node(_) => {
                    self.set_open_mode(now, fd, &description, mode);
                    Ok(())
                }
            },
        }
    }

    /// Sets the mode of the node that a description has open.
    fn set_open_mode(&mut self, now: i128, fd: u32, description: &Description, mode: u32)
        requires open { opened self.old fd ≡ Some description.now }
        requires node { IsSome (node_of description.now.object) }
        requires time { IsTime now }
        ensures { self.new ≡ rows.after_mode self.old now mode (number_in description.now.object) }
    {
        let key = key_at(&self.table, self.node_keys.as_slice(), fd);
        self.vfs.set_mode(key, (mode % MODES) as u16, now);
    }

    /// Sets the mode of the node that a path names to the low twelve bits of `mode` (chmod(2), fchmodat(2)). `now`
    /// is in nanoseconds since the Epoch, within whole seconds of 64 bits. It is refused with what was wrong with
    /// the path; then as the walk is, and ENOENT where the node is not there. After NoMemory the files are not
    /// used again.
    #[tactic(auto, unfolding(kernel_model::specs::NodeRows::change_mode))]
    pub fn change_mode(
        &mut self,
        now: i128,
        base: Base,
        path: Result<&[u8], Errno>,
        mode: u32,
    ) -> Result<(), CoreError>
        requires time { IsTime now }
        requires path { WhereRead IsPlain (text_of path) }
        ensures row { Answers (rows.change_mode self.old now (base_of base) (text_of path.entry) mode) result self.new }
    {
        match path {
            Err(error) => Err(CoreError::Refused(error)),
            Ok(path) => self.change_mode_named(now, base, path, mode),
        }
    }

    fn change_mode_named(
        &mut self,
        now: i128,
        base: Base,
        path: &[u8],
        mode: u32,
    ) -> Result<(), CoreError>
        requires time { IsTime now }
        requires path { IsPlain path.now }
        ensures row { Answers (rows.change_mode self.old now (base_of base) (Ok path.now) mode) result self.new }
    {
        let keys = self.node_keys.as_slice();
        let from = PathFrom { base, path };
        match walk_to_node(&self.vfs, &self.table, keys, self.directory, from, true) {
            Err(error) => Err(error),
            Ok(node) => {
                self.vfs.set_mode(node, (mode % MODES) as u16, now);
                Ok(())
            }
        }
    }
}
