//! The working directory: chdir(2), fchdir(2) and getcwd(2).
ghost use Rattle.std.specs.Prelude.{◌≡◌, Some, Ok, length};
ghost use Rattle.kernel_core.specs.NodeCalls.{held, released};
ghost use Rattle.kernel_core.specs.Nodes.{update};
ghost use Rattle.kernel_core.specs.Queries.{DirectoryKind, kind_at};
ghost use Rattle.kernel_model.specs.NodeRows as rows;
ghost use Rattle.native_files.specs.Answers.{Answers, IsPlain, WhereRead, came_of, text_of};
ghost use Rattle.native_files.specs.inside.Kept.{AreKept};
ghost use Rattle.native_vfs.specs.Keyed.{IsLiveKey, number_at};

use crate::files::Files;
use crate::location::path_to;
use crate::walking::{Base, PathFrom, directory_key, walk_to_node};
use kernel_core::{Bytes, CoreError, Errno};
use kernel_model::Description;
use native_fd::Table;
use native_vfs::{NodeKind, Vfs};

impl Files {
    /// Makes the directory that a path names the working directory (chdir(2)), which is held as such; the old one
    /// is released. It is refused with what was wrong with the path; then as the walk is, and ENOENT where the node
    /// is not there; ENOTDIR for another node. After NoMemory the files are not used again.
    #[tactic(auto, unfolding(kernel_model::specs::NodeRows::change_directory))]
    pub fn change_directory(&mut self, path: Result<&[u8], Errno>) -> Result<(), CoreError>
        requires { WhereRead IsPlain (text_of path) }
        ensures row { Answers (rows.change_directory self.old (text_of path.entry)) result self.new }
    {
        match path {
            Err(error) => Err(CoreError::Refused(error)),
            Ok(path) => self.change_directory_named(path),
        }
    }

    fn change_directory_named(&mut self, path: &[u8]) -> Result<(), CoreError>
        requires { IsPlain path.now }
        ensures row { Answers (rows.change_directory self.old (Ok path.now)) result self.new }
    {
        let keys = self.node_keys.as_slice();
        let from = self.directory;
        let named = PathFrom {
            base: Base::Working,
            path,
        };
        match walk_to_node(&self.vfs, &self.table, keys, from, named, true) {
            Err(error) => Err(error),
            Ok(to) => match self.vfs.kind(to) {
                NodeKind::Directory => {
                    move_home(&mut self.vfs, &self.table, keys, from, to);
                    self.directory = to;
                    Ok(())
                }
                NodeKind::File => Err(CoreError::Refused(Errno::ENOTDIR)),
                NodeKind::Link => Err(CoreError::Refused(Errno::ENOTDIR)),
            },
        }
    }

    /// Makes the directory that a descriptor has open the working directory (fchdir(2)), which is held as such; the
    /// old one is released. EBADF where the descriptor is not open; ENOTDIR where it has no directory open. It takes
    /// no memory.
    #[tactic(auto, unfolding(kernel_model::specs::NodeRows::change_to_open))]
    pub fn change_to_open(&mut self, fd: u32) -> Result<(), Errno>
        ensures came { came_of result ≡ (rows.change_to_open self.old fd).came }
        ensures state { self.new ≡ (rows.change_to_open self.old fd).state }
    {
        let keys = self.node_keys.as_slice();
        match directory_key(&self.vfs, &self.table, keys, fd) {
            Err(error) => Err(error),
            Ok(to) => {
                move_home(&mut self.vfs, &self.table, keys, self.directory, to);
                self.directory = to;
                Ok(())
            }
        }
    }

    /// The path of the working directory from the root, without a NUL (getcwd(2)); `size` is for how many bytes the
    /// program has room. ENOENT where the directory was removed; ERANGE where there is no room for the path and a
    /// NUL. It looks at the entries of each directory on the way, up to the one whose name it takes.
    #[tactic(auto, unfolding(kernel_model::specs::NodeRows::working_directory))]
    pub fn working_directory(&self, size: u64) -> Result<Bytes, CoreError>
        ensures row { Answers (rows.working_directory self.now size) result self.now }
    {
        let Some(path) = path_to(&self.vfs, self.alloc, self.directory)? else {
            return Err(CoreError::Refused(Errno::ENOENT));
        };
        if path.len() as u64 >= size {
            return Err(CoreError::Refused(Errno::ERANGE));
        }
        Ok(Bytes::from(path))
    }
}

/// Makes the directory `to` the working directory in place of `from`, by their keys.
fn move_home(vfs: &mut Vfs, table: &Table<Description>, node_keys: &[usize], from: usize, to: usize)
    requires kept { AreKept vfs.old table.now.live node_keys.now from }
    requires live { IsLiveKey vfs.old to }
    requires directory { kind_at vfs.old.nodes (number_at vfs.old to) ≡ Some DirectoryKind }
    ensures nodes { vfs.new.nodes ≡ released (update vfs.old.nodes (number_at vfs.old to) held) (number_at vfs.old from) }
    ensures home { number_at vfs.new to ≡ number_at vfs.old to }
    ensures kept { AreKept vfs.new table.now.live node_keys.now to }
{
    has_places(table);
    vfs.hold(to);
    vfs.release(from);
}

/// There are 1,024 places of descriptions, whatever is open.
fn has_places(table: &Table<Description>)
    ensures { length table.now.live ≡ 1024 }
{
    let _number = table.number(0);
}
