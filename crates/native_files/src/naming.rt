//! The calls that make, take and move names: mkdir(2), rmdir(2), unlink(2), link(2), symlink(2), rename(2). Each is
//! told where its path begins, and the path as it was read up to its NUL, or why it could not be read: EFAULT or
//! ENAMETOOLONG.
ghost use Rattle.std.specs.Prelude.{◌≡◌, Ok, Some, true, false};
ghost use Rattle.kernel_core.specs.FileSystem.{IsTime};
ghost use Rattle.kernel_core.specs.NameCalls.{is_empty_list};
ghost use Rattle.kernel_model.specs.NameRows as rows;
ghost use Rattle.native_files.specs.Answers.{Answers, IsPlain, IsShortPlain, WhereRead, base_of, text_of};

use crate::changes::{
    link_at, make_directory_at, make_link_at, permitted, remove_directory_at, rename_at, unlink_at,
};
use crate::files::Files;
use crate::walking::{Base, PathFrom, walk, walk_to_node};
use kernel_core::{CoreError, Errno};

impl Files {
    /// Makes a directory (mkdir(2), mkdirat(2)) with the low ten bits of `mode` that the umask leaves. `now` is in
    /// nanoseconds since the Epoch, within whole seconds of 64 bits. It is refused with what was wrong with the
    /// path; then as the walk is; EEXIST where the name is there; ENOENT where its directory was removed; ENOSPC
    /// where 65,536 nodes or 131,072 entries live or the directory's cookies end (these limits are this project's
    /// own). After NoMemory the files are not used again.
    #[tactic(auto, unfolding(kernel_model::specs::NameRows::make_directory))]
    pub fn make_directory(
        &mut self,
        now: i128,
        base: Base,
        path: Result<&[u8], Errno>,
        mode: u32,
    ) -> Result<(), CoreError>
        requires time { IsTime now }
        requires path { WhereRead IsPlain (text_of path) }
        ensures row { Answers (rows.make_directory self.old now (base_of base) (text_of path.entry) mode) result self.new }
    {
        match path {
            Err(error) => Err(CoreError::Refused(error)),
            Ok(path) => self.make_directory_named(now, base, path, mode),
        }
    }

    fn make_directory_named(
        &mut self,
        now: i128,
        base: Base,
        path: &[u8],
        mode: u32,
    ) -> Result<(), CoreError>
        requires time { IsTime now }
        requires path { IsPlain path.now }
        ensures row { Answers (rows.make_directory self.old now (base_of base) (Ok path.now) mode) result self.new }
    {
        let keys = self.node_keys.as_slice();
        let from = PathFrom { base, path };
        match walk(&self.vfs, &self.table, keys, self.directory, from, false) {
            Err(error) => Err(error),
            Ok(at) => {
                let mode = permitted(self.umask, (mode % 0x400) as u16);
                make_directory_at(&mut self.vfs, &at, mode, now)
            }
        }
    }

    /// Takes a name away (unlinkat(2)): that of an empty directory where `directory` says so (rmdir(2)), and else
    /// that of a file or a symbolic link (unlink(2)); `directory` is None where the call has other flags. A node goes
    /// where that was its last name and no descriptor leads to it. `now` is in nanoseconds since the Epoch, within
    /// whole seconds of 64 bits. It is refused with what was wrong with the path; EINVAL for other flags; then as the
    /// walk is; ENOENT where nothing has the name; of a file EISDIR where a directory has it; of a directory EINVAL
    /// for `.`, ENOTEMPTY for `..`, EBUSY for the root, ENOTDIR where something else has the name, and ENOTEMPTY
    /// where it has entries. After NoMemory the files are not used again.
    #[tactic(auto, unfolding(kernel_model::specs::NameRows::remove_name))]
    pub fn remove_name(
        &mut self,
        now: i128,
        base: Base,
        path: Result<&[u8], Errno>,
        directory: Option<bool>,
    ) -> Result<(), CoreError>
        requires time { IsTime now }
        requires path { WhereRead IsPlain (text_of path) }
        ensures row { Answers (rows.remove_name self.old now (base_of base) (text_of path.entry) directory) result self.new }
    {
        match path {
            Err(error) => Err(CoreError::Refused(error)),
            Ok(path) => match directory {
                None => Err(CoreError::Refused(Errno::EINVAL)),
                Some(true) => self.remove_directory_named(now, base, path),
                Some(false) => self.unlink_named(now, base, path),
            },
        }
    }

    fn remove_directory_named(
        &mut self,
        now: i128,
        base: Base,
        path: &[u8],
    ) -> Result<(), CoreError>
        requires time { IsTime now }
        requires path { IsPlain path.now }
        ensures row { Answers (rows.remove_name self.old now (base_of base) (Ok path.now) (Some true)) result self.new }
    {
        let keys = self.node_keys.as_slice();
        let from = PathFrom { base, path };
        match walk(&self.vfs, &self.table, keys, self.directory, from, false) {
            Err(error) => Err(error),
            Ok(at) => remove_directory_at(&mut self.vfs, &at, now),
        }
    }

    fn unlink_named(&mut self, now: i128, base: Base, path: &[u8]) -> Result<(), CoreError>
        requires time { IsTime now }
        requires path { IsPlain path.now }
        ensures row { Answers (rows.remove_name self.old now (base_of base) (Ok path.now) (Some false)) result self.new }
    {
        let keys = self.node_keys.as_slice();
        let from = PathFrom { base, path };
        match walk(&self.vfs, &self.table, keys, self.directory, from, false) {
            Err(error) => Err(error),
            Ok(at) => unlink_at(&mut self.vfs, &at, now),
        }
    }

    /// Gives a file or a symbolic link a second name (link(2), linkat(2)); `follow` is whether a last link of the old
    /// path is followed, and None where the call has other flags. `now` is in nanoseconds since the Epoch, within
    /// whole seconds of 64 bits. It is refused with what was wrong with the old path, then with the new one; EINVAL
    /// for other flags; as the walk of the old path is, ENOENT where it leads to nothing, then as that of the new one
    /// is; EPERM for a directory; ENOENT for a missing name before a slash; EEXIST where the new name is there; ENOENT
    /// where its directory was removed; ENOSPC where 131,072 entries live or the directory's cookies end (these
    /// limits, and that EPERM comes first, are this project's own). After NoMemory the files are not used again.
    #[tactic(auto, unfolding(kernel_model::specs::NameRows::link))]
    pub fn link(
        &mut self,
        now: i128,
        old_base: Base,
        old_path: Result<&[u8], Errno>,
        new_base: Base,
        new_path: Result<&[u8], Errno>,
        follow: Option<bool>,
    ) -> Result<(), CoreError>
        requires time { IsTime now }
        requires old_path { WhereRead IsPlain (text_of old_path) }
        requires new_path { WhereRead IsPlain (text_of new_path) }
        ensures row { Answers (rows.link self.old now (base_of old_base) (text_of old_path.entry) (base_of new_base) (text_of new_path.entry) follow) result self.new }
    {
        match old_path {
            Err(error) => Err(CoreError::Refused(error)),
            Ok(old_path) => match new_path {
                Err(error) => Err(CoreError::Refused(error)),
                Ok(new_path) => match follow {
                    None => Err(CoreError::Refused(Errno::EINVAL)),
                    Some(follow) => {
                        let old = PathFrom {
                            base: old_base,
                            path: old_path,
                        };
                        let new = PathFrom {
                            base: new_base,
                            path: new_path,
                        };
                        self.link_named(now, old, new, follow)
                    }
                },
            },
        }
    }

    fn link_named(
        &mut self,
        now: i128,
        old: PathFrom,
        new: PathFrom,
        follow: bool,
    ) -> Result<(), CoreError>
        requires time { IsTime now }
        requires old_path { IsPlain old.path.now }
        requires new_path { IsPlain new.path.now }
        ensures row { Answers (rows.link self.old now (base_of old.entry.base) (Ok old.entry.path.now) (base_of new.entry.base) (Ok new.entry.path.now) (Some follow)) result self.new }
    {
        let keys = self.node_keys.as_slice();
        let directory = self.directory;
        match walk_to_node(&self.vfs, &self.table, keys, directory, old, follow) {
            Err(error) => Err(error),
            Ok(node) => match walk(&self.vfs, &self.table, keys, directory, new, false) {
                Err(error) => Err(error),
                Ok(at) => link_at(&mut self.vfs, node, &at, new.path, now),
            },
        }
    }

    /// Makes a symbolic link to a target (symlink(2), symlinkat(2)), which is told as a path is and has at most 4,095
    /// bytes. `now` is in nanoseconds since the Epoch, within whole seconds of 64 bits. It is refused with what was
    /// wrong with the target, then with the path; ENOENT for an empty target; as the walk is; ENOENT for a missing
    /// name before a slash; EEXIST where the name is there; ENOENT where its directory was removed; ENOSPC where
    /// 65,536 nodes or 131,072 entries live or the directory's cookies end (these limits are this project's own).
    /// After NoMemory the files are not used again.
    #[tactic(auto, unfolding(kernel_model::specs::NameRows::make_link))]
    pub fn make_link(
        &mut self,
        now: i128,
        target: Result<&[u8], Errno>,
        base: Base,
        path: Result<&[u8], Errno>,
    ) -> Result<(), CoreError>
        requires time { IsTime now }
        requires target { WhereRead IsShortPlain (text_of target) }
        requires path { WhereRead IsPlain (text_of path) }
        ensures row { Answers (rows.make_link self.old now (text_of target.entry) (base_of base) (text_of path.entry)) result self.new }
    {
        match target {
            Err(error) => Err(CoreError::Refused(error)),
            Ok(target) => match path {
                Err(error) => Err(CoreError::Refused(error)),
                Ok(path) => {
                    if target.is_empty() {
                        return Err(CoreError::Refused(Errno::ENOENT));
                    }
                    self.make_link_named(now, target, base, path)
                }
            },
        }
    }

    fn make_link_named(
        &mut self,
        now: i128,
        target: &[u8],
        base: Base,
        path: &[u8],
    ) -> Result<(), CoreError>
        requires time { IsTime now }
        requires target { IsShortPlain target.now }
        requires some { is_empty_list target.now ≡ false }
        requires path { IsPlain path.now }
        ensures row { Answers (rows.make_link self.old now (Ok target.now) (base_of base) (Ok path.now)) result self.new }
    {
        let keys = self.node_keys.as_slice();
        let from = PathFrom { base, path };
        match walk(&self.vfs, &self.table, keys, self.directory, from, false) {
            Err(error) => Err(error),
            Ok(at) => make_link_at(&mut self.vfs, &at, path, target, now),
        }
    }

    /// Moves a name (rename(2), renameat(2)): what stood under the new name loses it, and two names of one node stay.
    /// `now` is in nanoseconds since the Epoch, within whole seconds of 64 bits. It is refused with what was wrong
    /// with the old path, then with the new one; as the walk of the old path is, ENOENT where it leads to nothing,
    /// then as that of the new one is; ENOENT where no directory would get a name that is missing before a slash;
    /// EBUSY where either name is `.`, `..` or empty; EINVAL where a directory would go into its own subtree; ENOTDIR,
    /// ENOTEMPTY or EISDIR by what is replaced; ENOENT where the new directory was removed; ENOSPC where it has no
    /// cookie left. After NoMemory the files are not used again.
    #[tactic(auto, unfolding(kernel_model::specs::NameRows::rename))]
    pub fn rename(
        &mut self,
        now: i128,
        old_base: Base,
        old_path: Result<&[u8], Errno>,
        new_base: Base,
        new_path: Result<&[u8], Errno>,
    ) -> Result<(), CoreError>
        requires time { IsTime now }
        requires old_path { WhereRead IsPlain (text_of old_path) }
        requires new_path { WhereRead IsPlain (text_of new_path) }
        ensures row { Answers (rows.rename self.old now (base_of old_base) (text_of old_path.entry) (base_of new_base) (text_of new_path.entry)) result self.new }
    {
        match old_path {
            Err(error) => Err(CoreError::Refused(error)),
            Ok(old_path) => match new_path {
                Err(error) => Err(CoreError::Refused(error)),
                Ok(new_path) => {
                    let old = PathFrom {
                        base: old_base,
                        path: old_path,
                    };
                    let new = PathFrom {
                        base: new_base,
                        path: new_path,
                    };
                    self.rename_named(now, old, new)
                }
            },
        }
    }

    fn rename_named(&mut self, now: i128, old: PathFrom, new: PathFrom) -> Result<(), CoreError>
        requires time { IsTime now }
        requires old_path { IsPlain old.path.now }
        requires new_path { IsPlain new.path.now }
        ensures row { Answers (rows.rename self.old now (base_of old.entry.base) (Ok old.entry.path.now) (base_of new.entry.base) (Ok new.entry.path.now)) result self.new }
    {
        let keys = self.node_keys.as_slice();
        let directory = self.directory;
        match walk(&self.vfs, &self.table, keys, directory, old, false) {
            Err(error) => Err(error),
            Ok(from) => match from.node {
                None => Err(CoreError::Refused(Errno::ENOENT)),
                Some(moved) => match walk(&self.vfs, &self.table, keys, directory, new, false) {
                    Err(error) => Err(error),
                    Ok(to) => rename_at(&mut self.vfs, moved, &from, &to, new.path, now),
                },
            },
        }
    }
}
