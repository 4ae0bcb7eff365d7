//! The calls on names: openat(2), mkdirat(2), unlinkat(2), symlinkat(2), linkat(2), renameat(2), readlinkat(2). The
//! errors of a path are those of reading it, EFAULT and ENAMETOOLONG, and of its walk, EBADF, ENOENT, ENOTDIR,
//! ENAMETOOLONG and ELOOP.
ghost use Rattle.std.specs.Prelude.{◌≡◌, ◌<◌, IfOk, None};
ghost use Rattle.kernel_model.specs.Came.{told_zero};
ghost use Rattle.kernel_model.specs.NameRows as rows;
ghost use Rattle.kernel_model.specs.Opening.{open_file};
ghost use Rattle.kernel_model.specs.Whole.{marked, on_files};
ghost use Rattle.native_calls.specs.Flags.{only_flag};
ghost use Rattle.native_calls.specs.Names.{follow_flag, removedir_flag};
ghost use Rattle.native_calls.specs.Paths.{base_of, path_at};
ghost use Rattle.native_kernel.specs.inside.Counted.{Counts};
ghost use Rattle.native_kernel.specs.inside.Quiet.{Gives};
ghost use Rattle.number_tables.specs.OpenNumbers.{open_of_native};

use crate::descriptors::has;
use crate::kernel::NativeKernel;
use crate::paths::{PathAt, base_of, path_at};
use crate::replies::failure;
use crate::structures::store_counted;
use host_mem::HostMem;
use kernel_core::{CoreError, NoMemory, OpenFlags, Reply};
use number_tables::NativeNumber;

/// The flag of unlinkat(2) by which a directory is removed (Linux `include/uapi/linux/fcntl.h`).
const AT_REMOVEDIR: u64 = 0x200;

/// The flag of linkat(2) by which a last link is followed (Linux `include/uapi/linux/fcntl.h`).
const AT_SYMLINK_FOLLOW: u64 = 0x400;

impl NativeKernel {
    /// openat(2): the errors of the path; EINVAL for flags that are not listed, EMFILE, EEXIST, EISDIR, ENOTDIR, ELOOP, ENOSPC.
    pub(crate) fn openat(
        &mut self,
        path: PathAt,
        flags: u32,
        mode: u32,
        mem: &HostMem,
    ) -> Result<Reply, NoMemory>
        ensures row { IfOk result (λ reply. Gives (marked self.old (λ files now. open_file files None now (base_of path.directory) (path_at mem.now path.address) (open_of_native flags) mode)) reply self.new) }
        ensures clock { self.new.clock ≡ self.old.clock }
    {
        let now = self.real_time();
        match self.files.open_file(
            now,
            base_of(path.directory),
            path_at(mem, path.address),
            OpenFlags::of_native(u64::from(flags)),
            mode,
        ) {
            Ok(fd) => Ok(Reply::Done(i64::from(fd))),
            Err(CoreError::Refused(error)) => Ok(failure(error)),
            Err(CoreError::Stop(_)) => Err(NoMemory),
        }
    }

    /// mkdirat(2): the errors of the path; EEXIST, ENOSPC.
    pub(crate) fn mkdirat(
        &mut self,
        path: PathAt,
        mode: u32,
        mem: &HostMem,
    ) -> Result<Reply, NoMemory>
        ensures row { IfOk result (λ reply. Gives (told_zero (marked self.old (λ files now. rows.make_directory files now (base_of path.directory) (path_at mem.now path.address) mode))) reply self.new) }
        ensures clock { self.new.clock ≡ self.old.clock }
    {
        let now = self.real_time();
        match self.files.make_directory(
            now,
            base_of(path.directory),
            path_at(mem, path.address),
            mode,
        ) {
            Ok(()) => Ok(Reply::Done(0)),
            Err(CoreError::Refused(error)) => Ok(failure(error)),
            Err(CoreError::Stop(_)) => Err(NoMemory),
        }
    }

    /// unlinkat(2): the errors of the path; EINVAL for other flags than AT_REMOVEDIR, EISDIR, EBUSY, EINVAL, ENOTEMPTY.
    pub(crate) fn unlinkat(
        &mut self,
        path: PathAt,
        flags: u32,
        mem: &HostMem,
    ) -> Result<Reply, NoMemory>
        ensures row { IfOk result (λ reply. Gives (told_zero (marked self.old (λ files now. rows.remove_name files now (base_of path.directory) (path_at mem.now path.address) (only_flag removedir_flag flags)))) reply self.new) }
        ensures clock { self.new.clock ≡ self.old.clock }
    {
        let now = self.real_time();
        match self.files.remove_name(
            now,
            base_of(path.directory),
            path_at(mem, path.address),
            only_flag(AT_REMOVEDIR, flags),
        ) {
            Ok(()) => Ok(Reply::Done(0)),
            Err(CoreError::Refused(error)) => Ok(failure(error)),
            Err(CoreError::Stop(_)) => Err(NoMemory),
        }
    }

    /// symlinkat(2): the errors of the target and of the path; EEXIST, ENOSPC.
    pub(crate) fn symlinkat(
        &mut self,
        target: u64,
        path: PathAt,
        mem: &HostMem,
    ) -> Result<Reply, NoMemory>
        ensures row { IfOk result (λ reply. Gives (told_zero (marked self.old (λ files now. rows.make_link files now (path_at mem.now target) (base_of path.directory) (path_at mem.now path.address)))) reply self.new) }
        ensures clock { self.new.clock ≡ self.old.clock }
    {
        let now = self.real_time();
        match self.files.make_link(
            now,
            path_at(mem, target),
            base_of(path.directory),
            path_at(mem, path.address),
        ) {
            Ok(()) => Ok(Reply::Done(0)),
            Err(CoreError::Refused(error)) => Ok(failure(error)),
            Err(CoreError::Stop(_)) => Err(NoMemory),
        }
    }

    /// linkat(2): the errors of both paths; EINVAL for other flags than AT_SYMLINK_FOLLOW, EPERM, EEXIST, ENOSPC.
    pub(crate) fn linkat(
        &mut self,
        old: PathAt,
        new: PathAt,
        flags: u32,
        mem: &HostMem,
    ) -> Result<Reply, NoMemory>
        ensures row { IfOk result (λ reply. Gives (told_zero (marked self.old (λ files now. rows.link files now (base_of old.directory) (path_at mem.now old.address) (base_of new.directory) (path_at mem.now new.address) (only_flag follow_flag flags)))) reply self.new) }
        ensures clock { self.new.clock ≡ self.old.clock }
    {
        let now = self.real_time();
        match self.files.link(
            now,
            base_of(old.directory),
            path_at(mem, old.address),
            base_of(new.directory),
            path_at(mem, new.address),
            only_flag(AT_SYMLINK_FOLLOW, flags),
        ) {
            Ok(()) => Ok(Reply::Done(0)),
            Err(CoreError::Refused(error)) => Ok(failure(error)),
            Err(CoreError::Stop(_)) => Err(NoMemory),
        }
    }

    /// renameat(2): the errors of both paths; EBUSY, EINVAL, EISDIR, ENOTEMPTY, ENOSPC.
    pub(crate) fn renameat(
        &mut self,
        old: PathAt,
        new: PathAt,
        mem: &HostMem,
    ) -> Result<Reply, NoMemory>
        ensures row { IfOk result (λ reply. Gives (told_zero (marked self.old (λ files now. rows.rename files now (base_of old.directory) (path_at mem.now old.address) (base_of new.directory) (path_at mem.now new.address)))) reply self.new) }
        ensures clock { self.new.clock ≡ self.old.clock }
    {
        let now = self.real_time();
        match self.files.rename(
            now,
            base_of(old.directory),
            path_at(mem, old.address),
            base_of(new.directory),
            path_at(mem, new.address),
        ) {
            Ok(()) => Ok(Reply::Done(0)),
            Err(CoreError::Refused(error)) => Ok(failure(error)),
            Err(CoreError::Stop(_)) => Err(NoMemory),
        }
    }

    /// readlinkat(2): the errors of the path; EINVAL for a size below 1 and for what is no link; EFAULT where the target
    /// can't be stored.
    pub(crate) fn readlinkat(
        &self,
        path: PathAt,
        buffer: u64,
        size: i32,
        mem: &mut HostMem,
    ) -> Result<Reply, NoMemory>
        ensures { IfOk result (λ reply. Counts (on_files self.now (rows.read_link self.now.files (base_of path.directory) (path_at mem.old path.address) size)) buffer reply self.now mem.old mem.new) }
    {
        match self.files.read_link(
            base_of(path.directory),
            path_at(mem, path.address),
            i64::from(size),
        ) {
            Ok(text) => Ok(store_counted(mem, buffer, text)),
            Err(CoreError::Refused(error)) => Ok(failure(error)),
            Err(CoreError::Stop(_)) => Err(NoMemory),
        }
    }
}

/// Whether the flag is set; None where there are others.
pub(crate) fn only_flag(flag: u64, flags: u32) -> Option<bool>
    requires { 0 < flag }
    ensures { result ≡ only_flag flag flags }
{
    let set = has(u64::from(flags), flag);
    if flag * u64::from(set) == u64::from(flags) {
        Some(set)
    } else {
        None
    }
}
