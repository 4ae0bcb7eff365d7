//! The calls on the node that a path or a descriptor names: truncate(2), ftruncate(2), faccessat(2), fchmod(2),
//! fchmodat(2), newfstatat(2), utimensat(2); and those that change the working directory and the mode of new nodes:
//! chdir(2), fchdir(2), umask(2). The errors of a path are those of reading it, EFAULT and ENAMETOOLONG, and of its
//! walk, EBADF, ENOENT, ENOTDIR, ENAMETOOLONG and ELOOP.
ghost use Rattle.std.specs.Prelude.{◌≡◌, IfOk, IfSome, length};
ghost use Rattle.kernel_model.specs.Came.{told_as, told_zero};
ghost use Rattle.kernel_model.specs.NodeRows as rows;
ghost use Rattle.kernel_model.specs.Paths.{Working};
ghost use Rattle.kernel_model.specs.Whole.{marked, on_files};
ghost use Rattle.native_calls.specs.HostBytes.{unless_null};
ghost use Rattle.native_calls.specs.Nodes.{follow_of, status_flags, times_at, times_in};
ghost use Rattle.native_calls.specs.Paths.{base_of, path_at};
ghost use Rattle.native_calls.specs.Status.{status_bytes};
ghost use Rattle.native_files.specs.Answers.{IsPlain, WhereRead, path_of, status_flags_told, times_given, times_of, times_read};
ghost use Rattle.native_kernel.specs.inside.Quiet.{Gives, Stores};

use crate::descriptors::has;
use crate::kernel::NativeKernel;
use crate::names::only_flag;
use crate::paths::{PathAt, base_of, path_at};
use crate::replies::{failure, zero};
use crate::status::status_bytes;
use crate::structures::store;
use crate::times::time_in;
use host_mem::HostMem;
use kernel_core::{CoreError, Errno, NoMemory, Reply};
use native_files::{Base, StatusFlags, Times};

/// The flag by which a last link is not followed (Linux `include/uapi/linux/fcntl.h`, as the next ones).
const AT_SYMLINK_NOFOLLOW: u64 = 0x100;

/// The flag of fstatat(2) that has no effect.
const AT_NO_AUTOMOUNT: u64 = 0x800;

/// The flag of fstatat(2) by which an empty path means the descriptor itself.
const AT_EMPTY_PATH: u64 = 0x1000;

/// The address that stands for none (a null pointer).
const NULL: u64 = 0;

/// The size of two times one behind the other.
const TIMES_SIZE: u64 = 32;

/// The place of the second of them.
const SECOND_TIME: usize = 16;

impl NativeKernel {
    /// truncate(2): the errors of the path; EINVAL below 0, EISDIR, EFBIG.
    pub(crate) fn truncate(
        &mut self,
        path: u64,
        size: i64,
        mem: &HostMem,
    ) -> Result<Reply, NoMemory>
        ensures row { IfOk result (λ reply. Gives (told_zero (marked self.old (λ files now. rows.truncate files now Working (path_at mem.now path) size))) reply self.new) }
        ensures clock { self.new.clock ≡ self.old.clock }
    {
        let now = self.real_time();
        match self
            .files
            .truncate(now, Base::Working, path_at(mem, path), size)
        {
            Ok(()) => Ok(Reply::Done(0)),
            Err(CoreError::Refused(error)) => Ok(failure(error)),
            Err(CoreError::Stop(_)) => Err(NoMemory),
        }
    }

    /// ftruncate(2): EBADF, EINVAL, EFBIG.
    pub(crate) fn ftruncate(&mut self, fd: u32, size: i64) -> Reply
        ensures row { Gives (told_zero (marked self.old (λ files now. rows.truncate_open files now fd size))) result self.new }
        ensures clock { self.new.clock ≡ self.old.clock }
    {
        let now = self.real_time();
        zero(self.files.truncate_open(now, fd, size))
    }

    /// faccessat(2): the errors of the path; EINVAL for other bits, EACCES.
    pub(crate) fn faccessat(
        &self,
        path: PathAt,
        mode: u32,
        mem: &HostMem,
    ) -> Result<Reply, NoMemory>
        ensures { IfOk result (λ reply. Gives (told_zero (on_files self.now (rows.access self.now.files (base_of path.directory) (path_at mem.now path.address) mode))) reply self.now) }
    {
        match self
            .files
            .access(base_of(path.directory), path_at(mem, path.address), mode)
        {
            Ok(()) => Ok(Reply::Done(0)),
            Err(CoreError::Refused(error)) => Ok(failure(error)),
            Err(CoreError::Stop(_)) => Err(NoMemory),
        }
    }

    /// fchmod(2): EBADF.
    pub(crate) fn fchmod(&mut self, fd: u32, mode: u32) -> Reply
        ensures row { Gives (told_zero (marked self.old (λ files now. rows.change_open_mode files now fd mode))) result self.new }
        ensures clock { self.new.clock ≡ self.old.clock }
    {
        let now = self.real_time();
        zero(self.files.change_open_mode(now, fd, mode))
    }

    /// fchmodat(2): the errors of the path.
    pub(crate) fn fchmodat(
        &mut self,
        path: PathAt,
        mode: u32,
        mem: &HostMem,
    ) -> Result<Reply, NoMemory>
        ensures row { IfOk result (λ reply. Gives (told_zero (marked self.old (λ files now. rows.change_mode files now (base_of path.directory) (path_at mem.now path.address) mode))) reply self.new) }
        ensures clock { self.new.clock ≡ self.old.clock }
    {
        let now = self.real_time();
        match self.files.change_mode(
            now,
            base_of(path.directory),
            path_at(mem, path.address),
            mode,
        ) {
            Ok(()) => Ok(Reply::Done(0)),
            Err(CoreError::Refused(error)) => Ok(failure(error)),
            Err(CoreError::Stop(_)) => Err(NoMemory),
        }
    }

    /// newfstatat(2): EINVAL for flags that are not listed; the errors of the path; EFAULT where the status can't be
    /// stored.
    pub(crate) fn newfstatat(
        &self,
        path: PathAt,
        address: u64,
        flags: u32,
        mem: &mut HostMem,
    ) -> Result<Reply, NoMemory>
        ensures { IfOk result (λ reply. Stores (told_as status_bytes (on_files self.now (rows.status_at_path self.now.files (base_of path.directory) (path_at mem.old path.address) (status_flags flags)))) address reply self.now mem.old mem.new) }
    {
        match self.files.status_at_path(
            base_of(path.directory),
            path_at(mem, path.address),
            status_flags(flags),
        ) {
            Ok(status) => Ok(store(mem, address, &status_bytes(status))),
            Err(CoreError::Refused(error)) => Ok(failure(error)),
            Err(CoreError::Stop(_)) => Err(NoMemory),
        }
    }

    /// utimensat(2): the errors of the path; EFAULT where the times can't be read; EINVAL for times that are none and for
    /// other flags than AT_SYMLINK_NOFOLLOW; EBADF where a null path leaves no descriptor.
    pub(crate) fn utimensat(
        &mut self,
        path: PathAt,
        times: u64,
        flags: u32,
        mem: &HostMem,
    ) -> Result<Reply, NoMemory>
        ensures row { IfOk result (λ reply. Gives (told_zero (marked self.old (λ files now. rows.set_times files now (base_of path.directory) (unless_null path.address (path_at mem.now path.address)) (unless_null times (times_at mem.now times)) (follow_of flags)))) reply self.new) }
        ensures clock { self.new.clock ≡ self.old.clock }
    {
        let now = self.real_time();
        match self.files.set_times(
            now,
            base_of(path.directory),
            path_unless_null(mem, path.address),
            times_unless_null(mem, times),
            follow_of(flags),
        ) {
            Ok(()) => Ok(Reply::Done(0)),
            Err(CoreError::Refused(error)) => Ok(failure(error)),
            Err(CoreError::Stop(_)) => Err(NoMemory),
        }
    }

    /// chdir(2): the errors of the path.
    pub(crate) fn chdir(&mut self, path: u64, mem: &HostMem) -> Result<Reply, NoMemory>
        ensures row { IfOk result (λ reply. Gives (told_zero (on_files self.old (rows.change_directory self.old.files (path_at mem.now path)))) reply self.new) }
        ensures clock { self.new.clock ≡ self.old.clock }
    {
        match self.files.change_directory(path_at(mem, path)) {
            Ok(()) => Ok(Reply::Done(0)),
            Err(CoreError::Refused(error)) => Ok(failure(error)),
            Err(CoreError::Stop(_)) => Err(NoMemory),
        }
    }

    /// fchdir(2): EBADF, ENOTDIR.
    pub(crate) fn fchdir(&mut self, fd: u32) -> Reply
        ensures row { Gives (told_zero (on_files self.old (rows.change_to_open self.old.files fd))) result self.new }
        ensures clock { self.new.clock ≡ self.old.clock }
    {
        zero(self.files.change_to_open(fd))
    }

    /// umask(2).
    pub(crate) fn umask(&mut self, umask: u32) -> Reply
        ensures row { Gives (on_files self.old (rows.set_umask self.old.files umask)) result self.new }
        ensures clock { self.new.clock ≡ self.old.clock }
    {
        Reply::Done(i64::from(self.files.set_umask(umask)))
    }
}

/// The flags of fstatat(2); None where there are others than are listed.
fn status_flags(flags: u32) -> Option<StatusFlags>
    ensures { status_flags_told result ≡ status_flags flags }
{
    let number = u64::from(flags);
    let nofollow = has(number, AT_SYMLINK_NOFOLLOW);
    let no_automount = has(number, AT_NO_AUTOMOUNT);
    let empty = has(number, AT_EMPTY_PATH);
    let listed = AT_SYMLINK_NOFOLLOW * u64::from(nofollow)
        + (AT_NO_AUTOMOUNT * u64::from(no_automount) + AT_EMPTY_PATH * u64::from(empty));
    if listed == number {
        Some(StatusFlags {
            follow: !nofollow,
            empty,
        })
    } else {
        None
    }
}

/// Whether a last link is followed; None where there are other flags than AT_SYMLINK_NOFOLLOW.
fn follow_of(flags: u32) -> Option<bool>
    ensures { result ≡ follow_of flags }
{
    match only_flag(AT_SYMLINK_NOFOLLOW, flags) {
        None => None,
        Some(nofollow) => Some(!nofollow),
    }
}

/// The path at an address, or None where that is null.
fn path_unless_null(mem: &HostMem, address: u64) -> Option<Result<&[u8], Errno>>
    ensures path { path_of result ≡ unless_null address (path_at mem.now address) }
    ensures plain { IfSome (path_of result) (WhereRead IsPlain) }
{
    if address == NULL {
        None
    } else {
        Some(path_at(mem, address))
    }
}

/// The times at an address, or None where that is null.
fn times_unless_null(mem: &HostMem, address: u64) -> Option<Result<Times, Errno>>
    ensures { times_given result ≡ unless_null address (times_at mem.now address) }
{
    if address == NULL {
        None
    } else {
        Some(times_at(mem, address))
    }
}

/// The times at an address, or EFAULT where they are not all there.
fn times_at(mem: &HostMem, address: u64) -> Result<Times, Errno>
    ensures { times_read result ≡ times_at mem.now address }
{
    match mem.read(address, TIMES_SIZE) {
        None => Err(Errno::EFAULT),
        Some(bytes) => Ok(times_in(bytes)),
    }
}

/// The time of access and then that of modification.
fn times_in(bytes: &[u8]) -> Times
    requires { length bytes.now ≡ 32 }
    ensures { times_of result ≡ times_in bytes.now }
{
    Times {
        access: time_in(bytes),
        modified: time_in(&bytes[SECOND_TIME..]),
    }
}
