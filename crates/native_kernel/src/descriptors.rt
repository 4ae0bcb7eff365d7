//! The calls on descriptors: dup(2), dup3(2), fcntl(2), close(2).
ghost use Rattle.std.specs.Prelude.{◌≡◌, ◌*◌, ◌<◌, Some, None, false};
ghost use Rattle.kernel_core.specs.Bits.{has, one_if};
ghost use Rattle.kernel_core.specs.declared.error.Errno.TheVariants.{EBADF};
ghost use Rattle.kernel_model.specs.Came.{refused, told_zero, with_some};
ghost use Rattle.kernel_model.specs.DescriptorRows.{close, duplicate, duplicate_onto_with};
ghost use Rattle.kernel_model.specs.Descriptions.{opened};
ghost use Rattle.kernel_model.specs.Whole.{on_files};
ghost use Rattle.native_calls.specs.Descriptors as rows;
ghost use Rattle.native_calls.specs.Descriptors.{cloexec_of, commanded, commands};
ghost use Rattle.native_kernel.specs.inside.Quiet.{Gives};
ghost use Rattle.number_tables.specs.Numbered.{numbered};

use crate::arguments::low_word;
use crate::kernel::NativeKernel;
use crate::replies::{failure, number, zero};
use kernel_core::{Errno, Reply};
use number_tables::NativeNumber;

/// The commands of fcntl(2).
const F_DUPFD: u32 = 0;

const F_GETFD: u32 = 1;

const F_SETFD: u32 = 2;

const F_GETFL: u32 = 3;

const F_SETFL: u32 = 4;

const F_DUPFD_CLOEXEC: u32 = 1030;

/// The flag of F_GETFD and F_SETFD.
const FD_CLOEXEC: u64 = 1;

/// Flags of open(2) that other calls take too, by their generic numbers.
const O_APPEND: u64 = 0x400;

pub(crate) const O_NONBLOCK: u64 = 0x800;

pub(crate) const O_CLOEXEC: u64 = 0x80000;

impl NativeKernel {
    /// close(2): EBADF.
    pub(crate) fn close(&mut self, fd: u32) -> Reply
        ensures row { Gives (told_zero (on_files self.old (close self.old.files fd))) result self.new }
        ensures clock { self.new.clock ≡ self.old.clock }
    {
        zero(self.files.close(fd))
    }

    /// dup(2): EBADF, EMFILE.
    pub(crate) fn dup(&mut self, fd: u32) -> Reply
        ensures row { Gives (on_files self.old (duplicate self.old.files fd (Some 0) false)) result self.new }
        ensures clock { self.new.clock ≡ self.old.clock }
    {
        number(self.files.duplicate(fd, Some(0), false))
    }

    /// dup3(2): EBADF, EINVAL onto itself, EBADF past 1023, EINVAL for other flags than O_CLOEXEC.
    pub(crate) fn dup3(&mut self, fd: u32, onto: u32, flags: u32) -> Reply
        ensures row { Gives (on_files self.old (duplicate_onto_with self.old.files fd onto (cloexec_of flags))) result self.new }
        ensures clock { self.new.clock ≡ self.old.clock }
    {
        number(self.files.duplicate_onto_with(fd, onto, cloexec_of(flags)))
    }

    /// fcntl(2), by its command.
    #[tactic(auto, unfolding(kernel_model::specs::DescriptorRows::unlisted_command))]
    pub(crate) fn fcntl(&mut self, fd: u32, command: u32, argument: u64) -> Reply
        ensures row { Gives (commanded self.old fd argument (numbered (λ (c : rows.Command). c.number) commands command)) result self.new }
        ensures clock { self.new.clock ≡ self.old.clock }
    {
        match command {
            F_DUPFD => self.duplicate_from(fd, argument, false),
            F_GETFD => self.descriptor_flags(fd),
            F_SETFD => self.set_descriptor_flags(fd, argument),
            F_GETFL => self.status_flags(fd),
            F_SETFL => self.set_status_flags(fd, argument),
            F_DUPFD_CLOEXEC => self.duplicate_from(fd, argument, true),
            _ => self.unlisted(fd, Errno::EINVAL),
        }
    }

    /// F_DUPFD and F_DUPFD_CLOEXEC.
    fn duplicate_from(&mut self, fd: u32, least: u64, cloexec: bool) -> Reply
        ensures row { Gives (rows.duplicate_from cloexec self.old fd least) result self.new }
        ensures clock { self.new.clock ≡ self.old.clock }
    {
        number(self.files.duplicate(fd, Some(low_word(least)), cloexec))
    }

    /// F_GETFD.
    fn descriptor_flags(&self, fd: u32) -> Reply
        ensures { Gives (rows.get_descriptor_flags self.now fd 0) result self.now }
    {
        match self.files.close_on_exec(fd) {
            Err(error) => failure(error),
            Ok(cloexec) => Reply::Done(i64::from(cloexec)),
        }
    }

    /// F_SETFD.
    fn set_descriptor_flags(&mut self, fd: u32, flags: u64) -> Reply
        ensures row { Gives (rows.set_descriptor_flags self.old fd flags) result self.new }
        ensures clock { self.new.clock ≡ self.old.clock }
    {
        zero(self.files.set_close_on_exec(fd, has(flags, FD_CLOEXEC)))
    }

    /// F_GETFL.
    #[tactic(auto, using(crate::proofs::OpenNumbers::flags_are_small))]
    fn status_flags(&self, fd: u32) -> Reply
        ensures { Gives (rows.get_status_flags self.now fd 0) result self.now }
    {
        match self.files.status_flags(fd) {
            Err(error) => failure(error),
            Ok(flags) => Reply::Done(flags.to_native() as i64),
        }
    }

    /// F_SETFL.
    fn set_status_flags(&mut self, fd: u32, flags: u64) -> Reply
        ensures row { Gives (rows.set_status_flags_to self.old fd flags) result self.new }
        ensures clock { self.new.clock ≡ self.old.clock }
    {
        let append = has(flags, O_APPEND);
        let nonblock = has(flags, O_NONBLOCK);
        zero(self.files.set_status_flags(fd, append, nonblock))
    }

    /// A command or a request that is not listed: EBADF, and this error then.
    #[tactic(auto, unfolding(kernel_model::specs::DescriptorRows::close_on_exec))]
    pub(crate) fn unlisted(&self, fd: u32, error: Errno) -> Reply
        ensures { Gives (told_zero (on_files self.now
            (with_some self.now.files EBADF (opened self.now.files fd) (λ _. refused self.now.files error)))) result self.now }
    {
        match self.files.close_on_exec(fd) {
            Err(closed) => failure(closed),
            Ok(_) => failure(error),
        }
    }
}

/// Whether the number has this bit, a power of two.
pub(crate) fn has(number: u64, bit: u64) -> bool
    requires { 0 < bit }
    ensures { result ≡ has number bit }
{
    number / bit % 2 == 1
}

/// Close-on-exec by flags of dup3(2); None where there are others than O_CLOEXEC.
fn cloexec_of(flags: u32) -> Option<bool>
    ensures { result ≡ cloexec_of flags }
{
    let cloexec = has(u64::from(flags), O_CLOEXEC);
    if O_CLOEXEC * u64::from(cloexec) == u64::from(flags) {
        Some(cloexec)
    } else {
        None
    }
}
