//! A call by its number.
ghost use Rattle.std.specs.Prelude.{◌≡◌, ◌<◌, ◌⊎◌, IfOk};
ghost use Rattle.kernel_model.specs.Stops.{StopsOnlyIfRose};
ghost use Rattle.native_calls.specs.Answered.{IsCall};
ghost use Rattle.native_kernel.specs.Built.{built_call, call_of_groups, descriptor_groups, name_groups, node_groups, poll_groups, signal_groups, status_groups, system_groups};
ghost use Rattle.native_kernel.specs.inside.Quiet.{IsQuiet};
ghost use Rattle.outside.specs.Streams.{NoCountFell, contents};

use crate::arguments::low_word;
use crate::ids;
use crate::kernel::NativeKernel;
use crate::names::only_flag;
use crate::paths::PathAt;
use crate::readiness::OpenFiles;
use crate::replies::failure;
use crate::sleeping::{CLOCK_MONOTONIC, TIMER_ABSTIME};
use crate::transfers::Buffer;
use crate::vectors::BufferVector;
use host_mem::HostMem;
use kernel_core::{Errno, NoMemory, Reply, Stop};
use native_numbers::{
    CHDIR, CLOCK_GETRES, CLOCK_GETTIME, CLOCK_NANOSLEEP, CLOSE, DUP, DUP3, FACCESSAT, FCHDIR,
    FCHMOD, FCHMODAT, FCNTL, FDATASYNC, FSTAT, FSYNC, FTRUNCATE, GETCWD, GETDENTS64, GETITIMER,
    GETPID, GETPPID, GETRANDOM, IOCTL, KILL, LINKAT, LSEEK, MKDIRAT, NANOSLEEP, NEWFSTATAT, OPENAT,
    PIPE2, PPOLL, PREAD64, PRLIMIT64, PSELECT6, PWRITE64, READ, READLINKAT, READV, RENAMEAT,
    RT_SIGACTION, RT_SIGPENDING, RT_SIGPROCMASK, RT_SIGQUEUEINFO, RT_SIGSUSPEND, RT_SIGTIMEDWAIT,
    SETITIMER, SIGALTSTACK, SYMLINKAT, TGKILL, TKILL, TRUNCATE, UMASK, UNAME, UNLINKAT, UTIMENSAT,
    WRITE, WRITEV,
};
use native_polls::{SetPlaces, ppoll, pselect};
use outside::{Devices, Sink, Source};

impl NativeKernel {
    /// Makes a call of the native kernel, by its number, its six arguments and host memory
    /// (syscall(2)).
    ///
    /// `Done` has the result, or below 0 the native number of an error with its sign turned; a number
    /// that no call has is ENOSYS. `Sleep` comes where the call waits. A call that waits holds no wait:
    /// made again, it is tried again. After a `Stop` the kernel is not used again.
    #[tactic(auto, using(crate::proofs::Quietly::over_devices))]
    pub fn call<I: Source, O: Sink, E: Sink>(
        &mut self,
        nr: u64,
        args: [u64; 6],
        mem: &mut HostMem,
        dev: &mut Devices<I, O, E>,
    ) -> Result<Reply, Stop>
        ensures row { IsCall (built_call nr args self.old mem.old) result self.new mem.new
            (contents I.left O.written E.written dev.old) (contents I.left O.written E.written dev.new) }
        ensures cause { StopsOnlyIfRose I.faults O.faults E.faults result dev.old dev.new }
        ensures counts { NoCountFell I.faults O.faults E.faults dev.old dev.new }
        ensures clock { self.new.clock ≡ self.old.clock }
    {
        match nr {
            READ => self.read(low_word(args[0]), Buffer::of(&args), mem, &mut dev.input),
            WRITE => self.write(
                low_word(args[0]),
                Buffer::of(&args),
                mem,
                &mut dev.out,
                &mut dev.err,
            ),
            READV => self.readv(
                low_word(args[0]),
                BufferVector::of(&args),
                mem,
                &mut dev.input,
            ),
            WRITEV => self.writev(
                low_word(args[0]),
                BufferVector::of(&args),
                mem,
                &mut dev.out,
                &mut dev.err,
            ),
            _ => match self.quiet_call(nr, args, mem) {
                Ok(reply) => Ok(reply),
                Err(NoMemory) => Err(Stop::NoMemory),
            },
        }
    }

    /// A call that reaches no stream.
    #[tactic(auto, unfolding(native_calls::specs::Transfers::pread_row))]
    #[inline(always)]
    fn quiet_call(&mut self, nr: u64, args: [u64; 6], mem: &mut HostMem) -> Result<Reply, NoMemory>
        requires { (nr < 63) ⊎ (66 < nr) }
        ensures row { IfOk result (λ reply. IsQuiet (built_call nr args self.old mem.old) reply self.new mem.new) }
        ensures clock { self.new.clock ≡ self.old.clock }
    {
        match nr {
            PREAD64 => Ok(self.pread(
                low_word(args[0]),
                Buffer::of(&args),
                args[3].cast_signed(),
                mem,
            )),
            PWRITE64 => self.pwrite(
                low_word(args[0]),
                Buffer::of(&args),
                args[3].cast_signed(),
                mem,
            ),
            _ => self.descriptor_call(nr, args, mem),
        }
    }

    /// A call on descriptors, on the terminal, or of a later group.
    #[tactic(auto, unfolding(native_calls::specs::Descriptors::close_row, native_calls::specs::Descriptors::dup_row, native_calls::specs::Descriptors::dup3_row, native_calls::specs::Descriptors::fcntl_row))]
    fn descriptor_call(
        &mut self,
        nr: u64,
        args: [u64; 6],
        mem: &mut HostMem,
    ) -> Result<Reply, NoMemory>
        ensures row { IfOk result (λ reply. IsQuiet (call_of_groups descriptor_groups nr args self.old mem.old) reply self.new mem.new) }
        ensures clock { self.new.clock ≡ self.old.clock }
    {
        match nr {
            DUP => Ok(self.dup(low_word(args[0]))),
            DUP3 => Ok(self.dup3(low_word(args[0]), low_word(args[1]), low_word(args[2]))),
            FCNTL => Ok(self.fcntl(low_word(args[0]), low_word(args[1]), args[2])),
            CLOSE => Ok(self.close(low_word(args[0]))),
            PIPE2 => self.pipe2(args[0], low_word(args[1]), mem),
            IOCTL => Ok(self.ioctl(low_word(args[0]), low_word(args[1]), args[2], mem)),
            _ => self.status_call(nr, args, mem),
        }
    }

    /// A call on what is open, on ids, or of a later group.
    #[tactic(auto, unfolding(native_calls::specs::Status::getdents_row, native_calls::specs::Status::lseek_row, native_calls::specs::Status::fstat_row, native_calls::specs::Status::sync_row, native_calls::specs::Ids::getpid_row, native_calls::specs::Ids::getppid_row))]
    fn status_call(&mut self, nr: u64, args: [u64; 6], mem: &mut HostMem) -> Result<Reply, NoMemory>
        ensures row { IfOk result (λ reply. IsQuiet (call_of_groups status_groups nr args self.old mem.old) reply self.new mem.new) }
        ensures clock { self.new.clock ≡ self.old.clock }
    {
        match nr {
            GETDENTS64 => self.getdents(low_word(args[0]), args[1], low_word(args[2]), mem),
            LSEEK => Ok(self.lseek(low_word(args[0]), args[1].cast_signed(), low_word(args[2]))),
            FSTAT => Ok(self.fstat(low_word(args[0]), args[1], mem)),
            FSYNC => Ok(self.sync(low_word(args[0]))),
            FDATASYNC => Ok(self.sync(low_word(args[0]))),
            GETPID => Ok(ids::process_id()),
            GETPPID => Ok(ids::parent_id()),
            _ => self.name_call(nr, args, mem),
        }
    }

    /// A call on names, or of a later group.
    #[tactic(auto, unfolding(native_calls::specs::Names::openat_row, native_calls::specs::Names::mkdirat_row, native_calls::specs::Names::symlinkat_row, native_calls::specs::Names::unlinkat_row, native_calls::specs::Names::linkat_row, native_calls::specs::Names::renameat_row, native_calls::specs::Names::readlinkat_row))]
    fn name_call(&mut self, nr: u64, args: [u64; 6], mem: &mut HostMem) -> Result<Reply, NoMemory>
        ensures row { IfOk result (λ reply. IsQuiet (call_of_groups name_groups nr args self.old mem.old) reply self.new mem.new) }
        ensures clock { self.new.clock ≡ self.old.clock }
    {
        match nr {
            MKDIRAT => self.mkdirat(PathAt::of(&args, 0), low_word(args[2]), mem),
            UNLINKAT => self.unlinkat(PathAt::of(&args, 0), low_word(args[2]), mem),
            SYMLINKAT => self.symlinkat(args[0], PathAt::of(&args, 1), mem),
            LINKAT => self.linkat(
                PathAt::of(&args, 0),
                PathAt::of(&args, 2),
                low_word(args[4]),
                mem,
            ),
            RENAMEAT => self.renameat(PathAt::of(&args, 0), PathAt::of(&args, 2), mem),
            OPENAT => self.openat(
                PathAt::of(&args, 0),
                low_word(args[2]),
                low_word(args[3]),
                mem,
            ),
            READLINKAT => self.readlinkat(
                PathAt::of(&args, 0),
                args[2],
                low_word(args[3]).cast_signed(),
                mem,
            ),
            _ => self.node_call(nr, args, mem),
        }
    }

    /// A call on nodes, or of a later group.
    #[tactic(auto, unfolding(native_calls::specs::Nodes::truncate_row, native_calls::specs::Nodes::ftruncate_row, native_calls::specs::Nodes::faccessat_row, native_calls::specs::Nodes::chdir_row, native_calls::specs::Nodes::fchdir_row, native_calls::specs::Nodes::fchmod_row, native_calls::specs::Nodes::fchmodat_row, native_calls::specs::Nodes::newfstatat_row, native_calls::specs::Nodes::utimensat_row, native_calls::specs::Nodes::umask_row))]
    fn node_call(&mut self, nr: u64, args: [u64; 6], mem: &mut HostMem) -> Result<Reply, NoMemory>
        ensures row { IfOk result (λ reply. IsQuiet (call_of_groups node_groups nr args self.old mem.old) reply self.new mem.new) }
        ensures clock { self.new.clock ≡ self.old.clock }
    {
        match nr {
            GETCWD => self.getcwd(args[0], args[1], mem),
            TRUNCATE => self.truncate(args[0], args[1].cast_signed(), mem),
            FTRUNCATE => Ok(self.ftruncate(low_word(args[0]), args[1].cast_signed())),
            FACCESSAT => self.faccessat(PathAt::of(&args, 0), low_word(args[2]), mem),
            CHDIR => self.chdir(args[0], mem),
            FCHDIR => Ok(self.fchdir(low_word(args[0]))),
            FCHMOD => Ok(self.fchmod(low_word(args[0]), low_word(args[1]))),
            FCHMODAT => self.fchmodat(PathAt::of(&args, 0), low_word(args[2]), mem),
            NEWFSTATAT => self.newfstatat(PathAt::of(&args, 0), args[2], low_word(args[3]), mem),
            UTIMENSAT => self.utimensat(PathAt::of(&args, 0), args[2], low_word(args[3]), mem),
            UMASK => Ok(self.umask(low_word(args[0]))),
            _ => self.system_call(nr, args, mem),
        }
    }

    /// A call on the system, on clocks, or of a later group.
    #[tactic(auto, unfolding(native_calls::specs::System::uname_row, native_calls::specs::System::getrandom_row, native_calls::specs::Clocks::nanosleep_row, native_calls::specs::Clocks::getitimer_row, native_calls::specs::Clocks::setitimer_row, native_calls::specs::Clocks::clock_gettime_row, native_calls::specs::Clocks::clock_getres_row, native_calls::specs::Clocks::clock_nanosleep_row))]
    fn system_call(&mut self, nr: u64, args: [u64; 6], mem: &mut HostMem) -> Result<Reply, NoMemory>
        ensures row { IfOk result (λ reply. IsQuiet (call_of_groups system_groups nr args self.old mem.old) reply self.new mem.new) }
        ensures clock { self.new.clock ≡ self.old.clock }
    {
        match nr {
            UNAME => Ok(self.uname(args[0], mem)),
            PRLIMIT64 => Ok(self.prlimit(
                low_word(args[0]).cast_signed(),
                low_word(args[1]),
                args[2],
                args[3],
                mem,
            )),
            GETRANDOM => Ok(self.getrandom(args[0], args[1], low_word(args[2]), mem)),
            NANOSLEEP => Ok(self.sleep(CLOCK_MONOTONIC, Some(false), args[0], mem)),
            GETITIMER => Ok(self.read_timer(low_word(args[0]), args[1], mem)),
            SETITIMER => Ok(self.set_timer(low_word(args[0]), args[1], args[2], mem)),
            CLOCK_GETTIME => Ok(self.read_clock(low_word(args[0]), args[1], mem)),
            CLOCK_GETRES => Ok(self.clock_resolution(low_word(args[0]), args[1], mem)),
            CLOCK_NANOSLEEP => {
                let absolute = only_flag(TIMER_ABSTIME, low_word(args[1]));
                Ok(self.sleep(low_word(args[0]), absolute, args[2], mem))
            }
            _ => self.signal_call(nr, args, mem),
        }
    }

    /// A call on signals, or one that waits for descriptors.
    #[tactic(auto, unfolding(native_calls::specs::Signals::kill_row, native_calls::specs::Signals::tkill_row, native_calls::specs::Signals::tgkill_row, native_calls::specs::Signals::rt_sigqueueinfo_row, native_calls::specs::Signals::rt_sigaction_row, native_calls::specs::Signals::rt_sigprocmask_row, native_calls::specs::Signals::rt_sigpending_row, native_calls::specs::Signals::rt_sigtimedwait_row, native_calls::specs::Signals::rt_sigsuspend_row, native_calls::specs::Signals::sigaltstack_row))]
    fn signal_call(&mut self, nr: u64, args: [u64; 6], mem: &mut HostMem) -> Result<Reply, NoMemory>
        ensures row { IfOk result (λ reply. IsQuiet (call_of_groups signal_groups nr args self.old mem.old) reply self.new mem.new) }
        ensures clock { self.new.clock ≡ self.old.clock }
    {
        match nr {
            KILL => self.kill(low_word(args[0]).cast_signed(), low_word(args[1])),
            TKILL => self.kill_thread(low_word(args[0]).cast_signed(), low_word(args[1])),
            TGKILL => self.kill_thread_of(
                low_word(args[0]).cast_signed(),
                low_word(args[1]).cast_signed(),
                low_word(args[2]),
            ),
            SIGALTSTACK => Ok(self.set_signal_stack(args[0], args[1], mem)),
            RT_SIGSUSPEND => Ok(self.suspend(args[0], args[1], mem)),
            RT_SIGACTION => {
                Ok(self.set_action(low_word(args[0]), args[1], args[2], args[3], mem))
            }
            RT_SIGPROCMASK => Ok(self.set_mask(low_word(args[0]), args[1], args[2], args[3], mem)),
            RT_SIGPENDING => Ok(self.pending_signals(args[0], args[1], mem)),
            RT_SIGTIMEDWAIT => Ok(self.accept_signal(args[0], args[1], args[2], args[3], mem)),
            RT_SIGQUEUEINFO => self.queue_signal(
                low_word(args[0]).cast_signed(),
                low_word(args[1]),
                args[2],
                mem,
            ),
            _ => Ok(self.poll_call(nr, args, mem)),
        }
    }

    /// A call that waits for descriptors.
    #[tactic(auto, unfolding(native_calls::specs::Polls::ppoll_row, native_calls::specs::Polls::pselect_row))]
    fn poll_call(&self, nr: u64, args: [u64; 6], mem: &mut HostMem) -> Reply
        ensures { IsQuiet (call_of_groups poll_groups nr args self.now mem.old) result self.now mem.new }
    {
        match nr {
            PSELECT6 => {
                let places = SetPlaces {
                    read: args[1],
                    write: args[2],
                    except: args[3],
                };
                let count = low_word(args[0]).cast_signed();
                pselect(
                    &OpenFiles(&self.files),
                    self.clock,
                    count,
                    places,
                    args[4],
                    args[5],
                    mem,
                )
            }
            PPOLL => ppoll(
                &OpenFiles(&self.files),
                self.clock,
                args[0],
                low_word(args[1]),
                args[2],
                args[3],
                args[4],
                mem,
            ),
            _ => failure(Errno::ENOSYS),
        }
    }
}
