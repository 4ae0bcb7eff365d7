//! A call of the program by its number.
ghost use Rattle.std.specs.Prelude.{◌≡◌, IfSome};
ghost use Rattle.o32_calls.specs.Numbers.{call_of_number, o32_number};

use crate::bridged_call::BridgedCall;
use crate::descriptors::IoCall;
use crate::files::{EntriesCall, OpenCall, StatusCall};
use crate::mappings::MapCall;
use crate::names::{FileCall, NameCall, NodeCall, PlaceCall, SizeCall, TextCall};
use crate::process::{PlainCall, SystemCall};
use crate::signals::SignalCall;
use crate::times::{PollCall, SelectCall, TimeCall, TimerCall};

/// A call of an o32 program.
#[derive(Clone, Copy)]
pub enum O32Call {
    /// One that is answered at once: the kernel is asked for nothing, and memory stays.
    Plain(PlainCall),
    /// One that is made by a bridge.
    Bridged(BridgedCall),
}

impl O32Call {
    /// The call of a number in the o32 table (Linux `arch/mips/include/uapi/asm/unistd.h`), if there is one.
    #[inline(always)]
    pub fn of(number: u32) -> Option<O32Call>
        ensures named { result ≡ call_of_number number }
        ensures number { IfSome result (λ call. number ≡ o32_number call) }
    {
        match number {
            4001 => Some(O32Call::Plain(PlainCall::Exit)),
            4003 => Some(O32Call::Bridged(BridgedCall::Io(IoCall::Read))),
            4004 => Some(O32Call::Bridged(BridgedCall::Io(IoCall::Write))),
            4005 => Some(O32Call::Bridged(BridgedCall::Open(OpenCall::Open))),
            4006 => Some(O32Call::Bridged(BridgedCall::Io(IoCall::Close))),
            4008 => Some(O32Call::Bridged(BridgedCall::Open(OpenCall::Creat))),
            4009 => Some(O32Call::Bridged(BridgedCall::File(FileCall::Name(NameCall::Link)))),
            4010 => Some(O32Call::Bridged(BridgedCall::File(FileCall::Name(NameCall::Unlink)))),
            4012 => Some(O32Call::Bridged(BridgedCall::File(FileCall::Node(NodeCall::Chdir)))),
            4013 => Some(O32Call::Bridged(BridgedCall::Time(TimeCall::Time))),
            4015 => Some(O32Call::Bridged(BridgedCall::File(FileCall::Node(NodeCall::Chmod)))),
            4019 => Some(O32Call::Bridged(BridgedCall::File(FileCall::Place(PlaceCall::Lseek)))),
            4020 => Some(O32Call::Plain(PlainCall::Getpid)),
            4024 => Some(O32Call::Plain(PlainCall::Getuid)),
            4027 => Some(O32Call::Bridged(BridgedCall::Timer(TimerCall::Alarm))),
            4029 => Some(O32Call::Bridged(BridgedCall::Signal(SignalCall::Pause))),
            4033 => Some(O32Call::Bridged(BridgedCall::File(FileCall::Node(NodeCall::Access)))),
            4037 => Some(O32Call::Bridged(BridgedCall::Signal(SignalCall::Kill))),
            4038 => Some(O32Call::Bridged(BridgedCall::File(FileCall::Name(NameCall::Rename)))),
            4039 => Some(O32Call::Bridged(BridgedCall::File(FileCall::Name(NameCall::Mkdir)))),
            4040 => Some(O32Call::Bridged(BridgedCall::File(FileCall::Name(NameCall::Rmdir)))),
            4041 => Some(O32Call::Bridged(BridgedCall::Io(IoCall::Dup))),
            4042 => Some(O32Call::Bridged(BridgedCall::Io(IoCall::Pipe))),
            4045 => Some(O32Call::Bridged(BridgedCall::Map(MapCall::Brk))),
            4047 => Some(O32Call::Plain(PlainCall::Getgid)),
            4049 => Some(O32Call::Plain(PlainCall::Geteuid)),
            4050 => Some(O32Call::Plain(PlainCall::Getegid)),
            4054 => Some(O32Call::Bridged(BridgedCall::Io(IoCall::Ioctl))),
            4055 => Some(O32Call::Bridged(BridgedCall::Io(IoCall::Fcntl))),
            4060 => Some(O32Call::Bridged(BridgedCall::File(FileCall::Node(NodeCall::Umask)))),
            4063 => Some(O32Call::Bridged(BridgedCall::Io(IoCall::Dup2))),
            4064 => Some(O32Call::Plain(PlainCall::Getppid)),
            4076 => Some(O32Call::Bridged(BridgedCall::System(SystemCall::Getrlimit))),
            4078 => Some(O32Call::Bridged(BridgedCall::Time(TimeCall::Gettimeofday))),
            4083 => Some(O32Call::Bridged(BridgedCall::File(FileCall::Name(NameCall::Symlink)))),
            4085 => Some(O32Call::Bridged(BridgedCall::File(FileCall::Text(TextCall::Readlink)))),
            4090 => Some(O32Call::Bridged(BridgedCall::Map(MapCall::Mmap))),
            4091 => Some(O32Call::Bridged(BridgedCall::Map(MapCall::Munmap))),
            4092 => Some(O32Call::Bridged(BridgedCall::File(FileCall::Size(SizeCall::Truncate)))),
            4093 => Some(O32Call::Bridged(BridgedCall::File(FileCall::Size(SizeCall::Ftruncate)))),
            4094 => Some(O32Call::Bridged(BridgedCall::File(FileCall::Node(NodeCall::Fchmod)))),
            4104 => Some(O32Call::Bridged(BridgedCall::Timer(TimerCall::Setitimer))),
            4105 => Some(O32Call::Bridged(BridgedCall::Timer(TimerCall::Getitimer))),
            4106 => Some(O32Call::Bridged(BridgedCall::Status(StatusCall::Stat))),
            4107 => Some(O32Call::Bridged(BridgedCall::Status(StatusCall::Lstat))),
            4108 => Some(O32Call::Bridged(BridgedCall::Status(StatusCall::Fstat))),
            4118 => Some(O32Call::Bridged(BridgedCall::File(FileCall::Node(NodeCall::Fsync)))),
            4119 => Some(O32Call::Bridged(BridgedCall::Signal(SignalCall::Sigreturn))),
            4122 => Some(O32Call::Bridged(BridgedCall::System(SystemCall::Uname))),
            4125 => Some(O32Call::Bridged(BridgedCall::Map(MapCall::Mprotect))),
            4133 => Some(O32Call::Bridged(BridgedCall::File(FileCall::Node(NodeCall::Fchdir)))),
            4140 => Some(O32Call::Bridged(BridgedCall::File(FileCall::Place(PlaceCall::Llseek)))),
            4141 => Some(O32Call::Bridged(BridgedCall::Entries(EntriesCall::Getdents))),
            4142 => Some(O32Call::Bridged(BridgedCall::Select(SelectCall::Newselect))),
            4144 => Some(O32Call::Bridged(BridgedCall::Map(MapCall::Msync))),
            4145 => Some(O32Call::Bridged(BridgedCall::Io(IoCall::Readv))),
            4146 => Some(O32Call::Bridged(BridgedCall::Io(IoCall::Writev))),
            4147 => Some(O32Call::Plain(PlainCall::Cacheflush)),
            4152 => Some(O32Call::Bridged(BridgedCall::File(FileCall::Node(NodeCall::Fdatasync)))),
            4162 => Some(O32Call::Plain(PlainCall::SchedYield)),
            4166 => Some(O32Call::Bridged(BridgedCall::Time(TimeCall::Nanosleep))),
            4167 => Some(O32Call::Bridged(BridgedCall::Map(MapCall::Mremap))),
            4188 => Some(O32Call::Bridged(BridgedCall::Poll(PollCall::Poll))),
            4193 => Some(O32Call::Bridged(BridgedCall::Signal(SignalCall::RtSigreturn))),
            4194 => Some(O32Call::Bridged(BridgedCall::Signal(SignalCall::RtSigaction))),
            4195 => Some(O32Call::Bridged(BridgedCall::Signal(SignalCall::RtSigprocmask))),
            4196 => Some(O32Call::Bridged(BridgedCall::Signal(SignalCall::RtSigpending))),
            4197 => Some(O32Call::Bridged(BridgedCall::RtSigtimedwait)),
            4198 => Some(O32Call::Bridged(BridgedCall::Signal(SignalCall::RtSigqueueinfo))),
            4199 => Some(O32Call::Bridged(BridgedCall::Signal(SignalCall::RtSigsuspend))),
            4200 => Some(O32Call::Bridged(BridgedCall::Io(IoCall::Pread64))),
            4201 => Some(O32Call::Bridged(BridgedCall::Io(IoCall::Pwrite64))),
            4203 => Some(O32Call::Bridged(BridgedCall::File(FileCall::Text(TextCall::Getcwd)))),
            4206 => Some(O32Call::Bridged(BridgedCall::Signal(SignalCall::Sigaltstack))),
            4210 => Some(O32Call::Bridged(BridgedCall::Map(MapCall::Mmap2))),
            4211 => Some(O32Call::Bridged(BridgedCall::File(FileCall::Size(SizeCall::Truncate64)))),
            4212 => Some(O32Call::Bridged(BridgedCall::File(FileCall::Size(
                SizeCall::Ftruncate64,
            )))),
            4213 => Some(O32Call::Bridged(BridgedCall::Status(StatusCall::Stat64))),
            4214 => Some(O32Call::Bridged(BridgedCall::Status(StatusCall::Lstat64))),
            4215 => Some(O32Call::Bridged(BridgedCall::Status(StatusCall::Fstat64))),
            4218 => Some(O32Call::Bridged(BridgedCall::Map(MapCall::Madvise))),
            4219 => Some(O32Call::Bridged(BridgedCall::Entries(EntriesCall::Getdents64))),
            4220 => Some(O32Call::Bridged(BridgedCall::Io(IoCall::Fcntl64))),
            4222 => Some(O32Call::Plain(PlainCall::Gettid)),
            4236 => Some(O32Call::Bridged(BridgedCall::Signal(SignalCall::Tkill))),
            4246 => Some(O32Call::Plain(PlainCall::ExitGroup)),
            4252 => Some(O32Call::Plain(PlainCall::SetTidAddress)),
            4253 => Some(O32Call::Bridged(BridgedCall::Signal(SignalCall::RestartSyscall))),
            4263 => Some(O32Call::Bridged(BridgedCall::Time(TimeCall::ClockGettime))),
            4264 => Some(O32Call::Bridged(BridgedCall::Time(TimeCall::ClockGetres))),
            4265 => Some(O32Call::Bridged(BridgedCall::Time(TimeCall::ClockNanosleep))),
            4266 => Some(O32Call::Bridged(BridgedCall::Signal(SignalCall::Tgkill))),
            4283 => Some(O32Call::Plain(PlainCall::SetThreadArea)),
            4288 => Some(O32Call::Bridged(BridgedCall::Open(OpenCall::Openat))),
            4289 => Some(O32Call::Bridged(BridgedCall::File(FileCall::Name(NameCall::Mkdirat)))),
            4293 => Some(O32Call::Bridged(BridgedCall::Status(StatusCall::Fstatat64))),
            4294 => Some(O32Call::Bridged(BridgedCall::File(FileCall::Name(NameCall::Unlinkat)))),
            4295 => Some(O32Call::Bridged(BridgedCall::File(FileCall::Name(NameCall::Renameat)))),
            4296 => Some(O32Call::Bridged(BridgedCall::File(FileCall::Name(NameCall::Linkat)))),
            4297 => Some(O32Call::Bridged(BridgedCall::File(FileCall::Name(NameCall::Symlinkat)))),
            4298 => Some(O32Call::Bridged(BridgedCall::File(FileCall::Text(TextCall::Readlinkat)))),
            4299 => Some(O32Call::Bridged(BridgedCall::File(FileCall::Node(NodeCall::Fchmodat)))),
            4300 => Some(O32Call::Bridged(BridgedCall::File(FileCall::Node(NodeCall::Faccessat)))),
            4301 => Some(O32Call::Bridged(BridgedCall::Select(SelectCall::Pselect6))),
            4302 => Some(O32Call::Bridged(BridgedCall::Poll(PollCall::Ppoll))),
            4309 => Some(O32Call::Plain(PlainCall::SetRobustList)),
            4316 => Some(O32Call::Bridged(BridgedCall::File(FileCall::Node(NodeCall::Utimensat)))),
            4327 => Some(O32Call::Bridged(BridgedCall::Io(IoCall::Dup3))),
            4328 => Some(O32Call::Bridged(BridgedCall::Io(IoCall::Pipe2))),
            4338 => Some(O32Call::Bridged(BridgedCall::System(SystemCall::Prlimit64))),
            4353 => Some(O32Call::Bridged(BridgedCall::System(SystemCall::Getrandom))),
            _ => None,
        }
    }
}
