//! The numbers of calls that can wait (Linux `arch/mips/include/uapi/asm/unistd.h`, the o32 table): a wait is kept with its
//! call's number.

/// read(2)
pub const READ: u32 = 4003;

/// write(2)
pub const WRITE: u32 = 4004;

/// pause(2)
pub const PAUSE: u32 = 4029;

/// _newselect, which is select(2)
pub const NEWSELECT: u32 = 4142;

/// readv(2)
pub const READV: u32 = 4145;

/// writev(2)
pub const WRITEV: u32 = 4146;

/// nanosleep(2)
pub const NANOSLEEP: u32 = 4166;

/// poll(2)
pub const POLL: u32 = 4188;

/// rt_sigtimedwait, as in sigtimedwait(2)
pub const RT_SIGTIMEDWAIT: u32 = 4197;

/// rt_sigsuspend, as in sigsuspend(2)
pub const RT_SIGSUSPEND: u32 = 4199;

/// restart_syscall(2), by which a wait goes on
pub const RESTART_SYSCALL: u32 = 4253;

/// clock_nanosleep(2)
pub const CLOCK_NANOSLEEP: u32 = 4265;

/// ppoll(2)
pub const PPOLL: u32 = 4302;
