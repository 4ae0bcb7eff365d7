//! Signals by name.
ghost use Rattle.std.specs.Prelude.{◌≡◌, ◌≤◌, ◌↔◌, IsTrue, IsSome, IfSome};
ghost use Rattle.kernel_core.specs.RealTime.{is_real_time};

/// The number of a real-time signal, 32 to 128, which is the same for an o32 program and for the
/// native kernel. (That the last is 128: `_NSIG` of Linux `arch/mips/include/uapi/asm/signal.h`.)
#[derive(Clone, Copy, PartialEq, Eq)]
pub struct RealTime {
    pub number: u8,
    pub ghost in_range: { IsTrue (is_real_time number) },
}

impl RealTime {
    /// The real-time signal of this number; None exactly where it is below 32 or above 128.
    pub fn new(number: u8) -> Option<RealTime>
        ensures number { IfSome result (λ signal. signal.number ≡ number) }
        ensures in_range { IsSome result ↔ ((32 ≤ number) × (number ≤ 128)) }
    {
        if 32 <= number && number <= 128 {
            Some(RealTime { number })
        } else {
            None
        }
    }
}

/// The 128 signals of the kernel, by the names of signal(7) without their prefix `SIG`.
///
/// `Emt` is SIGEMT of MIPS, whose place in the native kernel is that of SIGSTKFLT.
#[derive(Clone, Copy, PartialEq, Eq)]
pub enum Sig {
    Hup,
    Int,
    Quit,
    Ill,
    Trap,
    Abrt,
    Emt,
    Fpe,
    Kill,
    Bus,
    Segv,
    Sys,
    Pipe,
    Alrm,
    Term,
    Usr1,
    Usr2,
    Chld,
    Pwr,
    Winch,
    Urg,
    Io,
    Stop,
    Tstp,
    Cont,
    Ttin,
    Ttou,
    Vtalrm,
    Prof,
    Xcpu,
    Xfsz,
    RealTime(RealTime),
}
