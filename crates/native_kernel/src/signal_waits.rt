//! The calls that wait for signals: sigtimedwait(2), sigsuspend(2).
ghost use Rattle.std.specs.Prelude.{◌≡◌, ◌&&◌, Some};
ghost use Rattle.host_mem.specs.Memory.{written};
ghost use Rattle.kernel_core.specs.declared.error.Errno.TheVariants.{EAGAIN};
ghost use Rattle.kernel_model.specs.Came.{refused, told_zero};
ghost use Rattle.kernel_model.specs.Clock.{deadline, waits_until};
ghost use Rattle.kernel_model.specs.SignalRows.{accept, accept_signal, first_pending, pends, suspend};
ghost use Rattle.kernel_model.specs.SignalSets as spec;
ghost use Rattle.native_calls.specs.HostBytes.{unless_null};
ghost use Rattle.native_calls.specs.SignalBytes.{info_bytes, set_at};
ghost use Rattle.native_calls.specs.Signals.{native_order};
ghost use Rattle.native_calls.specs.Step.{told_unless_null};
ghost use Rattle.native_calls.specs.Times.{time_at};
ghost use Rattle.native_kernel.specs.inside.Quiet.{Gives};
ghost use Rattle.native_kernel.specs.inside.Signals.{Accepts, Takes, accepted_of, kept};
ghost use Rattle.number_tables.specs.Signals.{native_signal, signal_of_native};

use crate::kernel::NativeKernel;
use crate::masks::has;
use crate::replies::failure;
use crate::signal_bytes::{SET_SIZE, info_bytes, set_at};
use crate::sleeping::{deadline, length_or_none, time_unless_null};
use host_mem::HostMem;
use kernel_core::{Errno, Info, Reply, Sig, Wake};
use kernel_model::TimeSpec;
use native_signal::Signals;
use number_tables::NativeNumber;

/// The number past that of the last signal.
const SIGNAL_END: u64 = 129;

/// What a call that waits for a signal comes to.
#[derive(Clone, Copy)]
pub(crate) enum Accepted {
    Signal(Info),
    Waits(Wake),
}

impl NativeKernel {
    /// rt_sigtimedwait(2): EINVAL for another size of a set than 16, EFAULT, EINVAL for a time that is none, and
    /// EAGAIN where none of the set pends when the time is over. The reply is the signal's number; what is known
    /// of it is stored, where the address is not null, and the signal is gone also where that is EFAULT.
    pub(crate) fn accept_signal(
        &mut self,
        set: u64,
        info: u64,
        time: u64,
        size: u64,
        mem: &mut HostMem,
    ) -> Reply
        ensures row { Accepts (accept self.old native_order (λ set. set) (set_at mem.old set) (unless_null time (time_at mem.old time)) size)
            info result self.new mem.old mem.new }
        ensures clock { self.new.clock ≡ self.old.clock }
    {
        match self.accept(set_at(mem, set), time_unless_null(mem, time), size) {
            Err(error) => failure(error),
            Ok(Accepted::Waits(wake)) => Reply::Sleep(wake),
            Ok(Accepted::Signal(found)) => tell(mem, info, found),
        }
    }

    /// Takes the signal of a set that pends and has the lowest native number, or says until when to wait.
    #[tactic(auto, unfolding(kernel_model::specs::SignalRows::accept))]
    fn accept(
        &mut self,
        set: Result<[u32; 4], Errno>,
        time: Option<Result<TimeSpec, Errno>>,
        size: u64,
    ) -> Result<Accepted, Errno>
        ensures came { accepted_of result ≡ (accept self.old native_order (λ set. set) set time size).came }
        ensures state { self.new ≡ (accept self.old native_order (λ set. set) set time size).state }
        ensures clock { self.new.clock ≡ self.old.clock }
    {
        if size != SET_SIZE {
            return Err(Errno::EINVAL);
        }
        let set = set?;
        let length = length_or_none(time)?;
        let until = deadline(self.clock, length);
        self.accept_from(&set, until)
    }

    /// The same, of a set that is there, until a time of the clock.
    fn accept_from(&mut self, set: &[u32; 4], until: Option<u64>) -> Result<Accepted, Errno>
        ensures came { accepted_of result ≡ (accept_signal self.old (first_pending self.old.signals native_order set.now)
            (waits_until self.old until (refused self.old EAGAIN))).came }
        ensures state { self.new ≡ (accept_signal self.old (first_pending self.old.signals native_order set.now)
            (waits_until self.old until (refused self.old EAGAIN))).state }
        ensures clock { self.new.clock ≡ self.old.clock }
    {
        match take_first(&mut self.signals, set) {
            Some(info) => Ok(Accepted::Signal(info)),
            None => self.wait(until),
        }
    }

    /// A wait until a time of the clock, or without end; EAGAIN where that time is not past the clock.
    fn wait(&self, until: Option<u64>) -> Result<Accepted, Errno>
        ensures { accepted_of result ≡ (waits_until self.now until (refused self.now EAGAIN)).came }
    {
        match until {
            Some(time) if time <= self.clock => Err(Errno::EAGAIN),
            _ => Ok(Accepted::Waits(Wake { done: 0, until })),
        }
    }

    /// rt_sigsuspend(2): EINVAL for another size of a set than 16, EFAULT. It waits without end; the mask is read
    /// and has no effect here.
    #[tactic(auto, unfolding(kernel_model::specs::SignalRows::suspend))]
    pub(crate) fn suspend(&self, set: u64, size: u64, mem: &HostMem) -> Reply
        ensures { Gives (told_zero (suspend self.now size (set_at mem.now set))) result self.now }
    {
        if size != SET_SIZE {
            return failure(Errno::EINVAL);
        }
        match set_at(mem, set) {
            Err(error) => failure(error),
            Ok(_) => Reply::Sleep(Wake {
                done: 0,
                until: None,
            }),
        }
    }
}

/// Takes the signal of a set that pends and has the lowest native number.
fn take_first(signals: &mut Signals, set: &[u32; 4]) -> Option<Info>
    ensures { Takes signals.old (first_pending signals.old native_order set.now) result signals.new }
{
    for number in 1..SIGNAL_END {
        if let Some(info) = take_numbered(signals, set, number) {
            return Some(info);
        }
    }
    None
}

/// Takes the signal of a number, where it is in a set and pends.
fn take_numbered(signals: &mut Signals, set: &[u32; 4], number: u64) -> Option<Info>
    ensures { Takes signals.old (kept (λ sig. spec.has set.now sig && pends signals.old sig) (signal_of_native number)) result signals.new }
{
    match Sig::of_native(number) {
        None => None,
        Some(sig) => take_from(signals, set, sig),
    }
}

/// Takes a signal, where it is in a set and pends.
fn take_from(signals: &mut Signals, set: &[u32; 4], sig: Sig) -> Option<Info>
    ensures { Takes signals.old (kept (λ sig. spec.has set.now sig && pends signals.old sig) (Some sig)) result signals.new }
{
    if has(set, sig) {
        signals.take(sig)
    } else {
        None
    }
}

/// Stores what is known of an accepted signal, where the address is not null, and gives its number.
fn tell(mem: &mut HostMem, address: u64, info: Info) -> Reply
    ensures reply { result ≡ told_unless_null mem.old address (info_bytes info) (native_signal info.sig) }
    ensures written { mem.new ≡ written mem.old address (info_bytes info) }
{
    let number = Reply::Done(info.sig.to_native() as i64);
    if address == 0 {
        return number;
    }
    if mem.write(address, &info_bytes(info)) {
        number
    } else {
        failure(Errno::EFAULT)
    }
}
