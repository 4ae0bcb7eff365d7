//! What comes from outside between two calls: the clock moves, and signals are posted.
ghost use Rattle.std.specs.Prelude.{◌≡◌, ◌≤◌, None, ◌-◌, ◌==◌, IfOk, OnErr, OnOk, bit_and, not};
ghost use Rattle.std.specs.List.{list_any};
ghost use Rattle.kernel_model.specs.Clock.{gone_off, left_until, next_time};
ghost use Rattle.kernel_model.specs.Pending.{CanPend};
ghost use Rattle.kernel_model.specs.SignalRows as rows;
ghost use Rattle.kernel_model.specs.SignalRows.{advance, is_deliverable, posted, timer_info, with_signals};
ghost use Rattle.kernel_model.specs.SignalSets.{without};

use crate::kernel::NativeKernel;
use kernel_core::{Info, NoMemory, Sig};
use kernel_model::Post;

/// Who sends the signal of a timer: the kernel (SI_KERNEL).
const SENT_BY_KERNEL: i32 = 0x80;

impl NativeKernel {
    /// The clock, in nanoseconds from 0. It takes no memory.
    pub fn clock(&self) -> u64
        ensures { result ≡ self.now.clock }
    {
        self.clock
    }

    /// Moves the clock on to a time, in nanoseconds from 0. The interval timer, where it is due by then, posts
    /// ALRM once, however late (setitimer(2)), and is not due then; `kept` says that a sigtimedwait waits for ALRM. After NoMemory
    /// the kernel is not used again.
    #[tactic(auto, unfolding(kernel_model::specs::SignalRows::advance), using(crate::proofs::Expiry::expiry))]
    pub fn advance(&mut self, to: u64, kept: bool) -> Result<(), NoMemory>
        requires later { self.old.clock ≤ to }
        ensures row { OnOk result (self.new ≡ advance self.old to kept) }
        ensures clock { self.new.clock ≡ to }
        ensures nothing_due { OnOk result (gone_off self.new.clock self.new.timer ≡ None) }
    {
        self.clock = to;
        if self.timers.fire(to) {
            self.signals.post(timer_info(), kept)?;
        }
        Ok(())
    }

    /// Posts a signal from outside (signal(7)), and tells what became of it; `kept` says that a sigtimedwait
    /// waits for it. Where there is no memory nothing changes. The info has no address, which only a fault has.
    pub fn post(&mut self, info: Info, kept: bool) -> Result<Post, NoMemory>
        requires can_pend { CanPend info }
        ensures row { IfOk result (λ post. posted self.new.signals post ≡ rows.post self.old.signals info kept) }
        ensures others { self.new ≡ with_signals self.old self.new.signals }
        ensures no_memory { OnErr result (self.new ≡ self.old) }
    {
        let post = self.signals.post(info, kept)?;
        Ok(post)
    }

    /// Whether an unblocked signal pends (signal(7)). It takes no memory.
    pub fn deliverable(&self) -> bool
        ensures { result ≡ is_deliverable self.now.signals }
    {
        has_any(&unblocked(self.signals.pending(), self.signals.mask()))
    }

    /// The time of the clock, in nanoseconds, at which the interval timer is due next; None where it is not
    /// armed, and where it is due past 2^61, which never comes (getitimer(2)). It takes no memory.
    pub fn next_time(&self) -> Option<u64>
        ensures { result ≡ next_time self.now.timer }
    {
        self.timers.next()
    }

    /// How long it is, in nanoseconds, until the interval timer goes off; 0 where that time is not past the clock,
    /// and where the timer is not armed (alarm(2)). getitimer(2) tells the same rounded down to microseconds, and
    /// so not whether anything is left at all. It takes no memory.
    pub fn timer_left(&self) -> u64
        ensures { result ≡ left_until self.now.clock self.now.timer.due }
    {
        self.timers.left(self.clock)
    }
}

/// ALRM, sent by the kernel.
fn timer_info() -> Info
    ensures info { result ≡ timer_info }
    ensures can_pend { CanPend result }
{
    Info {
        sig: Sig::Alrm,
        code: SENT_BY_KERNEL,
        errno: 0,
        pid: 0,
        uid: 0,
        value: 0,
        addr: 0,
    }
}

/// Whether a set has a signal.
fn has_any(set: &[u32]) -> bool
    ensures { result ≡ list_any (λ word. not (word == 0)) set.now }
{
    set.iter().any(|word| *word != 0)
}

/// The signals of a set that a mask does not block.
#[tactic(auto, using(crate::proofs::Unblocked::without_words))]
pub(crate) fn unblocked(set: [u32; 4], mask: [u32; 4]) -> [u32; 4]
    ensures { result ≡ without set mask }
{
    [
        free_bits(set[0], mask[0]),
        free_bits(set[1], mask[1]),
        free_bits(set[2], mask[2]),
        free_bits(set[3], mask[3]),
    ]
}

/// The bits of a word that another does not have.
fn free_bits(word: u32, other: u32) -> u32
    ensures { result ≡ word - bit_and word other }
{
    word - (word & other)
}
