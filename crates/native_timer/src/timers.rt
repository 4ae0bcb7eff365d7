//! The timer as the kernel keeps it.
ghost use Rattle.std.specs.Prelude.{◌≡◌, ◌≤◌, None, is_some};
ghost use Rattle.kernel_model.specs.Always.{IsTimer};
ghost use Rattle.kernel_model.specs.Clock.{gone_off, left_until, next_due, next_time, unarmed};
ghost use Rattle.native_timer.specs.Timers.{after_firing, armed_at};

use std::marker::Model;

/// The latest time and the longest period that there are, in nanoseconds: 2^63 - 1. A greater number
/// counts as this one (this project's own rule).
pub const LATEST_TIME: u64 = (1 << 63) - 1;

/// The last time of the clock at which a timer goes off, in nanoseconds: 2^61. A later time is kept and
/// shown, and it never comes (this project's own rule).
pub const LAST_DUE_TIME: u64 = 1 << 61;

/// The interval timer of a process, ITIMER_REAL (setitimer(2)): when it goes off next, if it is armed, and
/// after which period again, if it has one. Contracts see it as the `Timer` of kernel_model. All times are
/// in nanoseconds; those of the clock count from 0, and any number may be given for one. No call takes memory.
#[derive(Drop)]
pub struct Timers {
    due: Option<u64>,
    period: u64,
}

impl Model for Timers {
    ghost use Rattle.kernel_model.specs.Always.{IsTimer};
    ghost use Rattle.kernel_model.specs.State.{Timer};

    ghost Value = { Timer };

    ghost view = { λ t. record { due = t.due; period = t.period } };

    ghost invariant = { λ t. IsTimer (record { due = t.due; period = t.period }) };
}

impl Timers {
    /// A timer that is not armed.
    pub fn new() -> Timers
        ensures { result ≡ unarmed }
    {
        Timers {
            due: None,
            period: 0,
        }
    }

    /// Arms the timer to go off first when the clock shows `first`, and then each `period`, or just once
    /// where that is 0. Where `first` is None it is disarmed, and has no period (setitimer(2)).
    pub fn arm(&mut self, first: Option<u64>, period: u64)
        ensures armed { self.new ≡ armed_at first period }
        ensures whole { IsTimer self.new }
    {
        *self = match first {
            Some(time) => Timers {
                due: Some(time.min(LATEST_TIME)),
                period: period.min(LATEST_TIME),
            },
            None => Timers::new(),
        };
    }

    /// The period, at most 2^63 - 1, and 0 where the timer has none or is not armed (getitimer(2)).
    pub fn period(&self) -> u64
        ensures period { result ≡ self.now.period }
        ensures whole { IsTimer self.now }
    {
        self.period
    }

    /// How long it is, when the clock shows `now`, until the timer goes off, at most 2^63 - 1. It is 0 where
    /// that time is not past `now`, and where the timer is not armed (getitimer(2)).
    pub fn left(&self, now: u64) -> u64
        ensures left { result ≡ left_until now self.now.due }
        ensures whole { IsTimer self.now }
    {
        match self.due {
            Some(due) => due.saturating_sub(now),
            None => 0,
        }
    }

    /// Whether the timer is due when the clock shows `now`. If it is, it has gone off: its next time is the
    /// first of its time and whole periods after it that is past `now`, and without a period it is not armed
    /// any more. If it is not due, it stays as it is.
    pub fn fire(&mut self, now: u64) -> bool
        ensures due { result ≡ is_some (gone_off now self.old) }
        ensures fired { self.new ≡ after_firing now self.old }
        ensures once { gone_off now self.new ≡ None }
        ensures whole { IsTimer self.new }
    {
        match self.next() {
            Some(due) if due <= now => {
                self.due = time_after(due, self.period, now);
                true
            }
            _ => false,
        }
    }

    /// The time of the clock at which the timer goes off next, which is at most 2^61. It is None exactly
    /// where the timer is not armed, or is armed to a later time.
    pub fn next(&self) -> Option<u64>
        ensures next { result ≡ next_time self.now }
        ensures whole { IsTimer self.now }
    {
        self.due.filter(|&due| due <= LAST_DUE_TIME)
    }
}

// The next time of a timer that was due at a time not past `now`.
fn time_after(due: u64, period: u64, now: u64) -> Option<u64>
    requires { due ≤ now }
    ensures { result ≡ (next_due now due period).due }
{
    if period == 0 {
        return None;
    }
    let late = (now - due) % period;
    Some(now.saturating_add(period - late).min(LATEST_TIME))
}
