//! The log.
ghost use Rattle.std.specs.Prelude.{◌≡◌, ◌≤◌, ◌++◌, [], ℕ, Bool, List, None, OnOk, option_map, unwrap_or};
ghost use Rattle.bridge_log.specs.Keeping.{Logged};
ghost use Rattle.kernel_model.specs.Clock.{next_time};
ghost use Rattle.kernel_model.specs.Pipes.{Sent};
ghost use Rattle.kernel_model.specs.SignalRows.{advance};
ghost use Rattle.kernel_model.specs.State.{Kernel};
ghost use Rattle.native_calls.specs.History.{FollowsPost, moment};
ghost use Rattle.native_log.specs.NativeLog.{IsReady, as_told, emptied, first_log};
ghost use Rattle.native_log.specs.inside.Entries.{with_calls, with_entry, with_time};

use crate::times::has_come;
use kernel_core::{Info, LogEntry, NoMemory};
use std::alloc::Global;
use std::marker::Model;

/// The native log of a machine: the entries of its last turn, where a log is kept. Contracts see it as the record `NativeLog`
/// of `specs/`. (The log is this project's own.)
///
/// The kernel's clock is moved in nearly each turn, and an entry tells its time only where something else is told or asked
/// at that time, or where the interval timer goes off by it.
#[derive(Drop)]
pub struct NativeLog {
    /// The entries of the last turn; None where no log is kept.
    entries: Option<Vec<LogEntry>>,
    /// The time that an entry told last, in nanoseconds of the kernel's clock; 0 before the first.
    told: u64,
}

impl Model for NativeLog {
    ghost use Rattle.std.specs.Prelude.{option_map};
    ghost use Rattle.native_log.specs.NativeLog.{NativeLog};

    ghost Value = { NativeLog };

    ghost view = { λ l. record { entries = option_map (λ v. v.items) l.entries; told = l.told } };
}

impl NativeLog {
    /// A log before the first turn, or none where it is not `kept`. It takes its memory from `alloc`.
    pub fn new(alloc: Global, kept: bool) -> NativeLog
        ensures { result ≡ first_log kept }
    {
        let entries = if kept { Some(Vec::new(alloc)) } else { None };
        NativeLog { entries, told: 0 }
    }

    /// The entries of the last turn, in order; none where no log is kept. It takes no memory.
    pub fn entries(&self) -> &[LogEntry]
        ensures { result.now ≡ unwrap_or self.now.entries [] }
    {
        match &self.entries {
            Some(entries) => entries.as_slice(),
            None => &[],
        }
    }

    /// Begins a turn, which has no entry so far. It takes no memory.
    pub fn clear(&mut self)
        ensures entries { self.new.entries ≡ emptied self.old.entries }
        ensures told { self.new.told ≡ self.old.told }
    {
        if let Some(entries) = &mut self.entries {
            entries.clear();
        }
    }

    /// What the calls of a part of a turn keep their native calls in, which [`NativeLog::add`] adds then: no call so far,
    /// and None where no log is kept. It takes no memory yet.
    pub fn part(&self) -> Option<Vec<LogEntry>>
        ensures { option_map (λ v. v.items) result ≡ emptied self.now.entries }
    {
        match &self.entries {
            Some(entries) => Some(Vec::new(*entries.allocator())),
            None => None,
        }
    }

    /// Tells the kernel's time `clock`, in nanoseconds, where another one was told last. `next` is the time at which its timer
    /// is due next: where that has come already, its time is told once the timer goes off, and not before.
    ///
    /// # Errors
    ///
    /// `NoMemory`. The log is not used again then.
    pub fn tell_time(&mut self, clock: u64, next: Option<u64>) -> Result<(), NoMemory>
        requires behind { self.old.told ≤ clock }
        ensures leads { OnOk result ((kernel : Kernel) (left : List ℕ) (sent : Sent) → kernel.clock ≡ clock → next ≡ next_time kernel.timer
            → Logged self.old.entries self.new.entries (as_told self.old kernel left sent) (as_told self.new kernel left sent)) }
        ensures behind { self.new.told ≤ clock }
    {
        if self.told == clock || has_come(clock, next) {
            return Ok(());
        }
        self.keep_time(clock)
    }

    /// Tells that a signal was posted, whose time was told.
    ///
    /// # Errors
    ///
    /// `NoMemory`. The log is not used again then.
    pub fn tell_post(&mut self, info: &Info) -> Result<(), NoMemory>
        ensures leads { OnOk result ((kernel became : Kernel) (left : List ℕ) (sent : Sent)
            → FollowsPost (as_told self.old kernel left sent) info.now.sig info.now.code info.now.value (as_told self.old became left sent)
            → Logged self.old.entries self.new.entries (as_told self.old kernel left sent) (as_told self.new became left sent)) }
        ensures told { self.new.told ≡ self.old.told }
    {
        self.keep(LogEntry::Post {
            sig: info.sig,
            code: info.code,
            value: info.value,
        })
    }

    /// Tells that the kernel's clock was moved to a time, in nanoseconds, where its timer, which was due next at the time
    /// `next`, has gone off by that.
    ///
    /// # Errors
    ///
    /// `NoMemory`. The log is not used again then.
    pub fn tell_timer(&mut self, clock: u64, next: Option<u64>) -> Result<(), NoMemory>
        requires behind { self.old.told ≤ clock }
        ensures leads { OnOk result ((kernel became : Kernel) (kept : Bool) (left : List ℕ) (sent : Sent) → next ≡ next_time kernel.timer
            → became ≡ advance kernel clock kept
            → Logged self.old.entries self.new.entries (as_told self.old kernel left sent) (as_told self.new became left sent)) }
        ensures behind { self.new.told ≤ clock }
    {
        if has_come(clock, next) {
            return self.keep_time(clock);
        }
        Ok(())
    }

    /// Adds the native calls of a part of a turn, in which the kernel's clock stood at `clock`, in nanoseconds: behind that
    /// time, where there are such calls and another one was told last.
    ///
    /// # Errors
    ///
    /// `NoMemory`. The log is not used again then.
    #[inline(always)]
    pub fn add(&mut self, part: Option<Vec<LogEntry>>, clock: u64) -> Result<(), NoMemory>
        requires behind { self.old.told ≤ clock }
        ensures leads { OnOk result ((kernel became : Kernel) (left rest : List ℕ) (before after : Sent) → kernel.clock ≡ clock → became.clock ≡ clock
            → IsReady clock self.old kernel → Logged (emptied self.old.entries) (option_map (λ v. v.items) part) (moment kernel left before) (moment became rest after)
            → Logged self.old.entries self.new.entries (as_told self.old kernel left before) (as_told self.new became rest after)) }
        ensures ready { OnOk result ((kernel became : Kernel) (left rest : List ℕ) (before after : Sent) → IsReady clock self.old kernel
            → Logged (emptied self.old.entries) (option_map (λ v. v.items) part) (moment kernel left before) (moment became rest after) → IsReady clock self.new became) }
        ensures behind { self.new.told ≤ clock }
    {
        match part {
            None => {
                self.told = clock;
                Ok(())
            }
            Some(calls) => self.add_calls(calls, clock),
        }
    }

    /// The same of calls that were kept. It stands apart from the path of a part of which nothing is kept.
    #[inline(never)]
    fn add_calls(&mut self, mut calls: Vec<LogEntry>, clock: u64) -> Result<(), NoMemory>
        ensures kept { OnOk result (self.new ≡ with_calls clock calls.items self.old) }
        ensures told { self.old.told ≤ clock → self.new.told ≤ clock }
    {
        if calls.is_empty() {
            return Ok(());
        }
        if self.told != clock {
            self.keep_time(clock)?;
        }
        if let Some(entries) = &mut self.entries {
            entries.append(&mut calls)?;
        }
        Ok(())
    }

    /// Keeps that the kernel's clock stands at a time.
    fn keep_time(&mut self, clock: u64) -> Result<(), NoMemory>
        ensures kept { OnOk result (self.new ≡ with_time clock self.old) }
        ensures told { self.new.told ≡ clock }
    {
        self.told = clock;
        self.keep(LogEntry::Clock { ns: clock })
    }

    /// Keeps an entry.
    fn keep(&mut self, entry: LogEntry) -> Result<(), NoMemory>
        ensures kept { OnOk result (self.new ≡ with_entry entry self.old) }
        ensures told { self.new.told ≡ self.old.told }
    {
        if let Some(entries) = &mut self.entries {
            entries.push(entry)?;
        }
        Ok(())
    }
}
