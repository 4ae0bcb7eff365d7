//! Signals that come from outside at given times, and the list of them.

use std::alloc::{AllocError, Global};
use std::marker::Model;

/// The size of a terminal, as `struct winsize` of the Linux header `asm-generic/termios.h` has it.
#[derive(Clone, Copy, Debug, PartialEq, Eq)]
pub struct Winsize {
    /// Rows, in characters.
    pub rows: u16,
    /// Columns, in characters.
    pub cols: u16,
}

/// A signal that comes from outside.
#[derive(Clone, Copy, Debug, PartialEq, Eq)]
pub struct Due {
    /// The clock's time at which it comes, in nanoseconds, 0 to 2^60.
    pub time: u64,
    /// Its number by o32, 1 to 128.
    pub sig: u8,
    /// The value that it carries, where it is queued (`sigqueue`); `None` where it is sent (`kill`).
    pub value: Option<u32>,
}

/// A list of events, which contracts see as that list.
#[derive(Debug, Drop)]
pub struct Events {
    list: Vec<Due>,
}

impl Model for Events {
    ghost use Rattle.std.specs.Prelude.{List};
    ghost use Rattle.schedule.specs.declared.events.Due.{Due};

    ghost Value = { List Due };

    ghost view = { λ events. events.list.items };
}

impl Events {
    ghost use Rattle.std.specs.Prelude.{◌≡◌, ◌-◌, [], ◌∷◌, ◌++◌, length, slice_get, IsTrue, ◌↔◌, OnOk, OnErr};

    /// No events. Takes no memory.
    pub fn new(alloc: Global) -> Events
        ensures { result ≡ [] }
    {
        Events {
            list: Vec::new(alloc),
        }
    }

    /// The events of a list. Takes no memory.
    pub fn from_vec(list: Vec<Due>) -> Events
        ensures { result ≡ list.items }
    {
        Events { list }
    }

    /// The list of the events. Takes no memory.
    pub fn into_vec(self) -> Vec<Due>
        ensures { result.items ≡ self }
    {
        self.list
    }

    /// The events, in their order.
    pub fn as_slice(&self) -> &[Due]
        ensures { result.now ≡ self.now }
    {
        self.list.as_slice()
    }

    /// Whether there are none.
    pub fn is_empty(&self) -> bool
        ensures { IsTrue result ↔ (self.now ≡ []) }
    {
        self.list.is_empty()
    }

    /// The last event; `None` where there is none.
    pub fn last(&self) -> Option<Due>
        ensures { result ≡ slice_get self.now (length self.now - 1) }
    {
        self.list.last().copied()
    }

    /// Puts an event at the end. Where there is no memory, nothing changes.
    pub fn push(&mut self, due: Due) -> Result<(), AllocError>
        ensures ok { OnOk result (self.new ≡ self.old ++ due ∷ []) }
        ensures err { OnErr result (self.new ≡ self.old) }
    {
        self.list.push(due)?;
        Ok(())
    }
}
