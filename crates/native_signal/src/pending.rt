//! What pends of all signals.
ghost use Rattle.std.specs.Prelude.{◌≡◌, ◌<◌, ◌≤◌, [], ◌∷◌, ◌++◌, drop, replicate, slice_get, slice_set, IfOk, OnOk, OnErr};
ghost use Rattle.kernel_model.specs.SignalRows.{queue_limit};
ghost use Rattle.kernel_model.specs.SignalSets.{signal_count, standard_count};
ghost use Rattle.native_signal.specs.inside.Pending.{queue_at, pends_at, queued_in, set_of};

use crate::places::{SIGNALS, STANDARD_SIGNALS};
use crate::queue::Queue;
use crate::sets::mark;
use kernel_core::{Info, NoMemory};
use std::alloc::Global;
use std::marker::Model;

/// What pends of each of the 128 signals, at its place. Contracts see the list of lists.
#[derive(Drop)]
pub struct Pending {
    queues: Vec<Queue>,
    /// The places where something pends.
    set: [u32; 4],
    /// How many real-time signals are queued.
    queued: usize,
}

impl Model for Pending {
    ghost use Rattle.std.specs.Prelude.{List};
    ghost use Rattle.kernel_core.specs.declared.info.Info.{Info};
    ghost use Rattle.native_signal.specs.inside.Pending.{IsCounted};

    ghost Value = { List (List Info) };

    ghost view = { λ p. p.queues.items };

    ghost invariant = { λ p. IsCounted p.queues.items p.set p.queued };
}

/// As many queues, where nothing pends.
fn empty_queues(alloc: Global, count: usize) -> Result<Vec<Queue>, NoMemory>
    ensures { IfOk result (λ queues. queues.items ≡ replicate count []) }
{
    let mut queues = Vec::new(alloc);
    for _place in 0..count {
        queues.push(Queue::new(alloc))?;
    }
    Ok(queues)
}

impl Pending {
    /// Nothing pends.
    pub fn new(alloc: Global) -> Result<Pending, NoMemory>
        ensures { IfOk result (λ pending. pending ≡ replicate signal_count []) }
    {
        Ok(Pending {
            queues: empty_queues(alloc, SIGNALS)?,
            set: [0; 4],
            queued: 0,
        })
    }

    /// The set of the places where something pends.
    pub fn set(&self) -> [u32; 4]
        ensures { result ≡ set_of self.now }
    {
        self.set
    }

    /// How many real-time signals are queued.
    pub fn queued(&self) -> usize
        ensures { result ≡ queued_in self.now }
    {
        self.queued
    }

    /// Whether something pends at a place.
    pub fn pends(&self, place: usize) -> bool
        requires { place < signal_count }
        ensures { result ≡ pends_at self.now place }
    {
        let queue = &self.queues[place];
        !queue.is_empty()
    }

    /// Puts one more behind those at a place. Where there is no memory all stays as it is.
    pub fn push(&mut self, place: usize, info: Info) -> Result<(), NoMemory>
        requires place { place < signal_count }
        requires room { standard_count ≤ place → queued_in self.old < queue_limit }
        ensures ok { OnOk result (self.new ≡ slice_set self.old place (queue_at self.old place ++ info ∷ [])) }
        ensures err { OnErr result (self.new ≡ self.old) }
    {
        let queue = &mut self.queues[place];
        queue.push(info)?;
        mark(&mut self.set, place, true);
        if place >= STANDARD_SIGNALS {
            self.queued += 1;
        }
        Ok(())
    }

    /// Takes the first at a place out, if something pends there.
    pub fn pop(&mut self, place: usize) -> Option<Info>
        requires { place < signal_count }
        ensures first { result ≡ slice_get (queue_at self.old place) 0 }
        ensures rest { self.new ≡ slice_set self.old place (drop 1 (queue_at self.old place)) }
    {
        let queue = &mut self.queues[place];
        let first = queue.pop()?;
        let pends = !queue.is_empty();
        mark(&mut self.set, place, pends);
        if place >= STANDARD_SIGNALS {
            self.queued -= 1;
        }
        Some(first)
    }

    /// Takes all at a place out.
    pub fn clear(&mut self, place: usize)
        requires { place < signal_count }
        ensures { self.new ≡ slice_set self.old place [] }
    {
        let queue = &mut self.queues[place];
        let count = queue.len();
        queue.clear();
        mark(&mut self.set, place, false);
        if place >= STANDARD_SIGNALS {
            self.queued -= count;
        }
    }
}
