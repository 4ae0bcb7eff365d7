//! Which descriptors lead to which description.
ghost use Rattle.std.specs.Prelude.{◌≡◌, ℕ, ◌+◌, ◌<◌, ◌≤◌, IfOk, None, Some, option_map, length, replicate, false, IfSome};
ghost use Rattle.kernel_model.specs.Table.{slot, with_slot, lowest_free, set_cloexec, descriptor_limit};
ghost use Rattle.kernel_model.specs.Begin.{free_places};
ghost use Rattle.native_fd.specs.inside.Links.{IsUnused, left_alone};

use kernel_core::NoMemory;
use kernel_model::Descriptor;
use number_pool::NumberPool;
use std::alloc::{AllocError, Global};
use std::marker::Model;

/// How many descriptors there are, and so how many descriptions at most (RLIMIT_NOFILE of getrlimit(2), at
/// its usual soft limit).
pub const DESCRIPTORS: u32 = 1024;

/// The levels of a pool of as many places as there are descriptors: 2^10 is 1,024.
const LEVELS: u32 = 10;

/// The descriptors, how many of them lead to the description of each number, and which descriptors and
/// numbers are taken.
#[derive(Drop)]
pub(crate) struct Links {
    fds: Vec<Option<Descriptor>>,
    counts: Vec<u32>,
    fds_taken: NumberPool<LEVELS>,
    numbers_taken: NumberPool<LEVELS>,
}

impl Model for Links {
    ghost use Rattle.std.specs.Prelude.{List, Option};
    ghost use Rattle.std.specs.Coded.{coded_list, coded_option};
    ghost use Rattle.kernel_model.specs.declared.descriptor.Descriptor.{Descriptor};
    ghost use Rattle.native_fd.specs.Table.{descriptor_code};
    ghost use Rattle.native_fd.specs.inside.Links.{AreLinks};

    ghost Value = { List (Option Descriptor) };

    ghost coded = { coded_list (coded_option descriptor_code) };

    ghost view = { λ l. l.fds.items };

    ghost invariant = { λ l. AreLinks l.fds.items l.counts.items l.fds_taken l.numbers_taken };
}

impl Links {
    /// No descriptor.
    pub(crate) fn new(alloc: Global) -> Result<Links, NoMemory>
        ensures { IfOk result (λ links. links ≡ free_places descriptor_limit) }
    {
        Ok(Links {
            fds: no_fds(alloc, DESCRIPTORS as usize)?,
            counts: no_counts(alloc, DESCRIPTORS as usize)?,
            fds_taken: NumberPool::new(alloc)?,
            numbers_taken: NumberPool::new(alloc)?,
        })
    }

    pub(crate) fn descriptor(&self, fd: u32) -> Option<Descriptor>
        ensures found { result ≡ slot self.now fd }
        ensures small { IfSome result (λ descriptor. descriptor.number < 1024) }
        ensures sized { length self.now ≡ 1024 }
    {
        match self.fds.get(fd as usize) {
            Some(descriptor) => *descriptor,
            None => None,
        }
    }

    /// The least descriptor that is not open, from one on.
    pub(crate) fn lowest(&self, from: u32) -> Option<u32>
        ensures lowest { result ≡ lowest_free self.now from }
        ensures within { IfSome result (λ fd. fd < descriptor_limit) }
        ensures free { IfSome result (λ fd. slot self.now fd ≡ None) }
        ensures sized { length self.now ≡ 1024 }
    {
        self.fds_taken.least_free_from(from)
    }

    /// The least number to which no descriptor leads, below 1,024 where a descriptor is free.
    pub(crate) fn unused_number(&self) -> u32
        requires { (fd : ℕ) × (fd < descriptor_limit) × (slot self.now fd ≡ None) }
        ensures unused { (fd : ℕ) → fd < descriptor_limit → slot self.now fd ≡ None → IsUnused self.now result }
        ensures sized { length self.now ≡ 1024 }
    {
        self.numbers_taken.least_free().unwrap()
    }

    /// Opens a descriptor that leads to the description of a number.
    pub(crate) fn link(&mut self, fd: u32, number: u32)
        requires within { fd < descriptor_limit }
        requires free { slot self.old fd ≡ None }
        requires number { number < 1024 }
        ensures { self.new ≡ with_slot self.old fd (Some (record { number = number; cloexec = false })) }
    {
        self.fds[fd as usize] = Some(Descriptor {
            number,
            cloexec: false,
        });
        self.counts[number as usize] += 1;
        self.fds_taken.take(fd);
        self.numbers_taken.take(number);
    }

    /// Closes a descriptor, and tells the number to which none leads any more. One that is not open stays so.
    pub(crate) fn unlink(&mut self, fd: u32) -> Option<u32>
        ensures alone { result ≡ left_alone self.old fd (slot self.old fd) }
        ensures unlinked { self.new ≡ with_slot self.old fd None }
    {
        let descriptor = self.descriptor(fd)?;
        let number = descriptor.number;
        self.fds[fd as usize] = None;
        self.fds_taken.give_back(fd);
        self.counts[number as usize] -= 1;
        if self.counts[number as usize] > 0 {
            return None;
        }
        self.numbers_taken.give_back(number);
        Some(number)
    }

    /// Sets the descriptor's close-on-exec. One that is not open stays so.
    pub(crate) fn set_cloexec(&mut self, fd: u32, on: bool)
        ensures { self.new ≡ with_slot self.old fd (option_map (set_cloexec on) (slot self.old fd)) }
    {
        if let Some(descriptor) = self.descriptor(fd) {
            self.fds[fd as usize] = Some(Descriptor {
                number: descriptor.number,
                cloexec: on,
            });
        }
    }
}

#[tactic(auto, unfolding(kernel_model::specs::Begin::free_places))]
fn no_fds(alloc: Global, count: usize) -> Result<Vec<Option<Descriptor>>, AllocError>
    ensures { IfOk result (λ fds. fds.items ≡ free_places count) }
{
    vec![in alloc; None; count]
}

fn no_counts(alloc: Global, count: usize) -> Result<Vec<u32>, AllocError>
    ensures { IfOk result (λ counts. counts.items ≡ replicate count 0) }
{
    vec![in alloc; 0; count]
}
