//! The table as callers see it.
ghost use Rattle.std.specs.Prelude.{◌≡◌, ◌<◌, false, IfOk, OnOk, OnErr, IfSome, None};
ghost use Rattle.kernel_model.specs.Always.{IsTable};
ghost use Rattle.kernel_model.specs.Table.{closed, cloexec_at, description_at, descriptor_limit, inserted, last_description, lowest_free, number_at, shared, slot, with_cloexec, with_description};
ghost use Rattle.native_fd.specs.Table.{no_descriptors};

use crate::descriptions::Descriptions;
pub use crate::links::DESCRIPTORS;
use crate::links::Links;
use kernel_core::NoMemory;
use std::alloc::Global;
use std::marker::Model;

/// The table of 1,024 descriptors, 0 to 1023, and of the descriptions that they lead to (open(2)). Each
/// description has a number, at first the least from 0 that no other has, and lives as long as a descriptor
/// leads to it. Contracts see it as `Descriptors` of `kernel_model`. (The rule of the numbers is this
/// project's own.)
#[derive(Drop)]
pub struct Table<T: Copy> {
    links: Links,
    descriptions: Descriptions<T>,
}

impl<T: Copy> Model for Table<T> {
    ghost use Rattle.kernel_model.specs.State.{Descriptors};
    ghost use Rattle.native_fd.specs.Table.{descriptors_code};
    ghost use Rattle.native_fd.specs.inside.Links.{AreLive};

    ghost Value = { Descriptors T };

    ghost coded = { descriptors_code T.code };

    ghost view = { λ t. record { fds = t.links; live = t.descriptions } };

    ghost invariant = { λ t. AreLive t.links t.descriptions };
}

impl<T: Copy> Table<T> {
    /// A table without a descriptor, with the room for all. It takes its memory from `alloc`, and later that of
    /// the descriptions.
    pub fn new(alloc: Global) -> Result<Table<T>, NoMemory>
        ensures empty { IfOk result (λ table. table ≡ no_descriptors) }
    {
        Ok(Table {
            links: Links::new(alloc)?,
            descriptions: Descriptions::new(alloc),
        })
    }

    /// The least descriptor from one on that is not open, or None where all from there on are. It costs a
    /// logarithm, and no memory.
    pub fn lowest(&self, from: u32) -> Option<u32>
        ensures lowest { result ≡ lowest_free self.now.fds from }
        ensures within { IfSome result (λ fd. fd < descriptor_limit) }
        ensures free { IfSome result (λ fd. slot self.now.fds fd ≡ None) }
        ensures valid { IsTable self.now }
    {
        self.links.lowest(from)
    }

    /// Opens the descriptor, which leads to a new description and is not closed on execve(2).
    pub fn insert(&mut self, fd: u32, item: T) -> Result<(), NoMemory>
        requires within { fd < descriptor_limit }
        requires free { slot self.old.fds fd ≡ None }
        ensures ok { OnOk result (self.new ≡ inserted self.old fd item false) }
        ensures err { OnErr result (self.new ≡ self.old) }
    {
        let number = self.links.unused_number();
        self.descriptions.insert(number, item)?;
        self.links.link(fd, number);
        Ok(())
    }

    /// The description of the descriptor, or None where it is not open.
    pub fn get(&self, fd: u32) -> Option<T>
        ensures description { result ≡ description_at self.now fd }
        ensures valid { IsTable self.now }
    {
        let descriptor = self.links.descriptor(fd)?;
        self.descriptions.get(descriptor.number)
    }

    /// The number of the descriptor's description, or None where it is not open.
    pub fn number(&self, fd: u32) -> Option<u32>
        ensures number { result ≡ number_at self.now fd }
        ensures valid { IsTable self.now }
    {
        let descriptor = self.links.descriptor(fd)?;
        Some(descriptor.number)
    }

    /// Changes the description for all its descriptors. Where the descriptor is not open, nothing changes.
    pub fn set(&mut self, fd: u32, item: T)
        ensures changed { self.new ≡ with_description self.old fd item }
    {
        if let Some(descriptor) = self.links.descriptor(fd) {
            self.descriptions.set(descriptor.number, item);
        }
    }

    /// Whether the descriptor is closed on execve(2), which one that is not open is not.
    pub fn cloexec(&self, fd: u32) -> bool
        ensures cloexec { result ≡ cloexec_at (slot self.now.fds fd) }
    {
        match self.links.descriptor(fd) {
            Some(descriptor) => descriptor.cloexec,
            None => false,
        }
    }

    /// Sets whether the descriptor is closed on execve(2). Where it is not open, nothing changes.
    pub fn set_cloexec(&mut self, fd: u32, on: bool)
        ensures cloexec { self.new ≡ with_cloexec self.old fd on }
    {
        self.links.set_cloexec(fd, on);
    }

    /// Closes the descriptor, and gives the description of which it was the last one (close(2)). Where it is
    /// not open, nothing changes. No memory.
    pub fn close(&mut self, fd: u32) -> Option<T>
        ensures last { result ≡ last_description self.old fd }
        ensures closed { self.new ≡ closed self.old fd }
    {
        let number = self.links.unlink(fd)?;
        self.descriptions.remove(number)
    }

    /// Makes `onto` another descriptor of the description of `fd`, not closed on execve(2); an open `onto` is
    /// closed first, and the description is given of which it was the last one (dup2(2)). No memory.
    pub fn dup_to(&mut self, fd: u32, onto: u32) -> Option<T>
        requires within { onto < descriptor_limit }
        ensures last { result ≡ last_description self.old onto }
        ensures shared { self.new ≡ shared (closed self.old onto) fd onto false }
    {
        let last = self.close(onto);
        if let Some(number) = self.number(fd) {
            self.links.link(onto, number);
        }
        last
    }
}
