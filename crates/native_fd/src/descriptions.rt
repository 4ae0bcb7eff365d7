//! The descriptions by their numbers.
ghost use Rattle.std.specs.Prelude.{◌≡◌, ◌<◌, ◌≤◌, OnOk, OnErr, IsSome, Some, None, length};
ghost use Rattle.kernel_model.specs.Begin.{free_places};
ghost use Rattle.kernel_model.specs.Table.{descriptor_limit, slot, with_slot};
ghost use Rattle.native_fd.specs.inside.Descriptions.{all_keys};

use kernel_core::NoMemory;
use slab::Slab;
use std::alloc::{AllocError, Global};
use std::marker::Model;

/// The descriptions, and the key of the description that each number stands for.
#[derive(Drop)]
pub(crate) struct Descriptions<T: Copy> {
    /// By the numbers, up to the greatest that has had a description.
    keys: Vec<Option<usize>>,
    items: Slab<T>,
}

impl<T: Copy> Model for Descriptions<T> {
    ghost use Rattle.std.specs.Prelude.{List, Option, map};
    ghost use Rattle.std.specs.Coded.{coded_list, coded_option};
    ghost use Rattle.native_fd.specs.inside.Descriptions.{AreKept, all_keys, item_at};

    ghost Value = { List (Option T) };

    ghost coded = { coded_list (coded_option T.code) };

    ghost view = { λ d. map (item_at d.items) (all_keys d.keys.items) };

    ghost invariant = { λ d. AreKept d.keys.items d.items };
}

impl<T: Copy> Descriptions<T> {
    /// No description. It takes no memory yet, and later from `alloc`.
    pub(crate) fn new(alloc: Global) -> Descriptions<T>
        ensures { result ≡ free_places descriptor_limit }
    {
        Descriptions {
            keys: Vec::new(alloc),
            items: Slab::new(alloc),
        }
    }

    pub(crate) fn get(&self, number: u32) -> Option<T>
        ensures { result ≡ slot self.now number }
    {
        let key = key_at(&self.keys, number)?;
        self.items.get(key).copied()
    }

    /// A description for a number that has none.
    pub(crate) fn insert(&mut self, number: u32, item: T) -> Result<(), NoMemory>
        requires within { number < length self.old }
        requires free { slot self.old number ≡ None }
        ensures ok { OnOk result (self.new ≡ with_slot self.old number (Some item)) }
        ensures err { OnErr result (self.new ≡ self.old) }
    {
        make_room(&mut self.keys, number as usize)?;
        let key = self.items.insert(item)?;
        self.keys[number as usize] = Some(key);
        Ok(())
    }

    /// Another description for a number that has one.
    pub(crate) fn set(&mut self, number: u32, item: T)
        requires there { IsSome (slot self.old number) }
        ensures { self.new ≡ with_slot self.old number (Some item) }
    {
        if let Some(key) = key_at(&self.keys, number) {
            self.items[key] = item;
        }
    }

    /// Takes the description away. A number that has none stays so.
    pub(crate) fn remove(&mut self, number: u32) -> Option<T>
        ensures removed { result ≡ slot self.old number }
        ensures left { self.new ≡ with_slot self.old number None }
    {
        let key = key_at(&self.keys, number)?;
        self.keys[number as usize] = None;
        self.items.try_remove(key)
    }
}

fn key_at(keys: &[Option<usize>], number: u32) -> Option<usize>
    ensures { result ≡ slot keys.now number }
{
    match keys.get(number as usize) {
        Some(key) => *key,
        None => None,
    }
}

/// Makes the keys as many as it takes to have that of a number.
fn make_room(keys: &mut Vec<Option<usize>>, number: usize) -> Result<(), AllocError>
    requires few { length keys.old.items ≤ descriptor_limit }
    requires within { number < descriptor_limit }
    ensures same { all_keys keys.new.items ≡ all_keys keys.old.items }
    ensures few { length keys.new.items ≤ descriptor_limit }
    ensures room { OnOk result (number < length keys.new.items) }
{
    if number >= keys.len() {
        keys.resize(number + 1, None)?;
    }
    Ok(())
}
