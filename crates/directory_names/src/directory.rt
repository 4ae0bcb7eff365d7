//! A directory's names.
ghost use Rattle.std.specs.Prelude.{◌≡◌, ◌+◌, ◌<◌, ◌≤◌, ◌↔◌, [], length, IsTrue, IsOk, OnOk, OnErr, None, option_map};
ghost use Rattle.kernel_core.specs.ValidTree.{IsName, greatest_cookie};
ghost use Rattle.directory_names.specs.Names.{AreNames, find_name, entry_after, shown, with_entry, added, without};

use crate::entry::{EntryView, NodeRef, Place};
use crate::order::CookieOrder;
use indexmap::IndexMap;
use kernel_core::{Bytes, NoMemory};
use std::alloc::Global;
use std::marker::Model;

/// The names of one directory, other than `.` and `..`. Contracts see it as `Names` of
/// `specs/Names.antt`: the greatest cookie that the directory ever had, for how many more entries there
/// is room already, and the entries in the order in which they were made, so by rising cookie.
///
/// A new entry has the greatest cookie plus 1, so no cookie comes twice. The cookies 1 and 2 are those
/// of `.` and `..`, and the greatest is 2^31 - 1. (That an entry has a place of its own that stays is
/// the `d_off` of getdents(2); the rule of the next cookie is this project's own.)
#[derive(Drop)]
pub struct Directory {
    names: IndexMap<Vec<u8>, Place>,
    order: CookieOrder,
    greatest: u32,
}

impl Model for Directory {
    ghost use Rattle.indexmap.specs.IndexMap.{spare};
    ghost use Rattle.directory_names.specs.inside.Index.{listed, room, Agree};
    ghost use Rattle.directory_names.specs.Names.{Names, AreNames, names_code};

    ghost Value = { Names };

    ghost coded = { names_code };

    ghost view = { λ d. record { greatest = d.greatest; spare = room d.order.has_room (spare d.names); entries = listed d.names.entries d.order.seats } };

    ghost invariant = { λ d. AreNames (record { greatest = d.greatest; spare = room d.order.has_room (spare d.names); entries = listed d.names.entries d.order.seats })
        × Agree d.names.entries d.order.seats };
}

impl Directory {
    /// A directory with no entry, whose greatest cookie is 2, that of `..`. It takes no memory yet, and
    /// later from `alloc`.
    pub fn new(alloc: Global) -> Directory
        ensures entries { result.entries ≡ [] }
        ensures greatest { result.greatest ≡ 2 }
        ensures valid { AreNames result }
    {
        Directory {
            names: IndexMap::new(alloc),
            order: CookieOrder::new(alloc),
            greatest: 2,
        }
    }

    /// How many entries there are.
    pub fn len(&self) -> usize
        ensures count { result ≡ length self.now.entries }
        ensures valid { AreNames self.now }
    {
        self.order.len()
    }

    /// Whether there is no entry.
    pub fn is_empty(&self) -> bool
        ensures { IsTrue result ↔ (self.now.entries ≡ []) }
    {
        self.len() == 0
    }

    /// The greatest cookie that the directory ever had, from 2 to 2^31 - 1.
    pub fn greatest(&self) -> u32
        ensures value { result ≡ self.now.greatest }
        ensures valid { AreNames self.now }
    {
        self.greatest
    }

    /// The node of the entry with this name, byte for byte, or None where no entry has it. It costs one
    /// look-up by hash.
    pub fn find(&self, name: &[u8]) -> Option<NodeRef>
        ensures node { result ≡ find_name self.now.entries name.now }
        ensures valid { AreNames self.now }
    {
        self.names.get(name).map(|place| place.node)
    }

    /// The entry of the least cookie that is greater than this one, or None where none is greater. It
    /// costs the logarithm of the number of entries.
    pub fn entry_after(&self, cookie: u32) -> Option<EntryView<'_>>
        ensures entry { option_map shown result ≡ entry_after self.now.entries cookie }
        ensures valid { AreNames self.now }
    {
        let index = self.order.after(cookie)?;
        let (name, place) = self.names.get_index(index)?;
        Some(EntryView {
            cookie: place.cookie,
            name: name.as_slice(),
            node: place.node,
        })
    }

    /// Makes room for one more entry where there is none, and does nothing where there is some. After an
    /// error nothing has changed, except that there may be more room. (This project's own.)
    pub fn reserve(&mut self) -> Result<(), NoMemory>
        ensures same { self.new ≡ record self.old { spare = self.new.spare } }
        ensures kept { self.old.spare ≤ self.new.spare }
        ensures ok { OnOk result (0 < self.new.spare) }
        ensures enough { 0 < self.old.spare → IsOk result }
        ensures valid { AreNames self.new }
    {
        self.names.reserve(1)?;
        self.order.reserve()?;
        Ok(())
    }

    /// Adds an entry with the next cookie. There has to be room for it, so that no memory is taken, a
    /// next cookie, at most 2^31 - 1, and no entry with this name; the name has 1 to 255 bytes without `/`
    /// and NUL, and is neither `.` nor `..`. (The rule of the next cookie is this project's own.)
    pub fn add(&mut self, name: Bytes, node: NodeRef)
        requires room { 0 < self.old.spare }
        requires cookie { self.old.greatest < greatest_cookie }
        requires name { IsName name }
        requires absent { find_name self.old.entries name ≡ None }
        ensures added { self.new ≡ record (added self.old name node) { spare = self.new.spare } }
        ensures room { self.old.spare ≤ self.new.spare + 1 }
        ensures valid { AreNames self.new }
    {
        self.put(self.greatest + 1, name, node);
    }

    /// Adds an entry of a tree that is loaded, with the cookie that it has there, which is then the
    /// greatest: it has to be above the greatest so far and at most 2^31 - 1. For the name what `add`
    /// needs holds. It takes memory only where there is no room, and after NoMemory nothing has changed.
    /// (This project's own.)
    pub fn load(&mut self, cookie: u32, name: Bytes, node: NodeRef) -> Result<(), NoMemory>
        requires low { self.old.greatest < cookie }
        requires high { cookie ≤ greatest_cookie }
        requires name { IsName name }
        requires absent { find_name self.old.entries name ≡ None }
        ensures ok { OnOk result (self.new ≡ record (with_entry self.old cookie name node) { spare = self.new.spare }) }
        ensures err { OnErr result (self.new ≡ record self.old { spare = self.new.spare }) }
        ensures room { self.old.spare ≤ self.new.spare + 1 }
        ensures enough { 0 < self.old.spare → IsOk result }
        ensures valid { AreNames self.new }
    {
        self.reserve()?;
        self.put(cookie, name, node);
        Ok(())
    }

    /// Removes the entry with this name, and does nothing where no entry has it. The others keep their
    /// order and their cookies, and its cookie is not used again. It takes no memory, and costs one look-up
    /// by hash and the logarithm of the number of entries.
    pub fn remove(&mut self, name: &[u8])
        ensures removed { self.new ≡ record (without self.old name.now) { spare = self.new.spare } }
        ensures kept { self.old.spare ≤ self.new.spare }
        ensures valid { AreNames self.new }
    {
        let Some((index, _, place)) = self.names.get_full(name) else {
            return;
        };
        let cookie = place.cookie;
        let _ = self.names.swap_remove_index(index);
        self.order.remove(cookie);
        // The last entry of the map stands now where the removed one stood, unless that was the last.
        if let Some((_, moved)) = self.names.get_index(index) {
            self.order.set_index(moved.cookie, index);
        }
    }

    /// Adds an entry with a cookie above all others, for which there is room.
    fn put(&mut self, cookie: u32, name: Bytes, node: NodeRef)
        requires room { 0 < self.old.spare }
        requires low { self.old.greatest < cookie }
        requires high { cookie ≤ greatest_cookie }
        requires name { IsName name }
        requires absent { find_name self.old.entries name ≡ None }
        ensures put { self.new ≡ record (with_entry self.old cookie name node) { spare = self.new.spare } }
        ensures one { self.old.spare ≤ 1 }
        ensures valid { AreNames self.new }
    {
        let index = self.names.len();
        let _ = self
            .names
            .insert(name.into_vec(), Place { cookie, node })
            .unwrap();
        self.order.push(cookie, index);
        self.greatest = cookie;
    }
}
