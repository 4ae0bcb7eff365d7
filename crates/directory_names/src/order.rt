//! The order of a directory's entries.
ghost use Rattle.std.specs.Prelude.{◌≡◌, ◌<◌, ◌++◌, [], ◌∷◌, true, false, All, IsOk, OnOk, OnErr, length, option_map, option_to_list};
ghost use Rattle.directory_names.specs.inside.Order.{index_after, without_seat, with_index, seat_at};

use std::alloc::{AllocError, Global};
use std::collections::BTreeMap;
use std::marker::Model;
use std::ops::Bound;

/// A cookie, and the index at which the map of names keeps its entry.
type Seat = (u32, usize);

/// The seats by rising cookie. The newest one stands apart until there is memory for it in the tree, so
/// that one more can be taken without memory.
#[derive(Drop)]
pub(crate) struct CookieOrder {
    older: BTreeMap<u32, usize>,
    newest: Option<Seat>,
}

impl Model for CookieOrder {
    ghost use Rattle.std.specs.Prelude.{◌++◌};
    ghost use Rattle.std.specs.Option.{is_none, option_to_list};
    ghost use Rattle.std.specs.List.Sorted.{IsStrictlySortedBy};
    ghost use Rattle.std.specs.Map.{keys_of};
    ghost use Rattle.std.specs.Ordering.{nat_cmp};
    ghost use Rattle.directory_names.specs.inside.Order.{Order};

    ghost Value = { Order };

    ghost view = { λ o. record { has_room = is_none o.newest; seats = o.older.entries ++ option_to_list o.newest } };

    ghost invariant = { λ o. IsStrictlySortedBy nat_cmp (keys_of (o.older.entries ++ option_to_list o.newest)) };
}

impl CookieOrder {
    /// No seat, and room for one. It takes no memory.
    pub(crate) fn new(alloc: Global) -> CookieOrder
        ensures { result ≡ record { has_room = true; seats = [] } }
    {
        CookieOrder {
            older: BTreeMap::new(alloc),
            newest: None,
        }
    }

    /// How many seats are taken.
    pub(crate) fn len(&self) -> usize
        ensures { result ≡ length self.now.seats }
    {
        match self.newest {
            Some(_) => self.older.len() + 1,
            None => self.older.len(),
        }
    }

    /// Makes room for one more seat.
    pub(crate) fn reserve(&mut self) -> Result<(), AllocError>
        ensures ok { OnOk result (self.new ≡ record self.old { has_room = true }) }
        ensures err { OnErr result (self.new ≡ self.old) }
        ensures enough { self.old.has_room ≡ true → IsOk result }
    {
        if let Some((cookie, index)) = self.newest {
            self.older.insert(cookie, index)?;
            self.newest = None;
        }
        Ok(())
    }

    /// Takes a seat with a cookie above all others. It takes no memory.
    pub(crate) fn push(&mut self, cookie: u32, index: usize)
        requires room { self.old.has_room ≡ true }
        requires greatest { All (λ seat. seat.0 < cookie) self.old.seats }
        ensures { self.new ≡ record { has_room = false; seats = self.old.seats ++ (cookie, index) ∷ [] } }
    {
        self.newest = Some((cookie, index));
    }

    /// The index of the seat of the least cookie above this one.
    pub(crate) fn after(&self, cookie: u32) -> Option<usize>
        ensures { result ≡ index_after self.now.seats cookie }
    {
        let mut above = self
            .older
            .range((Bound::Excluded(cookie), Bound::Unbounded));
        match above.next() {
            Some((_, &index)) => Some(index),
            None => index_above(self.newest, cookie),
        }
    }

    /// Takes away the cookie's seat.
    pub(crate) fn remove(&mut self, cookie: u32)
        ensures room { self.old.has_room ≡ true → self.new.has_room ≡ true }
        ensures seats { self.new.seats ≡ without_seat self.old.seats cookie }
    {
        let _ = self.older.remove(&cookie);
        self.newest = kept(self.newest, cookie);
    }

    /// Gives the cookie's seat another index.
    pub(crate) fn set_index(&mut self, cookie: u32, index: usize)
        ensures { self.new ≡ record self.old { seats = with_index self.old.seats cookie index } }
    {
        if let Some(place) = self.older.get_mut(&cookie) {
            *place = index;
        }
        self.newest = moved(self.newest, cookie, index);
    }
}

/// The index of the seat, where its cookie is above this one.
fn index_above(seat: Option<Seat>, cookie: u32) -> Option<usize>
    ensures { result ≡ index_after (option_to_list seat) cookie }
{
    match seat {
        Some((newest, index)) if newest > cookie => Some(index),
        _ => None,
    }
}

/// The seat, where it is not the cookie's.
fn kept(seat: Option<Seat>, cookie: u32) -> Option<Seat>
    ensures { option_to_list result ≡ without_seat (option_to_list seat) cookie }
{
    match seat {
        Some((newest, _)) if newest == cookie => None,
        _ => seat,
    }
}

/// The seat, at another index where it is the cookie's.
fn moved(seat: Option<Seat>, cookie: u32, index: usize) -> Option<Seat>
    ensures { result ≡ option_map (seat_at cookie index) seat }
{
    match seat {
        Some((newest, _)) if newest == cookie => Some((newest, index)),
        _ => seat,
    }
}
