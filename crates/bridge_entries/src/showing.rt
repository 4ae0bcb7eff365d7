//! Native records as those of the program.
ghost use Rattle.std.specs.Prelude.{◌≡◌, ℕ, ◌+◌, ◌≤◌, ◌++◌, IsTrue, IfOk, IfSome, List, OnOk, drop, length, take};
ghost use Rattle.std.specs.List.{flat_map};
ghost use Rattle.bridge_entries.specs.inside.Given.{AreListed};
ghost use Rattle.bridge_entries.specs.inside.Records.{IsWithin, can_hold, length_for, next_fitting, record_bytes, refusal};
ghost use Rattle.bridge_entries.specs.inside.Showing.{IsShown};
ghost use Rattle.kernel_model.specs.ContentRows.{Entry};
ghost use Rattle.native_calls.specs.Status.{entry_bytes};

use crate::records::{Form, LONGEST, NAME, Record, push_record, record_in};
use kernel_core::{Errno, NoMemory};
use std::alloc::Global;

/// Records of the program.
#[derive(Drop)]
pub(crate) struct Shown {
    /// All, one behind the other.
    pub(crate) bytes: Vec<u8>,
    /// The cookie of the last of them, or the position at first.
    pub(crate) cookie: u64,
    /// For how many bytes there is room behind them.
    pub(crate) left: usize,
}

/// The program's records of the native ones that were given behind a position, as far as they fit into `size`
/// bytes.
pub(crate) fn show_all(
    alloc: Global,
    form: Form,
    size: usize,
    position: u64,
    given: &[u8],
) -> Result<Shown, NoMemory>
    ensures { IfOk result (λ shown. (entries : List Entry) → AreListed position entries
        → given.now ≡ flat_map entry_bytes entries → IsShown form size position entries shown) }
{
    let mut shown = Shown {
        bytes: Vec::new(alloc),
        cookie: position,
        left: size,
    };
    let mut room = [0; LONGEST];
    let mut place = 0;
    while let Some(found) = next_fitting(form, shown.left, &given[place..]) {
        show(&mut shown, form, found, &given[place..], &mut room)?;
        place += found.length;
    }
    Ok(shown)
}

/// The record that bytes begin with; None where they begin with none, or where the program's has no room in
/// `left` bytes or does not hold the node number.
fn next_fitting(form: Form, left: usize, bytes: &[u8]) -> Option<Record>
    ensures told { result ≡ next_fitting form left bytes.now }
    ensures within { IfSome result (λ found. IsWithin found (length bytes.now)) }
    ensures fits { IfSome result (λ found. length_for form found.name ≤ left) }
    ensures holds { IfSome result (λ found. IsTrue (can_hold form found.node)) }
{
    let found = record_in(bytes)?;
    if left < form.length_for(found.name) || !form.can_hold(found.node) {
        return None;
    }
    Some(found)
}

/// Adds the program's record of the one that the bytes begin with, which is made in `room`.
fn show(
    shown: &mut Shown,
    form: Form,
    found: Record,
    bytes: &[u8],
    room: &mut [u8],
) -> Result<(), NoMemory>
    requires within { IsWithin found (length bytes.now) }
    requires fits { length_for form found.name ≤ shown.old.left }
    requires holds { IsTrue (can_hold form found.node) }
    requires room { length room.old ≡ 280 }
    ensures bytes { OnOk result (shown.new.bytes.items ≡ shown.old.bytes.items
        ++ record_bytes form found (take found.name (drop 19 bytes.now))) }
    ensures cookie { OnOk result (shown.new.cookie ≡ found.cookie) }
    ensures left { OnOk result (shown.new.left + length_for form found.name ≡ shown.old.left) }
{
    let name = &bytes[NAME..NAME + found.name];
    push_record(&mut shown.bytes, form, found, name, room)?;
    shown.cookie = u64::from(found.cookie);
    shown.left -= form.length_for(found.name);
    Ok(())
}

/// What is wrong with the first record that was given: EINVAL where the program's does not fit into `size`
/// bytes, EOVERFLOW where it does not hold the node number.
pub(crate) fn refusal(form: Form, size: usize, given: &[u8]) -> Option<Errno>
    ensures { result ≡ refusal form size given.now }
{
    let found = record_in(given)?;
    if size < form.length_for(found.name) {
        return Some(Errno::EINVAL);
    }
    if !form.can_hold(found.node) {
        return Some(Errno::EOVERFLOW);
    }
    None
}
