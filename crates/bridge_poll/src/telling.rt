//! What a program is told of its entries, and what the call then comes to.
ghost use Rattle.std.specs.Prelude.{◌≡◌, ◌*◌, ◌≤◌, ◌+◌, IfOk, OnOk, IsTrue, drop, length, true};
ghost use Rattle.bridge_limits.specs.Passed.{EffectsLead};
ghost use Rattle.bridge_poll.specs.inside.Telling as spec;
ghost use Rattle.bridge_poll.specs.inside.Telling.{piece_of, pieces_told, told_all, told_bytes};
ghost use Rattle.guest_space.specs.Access.{user_end};
ghost use Rattle.kernel_model.specs.Shared.{PollSet};
ghost use Rattle.layouts.specs.Number.{bytes_of};
ghost use Rattle.number_tables.specs.PollNumbers.{o32_poll};
ghost use Rattle.o32_model.specs.GuestBytes.{is_storable, with_stored};
ghost use Rattle.o32_model.specs.Results.{all_fit, value_if, with_pieces};

use crate::entries::{Entries, EntryBytes, entry_at};
use crate::numbers::ENTRY_SIZE;
use bridge_limits::put;
use byteorder::{BigEndian, ByteOrder, LittleEndian};
use guest_space::Space;
use host_mem::HostMem;
use kernel_core::{Errno, NoMemory, PollBits};
use number_tables::{O32Number, poll_bits_in_native};
use o32_model::{Log, Outcome};

/// How many bytes of an entry stand before what is told.
const ASKED_SIZE: usize = 6;

/// The native entries from a place on in host memory; none where they are not all there.
pub(crate) fn native_entries(mem: &HostMem, place: u64, count: u32) -> &[u8]
    ensures { result.now ≡ told_bytes mem.now place count }
{
    let size = u64::from(count) * u64::from(ENTRY_SIZE);
    mem.read(place, size).unwrap_or(&[])
}

/// Stores what is told of each entry, one after the other, up to the first that can't be stored whole, and answers
/// whether each was. `told` has the native entries; of those that are not there nothing is told.
pub(crate) fn store_told(
    told: &[u8],
    entries: Entries,
    space: &mut Space,
    log: &mut Log,
) -> Result<bool, NoMemory>
    ensures answer { IfOk result (λ stored. stored ≡ all_fit space.old (pieces_told space.old entries told.now)) }
    ensures stored { OnOk result (space.new ≡ with_pieces space.old (pieces_told space.old entries told.now)) }
    ensures effects { OnOk result (EffectsLead log.old log.new space.old space.new) }
    ensures native { log.new.native ≡ log.old.native }
{
    let mut at = entries.address;
    let mut rest = told;
    for _done in 0..entries.count {
        if !store_entry(at, told_of(rest), space, log)? {
            return Ok(false);
        }
        at += ENTRY_SIZE;
        rest = behind(rest);
    }
    Ok(true)
}

/// Stores one entry: what it asks, as it stands, and behind that what is told of it.
fn store_entry(
    address: u32,
    events: PollBits,
    space: &mut Space,
    log: &mut Log,
) -> Result<bool, NoMemory>
    ensures answer { IfOk result (λ stored. stored ≡ is_storable space.old address 8) }
    ensures stored { OnOk result (space.new ≡ with_stored space.old address (piece_of space.old address events)) }
    ensures inside { IfOk result (λ stored. IsTrue stored → address + 8 ≤ user_end) }
    ensures effects { OnOk result (EffectsLead log.old log.new space.old space.new) }
    ensures native { log.new.native ≡ log.old.native }
{
    let bytes = told_entry(space, address, events);
    put(space, address, &bytes, log)
}

/// The bytes of an entry with what is told of it, where it can be stored.
fn told_entry(space: &Space, address: u32, events: PollBits) -> EntryBytes
    ensures made { is_storable space.now address 8 ≡ true → result ≡ piece_of space.now address events }
    ensures sized { length result ≡ 8 }
{
    let mut bytes = entry_at(space, address);
    BigEndian::write_u16(&mut bytes[ASKED_SIZE..], events.to_o32() as u16);
    bytes
}

/// What is told of the first of some native entries, and nothing where there is none.
fn told_of(bytes: &[u8]) -> PollBits
    ensures { result ≡ spec.told_of bytes.now }
{
    if bytes.len() < ENTRY_SIZE as usize {
        return poll_bits_in_native(0);
    }
    poll_bits_in_native(u64::from(LittleEndian::read_u16(&bytes[ASKED_SIZE..])))
}

/// The native entries behind the first.
fn behind(bytes: &[u8]) -> &[u8]
    ensures { result.now ≡ drop 8 bytes.now }
{
    let first = bytes.len().min(ENTRY_SIZE as usize);
    &bytes[first..]
}

/// The number where all was stored, and else EFAULT.
pub(crate) fn number_if(stored: bool, number: u32) -> Outcome
    ensures { result ≡ value_if stored number }
{
    if stored {
        Outcome::Value(number)
    } else {
        Outcome::Error(Errno::EFAULT)
    }
}
