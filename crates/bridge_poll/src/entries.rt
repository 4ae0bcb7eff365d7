//! The entries of a call, which go to host memory as the native kernel has them (struct pollfd of poll(2); Linux
//! `include/uapi/asm-generic/poll.h`).
ghost use Rattle.std.specs.Prelude.{◌≡◌, ◌+◌, ◌*◌, ◌%◌, ◌≤◌, ◌^◌, ◌++◌, None, IfOk, OnOk, length};
ghost use Rattle.bridge_poll.specs.inside.Entries as spec;
ghost use Rattle.bridge_poll.specs.inside.Entries.{bytes_put, memory_with, native_entries, place_of};
ghost use Rattle.guest_space.specs.Access.{first_denied};
ghost use Rattle.guest_space.specs.Bytes.{bytes_at};
ghost use Rattle.guest_space.specs.declared.access.Access.TheVariants.{Load};
ghost use Rattle.host_mem.specs.Memory.{end_address};
ghost use Rattle.layouts.specs.Number.{unsigned};
ghost use Rattle.std.specs.Prelude.{drop, true};

use crate::numbers::ENTRY_SIZE;
use bridge_limits::load_structure;
use byteorder::{BigEndian, ByteOrder, LittleEndian};
use guest_space::Space;
use host_mem::{FIRST_ADDRESS, HostMem};
use kernel_core::NoMemory;
use number_tables::{NativeNumber, poll_bits_in_o32};

/// How many entries there are at most: as many as descriptors (EINVAL of poll(2)).
const ENTRY_LIMIT: u32 = 1024;

/// Where an entry has the events that are asked for.
const EVENTS: usize = 4;

/// So many bytes as an entry has.
pub(crate) type EntryBytes = [u8; 8];

/// The entries of a call: where they begin in the program's memory, and how many they are.
#[derive(Clone, Copy)]
pub(crate) struct Entries {
    pub(crate) address: u32,
    pub(crate) count: u32,
}

/// Puts the entries behind what is in host memory, and gives their place there: 0, and then none is put, where one
/// of them can't be loaded, or where there are more than 1,024, which are not looked at.
pub(crate) fn put_entries(
    space: &Space,
    entries: Entries,
    mem: &mut HostMem,
) -> Result<u64, NoMemory>
    requires { length mem.old % 8 ≡ 0 }
    ensures place { IfOk result (λ place. place ≡ place_of mem.old (bytes_put space.now entries)) }
    ensures put { OnOk result (mem.new ≡ memory_with mem.old (bytes_put space.now entries)) }
{
    if entries.count > ENTRY_LIMIT || !is_loadable(space, entries) {
        return Ok(0);
    }
    let place = FIRST_ADDRESS + mem.as_slice().len() as u64;
    push_entries(space, entries, mem)?;
    Ok(place)
}

/// Whether each byte of the entries, which are not too many, can be loaded.
fn is_loadable(space: &Space, entries: Entries) -> bool
    requires { entries.count ≤ 1024 }
    ensures { result ≡ spec.is_loadable space.now entries }
{
    let size = entries.count * ENTRY_SIZE;
    space.readable(entries.address, size) == size
}

/// Puts entries behind what is in host memory, one after the other.
fn push_entries(space: &Space, entries: Entries, mem: &mut HostMem) -> Result<(), NoMemory>
    requires few { entries.count ≤ 1024 }
    requires there { first_denied Load space.now.pages entries.address (entries.count * 8) ≡ None }
    requires aligned { length mem.old % 8 ≡ 0 }
    ensures { OnOk result (mem.new ≡ mem.old ++ native_entries entries.count
        (bytes_at space.now.pages entries.address (entries.count * 8))) }
{
    for done in 0..entries.count {
        let entry = native_entry(&entry_at(space, entries.address + done * ENTRY_SIZE));
        mem.push(&entry)?;
    }
    Ok(())
}

/// The bytes of an entry, and zeros where one of them can't be loaded.
pub(crate) fn entry_at(space: &Space, address: u32) -> EntryBytes
    ensures { first_denied Load space.now.pages address 8 ≡ None → result ≡ bytes_at space.now.pages address 8 }
{
    let mut bytes = [0; ENTRY_SIZE as usize];
    let _loaded = load_structure(space, address, &mut bytes);
    bytes
}

/// An entry as the native kernel has it, of which nothing is told yet. Bits that are not listed ask for nothing.
fn native_entry(bytes: &EntryBytes) -> EntryBytes
    ensures { result ≡ spec.native_entry bytes.now }
{
    let mut native = [0; ENTRY_SIZE as usize];
    LittleEndian::write_u32(&mut native, BigEndian::read_u32(bytes));
    LittleEndian::write_u16(&mut native[EVENTS..], native_events(bytes));
    native
}

/// The events that an entry asks for, in native numbers.
fn native_events(bytes: &EntryBytes) -> u16
    ensures { result ≡ spec.native_events bytes.now }
{
    let events = poll_bits_in_o32(u32::from(short_at(bytes, EVENTS)));
    events.to_native() as u16
}

/// The number of two bytes at a place, the first counting most.
fn short_at(bytes: &[u8], place: usize) -> u16
    requires { place + 2 ≤ length bytes.now }
    ensures { result ≡ unsigned true 2 (drop place bytes.now) }
{
    BigEndian::read_u16(&bytes[place..])
}
