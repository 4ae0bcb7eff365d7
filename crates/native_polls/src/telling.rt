//! What is told of all entries, and storing it (poll(2)).
ghost use Rattle.std.specs.Prelude.{◌≡◌, ◌+◌, ◌*◌, ◌<◌, ◌≤◌, ◌^◌, count_by, false, length, true};
ghost use Rattle.host_mem.specs.Memory.{is_inside, written};
ghost use Rattle.kernel_model.specs.Readiness.{entry_limit, is_any, returned};
ghost use Rattle.layouts.specs.Number.{bytes_of};
ghost use Rattle.native_calls.specs.HostBytes.{read_as};
ghost use Rattle.native_calls.specs.Polls.{entries_at, entries_in};
ghost use Rattle.native_polls.specs.inside.Entries.{entry_bytes, told_from, told_if, told_in};
ghost use Rattle.number_tables.specs.PollNumbers.{native_poll};

use crate::entries::{ENTRY_SIZE, is_any, told_in};
use crate::readiness::Readiness;
use crate::structures::{end_address, is_inside};
use byteorder::{ByteOrder, LittleEndian};
use host_mem::{FIRST_ADDRESS, HostMem};
use kernel_core::{Errno, PollBits};
use number_tables::NativeNumber;

/// Where an entry has the events that are told.
const RETURNED: u64 = 6;

/// Of how many entries any event is told: EFAULT where they are not all there; of none nothing is read.
#[tactic(auto, using(crate::proofs::Read::length_read))]
pub(crate) fn told_count<F: Readiness>(
    files: &F,
    address: u64,
    count: u32,
    mem: &HostMem,
) -> Result<u32, Errno>
    requires { count ≤ entry_limit }
    ensures { result ≡ read_as (λ entries. count_by is_any (returned (F.files files.now) entries))
        (entries_at mem.now address count) }
{
    if count == 0 {
        return Ok(0);
    }
    match mem.read(address, u64::from(count) * ENTRY_SIZE as u64) {
        None => Err(Errno::EFAULT),
        Some(bytes) => Ok(told_within(files, bytes, count)),
    }
}

/// The same of so many entries that some bytes are.
fn told_within<F: Readiness>(files: &F, bytes: &[u8], count: u32) -> u32
    requires { length bytes.now ≡ count * 8 }
    ensures { result ≡ count_by is_any (returned (F.files files.now) (entries_in count bytes.now)) }
{
    let mut told = 0;
    for done in 0..count {
        if is_any(told_in(files, &bytes[done as usize * ENTRY_SIZE..])) {
            told += 1;
        }
    }
    told
}

/// Stores what is told of each entry, where they are all there.
pub(crate) fn store_told<F: Readiness>(files: &F, address: u64, count: u32, mem: &mut HostMem)
    requires { count ≤ entry_limit }
    ensures { mem.new ≡ told_if (F.files files.now) address mem.old (entries_at mem.old address count) }
{
    let size = u64::from(count) * ENTRY_SIZE as u64;
    if count > 0 && is_inside(mem, address, size) {
        let end = end_address(mem);
        store_each(files, address, end, count, mem);
    }
}

/// Stores what is told of each of so many entries from an address on. They end at most at `end`.
fn store_each<F: Readiness>(files: &F, address: u64, end: u64, count: u32, mem: &mut HostMem)
    requires there { is_inside mem.old address (count * 8) ≡ true }
    requires below { address + count * 8 ≤ end }
    ensures { mem.new ≡ told_from (F.files files.now) mem.old address count }
{
    let mut place = address;
    for done in 0..count {
        store_first(files, place, count - done, mem);
        place += ENTRY_SIZE as u64;
    }
}

/// Stores what is told of the first of so many entries from an address on.
#[tactic(auto, using(crate::proofs::EntryLaws::inside_bounds))]
fn store_first<F: Readiness>(files: &F, address: u64, count: u32, mem: &mut HostMem)
    requires some { 1 ≤ count }
    requires there { is_inside mem.old address (count * 8) ≡ true }
    requires below { address + 8 < 2 ^ 64 }
    ensures { mem.new ≡ written mem.old (address + 6)
        (bytes_of false 2 (native_poll (told_in (F.files files.now) (entry_bytes mem.old address count)))) }
{
    let place = (address - FIRST_ADDRESS) as usize;
    let size = count as usize * ENTRY_SIZE;
    let told = told_in(files, &mem.as_slice()[place..place + size]);
    let _there = mem.write(address + RETURNED, &number_bytes(told));
}

/// The number of a set of events, in two bytes.
#[tactic(auto, using(crate::proofs::Events::number_is_small))]
fn number_bytes(events: PollBits) -> [u8; 2]
    ensures { result ≡ bytes_of false 2 (native_poll events) }
{
    let mut bytes = [0; 2];
    LittleEndian::write_u16(&mut bytes, events.to_native() as u16);
    bytes
}
