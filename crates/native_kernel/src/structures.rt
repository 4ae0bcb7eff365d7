//! Structures in host memory.
ghost use Rattle.std.specs.Prelude.{◌≡◌, ℕ, ◌+◌, ◌<◌, ◌≤◌, IsTrue, drop, false, length};
ghost use Rattle.host_mem.specs.Memory.{written};
ghost use Rattle.layouts.specs.Native.{native_shape};
ghost use Rattle.layouts.specs.Number.{unsigned};
ghost use Rattle.layouts.specs.Shape.{are_in_range, record_bytes};
ghost use Rattle.native_calls.specs.HostBytes.{accessible, loadable};
ghost use Rattle.native_calls.specs.Step.{counted, stored, stored_unless_null};
ghost use Rattle.native_kernel.specs.inside.Moving.{part_place};

use crate::replies::failure;
use byteorder::{ByteOrder, LittleEndian};
use host_mem::{FIRST_ADDRESS, HostMem};
use kernel_core::{Errno, Reply};
use layouts::{NativeStructure, native_layout, put_record};

/// A part of memory: where it begins, and how many bytes it has room for.
#[derive(Clone, Copy)]
pub(crate) struct Part {
    pub(crate) place: usize,
    pub(crate) room: usize,
}

/// Stores a structure, or answers EFAULT where there is no room for it.
pub(crate) fn store(mem: &mut HostMem, address: u64, bytes: &[u8]) -> Reply
    ensures reply { result ≡ stored mem.old address bytes.now }
    ensures written { mem.new ≡ written mem.old address bytes.now }
{
    if mem.write(address, bytes) {
        Reply::Done(0)
    } else {
        failure(Errno::EFAULT)
    }
}

/// Stores a structure as [`store`] does, or nothing where the address is null.
pub(crate) fn store_unless_null(mem: &mut HostMem, address: u64, bytes: &[u8]) -> Reply
    ensures reply { result ≡ stored_unless_null mem.old address bytes.now }
    ensures written { mem.new ≡ written mem.old address bytes.now }
{
    if address == 0 {
        Reply::Done(0)
    } else {
        store(mem, address, bytes)
    }
}

/// Stores bytes whole and answers how many they are, or answers EFAULT where there is no room for them.
pub(crate) fn store_counted(mem: &mut HostMem, address: u64, bytes: &[u8]) -> Reply
    ensures reply { result ≡ counted mem.old address bytes.now }
    ensures written { mem.new ≡ written mem.old address bytes.now }
{
    if mem.write(address, bytes) {
        Reply::Done(bytes.len() as i64)
    } else {
        failure(Errno::EFAULT)
    }
}

/// Writes a whole structure.
pub(crate) fn put(structure: NativeStructure, values: &[i128], bytes: &mut [u8])
    requires fits { IsTrue (are_in_range (native_shape structure).fields values.now) }
    requires one_each { length values.now ≡ length (native_shape structure).fields }
    requires whole { length bytes.old ≡ (native_shape structure).size }
    ensures { bytes.new ≡ record_bytes (native_shape structure) values.now }
{
    put_record(native_layout(structure), values, bytes);
}

/// The number of one byte at a place in a structure.
pub(crate) fn byte_at(bytes: &[u8], place: usize) -> u8
    requires { place < length bytes.now }
    ensures { result ≡ unsigned false 1 (drop place bytes.now) }
{
    bytes[place]
}

/// The number of four bytes at a place in a structure.
pub(crate) fn word_at(bytes: &[u8], place: usize) -> u32
    requires { place + 4 ≤ length bytes.now }
    ensures { result ≡ unsigned false 4 (drop place bytes.now) }
{
    LittleEndian::read_u32(&bytes[place..])
}

/// The number of eight bytes at a place in a structure.
pub(crate) fn double_at(bytes: &[u8], place: usize) -> u64
    requires { place + 8 ≤ length bytes.now }
    ensures { result ≡ unsigned false 8 (drop place bytes.now) }
{
    LittleEndian::read_u64(&bytes[place..])
}

/// How many of so many bytes from an address on are there, up to the first that is not.
pub(crate) fn accessible(mem: &HostMem, address: u64, count: u64) -> usize
    ensures { result ≡ accessible mem.now address count }
{
    count.min(mem.room_from(address)) as usize
}

/// Those bytes.
pub(crate) fn loadable(mem: &HostMem, address: u64, count: u64) -> &[u8]
    ensures { result.now ≡ loadable mem.now address count }
{
    match mem.read(address, accessible(mem, address, count) as u64) {
        Some(bytes) => bytes,
        None => &[],
    }
}

/// Where those bytes begin in memory; 0 where there are none.
pub(crate) fn part_place(mem: &HostMem, address: u64, room: usize) -> usize
    requires { (count : ℕ) × (room ≡ accessible mem.now address count) }
    ensures place { result ≡ part_place address room }
    ensures within { result + room ≤ length mem.now }
{
    if room == 0 {
        0
    } else {
        (address - FIRST_ADDRESS) as usize
    }
}
