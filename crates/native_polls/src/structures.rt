//! Structures in host memory.
ghost use Rattle.std.specs.Prelude.{◌≡◌, ◌+◌, ◌≤◌, IsTrue, drop, false, length};
ghost use Rattle.host_mem.specs.Memory.{end_address, is_inside};
ghost use Rattle.layouts.specs.Native.{native_shape};
ghost use Rattle.layouts.specs.Number.{unsigned};
ghost use Rattle.layouts.specs.Shape.{are_in_range, record_bytes};

use byteorder::{ByteOrder, LittleEndian};
use host_mem::{FIRST_ADDRESS, HostMem};
use layouts::{NativeStructure, native_layout, put_record};

/// The address past the last byte.
pub(crate) fn end_address(mem: &HostMem) -> u64
    ensures { result ≡ end_address mem.now }
{
    FIRST_ADDRESS + mem.as_slice().len() as u64
}

/// Whether so many bytes from an address on are there.
pub(crate) fn is_inside(mem: &HostMem, address: u64, size: u64) -> bool
    ensures { result ≡ is_inside mem.now address size }
{
    let end = end_address(mem);
    address >= FIRST_ADDRESS && address <= end && size <= end - address
}

/// Writes a whole structure.
pub(crate) fn put(structure: NativeStructure, values: &[i128], bytes: &mut [u8])
    requires fits { IsTrue (are_in_range (native_shape structure).fields values.now) }
    requires one_each { length values.now ≡ length (native_shape structure).fields }
    requires whole { length bytes.old ≡ (native_shape structure).size }
    ensures { bytes.new ≡ record_bytes (native_shape structure) values.now }
{
    put_record(native_layout(structure), values, bytes);
}

/// The number of two bytes at a place in a structure.
pub(crate) fn short_at(bytes: &[u8], place: usize) -> u16
    requires { place + 2 ≤ length bytes.now }
    ensures { result ≡ unsigned false 2 (drop place bytes.now) }
{
    LittleEndian::read_u16(&bytes[place..])
}

/// The number of four bytes at a place in a structure.
pub(crate) fn word_at(bytes: &[u8], place: usize) -> u32
    requires { place + 4 ≤ length bytes.now }
    ensures { result ≡ unsigned false 4 (drop place bytes.now) }
{
    LittleEndian::read_u32(&bytes[place..])
}

/// The number of eight bytes at a place in a structure.
pub(crate) fn double_at(bytes: &[u8], place: usize) -> u64
    requires { place + 8 ≤ length bytes.now }
    ensures { result ≡ unsigned false 8 (drop place bytes.now) }
{
    LittleEndian::read_u64(&bytes[place..])
}
