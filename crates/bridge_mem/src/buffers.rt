//! Buffers: bytes that go from the program's memory to host memory and back. Host memory has just them,
//! from its first address on.
ghost use Rattle.std.specs.Prelude.{◌≡◌, length, take, replicate, None, OnOk};
ghost use Rattle.guest_space.specs.Access.{first_denied};
ghost use Rattle.guest_space.specs.Bytes.{bytes_at};
ghost use Rattle.guest_space.specs.declared.access.Access.TheVariants.{Load};
ghost use Rattle.o32_model.specs.GuestBytes.{loadable, with_stored};

use crate::structures::store_structure;
use guest_space::Space;
use host_mem::HostMem;
use kernel_core::NoMemory;

/// Makes `count` zeros of host memory, for a call to write to.
pub fn fresh_room(mem: &mut HostMem, count: u32) -> Result<(), NoMemory>
    ensures { OnOk result (mem.new ≡ replicate count 0) }
{
    mem.clear();
    mem.push_zeros(count)?;
    Ok(())
}

/// Makes those of the `count` bytes from `address` on host memory that may be loaded, up to the first that
/// may not.
pub fn load_buffer(
    space: &Space,
    mem: &mut HostMem,
    address: u32,
    count: u32,
) -> Result<(), NoMemory>
    ensures { OnOk result (mem.new ≡ loadable space.now address count) }
{
    fresh_room(mem, space.readable(address, count))?;
    read_bytes(space, address, mem.as_mut_slice());
    Ok(())
}

/// Writes the first `count` bytes of host memory, or all where there are fewer, from `address` on. Nothing
/// changes where one of them may not be stored to.
pub fn store_buffer(
    space: &mut Space,
    mem: &HostMem,
    address: u32,
    count: u32,
) -> Result<(), NoMemory>
    ensures { OnOk result (space.new ≡ with_stored space.old address (take count mem.now)) }
{
    let bytes = mem.as_slice();
    let there = bytes.len().min(count as usize);
    store_structure(space, address, &bytes[..there])?;
    Ok(())
}

/// Reads bytes of which each may be loaded.
pub(crate) fn read_bytes(space: &Space, address: u32, bytes: &mut [u8])
    requires { first_denied Load space.now.pages address (length bytes.old) ≡ None }
    ensures { bytes.new ≡ bytes_at space.now.pages address (length bytes.old) }
{
    match space.copy_in(address, bytes) {
        Ok(()) => {}
        Err(_) => unreachable!(),
    }
}
