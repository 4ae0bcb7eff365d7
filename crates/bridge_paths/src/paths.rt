//! The paths of a call: read from the program's memory, and put into host memory.
ghost use Rattle.std.specs.Prelude.{◌≡◌, ℕ, ◌<◌, List, IfOk, OnOk, None, Ok, length, position, replicate};
ghost use Rattle.host_mem.specs.Memory.{end_address, first_address, padded};
ghost use Rattle.native_calls.specs.Paths as host;
ghost use Rattle.o32_model.specs.Paths.{is_nul, path_at, path_limit};
ghost use Rattle.bridge_paths.specs.HostPaths.{BeginsWith, HasPath, HasRoom};

use bridge_log::{PathError, fresh_room, path};
use guest_space::Space;
use host_mem::HostMem;
use kernel_core::{Bytes, Errno, NoMemory};
use std::alloc::Global;

/// The path at an address of the program's memory, or what is wrong with it: EFAULT where a byte before its
/// NUL may not be loaded, ENAMETOOLONG where none of 4,096 bytes is NUL.
pub fn read_path(
    alloc: Global,
    space: &Space,
    address: u32,
) -> Result<Result<Bytes, Errno>, NoMemory>
    ensures answer { IfOk result (λ given. path_at space.now address ≡ given) }
    ensures short { IfOk result (λ given. IfOk given (λ path. length path < path_limit)) }
    ensures plain { IfOk result (λ given. IfOk given (λ path. position is_nul path ≡ None)) }
{
    match path(alloc, space, address) {
        Ok(path) => Ok(Ok(path)),
        Err(PathError::Fault) => Ok(Err(Errno::EFAULT)),
        Err(PathError::TooLong) => Ok(Err(Errno::ENAMETOOLONG)),
        Err(PathError::NoMemory) => Err(NoMemory),
    }
}

/// Adds a path and a NUL to host memory, and gives its address there.
pub fn put_path(mem: &mut HostMem, path: &Bytes) -> Result<u64, NoMemory>
    ensures address { IfOk result (λ address. address ≡ end_address (padded mem.old)) }
    ensures here { IfOk result (λ address. HasPath mem.new address path.now) }
    ensures others { OnOk result ((address : ℕ) (other : List ℕ) → HasPath mem.old address other → HasPath mem.new address other) }
    ensures front { OnOk result (BeginsWith mem.old mem.new) }
{
    let address = mem.push(path.as_slice())?;
    mem.push_zeros(1)?;
    Ok(address)
}

/// Makes host memory a path and a NUL.
pub fn put_one(mem: &mut HostMem, path: &Bytes) -> Result<(), NoMemory>
    requires short { length path.now < path_limit }
    requires plain { position is_nul path.now ≡ None }
    ensures { OnOk result (host.path_at mem.new first_address ≡ Ok path.now) }
{
    mem.clear();
    put_path(mem, path)?;
    Ok(())
}

/// Makes host memory two paths, each with a NUL, and gives the address of the second.
pub fn put_two(mem: &mut HostMem, one: &Bytes, two: &Bytes) -> Result<u64, NoMemory>
    requires one_short { length one.now < path_limit }
    requires one_plain { position is_nul one.now ≡ None }
    requires two_short { length two.now < path_limit }
    requires two_plain { position is_nul two.now ≡ None }
    ensures first { OnOk result (host.path_at mem.new first_address ≡ Ok one.now) }
    ensures second { IfOk result (λ at. host.path_at mem.new at ≡ Ok two.now) }
{
    mem.clear();
    put_path(mem, one)?;
    let at = put_path(mem, two)?;
    Ok(at)
}

/// Makes host memory a path with a NUL, and room of so many zeros behind it, and gives the room's address.
pub fn put_room(mem: &mut HostMem, path: &Bytes, room: u32) -> Result<u64, NoMemory>
    requires short { length path.now < path_limit }
    requires plain { position is_nul path.now ≡ None }
    ensures path { OnOk result (host.path_at mem.new first_address ≡ Ok path.now) }
    ensures room { IfOk result (λ at. HasRoom mem.new at room) }
{
    mem.clear();
    put_path(mem, path)?;
    let at = mem.push_zeros(room)?;
    Ok(at)
}

/// Makes host memory so many zeros, and behind them a path with a NUL, and gives the path's address.
pub fn put_behind(mem: &mut HostMem, room: u32, path: &Bytes) -> Result<u64, NoMemory>
    requires short { length path.now < path_limit }
    requires plain { position is_nul path.now ≡ None }
    ensures path { IfOk result (λ at. host.path_at mem.new at ≡ Ok path.now) }
    ensures room { OnOk result (BeginsWith (replicate room 0) mem.new) }
{
    fresh_room(mem, room)?;
    let at = put_path(mem, path)?;
    Ok(at)
}
