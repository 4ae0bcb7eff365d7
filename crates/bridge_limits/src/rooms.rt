//! What the native call is handed of time and mask in host memory (timespec(3); Linux
//! `include/uapi/asm-generic/signal.h`).
ghost use Rattle.std.specs.Prelude.{◌≡◌, ◌++◌, ◌<◌, ◌≤◌, ◌%◌, ℕ, List, [], Ok, IfOk, OnOk, length};
ghost use Rattle.bridge_limits.specs.Limits.{given_mask};
ghost use Rattle.bridge_limits.specs.inside.Rooms.{mask_room};
ghost use Rattle.byteorder.specs.Endian.{little_bytes};
ghost use Rattle.host_mem.specs.Memory.{end_address};
ghost use Rattle.kernel_model.specs.Always.{IsSet};
ghost use Rattle.kernel_model.specs.Clock.{length_of};
ghost use Rattle.native_calls.specs.HostBytes.{unless_null};
ghost use Rattle.native_calls.specs.Polls.{wait_at};
ghost use Rattle.native_calls.specs.SignalBytes as native;
ghost use Rattle.native_calls.specs.SignalBytes.{set_at};
ghost use Rattle.native_calls.specs.Times.{time_in};

use crate::masks::OwnMask;
use bridge_signal_state::is_set;
use byteorder::{ByteOrder, LittleEndian};
use host_mem::HostMem;
use kernel_core::NoMemory;
use signal_sets::to_native;

const NANOSECONDS_PER_SECOND: u64 = 1_000_000_000;

/// An address at which no byte of host memory is.
const NOWHERE: u64 = 1;

/// How many bytes a time has in host memory, and a mask.
const SIZE: usize = 16;

/// Where time and mask are in host memory.
#[derive(Clone, Copy)]
pub struct Placed {
    /// The address of the time, 0 where there is none.
    pub time: u64,
    /// The address of the mask, 0 where there is none.
    pub mask: u64,
}

/// Makes host memory of how long a call may wait, in nanoseconds, and of its own mask; what is added behind them does
/// not change what the native call finds. A mask that the program's memory does not have is at an address where host
/// memory has no byte. It fails for want of memory alone.
pub fn put_limits(wait: Option<u64>, mask: OwnMask, mem: &mut HostMem) -> Result<Placed, NoMemory>
    ensures time { IfOk result (λ placed. (behind : List ℕ) → wait_at (mem.new ++ behind) placed.time ≡ Ok wait) }
    ensures mask { IfOk result (λ placed. (behind : List ℕ)
        → unless_null placed.mask (set_at (mem.new ++ behind) placed.mask) ≡ given_mask mask) }
    ensures aligned { OnOk result (length mem.new % 8 ≡ 0) }
    ensures few { OnOk result (length mem.new ≤ 32) }
{
    mem.clear();
    let time = push_time(wait, mem)?;
    let mask = push_mask(mask, mem)?;
    Ok(Placed { time, mask })
}

/// Puts a length of time into empty host memory, and gives its place.
fn push_time(wait: Option<u64>, mem: &mut HostMem) -> Result<u64, NoMemory>
    requires { mem.old ≡ [] }
    ensures time { IfOk result (λ place. (behind : List ℕ) → wait_at (mem.new ++ behind) place ≡ Ok wait) }
    ensures aligned { OnOk result (length mem.new % 8 ≡ 0) }
    ensures few { OnOk result (length mem.new ≤ 16) }
{
    match wait {
        None => Ok(0),
        Some(length) => push(&time_bytes(length), mem),
    }
}

/// Puts a mask behind what is there, and gives its place.
fn push_mask(mask: OwnMask, mem: &mut HostMem) -> Result<u64, NoMemory>
    requires { length mem.old % 8 ≡ 0 }
    ensures mask { IfOk result (λ place. (behind : List ℕ)
        → unless_null place (set_at (mem.new ++ behind) place) ≡ given_mask mask) }
    ensures room { OnOk result (mem.new ≡ mem.old ++ mask_room mask) }
{
    match mask {
        OwnMask::None => Ok(0),
        OwnMask::Unreadable => Ok(NOWHERE),
        OwnMask::Set(set) => push(&set_bytes(set), mem),
    }
}

/// Puts bytes behind what is there, and gives their place.
fn push(bytes: &[u8], mem: &mut HostMem) -> Result<u64, NoMemory>
    requires { length mem.old % 8 ≡ 0 }
    ensures room { OnOk result (mem.new ≡ mem.old ++ bytes.now) }
    ensures place { IfOk result (λ place. place ≡ end_address mem.old) }
{
    let place = mem.push(bytes)?;
    Ok(place)
}

/// The bytes of a length of time.
fn time_bytes(wait: u64) -> [u8; SIZE]
    ensures value { length_of (time_in result) ≡ Ok wait }
    ensures sized { length result ≡ 16 }
{
    two_numbers(wait / NANOSECONDS_PER_SECOND, wait % NANOSECONDS_PER_SECOND)
}

/// The bytes of a set of signals.
fn set_bytes(set: [u32; 4]) -> [u8; SIZE]
    ensures value { result ≡ native.set_bytes set }
    ensures words { IsSet set }
{
    is_set(set);
    let words = to_native(set);
    two_numbers(words[0], words[1])
}

/// The bytes of two numbers, the first of each counting least.
fn two_numbers(first: u64, second: u64) -> [u8; SIZE]
    ensures { result ≡ little_bytes 8 first ++ little_bytes 8 second }
{
    let mut bytes = [0; SIZE];
    LittleEndian::write_u64(&mut bytes, first);
    LittleEndian::write_u64(&mut bytes[8..], second);
    bytes
}
