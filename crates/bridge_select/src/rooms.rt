//! What the native call is handed in host memory: the time and the mask, behind them the pair of the mask's address and
//! its size, and then the sets (pselect(2)).
ghost use Rattle.std.specs.Prelude.{◌≡◌, ◌%◌, ◌++◌, List, ℕ, Ok, Some, IfOk, OnOk, length};
ghost use Rattle.bridge_select.specs.inside.Handing.{Extends, FindsSet, Hands, Placed};
ghost use Rattle.bridge_select.specs.inside.Requests.{requested};
ghost use Rattle.byteorder.specs.Endian.{little_bytes};
ghost use Rattle.host_mem.specs.Memory.{end_address};
ghost use Rattle.kernel_model.specs.Readiness.{counted_fds};
ghost use Rattle.native_calls.specs.Polls.{mask_argument_at};
ghost use Rattle.o32_model.specs.Selecting as o32;

use crate::asked::{Asked, word_count};
use crate::fd_sets::{native_bytes, set_at};
use crate::requests::Request;
use bridge_limits::put_limits;
use byteorder::{ByteOrder, LittleEndian};
use guest_space::Space;
use host_mem::HostMem;
use kernel_core::NoMemory;

/// An address at which no byte of host memory is.
const NOWHERE: u64 = 1;

/// The size of the pair in bytes.
const PAIR_SIZE: usize = 16;

/// Where all that is in host memory: 0 where there is none.
#[derive(Clone, Copy)]
pub(crate) struct Places {
    pub(crate) read: u64,
    pub(crate) write: u64,
    pub(crate) except: u64,
    pub(crate) time: u64,
    pub(crate) pair: u64,
}

/// Makes host memory of what a call asks for. A set that can't be loaded from the program's memory is at an address where
/// host memory has no byte, and so is a mask.
pub(crate) fn put_request(
    request: &Request,
    space: &Space,
    mem: &mut HostMem,
) -> Result<Places, NoMemory>
    ensures { IfOk result (λ places. Hands (requested request.now) space.now places mem.new) }
{
    let limits = put_limits(request.wait, request.mask.mask, mem)?;
    let pair = push_pair(limits.mask, request.mask.size, mem)?;
    let asked = request.asked;
    let read = push_set(asked.read, asked, space, mem)?;
    let write = push_set(asked.write, asked, space, mem)?;
    let except = push_set(asked.except, asked, space, mem)?;
    Ok(Places {
        read,
        write,
        except,
        time: limits.time,
        pair,
    })
}

/// Adds the pair of a mask's address in host memory and its size, and gives its address.
fn push_pair(mask: u64, size: u32, mem: &mut HostMem) -> Result<u64, NoMemory>
    requires { length mem.old % 8 ≡ 0 }
    ensures pair { IfOk result (λ place. (behind : List ℕ)
        → mask_argument_at (mem.new ++ behind) place ≡ Some (Ok (record { mask = mask; size = size }))) }
    ensures more { OnOk result (Extends mem.old mem.new) }
    ensures aligned { OnOk result (length mem.new % 8 ≡ 0) }
{
    mem.push(&pair_bytes(mask, u64::from(size)))
}

/// Two numbers of 64 bits.
fn pair_bytes(mask: u64, size: u64) -> [u8; PAIR_SIZE]
    ensures { result ≡ little_bytes 8 mask ++ little_bytes 8 size }
{
    let mut bytes = [0; PAIR_SIZE];
    LittleEndian::write_u64(&mut bytes, mask);
    LittleEndian::write_u64(&mut bytes[8..], size);
    bytes
}

/// Adds the set at an address of the program's memory, and gives its address: 0 for an
/// address that is 0.
fn push_set(address: u32, asked: Asked, space: &Space, mem: &mut HostMem) -> Result<u64, NoMemory>
    requires { length mem.old % 8 ≡ 0 }
    ensures set { IfOk result (λ place. FindsSet mem.new (counted_fds asked.count) place (o32.fds_at space.now (o32.word_count asked.count) address)) }
    ensures room { IfOk result (λ place. (fds : List ℕ) → o32.fds_at space.now (o32.word_count asked.count) address ≡ Ok fds
        → Placed address place (end_address mem.old) (end_address mem.new)) }
    ensures more { OnOk result (Extends mem.old mem.new) }
    ensures aligned { OnOk result (length mem.new % 8 ≡ 0) }
{
    if address == 0 {
        return Ok(0);
    }
    match set_at(space, address, word_count(asked.count)) {
        Err(_) => Ok(NOWHERE),
        Ok(set) => mem.push(&native_bytes(&set)),
    }
}
