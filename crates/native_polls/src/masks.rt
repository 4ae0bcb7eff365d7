//! The masks of ppoll(2) and pselect(2), which are read and have no effect here: whoever makes the call sets the
//! mask.
ghost use Rattle.std.specs.Prelude.{◌≡◌, length};
ghost use Rattle.kernel_model.specs.Readiness.{masked_wait};
ghost use Rattle.native_calls.specs.HostBytes.{read_as, structure, unless_null};
ghost use Rattle.native_calls.specs.Polls.{after_argument, mask_argument_at, mask_argument_in, masked_by};
ghost use Rattle.native_calls.specs.SignalBytes.{set_at, set_in};
ghost use Rattle.native_polls.specs.inside.Masks.{mask_of};

use crate::structures::double_at;
use host_mem::HostMem;
use kernel_core::Errno;
use signal_sets::of_native;

/// The size of a set of signals, in bytes.
const SET_SIZE: u64 = 16;

/// The size of what the last argument of pselect(2) points to: an address and a size.
const ARGUMENT_SIZE: u64 = 16;

/// How long a call with a mask waits: what is wrong with the time comes first, then EINVAL for another size of
/// a set than 16, then EFAULT.
pub(crate) fn masked_wait(
    mem: &HostMem,
    wait: Result<Option<u128>, Errno>,
    mask: u64,
    size: u64,
) -> Result<Option<u128>, Errno>
    ensures { result ≡ masked_wait wait size (unless_null mask (set_at mem.now mask)) }
{
    let length = wait?;
    if mask == 0 {
        return Ok(length);
    }
    if size != SET_SIZE {
        return Err(Errno::EINVAL);
    }
    match set_at(mem, mask) {
        Err(error) => Err(error),
        Ok(_) => Ok(length),
    }
}

/// The set in memory, or EFAULT where it is not there.
#[tactic(auto, using(crate::proofs::Read::length_read))]
fn set_at(mem: &HostMem, address: u64) -> Result<[u32; 4], Errno>
    ensures { result ≡ set_at mem.now address }
{
    match mem.read(address, SET_SIZE) {
        None => Err(Errno::EFAULT),
        Some(bytes) => Ok(set_in(bytes)),
    }
}

fn set_in(bytes: &[u8]) -> [u32; 4]
    requires { length bytes.now ≡ 16 }
    ensures { result ≡ set_in bytes.now }
{
    of_native([double_at(bytes, 0), double_at(bytes, 8)])
}

/// How long pselect(2) waits, by the mask that its last argument points to, if it is not null: EFAULT where the
/// argument can't be read, and then as [`masked_wait`].
pub(crate) fn masked_by(
    mem: &HostMem,
    wait: Result<Option<u128>, Errno>,
    argument: u64,
) -> Result<Option<u128>, Errno>
    ensures { result ≡ masked_by mem.now wait (mask_argument_at mem.now argument) }
{
    if argument == 0 {
        return wait;
    }
    match argument_at(mem, argument) {
        Err(error) => Err(error),
        Ok(argument) => masked_wait(mem, wait, argument.mask, argument.size),
    }
}

/// How long it waits if the mask is all right: EFAULT where the argument can't be read.
pub(crate) fn after_argument(
    mem: &HostMem,
    wait: Result<Option<u128>, Errno>,
    argument: u64,
) -> Result<Option<u128>, Errno>
    ensures { result ≡ after_argument (mask_argument_at mem.now argument) wait }
{
    if argument == 0 {
        return wait;
    }
    match argument_at(mem, argument) {
        Err(error) => Err(error),
        Ok(_) => wait,
    }
}

/// What the last argument of pselect(2) points to: the address of a mask and the size of a set.
#[derive(Clone, Copy)]
struct MaskArgument {
    mask: u64,
    size: u64,
}

/// That structure, or EFAULT where it is not there.
#[tactic(auto, using(crate::proofs::Read::length_read))]
fn argument_at(mem: &HostMem, address: u64) -> Result<MaskArgument, Errno>
    ensures { read_as mask_of result ≡ read_as mask_argument_in (structure mem.now address 16) }
{
    match mem.read(address, ARGUMENT_SIZE) {
        None => Err(Errno::EFAULT),
        Some(bytes) => Ok(argument_in(bytes)),
    }
}

fn argument_in(bytes: &[u8]) -> MaskArgument
    requires { length bytes.now ≡ 16 }
    ensures { mask_of result ≡ mask_argument_in bytes.now }
{
    MaskArgument {
        mask: double_at(bytes, 0),
        size: double_at(bytes, 8),
    }
}
