//! How a file system gets full: many calls of one kind.
ghost use Rattle.std.specs.Prelude.{◌≤◌};

use crate::calls::{Streams, made};
use host_mem::{FIRST_ADDRESS, HostMem};
use kernel_core::{NoMemory, Reply};
use native_kernel::NativeKernel;
use native_scripts::rows::Call;
use std::alloc::Global;

/// One of the 26 small letters.
fn letter(number: u64) -> u8
    ensures low { 97 ≤ result }
    ensures high { result ≤ 122 }
{
    b'a' + (number % 26) as u8
}

/// The text `f`, and one of four letters, another one for each number below 26^4: the first are `aaaa`, `baaa`,
/// `caaa` and `daaa`.
fn texts(number: u64) -> [u8; 7] {
    [
        b'f',
        0,
        letter(number),
        letter(number / 26),
        letter(number / 676),
        letter(number / 17_576),
        0,
    ]
}

fn memory_of(alloc: Global, bytes: &[u8]) -> Result<HostMem, NoMemory> {
    let mut memory = HostMem::new(alloc);
    memory.push(bytes)?;
    Ok(memory)
}

/// Makes so many calls, each of which makes another name, and tells how many were carried out until one was refused. Host memory
/// has the text `f`, and at its third byte the name.
pub(crate) fn make_names(
    alloc: Global,
    kernel: &mut NativeKernel,
    streams: &mut Streams,
    call: &Call,
    most: u64,
) -> u64 {
    for count in 0..most {
        let Ok(mut memory) = memory_of(alloc, &texts(count)) else {
            return count;
        };
        let came = made(kernel, streams, call.number, call.arguments, &mut memory);
        if came != Ok(Reply::Done(0)) {
            return count;
        }
    }
    most
}

/// Makes so many calls, each of which writes one byte to another block of the file that the first argument has open, and tells how
/// many were carried out until one was refused.
pub(crate) fn fill_blocks(
    alloc: Global,
    kernel: &mut NativeKernel,
    streams: &mut Streams,
    call: &Call,
    most: u64,
) -> u64 {
    let Ok(mut memory) = memory_of(alloc, b"x") else {
        return 0;
    };
    for block in 0..most {
        let place = block.saturating_mul(4096);
        let arguments = [call.arguments[0], FIRST_ADDRESS, 1, place, 0, 0];
        let came = made(kernel, streams, call.number, arguments, &mut memory);
        if came != Ok(Reply::Done(1)) {
            return block;
        }
    }
    most
}
