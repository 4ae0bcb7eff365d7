//! Times that the native kernel is given: seconds and nanoseconds, each of 64 bits.
ghost use Rattle.std.specs.Prelude.{◌≡◌, [], Ok, IfOk, length};
ghost use Rattle.native_calls.specs.Times.{time_at, time_in};
ghost use Rattle.o32_model.specs.Times.{spec_at, spec_in};

use crate::clock_times::PROGRAM_SIZE;
use bridge_log::{load_structure, signed_word_at};
use guest_space::Space;
use host_mem::HostMem;
use kernel_core::NoMemory;
use layouts::{NativeStructure, a_record_reads_back, native_layout, put_record};

/// How many bytes a time has in host memory (struct timespec).
const NATIVE_SIZE: usize = 16;

/// Makes host memory of a time in the program's memory, and gives its place there, where no byte is if the
/// program's can't be loaded.
pub(crate) fn take_time(space: &Space, address: u32, mem: &mut HostMem) -> Result<u64, NoMemory>
    ensures { IfOk result (λ place. time_at mem.new place ≡ spec_at space.now address) }
{
    mem.clear();
    let mut bytes = [0; PROGRAM_SIZE];
    if load_structure(space, address, &mut bytes).is_err() {
        return Ok(0);
    }
    push_read(&bytes, mem)
}

fn push_read(bytes: &[u8], mem: &mut HostMem) -> Result<u64, NoMemory>
    requires empty { mem.old ≡ [] }
    requires whole { length bytes.now ≡ 8 }
    ensures { IfOk result (λ place. time_at mem.new place ≡ Ok (spec_in bytes.now)) }
{
    let seconds = signed_word_at(bytes, 0);
    let nanoseconds = signed_word_at(bytes, 4);
    push_time(seconds, nanoseconds, mem)
}

/// Puts a time into empty host memory, and gives its place there.
pub(crate) fn push_time(seconds: i64, nanoseconds: i64, mem: &mut HostMem) -> Result<u64, NoMemory>
    requires { mem.old ≡ [] }
    ensures { IfOk result (λ place. time_at mem.new place ≡ Ok (record { seconds = seconds; nanoseconds = nanoseconds })) }
{
    let native = native_time(seconds, nanoseconds);
    let place = mem.push(&native)?;
    Ok(place)
}

/// The bytes of a time in host memory.
fn native_time(seconds: i64, nanoseconds: i64) -> [u8; NATIVE_SIZE]
    ensures time { time_in result ≡ record { seconds = seconds; nanoseconds = nanoseconds } }
    ensures sized { length result ≡ 16 }
{
    a_record_reads_back();
    let mut bytes = [0; NATIVE_SIZE];
    let values = [i128::from(seconds), i128::from(nanoseconds)];
    put_record(
        native_layout(NativeStructure::Timespec),
        &values,
        &mut bytes,
    );
    bytes
}
