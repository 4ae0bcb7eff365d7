//! What the native call is handed in host memory: a set, two numbers of 8 bytes; and behind it a time, seconds and
//! nanoseconds (Linux `include/uapi/asm-generic/signal.h`; timespec(3)).
ghost use Rattle.std.specs.Prelude.{◌≡◌, Some, Ok, IfOk, OnOk, length, option_map};
ghost use Rattle.host_mem.specs.Memory.{bytes_at};
ghost use Rattle.kernel_model.specs.Always.{IsSet};
ghost use Rattle.kernel_model.specs.SignalSets as sets;
ghost use Rattle.kernel_model.specs.declared.time.TimeSpec.{TimeSpec};
ghost use Rattle.native_calls.specs.HostBytes.{unless_null};
ghost use Rattle.native_calls.specs.SignalBytes.{set_at};
ghost use Rattle.native_calls.specs.Times.{time_at, time_in};

use crate::asked::Wanted;
use bridge_signal_state::put_set;
use host_mem::HostMem;
use kernel_core::NoMemory;
use kernel_model::TimeSpec;
use layouts::{NativeStructure, a_record_reads_back, native_layout, put_record};

const TIME_SIZE: usize = 16;

/// The bits of KILL, place 8, and STOP, place 22, in the first word of a set.
const UNBLOCKABLE: u32 = 0x0040_0100;

/// Makes host memory of what a call asks for, and gives the place of the time, 0 where there is none. KILL and STOP,
/// which no call waits for, are taken out of the set.
pub(crate) fn put_asked(asked: Wanted, mem: &mut HostMem) -> Result<u64, NoMemory>
    ensures set { OnOk result (set_at mem.new 65536 ≡ Ok (sets.blockable asked.set)) }
    ensures time { IfOk result (λ place. unless_null place (time_at mem.new place)
        ≡ option_map (λ (time : TimeSpec). Ok time) asked.time) }
{
    put_set(blockable(asked.set), mem)?;
    match asked.time {
        None => Ok(0),
        Some(time) => push_time(time, mem),
    }
}

/// A set without KILL and STOP.
fn blockable(set: [u32; 4]) -> [u32; 4]
    ensures value { result ≡ sets.blockable set }
    ensures words { IsSet result }
{
    [set[0] & !UNBLOCKABLE, set[1], set[2], set[3]]
}

/// Puts a time behind a set, and gives its place.
fn push_time(time: TimeSpec, mem: &mut HostMem) -> Result<u64, NoMemory>
    requires { length mem.old ≡ 16 }
    ensures before { OnOk result (bytes_at mem.new 65536 16 ≡ Some mem.old) }
    ensures time { IfOk result (λ place. unless_null place (time_at mem.new place) ≡ Some (Ok time)) }
{
    let native = native_time(time.seconds, time.nanoseconds);
    let place = mem.push(&native)?;
    Ok(place)
}

/// The bytes of a time in host memory.
fn native_time(seconds: i64, nanoseconds: i64) -> [u8; TIME_SIZE]
    ensures time { time_in result ≡ record { seconds = seconds; nanoseconds = nanoseconds } }
    ensures sized { length result ≡ 16 }
{
    a_record_reads_back();
    let mut bytes = [0; TIME_SIZE];
    let values = [i128::from(seconds), i128::from(nanoseconds)];
    put_record(
        native_layout(NativeStructure::Timespec),
        &values,
        &mut bytes,
    );
    bytes
}
