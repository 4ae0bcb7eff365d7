//! Settings of the timer that the native kernel is given: a period and then a value, each seconds and microseconds
//! of 64 bits (struct itimerval of setitimer(2)).
ghost use Rattle.std.specs.Prelude.{◌≡◌, [], Ok, Some, IfOk, pos, length};
ghost use Rattle.native_calls.specs.Clocks as native;
ghost use Rattle.native_calls.specs.HostBytes.{unless_null};
ghost use Rattle.o32_model.specs.Sleeps as o32;

use crate::shown::PROGRAM_SIZE;
use bridge_log::{load_structure, signed_word_at};
use guest_space::Space;
use host_mem::HostMem;
use kernel_core::NoMemory;
use layouts::{NativeStructure, a_record_reads_back, native_layout, put_record};

/// How many bytes a setting has in host memory.
const NATIVE_SIZE: usize = 32;

/// An address below all of host memory.
const NOWHERE: u64 = 1;

/// Makes host memory of a setting in the program's memory, and gives its place there: 0 where the pointer is null,
/// and a place where no byte is if the program's can't be loaded.
pub(crate) fn take_setting(space: &Space, address: u32, mem: &mut HostMem) -> Result<u64, NoMemory>
    ensures { IfOk result (λ place. unless_null place (native.setting_at mem.new place) ≡ o32.setting_at space.now address) }
{
    mem.clear();
    if address == 0 {
        return Ok(0);
    }
    let mut bytes = [0; PROGRAM_SIZE];
    if load_structure(space, address, &mut bytes).is_err() {
        return Ok(NOWHERE);
    }
    push_read(&bytes, mem)
}

/// Makes host memory of the setting to go off once after so many seconds, and gives its place there.
pub(crate) fn once_after(seconds: u32, mem: &mut HostMem) -> Result<u64, NoMemory>
    ensures { IfOk result (λ place. unless_null place (native.setting_at mem.new place) ≡ Some (Ok (record {
      value = record { seconds = pos seconds; microseconds = pos 0 };
      period = record { seconds = pos 0; microseconds = pos 0 };
    }))) }
{
    mem.clear();
    push_setting(0, 0, i64::from(seconds), 0, mem)
}

fn push_read(bytes: &[u8], mem: &mut HostMem) -> Result<u64, NoMemory>
    requires empty { mem.old ≡ [] }
    requires whole { length bytes.now ≡ 16 }
    ensures { IfOk result (λ place. unless_null place (native.setting_at mem.new place) ≡ Some (Ok (o32.setting_in bytes.now))) }
{
    let period_seconds = signed_word_at(bytes, 0);
    let period_part = signed_word_at(bytes, 4);
    let value_seconds = signed_word_at(bytes, 8);
    let value_part = signed_word_at(bytes, 12);
    push_setting(period_seconds, period_part, value_seconds, value_part, mem)
}

/// Puts a setting, of which each part is microseconds, into empty host memory, and gives its place there.
fn push_setting(
    period_seconds: i64,
    period_part: i64,
    value_seconds: i64,
    value_part: i64,
    mem: &mut HostMem,
) -> Result<u64, NoMemory>
    requires { mem.old ≡ [] }
    ensures { IfOk result (λ place. unless_null place (native.setting_at mem.new place) ≡ Some (Ok (record {
      value = record { seconds = value_seconds; microseconds = value_part };
      period = record { seconds = period_seconds; microseconds = period_part };
    }))) }
{
    let native = native_setting(period_seconds, period_part, value_seconds, value_part);
    let place = mem.push(&native)?;
    Ok(place)
}

/// The bytes of a setting in host memory.
fn native_setting(
    period_seconds: i64,
    period_part: i64,
    value_seconds: i64,
    value_part: i64,
) -> [u8; NATIVE_SIZE]
    ensures setting { native.setting_in result ≡ record {
      value = record { seconds = value_seconds; microseconds = value_part };
      period = record { seconds = period_seconds; microseconds = period_part };
    } }
    ensures sized { length result ≡ 32 }
{
    a_record_reads_back();
    let mut bytes = [0; NATIVE_SIZE];
    let values = [
        i128::from(period_seconds),
        i128::from(period_part),
        i128::from(value_seconds),
        i128::from(value_part),
    ];
    put_record(
        native_layout(NativeStructure::Itimerval),
        &values,
        &mut bytes,
    );
    bytes
}
