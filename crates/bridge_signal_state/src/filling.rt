//! Structures that a native call is handed, in host memory (Linux `include/uapi/asm-generic/signal.h`).
ghost use Rattle.std.specs.Prelude.{◌≡◌, [], OnOk, false, length};
ghost use Rattle.std.specs.List.{flat_map};
ghost use Rattle.layouts.specs.Number.{bytes_of};
ghost use Rattle.bridge_signal_state.specs.inside.Shown.{taking_room};
ghost use Rattle.native_calls.specs.SignalBytes.{set_bytes, stack_bytes};

use crate::numbers::{SET_SIZE, STACK_SIZE};
use crate::places::only;
use byteorder::{ByteOrder, LittleEndian};
use host_mem::HostMem;
use kernel_core::{NoMemory, Sig};
use kernel_model::SigStack;
use layouts::{NativeStructure, native_layout, put_record};
use signal_sets::to_native;

/// How many zeros stand behind the set of [`put_taking`]: what is known of a signal has 128 bytes, and a
/// time 16.
const TAKING_ZEROS: u32 = 144;

/// Makes host memory of a set of signals: two numbers of 8 bytes.
pub fn put_set(set: [u32; 4], mem: &mut HostMem) -> Result<(), NoMemory>
    ensures { OnOk result (mem.new ≡ set_bytes set) }
{
    mem.clear();
    mem.push(&set_bytes(set))?;
    Ok(())
}

/// Makes host memory of the set of one signal, of room for what is known of a signal, and of a time of 0.
pub(crate) fn put_taking(sig: Sig, mem: &mut HostMem) -> Result<(), NoMemory>
    ensures { OnOk result (mem.new ≡ taking_room sig) }
{
    put_set(only(sig), mem)?;
    mem.push_zeros(TAKING_ZEROS)?;
    Ok(())
}

/// Makes host memory of an alternate stack.
pub(crate) fn put_stack(stack: SigStack, mem: &mut HostMem) -> Result<(), NoMemory>
    ensures { OnOk result (mem.new ≡ stack_bytes stack) }
{
    mem.clear();
    mem.push(&stack_bytes(stack))?;
    Ok(())
}

/// The bytes of a set: two numbers of 8 bytes.
fn set_bytes(set: [u32; 4]) -> [u8; SET_SIZE]
    ensures { result ≡ set_bytes set }
{
    let mut bytes = [0; SET_SIZE];
    write_words(to_native(set), &mut bytes);
    bytes
}

fn write_words(words: [u64; 2], bytes: &mut [u8])
    requires { length bytes.old ≡ 16 }
    ensures { bytes.new ≡ flat_map (bytes_of false 8) words }
{
    LittleEndian::write_u64(bytes, words[0]);
    LittleEndian::write_u64(&mut bytes[8..], words[1]);
}

/// The structure of an alternate stack.
fn stack_bytes(stack: SigStack) -> [u8; STACK_SIZE]
    ensures { result ≡ stack_bytes stack }
{
    let values = [
        i128::from(stack.sp),
        i128::from(stack.size),
        i128::from(stack.flags),
    ];
    let mut bytes = [0; STACK_SIZE];
    put_record(native_layout(NativeStructure::Stack), &values, &mut bytes);
    bytes
}
