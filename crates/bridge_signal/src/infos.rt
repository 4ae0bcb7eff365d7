//! What a program says of a signal that it sends (siginfo_t of Linux `arch/mips/include/uapi/asm/siginfo.h`).
ghost use Rattle.std.specs.Prelude.{◌≡◌, ◌+◌, ◌≤◌, ◌∷◌, [], Ok, IfOk, drop, length, pos, true};
ghost use Rattle.bridge_signal.specs.inside.Sent.{sent_told};
ghost use Rattle.layouts.specs.Number.{unsigned, value_of};
ghost use Rattle.layouts.specs.O32.{siginfo};
ghost use Rattle.native_calls.specs.SignalBytes as native;
ghost use Rattle.number_tables.specs.Codes.{native_code, o32_code};
ghost use Rattle.o32_model.specs.GuestBytes.{read_as, structure};
ghost use Rattle.o32_model.specs.Sending.{sent_in};

use bridge_signal_state::{load_structure, word_at};
use guest_space::Space;
use host_mem::HostMem;
use kernel_core::NoMemory;
use layouts::{NativeStructure, a_record_reads_back, native_layout, put_record};
use number_tables::native_code;

/// How many bytes a siginfo has, in both worlds.
const INFO_SIZE: usize = 128;

/// What is kept of a siginfo. Its own number is not looked at.
#[derive(Clone, Copy)]
pub(crate) struct SentInfo {
    /// Why the signal is sent, by its number for an o32 program.
    pub(crate) code: i32,
    pub(crate) errno: i32,
    pub(crate) pid: u32,
    pub(crate) uid: u32,
    pub(crate) value: u32,
}

/// Makes host memory of a siginfo in the program's memory, and gives its place there, where no byte is if the
/// program's can't be loaded.
pub(crate) fn take_info(space: &Space, address: u32, mem: &mut HostMem) -> Result<u64, NoMemory>
    ensures { IfOk result (λ place. native.sent_at mem.new place ≡ read_as sent_in (structure space.now address siginfo.size)) }
{
    mem.clear();
    let mut bytes = [0; INFO_SIZE];
    if load_structure(space, address, &mut bytes).is_err() {
        return Ok(0);
    }
    push_info(sent_in(&bytes), mem)
}

/// What some bytes say of a signal.
fn sent_in(bytes: &[u8]) -> SentInfo
    requires { length bytes.now ≡ 128 }
    ensures { sent_told result ≡ sent_in bytes.now }
{
    SentInfo {
        code: signed_word_at(bytes, 4),
        errno: signed_word_at(bytes, 8),
        pid: word_at(bytes, 12),
        uid: word_at(bytes, 16),
        value: word_at(bytes, 20),
    }
}

/// A number of four bytes, the first counting most, that may be below 0.
fn signed_word_at(bytes: &[u8], place: usize) -> i32
    requires { place + 4 ≤ length bytes.now }
    ensures { result ≡ value_of true 4 (unsigned true 4 (drop place bytes.now)) }
{
    word_at(bytes, place).cast_signed()
}

/// Puts a siginfo into empty host memory, and gives its place there.
fn push_info(info: SentInfo, mem: &mut HostMem) -> Result<u64, NoMemory>
    requires { mem.old ≡ [] }
    ensures { IfOk result (λ place. native.sent_at mem.new place ≡ Ok (sent_told info)) }
{
    let bytes = native_info(info);
    let place = mem.push(&bytes)?;
    Ok(place)
}

/// The bytes of a siginfo in host memory.
fn native_info(info: SentInfo) -> [u8; INFO_SIZE]
    ensures sent { native.sent_in result ≡ sent_told info }
    ensures sized { length result ≡ 128 }
{
    a_record_reads_back();
    let values = native_values(info);
    let mut bytes = [0; INFO_SIZE];
    put_record(native_layout(NativeStructure::Siginfo), &values, &mut bytes);
    bytes
}

/// Its fields there: number, code, errno, pid, uid, value.
fn native_values(info: SentInfo) -> [i128; 6]
    ensures fields { result ≡ pos 0 ∷ native_code info.code ∷ info.errno ∷ pos info.pid ∷ pos info.uid ∷ pos info.value ∷ [] }
    ensures back { o32_code (native_code info.code) ≡ info.code }
{
    [
        0,
        i128::from(native_code(info.code)),
        i128::from(info.errno),
        i128::from(info.pid),
        i128::from(info.uid),
        i128::from(info.value),
    ]
}
