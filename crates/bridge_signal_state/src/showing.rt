//! Structures that a native call has put into host memory (Linux `include/uapi/asm-generic/signal.h` and
//! `siginfo.h`).
ghost use Rattle.std.specs.Prelude.{◌≡◌, ◌+◌, ◌≤◌, drop, false, length, true};
ghost use Rattle.bridge_signal_state.specs.inside.Shown.{action_shown, info_in, info_shown, info_with, is_fine, set_shown, stack_shown};
ghost use Rattle.layouts.specs.Native.{siginfo};
ghost use Rattle.layouts.specs.Number.{unsigned, value_of};
ghost use Rattle.layouts.specs.Shape.{record_values};
ghost use Rattle.native_calls.specs.Arguments.{low_word};
ghost use Rattle.native_calls.specs.SignalBytes.{action_in, set_in, stack_in};

use crate::numbers::{ACTION_SIZE, INFO_SIZE, SET_SIZE, STACK_SIZE};
use byteorder::{ByteOrder, LittleEndian};
use host_mem::{FIRST_ADDRESS, HostMem};
use kernel_core::{Info, Reply, Sig};
use kernel_model::{Action, SigStack};
use number_tables::{NativeNumber, o32_code, sa_flags_in_native};
use signal_sets::of_native;

/// Where [`crate::taking::take`] has what is known of a signal put.
pub(crate) const INFO_PLACE: u64 = FIRST_ADDRESS + SET_SIZE as u64;

/// The set at the beginning of host memory; none where there are too few bytes.
#[tactic(auto, using(bridge_log::proofs::Kernel::length_read))]
pub(crate) fn set_shown(mem: &HostMem) -> [u32; 4]
    ensures { result ≡ set_shown mem.now }
{
    match mem.read(FIRST_ADDRESS, SET_SIZE as u64) {
        None => [0; 4],
        Some(bytes) => set_in(bytes),
    }
}

fn set_in(bytes: &[u8]) -> [u32; 4]
    requires { length bytes.now ≡ 16 }
    ensures { result ≡ set_in bytes.now }
{
    of_native([double_at(bytes, 0), double_at(bytes, 8)])
}

/// The action at the beginning of host memory; the default one where there are too few bytes.
#[tactic(auto, using(bridge_log::proofs::Kernel::length_read))]
pub(crate) fn action_shown(mem: &HostMem) -> Action
    ensures { result ≡ action_shown mem.now }
{
    match mem.read(FIRST_ADDRESS, u64::from(ACTION_SIZE)) {
        None => Action {
            handler: 0,
            flags: sa_flags_in_native(0),
            mask: [0; 4],
        },
        Some(bytes) => action_in(bytes),
    }
}

fn action_in(bytes: &[u8]) -> Action
    requires { length bytes.now ≡ 32 }
    ensures { result ≡ action_in bytes.now }
{
    Action {
        handler: double_at(bytes, 0),
        flags: sa_flags_in_native(double_at(bytes, 8)),
        mask: of_native([double_at(bytes, 16), double_at(bytes, 24)]),
    }
}

/// The alternate stack at the beginning of host memory; a disabled one where there are too few bytes.
#[tactic(auto, using(bridge_log::proofs::Kernel::length_read))]
pub(crate) fn stack_shown(mem: &HostMem) -> SigStack
    ensures { result ≡ stack_shown mem.now }
{
    match mem.read(FIRST_ADDRESS, STACK_SIZE as u64) {
        None => SigStack {
            sp: 0,
            size: 0,
            flags: 2,
        },
        Some(bytes) => stack_in(bytes),
    }
}

fn stack_in(bytes: &[u8]) -> SigStack
    requires { length bytes.now ≡ 24 }
    ensures { result ≡ stack_in bytes.now }
{
    SigStack {
        sp: double_at(bytes, 0),
        size: double_at(bytes, 16),
        flags: word_at(bytes, 8),
    }
}

/// What is known of the signal that a call took with this reply; None after an error.
#[tactic(auto, using(bridge_log::proofs::Kernel::length_read))]
pub(crate) fn info_shown(mem: &HostMem, reply: Reply) -> Option<Info>
    ensures { result ≡ info_shown mem.now reply }
{
    if !is_fine(reply) {
        return None;
    }
    match mem.read(INFO_PLACE, INFO_SIZE) {
        None => None,
        Some(bytes) => info_in(bytes),
    }
}

fn info_in(bytes: &[u8]) -> Option<Info>
    requires { length bytes.now ≡ 128 }
    ensures { result ≡ info_in bytes.now }
{
    let number = signed_word_at(bytes, 0).unsigned_abs();
    match Sig::of_native(u64::from(number)) {
        None => None,
        Some(sig) => Some(info_with(bytes, sig)),
    }
}

fn info_with(bytes: &[u8], sig: Sig) -> Info
    requires { length bytes.now ≡ 128 }
    ensures { result ≡ info_with (record_values siginfo bytes.now) sig }
{
    Info {
        sig,
        code: o32_code(signed_word_at(bytes, 8)),
        errno: signed_word_at(bytes, 4),
        pid: word_at(bytes, 16),
        uid: word_at(bytes, 20),
        value: low_word(double_at(bytes, 24)),
        addr: 0,
    }
}

/// Whether a call with this reply was done.
pub(crate) fn is_fine(reply: Reply) -> bool
    ensures { result ≡ is_fine reply }
{
    match reply {
        Reply::Done(number) => number >= 0,
        Reply::Sleep(_) => false,
    }
}

/// The number of four bytes at a place in a structure, which may be below 0.
fn signed_word_at(bytes: &[u8], place: usize) -> i32
    requires { place + 4 ≤ length bytes.now }
    ensures { result ≡ value_of true 4 (unsigned false 4 (drop place bytes.now)) }
{
    word_at(bytes, place).cast_signed()
}

/// The number of four bytes at a place in a structure.
fn word_at(bytes: &[u8], place: usize) -> u32
    requires { place + 4 ≤ length bytes.now }
    ensures { result ≡ unsigned false 4 (drop place bytes.now) }
{
    LittleEndian::read_u32(&bytes[place..])
}

/// The number of eight bytes at a place in a structure.
fn double_at(bytes: &[u8], place: usize) -> u64
    requires { place + 8 ≤ length bytes.now }
    ensures { result ≡ unsigned false 8 (drop place bytes.now) }
{
    LittleEndian::read_u64(&bytes[place..])
}

/// The low 32 bits of a number.
fn low_word(number: u64) -> u32
    ensures { result ≡ low_word number }
{
    (number % 0x1_0000_0000) as u32
}
