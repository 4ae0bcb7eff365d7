//! Signals in host memory: sets, actions, the alternate stack, and what is known of a signal (sigaction(2)).
ghost use Rattle.std.specs.Prelude.{◌≡◌, ◌+◌, ◌≤◌, [], ◌∷◌, drop, false, length, map, pos, true};
ghost use Rattle.std.specs.List.{flat_map};
ghost use Rattle.layouts.specs.Number.{bytes_of, unsigned, value_of};
ghost use Rattle.native_calls.specs.HostBytes.{read_as};
ghost use Rattle.native_calls.specs.SignalBytes.{action_at, action_bytes, action_in, info_bytes, named_by, sent_at, sent_in, set_at, set_bytes, set_in, stack_at, stack_bytes, stack_in};
ghost use Rattle.native_kernel.specs.inside.Signals.{listed, sent_told};
ghost use Rattle.number_tables.specs.Codes.{native_code};
ghost use Rattle.number_tables.specs.SaNumbers.{native_sa};
ghost use Rattle.number_tables.specs.Signals.{native_signal};
ghost use Rattle.signal_sets.specs.NativeSets.{native_of};

use crate::arguments::low_word;
use crate::structures::{double_at, put, word_at};
use byteorder::{ByteOrder, LittleEndian};
use host_mem::HostMem;
use kernel_core::{Errno, Info, Sig};
use kernel_model::{Action, SigStack};
use layouts::NativeStructure;
use number_tables::{NativeNumber, native_code, o32_code, sa_flags_in_native};
use signal_sets::{of_native, to_native};

/// The size of a set, in bytes.
pub(crate) const SET_SIZE: u64 = 16;

const SET_BYTES: usize = 16;

const ACTION_SIZE: usize = 32;

const STACK_SIZE: usize = 24;

const INFO_SIZE: usize = 128;

/// What rt_sigqueueinfo(2) keeps of its structure.
#[derive(Clone, Copy)]
pub(crate) struct SentInfo {
    /// Why the signal was sent, by its number for an o32 program.
    pub(crate) code: i32,
    pub(crate) errno: i32,
    pub(crate) pid: u32,
    pub(crate) uid: u32,
    pub(crate) value: u32,
}

/// What a number of a signal names: none for 0, and EINVAL for one that is not listed.
pub(crate) fn signal_named(number: u32) -> Result<Option<Sig>, Errno>
    ensures { result ≡ listed (named_by number) }
{
    if number == 0 {
        return Ok(None);
    }
    match Sig::of_native(u64::from(number)) {
        None => Err(Errno::EINVAL),
        Some(sig) => Ok(Some(sig)),
    }
}

/// The set in memory, or EFAULT where it is not there.
#[tactic(auto, using(crate::proofs::Read::length_read))]
pub(crate) fn set_at(mem: &HostMem, address: u64) -> Result<[u32; 4], Errno>
    ensures { result ≡ set_at mem.now address }
{
    match mem.read(address, SET_SIZE) {
        None => Err(Errno::EFAULT),
        Some(bytes) => Ok(set_in(bytes)),
    }
}

fn set_in(bytes: &[u8]) -> [u32; 4]
    requires { length bytes.now ≡ 16 }
    ensures { result ≡ set_in bytes.now }
{
    of_native([double_at(bytes, 0), double_at(bytes, 8)])
}

/// The bytes of a set.
pub(crate) fn set_bytes(set: [u32; 4]) -> [u8; SET_BYTES]
    ensures { result ≡ set_bytes set }
{
    let mut bytes = [0; SET_BYTES];
    write_words(to_native(set), &mut bytes);
    bytes
}

/// Writes the two numbers of a set.
fn write_words(words: [u64; 2], bytes: &mut [u8])
    requires { length bytes.old ≡ 16 }
    ensures { bytes.new ≡ flat_map (bytes_of false 8) words }
{
    LittleEndian::write_u64(bytes, words[0]);
    LittleEndian::write_u64(&mut bytes[8..], words[1]);
}

/// The action in memory, or EFAULT where it is not there.
#[tactic(auto, using(crate::proofs::Read::length_read))]
pub(crate) fn action_at(mem: &HostMem, address: u64) -> Result<Action, Errno>
    ensures { result ≡ action_at mem.now address }
{
    match mem.read(address, ACTION_SIZE as u64) {
        None => Err(Errno::EFAULT),
        Some(bytes) => Ok(action_in(bytes)),
    }
}

fn action_in(bytes: &[u8]) -> Action
    requires { length bytes.now ≡ 32 }
    ensures { result ≡ action_in bytes.now }
{
    Action {
        handler: double_at(bytes, 0),
        flags: sa_flags_in_native(double_at(bytes, 8)),
        mask: of_native([double_at(bytes, 16), double_at(bytes, 24)]),
    }
}

/// The structure of an action.
pub(crate) fn action_bytes(action: Action) -> [u8; ACTION_SIZE]
    ensures { result ≡ action_bytes action }
{
    let values = action_values(action);
    let mut bytes = [0; ACTION_SIZE];
    put(NativeStructure::Sigaction, &values, &mut bytes);
    bytes
}

/// The fields of that structure.
fn action_values(action: Action) -> [i128; 4]
    ensures { result ≡ map pos (native_sa action.flags ∷ action.handler ∷ native_of action.mask) }
{
    let mask = to_native(action.mask);
    [
        i128::from(action.flags.to_native()),
        i128::from(action.handler),
        i128::from(mask[0]),
        i128::from(mask[1]),
    ]
}

/// The alternate stack in memory, or EFAULT where it is not there.
#[tactic(auto, using(crate::proofs::Read::length_read))]
pub(crate) fn stack_at(mem: &HostMem, address: u64) -> Result<SigStack, Errno>
    ensures { result ≡ stack_at mem.now address }
{
    match mem.read(address, STACK_SIZE as u64) {
        None => Err(Errno::EFAULT),
        Some(bytes) => Ok(stack_in(bytes)),
    }
}

fn stack_in(bytes: &[u8]) -> SigStack
    requires { length bytes.now ≡ 24 }
    ensures { result ≡ stack_in bytes.now }
{
    SigStack {
        sp: double_at(bytes, 0),
        size: double_at(bytes, 16),
        flags: word_at(bytes, 8),
    }
}

/// The structure of an alternate stack.
pub(crate) fn stack_bytes(stack: SigStack) -> [u8; STACK_SIZE]
    ensures { result ≡ stack_bytes stack }
{
    let values = [
        i128::from(stack.sp),
        i128::from(stack.size),
        i128::from(stack.flags),
    ];
    let mut bytes = [0; STACK_SIZE];
    put(NativeStructure::Stack, &values, &mut bytes);
    bytes
}

/// What a structure in memory says of a signal that is sent, or EFAULT where it is not there.
#[tactic(auto, using(crate::proofs::Read::length_read))]
pub(crate) fn sent_at(mem: &HostMem, address: u64) -> Result<SentInfo, Errno>
    ensures { read_as sent_told result ≡ sent_at mem.now address }
{
    match mem.read(address, INFO_SIZE as u64) {
        None => Err(Errno::EFAULT),
        Some(bytes) => Ok(sent_in(bytes)),
    }
}

fn sent_in(bytes: &[u8]) -> SentInfo
    requires { length bytes.now ≡ 128 }
    ensures { sent_told result ≡ sent_in bytes.now }
{
    SentInfo {
        code: o32_code(signed_word_at(bytes, 8)),
        errno: signed_word_at(bytes, 4),
        pid: word_at(bytes, 16),
        uid: word_at(bytes, 20),
        value: low_word(double_at(bytes, 24)),
    }
}

/// The number of four bytes at a place in a structure, which may be below 0.
fn signed_word_at(bytes: &[u8], place: usize) -> i32
    requires { place + 4 ≤ length bytes.now }
    ensures { result ≡ value_of true 4 (unsigned false 4 (drop place bytes.now)) }
{
    word_at(bytes, place).cast_signed()
}

/// The structure of what is known of a signal.
pub(crate) fn info_bytes(info: Info) -> [u8; INFO_SIZE]
    ensures { result ≡ info_bytes info }
{
    let values = info_values(info);
    let mut bytes = [0; INFO_SIZE];
    put(NativeStructure::Siginfo, &values, &mut bytes);
    bytes
}

/// The fields of that structure.
fn info_values(info: Info) -> [i128; 6]
    ensures { result ≡ pos (native_signal info.sig) ∷ native_code info.code ∷ info.errno ∷ pos info.pid ∷ pos info.uid ∷ pos info.value ∷ [] }
{
    [
        i128::from(info.sig.to_native()),
        i128::from(native_code(info.code)),
        i128::from(info.errno),
        i128::from(info.pid),
        i128::from(info.uid),
        i128::from(info.value),
    ]
}
