//! Sets of signals, actions and alternate stacks in a program's memory (Linux `arch/mips/include/uapi/asm/signal.h`).
ghost use Rattle.std.specs.Prelude.{◌≡◌, ◌++◌, length};
ghost use Rattle.byteorder.specs.Endian.{big_bytes};
ghost use Rattle.layouts.specs.O32.{sigaction, stack};
ghost use Rattle.native_calls.specs.Arguments.{low_word};
ghost use Rattle.o32_model.specs.Actions as actions;
ghost use Rattle.o32_model.specs.GuestBytes.{read_as, structure};
ghost use Rattle.o32_model.specs.Masks as masks;

use bridge_signal_state::{load_structure, word_at};
use byteorder::{BigEndian, ByteOrder};
use guest_space::Space;
use kernel_core::Errno;
use kernel_model::{Action, SigStack};
use layouts::{O32Structure, o32_layout, put_record};
use number_tables::{O32Number, sa_flags_in_o32};

const SET_SIZE: usize = 16;

const ACTION_SIZE: usize = 24;

const STACK_SIZE: usize = 12;

/// The bytes of a set.
pub(crate) fn set_bytes(set: [u32; 4]) -> [u8; SET_SIZE]
    ensures { result ≡ masks.set_bytes set }
{
    let mut bytes = [0; SET_SIZE];
    BigEndian::write_u32(&mut bytes, set[0]);
    BigEndian::write_u32(&mut bytes[4..], set[1]);
    BigEndian::write_u32(&mut bytes[8..], set[2]);
    BigEndian::write_u32(&mut bytes[12..], set[3]);
    bytes
}

/// The action in the program's memory, or EFAULT where it can't be loaded.
pub(crate) fn action_in_program(space: &Space, address: u32) -> Result<Action, Errno>
    ensures { result ≡ read_as actions.action_in (structure space.now address sigaction.size) }
{
    let mut bytes = [0; ACTION_SIZE];
    match load_structure(space, address, &mut bytes) {
        Err(error) => Err(error),
        Ok(()) => Ok(action_in(&bytes)),
    }
}

fn action_in(bytes: &[u8]) -> Action
    requires { length bytes.now ≡ 24 }
    ensures { result ≡ actions.action_in bytes.now }
{
    Action {
        handler: u64::from(word_at(bytes, 4)),
        flags: sa_flags_in_o32(word_at(bytes, 0)),
        mask: [
            word_at(bytes, 8),
            word_at(bytes, 12),
            word_at(bytes, 16),
            word_at(bytes, 20),
        ],
    }
}

/// The bytes of an action: of its handler the low 32 bits.
pub(crate) fn action_bytes(action: Action) -> [u8; ACTION_SIZE]
    ensures { result ≡ actions.action_bytes action }
{
    let mask = set_bytes(action.mask);
    joined(action.flags.to_o32(), low_word(action.handler), &mask)
}

/// Two words, the first byte of each counting most, and the bytes of a set behind them.
fn joined(flags: u32, handler: u32, mask: &[u8]) -> [u8; ACTION_SIZE]
    requires { length mask.now ≡ 16 }
    ensures { result ≡ big_bytes 4 flags ++ big_bytes 4 handler ++ mask.now }
{
    let mut bytes = [0; ACTION_SIZE];
    BigEndian::write_u32(&mut bytes, flags);
    BigEndian::write_u32(&mut bytes[4..], handler);
    bytes[8..].copy_from_slice(mask);
    bytes
}

/// The alternate stack in the program's memory, or EFAULT where it can't be loaded.
pub(crate) fn stack_in_program(space: &Space, address: u32) -> Result<SigStack, Errno>
    ensures { result ≡ read_as actions.stack_in (structure space.now address stack.size) }
{
    let mut bytes = [0; STACK_SIZE];
    match load_structure(space, address, &mut bytes) {
        Err(error) => Err(error),
        Ok(()) => Ok(stack_in(&bytes)),
    }
}

fn stack_in(bytes: &[u8]) -> SigStack
    requires { length bytes.now ≡ 12 }
    ensures { result ≡ actions.stack_in bytes.now }
{
    SigStack {
        sp: u64::from(word_at(bytes, 0)),
        size: u64::from(word_at(bytes, 4)),
        flags: word_at(bytes, 8),
    }
}

/// The bytes of an alternate stack: of its place and its size the low 32 bits.
pub(crate) fn stack_bytes(stack: SigStack) -> [u8; STACK_SIZE]
    ensures { result ≡ actions.stack_bytes stack }
{
    let values = [
        i128::from(low_word(stack.sp)),
        i128::from(low_word(stack.size)),
        i128::from(stack.flags),
    ];
    let mut bytes = [0; STACK_SIZE];
    put_record(o32_layout(O32Structure::Stack), &values, &mut bytes);
    bytes
}

/// The low 32 bits of a number.
fn low_word(number: u64) -> u32
    ensures { result ≡ low_word number }
{
    (number % 0x1_0000_0000) as u32
}
