//! Structures in the program's memory: whole or not at all.
ghost use Rattle.std.specs.Prelude.{◌≡◌, ◌+◌, ◌≤◌, drop, length, true, IfOk, OnOk, OnErr};
ghost use Rattle.layouts.specs.Number.{unsigned, value_of};
ghost use Rattle.o32_model.specs.GuestBytes.{structure, read_as, is_storable, with_stored};

use byteorder::{BigEndian, ByteOrder};
use guest_space::{Space, StoreError};
use kernel_core::{Errno, NoMemory};

/// Reads the bytes of a structure from `address` on into `bytes`: all of them, or none where one of them
/// may not be loaded, which is EFAULT. It takes no memory.
pub fn load_structure(space: &Space, address: u32, bytes: &mut [u8]) -> Result<(), Errno>
    ensures answer { read_as (λ _. bytes.new) result ≡ structure space.now address (length bytes.old) }
    ensures err { OnErr result (bytes.new ≡ bytes.old) }
{
    match space.copy_in(address, bytes) {
        Ok(()) => Ok(()),
        Err(_) => Err(Errno::EFAULT),
    }
}

/// Writes the bytes of a structure from `address` on and answers true, or changes nothing and answers
/// false where one of them may not be stored to.
pub fn store_structure(space: &mut Space, address: u32, bytes: &[u8]) -> Result<bool, NoMemory>
    ensures answer { IfOk result (λ stored. stored ≡ is_storable space.old address (length bytes.now)) }
    ensures stored { OnOk result (space.new ≡ with_stored space.old address bytes.now) }
{
    match space.copy_out(address, bytes) {
        Ok(()) => Ok(true),
        Err(StoreError::Denied(_)) => Ok(false),
        Err(StoreError::NoMemory) => Err(NoMemory),
    }
}

/// The word at a place in a structure of the program, the first byte counting most.
pub fn word_at(bytes: &[u8], place: usize) -> u32
    requires { place + 4 ≤ length bytes.now }
    ensures { result ≡ unsigned true 4 (drop place bytes.now) }
{
    BigEndian::read_u32(&bytes[place..])
}

/// The same as a number that may be below 0.
pub fn signed_word_at(bytes: &[u8], place: usize) -> i64
    requires { place + 4 ≤ length bytes.now }
    ensures { result ≡ value_of true 4 (unsigned true 4 (drop place bytes.now)) }
{
    signed(word_at(bytes, place))
}

/// What 32 bits are as a number that may be below 0.
fn signed(word: u32) -> i64
    ensures { result ≡ value_of true 4 word }
{
    if word < 0x8000_0000 {
        i64::from(word)
    } else {
        i64::from(word) - 0x1_0000_0000
    }
}
