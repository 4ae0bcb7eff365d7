//! Numbers of four bytes, the first of which counts most.
ghost use Rattle.std.specs.Prelude.{◌≡◌, ◌+◌, ◌++◌, ◌≤◌, drop, length, true};
ghost use Rattle.byteorder.specs.Endian.{big_bytes};
ghost use Rattle.layouts.specs.Number.{unsigned, value_of};

use bridge_signal_state::word_at;
use byteorder::{BigEndian, ByteOrder};

/// The number at a place in a structure, which may be below 0.
pub(crate) fn signed_word_at(bytes: &[u8], place: usize) -> i32
    requires { place + 4 ≤ length bytes.now }
    ensures { result ≡ value_of true 4 (unsigned true 4 (drop place bytes.now)) }
{
    signed(word_at(bytes, place))
}

/// What 32 bits are as a number that may be below 0.
fn signed(word: u32) -> i32
    ensures { result ≡ value_of true 4 word }
{
    word.cast_signed()
}

/// The bytes of two numbers.
pub(crate) fn two_words(first: u32, second: u32) -> [u8; 8]
    ensures { result ≡ big_bytes 4 first ++ big_bytes 4 second }
{
    let mut bytes = [0; 8];
    BigEndian::write_u32(&mut bytes, first);
    BigEndian::write_u32(&mut bytes[4..], second);
    bytes
}
