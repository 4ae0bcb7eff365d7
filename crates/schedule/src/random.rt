//! The bytes that stand for chance.

use std::marker::Model;

/// A list of bytes, which contracts see as that list.
#[derive(Debug, Drop)]
pub struct RandomBytes {
    bytes: Vec<u8>,
}

impl Model for RandomBytes {
    ghost use Rattle.std.specs.Prelude.{List, ℕ};

    ghost Value = { List ℕ };

    ghost view = { λ random. random.bytes.items };
}

impl RandomBytes {
    ghost use Rattle.std.specs.Prelude.{◌≡◌};

    /// The bytes of a list. Takes no memory.
    pub fn from_vec(bytes: Vec<u8>) -> RandomBytes
        ensures { result ≡ bytes.items }
    {
        RandomBytes { bytes }
    }

    /// The list of the bytes. Takes no memory.
    pub fn into_vec(self) -> Vec<u8>
        ensures { result.items ≡ self }
    {
        self.bytes
    }

    /// The bytes, in their order.
    pub fn as_slice(&self) -> &[u8]
        ensures { result.now ≡ self.now }
    {
        self.bytes.as_slice()
    }
}
