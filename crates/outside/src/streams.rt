// Bytes that are left to take.
ghost use Rattle.std.specs.Prelude.{◌≡◌, List, ℕ, length, take, drop, min};

use std::marker::Model;

/// Bytes, and how many of them are gone.
#[derive(Drop)]
pub struct BytesLeft {
    bytes: Vec<u8>,
    gone: usize,
}

impl Model for BytesLeft {
    ghost use Rattle.std.specs.Prelude.{List, ℕ, ◌≤◌, drop, vec_len};

    ghost Value = { List ℕ };

    ghost view = { λ b. drop b.gone b.bytes.items };

    ghost invariant = { λ b. b.gone ≤ vec_len b.bytes };
}

impl BytesLeft {
    /// All of these are left.
    pub fn new(bytes: Vec<u8>) -> Self
        ensures { result ≡ bytes.items }
    {
        BytesLeft { bytes, gone: 0 }
    }

    /// The bytes left.
    pub fn as_slice(&self) -> &[u8]
        ensures { result.now ≡ self.now }
    {
        &self.bytes.as_slice()[self.gone..]
    }

    /// Moves as many bytes to the front of the buffer as there is room for, and answers how many.
    pub fn move_out(&mut self, buf: &mut [u8]) -> usize
        ensures count { result ≡ min (length buf.new) (length self.old) }
        ensures bytes { take result buf.new ≡ take result self.old }
        ensures rest { drop result buf.new ≡ drop result buf.old }
        ensures left { self.new ≡ drop result self.old }
    {
        let count = copy_front(self.as_slice(), buf);
        self.gone += count;
        count
    }
}

// Copies as many bytes as both have.
fn copy_front(from: &[u8], to: &mut [u8]) -> usize
    ensures count { result ≡ min (length to.new) (length from.now) }
    ensures bytes { take result to.new ≡ take result from.now }
    ensures rest { drop result to.new ≡ drop result to.old }
{
    let count = to.len().min(from.len());
    to[..count].copy_from_slice(&from[..count]);
    count
}
