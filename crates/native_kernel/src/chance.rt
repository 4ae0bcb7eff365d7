//! The bytes that stand for chance.
ghost use Rattle.std.specs.Prelude.{◌≡◌, ◌%◌, ◌<◌, IfOk, length};
ghost use Rattle.kernel_model.specs.System.{after_chance, round};

use kernel_core::NoMemory;
use std::alloc::Global;
use std::marker::Model;

/// The bytes that stand for chance, used round and round, and the place of the next one. Contracts see it as
/// `Chance` of `kernel_model`. (That they are given, and so can be given again, is this project's own.)
#[derive(Drop)]
pub(crate) struct Chance {
    bytes: Vec<u8>,
    next: usize,
}

impl Model for Chance {
    ghost use Rattle.std.specs.Prelude.{◌<◌, vec_len};
    ghost use Rattle.kernel_model.specs.State.{Chance as Bytes};

    ghost Value = { Bytes };

    ghost view = { λ c. record { bytes = c.bytes.items; at = c.next } };

    ghost invariant = { λ c. c.next < vec_len c.bytes };
}

impl Chance {
    /// These bytes, at least 1, of which so many are taken already. It takes its memory from `alloc`.
    pub(crate) fn new(alloc: Global, bytes: &[u8], taken: usize) -> Result<Chance, NoMemory>
        requires { 0 < length bytes.now }
        ensures { IfOk result (λ chance. chance ≡ record { bytes = bytes.now; at = taken % length bytes.now }) }
    {
        Ok(Chance {
            bytes: bytes.to_vec(alloc)?,
            next: taken % bytes.len(),
        })
    }

    /// Fills a buffer with the next bytes. It takes no memory.
    pub(crate) fn fill(&mut self, buffer: &mut [u8])
        ensures bytes { buffer.new ≡ round self.old.bytes self.old.at (length buffer.old) }
        ensures goes_on { self.new ≡ after_chance self.old (length buffer.old) }
    {
        fill_round(self.bytes.as_slice(), self.next, buffer);
        self.next = (self.next + buffer.len()) % self.bytes.len();
    }
}

/// Fills a buffer with the bytes of a list from a place on, round and round.
fn fill_round(bytes: &[u8], at: usize, buffer: &mut [u8])
    requires { at < length bytes.now }
    ensures { buffer.new ≡ round bytes.now at (length buffer.old) }
{
    for (i, byte) in buffer.iter_mut().enumerate() {
        *byte = bytes[(at + i) % bytes.len()];
    }
}
