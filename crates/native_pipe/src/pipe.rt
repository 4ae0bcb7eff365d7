//! The ring of a pipe's bytes.
ghost use Rattle.std.specs.Prelude.{◌≡◌, ◌≤◌, ◌++◌, [], length, take, drop, min, nat_eq, IfOk};
ghost use Rattle.native_pipe.specs.Bytes.{pipe_size, room};

use circular_buffer::HeapCircularBuffer;
use kernel_core::NoMemory;
use std::alloc::Global;
use std::marker::Model;

/// The most bytes that a pipe holds (pipe(7), as since Linux 2.6.11).
pub const PIPE_SIZE: usize = 65_536;

/// The bytes of a pipe in the order in which they were written, at most 65,536. Contracts see the list of
/// them. Which of its ends are open is no part of it (pipe(7)).
#[derive(Drop)]
pub struct Pipe {
    bytes: HeapCircularBuffer<u8>,
}

impl Model for Pipe {
    ghost use Rattle.std.specs.Prelude.{◌≡◌, ◌≤◌, ℕ, List, length};

    ghost Value = { List ℕ };

    ghost view = { λ p. p.bytes.items };

    ghost invariant = { λ p. (p.bytes.capacity ≡ 65536) × (length p.bytes.items ≤ 65536) };
}

impl Pipe {
    /// A pipe without a byte, with the room for all that it may hold.
    pub fn new(alloc: Global) -> Result<Pipe, NoMemory>
        ensures empty { IfOk result (λ pipe. pipe ≡ []) }
    {
        let bytes = HeapCircularBuffer::with_capacity(alloc, PIPE_SIZE)?;
        Ok(Pipe { bytes })
    }

    /// How many bytes it holds. It takes no memory.
    pub fn len(&self) -> usize
        ensures count { result ≡ length self.now }
        ensures small { result ≤ pipe_size }
    {
        self.bytes.len()
    }

    /// Whether it holds no byte. It takes no memory.
    pub fn is_empty(&self) -> bool
        ensures { result ≡ nat_eq (length self.now) 0 }
    {
        self.len() == 0
    }

    /// Puts as many of the first of these bytes as there is room for behind those that it holds, and
    /// answers how many those were. It takes no memory.
    pub fn put(&mut self, bytes: &[u8]) -> usize
        ensures count { result ≡ min (length bytes.now) (room self.old) }
        ensures put { self.new ≡ self.old ++ take result bytes.now }
        ensures small { length self.new ≤ pipe_size }
    {
        self.bytes.fill_from_slice(bytes)
    }

    /// Takes the first bytes out into the beginning of `buf`, as many as it holds and as there is room for
    /// there, and answers how many those were. The rest of `buf` stays as it was. It takes no memory.
    pub fn take(&mut self, buf: &mut [u8]) -> usize
        ensures count { result ≡ min (length buf.old) (length self.old) }
        ensures taken { buf.new ≡ take result self.old ++ drop result buf.old }
        ensures left { self.new ≡ drop result self.old }
    {
        self.bytes.read_into(buf)
    }
}
