//! What is to be loaded.
use kernel_core::{Bytes, Items};

/// A part of the guest's memory that the file asks for.
#[derive(Drop)]
pub struct Segment {
    /// The address of its first byte.
    pub vaddr: u32,
    /// How many bytes it has in memory.
    pub memsz: u32,
    /// Its protection: read (1), write (2) and execute (4), as `mmap` of the o32 convention has them.
    pub prot: u8,
    /// The bytes at its beginning, from the file. The others are zero.
    pub bytes: Bytes,
}

/// What is to be loaded, and where the program begins.
#[derive(Drop)]
pub struct Plan {
    /// The address of the first instruction.
    pub entry: u32,
    /// The address of the program header table in memory: by the first load header whose bytes in
    /// the file hold the whole table, else 0.
    pub phdr: u32,
    /// How many program headers the table has.
    pub phnum: u32,
    /// The segments, in the table's order.
    pub segments: Items<Segment>,
}
