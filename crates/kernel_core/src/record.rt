//! What was done to the machine from outside its instructions, as the journal keeps it.

use crate::byte_list::Bytes;
use crate::finish::Finish;
use crate::items::Items;

/// One change of the machine, or one output. (The form is this project's own.)
#[derive(Drop)]
pub enum Effect {
    /// A register is set: 1 to 31 by its number, 32 HI, 33 LO, 34 the pc, 35 the thread pointer.
    Register { r: u8, value: u32 },
    /// Bytes are written from an address on.
    Write { address: u32, bytes: Bytes },
    /// Pages of zeros are mapped: the first, how many, and their protection (mmap(2)), at most 7.
    Map { first: u32, count: u32, prot: u8 },
    /// Pages are unmapped: the first, and how many.
    Unmap { first: u32, count: u32 },
    /// Pages are protected: the first, how many, and their protection, at most 7.
    Protect { first: u32, count: u32, prot: u8 },
    /// Bytes go out on stream 1 or 2.
    Output { stream: u8, bytes: Bytes },
}

/// What the journal keeps of a turn. (The journal is this project's own.)
#[derive(Drop)]
pub struct Record {
    /// The turn, counted from 1; for an end the turns that are done.
    pub turn: u64,
    /// 1 before an instruction, 2 a call, 3 a turn without an instruction, 4 the end.
    pub kind: u8,
    /// pc, $v0, and $a0 to $a3, for kind 2 as they stand before the call; zeros for an end.
    pub words: [u32; 6],
    /// What was done, in order.
    pub effects: Items<Effect>,
    /// How the run is over: Some exactly for kind 4.
    pub finish: Option<Finish>,
}
