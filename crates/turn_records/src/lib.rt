//! What the journal keeps of a turn: records of what was done to the machine from outside its instructions.
#![tactic(auto)]

mod events;
mod registers;
mod setting;
mod turn_records;
pub mod unchanged;

pub use registers::Registers;
pub use turn_records::TurnRecords;

#[cfg(test)]
mod tests;
