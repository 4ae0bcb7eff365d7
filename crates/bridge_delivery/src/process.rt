//! The process that a delivery changes.

use guest_space::Space;
use mips_exec::Cpu;
use o32_turns::Going;

/// What a delivery changes of a process. It is lent to whatever makes a part of the delivery, and leads to the same three
/// throughout. (The form is this project's own.)
#[derive(Drop)]
pub(crate) struct Process<'a> {
    /// What it keeps within a turn.
    pub(crate) going: &'a mut Going,
    /// Its processor.
    pub(crate) cpu: &'a mut Cpu,
    /// Its memory.
    pub(crate) space: &'a mut Space,
}
