//! Executables: a big-endian MIPS ELF-32 file becomes a load plan, or is refused by the first rule
//! that it breaks.
#![tactic(auto)]

mod fields;
mod load_plan;
mod loading;
mod parsing;
mod program_header;
mod refusal;
mod rules;
mod table;
mod taken;

pub use load_plan::{Plan, Segment};
pub use parsing::parse;
pub use program_header::ProgramHeader;
pub use refusal::{ElfError, ElfRefusal};
