//! The calls of an o32 program on its mappings and its break.
#![tactic(auto)]

mod asked;
mod call;
mod effects;
mod filling;
mod mmap;
mod mmap_file;
mod moved;
mod numbers;
mod place;
mod program_break;
mod range;
mod ranges_mapped;
mod remap;
mod shown;

pub use call::{map_call, memory_call};
