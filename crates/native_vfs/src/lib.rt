//! A file system in memory: nodes, directories, and the walk of a path.
#![tactic(auto)]

mod file_calls;
mod file_steps;
mod inodes;
mod loading;
mod making;
mod node_calls;
mod node_facts;
mod numbers;
mod path;
mod place;
mod refusals;
mod removing;
mod renaming;
mod saving;
mod seconds;
mod settle;
mod steps;
mod stored;
mod table;
mod vfs;
mod walk;

pub use kernel_core::NoMemory;
pub use path::ends_with_slash;
pub use place::{NodeKind, Place, Status};
pub use vfs::Vfs;
