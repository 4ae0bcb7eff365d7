//! What the bridges of calls on files share: paths from the program's memory, and paths and room in host memory.
#![tactic(auto)]

mod paths;

pub use bridge_log::{
    Below, NativeKernel, NativeWords, fresh_room, load_structure, outcome_of, store,
};
pub use paths::{put_behind, put_one, put_path, put_room, put_two, read_path};
