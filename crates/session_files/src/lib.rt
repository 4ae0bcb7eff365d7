//! What a session loads, and saves, refuses and tells, without a machine.
#![tactic(auto)]

mod end;
mod image;
mod inputs;
mod lines;
mod load;
mod not_run;
mod program;
mod refusal;
mod save;
mod settings;

pub use end::End;
pub use image::empty_tree;
pub use inputs::{Inputs, load_inputs};
pub use lines::{Divergence, diverge, end_without_run, refuse};
pub use load::{SessionFile, load_file};
pub use not_run::NotRun;
pub use program::load_plan;
pub use refusal::Refusal;
pub use save::{SaveError, save_tree};
pub use settings::{empty_schedule, stack_chance};
