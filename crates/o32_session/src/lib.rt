//! One run of the emulator, the replay of one, or a run of the soak program, from words and devices to an answer.
#![tactic(auto)]

mod answer;
mod prepare;
mod run;
mod save;
mod soak;
mod top_call;

pub use answer::Answer;
pub use kernel_core::Finish;
pub use session_files::{End, Refusal};
pub use top_call::session;
