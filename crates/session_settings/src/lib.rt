//! What the lines of a script before a session say of it: what it is given, and what it has to leave. It knows no session.
#![tactic(auto)]

mod given;
pub mod refusals;
mod setting;
mod words;

pub use given::{Failing, Given, Left};
pub use setting::Setting;
