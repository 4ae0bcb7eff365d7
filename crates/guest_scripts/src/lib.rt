//! What programs and their images are written with in the tests of whole sessions: instructions, calls one after the other, trees, words and
//! numbers. It knows no session.
#![tactic(auto)]

pub mod calls;
pub mod code;
mod executable;
pub mod guest;
pub mod image;
pub mod listing;
pub mod numbers;
pub mod reading;
