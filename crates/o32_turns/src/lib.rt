//! One turn of the machine of an o32 program, and a whole run, defined over the calls of `o32_model`.
//!
//! The definitions stand in `specs/`; here is what a process keeps within a turn, which they share with code.
#![tactic(auto)]

mod going;

pub use going::Going;
