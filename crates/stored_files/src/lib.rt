//! What is seen of a store, and what becomes of one of its files.
//!
//! The definitions stand in `specs/`; there is no code.
#![tactic(auto)]
