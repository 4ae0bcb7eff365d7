//! The tests of `raw_pages`, `guest_space` and `start_stack`, and nothing else.
#![tactic(auto)]

#[cfg(test)]
mod memory;
#[cfg(test)]
mod pages;
#[cfg(test)]
mod starting;
