//! The tests of `native_files`, and nothing else.
#![tactic(auto)]

#[cfg(test)]
mod files;
