//! The tests of `native_vfs`, and nothing else.
#![tactic(auto)]

#[cfg(test)]
mod contents;
#[cfg(test)]
mod limits;
#[cfg(test)]
mod names;
#[cfg(test)]
mod renames;
#[cfg(test)]
mod steps;
#[cfg(test)]
mod trees;
#[cfg(test)]
mod walks;
