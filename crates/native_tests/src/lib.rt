//! The tests of `native_kernel`, and through it of `native_polls`, and nothing else.
#![tactic(auto)]

#[cfg(test)]
mod accepting;
#[cfg(test)]
mod actions;
#[cfg(test)]
mod calls;
#[cfg(test)]
mod changed_tree;
#[cfg(test)]
mod clocks;
#[cfg(test)]
mod contents;
#[cfg(test)]
mod descriptors;
#[cfg(test)]
mod filling;
#[cfg(test)]
mod from_outside;
#[cfg(test)]
mod names;
#[cfg(test)]
mod no_block;
#[cfg(test)]
mod no_cookie;
#[cfg(test)]
mod no_entry;
#[cfg(test)]
mod no_node;
#[cfg(test)]
mod nodes;
#[cfg(test)]
mod opening;
#[cfg(test)]
mod polls;
#[cfg(test)]
mod posts;
#[cfg(test)]
mod sending;
#[cfg(test)]
mod steps;
#[cfg(test)]
mod system;
#[cfg(test)]
mod terminal;
#[cfg(test)]
mod transfers;
#[cfg(test)]
mod tree_texts;
#[cfg(test)]
mod working_directory;
