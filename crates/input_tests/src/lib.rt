//! Tests of what is read and broken: frames that can't be read, input files that are cut, journals that differ.
#![tactic(auto)]

#[cfg(test)]
mod frames;
#[cfg(test)]
mod inputs;
#[cfg(test)]
mod journals;
