//! The tests of `bridge_io`, and nothing else.
#![tactic(auto)]

#[cfg(test)]
mod calls;
#[cfg(test)]
mod descriptors;
#[cfg(test)]
mod effects;
#[cfg(test)]
mod files;
#[cfg(test)]
mod fullness;
#[cfg(test)]
mod machine;
#[cfg(test)]
mod numbers;
#[cfg(test)]
mod pipes;
#[cfg(test)]
mod places;
#[cfg(test)]
mod terminal;
#[cfg(test)]
mod transfers;
#[cfg(test)]
mod vectors;
