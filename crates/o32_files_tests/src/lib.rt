//! Tests of the calls on files, clocks and sleep: programs that make them, over an image, by whole sessions.
#![tactic(auto)]

#[cfg(test)]
mod clock;
#[cfg(test)]
mod entries;
#[cfg(test)]
mod mapped;
#[cfg(test)]
mod names;
#[cfg(test)]
mod nodes;
#[cfg(test)]
mod opening;
#[cfg(test)]
mod refusals;
#[cfg(test)]
mod start;
#[cfg(test)]
mod status;
