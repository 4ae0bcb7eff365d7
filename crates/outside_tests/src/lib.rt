//! The tests of `outside` over hosts and streams that count what is asked of them, and over the real host.
#![tactic(auto)]

#[cfg(test)]
mod files;
#[cfg(test)]
mod host;
#[cfg(test)]
mod streams;
