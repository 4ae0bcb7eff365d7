//! Tests at the edges of a program's calls: pointers that can't be followed, transfers that are cut, devices that fail, and the journals of
//! whole runs.
#![tactic(auto)]

#[cfg(test)]
mod devices;
#[cfg(test)]
mod pointers;
#[cfg(test)]
mod replays;
#[cfg(test)]
mod runs;
#[cfg(test)]
mod scripts;
#[cfg(test)]
mod transfers;
