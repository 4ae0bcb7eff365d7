//! Tests of signals: programs with handlers, under schedules, by whole sessions.
#![tactic(auto)]

#[cfg(test)]
mod accepting;
#[cfg(test)]
mod arriving;
#[cfg(test)]
mod cells;
#[cfg(test)]
mod cells_of_polls;
#[cfg(test)]
mod frames;
#[cfg(test)]
mod polling;
#[cfg(test)]
mod refusals;
#[cfg(test)]
mod selecting;
#[cfg(test)]
mod timers;
#[cfg(test)]
mod waits;
