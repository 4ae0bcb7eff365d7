//! The tests of `o32_session`, and nothing else.
#![tactic(auto)]

#[cfg(test)]
mod files;
#[cfg(test)]
mod native;
#[cfg(test)]
mod programs;
#[cfg(test)]
mod replays;
#[cfg(test)]
mod saves;
#[cfg(test)]
mod schedules;
#[cfg(test)]
mod soaks;
#[cfg(test)]
mod traces;
#[cfg(test)]
mod words;
