//! The tests of `o32_machine`, and nothing else.
#![tactic(auto)]

#[cfg(test)]
mod calls;
#[cfg(test)]
mod emulators;
#[cfg(test)]
mod guest;
#[cfg(test)]
mod instructions;
#[cfg(test)]
mod mappings;
#[cfg(test)]
mod programs;
#[cfg(test)]
mod runs;
#[cfg(test)]
mod script;
#[cfg(test)]
mod sleeping;
