//! The tests of `mips_code` and `mips_exec`, and nothing else.
#![tactic(auto)]

#[cfg(test)]
mod branches;
#[cfg(test)]
mod codes;
#[cfg(test)]
mod computing;
#[cfg(test)]
mod machine;
#[cfg(test)]
mod steps;
#[cfg(test)]
mod stretches;
