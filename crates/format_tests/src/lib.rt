//! The tests of `fs_image`, `elf_image`, `schedule` and `layouts`, and nothing else.
#![tactic(auto)]

#[cfg(test)]
mod executables;
#[cfg(test)]
mod images;
#[cfg(test)]
mod schedules;
#[cfg(test)]
mod structures;
