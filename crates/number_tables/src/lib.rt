//! The numbers that errors, signals and flags have for an o32 program and for the native kernel.
#![tactic(auto)]

mod bits;
mod code;
mod error;
mod map_flags;
mod mask;
mod open_flags;
mod poll_bits;
mod request;
mod resource;
mod sa_flags;
mod signal;
mod worlds;

pub use code::{SI_KERNEL, SI_QUEUE, SI_TIMER, SI_TKILL, SI_USER, native_code, o32_code};
pub use map_flags::map_flags_in_o32;
pub use poll_bits::{poll_bits_in_native, poll_bits_in_o32};
pub use resource::{GETRLIMIT_INFINITY, INFINITY};
pub use sa_flags::{sa_flags_in_native, sa_flags_in_o32};
pub use worlds::{NativeNumber, O32Number, native_from_o32, o32_from_native};

#[cfg(test)]
mod tests;
