//! Laws over the definitions, each the contract of a function that does nothing. (The rules are this
//! project's own.)

pub mod clocks;
pub mod descriptions;
pub mod least_numbers;
pub mod refusals;
pub mod signals;
