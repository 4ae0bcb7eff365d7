//! A file system whose calls are made by path, for the tests of `native_vfs`.
#![tactic(auto)]

mod checks;
pub mod files;
mod images;
mod text;
