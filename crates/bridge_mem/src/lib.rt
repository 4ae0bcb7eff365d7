//! What every bridge of o32 calls to native ones needs: a call's words, its paths, and bytes that go from
//! the program's pages to host memory and back.
#![tactic(auto)]

mod buffers;
mod paths;
mod structures;
mod vectors;
mod words;

pub use buffers::{fresh_room, load_buffer, store_buffer};
pub use paths::{PathError, path};
pub use structures::{load_structure, signed_word_at, store_structure, word_at};
pub use vectors::Vector;
pub use words::{args, register_words, six_words, stack_pair};

#[cfg(test)]
mod tests;
