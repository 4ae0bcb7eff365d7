//! A file tree as bytes, and back: version 1 of this project's own image format
//! (`specs/Text.antt` has the text of a tree, `specs/Reading.antt` and `specs/Naming.antt` the
//! rules that it keeps).
#![tactic(auto)]

mod decoding;
mod directories;
mod fields;
mod files;
mod kinds;
mod names;
mod naming;
mod nodes;
mod numbers;
mod refusal;
mod walk;
mod writing;

pub use decoding::{decode, text_is_accepted, text_is_of_one_tree};
pub use refusal::{ImageError, ImageRefusal, ImageRule};
pub use writing::encode;
