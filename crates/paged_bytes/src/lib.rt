//! Bytes that are kept in pages of 4096.
#![tactic(auto)]

mod page_bytes;
mod place;
mod slices;

pub use page_bytes::PageBytes;
pub use place::{PAGE_SIZE, count_in_page, place_in_page};

#[cfg(test)]
mod tests;
