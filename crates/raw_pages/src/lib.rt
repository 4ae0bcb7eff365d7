//! A store of guest pages: which pages are mapped, with which protection, and their bytes.
#![tactic(auto)]

mod leaf;
mod page;
mod page_store;
mod piece;
mod table;
mod write_error;

pub use page::Page;
pub use page_store::PageStore;
pub use write_error::WriteError;
