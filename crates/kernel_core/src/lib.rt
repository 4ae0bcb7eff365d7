//! The names and plain data that the kernel, its bridge and the machine share.
//!
//! Signals, errors and flags stand here by name: what number a name has for an o32 program or for
//! the native kernel is told by `number_tables`.
#![tactic(auto)]

pub mod address_space;
mod byte_list;
mod core_error;
mod error;
mod event;
mod finish;
mod info;
mod items;
pub mod limits;
mod log_entry;
mod map_flags;
mod mask;
mod open_flags;
mod poll_bits;
mod record;
mod reply;
mod request;
mod resource;
mod sa_flags;
mod signal;
mod tree;

pub use byte_list::Bytes;
pub use core_error::{CoreError, NoMemory, Stop};
pub use error::Errno;
pub use event::{Delivery, Event};
pub use finish::Finish;
pub use info::Info;
pub use items::Items;
pub use log_entry::LogEntry;
pub use map_flags::{MapBits, MapFlags, MapKind};
pub use mask::MaskChange;
pub use open_flags::{Access, OpenBits, OpenFlags};
pub use poll_bits::{EventBits, PollBits};
pub use record::{Effect, Record};
pub use reply::{Reply, Wake};
pub use request::Request;
pub use resource::Resource;
pub use sa_flags::{SaBits, SaFlags};
pub use signal::{RealTime, Sig};
pub use tree::{Block, DirEntry, Kind, Node, Tree};

#[cfg(test)]
mod tests;
