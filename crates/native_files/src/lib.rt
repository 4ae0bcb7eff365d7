//! The files of a process: descriptors, pipes, streams and nodes, one method for each call.
#![tactic(auto)]

mod asking;
mod changes;
mod content;
mod descriptors;
mod entries;
mod events;
mod files;
mod flags;
mod flow;
mod home;
mod lengths;
mod listing;
mod location;
mod looking;
mod modes;
mod naming;
mod node_times;
mod nodes;
mod opening;
mod pipes;
mod progress;
mod readiness;
mod reading;
mod reading_links;
mod sizes;
mod starting;
mod walking;
mod writing;

pub use asking::StatusFlags;
pub use files::Files;
pub use kernel_core::{CoreError, Errno, NoMemory, Stop};
pub use node_times::Times;
pub use pipes::{Ends, PipeFlags};
pub use progress::{Entry, Progress, Status};
pub use walking::Base;
