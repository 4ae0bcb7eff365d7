//! The native kernel: a modelled 64-bit little-endian kernel, called by a number, six arguments and
//! host memory.
#![tactic(auto)]

mod arguments;
mod call;
mod chance;
mod clock;
mod descriptors;
mod directory;
mod ids;
mod interval;
mod kernel;
mod masks;
mod names;
mod nodes;
mod paths;
mod pipes;
mod readiness;
mod replies;
mod signal_bytes;
mod signal_posts;
mod signal_waits;
mod signals;
mod sleeping;
mod starting;
mod status;
mod structures;
mod system;
mod terminal;
mod times;
mod transfers;
mod vectors;

pub use kernel::NativeKernel;
pub use kernel_core::{NoMemory, Reply, Stop, Wake};
pub use kernel_model::Post;
