//! What the native kernel was asked and told, as its log shows it.

use crate::byte_list::Bytes;
use crate::reply::Reply;
use crate::signal::Sig;

/// An entry of the native log, with the columns of its line. (The log is this project's own.)
#[derive(Drop)]
pub enum LogEntry {
    /// The native clock stands at so many nanoseconds.
    Clock {
        ns: u64,
    },
    /// A signal was posted: its code and value (`si_code` and `si_value` of sigaction(2)).
    Post {
        sig: Sig,
        code: i32,
        value: u32,
    },
    /// A call was made.
    Call {
        /// Its native number.
        nr: u64,
        /// Its arguments.
        args: [u64; 6],
        /// The bytes of the host memory before it.
        before: Bytes,
        /// The bytes of the host memory after it.
        after: Bytes,
        /// What it answered.
        reply: Reply,
    },
}
