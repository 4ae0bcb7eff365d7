//! What the calls count.

/// How many bytes an entry has, in both worlds (struct pollfd of poll(2)).
pub(crate) const ENTRY_SIZE: u32 = 8;
