//! Resource limits (getrlimit(2)).

/// A limit of a resource; 2^64 - 1 is no limit (RLIM_INFINITY).
#[derive(Clone, Copy)]
pub struct Limit {
    pub soft: u64,
    pub hard: u64,
}
