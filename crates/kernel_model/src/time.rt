//! Times as programs write them (timespec(3), timeval(3)).

/// A time in seconds and nanoseconds, as a program gives it: any number may stand in either.
#[derive(Clone, Copy)]
pub struct TimeSpec {
    pub seconds: i64,
    pub nanoseconds: i64,
}

/// A time in seconds and microseconds, as a program gives it: any number may stand in either.
#[derive(Clone, Copy)]
pub struct TimeVal {
    pub seconds: i64,
    pub microseconds: i64,
}

/// What the interval timer shows, in nanoseconds (getitimer(2)).
#[derive(Clone, Copy)]
pub struct TimerValue {
    /// How long until it is due, and 0 where it is not armed.
    pub left: u64,
    /// Its period, and 0 where it has none.
    pub period: u64,
}
