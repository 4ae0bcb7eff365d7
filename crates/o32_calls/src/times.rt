//! The calls on time and readiness.

/// A call on clocks, or a sleep.
#[derive(Clone, Copy)]
pub enum TimeCall {
    /// time(2)
    Time,
    /// gettimeofday(2)
    Gettimeofday,
    /// nanosleep(2)
    Nanosleep,
    /// clock_gettime(2)
    ClockGettime,
    /// clock_getres(2)
    ClockGetres,
    /// clock_nanosleep(2)
    ClockNanosleep,
}

/// A call on the interval timer.
#[derive(Clone, Copy)]
pub enum TimerCall {
    /// alarm(2)
    Alarm,
    /// setitimer(2)
    Setitimer,
    /// getitimer(2)
    Getitimer,
}

/// A call that asks which descriptors of an array are ready.
#[derive(Clone, Copy)]
pub enum PollCall {
    /// poll(2)
    Poll,
    /// ppoll(2)
    Ppoll,
}

/// A call that asks which descriptors of sets are ready.
#[derive(Clone, Copy)]
pub enum SelectCall {
    /// select(2)
    Newselect,
    /// pselect(2)
    Pselect6,
}
