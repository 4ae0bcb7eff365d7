//! Times that may not be there.
ghost use Rattle.std.specs.Prelude.{◌≡◌};
ghost use Rattle.native_log.specs.inside.Times.{has_come};

/// Whether a time that may not be there has come by a time of the clock.
pub(crate) fn has_come(clock: u64, time: Option<u64>) -> bool
    ensures { result ≡ has_come clock time }
{
    match time {
        None => false,
        Some(time) => time <= clock,
    }
}
