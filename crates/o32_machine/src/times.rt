//! Times of the clock, in nanoseconds, and how many turns fit before one.
ghost use Rattle.std.specs.Prelude.{◌≡◌, ◌+◌, ◌*◌, ◌<◌, ◌≤◌, ◌^◌, IfSome};
ghost use Rattle.kernel_model.specs.Clock.{if_comes};
ghost use Rattle.o32_machine.specs.inside.Quieting.{IsBefore};
ghost use Rattle.o32_machine.specs.inside.Steps.{deadline_in};
ghost use Rattle.o32_turns.specs.Turn.{is_over_at, sooner};

use o32_model::Wait;

/// The last time of the clock that comes, in nanoseconds. (This project's own.)
const LAST_TIME: u64 = 1 << 61;

/// The deadline of a call that waits, in nanoseconds; None where there is none, or no call waits.
pub(crate) fn deadline_in(wait: Option<Wait>) -> Option<u64>
    ensures { result ≡ deadline_in wait }
{
    match wait {
        None => None,
        Some(wait) => wait.deadline,
    }
}

/// A time that can come: one past 2^61 never does.
pub(crate) fn if_comes(time: Option<u64>) -> Option<u64>
    ensures time { result ≡ if_comes time }
    ensures early { IfSome result (λ comes. comes ≤ 2 ^ 61) }
{
    match time {
        Some(time) if time <= LAST_TIME => Some(time),
        _ => None,
    }
}

/// Whether a deadline is over.
pub(crate) fn is_over_at(clock: u64, deadline: Option<u64>) -> bool
    ensures { result ≡ is_over_at clock deadline }
{
    match deadline {
        None => false,
        Some(deadline) => deadline <= clock && deadline <= LAST_TIME,
    }
}

/// The lesser of two times that may not be there.
pub(crate) fn sooner(one: Option<u64>, other: Option<u64>) -> Option<u64>
    ensures { result ≡ sooner one other }
{
    match one {
        None => other,
        Some(time) => match other {
            None => Some(time),
            Some(other) => Some(time.min(other)),
        },
    }
}

/// The clock's time, in nanoseconds, after so many turns with an instruction.
#[inline]
pub(crate) fn later(clock: u64, quantum: u64, turns: u64) -> u64
    requires quantum { quantum ≤ 1_000_000 }
    requires clock { clock + 1_000_000 * turns < 2 ^ 64 }
    ensures time { result ≡ clock + turns * quantum }
    ensures bound { result ≤ clock + 1_000_000 * turns }
{
    clock + turns * quantum
}

/// How many turns with an instruction can be taken before the last one, of at most `limit` in all, so that each of
/// them begins before the time at which something is due; None where it is due by now.
#[inline]
pub(crate) fn most_quiet(clock: u64, quantum: u64, due: Option<u64>, limit: u64) -> Option<u64>
    requires some { 0 < limit }
    requires quantum { 0 < quantum }
    ensures most { IfSome result (λ most. most < limit) }
    ensures early { IfSome result (λ most. IsBefore (clock + most * quantum) due) }
{
    match due {
        None => Some(limit - 1),
        Some(due) if due <= clock => None,
        Some(due) => Some((limit - 1).min((due - 1 - clock) / quantum)),
    }
}
