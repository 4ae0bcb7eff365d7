//! Worked rows: a timer that is set, looked at and fired.

use super::{LAST_DUE_TIME, LATEST_TIME, Timers};

/// A step of a test, with the time of the clock where it has one.
#[derive(Clone, Copy)]
enum Step {
    /// The timer is armed to a first time and a period.
    Arm(Option<u64>, u64),
    /// This is the period.
    Period(u64),
    /// So much is left at this time.
    Left(u64, u64),
    /// This is the next time.
    Next(Option<u64>),
    /// Firing at this time tells whether the timer was due.
    Fire(u64, bool),
}

/// The first step that does not come out as it says, counted from 0, of those on a new timer.
fn first_wrong(steps: &[Step]) -> Option<usize> {
    let mut timer = Timers::new();
    for (place, step) in steps.iter().enumerate() {
        if !comes_out(&mut timer, *step) {
            return Some(place);
        }
    }
    None
}

fn comes_out(timer: &mut Timers, step: Step) -> bool {
    match step {
        Step::Arm(first, period) => {
            timer.arm(first, period);
            true
        }
        Step::Period(period) => timer.period() == period,
        Step::Left(now, left) => timer.left(now) == left,
        Step::Next(next) => timer.next() == next,
        Step::Fire(now, due) => timer.fire(now) == due,
    }
}

/// A new timer is not armed.
static UNARMED: [Step; 4] = [
    Step::Period(0),
    Step::Left(7, 0),
    Step::Next(None),
    Step::Fire(u64::MAX, false),
];

/// Armed once at 1,000, it goes off there and is not armed any more.
static ONCE: [Step; 12] = [
    Step::Arm(Some(1_000), 0),
    Step::Period(0),
    Step::Left(0, 1_000),
    Step::Left(999, 1),
    Step::Left(1_000, 0),
    Step::Left(1_001, 0),
    Step::Next(Some(1_000)),
    Step::Fire(999, false),
    Step::Next(Some(1_000)),
    Step::Fire(1_000, true),
    Step::Fire(1_000, false),
    Step::Next(None),
];

/// With a period it goes off once, however late, and then at the first time past the clock.
static PERIODIC: [Step; 15] = [
    Step::Arm(Some(1_000), 300),
    Step::Period(300),
    Step::Fire(1_000, true),
    Step::Next(Some(1_300)),
    Step::Fire(1_299, false),
    Step::Left(1_200, 100),
    Step::Fire(1_900, true),
    Step::Next(Some(2_200)),
    Step::Fire(1_900, false),
    Step::Fire(2_499, true),
    Step::Next(Some(2_500)),
    Step::Fire(2_500, true),
    Step::Next(Some(2_800)),
    Step::Period(300),
    Step::Left(5_000, 0),
];

/// Without a first time it is disarmed, whatever the period; armed anew, it forgets what it was.
static DISARMED: [Step; 9] = [
    Step::Arm(Some(1_000), 300),
    Step::Arm(None, 300),
    Step::Period(0),
    Step::Left(0, 0),
    Step::Next(None),
    Step::Fire(1_000, false),
    Step::Arm(Some(5_000), 20),
    Step::Arm(Some(6_000), 0),
    Step::Period(0),
];

/// It goes off at 2^61 and not at a later time, which it keeps and shows; no number is greater than 2^63 - 1.
static LATE: [Step; 17] = [
    Step::Arm(Some(LAST_DUE_TIME), 0),
    Step::Next(Some(2_305_843_009_213_693_952)),
    Step::Fire(LAST_DUE_TIME, true),
    Step::Arm(Some(LAST_DUE_TIME + 1), 5),
    Step::Next(None),
    Step::Fire(u64::MAX, false),
    Step::Left(1, LAST_DUE_TIME),
    Step::Period(5),
    Step::Arm(Some(u64::MAX), u64::MAX),
    Step::Left(0, 9_223_372_036_854_775_807),
    Step::Period(9_223_372_036_854_775_807),
    Step::Arm(Some(1), LATEST_TIME),
    Step::Fire(LATEST_TIME, true),
    Step::Left(0, LATEST_TIME),
    Step::Next(None),
    Step::Arm(Some(0), 1),
    Step::Fire(0, true),
];

#[test]
fn worked_rows(rt: HostRuntime) {
    assert_eq!(rt; first_wrong(&UNARMED), None);
    assert_eq!(rt; first_wrong(&ONCE), None);
    assert_eq!(rt; first_wrong(&PERIODIC), None);
    assert_eq!(rt; first_wrong(&DISARMED), None);
    assert_eq!(rt; first_wrong(&LATE), None);
}
