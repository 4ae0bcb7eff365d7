//! The schedule of a run: how fast its clock goes and where it begins, the terminal's size, the bytes that
//! stand for chance, and the signals that come from outside. A schedule is read from a text of lines; the
//! format is this project's own (`specs/Statement.antt` has its lines, `specs/Grammar.antt` the rules
//! across them).
#![tactic(auto)]

ghost use Rattle.std.specs.Prelude.{◌≡◌, ◌+◌, ◌≤◌, IfOk, IfErr, slice_get, option_map};
ghost use Rattle.std.specs.List.Sorted.{IsNonDecreasingBy};
ghost use Rattle.schedule.specs.Cursor.{due_at, place_after};
ghost use Rattle.schedule.specs.Grammar.{meaning_of, Gives, IsSchedule, NamesFirstFault, first_event_line};
ghost use Rattle.schedule.specs.Ranges.{IsInRange, IsGivenSchedule};

mod draft;
mod events;
mod random;
mod refusal;
mod statement;
mod text;

use draft::read_lines;
pub use events::{Due, Events, Winsize};
pub use random::RandomBytes;
pub use refusal::{ScheduleError, ScheduleRefusal, ScheduleRule};
use statement::starts_event;
use std::alloc::Global;
use text::split_once;

/// What a run is told of the outside.
#[derive(Debug, Drop)]
pub struct Schedule {
    /// Nanoseconds a turn, 1 to 1,000,000.
    pub quantum: u64,
    /// Seconds from the Unix epoch to the clock's 0, at most 2^40.
    pub epoch_s: u64,
    /// And nanoseconds, below 10^9.
    pub epoch_n: u32,
    /// The terminal's size; `None` where the streams are no terminal.
    pub tty: Option<Winsize>,
    /// The bytes that stand for chance, 1 to 4096, used round and round.
    pub random: RandomBytes,
    /// The signals from outside, in order of time.
    pub events: Events,
    /// The place of the next event, from 0: the cursor.
    pub at: usize,
}

/// The schedule that a text says. `Refused` comes exactly where a line breaks a rule, with the first such
/// line and the first rule that it breaks. Takes time by the text's length, and memory for the events and
/// the bytes alone.
pub fn parse(alloc: Global, text: &[u8]) -> Result<Schedule, ScheduleError>
    ensures exact { Gives result (meaning_of text.now) }
    ensures accepted { IfOk result (IsSchedule text.now) }
    ensures refused { IfErr result (NamesFirstFault text.now) }
    ensures ordered { IfOk result (λ schedule. IsNonDecreasingBy (λ due. due.time) schedule.events) }
    ensures ranges { IfOk result IsInRange }
    ensures given { IfOk result IsGivenSchedule }
{
    let draft = read_lines(alloc, text)?;
    draft.finish(alloc)
}

/// The line of the first event, counted from 1: the first whose first word is `at`. `None` where there
/// is none. Takes time by the text's length, and no memory.
pub fn first_event_line(text: &[u8]) -> Option<u64>
    ensures { result ≡ first_event_line text.now }
{
    let mut rest = text;
    let mut line = 1;
    while let Some((front, after)) = split_once(rest, b'\n') {
        if starts_event(front) {
            return Some(line);
        }
        rest = after;
        line += 1;
    }
    if starts_event(rest) { Some(line) } else { None }
}

impl Schedule {
    /// The time of the event at the cursor, in nanoseconds; `None` exactly at the end. Costs a constant.
    pub fn next(&self) -> Option<u64>
        ensures { result ≡ option_map (λ due. due.time) (slice_get self.now.events self.now.at) }
    {
        self.events.as_slice().get(self.at).map(|due| due.time)
    }

    /// The event at the cursor, where its time is at most `now`; the cursor then moves by one. Otherwise
    /// `None`, and nothing changes. Costs a constant.
    pub fn due(&mut self, now: u64) -> Option<Due>
        ensures event { result ≡ due_at now (slice_get self.old.events self.old.at) }
        ensures cursor { self.new ≡ record self.old { at = place_after result self.old.at } }
        ensures given { IsGivenSchedule self.old → IsGivenSchedule self.new }
    {
        let events = self.events.as_slice();
        if self.at >= events.len() {
            return None;
        }
        let due = events[self.at];
        if due.time > now {
            return None;
        }
        self.at += 1;
        Some(due)
    }
}
