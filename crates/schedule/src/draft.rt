//! A schedule that is being read.

ghost use Rattle.std.specs.Prelude.{◌≡◌, IfOk, IfErr};
ghost use Rattle.schedule.specs.Grammar.{setting_fault, event_fault};
ghost use Rattle.schedule.specs.Text.{lines_of};
ghost use Rattle.schedule.specs.inside.Draft.{empty, with_statement, with_line, with_lines, schedule_from, error_at, UnlessFault, Leaves, GivesDraft};

use crate::Schedule;
use crate::events::{Due, Events, Winsize};
use crate::random::RandomBytes;
use crate::refusal::{ScheduleError, ScheduleRefusal, ScheduleRule};
use crate::statement::{Statement, read_line};
use crate::text::split_once;
use std::alloc::Global;

/// Why a line is not taken.
#[derive(Drop)]
pub enum LineError {
    Broken(ScheduleRule),
    NoMemory,
}

impl LineError {
    /// What is told of it at a line.
    fn at(self, line: u64) -> ScheduleError
        ensures { result ≡ error_at self line }
    {
        match self {
            LineError::Broken(rule) => ScheduleError::Refused(ScheduleRefusal {
                line,
                rule: rule.number(),
            }),
            LineError::NoMemory => ScheduleError::NoMemory,
        }
    }
}

/// The settings and events read so far.
#[derive(Drop)]
pub struct Draft {
    pub quantum: Option<u64>,
    pub epoch: Option<(u64, u32)>,
    pub tty: Option<Winsize>,
    pub random: Option<RandomBytes>,
    pub events: Events,
}

/// The rule that a setting breaks below a setting of its kind and below events.
fn setting_fault<T>(above: &Option<T>, events: &Events) -> Option<ScheduleRule>
    ensures { result ≡ setting_fault above.now events.now }
{
    if above.is_some() {
        Some(ScheduleRule::Twice)
    } else if !events.is_empty() {
        Some(ScheduleRule::Late)
    } else {
        None
    }
}

/// The rule that an event of a time breaks below the one before.
fn event_fault(time: u64, before: Option<Due>) -> Option<ScheduleRule>
    ensures { result ≡ event_fault time before }
{
    match before {
        Some(before) if time < before.time => Some(ScheduleRule::Order),
        _ => None,
    }
}

fn unless(fault: Option<ScheduleRule>) -> Result<(), LineError>
    ensures { UnlessFault result fault }
{
    match fault {
        Some(rule) => Err(LineError::Broken(rule)),
        None => Ok(()),
    }
}

impl Draft {
    /// Nothing read yet.
    fn new(alloc: Global) -> Draft
        ensures { result ≡ empty }
    {
        Draft {
            quantum: None,
            epoch: None,
            tty: None,
            random: None,
            events: Events::new(alloc),
        }
    }

    /// Takes a statement more.
    fn take(&mut self, statement: Statement) -> Result<(), LineError>
        ensures { Leaves result self.new (with_statement self.old statement) }
    {
        match statement {
            Statement::Quantum(nanoseconds) => {
                unless(setting_fault(&self.quantum, &self.events))?;
                self.quantum = Some(nanoseconds);
            }
            Statement::Epoch(seconds, nanoseconds) => {
                unless(setting_fault(&self.epoch, &self.events))?;
                self.epoch = Some((seconds, nanoseconds));
            }
            Statement::Tty(size) => {
                unless(setting_fault(&self.tty, &self.events))?;
                self.tty = Some(size);
            }
            Statement::Random(bytes) => {
                unless(setting_fault(&self.random, &self.events))?;
                self.random = Some(bytes);
            }
            Statement::At(due) => {
                unless(event_fault(due.time, self.events.last()))?;
                self.events.push(due).map_err(|_| LineError::NoMemory)?;
            }
        }
        Ok(())
    }

    /// Takes a line more.
    fn take_line(&mut self, alloc: Global, line: &[u8]) -> Result<(), LineError>
        ensures { Leaves result self.new (with_line self.old line.now) }
    {
        let statement = read_line(alloc, line)?;
        self.take(statement)
    }

    /// The schedule, with the value of each setting that stands nowhere.
    pub fn finish(self, alloc: Global) -> Result<Schedule, ScheduleError>
        ensures ok { IfOk result (λ schedule. schedule ≡ schedule_from self) }
        ensures err { IfErr result (λ error. error ≡ ScheduleError.NoMemory) }
    {
        let Draft {
            quantum,
            epoch,
            tty,
            random,
            events,
        } = self;
        let (epoch_s, epoch_n) = epoch.unwrap_or((0, 0));
        let random = match random {
            Some(bytes) => bytes,
            None => RandomBytes::from_vec(Vec::from_slice(alloc, &[0]).map_err(
                |_| ScheduleError::NoMemory,
            )?),
        };
        Ok(Schedule {
            quantum: quantum.unwrap_or(1000),
            epoch_s,
            epoch_n,
            tty,
            random,
            events,
            at: 0,
        })
    }
}

/// The settings and events of all lines of a text.
pub fn read_lines(alloc: Global, text: &[u8]) -> Result<Draft, ScheduleError>
    ensures { GivesDraft result (with_lines (lines_of text.now) empty 1) }
{
    let mut draft = Draft::new(alloc);
    let mut rest = text;
    let mut line = 1;
    while let Some((front, after)) = split_once(rest, b'\n') {
        if let Err(fault) = draft.take_line(alloc, front) {
            return Err(fault.at(line));
        }
        rest = after;
        line += 1;
    }
    if !rest.is_empty() {
        return Err(LineError::Broken(ScheduleRule::End).at(line));
    }
    Ok(draft)
}
