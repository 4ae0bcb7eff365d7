//! The line that a session writes on standard error where nothing is run, or where a replay differs from its journal.
ghost use Rattle.std.specs.Prelude.{◌≤◌, [], OnOk, OnErr, Some};
ghost use Rattle.outside.specs.Causes.{FailsOnlyIfRose};
ghost use Rattle.outside.specs.Output.{GainsText, GainsBetween};
ghost use Rattle.session_files.specs.Lines.{divergence_line, divergence_text, line_of};
ghost use Rattle.session_files.specs.Steps.{EndsDiverged, EndsRefused, EndsWithoutRun, LineFailsOnlyIfRose};

use crate::end::End;
use crate::not_run::NotRun;
use crate::refusal::Refusal;
use outside::{DevError, Sink};
use std::alloc::Global;
use std::fmt;

/// The first difference between a journal and the machine: two numbers of one turn. (Its line is this project's own.)
#[derive(Clone, Copy)]
pub struct Divergence {
    /// The turn in which it stands.
    pub turn: u64,
    /// What the journal has.
    pub wanted: u64,
    /// What the machine has.
    pub found: u64,
}

impl fmt::Display for Divergence {
    ghost output = { λ divergence. Some (divergence_text divergence.turn divergence.wanted divergence.found) };

    fn fmt<W: fmt::Write>(&self, f: &mut fmt::Formatter<W>) -> fmt::Result {
        let turn = self.turn;
        let wanted = self.wanted;
        let found = self.found;
        write!(
            f,
            "o32run: diverged at turn {turn} wanted {wanted} found {found}"
        )
    }
}

/// Writes the line of a refusal.
fn put_line<E: Sink>(alloc: Global, refusal: Refusal, err: &mut E) -> Result<(), DevError>
    ensures line { OnOk result (GainsText (E.written err.old) (E.written err.new) (line_of refusal)) }
    ensures part { OnErr result (GainsBetween (E.written err.old) (E.written err.new) [] (line_of refusal)) }
    ensures cause { FailsOnlyIfRose result (E.faults err.old) (E.faults err.new) }
    ensures later { E.faults err.old ≤ E.faults err.new }
{
    let line = format!(in alloc; "{refusal}\n")?;
    err.put(line.as_bytes())
}

/// Writes the line of a refusal, and gives the end of a session that is refused so: the refusal, or a write fault where the device fails, or
/// want of memory. (The line is this project's own.)
pub fn refuse<E: Sink>(alloc: Global, refusal: Refusal, err: &mut E) -> End
    ensures line { EndsRefused refusal result (E.written err.old) (E.written err.new) }
    ensures cause { LineFailsOnlyIfRose result (E.faults err.old) (E.faults err.new) }
    ensures later { E.faults err.old ≤ E.faults err.new }
{
    match put_line(alloc, refusal, err) {
        Ok(()) => End::Refused(refusal),
        Err(DevError::Failed) => End::WriteFault,
        Err(DevError::NoMemory) => End::NoMemory,
    }
}

/// The end of a session of which nothing is run: a refusal is told by its line, as [`refuse`] does, and a read fault and want of memory
/// write nothing.
pub fn end_without_run<E: Sink>(alloc: Global, reason: NotRun, err: &mut E) -> End
    ensures line { EndsWithoutRun reason result (E.written err.old) (E.written err.new) }
    ensures cause { LineFailsOnlyIfRose result (E.faults err.old) (E.faults err.new) }
    ensures later { E.faults err.old ≤ E.faults err.new }
{
    match reason {
        NotRun::Refused(refusal) => refuse(alloc, refusal, err),
        NotRun::ReadFault => End::ReadFault,
        NotRun::NoMemory => End::NoMemory,
    }
}

/// Writes the line of a divergence.
fn put_divergence<E: Sink>(
    alloc: Global,
    divergence: Divergence,
    err: &mut E,
) -> Result<(), DevError>
    ensures line { OnOk result (GainsText (E.written err.old) (E.written err.new) (divergence_line divergence.turn divergence.wanted divergence.found)) }
    ensures part { OnErr result (GainsBetween (E.written err.old) (E.written err.new) [] (divergence_line divergence.turn divergence.wanted divergence.found)) }
    ensures cause { FailsOnlyIfRose result (E.faults err.old) (E.faults err.new) }
    ensures later { E.faults err.old ≤ E.faults err.new }
{
    let told = format!(in alloc; "{divergence}\n")?;
    err.put(told.as_bytes())
}

/// Writes the line of a divergence, and gives the end of a replay that differs so: the divergence, or a write fault where the device fails,
/// or want of memory. (The line is this project's own.)
pub fn diverge<E: Sink>(alloc: Global, divergence: Divergence, err: &mut E) -> End
    ensures line { EndsDiverged divergence.turn divergence.wanted divergence.found result (E.written err.old) (E.written err.new) }
    ensures cause { LineFailsOnlyIfRose result (E.faults err.old) (E.faults err.new) }
    ensures later { E.faults err.old ≤ E.faults err.new }
{
    match put_divergence(alloc, divergence, err) {
        Ok(()) => End::Diverged {
            turn: divergence.turn,
            wanted: divergence.wanted,
            found: divergence.found,
        },
        Err(DevError::Failed) => End::WriteFault,
        Err(DevError::NoMemory) => End::NoMemory,
    }
}
