//! The lines that turns add to a trace and to a native log.
ghost use Rattle.std.specs.Prelude.{◌≡◌, ◌+◌, ◌<◌, ◌^◌, ◌++◌, IfOk, OnOk};
ghost use Rattle.o32_runner.specs.NativeText.{entry_lines};
ghost use Rattle.o32_runner.specs.Trace.{turn_lines};
ghost use Rattle.o32_runner.specs.inside.Told.{told_lines};

use kernel_core::{Event, Finish, LogEntry, NoMemory};
use o32_machine::Turn;
use std::alloc::Global;
use trace_text::{native_line, trace_line};

/// Adds the lines of the events of a turn to a text.
fn add_lines(turn: u64, events: &[Event], text: &mut Vec<u8>) -> Result<(), NoMemory>
    ensures { OnOk result (text.new.items ≡ text.old.items ++ turn_lines turn events.now) }
{
    for event in events {
        trace_line(turn, event, text)?;
    }
    Ok(())
}

/// The lines of a turn that came to this, where `turns` are done then. An attempt that found the process blocked is none of
/// them: its lines have the number that it would have had.
pub(crate) fn told_lines(
    alloc: Global,
    turns: u64,
    turn: Turn,
    events: &[Event],
) -> Result<Vec<u8>, NoMemory>
    requires { turns + 1 < 2 ^ 64 }
    ensures { IfOk result (λ text. text.items ≡ told_lines turns turn events.now) }
{
    let mut text = Vec::new(alloc);
    match turn {
        Turn::Ended(Finish::Blocked) => {
            add_lines(turns + 1, events, &mut text)?;
            trace_line(turns, &Event::Blocked, &mut text)?;
        }
        Turn::Went | Turn::Ended(_) => add_lines(turns, events, &mut text)?,
    }
    Ok(text)
}

/// The lines of what the native kernel was told and asked in the turn of this number, from 1 on.
pub(crate) fn entry_lines(
    alloc: Global,
    turn: u64,
    entries: &[LogEntry],
) -> Result<Vec<u8>, NoMemory>
    ensures { IfOk result (λ text. text.items ≡ entry_lines turn entries.now) }
{
    let mut text = Vec::new(alloc);
    for entry in entries {
        native_line(turn, entry, &mut text)?;
    }
    Ok(text)
}
