//! Whole lines.
ghost use Rattle.std.specs.Prelude.{◌≡◌, ◌++◌, IfOk, OnErr, OnOk};
ghost use Rattle.std.specs.String.{string_bytes};
ghost use Rattle.trace_text.specs.NativeLog.{native_line};
ghost use Rattle.trace_text.specs.Trace.{trace_line};

use crate::events::Told;
use crate::natives::{Arguments, Gave, memory_text};
use kernel_core::{Event, LogEntry, NoMemory};
use number_tables::NativeNumber;
use std::alloc::Global;

/// Adds the line of an event to a trace, with the number of its turn, from 1 on. After want of memory nothing
/// was added. (The line is this project's own.)
pub fn trace_line(turn: u64, event: &Event, out: &mut Vec<u8>) -> Result<(), NoMemory>
    ensures line { OnOk result (out.new.items ≡ out.old.items ++ trace_line turn event.now) }
    ensures no_memory { OnErr result (out.new.items ≡ out.old.items) }
{
    let told = Told { event };
    let line = format!(in *out.allocator(); "{turn} {told}\n")?;
    out.extend_from_slice(line.as_bytes())?;
    Ok(())
}

/// Adds the line of an entry to the log of the native kernel, with the number of its turn, from 1 on. After want of
/// memory nothing was added. (The line is this project's own.)
pub fn native_line(turn: u64, entry: &LogEntry, out: &mut Vec<u8>) -> Result<(), NoMemory>
    ensures line { OnOk result (out.new.items ≡ out.old.items ++ native_line turn entry.now) }
    ensures no_memory { OnErr result (out.new.items ≡ out.old.items) }
{
    let line = line_of(*out.allocator(), turn, entry)?;
    out.extend_from_slice(line.as_bytes())?;
    Ok(())
}

#[tactic(auto, unfolding(crate::specs::NativeLog::gave_text))]
fn line_of(alloc: Global, turn: u64, entry: &LogEntry) -> Result<String, NoMemory>
    ensures { IfOk result (λ line. string_bytes line ≡ native_line turn entry.now) }
{
    match entry {
        LogEntry::Clock { ns } => Ok(format!(in alloc; "{turn} clock {ns}\n")?),
        LogEntry::Post { sig, code, value } => {
            let number = sig.to_native();
            Ok(format!(in alloc; "{turn} post {number} {code} {value}\n")?)
        }
        LogEntry::Call {
            nr,
            args,
            before,
            after,
            reply,
        } => {
            let arguments = Arguments { words: *args };
            let before = memory_text(alloc, before)?;
            let after = memory_text(alloc, after)?;
            let gave = Gave {
                before: before.as_str(),
                after: after.as_str(),
                reply: *reply,
            };
            Ok(format!(in alloc; "{turn} call {nr} {arguments} {gave}\n")?)
        }
    }
}
