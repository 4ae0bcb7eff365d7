//! What turns add to a journal.
ghost use Rattle.std.specs.Prelude.{◌≡◌, ◌≤◌, ◌++◌, [], ◌∷◌, IfOk, OnOk};
ghost use Rattle.o32_runner.specs.JournalText.{records_text};
ghost use Rattle.o32_runner.specs.inside.Told.{budget_record, told_records};
ghost use Rattle.turn_records.specs.Run.{end_of};

use crate::forms::is_record;
use journal::add;
use kernel_core::{Finish, Items, NoMemory, Record};
use o32_machine::Turn;
use std::alloc::Global;

/// The kind of an end. (The journal is this project's own.)
const END: u8 = 4;

/// The record of a run that is over so after these turns.
fn end(alloc: Global, turns: u64, finish: Finish) -> Record
    ensures { result ≡ end_of turns finish }
{
    Record {
        turn: turns,
        kind: END,
        words: [0; 6],
        effects: Items::from(Vec::new(alloc)),
        finish: Some(finish),
    }
}

/// Adds the end of a run that is over so after these turns to a text.
fn add_end(alloc: Global, turns: u64, finish: Finish, text: &mut Vec<u8>) -> Result<(), NoMemory>
    requires { turns ≤ 1_000_000_000_000 }
    ensures { OnOk result (text.new.items ≡ text.old.items ++ records_text (end_of turns finish ∷ [])) }
{
    add(&end(alloc, turns, finish), text)
}

/// Adds a record of a turn to a text.
fn add_record(entry: &Record, text: &mut Vec<u8>) -> Result<(), NoMemory>
    ensures { OnOk result (text.new.items ≡ text.old.items ++ records_text (entry.now ∷ [])) }
{
    if !is_record(entry) {
        return Err(NoMemory);
    }
    add(entry, text)
}

/// Adds records of turns to a text.
fn add_records(records: &[Record], text: &mut Vec<u8>) -> Result<(), NoMemory>
    ensures { OnOk result (text.new.items ≡ text.old.items ++ records_text records.now) }
{
    for entry in records {
        add_record(entry, text)?;
    }
    Ok(())
}

/// What a turn that came to this adds to the journal, where `turns` are done then: what stands before its records, its records,
/// and the end, where the run is over with it.
pub(crate) fn told_records(
    alloc: Global,
    front: &[u8],
    records: &[Record],
    turns: u64,
    turn: Turn,
) -> Result<Vec<u8>, NoMemory>
    requires { turns ≤ 1_000_000_000_000 }
    ensures { IfOk result (λ text. text.items ≡ front.now ++ records_text (told_records turns turn records.now)) }
{
    let mut text = Vec::new(alloc);
    text.extend_from_slice(front)?;
    add_records(records, &mut text)?;
    match turn {
        Turn::Went => {}
        Turn::Ended(finish) => add_end(alloc, turns, finish, &mut text)?,
    }
    Ok(text)
}

/// What a run whose budget's turns are done adds to the journal: what stands before, and the end.
pub(crate) fn budget_record(alloc: Global, front: &[u8], turns: u64) -> Result<Vec<u8>, NoMemory>
    requires { turns ≤ 1_000_000_000_000 }
    ensures { IfOk result (λ text. text.items ≡ budget_record front.now turns) }
{
    let mut text = Vec::new(alloc);
    text.extend_from_slice(front)?;
    add_end(alloc, turns, Finish::Budget, &mut text)?;
    Ok(text)
}
