//! The end of a journal.
ghost use Rattle.std.specs.Prelude.{◌≡◌, ◌≤◌, Some};
ghost use Rattle.journal.specs.Form.{AreRecords, greatest_turn, none_before};
ghost use Rattle.replay_core.specs.Whole.{last_of};

use journal::Records;
use kernel_core::Finish;

/// The turn of the last of some records, and the finish that it has.
#[derive(Clone, Copy)]
pub(crate) struct Last {
    pub(crate) turn: u64,
    pub(crate) finish: Option<Finish>,
}

/// The turn of a journal's end, and how the run was over.
#[derive(Clone, Copy)]
pub(crate) struct End {
    pub(crate) turn: u64,
    pub(crate) finish: Finish,
}

/// The turn and the finish of the last record. Costs by the number of all effects.
fn last_of(records: &Records<'_>) -> Last
    ensures { result ≡ last_of records.now }
{
    let mut left = records.iter();
    let mut last = Last {
        turn: 0,
        finish: None,
    };
    while let Some(entry) = left.next() {
        last = Last {
            turn: entry.turn,
            finish: entry.finish,
        };
    }
    last
}

/// The end of the records of a journal.
pub(crate) fn end_of(records: &Records<'_>) -> End
    requires { AreRecords none_before records.now }
    ensures turn { result.turn ≡ (last_of records.now).turn }
    ensures finish { (last_of records.now).finish ≡ Some result.finish }
    ensures few { result.turn ≤ greatest_turn }
{
    let last = last_of(records);
    End {
        turn: last.turn,
        finish: last.finish.unwrap(),
    }
}
