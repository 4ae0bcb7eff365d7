//! The line on a run of the soak program, by the tree of files that the run leaves.
ghost use Rattle.std.specs.Prelude.{◌≡◌, IfOk};
ghost use Rattle.soak_program.specs.Line.{soak_line};
ghost use Rattle.soak_ends.specs.Line.{line_on};

use crate::written::{Written, written_in};
use kernel_core::{Bytes, NoMemory, Tree};
use soak_program::soak_line;
use std::alloc::Global;

/// The line of these turns, with the bytes and the last word of the file.
fn one_line(alloc: Global, count: u32, turns: u64, written: Written) -> Result<Bytes, NoMemory>
    ensures { IfOk result (λ line. line ≡ soak_line count turns written.bytes written.sum) }
{
    let mut line = Vec::new(alloc);
    soak_line(count, turns, written.bytes, written.sum, &mut line)?;
    Ok(Bytes::from(line))
}

/// The line, with its newline, on a run for so many numbers that exited with 0 after these turns and left this tree: with the
/// size and the last word of the file `/s`. There is none where no file of at least four bytes has that name. (The line is this
/// project's own.)
///
/// # Errors
///
/// `NoMemory` alone.
pub fn line_on(
    alloc: Global,
    count: u32,
    turns: u64,
    tree: &Tree,
) -> Result<Option<Bytes>, NoMemory>
    ensures { IfOk result (λ line. line ≡ line_on count turns tree.now) }
{
    match written_in(tree) {
        Some(written) => Ok(Some(one_line(alloc, count, turns, written)?)),
        None => Ok(None),
    }
}
