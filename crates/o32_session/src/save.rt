//! The final tree of a run, saved to a file.
ghost use Rattle.std.specs.Prelude.{◌≡◌, ◌≤◌, Some, option_map};
ghost use Rattle.o32_session.specs.inside.Runs.{SavesOrStops};
ghost use Rattle.o32_session.specs.Session.{final_tree};
ghost use Rattle.o32_session.specs.Words.{texts, word_at};
ghost use Rattle.session_files.specs.Steps.{SaveFailsOnlyIfRose, StandsWithoutImage};
ghost use Rattle.stored_files.specs.Stored.{stored_of};

use kernel_core::NoMemory;
use o32_runner::Emulator;
use outside::Store;
use session_files::{SaveError, save_tree};
use session_words::word_at;
use std::alloc::Global;

/// Saves the tree of the files that a run leaves to the file of this name.
fn save_run<F: Store>(
    alloc: Global,
    name: &str,
    emulator: &Emulator,
    files: &mut F,
) -> Result<(), SaveError>
    ensures saved { SavesOrStops (Some name.now) (final_tree emulator.now.machine) result
        (stored_of F.files F.created F.loads F.turned_away F.write_faults files.old)
        (stored_of F.files F.created F.loads F.turned_away F.write_faults files.new) }
    ensures unmade { StandsWithoutImage result
        (stored_of F.files F.created F.loads F.turned_away F.write_faults files.old)
        (stored_of F.files F.created F.loads F.turned_away F.write_faults files.new) }
    ensures cause { SaveFailsOnlyIfRose result (F.write_faults files.old) (F.write_faults files.new) }
    ensures later { F.write_faults files.old ≤ F.write_faults files.new }
    ensures loads { F.load_faults files.new ≡ F.load_faults files.old }
{
    match emulator.tree() {
        Ok(tree) => save_tree(alloc, name, &tree, files),
        Err(NoMemory) => Err(SaveError::NoImage),
    }
}

/// Saves the final tree to the file whose name is at index `save` of the words, where it is saved.
pub(crate) fn save_final<F: Store>(
    alloc: Global,
    words: &[String],
    save: Option<usize>,
    emulator: &Emulator,
    files: &mut F,
) -> Result<(), SaveError>
    ensures saved { SavesOrStops (option_map (word_at (texts words.now)) save) (final_tree emulator.now.machine) result
        (stored_of F.files F.created F.loads F.turned_away F.write_faults files.old)
        (stored_of F.files F.created F.loads F.turned_away F.write_faults files.new) }
    ensures unmade { StandsWithoutImage result
        (stored_of F.files F.created F.loads F.turned_away F.write_faults files.old)
        (stored_of F.files F.created F.loads F.turned_away F.write_faults files.new) }
    ensures cause { SaveFailsOnlyIfRose result (F.write_faults files.old) (F.write_faults files.new) }
    ensures later { F.write_faults files.old ≤ F.write_faults files.new }
    ensures loads { F.load_faults files.new ≡ F.load_faults files.old }
{
    match save {
        Some(at) => save_run(alloc, word_at(words, at), emulator, files),
        None => Ok(()),
    }
}
