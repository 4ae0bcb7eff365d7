//! The files that a run begins with, loaded in their order.
ghost use Rattle.std.specs.Prelude.{◌≤◌, ◌<◌, length, IfOk};
ghost use Rattle.elf_image.specs.Loading.{IsValidPlan};
ghost use Rattle.kernel_core.specs.ValidTree.{IsValidTree};
ghost use Rattle.schedule.specs.Ranges.{IsGivenSchedule};
ghost use Rattle.session_files.specs.Inputs.{names_of};
ghost use Rattle.session_files.specs.Steps.{AreInputs, LoadsFiles, ReasonOnlyIfRose};
ghost use Rattle.session_words.specs.Read.{line_seen};
ghost use Rattle.session_words.specs.Words.{texts};
ghost use Rattle.stored_files.specs.Stored.{stored_of};

use crate::image::first_tree;
use crate::not_run::NotRun;
use crate::program::load_plan;
use crate::settings::run_schedule;
use elf_image::Plan;
use kernel_core::Tree;
use outside::Store;
use schedule::Schedule;
use session_words::{RunLine, word_at};
use std::alloc::Global;

/// What the files of a run come to.
#[derive(Drop)]
pub struct Inputs {
    /// The plan of the program.
    pub plan: Plan,
    /// The tree of files that the run begins with.
    pub tree: Tree,
    /// The schedule of the run.
    pub schedule: Schedule,
}

/// What the files come to that a line of words names: the program, then the image, then the schedule, each loaded once and looked at
/// before the next is loaded. (The order is this project's own.)
///
/// # Errors
///
/// Refused by the first file that is refused; a read fault where the store fails, and want of memory.
pub fn load_inputs<F: Store>(
    alloc: Global,
    words: &[String],
    line: &RunLine,
    files: &mut F,
) -> Result<Inputs, NotRun>
    requires { line.now.program < length words.now }
    ensures inputs { AreInputs (F.files files.old) (names_of (texts words.now) (line_seen line.now)) result }
    ensures plan { IfOk result (λ inputs. IsValidPlan inputs.plan) }
    ensures tree { IfOk result (λ inputs. IsValidTree inputs.tree) }
    ensures schedule { IfOk result (λ inputs. IsGivenSchedule inputs.schedule) }
    ensures loads { LoadsFiles (names_of (texts words.now) (line_seen line.now)) result
        (stored_of F.files F.created F.loads F.turned_away F.write_faults files.old)
        (stored_of F.files F.created F.loads F.turned_away F.write_faults files.new) }
    ensures cause { ReasonOnlyIfRose result (F.load_faults files.old) (F.load_faults files.new) }
    ensures later { F.load_faults files.old ≤ F.load_faults files.new }
{
    let plan = load_plan(alloc, word_at(words, line.program), files)?;
    let tree = first_tree(alloc, words, line.image, files)?;
    let schedule = run_schedule(alloc, words, line.schedule, files)?;
    Ok(Inputs {
        plan,
        tree,
        schedule,
    })
}
