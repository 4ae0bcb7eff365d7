//! The program of a session: the plan of its file.
ghost use Rattle.std.specs.Prelude.{◌≡◌, ◌≤◌, IfOk, IfErr, None, Some};
ghost use Rattle.elf_image.specs.Rules.{first_failure};
ghost use Rattle.elf_image.specs.Loading.{plan_of};
ghost use Rattle.elf_image.specs.Loading as plans;
ghost use Rattle.session_files.specs.Steps.{IsElfReason, IsPlanned, LoadsFile, ReasonOnlyIfRose};
ghost use Rattle.session_files.specs.declared.load.SessionFile.TheVariants as which;
ghost use Rattle.stored_files.specs.Stored.{stored_of};

use crate::load::{SessionFile, load_file};
use crate::not_run::NotRun;
use elf_image::{Plan, parse};
use outside::Store;
use std::alloc::Global;

/// The plan of the program whose file has these bytes.
fn plan_of_file(alloc: Global, bytes: &[u8]) -> Result<Plan, NotRun>
    ensures plan { IfOk result (λ plan. (first_failure bytes.now ≡ None) × ((plan ≡ plan_of bytes.now) × plans.IsValidPlan plan)) }
    ensures reason { IfErr result (IsElfReason (first_failure bytes.now)) }
{
    Ok(parse(alloc, bytes)?)
}

/// The plan of the program of this name, as `elf_image` reads it.
///
/// # Errors
///
/// Refused where the store has no such file, where it is longer than its limit, and where it breaks a rule on executables; a read
/// fault where the store fails, and want of memory.
pub fn load_plan<F: Store>(alloc: Global, name: &str, files: &mut F) -> Result<Plan, NotRun>
    ensures plan { IsPlanned (F.files files.old) name.now result }
    ensures loads { LoadsFile which.Program (Some name.now) result
        (stored_of F.files F.created F.loads F.turned_away F.write_faults files.old)
        (stored_of F.files F.created F.loads F.turned_away F.write_faults files.new) }
    ensures cause { ReasonOnlyIfRose result (F.load_faults files.old) (F.load_faults files.new) }
    ensures later { F.load_faults files.old ≤ F.load_faults files.new }
{
    let bytes = load_file(alloc, SessionFile::Program, name, files)?;
    plan_of_file(alloc, &bytes)
}
