//! The plan of the soak program.
ghost use Rattle.std.specs.Prelude.{◌≡◌, ◌≤◌, IfOk};
ghost use Rattle.elf_image.specs.Loading.{IsValidPlan};
ghost use Rattle.soak_ends.specs.Line.{soak_plan};

use elf_image::{ElfError, Plan, parse};
use kernel_core::NoMemory;
use soak_program::soak_program;
use std::alloc::Global;

/// The plan of the program for so many numbers, 1 to 65,536, as a loader makes it of the program's executable. (The program
/// is this project's own.)
///
/// # Errors
///
/// `NoMemory` alone.
#[tactic(auto, using(crate::proofs::Planning::accepted))]
pub fn soak_plan(alloc: Global, count: u32) -> Result<Plan, NoMemory>
    requires some { 1 ≤ count }
    requires few { count ≤ 65536 }
    ensures plan { IfOk result (λ plan. plan ≡ soak_plan count) }
    ensures valid { IfOk result IsValidPlan }
{
    let bytes = soak_program(alloc, count)?;
    match parse(alloc, &bytes) {
        Ok(plan) => Ok(plan),
        Err(ElfError::NoMemory) => Err(NoMemory),
        Err(ElfError::Refused(_)) => unreachable!(),
    }
}
