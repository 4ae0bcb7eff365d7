//! From a file's bytes to its plan.
ghost use Rattle.std.specs.Prelude.{◌≡◌, ◌≤◌, None, Some, IfOk, IfErr, length};
ghost use Rattle.elf_image.specs.Fields.{loads as loads_of_file};
ghost use Rattle.elf_image.specs.inside.Header.{AreInside, HasHeader};
ghost use Rattle.elf_image.specs.Rules.{first_broken, header_rules, first_failure, IsCause};
ghost use Rattle.elf_image.specs.inside.Judges.{Judges};
ghost use Rattle.elf_image.specs.Loading.{plan_of, IsValidPlan};

use crate::fields::{ENTRY, TABLE_COUNT, TABLE_PLACE, half_at, word_at};
use crate::load_plan::Plan;
use crate::loading::{address_of, segments};
use crate::program_header::ProgramHeader;
use crate::refusal::{ElfError, ElfRefusal};
use crate::rules::{broken_header_rule, judge_loads};
use crate::table::{asks_interpreter, loads_of, table_of};
use std::alloc::{AllocError, Global};

/// The program headers that ask for memory, of a file that breaks no rule.
fn judged_loads(alloc: Global, bytes: &[u8]) -> Result<Vec<ProgramHeader>, ElfError>
    ensures judged { Judges (first_failure bytes.now) result }
    ensures header { (rule : ElfRefusal) → first_broken (header_rules bytes.now) ≡ Some rule
        → result ≡ Err (ElfError.Refused rule) }
    ensures loads { IfOk result (λ v. v.items ≡ loads_of_file bytes.now) }
    ensures long { IfOk result (λ _. HasHeader bytes.now) }
{
    if let Some(rule) = broken_header_rule(bytes) {
        return Err(ElfError::Refused(rule));
    }
    let headers = table_of(alloc, bytes)?;
    if asks_interpreter(headers.as_slice()) {
        return Err(ElfError::Refused(ElfRefusal::Interp));
    }
    let loads = loads_of(alloc, headers.as_slice())?;
    judge_loads(alloc, bytes.len(), loads.as_slice())?;
    Ok(loads)
}

/// The plan of a file whose load headers are these.
fn planned(alloc: Global, bytes: &[u8], loads: &[ProgramHeader]) -> Result<Plan, AllocError>
    requires long { HasHeader bytes.now }
    requires loads { loads.now ≡ loads_of_file bytes.now }
    requires inside { AreInside (length bytes.now) loads.now }
    ensures { IfOk result (λ plan. plan ≡ plan_of bytes.now) }
{
    let table = word_at(bytes, TABLE_PLACE);
    let count = u32::from(half_at(bytes, TABLE_COUNT));
    let segments = segments(alloc, bytes, loads)?;
    Ok(Plan {
        entry: word_at(bytes, ENTRY),
        phdr: address_of(loads, table, 32 * count),
        phnum: count,
        segments,
    })
}

/// The plan of an executable, or the first rule that the file breaks.
///
/// The bytes are those of a whole file, of any length. The rules and their order stand at
/// [`ElfRefusal`]. Beside the plan, parsing takes memory by the number of program headers, and
/// gives it back. (System V gABI; what is refused and in which order is this project's own.)
pub fn parse(alloc: Global, bytes: &[u8]) -> Result<Plan, ElfError>
    // A plan comes exactly where no rule is broken, unless memory runs out.
    ensures plan { IfOk result (λ plan. (first_failure bytes.now ≡ None) × (plan ≡ plan_of bytes.now)) }
    ensures refusal { IfErr result (IsCause (first_failure bytes.now)) }

    // A rule of the file's header needs no memory.
    ensures header { (rule : ElfRefusal) → first_broken (header_rules bytes.now) ≡ Some rule
        → result ≡ Err (ElfError.Refused rule) }

    ensures valid { IfOk result IsValidPlan }
{
    let loads = judged_loads(alloc, bytes)?;
    let plan = planned(alloc, bytes, loads.as_slice())?;
    Ok(plan)
}
