//! Laws of the soak program's executable: a loader accepts it, and loads its code and its data.
#![tactic(auto)]

ghost use Rattle.std.specs.Prelude.{◌≡◌, ◌≤◌, None, ℕ};
ghost use Rattle.elf_image.specs.Loading.{plan_of};
ghost use Rattle.elf_image.specs.Rules.{first_failure};
ghost use Rattle.soak_laws.specs.Plan.{soak_plan};
ghost use Rattle.soak_program.specs.Executable.{soak_file};

/// The executable for up to 65,536 numbers breaks no rule of `elf_image`.
pub fn soak_program_is_accepted()
    ensures { (count : ℕ) → count ≤ 65536 → first_failure (soak_file count) ≡ None }
{}

/// It asks for two segments: its code from the entry on, to be read and executed, and its data, to be read and
/// written.
pub fn soak_program_plan()
    ensures { (count : ℕ) → count ≤ 65536 → plan_of (soak_file count) ≡ soak_plan count }
{}
