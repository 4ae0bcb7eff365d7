//! The names of a directory that is being read.
ghost use Rattle.std.specs.Prelude.{◌≡◌, ℕ, List, not, ◌||◌, IfOk, OnOk};
ghost use Rattle.std.specs.Str.{bytes_eq};
ghost use Rattle.fs_image.specs.inside.Names.{has_name};

use std::alloc::AllocError;
use std::collections::HashSet;

/// Takes one more name, and tells whether it is new. Costs by the name's length alone.
pub(crate) fn take_name<'a>(
    names: &mut HashSet<&'a [u8]>,
    name: &'a [u8],
) -> Result<bool, AllocError>
    ensures new { IfOk result (λ new. new ≡ not (has_name names.old name.now)) }
    ensures names { OnOk result ((bytes : List ℕ) → has_name names.new bytes ≡ (bytes_eq name.now bytes || has_name names.old bytes)) }
{
    Ok(names.insert(name)?)
}
