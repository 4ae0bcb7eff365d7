//! The numbers of new things (open(2), pipe(2)).

ghost use Rattle.std.specs.Prelude.{◌≡◌, ℕ, List, Option, Some};
ghost use Rattle.kernel_model.specs.Always.{IsFiles, IsTable};
ghost use Rattle.kernel_model.specs.Laws.{IsLeastFree};
ghost use Rattle.kernel_model.specs.State.{Descriptors, Files};
ghost use Rattle.kernel_model.specs.Table.{lowest_free, new_place};
ghost use Rattle.kernel_model.specs.declared.descriptor.Descriptor.{Descriptor};
ghost use Rattle.kernel_model.specs.declared.descriptor.Description.{Description};

/// A call that needs a descriptor gets the least free one from where it looks on.
pub fn a_new_descriptor_is_the_least()
    ensures { (fds : List (Option Descriptor)) (from fd : ℕ) → lowest_free fds from ≡ Some fd → IsLeastFree fds from fd }
{}

/// Where a descriptor is free, a new description gets the least number that no live one has: no more are
/// taken than descriptors.
pub fn a_new_description_has_the_least_number()
    ensures { (table : Descriptors Description) → IsTable table → (from fd : ℕ) → lowest_free table.fds from ≡ Some fd → IsLeastFree table.live 0 (new_place table.live) }
{}

/// Where a descriptor is free, a new pipe gets the least number that no other has: each has an end that a
/// description has open.
pub fn a_new_pipe_has_the_least_number()
    ensures { (files : Files) → IsFiles files → (from fd : ℕ) → lowest_free files.table.fds from ≡ Some fd → IsLeastFree files.flow.pipes 0 (new_place files.flow.pipes) }
{}
