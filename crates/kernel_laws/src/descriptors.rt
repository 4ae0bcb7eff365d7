//! What files always are, kept by rows on descriptors (close(2), dup2(2), fcntl(2)).

ghost use Rattle.std.specs.Prelude.{Bool, Option, ℕ};
ghost use Rattle.kernel_laws.specs.Ends.{HasEndsOnce};
ghost use Rattle.kernel_model.specs.Always.{IsFiles};
ghost use Rattle.kernel_model.specs.DescriptorRows.{close, duplicate_onto, duplicate_onto_with, set_close_on_exec};
ghost use Rattle.kernel_model.specs.State.{Files};

/// A descriptor is closed, and its description goes where that was its last: an end of a pipe, and the pipe
/// with its last end, or a hold of a node.
pub fn closing_a_descriptor_keeps_files()
    ensures { (files : Files) (fd : ℕ) → IsFiles files → HasEndsOnce files → IsFiles (close files fd).state }
{}

/// A description gets one more descriptor, which is closed first where it is open.
pub fn duplicating_onto_a_descriptor_keeps_files()
    ensures duplicate_onto { (files : Files) (fd onto : ℕ) → IsFiles files → HasEndsOnce files → IsFiles (duplicate_onto files fd onto).state }
    ensures duplicate_onto_with { (files : Files) (fd onto : ℕ) (cloexec : Option Bool) → IsFiles files → HasEndsOnce files → IsFiles (duplicate_onto_with files fd onto cloexec).state }
{}

/// A descriptor is closed on execve(2) or not.
pub fn setting_close_on_exec_keeps_files()
    ensures { (files : Files) (fd : ℕ) (cloexec : Bool) → IsFiles files → IsFiles (set_close_on_exec files fd cloexec).state }
{}
