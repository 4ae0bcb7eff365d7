//! What files always are, kept by rows on the node that a path or a descriptor names (chmod(2), utimensat(2),
//! truncate(2), chdir(2), umask(2)).

ghost use Rattle.std.specs.Prelude.{Bool, List, Option, ℕ, ℤ};
ghost use Rattle.kernel_core.specs.FileSystem.{IsTime};
ghost use Rattle.kernel_laws.specs.Arguments.{AreSeconds, WhereGiven};
ghost use Rattle.kernel_model.specs.Always.{IsFiles};
ghost use Rattle.kernel_model.specs.Came.{Given};
ghost use Rattle.kernel_model.specs.NodeRows.{change_directory, change_mode, change_open_mode, change_to_open, set_times, set_umask, Times, truncate, truncate_open};
ghost use Rattle.kernel_model.specs.Paths.{Base};
ghost use Rattle.kernel_model.specs.State.{Files};

/// A node gets another mode.
pub fn changing_a_mode_keeps_files()
    ensures change_mode { (files : Files) (now : ℤ) (base : Base) (path : Given (List ℕ)) (mode : ℕ) → IsFiles files → IsTime now → IsFiles (change_mode files now base path mode).state }
    ensures change_open_mode { (files : Files) (now : ℤ) (fd mode : ℕ) → IsFiles files → IsTime now → IsFiles (change_open_mode files now fd mode).state }
{}

/// A node gets other times.
pub fn setting_times_keeps_files()
    ensures { (files : Files) (now : ℤ) (base : Base) (path : Option (Given (List ℕ))) (times : Option (Given Times)) (follow : Option Bool) → IsFiles files → IsTime now → WhereGiven AreSeconds times → IsFiles (set_times files now base path times follow).state }
{}

/// A file gets another size.
pub fn changing_a_size_keeps_files()
    ensures truncate { (files : Files) (now : ℤ) (base : Base) (path : Given (List ℕ)) (size : ℤ) → IsFiles files → IsTime now → IsFiles (truncate files now base path size).state }
    ensures truncate_open { (files : Files) (now : ℤ) (fd : ℕ) (size : ℤ) → IsFiles files → IsTime now → IsFiles (truncate_open files now fd size).state }
{}

/// Another directory is the working directory, and the old one is let go.
pub fn changing_the_directory_keeps_files()
    ensures change_directory { (files : Files) (path : Given (List ℕ)) → IsFiles files → IsFiles (change_directory files path).state }
    ensures change_to_open { (files : Files) (fd : ℕ) → IsFiles files → IsFiles (change_to_open files fd).state }
{}

/// New nodes get other bits of the mode.
pub fn setting_the_umask_keeps_files()
    ensures { (files : Files) (umask : ℕ) → IsFiles files → IsFiles (set_umask files umask).state }
{}
