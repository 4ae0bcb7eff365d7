//! What files always are, kept by rows on names (open(2), mkdir(2), unlink(2), rmdir(2), link(2), symlink(2),
//! rename(2)).

ghost use Rattle.std.specs.Prelude.{Bool, List, Option, ℕ, ℤ};
ghost use Rattle.kernel_core.specs.FileSystem.{IsTime};
ghost use Rattle.kernel_laws.specs.Arguments.{IsShortText, IsText, WhereRead};
ghost use Rattle.kernel_model.specs.Always.{IsFiles};
ghost use Rattle.kernel_model.specs.Came.{Given};
ghost use Rattle.kernel_model.specs.NameRows.{link, make_directory, make_link, remove_name, rename};
ghost use Rattle.kernel_model.specs.Opening.{open_file};
ghost use Rattle.kernel_model.specs.Paths.{Base};
ghost use Rattle.kernel_model.specs.Shared.{OpenSet};
ghost use Rattle.kernel_model.specs.State.{Files};

/// A node that a path leads to is opened, cut to no byte, or made.
pub fn opening_keeps_files()
    ensures { (files : Files) (limit : Option ℕ) (now : ℤ) (base : Base) (path : Given (List ℕ)) (flags : Option OpenSet) (mode : ℕ) → IsFiles files → IsTime now → WhereRead IsText path → IsFiles (open_file files limit now base path flags mode).state }
{}

/// A directory, a second name or a symbolic link is made.
pub fn making_names_keeps_files()
    ensures make_directory { (files : Files) (now : ℤ) (base : Base) (path : Given (List ℕ)) (mode : ℕ) → IsFiles files → IsTime now → WhereRead IsText path → IsFiles (make_directory files now base path mode).state }
    ensures link { (files : Files) (now : ℤ) (old_base : Base) (old_path : Given (List ℕ)) (new_base : Base) (new_path : Given (List ℕ)) (follow : Option Bool) → IsFiles files → IsTime now → WhereRead IsText old_path → WhereRead IsText new_path → IsFiles (link files now old_base old_path new_base new_path follow).state }
    ensures make_link { (files : Files) (now : ℤ) (target : Given (List ℕ)) (base : Base) (path : Given (List ℕ)) → IsFiles files → IsTime now → WhereRead IsShortText target → WhereRead IsText path → IsFiles (make_link files now target base path).state }
{}

/// A name goes, and its node where that was its last and nothing holds it.
pub fn removing_a_name_keeps_files()
    ensures { (files : Files) (now : ℤ) (base : Base) (path : Given (List ℕ)) (directory : Option Bool) → IsFiles files → IsTime now → WhereRead IsText path → IsFiles (remove_name files now base path directory).state }
{}

/// A name moves, also to where another node stood.
pub fn renaming_keeps_files()
    ensures { (files : Files) (now : ℤ) (old_base : Base) (old_path : Given (List ℕ)) (new_base : Base) (new_path : Given (List ℕ)) → IsFiles files → IsTime now → WhereRead IsText old_path → WhereRead IsText new_path → IsFiles (rename files now old_base old_path new_base new_path).state }
{}
