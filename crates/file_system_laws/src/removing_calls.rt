//! The calls that take a name away (unlink(2), rmdir(2)).

ghost use Rattle.std.specs.Prelude.{◌≡◌, ℕ, ℤ, Some, None};
ghost use Rattle.kernel_core.specs.FileSystem.{IsFileSystem, IsTime};
ghost use Rattle.kernel_core.specs.NameCalls.{unlink_refusal, after_unlink, rmdir_refusal, after_rmdir};
ghost use Rattle.kernel_core.specs.Nodes.{Nodes};
ghost use Rattle.kernel_core.specs.PathWalk.{Place, Agrees};

/// A file or a symbolic link loses a name, and goes where that was its last and nothing holds it
/// (unlink(2)).
pub fn removing_a_file_name_keeps_the_file_system()
    ensures { (nodes : Nodes) (place : Place) (node : ℕ) (now : ℤ) → IsFileSystem nodes → Agrees nodes place
        → place.node ≡ Some node → unlink_refusal nodes place ≡ None → IsTime now
        → IsFileSystem (after_unlink nodes place node now) }
{}

/// An empty directory loses its name, and goes where nothing holds it (rmdir(2)).
pub fn removing_a_directory_keeps_the_file_system()
    ensures { (nodes : Nodes) (place : Place) (node : ℕ) (now : ℤ) → IsFileSystem nodes → Agrees nodes place
        → place.node ≡ Some node → rmdir_refusal nodes place ≡ None → IsTime now
        → IsFileSystem (after_rmdir nodes place node now) }
{}
