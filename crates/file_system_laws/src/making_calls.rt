//! The calls that make a name (open(2), mkdir(2), symlink(2), link(2)).

ghost use Rattle.std.specs.Prelude.{slice_index, ◌<◌, ◌≡◌, ◌≤◌, ◌==◌, ℕ, ℤ, false, List, length, Some, None};
ghost use Rattle.std.specs.List.{list_any};
ghost use Rattle.std.specs.FinMap.{get};
ghost use Rattle.kernel_core.specs.FileSystem.{IsFileSystem, IsTime};
ghost use Rattle.kernel_core.specs.NameCalls.{IsNewNumber, make_refusal, symlink_refusal, link_refusal, after_create, after_mkdir, after_symlink, after_link};
ghost use Rattle.kernel_core.specs.Nodes.{Nodes, Inode};
ghost use Rattle.kernel_core.specs.PathWalk.{Place, Agrees};
ghost use Rattle.kernel_core.specs.ValidTree.{greatest_mode};

/// An empty file is made under a name (open(2) with `O_CREAT`).
pub fn making_a_file_keeps_the_file_system()
    ensures { (nodes : Nodes) (place : Place) (number mode : ℕ) (now : ℤ) → IsFileSystem nodes → Agrees nodes place
        → make_refusal nodes place ≡ None → IsNewNumber nodes number → mode ≤ greatest_mode → IsTime now
        → IsFileSystem (after_create nodes place number mode now) }
{}

/// An empty directory is made under a name (mkdir(2)).
pub fn making_a_directory_keeps_the_file_system()
    ensures { (nodes : Nodes) (place : Place) (number mode : ℕ) (now : ℤ) → IsFileSystem nodes → Agrees nodes place
        → make_refusal nodes place ≡ None → IsNewNumber nodes number → mode ≤ greatest_mode → IsTime now
        → IsFileSystem (after_mkdir nodes place number mode now) }
{}

/// A symbolic link is made under a name, with a target of at most 4095 bytes without NUL
/// (symlink(2)).
pub fn making_a_symbolic_link_keeps_the_file_system()
    ensures { (nodes : Nodes) (place : Place) (number : ℕ) (target : List ℕ) (now : ℤ) → IsFileSystem nodes → Agrees nodes place
        → symlink_refusal nodes place target ≡ None → IsNewNumber nodes number → IsTime now
        → ((at : ℕ) → slice_index target at < 256) → length target ≤ 4095 → list_any (λ byte. byte == 0) target ≡ false
        → IsFileSystem (after_symlink nodes place number target now) }
{}

/// A live node gets a second name (link(2)).
pub fn linking_a_node_keeps_the_file_system()
    ensures { (nodes : Nodes) (node : ℕ) (inode : Inode) (place : Place) (now : ℤ) → IsFileSystem nodes → Agrees nodes place
        → link_refusal nodes node place ≡ None → get nodes node ≡ Some inode → IsTime now
        → IsFileSystem (after_link nodes node place now) }
{}
