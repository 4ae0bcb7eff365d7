//! What each call does to the holds of nodes (open(2), close(2), chdir(2)) and to their kinds: a node that is
//! held lives on, and stays what it is.

ghost use Rattle.std.specs.Prelude.{◌≡◌, ◌↔◌, ◌+◌, ◌-◌, ℕ, ℤ, true, List, Option, Some, is_some, IsSome};
ghost use Rattle.std.specs.FinMap.{get};
ghost use Rattle.kernel_core.specs.NameCalls.{IsNewNumber, after_create, after_mkdir, after_symlink, after_link, after_unlink, after_rmdir, after_rename};
ghost use Rattle.kernel_core.specs.NodeCalls.{with_mode, with_times, held, released, after_write, after_resize};
ghost use Rattle.kernel_core.specs.Nodes.{Nodes, update, file_at, target_at, is_directory};
ghost use Rattle.kernel_core.specs.PathWalk.{Place};
ghost use Rattle.kernel_core.specs.Queries.{FileKind, DirectoryKind, LinkKind, kind_at, KeepsHolds, ChangesHolds, KeepsKinds, LiveOn};

/// Where a call keeps the kinds of nodes, as each call does, a node that is held before and after it lives, and is of
/// the kind that it was.
pub fn a_held_node_lives_on()
    ensures { (old new : Nodes) → KeepsKinds old new → LiveOn old new }
{}

/// A node has a file's content, a directory's or a link's exactly where it is of that kind.
pub fn the_kind_of_a_node_tells_its_content()
    ensures file { (nodes : Nodes) (number : ℕ) → (kind_at nodes number ≡ Some FileKind) ↔ IsSome (file_at nodes number) }
    ensures directory { (nodes : Nodes) (number : ℕ) → (kind_at nodes number ≡ Some DirectoryKind) ↔ (is_directory nodes number ≡ true) }
    ensures link { (nodes : Nodes) (number : ℕ) → (kind_at nodes number ≡ Some LinkKind) ↔ IsSome (target_at nodes number) }
{}

/// A file is made (open(2) with `O_CREAT`): nothing holds it, and all other nodes are held as before.
pub fn making_a_file_keeps_holds()
    ensures holds { (nodes : Nodes) (place : Place) (number mode : ℕ) (now : ℤ) → IsNewNumber nodes number
        → KeepsHolds nodes (after_create nodes place number mode now) }
    ensures kinds { (nodes : Nodes) (place : Place) (number mode : ℕ) (now : ℤ) → IsNewNumber nodes number
        → KeepsKinds nodes (after_create nodes place number mode now) }
{}

/// A directory is made (mkdir(2)).
pub fn making_a_directory_keeps_holds()
    ensures holds { (nodes : Nodes) (place : Place) (number mode : ℕ) (now : ℤ) → IsNewNumber nodes number
        → KeepsHolds nodes (after_mkdir nodes place number mode now) }
    ensures kinds { (nodes : Nodes) (place : Place) (number mode : ℕ) (now : ℤ) → IsNewNumber nodes number
        → KeepsKinds nodes (after_mkdir nodes place number mode now) }
{}

/// A symbolic link is made (symlink(2)).
pub fn making_a_symbolic_link_keeps_holds()
    ensures holds { (nodes : Nodes) (place : Place) (number : ℕ) (target : List ℕ) (now : ℤ) → IsNewNumber nodes number
        → KeepsHolds nodes (after_symlink nodes place number target now) }
    ensures kinds { (nodes : Nodes) (place : Place) (number : ℕ) (target : List ℕ) (now : ℤ) → IsNewNumber nodes number
        → KeepsKinds nodes (after_symlink nodes place number target now) }
{}

/// A node gets a second name (link(2)).
pub fn linking_a_node_keeps_holds()
    ensures holds { (nodes : Nodes) (node : ℕ) (place : Place) (now : ℤ) → KeepsHolds nodes (after_link nodes node place now) }
    ensures kinds { (nodes : Nodes) (node : ℕ) (place : Place) (now : ℤ) → KeepsKinds nodes (after_link nodes node place now) }
{}

/// A file or a symbolic link loses a name (unlink(2)).
pub fn removing_a_file_name_keeps_holds()
    ensures holds { (nodes : Nodes) (place : Place) (node : ℕ) (now : ℤ) → KeepsHolds nodes (after_unlink nodes place node now) }
    ensures kinds { (nodes : Nodes) (place : Place) (node : ℕ) (now : ℤ) → KeepsKinds nodes (after_unlink nodes place node now) }
{}

/// A directory loses its name (rmdir(2)).
pub fn removing_a_directory_keeps_holds()
    ensures holds { (nodes : Nodes) (place : Place) (node : ℕ) (now : ℤ) → KeepsHolds nodes (after_rmdir nodes place node now) }
    ensures kinds { (nodes : Nodes) (place : Place) (node : ℕ) (now : ℤ) → KeepsKinds nodes (after_rmdir nodes place node now) }
{}

/// A name moves, also to where another node stood (rename(2)).
pub fn renaming_a_node_keeps_holds()
    ensures holds { (nodes : Nodes) (from to : Place) (moved : ℕ) (now : ℤ) → KeepsHolds nodes (after_rename nodes from to moved now) }
    ensures kinds { (nodes : Nodes) (from to : Place) (moved : ℕ) (now : ℤ) → KeepsKinds nodes (after_rename nodes from to moved now) }
{}

/// A live node is held (open(2), chdir(2)): once more than before, and no other node is.
pub fn holding_a_node_counts_one_hold_more()
    ensures holds { (nodes : Nodes) (number : ℕ) → is_some (get nodes number) ≡ true
        → ChangesHolds nodes (update nodes number held) number (λ n. n + 1) }
    ensures kinds { (nodes : Nodes) (number : ℕ) → KeepsKinds nodes (update nodes number held) }
{}

/// A hold of a node is released (close(2)): it is held once less than before, and every other node as before.
pub fn releasing_a_node_counts_one_hold_less()
    ensures holds { (nodes : Nodes) (number : ℕ) → ChangesHolds nodes (released nodes number) number (λ n. n - 1) }
    ensures kinds { (nodes : Nodes) (number : ℕ) → KeepsKinds nodes (released nodes number) }
{}

/// A file is written (write(2)).
pub fn writing_a_file_keeps_holds()
    ensures holds { (nodes : Nodes) (number at : ℕ) (bytes : List ℕ) (now : ℤ) → KeepsHolds nodes (after_write nodes number at bytes now) }
    ensures kinds { (nodes : Nodes) (number at : ℕ) (bytes : List ℕ) (now : ℤ) → KeepsKinds nodes (after_write nodes number at bytes now) }
{}

/// A file gets another size (truncate(2)).
pub fn resizing_a_file_keeps_holds()
    ensures holds { (nodes : Nodes) (number size : ℕ) (now : ℤ) → KeepsHolds nodes (after_resize nodes number size now) }
    ensures kinds { (nodes : Nodes) (number size : ℕ) (now : ℤ) → KeepsKinds nodes (after_resize nodes number size now) }
{}

/// A node gets another mode (chmod(2)).
pub fn changing_a_mode_keeps_holds()
    ensures holds { (nodes : Nodes) (number mode : ℕ) (now : ℤ) → KeepsHolds nodes (update nodes number (with_mode mode now)) }
    ensures kinds { (nodes : Nodes) (number mode : ℕ) (now : ℤ) → KeepsKinds nodes (update nodes number (with_mode mode now)) }
{}

/// A node gets other times (utimensat(2)).
pub fn setting_times_keeps_holds()
    ensures holds { (nodes : Nodes) (number : ℕ) (access modified : Option ℤ) (now : ℤ)
        → KeepsHolds nodes (update nodes number (with_times access modified now)) }
    ensures kinds { (nodes : Nodes) (number : ℕ) (access modified : Option ℤ) (now : ℤ)
        → KeepsKinds nodes (update nodes number (with_times access modified now)) }
{}
