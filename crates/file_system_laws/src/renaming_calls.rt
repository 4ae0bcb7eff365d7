//! The call that moves a name (rename(2)), and the test on which it rests: no directory moves into
//! its own subtree.

ghost use Rattle.std.specs.Prelude.{◌≡◌, ◌≢◌, ℕ, ℤ, false, Some, None};
ghost use Rattle.kernel_core.specs.FileSystem.{IsFileSystem, IsTime, IsBelowRoot, parent_at};
ghost use Rattle.kernel_core.specs.NameCalls.{is_in_subtree, rename_refusal, after_rename};
ghost use Rattle.kernel_core.specs.Nodes.{Nodes};
ghost use Rattle.kernel_core.specs.PathWalk.{Place, Agrees};

/// A name moves, also to where another node stood (rename(2)).
pub fn renaming_a_node_keeps_the_file_system()
    ensures { (nodes : Nodes) (from to : Place) (moved : ℕ) (now : ℤ) → IsFileSystem nodes → Agrees nodes from → Agrees nodes to
        → from.node ≡ Some moved → rename_refusal nodes from to ≡ None → IsTime now
        → IsFileSystem (after_rename nodes from to moved now) }
{}

/// Where a directory that moves gets a parent outside its own subtree, and no other parent changes,
/// each directory that hung below the root still does.
pub fn moving_outside_a_subtree_keeps_the_chains_to_the_root()
    ensures { (nodes changed : Nodes) (moved parent : ℕ) → IsBelowRoot nodes parent → is_in_subtree nodes moved parent ≡ false
        → parent_at changed moved ≡ Some parent
        → ((number : ℕ) → number ≢ moved → parent_at changed number ≡ parent_at nodes number)
        → (number : ℕ) → IsBelowRoot nodes number → IsBelowRoot changed number }
{}
