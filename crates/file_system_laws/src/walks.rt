//! The walk of a path (path_resolution(7)).

ghost use Rattle.std.specs.Prelude.{◌≡◌, ℕ, Bool, List, Result};
ghost use Rattle.kernel_core.specs.Nodes.{Nodes};
ghost use Rattle.kernel_core.specs.PathWalk.{Place, Walks};
ghost use Rattle.kernel_core.specs.Queries.{walked};
ghost use Rattle.kernel_core.specs.declared.error.Errno.{Errno};

/// A path's walk has one answer alone: what the relation gives is a place or an error, and never two.
pub fn a_path_has_one_walk()
    ensures { (nodes : Nodes) (from : ℕ) (path : List ℕ) (follow : Bool) (first second : Result Place Errno)
        → Walks nodes from path follow first → Walks nodes from path follow second → first ≡ second }
{}

/// Each path has a walk: whatever the nodes are, from wherever it starts, and whether a last link is followed or not, the walk
/// ends with a place or an error.
pub fn a_path_has_a_walk()
    ensures { (nodes : Nodes) (from : ℕ) (path : List ℕ) (follow : Bool)
        → (answer : Result Place Errno) × Walks nodes from path follow answer }
{}

/// The function `walked` gives the answer of the walk, so that a call that begins with a path is a function of the nodes.
pub fn the_walk_of_a_path_is_a_function()
    ensures { (nodes : Nodes) (from : ℕ) (path : List ℕ) (follow : Bool)
        → Walks nodes from path follow (walked nodes from path follow) }
{}
