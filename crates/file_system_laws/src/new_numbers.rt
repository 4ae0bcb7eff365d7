//! The number of a new node (this project's own: the least from 2 on that no live node has).

ghost use Rattle.std.specs.Prelude.{◌≡◌, ◌≤◌, ℕ, false};
ghost use Rattle.kernel_core.specs.FileSystem.{IsFileSystem};
ghost use Rattle.kernel_core.specs.NameCalls.{IsNewNumber};
ghost use Rattle.kernel_core.specs.Nodes.{Nodes};
ghost use Rattle.kernel_core.specs.Queries.{new_number};
ghost use Rattle.kernel_core.specs.Totals.{nodes_full};
ghost use Rattle.kernel_core.specs.ValidTree.{node_limit};

/// A new node has one number alone.
pub fn a_new_node_has_one_number()
    ensures { (nodes : Nodes) (first second : ℕ) → IsNewNumber nodes first → IsNewNumber nodes second → first ≡ second }
{}

/// A file system that has room for a node has a number for it, which is at most 65,536.
pub fn a_new_node_has_a_number()
    ensures { (nodes : Nodes) → IsFileSystem nodes → nodes_full nodes ≡ false
        → (number : ℕ) × IsNewNumber nodes number × (number ≤ node_limit) }
{}

/// The function `new_number` gives the number of a new node, whatever the nodes are.
pub fn the_number_of_a_new_node_is_a_function()
    ensures { (nodes : Nodes) → IsNewNumber nodes (new_number nodes) }
{}
