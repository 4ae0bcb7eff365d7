//! The end: the file tree that the nodes of a file system stand for.

ghost use Rattle.std.specs.Prelude.{◌≡◌, ◌<◌, ◌↔◌, ℕ, Some, Contains};
ghost use Rattle.std.specs.FinMap.{get};
ghost use Rattle.kernel_core.specs.FileSystem.{IsFileSystem};
ghost use Rattle.kernel_core.specs.LoadedTree.{loaded, saved};
ghost use Rattle.kernel_core.specs.Nodes.{Nodes, Inode};
ghost use Rattle.kernel_core.specs.ValidTree.{IsValidTree, IsReached, numbers};
ghost use Rattle.kernel_core.specs.declared.tree.Tree.{Tree};

/// A file system is saved as a valid file tree.
pub fn a_file_system_is_saved_as_a_valid_tree()
    ensures { (nodes : Nodes) → IsFileSystem nodes → IsValidTree (saved nodes) }
{}

/// A node with a link is one that names lead to from the root.
pub fn a_node_with_a_link_is_reached_by_names()
    ensures { (nodes : Nodes) → IsFileSystem nodes → (number : ℕ)
        → ((inode : Inode) × (get nodes number ≡ Some inode) × (0 < inode.links)) ↔ IsReached (saved nodes).nodes number }
{}

/// The nodes that are saved are those that names lead to from the root.
pub fn the_nodes_that_are_reached_are_saved()
    ensures { (nodes : Nodes) → IsFileSystem nodes → (number : ℕ)
        → Contains (numbers (saved nodes).nodes) number ↔ IsReached (saved nodes).nodes number }
{}

/// A valid file tree that is loaded and saved at once is the same tree, with the numbers, cookies,
/// times and blocks that it had, so that a run that changes no file gives back the image that it
/// was given.
pub fn a_loaded_tree_is_saved_as_it_was()
    ensures { (tree : Tree) → IsValidTree tree → saved (loaded tree) ≡ tree }
{}
