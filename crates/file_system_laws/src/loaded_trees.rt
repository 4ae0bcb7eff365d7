//! The beginning: a file tree is loaded.

ghost use Rattle.kernel_core.specs.FileSystem.{IsFileSystem};
ghost use Rattle.kernel_core.specs.LoadedTree.{loaded};
ghost use Rattle.kernel_core.specs.ValidTree.{IsValidTree};
ghost use Rattle.kernel_core.specs.declared.tree.Tree.{Tree};

/// A valid file tree is loaded as a file system.
pub fn a_valid_tree_is_loaded_as_a_file_system()
    ensures { (tree : Tree) → IsValidTree tree → IsFileSystem (loaded tree) }
{}
