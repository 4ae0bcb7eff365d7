//! The calls on one node (chmod(2), utimensat(2), open(2), close(2), write(2), truncate(2)).

ghost use Rattle.std.specs.Prelude.{◌≡◌, ◌≤◌, ◌<◌, ◌+◌, ◌^◌, ℕ, ℤ, List, Option, Some};
ghost use Rattle.std.specs.FinMap.{get};
ghost use Rattle.kernel_core.specs.FileContent.{FileContent, IsContent, kept_blocks, written, resized};
ghost use Rattle.kernel_core.specs.FileSystem.{IsFileSystem, IsTime};
ghost use Rattle.kernel_core.specs.NodeCalls.{with_mode, with_times, held, released, after_write, after_resize};
ghost use Rattle.kernel_core.specs.Nodes.{Nodes, Inode, file_at, update};
ghost use Rattle.kernel_core.specs.Totals.{spare_blocks};
ghost use Rattle.kernel_core.specs.ValidTree.{greatest_mode};

/// A node gets another mode, of the twelve bits of chmod(2).
pub fn changing_a_mode_keeps_the_file_system()
    ensures { (nodes : Nodes) (number mode : ℕ) (now : ℤ) → IsFileSystem nodes → mode ≤ greatest_mode → IsTime now
        → IsFileSystem (update nodes number (with_mode mode now)) }
{}

/// A node gets other times (utimensat(2)); one that is not given stays.
pub fn setting_times_keeps_the_file_system()
    ensures { (nodes : Nodes) (number : ℕ) (access modified : Option ℤ) (now : ℤ) → IsFileSystem nodes
        → ((time : ℤ) → access ≡ Some time → IsTime time) → ((time : ℤ) → modified ≡ Some time → IsTime time) → IsTime now
        → IsFileSystem (update nodes number (with_times access modified now)) }
{}

/// A node is held once more (open(2), chdir(2)), where its holds stay below 2^32.
pub fn holding_a_node_keeps_the_file_system()
    ensures { (nodes : Nodes) (number : ℕ) → IsFileSystem nodes
        → ((inode : Inode) → get nodes number ≡ Some inode → inode.holds + 1 < 2 ^ 32)
        → IsFileSystem (update nodes number held) }
{}

/// A hold of a node is released (close(2)); the node goes where it has no name and no other hold.
pub fn releasing_a_node_keeps_the_file_system()
    ensures { (nodes : Nodes) (number : ℕ) → IsFileSystem nodes → IsFileSystem (released nodes number) }
{}

/// A file is written (write(2)), where its content then is one that a file may have, and takes
/// no more blocks anew than there are.
pub fn writing_a_file_keeps_the_file_system()
    ensures { (nodes : Nodes) (number at : ℕ) (content : FileContent) (bytes : List ℕ) (now : ℤ) → IsFileSystem nodes
        → file_at nodes number ≡ Some content → IsTime now
        → IsContent (written content at bytes) → kept_blocks (written content at bytes) ≤ kept_blocks content + spare_blocks nodes
        → IsFileSystem (after_write nodes number at bytes now) }
{}

/// A file gets another size (truncate(2)), where its content then is one that a file may have, and
/// keeps no more blocks.
pub fn resizing_a_file_keeps_the_file_system()
    ensures { (nodes : Nodes) (number size : ℕ) (content : FileContent) (now : ℤ) → IsFileSystem nodes
        → file_at nodes number ≡ Some content → IsTime now
        → IsContent (resized content size) → kept_blocks (resized content size) ≤ kept_blocks content
        → IsFileSystem (after_resize nodes number size now) }
{}
