//! File trees that a test begins with.
ghost use Rattle.std.specs.Prelude.{IfOk};
ghost use Rattle.kernel_core.specs.ValidTree.{IsValidTree};

use fs_image::decode;
use kernel_core::Tree;
use std::alloc::Global;
use std::test::Fail;

/// The image of a tree of one empty directory, the root.
pub const EMPTY_TREE: &[u8] =
    b"O32IMG1\n\0\0\0\x01\0\0\0\0\0\0\0\x01\x02\x01\xED\0\0\0\0\0\0\0\0\0\0\0\0";

/// The tree of an image.
pub fn tree_of(alloc: Global, image: &[u8]) -> Result<Tree, Fail>
    ensures { IfOk result IsValidTree }
{
    match decode(alloc, image) {
        Ok(tree) => Ok(tree),
        Err(_) => Err(Fail::from("an image")),
    }
}
