//! From bytes to the tree that they are the text of.
ghost use Rattle.std.specs.Prelude.{◌≡◌, None, Ok, IfOk, IfErr, OnOk};
ghost use Rattle.kernel_core.specs.declared.tree.Tree.{Tree};
ghost use Rattle.kernel_core.specs.ValidTree.{IsValidTree};
ghost use Rattle.fs_image.specs.Text.{text_of};
ghost use Rattle.fs_image.specs.Meaning.{meaning_of, first_failure, Gives, IsCause};

use crate::naming::naming_failure;
use crate::nodes::read;
use crate::refusal::ImageError;
use kernel_core::Tree;
use std::alloc::Global;

/// What the bytes mean.
fn decoded(alloc: Global, bytes: &[u8]) -> Result<Tree, ImageError>
    ensures { Gives result (meaning_of bytes.now) }
{
    let tree = read(alloc, bytes)?;
    match naming_failure(alloc, &tree)? {
        Some(refusal) => Err(ImageError::Refused(refusal)),
        None => Ok(tree),
    }
}

/// The tree whose text the bytes are, or the first rule that fails ([`crate::ImageRule`]) with its
/// offset.
///
/// The bytes are those of a whole file, of any length. `Refused` comes exactly where a rule fails.
/// Time and memory go by the bytes that are given and not by the counts and sizes that they claim.
/// (The format is this project's own.)
pub fn decode(alloc: Global, bytes: &[u8]) -> Result<Tree, ImageError>
    // What is accepted is the text of a valid tree, and that tree comes.
    ensures accepted { IfOk result (λ tree. IsValidTree tree × (bytes.now ≡ text_of tree)) }

    // The text of a valid tree is accepted, unless memory runs out.
    ensures complete { (tree : Tree) → IsValidTree tree → bytes.now ≡ text_of tree → Gives result (Ok tree) }

    // What comes for any bytes.
    ensures exact { Gives result (meaning_of bytes.now) }
    ensures sound { OnOk result (first_failure bytes.now ≡ None) }
    ensures refused { IfErr result (IsCause (first_failure bytes.now)) }
{
    decoded(alloc, bytes)
}

/// The text of a valid tree breaks no rule, and says that tree.
pub fn text_is_accepted()
    ensures { (tree : Tree) → IsValidTree tree → meaning_of (text_of tree) ≡ Ok tree }
{}

/// A text is that of one valid tree alone.
pub fn text_is_of_one_tree()
    ensures { (a b : Tree) → IsValidTree a → IsValidTree b → text_of a ≡ text_of b → a ≡ b }
{}
