//! The tree of files that a run begins with.
ghost use Rattle.std.specs.Prelude.{◌≡◌, ◌≤◌, IfOk, Some, option_map};
ghost use Rattle.session_files.specs.Inputs.{empty_tree};
ghost use Rattle.session_files.specs.Steps.{IsRead, IsTree, LoadsFile, ReasonOnlyIfRose};
ghost use Rattle.stored_files.specs.Stored.{stored_of};
ghost use Rattle.session_words.specs.Words.{texts, word_at};
ghost use Rattle.session_files.specs.declared.load.SessionFile.TheVariants as which;

use crate::load::{SessionFile, load_file};
use crate::not_run::NotRun;
use fs_image::decode;
use kernel_core::{Items, Kind, Node, Tree};
use outside::Store;
use session_words::word_at;
use std::alloc::{AllocError, Global};

/// The number of the root.
const ROOT: u64 = 1;

/// The mode of the root where there is no image.
const ROOT_MODE: u16 = 0o755;

/// The tree without an image: one empty root directory, of mode 0755 and time 0. (It is this project's own.)
///
/// # Errors
///
/// Fails where memory runs out.
pub fn empty_tree(alloc: Global) -> Result<Tree, AllocError>
    ensures { IfOk result (λ tree. tree ≡ empty_tree) }
{
    let mut nodes = Vec::new(alloc);
    let entries = Items::from(Vec::new(alloc));
    nodes.push(Node {
        number: ROOT,
        mode: ROOT_MODE,
        mtime: 0,
        kind: Kind::Dir { entries },
    })?;
    Ok(Tree {
        nodes: Items::from(nodes),
    })
}

/// The tree of the image with these bytes.
fn tree_of_image(alloc: Global, bytes: &[u8]) -> Result<Tree, NotRun>
    ensures { IsRead bytes.now result }
{
    Ok(decode(alloc, bytes)?)
}

/// The tree of the image of this name.
fn load_tree<F: Store>(alloc: Global, name: &str, files: &mut F) -> Result<Tree, NotRun>
    ensures tree { IsTree (F.files files.old) (Some name.now) result }
    ensures loads { LoadsFile which.Image (Some name.now) result
        (stored_of F.files F.created F.loads F.turned_away F.write_faults files.old)
        (stored_of F.files F.created F.loads F.turned_away F.write_faults files.new) }
    ensures cause { ReasonOnlyIfRose result (F.load_faults files.old) (F.load_faults files.new) }
    ensures later { F.load_faults files.old ≤ F.load_faults files.new }
{
    let bytes = load_file(alloc, SessionFile::Image, name, files)?;
    tree_of_image(alloc, &bytes)
}

/// The tree that a run begins with: that of the image whose name is at index `image` of the words, or without one that
/// of one empty root directory.
pub(crate) fn first_tree<F: Store>(
    alloc: Global,
    words: &[String],
    image: Option<usize>,
    files: &mut F,
) -> Result<Tree, NotRun>
    ensures tree { IsTree (F.files files.old) (option_map (word_at (texts words.now)) image) result }
    ensures loads { LoadsFile which.Image (option_map (word_at (texts words.now)) image) result
        (stored_of F.files F.created F.loads F.turned_away F.write_faults files.old)
        (stored_of F.files F.created F.loads F.turned_away F.write_faults files.new) }
    ensures cause { ReasonOnlyIfRose result (F.load_faults files.old) (F.load_faults files.new) }
    ensures later { F.load_faults files.old ≤ F.load_faults files.new }
{
    match image {
        Some(at) => load_tree(alloc, word_at(words, at), files),
        None => Ok(empty_tree(alloc)?),
    }
}
