//! A tree of files, saved to a file.
ghost use Rattle.std.specs.Prelude.{◌≡◌, ◌≤◌, OnOk, OnErr};
ghost use Rattle.kernel_core.specs.ValidTree.{IsValidTree};
ghost use Rattle.fs_image.specs.Text.{text_of};
ghost use Rattle.outside.specs.Causes.{FailsOnlyIfRose};
ghost use Rattle.session_files.specs.Ends.{of_device};
ghost use Rattle.session_files.specs.Saved.{SavesPart};
ghost use Rattle.session_files.specs.Steps.{SaveFailsOnlyIfRose, StandsWithoutImage};
ghost use Rattle.stored_files.specs.Stored.{stored_of, SavesText};

use fs_image::encode;
use kernel_core::Tree;
use outside::{DevError, Store};
use std::alloc::Global;

/// Why the final tree was not saved whole.
#[derive(Clone, Copy)]
pub enum SaveError {
    /// There was no memory for the image, and the store stands as it was.
    NoImage,
    /// The store failed, and its count of faulty writes rose.
    Failed,
    /// The store had no memory.
    NoMemory,
}

impl From<DevError> for SaveError {
    ghost from_gives = { λ error reason. reason ≡ of_device error };

    fn from(error: DevError) -> SaveError {
        match error {
            DevError::Failed => SaveError::Failed,
            DevError::NoMemory => SaveError::NoMemory,
        }
    }
}

/// Makes the file of this name and writes the image of a tree to it. The image stands whole in memory before the file is
/// made, so that the store stands as it was where there is no memory for it. (The form is this project's own.)
///
/// # Errors
///
/// Fails where there is no memory for the image, and where the store fails or has no memory.
pub fn save_tree<F: Store>(
    alloc: Global,
    name: &str,
    tree: &Tree,
    files: &mut F,
) -> Result<(), SaveError>
    requires { IsValidTree tree.now }
    ensures saved { OnOk result (SavesText name.now (text_of tree.now)
        (stored_of F.files F.created F.loads F.turned_away F.write_faults files.old)
        (stored_of F.files F.created F.loads F.turned_away F.write_faults files.new)) }
    ensures part { OnErr result (SavesPart name.now (text_of tree.now)
        (stored_of F.files F.created F.loads F.turned_away F.write_faults files.old)
        (stored_of F.files F.created F.loads F.turned_away F.write_faults files.new)) }
    ensures unmade { StandsWithoutImage result
        (stored_of F.files F.created F.loads F.turned_away F.write_faults files.old)
        (stored_of F.files F.created F.loads F.turned_away F.write_faults files.new) }
    ensures cause { SaveFailsOnlyIfRose result (F.write_faults files.old) (F.write_faults files.new) }
    ensures later { F.write_faults files.old ≤ F.write_faults files.new }
    ensures loads { F.load_faults files.new ≡ F.load_faults files.old }
{
    let mut image = Vec::new(alloc);
    encode(tree, &mut image).map_err(|_| SaveError::NoImage)?;
    write_image(name, &image, files)?;
    Ok(())
}

/// Makes the file of this name and writes these bytes to it.
fn write_image<F: Store>(name: &str, image: &[u8], files: &mut F) -> Result<(), DevError>
    ensures saved { OnOk result (SavesText name.now image.now
        (stored_of F.files F.created F.loads F.turned_away F.write_faults files.old)
        (stored_of F.files F.created F.loads F.turned_away F.write_faults files.new)) }
    ensures part { OnErr result (SavesPart name.now image.now
        (stored_of F.files F.created F.loads F.turned_away F.write_faults files.old)
        (stored_of F.files F.created F.loads F.turned_away F.write_faults files.new)) }
    ensures cause { FailsOnlyIfRose result (F.write_faults files.old) (F.write_faults files.new) }
    ensures later { F.write_faults files.old ≤ F.write_faults files.new }
    ensures loads { F.load_faults files.new ≡ F.load_faults files.old }
{
    files.create(name)?;
    files.append(name, image)
}
