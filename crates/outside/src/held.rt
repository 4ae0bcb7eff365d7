// Files that were made, each with the handle that it was made with.
ghost use Rattle.std.specs.Prelude.{◌≡◌, ◌<◌, ◌++◌, ℕ, List, [], ◌∷◌, position, vec_len, OnOk, OnErr};
ghost use Rattle.std.specs.Str.{bytes_eq};
ghost use Rattle.std.specs.Io.KnownBytes.{Appends};
ghost use Rattle.outside.specs.Adapted.{AppendsPart};
ghost use Rattle.outside.specs.Held.{ChangesHeld, HoldsOneMore};
ghost use Rattle.outside.specs.inside.Holding.{AreHeld, ChangesAt, IsHeld};

use crate::errors::Failed;
use crate::register::Register;
use crate::transfer::write_whole;
use std::alloc::{AllocError, Global};
use std::io::Write;
use std::marker::Model;

/// A file that was made, and the handle that it was made with.
#[derive(Drop)]
pub struct HeldFile<W: Write> {
    name: String,
    handle: W,
}

impl<W: Write> Model for HeldFile<W> {
    ghost use Rattle.std.specs.Prelude.{string_bytes};
    ghost use Rattle.outside.specs.Held.{HeldFile};

    ghost Value = { HeldFile };

    ghost view = { λ f. record { name = string_bytes f.name; bytes = W.contents f.handle } };
}

impl<W: Write> HeldFile<W> {
    // Whether this is its name.
    fn has_name(&self, name: &str) -> bool
        ensures { result ≡ bytes_eq self.now.name name.now }
    {
        self.name.as_str() == name
    }
}

// Where the first file of this name is.
fn first_place<W: Write>(files: &[HeldFile<W>], name: &str) -> Option<usize>
    ensures { result ≡ position (λ file. bytes_eq file.name name.now) files.now }
{
    files.iter().position(|file| file.has_name(name))
}

// Writes at the end of the file at this place.
fn append_at<W: Write>(
    files: &mut Vec<HeldFile<W>>,
    place: usize,
    bytes: &[u8],
) -> Result<(), Failed>
    requires { place < vec_len files.old }
    ensures whole { OnOk result (ChangesAt files.old.items files.new.items place (λ before after. Appends before after bytes.now)) }
    ensures part { OnErr result (ChangesAt files.old.items files.new.items place (λ before after. AppendsPart before after bytes.now)) }
{
    let file = &mut files[place];
    write_whole(&mut file.handle, bytes)
}

/// Holds a file that was made, and lists its name.
pub fn hold_file<W: Write + Drop>(
    alloc: Global,
    files: &mut Vec<HeldFile<W>>,
    register: &mut Register,
    name: &str,
    handle: W,
) -> Result<(), AllocError>
    ensures held { OnOk result (HoldsOneMore files.old.items files.new.items name.now) }
    ensures listed { OnOk result (register.new ≡ record register.old { created = register.old.created ++ name.now ∷ [] }) }
    ensures not_listed { OnErr result (register.new ≡ register.old) }
    ensures there { AreHeld files.old.items register.old.created → AreHeld files.new.items register.new.created }
{
    let owned = String::from_str(alloc, name)?;
    files.insert(
        0,
        HeldFile {
            name: owned,
            handle,
        },
    )?;
    register.list_created(name)?;
    Ok(())
}

/// Writes at the end of the latest file of this name, by its own handle.
pub fn append_held<W: Write>(
    files: &mut Vec<HeldFile<W>>,
    name: &str,
    bytes: &[u8],
) -> Result<(), Failed>
    requires { IsHeld files.old.items name.now }
    ensures whole { OnOk result (ChangesHeld files.old.items files.new.items name.now (λ before after. Appends before after bytes.now)) }
    ensures part { OnErr result (ChangesHeld files.old.items files.new.items name.now (λ before after. AppendsPart before after bytes.now)) }
    ensures there { (names : List (List ℕ)) → AreHeld files.old.items names → AreHeld files.new.items names }
{
    match first_place(files.as_slice(), name) {
        Some(place) => append_at(files, place, bytes),
        None => Ok(()),
    }
}
