// Named files in memory.
ghost use Rattle.std.specs.Prelude.{◌≡◌, ◌≢◌, ◌<◌, ◌++◌, ℕ, List, [], ◌∷◌, Some, None, IfNone, IfSome, length, position, vec_len, slice_index_or, slice_set, OnOk, OnErr};
ghost use Rattle.std.specs.Option.{option_copied};
ghost use Rattle.std.specs.Str.{bytes_eq};
ghost use Rattle.outside.specs.Content.{FileBytes, content_of};
ghost use Rattle.outside.specs.inside.Present.{IsThere, AreThere};
ghost use Rattle.outside.specs.Files.{AnswersLoad, ChangesFile, IsEmptied, IsUnchangedOrEmptied, Gains, GainsPart};
ghost use Rattle.outside.specs.Loads.{answered_by};
ghost use Rattle.outside.specs.Turned.{turned_by};
ghost use Rattle.outside.specs.declared.errors.LoadError.TheVariants.{Failed};

use crate::errors::LoadError;
use crate::register::Register;
use std::alloc::{AllocError, Global};
use std::marker::Model;

/// A file in memory, which a store is made of.
#[derive(Drop)]
pub struct NamedFile {
    /// Its name.
    pub name: String,
    /// Its bytes.
    pub bytes: Vec<u8>,
}

impl Model for NamedFile {
    ghost use Rattle.std.specs.Prelude.{string_bytes};
    ghost use Rattle.outside.specs.Content.{FileBytes};

    ghost Value = { FileBytes };

    ghost view = { λ f. record { name = string_bytes f.name; bytes = f.bytes.items } };
}

impl NamedFile {
    // Whether this is its name.
    fn has_name(&self, name: &str) -> bool
        ensures { result ≡ bytes_eq self.now.name name.now }
    {
        self.name.as_str() == name
    }
}

// Where the first file of this name is.
fn first_place(files: &[NamedFile], name: &str) -> Option<usize>
    ensures { result ≡ position (λ file. bytes_eq file.name name.now) files.now }
{
    files.iter().position(|file| file.has_name(name))
}

// The same, and what is there.
fn place_of(files: &[NamedFile], name: &str) -> Option<usize>
    ensures first { result ≡ position (λ file. bytes_eq file.name name.now) files.now }
    ensures absent { IfNone result (content_of files.now name.now ≡ None) }
    ensures there { IfSome result (λ place. (d : FileBytes) →
        content_of files.now name.now ≡ Some (slice_index_or files.now place d).bytes) }
{
    first_place(files, name)
}

// Adds an empty file of this name at the end.
fn add_empty(alloc: Global, files: &mut Vec<NamedFile>, name: &str) -> Result<(), AllocError>
    ensures ok { OnOk result (files.new.items ≡ files.old.items ++ record { name = name.now; bytes = [] } ∷ []) }
    ensures err { OnErr result (files.new.items ≡ files.old.items) }
{
    let name = String::from_str(alloc, name)?;
    let bytes = Vec::new(alloc);
    files.push(NamedFile { name, bytes })?;
    Ok(())
}

// Takes all bytes from a file.
fn clear_at(files: &mut Vec<NamedFile>, place: usize)
    requires { place < vec_len files.old }
    ensures { (d : FileBytes) → files.new.items ≡
        slice_set files.old.items place (record (slice_index_or files.old.items place d) { bytes = [] }) }
{
    let file = &mut files[place];
    file.bytes.clear();
}

// Adds bytes to a file.
fn extend_at(files: &mut Vec<NamedFile>, place: usize, bytes: &[u8]) -> Result<(), AllocError>
    requires { place < vec_len files.old }
    ensures ok { OnOk result ((d : FileBytes) → files.new.items ≡
        slice_set files.old.items place (record (slice_index_or files.old.items place d) {
          bytes = (slice_index_or files.old.items place d).bytes ++ bytes.now;
        })) }
    ensures err { OnErr result (files.new.items ≡ files.old.items) }
{
    let file = &mut files[place];
    file.bytes.extend_from_slice(bytes)?;
    Ok(())
}

/// The bytes of a file.
pub fn file_bytes<'a>(files: &'a [NamedFile], name: &str) -> Option<&'a [u8]>
    ensures { option_copied result ≡ content_of files.now name.now }
{
    match place_of(files, name) {
        Some(place) => {
            let file = &files[place];
            Some(file.bytes.as_slice())
        }
        None => None,
    }
}

/// Loads a file and lists its name, and whether it was turned away. It fails for want of memory alone.
pub fn load_file(
    files: &[NamedFile],
    register: &mut Register,
    name: &str,
    limit: usize,
    into: &mut Vec<u8>,
) -> Result<(), LoadError>
    requires { into.old.items ≡ [] }
    ensures answer { AnswersLoad (Some (content_of files.now)) name.now limit into.new.items result }
    ensures never_failed { result ≢ Err Failed }
    ensures listed { register.new ≡ record register.old {
      loads = register.old.loads ++ answered_by name.now result;
      turned_away =
          register.old.turned_away ++ turned_by name.now limit result;
    } }
{
    let Some(place) = place_of(files, name) else {
        register.list_turned(name, limit, LoadError::Missing)?;
        return Err(LoadError::Missing);
    };
    let file = &files[place];
    if file.bytes.len() > limit {
        register.list_turned(name, limit, LoadError::TooLong)?;
        return Err(LoadError::TooLong);
    }
    into.extend_from_slice(file.bytes.as_slice())?;
    register.list_load(name)?;
    Ok(())
}

/// Makes a file empty, whether it was there or not. After an error nothing changed.
pub fn empty_file(alloc: Global, files: &mut Vec<NamedFile>, name: &str) -> Result<(), AllocError>
    ensures ok { OnOk result (ChangesFile (Some (content_of files.old.items)) (Some (content_of files.new.items)) name.now IsEmptied) }
    ensures err { OnErr result (files.new.items ≡ files.old.items) }
    ensures there { (names : List (List ℕ)) → AreThere files.old.items names → AreThere files.new.items names }
{
    match place_of(files.as_slice(), name) {
        Some(place) => clear_at(files, place),
        None => add_empty(alloc, files, name)?,
    }
    Ok(())
}

/// Adds bytes to the end of a file, which is there. After an error nothing changed.
pub fn extend_file(files: &mut Vec<NamedFile>, name: &str, bytes: &[u8]) -> Result<(), AllocError>
    requires { IsThere files.old.items name.now }
    ensures ok { OnOk result (ChangesFile (Some (content_of files.old.items)) (Some (content_of files.new.items)) name.now (Gains bytes.now)) }
    ensures err { OnErr result (files.new.items ≡ files.old.items) }
    ensures part { OnErr result (ChangesFile (Some (content_of files.old.items)) (Some (content_of files.new.items)) name.now (GainsPart bytes.now)) }
    ensures there { (names : List (List ℕ)) → AreThere files.old.items names → AreThere files.new.items names }
{
    match place_of(files.as_slice(), name) {
        Some(place) => extend_at(files, place, bytes)?,
        None => {}
    }
    Ok(())
}

/// Makes a file empty and lists its name. After an error the file stands as it was or is empty.
pub fn create_file(
    alloc: Global,
    files: &mut Vec<NamedFile>,
    register: &mut Register,
    name: &str,
) -> Result<(), AllocError>
    ensures ok { OnOk result (ChangesFile (Some (content_of files.old.items)) (Some (content_of files.new.items)) name.now IsEmptied) }
    ensures part { OnErr result (ChangesFile (Some (content_of files.old.items)) (Some (content_of files.new.items)) name.now IsUnchangedOrEmptied) }
    ensures listed { OnOk result (register.new ≡ record register.old { created = register.old.created ++ name.now ∷ [] }) }
    ensures not_listed { OnErr result (register.new ≡ register.old) }
    ensures there { AreThere files.old.items register.old.created → AreThere files.new.items register.new.created }
{
    empty_file(alloc, files, name)?;
    register.list_created(name)?;
    Ok(())
}
