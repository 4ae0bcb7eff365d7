//! Sessions of a program that makes the calls of a script over an image: the place of the first call that gives anything else.
use crate::carrying::{Done, carry_out};
use guest_scripts::calls::{Script, read};
use guest_scripts::guest::{code_of, data, executable};
use guest_scripts::image::image_of;
use o32_session::End;
use outside::MemStore;
use session_settings::Given;
use std::alloc::Global;
use std::test::Fail;

/// What comes of a session.
#[derive(Drop)]
pub struct Came {
    /// Its end.
    pub end: End,
    /// Its turns.
    pub turns: u64,
    /// What it wrote to standard output.
    pub out: Vec<u8>,
    /// Its trace.
    pub trace: Vec<u8>,
    /// What it saved.
    pub saved: Vec<u8>,
}

/// The words that run the program over the image under the schedule, write the trace to `t`, and save the tree in `s`.
const WORDS: &str = "run --image i --schedule c --trace t --save s p";

/// Gives a session its words, the program `p`, the image `i`, the schedule `c`, and one byte of input, `x`.
fn give(
    alloc: Global,
    given: &mut Given,
    program: Vec<u8>,
    image: Vec<u8>,
    schedule: &str,
) -> Result<(), Fail> {
    given.add_file(alloc, "p", program)?;
    given.add_file(alloc, "i", image)?;
    given.add_file(alloc, "c", schedule.as_bytes().to_vec(alloc)?)?;
    given.add_words(alloc, WORDS)?;
    given.input.push(b'x')?;
    Ok(())
}

/// What stands in a file, or nothing.
fn bytes_of(alloc: Global, store: &MemStore, name: &str) -> Result<Vec<u8>, Fail> {
    match store.file(name) {
        Some(bytes) => Ok(bytes.to_vec(alloc)?),
        None => Ok(Vec::new(alloc)),
    }
}

/// What came of a session that is carried out.
fn came_of(alloc: Global, done: &Done) -> Result<Came, Fail> {
    Ok(Came {
        end: done.answer.end,
        turns: done.answer.turns,
        out: done.dev.out.bytes().to_vec(alloc)?,
        trace: bytes_of(alloc, &done.store, "t")?,
        saved: bytes_of(alloc, &done.store, "s")?,
    })
}

/// Runs the program of this file over a tree, under a schedule.
pub fn run(alloc: Global, program: Vec<u8>, tree: &str, schedule: &str) -> Result<Came, Fail> {
    let image = image_of(alloc, tree)?;
    let mut given = Given::new(alloc);
    give(alloc, &mut given, program, image, schedule)?;
    came_of(alloc, &carry_out(alloc, given))
}

/// The place of the first call that gives anything else, counted from 1, or 0; None where the program ends otherwise or writes
/// anything else.
pub fn place_of(came: &Came, out: &[u8]) -> Option<u8> {
    match came.end {
        End::Exited(place) if place > 0 || came.out.as_slice() == out => Some(place),
        _ => None,
    }
}

/// Runs the program of a script over a tree. It has the first words before the calls.
fn run_script(
    alloc: Global,
    first: &[u32],
    script: &Script,
    tree: &str,
    schedule: &str,
) -> Result<Came, Fail> {
    let code = code_of(alloc, first, &script.calls)?;
    run(
        alloc,
        executable(alloc, &code, &data(alloc)?)?,
        tree,
        schedule,
    )
}

/// The place of the first call of a script that gives anything else, over a tree.
pub fn first_wrong(alloc: Global, text: &str, tree: &str) -> Result<Option<u8>, Fail> {
    let script = read(alloc, text)?;
    let came = run_script(alloc, &[], &script, tree, "")?;
    Ok(place_of(&came, &script.out))
}

/// The same, and the tree that is left has to be another one, or None.
pub fn first_wrong_saving(
    alloc: Global,
    first: &[u32],
    text: &str,
    tree: &str,
    left: &str,
) -> Result<Option<u8>, Fail> {
    let script = read(alloc, text)?;
    let came = run_script(alloc, first, &script, tree, "")?;
    let wanted = image_of(alloc, left)?;
    if came.saved.as_slice() != wanted.as_slice() {
        return Ok(None);
    }
    Ok(place_of(&came, &script.out))
}

/// The same under a schedule, whatever tree is left.
pub fn first_wrong_under(
    alloc: Global,
    schedule: &str,
    text: &str,
    tree: &str,
) -> Result<Option<u8>, Fail> {
    let script = read(alloc, text)?;
    let came = run_script(alloc, &[], &script, tree, schedule)?;
    Ok(place_of(&came, &script.out))
}
