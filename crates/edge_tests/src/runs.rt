//! Runs of a program that lists a directory, with every option, over devices of which one call may fail; and what each leaves.
use session_scripts::image::image_of;
use session_scripts::listing::{TREE, program};
use session_scripts::{Done, End, Given, MemStore, carry_out};
use std::alloc::{AllocError, Global};
use std::test::Fail;

/// A schedule that says what holds without one.
const SCHEDULE: &[u8] = b"quantum 1000\n";

/// The turns of that run.
pub(crate) const TURNS: u64 = 124;

/// A budget that the run does not come to.
pub(crate) const BUDGET: u64 = 1000;

/// A device.
#[derive(Clone, Copy, PartialEq, Eq)]
pub(crate) enum Device {
    Input,
    Out,
    Err,
    Store,
}

/// The call that fails, by its device and its number from 1 on; 0 is none.
#[derive(Clone, Copy)]
pub(crate) struct Failing {
    pub(crate) device: Device,
    pub(crate) call: u64,
}

pub(crate) const NONE_FAILS: Failing = Failing {
    device: Device::Store,
    call: 0,
};

/// The files that each run loads.
#[derive(Drop)]
pub(crate) struct Loaded {
    pub(crate) program: Vec<u8>,
    pub(crate) image: Vec<u8>,
}

/// What a session left: its answer, its texts, which are empty where there is no file of theirs, and the saved image.
#[derive(Drop)]
pub(crate) struct Left {
    pub(crate) end: End,
    pub(crate) status: u8,
    pub(crate) turns: u64,
    /// Whether an emulator is handed out.
    pub(crate) is_hosted: bool,
    /// Which of the four files that are written are there: the trace, the native log, the journal, the saved image.
    pub(crate) created: [bool; 4],
    pub(crate) out: Vec<u8>,
    pub(crate) trace: Vec<u8>,
    pub(crate) native: Vec<u8>,
    pub(crate) journal: Vec<u8>,
    pub(crate) saved: Option<Vec<u8>>,
    /// Whether the input, standard error and the files that are loaded are as they were.
    pub(crate) are_others_left: bool,
}

/// These files.
pub(crate) fn made_files(alloc: Global) -> Result<Loaded, Fail> {
    Ok(Loaded {
        program: program(alloc)?,
        image: image_of(alloc, TREE)?,
    })
}

/// The words of a run with every option, of so many turns at most.
fn words(alloc: Global, budget: u64) -> Result<String, AllocError> {
    format!(in alloc;
        "run --image i --schedule c --budget {budget} --trace t --native n --journal j --save s --env A=b p w"
    )
}

/// Gives a session the program, the image, the schedule, its words and its input.
fn give(alloc: Global, given: &mut Given, loaded: &Loaded, budget: u64) -> Result<(), Fail> {
    given.add_file(alloc, "p", loaded.program.to_vec(alloc)?)?;
    given.add_file(alloc, "i", loaded.image.to_vec(alloc)?)?;
    given.add_file(alloc, "c", Vec::from_slice(alloc, SCHEDULE)?)?;
    given.add_words(alloc, words(alloc, budget)?.as_str())?;
    given.input.extend_from_slice(b"input")?;
    Ok(())
}

/// Has a call fail.
fn make_fail(given: &mut Given, failing: Failing) -> Result<(), AllocError> {
    let list = match failing.device {
        Device::Input => &mut given.failing.takes,
        Device::Out => &mut given.failing.puts,
        Device::Err => &mut given.failing.lines,
        Device::Store => &mut given.failing.calls,
    };
    if failing.call > 0 {
        list.push(failing.call)?;
    }
    Ok(())
}

fn given_to(alloc: Global, loaded: &Loaded, budget: u64, failing: Failing) -> Result<Given, Fail> {
    let mut given = Given::new(alloc);
    make_fail(&mut given, failing)?;
    give(alloc, &mut given, loaded, budget)?;
    Ok(given)
}

/// Puts the bytes of a file behind others, where there is one.
fn push_file(bytes: &mut Vec<u8>, store: &MemStore, name: &str) -> Result<(), AllocError> {
    match store.file(name) {
        Some(file) => bytes.extend_from_slice(file),
        None => Ok(()),
    }
}

/// The bytes of a file, where there is one.
pub(crate) fn file_of(
    alloc: Global,
    store: &MemStore,
    name: &str,
) -> Result<Option<Vec<u8>>, AllocError> {
    match store.file(name) {
        Some(bytes) => Ok(Some(bytes.to_vec(alloc)?)),
        None => Ok(None),
    }
}

/// Whether what no run changes is as it was.
fn others_are_left(done: &Done, loaded: &Loaded) -> bool {
    done.store.file("p") == Some(loaded.program.as_slice())
        && done.store.file("i") == Some(loaded.image.as_slice())
        && done.store.file("c") == Some(SCHEDULE)
        && done.dev.err.bytes().is_empty()
        && done.dev.input.rest() == b"input".as_slice()
}

/// Which of the files that are written are there.
fn created(store: &MemStore) -> [bool; 4] {
    [
        store.file("t").is_some(),
        store.file("n").is_some(),
        store.file("j").is_some(),
        store.file("s").is_some(),
    ]
}

/// What is left of a session that is carried out, but for its texts and the saved image.
fn told_of(alloc: Global, loaded: &Loaded, done: &Done) -> Left {
    Left {
        end: done.answer.end,
        status: done.answer.status,
        turns: done.answer.turns,
        is_hosted: done.answer.host_turns.is_some(),
        created: created(&done.store),
        out: Vec::new(alloc),
        trace: Vec::new(alloc),
        native: Vec::new(alloc),
        journal: Vec::new(alloc),
        saved: None,
        are_others_left: others_are_left(done, loaded),
    }
}

/// Puts the texts of a session and the saved image into what is left of it.
fn push_texts(alloc: Global, left: &mut Left, done: &Done) -> Result<(), AllocError> {
    left.out.extend_from_slice(done.dev.out.bytes())?;
    push_file(&mut left.trace, &done.store, "t")?;
    push_file(&mut left.native, &done.store, "n")?;
    push_file(&mut left.journal, &done.store, "j")?;
    left.saved = file_of(alloc, &done.store, "s")?;
    Ok(())
}

/// What is left of a session that is carried out.
fn left_of(alloc: Global, loaded: &Loaded, done: &Done) -> Result<Left, Fail> {
    let mut left = told_of(alloc, loaded, done);
    push_texts(alloc, &mut left, done)?;
    Ok(left)
}

/// Runs the program for so many turns at most.
pub(crate) fn run(
    alloc: Global,
    loaded: &Loaded,
    budget: u64,
    failing: Failing,
) -> Result<Left, Fail> {
    let given = given_to(alloc, loaded, budget, failing)?;
    left_of(alloc, loaded, &carry_out(alloc, given))
}
