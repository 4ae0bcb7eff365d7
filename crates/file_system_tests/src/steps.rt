//! Tests as lists of steps.

use file_system_scripts::files::{Answer, Call, Files, Which};
use std::alloc::Global;

/// A step of a test.
#[derive(Clone, Copy)]
pub(crate) enum Step {
    /// From here on it is this time, in nanoseconds since the Epoch.
    Clock(i64),
    /// From here on paths without a slash at their beginning begin at this directory.
    Start(Which),
    /// From here on the node of this path is the named one, and it is held.
    Name(&'static str),
    /// The call succeeds.
    Do(Call),
    /// The call is refused with this error.
    Refuse(Call, &'static str),
    /// A write of this text at this place answers so.
    Write(Which, u64, &'static str, Answer<usize>),
    /// A write of as many bytes 7 at this place answers so.
    WriteSevens(Which, u64, usize, Answer<usize>),
    /// This is what there is.
    See(Look),
}

/// A look at what there is.
#[derive(Clone, Copy)]
pub(crate) enum Look {
    /// A read from this place into four bytes 1 answers so, and leaves these bytes.
    Read(Which, u64, usize, [u8; 4]),
    /// The node's number, its mode with its type, its links, its size in bytes, and its blocks of 512 bytes.
    Facts(Which, u64, u16, u32, u64, u32),
    /// The node's times of access, modification and change.
    Times(Which, i64, i64, i64),
    /// The link's target.
    Target(Which, &'static str),
    /// The number of the directory above one, by a path that ends in its `..`.
    Parent(&'static str, u64),
    /// The entry after a cookie: its cookie, its name, and the number of its node.
    Next(Which, u32, Option<(u32, &'static str, u64)>),
    /// The whole tree, as text.
    Tree(&'static str),
}

/// The first step that does not come out as it says, counted from 0.
pub(crate) fn first_wrong(files: &mut Files, steps: &[Step]) -> Option<usize> {
    for (place, step) in steps.iter().enumerate() {
        if comes_out(files, *step) != Ok(true) {
            return Some(place);
        }
    }
    None
}

/// The first wrong step at the file system that these calls make of an empty root directory.
pub(crate) fn first_wrong_after(
    alloc: Global,
    calls: &[Call],
    steps: &[Step],
) -> Answer<Option<usize>> {
    let mut files = Files::with(alloc, calls)?;
    Ok(first_wrong(&mut files, steps))
}

/// The first wrong step at the file system of a root directory whose entry `f` names an empty file: the cookie of the entry,
/// the file's number and its time of modification in seconds.
pub(crate) fn first_wrong_of_file(
    alloc: Global,
    file: (u32, u64, i64),
    steps: &[Step],
) -> Answer<Option<usize>> {
    let (cookie, number, mtime) = file;
    let mut files = Files::of_file(alloc, cookie, number, mtime)?;
    Ok(first_wrong(&mut files, steps))
}

/// The first wrong step at the file system of the tree that these calls make of an empty root directory.
pub(crate) fn first_wrong_loaded(
    alloc: Global,
    calls: &[Call],
    steps: &[Step],
) -> Answer<Option<usize>> {
    let files = Files::with(alloc, calls)?;
    Ok(first_wrong(&mut files.loaded()?, steps))
}

/// The first wrong step among those at an empty root directory, and then among those at the file system of the tree that
/// comes of them.
pub(crate) fn first_wrong_reloaded(
    alloc: Global,
    steps: &[Step],
    then: &[Step],
) -> Answer<(Option<usize>, Option<usize>)> {
    let mut files = Files::new(alloc)?;
    let first = first_wrong(&mut files, steps);
    Ok((first, first_wrong(&mut files.loaded()?, then)))
}

fn comes_out(files: &mut Files, step: Step) -> Answer<bool> {
    match step {
        Step::Clock(now) => {
            files.set_clock(now);
            Ok(true)
        }
        Step::Start(dir) => {
            files.start_at(dir);
            Ok(true)
        }
        Step::Name(path) => {
            files.name(path)?;
            Ok(true)
        }
        Step::Do(call) => {
            files.call(call)?;
            Ok(true)
        }
        Step::Refuse(call, error) => Ok(files.call(call) == Err(error)),
        Step::Write(node, at, text, answer) => Ok(files.write(node, at, text.as_bytes()) == answer),
        Step::WriteSevens(node, at, count, answer) => {
            Ok(files.write_sevens(node, at, count) == answer)
        }
        Step::See(look) => is_seen(files, look),
    }
}

fn is_seen(files: &Files, look: Look) -> Answer<bool> {
    match look {
        Look::Read(node, at, count, bytes) => {
            let mut buffer = [1; 4];
            let moved = files.read(node, at, &mut buffer)?;
            Ok(moved == count && buffer == bytes)
        }
        Look::Facts(node, number, mode, links, size, blocks) => {
            let seen = files.status(node)?;
            Ok(
                seen.number == number
                    && seen.mode == mode
                    && seen.links == links
                    && seen.size == size
                    && seen.blocks == blocks,
            )
        }
        Look::Times(node, access, modified, changed) => {
            let seen = files.status(node)?;
            Ok(
                seen.access == i128::from(access)
                    && seen.modified == i128::from(modified)
                    && seen.changed == i128::from(changed),
            )
        }
        Look::Target(link, target) => files.has_target(link, target),
        Look::Parent(path, number) => Ok(files.parent(path)? == number),
        Look::Next(dir, after, wanted) => files.is_next(dir, after, wanted),
        Look::Tree(text) => Ok(files.text()?.as_str() == text),
    }
}
