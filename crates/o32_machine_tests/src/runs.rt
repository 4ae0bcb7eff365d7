//! Turns that stop early, and what an emulator tells.

use crate::emulators::{Look, Streams, look_at, new_streams};
use crate::instructions::code_of;
use kernel_core::Stop;
use o32_machine::{Emulator, Turn};
use std::alloc::Global;
use std::test::Fail;

/// A line to standard output, again and again.
const LINES: &str = "
    addiu $a0 $zero 1  lui $a1 data_high  addiu $a2 $zero 3  addiu $v0 $zero write  syscall
    addiu $v0 $zero write  syscall
";

/// Takes so many turns; whether the process went on in each.
fn goes_on(emulator: &mut Emulator, streams: &mut Streams, count: u64) -> bool {
    for _ in 0..count {
        if emulator.is_over() || emulator.turns() >= 100 {
            return false;
        }
        if !matches!(emulator.turn(streams), Ok(Turn::Went)) {
            return false;
        }
    }
    true
}

/// Whether the next turn stops since a put failed.
fn is_stopped(emulator: &mut Emulator, streams: &mut Streams) -> bool {
    if emulator.is_over() || emulator.turns() >= 100 {
        return false;
    }
    matches!(emulator.turn(streams), Err(Stop::WriteFault))
}

/// Whether the seventh turn stops, and is none.
fn stops_at_the_seventh(emulator: &mut Emulator, streams: &mut Streams) -> bool {
    goes_on(emulator, streams, 6)
        && emulator.is_running()
        && is_stopped(emulator, streams)
        && emulator.is_over()
        && !emulator.is_running()
        && emulator.turns() == 6
}

/// Whether it does where the second put fails, and the line of the first one was written.
#[derive(Clone, Copy)]
struct StopsWhereAPutFails;

impl Look for StopsWhereAPutFails {
    type Seen = bool;

    fn see(&self, alloc: Global, emulator: &mut Emulator) -> Result<bool, Fail> {
        let mut streams = new_streams(alloc, b"", &[2])?;
        let stops = stops_at_the_seventh(emulator, &mut streams);
        Ok(stops && streams.out.bytes() == b"Hi\n".as_slice())
    }
}

/// The second put fails: the turn of the second write stops, and is none.
#[test]
fn a_write_that_fails(rt: HostRuntime) -> Result<(), Fail> {
    let code = code_of(rt.alloc(), LINES)?;
    assert!(rt; look_at(rt.alloc(), &code, &StopsWhereAPutFails)?);
    Ok(())
}

/// How many nodes an emulator's tree has.
#[derive(Clone, Copy)]
struct CountOfNodes;

impl Look for CountOfNodes {
    type Seen = usize;

    fn see(&self, _alloc: Global, emulator: &mut Emulator) -> Result<usize, Fail> {
        match emulator.tree() {
            Ok(tree) => Ok(tree.nodes.as_slice().len()),
            Err(_) => Err(Fail::from("no memory")),
        }
    }
}

/// The tree of a program that changed nothing is the one that it was given.
#[test]
fn the_tree(rt: HostRuntime) -> Result<(), Fail> {
    let code = code_of(rt.alloc(), LINES)?;
    assert_eq!(rt; look_at(rt.alloc(), &code, &CountOfNodes)?, 1);
    Ok(())
}
