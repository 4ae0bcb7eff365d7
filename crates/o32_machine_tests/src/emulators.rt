//! Emulators of programs in instruction words, and their runs.
ghost use Rattle.std.specs.Prelude.{IfOk};
ghost use Rattle.kernel_core.specs.ValidTree.{IsValidTree};
ghost use Rattle.schedule.specs.Ranges.{IsGivenSchedule};

use guest_space::Space;
use kernel_core::{Finish, Items, Kind, Node, Tree};
use mips_exec::Cpu;
use o32_machine::{Emulator, Turn};
use outside::{Devices, MemSink, MemSource};
use schedule::{Schedule, parse};
use start_stack::Start;
use std::alloc::{AllocError, Global};
use std::test::Fail;

/// The streams of a test.
pub(crate) type Streams = Devices<MemSource, MemSink, MemSink>;

/// Where a program's code begins, and its data.
const CODE: u32 = 0x40_0000;

const DATA: u32 = 0x41_0000;

/// How many turns a test waits for the end.
const PATIENCE: u64 = 2000;

/// The tree of one empty root directory.
fn empty_tree(alloc: Global) -> Result<Tree, AllocError>
    ensures { IfOk result IsValidTree }
{
    let mut nodes = Vec::new(alloc);
    let entries = Items::from(Vec::new(alloc));
    nodes.push(Node {
        number: 1,
        mode: 0o755,
        mtime: 0,
        kind: Kind::Dir { entries },
    })?;
    Ok(Tree {
        nodes: Items::from(nodes),
    })
}

/// The schedule of an empty text.
fn empty_schedule(alloc: Global) -> Result<Schedule, Fail>
    ensures { IfOk result IsGivenSchedule }
{
    match parse(alloc, b"") {
        Ok(schedule) => Ok(schedule),
        Err(_) => Err(Fail::from("a schedule")),
    }
}

/// Maps four pages that begin with these words, and one of data that begins with a line, with the break behind it.
fn fill(alloc: Global, space: &mut Space, code: &[u32]) -> Result<(), Fail> {
    let mut bytes = Vec::new(alloc);
    for word in code {
        bytes.extend_from_slice(&word.to_be_bytes())?;
    }
    space.map(CODE / 4096, 4, 7).ok().ok_or("not mapped")?;
    space.map(DATA / 4096, 1, 3).ok().ok_or("not mapped")?;
    space.copy_out(CODE, &bytes).ok().ok_or("not stored")?;
    space.copy_out(DATA, b"Hi\n").ok().ok_or("not stored")?;
    space.set_break(DATA + 4096);
    Ok(())
}

/// A program's memory.
fn new_space(alloc: Global, code: &[u32]) -> Result<Space, Fail> {
    let mut space = Space::new(alloc).ok().ok_or("no memory")?;
    fill(alloc, &mut space, code)?;
    Ok(space)
}

/// An emulator of a program of these words, of an empty tree and an empty schedule.
fn new_emulator(alloc: Global, code: &[u32]) -> Result<Emulator, Fail> {
    let tree = empty_tree(alloc)?;
    let schedule = empty_schedule(alloc)?;
    let start = Start {
        space: new_space(alloc, code)?,
        cpu: Cpu::new(CODE),
    };
    match Emulator::new(alloc, start, tree, schedule, false, false) {
        Ok(emulator) => Ok(emulator),
        Err(_) => Err(Fail::from("no memory")),
    }
}

/// What is looked at in an emulator that is new.
pub(crate) trait Look {
    /// What is seen.
    type Seen;

    /// Looks at it.
    fn see(&self, alloc: Global, emulator: &mut Emulator) -> Result<Self::Seen, Fail>;
}

/// What is seen of an emulator of a program of these words. It alone gives one up: that costs the proof of all
/// that is given up.
pub(crate) fn look_at<L: Look>(alloc: Global, code: &[u32], look: &L) -> Result<L::Seen, Fail> {
    let mut emulator = new_emulator(alloc, code)?;
    look.see(alloc, &mut emulator)
}

/// Streams with this input; the calls of the output whose numbers are in `fail` fail.
pub(crate) fn new_streams(alloc: Global, input: &[u8], fail: &[u64]) -> Result<Streams, Fail> {
    Ok(Devices {
        input: MemSource::new(input.to_vec(alloc)?, Vec::new(alloc)),
        out: MemSink::new(alloc, fail.to_vec(alloc)?),
        err: MemSink::new(alloc, Vec::new(alloc)),
    })
}

/// Takes turns until there is none, and tells how it ended; None where that takes too long, or a turn stopped
/// early.
pub(crate) fn run(emulator: &mut Emulator, streams: &mut Streams) -> Option<Finish> {
    for _ in 0..PATIENCE {
        if emulator.is_over() || emulator.turns() >= PATIENCE {
            return None;
        }
        match emulator.turn(streams) {
            Ok(Turn::Went) => {}
            Ok(Turn::Ended(finish)) => return Some(finish),
            Err(_) => return None,
        }
    }
    None
}
