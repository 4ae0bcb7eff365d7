//! A machine of one program, and what comes of its calls.
ghost use Rattle.std.specs.Prelude.{IfOk};
ghost use Rattle.kernel_core.specs.ValidTree.{IsValidTree};

use crate::calls::{Call, Row};
use bridge_io::io_call;
use guest_space::Space;
use host_mem::{FIRST_ADDRESS, HostMem};
use kernel_core::{Effect, Items, Kind, Node, Reply, Tree};
use mips_exec::Cpu;
use native_kernel::NativeKernel;
use native_numbers::PWRITE64;
use o32_model::{CallWords, Log, Outcome, Seen};
use outside::{Devices, MemSink, MemSource};
use schedule::parse;
use std::alloc::{AllocError, Global};
use std::test::Fail;

/// The streams of a test.
type Streams = Devices<MemSource, MemSink, MemSink>;

/// The address of two pages that the program can store to.
pub(crate) const AT: u32 = 0x1_0000;

/// The address of the page behind them, which can only be loaded from, and whose last bytes are `end.`.
pub(crate) const CONST: u32 = 0x1_2000;

/// The address behind that, where no page is.
pub(crate) const CONST_END: u32 = 0x1_3000;

/// The address behind another page that the program can store to, where no page is.
pub(crate) const TAIL_END: u32 = 0x1_5000;

/// The address of 18 pages that the program can store to.
pub(crate) const LARGE: u32 = 0x2_0000;

/// A machine of one program.
#[derive(Drop)]
struct Machine {
    cpu: Cpu,
    space: Space,
    kernel: NativeKernel,
    memory: HostMem,
    streams: Streams,
    log: Log,
    /// How many of the effects in it were looked at.
    effects_seen: usize,
}

/// The tree of one empty root directory.
fn empty_tree(alloc: Global) -> Result<Tree, AllocError>
    ensures { IfOk result IsValidTree }
{
    let mut nodes = Vec::new(alloc);
    let entries = Items::from(Vec::new(alloc));
    nodes.push(Node {
        number: 1,
        mode: 0o755,
        mtime: 0,
        kind: Kind::Dir { entries },
    })?;
    Ok(Tree {
        nodes: Items::from(nodes),
    })
}

/// The program's memory.
fn new_space(alloc: Global) -> Result<Space, Fail> {
    let mut space = Space::new(alloc).ok().ok_or("no memory")?;
    space.map(0x10, 3, 3).ok().ok_or("not mapped")?;
    space.map(0x14, 1, 3).ok().ok_or("not mapped")?;
    space.map(0x20, 18, 3).ok().ok_or("not mapped")?;
    space
        .copy_out(CONST_END - 4, b"end.")
        .ok()
        .ok_or("not stored")?;
    space.protect(0x12, 1, 1);
    Ok(space)
}

/// A new kernel of an empty tree, whose schedule is this text.
fn new_kernel(alloc: Global, text: &[u8]) -> Result<NativeKernel, Fail> {
    let tree = empty_tree(alloc)?;
    let Ok(schedule) = parse(alloc, text) else {
        return Err(Fail::from("a schedule"));
    };
    match NativeKernel::new(alloc, tree, &schedule) {
        Ok(kernel) => Ok(kernel),
        Err(_) => Err(Fail::from("no memory")),
    }
}

/// Streams with this input, none of which fails.
fn new_streams(alloc: Global, input: &[u8]) -> Result<Streams, AllocError> {
    Ok(Devices {
        input: MemSource::new(input.to_vec(alloc)?, Vec::new(alloc)),
        out: MemSink::new(alloc, Vec::new(alloc)),
        err: MemSink::new(alloc, Vec::new(alloc)),
    })
}

/// A machine with this schedule and this input. What its calls do is kept.
fn new_machine(alloc: Global, schedule: &[u8], input: &[u8]) -> Result<Machine, Fail> {
    let space = new_space(alloc)?;
    let streams = new_streams(alloc, input)?;
    Ok(Machine {
        cpu: Cpu::new(0x40_0000),
        space,
        kernel: new_kernel(alloc, schedule)?,
        memory: HostMem::new(alloc),
        streams,
        log: Log {
            native: Some(Vec::new(alloc)),
            effects: Some(Vec::new(alloc)),
        },
        effects_seen: 0,
    })
}

impl Machine {
    /// What a call comes to.
    fn call(&mut self, call: Call, arguments: [u32; 3]) -> Option<Outcome> {
        let (name, words) = call.words(arguments);
        let seen = Seen {
            quanta: 0,
            restart: None,
        };
        io_call(
            name,
            &words,
            &mut self.cpu,
            &mut self.space,
            &mut self.kernel,
            &mut self.memory,
            &mut self.streams,
            &mut self.log,
            &seen,
        )
        .ok()
    }

    /// What a call comes to for which the native kernel was called, as is kept.
    fn native_call(&mut self, call: Call, arguments: [u32; 3]) -> Option<Outcome> {
        let before = self.native_calls();
        let outcome = self.call(call, arguments);
        if self.native_calls() > before {
            outcome
        } else {
            None
        }
    }

    /// How many native calls are kept.
    fn native_calls(&self) -> usize {
        match &self.log.native {
            Some(entries) => entries.len(),
            None => 0,
        }
    }

    /// Whether the program's memory has these bytes.
    fn holds(&self, address: u32, bytes: &[u8]) -> bool {
        let mut buffer = [0; 64];
        let Some(there) = buffer.get_mut(..bytes.len()) else {
            return false;
        };
        self.space.copy_in(address, there).is_ok() && &*there == bytes
    }

    /// What a call of the 64-bit kernel itself replies, with these bytes in host memory.
    fn reply(&mut self, number: u64, arguments: [u64; 4], bytes: &[u8]) -> Option<Reply> {
        let [first, second, third, fourth] = arguments;
        self.memory.clear();
        self.memory.push(bytes).ok()?;
        self.kernel
            .call(
                number,
                [first, second, third, fourth, 0, 0],
                &mut self.memory,
                &mut self.streams,
            )
            .ok()
    }

    /// Whether one byte can be written to each of so many first blocks of an open file, by pwrite64(2) of the 64-bit
    /// kernel itself.
    fn fills(&mut self, descriptor: u64, count: u32) -> bool {
        for block in 0..count {
            let arguments = [descriptor, FIRST_ADDRESS, 1, u64::from(block) * 4096];
            if self.reply(PWRITE64, arguments, b"x") != Some(Reply::Done(1)) {
                return false;
            }
        }
        true
    }

    /// Whether a call gives this result.
    fn gives(&mut self, call: Call, arguments: [u32; 3], number: u32) -> bool {
        matches!(self.native_call(call, arguments), Some(Outcome::Value(there)) if there == number)
    }

    /// Whether dup(2) of standard input gives each descriptor from 3 on.
    fn opens_all(&mut self) -> bool {
        for fd in 3..1024 {
            if !self.gives(Call::Dup, [0, 0, 0], fd) {
                return false;
            }
        }
        true
    }

    /// The next effect that is kept.
    fn next_effect(&mut self) -> Option<&Effect> {
        let place = self.effects_seen;
        self.effects_seen = place.saturating_add(1);
        match &self.log.effects {
            Some(effects) => effects.get(place),
            None => None,
        }
    }

    /// Whether a row comes out as it says.
    fn is_right(&mut self, row: &Row) -> bool {
        match *row {
            Row::Gives(call, arguments, number) => self.gives(call, arguments, number),
            Row::GivesTwo(call, arguments, first, second) => {
                matches!(self.native_call(call, arguments), Some(Outcome::Pair(one, other)) if one == first && other == second)
            }
            Row::Fails(call, arguments, error) => {
                matches!(self.call(call, arguments), Some(Outcome::Error(there)) if there == error)
            }
            Row::Waits(call, arguments, done) => {
                let (_, words) = call.words(arguments);
                is_wait(self.native_call(call, arguments), &words, done)
            }
            Row::OpensAll => self.opens_all(),
            Row::Puts(address, bytes) => self.space.copy_out(address, bytes).is_ok(),
            Row::Native(number, arguments, bytes, result) => {
                self.reply(number, arguments, bytes) == Some(Reply::Done(result))
            }
            Row::Fills(descriptor, count) => self.fills(descriptor, count),
            _ => self.is_so(row),
        }
    }

    /// Whether a row that looks at something comes out as it says.
    fn is_so(&mut self, row: &Row) -> bool {
        match *row {
            Row::Holds(address, bytes) => self.holds(address, bytes),
            Row::Written(out, err) => {
                self.streams.out.bytes() == out && self.streams.err.bytes() == err
            }
            Row::Signalled(wanted) => self.kernel.deliverable() == wanted,
            Row::Stores(address, bytes) => is_write(self.next_effect(), address, bytes),
            Row::Sends(stream, bytes) => is_output(self.next_effect(), stream, bytes),
            Row::NoEffect => self.next_effect().is_none(),
            _ => false,
        }
    }

    /// The first row that does not come out so, counted from 0.
    fn first_wrong(&mut self, rows: &[Row]) -> Option<usize> {
        for (place, row) in rows.iter().enumerate() {
            if !self.is_right(row) {
                return Some(place);
            }
        }
        None
    }
}

/// The first row, counted from 0, that does not come out so in a new machine with this schedule and this
/// input.
pub(crate) fn first_wrong(
    alloc: Global,
    schedule: &[u8],
    input: &[u8],
    rows: &[Row],
) -> Result<Option<usize>, Fail> {
    let mut machine = new_machine(alloc, schedule, input)?;
    Ok(machine.first_wrong(rows))
}

/// Whether an effect is that these bytes are written from an address on.
fn is_write(effect: Option<&Effect>, at: u32, text: &[u8]) -> bool {
    matches!(effect, Some(Effect::Write { address, bytes }) if *address == at && bytes.as_slice() == text)
}

/// Whether an effect is that these bytes go out on stream 1 or 2.
fn is_output(effect: Option<&Effect>, number: u8, text: &[u8]) -> bool {
    matches!(effect, Some(Effect::Output { stream, bytes }) if *stream == number && bytes.as_slice() == text)
}

/// Whether an outcome is that these words wait, without a deadline and a mask.
fn is_wait(outcome: Option<Outcome>, words: &CallWords, done: u32) -> bool {
    let [first, second, third, fourth] = words.reg;
    let Some(Outcome::Sleep(wait)) = outcome else {
        return false;
    };
    wait.nr == words.nr
        && wait.words == [first, second, third, fourth, 0, 0]
        && wait.done == done
        && wait.deadline.is_none()
        && wait.mask.is_none()
}
