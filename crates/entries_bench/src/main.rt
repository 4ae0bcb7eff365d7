//! Gives one file many names in one directory and lists that in pieces of 4 KiB, all by calls of the native kernel, for
//! `bench/entries.py`. The words are how many names there are, at least one, and how often they are listed.
#![tactic(auto)]

ghost use Rattle.std.specs.Prelude.{◌≤◌};

use anyhow::{Result, bail};
use fs_image::decode;
use host_mem::{FIRST_ADDRESS, HostMem};
use kernel_core::Reply;
use native_kernel::NativeKernel;
use native_numbers::{CLOSE, GETDENTS64, LINKAT, OPENAT};
use outside::{Devices, SureSink, SureSource};
use schedule::parse;
use std::alloc::Global;
use std::env;

/// The working directory in the place of a descriptor (AT_FDCWD, which is -100), and O_CREAT of open(2).
const CWD: u64 = u64::MAX - 99;

const O_CREAT: u64 = 0x40;

/// How many bytes are asked for at a time, and how many the record of a name of up to four letters has.
const PIECE: u32 = 4096;

const RECORD: u64 = 24;

/// The image of a tree of one empty directory.
const EMPTY_TREE: &[u8] =
    b"O32IMG1\n\0\0\0\x01\0\0\0\0\0\0\0\x01\x02\x01\xED\0\0\0\0\0\0\0\0\0\0\0\0";

type Streams = Devices<SureSource, SureSink, SureSink>;

/// A kernel with its streams.
#[derive(Drop)]
struct Machine {
    alloc: Global,
    kernel: NativeKernel,
    streams: Streams,
}

impl Machine {
    fn new(alloc: Global) -> Result<Machine> {
        let Ok(tree) = decode(alloc, EMPTY_TREE) else {
            bail!("no tree");
        };
        let Ok(schedule) = parse(alloc, b"") else {
            bail!("no schedule");
        };
        let Ok(kernel) = NativeKernel::new(alloc, tree, &schedule) else {
            bail!("out of memory");
        };
        let streams = Devices {
            input: SureSource::new(Vec::new(alloc)),
            out: SureSink::new(alloc),
            err: SureSink::new(alloc),
        };
        Ok(Machine {
            alloc,
            kernel,
            streams,
        })
    }

    /// What a call gives that succeeds.
    fn call(&mut self, number: u64, arguments: [u64; 6], memory: &mut HostMem) -> Result<u64> {
        match self
            .kernel
            .call(number, arguments, memory, &mut self.streams)
        {
            Ok(Reply::Done(given)) if given >= 0 => Ok(given.unsigned_abs()),
            Ok(_) => bail!("a call is refused"),
            Err(_) => bail!("a call stops"),
        }
    }

    /// A call with these bytes in memory.
    fn call_with(&mut self, number: u64, arguments: [u64; 6], bytes: &[u8]) -> Result<u64> {
        let mut memory = HostMem::new(self.alloc);
        if memory.push(bytes).is_err() {
            bail!("out of memory");
        }
        self.call(number, arguments, &mut memory)
    }

    /// Makes a file, and other names of it until there are so many.
    fn fill(&mut self, count: u32) -> Result<()> {
        let fd = self.call_with(OPENAT, [CWD, FIRST_ADDRESS, O_CREAT, 0o600, 0, 0], b"f\0")?;
        self.call_with(CLOSE, [fd, 0, 0, 0, 0, 0], b"")?;
        for number in 1..count {
            let arguments = [CWD, FIRST_ADDRESS, CWD, FIRST_ADDRESS + 2, 0, 0];
            self.call_with(LINKAT, arguments, &paths(number))?;
        }
        Ok(())
    }

    /// How many bytes of records there are from a descriptor's position on.
    fn bytes_listed(&mut self, fd: u64) -> Result<u64> {
        let mut memory = HostMem::new(self.alloc);
        if memory.push_zeros(PIECE).is_err() {
            bail!("out of memory");
        }
        let mut bytes = 0u64;
        for _ in 0..u64::MAX {
            let arguments = [fd, FIRST_ADDRESS, u64::from(PIECE), 0, 0, 0];
            let given = self.call(GETDENTS64, arguments, &mut memory)?;
            if given == 0 {
                break;
            }
            bytes = bytes.saturating_add(given);
        }
        Ok(bytes)
    }

    /// How many names are listed.
    fn list(&mut self) -> Result<u64> {
        let fd = self.call_with(OPENAT, [CWD, FIRST_ADDRESS, 0, 0, 0, 0], b"/\0")?;
        let bytes = self.bytes_listed(fd)?;
        self.call_with(CLOSE, [fd, 0, 0, 0, 0, 0], b"")?;
        Ok((bytes / RECORD).saturating_sub(2))
    }
}

/// One of the 26 small letters.
fn letter(number: u32) -> u8
    ensures low { 97 ≤ result }
    ensures high { result ≤ 122 }
{
    b'a' + (number % 26) as u8
}

/// The file's first name, and one of four letters, another one for each number below 26^4.
fn paths(number: u32) -> [u8; 7] {
    [
        b'f',
        0,
        letter(number),
        letter(number / 26),
        letter(number / 676),
        letter(number / 17_576),
        0,
    ]
}

fn listed(alloc: Global, count: u32, times: u32) -> Result<u64> {
    let mut machine = Machine::new(alloc)?;
    machine.fill(count)?;
    let mut names = 0;
    for _ in 0..times {
        names = machine.list()?;
    }
    Ok(names)
}

/// The numbers that the words are; none where they are not two numbers.
fn numbers(rt: &HostRuntime) -> Result<Option<(u32, u32)>> {
    let mut words = env::args(rt)?.skip(1);
    let (Some(count), Some(times)) = (words.next(), words.next()) else {
        return Ok(None);
    };
    let (Ok(count), Ok(times)) = (count.parse::<u32>(), times.parse::<u32>()) else {
        return Ok(None);
    };
    Ok(Some((count, times)))
}

fn main(rt: HostRuntime) -> Result<()> {
    let Some((count, times)) = numbers(&rt)? else {
        bail!("usage: entries_bench COUNT TIMES");
    };
    let names = listed(rt.alloc(), count, times)?;
    println!(rt; "{names} names listed")?;
    Ok(())
}
