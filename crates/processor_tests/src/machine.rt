//! A processor and its memory, with two instructions and two words in it.

use guest_space::Space;
use kernel_core::Sig;
use mips_exec::{Cpu, NoMemory, Stepped, step};
use std::alloc::Global;

/// What registers 9, 10 and 31 hold at first, where no row says otherwise.
pub(crate) const KEPT: u32 = 0x5A5A_5A5A;

/// A signal, its code and its address.
pub(crate) type Signal = (Sig, u32, u32);

/// What there is after a step.
#[derive(Drop)]
pub(crate) struct After {
    /// The signal that came, if any.
    pub(crate) came: Option<Signal>,
    pub(crate) cpu: Cpu,
    /// The words at 0x2000 and 0x2004.
    pub(crate) stored: [Option<u32>; 2],
}

/// A processor at 0x1000 with two values in registers 8 and 9.
fn processor(first: u32, second: u32) -> Cpu {
    let mut cpu = Cpu::new(0x1000);
    cpu.set_register(8, first);
    cpu.set_register(9, second);
    cpu.set_register(10, KEPT);
    cpu.set_register(31, KEPT);
    cpu.hi = 1;
    cpu.lo = 0xFFFF_FFFE;
    cpu.tls = 0x00C0_FFEE;
    cpu
}

/// Pages 1 and 2, which hold two instructions and, at 0x2000, two words.
fn fill(space: &mut Space, words: [u32; 2]) -> Result<(), &'static str> {
    space.map(1, 2, 7).map_err(|_| "no pages")?;
    for (at, word) in [
        (0x1000, words[0]),
        (0x1004, words[1]),
        (0x2000, 0x1122_3344),
        (0x2004, 0x8899_AABB),
    ] {
        space.store(at, 4, word).map_err(|_| "no store")?;
    }
    Ok(())
}

/// A processor at 0x1000 with two values in registers 8 and 9, and pages 1 and 2, which hold two
/// instructions and, at 0x2000, two words.
pub(crate) fn machine(
    alloc: Global,
    words: [u32; 2],
    first: u32,
    second: u32,
) -> Result<(Cpu, Space), &'static str> {
    let mut space = Space::new(alloc).map_err(|_| "no memory")?;
    fill(&mut space, words)?;
    Ok((processor(first, second), space))
}

/// One step, and the signal, if one came.
pub(crate) fn fault(cpu: &mut Cpu, space: &mut Space) -> Result<Option<Signal>, &'static str> {
    match step(cpu, space) {
        Ok(Stepped::Fault { sig, code, addr }) => Ok(Some((sig, code, addr))),
        Ok(Stepped::Next | Stepped::Syscall) => Ok(None),
        Err(NoMemory) => Err("no memory"),
    }
}

fn stepped(mut cpu: Cpu, space: &mut Space, word: u32) -> Result<After, &'static str> {
    fill(space, [word, 0])?;
    let came = fault(&mut cpu, space)?;
    Ok(After {
        came,
        cpu,
        stored: [space.load(0x2000, 4).ok(), space.load(0x2004, 4).ok()],
    })
}

/// What there is after an instruction with two values in registers 8 and 9.
pub(crate) fn one_step(
    alloc: Global,
    word: u32,
    first: u32,
    second: u32,
) -> Result<After, &'static str> {
    let mut space = Space::new(alloc).map_err(|_| "no memory")?;
    stepped(processor(first, second), &mut space, word)
}
