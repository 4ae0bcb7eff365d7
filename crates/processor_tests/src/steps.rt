//! Bytes that are denied, linked loads and stores, and what comes of a few steps.

use crate::machine::{KEPT, fault, machine};
use guest_space::Space;
use kernel_core::Sig;
use mips_exec::{Cpu, Stepped, step};
use std::alloc::Global;
use std::process::Abort;
use std::test::Fail;

/// An instruction, its base, and the signal, its code and its address.
type DeniedRow = (u32, u32, Sig, u32, u32);

fn denies(rt: &impl Abort, cpu: &mut Cpu, space: &mut Space, row: DeniedRow) -> Result<(), Fail> {
    let (word, _, sig, code, address) = row;
    cpu.link = Some(0x2004);
    space.map(4, 1, 1).map_err(|_| "no page")?;
    space.map(5, 1, 0).map_err(|_| "no page")?;
    let came = fault(cpu, space)?;
    assert!(rt; came == Some((sig, code, address)), "at {word:08x}");
    assert_eq!(rt;
        (cpu.pc, cpu.register(9)),
        (0x1000, 0xAABB_CCDD),
        "at {word:08x}"
    );
    // SC alone clears the link, and a store that is denied writes nothing
    let kept = word != 0xE109_0000;
    assert!(rt; cpu.link == kept.then_some(0x2004), "at {word:08x}");
    assert_eq!(rt; space.load(0x2FFE, 2).ok(), Some(0));
    Ok(())
}

fn is_denied(rt: &impl Abort, alloc: Global, row: DeniedRow) -> Result<(), Fail> {
    let (mut cpu, mut space) = machine(alloc, [row.0, 0], row.1, 0xAABB_CCDD)?;
    denies(rt, &mut cpu, &mut space, row)
}

#[test]
fn denied_bytes_have_their_signals_and_addresses(rt: HostRuntime) -> Result<(), Fail> {
    // LW, LWL, LWR, SW, SH, SWL, SWR, LL and SC. Pages 1 and 2 are there, 4 may be read, and 5 has no protection
    for row in [
        (0x8D09_0000, 0, Sig::Segv, 1, 0),
        (0x8D09_0000, 0x2FFE, Sig::Segv, 1, 0x3000),
        (0x8D09_0000, 0x5000, Sig::Segv, 2, 0x5000),
        (0x8909_0000, 0x3003, Sig::Segv, 1, 0x3000),
        (0x9909_0000, 0x3001, Sig::Segv, 1, 0x3000),
        (0xAD09_0000, 0x2FFE, Sig::Segv, 1, 0x3000),
        (0xAD09_0000, 0x4000, Sig::Segv, 2, 0x4000),
        (0xA509_0000, 0x2FFF, Sig::Segv, 1, 0x3000),
        (0xAD09_0000, 0x7FFF_8000, Sig::Bus, 1, 0x7FFF_8000),
        (0xA909_0000, 0x3002, Sig::Segv, 1, 0x3002),
        (0xB909_0000, 0x3002, Sig::Segv, 1, 0x3000),
        (0xC109_0000, 0x2002, Sig::Bus, 1, 0x2002),
        (0xC109_0000, 0x3000, Sig::Segv, 1, 0x3000),
        (0xE109_0000, 0x2001, Sig::Bus, 1, 0x2001),
        (0xE109_0000, 0x4000, Sig::Segv, 2, 0x4000),
        (0xE109_0000, 0x3000, Sig::Segv, 1, 0x3000),
    ] {
        is_denied(&rt, rt.alloc(), row)?;
    }
    Ok(())
}

/// The place of an instruction, and the signal, its code and its address.
type FetchRow = (u32, Sig, u32, u32);

fn denies_fetch(
    rt: &impl Abort,
    cpu: &mut Cpu,
    space: &mut Space,
    row: FetchRow,
) -> Result<(), Fail> {
    let (pc, sig, code, address) = row;
    space.map(5, 1, 0).map_err(|_| "no page")?;
    cpu.pc = pc;
    assert!(rt;
        fault(cpu, space)? == Some((sig, code, address)),
        "at {pc:08x}"
    );
    assert_eq!(rt; cpu.pc, pc);
    Ok(())
}

fn fetch_is_denied(rt: &impl Abort, alloc: Global, row: FetchRow) -> Result<(), Fail> {
    let (mut cpu, mut space) = machine(alloc, [0, 0], 0, 0)?;
    denies_fetch(rt, &mut cpu, &mut space, row)
}

#[test]
fn denied_fetches_have_their_signals_and_addresses(rt: HostRuntime) -> Result<(), Fail> {
    // an unaligned pc, an absent page, the end of user space, and a page without protection
    for row in [
        (0x1002, Sig::Bus, 1, 0x1002),
        (0x3000, Sig::Segv, 1, 0x3000),
        (0x8000_0000, Sig::Bus, 1, 0x8000_0000),
        (0x5004, Sig::Segv, 2, 0x5004),
    ] {
        fetch_is_denied(&rt, rt.alloc(), row)?;
    }
    Ok(())
}

/// Whether a system call comes in between, the address that is linked, SC's answer, and the word that then stands at 0x2000.
type LinkedRow = (bool, u32, u32, u32);

/// A system call at 0x1008.
fn calls(rt: &impl Abort, cpu: &mut Cpu, space: &mut Space) -> Result<(), Fail> {
    space.store(0x1008, 4, 0x0000_000C).map_err(|_| "no store")?;
    cpu.pc = 0x1008;
    assert!(rt; matches!(step(cpu, space), Ok(Stepped::Syscall)));
    assert_eq!(rt; (cpu.pc, cpu.link.is_none()), (0x100C, true));
    Ok(())
}

fn stores_by_link(
    rt: &impl Abort,
    cpu: &mut Cpu,
    space: &mut Space,
    row: LinkedRow,
) -> Result<(), Fail> {
    let (called, linked, answer, stored) = row;
    assert!(rt; fault(cpu, space)?.is_none());
    assert!(rt; cpu.link == Some(linked));
    if called {
        calls(rt, cpu, space)?;
    }
    cpu.pc = 0x1004;
    cpu.set_register(8, 0x2000);
    assert!(rt; fault(cpu, space)?.is_none());
    assert_eq!(rt; (cpu.register(9), cpu.link.is_none()), (answer, true));
    assert_eq!(rt; space.load(0x2000, 4).ok(), Some(stored));
    Ok(())
}

fn linked_store_answers(rt: &impl Abort, alloc: Global, row: LinkedRow) -> Result<(), Fail> {
    let (mut cpu, mut space) = machine(alloc, [0xC10A_0000, 0xE109_0000], row.1, 0xAABB_CCDD)?;
    stores_by_link(rt, &mut cpu, &mut space, row)
}

#[test]
fn sc_stores_where_its_address_is_linked(rt: HostRuntime) -> Result<(), Fail> {
    // LL $10, 0($8) and SC $9, 0($8), and the same with a system call in between or another link
    for row in [
        (false, 0x2000, 1, 0xAABB_CCDD),
        (true, 0x2000, 0, 0x1122_3344),
        (false, 0x2004, 0, 0x1122_3344),
    ] {
        linked_store_answers(&rt, rt.alloc(), row)?;
    }
    Ok(())
}

/// MFHI $10 or MFLO $10, HI and LO, and register 10.
type MoveRow = (u32, u32, u32, u32);

fn moves(rt: &impl Abort, cpu: &mut Cpu, space: &mut Space, row: MoveRow) -> Result<(), Fail> {
    let (word, high, low, result) = row;
    cpu.hi = high;
    cpu.lo = low;
    assert!(rt; fault(cpu, space)?.is_none(), "at {word:08x}");
    assert_eq!(rt;
        (cpu.pc, cpu.register(10), cpu.hi, cpu.lo),
        (0x1004, result, high, low),
        "at {word:08x}"
    );
    Ok(())
}

fn move_gives(rt: &impl Abort, alloc: Global, row: MoveRow) -> Result<(), Fail> {
    let (mut cpu, mut space) = machine(alloc, [row.0, 0], 0, 0)?;
    moves(rt, &mut cpu, &mut space, row)
}

#[test]
fn moves_give_high_and_low(rt: HostRuntime) -> Result<(), Fail> {
    for row in [
        (0x0000_5010, 0x8000_0000, 7, 0x8000_0000),
        (0x0000_5010, 0xFFFF_FFFF, 0, 0xFFFF_FFFF),
        (0x0000_5012, 7, 0x8000_0000, 0x8000_0000),
        (0x0000_5012, 0, 0xFFFF_FFFF, 0xFFFF_FFFF),
    ] {
        move_gives(&rt, rt.alloc(), row)?;
    }
    Ok(())
}

/// Two instructions, and what registers 9 and 10 hold then.
type StoredRow = ([u32; 2], u32, u32);

fn stores_to_a_new_page(
    rt: &impl Abort,
    cpu: &mut Cpu,
    space: &mut Space,
    row: StoredRow,
) -> Result<(), Fail> {
    let (_, ninth, tenth) = row;
    space.map(6, 1, 3).map_err(|_| "no page")?;
    assert!(rt; matches!(step(cpu, space), Ok(Stepped::Next)));
    assert!(rt; matches!(step(cpu, space), Ok(Stepped::Next)));
    assert_eq!(rt;
        (cpu.pc, cpu.register(9), cpu.register(10)),
        (0x1008, ninth, tenth)
    );
    assert_eq!(rt; space.load(0x6000, 4).ok(), Some(0xAABB_CCDD));
    Ok(())
}

fn new_page_is_stored_to(rt: &impl Abort, alloc: Global, row: StoredRow) -> Result<(), Fail> {
    let (mut cpu, mut space) = machine(alloc, row.0, 0x6000, 0xAABB_CCDD)?;
    stores_to_a_new_page(rt, &mut cpu, &mut space, row)
}

#[test]
fn pages_that_were_not_written_are_stored_to(rt: HostRuntime) -> Result<(), Fail> {
    // SW $9, 0($8) and a NOP; LL $10, 0($8) and SC $9, 0($8)
    for row in [
        ([0xAD09_0000, 0], 0xAABB_CCDD, KEPT),
        ([0xC10A_0000, 0xE109_0000], 1, 0),
    ] {
        new_page_is_stored_to(&rt, rt.alloc(), row)?;
    }
    Ok(())
}

/// A system call, before which an address is linked.
fn tells_a_call(rt: &impl Abort, cpu: &mut Cpu, space: &mut Space) {
    cpu.link = Some(0x2000);
    assert!(rt; matches!(step(cpu, space), Ok(Stepped::Syscall)));
    assert_eq!(rt; (cpu.pc, cpu.link.is_none()), (0x1004, true));
}

fn call_is_told(rt: &impl Abort, alloc: Global, word: u32) -> Result<(), Fail> {
    let (mut cpu, mut space) = machine(alloc, [word, 0], 0, 0)?;
    tells_a_call(rt, &mut cpu, &mut space);
    Ok(())
}

#[test]
fn system_calls_are_told(rt: HostRuntime) -> Result<(), Fail> {
    for word in [0x0000_000C, 0x0000_404C, 0x03FF_FFCC] {
        call_is_told(&rt, rt.alloc(), word)?;
    }
    Ok(())
}
