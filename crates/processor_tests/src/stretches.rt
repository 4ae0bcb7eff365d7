//! Instructions one after the other: stores to the code itself, ends of pages, and where a run ends.

use crate::machine::{KEPT, machine};
use guest_space::Space;
use kernel_core::Sig;
use mips_exec::{Cpu, Ran, Stepped, run};
use std::alloc::Global;
use std::process::Abort;
use std::test::Fail;

/// ADDIU $10, $0, 7 and ADDIU $10, $0, 1.
const SEVEN: u32 = 0x240A_0007;

const ONE: u32 = 0x240A_0001;

const SYSCALL: u32 = 0x0000_000C;

/// BEQ that goes two words past its slot.
const GO_ON: u32 = 0x1000_0002;

/// What the last instruction of a run came to.
#[derive(Clone, Copy)]
enum Came {
    Next,
    Call,
    Signal(Sig, u32, u32),
}

/// The address of the first of five instructions, these, registers 8 and 9, and the most instructions before the last one.
type Script = (u32, [u32; 5], u32, u32, u64);

/// The instructions before the last one, what that came to, the program counter, and registers 9 and 10.
type Outcome = (u64, Came, u32, u32, u32);

fn has_come(came: Came, ran: &Ran) -> bool {
    match ran.came {
        Ok(Stepped::Next) => matches!(came, Came::Next),
        Ok(Stepped::Syscall) => matches!(came, Came::Call),
        Ok(Stepped::Fault { sig, code, addr }) => match came {
            Came::Signal(wanted, number, address) => (sig, code, addr) == (wanted, number, address),
            _ => false,
        },
        Err(_no_memory) => false,
    }
}

fn runs(
    rt: &impl Abort,
    cpu: &mut Cpu,
    space: &mut Space,
    most: u64,
    outcome: Outcome,
) -> Result<(), Fail> {
    let (quiet, came, pc, ninth, tenth) = outcome;
    let begun = cpu.pc;
    let ran = run(cpu, space, most);
    assert!(rt; has_come(came, &ran), "from {begun:08x}");
    assert_eq!(rt;
        (ran.quiet, cpu.pc, cpu.register(9), cpu.register(10)),
        (quiet, pc, ninth, tenth),
        "from {begun:08x}"
    );
    Ok(())
}

fn write(space: &mut Space, first: u32, words: [u32; 5]) -> Result<(), &'static str> {
    let mut at = first;
    for word in words {
        space.store(at, 4, word).map_err(|_| "no store")?;
        at = at.wrapping_add(4);
    }
    Ok(())
}

fn script_runs(
    rt: &impl Abort,
    alloc: Global,
    script: Script,
    outcome: Outcome,
) -> Result<(), Fail> {
    let (first, words, eighth, ninth, most) = script;
    let (mut cpu, mut space) = machine(alloc, [0, 0], eighth, ninth)?;
    write(&mut space, first, words)?;
    cpu.pc = first;
    runs(rt, &mut cpu, &mut space, most, outcome)
}

#[test]
fn a_word_that_was_stored_is_the_word_executed(rt: HostRuntime) -> Result<(), Fail> {
    for (script, outcome) in [
        // SW $9, 4($8) over the next instruction
        (
            (
                0x1000,
                [0xAD09_0004, ONE, SYSCALL, 0, 0],
                0x1000,
                SEVEN,
                100,
            ),
            (2, Came::Call, 0x100C, SEVEN, 7),
        ),
        // SW $9, 12($8) in the slot of a branch, over its target
        (
            (
                0x1000,
                [GO_ON, 0xAD09_000C, 0, ONE, SYSCALL],
                0x1000,
                SEVEN,
                100,
            ),
            (3, Came::Call, 0x1014, SEVEN, 7),
        ),
        // SW $9, 0($8) over an instruction that was executed, and BEQ back to it
        (
            (
                0x1000,
                [ONE, 0xAD09_0000, 0x1000_FFFD, 0, 0],
                0x1000,
                SYSCALL,
                100,
            ),
            (4, Came::Call, 0x1004, SYSCALL, 1),
        ),
    ] {
        script_runs(&rt, rt.alloc(), script, outcome)?;
    }
    Ok(())
}

#[test]
fn a_run_goes_from_page_to_page(rt: HostRuntime) -> Result<(), Fail> {
    for (script, outcome) in [
        // the next page; a slot at its begin, and a slot at the end of its page
        (
            (0x1FFC, [SEVEN, SYSCALL, 0, 0, 0], 0, 5, 100),
            (1, Came::Call, 0x2004, 5, 7),
        ),
        (
            (0x1FFC, [GO_ON, SEVEN, 0, SYSCALL, 0], 0, 5, 100),
            (2, Came::Call, 0x200C, 5, 7),
        ),
        (
            (0x1FF8, [GO_ON, SEVEN, 0, SYSCALL, 0], 0, 5, 100),
            (2, Came::Call, 0x2008, 5, 7),
        ),
        // a call at the end of a page
        (
            (0x1FF8, [SEVEN, SYSCALL, 0, 0, 0], 0, 5, 100),
            (1, Came::Call, 0x2000, 5, 7),
        ),
        // an absent page, and JR $8 to an unaligned address
        (
            (0x2FEC, [0, 0, 0, 0, SEVEN], 0, 5, 100),
            (5, Came::Signal(Sig::Segv, 1, 0x3000), 0x3000, 5, 7),
        ),
        (
            (0x1000, [0x0100_0008, SEVEN, 0, 0, 0], 0x2002, 5, 100),
            (2, Came::Signal(Sig::Bus, 1, 0x2002), 0x2002, 5, 7),
        ),
    ] {
        script_runs(&rt, rt.alloc(), script, outcome)?;
    }
    Ok(())
}

#[test]
fn a_run_ends_at_a_fault(rt: HostRuntime) -> Result<(), Fail> {
    for (words, came, quiet, pc, tenth) in [
        // SW $9, 0($8) and LW $9, 0($8) of an absent page, also in a slot; a branch and a call in a slot; a word of no instruction
        (
            [SEVEN, 0xAD09_0000],
            Came::Signal(Sig::Segv, 1, 0x3000),
            1,
            0x1004,
            7,
        ),
        (
            [SEVEN, 0x8D09_0000],
            Came::Signal(Sig::Segv, 1, 0x3000),
            1,
            0x1004,
            7,
        ),
        (
            [GO_ON, 0xAD09_0000],
            Came::Signal(Sig::Segv, 1, 0x3000),
            1,
            0x1000,
            KEPT,
        ),
        (
            [GO_ON, 0x8D09_0000],
            Came::Signal(Sig::Segv, 1, 0x3000),
            1,
            0x1000,
            KEPT,
        ),
        (
            [GO_ON, GO_ON],
            Came::Signal(Sig::Ill, 1, 0x1000),
            1,
            0x1000,
            KEPT,
        ),
        (
            [GO_ON, SYSCALL],
            Came::Signal(Sig::Ill, 1, 0x1000),
            1,
            0x1000,
            KEPT,
        ),
        (
            [SEVEN, 0xFFFF_FFFF],
            Came::Signal(Sig::Ill, 1, 0x1004),
            1,
            0x1004,
            7,
        ),
    ] {
        let script = (0x1000, [words[0], words[1], ONE, ONE, ONE], 0x3000, 5, 100);
        script_runs(&rt, rt.alloc(), script, (quiet, came, pc, 5, tenth))?;
    }
    Ok(())
}

#[test]
fn a_run_has_at_most_so_many_instructions_and_one(rt: HostRuntime) -> Result<(), Fail> {
    for (script, outcome) in [
        (
            (0x1000, [SEVEN, ONE, 0, 0, 0], 0x2000, 5, 0),
            (0, Came::Next, 0x1004, 5, 7),
        ),
        // ADDIU $9, $0, 6
        (
            (0x1000, [SEVEN, 0x2409_0006, ONE, 0, 0], 0x2000, 5, 1),
            (1, Came::Next, 0x1008, 6, 7),
        ),
        // SW $9, 0($8) as the last one, and as the last but one
        (
            (0x1000, [0xAD09_0000, SEVEN, ONE, 0, 0], 0x2000, 5, 0),
            (0, Came::Next, 0x1004, 5, KEPT),
        ),
        (
            (0x1000, [0xAD09_0000, SEVEN, ONE, 0, 0], 0x2000, 5, 1),
            (1, Came::Next, 0x1008, 5, 7),
        ),
        // a call behind the most that are quiet, and one before so many were carried out
        (
            (0x1000, [SYSCALL, ONE, ONE, 0, 0], 0x2000, 5, 0),
            (0, Came::Call, 0x1004, 5, KEPT),
        ),
        (
            (0x1000, [SEVEN, SYSCALL, ONE, 0, 0], 0x2000, 5, 1),
            (1, Came::Call, 0x1008, 5, 7),
        ),
        (
            (0x1000, [SEVEN, SYSCALL, ONE, 0, 0], 0x2000, 5, 2),
            (1, Came::Call, 0x1008, 5, 7),
        ),
        // LL $10, 0($8) and SC $9, 0($8)
        (
            (
                0x1000,
                [0xC10A_0000, 0xE109_0000, SYSCALL, 0, 0],
                0x2000,
                0xAABB_CCDD,
                100,
            ),
            (2, Came::Call, 0x100C, 1, 0x1122_3344),
        ),
    ] {
        script_runs(&rt, rt.alloc(), script, outcome)?;
    }
    Ok(())
}

/// A call in page 1, behind which its protection goes, then the page, and then there is a page of zeros, which are NOPs.
fn runs_again(rt: &impl Abort, cpu: &mut Cpu, space: &mut Space) -> Result<(), Fail> {
    runs(rt, cpu, space, 100, (1, Came::Call, 0x1008, 5, 7))?;
    let _ = space.protect(1, 1, 0);
    let forbidden = Came::Signal(Sig::Segv, 2, 0x1008);
    runs(rt, cpu, space, 100, (0, forbidden, 0x1008, 5, 7))?;
    space.unmap(1, 1);
    let absent = Came::Signal(Sig::Segv, 1, 0x1008);
    runs(rt, cpu, space, 100, (0, absent, 0x1008, 5, 7))?;
    space.map(1, 1, 5).map_err(|_| "no page")?;
    runs(rt, cpu, space, 3, (3, Came::Next, 0x1018, 5, 7))
}

#[test]
fn a_page_that_a_call_took_is_not_executed(rt: HostRuntime) -> Result<(), Fail> {
    let (mut cpu, mut space) = machine(rt.alloc(), [SEVEN, SYSCALL], 0, 5)?;
    runs_again(&rt, &mut cpu, &mut space)
}
