//! Jumps and branches: their slots, their links, and where they go.

use crate::machine::{KEPT, fault, machine};
use guest_space::Space;
use kernel_core::Sig;
use mips_exec::Cpu;
use std::alloc::Global;
use std::process::Abort;
use std::test::Fail;

/// A jump or a branch: the instruction, registers 8 and 9, whether its slot is executed, where it goes, and register 31.
type Row = (u32, u32, u32, bool, u32, u32);

/// Jumps and branches at 0x1000.
static BRANCHES: [Row; 78] = [
    (
        0x11090005, 0x00000004, 0x00000004, true, 0x00001018, 0x5A5A5A5A,
    ),
    (
        0x1109FFFD, 0x00000004, 0x00000004, true, 0x00000FF8, 0x5A5A5A5A,
    ),
    (
        0x11090005, 0x00000004, 0x00000005, true, 0x00001008, 0x5A5A5A5A,
    ),
    (
        0x1109FFFD, 0x00000004, 0x00000005, true, 0x00001008, 0x5A5A5A5A,
    ),
    (
        0x51090005, 0x00000004, 0x00000004, true, 0x00001018, 0x5A5A5A5A,
    ),
    (
        0x5109FFFD, 0x00000004, 0x00000004, true, 0x00000FF8, 0x5A5A5A5A,
    ),
    (
        0x51090005, 0x00000004, 0x00000005, false, 0x00001008, 0x5A5A5A5A,
    ),
    (
        0x5109FFFD, 0x00000004, 0x00000005, false, 0x00001008, 0x5A5A5A5A,
    ),
    (
        0x15090005, 0x00000004, 0x00000004, true, 0x00001008, 0x5A5A5A5A,
    ),
    (
        0x1509FFFD, 0x00000004, 0x00000004, true, 0x00001008, 0x5A5A5A5A,
    ),
    (
        0x15090005, 0x00000004, 0x00000005, true, 0x00001018, 0x5A5A5A5A,
    ),
    (
        0x1509FFFD, 0x00000004, 0x00000005, true, 0x00000FF8, 0x5A5A5A5A,
    ),
    (
        0x55090005, 0x00000004, 0x00000004, false, 0x00001008, 0x5A5A5A5A,
    ),
    (
        0x5509FFFD, 0x00000004, 0x00000004, false, 0x00001008, 0x5A5A5A5A,
    ),
    (
        0x55090005, 0x00000004, 0x00000005, true, 0x00001018, 0x5A5A5A5A,
    ),
    (
        0x5509FFFD, 0x00000004, 0x00000005, true, 0x00000FF8, 0x5A5A5A5A,
    ),
    (
        0x19000005, 0x00000000, 0x00000000, true, 0x00001018, 0x5A5A5A5A,
    ),
    (
        0x1900FFFD, 0xFFFFFFFF, 0x00000000, true, 0x00000FF8, 0x5A5A5A5A,
    ),
    (
        0x19000005, 0x00000001, 0x00000000, true, 0x00001008, 0x5A5A5A5A,
    ),
    (
        0x1900FFFD, 0x80000000, 0x00000000, true, 0x00000FF8, 0x5A5A5A5A,
    ),
    (
        0x19000005, 0x7FFFFFFF, 0x00000000, true, 0x00001008, 0x5A5A5A5A,
    ),
    (
        0x59000005, 0x00000000, 0x00000000, true, 0x00001018, 0x5A5A5A5A,
    ),
    (
        0x5900FFFD, 0xFFFFFFFF, 0x00000000, true, 0x00000FF8, 0x5A5A5A5A,
    ),
    (
        0x59000005, 0x00000001, 0x00000000, false, 0x00001008, 0x5A5A5A5A,
    ),
    (
        0x5900FFFD, 0x80000000, 0x00000000, true, 0x00000FF8, 0x5A5A5A5A,
    ),
    (
        0x59000005, 0x7FFFFFFF, 0x00000000, false, 0x00001008, 0x5A5A5A5A,
    ),
    (
        0x1D000005, 0x00000000, 0x00000000, true, 0x00001008, 0x5A5A5A5A,
    ),
    (
        0x1D00FFFD, 0xFFFFFFFF, 0x00000000, true, 0x00001008, 0x5A5A5A5A,
    ),
    (
        0x1D000005, 0x00000001, 0x00000000, true, 0x00001018, 0x5A5A5A5A,
    ),
    (
        0x1D00FFFD, 0x80000000, 0x00000000, true, 0x00001008, 0x5A5A5A5A,
    ),
    (
        0x1D000005, 0x7FFFFFFF, 0x00000000, true, 0x00001018, 0x5A5A5A5A,
    ),
    (
        0x5D000005, 0x00000000, 0x00000000, false, 0x00001008, 0x5A5A5A5A,
    ),
    (
        0x5D00FFFD, 0xFFFFFFFF, 0x00000000, false, 0x00001008, 0x5A5A5A5A,
    ),
    (
        0x5D000005, 0x00000001, 0x00000000, true, 0x00001018, 0x5A5A5A5A,
    ),
    (
        0x5D00FFFD, 0x80000000, 0x00000000, false, 0x00001008, 0x5A5A5A5A,
    ),
    (
        0x5D000005, 0x7FFFFFFF, 0x00000000, true, 0x00001018, 0x5A5A5A5A,
    ),
    (
        0x05000005, 0xFFFFFFFF, 0x00000000, true, 0x00001018, 0x5A5A5A5A,
    ),
    (
        0x0500FFFD, 0x80000000, 0x00000000, true, 0x00000FF8, 0x5A5A5A5A,
    ),
    (
        0x05000005, 0x00000000, 0x00000000, true, 0x00001008, 0x5A5A5A5A,
    ),
    (
        0x0500FFFD, 0x7FFFFFFF, 0x00000000, true, 0x00001008, 0x5A5A5A5A,
    ),
    (
        0x05100005, 0xFFFFFFFF, 0x00000000, true, 0x00001018, 0x00001008,
    ),
    (
        0x0510FFFD, 0x80000000, 0x00000000, true, 0x00000FF8, 0x00001008,
    ),
    (
        0x05100005, 0x00000000, 0x00000000, true, 0x00001008, 0x00001008,
    ),
    (
        0x0510FFFD, 0x7FFFFFFF, 0x00000000, true, 0x00001008, 0x00001008,
    ),
    (
        0x05020005, 0xFFFFFFFF, 0x00000000, true, 0x00001018, 0x5A5A5A5A,
    ),
    (
        0x0502FFFD, 0x80000000, 0x00000000, true, 0x00000FF8, 0x5A5A5A5A,
    ),
    (
        0x05020005, 0x00000000, 0x00000000, false, 0x00001008, 0x5A5A5A5A,
    ),
    (
        0x0502FFFD, 0x7FFFFFFF, 0x00000000, false, 0x00001008, 0x5A5A5A5A,
    ),
    (
        0x05120005, 0xFFFFFFFF, 0x00000000, true, 0x00001018, 0x00001008,
    ),
    (
        0x0512FFFD, 0x80000000, 0x00000000, true, 0x00000FF8, 0x00001008,
    ),
    (
        0x05120005, 0x00000000, 0x00000000, false, 0x00001008, 0x00001008,
    ),
    (
        0x0512FFFD, 0x7FFFFFFF, 0x00000000, false, 0x00001008, 0x00001008,
    ),
    (
        0x05010005, 0xFFFFFFFF, 0x00000000, true, 0x00001008, 0x5A5A5A5A,
    ),
    (
        0x0501FFFD, 0x80000000, 0x00000000, true, 0x00001008, 0x5A5A5A5A,
    ),
    (
        0x05010005, 0x00000000, 0x00000000, true, 0x00001018, 0x5A5A5A5A,
    ),
    (
        0x0501FFFD, 0x7FFFFFFF, 0x00000000, true, 0x00000FF8, 0x5A5A5A5A,
    ),
    (
        0x05110005, 0xFFFFFFFF, 0x00000000, true, 0x00001008, 0x00001008,
    ),
    (
        0x0511FFFD, 0x80000000, 0x00000000, true, 0x00001008, 0x00001008,
    ),
    (
        0x05110005, 0x00000000, 0x00000000, true, 0x00001018, 0x00001008,
    ),
    (
        0x0511FFFD, 0x7FFFFFFF, 0x00000000, true, 0x00000FF8, 0x00001008,
    ),
    (
        0x05030005, 0xFFFFFFFF, 0x00000000, false, 0x00001008, 0x5A5A5A5A,
    ),
    (
        0x0503FFFD, 0x80000000, 0x00000000, false, 0x00001008, 0x5A5A5A5A,
    ),
    (
        0x05030005, 0x00000000, 0x00000000, true, 0x00001018, 0x5A5A5A5A,
    ),
    (
        0x0503FFFD, 0x7FFFFFFF, 0x00000000, true, 0x00000FF8, 0x5A5A5A5A,
    ),
    (
        0x05130005, 0xFFFFFFFF, 0x00000000, false, 0x00001008, 0x00001008,
    ),
    (
        0x0513FFFD, 0x80000000, 0x00000000, false, 0x00001008, 0x00001008,
    ),
    (
        0x05130005, 0x00000000, 0x00000000, true, 0x00001018, 0x00001008,
    ),
    (
        0x0513FFFD, 0x7FFFFFFF, 0x00000000, true, 0x00000FF8, 0x00001008,
    ),
    (
        0x08000440, 0x00000000, 0x00000000, true, 0x00001100, 0x5A5A5A5A,
    ),
    (
        0x0C000440, 0x00000000, 0x00000000, true, 0x00001100, 0x00001008,
    ),
    (
        0x0BFFFFFF, 0x00000000, 0x00000000, true, 0x0FFFFFFC, 0x5A5A5A5A,
    ),
    (
        0x0C000000, 0x00000000, 0x00000000, true, 0x00000000, 0x00001008,
    ),
    (
        0x01000008, 0x00002000, 0x00000000, true, 0x00002000, 0x5A5A5A5A,
    ),
    (
        0x01000408, 0x00001000, 0x00000000, true, 0x00001000, 0x5A5A5A5A,
    ),
    (
        0x01000008, 0x00001001, 0x00000000, true, 0x00001001, 0x5A5A5A5A,
    ),
    (
        0x0100F809, 0x00002000, 0x00000000, true, 0x00002000, 0x00001008,
    ),
    (
        0x01005409, 0x00001000, 0x00000000, true, 0x00001000, 0x5A5A5A5A,
    ),
    (
        0x01204809, 0x00000000, 0x00002000, true, 0x00002000, 0x5A5A5A5A,
    ),
];

/// Carries out a branch, and the ADDIU $8, $8, 1 in its slot where the slot is executed.
fn goes_through_its_slot(
    rt: &impl Abort,
    cpu: &mut Cpu,
    space: &mut Space,
    row: Row,
) -> Result<(), Fail> {
    let (word, first, _, executed, target, linked) = row;
    assert!(rt; fault(cpu, space)?.is_none(), "at {word:08x}");
    assert_eq!(rt; cpu.slot.is_some(), executed, "at {word:08x}");
    if executed {
        assert_eq!(rt; cpu.pc, 0x1004, "at {word:08x}");
        assert!(rt; fault(cpu, space)?.is_none(), "at {word:08x}");
    }
    let counted = first.wrapping_add(u32::from(executed));
    assert_eq!(rt;
        (cpu.pc, cpu.register(8), cpu.register(31)),
        (target, counted, linked),
        "at {word:08x}"
    );
    assert!(rt; cpu.slot.is_none());
    Ok(())
}

fn branch_goes(rt: &impl Abort, alloc: Global, row: Row) -> Result<(), Fail> {
    let (mut cpu, mut space) = machine(alloc, [row.0, 0x2508_0001], row.1, row.2)?;
    goes_through_its_slot(rt, &mut cpu, &mut space, row)
}

#[test]
fn branches_go_through_their_slots(rt: HostRuntime) -> Result<(), Fail> {
    for row in &BRANCHES {
        branch_goes(&rt, rt.alloc(), *row)?;
    }
    Ok(())
}

/// The instruction in a slot, and the signal, its code and its address.
type SlotRow = (u32, Sig, u32, u32);

/// Carries out a branch, and its slot, in which a signal comes.
fn faults_in_its_slot(
    rt: &impl Abort,
    cpu: &mut Cpu,
    space: &mut Space,
    row: SlotRow,
) -> Result<(), Fail> {
    let (slot, sig, code, address) = row;
    assert!(rt; fault(cpu, space)?.is_none());
    assert!(rt;
        fault(cpu, space)? == Some((sig, code, address)),
        "at {slot:08x}"
    );
    assert_eq!(rt;
        (
            cpu.pc,
            cpu.slot.is_none(),
            cpu.register(9),
            cpu.register(31)
        ),
        (0x1000, true, 7, KEPT),
        "at {slot:08x}"
    );
    Ok(())
}

fn slot_faults(rt: &impl Abort, alloc: Global, row: SlotRow) -> Result<(), Fail> {
    let (mut cpu, mut space) = machine(alloc, [0x1000_0005, row.0], 0x2000_0000, 7)?;
    faults_in_its_slot(rt, &mut cpu, &mut space, row)
}

#[test]
fn a_fault_in_a_slot_leaves_the_branch(rt: HostRuntime) -> Result<(), Fail> {
    // a branch that is always taken, with a load from an absent page, a branch, JAL, a likely branch that
    // is not taken, SYSCALL and BREAK 7 in its slot
    for row in [
        (0x8D09_0000, Sig::Segv, 1, 0x2000_0000),
        (0x1000_0005, Sig::Ill, 1, 0x1000),
        (0x0C00_0000, Sig::Ill, 1, 0x1000),
        (0x5100_0005, Sig::Ill, 1, 0x1000),
        (0x0000_000C, Sig::Ill, 1, 0x1000),
        (0x0007_000D, Sig::Fpe, 1, 0x1000),
    ] {
        slot_faults(&rt, rt.alloc(), row)?;
    }
    Ok(())
}

/// A branch at the last word of page 2.
fn slot_is_absent(rt: &impl Abort, cpu: &mut Cpu, space: &mut Space) -> Result<(), Fail> {
    space.store(0x2FFC, 4, 0x1000_0005).map_err(|_| "no store")?;
    cpu.pc = 0x2FFC;
    assert!(rt; fault(cpu, space)?.is_none());
    assert!(rt; fault(cpu, space)? == Some((Sig::Segv, 1, 0x3000)));
    assert_eq!(rt; (cpu.pc, cpu.slot.is_none()), (0x2FFC, true));
    Ok(())
}

#[test]
fn a_slot_that_is_absent_leaves_the_branch(rt: HostRuntime) -> Result<(), Fail> {
    // the branch is the last word of page 2, and its slot the first of page 3, which is absent
    let (mut cpu, mut space) = machine(rt.alloc(), [0, 0], 0, 0)?;
    slot_is_absent(&rt, &mut cpu, &mut space)
}

#[test]
fn a_likely_branch_that_is_not_taken_leaves_its_slot_out(rt: HostRuntime) -> Result<(), Fail> {
    // BEQL that is not taken, with SW in its slot
    let (mut cpu, mut space) = machine(rt.alloc(), [0x5100_0005, 0xAD08_0000], 0x2000, 0)?;
    leaves_its_slot_out(&rt, &mut cpu, &mut space)
}

fn leaves_its_slot_out(rt: &impl Abort, cpu: &mut Cpu, space: &mut Space) -> Result<(), Fail> {
    assert!(rt; fault(cpu, space)?.is_none());
    assert_eq!(rt; space.load(0x2000, 4).ok(), Some(0x1122_3344));
    assert_eq!(rt; (cpu.pc, cpu.slot.is_none()), (0x1008, true));
    Ok(())
}

/// The instruction, where it stands and goes, and register 31.
type JumpRow = (u32, u32, u32, u32);

fn jumps(rt: &impl Abort, cpu: &mut Cpu, space: &mut Space, row: JumpRow) -> Result<(), Fail> {
    let (word, pc, target, linked) = row;
    space.map(0xFFFF, 1, 7).map_err(|_| "no page")?;
    space.map(0x5_0000, 1, 7).map_err(|_| "no page")?;
    space.store(pc, 4, word).map_err(|_| "no store")?;
    cpu.pc = pc;
    assert!(rt; fault(cpu, space)?.is_none(), "at {word:08x}");
    assert!(rt;
        cpu.slot
            .is_some_and(|slot| slot.branch == pc && slot.target == target),
        "at {word:08x}"
    );
    assert_eq!(rt;
        (cpu.pc, cpu.register(31)),
        (pc.wrapping_add(4), linked),
        "at {word:08x}"
    );
    Ok(())
}

fn jump_goes(rt: &impl Abort, alloc: Global, row: JumpRow) -> Result<(), Fail> {
    let (mut cpu, mut space) = machine(alloc, [0, 0], 0, 0)?;
    jumps(rt, &mut cpu, &mut space, row)
}

#[test]
fn jumps_stay_in_the_256_mib_of_their_slot(rt: HostRuntime) -> Result<(), Fail> {
    // J and JAL
    for row in [
        (0x0800_0000, 0x0FFF_FFFC, 0x1000_0000, KEPT),
        (0x0800_0000, 0x0FFF_FFF8, 0, KEPT),
        (0x0BFF_FFFF, 0x5000_0000, 0x5FFF_FFFC, KEPT),
        (0x0C00_0440, 0x0FFF_FFFC, 0x1000_1100, 0x1000_0004),
        (0x0C00_0440, 0x5000_0000, 0x5000_1100, 0x5000_0008),
    ] {
        jump_goes(&rt, rt.alloc(), row)?;
    }
    Ok(())
}

/// The instruction, its link register, whether the slot is executed, and the place that follows.
type LinkRow = (u32, u8, bool, u32);

/// A processor with these links, where register `number` has the return address.
fn linked(number: u8) -> Cpu {
    let mut wanted = Cpu::new(0x1000);
    wanted.set_register(8, 0x2000);
    wanted.set_register(9, 0x2004);
    wanted.set_register(10, KEPT);
    wanted.set_register(31, 0xFFFF_FFFF);
    wanted.set_register(number % 32, 0x1008);
    wanted
}

fn links(rt: &impl Abort, cpu: &mut Cpu, space: &mut Space, row: LinkRow) -> Result<(), Fail> {
    let (word, number, executed, target) = row;
    cpu.set_register(31, 0xFFFF_FFFF);
    assert!(rt; fault(cpu, space)?.is_none(), "at {word:08x}");
    assert_eq!(rt; cpu.slot.is_some(), executed, "at {word:08x}");
    if executed {
        assert!(rt; fault(cpu, space)?.is_none(), "at {word:08x}");
    }
    assert_eq!(rt; cpu.pc, target, "at {word:08x}");
    assert_eq!(rt; cpu.regs, linked(number).regs, "at {word:08x}");
    Ok(())
}

fn link_is_written(rt: &impl Abort, alloc: Global, row: LinkRow) -> Result<(), Fail> {
    let (mut cpu, mut space) = machine(alloc, [row.0, 0], 0x2000, 0x2004)?;
    links(rt, &mut cpu, &mut space, row)
}

#[test]
fn links_are_written_after_the_jump_is_read(rt: HostRuntime) -> Result<(), Fail> {
    // BLTZAL, BGEZAL, BLTZALL, BGEZALL of $31, and JALR
    for row in [
        (0x07F0_0005, 31, true, 0x1018),
        (0x07F1_0005, 31, true, 0x1008),
        (0x07F2_0005, 31, true, 0x1018),
        (0x07F3_0005, 31, false, 0x1008),
        (0x03E0_F809, 31, true, 0xFFFF_FFFF),
        (0x0100_F809, 31, true, 0x2000),
        (0x0100_5409, 10, true, 0x2000),
        (0x0120_4809, 9, true, 0x2004),
    ] {
        link_is_written(&rt, rt.alloc(), row)?;
    }
    Ok(())
}
