//! The places of the frames, a frame written and read back, and one forged.

use super::*;
use guest_space::{Space, StoreError, Why};
use kernel_core::{Info, Sig};
use mips_exec::Cpu;
use std::alloc::Global;
use std::test::Fail;

/// The page of the stack that the tests use, and its protection: it may be read and written.
const STACK_PAGE: u32 = 0x7FFEF;

const READ_WRITE: u8 = 3;

/// Where the frames of a stack pointer of 0x7FFEFF40 lie: below the 32 bytes under it.
const TOP: u32 = 0x7FFE_FF20;

const PLAIN: u32 = 0x7FFE_FCA8;

const RT: u32 = 0x7FFE_FC10;

/// A memory of one page of a stack.
fn memory(alloc: Global) -> Result<Space, Fail> {
    let mut space = Space::new(alloc).ok().ok_or("no memory")?;
    space.map(STACK_PAGE, 1, READ_WRITE).ok().ok_or("no page")?;
    Ok(space)
}

/// A processor whose registers have their numbers, register 8 with its top bit set.
fn processor() -> Cpu {
    let mut cpu = Cpu::new(0x0040_0110);
    for number in 1..32 {
        cpu.set_register(number, u32::from(number));
    }
    cpu.set_register(8, 0x8000_0008);
    cpu.set_register(29, 0x7FFE_FF40);
    cpu.hi = 0xFFFF_FFFF;
    cpu.lo = 5;
    cpu.link = Some(16);
    cpu
}

/// The first offset from a frame's start at which another word stands.
fn first_wrong(space: &Space, frame: u32, words: &[(u32, u32)]) -> Option<u32> {
    for (offset, word) in words {
        if space.load(frame.wrapping_add(*offset), 4).ok() != Some(*word) {
            return Some(*offset);
        }
    }
    None
}

const MASK: [u32; 4] = [0xFFFF_FFFF, 0x8000_0001, 0, 5];

/// The same without KILL and STOP.
const RETURNED_MASK: [u32; 4] = [0xFFBF_FEFF, 0x8000_0001, 0, 5];

#[test]
fn a_plain_frame(rt: HostRuntime) -> Result<(), Fail> {
    let mut space = memory(rt.alloc())?;
    let mut cpu = processor();
    assert!(rt; write_frame(&mut cpu, &mut space, Sig::Usr1, 0x0040_0200, MASK, TOP).is_ok());
    assert_eq!(rt; (cpu.pc, cpu.register(25)), (0x0040_0200, 0x0040_0200));
    assert_eq!(rt;
        (cpu.register(4), cpu.register(5), cpu.register(6)),
        (16, 0, PLAIN + 24)
    );
    assert_eq!(rt; (cpu.register(29), cpu.register(31)), (PLAIN, 0x7FFF_4000));
    assert_eq!(rt; (cpu.link, cpu.register(30)), (None, 30));
    let words = [
        (28, 0),
        (36, 0x0040_0110),
        (40, 0),
        (52, 1),
        (104, 0xFFFF_FFFF),
        (108, 0x8000_0008),
        (276, 0x7FFE_FF40),
        (284, 30),
        (576, 0xFFFF_FFFF),
        (580, 0xFFFF_FFFF),
        (588, 5),
        (616, 0xFFFF_FFFF),
        (628, 5),
    ];
    assert_eq!(rt; first_wrong(&space, PLAIN, &words), None);
    assert_eq!(rt; read_frame(&mut cpu, &space).ok(), Some(RETURNED_MASK));
    assert_eq!(rt; cpu.regs, processor().regs);
    assert_eq!(rt; (cpu.pc, cpu.hi, cpu.lo), (0x0040_0110, 0xFFFF_FFFF, 5));
    Ok(())
}

#[test]
fn an_rt_frame(rt: HostRuntime) -> Result<(), Fail> {
    let mut space = memory(rt.alloc())?;
    let mut cpu = processor();
    let info = Info {
        sig: Sig::Usr1,
        code: -1,
        errno: 0,
        pid: 1,
        uid: 2,
        value: 9,
        addr: 0,
    };
    let stack = AltStack {
        sp: 0x1000_0000,
        size: 0x2000,
        flags: 2,
    };
    assert!(rt; write_rt_frame(&mut cpu, &mut space, &info, 0x0040_0200, MASK, stack, TOP).is_ok());
    assert_eq!(rt;
        (cpu.register(4), cpu.register(5), cpu.register(6)),
        (16, RT + 24, RT + 152)
    );
    assert_eq!(rt; (cpu.register(29), cpu.register(31)), (RT, 0x7FFF_4010));
    let words = [
        (24, 16),
        (28, 0xFFFF_FFFF),
        (32, 0),
        (36, 1),
        (40, 2),
        (44, 9),
        (160, 0x1000_0000),
        (188, 0x0040_0110),
        (428, 0x7FFE_FF40),
        (768, 0xFFFF_FFFF),
        (780, 5),
    ];
    assert_eq!(rt; first_wrong(&space, RT, &words), None);
    let came = read_rt_frame(&mut cpu, &space).ok();
    assert!(rt;
        came == Some(Return {
            mask: RETURNED_MASK,
            stack
        })
    );
    assert_eq!(rt; cpu.regs, processor().regs);
    Ok(())
}

#[test]
fn a_fault(rt: HostRuntime) -> Result<(), Fail> {
    let mut space = memory(rt.alloc())?;
    let mut cpu = processor();
    let info = Info {
        sig: Sig::Segv,
        code: 1,
        errno: 0,
        pid: 0,
        uid: 0,
        value: 0,
        addr: 0x10,
    };
    let stack = AltStack {
        sp: 0,
        size: 0,
        flags: 2,
    };
    assert!(rt; write_rt_frame(&mut cpu, &mut space, &info, 0x0040_0200, MASK, stack, TOP).is_ok());
    let words = [(24, 11), (28, 1), (36, 0x10), (40, 0), (44, 0)];
    assert_eq!(rt; first_wrong(&space, RT, &words), None);
    Ok(())
}

#[test]
fn a_forged_frame(rt: HostRuntime) -> Result<(), Fail> {
    let mut space = memory(rt.alloc())?;
    let mut cpu = processor();
    cpu.set_register(29, PLAIN);
    // A program counter that is not aligned, upper words that are no sign, register 0 that is not 0.
    for (offset, word) in [
        (32, 7),
        (36, 0x0040_0111),
        (44, 1),
        (48, 9),
        (52, 0x1234_5678),
    ] {
        assert!(rt; space.store(PLAIN + offset, 4, word).is_ok());
    }
    assert_eq!(rt; read_frame(&mut cpu, &space).ok(), Some([0; 4]));
    assert_eq!(rt;
        (cpu.pc, cpu.register(0), cpu.register(1), cpu.register(2)),
        (0x0040_0111, 0, 0x1234_5678, 0)
    );
    Ok(())
}

#[test]
fn no_whole_frame(rt: HostRuntime) -> Result<(), Fail> {
    let mut space = memory(rt.alloc())?;
    let mut cpu = processor();
    // The frame would begin in the page below, which is not there.
    let came = write_frame(
        &mut cpu,
        &mut space,
        Sig::Usr1,
        0x0040_0200,
        MASK,
        0x7FFE_F200,
    );
    let denied = match came {
        Err(StoreError::Denied(denied)) => Some(denied.addr),
        _ => None,
    };
    assert_eq!(rt; denied, Some(0x7FFE_EF88));
    assert_eq!(rt; space.load(0x7FFE_F000, 4).ok(), Some(0));
    assert_eq!(rt; (cpu.pc, cpu.link), (0x0040_0110, Some(16)));
    // The last bytes lie past the page.
    cpu.set_register(29, 0x7FFE_FF40);
    let denied = match read_frame(&mut cpu, &space) {
        Err(denied) => Some((denied.addr, matches!(denied.why, Why::Absent))),
        Ok(_) => None,
    };
    assert_eq!(rt; denied, Some((0x7FFF_0000, true)));
    assert_eq!(rt; (cpu.pc, cpu.register(1)), (0x0040_0110, 1));
    Ok(())
}
