//! Programs that start.
ghost use Rattle.std.specs.Prelude.{IfOk};
ghost use Rattle.elf_image.specs.Loading.{IsValidPlan};

use elf_image::{Plan, parse};
use start_stack::{Start, StartError, build};
use std::alloc::Global;
use std::process::Abort;
use std::test::Fail;

/// An executable in words: its header, and two load headers. The first 96 bytes lie at 0x400000 and
/// may be read and executed, the last 20 behind them and may be written, in 8192 bytes of memory.
const WORDS: [u32; 29] = [
    0x7F45_4C46,
    0x0102_0100,
    0,
    0,
    0x0002_0008,
    1,
    0x0040_0054,
    52,
    0,
    0,
    0x0034_0020,
    0x0002_0028,
    0,
    1,
    0,
    0x0040_0000,
    0x0040_0000,
    96,
    96,
    5,
    0x1000,
    1,
    96,
    0x0040_0060,
    0x0040_0060,
    20,
    8192,
    2,
    0x1000,
];

/// The plan of that executable.
fn plan(alloc: Global) -> Result<Plan, Fail>
    ensures { IfOk result IsValidPlan }
{
    let mut bytes = Vec::new(alloc);
    for word in WORDS {
        bytes.extend_from_slice(&word.to_be_bytes())?;
    }
    Ok(parse(alloc, &bytes)?)
}

/// How many of the words differ from the wanted ones.
fn differences(start: &Start, wanted: &[(u32, u32)]) -> usize {
    let mut count = 0usize;
    for (at, word) in wanted {
        if start.space.load(*at, 4).ok() != Some(*word) {
            count = count.saturating_add(1);
        }
    }
    count
}

/// What stands in memory where the only string is `hello`.
const WITHOUT_ENVIRONMENT: [(u32, u32); 19] = [
    (0x7FFE_FF40, 1),
    (0x7FFE_FF44, 0x7FFE_FFF0),
    (0x7FFE_FF48, 0),
    (0x7FFE_FF4C, 0),
    (0x7FFE_FF50, 3),
    (0x7FFE_FFE0, 0x3031_3233),
    (0x7FFE_FFEC, 0x6364_6566),
    (0x7FFE_FFF0, 0x6865_6C6C),
    (0x7FFE_FFF4, 0x6F00_6865),
    (0x7FFE_FFF8, 0x6C6C_6F00),
    (0x7FFE_FFFC, 0),
    (0x0040_0000, 0x7F45_4C46),
    (0x0040_0060, 0x0040_0060),
    (0x0040_0074, 0),
    (0x0040_2FFC, 0),
    (0x7FFF_4000, 0x2402_1017),
    (0x7FFF_4004, 0x0000_000C),
    (0x7FFF_4010, 0x2402_1061),
    (0x7FFF_4014, 0x0000_000C),
];

#[test]
fn starts_without_environment(rt: HostRuntime) -> Result<(), Fail> {
    let alloc = rt.alloc();
    let args = vec![in alloc; String::from_str(alloc, "hello")?]?;
    let mut start = build(alloc, &plan(alloc)?, &args, &[], *b"0123456789abcdef")?;
    is_without_environment(&rt, &mut start);
    Ok(())
}

fn is_without_environment(rt: &impl Abort, start: &mut Start) {
    assert_eq!(rt; differences(start, &WITHOUT_ENVIRONMENT), 0);
    assert_eq!(rt; start.cpu.pc, 0x0040_0054);
    assert_eq!(rt; start.cpu.register(29), 0x7FFE_FF40);
    // The first page is that of both segments, and only one of them may be written.
    assert!(rt; start.space.store(0x0040_0000, 4, 0).is_ok());
    assert!(rt; start.space.load(0x0040_3000, 1).is_err());
}

#[test]
fn starts_with_environment(rt: HostRuntime) -> Result<(), Fail> {
    let alloc = rt.alloc();
    let args = vec![in alloc;
        String::from_str(alloc, "p")?,
        String::from_str(alloc, "ab")?,
    ]?;
    let env = vec![in alloc; String::from_str(alloc, "K=V")?]?;
    let start = build(alloc, &plan(alloc)?, &args, &env, [0; 16])?;
    let wanted = [
        (0x7FFE_FF40, 2),
        (0x7FFE_FF44, 0x7FFE_FFF1),
        (0x7FFE_FF48, 0x7FFE_FFF3),
        (0x7FFE_FF4C, 0),
        (0x7FFE_FF50, 0x7FFE_FFF6),
        (0x7FFE_FF54, 0),
        (0x7FFE_FFD0, 31),
        (0x7FFE_FFD4, 0x7FFE_FFFA),
        (0x7FFE_FFF1, 0x7000_6162),
        (0x7FFE_FFF5, 0x004B_3D56),
        (0x7FFE_FFF9, 0x0070_0000),
    ];
    assert_eq!(rt; differences(&start, &wanted), 0);
    Ok(())
}

/// The answer for an argument of so many bytes behind the name `p`.
fn answer(alloc: Global, count: u32) -> Result<Option<StartError>, Fail> {
    let mut word = String::new(alloc);
    for _ in 0..count {
        word.push('a')?;
    }
    let args = vec![in alloc; String::from_str(alloc, "p")?, word]?;
    Ok(build(alloc, &plan(alloc)?, &args, &[], [0; 16]).err())
}

#[test]
fn strings_have_a_limit(rt: HostRuntime) -> Result<(), Fail> {
    assert_eq!(rt; answer(rt.alloc(), 130_911)?, None);
    assert_eq!(rt; answer(rt.alloc(), 130_912)?, Some(StartError::TooLong));
    Ok(())
}
