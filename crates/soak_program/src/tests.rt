//! The smallest program, byte by byte, and two lines.
use super::{soak_line, soak_program};
use std::alloc::{AllocError, Global};
use std::test::Fail;

/// The headers of the program for one number: the file's own, and those of the code and the data.
const HEADERS: [u32; 29] = [
    0x7F45_4C46,
    0x0102_0100,
    0,
    0,
    0x0002_0008,
    1,
    0x0040_0000,
    52,
    0,
    0x5000_1000,
    0x0034_0020,
    0x0002_0000,
    0,
    1,
    0x1000,
    0x0040_0000,
    0x0040_0000,
    76,
    76,
    5,
    0x1000,
    1,
    0x2000,
    0x1000_0000,
    0x1000_0000,
    8,
    8,
    6,
    0x1000,
];

/// Its code, as an assembler writes it.
const CODE: [u32; 19] = [
    0x3C10_1000,
    0x0200_2021,
    0x2405_0102,
    0x2406_01A4,
    0x2402_0FA5,
    0x0000_000C,
    0x0040_8821,
    0x3C09_0000,
    0x3529_0001,
    0x0249_9021,
    0xAE12_0004,
    0x0220_2021,
    0x2605_0004,
    0x2406_0004,
    0x2402_0FA4,
    0x0000_000C,
    0x0000_2021,
    0x2402_0FA1,
    0x0000_000C,
];

fn add(bytes: &mut Vec<u8>, words: &[u32]) -> Result<(), AllocError> {
    for word in words {
        bytes.extend_from_slice(&word.to_be_bytes())?;
    }
    Ok(())
}

fn one_number(alloc: Global) -> Result<Vec<u8>, AllocError> {
    let mut bytes = Vec::new(alloc);
    add(&mut bytes, &HEADERS)?;
    bytes.resize(0x1000, 0)?;
    add(&mut bytes, &CODE)?;
    bytes.resize(0x2000, 0)?;
    bytes.extend_from_slice(b"/s\0\0\0\0\0\0")?;
    Ok(bytes)
}

#[test]
fn program_for_one_number(rt: HostRuntime) -> Result<(), Fail> {
    let program = soak_program(rt.alloc(), 1)?;
    assert_eq!(rt; program.as_slice(), one_number(rt.alloc())?.as_slice());
    Ok(())
}

#[test]
fn two_lines(rt: HostRuntime) -> Result<(), Fail> {
    let mut out = Vec::new(rt.alloc());
    soak_line(1, 19, 4, 1, &mut out)?;
    soak_line(2, 28, 8, 0x3CA1_BF7B, &mut out)?;
    assert_eq!(rt;
        out.as_slice(),
        b"soak 1: exited 0, turns 19, bytes 4, sum 00000001\nsoak 2: exited 0, turns 28, bytes 8, sum 3ca1bf7b\n".as_slice()
    );
    Ok(())
}
