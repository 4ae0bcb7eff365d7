//! Rows of the tables of both worlds, there and back.
use super::{of_native, to_native};
use std::test::Fail;

/// A set and the native one of the same signals.
const ROWS: [([u32; 4], [u64; 2]); 14] = [
    ([0, 0, 0, 0], [0, 0]),
    // HUP and KILL have one number, USR1 is 16 and 10, CHLD 18 and 17.
    ([0x0000_0101, 0, 0, 0], [0x0000_0101, 0]),
    ([0x0000_8000, 0, 0, 0], [0x0000_0200, 0]),
    ([0x0002_0000, 0, 0, 0], [0x0001_0000, 0]),
    // BUS is 10 and 7, SYS 12 and 31, CONT 25 and 18, STOP 23 and 19.
    ([0x0000_0200, 0, 0, 0], [0x0000_0040, 0]),
    ([0x0000_0800, 0, 0, 0], [0x4000_0000, 0]),
    ([0x0100_0000, 0, 0, 0], [0x0002_0000, 0]),
    ([0x0040_0000, 0, 0, 0], [0x0004_0000, 0]),
    // The real-time signals 32, 33, 64, 65 and 128.
    ([0x8000_0000, 0, 0, 0], [0x8000_0000, 0]),
    ([0, 1, 0, 0], [0x1_0000_0000, 0]),
    ([0, 0x8000_0000, 0, 0], [0x8000_0000_0000_0000, 0]),
    ([0, 0, 1, 0], [0, 1]),
    ([0, 0, 0, 0x8000_0000], [0, 0x8000_0000_0000_0000]),
    (
        [u32::MAX, u32::MAX, u32::MAX, u32::MAX],
        [u64::MAX, u64::MAX],
    ),
];

/// The number of the first wrong row.
fn first_wrong() -> Option<usize> {
    for (number, (set, native)) in ROWS.iter().enumerate() {
        if to_native(*set) != *native || of_native(*native) != *set {
            return Some(number);
        }
    }
    None
}

#[test]
fn there_and_back(rt: HostRuntime) -> Result<(), Fail> {
    assert_eq!(rt; first_wrong(), None);
    Ok(())
}
