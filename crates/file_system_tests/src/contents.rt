//! The calls on one node: its bytes, its size, its mode and its times.

use crate::steps::Look::{Facts, Read, Times};
use crate::steps::Step::{self, Clock, Do, Refuse, See, Write, WriteSevens};
use crate::steps::first_wrong_after;
use file_system_scripts::files::Call::{self, Create, Mkdir, SetMode, SetSize, SetTimes, Symlink};
use file_system_scripts::files::Which::{self, At};
use std::test::Fail;

/// The file of most tests.
const F: Which = At("/f");

/// The greatest size of a file.
const GREATEST: u64 = 17_592_186_044_416;

/// The steps of [`writes_and_reads`].
static WRITES_AND_READS_STEPS: [Step; 14] = [
    Clock(5),
    WriteSevens(F, 0, 5000, Ok(5000)),
    See(Facts(F, 2, 0o100_644, 1, 5000, 16)),
    See(Times(F, 1, 5, 5)),
    Clock(6),
    Write(F, 12_286, "abcd", Ok(4)),
    See(Facts(F, 2, 0o100_644, 1, 12_290, 32)),
    See(Read(F, 0, 4, [7, 7, 7, 7])),
    See(Read(F, 4998, 4, [7, 7, 0, 0])),
    See(Read(F, 12_284, 4, [0, 0, b'a', b'b'])),
    See(Read(F, 12_288, 2, [b'c', b'd', 1, 1])),
    See(Read(F, 12_290, 0, [1, 1, 1, 1])),
    See(Read(F, u64::MAX, 0, [1, 1, 1, 1])),
    See(Times(F, 1, 6, 6)),
];

#[test]
fn writes_and_reads(rt: HostRuntime) -> Result<(), Fail> {
    assert_eq!(rt;
        first_wrong_after(rt.alloc(), &[Create("/f", 0o644)], &WRITES_AND_READS_STEPS)?,
        None
    );
    Ok(())
}

/// The steps of [`cuts_and_grows`].
static CUTS_AND_GROWS_STEPS: [Step; 20] = [
    WriteSevens(F, 0, 9000, Ok(9000)),
    Clock(3),
    Do(SetSize(F, 5000)),
    See(Facts(F, 2, 0o100_644, 1, 5000, 16)),
    See(Times(F, 1, 3, 3)),
    Clock(4),
    Do(SetSize(F, 10_000)),
    See(Facts(F, 2, 0o100_644, 1, 10_000, 16)),
    See(Times(F, 1, 4, 4)),
    See(Read(F, 4998, 4, [7, 7, 0, 0])),
    Do(SetSize(F, 4096)),
    See(Facts(F, 2, 0o100_644, 1, 4096, 8)),
    Do(SetSize(F, 4097)),
    See(Facts(F, 2, 0o100_644, 1, 4097, 8)),
    Do(SetSize(F, 0)),
    See(Facts(F, 2, 0o100_644, 1, 0, 0)),
    WriteSevens(F, 0, 100, Ok(100)),
    Do(SetSize(F, 98)),
    Do(SetSize(F, 200)),
    See(Read(F, 96, 4, [7, 7, 0, 0])),
];

#[test]
fn cuts_and_grows(rt: HostRuntime) -> Result<(), Fail> {
    assert_eq!(rt;
        first_wrong_after(rt.alloc(), &[Create("/f", 0o644)], &CUTS_AND_GROWS_STEPS)?,
        None
    );
    Ok(())
}

/// The steps of [`a_file_has_at_most_two_to_the_44_bytes`].
static A_FILE_HAS_AT_MOST_TWO_TO_THE_44_BYTES_STEPS: [Step; 15] = [
    Clock(5),
    Write(F, 17_592_186_044_415, "ab", Err("EFBIG")),
    Write(F, GREATEST, "a", Err("EFBIG")),
    Write(F, u64::MAX, "a", Err("EFBIG")),
    Write(F, u64::MAX, "", Ok(0)),
    See(Facts(F, 2, 0o100_644, 1, 0, 0)),
    See(Times(F, 1, 1, 1)),
    Write(F, 17_592_186_044_414, "ab", Ok(2)),
    See(Facts(F, 2, 0o100_644, 1, GREATEST, 8)),
    See(Times(F, 1, 5, 5)),
    Clock(6),
    Refuse(SetSize(F, 17_592_186_044_417), "EFBIG"),
    See(Times(F, 1, 5, 5)),
    Do(SetSize(F, GREATEST)),
    See(Times(F, 1, 6, 6)),
];

#[test]
fn a_file_has_at_most_two_to_the_44_bytes(rt: HostRuntime) -> Result<(), Fail> {
    assert_eq!(rt;
        first_wrong_after(
            rt.alloc(),
            &[Create("/f", 0o644)],
            &A_FILE_HAS_AT_MOST_TWO_TO_THE_44_BYTES_STEPS
        )?,
        None
    );
    Ok(())
}

/// The steps of [`sets_modes_and_times`].
static SETS_MODES_AND_TIMES_STEPS: [Step; 20] = [
    Clock(5),
    Do(SetMode(F, 0o7777)),
    Do(SetMode(At("/d"), 0o7777)),
    Do(SetMode(At("/s"), 0o7777)),
    See(Facts(F, 2, 0o107_777, 1, 0, 0)),
    See(Facts(At("/d"), 3, 0o047_777, 2, 4096, 8)),
    See(Facts(At("/s"), 4, 0o127_777, 1, 1, 0)),
    See(Times(F, 1, 1, 5)),
    See(Times(At("/d"), 1, 1, 5)),
    See(Times(At("/s"), 1, 1, 5)),
    Clock(6),
    Do(SetTimes(F, Some(-7), None)),
    See(Times(F, -7, 1, 6)),
    Do(SetTimes(F, None, Some(i64::MAX))),
    See(Times(F, -7, i64::MAX, 6)),
    Clock(-8),
    Do(SetTimes(F, None, None)),
    See(Times(F, -7, i64::MAX, -8)),
    Do(SetTimes(F, Some(i64::MIN), Some(2))),
    See(Times(F, i64::MIN, 2, -8)),
];

/// The calls before the steps of [`sets_modes_and_times`].
static SETS_MODES_AND_TIMES_CALLS: [Call; 3] = [
    Create("/f", 0o644),
    Mkdir("/d", 0o755),
    Symlink("f", "/s"),
];

#[test]
fn sets_modes_and_times(rt: HostRuntime) -> Result<(), Fail> {
    assert_eq!(rt;
        first_wrong_after(
            rt.alloc(),
            &SETS_MODES_AND_TIMES_CALLS,
            &SETS_MODES_AND_TIMES_STEPS
        )?,
        None
    );
    Ok(())
}
