//! Clocks and sleep: time(2), gettimeofday(2), clock_gettime(2), clock_getres(2), nanosleep(2), clock_nanosleep(2).
use session_scripts::End;
use session_scripts::calls::{first_wrong, first_wrong_under, run};
use session_scripts::guest::{data, executable, straight_code};
use session_scripts::image::TREE;
use std::alloc::Global;
use std::test::Fail;

/// A sleep ends at its time and not before, and one to a time that is over ends at once. A null pointer stands for no place.
const CLOCKS: &str = "
    clock_getres 1 room = 0
    show room 8 : 0000000000000001
    clock_getres 1 = 0
    clock_getres 8 room ! einval
    clock_getres 1 end ! efault
    clock_gettime 8 room ! einval
    clock_gettime 1 end - 7 ! efault
    gettimeofday = 0
    gettimeofday end ! efault
    time room = 0
    show room 4 : 00000000
    time end ! efault
    nanosleep end ! efault
    nanosleep wrong_times ! einval
    nanosleep second = 0
    time = 1
    clock_nanosleep 1 0 second = 0
    time = 2
    clock_nanosleep 1 1 second = 0
    time = 2
    clock_nanosleep 1 1 times = 0
    time = 5
    clock_nanosleep 0 1 times = 0
    clock_nanosleep 7 0 second = 0
    time = 6
    clock_nanosleep 1 2 second ! einval
    clock_nanosleep 8 0 second ! einval
    clock_nanosleep 1 0 end ! efault
";

/// Real time is the clock's behind the schedule's epoch, and past 2^31 - 1 seconds it is EOVERFLOW (this project's own).
const FAR: &str = "
    clock_gettime 0 room ! eoverflow
    gettimeofday room ! eoverflow
    time ! eoverflow
    clock_gettime 1 room = 0
";

/// A sleep of a second, a clock, and what it tells. A call takes ten turns of 1,000 nanoseconds, of which the last makes it, and the sleep
/// one turn more, without an instruction. Nine turns went by before the sleep, and nine between its end and the clock's call.
const MONOTONIC: &str = "
    nanosleep second 0 0 0
    clock_gettime 1 room 0 0
    write 1 room 8 0
    exit_group 0 0 0 0
";

/// The clock of CPU time counts turns with an instruction alone, of which there were nineteen.
const OF_THE_PROCESSOR: &str = "
    nanosleep second 0 0 0
    clock_gettime 2 room 0 0
    write 1 room 8 0
    exit_group 0 0 0 0
";

/// A clock alone, and what it tells.
const REAL_TIME: &str = "
    clock_gettime 0 room 0 0
    write 1 room 8 0
    exit_group 0 0 0 0
";

/// Whether a program writes these bytes and exits after so many turns.
fn tells(
    alloc: Global,
    schedule: &str,
    calls: &str,
    turns: u64,
    time: &[u8],
) -> Result<bool, Fail> {
    let code = straight_code(alloc, &[], calls)?;
    let file = executable(alloc, &code, &data(alloc)?)?;
    let came = run(alloc, file, TREE, schedule)?;
    Ok(came.end == End::Exited(0) && came.turns == turns && came.out.as_slice() == time)
}

#[test]
fn clocks(rt: HostRuntime) -> Result<(), Fail> {
    assert_eq!(rt; first_wrong(rt.alloc(), CLOCKS, TREE)?, Some(0));
    Ok(())
}

#[test]
fn far(rt: HostRuntime) -> Result<(), Fail> {
    let schedule = "epoch 2147483648 0\n";
    assert_eq!(rt;
        first_wrong_under(rt.alloc(), schedule, FAR, TREE)?,
        Some(0)
    );
    Ok(())
}

#[test]
fn monotonic(rt: HostRuntime) -> Result<(), Fail> {
    // 1 s and 18,000 ns.
    let right = tells(rt.alloc(), "", MONOTONIC, 41, b"\0\0\0\x01\0\0\x46\x50")?;
    assert_eq!(rt; right, true);
    Ok(())
}

#[test]
fn of_the_processor(rt: HostRuntime) -> Result<(), Fail> {
    // 19,000 ns.
    let right = tells(
        rt.alloc(),
        "",
        OF_THE_PROCESSOR,
        41,
        b"\0\0\0\0\0\0\x4A\x38",
    )?;
    assert_eq!(rt; right, true);
    Ok(())
}

#[test]
fn under_a_schedule(rt: HostRuntime) -> Result<(), Fail> {
    // 3 s and 4 ns, and nine turns of 7 ns.
    let schedule = "quantum 7\nepoch 3 4\n";
    let right = tells(rt.alloc(), schedule, REAL_TIME, 30, b"\0\0\0\x03\0\0\0\x43")?;
    assert_eq!(rt; right, true);
    Ok(())
}
