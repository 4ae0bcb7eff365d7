//! uname, prlimit64 and getrandom.

use crate::calls::first_wrong_of_new;
use std::test::Fail;

/// A limit is two numbers, the soft one and the hard one. A new limit comes first in memory. The process is 0 or 100.
const LIMITS: &str = "
    prlimit64 0 rlimit_nofile 0 at : room 16 = 0 : long 1024 1024
    prlimit64 100 rlimit_stack 0 at : room 16 = 0 : long 0x800000 rlim_infinity
    prlimit64 0 rlimit_rttime 0 at : room 16 = 0 : long rlim_infinity rlim_infinity
    prlimit64 0 rlimit_cpu 0 = 0
    prlimit64 0 rlimit_nofile at at+16 : long 10 20 room 16 = 0 : long 10 20 1024 1024
    prlimit64 0 rlimit_nofile 0 at : room 16 = 0 : long 10 20
    prlimit64 0 rlimit_cpu 0 at : room 16 = 0 : long rlim_infinity rlim_infinity
    prlimit64 0 rlimit_nofile at : long 2 1 ! einval
    prlimit64 0 rlimit_nofile at : long 1024 1025 ! eperm
    prlimit64 0 rlimit_cpu at : long 1025 1025 = 0
    prlimit64 0 rlimit_cpu 0 at : room 16 = 0 : long 1025 1025
    prlimit64 0 16 0 at : room 16 ! einval
    prlimit64 1 16 0 at : room 16 ! esrch
    prlimit64 0 rlimit_nofile at : long 1 ! efault
    prlimit64 0 rlimit_nofile 0 at : room 8 ! efault
    prlimit64 0 rlimit_nofile 0 at : room 16 = 0 : long 10 20
    prlimit64 0 rlimit_nofile at nowhere : long 30 40 ! efault
    prlimit64 0 rlimit_nofile 0 at : room 16 = 0 : long 30 40
";

/// The bytes of chance are 1, 2 and 3, round and round, of which 16 are taken before the first call.
const CHANCE: &str = "
    getrandom at 4 : room 5 = 4 : byte 2 3 1 2 room 1
    getrandom at 1 1 : room 2 = 1 : byte 3 room 1
    getrandom at 1 2 : room 2 = 1 : byte 1 room 1
    getrandom at 1 5 : room 2 = 1 : byte 2 room 1
    getrandom at 8 : room 2 = 2 : byte 3 1
    getrandom at 1 6 : room 1 ! einval
    getrandom at 1 8 : room 1 ! einval
    getrandom nowhere 1 8 ! einval
    getrandom nowhere 1 ! efault
    getrandom nowhere 0 = 0
    getrandom at 0 : room 1 = 0
    getrandom at 1 : room 1 = 1 : byte 2
";

/// What uname(2) tells, each with NULs behind it up to 65 bytes.
const NAMES: &str = "
    uname at : room 389 ! efault
    uname nowhere ! efault
    uname at : room 390 = 0 : <Linux> zeros 60 <o32> zeros 62 <5.10.0> zeros 59 <#1> zeros 63 <mips> zeros 61 <(none)> zeros 59
";

#[test]
fn names_of_the_system(rt: HostRuntime) -> Result<(), Fail> {
    assert_eq!(rt; first_wrong_of_new(rt.alloc(), "", NAMES)?, None);
    Ok(())
}

#[test]
fn limits(rt: HostRuntime) -> Result<(), Fail> {
    assert_eq!(rt; first_wrong_of_new(rt.alloc(), "", LIMITS)?, None);
    Ok(())
}

#[test]
fn chance(rt: HostRuntime) -> Result<(), Fail> {
    assert_eq!(rt;
        first_wrong_of_new(rt.alloc(), "random 010203\n", CHANCE)?,
        None
    );
    Ok(())
}
