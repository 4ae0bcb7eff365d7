//! The interval timer and the clock: getitimer, setitimer, nanosleep, clock_nanosleep, clock_gettime, clock_getres.

use crate::calls::first_wrong_of_new;
use std::test::Fail;

/// A setting has its period and its value, each in seconds and microseconds.
const TIMER: &str = "
    getitimer 0 at : room 32 = 0 : long 0 0 0 0
    getitimer 1 nowhere ! einval
    getitimer 0 nowhere ! efault
    getitimer ! efault
    setitimer 1 nowhere ! einval
    setitimer 2 ! einval
    setitimer 0 nowhere ! efault
    setitimer 0 at : long 0 0 0 1000000 ! einval
    setitimer 0 at : long 0 0 -1 0 ! einval
    setitimer 0 at : long 0 -1 1 0 ! einval
    setitimer 0 at : long -1 0 1 0 ! einval
    next_time none
    # Every 2 s from 1.5 s on.
    setitimer 0 at : long 2 0 1 500000 = 0
    next_time 1500000000
    getitimer 0 at : room 32 = 0 : long 2 0 1 500000
    clock 400000999
    getitimer 0 at : room 32 = 0 : long 2 0 1 99999
    clock 1499999999
    deliverable no
    getitimer 0 at : room 32 = 0 : long 2 0 0 0
    clock 1500000000
    deliverable yes
    next_time 3500000000
    rt_sigpending at 16 : room 16 = 0 : long alrm 0
    # What was missed is not made up for. The kernel sends ALRM (SI_KERNEL).
    clock 8000000000
    next_time 9500000000
    rt_sigtimedwait at at+16 0 16 : long alrm 0 room 128 = 14 : long alrm 0 14 0x80 0 0 zeros 96
    rt_sigtimedwait at 0 0 16 : long alrm 0 waits 0
    # The old value is given, also where the new one stands in its place; then it can't be stored.
    setitimer 0 at at : long 0 0 0 1 = 0 : long 2 0 1 500000
    next_time 8000001000
    setitimer 0 at at+8 : long 0 7 3 0 ! efault
    next_time 11000000000
    getitimer 0 at : room 32 = 0 : long 0 7 3 0
    # A value of 0 disarms, and no setting does; the period is 0 then.
    setitimer 0 at : long 5 0 0 0 = 0
    getitimer 0 at : room 32 = 0 : long 0 0 0 0
    setitimer 0 at : long 5 0 1 0 = 0
    setitimer 0 0 at : room 32 = 0 : long 5 0 1 0
    next_time none
    getitimer 0 at : room 32 = 0 : long 0 0 0 0
    # A timer without a period goes off once.
    setitimer 0 at : long 0 0 1 0 = 0
    clock 20000000000
    next_time none
    # Times past 2^63 - 1 count as that, and one past 2^61 never comes.
    setitimer 0 at : long 0x4000000000000000 0 0x4000000000000000 0 = 0
    next_time none
";

/// The clock begins 100 s and 7 ns after the epoch. A time has its seconds and nanoseconds.
const CLOCK: &str = "
    clock_gettime 8 nowhere ! einval
    clock_gettime 0 nowhere ! efault
    clock_gettime 0 at : room 16 = 0 : long 100 7
    clock_gettime 1 at : room 16 = 0 : long 0 0
    clock_getres 8 nowhere ! einval
    clock_getres 0 nowhere ! efault
    clock_getres 7 = 0
    clock_getres 0 at : room 16 = 0 : long 0 1
    nanosleep nowhere ! efault
    nanosleep ! efault
    nanosleep at : long 0 1000000000 ! einval
    nanosleep at : long 0 -1 ! einval
    nanosleep at : long -1 0 ! einval
    nanosleep at : long 0 0 = 0
    nanosleep at : long 1 1 until 1000000001
    clock 1500000000
    nanosleep at : long 1 1 until 2500000001
    nanosleep at : long 0x4000000000000000 0 until latest
    clock_gettime 0 at : room 16 = 0 : long 101 500000007
    clock_gettime 5 at : room 16 = 0 : long 101 500000007
    clock_gettime 1 at : room 16 = 0 : long 1 500000000
    clock_gettime 4 at : room 16 = 0 : long 1 500000000
    clock_gettime 7 at : room 16 = 0 : long 1 500000000
    # CLOCK_REALTIME, CLOCK_MONOTONIC and CLOCK_BOOTTIME alone.
    clock_nanosleep 2 2 nowhere ! einval
    clock_nanosleep 3 0 nowhere ! einval
    clock_nanosleep 5 0 nowhere ! einval
    clock_nanosleep 8 0 nowhere ! einval
    clock_nanosleep 1 2 nowhere ! einval
    clock_nanosleep 1 3 nowhere ! einval
    clock_nanosleep 1 0 nowhere ! efault
    clock_nanosleep 1 0 at : long 0 1000000000 ! einval
    clock_nanosleep 1 1 at : long -1 0 ! einval
    clock_nanosleep 1 0 at : long 0 0 = 0
    clock_nanosleep 0 0 at : long 0 5 until 1500000005
    clock_nanosleep 7 0 at : long 0 5 until 1500000005
    # A time of the clock (TIMER_ABSTIME), by each of the three.
    clock_nanosleep 1 1 at : long 1 500000000 = 0
    clock_nanosleep 1 1 at : long 0 0 = 0
    clock_nanosleep 1 1 at : long 1 500000001 until 1500000001
    clock_nanosleep 7 1 at : long 2 0 until 2000000000
    clock_nanosleep 0 1 at : long 2 0 = 0
    clock_nanosleep 0 1 at : long 101 500000007 = 0
    clock_nanosleep 0 1 at : long 101 500000008 until 1500000001
    clock_nanosleep 0 1 at : long 102 7 until 2000000000
    clock_nanosleep 0 1 at : long 0x4000000000000000 0 until latest
";

#[test]
fn timer(rt: HostRuntime) -> Result<(), Fail> {
    assert_eq!(rt; first_wrong_of_new(rt.alloc(), "", TIMER)?, None);
    Ok(())
}

#[test]
fn clock(rt: HostRuntime) -> Result<(), Fail> {
    assert_eq!(rt;
        first_wrong_of_new(rt.alloc(), "epoch 100 7\n", CLOCK)?,
        None
    );
    Ok(())
}
