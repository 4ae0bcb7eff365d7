//! Signals that the process sends to itself: kill, tkill, tgkill, rt_sigqueueinfo, and rt_sigpending.

use crate::calls::first_wrong_of_new;
use std::alloc::Global;
use std::test::Fail;

/// The process is 100; -1 and -100 have 32 bits.
const SENT: &str = "
    kill 100 = 0
    kill = 0
    kill 0xFFFFFF9C = 0
    kill 1 ! esrch
    kill 101 15 ! esrch
    kill 0xFFFFFFFF 15 ! esrch
    kill 100 129 ! einval
    kill 100 0xFFFFFFFF ! einval
    kill 7 200 ! esrch
    tkill 0 10 ! einval
    tkill 0xFFFFFF9C 10 ! einval
    tkill 7 10 ! esrch
    tkill 7 129 ! esrch
    tkill 100 129 ! einval
    tkill 100 = 0
    tgkill 0 100 10 ! einval
    tgkill 100 0 10 ! einval
    tgkill 7 0 10 ! einval
    tgkill 7 100 10 ! esrch
    tgkill 100 7 10 ! esrch
    tgkill 100 100 129 ! einval
    tgkill 100 100 = 0
    # CHLD is ignored without an action.
    kill 100 17 = 0
    rt_sigpending at 16 : room 16 = 0 : long 0 0
    rt_sigpending at 8 : room 16 ! einval
    rt_sigpending at+8 16 : room 16 ! efault
    # The signals of the numbers 64, 65 and 128, and USR1 twice.
    kill 100 64 = 0
    kill 0 65 = 0
    tkill 100 128 = 0
    tgkill 100 100 10 = 0
    kill 0xFFFFFF9C 10 = 0
    rt_sigpending at 16 : room 16 = 0 : long 0x8000000000000000+usr1 0x8000000000000000+1
    # USR1 pends once, as tgkill sent it (SI_TKILL, -6); then none of the set pends.
    rt_sigtimedwait at at+16 0 16 : long usr1 0 room 128 = 10 : long usr1 0 10 0xFFFFFFFA 100 0 zeros 96
    rt_sigtimedwait at 0 at+16 16 : long usr1 0 0 0 ! eagain
    # rt_sigqueueinfo: who sends it, its number, and its structure, in this order.
    rt_sigqueueinfo 7 129 nowhere ! esrch
    rt_sigqueueinfo 0xFFFFFF9C 10 nowhere ! esrch
    rt_sigqueueinfo 100 129 nowhere ! einval
    rt_sigqueueinfo 100 10 nowhere ! efault
    rt_sigqueueinfo 100 0 nowhere ! efault
    rt_sigqueueinfo 100 0 at : zeros 128 = 0
    # An errno of 5, the code -1 (SI_QUEUE), the process 9, the user 3, and a value of 64 bits.
    rt_sigqueueinfo 100 40 at : int 10 5 0xFFFFFFFF 0 9 3 long 0x123456789 room 96 = 0
    # The same signal again, with the code -2, which is SI_TIMER here.
    rt_sigqueueinfo 100 40 at : long 0 0xFFFFFFFE 0 7 zeros 96 = 0
    # They come in order, and of the value the low 32 bits are kept.
    rt_sigtimedwait at at+16 0 16 : long 0x8000000000 0 room 128 = 40 : \
        long 0x8000000000 0 int 40 5 0xFFFFFFFF 0 9 3 long 0x23456789 zeros 96
    rt_sigtimedwait at at+16 0 16 : long 0x8000000000 0 room 128 = 40 : long 0x8000000000 0 40 0xFFFFFFFE 0 7 zeros 96
    rt_sigpending at 16 : room 16 = 0 : long 0x8000000000000000 0x8000000000000000+1
";

/// With 1,024 real-time signals queued: each call that sends one more is EAGAIN, and a standard one pends still.
const FULL: &str = "
    kill 100 40 ! eagain
    tkill 100 41 ! eagain
    tgkill 100 100 128 ! eagain
    rt_sigqueueinfo 100 32 at : zeros 128 ! eagain
    kill 100 10 = 0
    rt_sigtimedwait at 0 0 16 : long 0x8000000000 0 = 40
    kill 100 41 = 0
    kill 100 41 ! eagain
    post rt40 full
";

/// Calls that fill the queue, and then those of a text.
fn with_full_queue(alloc: Global, text: &str) -> Result<String, Fail> {
    let mut rows = String::new(alloc);
    for _sent in 0..1024 {
        rows.push_str("kill 100 40 = 0\n")?;
    }
    rows.push_str(text)?;
    Ok(rows)
}

#[test]
fn sent(rt: HostRuntime) -> Result<(), Fail> {
    assert_eq!(rt; first_wrong_of_new(rt.alloc(), "", SENT)?, None);
    Ok(())
}

#[test]
fn full_queue(rt: HostRuntime) -> Result<(), Fail> {
    let rows = with_full_queue(rt.alloc(), FULL)?;
    assert_eq!(rt; first_wrong_of_new(rt.alloc(), "", rows.as_str())?, None);
    Ok(())
}
