//! Signals that are waited for: rt_sigtimedwait.

use crate::calls::first_wrong_of_new;
use std::test::Fail;

const ACCEPTED: &str = "
    # The size of the set, the set, the time.
    rt_sigtimedwait at 0 0 8 : long usr1 0 ! einval
    rt_sigtimedwait nowhere 0 nowhere 8 ! einval
    rt_sigtimedwait nowhere 0 0 16 ! efault
    rt_sigtimedwait 0 0 0 16 ! efault
    rt_sigtimedwait at 0 nowhere 16 : long usr1 0 ! efault
    rt_sigtimedwait at 0 at+16 16 : long usr1 0 0 1000000000 ! einval
    rt_sigtimedwait at 0 at+16 16 : long usr1 0 0 -1 ! einval
    rt_sigtimedwait at 0 at+16 16 : long usr1 0 -1 0 ! einval
    # Nothing pends.
    rt_sigtimedwait at 0 0 16 : long usr1 0 waits 0
    rt_sigtimedwait at nowhere 0 16 : long usr1 0 waits 0
    rt_sigtimedwait at 0 at+16 16 : long usr1 0 0 0 ! eagain
    rt_sigtimedwait at 0 at+16 16 : long usr1 0 1 5 until 1000000005
    clock 7
    rt_sigtimedwait at 0 at+16 16 : long usr1 0 1 5 until 1000000012
    # A time past 2^63 - 1 counts as that.
    rt_sigtimedwait at 0 at+16 16 : long usr1 0 latest 999999999 until latest
    # USR1, USR2, TERM and 33: the lowest number of the set comes first, and another stays.
    kill 100 33 = 0
    kill 100 15 = 0
    kill 100 12 = 0
    kill 100 10 = 0
    rt_sigtimedwait at at+16 0 16 : long usr2+term 1 room 128 = 12 : long usr2+term 1 12 0 100 0 zeros 96
    rt_sigtimedwait at 0 0 16 : long usr2+term 1 = 15
    rt_sigtimedwait at 0 at+16 16 : long usr2+term+0x100000000 0 0 0 = 33
    rt_sigtimedwait at 0 at+16 16 : long usr2+term+0x100000000 0 0 0 ! eagain
    rt_sigpending at 16 : room 16 = 0 : long usr1 0
    # What is known of it can't be stored: the signal is gone.
    rt_sigtimedwait at nowhere 0 16 : long usr1 0 ! efault
    rt_sigpending at 16 : room 16 = 0 : long 0 0
    # KILL is accepted too.
    kill 100 9 = 0
    kill 100 19 = 0
    rt_sigtimedwait at 0 0 16 : long -1 -1 = 9
    rt_sigtimedwait at 0 0 16 : long kill 0 waits 0
    rt_sigtimedwait at 0 0 16 : long -1 -1 = 19
    # The last real-time signal.
    kill 100 128 = 0
    rt_sigtimedwait at 0 0 16 : long 0 0x8000000000000000 = 128
";

#[test]
fn accepted(rt: HostRuntime) -> Result<(), Fail> {
    assert_eq!(rt; first_wrong_of_new(rt.alloc(), "", ACCEPTED)?, None);
    Ok(())
}
