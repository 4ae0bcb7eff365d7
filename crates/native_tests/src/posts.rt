//! Signals from outside, and which of them are delivered.

use crate::calls::first_wrong_of_new;
use std::test::Fail;

const POSTS: &str = "
    deliverable no
    # CHLD is ignored without an action, unless a sigtimedwait waits for it.
    post chld dropped
    deliverable no
    post_awaited chld queued
    deliverable yes
    rt_sigtimedwait at at+16 0 16 : long chld 0 room 128 = 17 : long chld 0 17 0 1 0 zeros 96
    deliverable no
    # A blocked signal pends and is not delivered; a standard one pends once.
    rt_sigprocmask sig_block at 0 16 : long usr1 0 = 0
    post usr1 queued
    post usr1 dropped
    deliverable no
    post term queued
    deliverable yes
    rt_sigtimedwait at 0 0 16 : long term 0 = 15
    deliverable no
    rt_sigprocmask sig_unblock at 0 16 : long usr1 0 = 0
    deliverable yes
    # SIG_IGN, where a blocked signal pends all the same.
    rt_sigaction 10 at 0 16 : long 1 0 0 0 = 0
    deliverable no
    post usr1 dropped
    rt_sigprocmask sig_block at 0 16 : long usr1 0 = 0
    post usr1 queued
    # A stop signal takes CONT away, and CONT stop signals, also where it is dropped itself.
    post_awaited cont queued
    post tstp queued
    rt_sigpending at 16 : room 16 = 0 : long usr1+tstp 0
    post cont dropped
    rt_sigpending at 16 : room 16 = 0 : long usr1 0
    post hup queued
    rt_sigtimedwait at 0 0 16 : long -1 -1 = 1
";

#[test]
fn posts(rt: HostRuntime) -> Result<(), Fail> {
    assert_eq!(rt; first_wrong_of_new(rt.alloc(), "", POSTS)?, None);
    Ok(())
}
