//! Actions, the mask and the alternate stack: rt_sigaction, rt_sigprocmask, rt_sigsuspend, sigaltstack.

use crate::calls::first_wrong_of_new;
use std::test::Fail;

/// An action has its handler, its flags and the two numbers of its mask.
const ACTIONS: &str = "
    rt_sigaction 10 0 at 16 : room 32 = 0 : long 0 0 0 0
    rt_sigaction 10 0 0 16 = 0
    rt_sigaction 10 nowhere nowhere 8 ! einval
    rt_sigaction 0 0 0 16 ! einval
    rt_sigaction 0 nowhere 0 16 ! einval
    rt_sigaction 129 0 0 16 ! einval
    rt_sigaction 10 nowhere 0 16 ! efault
    rt_sigaction 10 0 nowhere 16 ! efault
    rt_sigaction 9 nowhere 0 16 ! einval
    rt_sigaction 9 at 0 16 : long 1 0 0 0 ! einval
    rt_sigaction 19 at 0 16 : long 1 0 0 0 ! einval
    rt_sigaction 9 0 at 16 : room 32 = 0 : long 0 0 0 0
    rt_sigaction 19 0 at 16 : room 32 = 0 : long 0 0 0 0
    # The mask never has KILL and STOP, and a flag without a name is dropped.
    rt_sigaction 10 at 0 16 : long 0x400000 sa_siginfo+sa_restart+unnamed all all = 0
    rt_sigaction 10 0 at 16 : room 32 = 0 : long 0x400000 sa_siginfo+sa_restart blockable all
    # The old action and the new one in one place; then a place for the old one that is none, where the new one
    # stands all the same.
    rt_sigaction 10 at at 16 : long 0x500000 0 usr2 1 = 0 : long 0x400000 sa_siginfo+sa_restart blockable all
    rt_sigaction 10 at at+8 16 : long 0x600000 0 0 0 ! efault
    rt_sigaction 10 0 at 16 : room 32 = 0 : long 0x600000 0 0 0
    # A real-time signal has an action of its own.
    rt_sigaction 128 0 at 16 : room 32 = 0 : long 0 0 0 0
    # What pends goes where an action ignores it, by SIG_IGN or by default.
    kill 100 10 = 0
    kill 100 12 = 0
    rt_sigpending at 16 : room 16 = 0 : long usr1+usr2 0
    rt_sigaction 10 at 0 16 : long 1 0 0 0 = 0
    rt_sigpending at 16 : room 16 = 0 : long usr2 0
";

const MASKS: &str = "
    rt_sigprocmask unlisted 0 at 16 : room 16 = 0 : long 0 0
    rt_sigprocmask unlisted 0 0 16 = 0
    rt_sigprocmask sig_block 0 nowhere 8 ! einval
    rt_sigprocmask sig_block nowhere 0 8 ! einval
    rt_sigprocmask unlisted nowhere 0 16 ! einval
    rt_sigprocmask sig_block nowhere 0 16 ! efault
    rt_sigprocmask sig_block 0 nowhere 16 ! efault
    rt_sigprocmask sig_block at 0 16 : long usr1 1 = 0
    rt_sigprocmask sig_block at at 16 : long usr1+term 2 = 0 : long usr1 1
    rt_sigprocmask sig_unblock at at 16 : long usr1+usr2 1 = 0 : long usr1+term 3
    rt_sigprocmask sig_setmask at at 16 : long all all = 0 : long term 2
    rt_sigprocmask 0 0 at 16 : room 16 = 0 : long blockable all
    rt_sigprocmask sig_setmask at at+8 16 : long usr2 0 ! efault
    rt_sigprocmask 0 0 at 16 : room 16 = 0 : long usr2 0
    # rt_sigsuspend reads its mask, which has no effect here.
    rt_sigsuspend at 8 : long 0 0 ! einval
    rt_sigsuspend nowhere 8 ! einval
    rt_sigsuspend nowhere 16 ! efault
    rt_sigsuspend 0 16 ! efault
    rt_sigsuspend at 16 : long all all waits 0
    rt_sigsuspend at 16 : long all all waits 0
    rt_sigprocmask 0 0 at 16 : room 16 = 0 : long usr2 0
";

/// A stack has its place, its flags, of which 2 is SS_DISABLE, and its size. The upper half of the number with the flags has no
/// name.
const STACKS: &str = "
    sigaltstack = 0
    sigaltstack 0 at : room 24 = 0 : long 0 2 0
    sigaltstack at : long 0x70000000 3 8192 ! einval
    sigaltstack at : long 0x70000000 3 2047 ! einval
    sigaltstack at : long 0x70000000 0 2047 ! enomem
    sigaltstack at : long 0x70000000 1 2047 ! enomem
    sigaltstack nowhere ! efault
    sigaltstack 0 nowhere ! efault
    sigaltstack 0 at : room 24 = 0 : long 0 2 0
    sigaltstack at at : long 0x70000000 0 2048 = 0 : long 0 2 0
    sigaltstack at at : long 0x71000000 0x7A7A7A7A00000000 8192 = 0 : long 0x70000000 0 2048
    # The old stack can't be stored: the new one stands.
    sigaltstack at at+8 : long 0x72000000 0 4096 ! efault
    sigaltstack 0 at : room 24 = 0 : long 0x72000000 0 4096
    # A disabled stack has no place and no size, whatever is said of them.
    sigaltstack at : long 0x72000000 2 100 = 0
    sigaltstack 0 at : room 24 = 0 : long 0 2 0
    sigaltstack at : long 0 0 4096 = 0
    sigaltstack 0 at : room 24 = 0 : long 0 0 4096
";

#[test]
fn actions(rt: HostRuntime) -> Result<(), Fail> {
    assert_eq!(rt; first_wrong_of_new(rt.alloc(), "", ACTIONS)?, None);
    Ok(())
}

#[test]
fn masks(rt: HostRuntime) -> Result<(), Fail> {
    assert_eq!(rt; first_wrong_of_new(rt.alloc(), "", MASKS)?, None);
    Ok(())
}

#[test]
fn stacks(rt: HostRuntime) -> Result<(), Fail> {
    assert_eq!(rt; first_wrong_of_new(rt.alloc(), "", STACKS)?, None);
    Ok(())
}
