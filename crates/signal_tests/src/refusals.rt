//! Calls on signals that are refused, each by its error's number, which is the program's status.
use session_scripts::first_wrong;
use std::test::Fail;

/// kill(2), tkill(2), 4236, tgkill(2), 4266, and rt_sigqueueinfo(2), 4198. ESRCH is 3, EFAULT 14, EINVAL 22. Signal 0 is none, and 129 is
/// not listed; who is named is looked at first.
const SENDING: &str = r"
    addiu $a0 $zero 101; addiu $a1 $zero 15; addiu $v0 $zero kill; syscall
    addiu $a0 $v0 0; addiu $v0 $zero exit; syscall
    o32run run p = exited 3 3 7

    addiu $a0 $zero 101; addiu $a1 $zero 129; addiu $v0 $zero kill; syscall
    addiu $a0 $v0 0; addiu $v0 $zero exit; syscall
    o32run run p = exited 3 3 7

    addiu $a0 $zero 100; addiu $a1 $zero 129; addiu $v0 $zero kill; syscall
    addiu $a0 $v0 0; addiu $v0 $zero exit; syscall
    o32run run p = exited 22 22 7

    addiu $a0 $zero 100; addiu $a1 $zero 0; addiu $v0 $zero kill; syscall
    addiu $a0 $v0 0; addiu $v0 $zero exit; syscall
    o32run run p = exited 0 0 7

    addiu $a0 $zero 0; addiu $a1 $zero 129; addiu $v0 $zero kill; syscall
    addiu $a0 $v0 0; addiu $v0 $zero exit; syscall
    o32run run p = exited 22 22 7

    addiu $a0 $zero 0; addiu $a1 $zero 15; addiu $v0 $zero 4236; syscall
    addiu $a0 $v0 0; addiu $v0 $zero exit; syscall
    o32run run p = exited 22 22 7

    addiu $a0 $zero 101; addiu $a1 $zero 15; addiu $v0 $zero 4236; syscall
    addiu $a0 $v0 0; addiu $v0 $zero exit; syscall
    o32run run p = exited 3 3 7

    addiu $a0 $zero 100; addiu $a1 $zero 129; addiu $v0 $zero 4236; syscall
    addiu $a0 $v0 0; addiu $v0 $zero exit; syscall
    o32run run p = exited 22 22 7

    addiu $a0 $zero 100; addiu $a1 $zero 0; addiu $v0 $zero 4236; syscall
    addiu $a0 $v0 0; addiu $v0 $zero exit; syscall
    o32run run p = exited 0 0 7

    addiu $a0 $zero 0; addiu $a1 $zero 100; addiu $a2 $zero 15; addiu $v0 $zero 4266; syscall
    addiu $a0 $v0 0; addiu $v0 $zero exit; syscall
    o32run run p = exited 22 22 8

    addiu $a0 $zero 100; addiu $a1 $zero 0; addiu $a2 $zero 15; addiu $v0 $zero 4266; syscall
    addiu $a0 $v0 0; addiu $v0 $zero exit; syscall
    o32run run p = exited 22 22 8

    addiu $a0 $zero 101; addiu $a1 $zero 100; addiu $a2 $zero 15; addiu $v0 $zero 4266; syscall
    addiu $a0 $v0 0; addiu $v0 $zero exit; syscall
    o32run run p = exited 3 3 8

    addiu $a0 $zero 100; addiu $a1 $zero 101; addiu $a2 $zero 15; addiu $v0 $zero 4266; syscall
    addiu $a0 $v0 0; addiu $v0 $zero exit; syscall
    o32run run p = exited 3 3 8

    addiu $a0 $zero 100; addiu $a1 $zero 100; addiu $a2 $zero 129; addiu $v0 $zero 4266; syscall
    addiu $a0 $v0 0; addiu $v0 $zero exit; syscall
    o32run run p = exited 22 22 8

    addiu $a0 $zero 100; addiu $a1 $zero 100; addiu $a2 $zero 0; addiu $v0 $zero 4266; syscall
    addiu $a0 $v0 0; addiu $v0 $zero exit; syscall
    o32run run p = exited 0 0 8

    addiu $a0 $zero 101; addiu $a1 $zero 16; lui $a2 0x50; addiu $v0 $zero 4198; syscall
    addiu $a0 $v0 0; addiu $v0 $zero exit; syscall
    o32run run p = exited 3 3 8

    addiu $a0 $zero 100; addiu $a1 $zero 129; lui $a2 0x50; addiu $v0 $zero 4198; syscall
    addiu $a0 $v0 0; addiu $v0 $zero exit; syscall
    o32run run p = exited 22 22 8

    addiu $a0 $zero 100; addiu $a1 $zero 16; lui $a2 0x50; addiu $v0 $zero 4198; syscall
    addiu $a0 $v0 0; addiu $v0 $zero exit; syscall
    o32run run p = exited 14 14 8
";

/// rt_sigaction(2), rt_sigprocmask(2), rt_sigpending(2), 4196, and rt_sigsuspend(2), with a null pointer, with one to a structure of zeros on
/// the stack, and with addresses that can't be read, or not written. A set has 16 bytes. KILL, 9, and STOP, 23, get no new action, and a
/// kind of change that is not listed is wrong only with a set.
const ACTIONS_AND_MASKS: &str = r"
    addiu $a0 $zero 9; addiu $a1 $sp 0xFFC0; addiu $a2 $zero 0; addiu $a3 $zero 16; addiu $v0 $zero rt_sigaction; syscall
    addiu $a0 $v0 0; addiu $v0 $zero exit; syscall
    o32run run p = exited 22 22 9

    addiu $a0 $zero 23; addiu $a1 $sp 0xFFC0; addiu $a2 $zero 0; addiu $a3 $zero 16; addiu $v0 $zero rt_sigaction; syscall
    addiu $a0 $v0 0; addiu $v0 $zero exit; syscall
    o32run run p = exited 22 22 9

    addiu $a0 $zero 9; addiu $a1 $zero 0; addiu $a2 $sp 0xFFC0; addiu $a3 $zero 16; addiu $v0 $zero rt_sigaction; syscall
    addiu $a0 $v0 0; addiu $v0 $zero exit; syscall
    o32run run p = exited 0 0 9

    addiu $a0 $zero 0; addiu $a1 $sp 0xFFC0; addiu $a2 $zero 0; addiu $a3 $zero 16; addiu $v0 $zero rt_sigaction; syscall
    addiu $a0 $v0 0; addiu $v0 $zero exit; syscall
    o32run run p = exited 22 22 9

    addiu $a0 $zero 129; addiu $a1 $sp 0xFFC0; addiu $a2 $zero 0; addiu $a3 $zero 16; addiu $v0 $zero rt_sigaction; syscall
    addiu $a0 $v0 0; addiu $v0 $zero exit; syscall
    o32run run p = exited 22 22 9

    addiu $a0 $zero 16; addiu $a1 $sp 0xFFC0; addiu $a2 $zero 0; addiu $a3 $zero 8; addiu $v0 $zero rt_sigaction; syscall
    addiu $a0 $v0 0; addiu $v0 $zero exit; syscall
    o32run run p = exited 22 22 9

    addiu $a0 $zero 16; lui $a1 0x50; addiu $a2 $zero 0; addiu $a3 $zero 16; addiu $v0 $zero rt_sigaction; syscall
    addiu $a0 $v0 0; addiu $v0 $zero exit; syscall
    o32run run p = exited 14 14 9

    addiu $a0 $zero 16; addiu $a1 $zero 0; lui $a2 0x40; addiu $a3 $zero 16; addiu $v0 $zero rt_sigaction; syscall
    addiu $a0 $v0 0; addiu $v0 $zero exit; syscall
    o32run run p = exited 14 14 9

    addiu $a0 $zero 16; addiu $a1 $sp 0xFFC0; addiu $a2 $zero 0; addiu $a3 $zero 16; addiu $v0 $zero rt_sigaction; syscall
    addiu $a0 $v0 0; addiu $v0 $zero exit; syscall
    o32run run p = exited 0 0 9

    addiu $a0 $zero 1; addiu $a1 $sp 0xFFC0; addiu $a2 $zero 0; addiu $a3 $zero 8; addiu $v0 $zero rt_sigprocmask; syscall
    addiu $a0 $v0 0; addiu $v0 $zero exit; syscall
    o32run run p = exited 22 22 9

    addiu $a0 $zero 1; addiu $a1 $zero 0; addiu $a2 $sp 0xFFC0; addiu $a3 $zero 8; addiu $v0 $zero rt_sigprocmask; syscall
    addiu $a0 $v0 0; addiu $v0 $zero exit; syscall
    o32run run p = exited 22 22 9

    addiu $a0 $zero 4; addiu $a1 $sp 0xFFC0; addiu $a2 $zero 0; addiu $a3 $zero 16; addiu $v0 $zero rt_sigprocmask; syscall
    addiu $a0 $v0 0; addiu $v0 $zero exit; syscall
    o32run run p = exited 22 22 9

    addiu $a0 $zero 4; addiu $a1 $zero 0; addiu $a2 $sp 0xFFC0; addiu $a3 $zero 16; addiu $v0 $zero rt_sigprocmask; syscall
    addiu $a0 $v0 0; addiu $v0 $zero exit; syscall
    o32run run p = exited 0 0 9

    addiu $a0 $zero 1; lui $a1 0x50; addiu $a2 $zero 0; addiu $a3 $zero 16; addiu $v0 $zero rt_sigprocmask; syscall
    addiu $a0 $v0 0; addiu $v0 $zero exit; syscall
    o32run run p = exited 14 14 9

    addiu $a0 $zero 1; addiu $a1 $zero 0; lui $a2 0x40; addiu $a3 $zero 16; addiu $v0 $zero rt_sigprocmask; syscall
    addiu $a0 $v0 0; addiu $v0 $zero exit; syscall
    o32run run p = exited 14 14 9

    addiu $a0 $sp 0xFFC0; addiu $a1 $zero 8; addiu $v0 $zero 4196; syscall
    addiu $a0 $v0 0; addiu $v0 $zero exit; syscall
    o32run run p = exited 22 22 7

    lui $a0 0x40; addiu $a1 $zero 16; addiu $v0 $zero 4196; syscall
    addiu $a0 $v0 0; addiu $v0 $zero exit; syscall
    o32run run p = exited 14 14 7

    addiu $a0 $sp 0xFFC0; addiu $a1 $zero 16; addiu $v0 $zero 4196; syscall
    addiu $a0 $v0 0; addiu $v0 $zero exit; syscall
    o32run run p = exited 0 0 7

    addiu $a0 $sp 0xFFC0; addiu $a1 $zero 8; addiu $v0 $zero rt_sigsuspend; syscall
    addiu $a0 $v0 0; addiu $v0 $zero exit; syscall
    o32run run p = exited 22 22 7

    lui $a0 0x50; addiu $a1 $zero 16; addiu $v0 $zero rt_sigsuspend; syscall
    addiu $a0 $v0 0; addiu $v0 $zero exit; syscall
    o32run run p = exited 14 14 7
";

/// sigaltstack(2) of a stack of 2,047 bytes, and of one with flags of which there are none, 3; of one that can't be read; and a second one
/// while the program is on the first, which is EPERM, 1, and ENOMEM is 12. The stack pointer, 0x7FFEFF40, then lies on a stack that begins
/// at 0x7FFE0000 and has 65,535 bytes.
const STACKS: &str = r"
    addiu $t0 $zero 2047; sw $t0 0xFFE4 $sp; addiu $a0 $sp 0xFFE0; addiu $a1 $zero 0; addiu $v0 $zero sigaltstack; syscall
    addiu $a0 $v0 0; addiu $v0 $zero exit; syscall
    o32run run p = exited 12 12 9

    addiu $t0 $zero 2048; sw $t0 0xFFE4 $sp; addiu $a0 $sp 0xFFE0; addiu $a1 $zero 0; addiu $v0 $zero sigaltstack; syscall
    addiu $a0 $v0 0; addiu $v0 $zero exit; syscall
    o32run run p = exited 0 0 9

    addiu $t0 $zero 3; sw $t0 0xFFE8 $sp; addiu $a0 $sp 0xFFE0; addiu $a1 $zero 0; addiu $v0 $zero sigaltstack; syscall
    addiu $a0 $v0 0; addiu $v0 $zero exit; syscall
    o32run run p = exited 22 22 9

    lui $a0 0x50; addiu $a1 $zero 0; addiu $v0 $zero sigaltstack; syscall
    addiu $a0 $v0 0; addiu $v0 $zero exit; syscall
    o32run run p = exited 14 14 7

    lui $t0 0x7FFE; sw $t0 0xFFE0 $sp; ori $t0 $zero 0xFFFF; sw $t0 0xFFE4 $sp
    addiu $a0 $sp 0xFFE0; addiu $a1 $zero 0; addiu $v0 $zero sigaltstack; syscall
    addiu $a0 $sp 0xFFE0; addiu $a1 $zero 0; addiu $v0 $zero sigaltstack; syscall
    addiu $a0 $v0 0; addiu $v0 $zero exit; syscall
    o32run run p = exited 1 1 15
";

/// restart_syscall(2), 4253, where no call was stopped: EINTR, 4.
const NO_RESTART: &str = r"
    addiu $v0 $zero 4253; syscall
    addiu $a0 $v0 0; addiu $v0 $zero exit; syscall
    o32run run p = exited 4 4 5
";

#[test]
fn sending(rt: HostRuntime) -> Result<(), Fail> {
    assert_eq!(rt; first_wrong(rt.alloc(), "", SENDING)?, None);
    Ok(())
}

#[test]
fn actions_and_masks(rt: HostRuntime) -> Result<(), Fail> {
    assert_eq!(rt; first_wrong(rt.alloc(), "", ACTIONS_AND_MASKS)?, None);
    Ok(())
}

#[test]
fn others(rt: HostRuntime) -> Result<(), Fail> {
    assert_eq!(rt; first_wrong(rt.alloc(), "", STACKS)?, None);
    assert_eq!(rt; first_wrong(rt.alloc(), "", NO_RESTART)?, None);
    Ok(())
}
