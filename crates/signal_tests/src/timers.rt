//! The interval timer: alarm(2), setitimer(2), and getitimer(2), 4105.
use session_scripts::first_wrong;
use std::test::Fail;

/// EINVAL is 22, EFAULT 14: another timer than 0, 1,000,000 microseconds, seconds below 0, a value that can't be read, and no place for
/// what getitimer(2) tells. 999,999 microseconds are taken.
const REFUSED: &str = r"
    addiu $a0 $zero 1; addiu $a1 $zero 0; addiu $a2 $zero 0; addiu $v0 $zero setitimer; syscall
    addiu $a0 $v0 0; addiu $v0 $zero exit; syscall
    o32run run p = exited 22 22 8

    addiu $a0 $zero 2; addiu $a1 $sp 0; addiu $v0 $zero 4105; syscall
    addiu $a0 $v0 0; addiu $v0 $zero exit; syscall
    o32run run p = exited 22 22 7

    lui $t0 0xF; ori $t0 $t0 0x4240; sw $t0 0xFFEC $sp
    addiu $a0 $zero 0; addiu $a1 $sp 0xFFE0; addiu $a2 $zero 0; addiu $v0 $zero setitimer; syscall
    addiu $a0 $v0 0; addiu $v0 $zero exit; syscall
    o32run run p = exited 22 22 11

    lui $t0 0xF; ori $t0 $t0 0x423F; sw $t0 0xFFEC $sp
    addiu $a0 $zero 0; addiu $a1 $sp 0xFFE0; addiu $a2 $zero 0; addiu $v0 $zero setitimer; syscall
    addiu $a0 $v0 0; addiu $v0 $zero exit; syscall
    o32run run p = exited 0 0 11

    addiu $t0 $zero 0xFFFF; sw $t0 0xFFE8 $sp
    addiu $a0 $zero 0; addiu $a1 $sp 0xFFE0; addiu $a2 $zero 0; addiu $v0 $zero setitimer; syscall
    addiu $a0 $v0 0; addiu $v0 $zero exit; syscall
    o32run run p = exited 22 22 10

    addiu $a0 $zero 0; lui $a1 0x50; addiu $a2 $zero 0; addiu $v0 $zero setitimer; syscall
    addiu $a0 $v0 0; addiu $v0 $zero exit; syscall
    o32run run p = exited 14 14 8

    addiu $a0 $zero 0; addiu $a1 $zero 0; addiu $v0 $zero 4105; syscall
    addiu $a0 $v0 0; addiu $v0 $zero exit; syscall
    o32run run p = exited 14 14 7
";

/// A timer of a second with a period of two, in turns of 7 nanoseconds. What is left is rounded down to 999,999 microseconds, and told
/// by getitimer(2), and by setitimer(2) without a new value, which disarms: nothing is left then.
const TOLD: &str = r"
    addiu $t0 $zero 2; sw $t0 0xFFE0 $sp; addiu $t0 $zero 1; sw $t0 0xFFE8 $sp
    addiu $a0 $zero 0; addiu $a1 $sp 0xFFE0; addiu $a2 $zero 0; addiu $v0 $zero setitimer; syscall
    addiu $a0 $zero 0; addiu $a1 $sp 0xFFC0; addiu $v0 $zero 4105; syscall
    addiu $a0 $zero 1; addiu $a1 $sp 0xFFC0; addiu $a2 $zero 16; addiu $v0 $zero write; syscall
    addiu $a0 $zero 0; addiu $v0 $zero exit; syscall
    file t quantum 7\n
    out \0\0\0\x02\0\0\0\0\0\0\0\0\0\x0F\x42\x3F
    o32run run --schedule t p = exited 0 0 21

    addiu $t0 $zero 2; sw $t0 0xFFE0 $sp; addiu $t0 $zero 1; sw $t0 0xFFE8 $sp
    addiu $a0 $zero 0; addiu $a1 $sp 0xFFE0; addiu $a2 $zero 0; addiu $v0 $zero setitimer; syscall
    addiu $a0 $zero 0; addiu $a1 $zero 0; addiu $a2 $sp 0xFFC0; addiu $v0 $zero setitimer; syscall
    addiu $a0 $zero 0; addiu $a1 $sp 0xFFD0; addiu $v0 $zero 4105; syscall
    addiu $a0 $zero 1; addiu $a1 $sp 0xFFC0; addiu $a2 $zero 32; addiu $v0 $zero write; syscall
    addiu $a0 $zero 0; addiu $v0 $zero exit; syscall
    file t quantum 7\n
    out \0\0\0\x02\0\0\0\0\0\0\0\0\0\x0F\x42\x3F\0\0\0\0\0\0\0\0\0\0\0\0\0\0\0\0
    o32run run --schedule t p = exited 0 0 26
";

/// A timer of 10 microseconds, set in the seventh turn, is due in the seventeenth, whose instruction stands in a branch's slot: SIGALRM
/// kills in the eighteenth.
const DUE: &str = r"
    addiu $t0 $zero 10; sw $t0 0xFFEC $sp
    addiu $a0 $zero 0; addiu $a1 $sp 0xFFE0; addiu $a2 $zero 0; addiu $v0 $zero setitimer; syscall
    beq $zero $zero 0xFFFF; nop
    trace 7 call 4104 00000000 7ffeff20 00000000 00000000 = 00000000 0
    trace 17 post 14
    trace 18 killed 14
    o32run run --trace trace p = killed 14 142 18
";

/// alarm(2) of 2 gives 0 where there was no timer; then alarm(2) of 0 gives 2, and disarms, so that the next one gives 0 and pause(2) has
/// nothing to wait for. One of 3 gives the second of a timer with a period, and takes the period away: after five turns of a microsecond
/// 2.999995 s are left.
const ALARMS: &str = r"
    addiu $a0 $zero 2; addiu $v0 $zero alarm; syscall; sw $v0 0xFFC0 $sp
    addiu $a0 $zero 0; addiu $v0 $zero alarm; syscall; sw $v0 0xFFC4 $sp
    addiu $a0 $zero 0; addiu $v0 $zero alarm; syscall; sw $v0 0xFFC8 $sp
    addiu $a0 $zero 1; addiu $a1 $sp 0xFFC0; addiu $a2 $zero 12; addiu $v0 $zero write; syscall
    addiu $v0 $zero pause; syscall
    out \0\0\0\0\0\0\0\x02\0\0\0\0
    o32run run p = blocked 123 19

    addiu $t0 $zero 2; sw $t0 0xFFE0 $sp; addiu $t0 $zero 1; sw $t0 0xFFE8 $sp
    addiu $a0 $zero 0; addiu $a1 $sp 0xFFE0; addiu $a2 $zero 0; addiu $v0 $zero setitimer; syscall
    addiu $a0 $zero 3; addiu $v0 $zero alarm; syscall; addiu $s0 $v0 0
    addiu $a0 $zero 0; addiu $a1 $sp 0xFFC0; addiu $v0 $zero 4105; syscall
    addiu $a0 $zero 1; addiu $a1 $sp 0xFFC0; addiu $a2 $zero 16; addiu $v0 $zero write; syscall
    addiu $a0 $s0 0; addiu $v0 $zero exit; syscall
    out \0\0\0\0\0\0\0\0\0\0\0\x02\0\x0F\x42\x3B
    o32run run p = exited 1 1 25
";

/// What alarm(2) gives of a timer of 1.4 s, of 1.6 s and of 0.3 s; of 1.500003 s and of 1.500002 s three turns of a microsecond later, so
/// that a half is left, and less; and of a microsecond after three turns of 333 nanoseconds, so that one nanosecond is left.
const ROUNDED: &str = r"
    addiu $t0 $zero 1; sw $t0 0xFFE8 $sp; lui $t0 6; ori $t0 $t0 0x1A80; sw $t0 0xFFEC $sp
    addiu $a0 $zero 0; addiu $a1 $sp 0xFFE0; addiu $a2 $zero 0; addiu $v0 $zero setitimer; syscall
    addiu $a0 $zero 0; addiu $v0 $zero alarm; syscall; addiu $a0 $v0 0; addiu $v0 $zero exit; syscall
    o32run run p = exited 1 1 16

    addiu $t0 $zero 1; sw $t0 0xFFE8 $sp; lui $t0 9; ori $t0 $t0 0x27C0; sw $t0 0xFFEC $sp
    addiu $a0 $zero 0; addiu $a1 $sp 0xFFE0; addiu $a2 $zero 0; addiu $v0 $zero setitimer; syscall
    addiu $a0 $zero 0; addiu $v0 $zero alarm; syscall; addiu $a0 $v0 0; addiu $v0 $zero exit; syscall
    o32run run p = exited 2 2 16

    lui $t0 4; ori $t0 $t0 0x93E0; sw $t0 0xFFEC $sp
    addiu $a0 $zero 0; addiu $a1 $sp 0xFFE0; addiu $a2 $zero 0; addiu $v0 $zero setitimer; syscall
    addiu $a0 $zero 0; addiu $v0 $zero alarm; syscall; addiu $a0 $v0 0; addiu $v0 $zero exit; syscall
    o32run run p = exited 1 1 14

    addiu $t0 $zero 1; sw $t0 0xFFE8 $sp; lui $t0 7; ori $t0 $t0 0xA123; sw $t0 0xFFEC $sp
    addiu $a0 $zero 0; addiu $a1 $sp 0xFFE0; addiu $a2 $zero 0; addiu $v0 $zero setitimer; syscall
    addiu $a0 $zero 0; addiu $v0 $zero alarm; syscall; addiu $a0 $v0 0; addiu $v0 $zero exit; syscall
    o32run run p = exited 2 2 16

    addiu $t0 $zero 1; sw $t0 0xFFE8 $sp; lui $t0 7; ori $t0 $t0 0xA122; sw $t0 0xFFEC $sp
    addiu $a0 $zero 0; addiu $a1 $sp 0xFFE0; addiu $a2 $zero 0; addiu $v0 $zero setitimer; syscall
    addiu $a0 $zero 0; addiu $v0 $zero alarm; syscall; addiu $a0 $v0 0; addiu $v0 $zero exit; syscall
    o32run run p = exited 1 1 16

    addiu $t0 $zero 1; sw $t0 0xFFEC $sp
    addiu $a0 $zero 0; addiu $a1 $sp 0xFFE0; addiu $a2 $zero 0; addiu $v0 $zero setitimer; syscall
    addiu $a0 $zero 0; addiu $v0 $zero alarm; syscall; addiu $a0 $v0 0; addiu $v0 $zero exit; syscall
    file t quantum 333\n
    o32run run --schedule t p = exited 1 1 13
";

/// alarm(2) of 1 in the fourteenth turn, in which the clock shows 13,000 nanoseconds, and then pause(2): the clock jumps to 1.000013 s, and
/// the handler of SIGALRM, 14, writes the time in its fourth turn. It runs once, so that the next pause(2) has nothing to wait for.
const ALARM_COMES: &str = r"
    beq $zero $zero 12; nop
    addiu $a0 $zero 1; addiu $a1 $sp 0xFFE0; addiu $v0 $zero clock_gettime; syscall
    addiu $a0 $zero 1; addiu $a1 $sp 0xFFE0; addiu $a2 $zero 8; addiu $v0 $zero write; syscall; jr $ra; nop
    lui $t0 0x40; ori $t0 $t0 8; sw $t0 0xFFC4 $sp
    addiu $a0 $zero 14; addiu $a1 $sp 0xFFC0; addiu $a2 $zero 0; addiu $a3 $zero 16; addiu $v0 $zero rt_sigaction; syscall
    addiu $a0 $zero 1; addiu $v0 $zero alarm; syscall
    addiu $v0 $zero pause; syscall
    addiu $v0 $zero pause; syscall
    out \0\0\0\x01\0\0\x3E\x80
    o32run run p = blocked 123 32
";

#[test]
fn refused(rt: HostRuntime) -> Result<(), Fail> {
    assert_eq!(rt; first_wrong(rt.alloc(), "", REFUSED)?, None);
    Ok(())
}

#[test]
fn told(rt: HostRuntime) -> Result<(), Fail> {
    assert_eq!(rt; first_wrong(rt.alloc(), "", TOLD)?, None);
    assert_eq!(rt; first_wrong(rt.alloc(), "", DUE)?, None);
    Ok(())
}

#[test]
fn alarms(rt: HostRuntime) -> Result<(), Fail> {
    assert_eq!(rt; first_wrong(rt.alloc(), "", ALARMS)?, None);
    assert_eq!(rt; first_wrong(rt.alloc(), "", ROUNDED)?, None);
    assert_eq!(rt; first_wrong(rt.alloc(), "", ALARM_COMES)?, None);
    Ok(())
}
