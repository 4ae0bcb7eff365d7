//! Calls that wait, and what a handler or a stop makes of them.
use session_scripts::first_wrong;
use std::test::Fail;

/// A read of an empty pipe. The handler writes the frame's pc, $v0 and $a3: under SA_RESTART those of the SYSCALL that comes again,
/// at 0x00400094, and else those behind it, with EINTR. The clock jumps to the signal's time in a turn of its own.
const A_READ: &str = r"
    beq $zero $zero 19; nop
    addiu $a0 $zero 1; addiu $a1 $sp 36; addiu $a2 $zero 4; addiu $v0 $zero write; syscall
    addiu $a0 $zero 1; addiu $a1 $sp 60; addiu $a2 $zero 4; addiu $v0 $zero write; syscall
    addiu $a0 $zero 1; addiu $a1 $sp 100; addiu $a2 $zero 4; addiu $v0 $zero write; syscall
    addiu $a0 $zero 0; addiu $v0 $zero exit; syscall
    lui $t0 0x1000; sw $t0 0xFFC0 $sp; lui $t0 0x40; ori $t0 $t0 8; sw $t0 0xFFC4 $sp
    addiu $a0 $zero 16; addiu $a1 $sp 0xFFC0; addiu $a2 $zero 0; addiu $a3 $zero 16; addiu $v0 $zero rt_sigaction; syscall
    addiu $v0 $zero pipe; syscall
    addiu $a0 $zero 3; addiu $a1 $sp 0xFFF0; addiu $a2 $zero 4; addiu $v0 $zero read; syscall
    file t at 1000000 kill 16\n
    out \0\x40\0\x94\0\0\x0F\xA3\0\0\0\0
    trace 13 call 4194 00000010 7ffeff00 00000000 00000010 = 00000000 0
    trace 15 call 4042 00000010 7ffeff00 00000000 00000000 = 00000003 0
    trace 20 wait 4003 00000003 7ffeff30 00000004 00000000
    trace 22 post 16
    trace 22 restart 4003
    trace 22 signal 16 handler
    trace 26 call 4004 00000001 7ffefccc 00000004 00000000 = 00000004 0
    trace 31 call 4004 00000001 7ffefce4 00000004 00000000 = 00000004 0
    trace 36 call 4004 00000001 7ffefd0c 00000004 00000000 = 00000004 0
    trace 39 exit 0
    o32run run --schedule t --trace trace p = exited 0 0 39

    beq $zero $zero 19; nop
    addiu $a0 $zero 1; addiu $a1 $sp 36; addiu $a2 $zero 4; addiu $v0 $zero write; syscall
    addiu $a0 $zero 1; addiu $a1 $sp 60; addiu $a2 $zero 4; addiu $v0 $zero write; syscall
    addiu $a0 $zero 1; addiu $a1 $sp 100; addiu $a2 $zero 4; addiu $v0 $zero write; syscall
    addiu $a0 $zero 0; addiu $v0 $zero exit; syscall
    lui $t0 0x40; ori $t0 $t0 8; sw $t0 0xFFC4 $sp
    addiu $a0 $zero 16; addiu $a1 $sp 0xFFC0; addiu $a2 $zero 0; addiu $a3 $zero 16; addiu $v0 $zero rt_sigaction; syscall
    addiu $v0 $zero pipe; syscall
    addiu $a0 $zero 3; addiu $a1 $sp 0xFFF0; addiu $a2 $zero 4; addiu $v0 $zero read; syscall
    file t at 1000000 kill 16\n
    out \0\x40\0\x90\0\0\0\x04\0\0\0\x01
    o32run run --schedule t p = exited 0 0 37
";

/// A sleep of a second. A stop after 0.3 s and SIGCONT after 0.8 s leave its deadline, and it gives 0; the clock is then told, four
/// turns behind it. A handler after 0.5 s ends it with EINTR, 4, and what is left is stored. So
/// does one after 0.7 s behind a stop at 0.3 s and SIGCONT at 0.5 s, by the first deadline: the stop, the SYSCALL that comes again and
/// each jump of the clock take a turn.
const A_SLEEP: &str = r"
    addiu $t0 $zero 1; sw $t0 0xFFF0 $sp; addiu $a0 $sp 0xFFF0; addiu $a1 $zero 0; addiu $v0 $zero nanosleep; syscall
    addiu $t0 $v0 0
    addiu $a0 $zero 1; addiu $a1 $sp 0xFFE0; addiu $v0 $zero clock_gettime; syscall
    addiu $a0 $zero 1; addiu $a1 $sp 0xFFE0; addiu $a2 $zero 8; addiu $v0 $zero write; syscall
    addiu $a0 $t0 0; addiu $v0 $zero exit; syscall
    file t at 300000000 kill 23\nat 800000000 kill 25\n
    out \0\0\0\x01\0\0\x23\x28
    trace 6 wait 4166 7ffeff30 00000000 00000000 00000000
    trace 8 post 23
    trace 8 signal 23 stop
    trace 9 post 25
    trace 9 cont
    trace 9 restart 4253
    trace 9 wait 4253 7ffeff30 00000000 00000000 00000000
    trace 11 done 00000000 0
    trace 15 call 4263 00000001 7ffeff20 00000000 00000000 = 00000000 0
    trace 20 call 4004 00000001 7ffeff20 00000008 00000000 = 00000008 0
    trace 23 exit 0
    o32run run --schedule t --trace trace p = exited 0 0 23

    beq $zero $zero 3; nop
    jr $ra; nop
    lui $t0 0x40; ori $t0 $t0 8; sw $t0 0xFFC4 $sp
    addiu $a0 $zero 16; addiu $a1 $sp 0xFFC0; addiu $a2 $zero 0; addiu $a3 $zero 16; addiu $v0 $zero rt_sigaction; syscall
    addiu $t0 $zero 1; sw $t0 0xFFF0 $sp; addiu $a0 $sp 0xFFF0; addiu $a1 $sp 0xFFE8; addiu $v0 $zero nanosleep; syscall
    addiu $t0 $v0 0
    addiu $a0 $zero 1; addiu $a1 $sp 0xFFE8; addiu $a2 $zero 8; addiu $v0 $zero write; syscall
    addiu $a0 $t0 0; addiu $v0 $zero exit; syscall
    file t at 500000000 kill 16\n
    out \0\0\0\0\x1D\xCD\xA3\x80
    trace 11 call 4194 00000010 7ffeff00 00000000 00000010 = 00000000 0
    trace 17 wait 4166 7ffeff30 7ffeff28 00000000 00000000
    trace 19 post 16
    trace 19 done 00000004 1
    trace 19 signal 16 handler
    trace 22 return
    trace 28 call 4004 00000001 7ffeff28 00000008 00000001 = 00000008 0
    trace 31 exit 4
    o32run run --schedule t --trace trace p = exited 4 4 31

    beq $zero $zero 3; nop
    jr $ra; nop
    lui $t0 0x40; ori $t0 $t0 8; sw $t0 0xFFC4 $sp
    addiu $a0 $zero 16; addiu $a1 $sp 0xFFC0; addiu $a2 $zero 0; addiu $a3 $zero 16; addiu $v0 $zero rt_sigaction; syscall
    addiu $t0 $zero 1; sw $t0 0xFFF0 $sp; addiu $a0 $sp 0xFFF0; addiu $a1 $sp 0xFFE8; addiu $v0 $zero nanosleep; syscall
    addiu $t0 $v0 0
    addiu $a0 $zero 1; addiu $a1 $sp 0xFFE8; addiu $a2 $zero 8; addiu $v0 $zero write; syscall
    addiu $a0 $t0 0; addiu $v0 $zero exit; syscall
    file t at 300000000 kill 23\nat 500000000 kill 25\nat 700000000 kill 16\n
    out \0\0\0\0\x11\xE1\xE1\x80
    o32run run --schedule t p = exited 4 4 34
";

/// A write of 70,000 bytes to an empty pipe puts 65,536, which is its result once a handler ends it; and so many are then in the pipe, by
/// FIONREAD of ioctl(2), 0x467F.
const A_WRITE: &str = r"
    beq $zero $zero 3; nop
    jr $ra; nop
    lui $t0 0x40; ori $t0 $t0 8; sw $t0 0xFFC4 $sp
    addiu $a0 $zero 16; addiu $a1 $sp 0xFFC0; addiu $a2 $zero 0; addiu $a3 $zero 16; addiu $v0 $zero rt_sigaction; syscall
    addiu $v0 $zero pipe; syscall
    addiu $a0 $zero 4; lui $a1 0x7F80; lui $a2 1; ori $a2 $a2 0x1170; addiu $v0 $zero write; syscall
    sw $v0 0xFFFC $sp
    addiu $a0 $zero 1; addiu $a1 $sp 0xFFFC; addiu $a2 $zero 4; addiu $v0 $zero write; syscall
    addiu $a0 $zero 0; addiu $v0 $zero exit; syscall
    file t at 1000000 kill 16\n
    out \0\x01\0\0
    o32run run --schedule t p = exited 0 0 33

    beq $zero $zero 3; nop
    jr $ra; nop
    lui $t0 0x40; ori $t0 $t0 8; sw $t0 0xFFC4 $sp
    addiu $a0 $zero 16; addiu $a1 $sp 0xFFC0; addiu $a2 $zero 0; addiu $a3 $zero 16; addiu $v0 $zero rt_sigaction; syscall
    addiu $v0 $zero pipe; syscall
    addiu $a0 $zero 4; lui $a1 0x7F80; lui $a2 1; ori $a2 $a2 0x1170; addiu $v0 $zero write; syscall
    addiu $a0 $zero 3; addiu $a1 $zero 0x467F; addiu $a2 $sp 0xFFF8; addiu $v0 $zero ioctl; syscall
    addiu $a0 $zero 1; addiu $a1 $sp 0xFFF8; addiu $a2 $zero 4; addiu $v0 $zero write; syscall
    addiu $a0 $zero 0; addiu $v0 $zero exit; syscall
    file t at 1000000 kill 16\n
    out \0\x01\0\0
    o32run run --schedule t p = exited 0 0 37
";

/// pause(2) without anything to come; and beside a timer with a period whose signal is ignored.
const PAUSES: &str = r"
    addiu $v0 $zero pause; syscall
    o32run run p = blocked 123 2

    addiu $t0 $zero 1; sw $t0 0xFFC4 $sp
    addiu $a0 $zero 14; addiu $a1 $sp 0xFFC0; addiu $a2 $zero 0; addiu $a3 $zero 16; addiu $v0 $zero rt_sigaction; syscall
    addiu $t0 $zero 1000; sw $t0 0xFFE4 $sp; sw $t0 0xFFEC $sp
    addiu $a0 $zero 0; addiu $a1 $sp 0xFFE0; addiu $a2 $zero 0; addiu $v0 $zero setitimer; syscall
    addiu $v0 $zero pause; syscall
    o32run run --budget 100 p = budget 124 100
";

/// rt_sigsuspend(2) with an empty set while 16 is blocked and pends: it is EINTR, and then 16 is blocked again.
const A_SUSPENSION: &str = r"
    beq $zero $zero 3; nop
    jr $ra; nop
    lui $t0 0x40; ori $t0 $t0 8; sw $t0 0xFFC4 $sp
    addiu $a0 $zero 16; addiu $a1 $sp 0xFFC0; addiu $a2 $zero 0; addiu $a3 $zero 16; addiu $v0 $zero rt_sigaction; syscall
    ori $t0 $zero 0x8000; sw $t0 0xFFE0 $sp
    addiu $a0 $zero 1; addiu $a1 $sp 0xFFE0; addiu $a2 $zero 0; addiu $a3 $zero 16; addiu $v0 $zero rt_sigprocmask; syscall
    addiu $a0 $zero 100; addiu $a1 $zero 16; addiu $v0 $zero kill; syscall
    addiu $a0 $sp 0xFFD0; addiu $a1 $zero 16; addiu $v0 $zero rt_sigsuspend; syscall
    addiu $t0 $v0 0
    addiu $a0 $zero 1; addiu $a1 $zero 0; addiu $a2 $sp 0xFFC0; addiu $a3 $zero 16; addiu $v0 $zero rt_sigprocmask; syscall
    addiu $a0 $zero 1; addiu $a1 $sp 0xFFC0; addiu $a2 $zero 4; addiu $v0 $zero write; syscall
    addiu $a0 $t0 0; addiu $v0 $zero exit; syscall
    out \0\0\x80\0
    o32run run p = exited 4 4 46
";

#[test]
fn a_read(rt: HostRuntime) -> Result<(), Fail> {
    assert_eq!(rt; first_wrong(rt.alloc(), "", A_READ)?, None);
    Ok(())
}

#[test]
fn a_sleep(rt: HostRuntime) -> Result<(), Fail> {
    assert_eq!(rt; first_wrong(rt.alloc(), "", A_SLEEP)?, None);
    Ok(())
}

#[test]
fn a_write(rt: HostRuntime) -> Result<(), Fail> {
    assert_eq!(rt; first_wrong(rt.alloc(), "", A_WRITE)?, None);
    Ok(())
}

#[test]
fn suspensions(rt: HostRuntime) -> Result<(), Fail> {
    assert_eq!(rt; first_wrong(rt.alloc(), "", PAUSES)?, None);
    assert_eq!(rt; first_wrong(rt.alloc(), "", A_SUSPENSION)?, None);
    Ok(())
}
