//! rt_sigtimedwait(2): which signal it accepts, what it tells, and how its waits end.
use session_scripts::first_wrong;
use std::test::Fail;

/// SIGALRM, 14, and SIGUSR1, 16, pend, the second sent first; then SIGPIPE, 13, and SIGSYS, 12, whose native number, 31, is the higher one.
/// The lowest is accepted, and after it the other.
const PENDING: &str = r"
    ori $t0 $zero 0xA000; sw $t0 0xFFC0 $sp
    addiu $a0 $zero 1; addiu $a1 $sp 0xFFC0; addiu $a2 $zero 0; addiu $a3 $zero 16; addiu $v0 $zero rt_sigprocmask; syscall
    addiu $a0 $zero 100; addiu $a1 $zero 16; addiu $v0 $zero kill; syscall
    addiu $a1 $zero 14; addiu $v0 $zero kill; syscall
    addiu $a0 $sp 0xFFC0; addiu $a1 $zero 0; addiu $a2 $zero 0; addiu $a3 $zero 16; addiu $v0 $zero rt_sigtimedwait; syscall
    addiu $a0 $v0 0; addiu $v0 $zero exit; syscall
    o32run run p = exited 14 14 24

    addiu $t0 $zero 0x1800; sw $t0 0xFFC0 $sp
    addiu $a0 $zero 1; addiu $a1 $sp 0xFFC0; addiu $a2 $zero 0; addiu $a3 $zero 16; addiu $v0 $zero rt_sigprocmask; syscall
    addiu $a0 $zero 100; addiu $a1 $zero 13; addiu $v0 $zero kill; syscall
    addiu $a1 $zero 12; addiu $v0 $zero kill; syscall
    addiu $a0 $sp 0xFFC0; addiu $a1 $zero 0; addiu $a2 $zero 0; addiu $a3 $zero 16; addiu $v0 $zero rt_sigtimedwait; syscall
    addiu $a3 $zero 16; addiu $v0 $zero rt_sigtimedwait; syscall
    addiu $a0 $v0 0; addiu $v0 $zero exit; syscall
    trace 8 call 4195 00000001 7ffeff00 00000000 00000010 = 00000000 0
    trace 12 call 4037 00000064 0000000d 00000000 00000000 = 00000000 0
    trace 15 call 4037 00000064 0000000c 00000000 00000000 = 00000000 0
    trace 21 call 4197 7ffeff00 00000000 00000000 00000010 = 0000000c 0
    trace 24 call 4197 7ffeff00 00000000 00000000 00000010 = 0000000d 0
    trace 27 exit 13
    o32run run --trace trace p = exited 13 13 27
";

/// EINVAL is 22, EFAULT 14, EAGAIN 11: another size than 16, before the set is read; no set and no time there; 1,000,000,000 nanoseconds, and
/// seconds and nanoseconds below 0; and nothing pends, by a time of 0 and of 999,999,999 nanoseconds. A time that is none is refused though
/// a signal pends, which stays. Where what is known of a signal can't be stored it is gone.
const REFUSED: &str = r"
    lui $a0 0x50; addiu $a1 $zero 0; addiu $a2 $zero 0; addiu $a3 $zero 8; addiu $v0 $zero rt_sigtimedwait; syscall
    addiu $a0 $v0 0; addiu $v0 $zero exit; syscall
    o32run run p = exited 22 22 9

    lui $a0 0x50; addiu $a1 $zero 0; addiu $a2 $zero 0; addiu $a3 $zero 16; addiu $v0 $zero rt_sigtimedwait; syscall
    addiu $a0 $v0 0; addiu $v0 $zero exit; syscall
    o32run run p = exited 14 14 9

    addiu $a0 $sp 0xFFC0; addiu $a1 $zero 0; lui $a2 0x50; addiu $a3 $zero 16; addiu $v0 $zero rt_sigtimedwait; syscall
    addiu $a0 $v0 0; addiu $v0 $zero exit; syscall
    o32run run p = exited 14 14 9

    lui $t0 0x3B9A; ori $t0 $t0 0xCA00; sw $t0 0xFFE4 $sp
    addiu $a0 $sp 0xFFC0; addiu $a1 $zero 0; addiu $a2 $sp 0xFFE0; addiu $a3 $zero 16; addiu $v0 $zero rt_sigtimedwait; syscall
    addiu $a0 $v0 0; addiu $v0 $zero exit; syscall
    o32run run p = exited 22 22 12

    lui $t0 0x3B9A; ori $t0 $t0 0xC9FF; sw $t0 0xFFE4 $sp
    addiu $a0 $sp 0xFFC0; addiu $a1 $zero 0; addiu $a2 $sp 0xFFE0; addiu $a3 $zero 16; addiu $v0 $zero rt_sigtimedwait; syscall
    addiu $a0 $v0 0; addiu $v0 $zero exit; syscall
    trace 9 wait 4197 7ffeff00 00000000 7ffeff20 00000010
    trace 11 done 0000000b 1
    trace 13 exit 11
    o32run run --trace trace p = exited 11 11 13

    addiu $t0 $zero 0xFFFF; sw $t0 0xFFE0 $sp
    addiu $a0 $sp 0xFFC0; addiu $a1 $zero 0; addiu $a2 $sp 0xFFE0; addiu $a3 $zero 16; addiu $v0 $zero rt_sigtimedwait; syscall
    addiu $a0 $v0 0; addiu $v0 $zero exit; syscall
    o32run run p = exited 22 22 11

    addiu $t0 $zero 0xFFFF; sw $t0 0xFFE4 $sp
    addiu $a0 $sp 0xFFC0; addiu $a1 $zero 0; addiu $a2 $sp 0xFFE0; addiu $a3 $zero 16; addiu $v0 $zero rt_sigtimedwait; syscall
    addiu $a0 $v0 0; addiu $v0 $zero exit; syscall
    o32run run p = exited 22 22 11

    addiu $a0 $sp 0xFFC0; addiu $a1 $zero 0; addiu $a2 $sp 0xFFE0; addiu $a3 $zero 16; addiu $v0 $zero rt_sigtimedwait; syscall
    addiu $a0 $v0 0; addiu $v0 $zero exit; syscall
    o32run run p = exited 11 11 9

    ori $t0 $zero 0x8000; sw $t0 0xFFC0 $sp; lui $t0 0x8000; sw $t0 0xFFE0 $sp
    addiu $a0 $zero 1; addiu $a1 $sp 0xFFC0; addiu $a2 $zero 0; addiu $a3 $zero 16; addiu $v0 $zero rt_sigprocmask; syscall
    addiu $a0 $zero 100; addiu $a1 $zero 16; addiu $v0 $zero kill; syscall
    addiu $a0 $sp 0xFFC0; addiu $a1 $zero 0; addiu $a2 $sp 0xFFE0; addiu $a3 $zero 16; addiu $v0 $zero rt_sigtimedwait; syscall
    addiu $a2 $zero 0; addiu $a3 $zero 16; addiu $v0 $zero rt_sigtimedwait; syscall
    addiu $a0 $v0 0; addiu $v0 $zero exit; syscall
    trace 10 call 4195 00000001 7ffeff00 00000000 00000010 = 00000000 0
    trace 14 call 4037 00000064 00000010 00000000 00000000 = 00000000 0
    trace 20 call 4197 7ffeff00 00000000 7ffeff20 00000010 = 00000016 1
    trace 24 call 4197 7ffeff00 00000000 00000000 00000010 = 00000010 0
    trace 27 exit 16
    o32run run --trace trace p = exited 16 16 27

    ori $t0 $zero 0x8000; sw $t0 0xFFC0 $sp
    addiu $a0 $zero 1; addiu $a1 $sp 0xFFC0; addiu $a2 $zero 0; addiu $a3 $zero 16; addiu $v0 $zero rt_sigprocmask; syscall
    addiu $a0 $zero 100; addiu $a1 $zero 16; addiu $v0 $zero kill; syscall
    addiu $a0 $sp 0xFFC0; lui $a1 0x50; addiu $a2 $sp 0xFFE0; addiu $a3 $zero 16; addiu $v0 $zero rt_sigtimedwait; syscall
    addiu $a3 $zero 16; addiu $v0 $zero rt_sigtimedwait; syscall
    addiu $a0 $v0 0; addiu $v0 $zero exit; syscall
    trace 8 call 4195 00000001 7ffeff00 00000000 00000010 = 00000000 0
    trace 12 call 4037 00000064 00000010 00000000 00000000 = 00000000 0
    trace 18 call 4197 7ffeff00 00500000 7ffeff20 00000010 = 0000000e 1
    trace 21 call 4197 7ffeff00 00500000 7ffeff20 00000010 = 0000000b 1
    trace 24 exit 11
    o32run run --trace trace p = exited 11 11 24
";

/// Signals come while the call waits: the real-time one 34 with the value 5, of which 128 bytes are told, here their first 32; SIGALRM of a
/// timer, ignored and not blocked; SIGCONT, 25, which by default does nothing; SIGUSR1, 16, which has a handler, but is accepted before it is
/// delivered.
const COMES: &str = r"
    addiu $t0 $zero 2; sw $t0 0xFFC4 $sp
    addiu $a0 $zero 1; addiu $a1 $sp 0xFFC0; addiu $a2 $zero 0; addiu $a3 $zero 16; addiu $v0 $zero rt_sigprocmask; syscall
    addiu $a0 $sp 0xFFC0; addiu $a1 $sp 0xFF00; addiu $a2 $zero 0; addiu $a3 $zero 16; addiu $v0 $zero rt_sigtimedwait; syscall
    addiu $a0 $zero 1; addiu $a1 $sp 0xFF00; addiu $a2 $zero 32; addiu $v0 $zero write; syscall
    addiu $a0 $zero 0; addiu $v0 $zero exit; syscall
    file t at 1000000 queue 34 5\n
    out \0\0\0\x22\xFF\xFF\xFF\xFF\0\0\0\0\0\0\0\x01\0\0\0\0\0\0\0\x05\0\0\0\0\0\0\0\0
    trace 8 call 4195 00000001 7ffeff00 00000000 00000010 = 00000000 0
    trace 14 wait 4197 7ffeff00 7ffefe40 00000000 00000010
    trace 16 post 34
    trace 16 done 00000022 0
    trace 20 call 4004 00000001 7ffefe40 00000020 00000000 = 00000020 0
    trace 23 exit 0
    o32run run --schedule t --trace trace p = exited 0 0 23

    addiu $t0 $zero 1; sw $t0 0xFFC4 $sp
    addiu $a0 $zero 14; addiu $a1 $sp 0xFFC0; addiu $a2 $zero 0; addiu $a3 $zero 16; addiu $v0 $zero rt_sigaction; syscall
    addiu $t0 $zero 1000; sw $t0 0xFFEC $sp
    addiu $a0 $zero 0; addiu $a1 $sp 0xFFE0; addiu $a2 $zero 0; addiu $v0 $zero setitimer; syscall
    addiu $t0 $zero 0x2000; sw $t0 0xFF80 $sp
    addiu $a0 $sp 0xFF80; addiu $a1 $zero 0; addiu $a2 $zero 0; addiu $a3 $zero 16; addiu $v0 $zero rt_sigtimedwait; syscall
    addiu $a0 $v0 0; addiu $v0 $zero exit; syscall
    trace 8 call 4194 0000000e 7ffeff00 00000000 00000010 = 00000000 0
    trace 15 call 4104 00000000 7ffeff20 00000000 00000000 = 00000000 0
    trace 23 wait 4197 7ffefec0 00000000 00000000 00000010
    trace 25 post 14
    trace 25 done 0000000e 0
    trace 27 exit 14
    o32run run --trace trace p = exited 14 14 27

    lui $t0 0x100; sw $t0 0xFFC0 $sp
    addiu $a0 $sp 0xFFC0; addiu $a1 $zero 0; addiu $a2 $zero 0; addiu $a3 $zero 16; addiu $v0 $zero rt_sigtimedwait; syscall
    addiu $a0 $v0 0; addiu $v0 $zero exit; syscall
    file t at 1000000 kill 18\nat 2000000 kill 25\n
    trace 8 wait 4197 7ffeff00 00000000 00000000 00000010
    trace 10 post 18
    trace 11 post 25
    trace 11 done 00000019 0
    trace 13 exit 25
    o32run run --schedule t --trace trace p = exited 25 25 13

    beq $zero $zero 3; nop
    jr $ra; nop
    lui $t0 0x40; ori $t0 $t0 8; sw $t0 0xFFC4 $sp
    addiu $a0 $zero 16; addiu $a1 $sp 0xFFC0; addiu $a2 $zero 0; addiu $a3 $zero 16; addiu $v0 $zero rt_sigaction; syscall
    ori $t0 $zero 0x8000; sw $t0 0xFF80 $sp
    addiu $a0 $sp 0xFF80; addiu $a1 $zero 0; addiu $a2 $zero 0; addiu $a3 $zero 16; addiu $v0 $zero rt_sigtimedwait; syscall
    addiu $a0 $v0 0; addiu $v0 $zero exit; syscall
    file t at 1000000 kill 16\n
    trace 11 call 4194 00000010 7ffeff00 00000000 00000010 = 00000000 0
    trace 19 wait 4197 7ffefec0 00000000 00000000 00000010
    trace 21 post 16
    trace 21 done 00000010 0
    trace 23 exit 16
    o32run run --schedule t --trace trace p = exited 16 16 23
";

/// Ends with EINTR, 4: by the handler of a signal that is not waited for, with and without SA_RESTART, and by a stop and SIGCONT, where the
/// set has SIGSTOP, 23, in vain. What is ignored is dropped while a stop interrupts the wait. SIGKILL kills, though the set has it.
const ENDS: &str = r"
    beq $zero $zero 3; nop
    jr $ra; nop
    lui $t0 0x1000; sw $t0 0xFFC0 $sp
    lui $t0 0x40; ori $t0 $t0 8; sw $t0 0xFFC4 $sp
    addiu $a0 $zero 16; addiu $a1 $sp 0xFFC0; addiu $a2 $zero 0; addiu $a3 $zero 16; addiu $v0 $zero rt_sigaction; syscall
    addiu $t0 $zero 0x2000; sw $t0 0xFF80 $sp
    addiu $a0 $sp 0xFF80; addiu $a1 $zero 0; addiu $a2 $zero 0; addiu $a3 $zero 16; addiu $v0 $zero rt_sigtimedwait; syscall
    addiu $a0 $v0 0; addiu $v0 $zero exit; syscall
    file t at 1000000 kill 16\n
    trace 13 call 4194 00000010 7ffeff00 00000000 00000010 = 00000000 0
    trace 21 wait 4197 7ffefec0 00000000 00000000 00000010
    trace 23 post 16
    trace 23 done 00000004 1
    trace 23 signal 16 handler
    trace 26 return
    trace 29 exit 4
    o32run run --schedule t --trace trace p = exited 4 4 29

    beq $zero $zero 3; nop
    jr $ra; nop
    lui $t0 0x40; ori $t0 $t0 8; sw $t0 0xFFC4 $sp
    addiu $a0 $zero 16; addiu $a1 $sp 0xFFC0; addiu $a2 $zero 0; addiu $a3 $zero 16; addiu $v0 $zero rt_sigaction; syscall
    addiu $t0 $zero 0x2000; sw $t0 0xFF80 $sp
    addiu $a0 $sp 0xFF80; addiu $a1 $zero 0; addiu $a2 $zero 0; addiu $a3 $zero 16; addiu $v0 $zero rt_sigtimedwait; syscall
    addiu $a0 $v0 0; addiu $v0 $zero exit; syscall
    file t at 1000000 kill 16\n
    trace 11 call 4194 00000010 7ffeff00 00000000 00000010 = 00000000 0
    trace 19 wait 4197 7ffefec0 00000000 00000000 00000010
    trace 21 post 16
    trace 21 done 00000004 1
    trace 21 signal 16 handler
    trace 24 return
    trace 27 exit 4
    o32run run --schedule t --trace trace p = exited 4 4 27

    lui $t0 0x40; sw $t0 0xFFC0 $sp
    addiu $a0 $sp 0xFFC0; addiu $a1 $zero 0; addiu $a2 $zero 0; addiu $a3 $zero 16; addiu $v0 $zero rt_sigtimedwait; syscall
    addiu $a0 $v0 0; addiu $v0 $zero exit; syscall
    file t at 1000000 kill 23\nat 2000000 kill 25\n
    trace 8 wait 4197 7ffeff00 00000000 00000000 00000010
    trace 10 post 23
    trace 10 signal 23 stop
    trace 11 post 25
    trace 11 cont
    trace 11 done 00000004 1
    trace 13 exit 4
    o32run run --schedule t --trace trace p = exited 4 4 13

    addiu $t0 $zero 1; sw $t0 0xFFC4 $sp
    addiu $a0 $zero 16; addiu $a1 $sp 0xFFC0; addiu $a2 $zero 0; addiu $a3 $zero 16; addiu $v0 $zero rt_sigaction; syscall
    ori $t0 $zero 0x8000; sw $t0 0xFF80 $sp
    addiu $a0 $sp 0xFF80; addiu $a1 $zero 0; addiu $a2 $zero 0; addiu $a3 $zero 16; addiu $v0 $zero rt_sigtimedwait; syscall
    addiu $a0 $v0 0; addiu $v0 $zero exit; syscall
    file t at 1000000 kill 23\nat 2000000 kill 16\nat 3000000 kill 25\n
    trace 8 call 4194 00000010 7ffeff00 00000000 00000010 = 00000000 0
    trace 16 wait 4197 7ffefec0 00000000 00000000 00000010
    trace 18 post 23
    trace 18 signal 23 stop
    trace 19 post 16
    trace 20 post 25
    trace 20 cont
    trace 20 done 00000004 1
    trace 22 exit 4
    o32run run --schedule t --trace trace p = exited 4 4 22

    addiu $t0 $zero 0xFFFF; sw $t0 0xFFC0 $sp
    addiu $a0 $sp 0xFFC0; addiu $a1 $zero 0; addiu $a2 $zero 0; addiu $a3 $zero 16; addiu $v0 $zero rt_sigtimedwait; syscall
    file t at 1000000 kill 9\n
    trace 8 wait 4197 7ffeff00 00000000 00000000 00000010
    trace 10 post 9
    trace 10 killed 9
    o32run run --schedule t --trace trace p = killed 9 137 10
";

#[test]
fn pending(rt: HostRuntime) -> Result<(), Fail> {
    assert_eq!(rt; first_wrong(rt.alloc(), "", PENDING)?, None);
    assert_eq!(rt; first_wrong(rt.alloc(), "", REFUSED)?, None);
    Ok(())
}

#[test]
fn awaited(rt: HostRuntime) -> Result<(), Fail> {
    assert_eq!(rt; first_wrong(rt.alloc(), "", COMES)?, None);
    assert_eq!(rt; first_wrong(rt.alloc(), "", ENDS)?, None);
    Ok(())
}
