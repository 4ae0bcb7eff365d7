//! The ends of the waits of poll(2), ppoll(2), select(2) and pselect(2), cell by cell of their table: by a handler with and without
//! SA_RESTART, which is EINTR, 4, by either; by a stop and SIGCONT without one; by the deadline; and by a handler behind a stop, and one
//! whose signal came while the process was stopped. Where a signal comes at the deadline, the call has ended before its handler.
//!
//! Each waits a second for an empty pipe. The clock jumps to the signal's time and to the deadline in turns of their own, and so it does
//! while the process is stopped. A handler returns in its fourth turn. The clock is told four turns behind the end of a wait.
use session_scripts::first_wrong;
use std::test::Fail;

/// poll(2) goes on by restart_syscall(2), 4253, behind a stop, to the same deadline; and behind that there is nothing left to go on with.
const POLLS: &str = r"
    beq $zero $zero 3; nop
    jr $ra; nop
    lui $t0 0x1000; sw $t0 0xFFC0 $sp
    lui $t0 0x40; ori $t0 $t0 8; sw $t0 0xFFC4 $sp
    addiu $a0 $zero 16; addiu $a1 $sp 0xFFC0; addiu $a2 $zero 0; addiu $a3 $zero 16; addiu $v0 $zero rt_sigaction; syscall
    addiu $v0 $zero pipe; syscall
    addiu $t0 $zero 3; sw $t0 0xFF80 $sp; lui $t0 0x1; sw $t0 0xFF84 $sp
    addiu $a0 $sp 0xFF80; addiu $a1 $zero 1; addiu $a2 $zero 1000; addiu $v0 $zero poll; syscall
    addiu $a0 $v0 0; addiu $v0 $zero exit; syscall
    file t at 500000000 kill 16\n
    trace 13 call 4194 00000010 7ffeff00 00000000 00000010 = 00000000 0
    trace 15 call 4042 00000010 7ffeff00 00000000 00000000 = 00000003 0
    trace 24 wait 4188 7ffefec0 00000001 000003e8 00000000
    trace 26 post 16
    trace 26 done 00000004 1
    trace 26 signal 16 handler
    trace 29 return
    trace 32 exit 4
    o32run run --schedule t --trace trace p = exited 4 4 32

    beq $zero $zero 3; nop
    jr $ra; nop
    lui $t0 0x40; ori $t0 $t0 8; sw $t0 0xFFC4 $sp
    addiu $a0 $zero 16; addiu $a1 $sp 0xFFC0; addiu $a2 $zero 0; addiu $a3 $zero 16; addiu $v0 $zero rt_sigaction; syscall
    addiu $v0 $zero pipe; syscall
    addiu $t0 $zero 3; sw $t0 0xFF80 $sp; lui $t0 0x1; sw $t0 0xFF84 $sp
    addiu $a0 $sp 0xFF80; addiu $a1 $zero 1; addiu $a2 $zero 1000; addiu $v0 $zero poll; syscall
    addiu $a0 $v0 0; addiu $v0 $zero exit; syscall
    file t at 500000000 kill 16\n
    trace 11 call 4194 00000010 7ffeff00 00000000 00000010 = 00000000 0
    trace 13 call 4042 00000010 7ffeff00 00000000 00000000 = 00000003 0
    trace 22 wait 4188 7ffefec0 00000001 000003e8 00000000
    trace 24 post 16
    trace 24 done 00000004 1
    trace 24 signal 16 handler
    trace 27 return
    trace 30 exit 4
    o32run run --schedule t --trace trace p = exited 4 4 30

    addiu $v0 $zero pipe; syscall
    addiu $t0 $zero 3; sw $t0 0xFF80 $sp; lui $t0 0x1; sw $t0 0xFF84 $sp
    addiu $a0 $sp 0xFF80; addiu $a1 $zero 1; addiu $a2 $zero 1000; addiu $v0 $zero poll; syscall
    addiu $t0 $v0 0
    addiu $a0 $zero 1; addiu $a1 $sp 0xFFE0; addiu $v0 $zero clock_gettime; syscall
    addiu $a0 $zero 1; addiu $a1 $sp 0xFFE0; addiu $a2 $zero 8; addiu $v0 $zero write; syscall
    addiu $a0 $t0 0; addiu $v0 $zero exit; syscall
    file t at 300000000 kill 23\nat 800000000 kill 25\n
    out \0\0\0\x01\0\06\xB0
    trace 2 call 4042 00000000 00000000 00000000 00000000 = 00000003 0
    trace 11 wait 4188 7ffefec0 00000001 000003e8 00000000
    trace 13 post 23
    trace 13 signal 23 stop
    trace 14 post 25
    trace 14 cont
    trace 14 restart 4253
    trace 14 wait 4253 7ffefec0 00000001 000003e8 00000000
    trace 16 done 00000000 0
    trace 20 call 4263 00000001 7ffeff20 000003e8 00000000 = 00000000 0
    trace 25 call 4004 00000001 7ffeff20 00000008 00000000 = 00000008 0
    trace 28 exit 0
    o32run run --schedule t --trace trace p = exited 0 0 28

    addiu $v0 $zero pipe; syscall
    addiu $t0 $zero 3; sw $t0 0xFF80 $sp; lui $t0 0x1; sw $t0 0xFF84 $sp
    addiu $a0 $sp 0xFF80; addiu $a1 $zero 1; addiu $a2 $zero 1000; addiu $v0 $zero poll; syscall
    addiu $t0 $v0 0
    addiu $a0 $zero 1; addiu $a1 $sp 0xFFE0; addiu $v0 $zero clock_gettime; syscall
    addiu $a0 $zero 1; addiu $a1 $sp 0xFFE0; addiu $a2 $zero 8; addiu $v0 $zero write; syscall
    addiu $a0 $t0 0; addiu $v0 $zero exit; syscall
    out \0\0\0\x01\0\06\xB0
    trace 2 call 4042 00000000 00000000 00000000 00000000 = 00000003 0
    trace 11 wait 4188 7ffefec0 00000001 000003e8 00000000
    trace 13 done 00000000 0
    trace 17 call 4263 00000001 7ffeff20 000003e8 00000000 = 00000000 0
    trace 22 call 4004 00000001 7ffeff20 00000008 00000000 = 00000008 0
    trace 25 exit 0
    o32run run --trace trace p = exited 0 0 25

    beq $zero $zero 3; nop
    jr $ra; nop
    lui $t0 0x1000; sw $t0 0xFFC0 $sp
    lui $t0 0x40; ori $t0 $t0 8; sw $t0 0xFFC4 $sp
    addiu $a0 $zero 16; addiu $a1 $sp 0xFFC0; addiu $a2 $zero 0; addiu $a3 $zero 16; addiu $v0 $zero rt_sigaction; syscall
    addiu $v0 $zero pipe; syscall
    addiu $t0 $zero 3; sw $t0 0xFF80 $sp; lui $t0 0x1; sw $t0 0xFF84 $sp
    addiu $a0 $sp 0xFF80; addiu $a1 $zero 1; addiu $a2 $zero 1000; addiu $v0 $zero poll; syscall
    addiu $a0 $v0 0; addiu $v0 $zero exit; syscall
    file t at 300000000 kill 23\nat 500000000 kill 25\nat 700000000 kill 16\n
    trace 13 call 4194 00000010 7ffeff00 00000000 00000010 = 00000000 0
    trace 15 call 4042 00000010 7ffeff00 00000000 00000000 = 00000003 0
    trace 24 wait 4188 7ffefec0 00000001 000003e8 00000000
    trace 26 post 23
    trace 26 signal 23 stop
    trace 27 post 25
    trace 27 cont
    trace 27 restart 4253
    trace 27 wait 4253 7ffefec0 00000001 000003e8 00000000
    trace 29 post 16
    trace 29 done 00000004 1
    trace 29 signal 16 handler
    trace 32 return
    trace 35 exit 4
    o32run run --schedule t --trace trace p = exited 4 4 35

    beq $zero $zero 3; nop
    jr $ra; nop
    lui $t0 0x1000; sw $t0 0xFFC0 $sp
    lui $t0 0x40; ori $t0 $t0 8; sw $t0 0xFFC4 $sp
    addiu $a0 $zero 16; addiu $a1 $sp 0xFFC0; addiu $a2 $zero 0; addiu $a3 $zero 16; addiu $v0 $zero rt_sigaction; syscall
    addiu $v0 $zero pipe; syscall
    addiu $t0 $zero 3; sw $t0 0xFF80 $sp; lui $t0 0x1; sw $t0 0xFF84 $sp
    addiu $a0 $sp 0xFF80; addiu $a1 $zero 1; addiu $a2 $zero 1000; addiu $v0 $zero poll; syscall
    addiu $a0 $v0 0; addiu $v0 $zero exit; syscall
    file t at 300000000 kill 23\nat 500000000 kill 16\nat 700000000 kill 25\n
    trace 13 call 4194 00000010 7ffeff00 00000000 00000010 = 00000000 0
    trace 15 call 4042 00000010 7ffeff00 00000000 00000000 = 00000003 0
    trace 24 wait 4188 7ffefec0 00000001 000003e8 00000000
    trace 26 post 23
    trace 26 signal 23 stop
    trace 27 post 16
    trace 28 post 25
    trace 28 cont
    trace 28 done 00000004 1
    trace 28 signal 16 handler
    trace 31 return
    trace 34 exit 4
    o32run run --schedule t --trace trace p = exited 4 4 34

    beq $zero $zero 3; nop
    jr $ra; nop
    lui $t0 0x1000; sw $t0 0xFFC0 $sp
    lui $t0 0x40; ori $t0 $t0 8; sw $t0 0xFFC4 $sp
    addiu $a0 $zero 16; addiu $a1 $sp 0xFFC0; addiu $a2 $zero 0; addiu $a3 $zero 16; addiu $v0 $zero rt_sigaction; syscall
    addiu $v0 $zero pipe; syscall
    addiu $t0 $zero 3; sw $t0 0xFF80 $sp; lui $t0 0x1; sw $t0 0xFF84 $sp
    addiu $a0 $sp 0xFF80; addiu $a1 $zero 1; addiu $a2 $zero 1000; addiu $v0 $zero poll; syscall
    addiu $a0 $v0 0; addiu $v0 $zero exit; syscall
    file t at 1000023000 kill 16\n
    trace 13 call 4194 00000010 7ffeff00 00000000 00000010 = 00000000 0
    trace 15 call 4042 00000010 7ffeff00 00000000 00000000 = 00000003 0
    trace 24 wait 4188 7ffefec0 00000001 000003e8 00000000
    trace 26 post 16
    trace 26 done 00000000 0
    trace 26 signal 16 handler
    trace 29 return
    trace 32 exit 0
    o32run run --schedule t --trace trace p = exited 0 0 32

    addiu $v0 $zero pipe; syscall
    addiu $t0 $zero 3; sw $t0 0xFF80 $sp; lui $t0 0x1; sw $t0 0xFF84 $sp
    addiu $a0 $sp 0xFF80; addiu $a1 $zero 1; addiu $a2 $zero 1000; addiu $v0 $zero poll; syscall
    addiu $v0 $zero 4253; syscall
    addiu $a0 $v0 0; addiu $v0 $zero exit; syscall
    file t at 300000000 kill 23\nat 800000000 kill 25\n
    trace 2 call 4042 00000000 00000000 00000000 00000000 = 00000003 0
    trace 11 wait 4188 7ffefec0 00000001 000003e8 00000000
    trace 13 post 23
    trace 13 signal 23 stop
    trace 14 post 25
    trace 14 cont
    trace 14 restart 4253
    trace 14 wait 4253 7ffefec0 00000001 000003e8 00000000
    trace 16 done 00000000 0
    trace 17 call 4253 7ffefec0 00000001 000003e8 00000000 = 00000004 1
    trace 20 exit 4
    o32run run --schedule t --trace trace p = exited 4 4 20
";

/// ppoll(2) is carried out again behind a stop, with the time that it stored as left, so to the same deadline.
const PPOLLS: &str = r"
    beq $zero $zero 3; nop
    jr $ra; nop
    lui $t0 0x1000; sw $t0 0xFFC0 $sp
    lui $t0 0x40; ori $t0 $t0 8; sw $t0 0xFFC4 $sp
    addiu $a0 $zero 16; addiu $a1 $sp 0xFFC0; addiu $a2 $zero 0; addiu $a3 $zero 16; addiu $v0 $zero rt_sigaction; syscall
    addiu $v0 $zero pipe; syscall
    addiu $t0 $zero 3; sw $t0 0xFF80 $sp; lui $t0 0x1; sw $t0 0xFF84 $sp
    addiu $t0 $zero 1; sw $t0 0xFFF0 $sp
    sw $zero 16 $sp
    addiu $a0 $sp 0xFF80; addiu $a1 $zero 1; addiu $a2 $sp 0xFFF0; addiu $a3 $zero 0; addiu $v0 $zero ppoll; syscall
    addiu $a0 $v0 0; addiu $v0 $zero exit; syscall
    file t at 500000000 kill 16\n
    trace 13 call 4194 00000010 7ffeff00 00000000 00000010 = 00000000 0
    trace 15 call 4042 00000010 7ffeff00 00000000 00000000 = 00000003 0
    trace 28 wait 4302 7ffefec0 00000001 7ffeff30 00000000
    trace 30 post 16
    trace 30 done 00000004 1
    trace 30 signal 16 handler
    trace 33 return
    trace 36 exit 4
    o32run run --schedule t --trace trace p = exited 4 4 36

    beq $zero $zero 3; nop
    jr $ra; nop
    lui $t0 0x40; ori $t0 $t0 8; sw $t0 0xFFC4 $sp
    addiu $a0 $zero 16; addiu $a1 $sp 0xFFC0; addiu $a2 $zero 0; addiu $a3 $zero 16; addiu $v0 $zero rt_sigaction; syscall
    addiu $v0 $zero pipe; syscall
    addiu $t0 $zero 3; sw $t0 0xFF80 $sp; lui $t0 0x1; sw $t0 0xFF84 $sp
    addiu $t0 $zero 1; sw $t0 0xFFF0 $sp
    sw $zero 16 $sp
    addiu $a0 $sp 0xFF80; addiu $a1 $zero 1; addiu $a2 $sp 0xFFF0; addiu $a3 $zero 0; addiu $v0 $zero ppoll; syscall
    addiu $a0 $v0 0; addiu $v0 $zero exit; syscall
    file t at 500000000 kill 16\n
    trace 11 call 4194 00000010 7ffeff00 00000000 00000010 = 00000000 0
    trace 13 call 4042 00000010 7ffeff00 00000000 00000000 = 00000003 0
    trace 26 wait 4302 7ffefec0 00000001 7ffeff30 00000000
    trace 28 post 16
    trace 28 done 00000004 1
    trace 28 signal 16 handler
    trace 31 return
    trace 34 exit 4
    o32run run --schedule t --trace trace p = exited 4 4 34

    addiu $v0 $zero pipe; syscall
    addiu $t0 $zero 3; sw $t0 0xFF80 $sp; lui $t0 0x1; sw $t0 0xFF84 $sp
    addiu $t0 $zero 1; sw $t0 0xFFF0 $sp
    sw $zero 16 $sp
    addiu $a0 $sp 0xFF80; addiu $a1 $zero 1; addiu $a2 $sp 0xFFF0; addiu $a3 $zero 0; addiu $v0 $zero ppoll; syscall
    addiu $t0 $v0 0
    addiu $a0 $zero 1; addiu $a1 $sp 0xFFE0; addiu $v0 $zero clock_gettime; syscall
    addiu $a0 $zero 1; addiu $a1 $sp 0xFFE0; addiu $a2 $zero 8; addiu $v0 $zero write; syscall
    addiu $a0 $t0 0; addiu $v0 $zero exit; syscall
    file t at 300000000 kill 23\nat 800000000 kill 25\n
    out \0\0\0\x01\0\0FP
    trace 2 call 4042 00000000 00000000 00000000 00000000 = 00000003 0
    trace 15 wait 4302 7ffefec0 00000001 7ffeff30 00000000
    trace 17 post 23
    trace 17 signal 23 stop
    trace 18 post 25
    trace 18 cont
    trace 18 restart 4302
    trace 18 wait 4302 7ffefec0 00000001 7ffeff30 00000000
    trace 20 done 00000000 0
    trace 24 call 4263 00000001 7ffeff20 7ffeff30 00000000 = 00000000 0
    trace 29 call 4004 00000001 7ffeff20 00000008 00000000 = 00000008 0
    trace 32 exit 0
    o32run run --schedule t --trace trace p = exited 0 0 32

    addiu $v0 $zero pipe; syscall
    addiu $t0 $zero 3; sw $t0 0xFF80 $sp; lui $t0 0x1; sw $t0 0xFF84 $sp
    addiu $t0 $zero 1; sw $t0 0xFFF0 $sp
    sw $zero 16 $sp
    addiu $a0 $sp 0xFF80; addiu $a1 $zero 1; addiu $a2 $sp 0xFFF0; addiu $a3 $zero 0; addiu $v0 $zero ppoll; syscall
    addiu $t0 $v0 0
    addiu $a0 $zero 1; addiu $a1 $sp 0xFFE0; addiu $v0 $zero clock_gettime; syscall
    addiu $a0 $zero 1; addiu $a1 $sp 0xFFE0; addiu $a2 $zero 8; addiu $v0 $zero write; syscall
    addiu $a0 $t0 0; addiu $v0 $zero exit; syscall
    out \0\0\0\x01\0\0FP
    trace 2 call 4042 00000000 00000000 00000000 00000000 = 00000003 0
    trace 15 wait 4302 7ffefec0 00000001 7ffeff30 00000000
    trace 17 done 00000000 0
    trace 21 call 4263 00000001 7ffeff20 7ffeff30 00000000 = 00000000 0
    trace 26 call 4004 00000001 7ffeff20 00000008 00000000 = 00000008 0
    trace 29 exit 0
    o32run run --trace trace p = exited 0 0 29

    beq $zero $zero 3; nop
    jr $ra; nop
    lui $t0 0x1000; sw $t0 0xFFC0 $sp
    lui $t0 0x40; ori $t0 $t0 8; sw $t0 0xFFC4 $sp
    addiu $a0 $zero 16; addiu $a1 $sp 0xFFC0; addiu $a2 $zero 0; addiu $a3 $zero 16; addiu $v0 $zero rt_sigaction; syscall
    addiu $v0 $zero pipe; syscall
    addiu $t0 $zero 3; sw $t0 0xFF80 $sp; lui $t0 0x1; sw $t0 0xFF84 $sp
    addiu $t0 $zero 1; sw $t0 0xFFF0 $sp
    sw $zero 16 $sp
    addiu $a0 $sp 0xFF80; addiu $a1 $zero 1; addiu $a2 $sp 0xFFF0; addiu $a3 $zero 0; addiu $v0 $zero ppoll; syscall
    addiu $a0 $v0 0; addiu $v0 $zero exit; syscall
    file t at 300000000 kill 23\nat 500000000 kill 25\nat 700000000 kill 16\n
    trace 13 call 4194 00000010 7ffeff00 00000000 00000010 = 00000000 0
    trace 15 call 4042 00000010 7ffeff00 00000000 00000000 = 00000003 0
    trace 28 wait 4302 7ffefec0 00000001 7ffeff30 00000000
    trace 30 post 23
    trace 30 signal 23 stop
    trace 31 post 25
    trace 31 cont
    trace 31 restart 4302
    trace 31 wait 4302 7ffefec0 00000001 7ffeff30 00000000
    trace 33 post 16
    trace 33 done 00000004 1
    trace 33 signal 16 handler
    trace 36 return
    trace 39 exit 4
    o32run run --schedule t --trace trace p = exited 4 4 39

    beq $zero $zero 3; nop
    jr $ra; nop
    lui $t0 0x1000; sw $t0 0xFFC0 $sp
    lui $t0 0x40; ori $t0 $t0 8; sw $t0 0xFFC4 $sp
    addiu $a0 $zero 16; addiu $a1 $sp 0xFFC0; addiu $a2 $zero 0; addiu $a3 $zero 16; addiu $v0 $zero rt_sigaction; syscall
    addiu $v0 $zero pipe; syscall
    addiu $t0 $zero 3; sw $t0 0xFF80 $sp; lui $t0 0x1; sw $t0 0xFF84 $sp
    addiu $t0 $zero 1; sw $t0 0xFFF0 $sp
    sw $zero 16 $sp
    addiu $a0 $sp 0xFF80; addiu $a1 $zero 1; addiu $a2 $sp 0xFFF0; addiu $a3 $zero 0; addiu $v0 $zero ppoll; syscall
    addiu $a0 $v0 0; addiu $v0 $zero exit; syscall
    file t at 300000000 kill 23\nat 500000000 kill 16\nat 700000000 kill 25\n
    trace 13 call 4194 00000010 7ffeff00 00000000 00000010 = 00000000 0
    trace 15 call 4042 00000010 7ffeff00 00000000 00000000 = 00000003 0
    trace 28 wait 4302 7ffefec0 00000001 7ffeff30 00000000
    trace 30 post 23
    trace 30 signal 23 stop
    trace 31 post 16
    trace 32 post 25
    trace 32 cont
    trace 32 done 00000004 1
    trace 32 signal 16 handler
    trace 35 return
    trace 38 exit 4
    o32run run --schedule t --trace trace p = exited 4 4 38

    beq $zero $zero 3; nop
    jr $ra; nop
    lui $t0 0x1000; sw $t0 0xFFC0 $sp
    lui $t0 0x40; ori $t0 $t0 8; sw $t0 0xFFC4 $sp
    addiu $a0 $zero 16; addiu $a1 $sp 0xFFC0; addiu $a2 $zero 0; addiu $a3 $zero 16; addiu $v0 $zero rt_sigaction; syscall
    addiu $v0 $zero pipe; syscall
    addiu $t0 $zero 3; sw $t0 0xFF80 $sp; lui $t0 0x1; sw $t0 0xFF84 $sp
    addiu $t0 $zero 1; sw $t0 0xFFF0 $sp
    sw $zero 16 $sp
    addiu $a0 $sp 0xFF80; addiu $a1 $zero 1; addiu $a2 $sp 0xFFF0; addiu $a3 $zero 0; addiu $v0 $zero ppoll; syscall
    addiu $a0 $v0 0; addiu $v0 $zero exit; syscall
    file t at 1000027000 kill 16\n
    trace 13 call 4194 00000010 7ffeff00 00000000 00000010 = 00000000 0
    trace 15 call 4042 00000010 7ffeff00 00000000 00000000 = 00000003 0
    trace 28 wait 4302 7ffefec0 00000001 7ffeff30 00000000
    trace 30 post 16
    trace 30 done 00000000 0
    trace 30 signal 16 handler
    trace 33 return
    trace 36 exit 0
    o32run run --schedule t --trace trace p = exited 0 0 36
";

/// So is _newselect, whose time left is cut to microseconds, so that its deadline is up to one earlier where an instruction takes 999
/// nanoseconds.
const SELECTS: &str = r"
    beq $zero $zero 3; nop
    jr $ra; nop
    lui $t0 0x1000; sw $t0 0xFFC0 $sp
    lui $t0 0x40; ori $t0 $t0 8; sw $t0 0xFFC4 $sp
    addiu $a0 $zero 16; addiu $a1 $sp 0xFFC0; addiu $a2 $zero 0; addiu $a3 $zero 16; addiu $v0 $zero rt_sigaction; syscall
    addiu $v0 $zero pipe; syscall
    addiu $t0 $zero 8; sw $t0 0xFF80 $sp
    addiu $t0 $zero 1; sw $t0 0xFFF0 $sp
    addiu $t0 $sp 0xFFF0; sw $t0 16 $sp
    addiu $a0 $zero 4; addiu $a1 $sp 0xFF80; addiu $a2 $zero 0; addiu $a3 $zero 0; addiu $v0 $zero _newselect; syscall
    addiu $a0 $v0 0; addiu $v0 $zero exit; syscall
    file t at 500000000 kill 16\n
    trace 13 call 4194 00000010 7ffeff00 00000000 00000010 = 00000000 0
    trace 15 call 4042 00000010 7ffeff00 00000000 00000000 = 00000003 0
    trace 27 wait 4142 00000004 7ffefec0 00000000 00000000
    trace 29 post 16
    trace 29 done 00000004 1
    trace 29 signal 16 handler
    trace 32 return
    trace 35 exit 4
    o32run run --schedule t --trace trace p = exited 4 4 35

    beq $zero $zero 3; nop
    jr $ra; nop
    lui $t0 0x40; ori $t0 $t0 8; sw $t0 0xFFC4 $sp
    addiu $a0 $zero 16; addiu $a1 $sp 0xFFC0; addiu $a2 $zero 0; addiu $a3 $zero 16; addiu $v0 $zero rt_sigaction; syscall
    addiu $v0 $zero pipe; syscall
    addiu $t0 $zero 8; sw $t0 0xFF80 $sp
    addiu $t0 $zero 1; sw $t0 0xFFF0 $sp
    addiu $t0 $sp 0xFFF0; sw $t0 16 $sp
    addiu $a0 $zero 4; addiu $a1 $sp 0xFF80; addiu $a2 $zero 0; addiu $a3 $zero 0; addiu $v0 $zero _newselect; syscall
    addiu $a0 $v0 0; addiu $v0 $zero exit; syscall
    file t at 500000000 kill 16\n
    trace 11 call 4194 00000010 7ffeff00 00000000 00000010 = 00000000 0
    trace 13 call 4042 00000010 7ffeff00 00000000 00000000 = 00000003 0
    trace 25 wait 4142 00000004 7ffefec0 00000000 00000000
    trace 27 post 16
    trace 27 done 00000004 1
    trace 27 signal 16 handler
    trace 30 return
    trace 33 exit 4
    o32run run --schedule t --trace trace p = exited 4 4 33

    addiu $v0 $zero pipe; syscall
    addiu $t0 $zero 8; sw $t0 0xFF80 $sp
    addiu $t0 $zero 1; sw $t0 0xFFF0 $sp
    addiu $t0 $sp 0xFFF0; sw $t0 16 $sp
    addiu $a0 $zero 4; addiu $a1 $sp 0xFF80; addiu $a2 $zero 0; addiu $a3 $zero 0; addiu $v0 $zero _newselect; syscall
    addiu $t0 $v0 0
    addiu $a0 $zero 1; addiu $a1 $sp 0xFFE0; addiu $v0 $zero clock_gettime; syscall
    addiu $a0 $zero 1; addiu $a1 $sp 0xFFE0; addiu $a2 $zero 8; addiu $v0 $zero write; syscall
    addiu $a0 $t0 0; addiu $v0 $zero exit; syscall
    file t quantum 999\nat 300000000 kill 23\nat 800000000 kill 25\n
    out \0\0\0\x01\0\0>|
    trace 2 call 4042 00000000 00000000 00000000 00000000 = 00000003 0
    trace 14 wait 4142 00000004 7ffefec0 00000000 00000000
    trace 16 post 23
    trace 16 signal 23 stop
    trace 17 post 25
    trace 17 cont
    trace 17 restart 4142
    trace 17 wait 4142 00000004 7ffefec0 00000000 00000000
    trace 19 done 00000000 0
    trace 23 call 4263 00000001 7ffeff20 00000000 00000000 = 00000000 0
    trace 28 call 4004 00000001 7ffeff20 00000008 00000000 = 00000008 0
    trace 31 exit 0
    o32run run --schedule t --trace trace p = exited 0 0 31

    addiu $v0 $zero pipe; syscall
    addiu $t0 $zero 8; sw $t0 0xFF80 $sp
    addiu $t0 $zero 1; sw $t0 0xFFF0 $sp
    addiu $t0 $sp 0xFFF0; sw $t0 16 $sp
    addiu $a0 $zero 4; addiu $a1 $sp 0xFF80; addiu $a2 $zero 0; addiu $a3 $zero 0; addiu $v0 $zero _newselect; syscall
    addiu $t0 $v0 0
    addiu $a0 $zero 1; addiu $a1 $sp 0xFFE0; addiu $v0 $zero clock_gettime; syscall
    addiu $a0 $zero 1; addiu $a1 $sp 0xFFE0; addiu $a2 $zero 8; addiu $v0 $zero write; syscall
    addiu $a0 $t0 0; addiu $v0 $zero exit; syscall
    out \0\0\0\x01\0\0Bh
    trace 2 call 4042 00000000 00000000 00000000 00000000 = 00000003 0
    trace 14 wait 4142 00000004 7ffefec0 00000000 00000000
    trace 16 done 00000000 0
    trace 20 call 4263 00000001 7ffeff20 00000000 00000000 = 00000000 0
    trace 25 call 4004 00000001 7ffeff20 00000008 00000000 = 00000008 0
    trace 28 exit 0
    o32run run --trace trace p = exited 0 0 28

    beq $zero $zero 3; nop
    jr $ra; nop
    lui $t0 0x1000; sw $t0 0xFFC0 $sp
    lui $t0 0x40; ori $t0 $t0 8; sw $t0 0xFFC4 $sp
    addiu $a0 $zero 16; addiu $a1 $sp 0xFFC0; addiu $a2 $zero 0; addiu $a3 $zero 16; addiu $v0 $zero rt_sigaction; syscall
    addiu $v0 $zero pipe; syscall
    addiu $t0 $zero 8; sw $t0 0xFF80 $sp
    addiu $t0 $zero 1; sw $t0 0xFFF0 $sp
    addiu $t0 $sp 0xFFF0; sw $t0 16 $sp
    addiu $a0 $zero 4; addiu $a1 $sp 0xFF80; addiu $a2 $zero 0; addiu $a3 $zero 0; addiu $v0 $zero _newselect; syscall
    addiu $a0 $v0 0; addiu $v0 $zero exit; syscall
    file t at 300000000 kill 23\nat 500000000 kill 25\nat 700000000 kill 16\n
    trace 13 call 4194 00000010 7ffeff00 00000000 00000010 = 00000000 0
    trace 15 call 4042 00000010 7ffeff00 00000000 00000000 = 00000003 0
    trace 27 wait 4142 00000004 7ffefec0 00000000 00000000
    trace 29 post 23
    trace 29 signal 23 stop
    trace 30 post 25
    trace 30 cont
    trace 30 restart 4142
    trace 30 wait 4142 00000004 7ffefec0 00000000 00000000
    trace 32 post 16
    trace 32 done 00000004 1
    trace 32 signal 16 handler
    trace 35 return
    trace 38 exit 4
    o32run run --schedule t --trace trace p = exited 4 4 38

    beq $zero $zero 3; nop
    jr $ra; nop
    lui $t0 0x1000; sw $t0 0xFFC0 $sp
    lui $t0 0x40; ori $t0 $t0 8; sw $t0 0xFFC4 $sp
    addiu $a0 $zero 16; addiu $a1 $sp 0xFFC0; addiu $a2 $zero 0; addiu $a3 $zero 16; addiu $v0 $zero rt_sigaction; syscall
    addiu $v0 $zero pipe; syscall
    addiu $t0 $zero 8; sw $t0 0xFF80 $sp
    addiu $t0 $zero 1; sw $t0 0xFFF0 $sp
    addiu $t0 $sp 0xFFF0; sw $t0 16 $sp
    addiu $a0 $zero 4; addiu $a1 $sp 0xFF80; addiu $a2 $zero 0; addiu $a3 $zero 0; addiu $v0 $zero _newselect; syscall
    addiu $a0 $v0 0; addiu $v0 $zero exit; syscall
    file t at 300000000 kill 23\nat 500000000 kill 16\nat 700000000 kill 25\n
    trace 13 call 4194 00000010 7ffeff00 00000000 00000010 = 00000000 0
    trace 15 call 4042 00000010 7ffeff00 00000000 00000000 = 00000003 0
    trace 27 wait 4142 00000004 7ffefec0 00000000 00000000
    trace 29 post 23
    trace 29 signal 23 stop
    trace 30 post 16
    trace 31 post 25
    trace 31 cont
    trace 31 done 00000004 1
    trace 31 signal 16 handler
    trace 34 return
    trace 37 exit 4
    o32run run --schedule t --trace trace p = exited 4 4 37

    beq $zero $zero 3; nop
    jr $ra; nop
    lui $t0 0x1000; sw $t0 0xFFC0 $sp
    lui $t0 0x40; ori $t0 $t0 8; sw $t0 0xFFC4 $sp
    addiu $a0 $zero 16; addiu $a1 $sp 0xFFC0; addiu $a2 $zero 0; addiu $a3 $zero 16; addiu $v0 $zero rt_sigaction; syscall
    addiu $v0 $zero pipe; syscall
    addiu $t0 $zero 8; sw $t0 0xFF80 $sp
    addiu $t0 $zero 1; sw $t0 0xFFF0 $sp
    addiu $t0 $sp 0xFFF0; sw $t0 16 $sp
    addiu $a0 $zero 4; addiu $a1 $sp 0xFF80; addiu $a2 $zero 0; addiu $a3 $zero 0; addiu $v0 $zero _newselect; syscall
    addiu $a0 $v0 0; addiu $v0 $zero exit; syscall
    file t at 1000026000 kill 16\n
    trace 13 call 4194 00000010 7ffeff00 00000000 00000010 = 00000000 0
    trace 15 call 4042 00000010 7ffeff00 00000000 00000000 = 00000003 0
    trace 27 wait 4142 00000004 7ffefec0 00000000 00000000
    trace 29 post 16
    trace 29 done 00000000 0
    trace 29 signal 16 handler
    trace 32 return
    trace 35 exit 0
    o32run run --schedule t --trace trace p = exited 0 0 35
";

/// And so is pselect6.
const PSELECTS: &str = r"
    beq $zero $zero 3; nop
    jr $ra; nop
    lui $t0 0x1000; sw $t0 0xFFC0 $sp
    lui $t0 0x40; ori $t0 $t0 8; sw $t0 0xFFC4 $sp
    addiu $a0 $zero 16; addiu $a1 $sp 0xFFC0; addiu $a2 $zero 0; addiu $a3 $zero 16; addiu $v0 $zero rt_sigaction; syscall
    addiu $v0 $zero pipe; syscall
    addiu $t0 $zero 8; sw $t0 0xFF80 $sp
    addiu $t0 $zero 1; sw $t0 0xFFF0 $sp
    addiu $t0 $sp 0xFFF0; sw $t0 16 $sp
    sw $zero 20 $sp
    addiu $a0 $zero 4; addiu $a1 $sp 0xFF80; addiu $a2 $zero 0; addiu $a3 $zero 0; addiu $v0 $zero pselect6; syscall
    addiu $a0 $v0 0; addiu $v0 $zero exit; syscall
    file t at 500000000 kill 16\n
    trace 13 call 4194 00000010 7ffeff00 00000000 00000010 = 00000000 0
    trace 15 call 4042 00000010 7ffeff00 00000000 00000000 = 00000003 0
    trace 28 wait 4301 00000004 7ffefec0 00000000 00000000
    trace 30 post 16
    trace 30 done 00000004 1
    trace 30 signal 16 handler
    trace 33 return
    trace 36 exit 4
    o32run run --schedule t --trace trace p = exited 4 4 36

    beq $zero $zero 3; nop
    jr $ra; nop
    lui $t0 0x40; ori $t0 $t0 8; sw $t0 0xFFC4 $sp
    addiu $a0 $zero 16; addiu $a1 $sp 0xFFC0; addiu $a2 $zero 0; addiu $a3 $zero 16; addiu $v0 $zero rt_sigaction; syscall
    addiu $v0 $zero pipe; syscall
    addiu $t0 $zero 8; sw $t0 0xFF80 $sp
    addiu $t0 $zero 1; sw $t0 0xFFF0 $sp
    addiu $t0 $sp 0xFFF0; sw $t0 16 $sp
    sw $zero 20 $sp
    addiu $a0 $zero 4; addiu $a1 $sp 0xFF80; addiu $a2 $zero 0; addiu $a3 $zero 0; addiu $v0 $zero pselect6; syscall
    addiu $a0 $v0 0; addiu $v0 $zero exit; syscall
    file t at 500000000 kill 16\n
    trace 11 call 4194 00000010 7ffeff00 00000000 00000010 = 00000000 0
    trace 13 call 4042 00000010 7ffeff00 00000000 00000000 = 00000003 0
    trace 26 wait 4301 00000004 7ffefec0 00000000 00000000
    trace 28 post 16
    trace 28 done 00000004 1
    trace 28 signal 16 handler
    trace 31 return
    trace 34 exit 4
    o32run run --schedule t --trace trace p = exited 4 4 34

    addiu $v0 $zero pipe; syscall
    addiu $t0 $zero 8; sw $t0 0xFF80 $sp
    addiu $t0 $zero 1; sw $t0 0xFFF0 $sp
    addiu $t0 $sp 0xFFF0; sw $t0 16 $sp
    sw $zero 20 $sp
    addiu $a0 $zero 4; addiu $a1 $sp 0xFF80; addiu $a2 $zero 0; addiu $a3 $zero 0; addiu $v0 $zero pselect6; syscall
    addiu $t0 $v0 0
    addiu $a0 $zero 1; addiu $a1 $sp 0xFFE0; addiu $v0 $zero clock_gettime; syscall
    addiu $a0 $zero 1; addiu $a1 $sp 0xFFE0; addiu $a2 $zero 8; addiu $v0 $zero write; syscall
    addiu $a0 $t0 0; addiu $v0 $zero exit; syscall
    file t at 300000000 kill 23\nat 800000000 kill 25\n
    out \0\0\0\x01\0\0FP
    trace 2 call 4042 00000000 00000000 00000000 00000000 = 00000003 0
    trace 15 wait 4301 00000004 7ffefec0 00000000 00000000
    trace 17 post 23
    trace 17 signal 23 stop
    trace 18 post 25
    trace 18 cont
    trace 18 restart 4301
    trace 18 wait 4301 00000004 7ffefec0 00000000 00000000
    trace 20 done 00000000 0
    trace 24 call 4263 00000001 7ffeff20 00000000 00000000 = 00000000 0
    trace 29 call 4004 00000001 7ffeff20 00000008 00000000 = 00000008 0
    trace 32 exit 0
    o32run run --schedule t --trace trace p = exited 0 0 32

    addiu $v0 $zero pipe; syscall
    addiu $t0 $zero 8; sw $t0 0xFF80 $sp
    addiu $t0 $zero 1; sw $t0 0xFFF0 $sp
    addiu $t0 $sp 0xFFF0; sw $t0 16 $sp
    sw $zero 20 $sp
    addiu $a0 $zero 4; addiu $a1 $sp 0xFF80; addiu $a2 $zero 0; addiu $a3 $zero 0; addiu $v0 $zero pselect6; syscall
    addiu $t0 $v0 0
    addiu $a0 $zero 1; addiu $a1 $sp 0xFFE0; addiu $v0 $zero clock_gettime; syscall
    addiu $a0 $zero 1; addiu $a1 $sp 0xFFE0; addiu $a2 $zero 8; addiu $v0 $zero write; syscall
    addiu $a0 $t0 0; addiu $v0 $zero exit; syscall
    out \0\0\0\x01\0\0FP
    trace 2 call 4042 00000000 00000000 00000000 00000000 = 00000003 0
    trace 15 wait 4301 00000004 7ffefec0 00000000 00000000
    trace 17 done 00000000 0
    trace 21 call 4263 00000001 7ffeff20 00000000 00000000 = 00000000 0
    trace 26 call 4004 00000001 7ffeff20 00000008 00000000 = 00000008 0
    trace 29 exit 0
    o32run run --trace trace p = exited 0 0 29

    beq $zero $zero 3; nop
    jr $ra; nop
    lui $t0 0x1000; sw $t0 0xFFC0 $sp
    lui $t0 0x40; ori $t0 $t0 8; sw $t0 0xFFC4 $sp
    addiu $a0 $zero 16; addiu $a1 $sp 0xFFC0; addiu $a2 $zero 0; addiu $a3 $zero 16; addiu $v0 $zero rt_sigaction; syscall
    addiu $v0 $zero pipe; syscall
    addiu $t0 $zero 8; sw $t0 0xFF80 $sp
    addiu $t0 $zero 1; sw $t0 0xFFF0 $sp
    addiu $t0 $sp 0xFFF0; sw $t0 16 $sp
    sw $zero 20 $sp
    addiu $a0 $zero 4; addiu $a1 $sp 0xFF80; addiu $a2 $zero 0; addiu $a3 $zero 0; addiu $v0 $zero pselect6; syscall
    addiu $a0 $v0 0; addiu $v0 $zero exit; syscall
    file t at 300000000 kill 23\nat 500000000 kill 25\nat 700000000 kill 16\n
    trace 13 call 4194 00000010 7ffeff00 00000000 00000010 = 00000000 0
    trace 15 call 4042 00000010 7ffeff00 00000000 00000000 = 00000003 0
    trace 28 wait 4301 00000004 7ffefec0 00000000 00000000
    trace 30 post 23
    trace 30 signal 23 stop
    trace 31 post 25
    trace 31 cont
    trace 31 restart 4301
    trace 31 wait 4301 00000004 7ffefec0 00000000 00000000
    trace 33 post 16
    trace 33 done 00000004 1
    trace 33 signal 16 handler
    trace 36 return
    trace 39 exit 4
    o32run run --schedule t --trace trace p = exited 4 4 39

    beq $zero $zero 3; nop
    jr $ra; nop
    lui $t0 0x1000; sw $t0 0xFFC0 $sp
    lui $t0 0x40; ori $t0 $t0 8; sw $t0 0xFFC4 $sp
    addiu $a0 $zero 16; addiu $a1 $sp 0xFFC0; addiu $a2 $zero 0; addiu $a3 $zero 16; addiu $v0 $zero rt_sigaction; syscall
    addiu $v0 $zero pipe; syscall
    addiu $t0 $zero 8; sw $t0 0xFF80 $sp
    addiu $t0 $zero 1; sw $t0 0xFFF0 $sp
    addiu $t0 $sp 0xFFF0; sw $t0 16 $sp
    sw $zero 20 $sp
    addiu $a0 $zero 4; addiu $a1 $sp 0xFF80; addiu $a2 $zero 0; addiu $a3 $zero 0; addiu $v0 $zero pselect6; syscall
    addiu $a0 $v0 0; addiu $v0 $zero exit; syscall
    file t at 300000000 kill 23\nat 500000000 kill 16\nat 700000000 kill 25\n
    trace 13 call 4194 00000010 7ffeff00 00000000 00000010 = 00000000 0
    trace 15 call 4042 00000010 7ffeff00 00000000 00000000 = 00000003 0
    trace 28 wait 4301 00000004 7ffefec0 00000000 00000000
    trace 30 post 23
    trace 30 signal 23 stop
    trace 31 post 16
    trace 32 post 25
    trace 32 cont
    trace 32 done 00000004 1
    trace 32 signal 16 handler
    trace 35 return
    trace 38 exit 4
    o32run run --schedule t --trace trace p = exited 4 4 38

    beq $zero $zero 3; nop
    jr $ra; nop
    lui $t0 0x1000; sw $t0 0xFFC0 $sp
    lui $t0 0x40; ori $t0 $t0 8; sw $t0 0xFFC4 $sp
    addiu $a0 $zero 16; addiu $a1 $sp 0xFFC0; addiu $a2 $zero 0; addiu $a3 $zero 16; addiu $v0 $zero rt_sigaction; syscall
    addiu $v0 $zero pipe; syscall
    addiu $t0 $zero 8; sw $t0 0xFF80 $sp
    addiu $t0 $zero 1; sw $t0 0xFFF0 $sp
    addiu $t0 $sp 0xFFF0; sw $t0 16 $sp
    sw $zero 20 $sp
    addiu $a0 $zero 4; addiu $a1 $sp 0xFF80; addiu $a2 $zero 0; addiu $a3 $zero 0; addiu $v0 $zero pselect6; syscall
    addiu $a0 $v0 0; addiu $v0 $zero exit; syscall
    file t at 1000027000 kill 16\n
    trace 13 call 4194 00000010 7ffeff00 00000000 00000010 = 00000000 0
    trace 15 call 4042 00000010 7ffeff00 00000000 00000000 = 00000003 0
    trace 28 wait 4301 00000004 7ffefec0 00000000 00000000
    trace 30 post 16
    trace 30 done 00000000 0
    trace 30 signal 16 handler
    trace 33 return
    trace 36 exit 0
    o32run run --schedule t --trace trace p = exited 0 0 36
";

#[test]
fn polls(rt: HostRuntime) -> Result<(), Fail> {
    assert_eq!(rt; first_wrong(rt.alloc(), "", POLLS)?, None);
    Ok(())
}

#[test]
fn ppolls(rt: HostRuntime) -> Result<(), Fail> {
    assert_eq!(rt; first_wrong(rt.alloc(), "", PPOLLS)?, None);
    Ok(())
}

#[test]
fn selects(rt: HostRuntime) -> Result<(), Fail> {
    assert_eq!(rt; first_wrong(rt.alloc(), "", SELECTS)?, None);
    Ok(())
}

#[test]
fn pselects(rt: HostRuntime) -> Result<(), Fail> {
    assert_eq!(rt; first_wrong(rt.alloc(), "", PSELECTS)?, None);
    Ok(())
}
