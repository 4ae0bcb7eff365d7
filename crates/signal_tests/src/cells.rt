//! The ends of waits, cell by cell of their table: by a handler with and without SA_RESTART, and by a stop and SIGCONT without one.
//!
//! Each trace tells how the wait ends: `restart` with the number that comes again, or `done` with the result. The clock jumps to the
//! signal's time in a turn of its own, and so it does while the process is stopped. A handler returns in its fourth turn.
use session_scripts::first_wrong;
use std::test::Fail;

/// Reads of an empty pipe and writes to a full one, with no byte done. A handler ends them with EINTR, 4, where it has no
/// SA_RESTART; else, and behind a stop, they are carried out again, and nothing comes any more. read(2) under a handler is in `waits`.
const TRANSFERS: &str = r"
    addiu $v0 $zero pipe; syscall
    addiu $a0 $zero 3; addiu $a1 $sp 0xFFF0; addiu $a2 $zero 4; addiu $v0 $zero read; syscall
    file t at 1000000 kill 23\nat 2000000 kill 25\n
    trace 2 call 4042 00000000 00000000 00000000 00000000 = 00000003 0
    trace 7 wait 4003 00000003 7ffeff30 00000004 00000000
    trace 9 post 23
    trace 9 signal 23 stop
    trace 10 post 25
    trace 10 cont
    trace 10 restart 4003
    trace 10 wait 4003 00000003 7ffeff30 00000004 00000000
    trace 10 blocked
    o32run run --schedule t --trace trace p = blocked 123 10

    beq $zero $zero 3; nop
    jr $ra; nop
    lui $t0 0x1000; sw $t0 0xFFC0 $sp
    lui $t0 0x40; ori $t0 $t0 8; sw $t0 0xFFC4 $sp
    addiu $a0 $zero 16; addiu $a1 $sp 0xFFC0; addiu $a2 $zero 0; addiu $a3 $zero 16; addiu $v0 $zero rt_sigaction; syscall
    addiu $v0 $zero pipe; syscall
    addiu $t0 $sp 0xFFF0; sw $t0 0xFFE0 $sp; addiu $t0 $zero 4; sw $t0 0xFFE4 $sp
    addiu $a0 $zero 3; addiu $a1 $sp 0xFFE0; addiu $a2 $zero 1; addiu $v0 $zero readv; syscall
    file t at 1000000 kill 16\n
    trace 13 call 4194 00000010 7ffeff00 00000000 00000010 = 00000000 0
    trace 15 call 4042 00000010 7ffeff00 00000000 00000000 = 00000003 0
    trace 24 wait 4145 00000003 7ffeff20 00000001 00000000
    trace 26 post 16
    trace 26 restart 4145
    trace 26 signal 16 handler
    trace 29 return
    trace 30 wait 4145 00000003 7ffeff20 00000001 00000000
    trace 30 blocked
    o32run run --schedule t --trace trace p = blocked 123 30

    beq $zero $zero 3; nop
    jr $ra; nop
    lui $t0 0x40; ori $t0 $t0 8; sw $t0 0xFFC4 $sp
    addiu $a0 $zero 16; addiu $a1 $sp 0xFFC0; addiu $a2 $zero 0; addiu $a3 $zero 16; addiu $v0 $zero rt_sigaction; syscall
    addiu $v0 $zero pipe; syscall
    addiu $t0 $sp 0xFFF0; sw $t0 0xFFE0 $sp; addiu $t0 $zero 4; sw $t0 0xFFE4 $sp
    addiu $a0 $zero 3; addiu $a1 $sp 0xFFE0; addiu $a2 $zero 1; addiu $v0 $zero readv; syscall
    addiu $v0 $zero exit; syscall
    file t at 1000000 kill 16\n
    trace 11 call 4194 00000010 7ffeff00 00000000 00000010 = 00000000 0
    trace 13 call 4042 00000010 7ffeff00 00000000 00000000 = 00000003 0
    trace 22 wait 4145 00000003 7ffeff20 00000001 00000000
    trace 24 post 16
    trace 24 done 00000004 1
    trace 24 signal 16 handler
    trace 27 return
    trace 29 exit 3
    o32run run --schedule t --trace trace p = exited 3 3 29

    addiu $v0 $zero pipe; syscall
    addiu $t0 $sp 0xFFF0; sw $t0 0xFFE0 $sp; addiu $t0 $zero 4; sw $t0 0xFFE4 $sp
    addiu $a0 $zero 3; addiu $a1 $sp 0xFFE0; addiu $a2 $zero 1; addiu $v0 $zero readv; syscall
    file t at 1000000 kill 23\nat 2000000 kill 25\n
    trace 2 call 4042 00000000 00000000 00000000 00000000 = 00000003 0
    trace 11 wait 4145 00000003 7ffeff20 00000001 00000000
    trace 13 post 23
    trace 13 signal 23 stop
    trace 14 post 25
    trace 14 cont
    trace 14 restart 4145
    trace 14 wait 4145 00000003 7ffeff20 00000001 00000000
    trace 14 blocked
    o32run run --schedule t --trace trace p = blocked 123 14

    beq $zero $zero 3; nop
    jr $ra; nop
    lui $t0 0x1000; sw $t0 0xFFC0 $sp
    lui $t0 0x40; ori $t0 $t0 8; sw $t0 0xFFC4 $sp
    addiu $a0 $zero 16; addiu $a1 $sp 0xFFC0; addiu $a2 $zero 0; addiu $a3 $zero 16; addiu $v0 $zero rt_sigaction; syscall
    addiu $v0 $zero pipe; syscall
    addiu $a0 $zero 4; lui $a1 0x7F80; lui $a2 1; addiu $v0 $zero write; syscall
    addiu $a0 $zero 4; addiu $a2 $zero 1; addiu $v0 $zero write; syscall
    file t at 1000000 kill 16\n
    trace 13 call 4194 00000010 7ffeff00 00000000 00000010 = 00000000 0
    trace 15 call 4042 00000010 7ffeff00 00000000 00000000 = 00000003 0
    trace 20 call 4004 00000004 7f800000 00010000 00000000 = 00010000 0
    trace 24 wait 4004 00000004 7f800000 00000001 00000000
    trace 26 post 16
    trace 26 restart 4004
    trace 26 signal 16 handler
    trace 29 return
    trace 30 wait 4004 00000004 7f800000 00000001 00000000
    trace 30 blocked
    o32run run --schedule t --trace trace p = blocked 123 30

    beq $zero $zero 3; nop
    jr $ra; nop
    lui $t0 0x40; ori $t0 $t0 8; sw $t0 0xFFC4 $sp
    addiu $a0 $zero 16; addiu $a1 $sp 0xFFC0; addiu $a2 $zero 0; addiu $a3 $zero 16; addiu $v0 $zero rt_sigaction; syscall
    addiu $v0 $zero pipe; syscall
    addiu $a0 $zero 4; lui $a1 0x7F80; lui $a2 1; addiu $v0 $zero write; syscall
    addiu $a0 $zero 4; addiu $a2 $zero 1; addiu $v0 $zero write; syscall
    addiu $v0 $zero exit; syscall
    file t at 1000000 kill 16\n
    trace 11 call 4194 00000010 7ffeff00 00000000 00000010 = 00000000 0
    trace 13 call 4042 00000010 7ffeff00 00000000 00000000 = 00000003 0
    trace 18 call 4004 00000004 7f800000 00010000 00000000 = 00010000 0
    trace 22 wait 4004 00000004 7f800000 00000001 00000000
    trace 24 post 16
    trace 24 done 00000004 1
    trace 24 signal 16 handler
    trace 27 return
    trace 29 exit 4
    o32run run --schedule t --trace trace p = exited 4 4 29

    addiu $v0 $zero pipe; syscall
    addiu $a0 $zero 4; lui $a1 0x7F80; lui $a2 1; addiu $v0 $zero write; syscall
    addiu $a0 $zero 4; addiu $a2 $zero 1; addiu $v0 $zero write; syscall
    file t at 1000000 kill 23\nat 2000000 kill 25\n
    trace 2 call 4042 00000000 00000000 00000000 00000000 = 00000003 0
    trace 7 call 4004 00000004 7f800000 00010000 00000000 = 00010000 0
    trace 11 wait 4004 00000004 7f800000 00000001 00000000
    trace 13 post 23
    trace 13 signal 23 stop
    trace 14 post 25
    trace 14 cont
    trace 14 restart 4004
    trace 14 wait 4004 00000004 7f800000 00000001 00000000
    trace 14 blocked
    o32run run --schedule t --trace trace p = blocked 123 14

    beq $zero $zero 3; nop
    jr $ra; nop
    lui $t0 0x1000; sw $t0 0xFFC0 $sp
    lui $t0 0x40; ori $t0 $t0 8; sw $t0 0xFFC4 $sp
    addiu $a0 $zero 16; addiu $a1 $sp 0xFFC0; addiu $a2 $zero 0; addiu $a3 $zero 16; addiu $v0 $zero rt_sigaction; syscall
    addiu $v0 $zero pipe; syscall
    addiu $a0 $zero 4; lui $a1 0x7F80; lui $a2 1; addiu $v0 $zero write; syscall
    addiu $t0 $sp 0xFFF0; sw $t0 0xFFE0 $sp; addiu $t0 $zero 4; sw $t0 0xFFE4 $sp
    addiu $a0 $zero 4; addiu $a1 $sp 0xFFE0; addiu $a2 $zero 1; addiu $v0 $zero writev; syscall
    file t at 1000000 kill 16\n
    trace 13 call 4194 00000010 7ffeff00 00000000 00000010 = 00000000 0
    trace 15 call 4042 00000010 7ffeff00 00000000 00000000 = 00000003 0
    trace 20 call 4004 00000004 7f800000 00010000 00000000 = 00010000 0
    trace 29 wait 4146 00000004 7ffeff20 00000001 00000000
    trace 31 post 16
    trace 31 restart 4146
    trace 31 signal 16 handler
    trace 34 return
    trace 35 wait 4146 00000004 7ffeff20 00000001 00000000
    trace 35 blocked
    o32run run --schedule t --trace trace p = blocked 123 35

    beq $zero $zero 3; nop
    jr $ra; nop
    lui $t0 0x40; ori $t0 $t0 8; sw $t0 0xFFC4 $sp
    addiu $a0 $zero 16; addiu $a1 $sp 0xFFC0; addiu $a2 $zero 0; addiu $a3 $zero 16; addiu $v0 $zero rt_sigaction; syscall
    addiu $v0 $zero pipe; syscall
    addiu $a0 $zero 4; lui $a1 0x7F80; lui $a2 1; addiu $v0 $zero write; syscall
    addiu $t0 $sp 0xFFF0; sw $t0 0xFFE0 $sp; addiu $t0 $zero 4; sw $t0 0xFFE4 $sp
    addiu $a0 $zero 4; addiu $a1 $sp 0xFFE0; addiu $a2 $zero 1; addiu $v0 $zero writev; syscall
    addiu $v0 $zero exit; syscall
    file t at 1000000 kill 16\n
    trace 11 call 4194 00000010 7ffeff00 00000000 00000010 = 00000000 0
    trace 13 call 4042 00000010 7ffeff00 00000000 00000000 = 00000003 0
    trace 18 call 4004 00000004 7f800000 00010000 00000000 = 00010000 0
    trace 27 wait 4146 00000004 7ffeff20 00000001 00000000
    trace 29 post 16
    trace 29 done 00000004 1
    trace 29 signal 16 handler
    trace 32 return
    trace 34 exit 4
    o32run run --schedule t --trace trace p = exited 4 4 34

    addiu $v0 $zero pipe; syscall
    addiu $a0 $zero 4; lui $a1 0x7F80; lui $a2 1; addiu $v0 $zero write; syscall
    addiu $t0 $sp 0xFFF0; sw $t0 0xFFE0 $sp; addiu $t0 $zero 4; sw $t0 0xFFE4 $sp
    addiu $a0 $zero 4; addiu $a1 $sp 0xFFE0; addiu $a2 $zero 1; addiu $v0 $zero writev; syscall
    file t at 1000000 kill 23\nat 2000000 kill 25\n
    trace 2 call 4042 00000000 00000000 00000000 00000000 = 00000003 0
    trace 7 call 4004 00000004 7f800000 00010000 00000000 = 00010000 0
    trace 16 wait 4146 00000004 7ffeff20 00000001 00000000
    trace 18 post 23
    trace 18 signal 23 stop
    trace 19 post 25
    trace 19 cont
    trace 19 restart 4146
    trace 19 wait 4146 00000004 7ffeff20 00000001 00000000
    trace 19 blocked
    o32run run --schedule t --trace trace p = blocked 123 19
";

/// Writes of 70,000 bytes to an empty pipe, which takes 65,536: that is their result at every end. write(2) under a handler without
/// SA_RESTART is in `waits`.
const SOME_BYTES_DONE: &str = r"
    beq $zero $zero 3; nop
    jr $ra; nop
    lui $t0 0x1000; sw $t0 0xFFC0 $sp
    lui $t0 0x40; ori $t0 $t0 8; sw $t0 0xFFC4 $sp
    addiu $a0 $zero 16; addiu $a1 $sp 0xFFC0; addiu $a2 $zero 0; addiu $a3 $zero 16; addiu $v0 $zero rt_sigaction; syscall
    addiu $v0 $zero pipe; syscall
    addiu $a0 $zero 4; lui $a1 0x7F80; lui $a2 1; ori $a2 $a2 0x1170; addiu $v0 $zero write; syscall
    addiu $v0 $zero exit; syscall
    file t at 1000000 kill 16\n
    trace 13 call 4194 00000010 7ffeff00 00000000 00000010 = 00000000 0
    trace 15 call 4042 00000010 7ffeff00 00000000 00000000 = 00000003 0
    trace 21 wait 4004 00000004 7f800000 00011170 00000000
    trace 23 post 16
    trace 23 done 00010000 0
    trace 23 signal 16 handler
    trace 26 return
    trace 28 exit 4
    o32run run --schedule t --trace trace p = exited 4 4 28

    addiu $v0 $zero pipe; syscall
    addiu $a0 $zero 4; lui $a1 0x7F80; lui $a2 1; ori $a2 $a2 0x1170; addiu $v0 $zero write; syscall
    addiu $v0 $zero exit; syscall
    file t at 1000000 kill 23\nat 2000000 kill 25\n
    trace 2 call 4042 00000000 00000000 00000000 00000000 = 00000003 0
    trace 8 wait 4004 00000004 7f800000 00011170 00000000
    trace 10 post 23
    trace 10 signal 23 stop
    trace 11 post 25
    trace 11 cont
    trace 11 done 00010000 0
    trace 12 exit 4
    o32run run --schedule t --trace trace p = exited 4 4 12

    beq $zero $zero 3; nop
    jr $ra; nop
    lui $t0 0x1000; sw $t0 0xFFC0 $sp
    lui $t0 0x40; ori $t0 $t0 8; sw $t0 0xFFC4 $sp
    addiu $a0 $zero 16; addiu $a1 $sp 0xFFC0; addiu $a2 $zero 0; addiu $a3 $zero 16; addiu $v0 $zero rt_sigaction; syscall
    addiu $v0 $zero pipe; syscall
    lui $t0 0x7F80; sw $t0 0xFFE0 $sp; lui $t0 1; ori $t0 $t0 0x1170; sw $t0 0xFFE4 $sp
    addiu $a0 $zero 4; addiu $a1 $sp 0xFFE0; addiu $a2 $zero 1; addiu $v0 $zero writev; syscall
    addiu $v0 $zero exit; syscall
    file t at 1000000 kill 16\n
    trace 13 call 4194 00000010 7ffeff00 00000000 00000010 = 00000000 0
    trace 15 call 4042 00000010 7ffeff00 00000000 00000000 = 00000003 0
    trace 25 wait 4146 00000004 7ffeff20 00000001 00000000
    trace 27 post 16
    trace 27 done 00010000 0
    trace 27 signal 16 handler
    trace 30 return
    trace 32 exit 4
    o32run run --schedule t --trace trace p = exited 4 4 32

    beq $zero $zero 3; nop
    jr $ra; nop
    lui $t0 0x40; ori $t0 $t0 8; sw $t0 0xFFC4 $sp
    addiu $a0 $zero 16; addiu $a1 $sp 0xFFC0; addiu $a2 $zero 0; addiu $a3 $zero 16; addiu $v0 $zero rt_sigaction; syscall
    addiu $v0 $zero pipe; syscall
    lui $t0 0x7F80; sw $t0 0xFFE0 $sp; lui $t0 1; ori $t0 $t0 0x1170; sw $t0 0xFFE4 $sp
    addiu $a0 $zero 4; addiu $a1 $sp 0xFFE0; addiu $a2 $zero 1; addiu $v0 $zero writev; syscall
    addiu $v0 $zero exit; syscall
    file t at 1000000 kill 16\n
    trace 11 call 4194 00000010 7ffeff00 00000000 00000010 = 00000000 0
    trace 13 call 4042 00000010 7ffeff00 00000000 00000000 = 00000003 0
    trace 23 wait 4146 00000004 7ffeff20 00000001 00000000
    trace 25 post 16
    trace 25 done 00010000 0
    trace 25 signal 16 handler
    trace 28 return
    trace 30 exit 4
    o32run run --schedule t --trace trace p = exited 4 4 30

    addiu $v0 $zero pipe; syscall
    lui $t0 0x7F80; sw $t0 0xFFE0 $sp; lui $t0 1; ori $t0 $t0 0x1170; sw $t0 0xFFE4 $sp
    addiu $a0 $zero 4; addiu $a1 $sp 0xFFE0; addiu $a2 $zero 1; addiu $v0 $zero writev; syscall
    addiu $v0 $zero exit; syscall
    file t at 1000000 kill 23\nat 2000000 kill 25\n
    trace 2 call 4042 00000000 00000000 00000000 00000000 = 00000003 0
    trace 12 wait 4146 00000004 7ffeff20 00000001 00000000
    trace 14 post 23
    trace 14 signal 23 stop
    trace 15 post 25
    trace 15 cont
    trace 15 done 00010000 0
    trace 16 exit 4
    o32run run --schedule t --trace trace p = exited 4 4 16
";

/// Sleeps for a second. A handler ends them with EINTR, and behind a stop they go on by restart_syscall(2), 4253, to the same deadline.
const LENGTHS_OF_TIME: &str = r"
    beq $zero $zero 3; nop
    jr $ra; nop
    lui $t0 0x1000; sw $t0 0xFFC0 $sp
    lui $t0 0x40; ori $t0 $t0 8; sw $t0 0xFFC4 $sp
    addiu $a0 $zero 16; addiu $a1 $sp 0xFFC0; addiu $a2 $zero 0; addiu $a3 $zero 16; addiu $v0 $zero rt_sigaction; syscall
    addiu $t0 $zero 1; sw $t0 0xFFF0 $sp
    addiu $a0 $sp 0xFFF0; addiu $a1 $zero 0; addiu $v0 $zero nanosleep; syscall
    addiu $v0 $zero exit; syscall
    file t at 500000000 kill 16\n
    trace 13 call 4194 00000010 7ffeff00 00000000 00000010 = 00000000 0
    trace 19 wait 4166 7ffeff30 00000000 00000000 00000000
    trace 21 post 16
    trace 21 done 00000004 1
    trace 21 signal 16 handler
    trace 24 return
    trace 26 exit 48
    o32run run --schedule t --trace trace p = exited 48 48 26

    beq $zero $zero 3; nop
    jr $ra; nop
    lui $t0 0x1000; sw $t0 0xFFC0 $sp
    lui $t0 0x40; ori $t0 $t0 8; sw $t0 0xFFC4 $sp
    addiu $a0 $zero 16; addiu $a1 $sp 0xFFC0; addiu $a2 $zero 0; addiu $a3 $zero 16; addiu $v0 $zero rt_sigaction; syscall
    addiu $t0 $zero 1; sw $t0 0xFFF0 $sp
    addiu $a0 $zero 1; addiu $a1 $zero 0; addiu $a2 $sp 0xFFF0; addiu $a3 $zero 0; addiu $v0 $zero 4265; syscall
    addiu $v0 $zero exit; syscall
    file t at 500000000 kill 16\n
    trace 13 call 4194 00000010 7ffeff00 00000000 00000010 = 00000000 0
    trace 21 wait 4265 00000001 00000000 7ffeff30 00000000
    trace 23 post 16
    trace 23 done 00000004 1
    trace 23 signal 16 handler
    trace 26 return
    trace 28 exit 1
    o32run run --schedule t --trace trace p = exited 1 1 28

    beq $zero $zero 3; nop
    jr $ra; nop
    lui $t0 0x40; ori $t0 $t0 8; sw $t0 0xFFC4 $sp
    addiu $a0 $zero 16; addiu $a1 $sp 0xFFC0; addiu $a2 $zero 0; addiu $a3 $zero 16; addiu $v0 $zero rt_sigaction; syscall
    addiu $t0 $zero 1; sw $t0 0xFFF0 $sp
    addiu $a0 $zero 1; addiu $a1 $zero 0; addiu $a2 $sp 0xFFF0; addiu $a3 $zero 0; addiu $v0 $zero 4265; syscall
    addiu $v0 $zero exit; syscall
    file t at 500000000 kill 16\n
    trace 11 call 4194 00000010 7ffeff00 00000000 00000010 = 00000000 0
    trace 19 wait 4265 00000001 00000000 7ffeff30 00000000
    trace 21 post 16
    trace 21 done 00000004 1
    trace 21 signal 16 handler
    trace 24 return
    trace 26 exit 1
    o32run run --schedule t --trace trace p = exited 1 1 26

    addiu $t0 $zero 1; sw $t0 0xFFF0 $sp
    addiu $a0 $zero 1; addiu $a1 $zero 0; addiu $a2 $sp 0xFFF0; addiu $a3 $zero 0; addiu $v0 $zero 4265; syscall
    addiu $v0 $zero exit; syscall
    file t at 300000000 kill 23\nat 800000000 kill 25\n
    trace 8 wait 4265 00000001 00000000 7ffeff30 00000000
    trace 10 post 23
    trace 10 signal 23 stop
    trace 11 post 25
    trace 11 cont
    trace 11 restart 4253
    trace 11 wait 4253 00000001 00000000 7ffeff30 00000000
    trace 13 done 00000000 0
    trace 14 exit 1
    o32run run --schedule t --trace trace p = exited 1 1 14
";

/// clock_nanosleep(2) to a time, a second, pause(2) and rt_sigsuspend(2): a handler ends them with EINTR, and behind a stop they are
/// carried out again.
const OTHERS: &str = r"
    beq $zero $zero 3; nop
    jr $ra; nop
    lui $t0 0x1000; sw $t0 0xFFC0 $sp
    lui $t0 0x40; ori $t0 $t0 8; sw $t0 0xFFC4 $sp
    addiu $a0 $zero 16; addiu $a1 $sp 0xFFC0; addiu $a2 $zero 0; addiu $a3 $zero 16; addiu $v0 $zero rt_sigaction; syscall
    addiu $t0 $zero 1; sw $t0 0xFFF0 $sp
    addiu $a0 $zero 1; addiu $a1 $zero 1; addiu $a2 $sp 0xFFF0; addiu $a3 $zero 0; addiu $v0 $zero 4265; syscall
    addiu $v0 $zero exit; syscall
    file t at 500000000 kill 16\n
    trace 13 call 4194 00000010 7ffeff00 00000000 00000010 = 00000000 0
    trace 21 wait 4265 00000001 00000001 7ffeff30 00000000
    trace 23 post 16
    trace 23 done 00000004 1
    trace 23 signal 16 handler
    trace 26 return
    trace 28 exit 1
    o32run run --schedule t --trace trace p = exited 1 1 28

    beq $zero $zero 3; nop
    jr $ra; nop
    lui $t0 0x40; ori $t0 $t0 8; sw $t0 0xFFC4 $sp
    addiu $a0 $zero 16; addiu $a1 $sp 0xFFC0; addiu $a2 $zero 0; addiu $a3 $zero 16; addiu $v0 $zero rt_sigaction; syscall
    addiu $t0 $zero 1; sw $t0 0xFFF0 $sp
    addiu $a0 $zero 1; addiu $a1 $zero 1; addiu $a2 $sp 0xFFF0; addiu $a3 $zero 0; addiu $v0 $zero 4265; syscall
    addiu $v0 $zero exit; syscall
    file t at 500000000 kill 16\n
    trace 11 call 4194 00000010 7ffeff00 00000000 00000010 = 00000000 0
    trace 19 wait 4265 00000001 00000001 7ffeff30 00000000
    trace 21 post 16
    trace 21 done 00000004 1
    trace 21 signal 16 handler
    trace 24 return
    trace 26 exit 1
    o32run run --schedule t --trace trace p = exited 1 1 26

    addiu $t0 $zero 1; sw $t0 0xFFF0 $sp
    addiu $a0 $zero 1; addiu $a1 $zero 1; addiu $a2 $sp 0xFFF0; addiu $a3 $zero 0; addiu $v0 $zero 4265; syscall
    addiu $v0 $zero exit; syscall
    file t at 300000000 kill 23\nat 800000000 kill 25\n
    trace 8 wait 4265 00000001 00000001 7ffeff30 00000000
    trace 10 post 23
    trace 10 signal 23 stop
    trace 11 post 25
    trace 11 cont
    trace 11 restart 4265
    trace 11 wait 4265 00000001 00000001 7ffeff30 00000000
    trace 13 done 00000000 0
    trace 14 exit 1
    o32run run --schedule t --trace trace p = exited 1 1 14

    beq $zero $zero 3; nop
    jr $ra; nop
    lui $t0 0x1000; sw $t0 0xFFC0 $sp
    lui $t0 0x40; ori $t0 $t0 8; sw $t0 0xFFC4 $sp
    addiu $a0 $zero 16; addiu $a1 $sp 0xFFC0; addiu $a2 $zero 0; addiu $a3 $zero 16; addiu $v0 $zero rt_sigaction; syscall
    addiu $v0 $zero pause; syscall
    addiu $v0 $zero exit; syscall
    file t at 1000000 kill 16\n
    trace 13 call 4194 00000010 7ffeff00 00000000 00000010 = 00000000 0
    trace 15 wait 4029 00000010 7ffeff00 00000000 00000000
    trace 17 post 16
    trace 17 done 00000004 1
    trace 17 signal 16 handler
    trace 20 return
    trace 22 exit 16
    o32run run --schedule t --trace trace p = exited 16 16 22

    beq $zero $zero 3; nop
    jr $ra; nop
    lui $t0 0x40; ori $t0 $t0 8; sw $t0 0xFFC4 $sp
    addiu $a0 $zero 16; addiu $a1 $sp 0xFFC0; addiu $a2 $zero 0; addiu $a3 $zero 16; addiu $v0 $zero rt_sigaction; syscall
    addiu $v0 $zero pause; syscall
    addiu $v0 $zero exit; syscall
    file t at 1000000 kill 16\n
    trace 11 call 4194 00000010 7ffeff00 00000000 00000010 = 00000000 0
    trace 13 wait 4029 00000010 7ffeff00 00000000 00000000
    trace 15 post 16
    trace 15 done 00000004 1
    trace 15 signal 16 handler
    trace 18 return
    trace 20 exit 16
    o32run run --schedule t --trace trace p = exited 16 16 20

    addiu $v0 $zero pause; syscall
    file t at 1000000 kill 23\nat 2000000 kill 25\n
    trace 2 wait 4029 00000000 00000000 00000000 00000000
    trace 4 post 23
    trace 4 signal 23 stop
    trace 5 post 25
    trace 5 cont
    trace 5 restart 4029
    trace 5 wait 4029 00000000 00000000 00000000 00000000
    trace 5 blocked
    o32run run --schedule t --trace trace p = blocked 123 5

    beq $zero $zero 3; nop
    jr $ra; nop
    lui $t0 0x1000; sw $t0 0xFFC0 $sp
    lui $t0 0x40; ori $t0 $t0 8; sw $t0 0xFFC4 $sp
    addiu $a0 $zero 16; addiu $a1 $sp 0xFFC0; addiu $a2 $zero 0; addiu $a3 $zero 16; addiu $v0 $zero rt_sigaction; syscall
    addiu $a0 $sp 0xFFD0; addiu $a1 $zero 16; addiu $v0 $zero rt_sigsuspend; syscall
    addiu $v0 $zero exit; syscall
    file t at 1000000 kill 16\n
    trace 13 call 4194 00000010 7ffeff00 00000000 00000010 = 00000000 0
    trace 17 wait 4199 7ffeff10 00000010 00000000 00000000
    trace 19 post 16
    trace 19 done 00000004 1
    trace 19 signal 16 handler
    trace 22 return
    trace 24 exit 16
    o32run run --schedule t --trace trace p = exited 16 16 24

    beq $zero $zero 3; nop
    jr $ra; nop
    lui $t0 0x40; ori $t0 $t0 8; sw $t0 0xFFC4 $sp
    addiu $a0 $zero 16; addiu $a1 $sp 0xFFC0; addiu $a2 $zero 0; addiu $a3 $zero 16; addiu $v0 $zero rt_sigaction; syscall
    addiu $a0 $sp 0xFFD0; addiu $a1 $zero 16; addiu $v0 $zero rt_sigsuspend; syscall
    addiu $v0 $zero exit; syscall
    file t at 1000000 kill 16\n
    trace 11 call 4194 00000010 7ffeff00 00000000 00000010 = 00000000 0
    trace 15 wait 4199 7ffeff10 00000010 00000000 00000000
    trace 17 post 16
    trace 17 done 00000004 1
    trace 17 signal 16 handler
    trace 20 return
    trace 22 exit 16
    o32run run --schedule t --trace trace p = exited 16 16 22

    addiu $a0 $sp 0xFFD0; addiu $a1 $zero 16; addiu $v0 $zero rt_sigsuspend; syscall
    file t at 1000000 kill 23\nat 2000000 kill 25\n
    trace 4 wait 4199 7ffeff10 00000010 00000000 00000000
    trace 6 post 23
    trace 6 signal 23 stop
    trace 7 post 25
    trace 7 cont
    trace 7 restart 4199
    trace 7 wait 4199 7ffeff10 00000010 00000000 00000000
    trace 7 blocked
    o32run run --schedule t --trace trace p = blocked 123 7
";

#[test]
fn transfers(rt: HostRuntime) -> Result<(), Fail> {
    assert_eq!(rt; first_wrong(rt.alloc(), "", TRANSFERS)?, None);
    Ok(())
}

#[test]
fn some_bytes_done(rt: HostRuntime) -> Result<(), Fail> {
    assert_eq!(rt; first_wrong(rt.alloc(), "", SOME_BYTES_DONE)?, None);
    Ok(())
}

#[test]
fn lengths_of_time(rt: HostRuntime) -> Result<(), Fail> {
    assert_eq!(rt; first_wrong(rt.alloc(), "", LENGTHS_OF_TIME)?, None);
    Ok(())
}

#[test]
fn others(rt: HostRuntime) -> Result<(), Fail> {
    assert_eq!(rt; first_wrong(rt.alloc(), "", OTHERS)?, None);
    Ok(())
}
