//! poll(2) and ppoll(2): what they tell of each entry, what they refuse and in which order, how long they wait, and under which mask.
//!
//! An entry is a descriptor and a word of what is asked, in its upper half, and what is told, in its lower half: POLLIN is 1, POLLPRI 2,
//! POLLOUT 4, POLLERR 8, POLLHUP 0x10, POLLNVAL 0x20, POLLRDNORM 0x40, POLLRDBAND 0x80 and POLLWRBAND 0x100.
use session_scripts::first_wrong;
use std::test::Fail;

/// A descriptor that is not open, 99, is POLLNVAL. ppoll(2) of no entry, without a time, whose mask lets the pending 16 through: EINTR, 4,
/// and its handler writes the mask in the frame, which is the one before the call. An empty pipe is not ready within 5 ms, and then the clock
/// is 5 ms on, with the few turns behind it; with a byte in it, it is at once. Without an end nothing comes; and with a time of 0 the call
/// ends at once, and what was in the lower half of the word is gone.
const WAITS: &str = r"
    addiu $t0 $zero 99; sw $t0 0xFF80 $sp; sw $zero 0xFF84 $sp
    addiu $a0 $sp 0xFF80; addiu $a1 $zero 1; addiu $a2 $zero 0; addiu $v0 $zero poll; syscall
    lw $a0 0xFF84 $sp; addiu $v0 $zero exit; syscall
    trace 8 call 4188 7ffefec0 00000001 00000000 00000000 = 00000001 0
    trace 11 exit 32
    o32run run --trace trace p = exited 32 32 11

    beq $zero $zero 8; nop
    addiu $a0 $zero 1; addiu $a1 $sp 616; addiu $a2 $zero 16; addiu $v0 $zero write; syscall; jr $ra; nop
    lui $t0 0x40; ori $t0 $t0 8; sw $t0 0xFFC4 $sp
    addiu $a0 $zero 16; addiu $a1 $sp 0xFFC0; addiu $a2 $zero 0; addiu $a3 $zero 16; addiu $v0 $zero rt_sigaction; syscall
    ori $t0 $zero 0x8000; sw $t0 0xFFE0 $sp
    addiu $a0 $zero 1; addiu $a1 $sp 0xFFE0; addiu $a2 $zero 0; addiu $a3 $zero 16; addiu $v0 $zero rt_sigprocmask; syscall
    addiu $a0 $zero 100; addiu $a1 $zero 16; addiu $v0 $zero kill; syscall
    addiu $t0 $zero 16; sw $t0 16 $sp
    addiu $a0 $sp 0xFF80; addiu $a1 $zero 0; addiu $a2 $zero 0; addiu $a3 $sp 0xFFD0; addiu $v0 $zero ppoll; syscall
    addiu $a0 $v0 0; addiu $v0 $zero exit; syscall
    out \0\0\x80\0\0\0\0\0\0\0\0\0\0\0\0\0
    trace 11 call 4194 00000010 7ffeff00 00000000 00000010 = 00000000 0
    trace 19 call 4195 00000001 7ffeff20 00000000 00000010 = 00000000 0
    trace 23 call 4037 00000064 00000010 00000000 00000000 = 00000000 0
    trace 31 wait 4302 7ffefec0 00000000 00000000 7ffeff10
    trace 32 done 00000004 1
    trace 32 signal 16 handler
    trace 36 call 4004 00000001 7ffeff10 00000010 00000001 = 00000010 0
    trace 40 return
    trace 43 exit 4
    o32run run --trace trace p = exited 4 4 43

    addiu $v0 $zero pipe; syscall
    addiu $t0 $zero 3; sw $t0 0xFF80 $sp; lui $t0 0x1; sw $t0 0xFF84 $sp
    addiu $a0 $sp 0xFF80; addiu $a1 $zero 1; addiu $a2 $zero 5; addiu $v0 $zero poll; syscall
    addiu $t0 $v0 0
    addiu $a0 $zero 1; addiu $a1 $sp 0xFFE0; addiu $v0 $zero clock_gettime; syscall
    addiu $a0 $zero 1; addiu $a1 $sp 0xFFE0; addiu $a2 $zero 8; addiu $v0 $zero write; syscall
    addiu $a0 $t0 0; addiu $v0 $zero exit; syscall
    out \0\0\0\0\0L\x81\xF0
    trace 2 call 4042 00000000 00000000 00000000 00000000 = 00000003 0
    trace 11 wait 4188 7ffefec0 00000001 00000005 00000000
    trace 13 done 00000000 0
    trace 17 call 4263 00000001 7ffeff20 00000005 00000000 = 00000000 0
    trace 22 call 4004 00000001 7ffeff20 00000008 00000000 = 00000008 0
    trace 25 exit 0
    o32run run --trace trace p = exited 0 0 25

    addiu $v0 $zero pipe; syscall
    addiu $a0 $zero 4; addiu $a1 $sp 0; addiu $a2 $zero 1; addiu $v0 $zero write; syscall
    addiu $t0 $zero 3; sw $t0 0xFF80 $sp; lui $t0 0x1; sw $t0 0xFF84 $sp
    addiu $a0 $sp 0xFF80; addiu $a1 $zero 1; addiu $a2 $zero 5; addiu $v0 $zero poll; syscall
    lw $a0 0xFF84 $sp; addiu $v0 $zero exit; syscall
    trace 2 call 4042 00000000 00000000 00000000 00000000 = 00000003 0
    trace 7 call 4004 00000004 7ffeff40 00000001 00000000 = 00000001 0
    trace 16 call 4188 7ffefec0 00000001 00000005 00000000 = 00000001 0
    trace 19 exit 1
    o32run run --trace trace p = exited 1 1 19

    addiu $v0 $zero pipe; syscall
    addiu $t0 $zero 3; sw $t0 0xFF80 $sp; lui $t0 0x1; sw $t0 0xFF84 $sp
    addiu $a0 $sp 0xFF80; addiu $a1 $zero 1; addiu $a2 $zero 0xFFFF; addiu $v0 $zero poll; syscall
    trace 2 call 4042 00000000 00000000 00000000 00000000 = 00000003 0
    trace 11 wait 4188 7ffefec0 00000001 ffffffff 00000000
    trace 11 blocked
    o32run run --trace trace p = blocked 123 11

    addiu $v0 $zero pipe; syscall
    addiu $t0 $zero 3; sw $t0 0xFF80 $sp; lui $t0 0x1; ori $t0 $t0 0xFFFF; sw $t0 0xFF84 $sp
    addiu $a0 $sp 0xFF80; addiu $a1 $zero 1; addiu $a2 $zero 0; addiu $v0 $zero poll; syscall
    lw $a0 0xFF84 $sp; addiu $v0 $zero exit; syscall
    trace 2 call 4042 00000000 00000000 00000000 00000000 = 00000003 0
    trace 12 call 4188 7ffefec0 00000001 00000000 00000000 = 00000000 0
    trace 15 exit 0
    o32run run --trace trace p = exited 0 0 15
";

/// EFAULT is 14, EINVAL 22: entries that can't be read, and one of which the last four bytes can't; 1,025 entries, before they are read; a
/// count of -1, which is above that too; but not 1,024 entries, and none at an address where nothing is, which wait if there is a time.
const REFUSED: &str = r"
    lui $a0 0x50; addiu $a1 $zero 1; addiu $a2 $zero 0; addiu $v0 $zero poll; syscall
    addiu $a0 $v0 0; addiu $v0 $zero exit; syscall
    o32run run p = exited 14 14 8

    addiu $a0 $sp 0xBC; addiu $a1 $zero 1; addiu $a2 $zero 0; addiu $v0 $zero poll; syscall
    addiu $a0 $v0 0; addiu $v0 $zero exit; syscall
    o32run run p = exited 14 14 8

    lui $a0 0x50; addiu $a1 $zero 1025; addiu $a2 $zero 0; addiu $v0 $zero poll; syscall
    addiu $a0 $v0 0; addiu $v0 $zero exit; syscall
    o32run run p = exited 22 22 8

    addiu $a0 $sp 0xFF80; addiu $a1 $zero 0xFFFF; addiu $a2 $zero 0; addiu $v0 $zero poll; syscall
    addiu $a0 $v0 0; addiu $v0 $zero exit; syscall
    o32run run p = exited 22 22 8

    lui $a0 0x7F80; addiu $a1 $zero 1024; addiu $a2 $zero 1; addiu $v0 $zero poll; syscall
    addiu $a0 $v0 0; addiu $v0 $zero exit; syscall
    trace 5 wait 4188 7f800000 00000400 00000001 00000000
    trace 7 done 00000000 0
    trace 9 exit 0
    o32run run --trace trace p = exited 0 0 9

    lui $a0 0x50; addiu $a1 $zero 0; addiu $a2 $zero 0; addiu $v0 $zero poll; syscall
    addiu $a0 $v0 0; addiu $v0 $zero exit; syscall
    o32run run p = exited 0 0 8

    lui $a0 0x50; addiu $a1 $zero 0; addiu $a2 $zero 5; addiu $v0 $zero poll; syscall
    addiu $a0 $v0 0; addiu $v0 $zero exit; syscall
    trace 5 wait 4188 00500000 00000000 00000005 00000000
    trace 7 done 00000000 0
    trace 9 exit 0
    o32run run --trace trace p = exited 0 0 9
";

/// The same of ppoll(2). A word on the stack that can't be read is EFAULT before all else; a time that can't be read, before the mask's size;
/// seconds below 0, before the mask is read; 1,000,000,000 nanoseconds and nanoseconds below 0, but not 999,999,999; another size of a mask
/// than 16, before it is read; a mask that can't be read, before the count; no mask, whose size is nothing; a count, before the entries;
/// entries. restart_syscall(2), 4253, has nothing to go on with.
const PREFUSED: &str = r"
    addiu $t0 $zero 0xFFFF; sw $t0 0xFFF0 $sp
    addiu $a0 $sp 0xFF80; addiu $a1 $zero 0; addiu $a2 $sp 0xFFF0; addiu $a3 $zero 0; lui $sp 0x50; addiu $v0 $zero ppoll; syscall
    addiu $a0 $v0 0; addiu $v0 $zero exit; syscall
    o32run run p = exited 14 14 12

    addiu $t0 $zero 8; sw $t0 16 $sp
    addiu $a0 $sp 0xFF80; addiu $a1 $zero 0; lui $a2 0x50; addiu $a3 $sp 0xFFD0; addiu $v0 $zero ppoll; syscall
    addiu $a0 $v0 0; addiu $v0 $zero exit; syscall
    o32run run p = exited 14 14 11

    addiu $t0 $zero 0xFFFF; sw $t0 0xFFF0 $sp
    addiu $t0 $zero 16; sw $t0 16 $sp
    addiu $a0 $sp 0xFF80; addiu $a1 $zero 0; addiu $a2 $sp 0xFFF0; lui $a3 0x50; addiu $v0 $zero ppoll; syscall
    addiu $a0 $v0 0; addiu $v0 $zero exit; syscall
    o32run run p = exited 22 22 13

    lui $t0 0x3B9A; ori $t0 $t0 0xCA00; sw $t0 0xFFF4 $sp
    sw $zero 16 $sp
    addiu $a0 $sp 0xFF80; addiu $a1 $zero 0; addiu $a2 $sp 0xFFF0; addiu $a3 $zero 0; addiu $v0 $zero ppoll; syscall
    addiu $a0 $v0 0; addiu $v0 $zero exit; syscall
    o32run run p = exited 22 22 13

    addiu $t0 $zero 0xFFFF; sw $t0 0xFFF4 $sp
    sw $zero 16 $sp
    addiu $a0 $sp 0xFF80; addiu $a1 $zero 0; addiu $a2 $sp 0xFFF0; addiu $a3 $zero 0; addiu $v0 $zero ppoll; syscall
    addiu $a0 $v0 0; addiu $v0 $zero exit; syscall
    o32run run p = exited 22 22 12

    lui $t0 0x3B9A; ori $t0 $t0 0xC9FF; sw $t0 0xFFF4 $sp
    sw $zero 16 $sp
    addiu $a0 $sp 0xFF80; addiu $a1 $zero 0; addiu $a2 $sp 0xFFF0; addiu $a3 $zero 0; addiu $v0 $zero ppoll; syscall
    addiu $a0 $v0 0; addiu $v0 $zero exit; syscall
    trace 10 wait 4302 7ffefec0 00000000 7ffeff30 00000000
    trace 12 done 00000000 0
    trace 14 exit 0
    o32run run --trace trace p = exited 0 0 14

    addiu $t0 $zero 8; sw $t0 16 $sp
    addiu $a0 $sp 0xFF80; addiu $a1 $zero 0; addiu $a2 $zero 0; lui $a3 0x50; addiu $v0 $zero ppoll; syscall
    addiu $a0 $v0 0; addiu $v0 $zero exit; syscall
    o32run run p = exited 22 22 11

    addiu $t0 $zero 16; sw $t0 16 $sp
    addiu $a0 $sp 0xFF80; addiu $a1 $zero 1025; addiu $a2 $zero 0; lui $a3 0x50; addiu $v0 $zero ppoll; syscall
    addiu $a0 $v0 0; addiu $v0 $zero exit; syscall
    o32run run p = exited 14 14 11

    addiu $t0 $zero 8; sw $t0 16 $sp
    addiu $a0 $sp 0xFF80; addiu $a1 $zero 0; addiu $a2 $sp 0xFFF0; addiu $a3 $zero 0; addiu $v0 $zero ppoll; syscall
    addiu $a0 $v0 0; addiu $v0 $zero exit; syscall
    o32run run p = exited 0 0 11

    addiu $t0 $zero 16; sw $t0 16 $sp
    lui $a0 0x50; addiu $a1 $zero 1025; addiu $a2 $zero 0; addiu $a3 $sp 0xFFD0; addiu $v0 $zero ppoll; syscall
    addiu $a0 $v0 0; addiu $v0 $zero exit; syscall
    o32run run p = exited 22 22 11

    addiu $t0 $zero 16; sw $t0 16 $sp
    lui $a0 0x50; addiu $a1 $zero 1; addiu $a2 $zero 0; addiu $a3 $sp 0xFFD0; addiu $v0 $zero ppoll; syscall
    addiu $a0 $v0 0; addiu $v0 $zero exit; syscall
    o32run run p = exited 14 14 11

    addiu $v0 $zero 4253; syscall
    addiu $a0 $v0 0; addiu $v0 $zero exit; syscall
    trace 2 call 4253 00000000 00000000 00000000 00000000 = 00000004 1
    trace 5 exit 4
    o32run run --trace trace p = exited 4 4 5
";

/// All that can be asked, 0x1FF, of the three streams, of none, -1, and of one that is not open; of two streams that are a terminal; of a
/// file to read and write, one to write and a directory; then what is asked for alone, and bits that are not listed; of an empty pipe, one
/// with a byte, one without writers, empty and with a byte, and one without readers, where being hung up and an error are told unasked. A
/// pipe is ready for writing with room for 4,096 bytes, and not for 4,095.
const READY: &str = r"
    addiu $t0 $zero 0; sw $t0 0xFF80 $sp; lui $t0 0x1FF; sw $t0 0xFF84 $sp
    addiu $t0 $zero 1; sw $t0 0xFF88 $sp; lui $t0 0x1FF; sw $t0 0xFF8C $sp
    addiu $t0 $zero 2; sw $t0 0xFF90 $sp; lui $t0 0x1FF; sw $t0 0xFF94 $sp
    addiu $t0 $zero 0xFFFF; sw $t0 0xFF98 $sp; lui $t0 0x1FF; ori $t0 $t0 0xFFFF; sw $t0 0xFF9C $sp
    addiu $t0 $zero 9; sw $t0 0xFFA0 $sp; sw $zero 0xFFA4 $sp
    addiu $a0 $sp 0xFF80; addiu $a1 $zero 5; addiu $a2 $zero 0; addiu $v0 $zero poll; syscall
    addiu $t0 $v0 0
    addiu $a0 $zero 1; addiu $a1 $sp 0xFF80; addiu $a2 $zero 40; addiu $v0 $zero write; syscall
    addiu $a0 $t0 0; addiu $v0 $zero exit; syscall
    out \0\0\0\0\x01\xFF\0A\0\0\0\x01\x01\xFF\0\x04\0\0\0\x02\x01\xFF\0\x04\xFF\xFF\xFF\xFF\x01\xFF\0\0\0\0\0\x09\0\0\0\x20
    trace 25 call 4188 7ffefec0 00000005 00000000 00000000 = 00000004 0
    trace 31 call 4004 00000001 7ffefec0 00000028 00000000 = 00000028 0
    trace 34 exit 4
    o32run run --trace trace p = exited 4 4 34

    addiu $t0 $zero 0; sw $t0 0xFF80 $sp; lui $t0 0x5; sw $t0 0xFF84 $sp
    addiu $t0 $zero 1; sw $t0 0xFF88 $sp; lui $t0 0x5; sw $t0 0xFF8C $sp
    addiu $a0 $sp 0xFF80; addiu $a1 $zero 2; addiu $a2 $zero 0; addiu $v0 $zero poll; syscall
    addiu $t0 $v0 0
    addiu $a0 $zero 1; addiu $a1 $sp 0xFF80; addiu $a2 $zero 16; addiu $v0 $zero write; syscall
    addiu $a0 $t0 0; addiu $v0 $zero exit; syscall
    file t tty 25 80\n
    out \0\0\0\0\0\x05\0\x01\0\0\0\x01\0\x05\0\x04
    o32run run --schedule t p = exited 2 2 22

    lui $t0 0x2F66; sw $t0 0xFFF0 $sp
    addiu $a0 $sp 0xFFF0; addiu $a1 $zero 0x102; addiu $a2 $zero 0; addiu $v0 $zero open; syscall
    addiu $a1 $zero 1; addiu $v0 $zero open; syscall
    lui $t0 0x2F00; sw $t0 0xFFF0 $sp; addiu $a0 $sp 0xFFF0; lui $a1 1; addiu $v0 $zero open; syscall
    addiu $t0 $zero 3; sw $t0 0xFF80 $sp; lui $t0 0x1FF; sw $t0 0xFF84 $sp
    addiu $t0 $zero 4; sw $t0 0xFF88 $sp; lui $t0 0x1FF; sw $t0 0xFF8C $sp
    addiu $t0 $zero 5; sw $t0 0xFF90 $sp; lui $t0 0x1FF; sw $t0 0xFF94 $sp
    addiu $a0 $sp 0xFF80; addiu $a1 $zero 3; addiu $a2 $zero 0; addiu $v0 $zero poll; syscall
    addiu $t0 $v0 0
    addiu $a0 $zero 1; addiu $a1 $sp 0xFF80; addiu $a2 $zero 24; addiu $v0 $zero write; syscall
    addiu $a0 $t0 0; addiu $v0 $zero exit; syscall
    out \0\0\0\x03\x01\xFF\0E\0\0\0\x04\x01\xFF\0E\0\0\0\x05\x01\xFF\0E
    o32run run p = exited 3 3 42

    addiu $t0 $zero 0; sw $t0 0xFF80 $sp; lui $t0 0x86; ori $t0 $t0 0xFFFF; sw $t0 0xFF84 $sp
    addiu $t0 $zero 0; sw $t0 0xFF88 $sp; lui $t0 0x40; sw $t0 0xFF8C $sp
    addiu $t0 $zero 0; sw $t0 0xFF90 $sp; lui $t0 0x1; sw $t0 0xFF94 $sp
    addiu $t0 $zero 0; sw $t0 0xFF98 $sp; lui $t0 0xFE38; ori $t0 $t0 0xFFFF; sw $t0 0xFF9C $sp
    addiu $t0 $zero 1; sw $t0 0xFFA0 $sp; lui $t0 0x100; sw $t0 0xFFA4 $sp
    addiu $t0 $zero 1; sw $t0 0xFFA8 $sp; lui $t0 0x4; sw $t0 0xFFAC $sp
    addiu $a0 $sp 0xFF80; addiu $a1 $zero 6; addiu $a2 $zero 0; addiu $v0 $zero poll; syscall
    addiu $t0 $v0 0
    addiu $a0 $zero 1; addiu $a1 $sp 0xFF80; addiu $a2 $zero 48; addiu $v0 $zero write; syscall
    addiu $a0 $t0 0; addiu $v0 $zero exit; syscall
    out \0\0\0\0\0\x86\0\0\0\0\0\0\0@\0@\0\0\0\0\0\x01\0\x01\0\0\0\0\xFE8\0\0\0\0\0\x01\x01\0\0\0\0\0\0\x01\0\x04\0\x04
    o32run run p = exited 3 3 40

    addiu $v0 $zero pipe; syscall
    addiu $t0 $zero 3; sw $t0 0xFF80 $sp; lui $t0 0x1FF; sw $t0 0xFF84 $sp
    addiu $t0 $zero 4; sw $t0 0xFF88 $sp; lui $t0 0x1FF; sw $t0 0xFF8C $sp
    addiu $t0 $zero 4; sw $t0 0xFF90 $sp; lui $t0 0x41; ori $t0 $t0 0xFFFF; sw $t0 0xFF94 $sp
    addiu $a0 $sp 0xFF80; addiu $a1 $zero 3; addiu $a2 $zero 0; addiu $v0 $zero poll; syscall
    addiu $t0 $v0 0
    addiu $a0 $zero 1; addiu $a1 $sp 0xFF80; addiu $a2 $zero 24; addiu $v0 $zero write; syscall
    addiu $a0 $t0 0; addiu $v0 $zero exit; syscall
    out \0\0\0\x03\x01\xFF\0\0\0\0\0\x04\x01\xFF\0\x04\0\0\0\x04\0A\0\0
    o32run run p = exited 1 1 29

    addiu $v0 $zero pipe; syscall
    addiu $a0 $zero 4; addiu $a1 $sp 0; addiu $a2 $zero 1; addiu $v0 $zero write; syscall
    addiu $t0 $zero 3; sw $t0 0xFF80 $sp; lui $t0 0x1FF; sw $t0 0xFF84 $sp
    addiu $t0 $zero 3; sw $t0 0xFF88 $sp; lui $t0 0x4; sw $t0 0xFF8C $sp
    addiu $t0 $zero 3; sw $t0 0xFF90 $sp; lui $t0 0x40; sw $t0 0xFF94 $sp
    addiu $a0 $sp 0xFF80; addiu $a1 $zero 3; addiu $a2 $zero 0; addiu $v0 $zero poll; syscall
    addiu $t0 $v0 0
    addiu $a0 $zero 1; addiu $a1 $sp 0xFF80; addiu $a2 $zero 24; addiu $v0 $zero write; syscall
    addiu $a0 $t0 0; addiu $v0 $zero exit; syscall
    out \0\0\0\x03\x01\xFF\0A\0\0\0\x03\0\x04\0\0\0\0\0\x03\0@\0@
    o32run run p = exited 2 2 33

    addiu $v0 $zero pipe; syscall
    addiu $a0 $zero 4; addiu $v0 $zero close; syscall
    addiu $t0 $zero 3; sw $t0 0xFF80 $sp; lui $t0 0x1FF; sw $t0 0xFF84 $sp
    addiu $t0 $zero 3; sw $t0 0xFF88 $sp; sw $zero 0xFF8C $sp
    addiu $t0 $zero 4; sw $t0 0xFF90 $sp; lui $t0 0x1FF; sw $t0 0xFF94 $sp
    addiu $a0 $sp 0xFF80; addiu $a1 $zero 3; addiu $a2 $zero 0; addiu $v0 $zero poll; syscall
    addiu $t0 $v0 0
    addiu $a0 $zero 1; addiu $a1 $sp 0xFF80; addiu $a2 $zero 24; addiu $v0 $zero write; syscall
    addiu $a0 $t0 0; addiu $v0 $zero exit; syscall
    out \0\0\0\x03\x01\xFF\0\x10\0\0\0\x03\0\0\0\x10\0\0\0\x04\x01\xFF\0\x20
    o32run run p = exited 3 3 30

    addiu $v0 $zero pipe; syscall
    addiu $a0 $zero 4; addiu $a1 $sp 0; addiu $a2 $zero 1; addiu $v0 $zero write; syscall
    addiu $a0 $zero 4; addiu $v0 $zero close; syscall
    addiu $t0 $zero 3; sw $t0 0xFF80 $sp; lui $t0 0x1FF; sw $t0 0xFF84 $sp
    addiu $t0 $zero 3; sw $t0 0xFF88 $sp; sw $zero 0xFF8C $sp
    addiu $a0 $sp 0xFF80; addiu $a1 $zero 2; addiu $a2 $zero 0; addiu $v0 $zero poll; syscall
    addiu $t0 $v0 0
    addiu $a0 $zero 1; addiu $a1 $sp 0xFF80; addiu $a2 $zero 16; addiu $v0 $zero write; syscall
    addiu $a0 $t0 0; addiu $v0 $zero exit; syscall
    out \0\0\0\x03\x01\xFF\0Q\0\0\0\x03\0\0\0\x10
    o32run run p = exited 2 2 31

    addiu $v0 $zero pipe; syscall
    addiu $a0 $zero 3; addiu $v0 $zero close; syscall
    addiu $t0 $zero 4; sw $t0 0xFF80 $sp; lui $t0 0x1FF; sw $t0 0xFF84 $sp
    addiu $t0 $zero 4; sw $t0 0xFF88 $sp; sw $zero 0xFF8C $sp
    addiu $a0 $sp 0xFF80; addiu $a1 $zero 2; addiu $a2 $zero 0; addiu $v0 $zero poll; syscall
    addiu $t0 $v0 0
    addiu $a0 $zero 1; addiu $a1 $sp 0xFF80; addiu $a2 $zero 16; addiu $v0 $zero write; syscall
    addiu $a0 $t0 0; addiu $v0 $zero exit; syscall
    out \0\0\0\x04\x01\xFF\0\x08\0\0\0\x04\0\0\0\x08
    o32run run p = exited 2 2 26

    addiu $v0 $zero pipe; syscall
    addiu $a0 $zero 4; lui $a1 0x7F80; ori $a2 $zero 0xF000; addiu $v0 $zero write; syscall
    addiu $t0 $zero 4; sw $t0 0xFF80 $sp; lui $t0 0x4; sw $t0 0xFF84 $sp
    addiu $a0 $sp 0xFF80; addiu $a1 $zero 1; addiu $a2 $zero 0; addiu $v0 $zero poll; syscall
    addiu $a0 $v0 0; addiu $v0 $zero exit; syscall
    o32run run p = exited 1 1 19

    addiu $v0 $zero pipe; syscall
    addiu $a0 $zero 4; lui $a1 0x7F80; ori $a2 $zero 0xF001; addiu $v0 $zero write; syscall
    addiu $t0 $zero 4; sw $t0 0xFF80 $sp; lui $t0 0x4; sw $t0 0xFF84 $sp
    addiu $a0 $sp 0xFF80; addiu $a1 $zero 1; addiu $a2 $zero 1; addiu $v0 $zero poll; syscall
    addiu $a0 $v0 0; addiu $v0 $zero exit; syscall
    trace 2 call 4042 00000000 00000000 00000000 00000000 = 00000003 0
    trace 7 call 4004 00000004 7f800000 0000f001 00000000 = 0000f001 0
    trace 16 wait 4188 7ffefec0 00000001 00000001 00000000
    trace 18 done 00000000 0
    trace 20 exit 0
    o32run run --trace trace p = exited 0 0 20

    addiu $v0 $zero pipe; syscall
    addiu $a0 $zero 3; addiu $v0 $zero close; syscall
    addiu $t0 $zero 4; sw $t0 0xFF80 $sp; sw $zero 0xFF84 $sp
    sw $zero 16 $sp
    addiu $a0 $sp 0xFF80; addiu $a1 $zero 1; addiu $a2 $zero 0; addiu $a3 $zero 0; addiu $v0 $zero ppoll; syscall
    lw $a0 0xFF84 $sp; addiu $v0 $zero exit; syscall
    trace 2 call 4042 00000000 00000000 00000000 00000000 = 00000003 0
    trace 5 call 4006 00000003 00000000 00000000 00000000 = 00000000 0
    trace 15 call 4302 7ffefec0 00000001 00000000 00000000 = 00000001 0
    trace 18 exit 8
    o32run run --trace trace p = exited 8 8 18
";

/// Two entries, of which the second stands in a page that can't be written: EFAULT, and what is told of the first stands, at once and when
/// the time is over, where ppoll(2) stores that nothing is left of it. What a handler ends stores nothing.
const STORED: &str = r"
    lui $a0 0x7FFF; addiu $a1 $zero 0x1000; addiu $a2 $zero 1; addiu $a3 $zero 0x812; addiu $v0 $zero mmap2; syscall
    addiu $t0 $zero 1; sw $t0 0xB8 $sp; lui $t0 0x4; sw $t0 0xBC $sp
    addiu $a0 $sp 0xB8; addiu $a1 $zero 2; addiu $a2 $zero 0; addiu $v0 $zero poll; syscall
    lw $a0 0xBC $sp; addiu $v0 $zero exit; syscall
    trace 6 call 4210 7fff0000 00001000 00000001 00000812 = 7fff0000 0
    trace 15 call 4188 7ffefff8 00000002 00000000 00000000 = 0000000e 1
    trace 18 exit 4
    o32run run --trace trace p = exited 4 4 18

    lui $a0 0x7FFF; addiu $a1 $zero 0x1000; addiu $a2 $zero 1; addiu $a3 $zero 0x812; addiu $v0 $zero mmap2; syscall
    addiu $v0 $zero pipe; syscall
    addiu $t0 $zero 3; sw $t0 0xB8 $sp; lui $t0 0x1; ori $t0 $t0 0xFFFF; sw $t0 0xBC $sp
    addiu $a0 $sp 0xB8; addiu $a1 $zero 2; addiu $a2 $zero 1; addiu $v0 $zero poll; syscall
    lw $a0 0xBC $sp; addiu $v0 $zero exit; syscall
    trace 6 call 4210 7fff0000 00001000 00000001 00000812 = 7fff0000 0
    trace 8 call 4042 7fff0000 00001000 00000001 00000000 = 00000003 0
    trace 18 wait 4188 7ffefff8 00000002 00000001 00000000
    trace 20 done 0000000e 1
    trace 22 exit 0
    o32run run --trace trace p = exited 0 0 22

    lui $a0 0x7FFF; addiu $a1 $zero 0x1000; addiu $a2 $zero 1; addiu $a3 $zero 0x812; addiu $v0 $zero mmap2; syscall
    addiu $v0 $zero pipe; syscall
    addiu $t0 $zero 3; sw $t0 0xB8 $sp; lui $t0 0x1; ori $t0 $t0 0xFFFF; sw $t0 0xBC $sp
    lui $t0 0xF; ori $t0 $t0 0x4240; sw $t0 0xFFF4 $sp
    sw $zero 16 $sp
    addiu $a0 $sp 0xB8; addiu $a1 $zero 2; addiu $a2 $sp 0xFFF0; addiu $a3 $zero 0; addiu $v0 $zero ppoll; syscall
    addiu $a0 $zero 1; addiu $a1 $sp 0xFFF0; addiu $a2 $zero 8; addiu $v0 $zero write; syscall
    lw $a0 0xBC $sp; addiu $v0 $zero exit; syscall
    out \0\0\0\0\0\0\0\0
    trace 6 call 4210 7fff0000 00001000 00000001 00000812 = 7fff0000 0
    trace 8 call 4042 7fff0000 00001000 00000001 00000000 = 00000003 0
    trace 23 wait 4302 7ffefff8 00000002 7ffeff30 00000000
    trace 25 done 0000000e 1
    trace 29 call 4004 00000001 7ffeff30 00000008 00000001 = 00000008 0
    trace 32 exit 0
    o32run run --trace trace p = exited 0 0 32

    lui $a0 0x7FFF; addiu $a1 $zero 0x1000; addiu $a2 $zero 1; addiu $a3 $zero 0x812; addiu $v0 $zero mmap2; syscall
    addiu $t0 $zero 1; sw $t0 0xB8 $sp; lui $t0 0x4; sw $t0 0xBC $sp
    sw $zero 16 $sp
    addiu $a0 $sp 0xB8; addiu $a1 $zero 2; addiu $a2 $zero 0; addiu $a3 $zero 0; addiu $v0 $zero ppoll; syscall
    lw $a0 0xBC $sp; addiu $v0 $zero exit; syscall
    trace 6 call 4210 7fff0000 00001000 00000001 00000812 = 7fff0000 0
    trace 17 call 4302 7ffefff8 00000002 00000000 00000000 = 0000000e 1
    trace 20 exit 4
    o32run run --trace trace p = exited 4 4 20

    beq $zero $zero 3; nop
    jr $ra; nop
    lui $t0 0x40; ori $t0 $t0 8; sw $t0 0xFFC4 $sp
    addiu $a0 $zero 16; addiu $a1 $sp 0xFFC0; addiu $a2 $zero 0; addiu $a3 $zero 16; addiu $v0 $zero rt_sigaction; syscall
    addiu $v0 $zero pipe; syscall
    addiu $t0 $zero 3; sw $t0 0xFFE8 $sp; lui $t0 0x1; ori $t0 $t0 0xFFFF; sw $t0 0xFFEC $sp
    addiu $a0 $sp 0xFFE8; addiu $a1 $zero 1; addiu $a2 $zero 5; addiu $v0 $zero poll; syscall
    lw $a0 0xFFEC $sp; addiu $v0 $zero exit; syscall
    file t at 1000000 kill 16\n
    trace 11 call 4194 00000010 7ffeff00 00000000 00000010 = 00000000 0
    trace 13 call 4042 00000010 7ffeff00 00000000 00000000 = 00000003 0
    trace 23 wait 4188 7ffeff28 00000001 00000005 00000000
    trace 25 post 16
    trace 25 done 00000004 1
    trace 25 signal 16 handler
    trace 28 return
    trace 31 exit 255
    o32run run --schedule t --trace trace p = exited 255 255 31
";

/// What ppoll(2) leaves of its time: all of it at once, which is stored behind the entries, nothing when it is over, and the half of a second
/// behind a handler; a time that is none stays. 2,147,483,647 seconds are over, and behind them twice as many, past 2^61 nanoseconds, never.
/// Where it can't be stored, the answer stands; but by a stop and SIGCONT, 25, it is EINTR then, and the mask is put back, so that one
/// instruction later the handler of 16 begins.
const LEFT: &str = r"
    addiu $t0 $zero 5; sw $t0 0xFFF0 $sp; addiu $t0 $zero 7; sw $t0 0xFFF4 $sp
    addiu $t0 $zero 1; sw $t0 0xFF80 $sp; lui $t0 0x4; sw $t0 0xFF84 $sp
    sw $zero 16 $sp
    addiu $a0 $sp 0xFF80; addiu $a1 $zero 1; addiu $a2 $sp 0xFFF0; addiu $a3 $zero 0; addiu $v0 $zero ppoll; syscall
    addiu $a0 $zero 1; addiu $a1 $sp 0xFFF0; addiu $a2 $zero 8; addiu $v0 $zero write; syscall
    addiu $a0 $zero 0; addiu $v0 $zero exit; syscall
    out \0\0\0\x05\0\0\0\x07
    trace 15 call 4302 7ffefec0 00000001 7ffeff30 00000000 = 00000001 0
    trace 20 call 4004 00000001 7ffeff30 00000008 00000000 = 00000008 0
    trace 23 exit 0
    o32run run --trace trace p = exited 0 0 23

    addiu $t0 $zero 1; sw $t0 0xFFF0 $sp; lui $t0 0x4; sw $t0 0xFFF4 $sp
    sw $zero 16 $sp
    addiu $a0 $sp 0xFFF0; addiu $a1 $zero 1; addiu $a2 $sp 0xFFF0; addiu $a3 $zero 0; addiu $v0 $zero ppoll; syscall
    addiu $t0 $v0 0
    addiu $a0 $zero 1; addiu $a1 $sp 0xFFF0; addiu $a2 $zero 8; addiu $v0 $zero write; syscall
    addiu $a0 $t0 0; addiu $v0 $zero exit; syscall
    out \0\0\0\x01\0\x04\0\0
    trace 11 call 4302 7ffeff30 00000001 7ffeff30 00000000 = 00000001 0
    trace 17 call 4004 00000001 7ffeff30 00000008 00000000 = 00000008 0
    trace 20 exit 1
    o32run run --trace trace p = exited 1 1 20

    lui $t0 0xF; ori $t0 $t0 0x4240; sw $t0 0xFFF4 $sp
    sw $zero 16 $sp
    addiu $a0 $sp 0xFF80; addiu $a1 $zero 0; addiu $a2 $sp 0xFFF0; addiu $a3 $zero 0; addiu $v0 $zero ppoll; syscall
    addiu $a0 $zero 1; addiu $a1 $sp 0xFFF0; addiu $a2 $zero 8; addiu $v0 $zero write; syscall
    addiu $a0 $zero 0; addiu $v0 $zero exit; syscall
    out \0\0\0\0\0\0\0\0
    trace 10 wait 4302 7ffefec0 00000000 7ffeff30 00000000
    trace 12 done 00000000 0
    trace 16 call 4004 00000001 7ffeff30 00000008 00000000 = 00000008 0
    trace 19 exit 0
    o32run run --trace trace p = exited 0 0 19

    lui $t0 0x7FFF; ori $t0 $t0 0xFFFF; sw $t0 0xFFF0 $sp
    sw $zero 16 $sp
    addiu $a0 $sp 0xFF80; addiu $a1 $zero 0; addiu $a2 $sp 0xFFF0; addiu $a3 $zero 0; addiu $v0 $zero ppoll; syscall
    lui $t0 0x7FFF; ori $t0 $t0 0xFFFF; sw $t0 0xFFF0 $sp
    addiu $a0 $sp 0xFF80; addiu $v0 $zero ppoll; syscall
    trace 10 wait 4302 7ffefec0 00000000 7ffeff30 00000000
    trace 12 done 00000000 0
    trace 17 wait 4302 7ffefec0 00000000 7ffeff30 00000000
    trace 17 blocked
    o32run run --trace trace p = blocked 123 17

    beq $zero $zero 3; nop
    jr $ra; nop
    lui $t0 0x40; ori $t0 $t0 8; sw $t0 0xFFC4 $sp
    addiu $a0 $zero 16; addiu $a1 $sp 0xFFC0; addiu $a2 $zero 0; addiu $a3 $zero 16; addiu $v0 $zero rt_sigaction; syscall
    addiu $t0 $zero 1; sw $t0 0xFFF0 $sp
    sw $zero 16 $sp
    addiu $a0 $sp 0xFF80; addiu $a1 $zero 0; addiu $a2 $sp 0xFFF0; addiu $a3 $zero 0; addiu $v0 $zero ppoll; syscall
    addiu $a0 $zero 1; addiu $a1 $sp 0xFFF0; addiu $a2 $zero 8; addiu $v0 $zero write; syscall
    addiu $a0 $zero 0; addiu $v0 $zero exit; syscall
    file t at 500000000 kill 16\n
    out \0\0\0\0\x1D\xCD\xAF8
    trace 11 call 4194 00000010 7ffeff00 00000000 00000010 = 00000000 0
    trace 20 wait 4302 7ffefec0 00000000 7ffeff30 00000000
    trace 22 post 16
    trace 22 done 00000004 1
    trace 22 signal 16 handler
    trace 25 return
    trace 30 call 4004 00000001 7ffeff30 00000008 00000001 = 00000008 0
    trace 33 exit 0
    o32run run --schedule t --trace trace p = exited 0 0 33

    addiu $t0 $zero 5; sw $t0 0xFFF0 $sp
    lui $t0 0x3B9A; ori $t0 $t0 0xCA00; sw $t0 0xFFF4 $sp
    sw $zero 16 $sp
    addiu $a0 $sp 0xFF80; addiu $a1 $zero 0; addiu $a2 $sp 0xFFF0; addiu $a3 $zero 0; addiu $v0 $zero ppoll; syscall
    addiu $a0 $zero 1; addiu $a1 $sp 0xFFF0; addiu $a2 $zero 8; addiu $v0 $zero write; syscall
    addiu $a0 $zero 0; addiu $v0 $zero exit; syscall
    out \0\0\0\x05;\x9A\xCA\0
    trace 12 call 4302 7ffefec0 00000000 7ffeff30 00000000 = 00000016 1
    trace 17 call 4004 00000001 7ffeff30 00000008 00000001 = 00000008 0
    trace 20 exit 0
    o32run run --trace trace p = exited 0 0 20

    lui $s0 0x7FFE; ori $s0 $s0 0xE000; addiu $t0 $zero 1; sw $t0 0 $s0
    addiu $a0 $s0 0; addiu $a1 $zero 0x1000; addiu $a2 $zero 1; addiu $v0 $zero mprotect; syscall
    sw $zero 16 $sp
    addiu $a0 $sp 0xFF80; addiu $a1 $zero 0; addiu $a2 $s0 0; addiu $a3 $zero 0; addiu $v0 $zero ppoll; syscall
    lw $a0 0 $s0; addiu $v0 $zero exit; syscall
    trace 9 call 4125 7ffee000 00001000 00000001 00000000 = 00000000 0
    trace 16 wait 4302 7ffefec0 00000000 7ffee000 00000000
    trace 18 done 00000000 0
    trace 20 exit 1
    o32run run --trace trace p = exited 1 1 20

    lui $s0 0x7FFE; ori $s0 $s0 0xE000; addiu $t0 $zero 1; sw $t0 0 $s0
    addiu $a0 $s0 0; addiu $a1 $zero 0x1000; addiu $a2 $zero 1; addiu $v0 $zero mprotect; syscall
    addiu $t0 $zero 1; sw $t0 0xFF80 $sp; lui $t0 0x4; sw $t0 0xFF84 $sp
    sw $zero 16 $sp
    addiu $a0 $sp 0xFF80; addiu $a1 $zero 1; addiu $a2 $s0 0; addiu $a3 $zero 0; addiu $v0 $zero ppoll; syscall
    addiu $a0 $v0 0; addiu $v0 $zero exit; syscall
    trace 9 call 4125 7ffee000 00001000 00000001 00000000 = 00000000 0
    trace 20 call 4302 7ffefec0 00000001 7ffee000 00000000 = 00000001 0
    trace 23 exit 1
    o32run run --trace trace p = exited 1 1 23

    beq $zero $zero 3; nop
    jr $ra; nop
    lui $t0 0x40; ori $t0 $t0 8; sw $t0 0xFFC4 $sp
    addiu $a0 $zero 16; addiu $a1 $sp 0xFFC0; addiu $a2 $zero 0; addiu $a3 $zero 16; addiu $v0 $zero rt_sigaction; syscall
    lui $s0 0x7FFE; ori $s0 $s0 0xE000; addiu $t0 $zero 1; sw $t0 0 $s0
    addiu $a0 $s0 0; addiu $a1 $zero 0x1000; addiu $a2 $zero 1; addiu $v0 $zero mprotect; syscall
    sw $zero 16 $sp
    addiu $a0 $sp 0xFF80; addiu $a1 $zero 0; addiu $a2 $s0 0; addiu $a3 $zero 0; addiu $v0 $zero ppoll; syscall
    lw $a0 0 $s0; addiu $v0 $zero exit; syscall
    file t at 500000000 kill 16\n
    trace 11 call 4194 00000010 7ffeff00 00000000 00000010 = 00000000 0
    trace 20 call 4125 7ffee000 00001000 00000001 00000000 = 00000000 0
    trace 27 wait 4302 7ffefec0 00000000 7ffee000 00000000
    trace 29 post 16
    trace 29 done 00000004 1
    trace 29 signal 16 handler
    trace 32 return
    trace 35 exit 1
    o32run run --schedule t --trace trace p = exited 1 1 35

    beq $zero $zero 3; nop
    jr $ra; nop
    lui $t0 0x40; ori $t0 $t0 8; sw $t0 0xFFC4 $sp
    addiu $a0 $zero 16; addiu $a1 $sp 0xFFC0; addiu $a2 $zero 0; addiu $a3 $zero 16; addiu $v0 $zero rt_sigaction; syscall
    lui $s0 0x7FFE; ori $s0 $s0 0xE000; addiu $t0 $zero 1; sw $t0 0 $s0
    addiu $a0 $s0 0; addiu $a1 $zero 0x1000; addiu $a2 $zero 1; addiu $v0 $zero mprotect; syscall
    ori $t0 $zero 0x8000; sw $t0 0xFFD0 $sp
    addiu $t0 $zero 16; sw $t0 16 $sp
    addiu $a0 $sp 0xFF80; addiu $a1 $zero 0; addiu $a2 $s0 0; addiu $a3 $sp 0xFFD0; addiu $v0 $zero ppoll; syscall
    addiu $a0 $v0 0; addiu $v0 $zero exit; syscall
    file t at 300000000 kill 23\nat 500000000 kill 16\nat 800000000 kill 25\n
    trace 11 call 4194 00000010 7ffeff00 00000000 00000010 = 00000000 0
    trace 20 call 4125 7ffee000 00001000 00000001 00000000 = 00000000 0
    trace 30 wait 4302 7ffefec0 00000000 7ffee000 7ffeff10
    trace 32 post 23
    trace 32 signal 23 stop
    trace 33 post 16
    trace 34 post 25
    trace 34 cont
    trace 34 done 00000004 1
    trace 35 signal 16 handler
    trace 38 return
    trace 40 exit 4
    o32run run --schedule t --trace trace p = exited 4 4 40

    lui $s0 0x7FFE; ori $s0 $s0 0xE000; addiu $t0 $zero 1; sw $t0 0 $s0
    addiu $a0 $s0 0; addiu $a1 $zero 0x1000; addiu $a2 $zero 1; addiu $v0 $zero mprotect; syscall
    sw $zero 16 $sp
    addiu $a0 $sp 0xFF80; addiu $a1 $zero 0; addiu $a2 $s0 0; addiu $a3 $zero 0; addiu $v0 $zero ppoll; syscall
    addiu $a0 $v0 0; addiu $v0 $zero exit; syscall
    file t at 300000000 kill 23\nat 800000000 kill 25\n
    trace 9 call 4125 7ffee000 00001000 00000001 00000000 = 00000000 0
    trace 16 wait 4302 7ffefec0 00000000 7ffee000 00000000
    trace 18 post 23
    trace 18 signal 23 stop
    trace 19 post 25
    trace 19 cont
    trace 19 done 00000004 1
    trace 21 exit 4
    o32run run --schedule t --trace trace p = exited 4 4 21
";

/// ppoll(2) with a mask that has 16, which comes and waits for the end, at which the mask before is put back. In the handler of 16 its own
/// mask, here with 14, stands beside 16, and the frame has the mask before. A call that does not wait leaves the mask, and so does one that
/// is refused. SIGKILL, 9, and SIGSTOP, 23, can't be blocked; behind a stop and SIGCONT, 25, which pends too where it is blocked, the call is
/// carried out again with its mask, by which 16 waits for the end though it came while the process was stopped. Of two signals that are let
/// through, 14 and 16, the handler of 14 has the mask before the call in its frame, and that of 16, which begins first, the one of the other
/// handler.
const MASKS: &str = r"
    beq $zero $zero 3; nop
    jr $ra; nop
    lui $t0 0x40; ori $t0 $t0 8; sw $t0 0xFFC4 $sp
    addiu $a0 $zero 16; addiu $a1 $sp 0xFFC0; addiu $a2 $zero 0; addiu $a3 $zero 16; addiu $v0 $zero rt_sigaction; syscall
    ori $t0 $zero 0x8000; sw $t0 0xFFD0 $sp
    lui $t0 0x4C; ori $t0 $t0 0x4B40; sw $t0 0xFFF4 $sp
    addiu $t0 $zero 16; sw $t0 16 $sp
    addiu $a0 $sp 0xFF80; addiu $a1 $zero 0; addiu $a2 $sp 0xFFF0; addiu $a3 $sp 0xFFD0; addiu $v0 $zero ppoll; syscall
    addiu $t0 $v0 0
    addiu $a0 $zero 1; addiu $a1 $zero 0; addiu $a2 $sp 0xFFC0; addiu $a3 $zero 16; addiu $v0 $zero rt_sigprocmask; syscall
    addiu $a0 $zero 1; addiu $a1 $sp 0xFFC0; addiu $a2 $zero 4; addiu $v0 $zero write; syscall
    addiu $a0 $t0 0; addiu $v0 $zero exit; syscall
    file t at 1000000 kill 16\n
    out \0\0\0\0
    trace 11 call 4194 00000010 7ffeff00 00000000 00000010 = 00000000 0
    trace 24 wait 4302 7ffefec0 00000000 7ffeff30 7ffeff10
    trace 26 post 16
    trace 27 done 00000000 0
    trace 27 signal 16 handler
    trace 30 return
    trace 37 call 4195 00000001 00000000 7ffeff00 00000010 = 00000000 0
    trace 42 call 4004 00000001 7ffeff00 00000004 00000000 = 00000004 0
    trace 45 exit 0
    o32run run --schedule t --trace trace p = exited 0 0 45

    beq $zero $zero 19; nop
    addiu $a0 $zero 1; addiu $a1 $zero 0; addiu $a2 $sp 0xFFC0; addiu $a3 $zero 16; addiu $v0 $zero rt_sigprocmask; syscall
    addiu $a0 $zero 1; addiu $a1 $sp 0xFFC0; addiu $a2 $zero 4; addiu $v0 $zero write; syscall
    addiu $a0 $zero 1; addiu $a1 $sp 616; addiu $a2 $zero 4; addiu $v0 $zero write; syscall
    jr $ra; nop
    lui $t0 0x40; ori $t0 $t0 8; sw $t0 0xFFC4 $sp
    addiu $a0 $zero 16; addiu $a1 $sp 0xFFC0; addiu $a2 $zero 0; addiu $a3 $zero 16; addiu $v0 $zero rt_sigaction; syscall
    ori $t0 $zero 0x8000; sw $t0 0xFFE0 $sp
    addiu $a0 $zero 1; addiu $a1 $sp 0xFFE0; addiu $a2 $zero 0; addiu $a3 $zero 16; addiu $v0 $zero rt_sigprocmask; syscall
    addiu $a0 $zero 100; addiu $a1 $zero 16; addiu $v0 $zero kill; syscall
    addiu $t0 $zero 0x2000; sw $t0 0xFFD0 $sp
    addiu $t0 $zero 16; sw $t0 16 $sp
    addiu $a0 $sp 0xFF80; addiu $a1 $zero 0; addiu $a2 $zero 0; addiu $a3 $sp 0xFFD0; addiu $v0 $zero ppoll; syscall
    addiu $t0 $v0 0
    addiu $a0 $zero 1; addiu $a1 $zero 0; addiu $a2 $sp 0xFFC0; addiu $a3 $zero 16; addiu $v0 $zero rt_sigprocmask; syscall
    addiu $a0 $zero 1; addiu $a1 $sp 0xFFC0; addiu $a2 $zero 4; addiu $v0 $zero write; syscall
    addiu $a0 $t0 0; addiu $v0 $zero exit; syscall
    out \0\0\xA0\0\0\0\x80\0\0\0\x80\0
    trace 11 call 4194 00000010 7ffeff00 00000000 00000010 = 00000000 0
    trace 19 call 4195 00000001 7ffeff20 00000000 00000010 = 00000000 0
    trace 23 call 4037 00000064 00000010 00000000 00000000 = 00000000 0
    trace 33 wait 4302 7ffefec0 00000000 00000000 7ffeff10
    trace 34 done 00000004 1
    trace 34 signal 16 handler
    trace 39 call 4195 00000001 00000000 7ffefc68 00000010 = 00000000 0
    trace 44 call 4004 00000001 7ffefc68 00000004 00000000 = 00000004 0
    trace 49 call 4004 00000001 7ffeff10 00000004 00000000 = 00000004 0
    trace 53 return
    trace 60 call 4195 00000001 00000000 7ffeff00 00000010 = 00000000 0
    trace 65 call 4004 00000001 7ffeff00 00000004 00000000 = 00000004 0
    trace 68 exit 4
    o32run run --trace trace p = exited 4 4 68

    beq $zero $zero 3; nop
    jr $ra; nop
    lui $t0 0x40; ori $t0 $t0 8; sw $t0 0xFFC4 $sp
    addiu $a0 $zero 16; addiu $a1 $sp 0xFFC0; addiu $a2 $zero 0; addiu $a3 $zero 16; addiu $v0 $zero rt_sigaction; syscall
    ori $t0 $zero 0x8000; sw $t0 0xFFE0 $sp
    addiu $a0 $zero 1; addiu $a1 $sp 0xFFE0; addiu $a2 $zero 0; addiu $a3 $zero 16; addiu $v0 $zero rt_sigprocmask; syscall
    addiu $a0 $zero 100; addiu $a1 $zero 16; addiu $v0 $zero kill; syscall
    addiu $t0 $zero 1; sw $t0 0xFF80 $sp; lui $t0 0x4; sw $t0 0xFF84 $sp
    addiu $t0 $zero 16; sw $t0 16 $sp
    addiu $a0 $sp 0xFF80; addiu $a1 $zero 1; addiu $a2 $zero 0; addiu $a3 $sp 0xFFD0; addiu $v0 $zero ppoll; syscall
    addiu $t0 $v0 0
    addiu $a0 $zero 1; addiu $a1 $zero 0; addiu $a2 $sp 0xFFC0; addiu $a3 $zero 16; addiu $v0 $zero rt_sigprocmask; syscall
    addiu $a0 $zero 1; addiu $a1 $sp 0xFFC0; addiu $a2 $zero 4; addiu $v0 $zero write; syscall
    addiu $a0 $t0 0; addiu $v0 $zero exit; syscall
    out \0\0\x80\0
    trace 11 call 4194 00000010 7ffeff00 00000000 00000010 = 00000000 0
    trace 19 call 4195 00000001 7ffeff20 00000000 00000010 = 00000000 0
    trace 23 call 4037 00000064 00000010 00000000 00000000 = 00000000 0
    trace 35 call 4302 7ffefec0 00000001 00000000 7ffeff10 = 00000001 0
    trace 42 call 4195 00000001 00000000 7ffeff00 00000010 = 00000000 0
    trace 47 call 4004 00000001 7ffeff00 00000004 00000000 = 00000004 0
    trace 50 exit 1
    o32run run --trace trace p = exited 1 1 50

    beq $zero $zero 3; nop
    jr $ra; nop
    lui $t0 0x40; ori $t0 $t0 8; sw $t0 0xFFC4 $sp
    addiu $a0 $zero 16; addiu $a1 $sp 0xFFC0; addiu $a2 $zero 0; addiu $a3 $zero 16; addiu $v0 $zero rt_sigaction; syscall
    ori $t0 $zero 0x8000; sw $t0 0xFFE0 $sp
    addiu $a0 $zero 1; addiu $a1 $sp 0xFFE0; addiu $a2 $zero 0; addiu $a3 $zero 16; addiu $v0 $zero rt_sigprocmask; syscall
    addiu $a0 $zero 100; addiu $a1 $zero 16; addiu $v0 $zero kill; syscall
    addiu $t0 $zero 16; sw $t0 16 $sp
    addiu $a0 $sp 0xFF80; addiu $a1 $zero 1025; addiu $a2 $zero 0; addiu $a3 $sp 0xFFD0; addiu $v0 $zero ppoll; syscall
    addiu $t0 $v0 0
    addiu $a0 $zero 1; addiu $a1 $zero 0; addiu $a2 $sp 0xFFC0; addiu $a3 $zero 16; addiu $v0 $zero rt_sigprocmask; syscall
    addiu $a0 $zero 1; addiu $a1 $sp 0xFFC0; addiu $a2 $zero 4; addiu $v0 $zero write; syscall
    addiu $a0 $t0 0; addiu $v0 $zero exit; syscall
    out \0\0\x80\0
    trace 11 call 4194 00000010 7ffeff00 00000000 00000010 = 00000000 0
    trace 19 call 4195 00000001 7ffeff20 00000000 00000010 = 00000000 0
    trace 23 call 4037 00000064 00000010 00000000 00000000 = 00000000 0
    trace 31 call 4302 7ffefec0 00000401 00000000 7ffeff10 = 00000016 1
    trace 38 call 4195 00000001 00000000 7ffeff00 00000010 = 00000000 0
    trace 43 call 4004 00000001 7ffeff00 00000004 00000000 = 00000004 0
    trace 46 exit 22
    o32run run --trace trace p = exited 22 22 46

    addiu $t0 $zero 0xFFFF; sw $t0 0xFFD0 $sp; sw $t0 0xFFD4 $sp; sw $t0 0xFFD8 $sp; sw $t0 0xFFDC $sp
    addiu $t0 $zero 16; sw $t0 16 $sp
    addiu $a0 $sp 0xFF80; addiu $a1 $zero 0; addiu $a2 $zero 0; addiu $a3 $sp 0xFFD0; addiu $v0 $zero ppoll; syscall
    file t at 1000000 kill 16\nat 2000000 kill 9\n
    trace 13 wait 4302 7ffefec0 00000000 00000000 7ffeff10
    trace 15 post 16
    trace 16 post 9
    trace 16 killed 9
    o32run run --schedule t --trace trace p = killed 9 137 16

    beq $zero $zero 3; nop
    jr $ra; nop
    lui $t0 0x40; ori $t0 $t0 8; sw $t0 0xFFC4 $sp
    addiu $a0 $zero 16; addiu $a1 $sp 0xFFC0; addiu $a2 $zero 0; addiu $a3 $zero 16; addiu $v0 $zero rt_sigaction; syscall
    addiu $t0 $zero 0xFFFF; sw $t0 0xFFD0 $sp; sw $t0 0xFFD4 $sp; sw $t0 0xFFD8 $sp; sw $t0 0xFFDC $sp
    lui $t0 0x4C; ori $t0 $t0 0x4B40; sw $t0 0xFFF4 $sp
    addiu $t0 $zero 16; sw $t0 16 $sp
    addiu $a0 $sp 0xFF80; addiu $a1 $zero 0; addiu $a2 $sp 0xFFF0; addiu $a3 $sp 0xFFD0; addiu $v0 $zero ppoll; syscall
    addiu $a0 $v0 0; addiu $v0 $zero exit; syscall
    file t at 1000000 kill 23\nat 2000000 kill 25\nat 3000000 kill 16\n
    trace 11 call 4194 00000010 7ffeff00 00000000 00000010 = 00000000 0
    trace 27 wait 4302 7ffefec0 00000000 7ffeff30 7ffeff10
    trace 29 post 23
    trace 29 signal 23 stop
    trace 30 post 25
    trace 30 cont
    trace 30 restart 4302
    trace 30 wait 4302 7ffefec0 00000000 7ffeff30 7ffeff10
    trace 32 post 16
    trace 33 done 00000000 0
    trace 33 signal 16 handler
    trace 33 signal 25 ignored
    trace 36 return
    trace 39 exit 0
    o32run run --schedule t --trace trace p = exited 0 0 39

    beq $zero $zero 8; nop
    addiu $a0 $zero 1; addiu $a1 $sp 616; addiu $a2 $zero 4; addiu $v0 $zero write; syscall; jr $ra; nop
    lui $t0 0x40; ori $t0 $t0 8; sw $t0 0xFFC4 $sp
    addiu $a0 $zero 16; addiu $a1 $sp 0xFFC0; addiu $a2 $zero 0; addiu $a3 $zero 16; addiu $v0 $zero rt_sigaction; syscall
    addiu $a0 $zero 14; addiu $a3 $zero 16; addiu $v0 $zero rt_sigaction; syscall
    ori $t0 $zero 0xA000; sw $t0 0xFFE0 $sp
    addiu $a0 $zero 1; addiu $a1 $sp 0xFFE0; addiu $a2 $zero 0; addiu $a3 $zero 16; addiu $v0 $zero rt_sigprocmask; syscall
    addiu $a0 $zero 100; addiu $a1 $zero 16; addiu $v0 $zero kill; syscall
    addiu $a0 $zero 100; addiu $a1 $zero 14; addiu $v0 $zero kill; syscall
    addiu $t0 $zero 16; sw $t0 16 $sp
    addiu $a0 $sp 0xFF80; addiu $a1 $zero 0; addiu $a2 $zero 0; addiu $a3 $sp 0xFFD0; addiu $v0 $zero ppoll; syscall
    addiu $a0 $v0 0; addiu $v0 $zero exit; syscall
    out \0\0\x20\0\0\0\xA0\0
    trace 11 call 4194 00000010 7ffeff00 00000000 00000010 = 00000000 0
    trace 15 call 4194 0000000e 7ffeff00 00000000 00000010 = 00000000 0
    trace 23 call 4195 00000001 7ffeff20 00000000 00000010 = 00000000 0
    trace 27 call 4037 00000064 00000010 00000000 00000000 = 00000000 0
    trace 31 call 4037 00000064 0000000e 00000000 00000000 = 00000000 0
    trace 39 wait 4302 7ffefec0 00000000 00000000 7ffeff10
    trace 40 done 00000004 1
    trace 40 signal 14 handler
    trace 40 signal 16 handler
    trace 44 call 4004 00000001 7ffefc78 00000004 00000001 = 00000004 0
    trace 48 return
    trace 53 call 4004 00000001 7ffeff10 00000004 00000001 = 00000004 0
    trace 57 return
    trace 60 exit 4
    o32run run --trace trace p = exited 4 4 60

    beq $zero $zero 3; nop
    jr $ra; nop
    lui $t0 0x40; ori $t0 $t0 8; sw $t0 0xFFC4 $sp
    addiu $a0 $zero 16; addiu $a1 $sp 0xFFC0; addiu $a2 $zero 0; addiu $a3 $zero 16; addiu $v0 $zero rt_sigaction; syscall
    ori $t0 $zero 0x8000; sw $t0 0xFFD0 $sp
    lui $t0 0x4C; ori $t0 $t0 0x4B40; sw $t0 0xFFF4 $sp
    addiu $t0 $zero 16; sw $t0 16 $sp
    addiu $a0 $sp 0xFF80; addiu $a1 $zero 0; addiu $a2 $sp 0xFFF0; addiu $a3 $sp 0xFFD0; addiu $v0 $zero ppoll; syscall
    addiu $a0 $v0 0; addiu $v0 $zero exit; syscall
    file t at 1000000 kill 23\nat 2000000 kill 16\nat 3000000 kill 25\n
    trace 11 call 4194 00000010 7ffeff00 00000000 00000010 = 00000000 0
    trace 24 wait 4302 7ffefec0 00000000 7ffeff30 7ffeff10
    trace 26 post 23
    trace 26 signal 23 stop
    trace 27 post 16
    trace 28 post 25
    trace 28 cont
    trace 28 restart 4302
    trace 28 wait 4302 7ffefec0 00000000 7ffeff30 7ffeff10
    trace 30 done 00000000 0
    trace 30 signal 16 handler
    trace 33 return
    trace 36 exit 0
    o32run run --schedule t --trace trace p = exited 0 0 36
";

#[test]
fn waits(rt: HostRuntime) -> Result<(), Fail> {
    assert_eq!(rt; first_wrong(rt.alloc(), "", WAITS)?, None);
    Ok(())
}

#[test]
fn refused(rt: HostRuntime) -> Result<(), Fail> {
    assert_eq!(rt; first_wrong(rt.alloc(), "", REFUSED)?, None);
    assert_eq!(rt; first_wrong(rt.alloc(), "", PREFUSED)?, None);
    Ok(())
}

#[test]
fn ready(rt: HostRuntime) -> Result<(), Fail> {
    assert_eq!(rt; first_wrong(rt.alloc(), "", READY)?, None);
    Ok(())
}

#[test]
fn stored(rt: HostRuntime) -> Result<(), Fail> {
    assert_eq!(rt; first_wrong(rt.alloc(), "", STORED)?, None);
    assert_eq!(rt; first_wrong(rt.alloc(), "", LEFT)?, None);
    Ok(())
}

#[test]
fn masks(rt: HostRuntime) -> Result<(), Fail> {
    assert_eq!(rt; first_wrong(rt.alloc(), "", MASKS)?, None);
    Ok(())
}
