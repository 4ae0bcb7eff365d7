//! _newselect, which is select(2), and pselect6, which is pselect(2): what they refuse and in which order, what their sets come to, what they
//! leave of their time, and under which mask they wait.
//!
//! A set is words of 32 bits, of which the first has the descriptors 0 to 31. Here that of reading stands 128 bytes below $sp, that of
//! writing 112 and that of exceptions 96.
use session_scripts::first_wrong;
use std::test::Fail;

/// EBADF is 9, EFAULT 14, EINVAL 22: a descriptor that is not open, in each set; a word on the stack that can't be read, before all else; a
/// time that can't be read, before the count; seconds below 0, before a set is read, and microseconds below 0; a count below 0, before a set
/// is read; each set, before descriptors. Of no descriptors no set is read.
const REFUSED: &str = r"
    addiu $t0 $zero 0x200; sw $t0 0xFF80 $sp
    addiu $t0 $sp 0xFFF0; sw $t0 16 $sp
    addiu $a0 $zero 10; addiu $a1 $sp 0xFF80; addiu $a2 $zero 0; addiu $a3 $zero 0; addiu $v0 $zero _newselect; syscall
    addiu $a0 $v0 0; addiu $v0 $zero exit; syscall
    o32run run p = exited 9 9 13

    addiu $t0 $zero 0x200; sw $t0 0xFF90 $sp
    addiu $t0 $sp 0xFFF0; sw $t0 16 $sp
    addiu $a0 $zero 10; addiu $a1 $zero 0; addiu $a2 $sp 0xFF90; addiu $a3 $zero 0; addiu $v0 $zero _newselect; syscall
    addiu $a0 $v0 0; addiu $v0 $zero exit; syscall
    o32run run p = exited 9 9 13

    addiu $t0 $zero 0x200; sw $t0 0xFFA0 $sp
    addiu $t0 $sp 0xFFF0; sw $t0 16 $sp
    addiu $a0 $zero 10; addiu $a1 $zero 0; addiu $a2 $zero 0; addiu $a3 $sp 0xFFA0; addiu $v0 $zero _newselect; syscall
    addiu $a0 $v0 0; addiu $v0 $zero exit; syscall
    o32run run p = exited 9 9 13

    addiu $a0 $zero 0xFFFF; addiu $a1 $zero 0; addiu $a2 $zero 0; addiu $a3 $zero 0; lui $sp 0x50; addiu $v0 $zero _newselect; syscall
    addiu $a0 $v0 0; addiu $v0 $zero exit; syscall
    o32run run p = exited 14 14 10

    lui $t0 0x50; sw $t0 16 $sp
    addiu $a0 $zero 0xFFFF; addiu $a1 $zero 0; addiu $a2 $zero 0; addiu $a3 $zero 0; addiu $v0 $zero _newselect; syscall
    addiu $a0 $v0 0; addiu $v0 $zero exit; syscall
    o32run run p = exited 14 14 11

    addiu $t0 $zero 0xFFFF; sw $t0 0xFFF0 $sp
    addiu $t0 $sp 0xFFF0; sw $t0 16 $sp
    addiu $a0 $zero 1; lui $a1 0x50; addiu $a2 $zero 0; addiu $a3 $zero 0; addiu $v0 $zero _newselect; syscall
    addiu $a0 $v0 0; addiu $v0 $zero exit; syscall
    o32run run p = exited 22 22 13

    addiu $t0 $zero 0xFFFF; sw $t0 0xFFF4 $sp
    addiu $t0 $sp 0xFFF0; sw $t0 16 $sp
    addiu $a0 $zero 1; addiu $a1 $zero 0; addiu $a2 $zero 0; addiu $a3 $zero 0; addiu $v0 $zero _newselect; syscall
    addiu $a0 $v0 0; addiu $v0 $zero exit; syscall
    o32run run p = exited 22 22 13

    sw $zero 16 $sp
    addiu $a0 $zero 0xFFFF; lui $a1 0x50; addiu $a2 $zero 0; addiu $a3 $zero 0; addiu $v0 $zero _newselect; syscall
    addiu $a0 $v0 0; addiu $v0 $zero exit; syscall
    o32run run p = exited 22 22 10

    addiu $t0 $zero 0x200; sw $t0 0xFF90 $sp
    addiu $t0 $sp 0xFFF0; sw $t0 16 $sp
    addiu $a0 $zero 10; lui $a1 0x50; addiu $a2 $sp 0xFF90; addiu $a3 $zero 0; addiu $v0 $zero _newselect; syscall
    addiu $a0 $v0 0; addiu $v0 $zero exit; syscall
    o32run run p = exited 14 14 13

    addiu $t0 $zero 0x200; sw $t0 0xFF80 $sp
    addiu $t0 $sp 0xFFF0; sw $t0 16 $sp
    addiu $a0 $zero 10; addiu $a1 $sp 0xFF80; lui $a2 0x50; addiu $a3 $zero 0; addiu $v0 $zero _newselect; syscall
    addiu $a0 $v0 0; addiu $v0 $zero exit; syscall
    o32run run p = exited 14 14 13

    addiu $t0 $zero 0x200; sw $t0 0xFF80 $sp
    addiu $t0 $sp 0xFFF0; sw $t0 16 $sp
    addiu $a0 $zero 10; addiu $a1 $sp 0xFF80; addiu $a2 $zero 0; lui $a3 0x50; addiu $v0 $zero _newselect; syscall
    addiu $a0 $v0 0; addiu $v0 $zero exit; syscall
    o32run run p = exited 14 14 13

    addiu $t0 $sp 0xFFF0; sw $t0 16 $sp
    addiu $a0 $zero 0; lui $a1 0x50; lui $a2 0x50; lui $a3 0x50; addiu $v0 $zero _newselect; syscall
    addiu $a0 $v0 0; addiu $v0 $zero exit; syscall
    o32run run p = exited 0 0 11
";

/// The same of pselect6. A second word on the stack that can't be read, before all else; the pair of the mask's address and its size, before
/// the time; a time that can't be read, before the size; 1,000,000,000 nanoseconds, and seconds below 0, before the mask is read; another
/// size than 16, before the mask is read; a mask that can't be read, before the count; no mask, whose size is nothing; a count, before sets;
/// sets, before descriptors.
const PREFUSED: &str = r"
    addiu $a0 $zero 0xFFFF; addiu $a1 $zero 0; addiu $a2 $zero 0; addiu $a3 $zero 0; addiu $sp $sp 0xAC
    sw $zero 16 $sp; addiu $v0 $zero pselect6; syscall
    addiu $a0 $v0 0; addiu $v0 $zero exit; syscall
    o32run run p = exited 14 14 11

    addiu $t0 $zero 0xFFFF; sw $t0 0xFFF0 $sp
    addiu $t0 $sp 0xFFF0; sw $t0 16 $sp
    lui $t0 0x50; sw $t0 20 $sp
    addiu $a0 $zero 0; addiu $a1 $zero 0; addiu $a2 $zero 0; addiu $a3 $zero 0; addiu $v0 $zero pselect6; syscall
    addiu $a0 $v0 0; addiu $v0 $zero exit; syscall
    o32run run p = exited 14 14 15

    addiu $t0 $sp 0xFFD0; sw $t0 0xFFE8 $sp; addiu $t0 $zero 8; sw $t0 0xFFEC $sp
    lui $t0 0x50; sw $t0 16 $sp
    addiu $t0 $sp 0xFFE8; sw $t0 20 $sp
    addiu $a0 $zero 0; addiu $a1 $zero 0; addiu $a2 $zero 0; addiu $a3 $zero 0; addiu $v0 $zero pselect6; syscall
    addiu $a0 $v0 0; addiu $v0 $zero exit; syscall
    o32run run p = exited 14 14 17

    lui $t0 0x3B9A; ori $t0 $t0 0xCA00; sw $t0 0xFFF4 $sp
    lui $t0 0x50; sw $t0 0xFFE8 $sp; addiu $t0 $zero 16; sw $t0 0xFFEC $sp
    addiu $t0 $sp 0xFFF0; sw $t0 16 $sp
    addiu $t0 $sp 0xFFE8; sw $t0 20 $sp
    addiu $a0 $zero 0; addiu $a1 $zero 0; addiu $a2 $zero 0; addiu $a3 $zero 0; addiu $v0 $zero pselect6; syscall
    addiu $a0 $v0 0; addiu $v0 $zero exit; syscall
    o32run run p = exited 22 22 20

    addiu $t0 $zero 0xFFFF; sw $t0 0xFFF0 $sp
    lui $t0 0x50; sw $t0 0xFFE8 $sp; addiu $t0 $zero 16; sw $t0 0xFFEC $sp
    addiu $t0 $sp 0xFFF0; sw $t0 16 $sp
    addiu $t0 $sp 0xFFE8; sw $t0 20 $sp
    addiu $a0 $zero 0; addiu $a1 $zero 0; addiu $a2 $zero 0; addiu $a3 $zero 0; addiu $v0 $zero pselect6; syscall
    addiu $a0 $v0 0; addiu $v0 $zero exit; syscall
    o32run run p = exited 22 22 19

    lui $t0 0x50; sw $t0 0xFFE8 $sp; addiu $t0 $zero 8; sw $t0 0xFFEC $sp
    addiu $t0 $sp 0xFFF0; sw $t0 16 $sp
    addiu $t0 $sp 0xFFE8; sw $t0 20 $sp
    addiu $a0 $zero 0; addiu $a1 $zero 0; addiu $a2 $zero 0; addiu $a3 $zero 0; addiu $v0 $zero pselect6; syscall
    addiu $a0 $v0 0; addiu $v0 $zero exit; syscall
    o32run run p = exited 22 22 17

    lui $t0 0x50; sw $t0 0xFFE8 $sp; addiu $t0 $zero 16; sw $t0 0xFFEC $sp
    addiu $t0 $sp 0xFFF0; sw $t0 16 $sp
    addiu $t0 $sp 0xFFE8; sw $t0 20 $sp
    addiu $a0 $zero 0xFFFF; addiu $a1 $zero 0; addiu $a2 $zero 0; addiu $a3 $zero 0; addiu $v0 $zero pselect6; syscall
    addiu $a0 $v0 0; addiu $v0 $zero exit; syscall
    o32run run p = exited 14 14 17

    sw $zero 0xFFE8 $sp; addiu $t0 $zero 8; sw $t0 0xFFEC $sp
    addiu $t0 $sp 0xFFF0; sw $t0 16 $sp
    addiu $t0 $sp 0xFFE8; sw $t0 20 $sp
    addiu $a0 $zero 0; addiu $a1 $zero 0; addiu $a2 $zero 0; addiu $a3 $zero 0; addiu $v0 $zero pselect6; syscall
    addiu $a0 $v0 0; addiu $v0 $zero exit; syscall
    o32run run p = exited 0 0 16

    addiu $t0 $sp 0xFFD0; sw $t0 0xFFE8 $sp; addiu $t0 $zero 16; sw $t0 0xFFEC $sp
    addiu $t0 $sp 0xFFF0; sw $t0 16 $sp
    addiu $t0 $sp 0xFFE8; sw $t0 20 $sp
    addiu $a0 $zero 0xFFFF; lui $a1 0x50; addiu $a2 $zero 0; addiu $a3 $zero 0; addiu $v0 $zero pselect6; syscall
    addiu $a0 $v0 0; addiu $v0 $zero exit; syscall
    o32run run p = exited 22 22 17

    addiu $t0 $zero 0x200; sw $t0 0xFF90 $sp
    addiu $t0 $sp 0xFFD0; sw $t0 0xFFE8 $sp; addiu $t0 $zero 16; sw $t0 0xFFEC $sp
    addiu $t0 $sp 0xFFF0; sw $t0 16 $sp
    addiu $t0 $sp 0xFFE8; sw $t0 20 $sp
    addiu $a0 $zero 10; addiu $a1 $zero 0; addiu $a2 $sp 0xFF90; lui $a3 0x50; addiu $v0 $zero pselect6; syscall
    addiu $a0 $v0 0; addiu $v0 $zero exit; syscall
    o32run run p = exited 14 14 19

    addiu $t0 $zero 0x200; sw $t0 0xFF90 $sp
    addiu $t0 $sp 0xFFD0; sw $t0 0xFFE8 $sp; addiu $t0 $zero 16; sw $t0 0xFFEC $sp
    addiu $t0 $sp 0xFFF0; sw $t0 16 $sp
    addiu $t0 $sp 0xFFE8; sw $t0 20 $sp
    addiu $a0 $zero 10; addiu $a1 $zero 0; addiu $a2 $sp 0xFF90; addiu $a3 $zero 0; addiu $v0 $zero pselect6; syscall
    addiu $a0 $v0 0; addiu $v0 $zero exit; syscall
    o32run run p = exited 9 9 19

    addiu $t0 $zero 0xFFFF; sw $t0 0xFFF4 $sp
    addiu $t0 $sp 0xFFF0; sw $t0 16 $sp
    sw $zero 20 $sp
    addiu $a0 $zero 0; addiu $a1 $zero 0; addiu $a2 $zero 0; addiu $a3 $zero 0; addiu $v0 $zero pselect6; syscall
    addiu $a0 $v0 0; addiu $v0 $zero exit; syscall
    o32run run p = exited 22 22 14
";

/// The streams are 32, 63 and 70 too, and an empty pipe is 3, 40 and 95: three words of a set. Three sets at once, of which that of
/// exceptions is emptied; a file to read and write, which counts twice; bits from the count on, which are cleared in the last word, and
/// behind it stay, whatever is not open; and where nothing is ready. A count of 2,000 is one of 1,024, whose 128 bytes end with their page,
/// in whose last bit 1,023 is, and so is one of 1,025 that waits; 64 descriptors have two words, and 65 three. A stream is not ready the
/// other way. Where two sets are one, that of writing is stored last. When the time is over the two words of 41 descriptors are empty.
const SETS: &str = r"
    addiu $a0 $zero 0; addiu $a1 $zero 32; addiu $v0 $zero dup2; syscall
    addiu $a0 $zero 0; addiu $a1 $zero 63; addiu $v0 $zero dup2; syscall
    addiu $a0 $zero 0; addiu $a1 $zero 70; addiu $v0 $zero dup2; syscall
    addiu $v0 $zero pipe; syscall
    addiu $a0 $zero 3; addiu $a1 $zero 40; addiu $v0 $zero dup2; syscall
    addiu $a0 $zero 3; addiu $a1 $zero 95; addiu $v0 $zero dup2; syscall
    addiu $t0 $zero 8; sw $t0 0xFF80 $sp
    lui $t0 0x8000; ori $t0 $t0 0x101; sw $t0 0xFF84 $sp
    lui $t0 0x8000; ori $t0 $t0 0x40; sw $t0 0xFF88 $sp
    addiu $t0 $sp 0xFFF0; sw $t0 16 $sp
    addiu $a0 $zero 96; addiu $a1 $sp 0xFF80; addiu $a2 $zero 0; addiu $a3 $zero 0; addiu $v0 $zero _newselect; syscall
    addiu $t0 $v0 0
    addiu $a0 $zero 1; addiu $a1 $sp 0xFF80; addiu $a2 $zero 12; addiu $v0 $zero write; syscall
    addiu $a0 $t0 0; addiu $v0 $zero exit; syscall
    out \0\0\0\0\x80\0\0\x01\0\0\0@
    o32run run p = exited 3 3 47

    addiu $v0 $zero pipe; syscall
    addiu $t0 $zero 9; sw $t0 0xFF80 $sp
    addiu $t0 $zero 0x13; sw $t0 0xFF90 $sp
    addiu $t0 $zero 3; sw $t0 0xFFA0 $sp
    addiu $t0 $sp 0xFFF0; sw $t0 16 $sp
    addiu $a0 $zero 5; addiu $a1 $sp 0xFF80; addiu $a2 $sp 0xFF90; addiu $a3 $sp 0xFFA0; addiu $v0 $zero _newselect; syscall
    addiu $t0 $v0 0
    addiu $a0 $zero 1; addiu $a1 $sp 0xFF80; addiu $a2 $zero 36; addiu $v0 $zero write; syscall
    addiu $a0 $t0 0; addiu $v0 $zero exit; syscall
    out \0\0\0\x01\0\0\0\0\0\0\0\0\0\0\0\0\0\0\0\x12\0\0\0\0\0\0\0\0\0\0\0\0\0\0\0\0
    trace 2 call 4042 00000000 00000000 00000000 00000000 = 00000003 0
    trace 16 call 4142 00000005 7ffefec0 7ffefed0 7ffefee0 = 00000003 0
    trace 22 call 4004 00000001 7ffefec0 00000024 00000000 = 00000024 0
    trace 25 exit 3
    o32run run --trace trace p = exited 3 3 25

    lui $t0 0x2F66; sw $t0 0xFFF0 $sp
    addiu $a0 $sp 0xFFF0; addiu $a1 $zero 0x102; addiu $a2 $zero 0; addiu $v0 $zero open; syscall
    addiu $a1 $zero 1; addiu $v0 $zero open; syscall
    addiu $t0 $zero 8; sw $t0 0xFF80 $sp
    addiu $t0 $zero 8; sw $t0 0xFF90 $sp
    sw $zero 0xFFF0 $sp
    addiu $t0 $sp 0xFFF0; sw $t0 16 $sp
    addiu $a0 $zero 4; addiu $a1 $sp 0xFF80; addiu $a2 $sp 0xFF90; addiu $a3 $zero 0; addiu $v0 $zero _newselect; syscall
    addiu $t0 $v0 0
    addiu $a0 $zero 1; addiu $a1 $sp 0xFF80; addiu $a2 $zero 20; addiu $v0 $zero write; syscall
    addiu $a0 $t0 0; addiu $v0 $zero exit; syscall
    out \0\0\0\x08\0\0\0\0\0\0\0\0\0\0\0\0\0\0\0\x08
    o32run run p = exited 2 2 32

    addiu $t0 $zero 0xFFFF; sw $t0 0xFF80 $sp
    addiu $t0 $sp 0xFFF0; sw $t0 16 $sp
    addiu $a0 $zero 1; addiu $a1 $sp 0xFF80; addiu $a2 $zero 0; addiu $a3 $zero 0; addiu $v0 $zero _newselect; syscall
    addiu $t0 $v0 0
    addiu $a0 $zero 1; addiu $a1 $sp 0xFF80; addiu $a2 $zero 4; addiu $v0 $zero write; syscall
    addiu $a0 $t0 0; addiu $v0 $zero exit; syscall
    out \0\0\0\x01
    trace 10 call 4142 00000001 7ffefec0 00000000 00000000 = 00000001 0
    trace 16 call 4004 00000001 7ffefec0 00000004 00000000 = 00000004 0
    trace 19 exit 1
    o32run run --trace trace p = exited 1 1 19

    addiu $a0 $zero 0; addiu $a1 $zero 32; addiu $v0 $zero dup2; syscall
    addiu $t0 $zero 1; sw $t0 0xFF80 $sp
    lui $t0 0xFFFF; ori $t0 $t0 0xFFFF; sw $t0 0xFF84 $sp
    addiu $t0 $zero 0x1234; sw $t0 0xFF88 $sp
    addiu $t0 $sp 0xFFF0; sw $t0 16 $sp
    addiu $a0 $zero 33; addiu $a1 $sp 0xFF80; addiu $a2 $zero 0; addiu $a3 $zero 0; addiu $v0 $zero _newselect; syscall
    addiu $t0 $v0 0
    addiu $a0 $zero 1; addiu $a1 $sp 0xFF80; addiu $a2 $zero 12; addiu $v0 $zero write; syscall
    addiu $a0 $t0 0; addiu $v0 $zero exit; syscall
    out \0\0\0\x01\0\0\0\x01\0\0\x124
    o32run run p = exited 2 2 28

    addiu $v0 $zero pipe; syscall
    lui $t0 0xFFFF; ori $t0 $t0 0xFFF8; sw $t0 0xFF80 $sp
    addiu $t0 $sp 0xFFF0; sw $t0 16 $sp
    addiu $a0 $zero 4; addiu $a1 $sp 0xFF80; addiu $a2 $zero 0; addiu $a3 $zero 0; addiu $v0 $zero _newselect; syscall
    addiu $t0 $v0 0
    addiu $a0 $zero 1; addiu $a1 $sp 0xFF80; addiu $a2 $zero 4; addiu $v0 $zero write; syscall
    addiu $a0 $t0 0; addiu $v0 $zero exit; syscall
    out \0\0\0\0
    trace 2 call 4042 00000000 00000000 00000000 00000000 = 00000003 0
    trace 13 call 4142 00000004 7ffefec0 00000000 00000000 = 00000000 0
    trace 19 call 4004 00000001 7ffefec0 00000004 00000000 = 00000004 0
    trace 22 exit 0
    o32run run --trace trace p = exited 0 0 22

    addiu $a0 $zero 0; addiu $a1 $zero 1023; addiu $v0 $zero dup2; syscall
    lui $a0 0x3000; addiu $a1 $zero 0x1000; addiu $a2 $zero 3; addiu $a3 $zero 0x812; addiu $v0 $zero mmap2; syscall
    lui $t1 0x3000; lui $t0 0x8000; sw $t0 0xFFC $t1
    addiu $t0 $sp 0xFFF0; sw $t0 16 $sp
    addiu $a0 $zero 2000; lui $a1 0x3000; ori $a1 $a1 0xF80; addiu $a2 $zero 0; addiu $a3 $zero 0; addiu $v0 $zero _newselect; syscall
    addiu $t0 $v0 0
    lui $t1 0x3000; lw $a0 0xFFC $t1; sw $a0 0xFF80 $sp
    addiu $a0 $zero 1; addiu $a1 $sp 0xFF80; addiu $a2 $zero 4; addiu $v0 $zero write; syscall
    addiu $a0 $t0 0; addiu $v0 $zero exit; syscall
    out \x80\0\0\0
    o32run run p = exited 1 1 34

    addiu $v0 $zero pipe; syscall
    addiu $a0 $zero 3; addiu $a1 $zero 1023; addiu $v0 $zero dup2; syscall
    lui $a0 0x3000; addiu $a1 $zero 0x1000; addiu $a2 $zero 3; addiu $a3 $zero 0x812; addiu $v0 $zero mmap2; syscall
    lui $t1 0x3000; lui $t0 0x8000; sw $t0 0xFFC $t1
    sw $zero 0xFFF0 $sp
    addiu $t0 $zero 0x3E8; sw $t0 0xFFF4 $sp
    addiu $t0 $sp 0xFFF0; sw $t0 16 $sp
    addiu $a0 $zero 1025; lui $a1 0x3000; ori $a1 $a1 0xF80; addiu $a2 $zero 0; addiu $a3 $zero 0; addiu $v0 $zero _newselect; syscall
    addiu $t0 $v0 0
    lui $t1 0x3000; lw $a0 0xFFC $t1; sw $a0 0xFF80 $sp
    addiu $a0 $zero 1; addiu $a1 $sp 0xFF80; addiu $a2 $zero 4; addiu $v0 $zero write; syscall
    addiu $a0 $t0 0; addiu $v0 $zero exit; syscall
    out \0\0\0\0
    trace 2 call 4042 00000000 00000000 00000000 00000000 = 00000003 0
    trace 6 call 4063 00000003 000003ff 00000000 00000000 = 000003ff 0
    trace 12 call 4210 30000000 00001000 00000003 00000812 = 30000000 0
    trace 27 wait 4142 00000401 30000f80 00000000 00000000
    trace 29 done 00000000 0
    trace 37 call 4004 00000001 7ffefec0 00000004 00000000 = 00000004 0
    trace 40 exit 0
    o32run run --trace trace p = exited 0 0 40

    lui $a0 0x3000; addiu $a1 $zero 0x1000; addiu $a2 $zero 3; addiu $a3 $zero 0x812; addiu $v0 $zero mmap2; syscall
    addiu $t0 $sp 0xFFF0; sw $t0 16 $sp
    addiu $a0 $zero 64; lui $a1 0x3000; ori $a1 $a1 0xFF8; addiu $a2 $zero 0; addiu $a3 $zero 0; addiu $v0 $zero _newselect; syscall
    addiu $a0 $v0 0; addiu $v0 $zero exit; syscall
    o32run run p = exited 0 0 18

    lui $a0 0x3000; addiu $a1 $zero 0x1000; addiu $a2 $zero 3; addiu $a3 $zero 0x812; addiu $v0 $zero mmap2; syscall
    addiu $t0 $sp 0xFFF0; sw $t0 16 $sp
    addiu $a0 $zero 65; lui $a1 0x3000; ori $a1 $a1 0xFF8; addiu $a2 $zero 0; addiu $a3 $zero 0; addiu $v0 $zero _newselect; syscall
    addiu $a0 $v0 0; addiu $v0 $zero exit; syscall
    o32run run p = exited 14 14 18

    addiu $t0 $zero 1; sw $t0 0xFF80 $sp
    sw $zero 16 $sp
    addiu $a0 $zero 1; addiu $a1 $sp 0xFF80; addiu $a2 $zero 0; addiu $a3 $zero 0; addiu $v0 $zero _newselect; syscall
    addiu $a0 $v0 0; addiu $v0 $zero exit; syscall
    trace 9 call 4142 00000001 7ffefec0 00000000 00000000 = 00000001 0
    trace 12 exit 1
    o32run run --trace trace p = exited 1 1 12

    addiu $t0 $zero 2; sw $t0 0xFF80 $sp
    addiu $t0 $zero 1; sw $t0 0xFF90 $sp
    addiu $t0 $sp 0xFFF0; sw $t0 16 $sp
    addiu $a0 $zero 2; addiu $a1 $sp 0xFF80; addiu $a2 $sp 0xFF90; addiu $a3 $zero 0; addiu $v0 $zero _newselect; syscall
    addiu $a0 $v0 0; addiu $v0 $zero exit; syscall
    trace 12 call 4142 00000002 7ffefec0 7ffefed0 00000000 = 00000000 0
    trace 15 exit 0
    o32run run --trace trace p = exited 0 0 15

    addiu $t0 $zero 3; sw $t0 0xFF80 $sp
    addiu $t0 $sp 0xFFF0; sw $t0 16 $sp
    addiu $a0 $zero 2; addiu $a1 $sp 0xFF80; addiu $a2 $sp 0xFF80; addiu $a3 $zero 0; addiu $v0 $zero _newselect; syscall
    addiu $t0 $v0 0
    addiu $a0 $zero 1; addiu $a1 $sp 0xFF80; addiu $a2 $zero 4; addiu $v0 $zero write; syscall
    addiu $a0 $t0 0; addiu $v0 $zero exit; syscall
    out \0\0\0\x02
    o32run run p = exited 2 2 19

    addiu $v0 $zero pipe; syscall
    addiu $a0 $zero 3; addiu $a1 $zero 40; addiu $v0 $zero dup2; syscall
    addiu $t0 $zero 8; sw $t0 0xFF80 $sp
    addiu $t0 $zero 0x100; sw $t0 0xFF84 $sp
    addiu $t0 $zero 5; sw $t0 0xFF88 $sp
    sw $zero 0xFFF0 $sp
    addiu $t0 $zero 0x3E8; sw $t0 0xFFF4 $sp
    addiu $t0 $sp 0xFFF0; sw $t0 16 $sp
    addiu $a0 $zero 41; addiu $a1 $sp 0xFF80; addiu $a2 $zero 0; addiu $a3 $zero 0; addiu $v0 $zero _newselect; syscall
    addiu $t0 $v0 0
    addiu $a0 $zero 1; addiu $a1 $sp 0xFF80; addiu $a2 $zero 12; addiu $v0 $zero write; syscall
    addiu $a0 $t0 0; addiu $v0 $zero exit; syscall
    out \0\0\0\0\0\0\0\0\0\0\0\x05
    trace 2 call 4042 00000000 00000000 00000000 00000000 = 00000003 0
    trace 6 call 4063 00000003 00000028 00000000 00000000 = 00000028 0
    trace 23 wait 4142 00000029 7ffefec0 00000000 00000000
    trace 25 done 00000000 0
    trace 30 call 4004 00000001 7ffefec0 0000000c 00000000 = 0000000c 0
    trace 33 exit 0
    o32run run --trace trace p = exited 0 0 33
";

/// Both ends of a pipe in both sets: empty; with a byte; without writers, where the end to read is ready; without readers, where the end to
/// write is, for both; and with room for 4,095 bytes, for neither. pselect6 waits for the same.
const READY: &str = r"
    addiu $v0 $zero pipe; syscall
    addiu $t0 $zero 0x18; sw $t0 0xFF80 $sp
    addiu $t0 $zero 0x18; sw $t0 0xFF90 $sp
    addiu $t0 $sp 0xFFF0; sw $t0 16 $sp
    addiu $a0 $zero 5; addiu $a1 $sp 0xFF80; addiu $a2 $sp 0xFF90; addiu $a3 $zero 0; addiu $v0 $zero _newselect; syscall
    addiu $t0 $v0 0
    addiu $a0 $zero 1; addiu $a1 $sp 0xFF80; addiu $a2 $zero 20; addiu $v0 $zero write; syscall
    addiu $a0 $t0 0; addiu $v0 $zero exit; syscall
    out \0\0\0\0\0\0\0\0\0\0\0\0\0\0\0\0\0\0\0\x10
    o32run run p = exited 1 1 23

    addiu $v0 $zero pipe; syscall
    addiu $a0 $zero 4; addiu $a1 $sp 0; addiu $a2 $zero 1; addiu $v0 $zero write; syscall
    addiu $t0 $zero 0x18; sw $t0 0xFF80 $sp
    addiu $t0 $zero 0x18; sw $t0 0xFF90 $sp
    addiu $t0 $sp 0xFFF0; sw $t0 16 $sp
    addiu $a0 $zero 5; addiu $a1 $sp 0xFF80; addiu $a2 $sp 0xFF90; addiu $a3 $zero 0; addiu $v0 $zero _newselect; syscall
    addiu $t0 $v0 0
    addiu $a0 $zero 1; addiu $a1 $sp 0xFF80; addiu $a2 $zero 20; addiu $v0 $zero write; syscall
    addiu $a0 $t0 0; addiu $v0 $zero exit; syscall
    out \0\0\0\x08\0\0\0\0\0\0\0\0\0\0\0\0\0\0\0\x10
    o32run run p = exited 2 2 28

    addiu $v0 $zero pipe; syscall
    addiu $a0 $zero 4; addiu $v0 $zero close; syscall
    addiu $t0 $zero 8; sw $t0 0xFF80 $sp
    addiu $t0 $zero 8; sw $t0 0xFF90 $sp
    addiu $t0 $sp 0xFFF0; sw $t0 16 $sp
    addiu $a0 $zero 4; addiu $a1 $sp 0xFF80; addiu $a2 $sp 0xFF90; addiu $a3 $zero 0; addiu $v0 $zero _newselect; syscall
    addiu $t0 $v0 0
    addiu $a0 $zero 1; addiu $a1 $sp 0xFF80; addiu $a2 $zero 20; addiu $v0 $zero write; syscall
    addiu $a0 $t0 0; addiu $v0 $zero exit; syscall
    out \0\0\0\x08\0\0\0\0\0\0\0\0\0\0\0\0\0\0\0\0
    o32run run p = exited 1 1 26

    addiu $v0 $zero pipe; syscall
    addiu $a0 $zero 3; addiu $v0 $zero close; syscall
    addiu $t0 $zero 0x10; sw $t0 0xFF80 $sp
    addiu $t0 $zero 0x10; sw $t0 0xFF90 $sp
    addiu $t0 $zero 0x10; sw $t0 0xFFA0 $sp
    addiu $t0 $sp 0xFFF0; sw $t0 16 $sp
    addiu $a0 $zero 5; addiu $a1 $sp 0xFF80; addiu $a2 $sp 0xFF90; addiu $a3 $sp 0xFFA0; addiu $v0 $zero _newselect; syscall
    addiu $t0 $v0 0
    addiu $a0 $zero 1; addiu $a1 $sp 0xFF80; addiu $a2 $zero 36; addiu $v0 $zero write; syscall
    addiu $a0 $t0 0; addiu $v0 $zero exit; syscall
    out \0\0\0\x10\0\0\0\0\0\0\0\0\0\0\0\0\0\0\0\x10\0\0\0\0\0\0\0\0\0\0\0\0\0\0\0\0
    o32run run p = exited 2 2 28

    addiu $v0 $zero pipe; syscall
    addiu $a0 $zero 4; lui $a1 0x7F80; ori $a2 $zero 0xF001; addiu $v0 $zero write; syscall
    addiu $t0 $zero 0x10; sw $t0 0xFF90 $sp
    addiu $t0 $sp 0xFFF0; sw $t0 16 $sp
    addiu $a0 $zero 5; addiu $a1 $zero 0; addiu $a2 $sp 0xFF90; addiu $a3 $zero 0; addiu $v0 $zero _newselect; syscall
    addiu $t0 $v0 0
    addiu $a0 $zero 1; addiu $a1 $sp 0xFF90; addiu $a2 $zero 4; addiu $v0 $zero write; syscall
    addiu $a0 $t0 0; addiu $v0 $zero exit; syscall
    out \0\0\0\0
    o32run run p = exited 0 0 26

    addiu $v0 $zero pipe; syscall
    addiu $t0 $zero 8; sw $t0 0xFF80 $sp
    sw $zero 16 $sp
    sw $zero 20 $sp
    addiu $a0 $zero 4; addiu $a1 $sp 0xFF80; addiu $a2 $zero 0; addiu $a3 $zero 0; addiu $v0 $zero pselect6; syscall
    addiu $a0 $v0 0; addiu $v0 $zero exit; syscall
    trace 2 call 4042 00000000 00000000 00000000 00000000 = 00000003 0
    trace 12 wait 4301 00000004 7ffefec0 00000000 00000000
    trace 12 blocked
    o32run run --trace trace p = blocked 123 12

    addiu $v0 $zero pipe; syscall
    addiu $a0 $zero 4; addiu $a1 $sp 0; addiu $a2 $zero 1; addiu $v0 $zero write; syscall
    addiu $t0 $zero 8; sw $t0 0xFF80 $sp
    addiu $t0 $zero 0x18; sw $t0 0xFF90 $sp
    sw $zero 16 $sp
    sw $zero 20 $sp
    addiu $a0 $zero 5; addiu $a1 $sp 0xFF80; addiu $a2 $sp 0xFF90; addiu $a3 $zero 0; addiu $v0 $zero pselect6; syscall
    addiu $t0 $v0 0
    addiu $a0 $zero 1; addiu $a1 $sp 0xFF80; addiu $a2 $zero 20; addiu $v0 $zero write; syscall
    addiu $a0 $t0 0; addiu $v0 $zero exit; syscall
    out \0\0\0\x08\0\0\0\0\0\0\0\0\0\0\0\0\0\0\0\x10
    trace 2 call 4042 00000000 00000000 00000000 00000000 = 00000003 0
    trace 7 call 4004 00000004 7ffeff40 00000001 00000000 = 00000001 0
    trace 19 call 4301 00000005 7ffefec0 7ffefed0 00000000 = 00000002 0
    trace 25 call 4004 00000001 7ffefec0 00000014 00000000 = 00000014 0
    trace 28 exit 2
    o32run run --trace trace p = exited 2 2 28
";

/// What is left of the time: all of it at once, where microseconds carry into the seconds, of which the low 32 bits are stored, behind the
/// sets; also where a set can't be stored, or the count, a set or a descriptor is wrong; but a time that is none stays. Nothing is left when
/// it is over. Behind a handler it is rounded down to microseconds, and of pselect6 it is in nanoseconds; an instruction takes 999 of them
/// here.
const LEFT: &str = r"
    sw $zero 0xFFF0 $sp
    lui $t0 0x7FFF; ori $t0 $t0 0xFFFF; sw $t0 0xFFF4 $sp
    addiu $t0 $zero 1; sw $t0 0xFF80 $sp
    addiu $t0 $sp 0xFFF0; sw $t0 16 $sp
    addiu $a0 $zero 1; addiu $a1 $sp 0xFF80; addiu $a2 $zero 0; addiu $a3 $zero 0; addiu $v0 $zero _newselect; syscall
    addiu $t0 $v0 0
    addiu $a0 $zero 1; addiu $a1 $sp 0xFFF0; addiu $a2 $zero 8; addiu $v0 $zero write; syscall
    addiu $a0 $t0 0; addiu $v0 $zero exit; syscall
    out \0\0\x08c\0\x07a?
    trace 14 call 4142 00000001 7ffefec0 00000000 00000000 = 00000001 0
    trace 20 call 4004 00000001 7ffeff30 00000008 00000000 = 00000008 0
    trace 23 exit 1
    o32run run --trace trace p = exited 1 1 23

    lui $t0 0x7FFF; ori $t0 $t0 0xFFFF; sw $t0 0xFFF0 $sp
    lui $t0 0x7FFF; ori $t0 $t0 0xFFFF; sw $t0 0xFFF4 $sp
    addiu $t0 $zero 1; sw $t0 0xFF80 $sp
    addiu $t0 $sp 0xFFF0; sw $t0 16 $sp
    addiu $a0 $zero 1; addiu $a1 $sp 0xFF80; addiu $a2 $zero 0; addiu $a3 $zero 0; addiu $v0 $zero _newselect; syscall
    addiu $t0 $v0 0
    addiu $a0 $zero 1; addiu $a1 $sp 0xFFF0; addiu $a2 $zero 8; addiu $v0 $zero write; syscall
    addiu $a0 $t0 0; addiu $v0 $zero exit; syscall
    out \x80\0\x08b\0\x07a?
    o32run run p = exited 1 1 25

    addiu $t0 $zero 1; sw $t0 0xFFF0 $sp
    lui $t0 0x16; ori $t0 $t0 0xE360; sw $t0 0xFFF4 $sp
    addiu $t0 $sp 0xFFF0; sw $t0 16 $sp
    addiu $a0 $zero 1; addiu $a1 $sp 0xFFF0; addiu $a2 $zero 0; addiu $a3 $zero 0; addiu $v0 $zero _newselect; syscall
    addiu $t0 $v0 0
    addiu $a0 $zero 1; addiu $a1 $sp 0xFFF0; addiu $a2 $zero 8; addiu $v0 $zero write; syscall
    addiu $a0 $t0 0; addiu $v0 $zero exit; syscall
    out \0\0\0\x02\0\x07\xA1\x20
    o32run run p = exited 1 1 22

    sw $zero 0xFFF0 $sp
    lui $t0 0x16; ori $t0 $t0 0xE360; sw $t0 0xFFF4 $sp
    addiu $t0 $zero 1; sw $t0 0xFF80 $sp
    addiu $t0 $sp 0xFFF0; sw $t0 16 $sp
    addiu $a0 $zero 1; addiu $a1 $sp 0xFF80; lui $a2 0x40; ori $a2 $a2 0x800; addiu $a3 $zero 0; addiu $v0 $zero _newselect; syscall
    addiu $a0 $zero 1; addiu $a1 $sp 0xFFF0; addiu $a2 $zero 8; addiu $v0 $zero write; syscall
    addiu $a0 $zero 0; addiu $v0 $zero exit; syscall
    out \0\0\0\x01\0\x07\xA1\x20
    trace 15 call 4142 00000001 7ffefec0 00400800 00000000 = 0000000e 1
    trace 20 call 4004 00000001 7ffeff30 00000008 00000001 = 00000008 0
    trace 23 exit 0
    o32run run --trace trace p = exited 0 0 23

    sw $zero 0xFFF0 $sp
    lui $t0 0x16; ori $t0 $t0 0xE360; sw $t0 0xFFF4 $sp
    addiu $t0 $sp 0xFFF0; sw $t0 16 $sp
    addiu $a0 $zero 0xFFFF; addiu $a1 $zero 0; addiu $a2 $zero 0; addiu $a3 $zero 0; addiu $v0 $zero _newselect; syscall
    addiu $a0 $zero 1; addiu $a1 $sp 0xFFF0; addiu $a2 $zero 8; addiu $v0 $zero write; syscall
    addiu $a0 $zero 0; addiu $v0 $zero exit; syscall
    out \0\0\0\x01\0\x07\xA1\x20
    trace 12 call 4142 ffffffff 00000000 00000000 00000000 = 00000016 1
    trace 17 call 4004 00000001 7ffeff30 00000008 00000001 = 00000008 0
    trace 20 exit 0
    o32run run --trace trace p = exited 0 0 20

    sw $zero 0xFFF0 $sp
    lui $t0 0x16; ori $t0 $t0 0xE360; sw $t0 0xFFF4 $sp
    addiu $t0 $sp 0xFFF0; sw $t0 16 $sp
    addiu $a0 $zero 1; lui $a1 0x50; addiu $a2 $zero 0; addiu $a3 $zero 0; addiu $v0 $zero _newselect; syscall
    addiu $a0 $zero 1; addiu $a1 $sp 0xFFF0; addiu $a2 $zero 8; addiu $v0 $zero write; syscall
    addiu $a0 $zero 0; addiu $v0 $zero exit; syscall
    out \0\0\0\x01\0\x07\xA1\x20
    trace 12 call 4142 00000001 00500000 00000000 00000000 = 0000000e 1
    trace 17 call 4004 00000001 7ffeff30 00000008 00000001 = 00000008 0
    trace 20 exit 0
    o32run run --trace trace p = exited 0 0 20

    sw $zero 0xFFF0 $sp
    lui $t0 0x16; ori $t0 $t0 0xE360; sw $t0 0xFFF4 $sp
    addiu $t0 $zero 0x200; sw $t0 0xFF80 $sp
    addiu $t0 $sp 0xFFF0; sw $t0 16 $sp
    addiu $a0 $zero 10; addiu $a1 $sp 0xFF80; addiu $a2 $zero 0; addiu $a3 $zero 0; addiu $v0 $zero _newselect; syscall
    addiu $a0 $zero 1; addiu $a1 $sp 0xFFF0; addiu $a2 $zero 8; addiu $v0 $zero write; syscall
    addiu $a0 $zero 0; addiu $v0 $zero exit; syscall
    out \0\0\0\x01\0\x07\xA1\x20
    trace 14 call 4142 0000000a 7ffefec0 00000000 00000000 = 00000009 1
    trace 19 call 4004 00000001 7ffeff30 00000008 00000001 = 00000008 0
    trace 22 exit 0
    o32run run --trace trace p = exited 0 0 22

    lui $t0 0xFFFF; ori $t0 $t0 0xFFFF; sw $t0 0xFFF0 $sp
    lui $t0 0x16; ori $t0 $t0 0xE360; sw $t0 0xFFF4 $sp
    addiu $t0 $sp 0xFFF0; sw $t0 16 $sp
    addiu $a0 $zero 0; addiu $a1 $zero 0; addiu $a2 $zero 0; addiu $a3 $zero 0; addiu $v0 $zero _newselect; syscall
    addiu $a0 $zero 1; addiu $a1 $sp 0xFFF0; addiu $a2 $zero 8; addiu $v0 $zero write; syscall
    addiu $a0 $zero 0; addiu $v0 $zero exit; syscall
    out \xFF\xFF\xFF\xFF\0\x16\xE3`
    trace 14 call 4142 00000000 00000000 00000000 00000000 = 00000016 1
    trace 19 call 4004 00000001 7ffeff30 00000008 00000001 = 00000008 0
    trace 22 exit 0
    o32run run --trace trace p = exited 0 0 22

    sw $zero 0xFFF0 $sp
    addiu $t0 $zero 0x1388; sw $t0 0xFFF4 $sp
    addiu $t0 $sp 0xFFF0; sw $t0 16 $sp
    addiu $a0 $zero 0; addiu $a1 $zero 0; addiu $a2 $zero 0; addiu $a3 $zero 0; addiu $v0 $zero _newselect; syscall
    addiu $a0 $zero 1; addiu $a1 $sp 0xFFF0; addiu $a2 $zero 8; addiu $v0 $zero write; syscall
    addiu $a0 $zero 0; addiu $v0 $zero exit; syscall
    out \0\0\0\0\0\0\0\0
    trace 11 wait 4142 00000000 00000000 00000000 00000000
    trace 13 done 00000000 0
    trace 17 call 4004 00000001 7ffeff30 00000008 00000000 = 00000008 0
    trace 20 exit 0
    o32run run --trace trace p = exited 0 0 20

    beq $zero $zero 3; nop
    jr $ra; nop
    lui $t0 0x40; ori $t0 $t0 8; sw $t0 0xFFC4 $sp
    addiu $a0 $zero 16; addiu $a1 $sp 0xFFC0; addiu $a2 $zero 0; addiu $a3 $zero 16; addiu $v0 $zero rt_sigaction; syscall
    sw $zero 0xFFF0 $sp
    lui $t0 0x16; ori $t0 $t0 0xE360; sw $t0 0xFFF4 $sp
    addiu $t0 $sp 0xFFF0; sw $t0 16 $sp
    addiu $a0 $zero 0; addiu $a1 $zero 0; addiu $a2 $zero 0; addiu $a3 $zero 0; addiu $v0 $zero _newselect; syscall
    addiu $a0 $zero 1; addiu $a1 $sp 0xFFF0; addiu $a2 $zero 8; addiu $v0 $zero write; syscall
    addiu $a0 $zero 0; addiu $v0 $zero exit; syscall
    file t quantum 999\nat 500000000 kill 16\n
    out \0\0\0\x01\0\0\0\x15
    trace 11 call 4194 00000010 7ffeff00 00000000 00000010 = 00000000 0
    trace 23 wait 4142 00000000 00000000 00000000 00000000
    trace 25 post 16
    trace 25 done 00000004 1
    trace 25 signal 16 handler
    trace 28 return
    trace 33 call 4004 00000001 7ffeff30 00000008 00000001 = 00000008 0
    trace 36 exit 0
    o32run run --schedule t --trace trace p = exited 0 0 36

    beq $zero $zero 3; nop
    jr $ra; nop
    lui $t0 0x40; ori $t0 $t0 8; sw $t0 0xFFC4 $sp
    addiu $a0 $zero 16; addiu $a1 $sp 0xFFC0; addiu $a2 $zero 0; addiu $a3 $zero 16; addiu $v0 $zero rt_sigaction; syscall
    addiu $t0 $zero 1; sw $t0 0xFFF0 $sp
    addiu $t0 $sp 0xFFF0; sw $t0 16 $sp
    sw $zero 20 $sp
    addiu $a0 $zero 0; addiu $a1 $zero 0; addiu $a2 $zero 0; addiu $a3 $zero 0; addiu $v0 $zero pselect6; syscall
    addiu $a0 $zero 1; addiu $a1 $sp 0xFFF0; addiu $a2 $zero 8; addiu $v0 $zero write; syscall
    addiu $a0 $zero 0; addiu $v0 $zero exit; syscall
    file t quantum 999\nat 500000000 kill 16\n
    out \0\0\0\0\x1D\xCD\xB6\xF3
    trace 11 call 4194 00000010 7ffeff00 00000000 00000010 = 00000000 0
    trace 22 wait 4301 00000000 00000000 00000000 00000000
    trace 24 post 16
    trace 24 done 00000004 1
    trace 24 signal 16 handler
    trace 27 return
    trace 32 call 4004 00000001 7ffeff30 00000008 00000001 = 00000008 0
    trace 35 exit 0
    o32run run --schedule t --trace trace p = exited 0 0 35

    lui $t0 0x3B9A; ori $t0 $t0 0xC9FF; sw $t0 0xFFF4 $sp
    addiu $t0 $sp 0xFFF0; sw $t0 16 $sp
    sw $zero 20 $sp
    addiu $a0 $zero 0; addiu $a1 $zero 0; addiu $a2 $zero 0; addiu $a3 $zero 0; addiu $v0 $zero pselect6; syscall
    addiu $a0 $zero 1; addiu $a1 $sp 0xFFF0; addiu $a2 $zero 8; addiu $v0 $zero write; syscall
    addiu $a0 $zero 0; addiu $v0 $zero exit; syscall
    out \0\0\0\0\0\0\0\0
    trace 12 wait 4301 00000000 00000000 00000000 00000000
    trace 14 done 00000000 0
    trace 18 call 4004 00000001 7ffeff30 00000008 00000000 = 00000008 0
    trace 21 exit 0
    o32run run --trace trace p = exited 0 0 21
";

/// A time that can't be stored: the answer stands, when it is over and behind a handler; but by a stop and SIGCONT, 25, it is EINTR then. A
/// set that can't be stored is EFAULT: that of reading, which is stored before it, stands, at once and when the time is over, and that of
/// exceptions stays as it was. What a handler ends stores no set.
const ROOM: &str = r"
    lui $s0 0x7FFE; ori $s0 $s0 0xE000; addiu $t0 $zero 1; sw $t0 0 $s0
    addiu $a0 $s0 0; addiu $a1 $zero 0x1000; addiu $a2 $zero 1; addiu $v0 $zero mprotect; syscall
    sw $s0 16 $sp
    addiu $a0 $zero 0; addiu $a1 $zero 0; addiu $a2 $zero 0; addiu $a3 $zero 0; addiu $v0 $zero _newselect; syscall
    lw $a0 0 $s0; addiu $v0 $zero exit; syscall
    trace 9 call 4125 7ffee000 00001000 00000001 00000000 = 00000000 0
    trace 16 wait 4142 00000000 00000000 00000000 00000000
    trace 18 done 00000000 0
    trace 20 exit 1
    o32run run --trace trace p = exited 1 1 20

    beq $zero $zero 3; nop
    jr $ra; nop
    lui $t0 0x40; ori $t0 $t0 8; sw $t0 0xFFC4 $sp
    addiu $a0 $zero 16; addiu $a1 $sp 0xFFC0; addiu $a2 $zero 0; addiu $a3 $zero 16; addiu $v0 $zero rt_sigaction; syscall
    lui $s0 0x7FFE; ori $s0 $s0 0xE000; addiu $t0 $zero 1; sw $t0 0 $s0
    addiu $a0 $s0 0; addiu $a1 $zero 0x1000; addiu $a2 $zero 1; addiu $v0 $zero mprotect; syscall
    sw $s0 16 $sp
    addiu $a0 $zero 0; addiu $a1 $zero 0; addiu $a2 $zero 0; addiu $a3 $zero 0; addiu $v0 $zero _newselect; syscall
    lw $a0 0 $s0; addiu $v0 $zero exit; syscall
    file t at 500000000 kill 16\n
    trace 11 call 4194 00000010 7ffeff00 00000000 00000010 = 00000000 0
    trace 20 call 4125 7ffee000 00001000 00000001 00000000 = 00000000 0
    trace 27 wait 4142 00000000 00000000 00000000 00000000
    trace 29 post 16
    trace 29 done 00000004 1
    trace 29 signal 16 handler
    trace 32 return
    trace 35 exit 1
    o32run run --schedule t --trace trace p = exited 1 1 35

    lui $s0 0x7FFE; ori $s0 $s0 0xE000; addiu $t0 $zero 1; sw $t0 0 $s0
    addiu $a0 $s0 0; addiu $a1 $zero 0x1000; addiu $a2 $zero 1; addiu $v0 $zero mprotect; syscall
    sw $s0 16 $sp
    addiu $a0 $zero 0; addiu $a1 $zero 0; addiu $a2 $zero 0; addiu $a3 $zero 0; addiu $v0 $zero _newselect; syscall
    addiu $a0 $v0 0; addiu $v0 $zero exit; syscall
    file t at 300000000 kill 23\nat 800000000 kill 25\n
    trace 9 call 4125 7ffee000 00001000 00000001 00000000 = 00000000 0
    trace 16 wait 4142 00000000 00000000 00000000 00000000
    trace 18 post 23
    trace 18 signal 23 stop
    trace 19 post 25
    trace 19 cont
    trace 19 done 00000004 1
    trace 21 exit 4
    o32run run --schedule t --trace trace p = exited 4 4 21

    lui $s0 0x7FFE; ori $s0 $s0 0xE000; addiu $t0 $zero 1; sw $t0 0 $s0
    addiu $a0 $s0 0; addiu $a1 $zero 0x1000; addiu $a2 $zero 1; addiu $v0 $zero mprotect; syscall
    sw $s0 16 $sp
    sw $zero 20 $sp
    addiu $a0 $zero 0; addiu $a1 $zero 0; addiu $a2 $zero 0; addiu $a3 $zero 0; addiu $v0 $zero pselect6; syscall
    addiu $a0 $v0 0; addiu $v0 $zero exit; syscall
    file t at 300000000 kill 23\nat 800000000 kill 25\n
    trace 9 call 4125 7ffee000 00001000 00000001 00000000 = 00000000 0
    trace 17 wait 4301 00000000 00000000 00000000 00000000
    trace 19 post 23
    trace 19 signal 23 stop
    trace 20 post 25
    trace 20 cont
    trace 20 done 00000004 1
    trace 22 exit 4
    o32run run --schedule t --trace trace p = exited 4 4 22

    addiu $v0 $zero pipe; syscall
    addiu $t0 $zero 9; sw $t0 0xFF80 $sp
    addiu $t0 $sp 0xFFF0; sw $t0 16 $sp
    addiu $a0 $zero 4; addiu $a1 $sp 0xFF80; lui $a2 0x40; ori $a2 $a2 0x800; addiu $a3 $zero 0; addiu $v0 $zero _newselect; syscall
    lw $a0 0xFF80 $sp; addiu $v0 $zero exit; syscall
    trace 2 call 4042 00000000 00000000 00000000 00000000 = 00000003 0
    trace 13 call 4142 00000004 7ffefec0 00400800 00000000 = 0000000e 1
    trace 16 exit 1
    o32run run --trace trace p = exited 1 1 16

    addiu $v0 $zero pipe; syscall
    addiu $t0 $zero 8; sw $t0 0xFF80 $sp
    addiu $t0 $zero 2; sw $t0 0xFFA0 $sp
    sw $zero 0xFFF0 $sp
    addiu $t0 $zero 0x3E8; sw $t0 0xFFF4 $sp
    addiu $t0 $sp 0xFFF0; sw $t0 16 $sp
    addiu $a0 $zero 4; addiu $a1 $sp 0xFF80; lui $a2 0x40; ori $a2 $a2 0x800; addiu $a3 $sp 0xFFA0; addiu $v0 $zero _newselect; syscall
    lw $a0 0xFF80 $sp; lw $t0 0xFFA0 $sp; sw $t0 0xFF84 $sp
    addiu $t0 $a0 0
    addiu $a0 $zero 1; addiu $a1 $sp 0xFF80; addiu $a2 $zero 8; addiu $v0 $zero write; syscall
    addiu $a0 $t0 0; addiu $v0 $zero exit; syscall
    out \0\0\0\0\0\0\0\x02
    trace 2 call 4042 00000000 00000000 00000000 00000000 = 00000003 0
    trace 18 wait 4142 00000004 7ffefec0 00400800 7ffefee0
    trace 20 done 0000000e 1
    trace 28 call 4004 00000001 7ffefec0 00000008 00000001 = 00000008 0
    trace 31 exit 0
    o32run run --trace trace p = exited 0 0 31

    beq $zero $zero 3; nop
    jr $ra; nop
    lui $t0 0x40; ori $t0 $t0 8; sw $t0 0xFFC4 $sp
    addiu $a0 $zero 16; addiu $a1 $sp 0xFFC0; addiu $a2 $zero 0; addiu $a3 $zero 16; addiu $v0 $zero rt_sigaction; syscall
    addiu $v0 $zero pipe; syscall
    addiu $t0 $zero 8; sw $t0 0xFFE0 $sp
    sw $zero 16 $sp
    addiu $a0 $zero 4; addiu $a1 $sp 0xFFE0; addiu $a2 $zero 0; addiu $a3 $zero 0; addiu $v0 $zero _newselect; syscall
    lw $a0 0xFFE0 $sp; addiu $v0 $zero exit; syscall
    file t at 1000000 kill 16\n
    trace 11 call 4194 00000010 7ffeff00 00000000 00000010 = 00000000 0
    trace 13 call 4042 00000010 7ffeff00 00000000 00000000 = 00000003 0
    trace 22 wait 4142 00000004 7ffeff20 00000000 00000000
    trace 24 post 16
    trace 24 done 00000004 1
    trace 24 signal 16 handler
    trace 27 return
    trace 30 exit 8
    o32run run --schedule t --trace trace p = exited 8 8 30

    addiu $t0 $zero 1; sw $t0 0xFF80 $sp
    sw $zero 0xFF90 $sp
    sw $zero 16 $sp
    sw $zero 20 $sp
    addiu $a0 $zero 1; addiu $a1 $sp 0xFF80; lui $a2 0x40; ori $a2 $a2 0x800; addiu $a3 $zero 0; addiu $v0 $zero pselect6; syscall
    addiu $a0 $v0 0; addiu $v0 $zero exit; syscall
    trace 12 call 4301 00000001 7ffefec0 00400800 00000000 = 0000000e 1
    trace 15 exit 14
    o32run run --trace trace p = exited 14 14 15
";

/// pselect6 with a mask that has 16, which comes and waits for the end, at which the mask before is put back. In the handler of 16 its own
/// mask, here with 14, stands beside 16, and the frame has the mask before. A call that does not wait leaves the mask, and so does one that
/// is refused. SIGKILL, 9, and SIGSTOP, 23, can't be blocked; behind a stop and SIGCONT, 25, which pends too where it is blocked, the call is
/// carried out again with its mask, by which 16 waits for the end though it came while the process was stopped. Of two signals that are let
/// through, 14 and 16, the handler of 14 has the mask before the call in its frame, and that of 16, which begins first, the one of the other
/// handler.
const MASKS: &str = r"
    beq $zero $zero 3; nop
    jr $ra; nop
    lui $t0 0x40; ori $t0 $t0 8; sw $t0 0xFFC4 $sp
    addiu $a0 $zero 16; addiu $a1 $sp 0xFFC0; addiu $a2 $zero 0; addiu $a3 $zero 16; addiu $v0 $zero rt_sigaction; syscall
    ori $t0 $zero 0x8000; sw $t0 0xFFD0 $sp
    lui $t0 0x4C; ori $t0 $t0 0x4B40; sw $t0 0xFFF4 $sp
    addiu $t0 $sp 0xFFD0; sw $t0 0xFFE8 $sp; addiu $t0 $zero 16; sw $t0 0xFFEC $sp
    addiu $t0 $sp 0xFFF0; sw $t0 16 $sp
    addiu $t0 $sp 0xFFE8; sw $t0 20 $sp
    addiu $a0 $zero 0; addiu $a1 $zero 0; addiu $a2 $zero 0; addiu $a3 $zero 0; addiu $v0 $zero pselect6; syscall
    addiu $t0 $v0 0
    addiu $a0 $zero 1; addiu $a1 $zero 0; addiu $a2 $sp 0xFFC0; addiu $a3 $zero 16; addiu $v0 $zero rt_sigprocmask; syscall
    addiu $a0 $zero 1; addiu $a1 $sp 0xFFC0; addiu $a2 $zero 4; addiu $v0 $zero write; syscall
    addiu $a0 $t0 0; addiu $v0 $zero exit; syscall
    file t at 1000000 kill 16\n
    out \0\0\0\0
    trace 11 call 4194 00000010 7ffeff00 00000000 00000010 = 00000000 0
    trace 30 wait 4301 00000000 00000000 00000000 00000000
    trace 32 post 16
    trace 33 done 00000000 0
    trace 33 signal 16 handler
    trace 36 return
    trace 43 call 4195 00000001 00000000 7ffeff00 00000010 = 00000000 0
    trace 48 call 4004 00000001 7ffeff00 00000004 00000000 = 00000004 0
    trace 51 exit 0
    o32run run --schedule t --trace trace p = exited 0 0 51

    beq $zero $zero 19; nop
    addiu $a0 $zero 1; addiu $a1 $zero 0; addiu $a2 $sp 0xFFC0; addiu $a3 $zero 16; addiu $v0 $zero rt_sigprocmask; syscall
    addiu $a0 $zero 1; addiu $a1 $sp 0xFFC0; addiu $a2 $zero 4; addiu $v0 $zero write; syscall
    addiu $a0 $zero 1; addiu $a1 $sp 616; addiu $a2 $zero 4; addiu $v0 $zero write; syscall
    jr $ra; nop
    lui $t0 0x40; ori $t0 $t0 8; sw $t0 0xFFC4 $sp
    addiu $a0 $zero 16; addiu $a1 $sp 0xFFC0; addiu $a2 $zero 0; addiu $a3 $zero 16; addiu $v0 $zero rt_sigaction; syscall
    ori $t0 $zero 0x8000; sw $t0 0xFFE0 $sp
    addiu $a0 $zero 1; addiu $a1 $sp 0xFFE0; addiu $a2 $zero 0; addiu $a3 $zero 16; addiu $v0 $zero rt_sigprocmask; syscall
    addiu $a0 $zero 100; addiu $a1 $zero 16; addiu $v0 $zero kill; syscall
    addiu $t0 $zero 0x2000; sw $t0 0xFFD0 $sp
    addiu $t0 $sp 0xFFD0; sw $t0 0xFFE8 $sp; addiu $t0 $zero 16; sw $t0 0xFFEC $sp
    sw $zero 16 $sp
    addiu $t0 $sp 0xFFE8; sw $t0 20 $sp
    addiu $a0 $zero 0; addiu $a1 $zero 0; addiu $a2 $zero 0; addiu $a3 $zero 0; addiu $v0 $zero pselect6; syscall
    addiu $t0 $v0 0
    addiu $a0 $zero 1; addiu $a1 $zero 0; addiu $a2 $sp 0xFFC0; addiu $a3 $zero 16; addiu $v0 $zero rt_sigprocmask; syscall
    addiu $a0 $zero 1; addiu $a1 $sp 0xFFC0; addiu $a2 $zero 4; addiu $v0 $zero write; syscall
    addiu $a0 $t0 0; addiu $v0 $zero exit; syscall
    out \0\0\xA0\0\0\0\x80\0\0\0\x80\0
    trace 11 call 4194 00000010 7ffeff00 00000000 00000010 = 00000000 0
    trace 19 call 4195 00000001 7ffeff20 00000000 00000010 = 00000000 0
    trace 23 call 4037 00000064 00000010 00000000 00000000 = 00000000 0
    trace 38 wait 4301 00000000 00000000 00000000 00000000
    trace 39 done 00000004 1
    trace 39 signal 16 handler
    trace 44 call 4195 00000001 00000000 7ffefc68 00000010 = 00000000 0
    trace 49 call 4004 00000001 7ffefc68 00000004 00000000 = 00000004 0
    trace 54 call 4004 00000001 7ffeff10 00000004 00000000 = 00000004 0
    trace 58 return
    trace 65 call 4195 00000001 00000000 7ffeff00 00000010 = 00000000 0
    trace 70 call 4004 00000001 7ffeff00 00000004 00000000 = 00000004 0
    trace 73 exit 4
    o32run run --trace trace p = exited 4 4 73

    beq $zero $zero 3; nop
    jr $ra; nop
    lui $t0 0x40; ori $t0 $t0 8; sw $t0 0xFFC4 $sp
    addiu $a0 $zero 16; addiu $a1 $sp 0xFFC0; addiu $a2 $zero 0; addiu $a3 $zero 16; addiu $v0 $zero rt_sigaction; syscall
    ori $t0 $zero 0x8000; sw $t0 0xFFE0 $sp
    addiu $a0 $zero 1; addiu $a1 $sp 0xFFE0; addiu $a2 $zero 0; addiu $a3 $zero 16; addiu $v0 $zero rt_sigprocmask; syscall
    addiu $a0 $zero 100; addiu $a1 $zero 16; addiu $v0 $zero kill; syscall
    addiu $t0 $zero 2; sw $t0 0xFF90 $sp
    addiu $t0 $sp 0xFFD0; sw $t0 0xFFE8 $sp; addiu $t0 $zero 16; sw $t0 0xFFEC $sp
    sw $zero 16 $sp
    addiu $t0 $sp 0xFFE8; sw $t0 20 $sp
    addiu $a0 $zero 2; addiu $a1 $zero 0; addiu $a2 $sp 0xFF90; addiu $a3 $zero 0; addiu $v0 $zero pselect6; syscall
    addiu $t0 $v0 0
    addiu $a0 $zero 1; addiu $a1 $zero 0; addiu $a2 $sp 0xFFC0; addiu $a3 $zero 16; addiu $v0 $zero rt_sigprocmask; syscall
    addiu $a0 $zero 1; addiu $a1 $sp 0xFFC0; addiu $a2 $zero 4; addiu $v0 $zero write; syscall
    addiu $a0 $t0 0; addiu $v0 $zero exit; syscall
    out \0\0\x80\0
    trace 11 call 4194 00000010 7ffeff00 00000000 00000010 = 00000000 0
    trace 19 call 4195 00000001 7ffeff20 00000000 00000010 = 00000000 0
    trace 23 call 4037 00000064 00000010 00000000 00000000 = 00000000 0
    trace 38 call 4301 00000002 00000000 7ffefed0 00000000 = 00000001 0
    trace 45 call 4195 00000001 00000000 7ffeff00 00000010 = 00000000 0
    trace 50 call 4004 00000001 7ffeff00 00000004 00000000 = 00000004 0
    trace 53 exit 1
    o32run run --trace trace p = exited 1 1 53

    beq $zero $zero 3; nop
    jr $ra; nop
    lui $t0 0x40; ori $t0 $t0 8; sw $t0 0xFFC4 $sp
    addiu $a0 $zero 16; addiu $a1 $sp 0xFFC0; addiu $a2 $zero 0; addiu $a3 $zero 16; addiu $v0 $zero rt_sigaction; syscall
    ori $t0 $zero 0x8000; sw $t0 0xFFE0 $sp
    addiu $a0 $zero 1; addiu $a1 $sp 0xFFE0; addiu $a2 $zero 0; addiu $a3 $zero 16; addiu $v0 $zero rt_sigprocmask; syscall
    addiu $a0 $zero 100; addiu $a1 $zero 16; addiu $v0 $zero kill; syscall
    addiu $t0 $sp 0xFFD0; sw $t0 0xFFE8 $sp; addiu $t0 $zero 16; sw $t0 0xFFEC $sp
    sw $zero 16 $sp
    addiu $t0 $sp 0xFFE8; sw $t0 20 $sp
    addiu $a0 $zero 0xFFFF; addiu $a1 $zero 0; addiu $a2 $zero 0; addiu $a3 $zero 0; addiu $v0 $zero pselect6; syscall
    addiu $t0 $v0 0
    addiu $a0 $zero 1; addiu $a1 $zero 0; addiu $a2 $sp 0xFFC0; addiu $a3 $zero 16; addiu $v0 $zero rt_sigprocmask; syscall
    addiu $a0 $zero 1; addiu $a1 $sp 0xFFC0; addiu $a2 $zero 4; addiu $v0 $zero write; syscall
    addiu $a0 $t0 0; addiu $v0 $zero exit; syscall
    out \0\0\x80\0
    trace 11 call 4194 00000010 7ffeff00 00000000 00000010 = 00000000 0
    trace 19 call 4195 00000001 7ffeff20 00000000 00000010 = 00000000 0
    trace 23 call 4037 00000064 00000010 00000000 00000000 = 00000000 0
    trace 36 call 4301 ffffffff 00000000 00000000 00000000 = 00000016 1
    trace 43 call 4195 00000001 00000000 7ffeff00 00000010 = 00000000 0
    trace 48 call 4004 00000001 7ffeff00 00000004 00000000 = 00000004 0
    trace 51 exit 22
    o32run run --trace trace p = exited 22 22 51

    addiu $t0 $zero 0xFFFF; sw $t0 0xFFD0 $sp; sw $t0 0xFFD4 $sp; sw $t0 0xFFD8 $sp; sw $t0 0xFFDC $sp
    addiu $t0 $sp 0xFFD0; sw $t0 0xFFE8 $sp; addiu $t0 $zero 16; sw $t0 0xFFEC $sp
    sw $zero 16 $sp
    addiu $t0 $sp 0xFFE8; sw $t0 20 $sp
    addiu $a0 $zero 0; addiu $a1 $zero 0; addiu $a2 $zero 0; addiu $a3 $zero 0; addiu $v0 $zero pselect6; syscall
    file t at 1000000 kill 16\nat 2000000 kill 9\n
    trace 18 wait 4301 00000000 00000000 00000000 00000000
    trace 20 post 16
    trace 21 post 9
    trace 21 killed 9
    o32run run --schedule t --trace trace p = killed 9 137 21

    beq $zero $zero 3; nop
    jr $ra; nop
    lui $t0 0x40; ori $t0 $t0 8; sw $t0 0xFFC4 $sp
    addiu $a0 $zero 16; addiu $a1 $sp 0xFFC0; addiu $a2 $zero 0; addiu $a3 $zero 16; addiu $v0 $zero rt_sigaction; syscall
    addiu $t0 $zero 0xFFFF; sw $t0 0xFFD0 $sp; sw $t0 0xFFD4 $sp; sw $t0 0xFFD8 $sp; sw $t0 0xFFDC $sp
    lui $t0 0x4C; ori $t0 $t0 0x4B40; sw $t0 0xFFF4 $sp
    addiu $t0 $sp 0xFFD0; sw $t0 0xFFE8 $sp; addiu $t0 $zero 16; sw $t0 0xFFEC $sp
    addiu $t0 $sp 0xFFF0; sw $t0 16 $sp
    addiu $t0 $sp 0xFFE8; sw $t0 20 $sp
    addiu $a0 $zero 0; addiu $a1 $zero 0; addiu $a2 $zero 0; addiu $a3 $zero 0; addiu $v0 $zero pselect6; syscall
    addiu $a0 $v0 0; addiu $v0 $zero exit; syscall
    file t at 1000000 kill 23\nat 2000000 kill 25\nat 3000000 kill 16\n
    trace 11 call 4194 00000010 7ffeff00 00000000 00000010 = 00000000 0
    trace 33 wait 4301 00000000 00000000 00000000 00000000
    trace 35 post 23
    trace 35 signal 23 stop
    trace 36 post 25
    trace 36 cont
    trace 36 restart 4301
    trace 36 wait 4301 00000000 00000000 00000000 00000000
    trace 38 post 16
    trace 39 done 00000000 0
    trace 39 signal 16 handler
    trace 39 signal 25 ignored
    trace 42 return
    trace 45 exit 0
    o32run run --schedule t --trace trace p = exited 0 0 45

    beq $zero $zero 8; nop
    addiu $a0 $zero 1; addiu $a1 $sp 616; addiu $a2 $zero 4; addiu $v0 $zero write; syscall; jr $ra; nop
    lui $t0 0x40; ori $t0 $t0 8; sw $t0 0xFFC4 $sp
    addiu $a0 $zero 16; addiu $a1 $sp 0xFFC0; addiu $a2 $zero 0; addiu $a3 $zero 16; addiu $v0 $zero rt_sigaction; syscall
    addiu $a0 $zero 14; addiu $a3 $zero 16; addiu $v0 $zero rt_sigaction; syscall
    ori $t0 $zero 0xA000; sw $t0 0xFFE0 $sp
    addiu $a0 $zero 1; addiu $a1 $sp 0xFFE0; addiu $a2 $zero 0; addiu $a3 $zero 16; addiu $v0 $zero rt_sigprocmask; syscall
    addiu $a0 $zero 100; addiu $a1 $zero 16; addiu $v0 $zero kill; syscall
    addiu $a0 $zero 100; addiu $a1 $zero 14; addiu $v0 $zero kill; syscall
    addiu $t0 $sp 0xFFD0; sw $t0 0xFFE8 $sp; addiu $t0 $zero 16; sw $t0 0xFFEC $sp
    sw $zero 16 $sp
    addiu $t0 $sp 0xFFE8; sw $t0 20 $sp
    addiu $a0 $zero 0; addiu $a1 $zero 0; addiu $a2 $zero 0; addiu $a3 $zero 0; addiu $v0 $zero pselect6; syscall
    addiu $a0 $v0 0; addiu $v0 $zero exit; syscall
    out \0\0\x20\0\0\0\xA0\0
    trace 11 call 4194 00000010 7ffeff00 00000000 00000010 = 00000000 0
    trace 15 call 4194 0000000e 7ffeff00 00000000 00000010 = 00000000 0
    trace 23 call 4195 00000001 7ffeff20 00000000 00000010 = 00000000 0
    trace 27 call 4037 00000064 00000010 00000000 00000000 = 00000000 0
    trace 31 call 4037 00000064 0000000e 00000000 00000000 = 00000000 0
    trace 44 wait 4301 00000000 00000000 00000000 00000000
    trace 45 done 00000004 1
    trace 45 signal 14 handler
    trace 45 signal 16 handler
    trace 49 call 4004 00000001 7ffefc78 00000004 00000001 = 00000004 0
    trace 53 return
    trace 58 call 4004 00000001 7ffeff10 00000004 00000001 = 00000004 0
    trace 62 return
    trace 65 exit 4
    o32run run --trace trace p = exited 4 4 65

    beq $zero $zero 3; nop
    jr $ra; nop
    lui $t0 0x40; ori $t0 $t0 8; sw $t0 0xFFC4 $sp
    addiu $a0 $zero 16; addiu $a1 $sp 0xFFC0; addiu $a2 $zero 0; addiu $a3 $zero 16; addiu $v0 $zero rt_sigaction; syscall
    ori $t0 $zero 0x8000; sw $t0 0xFFD0 $sp
    lui $t0 0x4C; ori $t0 $t0 0x4B40; sw $t0 0xFFF4 $sp
    addiu $t0 $sp 0xFFD0; sw $t0 0xFFE8 $sp; addiu $t0 $zero 16; sw $t0 0xFFEC $sp
    addiu $t0 $sp 0xFFF0; sw $t0 16 $sp
    addiu $t0 $sp 0xFFE8; sw $t0 20 $sp
    addiu $a0 $zero 0; addiu $a1 $zero 0; addiu $a2 $zero 0; addiu $a3 $zero 0; addiu $v0 $zero pselect6; syscall
    addiu $a0 $v0 0; addiu $v0 $zero exit; syscall
    file t at 1000000 kill 23\nat 2000000 kill 16\nat 3000000 kill 25\n
    trace 11 call 4194 00000010 7ffeff00 00000000 00000010 = 00000000 0
    trace 30 wait 4301 00000000 00000000 00000000 00000000
    trace 32 post 23
    trace 32 signal 23 stop
    trace 33 post 16
    trace 34 post 25
    trace 34 cont
    trace 34 restart 4301
    trace 34 wait 4301 00000000 00000000 00000000 00000000
    trace 36 done 00000000 0
    trace 36 signal 16 handler
    trace 39 return
    trace 42 exit 0
    o32run run --schedule t --trace trace p = exited 0 0 42
";

#[test]
fn refused(rt: HostRuntime) -> Result<(), Fail> {
    assert_eq!(rt; first_wrong(rt.alloc(), "", REFUSED)?, None);
    assert_eq!(rt; first_wrong(rt.alloc(), "", PREFUSED)?, None);
    Ok(())
}

#[test]
fn sets(rt: HostRuntime) -> Result<(), Fail> {
    assert_eq!(rt; first_wrong(rt.alloc(), "", SETS)?, None);
    assert_eq!(rt; first_wrong(rt.alloc(), "", READY)?, None);
    Ok(())
}

#[test]
fn left(rt: HostRuntime) -> Result<(), Fail> {
    assert_eq!(rt; first_wrong(rt.alloc(), "", LEFT)?, None);
    assert_eq!(rt; first_wrong(rt.alloc(), "", ROOM)?, None);
    Ok(())
}

#[test]
fn masks(rt: HostRuntime) -> Result<(), Fail> {
    assert_eq!(rt; first_wrong(rt.alloc(), "", MASKS)?, None);
    Ok(())
}
