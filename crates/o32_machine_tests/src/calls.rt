//! What calls come to, as the status with which a program exits.

use crate::programs::first_wrong;
use std::test::Fail;

/// getpid(2), getppid(2), getuid(2): this project's own ids, and those of the superuser.
const IDS: &str = "
    addiu $v0 $zero getpid  syscall
    addiu $a0 $v0 0  addiu $v0 $zero exit  syscall
    exited 100 turns 5

    addiu $v0 $zero getppid  syscall
    addiu $a0 $v0 0  addiu $v0 $zero exit  syscall
    exited 1 turns 5

    addiu $v0 $zero getuid  syscall
    addiu $a0 $v0 0  addiu $v0 $zero exit_group  syscall
    exited 0 turns 5
";

/// An error is its number in $v0, and 1 in $a3: ENOSYS is 89; readv(2) of 1025 buffers is EINVAL, 22; ioctl(2)
/// TCGETS where there is no terminal is ENOTTY, 25; set_robust_list(2) of another size is EINVAL; uname(2) to
/// where nothing is mapped is EFAULT, 14; getrandom(2) with 8 as its flags is EINVAL; prlimit(2) of process 1 is
/// ESRCH, 3.
const ERRORS: &str = "
    addiu $v0 $zero 4999  syscall
    addiu $a0 $v0 0  addiu $v0 $zero exit  syscall
    exited 89 turns 5

    addiu $v0 $zero 4999  syscall
    addiu $a0 $a3 0  addiu $v0 $zero exit  syscall
    exited 1 turns 5

    lui $a1 data_high  addiu $a2 $zero 1025  addiu $v0 $zero readv  syscall
    addiu $a0 $v0 0  addiu $v0 $zero exit  syscall
    exited 22 turns 7

    addiu $a0 $zero 1  addiu $a1 $zero 0x540D  addiu $v0 $zero ioctl  syscall
    addiu $a0 $v0 0  addiu $v0 $zero exit  syscall
    exited 25 turns 7

    addiu $a1 $zero 8  addiu $v0 $zero set_robust_list  syscall
    addiu $a0 $v0 0  addiu $v0 $zero exit  syscall
    exited 22 turns 6

    addiu $v0 $zero uname  syscall
    addiu $a0 $v0 0  addiu $v0 $zero exit  syscall
    exited 14 turns 5

    lui $a0 data_high  addiu $a1 $zero 4  addiu $a2 $zero 8  addiu $v0 $zero getrandom  syscall
    addiu $a0 $v0 0  addiu $v0 $zero exit  syscall
    exited 22 turns 8

    addiu $a0 $zero 1  addiu $v0 $zero prlimit64  syscall
    addiu $a0 $v0 0  addiu $v0 $zero exit  syscall
    exited 3 turns 6
";

/// What is told: the first byte of `Linux`; of no limit the first byte of 0x7FFF_FFFF; of a stack of 8 MiB the
/// second byte of 0x0080_0000, and in eight bytes the sixth; the second result of pipe(2); the thread pointer; how
/// many bytes of chance; that the head of a robust list has 12 bytes; the byte that was stored in a new page.
const TOLD: &str = "
    lui $a0 data_high  addiu $v0 $zero uname  syscall
    lui $t0 data_high  lbu $a0 0 $t0  addiu $v0 $zero exit  syscall
    exited 0x4C turns 7

    addiu $a0 $zero 0  lui $a1 data_high  addiu $v0 $zero getrlimit  syscall
    lui $t0 data_high  lbu $a0 0 $t0  addiu $v0 $zero exit  syscall
    exited 0x7F turns 8

    addiu $a0 $zero 3  lui $a1 data_high  addiu $v0 $zero getrlimit  syscall
    lui $t0 data_high  lbu $a0 1 $t0  addiu $v0 $zero exit  syscall
    exited 0x80 turns 8

    addiu $a1 $zero 3  lui $a3 data_high  addiu $v0 $zero prlimit64  syscall
    lui $t0 data_high  lbu $a0 5 $t0  addiu $v0 $zero exit  syscall
    exited 0x80 turns 8

    addiu $v0 $zero pipe  syscall
    addiu $a0 $v1 0  addiu $v0 $zero exit  syscall
    exited 4 turns 5

    addiu $a0 $zero 77  addiu $v0 $zero set_thread_area  syscall
    rdhwr $v0 $29  addiu $a0 $v0 0  addiu $v0 $zero exit  syscall
    exited 77 turns 7

    lui $a0 data_high  addiu $a1 $zero 9  addiu $v0 $zero getrandom  syscall
    addiu $a0 $v0 0  addiu $v0 $zero exit  syscall
    exited 9 turns 7

    addiu $a1 $zero 12  addiu $v0 $zero set_robust_list  syscall
    addiu $a0 $v0 0  addiu $v0 $zero exit  syscall
    exited 0 turns 6

    lui $sp data_high  addiu $a1 $zero 4096  addiu $a2 $zero 3  addiu $a3 $zero 0x802  addiu $v0 $zero mmap2  syscall
    sb $v0 0 $v0  addiu $a0 $a3 0  addiu $v0 $zero exit  syscall
    exited 0 turns 10
";

/// A status keeps its low 8 bits. A load from where nothing is mapped is found in one turn and kills in the next,
/// by SIGSEGV, 11. A read of an empty pipe waits, and the attempt that finds it blocked is no turn. What is
/// written goes to the two outputs. What is read is counted, and at the end it is nothing.
const ENDS: &str = "
    addiu $a0 $zero 263  addiu $v0 $zero exit  syscall
    exited 7 turns 3

    lw $t0 0 $zero
    killed 11 turns 2

    addiu $v0 $zero pipe  syscall
    addiu $a0 $v0 0  lui $a1 data_high  addiu $a2 $zero 1  addiu $v0 $zero read  syscall
    input 7879  blocked turns 7

    addiu $a0 $zero 1  lui $a1 data_high  addiu $a2 $zero 3  addiu $v0 $zero write  syscall
    addiu $a0 $zero 2  addiu $a2 $zero 1  addiu $v0 $zero write  syscall
    addiu $a0 $zero 7  addiu $v0 $zero exit  syscall
    out 48690a  err 48  exited 7 turns 12

    addiu $a0 $zero 0  lui $a1 data_high  addiu $a2 $zero 8  addiu $v0 $zero read  syscall
    addiu $a0 $v0 0  addiu $v0 $zero exit  syscall
    input 7879  exited 2 turns 8

    addiu $a0 $zero 0  lui $a1 data_high  addiu $a2 $zero 8  addiu $v0 $zero read  syscall
    addiu $v0 $zero read  syscall
    addiu $a0 $v0 0  addiu $v0 $zero exit  syscall
    input 7879  exited 0 turns 10
";

#[test]
fn ids(rt: HostRuntime) -> Result<(), Fail> {
    assert_eq!(rt; first_wrong(rt.alloc(), IDS)?, None);
    Ok(())
}

#[test]
fn errors(rt: HostRuntime) -> Result<(), Fail> {
    assert_eq!(rt; first_wrong(rt.alloc(), ERRORS)?, None);
    Ok(())
}

#[test]
fn told(rt: HostRuntime) -> Result<(), Fail> {
    assert_eq!(rt; first_wrong(rt.alloc(), TOLD)?, None);
    Ok(())
}

#[test]
fn ends(rt: HostRuntime) -> Result<(), Fail> {
    assert_eq!(rt; first_wrong(rt.alloc(), ENDS)?, None);
    Ok(())
}
