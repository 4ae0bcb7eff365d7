//! Programs, by what they do with their devices and how they end.
use session_scripts::first_wrong;
use std::test::Fail;

/// Each exits with the error of its call, or with whether it failed. ENOSYS is 89.
const CALLS_THAT_ARE_NOT_THERE: &str = r"
    addiu $v0 $zero 4999; syscall; addiu $a0 $v0 0; addiu $v0 $zero exit; syscall
    o32run run p = exited 89 89 5

    addiu $v0 $zero 4999; syscall; addiu $a0 $a3 0; addiu $v0 $zero exit; syscall
    o32run run p = exited 1 1 5

    addiu $v0 $zero 5; syscall; addiu $a0 $v0 0; addiu $v0 $zero exit; syscall
    o32run run p = exited 89 89 5
";

/// EINVAL is 22.
const SMALL_CALLS: &str = r"
    addiu $v0 $zero set_tid_address; syscall; addiu $a0 $v0 0; addiu $v0 $zero exit; syscall
    o32run run p = exited 100 100 5

    addiu $v0 $zero set_robust_list; addiu $a1 $zero 12; syscall; addiu $a0 $v0 0; addiu $v0 $zero exit; syscall
    o32run run p = exited 0 0 6

    addiu $v0 $zero set_robust_list; addiu $a1 $zero 13; syscall; addiu $a0 $v0 0; addiu $v0 $zero exit; syscall
    o32run run p = exited 22 22 6

    addiu $v0 $zero set_thread_area; addiu $a0 $zero 0x55; syscall
    rdhwr $v0 $29; addiu $a0 $v0 0; addiu $v0 $zero exit; syscall
    o32run run p = exited 0x55 0x55 7
";

/// No limit is shown as 0x7FFF_FFFF. A status has 8 bits.
const LIMITS_AND_EXITS: &str = r"
    addiu $a0 $zero 0; addiu $a1 $sp 0; addiu $v0 $zero getrlimit; syscall
    lbu $a0 0 $sp; addiu $v0 $zero exit_group; syscall
    o32run run p = exited 127 127 7

    addiu $a0 $zero 0x1FF; addiu $v0 $zero exit; syscall
    o32run run p = exited 255 255 3

    addiu $a0 $zero 0x1FF; addiu $v0 $zero exit_group; syscall
    o32run run p = exited 255 255 3
";

/// EBADF is 9, EFAULT 14. The calls but the first are for eight bytes from 0x00500000 on, where nothing is mapped, and the last is
/// for none: of no bytes none has to be readable.
const WRITES_OF_NO_BYTE: &str = r"
    addiu $v0 $zero write; addiu $a0 $zero 3; addiu $a2 $zero 1; syscall
    addiu $a0 $v0 0; addiu $v0 $zero exit; syscall
    o32run run p = exited 9 9 7

    addiu $v0 $zero write; addiu $a0 $zero 1; lui $a1 0x50; addiu $a2 $zero 8; syscall
    addiu $a0 $v0 0; addiu $v0 $zero exit; syscall
    o32run run p = exited 14 14 8

    addiu $v0 $zero write; addiu $a0 $zero 1; lui $a1 0x50; addiu $a2 $zero 8; syscall
    addiu $a0 $a3 0; addiu $v0 $zero exit; syscall
    o32run run p = exited 1 1 8

    addiu $v0 $zero write; addiu $a0 $zero 1; lui $a1 0x50; addiu $a2 $zero 0; syscall
    addiu $a0 $v0 0; addiu $v0 $zero exit; syscall
    o32run run p = exited 0 0 8
";

/// Eight bytes, of which three can be read; and one to standard error.
const WRITES: &str = r"
    addiu $v0 $zero write; addiu $a0 $zero 1; lui $a1 0x40; ori $a1 $a1 0xFFD; addiu $a2 $zero 8; syscall
    addiu $a0 $v0 0; addiu $v0 $zero exit; syscall
    out abc
    o32run run p = exited 3 3 9

    addiu $a0 $zero 2; lui $a1 0x40; ori $a1 $a1 0x100; addiu $a2 $zero 1; addiu $v0 $zero write; syscall
    addiu $a0 $v0 0; addiu $v0 $zero exit_group; syscall
    err H
    o32run run p = exited 1 1 9
";

/// pipe(2) gives 3 and 4. Two bytes go into the last pipe, and a read of eight gives two.
const PIPES: &str = r"
    addiu $v0 $zero pipe; syscall; addiu $a0 $v0 0; addiu $v0 $zero exit; syscall
    o32run run p = exited 3 3 5

    addiu $v0 $zero pipe; syscall; addiu $a0 $v1 0; addiu $v0 $zero exit; syscall
    o32run run p = exited 4 4 5

    addiu $v0 $zero pipe; syscall
    addiu $a0 $zero 4; lui $a1 0x40; ori $a1 $a1 0x100; addiu $a2 $zero 2; addiu $v0 $zero write; syscall
    addiu $a0 $zero 3; addiu $a1 $sp 0; addiu $a2 $zero 8; addiu $v0 $zero read; syscall
    addiu $a0 $v0 0; addiu $v0 $zero exit; syscall
    o32run run p = exited 2 2 16
";

const READS_OF_THE_INPUT: &str = r"
    addiu $a0 $zero 0; addiu $a1 $sp 0; addiu $a2 $zero 8; addiu $v0 $zero read; syscall
    addiu $a0 $v0 0; addiu $v0 $zero exit; syscall
    input xy
    o32run run p = exited 2 2 8

    addiu $a0 $zero 0; addiu $a1 $sp 0; addiu $a2 $zero 8; addiu $v0 $zero read; syscall
    addiu $v0 $zero read; syscall
    addiu $a0 $v0 0; addiu $v0 $zero exit; syscall
    input xy
    o32run run p = exited 0 0 10
";

/// EINVAL is 22, ENOTTY 25.
const REFUSED_TRANSFERS: &str = r"
    addiu $a1 $sp 0; addiu $a2 $zero 1025; addiu $v0 $zero readv; syscall
    addiu $a0 $v0 0; addiu $v0 $zero exit; syscall
    o32run run p = exited 22 22 7

    addiu $a0 $zero 1; lui $a1 0x4008; ori $a1 $a1 0x7468; addiu $v0 $zero ioctl; syscall
    addiu $a0 $v0 0; addiu $v0 $zero exit; syscall
    o32run run p = exited 25 25 8
";

/// A read of an empty pipe waits, and the attempt that finds the process blocked is no turn. At the end: LL, a system call or none,
/// SC: the status is what SC gives.
const OTHER_ENDS: &str = r"
    addiu $v0 $zero pipe; syscall
    addiu $a0 $zero 3; addiu $a1 $sp 0; addiu $a2 $zero 8; addiu $v0 $zero read; syscall
    o32run run p = blocked 123 7

    break 7
    o32run run p = killed 8 136 2

    break 0
    o32run run p = killed 5 133 2

    teq $zero $zero 7
    o32run run p = killed 8 136 2

    lw $t0 0 $zero
    o32run run p = killed 11 139 2

    movf $zero $zero $fcc0
    o32run run p = killed 4 132 2

    ll $t0 0 $sp; addiu $v0 $zero 5; syscall; sc $t0 0 $sp
    addiu $v0 $t0 0; addiu $a0 $v0 0; addiu $v0 $zero exit; syscall
    o32run run p = exited 0 0 8

    ll $t0 0 $sp; addiu $v0 $zero 5; nop; sc $t0 0 $sp
    addiu $v0 $t0 0; addiu $a0 $v0 0; addiu $v0 $zero exit; syscall
    o32run run p = exited 1 1 8
";

#[test]
fn calls_that_are_not_there(rt: HostRuntime) -> Result<(), Fail> {
    assert_eq!(rt;
        first_wrong(rt.alloc(), "", CALLS_THAT_ARE_NOT_THERE)?,
        None
    );
    Ok(())
}

#[test]
fn small_calls(rt: HostRuntime) -> Result<(), Fail> {
    assert_eq!(rt; first_wrong(rt.alloc(), "", SMALL_CALLS)?, None);
    Ok(())
}

#[test]
fn limits_and_exits(rt: HostRuntime) -> Result<(), Fail> {
    assert_eq!(rt; first_wrong(rt.alloc(), "", LIMITS_AND_EXITS)?, None);
    Ok(())
}

#[test]
fn writes_of_no_byte(rt: HostRuntime) -> Result<(), Fail> {
    assert_eq!(rt; first_wrong(rt.alloc(), "", WRITES_OF_NO_BYTE)?, None);
    Ok(())
}

#[test]
fn writes(rt: HostRuntime) -> Result<(), Fail> {
    assert_eq!(rt; first_wrong(rt.alloc(), "", WRITES)?, None);
    Ok(())
}

#[test]
fn pipes(rt: HostRuntime) -> Result<(), Fail> {
    assert_eq!(rt; first_wrong(rt.alloc(), "", PIPES)?, None);
    Ok(())
}

#[test]
fn reads_of_the_input(rt: HostRuntime) -> Result<(), Fail> {
    assert_eq!(rt; first_wrong(rt.alloc(), "", READS_OF_THE_INPUT)?, None);
    Ok(())
}

#[test]
fn refused_transfers(rt: HostRuntime) -> Result<(), Fail> {
    assert_eq!(rt; first_wrong(rt.alloc(), "", REFUSED_TRANSFERS)?, None);
    Ok(())
}

#[test]
fn other_ends(rt: HostRuntime) -> Result<(), Fail> {
    assert_eq!(rt; first_wrong(rt.alloc(), "", OTHER_ENDS)?, None);
    Ok(())
}
