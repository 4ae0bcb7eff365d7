//! Frames of handlers: where they lie, what they keep, and what a return makes of them.
//!
//! A handler stands at 0x00400008, behind a branch over it. At its first instruction $a0 is the signal, and $a1 the siginfo.
use session_scripts::first_wrong;
use std::test::Fail;

/// The status is the low byte of the handler's stack pointer. The stack pointer before is 0x7FFEFF40, so that a plain frame lies
/// at 0x7FFEFCA8 and one with siginfo at 0x7FFEFC10; on an alternate stack that ends at 0x7FFD2000 it lies at 0x7FFD1D88. The
/// turn in which a signal is delivered has the handler's first instruction.
const PLACES: &str = r"
    beq $zero $zero 4; nop
    addiu $a0 $sp 0; addiu $v0 $zero exit; syscall
    lui $t0 0x40; ori $t0 $t0 8; sw $t0 0xFFC4 $sp
    addiu $a0 $zero 16; addiu $a1 $sp 0xFFC0; addiu $a2 $zero 0; addiu $a3 $zero 16; addiu $v0 $zero rt_sigaction; syscall
    addiu $a0 $zero 100; addiu $a1 $zero 16; addiu $v0 $zero kill; syscall
    o32run run p = exited 0xA8 0xA8 18

    beq $zero $zero 4; nop
    addiu $a0 $sp 0; addiu $v0 $zero exit; syscall
    addiu $t0 $zero 8; sw $t0 0xFFC0 $sp; lui $t0 0x40; ori $t0 $t0 8; sw $t0 0xFFC4 $sp
    addiu $a0 $zero 16; addiu $a1 $sp 0xFFC0; addiu $a2 $zero 0; addiu $a3 $zero 16; addiu $v0 $zero rt_sigaction; syscall
    addiu $a0 $zero 100; addiu $a1 $zero 16; addiu $v0 $zero kill; syscall
    o32run run p = exited 0x10 0x10 20

    beq $zero $zero 4; nop
    addiu $a0 $sp 0; addiu $v0 $zero exit; syscall
    lui $t0 0x7FFD; sw $t0 0xFFE0 $sp; addiu $t0 $zero 0x2000; sw $t0 0xFFE4 $sp
    addiu $a0 $sp 0xFFE0; addiu $a1 $zero 0; addiu $v0 $zero sigaltstack; syscall
    lui $t0 0x800; sw $t0 0xFFC0 $sp; lui $t0 0x40; ori $t0 $t0 8; sw $t0 0xFFC4 $sp
    addiu $a0 $zero 16; addiu $a1 $sp 0xFFC0; addiu $a2 $zero 0; addiu $a3 $zero 16; addiu $v0 $zero rt_sigaction; syscall
    addiu $a0 $zero 100; addiu $a1 $zero 16; addiu $v0 $zero kill; syscall
    o32run run p = exited 0x88 0x88 28
";

/// A load from 0x20000000, where no page is, in the slot of a branch at 0x0040007C that is taken. The handler writes the siginfo,
/// SIGSEGV with code 1 and that address, and the frame's pc, which is the branch's, and maps the page; after its return the branch
/// and the load are carried out.
const A_FAULT_THAT_IS_MENDED: &str = r"
    beq $zero $zero 18; nop
    addiu $a0 $zero 1; addiu $a2 $zero 16; addiu $v0 $zero write; syscall
    addiu $a1 $sp 188; addiu $a0 $zero 1; addiu $a2 $zero 4; addiu $v0 $zero write; syscall
    lui $a0 0x2000; addiu $a1 $zero 0x1000; addiu $a2 $zero 3; addiu $a3 $zero 0x812; addiu $v0 $zero mmap2; syscall
    jr $ra; nop
    addiu $t0 $zero 8; sw $t0 0xFFC0 $sp; lui $t0 0x40; ori $t0 $t0 8; sw $t0 0xFFC4 $sp
    addiu $a0 $zero 11; addiu $a1 $sp 0xFFC0; addiu $a2 $zero 0; addiu $a3 $zero 16; addiu $v0 $zero rt_sigaction; syscall
    lui $t1 0x2000; beq $zero $zero 2; lw $t0 0 $t1
    break 0
    addiu $a0 $t0 7; addiu $v0 $zero exit; syscall
    out \0\0\0\x0B\0\0\0\x01\0\0\0\0\x20\0\0\0\0\x40\0\x7C
    o32run run p = exited 7 7 40
";

/// rt_sigreturn of a frame of zeros, but for the mask, which is all ones, the stack pointer, and the pc, past the break. The mask
/// then has every signal but 9 and 23.
const A_FORGED_FRAME: &str = r"
    addiu $sp $sp 0xFC00; addiu $t0 $zero 0xFFFF
    sw $t0 768 $sp; sw $t0 772 $sp; sw $t0 776 $sp; sw $t0 780 $sp
    lui $t0 0x40; ori $t0 $t0 0x34; sw $t0 188 $sp; sw $sp 428 $sp; addiu $v0 $zero rt_sigreturn; syscall
    break 0
    addiu $a0 $zero 1; addiu $a1 $zero 0; addiu $a2 $sp 0xFFC0; addiu $a3 $zero 16; addiu $v0 $zero rt_sigprocmask; syscall
    addiu $a0 $zero 1; addiu $a1 $sp 0xFFC0; addiu $a2 $zero 16; addiu $v0 $zero write; syscall
    addiu $a0 $zero 0; addiu $v0 $zero exit; syscall
    out \xFF\xBF\xFE\xFF\xFF\xFF\xFF\xFF\xFF\xFF\xFF\xFF\xFF\xFF\xFF\xFF
    o32run run p = exited 0 0 26
";

/// A return from a frame that can't be read, at address 0, is a fault, whose signal kills where it has no handler.
const NO_FRAME: &str = r"
    addiu $sp $zero 0; addiu $v0 $zero rt_sigreturn; syscall
    o32run run p = killed 11 139 4
";

#[test]
fn places(rt: HostRuntime) -> Result<(), Fail> {
    assert_eq!(rt; first_wrong(rt.alloc(), "", PLACES)?, None);
    Ok(())
}

#[test]
fn a_fault_that_is_mended(rt: HostRuntime) -> Result<(), Fail> {
    assert_eq!(rt; first_wrong(rt.alloc(), "", A_FAULT_THAT_IS_MENDED)?, None);
    Ok(())
}

#[test]
fn returns(rt: HostRuntime) -> Result<(), Fail> {
    assert_eq!(rt; first_wrong(rt.alloc(), "", A_FORGED_FRAME)?, None);
    assert_eq!(rt; first_wrong(rt.alloc(), "", NO_FRAME)?, None);
    Ok(())
}
