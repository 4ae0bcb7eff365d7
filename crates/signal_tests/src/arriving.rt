//! How signals arrive: in which order, in which turn, and what they do without a handler.
use session_scripts::first_wrong;
use std::test::Fail;

/// The handler of 34 writes the value that was sent with the signal. The second one is delivered once the first has returned.
const VALUES: &str = r"
    beq $zero $zero 8; nop
    addiu $a1 $a1 20; addiu $a0 $zero 1; addiu $a2 $zero 4; addiu $v0 $zero write; syscall; jr $ra; nop
    addiu $t0 $zero 8; sw $t0 0xFFC0 $sp; lui $t0 0x40; ori $t0 $t0 8; sw $t0 0xFFC4 $sp
    addiu $a0 $zero 34; addiu $a1 $sp 0xFFC0; addiu $a2 $zero 0; addiu $a3 $zero 16; addiu $v0 $zero rt_sigaction; syscall
    beq $zero $zero 0xFFFF; nop
    file t quantum 1\nat 1000 queue 34 5\nat 1000 queue 34 6\n
    out \0\0\0\x05\0\0\0\x06
    o32run run --schedule t --budget 3000 p = budget 124 3000
";

/// 14 is delivered before 16, though 16 was sent first, so that the handler of 16 runs first. In turn 1001 the next instruction stands in
/// the branch's slot. Plain frames lie 664 bytes apart.
const ORDER: &str = r"
    beq $zero $zero 9; nop
    sw $a0 0xFFFC $sp; addiu $a1 $sp 0xFFFC; addiu $a0 $zero 1; addiu $a2 $zero 4; addiu $v0 $zero write; syscall; jr $ra; nop
    lui $t0 0x40; ori $t0 $t0 8; sw $t0 0xFFC4 $sp
    addiu $a0 $zero 14; addiu $a1 $sp 0xFFC0; addiu $a2 $zero 0; addiu $a3 $zero 16; addiu $v0 $zero rt_sigaction; syscall
    addiu $a0 $zero 16; addiu $a1 $sp 0xFFC0; addiu $a2 $zero 0; addiu $a3 $zero 16; addiu $v0 $zero rt_sigaction; syscall
    beq $zero $zero 0xFFFF; nop
    file t quantum 1\nat 1000 kill 16\nat 1000 kill 14\n
    out \0\0\0\x10\0\0\0\x0E
    trace 11 call 4194 0000000e 7ffeff00 00000000 00000010 = 00000000 0
    trace 17 call 4194 00000010 7ffeff00 00000000 00000010 = 00000000 0
    trace 1001 post 16
    trace 1001 post 14
    trace 1002 signal 14 handler
    trace 1002 signal 16 handler
    trace 1007 call 4004 00000001 7ffefa0c 00000004 00000000 = 00000004 0
    trace 1011 return
    trace 1017 call 4004 00000001 7ffefca4 00000004 00000000 = 00000004 0
    trace 1021 return
    trace 3000 budget
    o32run run --schedule t --trace trace --budget 3000 p = budget 124 3000
";

/// The handler waits a while before it writes its number, and the second signal comes meanwhile: its handler interrupts the first.
const INTERRUPTED: &str = r"
    beq $zero $zero 13; nop
    addiu $t1 $zero 20; addiu $t1 $t1 0xFFFF; bne $t1 $zero 0xFFFE; nop
    sw $a0 0xFFFC $sp; addiu $a1 $sp 0xFFFC; addiu $a0 $zero 1; addiu $a2 $zero 4; addiu $v0 $zero write; syscall; jr $ra; nop
    lui $t0 0x40; ori $t0 $t0 8; sw $t0 0xFFC4 $sp
    addiu $a0 $zero 14; addiu $a1 $sp 0xFFC0; addiu $a2 $zero 0; addiu $a3 $zero 16; addiu $v0 $zero rt_sigaction; syscall
    addiu $a0 $zero 16; addiu $a1 $sp 0xFFC0; addiu $a2 $zero 0; addiu $a3 $zero 16; addiu $v0 $zero rt_sigaction; syscall
    beq $zero $zero 0xFFFF; nop
    file t quantum 1\nat 1000 kill 16\nat 1030 kill 14\n
    out \0\0\0\x0E\0\0\0\x10
    o32run run --schedule t --budget 3000 p = budget 124 3000
";

/// A loop of three instructions counts in $s0, and the handler writes the count. Eleven turns stand before the loop, and at 1,000,000
/// the next instruction stands in the branch's slot, so that the signal is delivered in the turn behind that.
const ITS_TURN: &str = r"
    beq $zero $zero 10; nop
    sw $s0 0xFFFC $sp; addiu $a1 $sp 0xFFFC; addiu $a0 $zero 1; addiu $a2 $zero 4; addiu $v0 $zero write; syscall
    addiu $a0 $zero 0; addiu $v0 $zero exit; syscall
    lui $t0 0x40; ori $t0 $t0 8; sw $t0 0xFFC4 $sp
    addiu $a0 $zero 16; addiu $a1 $sp 0xFFC0; addiu $a2 $zero 0; addiu $a3 $zero 16; addiu $v0 $zero rt_sigaction; syscall
    addiu $s0 $s0 1; beq $zero $zero 0xFFFE; nop
    file t quantum 1\nat 1000000 kill 16\n
    out \0\x05\x16\x12
    o32run run --schedule t p = exited 0 0 1000010
";

/// kill(2) of itself. SIGCHLD does nothing by default, and SIGSTOP, SIGTSTP, SIGTTIN and SIGTTOU stop: then nothing can come.
const DEFAULTS: &str = r"
    addiu $a0 $zero 100; addiu $a1 $zero 15; addiu $v0 $zero kill; syscall
    o32run run p = killed 15 143 5

    addiu $a0 $zero 0; addiu $a1 $zero 9; addiu $v0 $zero kill; syscall
    o32run run p = killed 9 137 5

    addiu $a0 $zero 0xFF9C; addiu $a1 $zero 34; addiu $v0 $zero kill; syscall
    o32run run p = killed 34 162 5

    addiu $a0 $zero 100; addiu $a1 $zero 128; addiu $v0 $zero kill; syscall
    o32run run p = killed 128 255 5

    addiu $a0 $zero 100; addiu $a1 $zero 18; addiu $v0 $zero kill; syscall
    addiu $a0 $v0 0; addiu $v0 $zero exit; syscall
    o32run run p = exited 0 0 7

    addiu $a0 $zero 100; addiu $a1 $zero 23; addiu $v0 $zero kill; syscall
    o32run run p = blocked 123 4

    addiu $a0 $zero 100; addiu $a1 $zero 24; addiu $v0 $zero kill; syscall
    o32run run p = blocked 123 4

    addiu $a0 $zero 100; addiu $a1 $zero 26; addiu $v0 $zero kill; syscall
    o32run run p = blocked 123 4

    addiu $a0 $zero 100; addiu $a1 $zero 27; addiu $v0 $zero kill; syscall
    o32run run p = blocked 123 4
";

/// A write to a pipe without a reader: SIGPIPE kills, and where it is blocked the write fails with EPIPE, 32.
const A_PIPE_WITHOUT_A_READER: &str = r"
    addiu $v0 $zero pipe; syscall; addiu $a0 $zero 3; addiu $v0 $zero close; syscall
    addiu $a0 $zero 4; addiu $a1 $sp 0; addiu $a2 $zero 1; addiu $v0 $zero write; syscall
    o32run run p = killed 13 141 11

    addiu $t0 $zero 0x1000; sw $t0 0xFFE0 $sp
    addiu $a0 $zero 1; addiu $a1 $sp 0xFFE0; addiu $a2 $zero 0; addiu $a3 $zero 16; addiu $v0 $zero rt_sigprocmask; syscall
    addiu $v0 $zero pipe; syscall; addiu $a0 $zero 3; addiu $v0 $zero close; syscall
    addiu $a0 $zero 4; addiu $a1 $sp 0; addiu $a2 $zero 1; addiu $v0 $zero write; syscall
    addiu $a0 $v0 0; addiu $v0 $zero exit; syscall
    o32run run p = exited 32 32 21
";

/// A fault kills where its signal is blocked, and where it is ignored.
const FAULTS_THAT_KILL: &str = r"
    addiu $t0 $zero 0x400; sw $t0 0xFFE0 $sp
    addiu $a0 $zero 1; addiu $a1 $sp 0xFFE0; addiu $a2 $zero 0; addiu $a3 $zero 16; addiu $v0 $zero rt_sigprocmask; syscall
    lw $t0 0 $zero
    o32run run p = killed 11 139 10

    addiu $t0 $zero 1; sw $t0 0xFFC4 $sp
    addiu $a0 $zero 11; addiu $a1 $sp 0xFFC0; addiu $a2 $zero 0; addiu $a3 $zero 16; addiu $v0 $zero rt_sigaction; syscall
    lw $t0 0 $zero
    o32run run p = killed 11 139 10
";

/// Under SA_RESETHAND the handler runs once, and the second signal kills.
const ONCE: &str = r"
    beq $zero $zero 3; nop
    jr $ra; nop
    lui $t0 0x8000; sw $t0 0xFFC0 $sp; lui $t0 0x40; ori $t0 $t0 8; sw $t0 0xFFC4 $sp
    addiu $a0 $zero 16; addiu $a1 $sp 0xFFC0; addiu $a2 $zero 0; addiu $a3 $zero 16; addiu $v0 $zero rt_sigaction; syscall
    addiu $a0 $zero 100; addiu $a1 $zero 16; addiu $v0 $zero kill; syscall
    addiu $a0 $zero 100; addiu $a1 $zero 16; addiu $v0 $zero kill; syscall
    o32run run p = killed 16 144 26
";

#[test]
fn values(rt: HostRuntime) -> Result<(), Fail> {
    assert_eq!(rt; first_wrong(rt.alloc(), "", VALUES)?, None);
    Ok(())
}

#[test]
fn order(rt: HostRuntime) -> Result<(), Fail> {
    assert_eq!(rt; first_wrong(rt.alloc(), "", ORDER)?, None);
    Ok(())
}

#[test]
fn interrupted(rt: HostRuntime) -> Result<(), Fail> {
    assert_eq!(rt; first_wrong(rt.alloc(), "", INTERRUPTED)?, None);
    Ok(())
}

#[test]
fn its_turn(rt: HostRuntime) -> Result<(), Fail> {
    assert_eq!(rt; first_wrong(rt.alloc(), "", ITS_TURN)?, None);
    Ok(())
}

#[test]
fn defaults(rt: HostRuntime) -> Result<(), Fail> {
    assert_eq!(rt; first_wrong(rt.alloc(), "", DEFAULTS)?, None);
    Ok(())
}

#[test]
fn kills(rt: HostRuntime) -> Result<(), Fail> {
    assert_eq!(rt; first_wrong(rt.alloc(), "", A_PIPE_WITHOUT_A_READER)?, None);
    assert_eq!(rt; first_wrong(rt.alloc(), "", FAULTS_THAT_KILL)?, None);
    assert_eq!(rt; first_wrong(rt.alloc(), "", ONCE)?, None);
    Ok(())
}
