//! Sleeps, and what the clocks show behind them. A turn with an instruction takes 1000 nanoseconds.

use crate::programs::first_wrong;
use std::test::Fail;

/// Each sleeps a second, and writes what a clock shows behind it: nanosleep(2) is called in the tenth turn, at 9,000
/// nanoseconds; the eleventh is without an instruction; clock_gettime(2) is called in the twenty-first, 9 turns behind
/// that. Behind the code stands the second, as seconds and nanoseconds.
///
/// The clock CLOCK_MONOTONIC, 1, and that of the process's CPU time, 2: 1 s and 18,000 ns; 19,000 ns.
const CLOCKS: &str = "
    lui $a0 code_high  ori $a0 $a0 112  lui $a1 0  ori $a1 $a1 0
    lui $a2 0  ori $a2 $a2 0  lui $a3 0  ori $a3 $a3 0  addiu $v0 $zero nanosleep  syscall
    lui $a0 0  ori $a0 $a0 1  lui $a1 data_high  ori $a1 $a1 0
    lui $a2 0  ori $a2 $a2 0  lui $a3 0  ori $a3 $a3 0  addiu $v0 $zero clock_gettime  syscall
    addiu $a0 $zero 1  lui $a1 data_high  addiu $a2 $zero 8  addiu $v0 $zero write  syscall
    addiu $a0 $zero 0  addiu $v0 $zero exit  syscall
    .word 1  .word 0
    out 0000000100004650  exited 0 turns 29

    lui $a0 code_high  ori $a0 $a0 112  lui $a1 0  ori $a1 $a1 0
    lui $a2 0  ori $a2 $a2 0  lui $a3 0  ori $a3 $a3 0  addiu $v0 $zero nanosleep  syscall
    lui $a0 0  ori $a0 $a0 2  lui $a1 data_high  ori $a1 $a1 0
    lui $a2 0  ori $a2 $a2 0  lui $a3 0  ori $a3 $a3 0  addiu $v0 $zero clock_gettime  syscall
    addiu $a0 $zero 1  lui $a1 data_high  addiu $a2 $zero 8  addiu $v0 $zero write  syscall
    addiu $a0 $zero 0  addiu $v0 $zero exit  syscall
    .word 1  .word 0
    out 0000000000004a38  exited 0 turns 29
";

/// A time of 10^9 nanoseconds is EINVAL, 22; one of nothing gives 0 at once.
const TIMES: &str = "
    lui $a0 code_high  ori $a0 $a0 28  addiu $v0 $zero nanosleep  syscall
    addiu $a0 $v0 0  addiu $v0 $zero exit  syscall
    .word 0  .word 1000000000
    exited 22 turns 7

    lui $a0 code_high  ori $a0 $a0 28  addiu $v0 $zero nanosleep  syscall
    addiu $a0 $v0 0  addiu $v0 $zero exit  syscall
    .word 0  .word 0
    exited 0 turns 7
";

#[test]
fn clocks(rt: HostRuntime) -> Result<(), Fail> {
    assert_eq!(rt; first_wrong(rt.alloc(), CLOCKS)?, None);
    Ok(())
}

#[test]
fn times(rt: HostRuntime) -> Result<(), Fail> {
    assert_eq!(rt; first_wrong(rt.alloc(), TIMES)?, None);
    Ok(())
}
