//! The schedule of a run: what its settings do, and how it is refused.
use session_scripts::first_wrong;
use std::test::Fail;

/// Four bytes of getrandom(2), which are written to standard output.
const FOUR_BYTES_OF_CHANCE: &str = r"
    addiu $a0 $sp 0; addiu $a1 $zero 4; addiu $a2 $zero 0; addiu $v0 $zero getrandom; syscall
    addiu $a0 $zero 1; addiu $a1 $sp 0; addiu $a2 $zero 4; addiu $v0 $zero write; syscall
    addiu $a0 $v0 0; addiu $v0 $zero exit; syscall
";

/// The first stack takes the first sixteen bytes, and getrandom(2) goes on behind them.
const CHANCE_OF_A_CALL: &str = r"
    file t random 0102\n
    out \x01\x02\x01\x02
    o32run run --schedule t p = exited 4 4 13

    file t random 000102030405060708090a0b0c0d0e0f10\n
    out \x10\0\x01\x02
    o32run run --schedule t p = exited 4 4 13

    file t
    out \0\0\0\0
    o32run run --schedule t p = exited 4 4 13
";

/// The sixteen bytes of AT_RANDOM, which are written to standard output. Behind one argument and no environment the first
/// stack has 38 words, which begin at a multiple of 16, so that these bytes stand 160 bytes behind their beginning.
const BYTES_OF_THE_START: &str = r"
    addiu $a0 $zero 1; addiu $a1 $sp 160; addiu $a2 $zero 16; addiu $v0 $zero write; syscall
    addiu $a0 $v0 0; addiu $v0 $zero exit; syscall
";

const CHANCE_OF_THE_START: &str = r"
    file t random 010203\n
    out \x01\x02\x03\x01\x02\x03\x01\x02\x03\x01\x02\x03\x01\x02\x03\x01
    o32run run --schedule t p = exited 16 16 8

    file t
    out \0\0\0\0\0\0\0\0\0\0\0\0\0\0\0\0
    o32run run --schedule t p = exited 16 16 8
";

/// TIOCGWINSZ on standard output, whose first four bytes are written there; it exits with what the call gave.
const SIZE_OF_THE_TERMINAL: &str = r"
    addiu $a0 $zero 1; lui $a1 0x4008; ori $a1 $a1 0x7468; addiu $a2 $sp 0; addiu $v0 $zero ioctl; syscall
    addiu $t0 $v0 0
    addiu $a0 $zero 1; addiu $a1 $sp 0; addiu $a2 $zero 4; addiu $v0 $zero write; syscall
    addiu $a0 $t0 0; addiu $v0 $zero exit; syscall
";

/// ENOTTY is 25. Where it comes, the first four bytes at $sp are the number of arguments.
const SETTINGS: &str = r"
    file t quantum 7\nepoch 3 4\ntty 25 80\n
    out \0\x19\0\x50
    o32run run --schedule t p = exited 0 0 15

    file t epoch 3 4\n
    out \0\0\0\x01
    o32run run --schedule t p = exited 25 25 15
";

/// The program that writes `Hi`.
const HELLO: &str = r"
    file p @hello
";

const REFUSED_SCHEDULES: &str = r"
    file t quantum\t1\n
    o32run run --schedule t p ! schedule 1 1 : o32run: schedule rule 1 line 1

    file t tty 1 1\nQuantum 1\n
    o32run run --schedule t p ! schedule 2 2 : o32run: schedule rule 2 line 2

    file t random 0\n
    o32run run --schedule t p ! schedule 3 1 : o32run: schedule rule 3 line 1

    file t quantum 0\n
    o32run run --schedule t p ! schedule 4 1 : o32run: schedule rule 4 line 1

    file t epoch 1 0\nepoch 1 0\n
    o32run run --schedule t p ! schedule 5 2 : o32run: schedule rule 5 line 2

    file t at 1 kill 1\nquantum 1\n
    o32run run --schedule t p ! schedule 6 2 : o32run: schedule rule 6 line 2

    file t at 5 kill 14\nat 4 kill 14\n
    o32run run --schedule t p ! schedule 7 2 : o32run: schedule rule 7 line 2

    file t at 5 kill 14
    o32run run --schedule t p ! schedule 8 1 : o32run: schedule rule 8 line 1
";

/// A signal from outside kills a program that has no handler for it: in the sixth turn of 1,000 nanoseconds or of one, and in the first.
/// That turn counts.
const SIGNALS_FROM_OUTSIDE: &str = r"
    file t at 5000 kill 15\n
    o32run run --schedule t p = killed 15 143 6

    file t quantum 1\nat 5 kill 14\nat 6 kill 14\n
    o32run run --schedule t p = killed 14 142 6

    file t at 0 queue 33 9\n
    o32run run --schedule t p = killed 33 161 1
";

const MISSING_SCHEDULE: &str = r"
    o32run run --schedule t p ! missing 3 : o32run: file 3 missing
";

const SCHEDULE_BEHIND_THE_IMAGE: &str = r"
    file i
    file t quantum 0\n
    o32run run --schedule t --image i p ! image 1 0 : o32run: image rule 1 at 0
";

/// The argument is too long, which is looked at behind the schedule.
const SCHEDULE_BEFORE_THE_START: &str = r"
    file t quantum 0\n
    o32run run --schedule t p a*131072 ! schedule 4 1 : o32run: schedule rule 4 line 1
";

#[test]
fn chance(rt: HostRuntime) -> Result<(), Fail> {
    assert_eq!(rt;
        first_wrong(rt.alloc(), FOUR_BYTES_OF_CHANCE, CHANCE_OF_A_CALL)?,
        None
    );
    assert_eq!(rt;
        first_wrong(rt.alloc(), BYTES_OF_THE_START, CHANCE_OF_THE_START)?,
        None
    );
    Ok(())
}

#[test]
fn settings(rt: HostRuntime) -> Result<(), Fail> {
    assert_eq!(rt;
        first_wrong(rt.alloc(), SIZE_OF_THE_TERMINAL, SETTINGS)?,
        None
    );
    Ok(())
}

#[test]
fn refused_schedules(rt: HostRuntime) -> Result<(), Fail> {
    assert_eq!(rt; first_wrong(rt.alloc(), HELLO, REFUSED_SCHEDULES)?, None);
    Ok(())
}

#[test]
fn signals_from_outside(rt: HostRuntime) -> Result<(), Fail> {
    assert_eq!(rt; first_wrong(rt.alloc(), HELLO, SIGNALS_FROM_OUTSIDE)?, None);
    Ok(())
}

#[test]
fn missing_schedule(rt: HostRuntime) -> Result<(), Fail> {
    assert_eq!(rt; first_wrong(rt.alloc(), HELLO, MISSING_SCHEDULE)?, None);
    Ok(())
}

#[test]
fn schedule_behind_the_image(rt: HostRuntime) -> Result<(), Fail> {
    assert_eq!(rt;
        first_wrong(rt.alloc(), HELLO, SCHEDULE_BEHIND_THE_IMAGE)?,
        None
    );
    Ok(())
}

#[test]
fn schedule_before_the_start(rt: HostRuntime) -> Result<(), Fail> {
    assert_eq!(rt;
        first_wrong(rt.alloc(), HELLO, SCHEDULE_BEFORE_THE_START)?,
        None
    );
    Ok(())
}
