//! The trace of a run: what each line tells, and a store that fails.
use session_scripts::first_wrong;
use std::alloc::Global;
use std::test::Fail;

/// The program that writes `Hi`.
const HELLO: &str = r"
    file p @hello
";

/// The file may be there before. The options stand in any order.
const A_PROGRAM: &str = r"
    trace 6 call 4004 00000001 00400100 00000003 00000000 = 00000003 0
    trace 9 exit 7
    out Hi\n
    o32run run --trace trace p = exited 7 7 9

    file trace old
    trace 6 call 4004 00000001 00400100 00000003 00000000 = 00000003 0
    trace 8 budget
    out Hi\n
    saved @empty_root
    o32run run --save s --budget 8 --trace trace p = budget 124 8

    trace 5 budget
    o32run run --trace trace --budget 5 p = budget 124 5
";

/// The load of the program is call 1 on the store, `create` is call 2, and the lines of turns 6 and 9 are calls 3 and 4. The call of
/// turn 6 has written before its line is added.
const STORES_THAT_FAIL: &str = r"
    file trace old
    fails store 1
    traced old
    o32run run --trace trace p = read_fault 122 0

    file trace old
    fails store 2
    traced old
    o32run run --trace trace p = write_fault 119 0

    fails store 3
    traced
    out Hi\n
    o32run run --trace trace p = write_fault 119 5

    fails store 4
    trace 6 call 4004 00000001 00400100 00000003 00000000 = 00000003 0
    out Hi\n
    o32run run --trace trace p = write_fault 119 8

    fails store 3
    traced
    o32run run --budget 5 --trace trace p = write_fault 119 5

    fails put 1
    traced
    o32run run --trace trace p = write_fault 119 5
";

/// A call that is not there, an error that a call gives, a fault, and waits that nothing ends. A fault stands in the turn of its
/// instruction, and kills in the next. The attempt that finds a process stopped for good has the number behind those of its turns.
const EVENTS: &str = r"
    addiu $v0 $zero 4999; syscall; addiu $a0 $v0 0; addiu $v0 $zero exit; syscall
    trace 2 call 4999 00000000 00000000 00000000 00000000 = 00000059 1
    trace 5 exit 89
    o32run run --trace trace p = exited 89 89 5

    addiu $a0 $zero 0xFFFF; addiu $v0 $zero close; syscall; addiu $v0 $zero exit_group; syscall
    trace 3 call 4006 ffffffff 00000000 00000000 00000000 = 00000009 1
    trace 5 exit 255
    o32run run --trace trace p = exited 255 255 5

    lw $t0 4 $zero
    trace 1 fault 11 1 00000004
    trace 2 killed 11
    o32run run --trace trace p = killed 11 139 2

    lw $t0 4 $zero
    trace 1 fault 11 1 00000004
    trace 1 budget
    o32run run --trace trace --budget 1 p = budget 124 1

    addiu $v0 $zero pause; syscall
    trace 2 wait 4029 00000000 00000000 00000000 00000000
    trace 2 blocked
    o32run run --trace trace p = blocked 123 2

    addiu $v0 $zero pause; syscall
    trace 2 wait 4029 00000000 00000000 00000000 00000000
    trace 2 budget
    o32run run --trace trace --budget 2 p = budget 124 2

    addiu $a0 $zero 100; addiu $a1 $zero 23; addiu $v0 $zero kill; syscall
    trace 4 call 4037 00000064 00000017 00000000 00000000 = 00000000 0
    trace 5 signal 23 stop
    trace 4 blocked
    o32run run --trace trace p = blocked 123 4

    beq $zero $zero 0xFFFF; nop
    file t at 5000 kill 15\n
    trace 6 post 15
    trace 7 killed 15
    o32run run --schedule t --trace trace p = killed 15 143 7
";

#[test]
fn a_program(rt: HostRuntime) -> Result<(), Fail> {
    assert_eq!(rt; first_wrong(rt.alloc(), HELLO, A_PROGRAM)?, None);
    Ok(())
}

#[test]
fn stores_that_fail(rt: HostRuntime) -> Result<(), Fail> {
    assert_eq!(rt; first_wrong(rt.alloc(), HELLO, STORES_THAT_FAIL)?, None);
    Ok(())
}

#[test]
fn events(rt: HostRuntime) -> Result<(), Fail> {
    assert_eq!(rt; first_wrong(rt.alloc(), "", EVENTS)?, None);
    Ok(())
}

/// A program that blocks signal 34 in its eighth turn and then goes round. The clock gains a nanosecond a turn, so that what comes at 100 is posted in
/// turn 101: 1,024 signals queue, and one more is dropped, which has a line in the place of the other.
const A_FULL_QUEUE: &str = r"
    addiu $t0 $zero 2; sw $t0 0xFFC4 $sp
    addiu $a0 $zero 1; addiu $a1 $sp 0xFFC0; addiu $a2 $zero 0; addiu $a3 $zero 16; addiu $v0 $zero rt_sigprocmask; syscall
    beq $zero $zero 0xFFFF; nop
    trace 8 call 4195 00000001 7ffeff00 00000000 00000010 = 00000000 0
";

/// How many signals queue.
const QUEUED: usize = 1024;

/// The session of that program, with one signal more than queue.
fn session_of_a_full_queue(alloc: Global) -> Result<String, Fail> {
    let mut script = String::from_str(alloc, "file t quantum 1\\n")?;
    for _ in 0..QUEUED {
        script.push_str("at 100 queue 34 1\\n")?;
    }
    script.push_str("at 100 queue 34 1\\n\n")?;
    for _ in 0..QUEUED {
        script.push_str("trace 101 post 34\n")?;
    }
    script.push_str("trace 101 drop 34\ntrace 110 budget\n")?;
    script.push_str("o32run run --schedule t --trace trace --budget 110 p = budget 124 110\n")?;
    Ok(script)
}

#[test]
fn a_full_queue(rt: HostRuntime) -> Result<(), Fail> {
    let script = session_of_a_full_queue(rt.alloc())?;
    assert_eq!(rt;
        first_wrong(rt.alloc(), A_FULL_QUEUE, script.as_str())?,
        None
    );
    Ok(())
}
