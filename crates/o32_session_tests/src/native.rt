//! The native log of a run: what the kernel below was told and asked, and a store that fails. In the first line of each turn stands the
//! kernel's clock, in nanoseconds: at 1,000 a turn, turn 6 begins at 5,000. Host memory begins at 0x10000.
use session_scripts::first_wrong;
use std::test::Fail;

/// The program that writes `Hi`.
const HELLO: &str = r"
    file p @hello
";

/// Its one native call is write(2), number 64 of the generic table, of the three bytes of `Hi` and a newline. exit(2) is no native call.
const A_PROGRAM: &str = r"
    native 6 clock 5000
    native 6 call 64 0000000000000001 0000000000010000 0000000000000003 0000000000000000 0000000000000000 0000000000000000 48690a 48690a = 3
    out Hi\n
    o32run run --native native p = exited 7 7 9

    file native old
    native 6 clock 5000
    native 6 call 64 0000000000000001 0000000000010000 0000000000000003 0000000000000000 0000000000000000 0000000000000000 48690a 48690a = 3
    trace 6 call 4004 00000001 00400100 00000003 00000000 = 00000003 0
    trace 8 budget
    out Hi\n
    saved @empty_root
    o32run run --save s --native native --budget 8 --trace trace p = budget 124 8

    logged
    o32run run --budget 5 --native native p = budget 124 5

    out Hi\n
    o32run run p = exited 7 7 9
";

/// The load of the program is call 1 on the store. The files of the trace and of the log are made by the next two, and the trace's
/// lines of a turn are added before those of the log. A turn whose lines could not be added doesn't count.
const STORES_THAT_FAIL: &str = r"
    file native old
    fails store 1
    logged old
    o32run run --native native p = read_fault 122 0

    file native old
    fails store 2
    logged old
    o32run run --native native p = write_fault 119 0

    fails store 3
    logged
    out Hi\n
    o32run run --native native p = write_fault 119 5

    file native old
    fails store 3
    traced
    logged old
    o32run run --trace trace --native native p = write_fault 119 0

    fails store 5
    trace 6 call 4004 00000001 00400100 00000003 00000000 = 00000003 0
    logged
    out Hi\n
    o32run run --trace trace --native native p = write_fault 119 5

    fails store 6
    trace 6 call 4004 00000001 00400100 00000003 00000000 = 00000003 0
    native 6 clock 5000
    native 6 call 64 0000000000000001 0000000000010000 0000000000000003 0000000000000000 0000000000000000 0000000000000000 48690a 48690a = 3
    out Hi\n
    o32run run --trace trace --native native p = write_fault 119 8

    fails put 1
    logged
    o32run run --native native p = write_fault 119 5
";

/// A call that is not there makes no native call. An error is the native number,
/// below 0: kill(2) of another process is ESRCH, 3; the signal 16, SIGUSR1, is 10 there.
const CALLS: &str = r"
    addiu $v0 $zero 4999; syscall; addiu $a0 $v0 0; addiu $v0 $zero exit; syscall
    logged
    o32run run --native native p = exited 89 89 5

    addiu $a0 $zero 7; addiu $a1 $zero 16; addiu $v0 $zero kill; syscall; addiu $a0 $v0 0; addiu $v0 $zero exit; syscall
    native 4 clock 3000
    native 4 call 129 0000000000000007 000000000000000a 0000000000000000 0000000000000000 0000000000000000 0000000000000000 - - = -3
    o32run run --native native p = exited 3 3 7

    addiu $v0 $zero pipe; syscall; addiu $a0 $zero 3; addiu $a1 $sp 0xFFF0; addiu $a2 $zero 2; addiu $v0 $zero read; syscall
    native 2 clock 1000
    native 2 call 59 0000000000010000 0000000000000000 0000000000000000 0000000000000000 0000000000000000 0000000000000000 0000000000000000 0300000004000000 = 0
    native 7 clock 6000
    native 7 call 63 0000000000000003 0000000000010000 0000000000000002 0000000000000000 0000000000000000 0000000000000000 0000 0000 = sleep 0 -
    o32run run --native native p = blocked 123 7
";

/// SIGCHLD, 18 and 17 there, is ignored and dropped. A turn posts the signals from outside first, and moves the kernel's clock to its
/// own time then: turn 6 posts at the time of turn 5, and the attempt behind turn 3, to which the clock jumps, at that of turn 3. The
/// attempt that finds the process blocked has the number behind those of its turns. The timer is asked for what it shows before it is
/// set, and goes off 20 microseconds after turn 5, in a slot, where no signal is delivered; pause(2) asks for the mask first.
const EVENTS: &str = r"
    beq $zero $zero 0xFFFF; nop
    file t at 5000 kill 18\nat 5000 queue 18 7\n
    native 6 clock 4000
    native 6 post 17 0 0
    native 6 post 17 -1 7
    o32run run --schedule t --budget 8 --native native p = budget 124 8

    addiu $t0 $zero 20; sw $t0 0xFFEC $sp; addiu $a1 $sp 0xFFE0; addiu $v0 $zero setitimer; syscall; beq $zero $zero 0xFFFF; nop
    trace 5 call 4104 00000000 7ffeff20 00000000 00000000 = 00000000 0
    trace 25 post 14
    trace 25 budget
    native 5 clock 4000
    native 5 call 102 0000000000000000 0000000000010000 0000000000000000 0000000000000000 0000000000000000 0000000000000000 0000000000000000000000000000000000000000000000000000000000000000 0000000000000000000000000000000000000000000000000000000000000000 = 0
    native 5 call 103 0000000000000000 0000000000010000 0000000000000000 0000000000000000 0000000000000000 0000000000000000 0000000000000000000000000000000000000000000000001400000000000000 0000000000000000000000000000000000000000000000001400000000000000 = 0
    native 25 clock 24000
    o32run run --trace trace --native native --budget 25 p = budget 124 25

    addiu $v0 $zero pause; syscall
    file t at 5000 kill 18\n
    native 2 clock 1000
    native 2 call 135 0000000000000000 0000000000000000 0000000000010000 0000000000000010 0000000000000000 0000000000000000 00000000000000000000000000000000 00000000000000000000000000000000 = 0
    native 2 call 133 0000000000010000 0000000000000010 0000000000000000 0000000000000000 0000000000000000 0000000000000000 00000000000000000000000000000000 00000000000000000000000000000000 = sleep 0 -
    native 4 clock 2000
    native 4 post 17 0 0
    o32run run --schedule t --native native p = blocked 123 3
";

#[test]
fn a_program(rt: HostRuntime) -> Result<(), Fail> {
    assert_eq!(rt; first_wrong(rt.alloc(), HELLO, A_PROGRAM)?, None);
    Ok(())
}

#[test]
fn stores_that_fail(rt: HostRuntime) -> Result<(), Fail> {
    assert_eq!(rt; first_wrong(rt.alloc(), HELLO, STORES_THAT_FAIL)?, None);
    Ok(())
}

#[test]
fn calls(rt: HostRuntime) -> Result<(), Fail> {
    assert_eq!(rt; first_wrong(rt.alloc(), "", CALLS)?, None);
    Ok(())
}

#[test]
fn events(rt: HostRuntime) -> Result<(), Fail> {
    assert_eq!(rt; first_wrong(rt.alloc(), "", EVENTS)?, None);
    Ok(())
}
