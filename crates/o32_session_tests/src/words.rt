//! The words of a session: those that are wrong, and budgets and arguments.
use session_scripts::first_wrong;
use std::test::Fail;

/// The program that writes `Hi`.
const HELLO: &str = r"
    file p @hello
";

const REFUSED_WORDS: &str = r#"
    o32run ! usage 0 : o32run: usage at word 0
    o32run walk ! usage 0 : o32run: usage at word 0
    o32run run ! usage 1 : o32run: usage at word 1
    o32run run --budget 0 p ! usage 2 : o32run: usage at word 2
    o32run run --budget 01 p ! usage 2 : o32run: usage at word 2
    o32run run --budget +1 p ! usage 2 : o32run: usage at word 2
    o32run run --budget 1000000000001 p ! usage 2 : o32run: usage at word 2
    o32run run --budget ! usage 2 : o32run: usage at word 2
    o32run run --budget 1 --budget 1 p ! usage 3 : o32run: usage at word 3
    o32run run --env =b p ! usage 2 : o32run: usage at word 2
    o32run run --traces t p ! usage 1 : o32run: usage at word 1
    o32run run "" ! usage 1 : o32run: usage at word 1
    o32run run p a\0 ! usage 2 : o32run: usage at word 2
"#;

/// The names are looked at last.
const REFUSED_NAMES: &str = r#"
    o32run run --image ! usage 2 : o32run: usage at word 2
    o32run run --schedule ! usage 2 : o32run: usage at word 2
    o32run run --schedule "" p ! usage 2 : o32run: usage at word 2
    o32run run --trace ! usage 2 : o32run: usage at word 2
    o32run run --save ! usage 2 : o32run: usage at word 2
    o32run run --image "" p ! usage 2 : o32run: usage at word 2
    o32run run --trace "" p ! usage 2 : o32run: usage at word 2
    o32run run --save "" p ! usage 2 : o32run: usage at word 2
    o32run run --image a\0 p ! usage 2 : o32run: usage at word 2
    o32run run --save a\0 p ! usage 2 : o32run: usage at word 2
    o32run run --image i --image j p ! usage 3 : o32run: usage at word 3
    o32run run --schedule i --schedule j p ! usage 3 : o32run: usage at word 3
    o32run run --trace t --trace u p ! usage 3 : o32run: usage at word 3
    o32run run --save s --save t p ! usage 3 : o32run: usage at word 3
    o32run run --native ! usage 2 : o32run: usage at word 2
    o32run run --native "" p ! usage 2 : o32run: usage at word 2
    o32run run --native n\0 p ! usage 2 : o32run: usage at word 2
    o32run run --native n --native m p ! usage 3 : o32run: usage at word 3
    o32run run --image x --save x p ! usage 4 : o32run: usage at word 4
    o32run run --save x --budget 1 --image x p ! usage 6 : o32run: usage at word 6
    o32run run --schedule x --save x p ! usage 4 : o32run: usage at word 4
    o32run run --save x --schedule x --image x p ! usage 4 : o32run: usage at word 4
    o32run run --image x --schedule x --save x p ! usage 6 : o32run: usage at word 6
    o32run run --trace t --save t p ! usage 4 : o32run: usage at word 4
    o32run run --save t --trace t p ! usage 4 : o32run: usage at word 4
    o32run run --image t --trace t p ! usage 4 : o32run: usage at word 4
    o32run run --trace t --schedule t p ! usage 4 : o32run: usage at word 4
    o32run run --trace t --native t p ! usage 4 : o32run: usage at word 4
    o32run run --native t --save t p ! usage 4 : o32run: usage at word 4
    o32run run --image t --native t p ! usage 4 : o32run: usage at word 4
    o32run run --native t --schedule t p ! usage 4 : o32run: usage at word 4
    o32run run --trace p p ! usage 3 : o32run: usage at word 3
    o32run run --native p p ! usage 3 : o32run: usage at word 3
    o32run run --save p --native q --trace q p ! usage 6 : o32run: usage at word 6
    o32run run --save p p ! usage 3 : o32run: usage at word 3
    o32run run --save p --image i p ! usage 5 : o32run: usage at word 5
    o32run run --image p --save p p ! usage 4 : o32run: usage at word 4
    o32run run --save p p a\0 ! usage 4 : o32run: usage at word 4
"#;

const BUDGETS: &str = r"
    out Hi\n
    o32run run p = exited 7 7 9

    o32run run --budget 5 p = budget 124 5

    out Hi\n
    o32run run --budget 8 p = budget 124 8

    out Hi\n
    o32run run --env A=b --budget 9 p -x = exited 7 7 9

    out Hi\n
    o32run run --budget 1000000000000 p = exited 7 7 9
";

/// The fault of the last turn kills in no further one.
const BUDGETS_OF_A_FAULT: &str = r"
    break 0
    o32run run --budget 1 p = budget 124 1

    break 0
    o32run run --budget 2 p = killed 5 133 2
";

/// A read of an empty pipe.
const WAITS: &str = r"
    addiu $v0 $zero pipe; syscall
    addiu $a0 $zero 3; addiu $a1 $sp 0; addiu $a2 $zero 8; addiu $v0 $zero read; syscall
";

/// Behind the budget's last turn no further attempt finds that the process is blocked.
const BUDGETS_OF_A_WAIT: &str = r"
    o32run run --budget 7 p = budget 124 7
    o32run run --budget 8 p = blocked 123 7
";

/// A program that exits with the number of its arguments, which is at $sp.
const COUNTS: &str = r"
    lw $v0 0 $sp; addiu $a0 $v0 0; addiu $v0 $zero exit; syscall
";

const ARGUMENTS_AND_THEIR_LIMIT: &str = r"
    o32run run p a*0 = exited 2 2 4
    o32run run p a*1 = exited 2 2 4
    o32run run p a*130911 = exited 2 2 4
    o32run run p a*130912 ! start : o32run: arguments too long
";

#[test]
fn refused_words(rt: HostRuntime) -> Result<(), Fail> {
    assert_eq!(rt; first_wrong(rt.alloc(), HELLO, REFUSED_WORDS)?, None);
    Ok(())
}

#[test]
fn refused_names(rt: HostRuntime) -> Result<(), Fail> {
    assert_eq!(rt; first_wrong(rt.alloc(), HELLO, REFUSED_NAMES)?, None);
    Ok(())
}

#[test]
fn budgets(rt: HostRuntime) -> Result<(), Fail> {
    assert_eq!(rt; first_wrong(rt.alloc(), HELLO, BUDGETS)?, None);
    Ok(())
}

#[test]
fn budgets_of_a_fault(rt: HostRuntime) -> Result<(), Fail> {
    assert_eq!(rt; first_wrong(rt.alloc(), "", BUDGETS_OF_A_FAULT)?, None);
    Ok(())
}

#[test]
fn budgets_of_a_wait(rt: HostRuntime) -> Result<(), Fail> {
    assert_eq!(rt; first_wrong(rt.alloc(), WAITS, BUDGETS_OF_A_WAIT)?, None);
    Ok(())
}

#[test]
fn arguments_and_their_limit(rt: HostRuntime) -> Result<(), Fail> {
    assert_eq!(rt;
        first_wrong(rt.alloc(), COUNTS, ARGUMENTS_AND_THEIR_LIMIT)?,
        None
    );
    Ok(())
}
