//! Runs of the soak program.
use session_scripts::first_wrong;
use std::test::Fail;

/// The files beside which it is run: it makes none of them, and looks at none. The input stays.
const FILES: &str = r"
    file s there
    saved there
    input unread
";

/// One number is written in 19 turns, and each more takes nine.
const LINES: &str = r"
    out soak 1: exited 0, turns 19, bytes 4, sum 00000001\n
    o32run soak 1 = soaked exited 0 0 19

    out soak 2: exited 0, turns 28, bytes 8, sum 3ca1bf7b\n
    o32run soak 2 = soaked exited 0 0 28
";

/// N is 1 to 65,536, and the only word.
const WORDS: &str = r#"
    o32run soak ! usage 1 : o32run: usage at word 1
    o32run soak 0 ! usage 1 : o32run: usage at word 1
    o32run soak 65537 ! usage 1 : o32run: usage at word 1
    o32run soak 4294967297 ! usage 1 : o32run: usage at word 1
    o32run soak 01 ! usage 1 : o32run: usage at word 1
    o32run soak +1 ! usage 1 : o32run: usage at word 1
    o32run soak "" ! usage 1 : o32run: usage at word 1
    o32run soak 1\0 ! usage 1 : o32run: usage at word 1
    o32run soak 1 2 ! usage 2 : o32run: usage at word 2
    o32run soak 1 2 3 ! usage 2 : o32run: usage at word 2
    o32run soaks 1 ! usage 0 : o32run: usage at word 0
"#;

/// Sessions that come out otherwise than is said here, in one thing each: the turns, the status, the end, the output, the refused word, its line.
const WRONG: [&str; 6] = [
    r"
    out soak 1: exited 0, turns 19, bytes 4, sum 00000001\n
    o32run soak 1 = soaked exited 0 0 20
    ",
    r"
    out soak 1: exited 0, turns 19, bytes 4, sum 00000001\n
    o32run soak 1 = soaked exited 0 1 19
    ",
    r"
    out soak 1: exited 0, turns 19, bytes 4, sum 00000001\n
    o32run soak 1 = soaked exited 1 0 19
    ",
    r"
    out soak 1: exited 0, turns 19, bytes 4, sum 00000002\n
    o32run soak 1 = soaked exited 0 0 19
    ",
    r"
    o32run soak 0 ! usage 2 : o32run: usage at word 1
    ",
    r"
    o32run soak 0 ! usage 1 : o32run: usage at word 2
    ",
];

/// The run is over where its line fails. Nothing else is put.
const DEVICES_THAT_FAIL: &str = r"
    fails put 1
    o32run soak 1 = write_fault 119 19

    out soak 1: exited 0, turns 19, bytes 4, sum 00000001\n
    fails put 2
    fails line 1
    fails store 1
    fails take 1
    o32run soak 1 = soaked exited 0 0 19

    fails line 1
    o32run soak 0 = write_fault 119 0
";

#[test]
fn lines(rt: HostRuntime) -> Result<(), Fail> {
    assert_eq!(rt; first_wrong(rt.alloc(), FILES, LINES)?, None);
    Ok(())
}

#[test]
fn words(rt: HostRuntime) -> Result<(), Fail> {
    assert_eq!(rt; first_wrong(rt.alloc(), FILES, WORDS)?, None);
    Ok(())
}

#[test]
fn devices_that_fail(rt: HostRuntime) -> Result<(), Fail> {
    assert_eq!(rt; first_wrong(rt.alloc(), FILES, DEVICES_THAT_FAIL)?, None);
    Ok(())
}

#[test]
fn wrong_sessions_are_found(rt: HostRuntime) -> Result<(), Fail> {
    for script in WRONG {
        assert_eq!(rt; first_wrong(rt.alloc(), FILES, script)?, Some(0));
    }
    Ok(())
}
