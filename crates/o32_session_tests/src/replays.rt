//! Replays: of the run of the program that writes `Hi` and exits with 7, from its journal. A record is its turn, its kind, the six
//! words pc, $v0 and $a0 to $a3, a count of effects and the effects; the last is the end.
use session_scripts::first_wrong;
use std::test::Fail;

/// The program, and the front of its journal: the argument `hello`, no environment, and sixteen zeros.
const HELLO: &str = r"
    file p @hello
    file j O32JRN1\n\0\0\0\x01\0\0\0\0\0\0\0\x05hello\0\0\0\0\0\0\0\0\0\0\0\0\0\0\0\0
";

/// write(2) is call 4004, in turn 6, and exit(2) call 4001, in turn 9. The write has two effects: 3 in $v0, and three bytes that go out.
/// What goes out is the journal's.
const THE_RUN: &str = r"
    more \0\0\0\0\0\0\0\x06\x02\0\x40\0\x14\0\0\x0F\xA4\0\0\0\x01\0\x40\x01\0\0\0\0\x03\0\0\0\0\0\0\0\x02\x01\x02\0\0\0\x03\x06\x01\0\0\0\x03
    more Hi\n
    more \0\0\0\0\0\0\0\x09\x02\0\x40\0\x20\0\0\x0F\xA1\0\0\0\x07\0\x40\x01\0\0\0\0\x03\0\0\0\0\0\0\0\0
    more \0\0\0\0\0\0\0\x09\x04\x01\x07
    out Hi\n
    o32run replay p j = replayed exited 7 7 9

    more \0\0\0\0\0\0\0\x06\x02\0\x40\0\x14\0\0\x0F\xA4\0\0\0\x01\0\x40\x01\0\0\0\0\x03\0\0\0\0\0\0\0\x02\x01\x02\0\0\0\x03\x06\x01\0\0\0\x03
    more Ji\n
    more \0\0\0\0\0\0\0\x09\x02\0\x40\0\x20\0\0\x0F\xA1\0\0\0\x07\0\x40\x01\0\0\0\0\x03\0\0\0\0\0\0\0\0
    more \0\0\0\0\0\0\0\x09\x04\x01\x07
    out Ji\n
    o32run replay p j = replayed exited 7 7 9

    more \0\0\0\0\0\0\0\x05\x04\x03\0
    o32run replay p j = replayed budget 124 5

    more \0\0\0\0\0\0\0\x06\x04\x02\x0F
    o32run replay p j = replayed killed 15 143 6
";

/// Without the record of turn 6 its SYSCALL has none: 0 is wanted and 1 found. With 4 in place of 3 in $a2 the words differ in turn 6, and with
/// another pc in turn 9. A divergence is told behind what was sent by then.
const DIFFERENCES: &str = r"
    more \0\0\0\0\0\0\0\x09\x02\0\x40\0\x20\0\0\x0F\xA1\0\0\0\x07\0\x40\x01\0\0\0\0\x03\0\0\0\0\0\0\0\0
    more \0\0\0\0\0\0\0\x09\x04\x01\x07
    err o32run: diverged at turn 6 wanted 0 found 1\n
    o32run replay p j = diverged 6 0 1 120 5

    more \0\0\0\0\0\0\0\x06\x02\0\x40\0\x14\0\0\x0F\xA4\0\0\0\x01\0\x40\x01\0\0\0\0\x04\0\0\0\0\0\0\0\x02\x01\x02\0\0\0\x03\x06\x01\0\0\0\x03
    more Hi\n
    more \0\0\0\0\0\0\0\x09\x02\0\x40\0\x20\0\0\x0F\xA1\0\0\0\x07\0\x40\x01\0\0\0\0\x03\0\0\0\0\0\0\0\0
    more \0\0\0\0\0\0\0\x09\x04\x01\x07
    err o32run: diverged at turn 6 wanted 4 found 3\n
    o32run replay p j = diverged 6 4 3 120 5

    more \0\0\0\0\0\0\0\x06\x02\0\x40\0\x14\0\0\x0F\xA4\0\0\0\x01\0\x40\x01\0\0\0\0\x03\0\0\0\0\0\0\0\x02\x01\x02\0\0\0\x03\x06\x02\0\0\0\x03
    more Hi\n
    more \0\0\0\0\0\0\0\x09\x02\0\x40\0\x24\0\0\x0F\xA1\0\0\0\x07\0\x40\x01\0\0\0\0\x03\0\0\0\0\0\0\0\0
    more \0\0\0\0\0\0\0\x09\x04\x01\x07
    err Hi\n
    err o32run: diverged at turn 9 wanted 4194340 found 4194336\n
    o32run replay p j = diverged 9 4194340 4194336 120 8
";

/// A journal without its last byte is bad at its length, and with one byte more at that. A program that is no executable is told before
/// a journal that is none.
const BAD_FILES: &str = r"
    more \0\0\0\0\0\0\0\x06\x02\0\x40\0\x14\0\0\x0F\xA4\0\0\0\x01\0\x40\x01\0\0\0\0\x03\0\0\0\0\0\0\0\x02\x01\x02\0\0\0\x03\x06\x01\0\0\0\x03
    more Hi\n
    more \0\0\0\0\0\0\0\x09\x02\0\x40\0\x20\0\0\x0F\xA1\0\0\0\x07\0\x40\x01\0\0\0\0\x03\0\0\0\0\0\0\0\0
    more \0\0\0\0\0\0\0\x09\x04\x01
    o32run replay p j ! journal 140 : o32run: journal at 140

    more \0\0\0\0\0\0\0\x06\x02\0\x40\0\x14\0\0\x0F\xA4\0\0\0\x01\0\x40\x01\0\0\0\0\x03\0\0\0\0\0\0\0\x02\x01\x02\0\0\0\x03\x06\x01\0\0\0\x03
    more Hi\n
    more \0\0\0\0\0\0\0\x09\x02\0\x40\0\x20\0\0\x0F\xA1\0\0\0\x07\0\x40\x01\0\0\0\0\x03\0\0\0\0\0\0\0\0
    more \0\0\0\0\0\0\0\x09\x04\x01\x07\0
    o32run replay p j ! journal 141 : o32run: journal at 141

    o32run replay p p ! journal 0 : o32run: journal at 0
    o32run replay j j ! elf short : o32run: elf rule 1
    o32run replay p k ! missing 4 : o32run: file 4 missing
    o32run replay q k ! missing 1 : o32run: file 1 missing
";

/// No word of a replay is an option.
const WORDS: &str = r#"
    o32run replay ! usage 1 : o32run: usage at word 1
    o32run replay p ! usage 2 : o32run: usage at word 2
    o32run replay p j k ! usage 3 : o32run: usage at word 3
    o32run replay "" j k ! usage 1 : o32run: usage at word 1
    o32run replay p "" k ! usage 2 : o32run: usage at word 2
    o32run replay p j\0 ! usage 2 : o32run: usage at word 2
    o32run replay -x j ! missing 1 : o32run: file 1 missing
    o32run replays p j ! usage 0 : o32run: usage at word 0
"#;

/// A turn whose bytes could not be sent is not finished.
const DEVICES_THAT_FAIL: &str = r"
    fails store 1
    o32run replay p j = read_fault 122 0

    fails store 2
    o32run replay p j = read_fault 122 0

    more \0\0\0\0\0\0\0\x06\x02\0\x40\0\x14\0\0\x0F\xA4\0\0\0\x01\0\x40\x01\0\0\0\0\x03\0\0\0\0\0\0\0\x02\x01\x02\0\0\0\x03\x06\x01\0\0\0\x03
    more Hi\n
    more \0\0\0\0\0\0\0\x09\x02\0\x40\0\x20\0\0\x0F\xA1\0\0\0\x07\0\x40\x01\0\0\0\0\x03\0\0\0\0\0\0\0\0
    more \0\0\0\0\0\0\0\x09\x04\x01\x07
    fails put 1
    o32run replay p j = write_fault 119 5

    more \0\0\0\0\0\0\0\x09\x02\0\x40\0\x20\0\0\x0F\xA1\0\0\0\x07\0\x40\x01\0\0\0\0\x03\0\0\0\0\0\0\0\0
    more \0\0\0\0\0\0\0\x09\x04\x01\x07
    fails line 1
    o32run replay p j = write_fault 119 5

    fails line 1
    o32run replay p j = write_fault 119 0
";

#[test]
fn the_run(rt: HostRuntime) -> Result<(), Fail> {
    assert_eq!(rt; first_wrong(rt.alloc(), HELLO, THE_RUN)?, None);
    Ok(())
}

#[test]
fn differences(rt: HostRuntime) -> Result<(), Fail> {
    assert_eq!(rt; first_wrong(rt.alloc(), HELLO, DIFFERENCES)?, None);
    Ok(())
}

#[test]
fn bad_files(rt: HostRuntime) -> Result<(), Fail> {
    assert_eq!(rt; first_wrong(rt.alloc(), HELLO, BAD_FILES)?, None);
    Ok(())
}

#[test]
fn words(rt: HostRuntime) -> Result<(), Fail> {
    assert_eq!(rt; first_wrong(rt.alloc(), HELLO, WORDS)?, None);
    Ok(())
}

#[test]
fn devices_that_fail(rt: HostRuntime) -> Result<(), Fail> {
    assert_eq!(rt; first_wrong(rt.alloc(), HELLO, DEVICES_THAT_FAIL)?, None);
    Ok(())
}
