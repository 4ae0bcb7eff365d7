//! Journals that a run leaves, and their replays: of runs whose journal has an end, or one call, which is written to the file `s`. And each
//! difference of a replay once.
use session_scripts::first_wrong;
use std::alloc::{AllocError, Global};
use std::test::Fail;

/// The program that writes `Hi` in its sixth turn and exits in its ninth.
const HELLO: &str = r"
    file p @hello
";

/// A signal from outside that kills in the sixth turn, and the end of a budget. The front has one argument, `p`, and of the environment what
/// is given; random bytes are zeros, or the schedule's. The end's turn, kind, finish and value follow: 2 is killed, and 3 is the budget's.
const RUNS: &str = r"
    file c at 5000 kill 15\n
    saved O32JRN1\n\0\0\0\x01\0\0\0\0\0\0\0\x01p\0\0\0\0\0\0\0\0\0\0\0\0\0\0\0\0\0\0\0\0\0\0\0\x06\x04\x02\x0F
    o32run run --schedule c --journal s p = killed 15 143 6

    file c random 0102\n
    saved O32JRN1\n\0\0\0\x02\0\0\0\x01\0\0\0\x01p\0\0\0\x02xy\0\0\0\x03A=b\x01\x02\x01\x02\x01\x02\x01\x02\x01\x02\x01\x02\x01\x02\x01\x02\0\0\0\0\0\0\0\x05\x04\x03\0
    o32run run --budget 5 --journal s --env A=b --schedule c p xy = budget 124 5
";

/// These journals.
const REPLAYS: &str = r"
    file j O32JRN1\n\0\0\0\x01\0\0\0\0\0\0\0\x01p\0\0\0\0\0\0\0\0\0\0\0\0\0\0\0\0\0\0\0\0\0\0\0\x06\x04\x02\x0F
    o32run replay p j = replayed killed 15 143 6

    file j O32JRN1\n\0\0\0\x02\0\0\0\x01\0\0\0\x01p\0\0\0\x02xy\0\0\0\x03A=b\x01\x02\x01\x02\x01\x02\x01\x02\x01\x02\x01\x02\x01\x02\x01\x02\0\0\0\0\0\0\0\x05\x04\x03\0
    o32run replay p j = replayed budget 124 5
";

/// A process that waits for good, whose wait changes nothing, and one that a fault kills. The call of the first is in turn 2, pause(2), 4029, at
/// 0x00400004; the end of a run that nothing goes on with is 4.
const OTHER_RUNS: &str = r"
    addiu $v0 $zero pause; syscall
    saved O32JRN1\n\0\0\0\x01\0\0\0\0\0\0\0\x01p\0\0\0\0\0\0\0\0\0\0\0\0\0\0\0\0\0\0\0\0\0\0\0\x02\x02\0@\0\x04\0\0\x0F\xBD\0\0\0\0\0\0\0\0\0\0\0\0\0\0\0\0\0\0\0\0\0\0\0\0\0\0\0\x02\x04\x04\0
    o32run run --journal s p = blocked 123 2

    lw $t0 4 $zero
    saved O32JRN1\n\0\0\0\x01\0\0\0\0\0\0\0\x01p\0\0\0\0\0\0\0\0\0\0\0\0\0\0\0\0\0\0\0\0\0\0\0\x02\x04\x02\x0B
    o32run run --journal s p = killed 11 139 2

    addiu $v0 $zero pause; syscall
    file j O32JRN1\n\0\0\0\x01\0\0\0\0\0\0\0\x01p\0\0\0\0\0\0\0\0\0\0\0\0\0\0\0\0\0\0\0\0\0\0\0\x02\x02\0@\0\x04\0\0\x0F\xBD\0\0\0\0\0\0\0\0\0\0\0\0\0\0\0\0\0\0\0\0\0\0\0\0\0\0\0\x02\x04\x04\0
    o32run replay p j = replayed blocked 123 2

    lw $t0 4 $zero
    file j O32JRN1\n\0\0\0\x01\0\0\0\0\0\0\0\x01p\0\0\0\0\0\0\0\0\0\0\0\0\0\0\0\0\0\0\0\0\0\0\0\x02\x04\x02\x0B
    o32run replay p j = replayed killed 11 139 2
";

/// The program, and the front of a journal with the argument `hello`.
const FRONT: &str = r"
    file p @hello
    file j O32JRN1\n\0\0\0\x01\0\0\0\0\0\0\0\x05hello\0\0\0\0\0\0\0\0\0\0\0\0\0\0\0\0
";

/// Records whose six words differ, each in one; a call without its record; a record of a call without one; a record before an instruction
/// and one of a turn without an instruction, whose program counters differ. The end is that of a budget.
const WORDS_THAT_DIFFER: &str = r"
    more \0\0\0\0\0\0\0\x06\x02\0@\0\x18\0\0\x0F\xA4\0\0\0\x01\0@\x01\0\0\0\0\x03\0\0\0\0\0\0\0\x02\x06\x01\0\0\0\x03Hi\n\x01\x02\0\0\0\x03
    more \0\0\0\0\0\0\0\x06\x04\x03\0
    err o32run: diverged at turn 6 wanted 4194328 found 4194324\n
    o32run replay p j = diverged 6 4194328 4194324 120 5

    more \0\0\0\0\0\0\0\x06\x02\0@\0\x14\0\0\x0F\xA5\0\0\0\x01\0\0\0\0\0\0\0\x03\0\0\0\0\0\0\0\x02\x06\x01\0\0\0\x03Hi\n\x01\x02\0\0\0\x03
    more \0\0\0\0\0\0\0\x06\x04\x03\0
    err o32run: diverged at turn 6 wanted 4005 found 4004\n
    o32run replay p j = diverged 6 4005 4004 120 5

    more \0\0\0\0\0\0\0\x06\x02\0@\0\x14\0\0\x0F\xA4\0\0\0\x02\0@\x01\0\0\0\0\x03\0\0\0\0\0\0\0\x02\x06\x01\0\0\0\x03Hi\n\x01\x02\0\0\0\x03
    more \0\0\0\0\0\0\0\x06\x04\x03\0
    err o32run: diverged at turn 6 wanted 2 found 1\n
    o32run replay p j = diverged 6 2 1 120 5

    more \0\0\0\0\0\0\0\x06\x02\0@\0\x14\0\0\x0F\xA4\0\0\0\x01\0\0\0\x05\0\0\0\x03\0\0\0\0\0\0\0\x02\x06\x01\0\0\0\x03Hi\n\x01\x02\0\0\0\x03
    more \0\0\0\0\0\0\0\x06\x04\x03\0
    err o32run: diverged at turn 6 wanted 5 found 4194560\n
    o32run replay p j = diverged 6 5 4194560 120 5

    more \0\0\0\0\0\0\0\x06\x02\0@\0\x14\0\0\x0F\xA4\0\0\0\x01\0@\x01\0\xFF\xFF\xFF\xFF\0\0\0\0\0\0\0\x02\x06\x01\0\0\0\x03Hi\n\x01\x02\0\0\0\x03
    more \0\0\0\0\0\0\0\x06\x04\x03\0
    err o32run: diverged at turn 6 wanted 4294967295 found 3\n
    o32run replay p j = diverged 6 4294967295 3 120 5

    more \0\0\0\0\0\0\0\x06\x02\0@\0\x14\0\0\x0F\xA4\0\0\0\x01\0@\x01\0\0\0\0\x03\0\0\0\x01\0\0\0\x02\x06\x01\0\0\0\x03Hi\n\x01\x02\0\0\0\x03
    more \0\0\0\0\0\0\0\x06\x04\x03\0
    err o32run: diverged at turn 6 wanted 1 found 0\n
    o32run replay p j = diverged 6 1 0 120 5

    more \0\0\0\0\0\0\0\x06\x04\x03\0
    err o32run: diverged at turn 6 wanted 0 found 1\n
    o32run replay p j = diverged 6 0 1 120 5

    more \0\0\0\0\0\0\0\x02\x02\0@\0\0\0\0\0\0\0\0\0\0\0\0\0\0\0\0\0\0\0\0\0\0\0\0\0\0
    more \0\0\0\0\0\0\0\x06\x04\x03\0
    err o32run: diverged at turn 2 wanted 1 found 0\n
    o32run replay p j = diverged 2 1 0 120 1

    more \0\0\0\0\0\0\0\x04\x01\0@\0\0\0\0\0\0\0\0\0\0\0\0\0\0\0\0\0\0\0\0\0\0\0\0\0\0
    more \0\0\0\0\0\0\0\x06\x04\x03\0
    err o32run: diverged at turn 4 wanted 4194304 found 4194316\n
    o32run replay p j = diverged 4 4194304 4194316 120 3

    more \0\0\0\0\0\0\0\x05\x03\0@\0\0\0\0\x0F\xA4\0\0\0\x01\0@\x01\0\0\0\0\x03\0\0\0\0\0\0\0\0
    more \0\0\0\0\0\0\0\x06\x04\x03\0
    err o32run: diverged at turn 5 wanted 4194304 found 4194320\n
    o32run replay p j = diverged 5 4194304 4194320 120 4
";

/// The call of turn 6, up to the number of its effects.
const CALL: &str = r"
    more \0\0\0\0\0\0\0\x06\x02\0@\0\x14\0\0\x0F\xA4\0\0\0\x01\0@\x01\0\0\0\0\x03\0\0\0\0
";

/// An output of three bytes, which is the first effect, and the end of a budget.
const OUTPUT: &str = r"\x06\x01\0\0\0\x03one";

const END: &str = r"
    more \0\0\0\0\0\0\0\x09\x04\x03\0
    out one
";

/// The number of the effects of a call, those behind the output, and the difference: its turn, what is wanted and what is found.
type Row<'a> = (&'a str, &'a str, &'a str, &'a str, &'a str);

/// The number of the effects of that call, those behind the output, and the difference. They
/// are a mapping of 129,023 pages beside the 2,050 that are mapped; writes to a page that is not there; past the stack's end; to the code, whose page has no write, twice; past a page that has, into it;
/// at the end of user space and past it; a change of the code's page and of one behind it, which is not there; of one that is not there; a write to a
/// page that was taken away; one into a page that lost its write; and the code's page taken away, which is a fault in the turn behind.
const EFFECTS_THAT_DIFFER: [Row<'static>; 13] = [
    (
        r"\0\0\0\x02",
        r"\x03\0\x01\0\0\0\x01\xF7\xFF\x03",
        "6",
        "131072",
        "131073",
    ),
    (
        r"\0\0\0\x02",
        r"\x02\x20\0\0\0\0\0\0\x03abc",
        "6",
        "536870912",
        "536870912",
    ),
    (
        r"\0\0\0\x02",
        r"\x02\x7F\xFE\xFF\xFE\0\0\0\x04abcd",
        "6",
        "2147418110",
        "2147418112",
    ),
    (
        r"\0\0\0\x02",
        r"\x02\0@\x01\0\0\0\0\x01x",
        "6",
        "4194560",
        "4194560",
    ),
    (
        r"\0\0\0\x02",
        r"\x02\0@\x0F\xFE\0\0\0\x04abcd",
        "6",
        "4198398",
        "4198398",
    ),
    (
        r"\0\0\0\x03",
        r"\x03\0\0\x03\xFF\0\0\0\x01\x07\x02\0?\xFF\xFF\0\0\0\x02ab",
        "6",
        "4194303",
        "4194304",
    ),
    (
        r"\0\0\0\x02",
        r"\x02\x7F\xFF\x7F\xFF\0\0\0\x01x",
        "6",
        "2147450879",
        "2147450879",
    ),
    (
        r"\0\0\0\x02",
        r"\x02\xFF\xFF\xFF\xF0\0\0\0\x01x",
        "6",
        "4294967280",
        "4294967280",
    ),
    (
        r"\0\0\0\x02",
        r"\x05\0\0\x04\0\0\0\0\x02\x07",
        "6",
        "4194304",
        "4198400",
    ),
    (
        r"\0\0\0\x02",
        r"\x05\0\0\x05\0\0\0\0\x01\x07",
        "6",
        "5242880",
        "5242880",
    ),
    (
        r"\0\0\0\x04",
        r"\x03\0\0\x05\0\0\0\0\x01\x07\x04\0\0\x05\0\0\0\0\x01\x02\0P\0\0\0\0\0\x01x",
        "6",
        "5242880",
        "5242880",
    ),
    (
        r"\0\0\0\x04",
        r"\x03\0\0\x05\0\0\0\0\x02\x07\x05\0\0\x05\x01\0\0\0\x01\x01\x02\0P\x0F\xFF\0\0\0\x02xy",
        "6",
        "5246975",
        "5246976",
    ),
    (r"\0\0\0\x02", r"\x04\0\0\x04\0\0\0\0\x01", "7", "0", "2"),
];

/// The replay of a row.
fn replay_of(alloc: Global, row: &Row<'_>) -> Result<String, AllocError> {
    let (count, effects, turn, wanted, found) = *row;
    let turns = if turn == "6" { "5" } else { "6" };
    let mut script = String::new(alloc);
    for text in [
        CALL,
        "\nmore ",
        count,
        OUTPUT,
        effects,
        "\n",
        END,
        "\nerr o32run: diverged at turn ",
        turn,
        " wanted ",
        wanted,
        " found ",
        found,
        "\\n\no32run replay p j = diverged ",
        turn,
        " ",
        wanted,
        " ",
        found,
        " 120 ",
        turns,
        "\n",
    ] {
        script.push_str(text)?;
    }
    Ok(script)
}

/// Whether the replay of a row comes to its difference.
fn differs(alloc: Global, row: &Row<'_>) -> Result<bool, Fail> {
    let script = replay_of(alloc, row)?;
    Ok(first_wrong(alloc, FRONT, script.as_str())?.is_none())
}

/// The first row that comes to something else, counted from 0.
fn first_without_difference(alloc: Global) -> Result<Option<usize>, Fail> {
    for (number, row) in EFFECTS_THAT_DIFFER.iter().enumerate() {
        if !differs(alloc, row)? {
            return Ok(Some(number));
        }
    }
    Ok(None)
}

#[test]
fn runs(rt: HostRuntime) -> Result<(), Fail> {
    assert_eq!(rt; first_wrong(rt.alloc(), HELLO, RUNS)?, None);
    assert_eq!(rt; first_wrong(rt.alloc(), "", OTHER_RUNS)?, None);
    Ok(())
}

#[test]
fn replays(rt: HostRuntime) -> Result<(), Fail> {
    assert_eq!(rt; first_wrong(rt.alloc(), HELLO, REPLAYS)?, None);
    Ok(())
}

#[test]
fn differences_of_words(rt: HostRuntime) -> Result<(), Fail> {
    assert_eq!(rt; first_wrong(rt.alloc(), FRONT, WORDS_THAT_DIFFER)?, None);
    Ok(())
}

#[test]
fn differences_of_effects(rt: HostRuntime) -> Result<(), Fail> {
    assert_eq!(rt; first_without_difference(rt.alloc())?, None);
    Ok(())
}

/// Faults, in a load from address 4 of the first instruction: with nothing behind the turn but the next one; in the last turn; with a signal that kills behind it; and
/// with a record of a call in its turn, which comes first. In the last three a SYSCALL stands in a branch's slot, in turn 2, which is a fault too: it has no record.
const FAULTS: &str = r"
    lw $t0 4 $zero
    file j O32JRN1\n\0\0\0\x01\0\0\0\0\0\0\0\x01p\0\0\0\0\0\0\0\0\0\0\0\0\0\0\0\0
    more \0\0\0\0\0\0\0\x03\x04\x03\0
    err o32run: diverged at turn 1 wanted 0 found 2\n
    o32run replay p j = diverged 1 0 2 120 0

    lw $t0 4 $zero
    file j O32JRN1\n\0\0\0\x01\0\0\0\0\0\0\0\x01p\0\0\0\0\0\0\0\0\0\0\0\0\0\0\0\0
    more \0\0\0\0\0\0\0\x01\x04\x03\0
    o32run replay p j = replayed budget 124 1

    lw $t0 4 $zero
    file j O32JRN1\n\0\0\0\x01\0\0\0\0\0\0\0\x01p\0\0\0\0\0\0\0\0\0\0\0\0\0\0\0\0
    more \0\0\0\0\0\0\0\x02\x04\x02\x0B
    o32run replay p j = replayed killed 11 139 2

    lw $t0 4 $zero
    file j O32JRN1\n\0\0\0\x01\0\0\0\0\0\0\0\x01p\0\0\0\0\0\0\0\0\0\0\0\0\0\0\0\0
    more \0\0\0\0\0\0\0\x01\x02\0\x40\0\0\0\0\0\0\0\0\0\0\0\0\0\0\0\0\0\0\0\0\0\0\0\0\0\0
    more \0\0\0\0\0\0\0\x03\x04\x03\0
    err o32run: diverged at turn 1 wanted 1 found 0\n
    o32run replay p j = diverged 1 1 0 120 0

    beq $zero $zero 1; syscall
    file j O32JRN1\n\0\0\0\x01\0\0\0\0\0\0\0\x01p\0\0\0\0\0\0\0\0\0\0\0\0\0\0\0\0
    more \0\0\0\0\0\0\0\x03\x04\x02\x04
    o32run replay p j = replayed killed 4 132 3

    beq $zero $zero 1; syscall
    file j O32JRN1\n\0\0\0\x01\0\0\0\0\0\0\0\x01p\0\0\0\0\0\0\0\0\0\0\0\0\0\0\0\0
    more \0\0\0\0\0\0\0\x04\x04\x03\0
    err o32run: diverged at turn 2 wanted 0 found 2\n
    o32run replay p j = diverged 2 0 2 120 1

    beq $zero $zero 1; syscall
    file j O32JRN1\n\0\0\0\x01\0\0\0\0\0\0\0\x01p\0\0\0\0\0\0\0\0\0\0\0\0\0\0\0\0
    more \0\0\0\0\0\0\0\x02\x02\0\x40\0\x04\0\0\0\0\0\0\0\0\0\0\0\0\0\0\0\0\0\0\0\0\0\0\0\0
    more \0\0\0\0\0\0\0\x03\x04\x02\x04
    err o32run: diverged at turn 2 wanted 1 found 0\n
    o32run replay p j = diverged 2 1 0 120 1
";

#[test]
fn differences_of_faults(rt: HostRuntime) -> Result<(), Fail> {
    assert_eq!(rt; first_wrong(rt.alloc(), "", FAULTS)?, None);
    Ok(())
}
