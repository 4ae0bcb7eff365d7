//! Input files, each with one rule of its format broken, and each cut at every length below 200 bytes. Rules on executables and schedules are broken
//! one by one in `o32_session_tests`; here are those on images and journals.
use session_scripts::first_wrong;
use session_scripts::guest::{code_of, data, executable};
use session_scripts::image::image_of;
use std::alloc::Global;
use std::test::Fail;

/// A program, and an image of two nodes: the root directory at 12, with its kind at 20, its mode at 21, the count of its entries at 31, and its entry
/// `f` at 35, with its name at 39 and its node at 41; and the empty file 2 at 49, with its size at 68. A file is saved nowhere.
const WITH_AN_IMAGE: &str = r"
    file p @hello
    file s old
    file i @one_file
    saved old
";

/// What is written at a place, the rule that this breaks, and where. 2^44 bytes are the most; 65,537 nodes, 65,537 blocks and 131,073
/// entries are too many. A node that an entry names has to be there; the root has no name, and each file one.
const IMAGES: &str = r"
    change 7 \0
    o32run run --save s --image i p ! image 2 0 : o32run: image rule 2 at 0
    change 11 \0
    o32run run --save s --image i p ! image 3 8 : o32run: image rule 3 at 8
    change 9 \x01\0\x01
    o32run run --save s --image i p ! image 3 8 : o32run: image rule 3 at 8
    change 19 \x02
    o32run run --save s --image i p ! image 4 12 : o32run: image rule 4 at 12
    change 56 \x01
    o32run run --save s --image i p ! image 4 49 : o32run: image rule 4 at 49
    change 49 \x80
    o32run run --save s --image i p ! image 4 49 : o32run: image rule 4 at 49
    change 20 \x01
    o32run run --save s --image i p ! image 5 20 : o32run: image rule 5 at 20
    change 57 \x04
    o32run run --save s --image i p ! image 5 57 : o32run: image rule 5 at 57
    change 58 \x10
    o32run run --save s --image i p ! image 6 58 : o32run: image rule 6 at 58
    change 70 \x10\0\0\0\0\x01
    o32run run --save s --image i p ! image 7 68 : o32run: image rule 7 at 68
    change 79 \x01
    more \0\0\0\0
    o32run run --save s --image i p ! image 7 80 : o32run: image rule 7 at 80
    change 38 \x02
    o32run run --save s --image i p ! image 9 35 : o32run: image rule 9 at 35
    change 35 \x80
    o32run run --save s --image i p ! image 9 35 : o32run: image rule 9 at 35
    change 39 \0
    o32run run --save s --image i p ! image 10 39 : o32run: image rule 10 at 39
    change 40 .
    o32run run --save s --image i p ! image 10 40 : o32run: image rule 10 at 40
    change 40 /
    o32run run --save s --image i p ! image 10 40 : o32run: image rule 10 at 40
    change 40 \0
    o32run run --save s --image i p ! image 10 40 : o32run: image rule 10 at 40
    change 48 \x03
    o32run run --save s --image i p ! image 11 35 : o32run: image rule 11 at 35
    change 48 \x01
    o32run run --save s --image i p ! image 12 12 : o32run: image rule 12 at 12
    change 31 \0\x02\0\x01
    o32run run --save s --image i p ! image 13 31 : o32run: image rule 13 at 31
    change 76 \0\x01\0\x01
    o32run run --save s --image i p ! image 13 76 : o32run: image rule 13 at 76
    more \0
    o32run run --save s --image i p ! image 14 80 : o32run: image rule 14 at 80
";

/// A tree whose file has more bytes in its block than its size: the block's bytes begin at 84.
const A_TAIL: &str = "2
    1 directory 0o700 1 1 3 f 2
    2 file 0o644 1 4 hello
";

/// A program and a journal, of one argument `p` and one text of the environment. Turn 1 has a record before its instruction at 44, with a register at 81 and a write
/// at 87; and that of a call at 99, with pages mapped at 136, unmapped at 146 and protected at 155, and an output at 165. Turn 2 has that of a turn
/// without an instruction, at 173. The end is at 210, in turn 3.
const WITH_A_JOURNAL: &str = r"
    file p @hello
    file j O32JRN1\n\0\0\0\x01\0\0\0\x01\0\0\0\x01p\0\0\0\x03K=Vsixteen+bytes+..
    more \0\0\0\0\0\0\0\x01\x01\0\0\0\0\0\0\0\0\0\0\0\0\0\0\0\0\0\0\0\0\0\0\0\0\0\0\0\x02\x01\x22\0@\0\0\x02\0\0\0\x10\0\0\0\x03abc
    more \0\0\0\0\0\0\0\x01\x02\0\0\0\0\0\0\0\0\0\0\0\0\0\0\0\0\0\0\0\0\0\0\0\0\0\0\0\x04
    more \x03\0\0\0\x01\0\0\0\x02\x07\x04\0\x07\xFF\xF7\0\0\0\x01\x05\0\0\0\0\0\x07\xFF\xF8\0\x06\x01\0\0\0\x02H\n
    more \0\0\0\0\0\0\0\x02\x03\0\0\0\0\0\0\0\0\0\0\0\0\0\0\0\0\0\0\0\0\0\0\0\0\0\0\0\0
    more \0\0\0\0\0\0\0\x03\x04\x01\x07
";

/// What is written at a place, and where the journal is bad then; in the first the journal is in order, but not of this program: a register's value, 0, is
/// the first word, where 0x00400000 is found.
const JOURNALS: &str = r"
    err o32run: diverged at turn 1 wanted 0 found 4194304\n
    o32run replay p j = diverged 1 0 4194304 120 0
    change 7 \0
    o32run replay p j ! journal 0 : o32run: journal at 0
    change 11 \0
    o32run replay p j ! journal 8 : o32run: journal at 8
    change 20 \0
    o32run replay p j ! journal 20 : o32run: journal at 20
    change 25 \xFF
    o32run replay p j ! journal 25 : o32run: journal at 25
    change 25 \0
    o32run replay p j ! journal 25 : o32run: journal at 25
    change 51 \0
    o32run replay p j ! journal 44 : o32run: journal at 44
    change 46 \x01
    o32run replay p j ! journal 44 : o32run: journal at 44
    change 52 \0
    o32run replay p j ! journal 52 : o32run: journal at 52
    change 52 \x05
    o32run replay p j ! journal 52 : o32run: journal at 52
    change 81 \0
    o32run replay p j ! journal 81 : o32run: journal at 81
    change 81 \x07
    o32run replay p j ! journal 81 : o32run: journal at 81
    change 82 \0
    o32run replay p j ! journal 82 : o32run: journal at 82
    change 82 \x24
    o32run replay p j ! journal 82 : o32run: journal at 82
    change 106 \0
    o32run replay p j ! journal 99 : o32run: journal at 99
    change 107 \x01
    o32run replay p j ! journal 107 : o32run: journal at 107
    change 52 \x02
    o32run replay p j ! journal 107 : o32run: journal at 107
    change 138 \x07\xFF\xF8
    o32run replay p j ! journal 137 : o32run: journal at 137
    change 142 \x07\xFF\xF8
    o32run replay p j ! journal 141 : o32run: journal at 141
    change 145 \x08
    o32run replay p j ! journal 145 : o32run: journal at 145
    change 149 \xFF\xF8
    o32run replay p j ! journal 147 : o32run: journal at 147
    change 154 \x02
    o32run replay p j ! journal 151 : o32run: journal at 151
    change 163 \xF9
    o32run replay p j ! journal 160 : o32run: journal at 160
    change 164 \x08
    o32run replay p j ! journal 164 : o32run: journal at 164
    change 166 \0
    o32run replay p j ! journal 166 : o32run: journal at 166
    change 166 \x03
    o32run replay p j ! journal 166 : o32run: journal at 166
    change 209 \x01
    o32run replay p j ! journal 206 : o32run: journal at 206
    change 217 \x01
    o32run replay p j ! journal 210 : o32run: journal at 210
    change 219 \0
    o32run replay p j ! journal 219 : o32run: journal at 219
    change 219 \x05
    o32run replay p j ! journal 219 : o32run: journal at 219
    change 217 \x02\x04\x02
    o32run replay p j ! journal 219 : o32run: journal at 219
    change 219 \x03
    o32run replay p j ! journal 220 : o32run: journal at 220
    change 218 \x03
    o32run replay p j ! journal 221 : o32run: journal at 221
    more \0
    o32run replay p j ! journal 221 : o32run: journal at 221
    change 16 \x01
    o32run replay p j ! journal 221 : o32run: journal at 221
    change 20 \xFF
    o32run replay p j ! journal 20 : o32run: journal at 20
    change 157 \x07\xFF\xF8
    o32run replay p j ! journal 156 : o32run: journal at 156
    change 180 \x01
    o32run replay p j ! journal 181 : o32run: journal at 181
    change 180 \x01\x01
    o32run replay p j ! journal 181 : o32run: journal at 181
    change 212 \x01
    o32run replay p j ! journal 210 : o32run: journal at 210
    change 219 \x04
    o32run replay p j ! journal 220 : o32run: journal at 220
";

/// The bytes of that journal, up to those of its end.
const JOURNAL: &[u8] = b"O32JRN1\n\0\0\0\x01\0\0\0\x01\0\0\0\x01p\0\0\0\x03K=Vsixteen+bytes+..\
\0\0\0\0\0\0\0\x01\x01\0\0\0\0\0\0\0\0\0\0\0\0\0\0\0\0\0\0\0\0\0\0\0\0\0\0\0\x02\x01\x22\0@\0\0\x02\0\0\0\x10\0\0\0\x03abc\
\0\0\0\0\0\0\0\x01\x02\0\0\0\0\0\0\0\0\0\0\0\0\0\0\0\0\0\0\0\0\0\0\0\0\0\0\0\x04\
\x03\0\0\0\x01\0\0\0\x02\x07\x04\0\x07\xFF\xF7\0\0\0\x01\x05\0\0\0\0\0\x07\xFF\xF8\0\x06\x01\0\0\0\x02H\n\
\0\0\0\0\0\0\0\x02\x03\0\0\0\0\0\0\0\0\0\0\0\0\0\0\0\0\0\0\0\0\0\0\0\0\0\0\0\0";

/// A tree of three files and a link, whose image has more than 200 bytes.
const TREE: &str = "6
    1 directory 0o755 0 3 3 d 2 4 link 6 5 none 3
    2 directory 0o755 0 2 3 name 4 4 longer_name 5
    3 file 0o644 0 0 -
    4 file 0o644 0 0 -
    5 file 0o644 0 0 -
    6 link 0o777 0 d/longer_name
";

/// Settings and signals, of more than 200 bytes. The last signal comes long behind the end of the program.
const SCHEDULE: &[u8] = b"quantum 1000
epoch 12345 67890
tty 25 80
random 000102030405060708090a0b0c0d0e0f
at 1000000000 kill 15
at 1000000000 queue 34 4294967295
at 1000000001 kill 16
at 1000000002 kill 17
at 1000000003 kill 18
at 1000000004 kill 19
at 1000000005 queue 128 1
at 1152921504606846976 kill 1
";

/// How many lengths are tried.
const LENGTHS: usize = 200;

/// The program that writes `Hi`.
const HELLO: &str = r"
    file p @hello
";

/// A line that gives a session a file of these bytes.
fn file_of(alloc: Global, name: &str, bytes: &[u8]) -> Result<String, Fail> {
    let mut script = format!(in alloc; "file {name} ")?;
    for byte in bytes {
        script.push_str(format!(in alloc; "\\x{byte:02X}")?.as_str())?;
    }
    script.push_str("\n")?;
    Ok(script)
}

/// Whether a session with a file of these bytes comes to what the line says, which is its last.
fn comes_to(alloc: Global, name: &str, bytes: &[u8], line: &str) -> Result<bool, Fail> {
    let mut script = file_of(alloc, name, bytes)?;
    script.push_str(line)?;
    script.push_str("\n")?;
    let common = if name == "p" { "" } else { HELLO };
    Ok(first_wrong(alloc, common, script.as_str())?.is_none())
}

/// What comes of an executable that is cut at a length: the header has 52 bytes, the table 32 behind it.
fn line_of_program(alloc: Global, cut: &[u8]) -> Result<String, Fail> {
    let (name, rule) = match cut.len() {
        0..=51 => ("short", 1),
        52..=83 => ("table", 9),
        _ => ("outside", 11),
    };
    Ok(format!(in alloc; "o32run run p ! elf {name} : o32run: elf rule {rule}")?)
}

/// What comes of an image that is cut: it is short, at its length.
fn line_of_image(alloc: Global, cut: &[u8]) -> Result<String, Fail> {
    let length = cut.len();
    Ok(format!(in alloc;
        "o32run run --image i p ! image 1 {length} : o32run: image rule 1 at {length}"
    )?)
}

/// What comes of a journal that is cut.
fn line_of_journal(alloc: Global, cut: &[u8]) -> Result<String, Fail> {
    let length = cut.len();
    Ok(format!(in alloc; "o32run replay p j ! journal {length} : o32run: journal at {length}")?)
}

/// What comes of a schedule that is cut: its last line lacks its end, or it is a schedule.
fn line_of_schedule(alloc: Global, cut: &[u8]) -> Result<String, Fail> {
    if cut.is_empty() || cut.last() == Some(&b'\n') {
        return Ok(String::from_str(alloc, "out Hi\\n\no32run run --schedule c p = exited 7 7 9")?);
    }
    let mut line: usize = 1;
    for byte in cut {
        if *byte == b'\n' {
            line = line.saturating_add(1);
        }
    }
    Ok(format!(in alloc;
        "o32run run --schedule c p ! schedule 8 {line} : o32run: schedule rule 8 line {line}"
    )?)
}

/// A file that a session reads.
#[derive(Clone, Copy)]
enum Input {
    Program,
    Image,
    Schedule,
    Journal,
}

/// The name of a file, and the last line of a session with it, cut.
fn session_of(alloc: Global, input: Input, cut: &[u8]) -> Result<(&'static str, String), Fail> {
    match input {
        Input::Program => Ok(("p", line_of_program(alloc, cut)?)),
        Input::Image => Ok(("i", line_of_image(alloc, cut)?)),
        Input::Schedule => Ok(("c", line_of_schedule(alloc, cut)?)),
        Input::Journal => Ok(("j", line_of_journal(alloc, cut)?)),
    }
}

/// The first length at which a file comes to something else.
fn first_wrong_cut(alloc: Global, input: Input, bytes: &[u8]) -> Result<Option<usize>, Fail> {
    for length in 0..LENGTHS {
        let cut = bytes.get(..length).ok_or("a file is too short")?;
        let (name, line) = session_of(alloc, input, cut)?;
        if !comes_to(alloc, name, cut, line.as_str())? {
            return Ok(Some(length));
        }
    }
    Ok(None)
}

/// Whether the image of that tree is refused at the bytes of the block.
fn refuses_a_tail(alloc: Global) -> Result<bool, Fail> {
    let image = image_of(alloc, A_TAIL)?;
    let line = "o32run run --image i p ! image 8 84 : o32run: image rule 8 at 84";
    comes_to(alloc, "i", &image, line)
}

#[test]
fn images_that_break_a_rule(rt: HostRuntime) -> Result<(), Fail> {
    assert_eq!(rt; first_wrong(rt.alloc(), WITH_AN_IMAGE, IMAGES)?, None);
    assert!(rt; refuses_a_tail(rt.alloc())?);
    Ok(())
}

#[test]
fn journals_that_break_a_form(rt: HostRuntime) -> Result<(), Fail> {
    assert_eq!(rt; first_wrong(rt.alloc(), WITH_A_JOURNAL, JOURNALS)?, None);
    Ok(())
}

#[test]
fn programs_that_are_cut(rt: HostRuntime) -> Result<(), Fail> {
    let alloc = rt.alloc();
    let program = executable(alloc, &code_of(alloc, &[], &[])?, &data(alloc)?)?;
    assert_eq!(rt; first_wrong_cut(alloc, Input::Program, &program)?, None);
    Ok(())
}

#[test]
fn images_that_are_cut(rt: HostRuntime) -> Result<(), Fail> {
    let image = image_of(rt.alloc(), TREE)?;
    assert_eq!(rt; first_wrong_cut(rt.alloc(), Input::Image, &image)?, None);
    Ok(())
}

#[test]
fn schedules_that_are_cut(rt: HostRuntime) -> Result<(), Fail> {
    assert_eq!(rt;
        first_wrong_cut(rt.alloc(), Input::Schedule, SCHEDULE)?,
        None
    );
    Ok(())
}

#[test]
fn journals_that_are_cut(rt: HostRuntime) -> Result<(), Fail> {
    assert_eq!(rt; first_wrong_cut(rt.alloc(), Input::Journal, JOURNAL)?, None);
    Ok(())
}
