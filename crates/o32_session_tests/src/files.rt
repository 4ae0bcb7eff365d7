//! The files that a session loads, where one is missing or is refused.
use session_scripts::first_wrong;
use std::test::Fail;

/// The program that writes `Hi`.
const HELLO: &str = r"
    file p @hello
";

/// In the last row: a value is the next word, whatever it is.
const MISSING_FILES: &str = r"
    o32run run q ! missing 1 : o32run: file 1 missing
    o32run run --image i p ! missing 2 : o32run: file 2 missing
    o32run run --image --save p ! missing 2 : o32run: file 2 missing
";

/// The program that writes `Hi`. A second header asks for the same segment, which is looked at where the number of headers is 2.
const TWO_HEADERS: &str = r"
    file p @hello
    copy 52 84 84
";

/// A place of the program's file, what is written there, the rule that this breaks, and its number.
const REFUSED_PROGRAMS: &str = r"
    change 0 \0
    o32run run p ! elf magic : o32run: elf rule 2

    change 4 \x02
    o32run run p ! elf class : o32run: elf rule 3

    change 5 \x01
    o32run run p ! elf order : o32run: elf rule 4

    change 23 \x02
    o32run run p ! elf version : o32run: elf rule 5

    change 17 \x03
    o32run run p ! elf type : o32run: elf rule 6

    change 19 \x03
    o32run run p ! elf machine : o32run: elf rule 7

    change 39 \x20
    o32run run p ! elf abi : o32run: elf rule 8

    change 43 \x1F
    o32run run p ! elf table : o32run: elf rule 9

    change 55 \x03
    o32run run p ! elf interp : o32run: elf rule 10

    change 71 \x04
    o32run run p ! elf outside : o32run: elf rule 11

    change 75 \x02
    o32run run p ! elf sizes : o32run: elf rule 12

    change 61 \0
    o32run run p ! elf address : o32run: elf rule 13

    change 63 \x04
    o32run run p ! elf offset : o32run: elf rule 14

    change 45 \x02
    o32run run p ! elf overlap : o32run: elf rule 15

    change 45 \0
    o32run run p ! elf no_load : o32run: elf rule 16

    change 72 \x1D\x4C\x10\0
    o32run run p ! elf pages : o32run: elf rule 17
";

/// The last program and its image are empty: a program is looked at before its image.
const REFUSED_IMAGES: &str = r"
    file p @hello
    file i
    o32run run --save s --image i p ! image 1 0 : o32run: image rule 1 at 0

    file p @hello
    file i @hello
    o32run run --save s --image i p ! image 2 0 : o32run: image rule 2 at 0

    file p @hello
    file i @empty_root
    change 20 \x01
    o32run run --save s --image i p ! image 5 20 : o32run: image rule 5 at 20

    file p @hello
    file i @empty_root
    more \0
    o32run run --save s --image i p ! image 14 35 : o32run: image rule 14 at 35

    file p
    file i
    o32run run --save s --image i p ! elf short : o32run: elf rule 1
";

/// The argument is too long, which is looked at behind the image.
const IMAGE_BEFORE_THE_START: &str = r"
    file i
    o32run run --image i p a*131072 ! image 1 0 : o32run: image rule 1 at 0
";

#[test]
fn missing_files(rt: HostRuntime) -> Result<(), Fail> {
    assert_eq!(rt; first_wrong(rt.alloc(), HELLO, MISSING_FILES)?, None);
    Ok(())
}

#[test]
fn refused_programs(rt: HostRuntime) -> Result<(), Fail> {
    assert_eq!(rt;
        first_wrong(rt.alloc(), TWO_HEADERS, REFUSED_PROGRAMS)?,
        None
    );
    Ok(())
}

#[test]
fn refused_images(rt: HostRuntime) -> Result<(), Fail> {
    assert_eq!(rt; first_wrong(rt.alloc(), "", REFUSED_IMAGES)?, None);
    Ok(())
}

#[test]
fn image_before_the_start(rt: HostRuntime) -> Result<(), Fail> {
    assert_eq!(rt;
        first_wrong(rt.alloc(), HELLO, IMAGE_BEFORE_THE_START)?,
        None
    );
    Ok(())
}
