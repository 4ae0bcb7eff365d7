//! The file that a final tree is saved to, and devices that fail.
use session_scripts::first_wrong;
use std::test::Fail;

/// The program that writes `Hi`, an image, a file `s`, and input.
const HELLO: &str = r"
    file p @hello
    file i @one_file
    file s old
    input xy
";

/// The loads of program and image are calls 1 and 2 on the store, `create` is call 3, `append` call 4.
const SAVED_TREES: &str = r"
    out Hi\n
    saved @empty_root
    o32run run --save s p = exited 7 7 9

    out Hi\n
    saved @one_file
    o32run run --save s --image i p = exited 7 7 9

    saved @empty_root
    o32run run --save s --budget 5 p = budget 124 5

    out Hi\n
    saved old
    o32run run --image i p = exited 7 7 9

    fails store 1
    saved old
    o32run run --save s --image i p = read_fault 122 0

    fails store 2
    saved old
    o32run run --save s --image i p = read_fault 122 0

    fails store 3
    out Hi\n
    saved old
    o32run run --save s --image i p = write_fault 119 9

    fails store 4
    out Hi\n
    saved
    o32run run --save s --image i p = write_fault 119 9
";

/// A write of no byte, which makes no put; one of two bytes in turn 9; a read of two bytes in turn 13; and a write of
/// these in turn 16. The files and the input are the same.
const READS_AND_WRITES: &str = r"
    addiu $v0 $zero write; addiu $a0 $zero 1; lui $a1 0x40; ori $a1 $a1 0x100; addiu $a2 $zero 0; syscall
    addiu $v0 $zero write; addiu $a2 $zero 2; syscall
    addiu $a0 $zero 0; addiu $a1 $sp 0; addiu $v0 $zero read; syscall
    addiu $a0 $zero 1; addiu $v0 $zero write; syscall
    addiu $a0 $v0 0; addiu $v0 $zero exit; syscall
    file i @one_file
    file s old
    input xy
";

const STREAMS_THAT_FAIL: &str = r"
    out Hixy
    saved @empty_root
    o32run run --save s p = exited 2 2 19

    fails put 1
    saved old
    o32run run --save s p = write_fault 119 8

    fails take 1
    out Hi
    saved old
    o32run run --save s p = read_fault 122 12

    fails put 2
    out Hi
    saved old
    o32run run --save s p = write_fault 119 15

    fails line 1
    saved old
    o32run walk = write_fault 119 0
";

#[test]
fn saved_trees(rt: HostRuntime) -> Result<(), Fail> {
    assert_eq!(rt; first_wrong(rt.alloc(), HELLO, SAVED_TREES)?, None);
    Ok(())
}

#[test]
fn streams_that_fail(rt: HostRuntime) -> Result<(), Fail> {
    assert_eq!(rt;
        first_wrong(rt.alloc(), READS_AND_WRITES, STREAMS_THAT_FAIL)?,
        None
    );
    Ok(())
}

/// Three writes of one byte each, in ten instructions each, of which the third fails: its turn is none.
const A_THIRD_WRITE: &str = r"
    lui $a0 0; ori $a0 $a0 1; lui $a1 0x40; ori $a1 $a1 0xFFD; lui $a2 0; ori $a2 $a2 1; lui $a3 0; ori $a3 $a3 0; addiu $v0 $zero write; syscall
    lui $a0 0; ori $a0 $a0 1; lui $a1 0x40; ori $a1 $a1 0xFFE; lui $a2 0; ori $a2 $a2 1; lui $a3 0; ori $a3 $a3 0; addiu $v0 $zero write; syscall
    lui $a0 0; ori $a0 $a0 1; lui $a1 0x40; ori $a1 $a1 0xFFF; lui $a2 0; ori $a2 $a2 1; lui $a3 0; ori $a3 $a3 0; addiu $v0 $zero write; syscall
    fails put 3
    out ab
    o32run run p = write_fault 119 29
";

#[test]
fn a_third_write_that_fails(rt: HostRuntime) -> Result<(), Fail> {
    assert_eq!(rt; first_wrong(rt.alloc(), "", A_THIRD_WRITE)?, None);
    Ok(())
}
