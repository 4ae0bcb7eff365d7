//! The calls that a C library makes before and around a small `main`, one after the other.
use session_scripts::End;
use session_scripts::call_lines::read;
use session_scripts::calls::{Came, place_of, run};
use session_scripts::guest::{code_of, executable};
use session_scripts::image::image_of;
use session_scripts::listing::{TRACE, TREE, data, program};
use std::test::Fail;

/// The calls of the program but the last, and what each gives: the process's id is this project's own, standard output is no terminal, and the
/// five entries of the directory have 24 bytes each.
const ANSWERS: &str = "
    set_thread_area 0x418000 = 0
    set_tid_address 0x410800 = 100
    ioctl 1 0x40087468 0x410810 ! enotty
    brk 0 = 0x411000
    brk 0x413000 = 0x413000
    mmap2 0 0x2000 3 0x802 0xFFFFFFFF = 0x6FFFE000
    openat at_fdcwd 0x410000 0x12000 = 3
    fstat64 3 0x410820 = 0
    getdents64 3 0x6FFFE000 0x2000 = 120
    getdents64 3 0x6FFFE000 0x2000 = 0
    writev 1 0x410100 2 = 8
";

/// Whether a session came out as it has to: three files, after 124 turns, with its trace, and the tree as it was.
fn is_right(came: &Came, tree: &[u8]) -> bool {
    came.end == End::Exited(0)
        && came.turns == 124
        && came.out.as_slice() == b"3 files\n".as_slice()
        && came.trace.as_slice() == TRACE.as_bytes()
        && came.saved.as_slice() == tree
}

#[test]
fn start(rt: HostRuntime) -> Result<(), Fail> {
    let alloc = rt.alloc();
    let came = run(alloc, program(alloc)?, TREE, "")?;
    let tree = image_of(alloc, TREE)?;
    let right = is_right(&came, &tree);
    assert_eq!(rt; right, true);
    Ok(())
}

#[test]
fn answers(rt: HostRuntime) -> Result<(), Fail> {
    let alloc = rt.alloc();
    let script = read(alloc, ANSWERS)?;
    let code = code_of(alloc, &[], &script.calls)?;
    let file = executable(alloc, &code, &data(alloc)?)?;
    let came = run(alloc, file, TREE, "")?;
    assert_eq!(rt; place_of(&came, b"3 files\n"), Some(0));
    Ok(())
}
