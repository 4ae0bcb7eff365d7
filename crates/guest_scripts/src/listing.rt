//! A program that lists a directory: the calls that a C library makes before and around a small `main`, in 124 turns.
use crate::executable::push_words;
use crate::guest::{ROOM_ON_THE_STACK, STORE_T0_FIFTH, executable, straight_code};
use std::alloc::{AllocError, Global};
use std::test::Fail;

/// A directory of three files.
pub const TREE: &str = "5
    1 directory 0o755 0 1 3 d 2
    2 directory 0o755 0 3 3 a 3 4 bb 4 5 ccc 5
    3 file 0o644 0 0 -
    4 file 0o644 0 0 -
    5 file 0o644 0 0 -
";

/// `addiu $t0, $zero, -1`.
const SET_T0_TO_MINUS_1: u32 = 0x2408_FFFF;

/// `sw $zero, 20($sp)`.
const STORE_0_SIXTH: u32 = 0xAFA0_0014;

/// The calls, with four arguments each. The descriptor of the mapping and its offset stand on the stack.
const CALLS: &str = "
    set_thread_area 0x418000 0 0 0
    set_tid_address 0x410800 0 0 0
    ioctl 1 0x40087468 0x410810 0
    brk 0 0 0 0
    brk 0x413000 0 0 0
    mmap2 0 0x2000 3 0x802
    openat at_fdcwd 0x410000 0x12000 0
    fstat64 3 0x410820 0 0
    getdents64 3 0x6FFFE000 0x2000 0
    getdents64 3 0x6FFFE000 0x2000 0
    writev 1 0x410100 2 0
    exit_group 0 0 0 0
";

/// The trace of these calls, which are ten turns each behind the first four.
pub const TRACE: &str = "\
14 call 4283 00418000 00000000 00000000 00000000 = 00000000 0
24 call 4252 00410800 00000000 00000000 00000000 = 00000064 0
34 call 4054 00000001 40087468 00410810 00000000 = 00000019 1
44 call 4045 00000000 00000000 00000000 00000000 = 00411000 0
54 call 4045 00413000 00000000 00000000 00000000 = 00413000 0
64 call 4210 00000000 00002000 00000003 00000802 = 6fffe000 0
74 call 4288 ffffff9c 00410000 00012000 00000000 = 00000003 0
84 call 4215 00000003 00410820 00000000 00000000 = 00000000 0
94 call 4219 00000003 6fffe000 00002000 00000000 = 00000078 0
104 call 4219 00000003 6fffe000 00002000 00000000 = 00000000 0
114 call 4146 00000001 00410100 00000002 00000000 = 00000008 0
124 exit 0
";

/// A page with a path, and a vector of two pieces of text behind it.
fn push_data(data: &mut Vec<u8>) -> Result<(), AllocError> {
    data.extend_from_slice(b"/d")?;
    data.resize(0x100, 0)?;
    push_words(data, &[0x41_0120, 2, 0x41_0122, 6])?;
    data.resize(0x120, 0)?;
    data.extend_from_slice(b"3 files\n")?;
    data.resize(0x1000, 0)
}

/// The data of the program.
pub fn data(alloc: Global) -> Result<Vec<u8>, AllocError> {
    let mut data = Vec::new(alloc);
    push_data(&mut data)?;
    Ok(data)
}

/// The program.
pub fn program(alloc: Global) -> Result<Vec<u8>, Fail> {
    let first = [
        ROOM_ON_THE_STACK,
        SET_T0_TO_MINUS_1,
        STORE_T0_FIFTH,
        STORE_0_SIXTH,
    ];
    let code = straight_code(alloc, &first, CALLS)?;
    Ok(executable(alloc, &code, &data(alloc)?)?)
}
