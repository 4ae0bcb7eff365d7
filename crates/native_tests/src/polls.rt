//! The calls that wait for descriptors: ppoll and pselect6. What is told of open, closed and piped descriptors, and in which order
//! errors come. The numbers of events are those of Linux `include/uapi/asm-generic/poll.h`.

use crate::calls::first_wrong_of_new;
use std::test::Fail;

/// An entry has its descriptor, the events that are asked for, and those that are told. A time has its seconds and nanoseconds.
const ENTRIES: &str = "
    clock 1000
    pipe2 at : room 8 = 0 : int 3 4
    # 9 is not open: POLLNVAL, unasked. A descriptor below 0 is skipped, and what was told of it is cleared.
    ppoll at 2 : int 9 short 0 0x7FFF int 0xFFFFFFFF short 0x3FF 0x7FFF = 1 : int 9 short 0 0x20 int 0xFFFFFFFF short 0x3FF 0
    # Standard input is ready for reading, and the outputs for writing.
    ppoll at 2 : int 0 short 0x3FF 0x7FFF int 1 short 0x3FF 0x7FFF = 2 : int 0 short 0x3FF 0x41 int 1 short 0x3FF 0x104
    # The read end of an empty pipe waits, and its write end is ready.
    ppoll at 2 : int 3 short 1 0x7FFF int 0xFFFFFFFF short 1 0x7FFF waits 0
    ppoll at 2 at+16 : int 3 short 1 0x7FFF int 1 short 0 0x7FFF long 2 5 until 2000001005
    ppoll at 2 at+16 : int 3 short 1 0x7FFF int 4 short 0x104 0x7FFF long 1 0 = 1 : int 3 short 1 0 int 4 short 0x104 0x104 long 1 0
    ppoll at 2 at+16 : int 3 short 1 0x7FFF int 0xFFFFFFFB short 1 0x7FFF long 0 0 = 0 : int 3 short 1 0 int 0xFFFFFFFB short 1 0 long 0 0
";

/// Without its read end the write end is in error, and ready for nothing: POLLERR, unasked.
const UNREAD: &str = "
    pipe2 at : room 8 = 0 : int 3 4
    close 3 = 0
    ppoll at 2 : int 4 short 0x104 0x7FFF int 3 short 1 0x7FFF = 2 : int 4 short 0x104 8 int 3 short 1 0x20
";

/// Without its write end the read end is hung up: POLLHUP, unasked. It is ready for reading then.
const UNWRITTEN: &str = "
    pipe2 at : room 8 = 0 : int 3 4
    close 4 = 0
    ppoll at 2 : int 3 short 0 0x7FFF int 0xFFFFFFFF short 0 0x7FFF = 1 : int 3 short 0 0x10 int 0xFFFFFFFF short 0 0
    pselect6 4 at at+8 at+16 : long 8 0 0 = 1 : long 8 0 0
";

/// Three sets of one word each: for reading, for writing and for exceptions.
const SETS: &str = "
    clock 1000
    pipe2 at : room 8 = 0 : int 3 4
    # A descriptor that is not open, in any set.
    pselect6 10 at at+8 at+16 at+24 : long 0x200 0 0 0 7 ! ebadf
    pselect6 10 at at+8 at+16 : long 1 2 0x200 ! ebadf
    pselect6 -1 at at+8 at+16 : long 1 2 0 ! einval
    # Descriptors from the count on do not count. There are no exceptions.
    pselect6 5 at at+8 at+16 : long 0x209 0x1E 0x1F = 4 : long 1 0x16 0
    pselect6 4 at at+8 at+16 : long 8 0 1 waits 0
    pselect6 4 at at+8 at+16 at+24 : long 8 0x10 1 0 0 = 0 : long 0 0 0 0 0
";

/// The order of errors: the time, then the mask, then the count, then the entries or sets.
const ERRORS: &str = "
    ppoll nowhere 2000 nowhere 1 8 ! efault
    ppoll nowhere 2000 0 nowhere 8 ! einval
    ppoll nowhere 2000 0 nowhere 16 ! efault
    ppoll nowhere 1025 ! einval
    ppoll nowhere 1024 ! efault
    ppoll nowhere 0 waits 0
    pselect6 -1 0 0 nowhere 0 nowhere ! efault
    pselect6 2000 0 0 nowhere ! efault
    pselect6 0 0 0 nowhere waits 0
";

#[test]
fn entries(rt: HostRuntime) -> Result<(), Fail> {
    assert_eq!(rt; first_wrong_of_new(rt.alloc(), "", ENTRIES)?, None);
    Ok(())
}

#[test]
fn ends_of_pipes(rt: HostRuntime) -> Result<(), Fail> {
    assert_eq!(rt; first_wrong_of_new(rt.alloc(), "", UNREAD)?, None);
    assert_eq!(rt; first_wrong_of_new(rt.alloc(), "", UNWRITTEN)?, None);
    Ok(())
}

#[test]
fn sets(rt: HostRuntime) -> Result<(), Fail> {
    assert_eq!(rt; first_wrong_of_new(rt.alloc(), "", SETS)?, None);
    Ok(())
}

#[test]
fn errors(rt: HostRuntime) -> Result<(), Fail> {
    assert_eq!(rt; first_wrong_of_new(rt.alloc(), "", ERRORS)?, None);
    Ok(())
}
