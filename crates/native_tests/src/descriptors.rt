//! The calls on descriptors and on what they have open: dup, dup3, fcntl, close, pipe2, lseek, getdents64,
//! fsync and fdatasync; and getpid and getppid.

use crate::calls::first_wrong_of_new;
use std::alloc::Global;
use std::test::Fail;

const DESCRIPTORS: &str = "
    dup 1 = 3
    dup 9 ! ebadf
    dup3 1 5 o_cloexec = 5
    dup3 1 1 ! einval
    dup3 1 1024 o_nonblock ! ebadf
    dup3 1 6 o_nonblock ! einval
    dup3 9 1 ! ebadf
    fcntl 5 f_getfd = 1
    fcntl 3 f_getfd = 0
    fcntl 5 f_setfd 2 = 0
    fcntl 5 f_getfd = 0
    fcntl 9 f_getfd ! ebadf
    fcntl 9 f_setfd 1 ! ebadf
    fcntl 0 f_dupfd 10 = 10
    fcntl 0 f_dupfd 1024 ! einval
    fcntl 0 f_dupfd -1 ! einval
    fcntl 9 f_dupfd 0 ! ebadf
    fcntl 0 f_dupfd_cloexec 1024 ! einval
    fcntl 9 f_dupfd_cloexec 0 ! ebadf
    fcntl 0 f_dupfd_cloexec 10 = 11
    fcntl 11 f_getfd = 1
    fcntl 1 f_getfl = 0x8001
    fcntl 1 f_setfl 0xC00 = 0
    fcntl 5 f_getfl = 0x8C01
    fcntl 9 f_getfl ! ebadf
    fcntl 9 f_setfl 0 ! ebadf
    fcntl 1 f_setfl 0x88 = 0
    fcntl 5 f_getfl = 0x8001
    fcntl 1 99 ! einval
    fcntl 99 99 ! ebadf
    pipe2 at 1 : room 8 ! einval
    pipe2 at+1 : room 8 ! efault
    pipe2 at o_cloexec : room 8 = 0 : int 4 6
    fcntl 6 f_getfd = 1
    close 6 = 0
    close 6 ! ebadf
    close 0x10000000a = 0
    lseek 0 0 0 ! espipe
    lseek 9 0 0 ! ebadf
    getdents64 0 at 8 : room 8 ! enotdir
    getdents64 9 at 8 : room 8 ! ebadf
    fsync 0 ! einval
    fsync 9 ! ebadf
    fdatasync 4 ! einval
    fdatasync 9 ! ebadf
    getpid = 100
    getppid = 1
";

/// With all descriptors open; then the descriptors 7 and 8 are closed, of which the first alone is not enough
/// for a pipe, and is free again after it.
const NO_DESCRIPTOR: &str = "
    dup 0 ! emfile
    openat at_fdcwd '/x 0 ! emfile
    dup 2000 ! ebadf
    fcntl 0 f_dupfd 0 ! emfile
    fcntl 0 f_dupfd_cloexec 1023 ! emfile
    pipe2 at : room 8 ! emfile
    close 7 = 0
    pipe2 at : room 8 ! emfile
    fcntl 0 f_dupfd 8 ! emfile
    close 8 = 0
    pipe2 at : room 8 = 0 : int 7 8
    dup3 0 1023 = 1023
";

/// Calls that open all descriptors, and then the calls of a text.
fn with_all_open(alloc: Global, text: &str) -> Result<String, Fail> {
    let mut rows = String::new(alloc);
    for fd in 3..1024 {
        let row = format!(in alloc; "dup 0 = {fd}\n")?;
        rows.push_str(row.as_str())?;
    }
    rows.push_str(text)?;
    Ok(rows)
}

#[test]
fn descriptors(rt: HostRuntime) -> Result<(), Fail> {
    assert_eq!(rt; first_wrong_of_new(rt.alloc(), "", DESCRIPTORS)?, None);
    Ok(())
}

#[test]
fn no_descriptor_is_free(rt: HostRuntime) -> Result<(), Fail> {
    let rows = with_all_open(rt.alloc(), NO_DESCRIPTOR)?;
    assert_eq!(rt; first_wrong_of_new(rt.alloc(), "", rows.as_str())?, None);
    Ok(())
}
