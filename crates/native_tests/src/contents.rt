//! The content of open files and directories: lseek, pread64, pwrite64, read, write, readv, writev, fsync, fdatasync,
//! getdents64 and FIONREAD.

use crate::calls::first_wrong_of_new;
use std::test::Fail;

/// A file that is written from its beginning and behind its end. The descriptor 4 writes alone, and at the end, 5
/// reads alone, and 6 is a directory.
const FILE: &str = "
    openat at_fdcwd '/f o_creat+o_rdwr 0o600 = 3
    openat at_fdcwd '/f o_wronly+o_append = 4
    openat at_fdcwd '/f o_rdonly = 5
    openat at_fdcwd '/ o_rdonly = 6
    read 3 at 4 : room 4 = 0
    write 3 <hello> 5 = 5
    lseek 3 0 1 = 5
    lseek 3 1 0 = 1
    lseek 3 -1 2 = 4
    lseek 3 -2 1 = 2
    lseek 3 -1 0 ! einval
    lseek 3 0 3 ! einval
    lseek 3 too_great 0 ! einval
    lseek 3 0 1 = 2
    ioctl 3 fionread at : room 4 = 0 : int 3
    pread64 3 at 8 1 : room 8 = 4 : <ello> room 4
    pread64 3 at 8 5 : room 8 = 0
    pread64 3 at 8 -1 : room 8 ! einval
    pread64 4 at 8 0 : room 8 ! ebadf
    pread64 3 nowhere 1 0 ! efault
    pread64 3 nowhere 0 0 = 0
    pwrite64 3 <XY> 2 7 = 2
    pwrite64 3 <XY> 2 -1 ! einval
    pwrite64 5 <XY> 2 0 ! ebadf
    pwrite64 3 nowhere 1 0 ! efault
    pwrite64 3 nowhere 0 0 = 0
    lseek 3 0 1 = 2
    read 3 at 8 : room 8 = 7 : <llo> zeros 2 <XY> room 1
    read 3 at 8 : room 8 = 0
    read 3 nowhere 1 ! efault
    write 4 <!> 1 = 1
    pwrite64 4 <?> 1 0 = 1
    pread64 5 at 8 7 : room 8 = 4 : <XY!?> room 4
    writev 4 at 2 : long at+32 1 at+33 2 <abc> = 3
    lseek 5 10 0 = 10
    readv 5 at 2 : long at+34 1 at+32 2 room 3 = 3 : long at+34 1 at+32 2 <ab?>
    read 6 at 1 : room 1 ! eisdir
    pread64 6 at 1 0 : room 1 ! eisdir
    readv 6 at 1 : long at+16 1 room 1 ! eisdir
    write 6 at 1 : room 1 ! ebadf
    lseek 6 0 2 ! einval
    fsync 3 = 0
    fsync 6 = 0
    fdatasync 5 = 0
    lseek 3 greatest 0 = 0x100000000000
    write 3 at 1 : room 1 ! efbig
    writev 3 at 1 : long at+16 1 room 1 ! efbig
    pwrite64 3 at 1 greatest : room 1 ! efbig
    pwrite64 3 at 2 greatest+-1 : room 2 ! efbig
    lseek 5 0 2 = 14
    pwrite64 3 at 1 greatest+-1 : room 1 = 1
    lseek 5 0 2 = 0x100000000000
";

/// A record of a name of up to four letters has 24 bytes: the node's number, the entry's cookie, the length and the
/// type. The directory `/d` is the node 2, and has a file, a link and a directory.
const ENTRIES: &str = "
    mkdirat at_fdcwd '/d 0o777 = 0
    openat at_fdcwd '/d/a o_creat 0o600 = 3
    symlinkat 'x at_fdcwd '/d/l = 0
    mkdirat at_fdcwd '/d/five5 0o777 = 0
    openat at_fdcwd '/d o_rdonly = 4
    getdents64 4 at 23 : room 23 ! einval
    getdents64 4 nowhere 24 ! efault
    getdents64 4 at 48 : room 47 ! efault
    getdents64 3 at 48 : room 48 ! enotdir
    getdents64 4 at 47 : room 24 = 24 : long 2 1 short 24 byte 4 '. zeros 3
    lseek 4 0 1 = 1
    getdents64 4 at 103 : room 72 = 72 : \
        long 1 2 short 24 byte 4 '.. zeros 2 long 3 3 short 24 byte 8 'a zeros 3 long 4 4 short 24 byte 10 'l zeros 3
    getdents64 4 at 100 : room 32 = 32 : long 5 5 short 32 byte 4 'five5 zeros 7
    getdents64 4 at 1 : room 1 = 0
    lseek 4 3 0 = 3
    getdents64 4 at 24 : room 24 = 24 : long 4 4 short 24 byte 10 'l zeros 3
    lseek 4 0 1 = 4
";

/// Names that go and come while a directory is listed: each entry that stays is given once, and so is a new one.
const ENTRIES_WHILE_NAMES_GO: &str = "
    mkdirat at_fdcwd '/d 0o777 = 0
    openat at_fdcwd '/d o_rdonly = 3
    mkdirat 3 'a 0o777 = 0
    mkdirat 3 'b 0o777 = 0
    mkdirat 3 'c 0o777 = 0
    mkdirat 3 'd 0o777 = 0
    getdents64 3 at 72 : room 72 = 72 : \
        long 2 1 short 24 byte 4 '. zeros 3 long 1 2 short 24 byte 4 '.. zeros 2 long 3 3 short 24 byte 4 'a zeros 3
    unlinkat 3 'a at_removedir = 0
    unlinkat 3 'b at_removedir = 0
    mkdirat 3 'a 0o777 = 0
    getdents64 3 at 72 : room 72 = 72 : \
        long 5 5 short 24 byte 4 'c zeros 3 long 6 6 short 24 byte 4 'd zeros 3 long 3 7 short 24 byte 4 'a zeros 3
    getdents64 3 at 72 : room 72 = 0
    unlinkat 3 'c at_removedir = 0
    unlinkat 3 'd at_removedir = 0
    getdents64 3 at 72 : room 72 = 0
    unlinkat 3 'a at_removedir = 0
    unlinkat at_fdcwd '/d at_removedir = 0
    getdents64 3 at 72 : room 72 ! enoent
";

#[test]
fn file(rt: HostRuntime) -> Result<(), Fail> {
    assert_eq!(rt; first_wrong_of_new(rt.alloc(), "", FILE)?, None);
    Ok(())
}

#[test]
fn entries(rt: HostRuntime) -> Result<(), Fail> {
    assert_eq!(rt; first_wrong_of_new(rt.alloc(), "", ENTRIES)?, None);
    Ok(())
}

#[test]
fn entries_while_names_go(rt: HostRuntime) -> Result<(), Fail> {
    assert_eq!(rt;
        first_wrong_of_new(rt.alloc(), "", ENTRIES_WHILE_NAMES_GO)?,
        None
    );
    Ok(())
}
