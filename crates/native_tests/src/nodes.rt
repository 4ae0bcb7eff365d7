//! The calls on the node that a path or a descriptor names: chdir, fchdir, truncate, ftruncate, faccessat, fchmod,
//! fchmodat, newfstatat, fstat and utimensat; and umask.

use crate::calls::first_wrong_of_new;
use std::test::Fail;

/// The file `/f`, the directory `/d/e`, which is removed while it is the working one, and the link `/s` to itself.
const DIRECTORIES: &str = "
    openat at_fdcwd '/f o_creat 0o600 = 3
    mkdirat at_fdcwd '/d 0o777 = 0
    mkdirat at_fdcwd '/d/e 0o777 = 0
    symlinkat 's at_fdcwd '/s = 0
    openat at_fdcwd '/d o_rdonly = 4
    chdir 'd/e = 0
    faccessat at_fdcwd '../e 0 = 0
    faccessat at_fdcwd 'f 0 ! enoent
    chdir 'x ! enoent
    chdir ' ! enoent
    chdir '/f ! enotdir
    chdir '/s ! eloop
    chdir at : room 256 zeros 1 ! enametoolong
    chdir nowhere ! efault
    fchdir 9 ! ebadf
    fchdir 3 ! enotdir
    fchdir 0 ! enotdir
    faccessat at_fdcwd '../e 0 = 0
    unlinkat at_fdcwd '/d/e at_removedir = 0
    chdir '.. ! enoent
    faccessat at_fdcwd '. 0 = 0
    openat at_fdcwd 'x o_creat 0o600 ! enoent
    fchdir 4 = 0
    openat at_fdcwd 'x o_creat 0o600 = 5
    chdir '.. = 0
    faccessat at_fdcwd 'd/x 0 = 0
    umask 0o7777 = 0o022
    umask 0o027 = 0o777
";

/// The file `/f`, which 3 has open for reading and writing and 4 for reading alone, the link `/l` to it, and the
/// directory `/d`.
const SIZES_AND_ACCESS: &str = "
    openat at_fdcwd '/f o_creat+o_rdwr 0o666 = 3
    openat at_fdcwd '/f o_rdonly = 4
    mkdirat at_fdcwd '/d 0o700 = 0
    symlinkat 'f at_fdcwd '/l = 0
    symlinkat 's at_fdcwd '/s = 0
    write 3 <hello> 5 = 5
    truncate '/l 3 = 0
    lseek 4 0 2 = 3
    ftruncate 3 6 = 0
    pread64 4 at 8 0 : room 8 = 6 : <hel> zeros 3 room 2
    truncate '/f -1 ! einval
    truncate '/f too_great ! efbig
    truncate '/d 0 ! eisdir
    truncate '/x 0 ! enoent
    truncate '/f/x 0 ! enotdir
    truncate '/s 0 ! eloop
    truncate at 0 : room 256 zeros 1 ! enametoolong
    truncate nowhere 0 ! efault
    ftruncate 9 -1 ! ebadf
    ftruncate 3 -1 ! einval
    ftruncate 3 too_great ! efbig
    ftruncate 4 0 ! einval
    ftruncate 1 0 ! einval
    lseek 4 0 2 = 6
    faccessat at_fdcwd '/f 6 = 0
    faccessat at_fdcwd '/l 1 ! eacces
    faccessat at_fdcwd '/d 7 = 0
    faccessat at_fdcwd '/f 8 ! einval
    faccessat at_fdcwd '/x 0 ! enoent
    faccessat at_fdcwd '/f/x 0 ! enotdir
    faccessat at_fdcwd '/s 0 ! eloop
    faccessat 9 'f 0 ! ebadf
    faccessat at_fdcwd nowhere 0 ! efault
    faccessat at_fdcwd at 0 : room 256 zeros 1 ! enametoolong
    fchmodat at_fdcwd '/l 0o100 = 0
    faccessat at_fdcwd '/f 1 = 0
    fchmodat at_fdcwd '/x 0 ! enoent
    fchmodat at_fdcwd '/f/x 0 ! enotdir
    fchmodat at_fdcwd '/s 0 ! eloop
    fchmodat at_fdcwd at 0 : room 256 zeros 1 ! enametoolong
    fchmodat 9 'f 0 ! ebadf
    fchmodat at_fdcwd nowhere 0 ! efault
    fchmod 9 0 ! ebadf
    fchmod 1 0 = 0
";

/// A status is the device and the node; the mode, the count of links, the owner and the group, of 4 bytes each; and the device of a
/// terminal, nothing, the size, the size of a block, the blocks of 512 bytes, three times with their nanoseconds (access,
/// modification, change), and nothing. Regular files have the type bits 0x8000, directories 0x4000, links 0xA000. The clock begins at
/// 1,000 s and 5 ns.
const STATUS: &str = "
    openat at_fdcwd '/f o_creat+o_rdwr 0o2666 = 3
    clock 1000000000
    write 3 <hello> 5 = 5
    newfstatat at_fdcwd '/f at+8 : align room 128 = 0 : align long 1 2 int 0x85A4 1 0 0 long 0 0 5 4096 8 1000 5 1001 5 1001 5 0
    newfstatat at_fdcwd '/ at+8 : align room 128 = 0 : align long 1 1 int 0x41ED 2 0 0 long 0 0 4096 4096 8 0 0 1000 5 1000 5 0
    clock 2000000000
    fchmod 3 0o17751 = 0
    clock 3000000000
    linkat at_fdcwd '/f at_fdcwd '/g = 0
    fstat 3 at : room 128 = 0 : long 1 2 int 0x8FE9 2 0 0 long 0 0 5 4096 8 1000 5 1001 5 1003 5 0
    clock 4000000000
    mkdirat at_fdcwd '/d 0o7777 = 0
    symlinkat '../f at_fdcwd '/d/l = 0
    newfstatat at_fdcwd '/d/l at+8 at_symlink_nofollow : align room 128 = 0 : \
        align long 1 4 int 0xA1FF 1 0 0 long 0 0 4 4096 0 1004 5 1004 5 1004 5 0
    newfstatat at_fdcwd '/d/l at+8 : align room 128 = 0 : align long 1 2 int 0x8FE9 2 0 0 long 0 0 5 4096 8 1000 5 1001 5 1003 5 0
    newfstatat at_fdcwd '/d at+8 : align room 128 = 0 : align long 1 3 int 0x43ED 2 0 0 long 0 0 4096 4096 8 1004 5 1004 5 1004 5 0
    newfstatat at_fdcwd ' at+8 at_empty_path : align room 128 = 0 : \
        align long 1 1 int 0x41ED 3 0 0 long 0 0 4096 4096 8 0 0 1004 5 1004 5 0
    clock 5000000000
    unlinkat at_fdcwd '/f = 0
    unlinkat at_fdcwd '/g = 0
    ftruncate 3 4097 = 0
    newfstatat 3 ' at+8 at_empty_path : align room 128 = 0 : \
        align long 1 2 int 0x8FE9 0 0 0 long 0 0 4097 4096 8 1000 5 1005 5 1005 5 0
    newfstatat 1 ' at+8 at_empty_path : align room 128 = 0 : align long 2 2 int 0x1180 1 0 0 long 0 0 0 4096 0 0 0 0 0 0 0 0
    newfstatat 9 ' at at_empty_path ! ebadf
    newfstatat 3 ' at ! enoent
    newfstatat at_fdcwd '/f at ! enoent
    newfstatat at_fdcwd '/d at 1 ! einval
    newfstatat at_fdcwd '/d nowhere ! efault
    newfstatat at_fdcwd nowhere at ! efault
    close 3 = 0
    newfstatat at_fdcwd '/d/l at ! enoent
    openat at_fdcwd '/f o_creat 0o600 = 3
    newfstatat at_fdcwd '/f/x at ! enotdir
    symlinkat 's at_fdcwd '/s = 0
    newfstatat at_fdcwd '/s at ! eloop
    newfstatat at_fdcwd at at : room 256 zeros 1 ! enametoolong
";

/// Times of the file `/f` and of the link `/l` to it, where the clock begins at 1,000 s and 5 ns: set, now, left, and
/// wrong ones. Nanoseconds can mean now (UTIME_NOW), or that a time is left (UTIME_OMIT), and 1,000,000,000 are none. With a path the
/// times of access and modification come first in memory.
const TIMES: &str = "
    openat at_fdcwd '/f o_creat+o_wronly 0o600 = 3
    symlinkat 'f at_fdcwd '/l = 0
    clock 1000000000
    utimensat 3 0 at : long 7 8 -1 999999999 = 0
    fstat 3 at : room 128 = 0 : long 1 2 int 0x8180 1 0 0 long 0 0 0 4096 0 7 8 -1 999999999 1001 5 0
    clock 2000000000
    utimensat 3 0 at : long 0 utime_omit 0 utime_now = 0
    fstat 3 at : room 128 = 0 : long 1 2 int 0x8180 1 0 0 long 0 0 0 4096 0 7 8 1002 5 1002 5 0
    clock 3000000000
    utimensat at_fdcwd '/l 0 = 0
    fstat 3 at : room 128 = 0 : long 1 2 int 0x8180 1 0 0 long 0 0 0 4096 0 1003 5 1003 5 1003 5 0
    clock 4000000000
    utimensat at_fdcwd at+32 at at_symlink_nofollow : long 2 3 4 5 '/l = 0
    newfstatat at_fdcwd '/l at+8 at_symlink_nofollow : align room 128 = 0 : \
        align long 1 3 int 0xA1FF 1 0 0 long 0 0 1 4096 0 2 3 4 5 1004 5 0
    utimensat 3 0 at : long 0 1000000000 0 0 ! einval
    utimensat 3 0 at : long 0 0 0 -1 ! einval
    utimensat 3 0 at : long 0 0 0 ! efault
    utimensat 9 0 at : long 0 0 0 0 ! ebadf
    utimensat 1 0 0 = 0
    utimensat at_fdcwd '/f 0 1 ! einval
    utimensat at_fdcwd '/f nowhere ! efault
    utimensat at_fdcwd nowhere 0 ! efault
    utimensat at_fdcwd '/x 0 ! enoent
    utimensat at_fdcwd '/f/x 0 ! enotdir
    symlinkat 's at_fdcwd '/s = 0
    utimensat at_fdcwd '/s 0 ! eloop
    utimensat at_fdcwd at 0 : room 256 zeros 1 ! enametoolong
    fstat 3 at : room 128 = 0 : long 1 2 int 0x8180 1 0 0 long 0 0 0 4096 0 1003 5 1003 5 1003 5 0
";

#[test]
fn directories(rt: HostRuntime) -> Result<(), Fail> {
    assert_eq!(rt; first_wrong_of_new(rt.alloc(), "", DIRECTORIES)?, None);
    Ok(())
}

#[test]
fn sizes_and_access(rt: HostRuntime) -> Result<(), Fail> {
    assert_eq!(rt; first_wrong_of_new(rt.alloc(), "", SIZES_AND_ACCESS)?, None);
    Ok(())
}

#[test]
fn status(rt: HostRuntime) -> Result<(), Fail> {
    assert_eq!(rt;
        first_wrong_of_new(rt.alloc(), "epoch 1000 5\n", STATUS)?,
        None
    );
    Ok(())
}

#[test]
fn times(rt: HostRuntime) -> Result<(), Fail> {
    assert_eq!(rt;
        first_wrong_of_new(rt.alloc(), "epoch 1000 5\n", TIMES)?,
        None
    );
    Ok(())
}
