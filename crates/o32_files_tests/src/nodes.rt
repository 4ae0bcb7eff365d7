//! Calls on the node that a path or a descriptor names: access(2), chmod(2), truncate(2), utimensat(2), fsync(2), chdir(2), getcwd(2).
use session_scripts::calls::first_wrong;
use session_scripts::image::TREE;
use std::test::Fail;

/// A file that no bit allows to execute is EACCES for the superuser too (access(2)).
const ACCESSES: &str = "
    access '/f 6 = 0
    access '/f 1 ! eacces
    access '/d 7 = 0
    access '/f 8 ! einval
    access '/none ! enoent
    access end 8 ! efault
    open '/d = 3
    faccessat 3 'a 2 = 0
    faccessat 3 'a 1 ! eacces
    faccessat 9 'a ! ebadf
    faccessat at_fdcwd 'f 8 ! einval
";

/// Twelve bits of the mode are kept. That of a stream stays (this project's own).
const MODES: &str = "
    chmod '/l 0o17755 = 0
    stat64 '/f room = 0
    show room + 24 4 : 00008fed
    open '/f = 3
    fchmod 3 0o600 = 0
    fstat64 3 room = 0
    show room + 24 4 : 00008180
    fchmod 1 0o600 = 0
    fchmod 9 0o600 ! ebadf
    fchmodat at_fdcwd 'f 0o421 = 0
    fstat64 3 room = 0
    show room + 24 4 : 00008111
    fchmodat 9 'f 0o421 ! ebadf
    chmod '/none 0o600 ! enoent
";

/// Sizes are signed. A file has at most 2^44 bytes (this project's own), and those that come are zeros.
const SIZES: &str = "
    truncate '/l 2 = 0
    truncate64 '/f 0 0 7 = 0
    open '/f = 3
    read 3 room 9 = 7
    show room 7 : 68650000000000
    truncate '/f 0xFFFFFFFF ! einval
    truncate64 '/f 0 0x80000000 ! einval
    truncate64 '/f 0 0x1000 1 ! efbig
    truncate '/d ! eisdir
    truncate '/none ! enoent
    truncate end 0xFFFFFFFF ! efault
    ftruncate 3 ! einval
    ftruncate 9 0xFFFFFFFF ! ebadf
    ftruncate 1 ! einval
    open '/f 2 = 4
    ftruncate 4 0xFFFFFFFF ! einval
    ftruncate64 4 0 0x1000 1 ! efbig
    ftruncate64 4 0 0x1000 = 0
    fstat64 4 room = 0
    show room + 56 8 : 0000100000000000
    ftruncate 4 1 = 0
    read 4 room 9 = 1
";

/// The times of access and modification stand at 64 and 72 of a status, each in seconds and nanoseconds. A null path means the
/// descriptor.
const TIME_CHANGES: &str = "
    utimensat at_fdcwd '/l times = 0
    stat64 '/f room = 0
    show room + 64 16 : 00000005000000060000000700000008
    utimensat at_fdcwd '/f now_and_leave = 0
    stat64 '/f room = 0
    show room + 64 4 : 00000000
    show room + 72 8 : 0000000700000008
    utimensat at_fdcwd '/l times 0x100 = 0
    lstat64 '/l room = 0
    show room + 64 16 : 00000005000000060000000700000008
    open '/f = 3
    utimensat 3 0 times = 0
    fstat64 3 room = 0
    show room + 64 16 : 00000005000000060000000700000008
    utimensat at_fdcwd 0 times ! ebadf
    utimensat 1 0 times = 0
    utimensat at_fdcwd '/f wrong_times 0x200 ! einval
    utimensat 9 'f times 0x200 ! einval
    utimensat 9 'f times ! ebadf
    utimensat at_fdcwd '/none ! enoent
";

/// The path is read before the times, and both before the walk.
const WRONG_POINTERS: &str = "
    utimensat at_fdcwd end wrong_times ! efault
    utimensat at_fdcwd '/f end - 15 ! efault
    utimensat at_fdcwd ' ! enoent
    utimensat 9 ! ebadf
";

/// What is no file can not be brought to a disk.
const SYNCS: &str = "
    open '/f = 3
    fsync 3 = 0
    fdatasync 3 = 0
    fsync 1 ! einval
    fdatasync 0 ! einval
    fsync 9 ! ebadf
    fdatasync 9 ! ebadf
";

/// The result of getcwd(2) counts the NUL.
const WORKING: &str = "
    getcwd room 2 = 2
    show room 2 : 2f00
    chdir '/d = 0
    getcwd room 3 = 3
    show room 3 : 2f6400
    getcwd room 2 ! erange
    getcwd room ! erange
    getcwd end - 2 9 ! efault
    open 'a = 3
    open 'f ! enoent
    chdir '.. = 0
    open '/d = 4
    fchdir 4 = 0
    getcwd room 99 = 3
    fchdir 3 ! enotdir
    fchdir 9 ! ebadf
    chdir '/f ! enotdir
    chdir '/none ! enoent
    chdir end ! efault
    mkdir '/n 0o755 = 0
    chdir '/n = 0
    rmdir '/n = 0
    getcwd room 99 ! enoent
";

#[test]
fn accesses(rt: HostRuntime) -> Result<(), Fail> {
    assert_eq!(rt; first_wrong(rt.alloc(), ACCESSES, TREE)?, Some(0));
    Ok(())
}

#[test]
fn modes(rt: HostRuntime) -> Result<(), Fail> {
    assert_eq!(rt; first_wrong(rt.alloc(), MODES, TREE)?, Some(0));
    Ok(())
}

#[test]
fn sizes(rt: HostRuntime) -> Result<(), Fail> {
    assert_eq!(rt; first_wrong(rt.alloc(), SIZES, TREE)?, Some(0));
    Ok(())
}

#[test]
fn time_changes(rt: HostRuntime) -> Result<(), Fail> {
    assert_eq!(rt; first_wrong(rt.alloc(), TIME_CHANGES, TREE)?, Some(0));
    Ok(())
}

#[test]
fn wrong_pointers(rt: HostRuntime) -> Result<(), Fail> {
    assert_eq!(rt; first_wrong(rt.alloc(), WRONG_POINTERS, TREE)?, Some(0));
    Ok(())
}

#[test]
fn syncs(rt: HostRuntime) -> Result<(), Fail> {
    assert_eq!(rt; first_wrong(rt.alloc(), SYNCS, TREE)?, Some(0));
    Ok(())
}

#[test]
fn working(rt: HostRuntime) -> Result<(), Fail> {
    assert_eq!(rt; first_wrong(rt.alloc(), WORKING, TREE)?, Some(0));
    Ok(())
}
