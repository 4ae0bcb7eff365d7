//! stat(2), lstat(2), fstat(2) and fstatat(2), in the old structure and in that of 64 bits.
use session_scripts::calls::first_wrong;
use session_scripts::image::TREE;
use std::test::Fail;

/// The old structure: number at 16, mode, names at 24, size at 48, the seconds of the modification at 64, block size at 80 and blocks.
/// What it can't hold is EOVERFLOW, and then nothing is stored; nor is it where it can't be stored whole.
const OLD: &str = "
    stat '/f room = 0
    show room + 16 12 : 00000003000081a400000001
    show room + 48 4 : 00000005
    show room + 64 4 : 00000001
    show room + 80 8 : 0000100000000008
    lstat '/l room = 0
    show room + 20 8 : 0000a1ff00000001
    show room + 48 4 : 00000001
    stat '/l room = 0
    show room + 16 4 : 00000003
    fstat 0 room = 0
    show room + 48 4 : 00000000
    stat '/wide room ! eoverflow
    stat '/big room ! eoverflow
    lstat '/big room ! eoverflow
    open '/wide = 3
    fstat 3 end ! eoverflow
    show room + 48 4 : 00000000
    stat '/f end - 143 ! efault
    show end - 4 4 : 79797979
    stat end room ! efault
    fstat 9 end ! ebadf
";

/// The wide structure: number at 16 in 8 bytes, mode, names, user and group at 24, size at 56 in 8 bytes, and blocks at 96.
const NEW: &str = "
    stat64 '/wide room = 0
    show room + 16 24 : 0000000100000001000081a4000000010000000000000000
    lstat64 '/big room = 0
    show room + 56 8 : 0000000080000000
    show room + 88 16 : 00001000000000000000000000000000
    stat64 '/d room = 0
    show room + 24 8 : 000041ed00000002
    show room + 56 8 : 0000000000001000
    show room + 96 8 : 0000000000000008
    stat64 '/ room = 0
    show room + 16 16 : 0000000000000001000041ed00000003
    lstat64 '/l room = 0
    show room + 56 8 : 0000000000000001
    stat64 '/f end - 103 ! efault
    show end - 4 4 : 79797979
    stat64 '/f end - 104 = 0
    show end - 8 8 : 0000000000000008
    stat64 '/none room ! enoent
    lstat64 '/f/x room ! enotdir
    fstat64 9 room ! ebadf
";

/// A flag that is none comes before the path. The empty path with its flag means the descriptor itself.
const AT: &str = "
    open '/d = 3
    fstatat64 3 'a room = 0
    show room + 20 4 : 00000007
    fstatat64 at_fdcwd '/l room at_symlink_nofollow = 0
    show room + 20 4 : 00000004
    fstatat64 at_fdcwd '/l room at_no_automount = 0
    show room + 20 4 : 00000003
    fstatat64 3 ' room at_empty_path = 0
    show room + 20 4 : 00000002
    fstatat64 at_fdcwd ' room at_empty_path = 0
    show room + 20 4 : 00000001
    fstatat64 9 ' room at_empty_path ! ebadf
    fstatat64 3 ' room ! enoent
    fstatat64 9 'a room ! ebadf
    fstatat64 3 end room 0x200 ! einval
    fstatat64 3 end room ! efault
    fstatat64 3 'a end ! efault
    pipe 0 = 4
    fstat64 4 room = 0
    show room + 28 4 : 00000001
";

/// A file without a name has no links, nor has a directory that was removed.
const REMOVED: &str = "
    open '/f = 3
    open '/d = 4
    unlink '/f = 0
    unlink '/d/a = 0
    unlink '/d/bb = 0
    rmdir '/d = 0
    fstat 3 room = 0
    show room + 24 4 : 00000000
    fstat 4 room = 0
    show room + 24 4 : 00000000
";

#[test]
fn old(rt: HostRuntime) -> Result<(), Fail> {
    assert_eq!(rt; first_wrong(rt.alloc(), OLD, TREE)?, Some(0));
    Ok(())
}

#[test]
fn new(rt: HostRuntime) -> Result<(), Fail> {
    assert_eq!(rt; first_wrong(rt.alloc(), NEW, TREE)?, Some(0));
    Ok(())
}

#[test]
fn at(rt: HostRuntime) -> Result<(), Fail> {
    assert_eq!(rt; first_wrong(rt.alloc(), AT, TREE)?, Some(0));
    Ok(())
}

#[test]
fn removed(rt: HostRuntime) -> Result<(), Fail> {
    assert_eq!(rt; first_wrong(rt.alloc(), REMOVED, TREE)?, Some(0));
    Ok(())
}
