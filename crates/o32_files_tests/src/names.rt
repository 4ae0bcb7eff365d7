//! Calls that make, move and take away names: link(2), unlink(2), mkdir(2), rmdir(2), symlink(2), readlink(2), rename(2).
use session_scripts::calls::{first_wrong, first_wrong_saving};
use session_scripts::image::TREE;
use std::test::Fail;

/// A last link of the old path is not followed, but by linkat(2) with its flag. A directory is EPERM first.
const LINKS: &str = "
    link '/f '/n = 0
    linkat at_fdcwd '/l at_fdcwd '/d/n at_symlink_follow = 0
    stat64 '/n room = 0
    show room + 20 12 : 00000003000081a400000003
    link '/l '/m = 0
    readlink '/m room 9 = 1
    link '/d '/n ! eperm
    link '/f '/n ! eexist
    link '/f '/f ! eexist
    link '/none '/n ! enoent
    link '/f '/none/x ! enoent
    link end end ! efault
    link '/none end ! efault
    link '/f long ! enametoolong
    linkat at_fdcwd '/f at_fdcwd '/none 0x100 ! einval
    linkat 9 'f at_fdcwd '/none ! ebadf
    linkat at_fdcwd '/f 9 'n ! ebadf
";

/// What has a name and what is a directory go by different calls.
const REMOVALS: &str = "
    link '/f '/n = 0
    unlink '/n = 0
    unlink '/n ! enoent
    unlink '/d ! eisdir
    unlink '/f/x ! enotdir
    unlink end ! efault
    unlinkat at_fdcwd '/d ! eisdir
    unlinkat at_fdcwd '/d at_removedir ! enotempty
    unlinkat at_fdcwd '/f at_removedir ! enotdir
    unlinkat at_fdcwd '/f 0x100 ! einval
    unlinkat 9 'f ! ebadf
    rmdir '/f ! enotdir
    rmdir '/ ! ebusy
    rmdir '/d ! enotempty
    rmdir '/d/. ! einval
    rmdir '/d/.. ! enotempty
    rmdir '/none ! enoent
    unlink '/l = 0
";

/// Ten bits of the mode are kept, of which the umask, 022, takes two.
const DIRECTORIES: &str = "
    mkdir '/n 0o7777 = 0
    stat64 '/n room = 0
    show room + 24 8 : 000043ed00000002
    mkdir '/n 0o755 ! eexist
    mkdir '/l 0o755 ! eexist
    mkdir '/ 0o755 ! eexist
    mkdir '/none/x 0o755 ! enoent
    mkdir '/f/x 0o755 ! enotdir
    mkdir ' 0o755 ! enoent
    open '/n = 3
    mkdirat 3 'n 0o700 = 0
    mkdirat 9 'n 0o700 ! ebadf
    unlinkat 3 'n at_removedir = 0
    rmdir '/n/ = 0
";

/// readlink(2) gives as much of the text as it is asked for, without a NUL; its size is signed.
const TEXTS: &str = "
    symlink 'f '/n = 0
    readlink '/n room 9 = 1
    show room 2 : 6600
    symlinkat '/d/a at_fdcwd '/m = 0
    readlinkat at_fdcwd '/m room 3 = 3
    show room 4 : 2f642f00
    symlink ' '/none ! enoent
    symlink '/f '/f ! eexist
    symlink end '/none ! efault
    symlinkat '/f 9 'n ! ebadf
    readlink '/f room 9 ! einval
    readlink '/n room ! einval
    readlink '/n room 0x80000000 ! einval
    readlink '/none room 9 ! enoent
    readlink '/n end 9 ! efault
    readlink end room ! efault
    readlinkat 9 'f room 9 ! ebadf
";

/// What is refused moves nothing.
const MOVES: &str = "
    rename '/f '/n = 0
    open '/f ! enoent
    rename '/n '/f = 0
    rename '/d '/d/n ! einval
    rename '/d '/f ! enotdir
    rename '/f '/d ! eisdir
    rename '/ '/n ! ebusy
    rename '/d/. '/n ! ebusy
    rename '/f '/f = 0
    rename '/none '/n ! enoent
    rename '/f '/none/x ! enoent
    rename '/none end ! efault
    mkdir '/m 0o755 = 0
    rename '/m '/d ! enotempty
    renameat at_fdcwd '/m at_fdcwd '/d ! enotempty
    open '/d = 3
    renameat 3 'a at_fdcwd '/f = 0
    renameat 9 'a at_fdcwd '/f ! ebadf
    renameat 3 'a 9 'n ! enoent
    rename '/d '/m = 0
";

/// What the moves leave: the directory under another name, and one of its files in the place of another. A new name has the next
/// cookie.
const MOVED_TREE: &str = "8
    1 directory 0o755 0 6 5 l 4 6 o 5 7 big 6 8 wide 0x100000001 12 f 7 13 m 2
    2 directory 0o755 0 1 4 bb 8
    4 link 0o777 1 f
    5 link 0o777 1 o
    6 file 0o644 1 0x80000000 -
    7 file 0o600 1 0 -
    8 file 0o600 1 0 -
    0x100000001 file 0o644 1 0 -
";

/// A file that lost its name lives on while it is open, and leaves nothing behind.
const NAMELESS: &str = "
    open '/n 0x102 0o644 = 3
    unlink '/n = 0
    write 3 '/f 1 = 1
";

/// A root directory alone.
const ROOT_ALONE: &str = "1
    1 directory 0o755 0 0
";

#[test]
fn links(rt: HostRuntime) -> Result<(), Fail> {
    assert_eq!(rt; first_wrong(rt.alloc(), LINKS, TREE)?, Some(0));
    Ok(())
}

#[test]
fn removals(rt: HostRuntime) -> Result<(), Fail> {
    assert_eq!(rt; first_wrong(rt.alloc(), REMOVALS, TREE)?, Some(0));
    Ok(())
}

#[test]
fn directories(rt: HostRuntime) -> Result<(), Fail> {
    assert_eq!(rt; first_wrong(rt.alloc(), DIRECTORIES, TREE)?, Some(0));
    Ok(())
}

#[test]
fn texts(rt: HostRuntime) -> Result<(), Fail> {
    assert_eq!(rt; first_wrong(rt.alloc(), TEXTS, TREE)?, Some(0));
    Ok(())
}

#[test]
fn moves(rt: HostRuntime) -> Result<(), Fail> {
    assert_eq!(rt;
        first_wrong_saving(rt.alloc(), &[], MOVES, TREE, MOVED_TREE)?,
        Some(0)
    );
    Ok(())
}

#[test]
fn nameless(rt: HostRuntime) -> Result<(), Fail> {
    assert_eq!(rt;
        first_wrong_saving(rt.alloc(), &[], NAMELESS, ROOT_ALONE, ROOT_ALONE)?,
        Some(0)
    );
    Ok(())
}
