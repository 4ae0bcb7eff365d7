//! The calls that make, remove and read names: mkdirat, symlinkat, readlinkat, linkat, unlinkat and renameat.

use crate::calls::first_wrong_of_new;
use std::test::Fail;

/// The directories `/d` and `/e`, the file `/d/a`, the link `/l` to it, and `/s`, which leads to itself. A link's
/// target comes first in memory.
const MAKING: &str = "
    mkdirat at_fdcwd '/d 0o777 = 0
    mkdirat at_fdcwd '/d 0o777 ! eexist
    mkdirat at_fdcwd '/ 0o777 ! eexist
    mkdirat at_fdcwd '/d/. 0o777 ! eexist
    mkdirat at_fdcwd '/x/d 0o777 ! enoent
    mkdirat at_fdcwd ' 0o777 ! enoent
    mkdirat at_fdcwd '/e/ 0o777 = 0
    mkdirat at_fdcwd nowhere 0o777 ! efault
    mkdirat at_fdcwd at 0o777 : room 256 zeros 1 ! enametoolong
    mkdirat 9 'q 0o777 ! ebadf
    openat at_fdcwd '/d/a o_creat 0o600 = 3
    mkdirat at_fdcwd '/d/a/b 0o777 ! enotdir
    mkdirat 3 'b 0o777 ! enotdir
    symlinkat '/d/a at_fdcwd '/l = 0
    symlinkat '/d/a at_fdcwd '/l ! eexist
    symlinkat ' at_fdcwd '/m ! enoent
    symlinkat 'x at_fdcwd '/m/ ! enoent
    symlinkat 'x at_fdcwd '/l/q ! enotdir
    symlinkat nowhere at_fdcwd '/m ! efault
    symlinkat '/m at_fdcwd nowhere ! efault
    symlinkat 'x 9 'm ! ebadf
    symlinkat 's at_fdcwd '/s = 0
    mkdirat at_fdcwd '/s/d 0o777 ! eloop
    symlinkat 'x at_fdcwd '/s/d ! eloop
    symlinkat at at_fdcwd at : room 256 zeros 1 ! enametoolong
    symlinkat at at_fdcwd at : room 4096 ! enametoolong
    readlinkat at_fdcwd '/l at+3 8 : room 8 = 4 : </d/a> room 4
    readlinkat at_fdcwd '/l at+3 2 : room 4 = 2 : </d> room 2
    readlinkat at_fdcwd '/l at+3 0 : room 2 ! einval
    readlinkat at_fdcwd '/l at+3 -1 : room 2 ! einval
    readlinkat at_fdcwd '/d/a at+5 8 : room 2 ! einval
    readlinkat at_fdcwd '/x at+3 8 : room 2 ! enoent
    readlinkat at_fdcwd '/l/x at+5 8 : room 2 ! enotdir
    readlinkat at_fdcwd '/s/x at+5 8 : room 2 ! eloop
    readlinkat 9 'l at+2 8 : room 2 ! ebadf
    readlinkat at_fdcwd at at 8 : room 256 zeros 1 ! enametoolong
    readlinkat at_fdcwd '/l at+3 8 : room 3 ! efault
    readlinkat at_fdcwd '/l nowhere 8 : room 3 ! efault
    readlinkat at_fdcwd nowhere at 8 ! efault
";

/// A second name for the file `/d/a`, one for a link and one for what that leads to; and names that go.
const LINKING_AND_REMOVING: &str = "
    mkdirat at_fdcwd '/d 0o777 = 0
    openat at_fdcwd '/d/a o_creat 0o600 = 3
    symlinkat '/d/a at_fdcwd '/l = 0
    linkat at_fdcwd '/d/a at_fdcwd '/b = 0
    linkat at_fdcwd '/d/a at_fdcwd '/b ! eexist
    linkat at_fdcwd '/d at_fdcwd '/c ! eperm
    linkat at_fdcwd '/x at_fdcwd '/c ! enoent
    linkat at_fdcwd '/b at_fdcwd '/c/ ! enoent
    linkat at_fdcwd '/b at_fdcwd '/b/c ! enotdir
    linkat 9 'b at_fdcwd '/c ! ebadf
    linkat at_fdcwd '/b 9 'c ! ebadf
    linkat at_fdcwd nowhere at_fdcwd '/c ! efault
    linkat at_fdcwd '/b at_fdcwd nowhere ! efault
    linkat at_fdcwd '/b at_fdcwd '/c 1 ! einval
    symlinkat 's at_fdcwd '/s = 0
    linkat at_fdcwd '/s/x at_fdcwd '/c ! eloop
    linkat at_fdcwd at at_fdcwd at : room 256 zeros 1 ! enametoolong
    linkat at_fdcwd '/l at_fdcwd '/c at_symlink_follow = 0
    readlinkat at_fdcwd '/c at+3 4 : room 4 ! einval
    linkat at_fdcwd '/l at_fdcwd '/k = 0
    readlinkat at_fdcwd '/k at+3 4 : room 4 = 4 : </d/a>
    unlinkat at_fdcwd nowhere ! efault
    unlinkat at_fdcwd '/c 1 ! einval
    unlinkat 9 'c ! ebadf
    unlinkat at_fdcwd '/s/x ! eloop
    unlinkat at_fdcwd at : room 256 zeros 1 ! enametoolong
    unlinkat at_fdcwd '/c = 0
    unlinkat at_fdcwd '/c ! enoent
    unlinkat at_fdcwd '/b/ ! enotdir
    unlinkat at_fdcwd '/d ! eisdir
    unlinkat at_fdcwd '/d at_removedir ! enotempty
    unlinkat at_fdcwd '/d/. at_removedir ! einval
    unlinkat at_fdcwd '/d/.. at_removedir ! enotempty
    unlinkat at_fdcwd '/ at_removedir ! ebusy
    unlinkat at_fdcwd '/b at_removedir ! enotdir
    unlinkat at_fdcwd '/x at_removedir ! enoent
    unlinkat at_fdcwd '/d/a = 0
    unlinkat at_fdcwd '/d at_removedir = 0
    openat at_fdcwd '/b 0 = 4
";

/// The file `/d/a` with a second name `/b`, the link `/l` and the empty directory `/e`.
const RENAMING: &str = "
    mkdirat at_fdcwd '/d 0o777 = 0
    mkdirat at_fdcwd '/e 0o777 = 0
    openat at_fdcwd '/d/a o_creat 0o600 = 3
    linkat at_fdcwd '/d/a at_fdcwd '/b = 0
    symlinkat '/d/a at_fdcwd '/l = 0
    renameat at_fdcwd '/b at_fdcwd '/c = 0
    renameat at_fdcwd '/b at_fdcwd '/c ! enoent
    renameat at_fdcwd '/c at_fdcwd '/d/a = 0
    openat at_fdcwd '/c 0 = 4
    renameat at_fdcwd '/c at_fdcwd '/x/c ! enoent
    renameat at_fdcwd '/c at_fdcwd '/l/c ! enotdir
    renameat at_fdcwd '/d at_fdcwd '/d/e ! einval
    renameat at_fdcwd '/d at_fdcwd '/c ! enotdir
    renameat at_fdcwd '/c at_fdcwd '/d ! eisdir
    renameat at_fdcwd '/e at_fdcwd '/d ! enotempty
    renameat at_fdcwd '/. at_fdcwd '/q ! ebusy
    renameat at_fdcwd '/e at_fdcwd '/.. ! ebusy
    renameat at_fdcwd '/ at_fdcwd '/q ! ebusy
    renameat at_fdcwd '/l at_fdcwd '/q/ ! enoent
    renameat at_fdcwd nowhere at_fdcwd '/q ! efault
    renameat at_fdcwd '/c at_fdcwd nowhere ! efault
    renameat 9 'c at_fdcwd '/q ! ebadf
    renameat at_fdcwd '/c 9 'q ! ebadf
    renameat at_fdcwd at at_fdcwd at : room 256 zeros 1 ! enametoolong
    symlinkat 's at_fdcwd '/s = 0
    renameat at_fdcwd '/s/x at_fdcwd '/c ! eloop
    renameat at_fdcwd '/d at_fdcwd '/e = 0
    openat at_fdcwd '/e/a 0 = 5
    renameat at_fdcwd '/e at_fdcwd '/q/ = 0
    openat at_fdcwd '/e 0 ! enoent
    renameat at_fdcwd '/q/a at_fdcwd '/l = 0
    readlinkat at_fdcwd '/l at+3 4 : room 4 ! einval
";

#[test]
fn making(rt: HostRuntime) -> Result<(), Fail> {
    assert_eq!(rt; first_wrong_of_new(rt.alloc(), "", MAKING)?, None);
    Ok(())
}

#[test]
fn linking_and_removing(rt: HostRuntime) -> Result<(), Fail> {
    assert_eq!(rt;
        first_wrong_of_new(rt.alloc(), "", LINKING_AND_REMOVING)?,
        None
    );
    Ok(())
}

#[test]
fn renaming(rt: HostRuntime) -> Result<(), Fail> {
    assert_eq!(rt; first_wrong_of_new(rt.alloc(), "", RENAMING)?, None);
    Ok(())
}
