//! openat(2), and the descriptors that it opens.

use crate::calls::first_wrong_of_new;
use std::test::Fail;

/// Names that are not there, wrong flags and wrong paths; then a file by its path and by a descriptor's directory,
/// and a directory.
const FILES_AND_PATHS: &str = "
    openat at_fdcwd '/x 0 ! enoent
    openat at_fdcwd '/a o_creat+o_rdwr 0o666 = 3
    openat at_fdcwd '/a o_creat+o_excl 0o666 ! eexist
    openat at_fdcwd nowhere both_modes ! einval
    openat at_fdcwd nowhere temporary ! einval
    openat at_fdcwd nowhere half_of_sync ! einval
    openat at_fdcwd nowhere o_creat+o_directory ! einval
    openat at_fdcwd nowhere o_rdonly ! efault
    openat at_fdcwd at o_rdonly : room 4095 ! efault
    openat at_fdcwd at o_rdonly : room 4096 ! enametoolong
    openat at_fdcwd at o_rdonly : room 256 zeros 1 ! enametoolong
    openat at_fdcwd at o_rdonly : room 255 zeros 1 ! enoent
    openat at_fdcwd ' o_creat ! enoent
    openat 9 'a o_rdonly ! ebadf
    openat 3 'a o_rdonly ! enotdir
    openat 0 'a o_rdonly ! enotdir
    openat 9 '/a o_rdonly = 4
    openat at_fdcwd '/a/b o_rdonly ! enotdir
    openat at_fdcwd 'a/ o_rdonly ! enotdir
    openat at_fdcwd '/x/b o_creat ! enoent
    openat at_fdcwd '/x/ o_creat ! enoent
    openat at_fdcwd '/a o_directory ! enotdir
    openat at_fdcwd '/ o_directory = 5
    openat at_fdcwd '/ o_wronly ! eisdir
    openat at_fdcwd '/ o_creat ! eisdir
    openat at_fdcwd '/ o_trunc ! eisdir
    openat 5 'a o_wronly+o_append+o_largefile+o_nonblock+o_cloexec+o_noctty+o_sync = 6
    fcntl 6 f_getfd = 1
    fcntl 6 f_getfl = 0x109C01
    fcntl 5 f_getfd = 0
    read 6 at 1 : room 1 ! ebadf
    write 4 at 1 : room 1 ! ebadf
    write 6 <hello> 5 = 5
    read 3 at 8 : room 8 = 5 : <hello> room 3
    openat at_fdcwd '/a o_trunc+o_rdwr = 7
    lseek 7 0 2 = 0
";

/// A link to a file, one to a name that is not there, and one to itself; then a directory that is removed while it
/// is open.
const LINKS_AND_A_REMOVED_DIRECTORY: &str = "
    openat at_fdcwd '/a o_creat 0o600 = 3
    symlinkat '/a at_fdcwd '/l = 0
    openat at_fdcwd '/l o_nofollow ! eloop
    openat at_fdcwd '/l o_nofollow+o_directory ! enotdir
    openat at_fdcwd '/l o_rdonly = 4
    openat at_fdcwd '/l o_creat+o_excl ! eexist
    symlinkat 'n at_fdcwd '/m = 0
    openat at_fdcwd '/m o_rdonly ! enoent
    openat at_fdcwd '/m o_creat+o_excl ! eexist
    openat at_fdcwd '/m o_creat = 5
    openat at_fdcwd '/n o_rdonly = 6
    symlinkat 's at_fdcwd '/s = 0
    openat at_fdcwd '/s o_rdonly ! eloop
    mkdirat at_fdcwd '/d 0o700 = 0
    openat at_fdcwd '/d o_rdonly = 7
    unlinkat at_fdcwd '/d at_removedir = 0
    openat 7 'x o_creat 0o600 ! enoent
";

/// What was written to a file without a name is there until its last descriptor is closed.
const FILE_WITHOUT_A_NAME: &str = "
    openat at_fdcwd 'u o_creat+o_rdwr 0o600 = 3
    unlinkat at_fdcwd 'u = 0
    openat at_fdcwd 'u o_rdonly ! enoent
    write 3 <abc> 3 = 3
    openat at_fdcwd 'u o_creat+o_rdwr 0o600 = 4
    read 4 at 3 : room 3 = 0
    lseek 3 1 0 = 1
    read 3 at 3 : room 3 = 2 : <bc> room 1
    close 3 = 0
";

#[test]
fn files_and_paths(rt: HostRuntime) -> Result<(), Fail> {
    assert_eq!(rt; first_wrong_of_new(rt.alloc(), "", FILES_AND_PATHS)?, None);
    Ok(())
}

#[test]
fn links_and_a_removed_directory(rt: HostRuntime) -> Result<(), Fail> {
    assert_eq!(rt;
        first_wrong_of_new(rt.alloc(), "", LINKS_AND_A_REMOVED_DIRECTORY)?,
        None
    );
    Ok(())
}

#[test]
fn file_without_a_name(rt: HostRuntime) -> Result<(), Fail> {
    assert_eq!(rt;
        first_wrong_of_new(rt.alloc(), "", FILE_WITHOUT_A_NAME)?,
        None
    );
    Ok(())
}
