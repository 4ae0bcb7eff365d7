//! getcwd.

use crate::calls::first_wrong_of_new;
use std::test::Fail;

/// The path of the working directory, whose NUL counts: of the root; of `/d/e`, also where another name is given to
/// `/d`; and of a directory that is removed.
const PATHS: &str = "
    mkdirat at_fdcwd '/d 0o777 = 0
    mkdirat at_fdcwd '/d/e 0o777 = 0
    getcwd at 2 : room 3 = 2 : '/ room 1
    getcwd at 1 : room 2 ! erange
    getcwd at 0 : room 2 ! erange
    getcwd at 2 : room 1 ! efault
    getcwd nowhere 2 ! efault
    chdir 'd/e = 0
    getcwd at 8 : room 8 = 5 : '/d/e room 3
    getcwd at 5 : room 5 = 5 : '/d/e
    getcwd at 4 : room 8 ! erange
    renameat at_fdcwd '/d at_fdcwd '/long = 0
    getcwd at 8 : room 8 = 8 : '/long/e
    unlinkat at_fdcwd '/long/e at_removedir = 0
    getcwd at 8 : room 8 ! enoent
    chdir '/long = 0
    getcwd at 6 : room 6 = 6 : '/long
";

#[test]
fn working_directory(rt: HostRuntime) -> Result<(), Fail> {
    assert_eq!(rt; first_wrong_of_new(rt.alloc(), "", PATHS)?, None);
    Ok(())
}
