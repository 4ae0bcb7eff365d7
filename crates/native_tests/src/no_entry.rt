//! A file system of 131,072 entries, in all of its directories.

use crate::calls::first_wrong_of_new;
use std::test::Fail;

/// Four entries are `f`, which is open, two directories, and a link; the others are further names of `f`.
const NO_ENTRY: &str = "
    openat at_fdcwd 'f o_creat 0o600 = 3
    mkdirat at_fdcwd 'd 0o700 = 0
    mkdirat at_fdcwd 'e 0o700 = 0
    symlinkat 'f at_fdcwd 'l = 0
    names 131072 linkat at_fdcwd at at_fdcwd at+2 = 131068
    openat at_fdcwd 'n o_creat 0o600 ! enospc
    mkdirat at_fdcwd 'n 0o700 ! enospc
    mkdirat at_fdcwd 'd/n 0o700 ! enospc
    symlinkat 'f at_fdcwd 'n ! enospc
    linkat at_fdcwd 'f at_fdcwd 'n ! enospc
    # What else is wrong is told first.
    linkat at_fdcwd 'd at_fdcwd 'n ! eperm
    linkat at_fdcwd 'f at_fdcwd 'aaaa ! eexist
    linkat at_fdcwd 'n at_fdcwd 'm ! enoent
    # A file that is there needs no entry, and what was refused has kept no descriptor.
    openat at_fdcwd 'l o_creat 0o600 = 4
    # A name that becomes another one takes none, and gives none back.
    renameat at_fdcwd 'aaaa at_fdcwd 'd/n = 0
    linkat at_fdcwd 'f at_fdcwd 'aaaa ! enospc
    # A name that goes gives one back, also where its file stays.
    unlinkat at_fdcwd 'baaa = 0
    linkat at_fdcwd 'f at_fdcwd 'd/m = 0
    linkat at_fdcwd 'f at_fdcwd 'baaa ! enospc
    unlinkat at_fdcwd 'e at_removedir = 0
    symlinkat 'f at_fdcwd 'e = 0
    symlinkat 'f at_fdcwd 'n ! enospc
    renameat at_fdcwd 'l at_fdcwd 'caaa = 0
    mkdirat at_fdcwd 'n 0o700 = 0
    mkdirat at_fdcwd 'm 0o700 ! enospc
    # Two names of one file stay both.
    renameat at_fdcwd 'f at_fdcwd 'daaa = 0
    openat at_fdcwd 'm o_creat 0o600 ! enospc
    unlinkat at_fdcwd 'daaa = 0
    openat at_fdcwd 'm o_creat 0o600 = 5
    openat at_fdcwd 'k o_creat 0o600 ! enospc
";

#[test]
fn no_entry_is_left(rt: HostRuntime) -> Result<(), Fail> {
    assert_eq!(rt; first_wrong_of_new(rt.alloc(), "", NO_ENTRY)?, None);
    Ok(())
}
