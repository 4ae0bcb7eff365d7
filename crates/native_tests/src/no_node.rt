//! A file system of 65,536 nodes.

use crate::calls::first_wrong_of_new;
use std::test::Fail;

/// Three nodes beside the root are `f`, which is open, the directory `d`, and `l`, a link to what is not there; the others are
/// links.
const NO_NODE: &str = "
    openat at_fdcwd 'f o_creat 0o600 = 3
    mkdirat at_fdcwd 'd 0o700 = 0
    symlinkat 'gone at_fdcwd 'l = 0
    names 65536 symlinkat at at_fdcwd at+2 = 65532
    openat at_fdcwd 'n o_creat 0o600 ! enospc
    openat at_fdcwd 'l o_creat 0o600 ! enospc
    mkdirat at_fdcwd 'n 0o700 ! enospc
    mkdirat at_fdcwd 'd/n 0o700 ! enospc
    symlinkat 'f at_fdcwd 'n ! enospc
    # What else is wrong is told first.
    openat at_fdcwd 'f o_creat+o_excl ! eexist
    mkdirat at_fdcwd 'f 0o700 ! eexist
    mkdirat at_fdcwd 'n/n 0o700 ! enoent
    symlinkat 'f at_fdcwd 'd ! eexist
    symlinkat ' at_fdcwd 'n ! enoent
    # These take no node, and what was refused has kept no descriptor.
    openat at_fdcwd 'f o_creat 0o600 = 4
    pipe2 at : <--------> = 0 : int 5 6
    linkat at_fdcwd 'f at_fdcwd 'n = 0
    renameat at_fdcwd 'n at_fdcwd 'd/n = 0
    # A file without a name keeps its node until its last descriptor is closed.
    unlinkat at_fdcwd 'f = 0
    unlinkat at_fdcwd 'd/n = 0
    close 4 = 0
    mkdirat at_fdcwd 'n 0o700 ! enospc
    close 3 = 0
    mkdirat at_fdcwd 'n 0o700 = 0
    mkdirat at_fdcwd 'm 0o700 ! enospc
    # A directory keeps it as long as it is the working directory.
    chdir 'd = 0
    unlinkat at_fdcwd '/d at_removedir = 0
    symlinkat 'f at_fdcwd '/m ! enospc
    mkdirat at_fdcwd 'm 0o700 ! enoent
    chdir '/ = 0
    symlinkat 'f at_fdcwd 'm = 0
    symlinkat 'f at_fdcwd 'k ! enospc
    # What goes gives its node back at once where nothing holds it.
    unlinkat at_fdcwd 'n at_removedir = 0
    openat at_fdcwd 'k o_creat 0o600 = 3
    openat at_fdcwd 'n o_creat 0o600 ! enospc
    unlinkat at_fdcwd 'aaaa = 0
    mkdirat at_fdcwd 'n 0o700 = 0
    mkdirat at_fdcwd 'aaaa 0o700 ! enospc
    renameat at_fdcwd 'baaa at_fdcwd 'caaa = 0
    openat at_fdcwd 'l o_creat 0o600 = 4
    openat at_fdcwd 'aaaa o_creat 0o600 ! enospc
";

#[test]
fn no_node_is_left(rt: HostRuntime) -> Result<(), Fail> {
    assert_eq!(rt; first_wrong_of_new(rt.alloc(), "", NO_NODE)?, None);
    Ok(())
}
