//! A directory that has given out its last cookie, 2^31 - 1.

use crate::calls::first_wrong_of_image;
use std::test::Fail;

/// The image of a root with the empty file `f` of node 2 at the cookie 2^31 - 3 and the empty directory `d` of node 3
/// at the next one.
const TREE: &[u8] = b"O32IMG1\n\0\0\0\x03\
    \0\0\0\0\0\0\0\x01\x02\x01\xED\0\0\0\0\0\0\0\0\0\0\0\x02\
    \x7F\xFF\xFF\xFD\x01f\0\0\0\0\0\0\0\x02\
    \x7F\xFF\xFF\xFE\x01d\0\0\0\0\0\0\0\x03\
    \0\0\0\0\0\0\0\x02\x01\x01\xA4\0\0\0\0\0\0\0\0\0\0\0\0\0\0\0\0\0\0\0\0\
    \0\0\0\0\0\0\0\x03\x02\x01\xED\0\0\0\0\0\0\0\0\0\0\0\0";

/// The last cookie is given out, and is that of the new entry. Then none is given again, and another directory has its own.
const NO_COOKIE: &str = "
    mkdirat at_fdcwd 'e 0o700 = 0
    openat at_fdcwd '/ = 3
    getdents64 3 at 120 : room 120 = 120 : \
        long 1 1 short 24 byte 4 '. zeros 3 long 1 2 short 24 byte 4 '.. zeros 2 \
        long 2 0x7FFFFFFD short 24 byte 8 'f zeros 3 long 3 0x7FFFFFFE short 24 byte 4 'd zeros 3 \
        long 4 0x7FFFFFFF short 24 byte 4 'e zeros 3
    getdents64 3 at = 0
    openat at_fdcwd 'n o_creat 0o600 ! enospc
    mkdirat at_fdcwd 'n 0o700 ! enospc
    symlinkat 'f at_fdcwd 'n ! enospc
    linkat at_fdcwd 'f at_fdcwd 'n ! enospc
    renameat at_fdcwd 'f at_fdcwd 'n ! enospc
    renameat at_fdcwd 'd at_fdcwd 'e ! enospc
    mkdirat at_fdcwd 'e 0o700 ! eexist
    renameat at_fdcwd 'f at_fdcwd 'f = 0
    renameat at_fdcwd 'f at_fdcwd 'd/f = 0
    renameat at_fdcwd 'd/f at_fdcwd 'f ! enospc
    linkat at_fdcwd 'd/f at_fdcwd 'f ! enospc
    unlinkat at_fdcwd 'e at_removedir = 0
    mkdirat at_fdcwd 'e 0o700 ! enospc
    symlinkat 'f at_fdcwd 'd/n = 0
    openat at_fdcwd 'd/m o_creat 0o600 = 4
";

#[test]
fn no_cookie_is_left(rt: HostRuntime) -> Result<(), Fail> {
    assert_eq!(rt; first_wrong_of_image(rt.alloc(), TREE, NO_COOKIE)?, None);
    Ok(())
}
