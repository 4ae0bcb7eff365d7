//! A file system of 65,536 blocks of 4096 bytes.

use crate::calls::first_wrong_of_new;
use std::test::Fail;

/// The files `f` and `g`, both open for reading and writing, and `g` for writing at its end.
const NO_BLOCK: &str = "
    openat at_fdcwd 'f o_creat+o_rdwr 0o600 = 3
    openat at_fdcwd 'g o_creat+o_rdwr 0o600 = 4
    openat at_fdcwd 'g o_append+o_wronly = 5
    blocks 65534 pwrite64 3 = 65534
    # Two blocks are left. A write takes as many bytes as have blocks, and is refused where the first has none.
    pwrite64 4 at 9000 100 : room 9000 = 8092
    lseek 4 0 seek_end = 8192
    pread64 4 at 8 96 : <--------> = 8 : zeros 4 room 4
    pread64 4 at 8 8188 : <--------> = 4 : room 4 <---->
    pwrite64 4 at 1 8192 : room 1 ! enospc
    pwrite64 4 at 9000 8192 : room 9000 ! enospc
    pwrite64 4 at 0 8192 : room 1 = 0
    pwrite64 4 nowhere 1 8192 : room 1 ! efault
    pwrite64 4 at 1 0x100000000000 : room 1 ! efbig
    pwrite64 4 <abcde> 5 8190 = 2
    pread64 4 at 8 8188 : <--------> = 4 : room 2 <ab---->
    # The position moves by what was written.
    lseek 4 8189 seek_set = 8189
    write 4 <fghij> 5 = 3
    write 4 <klmno> 5 ! enospc
    write 4 <p> = 0
    write 4 nowhere 5 : <p> ! efault
    lseek 4 0 seek_cur = 8192
    pread64 4 at 8 8188 : <--------> = 4 : room 1 <fgh---->
    # Two pieces of three bytes, of which the second begins in a block that is there; then none does.
    lseek 4 8188 seek_set = 8188
    writev 4 at 2 : long at+32 3 at+35 3 <uvwxyz> = 4
    writev 4 at 2 : long at+32 0 at+35 3 <uvwxyz> ! enospc
    lseek 4 0 seek_cur = 8192
    pread64 4 at 8 8188 : <--------> = 4 : <uvwx---->
    # At the end of a file whose last block is full.
    write 5 <q> 1 ! enospc
    pwrite64 5 <q> 1 ! enospc
    # In blocks that are there.
    pwrite64 4 <rstu> 4 4094 = 4
    pread64 4 at 8 4092 : <--------> = 8 : room 2 <rstu> room 2
    lseek 4 0 seek_end = 8192
    # No block is left. A size, a directory and a link take none; a size that falls gives blocks back, and a file gives its own
    # back once it has neither a name nor a descriptor.
    ftruncate 4 16384 = 0
    pwrite64 4 <q> 1 12288 ! enospc
    pwrite64 4 at 5000 8000 : room 5000 = 192
    pread64 4 at 8 8188 : <--------> = 8 : room 4 zeros 4
    truncate 'g 20000 = 0
    lseek 4 0 seek_end = 20000
    write 5 <q> 1 ! enospc
    mkdirat at_fdcwd 'd 0o700 = 0
    symlinkat 'g at_fdcwd 'l = 0
    openat at_fdcwd 'h o_creat+o_rdwr 0o600 = 6
    write 6 <q> 1 ! enospc
    lseek 6 0 seek_end = 0
    ftruncate 4 4097 = 0
    write 6 <q> 1 ! enospc
    ftruncate 4 4096 = 0
    write 6 at 9000 : room 9000 = 4096
    write 6 at 9000 : room 9000 ! enospc
    unlinkat at_fdcwd 'f = 0
    write 6 at 9000 : room 9000 ! enospc
    pwrite64 3 <q> 1 4095 = 1
    close 3 = 0
    write 6 at 9000 : room 9000 = 9000
    lseek 6 0 seek_end = 13096
";

#[test]
fn no_block_is_left(rt: HostRuntime) -> Result<(), Fail> {
    assert_eq!(rt; first_wrong_of_new(rt.alloc(), "", NO_BLOCK)?, None);
    Ok(())
}
