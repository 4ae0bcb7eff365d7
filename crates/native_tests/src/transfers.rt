//! The calls that move bytes: read, write, readv, writev, pread64 and pwrite64, at streams and pipes.

use crate::calls::{first_wrong_of_new, first_wrong_of_streams};
use std::test::Fail;

/// Standard output and error, and an input of three bytes; a pipe that waits, without a reader, one that does
/// not wait, and without a writer.
const TRANSFERS: &str = "
    write 1 at 3 : <Hi> byte 10 = 3
    write 2 <?> 1 = 1
    no_call ! enosys
    more_than_read 0 at 1 : room 1 ! enosys
    pipe2 at : room 8 = 0 : int 3 4
    read 3 at 5 : room 5 waits 0
    write 1 nowhere 1 : room 1 ! efault
    write 1 at+1 1 : room 1 ! efault
    write 0 at 1 : room 1 ! ebadf
    write 4 <abc> 4 = 3
    read 3 at+1 8 : room 6 = 3 : room 1 <abc> room 2
    read 0 at 8 : room 4 = 3 : <xy> byte 10 room 1
    read 0 at 8 : room 4 = 0
    read 0 nowhere 0 = 0
    read 0 at+1 1 : room 1 ! efault
    read 1 at 1 : room 1 ! ebadf
    pread64 3 at 1 0 : room 1 ! espipe
    pread64 3 at 1 -1 : room 1 ! einval
    pread64 9 at 1 0 : room 1 ! ebadf
    pwrite64 4 at 1 0 : room 1 ! espipe
    pwrite64 4 at 1 -1 : room 1 ! einval
    pwrite64 9 at 1 0 : room 1 ! ebadf
    close 3 = 0
    write 4 at 1 : room 1 ! epipe
    writev 4 at 1 : long at+16 1 room 1 ! epipe
    pipe2 at o_nonblock : room 8 = 0 : int 3 5
    read 3 at 1 : room 1 ! eagain
    readv 3 at 1 : long at+16 1 room 1 ! eagain
    close 5 = 0
    read 3 at 1 : room 1 = 0
    read 3 at+1 1 : room 1 ! efault
    read 0x100000000 at+1 0 : room 1 = 0
    write 1 at+1 0 : room 1 = 0
    write 9 nowhere 0 : room 1 ! ebadf
    output <Hi> byte 10
    errors <?>
";

/// A vector has 16 bytes a buffer: the address, and the length. Too many, unreadable ones, too long ones; bytes
/// of two buffers, which are read into two others; buffers that are not there, or of no length.
const VECTORS: &str = "
    pipe2 at : room 8 = 0 : int 3 4
    readv 3 at 1025 : room 1 ! einval
    writev 4 at 1025 : room 1 ! einval
    readv 9 at 1025 : room 1 ! ebadf
    writev 3 at 1025 : room 1 ! ebadf
    readv 3 at 1 : room 15 ! efault
    writev 4 at 1 : room 15 ! efault
    writev 4 at 2 : long at 0x7fffffffffffffff at 1 ! einval
    readv 3 at 2 : long at 0x7fffffffffffffff at 1 ! einval
    writev 4 nowhere 0 = 0
    writev 4 at 2 : long at+32 2 at+34 3 <abcde> = 5
    readv 3 at 2 : long at+37 1 at+32 3 room 6 = 4 : long at+37 1 at+32 3 <bcd> room 2 <a>
    read 3 at 2 : room 2 = 1 : <e> room 1
    writev 4 at 1 : long nowhere 1 ! efault
    readv 3 at 1 : long nowhere 1 ! efault
    writev 4 at 2 : long nowhere 0 at+32 1 <q> = 1
    read 3 at 1 : room 1 = 1 : <q>
    readv 3 at 1 : long at+16 1 room 1 waits 0
";

/// A pipe has room for 65,536 bytes. A write of at most 4096 goes whole or waits, and one of more goes as far as
/// there is room.
const FULL_PIPE: &str = "
    pipe2 at : room 8 = 0 : int 3 4
    write 4 at 70000 : room 70000 waits 65536
    write 4 at 1 : room 1 waits 0
    writev 4 at 1 : long at+16 1 room 1 waits 0
    read 3 at 4095 : room 4095 = 4095
    write 4 at 4096 : room 4096 waits 0
    write 4 at 4095 : room 4095 = 4095
    fcntl 4 f_setfl o_nonblock = 0
    write 4 at 1 : room 1 ! eagain
    writev 4 at 1 : long at+16 1 room 1 ! eagain
    write 4 at 4097 : room 4097 ! eagain
    read 3 at 100 : room 100 = 100
    write 4 at 4096 : room 4096 ! eagain
    write 4 at 4097 : room 4097 = 100
    read 3 at 70000 : room 70000 = 65536
";

#[test]
fn transfers(rt: HostRuntime) -> Result<(), Fail> {
    assert_eq!(rt;
        first_wrong_of_streams(rt.alloc(), "xy\n", &[], TRANSFERS)?,
        None
    );
    Ok(())
}

#[test]
fn vectors(rt: HostRuntime) -> Result<(), Fail> {
    assert_eq!(rt; first_wrong_of_new(rt.alloc(), "", VECTORS)?, None);
    Ok(())
}

#[test]
fn full_pipe(rt: HostRuntime) -> Result<(), Fail> {
    assert_eq!(rt; first_wrong_of_new(rt.alloc(), "", FULL_PIPE)?, None);
    Ok(())
}
