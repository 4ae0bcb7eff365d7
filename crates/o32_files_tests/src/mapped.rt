//! mmap2(2) of files: the mapping is a copy that is made at once (this project's own), with zeros past the file's end.
use session_scripts::calls::{first_wrong, first_wrong_saving};
use session_scripts::image::TREE;
use std::test::Fail;

/// The descriptor's position stays, and what is written to the file later, or to the mapping, is not seen in the other.
const FILES: &str = "
    open '/f 2 = 3
    read 3 room 2 = 2
    mmap2 0 4097 3 map_private 3 = 0x6FFFE000
    show 0x6FFFE000 7 : 68656c6c6f0000
    show 0x6FFFFFFE 2 : 0000
    lseek 3 0 1 = 2
    read 0 0x6FFFE000 1 = 1
    lseek 3 = 0
    read 3 room 1 = 1
    show room 1 : 68
    write 3 '/f 2 = 2
    show 0x6FFFE000 3 : 78656c
    mmap2 0 4096 1 map_private 3 1 = 0x6FFFD000
    show 0x6FFFD000 1 : 00
    read 0 0x6FFFD000 1 ! efault
    mmap2 0 4096 1 map_shared 3 ! enodev
    mmap2 0 0 1 map_private 3 ! einval
    mmap2 0 4096 1 map_private 9 ! ebadf
    open '/f 1 = 4
    mmap2 0 4096 1 map_private 4 ! eacces
    open '/d = 5
    mmap2 0 4096 1 map_private 5 ! enodev
    close 3 = 0
    munmap 0x6FFFE000 8192 = 0
";

/// A pipe can't be mapped, and neither can a stream.
const OTHERS: &str = "
    pipe 0 = 3
    mmap2 0 4096 1 map_private 3 ! enodev
    mmap2 0 4096 1 map_private ! enodev
";

#[test]
fn files(rt: HostRuntime) -> Result<(), Fail> {
    assert_eq!(rt; first_wrong(rt.alloc(), FILES, TREE)?, Some(0));
    Ok(())
}

#[test]
fn others(rt: HostRuntime) -> Result<(), Fail> {
    assert_eq!(rt;
        first_wrong_saving(rt.alloc(), &[], OTHERS, TREE, TREE)?,
        Some(0)
    );
    Ok(())
}
