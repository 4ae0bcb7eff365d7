//! Transfers of which a part can be made, and what stands behind a call that could not tell what it made.
use session_scripts::calls::{first_wrong, first_wrong_saving};
use std::test::Fail;

/// A file of eight bytes in the root.
const EIGHT_BYTES: &str = "2
    1 directory 0o755 1 1 3 f 2
    2 file 0o644 1 8 abcdefgh
";

/// pipe2(2), 4328, whose pair can't be written, whole or at its end, keeps no descriptor: the next one is 3.
const PAIRS: &str = "
    4328 end 0 ! efault
    open '/f = 3
    4328 end - 4 0 ! efault
    4328 0x400000 - 4 0 ! efault
    open '/f = 4
    4328 room 0 = 0
    show room 8 : 0000000500000006
";

/// A read into a buffer of which the first three bytes alone can be written: in front of a page that is not there, and in front of one
/// that loses its write by mprotect(2), 4125. The place in the file is behind what was read.
const READS: &str = "
    open '/f = 3
    read 3 end - 3 8 = 3
    lseek 3 0 1 = 3
    show end - 3 3 : 616263
    4125 no_nul 0x1000 1 = 0
    read 3 no_nul - 3 8 = 3
    lseek 3 0 1 = 6
    show no_nul - 3 4 : 64656679
    read 3 end 8 ! efault
    read 3 no_nul 8 ! efault
    pread64 3 no_nul - 2 8 0 0 5 = 2
    lseek 3 0 1 = 6
    show no_nul - 3 4 : 64666779
    read 3 room 8 = 2
    read 3 room 8 = 0
";

/// A write from a buffer whose first three bytes alone can be read, and from a page without write.
const WRITES: &str = "
    open '/f 2 = 3
    write 3 end - 3 8 = 3
    lseek 3 0 1 = 3
    write 3 end 1 ! efault
    4125 no_nul 0x1000 1 = 0
    write 3 no_nul 1 = 1
    pwrite64 3 end - 1 8 0 0 6 = 1
    pread64 3 room 9 0 0 0 = 8
    show room 9 : 797979796566796800
";

/// The file behind these writes.
const WRITTEN: &str = "2
    1 directory 0o755 1 1 3 f 2
    2 file 0o644 0 8 yyyyefyh
";

#[test]
fn pairs(rt: HostRuntime) -> Result<(), Fail> {
    assert_eq!(rt; first_wrong(rt.alloc(), PAIRS, EIGHT_BYTES)?, Some(0));
    Ok(())
}

#[test]
fn reads(rt: HostRuntime) -> Result<(), Fail> {
    let wrong = first_wrong_saving(rt.alloc(), &[], READS, EIGHT_BYTES, EIGHT_BYTES)?;
    assert_eq!(rt; wrong, Some(0));
    Ok(())
}

#[test]
fn writes(rt: HostRuntime) -> Result<(), Fail> {
    let wrong = first_wrong_saving(rt.alloc(), &[], WRITES, EIGHT_BYTES, WRITTEN)?;
    assert_eq!(rt; wrong, Some(0));
    Ok(())
}
