//! getdents(2) and getdents64(2).
use session_scripts::calls::first_wrong;
use session_scripts::image::TREE;
use std::test::Fail;

/// Entries are given while they fit, and the next call goes on behind the last one. A record of getdents(2) has 12 bytes and its name,
/// rounded up to four.
const NARROW: &str = "
    open '/d = 3
    getdents 3 room 15 ! einval
    getdents 3 end - 31 39 ! efault
    lseek 3 0 1 = 0
    getdents 3 room 39 = 32
    show room 32 : 000000020000000100102e0000000004000000010000000200102e2e00000004
    lseek 3 0 1 = 2
    getdents 3 room 39 = 32
    show room 32 : 0000000700000003001061000000000800000008000000040010626200000008
    getdents 3 room 39 = 0
    getdents 3 room = 0
    lseek 3 3 = 3
    getdents 3 end - 16 16 = 16
";

/// getdents(2) stops before a node number of more than 32 bits, and gives EOVERFLOW where that is the first.
const WIDE_NUMBERS: &str = "
    open '/ = 3
    getdents 3 room 4096 = 112
    lseek 3 0 1 = 7
    getdents 3 room 4096 ! eoverflow
    lseek 3 0 1 = 7
    getdents64 3 room 4096 = 24
    show room 24 : 000000010000000100000000000000080018087769646500
";

/// A record of getdents64(2) has 20 bytes and its name, rounded up to eight.
const WIDE_RECORDS: &str = "
    open '/d = 3
    getdents64 3 room 23 ! einval
    getdents64 3 end - 47 60 ! efault
    lseek 3 0 1 = 0
    getdents64 3 room 71 = 48
    show room 48 : 000000000000000200000000000000010018042e00000000000000000000000100000000000000020018042e2e000000
    getdents64 3 room 48 = 48
    show room 48 : 000000000000000700000000000000030018086100000000000000000000000800000000000000040018086262000000
    getdents64 3 room 48 = 0
    open '/ = 4
    getdents64 4 room 4096 = 192
    getdents64 4 room 4096 = 0
";

/// What is no directory, and one that was removed. An entry that goes is not given, and none is given twice.
const REMOVED: &str = "
    getdents 9 room 99 ! ebadf
    getdents64 9 room 99 ! ebadf
    getdents 0 room 99 ! enotdir
    open '/f = 3
    getdents64 3 room 99 ! enotdir
    mkdir '/n 0o755 = 0
    open '/n = 4
    rmdir '/n = 0
    getdents 4 room 99 ! enoent
    getdents64 4 room 99 ! enoent
    open '/d = 5
    getdents 5 room 32 = 32
    unlink '/d/a = 0
    getdents 5 room 99 = 16
    show room + 10 2 : 6262
";

#[test]
fn narrow(rt: HostRuntime) -> Result<(), Fail> {
    assert_eq!(rt; first_wrong(rt.alloc(), NARROW, TREE)?, Some(0));
    Ok(())
}

#[test]
fn wide_numbers(rt: HostRuntime) -> Result<(), Fail> {
    assert_eq!(rt; first_wrong(rt.alloc(), WIDE_NUMBERS, TREE)?, Some(0));
    Ok(())
}

#[test]
fn wide_records(rt: HostRuntime) -> Result<(), Fail> {
    assert_eq!(rt; first_wrong(rt.alloc(), WIDE_RECORDS, TREE)?, Some(0));
    Ok(())
}

#[test]
fn removed(rt: HostRuntime) -> Result<(), Fail> {
    assert_eq!(rt; first_wrong(rt.alloc(), REMOVED, TREE)?, Some(0));
    Ok(())
}
