//! Calls on mappings and the break, each with what it gives (mmap(2), mremap(2), munmap(2), mprotect(2), msync(2),
//! madvise(2), brk(2)). Where a mapping goes that names no place, and how many pages there can be, is this
//! project's own.

use crate::guest::first_wrong;
use std::test::Fail;

/// A length is rounded up to pages, and so is a hint. The greatest free place below 0x7000_0000 is taken where there
/// is no hint, or none that is free between 0x1_0000 and 0x7F7F_0000.
const PLACES: &str = "
    mmap2 0 4096 3 map_private + map_anonymous = 0x6FFFF000
    mmap2 0 1 3 map_private + map_anonymous = 0x6FFFE000
    mmap2 0 8193 3 map_private + map_anonymous = 0x6FFFB000
    munmap 0x6FFFE000 1 = 0
    mmap2 0 4096 3 map_private + map_anonymous = 0x6FFFE000
    mmap2 0x20000001 4096 3 map_private + map_anonymous = 0x20001000
    mmap2 0x20001000 4096 3 map_private + map_anonymous = 0x6FFFA000
    mmap2 0x7F7F0000 4096 3 map_private + map_anonymous = 0x6FFF9000
    mmap2 0x7F7EF000 4096 3 map_private + map_anonymous = 0x7F7EF000
    mmap2 0xF000 4096 3 map_private + map_anonymous = 0x6FFF8000
    mmap2 0x10000 4096 3 map_private + map_anonymous = 0x10000
    mmap2 0x30000000 4096 3 map_private + map_anonymous + map_fixed = 0x30000000
    mmap 0x21000000 4096 3 map_private + map_anonymous 0 4096 = 0x21000000
    mmap2 0 0 3 map_private + map_anonymous ! einval
    mmap2 0 4096 3 0x800 ! einval
    mmap2 0 4096 3 0x803 ! einval
    mmap2 0x30000001 4096 3 map_private + map_anonymous + map_fixed ! einval
    mmap 0 4096 3 map_private + map_anonymous 0 1 ! einval
    mmap2 0 4096 3 map_private + map_anonymous + map_fixed ! eperm
    mmap2 0x7FFF8000 4096 3 map_private + map_anonymous + map_fixed ! enomem
    mmap2 0 0x70000000 3 map_private + map_anonymous ! enomem
    mmap2 0 0x20000000 3 map_private + map_anonymous ! enomem
    mmap2 0 4096 1 map_private 9 0 ! ebadf
    mmap2 0 4096 1 map_private 1 0 ! eacces
    mmap2 0 4096 1 map_private 0 0 ! enodev
";

/// A page that can be read alone takes nothing that is read, and one without leave gives nothing to write. Up to
/// the first absent page protections change.
const RANGES: &str = "
    mmap2 0x30000000 4096 3 map_private + map_anonymous + map_fixed = 0x30000000
    read 0 0x30000000 1 = 1
    write 1 0x30000000 2 = 2
    mprotect 0x30000000 4096 1 = 0
    read 0 0x30000000 1 ! efault
    mprotect 0x30000000 4096 0 = 0
    write 1 0x30000000 1 ! efault
    mprotect 0x30000000 8192 3 ! enomem
    read 0 0x30000000 1 = 1
    mprotect 0x30000001 4096 3 ! einval
    msync 0x30000000 4096 4 = 0
    msync 0x30000000 4096 8 ! einval
    msync 0x30000000 4096 5 ! einval
    msync 0x30000001 1 4 ! einval
    msync 0x30000000 8192 4 ! enomem
    madvise 0x30000000 4096 3 = 0
    madvise 0x30000000 4096 4 ! einval
    madvise 0x30000001 1 0 ! einval
    munmap 0x30000001 1 ! einval
    munmap 0x30000000 0 ! einval
    munmap 0x7FFF8000 4096 ! einval
    munmap 0x10000000 4096 = 0
    munmap 0x30000000 4096 = 0
    read 0 0x30000000 1 ! efault
";

/// A mapping grows where it stands, shrinks, and moves only where it may, with its bytes.
const SIZES: &str = "
    mmap2 0x30000000 4096 3 map_private + map_anonymous + map_fixed = 0x30000000
    read 0 0x30000000 1 = 1
    mremap 0x30000000 4096 12288 0 = 0x30000000
    read 0 0x30002FFF 1 = 1
    mremap 0x30000000 12288 4096 0 = 0x30000000
    read 0 0x30001000 1 ! efault
    mmap2 0x30001000 4096 3 map_private + map_anonymous + map_fixed = 0x30001000
    mremap 0x30000000 4096 8192 0 ! enomem
    mremap 0x30000000 4096 8192 1 = 0x6FFFE000
    write 1 0x6FFFE000 1 = 1
    write 1 0x30000000 1 ! efault
    mremap 0x30001001 4096 8192 1 ! einval
    mremap 0x30001000 0 8192 1 ! einval
    mremap 0x30001000 4096 0 1 ! einval
    mremap 0x30001000 4096 8192 2 ! einval
    mremap 0x10000000 4096 8192 1 ! efault
    mremap 0x6FFFE000 8192 0x20000000 1 ! enomem
";

/// The break begins at 0x41_1000. It stays where the wish lies below that or above 0x7000_0000, where a page is
/// mapped already, and where more than 131,072 pages would be mapped.
const BREAKS: &str = "
    brk 0 = 0x411000
    brk 0x412345 = 0x412345
    brk 0 = 0x412345
    read 0 0x412FFF 1 = 1
    read 0 0x413000 1 ! efault
    brk 0x410FFF = 0x412345
    brk 0x70000001 = 0x412345
    brk 0x20411000 = 0x412345
    mmap2 0x414000 4096 3 map_private + map_anonymous + map_fixed = 0x414000
    brk 0x415000 = 0x412345
    brk 0x411000 = 0x411000
    read 0 0x411000 1 ! efault
";

#[test]
fn places(rt: HostRuntime) -> Result<(), Fail> {
    assert_eq!(rt; first_wrong(rt.alloc(), PLACES, b"")?, Some(0));
    Ok(())
}

#[test]
fn ranges(rt: HostRuntime) -> Result<(), Fail> {
    assert_eq!(rt; first_wrong(rt.alloc(), RANGES, b"a\0")?, Some(0));
    Ok(())
}

#[test]
fn sizes(rt: HostRuntime) -> Result<(), Fail> {
    assert_eq!(rt; first_wrong(rt.alloc(), SIZES, b"a")?, Some(0));
    Ok(())
}

#[test]
fn breaks(rt: HostRuntime) -> Result<(), Fail> {
    assert_eq!(rt; first_wrong(rt.alloc(), BREAKS, b"")?, Some(0));
    Ok(())
}
