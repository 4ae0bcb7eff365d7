//! open(2), openat(2), creat(2), and places in files: lseek(2), _llseek(2).
use session_scripts::calls::{first_wrong, first_wrong_saving};
use session_scripts::guest::TAKE_ALL_DESCRIPTORS;
use session_scripts::image::TREE;
use std::test::Fail;

/// A new descriptor is the least that is free. EINVAL comes for the access mode 3, a flag that is none, and O_CREAT with O_DIRECTORY,
/// before what is wrong with the path.
const OPENED: &str = "
    open '/f = 3
    open '/l o_rdwr = 4
    close 3 = 0
    open '/d = 3
    openat 3 'a = 5
    openat at_fdcwd 'f = 6
    openat 99 '/f = 7
    openat 99 'f ! ebadf
    openat 4 'f ! enotdir
    read 4 room 9 = 5
    show room 5 : 68656c6c6f
    open end 3 ! einval
    open end 0x20 ! einval
    open end o_creat + o_directory ! einval
    open end ! efault
    open ' ! enoent
";

/// Paths that lead nowhere. A path has at most 4095 bytes before its NUL; one that ends at a page that is not there is no path.
const NOT_FOUND: &str = "
    open '/none ! enoent
    open '/none/x o_creat + o_wronly 0o644 ! enoent
    open '/f/x ! enotdir
    open '/f/ ! enotdir
    open '/o ! eloop
    open '/l o_nofollow ! eloop
    open '/l o_directory ! enotdir
    open '/l o_nofollow + o_directory ! enotdir
    open long ! enametoolong
    open no_nul ! enametoolong
    open no_nul + 1 ! efault
";

/// What kind of node may be opened how, and what a refusal leaves: nothing is cut off and nothing made.
const KINDS: &str = "
    open '/d o_wronly ! eisdir
    open '/d o_trunc ! eisdir
    open '/d o_creat 0o644 ! eisdir
    open '/f o_creat + o_excl + o_trunc + o_wronly 0o644 ! eexist
    open '/l o_creat + o_excl 0o644 ! eexist
    open '/f o_directory + o_trunc + o_rdwr ! enotdir
    open '/big ! eoverflow
    open '/big o_trunc + o_rdwr ! eoverflow
    open '/big o_creat + o_trunc + o_rdwr 0o644 ! eoverflow
    open '/big o_creat + o_excl + o_wronly 0o644 ! eexist
    open '/big o_directory ! enotdir
    creat '/big 0o644 ! eoverflow
    creat '/d 0o644 ! eisdir
    open '/big o_largefile = 3
";

/// A file is made with the mode's bits that the umask leaves, 022 at first. O_TRUNC cuts a file off, also a large one with O_LARGEFILE.
const MADE: &str = "
    open '/n o_creat + o_wronly 0o4666 = 3
    fstat 3 room = 0
    show room + 20 4 : 000089a4
    write 3 '/f 2 = 2
    open '/big o_largefile + o_trunc + o_rdwr = 4
    fstat64 4 room = 0
    show room + 56 8 : 0000000000000000
    umask 0o77 = 0o22
    creat '/m 0o7777 = 5
    read 5 room 1 ! ebadf
    creat '/d/a 0o7777 = 6
    unlink '/m = 0
    write 5 '/f 2 = 2
    umask 0xFFFFFFFF = 0o77
";

/// What is left of the tree then: what changed is of the beginning of time, since the clock begins there.
const MADE_TREE: &str = "10
    1 directory 0o755 0 7 3 d 2 4 f 3 5 l 4 6 o 5 7 big 6 8 wide 0x100000001 9 n 9
    2 directory 0o755 1 2 3 a 7 4 bb 8
    3 file 0o644 1 5 hello
    4 link 0o777 1 f
    5 link 0o777 1 o
    6 file 0o644 0 0 -
    7 file 0o600 0 0 -
    8 file 0o600 1 0 -
    9 file 0o4644 0 2 /f
    0x100000001 file 0o644 1 0 -
";

/// Where no descriptor is free, EMFILE comes before the path is walked, and for a large file too; nothing is made.
const NO_DESCRIPTOR: &str = "
    open '/f ! emfile
    open '/none ! emfile
    open '/big ! emfile
    creat '/n 0o644 ! emfile
    openat at_fdcwd '/f ! emfile
    open end ! efault
    open '/f 3 ! einval
";

/// Origins are 0 for the beginning, 1 for the place and 2 for the end (lseek(2)).
const PLACES: &str = "
    open '/f o_rdwr = 3
    lseek 3 2 = 2
    lseek 3 1 1 = 3
    lseek 3 0xFFFFFFFF 2 = 4
    lseek 3 0xFFFFFFFA 2 ! einval
    lseek 3 0 3 ! einval
    read 3 room 9 = 1
    show room 1 : 6f
    lseek 9 ! ebadf
    lseek 1 ! espipe
    pipe 0 = 4
    lseek 4 ! espipe
    open '/d = 6
    lseek 6 0 2 ! einval
    lseek 6 3 = 3
    llseek 3 0x1000 0 room = 0
    show room 8 : 0000100000000000
    llseek 3 0x1000 1 room ! einval
    llseek 3 0xFFFFFFFF 0xFFFFFFFF room ! einval
    llseek 3 0 2 end - 7 ! efault
    llseek 1 0 0 room ! espipe
";

/// A large file: the place is past what the result of lseek(2) holds, and the position has moved. A descriptor without O_LARGEFILE writes
/// up to 2^31 - 1 alone.
const LARGE_PLACES: &str = "
    open '/big o_largefile = 3
    lseek 3 0 2 ! eoverflow
    llseek 3 0 0 room 1 = 0
    show room 8 : 0000000080000000
    lseek 3 0xFFFFFFFF 1 = 0x7FFFFFFF
    open '/f o_wronly = 4
    lseek 4 0x7FFFFFFD = 0x7FFFFFFD
    write 4 '/f 4 = 2
    lseek 4 0 1 = 0x7FFFFFFF
    write 4 '/f 4 ! efbig
";

#[test]
fn opened(rt: HostRuntime) -> Result<(), Fail> {
    assert_eq!(rt;
        first_wrong_saving(rt.alloc(), &[], OPENED, TREE, TREE)?,
        Some(0)
    );
    Ok(())
}

#[test]
fn not_found(rt: HostRuntime) -> Result<(), Fail> {
    assert_eq!(rt;
        first_wrong_saving(rt.alloc(), &[], NOT_FOUND, TREE, TREE)?,
        Some(0)
    );
    Ok(())
}

#[test]
fn kinds(rt: HostRuntime) -> Result<(), Fail> {
    assert_eq!(rt;
        first_wrong_saving(rt.alloc(), &[], KINDS, TREE, TREE)?,
        Some(0)
    );
    Ok(())
}

#[test]
fn made(rt: HostRuntime) -> Result<(), Fail> {
    assert_eq!(rt;
        first_wrong_saving(rt.alloc(), &[], MADE, TREE, MADE_TREE)?,
        Some(0)
    );
    Ok(())
}

#[test]
fn no_descriptor(rt: HostRuntime) -> Result<(), Fail> {
    assert_eq!(rt;
        first_wrong_saving(rt.alloc(), &TAKE_ALL_DESCRIPTORS, NO_DESCRIPTOR, TREE, TREE)?,
        Some(0)
    );
    Ok(())
}

#[test]
fn places(rt: HostRuntime) -> Result<(), Fail> {
    assert_eq!(rt;
        first_wrong_saving(rt.alloc(), &[], PLACES, TREE, TREE)?,
        Some(0)
    );
    Ok(())
}

#[test]
fn large_places(rt: HostRuntime) -> Result<(), Fail> {
    assert_eq!(rt; first_wrong(rt.alloc(), LARGE_PLACES, TREE)?, Some(0));
    Ok(())
}
