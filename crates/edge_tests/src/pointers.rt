//! Pointers: for a path and for each structure of an o32 program, calls that read one and calls that write one, where it is whole, where its
//! last byte is on an absent page, all of it is, it is on a page without write, or it passes the end of user space at 0x7FFF8000.
//!
//! A table has a row for each call: where the structure's last byte stands behind its first, the call, with `?` for the address, and what it
//! gives where the structure can be had whole. Each row is a program of its own, in the scripts of `session_scripts`. Memory is, one
//! page behind the other: zeros from 0x410D00 on, `room` of zeros, `no_nul` of the letter 0x79, and from `end` on nothing.
use session_scripts::calls::first_wrong_under;
use session_scripts::image::TREE;
use std::alloc::{AllocError, Global};
use std::test::Fail;

/// Where a structure's last byte stands behind its first, a call, what it gives where it has the structure whole, and the last byte
/// that it writes then.
type Row<'a> = (usize, &'a str, &'a str, &'a str);

/// An address, what a call gives there, and what memory has to show then. `.` stands for what the row gives, `L` for where its last byte
/// stands, `B` for that byte, and `00*` and `79*` for so many bytes as stand before the last one.
type Place<'a> = (&'a str, &'a str, &'a str);

/// What stands before each row. The pages are the last one of user space, and `room`, which loses its write (mprotect(2), 4125). The
/// path in it is `/d`. Descriptor 3 is a directory, and 4 a file. The signals of the set at `times` are blocked (rt_sigprocmask(2), 4195), SIGHUP among them.
const BEFORE: &str = "
    mmap2 0x7FFF7000 0x1000 3 0x812 0xFFFFFFFF = 0x7FFF7000
    open '/d = 3
    open '/f = 4
    4195 1 times 0 16 = 0
    chdir '/d = 0
    getcwd room 9 = 3
    4125 room 0x1000 1 = 0
";

/// A terminal of 25 rows and 80 columns, and turns of a nanosecond, so that times are below a microsecond.
const SCHEDULE: &str = "quantum 1\ntty 25 80\n";

/// Calls that read: open(2) and unlink(2); writev(2), readv(2), 4145; nanosleep(2), clock_nanosleep(2), rt_sigtimedwait(2), 4197, ppoll(2),
/// 4302; utimensat(2); _newselect(2), 4142; setitimer(2), 4104; prlimit64(2), 4338; TCSETS; rt_sigaction(2), 4194; sigaltstack(2), 4206, where
/// zeros are a stack too small (ENOMEM, 12); rt_sigqueueinfo(2), 4198, of SIGCHLD, which is ignored; rt_sigprocmask(2), 4195; the pair of
/// pselect6(2), 4301. EAGAIN is 11.
const READ: [Row<'static>; 19] = [
    (7, "writev 1 ? 1", "= 0", ""),
    (7, "4145 0 ? 1", "= 0", ""),
    (15, "writev 1 ? 2", "= 0", ""),
    (7, "nanosleep ? 0", "= 0", ""),
    (7, "clock_nanosleep 1 0 ? 0", "= 0", ""),
    (7, "4197 0x410D00 0 ? 16", "! 11", ""),
    (7, "4302 0 0 ?", "= 0", ""),
    (15, "4302 0 0 0x410D00 ? 16", "= 0", ""),
    (15, "utimensat at_fdcwd '/f ?", "= 0", ""),
    (7, "4142 0 0 0 0 ?", "= 0", ""),
    (15, "4104 0 ? 0", "= 0", ""),
    (15, "4338 0 4 ? 0", "= 0", ""),
    (39, "ioctl 1 0x540E ?", "= 0", ""),
    (23, "4194 16 ? 0 16", "= 0", ""),
    (11, "4206 ? 0", "! 12", ""),
    (127, "4198 100 18 ?", "= 0", ""),
    (15, "4195 1 ? 0 16", "= 0", ""),
    (15, "4197 ? 0 0x410D00 16", "! 11", ""),
    (7, "4301 0 0 0 0 0x410D00 ?", "= 0", ""),
];

/// Where a structure is read: a page without write is as good as another.
const PLACES_TO_READ: [Place<'static>; 5] = [
    ("0x410D00", ".", ""),
    ("end - L", "! efault", ""),
    ("end", "! efault", ""),
    ("room + 0x10", ".", ""),
    ("0x7FFF8000 - L", "! efault", ""),
];

/// Calls that read and write the same: poll(2), 4188, and a set of _newselect(2).
const READ_AND_WRITTEN: [Row<'static>; 3] = [
    (7, "4188 ? 1 0", "= 0", ""),
    (3, "4142 32 ? 0 0 0x410D00", "= 0", ""),
    (7, "4142 33 0 0 ? 0x410D00", "= 0", ""),
];

const PLACES_OF_BOTH: [Place<'static>; 5] = [
    ("0x410D00", ".", ""),
    ("end - L", "! efault", ""),
    ("end", "! efault", ""),
    ("room + 0x10", "! efault", ""),
    ("0x7FFF8000 - L", "! efault", ""),
];

/// Calls that write: getcwd(2); the calls on status, whose last byte is that of the blocks, or
/// behind the fields of stat; one entry of a directory, `.`, of type 4; clock_getres(2), gettimeofday(2) and its zone, time(2); getrlimit(2),
/// 4076, which shows no limit as 0x7FFFFFFF, and prlimit64(2); getitimer(2), 4105, and setitimer(2); TIOCGWINSZ and TCGETS; uname(2), 4122;
/// rt_sigaction(2), rt_sigprocmask(2), rt_sigpending(2), 4196, sigaltstack(2), which is disabled (flags 2); rt_sigtimedwait(2) with a SIGHUP that
/// kill(2), 4037, sent; pipe2(2), 4328, whose second descriptor is 6; _llseek(2).
const WRITTEN: [Row<'static>; 29] = [
    (2, "getcwd ? 9", "= 3", "00"),
    (143, "stat '/f ?", "= 0", "00"),
    (143, "lstat '/l ?", "= 0", "00"),
    (143, "fstat 4 ?", "= 0", "00"),
    (103, "stat64 '/f ?", "= 0", "08"),
    (103, "lstat64 '/l ?", "= 0", "00"),
    (103, "fstat64 4 ?", "= 0", "08"),
    (103, "fstatat64 at_fdcwd '/f ? 0", "= 0", "08"),
    (15, "getdents 3 ? 16", "= 16", "04"),
    (23, "getdents64 3 ? 24", "= 24", "00"),
    (7, "clock_getres 1 ?", "= 0", "01"),
    (7, "gettimeofday ? 0", "= 0", "00"),
    (7, "gettimeofday 0 ?", "= 0", "00"),
    (3, "time ?", "= 0", "00"),
    (7, "4076 4 ?", "= 0", "FF"),
    (15, "4338 0 4 0 ?", "= 0", "FF"),
    (15, "4105 0 ?", "= 0", "00"),
    (15, "4104 0 0 ?", "= 0", "00"),
    (7, "ioctl 1 0x40087468 ?", "= 0", "00"),
    (39, "ioctl 1 0x540D ?", "= 0", "00"),
    (3, "ioctl 4 0x467F ?", "= 0", "05"),
    (389, "4122 ?", "= 0", "00"),
    (23, "4194 16 0 ? 16", "= 0", "00"),
    (15, "4195 1 0 ? 16", "= 0", "08"),
    (15, "4196 ? 16", "= 0", "00"),
    (11, "4206 0 ?", "= 0", "02"),
    (127, "4037 100 1 = 0 4197 times ? 0x410D00 16", "= 1", "00"),
    (7, "4328 ? 0", "= 0", "06"),
    (7, "llseek 4 0 0 ? 0", "= 0", "00"),
];

/// Where a structure is written. What can't be written whole is not written.
const PLACES_TO_WRITE: [Place<'static>; 5] = [
    (
        "no_nul",
        ".",
        "show no_nul + L 1 : B show no_nul + L + 1 1 : 79",
    ),
    ("end - L", "! efault", "show end - L L : 79*"),
    ("end", "! efault", ""),
    ("room + 0x10", "! efault", "show room + 0x10 L : 00*"),
    ("0x7FFF8000 - L", "! efault", "show 0x7FFF8000 - L L : 00*"),
];

/// Calls of a path: one that is whole; two letters in front of a page that is not there; one there; one on a page without write; and a
/// letter at the end of user space.
const PATHS: &str = "
    readlink '/l 0x7FFF7FFF 1 = 1
    access '/f = 0
    access no_nul + 0xFFE ! efault
    access end ! efault
    access room = 0
    access 0x7FFF7FFF ! efault
    symlink 0x7FFF7FFF '/n ! efault
    symlink '/f 0x7FFF7FFF ! efault
    rename '/f 0x7FFF7FFF ! efault
    symlink room '/n = 0
    readlink '/n no_nul 9 = 2
    show no_nul 3 : 2F6479
";

/// So many bytes, in two digits each.
fn push_bytes(script: &mut String, byte: &str, count: usize) -> Result<(), AllocError> {
    for _ in 0..count {
        script.push_str(byte)?;
    }
    Ok(())
}

/// Puts words behind a script, with what their letters stand for in a row.
fn push_words(
    alloc: Global,
    script: &mut String,
    words: &str,
    row: &Row<'_>,
) -> Result<(), AllocError> {
    for word in words.split_whitespace() {
        match word {
            "L" => script.push_str(format!(in alloc; "{}", row.0)?.as_str())?,
            "B" => script.push_str(row.3)?,
            "00*" => push_bytes(script, "00", row.0)?,
            "79*" => push_bytes(script, "79", row.0)?,
            _ => script.push_str(word)?,
        }
        script.push_str(" ")?;
    }
    Ok(())
}

/// Puts the call of a row at a place behind a script.
fn push_call(
    alloc: Global,
    script: &mut String,
    row: &Row<'_>,
    place: &Place<'_>,
) -> Result<(), AllocError> {
    let (address, gives, shows) = *place;
    for word in row.1.split_whitespace() {
        let words = if word == "?" { address } else { word };
        push_words(alloc, script, words, row)?;
    }
    push_words(alloc, script, if gives == "." { row.2 } else { gives }, row)?;
    push_words(alloc, script, shows, row)
}

/// The calls of a row, at each of these places.
fn script_of(alloc: Global, row: &Row<'_>, places: &[Place<'_>]) -> Result<String, AllocError> {
    let mut script = String::from_str(alloc, BEFORE)?;
    for place in places {
        push_call(alloc, &mut script, row, place)?;
    }
    Ok(script)
}

/// The first row that comes out otherwise, counted from 0, and the place of the first of its calls that does.
fn first_wrong(
    alloc: Global,
    rows: &[Row<'_>],
    places: &[Place<'_>],
) -> Result<Option<(usize, Option<u8>)>, Fail> {
    for (number, row) in rows.iter().enumerate() {
        let script = script_of(alloc, row, places)?;
        let wrong = first_wrong_under(alloc, SCHEDULE, script.as_str(), TREE)?;
        if wrong != Some(0) {
            return Ok(Some((number, wrong)));
        }
    }
    Ok(None)
}

#[test]
fn structures_that_are_read(rt: HostRuntime) -> Result<(), Fail> {
    let wrong = first_wrong(rt.alloc(), &READ, &PLACES_TO_READ)?;
    assert_eq!(rt; wrong, None);
    Ok(())
}

#[test]
fn structures_that_are_read_and_written(rt: HostRuntime) -> Result<(), Fail> {
    let wrong = first_wrong(rt.alloc(), &READ_AND_WRITTEN, &PLACES_OF_BOTH)?;
    assert_eq!(rt; wrong, None);
    Ok(())
}

#[test]
fn structures_that_are_written(rt: HostRuntime) -> Result<(), Fail> {
    let wrong = first_wrong(rt.alloc(), &WRITTEN, &PLACES_TO_WRITE)?;
    assert_eq!(rt; wrong, None);
    Ok(())
}

#[test]
fn paths(rt: HostRuntime) -> Result<(), Fail> {
    let mut script = String::from_str(rt.alloc(), BEFORE)?;
    script.push_str(PATHS)?;
    assert_eq!(rt;
        first_wrong_under(rt.alloc(), SCHEDULE, script.as_str(), TREE)?,
        Some(0)
    );
    Ok(())
}
