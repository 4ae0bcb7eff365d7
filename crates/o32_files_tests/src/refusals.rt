//! What every call with a path refuses, and what calls refuse that tell something, or that have arguments on the stack. Nothing is left
//! of a call that is refused.
use session_scripts::End;
use session_scripts::calls::{first_wrong_saving, run};
use session_scripts::guest::{data, executable, straight_code};
use session_scripts::image::TREE;
use std::alloc::{AllocError, Global};
use std::test::Fail;

/// Every call with a path. The path stands where `?` is, and what the call gives where `.` is.
const OF_PATHS: &str = "
    open ? .
    creat ? 0o644 .
    unlink ? .
    chdir ? .
    chmod ? 0o600 .
    access ? .
    mkdir ? 0o755 .
    rmdir ? .
    symlink '/f ? .
    readlink ? room 9 .
    truncate ? .
    truncate64 ? .
    stat ? room .
    lstat ? room .
    stat64 ? room .
    lstat64 ? room .
    link ? '/n .
    link '/f ? .
    rename ? '/n .
    rename '/f ? .
    openat at_fdcwd ? .
    mkdirat at_fdcwd ? 0o755 .
    fstatat64 at_fdcwd ? room .
    unlinkat at_fdcwd ? .
    unlinkat at_fdcwd ? at_removedir .
    symlinkat '/f at_fdcwd ? .
    readlinkat at_fdcwd ? room 9 .
    fchmodat at_fdcwd ? 0o600 .
    faccessat at_fdcwd ? .
    utimensat at_fdcwd ? times .
    linkat at_fdcwd ? at_fdcwd '/n .
    linkat at_fdcwd '/f at_fdcwd ? .
    renameat at_fdcwd ? at_fdcwd '/n .
    renameat at_fdcwd '/f at_fdcwd ? .
";

/// Paths, each with its error: one that ends at a page that is not there; 4096 bytes without a NUL; a name of 256 bytes; the empty
/// one; one in a directory that is not there, in a file, and in a link to itself.
const PATHS: [(&str, &str); 7] = [
    ("end", "efault"),
    ("no_nul", "enametoolong"),
    ("long", "enametoolong"),
    ("'", "enoent"),
    ("'/none/x", "enoent"),
    ("'/f/x", "enotdir"),
    ("'/o/x", "eloop"),
];

/// Every call with a path that begins at the directory of a descriptor, which stands where `?` is. Descriptor 3 is open before them.
const AT_DESCRIPTORS: &str = "
    open '/f = 3
    openat ? 'a .
    mkdirat ? 'n 0o755 .
    fstatat64 ? 'a room .
    unlinkat ? 'a .
    symlinkat '/f ? 'n .
    readlinkat ? 'a room 9 .
    fchmodat ? 'a 0o600 .
    faccessat ? 'a .
    utimensat ? 'a times .
    linkat ? 'a at_fdcwd '/n .
    linkat at_fdcwd '/f ? 'n .
    renameat ? 'a at_fdcwd '/n .
    renameat at_fdcwd '/f ? 'n .
";

/// A descriptor that is not open, and two that are no directory: a stream, and the file of descriptor 3.
const DESCRIPTORS: [(&str, &str); 3] = [("9", "ebadf"), ("0", "enotdir"), ("3", "enotdir")];

/// A structure or a text that can't be stored whole is not stored.
const NO_ROOM: &str = "
    stat '/f end - 1 ! efault
    lstat '/l end - 1 ! efault
    fstat 0 end - 1 ! efault
    stat64 '/f end - 1 ! efault
    lstat64 '/l end - 1 ! efault
    fstat64 0 end - 1 ! efault
    fstatat64 at_fdcwd '/f end - 1 ! efault
    readlink '/l end 9 ! efault
    readlinkat at_fdcwd '/l end 9 ! efault
    getcwd end - 1 9 ! efault
    show end - 1 1 : 79
";

/// Errors of the calls that have a form for the working directory and one for a descriptor's, in the latter.
const AT_FORMS: &str = "
    openat at_fdcwd '/f 3 ! einval
    openat at_fdcwd '/d o_wronly ! eisdir
    openat at_fdcwd '/big ! eoverflow
    openat at_fdcwd '/f o_creat + o_excl 0o644 ! eexist
    openat at_fdcwd '/l o_nofollow ! eloop
    openat at_fdcwd '/f o_directory ! enotdir
    mkdirat at_fdcwd '/d 0o755 ! eexist
    unlinkat at_fdcwd '/d/. at_removedir ! einval
    unlinkat at_fdcwd '/ at_removedir ! ebusy
    linkat at_fdcwd '/d at_fdcwd '/n ! eperm
    linkat at_fdcwd '/f at_fdcwd '/l ! eexist
    symlinkat ' at_fdcwd '/n ! enoent
    symlinkat end at_fdcwd '/n ! efault
    symlinkat no_nul at_fdcwd '/n ! enametoolong
    symlinkat '/f at_fdcwd '/l ! eexist
    readlinkat at_fdcwd '/f room 9 ! einval
    readlinkat at_fdcwd '/l room ! einval
    renameat at_fdcwd '/ at_fdcwd '/n ! ebusy
    renameat at_fdcwd '/f at_fdcwd '/d/.. ! ebusy
    renameat at_fdcwd '/d at_fdcwd '/d/n ! einval
    renameat at_fdcwd '/f at_fdcwd '/d ! eisdir
    renameat at_fdcwd '/d at_fdcwd '/f ! enotdir
    fchmodat at_fdcwd '/none 0o600 ! enoent
    faccessat at_fdcwd '/f 1 ! eacces
    utimensat at_fdcwd '/f times 0x200 ! einval
";

/// Errors that one call alone of a group has in its own way.
const OTHERS: &str = "
    symlink no_nul '/n ! enametoolong
    open '/big o_largefile = 3
    fstat 3 room ! eoverflow
    truncate64 '/d ! eisdir
    ftruncate64 9 ! ebadf
    ftruncate64 1 ! einval
    ftruncate64 3 ! einval
    open '/f o_rdwr = 4
    ftruncate64 4 0 0x80000000 ! einval
    llseek 9 0 0 room ! ebadf
    llseek 4 0 0 room 3 ! einval
    fchdir 0 ! enotdir
    getdents64 0 room 99 ! enotdir
    gettimeofday 0 end ! efault
    gettimeofday room end ! efault
    clock_nanosleep 1 0 wrong_times ! einval
    clock_nanosleep 2 0 second ! einval
";

/// A root directory that has given out its last cookie, 2^31 - 1, so that it takes no further name (this project's own).
const FULL_TREE: &str = "3
    1 directory 0o755 1 2 0x7FFFFFFE d 2 0x7FFFFFFF f 3
    2 directory 0o755 1 0
    3 file 0o644 1 0 -
";

/// Every call that makes a name or moves one.
const NEW_NAMES: &str = "
    open '/n o_creat 0o644 ! enospc
    creat '/n 0o644 ! enospc
    openat at_fdcwd '/n o_creat 0o644 ! enospc
    mkdir '/n 0o755 ! enospc
    mkdirat at_fdcwd '/n 0o755 ! enospc
    symlink '/f '/n ! enospc
    symlinkat '/f at_fdcwd '/n ! enospc
    link '/f '/n ! enospc
    linkat at_fdcwd '/f at_fdcwd '/n ! enospc
    rename '/f '/n ! enospc
    renameat at_fdcwd '/d at_fdcwd '/n ! enospc
    open '/n ! enoent
    open '/f = 3
";

/// `addiu $sp, $zero, 0`: nothing is mapped where the arguments on the stack would stand.
const NO_STACK: u32 = 0x241D_0000;

/// `addu $a0, $v0, $zero`; `addiu $v0, $zero, 4001`; `syscall`: exits with what a call gave, as exit(2).
const EXIT_WITH_IT: [u32; 3] = [0x0040_2021, 0x2402_0FA1, 0x0000_000C];

/// The calls with arguments on the stack: EFAULT comes before all else (this project's own).
const WITH_STACK: [&str; 6] = [
    "pread64 9 end 9 0",
    "pwrite64 9 end 9 0",
    "llseek 9 0 0 end",
    "mmap 1 0 0 0",
    "mmap2 1 0 0 0",
    "linkat 9 end 9 end",
];

/// A table of calls as a script: each about this thing, and each refused with this error.
fn script_of(alloc: Global, calls: &str, about: &str, error: &str) -> Result<String, AllocError> {
    let mut script = String::new(alloc);
    for word in calls.split_whitespace() {
        if word == "." {
            script.push_str("! ")?;
        }
        script.push_str(match word {
            "?" => about,
            "." => error,
            other => other,
        })?;
        script.push_str(" ")?;
    }
    Ok(script)
}

/// Whether all calls of a table are refused so, and leave the tree.
fn are_refused(alloc: Global, calls: &str, about: &str, error: &str) -> Result<bool, Fail> {
    let script = script_of(alloc, calls, about, error)?;
    Ok(first_wrong_saving(alloc, &[], script.as_str(), TREE, TREE)? == Some(0))
}

/// How a program without a stack ends that exits with what a call gave.
fn without_stack(alloc: Global, call: &str) -> Result<End, Fail> {
    let mut code = straight_code(alloc, &[NO_STACK], call)?;
    code.extend_from_slice(&EXIT_WITH_IT)?;
    let file = executable(alloc, &code, &data(alloc)?)?;
    Ok(run(alloc, file, TREE, "")?.end)
}

#[test]
fn paths(rt: HostRuntime) -> Result<(), Fail> {
    for (path, error) in PATHS {
        let refused = are_refused(rt.alloc(), OF_PATHS, path, error)?;
        assert!(rt; refused, "{path}");
    }
    Ok(())
}

#[test]
fn descriptors(rt: HostRuntime) -> Result<(), Fail> {
    for (descriptor, error) in DESCRIPTORS {
        let refused = are_refused(rt.alloc(), AT_DESCRIPTORS, descriptor, error)?;
        assert!(rt; refused, "{descriptor}");
    }
    Ok(())
}

#[test]
fn no_room(rt: HostRuntime) -> Result<(), Fail> {
    assert!(rt; are_refused(rt.alloc(), NO_ROOM, "", "")?);
    Ok(())
}

#[test]
fn at_forms(rt: HostRuntime) -> Result<(), Fail> {
    assert!(rt; are_refused(rt.alloc(), AT_FORMS, "", "")?);
    Ok(())
}

#[test]
fn others(rt: HostRuntime) -> Result<(), Fail> {
    assert!(rt; are_refused(rt.alloc(), OTHERS, "", "")?);
    Ok(())
}

#[test]
fn new_names(rt: HostRuntime) -> Result<(), Fail> {
    assert_eq!(rt;
        first_wrong_saving(rt.alloc(), &[], NEW_NAMES, FULL_TREE, FULL_TREE)?,
        Some(0)
    );
    Ok(())
}

#[test]
fn no_stack(rt: HostRuntime) -> Result<(), Fail> {
    for call in WITH_STACK {
        let end = without_stack(rt.alloc(), call)?;
        assert!(rt; end == End::Exited(14), "{call}");
    }
    Ok(())
}
