//! What the words of a script stand for.
use script_words::{named, number_of};

/// The calls of the 64-bit interface (Linux `include/uapi/asm-generic/unistd.h`). No call has the number of `no_call`, and the
/// low 32 bits of `more_than_read` are those of read(2).
const CALLS: &str = "
    getcwd 17 dup 23 dup3 24 fcntl 25 ioctl 29 mkdirat 34 unlinkat 35 symlinkat 36 linkat 37 renameat 38 truncate 45 ftruncate 46
    faccessat 48 chdir 49 fchdir 50 fchmod 52 fchmodat 53 openat 56 close 57 pipe2 59 getdents64 61 lseek 62 read 63 write 64
    readv 65 writev 66 pread64 67 pwrite64 68 pselect6 72 ppoll 73 readlinkat 78 newfstatat 79 fstat 80 fsync 82 fdatasync 83
    utimensat 88 nanosleep 101 getitimer 102 setitimer 103 clock_gettime 113 clock_getres 114 clock_nanosleep 115
    kill 129 tkill 130 tgkill 131 sigaltstack 132 rt_sigsuspend 133 rt_sigaction 134 rt_sigprocmask 135 rt_sigpending 136
    rt_sigtimedwait 137 rt_sigqueueinfo 138 uname 160 umask 166 getpid 172 getppid 173 prlimit64 261 getrandom 278

    no_call 4 more_than_read 0x10000003F
";

/// Errors (Linux `include/uapi/asm-generic/errno-base.h` and `errno.h`).
const ERRORS: &str = "
    eperm 1 enoent 2 esrch 3 ebadf 9 eagain 11 enomem 12 eacces 13 efault 14 ebusy 16 eexist 17 enotdir 20 eisdir 21 einval 22
    emfile 24 enotty 25 efbig 27 enospc 28 espipe 29 epipe 32 erange 34 enametoolong 36 enosys 38 enotempty 39 eloop 40
";

/// Numbers that calls take: commands, flags and requests (Linux `include/uapi/asm-generic/fcntl.h` and `ioctls.h`,
/// `include/uapi/linux/fcntl.h`, `fs.h` and `stat.h`); limits (`include/uapi/asm-generic/resource.h`); and addresses.
///
/// `both_modes`, `temporary` and `half_of_sync` are flags that no call takes: an access mode of both bits, the bit of O_TMPFILE,
/// and that of SYNC without DSYNC. `other_fionbio` is FIONBIO of an o32 program, which is none here. `greatest` is the greatest
/// size of a file, and `too_great` one more. Host memory begins at `at`, and `nowhere` is no address of it.
const VALUES: &str = "
    at_fdcwd -100 at_symlink_nofollow 0x100 at_removedir 0x200 at_symlink_follow 0x400 at_empty_path 0x1000

    o_rdonly 0 o_wronly 1 o_rdwr 2 o_creat 0x40 o_excl 0x80 o_noctty 0x100 o_trunc 0x200 o_append 0x400 o_nonblock 0x800
    o_largefile 0x8000 o_directory 0x10000 o_nofollow 0x20000 o_cloexec 0x80000 o_sync 0x101000
    both_modes 3 temporary 0x400000 half_of_sync 0x100000

    seek_set 0 seek_cur 1 seek_end 2

    f_dupfd 0 f_getfd 1 f_setfd 2 f_getfl 3 f_setfl 4 f_dupfd_cloexec 1030

    tcgets 0x5401 tcsets 0x5402 tcsetsw 0x5403 tcsetsf 0x5404 tiocgwinsz 0x5413 fionread 0x541B fionbio 0x5421 fionclex 0x5450
    fioclex 0x5451 other_fionbio 0x667E

    utime_now 0x3FFFFFFF utime_omit 0x3FFFFFFE

    rlimit_cpu 0 rlimit_stack 3 rlimit_nofile 7 rlimit_rttime 15 rlim_infinity -1

    greatest 0x100000000000 too_great 0x100000000001

    at 65536 nowhere 4096
";

/// Signals and actions (Linux `include/uapi/asm-generic/signal.h`): what sigprocmask(2) does, of which `unlisted` is none; flags of
/// an action, of which `unnamed` has no name; and sets of signals by the first of their two numbers, where `usr1` has the bit of
/// SIGUSR1 and so on, `blockable` all but KILL and STOP, and `all` each bit. `latest` is the latest time that there is, 2^63 - 1.
const SIGNALS: &str = "
    sig_block 0 sig_unblock 1 sig_setmask 2 unlisted 3

    sa_siginfo 4 sa_restart 0x10000000 unnamed 0x8000

    kill 0x100 usr1 0x200 usr2 0x800 alrm 0x2000 term 0x4000 chld 0x10000 tstp 0x80000 blockable 0xFFFFFFFFFFFBFEFF all -1

    latest 0x7FFFFFFFFFFFFFFF
";

/// The number of a call.
pub(crate) fn call_number(word: &str) -> Option<u64> {
    named(CALLS, word)
}

/// The number of an error.
pub(crate) fn error_number(word: &str) -> Option<u64> {
    named(ERRORS, word)
}

/// A number or a name.
fn term(word: &str) -> Option<u64> {
    match number_of(word) {
        Some(number) => Some(number),
        None => named(VALUES, word).or(named(SIGNALS, word)),
    }
}

/// What a word stands for: a number or a name, or several of them with `+` between, which are added.
pub(crate) fn value(word: &str) -> Option<u64> {
    let mut sum: u64 = 0;
    for part in word.split('+') {
        sum = sum.wrapping_add(term(part)?);
    }
    Some(sum)
}
