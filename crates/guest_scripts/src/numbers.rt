//! What the words of scripts, of programs and of trees stand for.
use script_words::named;
pub use script_words::number_of;

/// Names, each with its number behind it: registers (MIPS32 Architecture for Programmers, Volume I, by their o32 names), with the
/// hardware register `$29` and the condition `$fcc0`; calls (Linux `arch/mips/include/uapi/asm/unistd.h`, the o32 table); errors (Linux
/// `include/uapi/asm-generic/errno-base.h`, `arch/mips/include/uapi/asm/errno.h`); flags (Linux `arch/mips/include/uapi/asm/fcntl.h`
/// and `mman.h`, `include/uapi/linux/fcntl.h`); places in a program's data; and the high halves of the addresses at which a program's
/// code and its data begin.
const NAMES: &str = "
    $zero 0 $v0 2 $v1 3 $a0 4 $a1 5 $a2 6 $a3 7 $t0 8 $t1 9 $s0 16 $sp 29 $ra 31 $29 29 $fcc0 0

    exit 4001 read 4003 write 4004 open 4005 close 4006 creat 4008 link 4009 unlink 4010 chdir 4012 time 4013
    chmod 4015 lseek 4019 getpid 4020 getuid 4024 alarm 4027 pause 4029 access 4033 kill 4037 rename 4038 mkdir 4039 rmdir 4040 pipe 4042
    brk 4045 ioctl 4054 umask 4060 dup2 4063 getppid 4064 getrlimit 4076 gettimeofday 4078 symlink 4083 readlink 4085 mmap 4090
    munmap 4091 truncate 4092 ftruncate 4093 fchmod 4094 setitimer 4104 stat 4106 lstat 4107 fstat 4108 fsync 4118
    uname 4122 mprotect 4125 fchdir 4133 llseek 4140 getdents 4141 _newselect 4142 msync 4144 readv 4145 writev 4146
    fdatasync 4152 nanosleep 4166 mremap 4167 poll 4188 rt_sigreturn 4193 rt_sigaction 4194 rt_sigprocmask 4195 rt_sigtimedwait 4197
    rt_sigsuspend 4199 pread64 4200 pwrite64 4201 getcwd 4203 sigaltstack 4206 mmap2 4210 truncate64 4211
    ftruncate64 4212 stat64 4213 lstat64 4214 fstat64 4215 madvise 4218 getdents64 4219 exit_group 4246 set_tid_address 4252
    clock_gettime 4263 clock_getres 4264 clock_nanosleep 4265 set_thread_area 4283 openat 4288 mkdirat 4289
    fstatat64 4293 unlinkat 4294 renameat 4295 linkat 4296 symlinkat 4297 readlinkat 4298 fchmodat 4299 faccessat 4300
    pselect6 4301 ppoll 4302 set_robust_list 4309 utimensat 4316 prlimit64 4338 getrandom 4353

    eperm 1 enoent 2 ebadf 9 enomem 12 eacces 13 efault 14 ebusy 16 eexist 17 enodev 19 enotdir 20 eisdir 21 einval 22 emfile 24
    enotty 25 efbig 27 enospc 28 espipe 29 erange 34 enametoolong 78 eoverflow 79 eloop 90 enotempty 93

    o_wronly 1 o_rdwr 2 o_creat 0x100 o_trunc 0x200 o_excl 0x400 o_largefile 0x2000 o_directory 0x10000 o_nofollow 0x20000
    map_shared 1 map_private 2 map_fixed 0x10 map_anonymous 0x800 at_fdcwd 0xFFFFFF9C at_symlink_nofollow 0x100 at_removedir 0x200 at_symlink_follow 0x400
    at_no_automount 0x800 at_empty_path 0x1000

    long 0x410800 times 0x410C00 now_and_leave 0x410C10 wrong_times 0x410C20 second 0x410C28 room 0x411000 no_nul 0x412000 end 0x413000

    code_high 0x40 data_high 0x41
";

/// Paths. The empty one stands at the beginning of a program's data, and behind it each of these in a place of 32 bytes.
pub(crate) const PATHS: &str = "
    / /f /d /d/a /d/bb /d/n /d/ /d/. /d/.. /f/ /f/x /l /l/ /o /o/x /n /n/ /m /big /wide /none /none/x a f n ..
";

/// The page where a program's data begin.
pub(crate) const DATA: u32 = 0x41_0000;

/// The address of a path.
fn address_of(path: &str) -> Option<u32> {
    let mut address = DATA;
    if path.is_empty() {
        return Some(address);
    }
    for item in PATHS.split_whitespace() {
        address = address.saturating_add(0x20);
        if item == path {
            return Some(address);
        }
    }
    None
}

/// What a word stands for: the address of the path behind `'`, a number of at most 32 bits, or a name.
pub fn value(word: &str) -> Option<u32> {
    if let Some(path) = word.strip_prefix("'") {
        return address_of(path);
    }
    let number = match number_of(word) {
        Some(number) => number,
        None => named(NAMES, word)?,
    };
    u32::try_from(number).ok()
}
