ghost use Rattle.std.specs.Prelude.{◌≡◌, Some};

use super::*;
use bitflags::Flags;
use kernel_core::{
    Access, Errno, EventBits, MapBits, MapFlags, MapKind, MaskChange, OpenBits, OpenFlags,
    PollBits, RealTime, Request, Resource, SaBits, SaFlags, Sig,
};
use std::process::Abort;

// errno(3): the names with their numbers in Linux asm-generic/errno-base.h and errno.h, and those
// that arch/mips/include/uapi/asm/errno.h numbers otherwise.
const ERRORS: [(Errno, u32, u64); 27] = [
    (Errno::EPERM, 1, 1),
    (Errno::ENOENT, 2, 2),
    (Errno::ESRCH, 3, 3),
    (Errno::EINTR, 4, 4),
    (Errno::EBADF, 9, 9),
    (Errno::EAGAIN, 11, 11),
    (Errno::ENOMEM, 12, 12),
    (Errno::EACCES, 13, 13),
    (Errno::EFAULT, 14, 14),
    (Errno::EBUSY, 16, 16),
    (Errno::EEXIST, 17, 17),
    (Errno::ENODEV, 19, 19),
    (Errno::ENOTDIR, 20, 20),
    (Errno::EISDIR, 21, 21),
    (Errno::EINVAL, 22, 22),
    (Errno::EMFILE, 24, 24),
    (Errno::ENOTTY, 25, 25),
    (Errno::EFBIG, 27, 27),
    (Errno::ENOSPC, 28, 28),
    (Errno::ESPIPE, 29, 29),
    (Errno::EPIPE, 32, 32),
    (Errno::ERANGE, 34, 34),
    (Errno::ENAMETOOLONG, 78, 36),
    (Errno::EOVERFLOW, 79, 75),
    (Errno::ENOSYS, 89, 38),
    (Errno::ELOOP, 90, 40),
    (Errno::ENOTEMPTY, 93, 39),
];

// signal(7): the columns 'MIPS' and 'x86/ARM' of its table.
const SIGNALS: [(Sig, u32, u64); 31] = [
    (Sig::Hup, 1, 1),
    (Sig::Int, 2, 2),
    (Sig::Quit, 3, 3),
    (Sig::Ill, 4, 4),
    (Sig::Trap, 5, 5),
    (Sig::Abrt, 6, 6),
    (Sig::Emt, 7, 16),
    (Sig::Fpe, 8, 8),
    (Sig::Kill, 9, 9),
    (Sig::Bus, 10, 7),
    (Sig::Segv, 11, 11),
    (Sig::Sys, 12, 31),
    (Sig::Pipe, 13, 13),
    (Sig::Alrm, 14, 14),
    (Sig::Term, 15, 15),
    (Sig::Usr1, 16, 10),
    (Sig::Usr2, 17, 12),
    (Sig::Chld, 18, 17),
    (Sig::Pwr, 19, 30),
    (Sig::Winch, 20, 28),
    (Sig::Urg, 21, 23),
    (Sig::Io, 22, 29),
    (Sig::Stop, 23, 19),
    (Sig::Tstp, 24, 20),
    (Sig::Cont, 25, 18),
    (Sig::Ttin, 26, 21),
    (Sig::Ttou, 27, 22),
    (Sig::Vtalrm, 28, 26),
    (Sig::Prof, 29, 27),
    (Sig::Xcpu, 30, 24),
    (Sig::Xfsz, 31, 25),
];

/// Asks for each number up to `last` in both worlds, beside the rows of a table.
fn numbers_are_the_table<T>(rt: &impl Abort, rows: &[(T, u32, u64)], last: u32)
where
    T: O32Number + NativeNumber + PartialEq,
{
    for number in 0..=last {
        let here = rows.iter().find(|row| row.1 == number);
        assert!(rt; T::of_o32(number) == here.map(|row| row.0));
        let native = u64::from(number);
        let there = rows.iter().find(|row| row.2 == native);
        assert!(rt; T::of_native(native) == there.map(|row| row.0));
    }
    for row in rows {
        assert_eq!(rt; row.0.to_o32(), row.1);
        assert_eq!(rt; row.0.to_native(), row.2);
    }
}

/// Asks for each single bit of an o32 number, beside the rows of a table.
fn o32_bits_are_the_table<T: O32Number + PartialEq>(rt: &impl Abort, rows: &[(u32, T)]) {
    for place in 0..32u32 {
        let bit = 1u32 << place;
        let row = rows.iter().find(|row| row.0 == bit);
        assert!(rt; T::of_o32(bit) == row.map(|row| row.1));
    }
    for row in rows {
        assert_eq!(rt; row.1.to_o32(), row.0);
    }
}

/// Asks for each single bit of a native number, beside the rows of a table.
fn native_bits_are_the_table<T: NativeNumber + PartialEq>(rt: &impl Abort, rows: &[(u64, T)]) {
    for place in 0..64u32 {
        let bit = 1u64 << place;
        let row = rows.iter().find(|row| row.0 == bit);
        assert!(rt; T::of_native(bit) == row.map(|row| row.1));
    }
    for row in rows {
        assert_eq!(rt; row.1.to_native(), row.0);
    }
}

/// From o32 to native and back, known from the laws of the two traits alone.
fn there_and_back<T: O32Number + NativeNumber>(number: u32) -> Option<u32>
    requires { (value : T) → T.named_by_o32 number ≡ Some value → T.listed_natively value }
    ensures { (value : T) → T.named_by_o32 number ≡ Some value → result ≡ Some number }
{
    let native = native_from_o32::<T>(number)?;
    o32_from_native::<T>(native)
}

#[test]
fn errors(rt: HostRuntime) {
    numbers_are_the_table(&rt, &ERRORS, 200);
    assert!(rt; there_and_back::<Errno>(93) == Some(93));
    assert!(rt; there_and_back::<Errno>(35).is_none());
}

#[test]
fn signals(rt: HostRuntime) {
    numbers_are_the_table(&rt, &SIGNALS, 31);
    for number in 32..=130 {
        let signal = RealTime::new(number).map(Sig::RealTime);
        assert!(rt; Sig::of_o32(u32::from(number)) == signal);
        assert!(rt; Sig::of_native(u64::from(number)) == signal);
        assert!(rt; signal.is_some() == (number <= 128));
    }
    assert!(rt; there_and_back::<Sig>(16) == Some(16));
}

/// The access mode and the flags of a set.
fn named(flags: OpenFlags) -> (Access, OpenBits) {
    (flags.access(), flags.bits())
}

// open(2): Linux arch/mips/include/uapi/asm/fcntl.h and asm-generic/fcntl.h.
#[test]
fn open_flags(rt: HostRuntime) {
    let mode = Access::Read;
    let rows = [
        (Access::Write, OpenBits::empty(), 1, 1),
        (Access::ReadWrite, OpenBits::empty(), 2, 2),
        (mode, OpenBits::APPEND, 8, 0x400),
        (mode, OpenBits::DSYNC, 0x10, 0x1000),
        (mode, OpenBits::NONBLOCK, 0x80, 0x800),
        (mode, OpenBits::CREAT, 0x100, 0x40),
        (mode, OpenBits::TRUNC, 0x200, 0x200),
        (mode, OpenBits::EXCL, 0x400, 0x80),
        (mode, OpenBits::NOCTTY, 0x800, 0x100),
        (mode, OpenBits::LARGEFILE, 0x2000, 0x8000),
        (mode, OpenBits::DIRECTORY, 0x10000, 0x10000),
        (mode, OpenBits::NOFOLLOW, 0x20000, 0x20000),
        (mode, OpenBits::CLOEXEC, 0x80000, 0x80000),
        (
            mode,
            OpenBits::SYNC.union(OpenBits::DSYNC),
            0x4010,
            0x101000,
        ),
    ];
    for row in rows.iter() {
        let names = Some((row.0, row.1));
        assert!(rt; OpenFlags::of_o32(row.2).map(named) == names);
        assert!(rt; OpenFlags::of_native(row.3).map(named) == names);
        let flags = OpenFlags::new(row.0, row.1);
        assert_eq!(rt; flags.to_o32(), row.2);
        assert_eq!(rt; flags.to_native(), row.3);
    }
    for place in 0..32u32 {
        let bit = 1u32 << place;
        assert!(rt; OpenFlags::of_o32(bit).is_some() == rows.iter().any(|row| row.2 == bit));
        let bit = 1u64 << place;
        assert!(rt; OpenFlags::of_native(bit).is_some() == rows.iter().any(|row| row.3 == bit));
    }
    assert!(rt; OpenFlags::of_o32(3).is_none() && OpenFlags::of_native(3).is_none());
}

// sigaction(2): Linux arch/mips/include/uapi/asm/signal.h and asm-generic/signal-defs.h.
#[test]
fn sigaction_flags(rt: HostRuntime) {
    let nocldstop = SaFlags::new(SaBits::NOCLDSTOP);
    let siginfo = SaFlags::new(SaBits::SIGINFO);
    let nocldwait = SaFlags::new(SaBits::NOCLDWAIT);
    let onstack = SaFlags::new(SaBits::ONSTACK);
    let restart = SaFlags::new(SaBits::RESTART);
    let nodefer = SaFlags::new(SaBits::NODEFER);
    let resethand = SaFlags::new(SaBits::RESETHAND);
    let o32 = [
        (1, nocldstop),
        (8, siginfo),
        (0x10000, nocldwait),
        (0x08000000, onstack),
        (0x10000000, restart),
        (0x40000000, nodefer),
        (0x80000000, resethand),
    ];
    o32_bits_are_the_table(&rt, &o32);
    let native = [
        (1, nocldstop),
        (4, siginfo),
        (2, nocldwait),
        (0x08000000, onstack),
        (0x10000000, restart),
        (0x40000000, nodefer),
        (0x80000000, resethand),
    ];
    native_bits_are_the_table(&rt, &native);
    assert!(rt; sa_flags_in_o32(0x04000008) == siginfo);
    assert!(rt; sa_flags_in_native(0x1_0400_0004) == siginfo);
}

// poll(2): Linux arch/mips/include/uapi/asm/poll.h and asm-generic/poll.h.
#[test]
fn poll_events(rt: HostRuntime) {
    let input = PollBits::new(EventBits::IN);
    let pri = PollBits::new(EventBits::PRI);
    let output = PollBits::new(EventBits::OUT);
    let err = PollBits::new(EventBits::ERR);
    let hup = PollBits::new(EventBits::HUP);
    let nval = PollBits::new(EventBits::NVAL);
    let rdnorm = PollBits::new(EventBits::RDNORM);
    let rdband = PollBits::new(EventBits::RDBAND);
    let wrnorm = PollBits::new(EventBits::WRNORM);
    let wrband = PollBits::new(EventBits::WRBAND);
    let both = PollBits::new(EventBits::OUT.union(EventBits::WRNORM));
    let o32 = [
        (1, input),
        (2, pri),
        (4, both),
        (8, err),
        (0x10, hup),
        (0x20, nval),
        (0x40, rdnorm),
        (0x80, rdband),
        (0x100, wrband),
    ];
    o32_bits_are_the_table(&rt, &o32);
    let native = [
        (1, input),
        (2, pri),
        (4, output),
        (8, err),
        (0x10, hup),
        (0x20, nval),
        (0x40, rdnorm),
        (0x80, rdband),
        (0x100, wrnorm),
        (0x200, wrband),
    ];
    native_bits_are_the_table(&rt, &native);
    assert_eq!(rt; output.to_o32(), 4);
    assert_eq!(rt; wrnorm.to_o32(), 4);
    assert!(rt; poll_bits_in_native(0x2004) == output);
}

// mmap(2): Linux arch/mips/include/uapi/asm/mman.h.
#[test]
fn mapping_flags(rt: HostRuntime) {
    let private = MapFlags::new(MapKind::Private, MapBits::empty());
    let shared = MapFlags::new(MapKind::Shared, MapBits::empty());
    o32_bits_are_the_table(&rt, &[(1, shared), (2, private)]);
    let all = MapFlags::new(MapKind::Private, MapBits::all());
    assert!(rt; MapFlags::of_o32(0xC12) == Some(all));
    assert!(rt; MapFlags::of_o32(0x42).is_none() && map_flags_in_o32(0x42) == Some(private));
    assert!(rt; map_flags_in_o32(0x803).is_none() && map_flags_in_o32(0x800).is_none());
}

// Linux arch/mips/include/uapi/asm/{resource,ioctls,siginfo}.h beside asm-generic.
#[test]
fn smaller_tables(rt: HostRuntime) {
    let resources = [
        (Resource::Cpu, 0, 0),
        (Resource::Fsize, 1, 1),
        (Resource::Data, 2, 2),
        (Resource::Stack, 3, 3),
        (Resource::Core, 4, 4),
        (Resource::Nofile, 5, 7),
        (Resource::As, 6, 9),
        (Resource::Rss, 7, 5),
        (Resource::Nproc, 8, 6),
        (Resource::Memlock, 9, 8),
        (Resource::Locks, 10, 10),
        (Resource::Sigpending, 11, 11),
        (Resource::Msgqueue, 12, 12),
        (Resource::Nice, 13, 13),
        (Resource::Rtprio, 14, 14),
        (Resource::Rttime, 15, 15),
    ];
    numbers_are_the_table(&rt, &resources, 20);
    let requests = [
        (Request::Tcgets, 0x540D, 0x5401),
        (Request::Tcsets, 0x540E, 0x5402),
        (Request::Tcsetsw, 0x540F, 0x5403),
        (Request::Tcsetsf, 0x5410, 0x5404),
        (Request::Tiocgwinsz, 0x40087468, 0x5413),
        (Request::Fionread, 0x467F, 0x541B),
        (Request::Fionbio, 0x667E, 0x5421),
        (Request::Fioclex, 0x6601, 0x5451),
        (Request::Fionclex, 0x6602, 0x5450),
    ];
    numbers_are_the_table(&rt, &requests, 0x7000);
    let changes = [
        (MaskChange::Block, 1, 0),
        (MaskChange::Unblock, 2, 1),
        (MaskChange::Set, 3, 2),
    ];
    numbers_are_the_table(&rt, &changes, 9);
    let codes = [
        (SI_USER, 0, 0),
        (SI_KERNEL, 0x80, 0x80),
        (SI_QUEUE, -1, -1),
        (SI_TKILL, -6, -6),
        (SI_TIMER, -3, -2),
        (-4, -4, -3),
        (-2, -2, -4),
        (2, 2, 2),
        (-5, -5, -5),
    ];
    for (code, o32, native) in codes {
        assert_eq!(rt; code, o32);
        assert_eq!(rt; native_code(o32), native);
        assert_eq!(rt; o32_code(native), o32);
    }
}

// getrlimit(2): RLIM_INFINITY of Linux arch/mips/include/uapi/asm/resource.h; prlimit64 of both
// worlds has RLIM64_INFINITY of include/uapi/linux/resource.h.
#[test]
fn no_limit(rt: HostRuntime) {
    assert_eq!(rt; GETRLIMIT_INFINITY, 2_147_483_647);
    assert_eq!(rt; INFINITY, 18_446_744_073_709_551_615);
}
