//! The numbers of the errors (errno(3)).
ghost use Rattle.std.specs.Prelude.{⊤};
ghost use Rattle.number_tables.specs.Errors.{o32_errno, native_errno, errno_of_o32, errno_of_native};
ghost use Rattle.number_tables.specs.inside.ErrorLaws.{o32_errno_number, native_errno_number, o32_errno_found, native_errno_found};

use crate::{NativeNumber, O32Number};
use kernel_core::Errno;

impl O32Number for Errno {
    ghost listed_in_o32 = { λ _. ⊤ };

    ghost o32 = { o32_errno };

    ghost named_by_o32 = { errno_of_o32 };

    fn to_o32(self) -> u32 {
        match self {
            Errno::EPERM => 1,
            Errno::ENOENT => 2,
            Errno::ESRCH => 3,
            Errno::EINTR => 4,
            Errno::EBADF => 9,
            Errno::EAGAIN => 11,
            Errno::ENOMEM => 12,
            Errno::EACCES => 13,
            Errno::EFAULT => 14,
            Errno::EBUSY => 16,
            Errno::EEXIST => 17,
            Errno::ENODEV => 19,
            Errno::ENOTDIR => 20,
            Errno::EISDIR => 21,
            Errno::EINVAL => 22,
            Errno::EMFILE => 24,
            Errno::ENOTTY => 25,
            Errno::EFBIG => 27,
            Errno::ENOSPC => 28,
            Errno::ESPIPE => 29,
            Errno::EPIPE => 32,
            Errno::ERANGE => 34,
            Errno::ENAMETOOLONG => 78,
            Errno::EOVERFLOW => 79,
            Errno::ENOSYS => 89,
            Errno::ELOOP => 90,
            Errno::ENOTEMPTY => 93,
        }
    }

    fn of_o32(number: u32) -> Option<Errno> {
        match number {
            1 => Some(Errno::EPERM),
            2 => Some(Errno::ENOENT),
            3 => Some(Errno::ESRCH),
            4 => Some(Errno::EINTR),
            9 => Some(Errno::EBADF),
            11 => Some(Errno::EAGAIN),
            12 => Some(Errno::ENOMEM),
            13 => Some(Errno::EACCES),
            14 => Some(Errno::EFAULT),
            16 => Some(Errno::EBUSY),
            17 => Some(Errno::EEXIST),
            19 => Some(Errno::ENODEV),
            20 => Some(Errno::ENOTDIR),
            21 => Some(Errno::EISDIR),
            22 => Some(Errno::EINVAL),
            24 => Some(Errno::EMFILE),
            25 => Some(Errno::ENOTTY),
            27 => Some(Errno::EFBIG),
            28 => Some(Errno::ENOSPC),
            29 => Some(Errno::ESPIPE),
            32 => Some(Errno::EPIPE),
            34 => Some(Errno::ERANGE),
            78 => Some(Errno::ENAMETOOLONG),
            79 => Some(Errno::EOVERFLOW),
            89 => Some(Errno::ENOSYS),
            90 => Some(Errno::ELOOP),
            93 => Some(Errno::ENOTEMPTY),
            _ => None,
        }
    }

    ghost number_again = { o32_errno_number };

    ghost value_again = { λ value _. o32_errno_found value };

    ghost named_listed = { λ _ _ _. tt };
}

impl NativeNumber for Errno {
    ghost listed_natively = { λ _. ⊤ };

    ghost native = { native_errno };

    ghost named_natively = { errno_of_native };

    fn to_native(self) -> u64 {
        match self {
            Errno::EPERM => 1,
            Errno::ENOENT => 2,
            Errno::ESRCH => 3,
            Errno::EINTR => 4,
            Errno::EBADF => 9,
            Errno::EAGAIN => 11,
            Errno::ENOMEM => 12,
            Errno::EACCES => 13,
            Errno::EFAULT => 14,
            Errno::EBUSY => 16,
            Errno::EEXIST => 17,
            Errno::ENODEV => 19,
            Errno::ENOTDIR => 20,
            Errno::EISDIR => 21,
            Errno::EINVAL => 22,
            Errno::EMFILE => 24,
            Errno::ENOTTY => 25,
            Errno::EFBIG => 27,
            Errno::ENOSPC => 28,
            Errno::ESPIPE => 29,
            Errno::EPIPE => 32,
            Errno::ERANGE => 34,
            Errno::ENAMETOOLONG => 36,
            Errno::EOVERFLOW => 75,
            Errno::ENOSYS => 38,
            Errno::ELOOP => 40,
            Errno::ENOTEMPTY => 39,
        }
    }

    fn of_native(number: u64) -> Option<Errno> {
        match number {
            1 => Some(Errno::EPERM),
            2 => Some(Errno::ENOENT),
            3 => Some(Errno::ESRCH),
            4 => Some(Errno::EINTR),
            9 => Some(Errno::EBADF),
            11 => Some(Errno::EAGAIN),
            12 => Some(Errno::ENOMEM),
            13 => Some(Errno::EACCES),
            14 => Some(Errno::EFAULT),
            16 => Some(Errno::EBUSY),
            17 => Some(Errno::EEXIST),
            19 => Some(Errno::ENODEV),
            20 => Some(Errno::ENOTDIR),
            21 => Some(Errno::EISDIR),
            22 => Some(Errno::EINVAL),
            24 => Some(Errno::EMFILE),
            25 => Some(Errno::ENOTTY),
            27 => Some(Errno::EFBIG),
            28 => Some(Errno::ENOSPC),
            29 => Some(Errno::ESPIPE),
            32 => Some(Errno::EPIPE),
            34 => Some(Errno::ERANGE),
            36 => Some(Errno::ENAMETOOLONG),
            38 => Some(Errno::ENOSYS),
            39 => Some(Errno::ENOTEMPTY),
            40 => Some(Errno::ELOOP),
            75 => Some(Errno::EOVERFLOW),
            _ => None,
        }
    }

    ghost number_again = { native_errno_number };

    ghost value_again = { λ value _. native_errno_found value };

    ghost named_listed = { λ _ _ _. tt };
}
