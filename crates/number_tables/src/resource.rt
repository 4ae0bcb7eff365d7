//! The numbers of the resources that have a limit (getrlimit(2)).
ghost use Rattle.std.specs.Prelude.{⊤};
ghost use Rattle.number_tables.specs.Resources.{o32_resource, native_resource, resource_of_o32, resource_of_native};
ghost use Rattle.number_tables.specs.inside.ResourceLaws.{o32_resource_number, native_resource_number, o32_resource_found, native_resource_found};

use crate::{NativeNumber, O32Number};
use kernel_core::Resource;

/// A limit that is none, as getrlimit shows it to an o32 program (RLIM_INFINITY of Linux
/// `arch/mips/include/uapi/asm/resource.h`).
pub const GETRLIMIT_INFINITY: u32 = 0x7FFF_FFFF;

/// A limit that is none, in prlimit64 of both worlds.
pub const INFINITY: u64 = u64::MAX;

impl O32Number for Resource {
    ghost listed_in_o32 = { λ _. ⊤ };

    ghost o32 = { o32_resource };

    ghost named_by_o32 = { resource_of_o32 };

    fn to_o32(self) -> u32 {
        match self {
            Resource::Cpu => 0,
            Resource::Fsize => 1,
            Resource::Data => 2,
            Resource::Stack => 3,
            Resource::Core => 4,
            Resource::Nofile => 5,
            Resource::As => 6,
            Resource::Rss => 7,
            Resource::Nproc => 8,
            Resource::Memlock => 9,
            Resource::Locks => 10,
            Resource::Sigpending => 11,
            Resource::Msgqueue => 12,
            Resource::Nice => 13,
            Resource::Rtprio => 14,
            Resource::Rttime => 15,
        }
    }

    fn of_o32(number: u32) -> Option<Resource> {
        match number {
            0 => Some(Resource::Cpu),
            1 => Some(Resource::Fsize),
            2 => Some(Resource::Data),
            3 => Some(Resource::Stack),
            4 => Some(Resource::Core),
            5 => Some(Resource::Nofile),
            6 => Some(Resource::As),
            7 => Some(Resource::Rss),
            8 => Some(Resource::Nproc),
            9 => Some(Resource::Memlock),
            10 => Some(Resource::Locks),
            11 => Some(Resource::Sigpending),
            12 => Some(Resource::Msgqueue),
            13 => Some(Resource::Nice),
            14 => Some(Resource::Rtprio),
            15 => Some(Resource::Rttime),
            _ => None,
        }
    }

    ghost number_again = { o32_resource_number };

    ghost value_again = { λ value _. o32_resource_found value };

    ghost named_listed = { λ _ _ _. tt };
}

impl NativeNumber for Resource {
    ghost listed_natively = { λ _. ⊤ };

    ghost native = { native_resource };

    ghost named_natively = { resource_of_native };

    fn to_native(self) -> u64 {
        match self {
            Resource::Cpu => 0,
            Resource::Fsize => 1,
            Resource::Data => 2,
            Resource::Stack => 3,
            Resource::Core => 4,
            Resource::Nofile => 7,
            Resource::As => 9,
            Resource::Rss => 5,
            Resource::Nproc => 6,
            Resource::Memlock => 8,
            Resource::Locks => 10,
            Resource::Sigpending => 11,
            Resource::Msgqueue => 12,
            Resource::Nice => 13,
            Resource::Rtprio => 14,
            Resource::Rttime => 15,
        }
    }

    fn of_native(number: u64) -> Option<Resource> {
        match number {
            0 => Some(Resource::Cpu),
            1 => Some(Resource::Fsize),
            2 => Some(Resource::Data),
            3 => Some(Resource::Stack),
            4 => Some(Resource::Core),
            5 => Some(Resource::Rss),
            6 => Some(Resource::Nproc),
            7 => Some(Resource::Nofile),
            8 => Some(Resource::Memlock),
            9 => Some(Resource::As),
            10 => Some(Resource::Locks),
            11 => Some(Resource::Sigpending),
            12 => Some(Resource::Msgqueue),
            13 => Some(Resource::Nice),
            14 => Some(Resource::Rtprio),
            15 => Some(Resource::Rttime),
            _ => None,
        }
    }

    ghost number_again = { native_resource_number };

    ghost value_again = { λ value _. native_resource_found value };

    ghost named_listed = { λ _ _ _. tt };
}
