//! Limits as they stand in memory, and the numbers of resources (getrlimit(2), prlimit(2)).
ghost use Rattle.std.specs.Prelude.{◌≡◌, ◌<◌, ◌^◌};
ghost use Rattle.native_calls.specs.System as native;
ghost use Rattle.bridge_system.specs.inside.Limits.{limit_there, native_number};
ghost use Rattle.o32_model.specs.Small.{limit_bytes, limit_in, shown_bytes};

use byteorder::{BigEndian, ByteOrder, LittleEndian};
use host_mem::{FIRST_ADDRESS, HostMem};
use kernel_core::Resource;
use kernel_model::Limit;
use layouts::{NativeStructure, O32Structure, native_layout, o32_layout, put_record};
use number_tables::native_from_o32;

/// The size of a limit in host memory, in bytes (struct rlimit64 of prlimit(2)).
const LIMIT_SIZE: u64 = 16;

/// getrlimit(2) shows more than this as this, which stands for no limit (RLIM_INFINITY of Linux
/// `arch/mips/include/uapi/asm/resource.h`).
const MOST_SHOWN: u64 = 0x7FFF_FFFF;

/// A number that no resource has for the native kernel (Linux `include/uapi/asm-generic/resource.h`).
const NO_RESOURCE: u64 = 16;

/// The native number of a resource by that for an o32 program, and one that no resource has where it is none.
pub(crate) fn native_number(resource: u32) -> u64
    ensures { result ≡ native_number resource }
{
    native_from_o32::<Resource>(resource).unwrap_or(NO_RESOURCE)
}

/// The limit that stands in host memory.
pub(crate) fn limit_there(mem: &HostMem) -> Limit
    ensures { result ≡ limit_there mem.now }
{
    match mem.read(FIRST_ADDRESS, LIMIT_SIZE) {
        Some(bytes) => Limit {
            soft: LittleEndian::read_u64(bytes),
            hard: LittleEndian::read_u64(&bytes[8..]),
        },
        None => Limit { soft: 0, hard: 0 },
    }
}

/// A limit in two words (struct rlimit of getrlimit(2)).
pub(crate) fn shown_bytes(limit: Limit) -> [u8; 8]
    ensures { result ≡ shown_bytes limit }
{
    let values = [
        i128::from(limit.soft.min(MOST_SHOWN)),
        i128::from(limit.hard.min(MOST_SHOWN)),
    ];
    let mut bytes = [0; 8];
    put_record(o32_layout(O32Structure::Rlimit), &values, &mut bytes);
    bytes
}

/// A limit in two numbers of eight bytes (struct rlimit64 of prlimit(2)).
pub(crate) fn limit_bytes(limit: Limit) -> [u8; 16]
    ensures { result ≡ limit_bytes limit }
{
    let values = [i128::from(limit.soft), i128::from(limit.hard)];
    let mut bytes = [0; 16];
    put_record(o32_layout(O32Structure::Rlimit64), &values, &mut bytes);
    bytes
}

/// The limit of a structure of the program (struct rlimit64).
pub(crate) fn limit_in(bytes: &[u8; 16]) -> Limit
    ensures value { result ≡ limit_in bytes.now }
    ensures fits { (result.soft < 2 ^ 64) × (result.hard < 2 ^ 64) }
{
    Limit {
        soft: BigEndian::read_u64(bytes),
        hard: BigEndian::read_u64(&bytes[8..]),
    }
}

/// A limit as the native kernel's structure.
pub(crate) fn native_limit_bytes(limit: Limit) -> [u8; 16]
    ensures { result ≡ native.limit_bytes limit }
{
    let values = [i128::from(limit.soft), i128::from(limit.hard)];
    let mut bytes = [0; 16];
    put_record(native_layout(NativeStructure::Rlimit), &values, &mut bytes);
    bytes
}
