//! The numbers of the requests of ioctl(2).
ghost use Rattle.std.specs.Prelude.{⊤};
ghost use Rattle.number_tables.specs.Requests.{o32_request, native_request, request_of_o32, request_of_native};
ghost use Rattle.number_tables.specs.inside.RequestLaws.{o32_request_number, native_request_number, o32_request_found, native_request_found};

use crate::{NativeNumber, O32Number};
use kernel_core::Request;

impl O32Number for Request {
    ghost listed_in_o32 = { λ _. ⊤ };

    ghost o32 = { o32_request };

    ghost named_by_o32 = { request_of_o32 };

    fn to_o32(self) -> u32 {
        match self {
            Request::Tcgets => 0x540D,
            Request::Tcsets => 0x540E,
            Request::Tcsetsw => 0x540F,
            Request::Tcsetsf => 0x5410,
            Request::Tiocgwinsz => 0x40087468,
            Request::Fionread => 0x467F,
            Request::Fionbio => 0x667E,
            Request::Fioclex => 0x6601,
            Request::Fionclex => 0x6602,
        }
    }

    fn of_o32(number: u32) -> Option<Request> {
        match number {
            0x467F => Some(Request::Fionread),
            0x540D => Some(Request::Tcgets),
            0x540E => Some(Request::Tcsets),
            0x540F => Some(Request::Tcsetsw),
            0x5410 => Some(Request::Tcsetsf),
            0x6601 => Some(Request::Fioclex),
            0x6602 => Some(Request::Fionclex),
            0x667E => Some(Request::Fionbio),
            0x40087468 => Some(Request::Tiocgwinsz),
            _ => None,
        }
    }

    ghost number_again = { o32_request_number };

    ghost value_again = { λ value _. o32_request_found value };

    ghost named_listed = { λ _ _ _. tt };
}

impl NativeNumber for Request {
    ghost listed_natively = { λ _. ⊤ };

    ghost native = { native_request };

    ghost named_natively = { request_of_native };

    fn to_native(self) -> u64 {
        match self {
            Request::Tcgets => 0x5401,
            Request::Tcsets => 0x5402,
            Request::Tcsetsw => 0x5403,
            Request::Tcsetsf => 0x5404,
            Request::Tiocgwinsz => 0x5413,
            Request::Fionread => 0x541B,
            Request::Fionbio => 0x5421,
            Request::Fioclex => 0x5451,
            Request::Fionclex => 0x5450,
        }
    }

    fn of_native(number: u64) -> Option<Request> {
        match number {
            0x5401 => Some(Request::Tcgets),
            0x5402 => Some(Request::Tcsets),
            0x5403 => Some(Request::Tcsetsw),
            0x5404 => Some(Request::Tcsetsf),
            0x5413 => Some(Request::Tiocgwinsz),
            0x541B => Some(Request::Fionread),
            0x5421 => Some(Request::Fionbio),
            0x5450 => Some(Request::Fionclex),
            0x5451 => Some(Request::Fioclex),
            _ => None,
        }
    }

    ghost number_again = { native_request_number };

    ghost value_again = { λ value _. native_request_found value };

    ghost named_listed = { λ _ _ _. tt };
}
