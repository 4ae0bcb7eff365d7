//! The numbers of the signals (signal(7)).
ghost use Rattle.std.specs.Prelude.{◌≡◌, ⊤};
ghost use Rattle.kernel_core.specs.declared.signal.Sig.{Sig};
ghost use Rattle.number_tables.specs.Signals.{o32_signal, native_signal, signal_of_o32, signal_of_native, real_time};
ghost use Rattle.number_tables.specs.inside.SignalLaws.{o32_number_found, native_number_found, o32_signal_found, native_signal_found};

use crate::{NativeNumber, O32Number};
use kernel_core::{RealTime, Sig};

impl O32Number for Sig {
    ghost listed_in_o32 = { λ _. ⊤ };

    ghost o32 = { o32_signal };

    ghost named_by_o32 = { signal_of_o32 };

    fn to_o32(self) -> u32 {
        match self {
            Sig::Hup => 1,
            Sig::Int => 2,
            Sig::Quit => 3,
            Sig::Ill => 4,
            Sig::Trap => 5,
            Sig::Abrt => 6,
            Sig::Emt => 7,
            Sig::Fpe => 8,
            Sig::Kill => 9,
            Sig::Bus => 10,
            Sig::Segv => 11,
            Sig::Sys => 12,
            Sig::Pipe => 13,
            Sig::Alrm => 14,
            Sig::Term => 15,
            Sig::Usr1 => 16,
            Sig::Usr2 => 17,
            Sig::Chld => 18,
            Sig::Pwr => 19,
            Sig::Winch => 20,
            Sig::Urg => 21,
            Sig::Io => 22,
            Sig::Stop => 23,
            Sig::Tstp => 24,
            Sig::Cont => 25,
            Sig::Ttin => 26,
            Sig::Ttou => 27,
            Sig::Vtalrm => 28,
            Sig::Prof => 29,
            Sig::Xcpu => 30,
            Sig::Xfsz => 31,
            Sig::RealTime(signal) => u32::from(signal.number),
        }
    }

    fn of_o32(number: u32) -> Option<Sig> {
        match number {
            1 => Some(Sig::Hup),
            2 => Some(Sig::Int),
            3 => Some(Sig::Quit),
            4 => Some(Sig::Ill),
            5 => Some(Sig::Trap),
            6 => Some(Sig::Abrt),
            7 => Some(Sig::Emt),
            8 => Some(Sig::Fpe),
            9 => Some(Sig::Kill),
            10 => Some(Sig::Bus),
            11 => Some(Sig::Segv),
            12 => Some(Sig::Sys),
            13 => Some(Sig::Pipe),
            14 => Some(Sig::Alrm),
            15 => Some(Sig::Term),
            16 => Some(Sig::Usr1),
            17 => Some(Sig::Usr2),
            18 => Some(Sig::Chld),
            19 => Some(Sig::Pwr),
            20 => Some(Sig::Winch),
            21 => Some(Sig::Urg),
            22 => Some(Sig::Io),
            23 => Some(Sig::Stop),
            24 => Some(Sig::Tstp),
            25 => Some(Sig::Cont),
            26 => Some(Sig::Ttin),
            27 => Some(Sig::Ttou),
            28 => Some(Sig::Vtalrm),
            29 => Some(Sig::Prof),
            30 => Some(Sig::Xcpu),
            31 => Some(Sig::Xfsz),
            _ => real_time_numbered(u64::from(number)),
        }
    }

    ghost number_again = { o32_number_found };

    ghost value_again = { λ signal _. o32_signal_found signal };

    ghost named_listed = { λ _ _ _. tt };
}

impl NativeNumber for Sig {
    ghost listed_natively = { λ _. ⊤ };

    ghost native = { native_signal };

    ghost named_natively = { signal_of_native };

    fn to_native(self) -> u64 {
        match self {
            Sig::Hup => 1,
            Sig::Int => 2,
            Sig::Quit => 3,
            Sig::Ill => 4,
            Sig::Trap => 5,
            Sig::Abrt => 6,
            Sig::Bus => 7,
            Sig::Fpe => 8,
            Sig::Kill => 9,
            Sig::Usr1 => 10,
            Sig::Segv => 11,
            Sig::Usr2 => 12,
            Sig::Pipe => 13,
            Sig::Alrm => 14,
            Sig::Term => 15,
            Sig::Emt => 16,
            Sig::Chld => 17,
            Sig::Cont => 18,
            Sig::Stop => 19,
            Sig::Tstp => 20,
            Sig::Ttin => 21,
            Sig::Ttou => 22,
            Sig::Urg => 23,
            Sig::Xcpu => 24,
            Sig::Xfsz => 25,
            Sig::Vtalrm => 26,
            Sig::Prof => 27,
            Sig::Winch => 28,
            Sig::Io => 29,
            Sig::Pwr => 30,
            Sig::Sys => 31,
            Sig::RealTime(signal) => u64::from(signal.number),
        }
    }

    fn of_native(number: u64) -> Option<Sig> {
        match number {
            1 => Some(Sig::Hup),
            2 => Some(Sig::Int),
            3 => Some(Sig::Quit),
            4 => Some(Sig::Ill),
            5 => Some(Sig::Trap),
            6 => Some(Sig::Abrt),
            7 => Some(Sig::Bus),
            8 => Some(Sig::Fpe),
            9 => Some(Sig::Kill),
            10 => Some(Sig::Usr1),
            11 => Some(Sig::Segv),
            12 => Some(Sig::Usr2),
            13 => Some(Sig::Pipe),
            14 => Some(Sig::Alrm),
            15 => Some(Sig::Term),
            16 => Some(Sig::Emt),
            17 => Some(Sig::Chld),
            18 => Some(Sig::Cont),
            19 => Some(Sig::Stop),
            20 => Some(Sig::Tstp),
            21 => Some(Sig::Ttin),
            22 => Some(Sig::Ttou),
            23 => Some(Sig::Urg),
            24 => Some(Sig::Xcpu),
            25 => Some(Sig::Xfsz),
            26 => Some(Sig::Vtalrm),
            27 => Some(Sig::Prof),
            28 => Some(Sig::Winch),
            29 => Some(Sig::Io),
            30 => Some(Sig::Pwr),
            31 => Some(Sig::Sys),
            _ => real_time_numbered(number),
        }
    }

    ghost number_again = { native_number_found };

    ghost value_again = { λ signal _. native_signal_found signal };

    ghost named_listed = { λ _ _ _. tt };
}

/// The real-time signal of this number, which is the same in both worlds.
fn real_time_numbered(number: u64) -> Option<Sig>
    ensures { result ≡ real_time number }
{
    match number {
        32..=128 => Some(Sig::RealTime(RealTime {
            number: number as u8,
        })),
        _ => None,
    }
}
