//! What is known of a signal, in a program's memory (siginfo_t of Linux `arch/mips/include/uapi/asm/siginfo.h`).
ghost use Rattle.std.specs.Prelude.{◌≡◌, ◌∷◌, [], length, pos};
ghost use Rattle.layouts.specs.O32.{siginfo, siginfo_fault};
ghost use Rattle.layouts.specs.Shape.{record_bytes};
ghost use Rattle.number_tables.specs.Signals.{o32_signal};
ghost use Rattle.o32_model.specs.Suspending.{info_bytes};

use kernel_core::Info;
use layouts::{O32Structure, o32_layout, put_record};
use number_tables::O32Number;

const INFO_SIZE: usize = 128;

/// The bytes of what is known of a signal: the fields of a fault where its address is not 0, and else those of a signal
/// that was sent.
pub(crate) fn info_bytes(info: Info) -> [u8; INFO_SIZE]
    ensures { result ≡ info_bytes info }
{
    let mut bytes = [0; INFO_SIZE];
    if info.addr == 0 {
        write_sent(info, &mut bytes);
    } else {
        write_fault(info, &mut bytes);
    }
    bytes
}

fn write_sent(info: Info, bytes: &mut [u8])
    requires { length bytes.old ≡ 128 }
    ensures { bytes.new ≡ record_bytes siginfo (pos (o32_signal info.sig) ∷ info.code ∷ info.errno
        ∷ pos info.pid ∷ pos info.uid ∷ pos info.value ∷ []) }
{
    let values = [
        i128::from(info.sig.to_o32()),
        i128::from(info.code),
        i128::from(info.errno),
        i128::from(info.pid),
        i128::from(info.uid),
        i128::from(info.value),
    ];
    put_record(o32_layout(O32Structure::Siginfo), &values, bytes);
}

fn write_fault(info: Info, bytes: &mut [u8])
    requires { length bytes.old ≡ 128 }
    ensures { bytes.new ≡ record_bytes siginfo_fault (pos (o32_signal info.sig) ∷ info.code ∷ info.errno
        ∷ pos info.addr ∷ []) }
{
    let values = [
        i128::from(info.sig.to_o32()),
        i128::from(info.code),
        i128::from(info.errno),
        i128::from(info.addr),
    ];
    put_record(o32_layout(O32Structure::SiginfoFault), &values, bytes);
}
