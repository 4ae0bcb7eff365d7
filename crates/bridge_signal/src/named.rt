//! Signals by the numbers that a program names.
ghost use Rattle.std.specs.Prelude.{◌≡◌};
ghost use Rattle.native_calls.specs.Arguments.{low_word};
ghost use Rattle.native_calls.specs.SignalBytes.{named_by};
ghost use Rattle.o32_model.specs.Sending.{named};

use kernel_core::Sig;
use number_tables::{NativeNumber, O32Number};

/// A number that no signal has, in either world.
const UNLISTED: u64 = 129;

/// The native number of what a number names to a program: 0 names no signal, and one above 128 none that is
/// listed.
pub(crate) fn native_number(number: u32) -> u64
    ensures { named_by (low_word result) ≡ named number }
{
    if number == 0 {
        return 0;
    }
    match Sig::of_o32(number) {
        None => UNLISTED,
        Some(sig) => sig.to_native(),
    }
}
