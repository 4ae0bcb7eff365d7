//! Times in a program's memory (timespec(3)).
ghost use Rattle.std.specs.Prelude.{◌≡◌, length};
ghost use Rattle.o32_model.specs.Times as times;

use bridge_signal_state::{load_structure, signed_word_at};
use guest_space::Space;
use kernel_core::Errno;
use kernel_model::TimeSpec;

const TIME_SIZE: usize = 8;

/// The time in the program's memory, or EFAULT where it can't be loaded.
pub(crate) fn time_in_program(space: &Space, address: u32) -> Result<TimeSpec, Errno>
    ensures { result ≡ times.spec_at space.now address }
{
    let mut bytes = [0; TIME_SIZE];
    match load_structure(space, address, &mut bytes) {
        Err(error) => Err(error),
        Ok(()) => Ok(time_in(&bytes)),
    }
}

fn time_in(bytes: &[u8]) -> TimeSpec
    requires { length bytes.now ≡ 8 }
    ensures { result ≡ times.spec_in bytes.now }
{
    TimeSpec {
        seconds: signed_word_at(bytes, 0),
        nanoseconds: signed_word_at(bytes, 4),
    }
}
