//! Sets of signals in a program's memory (Linux `arch/mips/include/uapi/asm/signal.h`).
ghost use Rattle.std.specs.Prelude.{◌≡◌, length, IfErr};
ghost use Rattle.kernel_core.specs.declared.error.Errno.TheVariants.{EFAULT};
ghost use Rattle.o32_model.specs.Masks as masks;

use bridge_log::{load_structure, word_at};
use guest_space::Space;
use kernel_core::Errno;

const SET_SIZE: usize = 16;

/// The set at an address: four words, with bit s - 1 for the signal of number s of an o32 program. EFAULT where it can't be
/// loaded.
pub fn set_in_program(space: &Space, address: u32) -> Result<[u32; 4], Errno>
    ensures set { result ≡ masks.set_at space.now address }
    ensures fault { IfErr result (λ error. error ≡ EFAULT) }
{
    let mut bytes = [0; SET_SIZE];
    match load_structure(space, address, &mut bytes) {
        Err(_) => Err(Errno::EFAULT),
        Ok(()) => Ok(set_in(&bytes)),
    }
}

fn set_in(bytes: &[u8]) -> [u32; 4]
    requires { length bytes.now ≡ 16 }
    ensures { result ≡ masks.set_in bytes.now }
{
    [
        word_at(bytes, 0),
        word_at(bytes, 4),
        word_at(bytes, 8),
        word_at(bytes, 12),
    ]
}
