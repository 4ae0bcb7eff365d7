//! The mask of its own that a call may have (ppoll(2), pselect(2)).
ghost use Rattle.std.specs.Prelude.{◌≡◌, Some};
ghost use Rattle.bridge_limits.specs.Limits.{given_mask};
ghost use Rattle.o32_model.specs.GuestBytes.{unless_null};
ghost use Rattle.o32_model.specs.Masks.{set_at};

use bridge_signal_state::set_in_program;
use guest_space::Space;

/// The mask that is to stand while a call waits.
#[derive(Clone, Copy)]
pub enum OwnMask {
    /// There is none.
    None,
    /// It can't be loaded.
    Unreadable,
    /// Four words of 32 bits, with bit s - 1 for the signal of number s of an o32 program.
    Set([u32; 4]),
}

/// The mask at an address of the program's memory, none where that is 0.
pub fn mask_at(space: &Space, address: u32) -> OwnMask
    ensures { given_mask result ≡ unless_null address (set_at space.now address) }
{
    if address == 0 {
        return OwnMask::None;
    }
    mask_there(space, address)
}

/// The mask that is there.
fn mask_there(space: &Space, address: u32) -> OwnMask
    ensures { given_mask result ≡ Some (set_at space.now address) }
{
    match set_in_program(space, address) {
        Err(_) => OwnMask::Unreadable,
        Ok(set) => OwnMask::Set(set),
    }
}
