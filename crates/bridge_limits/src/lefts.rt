//! The time that is left when a call ends.
ghost use Rattle.std.specs.Prelude.{◌≡◌, ℕ, Option, OnOk, length};
ghost use Rattle.bridge_limits.specs.Limits.{ShowsLeft, left_form};
ghost use Rattle.bridge_limits.specs.inside.Lefts as spec;
ghost use Rattle.bridge_signal_state.specs.Passed.{EffectsLead};
ghost use Rattle.o32_model.specs.GuestBytes.{with_stored};
ghost use Rattle.o32_model.specs.TimeLeft.{with_left_of};

use crate::times::{TimeForm, TimePlace};
use crate::words::two_words;
use bridge_signal_state::put;
use byteorder::{ByteOrder, LittleEndian};
use guest_space::Space;
use host_mem::HostMem;
use kernel_core::NoMemory;
use o32_model::Log;

/// How many bytes a time has in host memory.
const NATIVE_SIZE: u64 = 16;

const NANOSECONDS_PER_SECOND: u64 = 1_000_000_000;

const NANOSECONDS_PER_MICROSECOND: u32 = 1000;

/// A time as a program is shown it.
#[derive(Clone, Copy)]
pub(crate) struct Left {
    /// The low 32 bits of its seconds.
    seconds: u32,
    nanoseconds: u32,
}

impl Left {
    /// Of a time in nanoseconds.
    pub(crate) fn of(time: u64) -> Left
        ensures { result ≡ spec.left_of time }
    {
        Left {
            seconds: (time / NANOSECONDS_PER_SECOND % (1 << 32)) as u32,
            nanoseconds: (time % NANOSECONDS_PER_SECOND) as u32,
        }
    }

    /// Its bytes in the program's memory; microseconds are rounded down.
    fn bytes(self, form: TimeForm) -> [u8; 8]
        ensures { result ≡ spec.bytes_of form self }
    {
        match form {
            TimeForm::Nanoseconds => two_words(self.seconds, self.nanoseconds),
            TimeForm::Microseconds => two_words(
                self.seconds,
                self.nanoseconds / NANOSECONDS_PER_MICROSECOND,
            ),
        }
    }
}

/// Stores in the program's memory the time that the native call has left in host memory at `place`, where that is not 0
/// and there is room for all of it; what it writes is kept where effects are kept. It fails for want of memory alone.
pub fn store_left(
    at: TimePlace,
    place: u64,
    mem: &HostMem,
    space: &mut Space,
    log: &mut Log,
) -> Result<(), NoMemory>
    ensures stored { (left : Option ℕ) → ShowsLeft mem.now place left
        → OnOk result (space.new ≡ with_left_of (left_form at) space.old left space.old) }
    ensures effects { OnOk result (EffectsLead log.old log.new space.old space.new) }
    ensures native { log.new.native ≡ log.old.native }
{
    match left_at(mem, place) {
        None => Ok(()),
        Some(left) => put_left(at, left, space, log),
    }
}

/// Stores a time where there is room for all of it.
pub(crate) fn put_left(
    at: TimePlace,
    left: Left,
    space: &mut Space,
    log: &mut Log,
) -> Result<(), NoMemory>
    ensures stored { OnOk result (space.new ≡ with_stored space.old at.address (spec.bytes_of at.form left)) }
    ensures effects { OnOk result (EffectsLead log.old log.new space.old space.new) }
    ensures native { log.new.native ≡ log.old.native }
{
    put(space, at.address, &left.bytes(at.form), log)?;
    Ok(())
}

/// The time at a place in host memory, none where that is 0.
fn left_at(mem: &HostMem, place: u64) -> Option<Left>
    ensures { result ≡ spec.left_at mem.now place }
{
    if place == 0 {
        return None;
    }
    match mem.read(place, NATIVE_SIZE) {
        None => None,
        Some(bytes) => Some(left_in(bytes)),
    }
}

/// The time that some bytes of host memory are.
fn left_in(bytes: &[u8]) -> Left
    requires { length bytes.now ≡ 16 }
    ensures { result ≡ spec.left_in bytes.now }
{
    Left {
        seconds: LittleEndian::read_u32(bytes),
        nanoseconds: LittleEndian::read_u32(&bytes[8..]),
    }
}
