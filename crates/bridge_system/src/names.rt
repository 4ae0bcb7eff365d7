//! The names of the system: uname(2).
ghost use Rattle.std.specs.Prelude.{◌≡◌};
ghost use Rattle.bridge_io.specs.Passed.{KeepsCall, Proceeds};
ghost use Rattle.o32_model.specs.Answered.{IsCall};
ghost use Rattle.o32_model.specs.Small.{uname_row};
ghost use Rattle.o32_model.specs.Step.{Guest};
ghost use Rattle.outside.specs.Streams.{contents};

use crate::telling::{Told, ToldAt, tell_call};
use bridge_io::{Below, NativeWords, fresh_room};
use guest_space::Space;
use host_mem::FIRST_ADDRESS;
use kernel_core::Stop;
use native_numbers::UNAME;
use o32_model::{CallWords, Outcome};
use outside::{Devices, Sink, Source};

/// Six texts of 65 bytes, each with NULs behind it (struct new_utsname of Linux `include/uapi/linux/utsname.h`).
const NAMES_SIZE: u32 = 390;

/// uname(2): the names are stored whole, or EFAULT and nothing is stored.
pub(crate) fn uname<I: Source, O: Sink, E: Sink>(
    words: &CallWords,
    address: u32,
    space: &mut Space,
    dev: &mut Devices<I, O, E>,
    below: &mut Below,
) -> Result<Outcome, Stop>
    ensures row { (guest : Guest) → guest.words ≡ words.now → guest.memory ≡ space.old
        → IsCall (uname_row below.old.kernel.now guest address) result below.new.kernel.now space.new guest.processor
        (contents I.left O.written E.written dev.old) (contents I.left O.written E.written dev.new) }
    ensures kept { (guest : Guest) → guest.words ≡ words.now → guest.memory ≡ space.old
        → KeepsCall (uname_row below.old.kernel.now guest address) result below.old.kernel.now guest (I.left dev.old.input) below.old.log.now below.new.log.now }
    ensures proceeds { Proceeds I.faults O.faults E.faults result below.old below.new dev.old dev.new }
{
    fresh_room(below.memory, NAMES_SIZE)?;
    let args = [FIRST_ADDRESS, 0, 0, 0, 0, 0];
    let to = ToldAt {
        address,
        told: Told::Names,
    };
    let call = NativeWords { nr: UNAME, args };
    tell_call(words, to, space, call, dev, below)
}
