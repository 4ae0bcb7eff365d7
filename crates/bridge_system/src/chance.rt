//! Chance: getrandom(2).
ghost use Rattle.std.specs.Prelude.{◌≡◌};
ghost use Rattle.bridge_io.specs.Passed.{KeepsCall, Proceeds};
ghost use Rattle.o32_model.specs.Answered.{IsCall};
ghost use Rattle.o32_model.specs.Small.{getrandom_row};
ghost use Rattle.o32_model.specs.Step.{Guest};
ghost use Rattle.o32_model.specs.Words.{argument};
ghost use Rattle.outside.specs.Streams.{contents};

use bridge_io::Below;
use guest_space::Space;
use host_mem::FIRST_ADDRESS;
use kernel_core::Stop;
use native_numbers::GETRANDOM;
use o32_model::{CallWords, Outcome};
use outside::{Devices, Sink, Source};

/// getrandom(2): EINVAL for flags that are none or not both, EFAULT. The longest prefix of the buffer that may be
/// stored to is filled.
pub(crate) fn getrandom<I: Source, O: Sink, E: Sink>(
    words: &CallWords,
    space: &mut Space,
    dev: &mut Devices<I, O, E>,
    below: &mut Below,
) -> Result<Outcome, Stop>
    ensures row { (guest : Guest) → guest.words ≡ words.now → guest.memory ≡ space.old
        → IsCall (getrandom_row below.old.kernel.now guest (argument words.now 0) (argument words.now 1) (argument words.now 2)) result below.new.kernel.now space.new guest.processor
        (contents I.left O.written E.written dev.old) (contents I.left O.written E.written dev.new) }
    ensures kept { (guest : Guest) → guest.words ≡ words.now → guest.memory ≡ space.old
        → KeepsCall (getrandom_row below.old.kernel.now guest (argument words.now 0) (argument words.now 1) (argument words.now 2)) result below.old.kernel.now guest (I.left dev.old.input) below.old.log.now below.new.log.now }
    ensures proceeds { Proceeds I.faults O.faults E.faults result below.old below.new dev.old dev.new }
{
    let [buffer, count, flags, _] = words.reg;
    let args = [FIRST_ADDRESS, u64::from(count), u64::from(flags), 0, 0, 0];
    below.fill_call(words, buffer, count, space, GETRANDOM, args, dev)
}
