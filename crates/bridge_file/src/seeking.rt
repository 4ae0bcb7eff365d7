//! The calls that move a position: lseek(2), _llseek(2).
ghost use Rattle.std.specs.Prelude.{◌≡◌, ℕ, List};
ghost use Rattle.std.specs.Int.{cast_signed, w32};
ghost use Rattle.bridge_paths.specs.Passed.{AreUnusedZero, IsPlaced, KeepsCall, Mirrors, Proceeds, built_call};
ghost use Rattle.native_calls.specs.Table.{native_call};
ghost use Rattle.o32_model.specs.Answered.{IsCall};
ghost use Rattle.o32_model.specs.Opening.{llseek_row, lseek_row};
ghost use Rattle.o32_model.specs.Step.{Guest, O32Step};
ghost use Rattle.o32_model.specs.Words.{argument, pair, stack_word};
ghost use Rattle.outside.specs.Streams.{contents};
ghost use Rattle.bridge_file.specs.inside.Places.{outcome_of_place, told_place};

use crate::arguments::{fifth, pair, widened};
use crate::telling::{Told, ToldAt, tell_call};
use bridge_paths::{Below, NativeWords, outcome_of};
use guest_space::Space;
use kernel_core::{Errno, Reply, Stop};
use native_numbers::LSEEK;
use o32_model::{CallWords, Outcome};
use outside::{Devices, Sink, Source};

/// The greatest place that the result of lseek(2) holds (off_t of 32 bits).
const GREATEST_PLACE: i64 = 0x7FFF_FFFF;

/// lseek(2): EBADF, ESPIPE, EINVAL; EOVERFLOW for a place that the result does not hold, and then the position
/// has moved.
pub(crate) fn lseek<I: Source, O: Sink, E: Sink>(
    words: &CallWords,
    fd: u32,
    offset: u32,
    origin: u32,
    dev: &mut Devices<I, O, E>,
    below: &mut Below,
) -> Result<Outcome, Stop>
    ensures row { (guest : Guest) → guest.words ≡ words.now
        → IsCall (lseek_row below.old.kernel.now guest fd (cast_signed w32 offset) origin) result below.new.kernel.now guest.memory guest.processor
        (contents I.left O.written E.written dev.old) (contents I.left O.written E.written dev.new) }
    ensures kept { (guest : Guest) → guest.words ≡ words.now
        → KeepsCall (lseek_row below.old.kernel.now guest fd (cast_signed w32 offset) origin) result below.old.kernel.now guest (I.left dev.old.input) below.old.log.now below.new.log.now }
    ensures proceeds { Proceeds I.faults O.faults E.faults result below.old below.new dev.old dev.new }
{
    below.memory.clear();
    let args = [u64::from(fd), widened(offset), u64::from(origin), 0, 0, 0];
    let call = NativeWords { nr: LSEEK, args };
    place_call(words, call, dev, below)
}

/// Makes a native call whose number is a place, and EOVERFLOW where the result does not hold it.
fn place_call<I: Source, O: Sink, E: Sink>(
    words: &CallWords,
    call: NativeWords,
    dev: &mut Devices<I, O, E>,
    below: &mut Below,
) -> Result<Outcome, Stop>
    requires built { built_call call.nr ≡ native_call call.nr }
    requires unused { AreUnusedZero call.nr call.args }
    requires placed { IsPlaced call.nr below.old.memory.now }
    ensures row { (guest : Guest) (step : List ℕ → O32Step) → guest.words ≡ words.now
        → ((left : List ℕ) → Mirrors guest (told_place guest.words) (native_call call.nr call.args below.old.kernel.now below.old.memory.now left) (step left))
        → IsCall step result below.new.kernel.now guest.memory guest.processor
        (contents I.left O.written E.written dev.old) (contents I.left O.written E.written dev.new) }
    ensures kept { (guest : Guest) (step : List ℕ → O32Step) → guest.words ≡ words.now
        → ((left : List ℕ) → Mirrors guest (told_place guest.words) (native_call call.nr call.args below.old.kernel.now below.old.memory.now left) (step left))
        → KeepsCall step result below.old.kernel.now guest (I.left dev.old.input) below.old.log.now below.new.log.now }
    ensures proceeds { Proceeds I.faults O.faults E.faults result below.old below.new dev.old dev.new }
{
    let reply = below.native(call.nr, call.args, dev)?;
    Ok(outcome_of_place(words, reply))
}

/// What a reply comes to whose number is a place.
fn outcome_of_place(words: &CallWords, reply: Reply) -> Outcome
    ensures { result ≡ outcome_of_place words.now reply }
{
    match reply {
        Reply::Done(place) if place > GREATEST_PLACE => Outcome::Error(Errno::EOVERFLOW),
        _ => outcome_of(words, reply),
    }
}

/// _llseek(2): EFAULT before all else where the origin can't be read (this project's own); EBADF, ESPIPE,
/// EINVAL; EFAULT where the place can't be stored, and then the position has moved.
pub(crate) fn llseek<I: Source, O: Sink, E: Sink>(
    words: &CallWords,
    space: &mut Space,
    dev: &mut Devices<I, O, E>,
    below: &mut Below,
) -> Result<Outcome, Stop>
    ensures row { (guest : Guest) → guest.words ≡ words.now → guest.memory ≡ space.old
        → IsCall (llseek_row below.old.kernel.now guest (argument words.now 0) (pair (argument words.now 1) (argument words.now 2)) (argument words.now 3) (stack_word words.now 0)) result below.new.kernel.now space.new guest.processor
        (contents I.left O.written E.written dev.old) (contents I.left O.written E.written dev.new) }
    ensures kept { (guest : Guest) → guest.words ≡ words.now → guest.memory ≡ space.old
        → KeepsCall (llseek_row below.old.kernel.now guest (argument words.now 0) (pair (argument words.now 1) (argument words.now 2)) (argument words.now 3) (stack_word words.now 0)) result below.old.kernel.now guest (I.left dev.old.input) below.old.log.now below.new.log.now }
    ensures proceeds { Proceeds I.faults O.faults E.faults result below.old below.new dev.old dev.new }
{
    match fifth(words) {
        None => Ok(Outcome::Error(Errno::EFAULT)),
        Some(origin) => {
            let [fd, high, low, address] = words.reg;
            below.memory.clear();
            let args = [u64::from(fd), pair(high, low), u64::from(origin), 0, 0, 0];
            let told = ToldAt {
                what: Told::Place,
                address,
            };
            let call = NativeWords { nr: LSEEK, args };
            tell_call(words, told, space, call, dev, below)
        }
    }
}
