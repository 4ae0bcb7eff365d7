//! The calls on the size of a file: truncate(2), ftruncate(2), and their forms with sizes of 64 bits. A size is
//! a signed number (off_t, loff_t).
ghost use Rattle.std.specs.Prelude.{◌≡◌};
ghost use Rattle.std.specs.Int.{cast_signed, w64};
ghost use Rattle.bridge_paths.specs.Passed.{KeepsCall, Proceeds};
ghost use Rattle.o32_model.specs.Answered.{IsCall};
ghost use Rattle.o32_model.specs.NodeCalls.{ftruncate_row, truncate_row};
ghost use Rattle.o32_model.specs.Step.{Guest};
ghost use Rattle.outside.specs.Streams.{contents};

use crate::calls::path_call;
use crate::paths::Caller;
use bridge_paths::{Below, NativeWords};
use host_mem::FIRST_ADDRESS;
use kernel_core::Stop;
use native_numbers::{FTRUNCATE, TRUNCATE};
use o32_model::{CallWords, Outcome};
use outside::{Devices, Sink, Source};

/// truncate(2), truncate64(2), by the bits of the size: what is wrong with the path; EINVAL for a size below 0
/// and for what is no file, EISDIR, EFBIG.
pub(crate) fn truncate<I: Source, O: Sink, E: Sink>(
    caller: &Caller,
    address: u32,
    size: u64,
    dev: &mut Devices<I, O, E>,
    below: &mut Below,
) -> Result<Outcome, Stop>
    ensures row { (guest : Guest) → guest.words ≡ caller.now.words.now → guest.memory ≡ caller.now.space.now
        → IsCall (truncate_row below.old.kernel.now guest address (cast_signed w64 size)) result below.new.kernel.now guest.memory guest.processor
        (contents I.left O.written E.written dev.old) (contents I.left O.written E.written dev.new) }
    ensures kept { (guest : Guest) → guest.words ≡ caller.now.words.now → guest.memory ≡ caller.now.space.now
        → KeepsCall (truncate_row below.old.kernel.now guest address (cast_signed w64 size)) result below.old.kernel.now guest (I.left dev.old.input) below.old.log.now below.new.log.now }
    ensures proceeds { Proceeds I.faults O.faults E.faults result below.old below.new dev.old dev.new }
{
    let args = [FIRST_ADDRESS, size, 0, 0, 0, 0];
    let call = NativeWords { nr: TRUNCATE, args };
    path_call(caller, address, call, dev, below)
}

/// ftruncate(2), ftruncate64(2), by the bits of the size: EBADF; EINVAL for a size below 0, for a descriptor
/// that is not open for writing, and for what is no file; EFBIG.
pub(crate) fn ftruncate<I: Source, O: Sink, E: Sink>(
    words: &CallWords,
    fd: u32,
    size: u64,
    dev: &mut Devices<I, O, E>,
    below: &mut Below,
) -> Result<Outcome, Stop>
    ensures row { (guest : Guest) → guest.words ≡ words.now
        → IsCall (ftruncate_row below.old.kernel.now guest fd (cast_signed w64 size)) result below.new.kernel.now guest.memory guest.processor
        (contents I.left O.written E.written dev.old) (contents I.left O.written E.written dev.new) }
    ensures kept { (guest : Guest) → guest.words ≡ words.now
        → KeepsCall (ftruncate_row below.old.kernel.now guest fd (cast_signed w64 size)) result below.old.kernel.now guest (I.left dev.old.input) below.old.log.now below.new.log.now }
    ensures proceeds { Proceeds I.faults O.faults E.faults result below.old below.new dev.old dev.new }
{
    below.memory.clear();
    let args = [u64::from(fd), size, 0, 0, 0, 0];
    below.number_call(words, FTRUNCATE, args, dev)
}
