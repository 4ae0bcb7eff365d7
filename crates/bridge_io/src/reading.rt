//! Reading: read(2), pread(2).
ghost use Rattle.std.specs.Prelude.{◌≡◌};
ghost use Rattle.bridge_log.specs.Proceeding.{Proceeds};
ghost use Rattle.bridge_log.specs.Keeping.{KeepsCall};
ghost use Rattle.o32_model.specs.Answered.{IsCall};
ghost use Rattle.o32_model.specs.Step.{Guest};
ghost use Rattle.o32_model.specs.Transfers.{pread_row, read_row};
ghost use Rattle.o32_model.specs.Words.{argument, stack_pair};
ghost use Rattle.outside.specs.Streams.{contents};

use bridge_log::{Below, stack_pair};
use guest_space::Space;
use host_mem::FIRST_ADDRESS;
use kernel_core::{Errno, Stop};
use native_numbers::{PREAD64, READ};
use o32_model::{CallWords, Outcome};
use outside::{Devices, Sink, Source};

/// read(2): EBADF, EFAULT, EISDIR, EAGAIN. The longest prefix of the buffer that may be stored to is filled.
pub(crate) fn read<I: Source, O: Sink, E: Sink>(
    words: &CallWords,
    space: &mut Space,
    dev: &mut Devices<I, O, E>,
    below: &mut Below,
) -> Result<Outcome, Stop>
    ensures row { (guest : Guest) → guest.words ≡ words.now → guest.memory ≡ space.old
        → IsCall (read_row below.old.kernel.now guest (argument words.now 0) (argument words.now 1) (argument words.now 2)) result below.new.kernel.now space.new guest.processor
        (contents I.left O.written E.written dev.old) (contents I.left O.written E.written dev.new) }
    ensures kept { (guest : Guest) → guest.words ≡ words.now → guest.memory ≡ space.old
        → KeepsCall (read_row below.old.kernel.now guest (argument words.now 0) (argument words.now 1) (argument words.now 2)) result below.old.kernel.now guest (I.left dev.old.input) below.old.log.now below.new.log.now }
    ensures proceeds { Proceeds I.faults O.faults E.faults result below.old below.new dev.old dev.new }
{
    let [fd, buffer, count, _] = words.reg;
    let args = [u64::from(fd), FIRST_ADDRESS, u64::from(count), 0, 0, 0];
    below.fill_call(words, buffer, count, space, READ, args, dev)
}

/// pread(2): as read(2) at a place, which two words on the stack give. EFAULT before all else where one of
/// them can't be read; EINVAL for a place below 0; ESPIPE for a stream or a pipe.
pub(crate) fn pread<I: Source, O: Sink, E: Sink>(
    words: &CallWords,
    space: &mut Space,
    dev: &mut Devices<I, O, E>,
    below: &mut Below,
) -> Result<Outcome, Stop>
    ensures row { (guest : Guest) → guest.words ≡ words.now → guest.memory ≡ space.old
        → IsCall (pread_row below.old.kernel.now guest (argument words.now 0) (argument words.now 1) (argument words.now 2) (stack_pair words.now)) result below.new.kernel.now space.new guest.processor
        (contents I.left O.written E.written dev.old) (contents I.left O.written E.written dev.new) }
    ensures kept { (guest : Guest) → guest.words ≡ words.now → guest.memory ≡ space.old
        → KeepsCall (pread_row below.old.kernel.now guest (argument words.now 0) (argument words.now 1) (argument words.now 2) (stack_pair words.now)) result below.old.kernel.now guest (I.left dev.old.input) below.old.log.now below.new.log.now }
    ensures proceeds { Proceeds I.faults O.faults E.faults result below.old below.new dev.old dev.new }
{
    let Some(place) = stack_pair(words) else {
        return Ok(Outcome::Error(Errno::EFAULT));
    };
    let [fd, buffer, count, _] = words.reg;
    let args = [u64::from(fd), FIRST_ADDRESS, u64::from(count), place, 0, 0];
    below.fill_call(words, buffer, count, space, PREAD64, args, dev)
}
