//! Writing from the buffers of a vector: writev(2).
ghost use Rattle.std.specs.Prelude.{◌≡◌, ℕ, Ok};
ghost use Rattle.bridge_log.specs.Proceeding.{Proceeds};
ghost use Rattle.bridge_log.specs.Keeping.{KeepsCall};
ghost use Rattle.o32_model.specs.Answered.{IsCall};
ghost use Rattle.o32_model.specs.GuestBytes.{vector};
ghost use Rattle.o32_model.specs.Step.{Guest};
ghost use Rattle.o32_model.specs.Transfers.{writev_row};
ghost use Rattle.o32_model.specs.Words.{argument};
ghost use Rattle.outside.specs.Streams.{contents};

use crate::looking::room;
use crate::vectors::wrong_count;
use crate::writing::{send_loaded, write_loaded};
use bridge_log::{Below, Vector};
use guest_space::Space;
use kernel_core::Stop;
use native_numbers::WRITEV;
use o32_model::{CallWords, Outcome};
use outside::{Devices, Sink, Source};

/// writev(2): EBADF; EINVAL for more than 1,024 buffers, then EFAULT where the vector can't be loaded, then
/// EINVAL for more than 2^31 - 1 bytes; then as write(2). The bytes of the buffers are written in order, up
/// to the first that may not be loaded.
pub(crate) fn writev<I: Source, O: Sink, E: Sink>(
    words: &CallWords,
    space: &Space,
    dev: &mut Devices<I, O, E>,
    below: &mut Below,
) -> Result<Outcome, Stop>
    ensures row { (guest : Guest) → guest.words ≡ words.now → guest.memory ≡ space.now
        → IsCall (writev_row below.old.kernel.now guest (argument words.now 0) (argument words.now 1) (argument words.now 2)) result below.new.kernel.now guest.memory guest.processor
        (contents I.left O.written E.written dev.old) (contents I.left O.written E.written dev.new) }
    ensures kept { (guest : Guest) → guest.words ≡ words.now → guest.memory ≡ space.now
        → KeepsCall (writev_row below.old.kernel.now guest (argument words.now 0) (argument words.now 1) (argument words.now 2)) result below.old.kernel.now guest (I.left dev.old.input) below.old.log.now below.new.log.now }
    ensures proceeds { Proceeds I.faults O.faults E.faults result below.old below.new dev.old dev.new }
{
    let [fd, address, count, _] = words.reg;
    match Vector::read(space, address, count) {
        Ok(buffers) => write_buffers(words, fd, &buffers, space, dev, below),
        Err(error) => {
            let args = [u64::from(fd), 0, wrong_count(error), 0, 0, 0];
            below.number_call(words, WRITEV, args, dev)
        }
    }
}

/// Writes from the buffers of a vector, by one native write of as many bytes as they have in all.
fn write_buffers<I: Source, O: Sink, E: Sink>(
    words: &CallWords,
    fd: u32,
    buffers: &Vector,
    space: &Space,
    dev: &mut Devices<I, O, E>,
    below: &mut Below,
) -> Result<Outcome, Stop>
    ensures row { (guest : Guest) (address count : ℕ) → guest.words ≡ words.now → guest.memory ≡ space.now → vector guest.memory address count ≡ Ok buffers.now
        → IsCall (writev_row below.old.kernel.now guest fd address count) result below.new.kernel.now guest.memory guest.processor
        (contents I.left O.written E.written dev.old) (contents I.left O.written E.written dev.new) }
    ensures kept { (guest : Guest) (address count : ℕ) → guest.words ≡ words.now → guest.memory ≡ space.now → vector guest.memory address count ≡ Ok buffers.now
        → KeepsCall (writev_row below.old.kernel.now guest fd address count) result below.old.kernel.now guest (I.left dev.old.input) below.old.log.now below.new.log.now }
    ensures proceeds { Proceeds I.faults O.faults E.faults result below.old below.new dev.old dev.new }
{
    let total = buffers.total();
    match below.kernel.output(fd) {
        Some(stream) => {
            buffers.load(space, below.memory)?;
            send_loaded(words, fd, stream, total, dev, below)
        }
        None => {
            let room = room(fd, dev, below)?;
            buffers.load(space, below.memory)?;
            write_loaded(words, fd, total, room, dev, below)
        }
    }
}
