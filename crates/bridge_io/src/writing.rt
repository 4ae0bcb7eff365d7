//! Writing: write(2).
ghost use Rattle.std.specs.Prelude.{◌≡◌, ◌<◌, ◌^◌, Some, None, length};
ghost use Rattle.bridge_log.specs.Proceeding.{Proceeds};
ghost use Rattle.bridge_io.specs.inside.Rooms.{IsRoom};
ghost use Rattle.bridge_io.specs.inside.Written.{write_of};
ghost use Rattle.bridge_log.specs.Keeping.{KeepsCall};
ghost use Rattle.kernel_model.specs.Descriptions.{opened, output_of};
ghost use Rattle.o32_model.specs.Answered.{IsCall};
ghost use Rattle.o32_model.specs.Step.{Guest};
ghost use Rattle.o32_model.specs.Transfers.{small_file_limit, write_row};
ghost use Rattle.o32_model.specs.Words.{argument};
ghost use Rattle.outside.specs.Streams.{contents};

use crate::looking::room;
use crate::room::Room;
use crate::telling::past_outcome;
use bridge_log::{Below, load_buffer, outcome_of, sent_back};
use guest_space::Space;
use host_mem::FIRST_ADDRESS;
use kernel_core::Stop;
use native_numbers::WRITE;
use o32_model::{CallWords, Outcome};
use outside::{Devices, Sink, Source};

/// write(2): EBADF, EFAULT, EFBIG past 2^31 - 1 bytes without O_LARGEFILE, ENOSPC, EAGAIN, EPIPE. The
/// longest prefix of the buffer that may be loaded is written.
pub(crate) fn write<I: Source, O: Sink, E: Sink>(
    words: &CallWords,
    space: &Space,
    dev: &mut Devices<I, O, E>,
    below: &mut Below,
) -> Result<Outcome, Stop>
    ensures row { (guest : Guest) → guest.words ≡ words.now → guest.memory ≡ space.now
        → IsCall (write_row below.old.kernel.now guest (argument words.now 0) (argument words.now 1) (argument words.now 2)) result below.new.kernel.now guest.memory guest.processor
        (contents I.left O.written E.written dev.old) (contents I.left O.written E.written dev.new) }
    ensures kept { (guest : Guest) → guest.words ≡ words.now → guest.memory ≡ space.now
        → KeepsCall (write_row below.old.kernel.now guest (argument words.now 0) (argument words.now 1) (argument words.now 2)) result below.old.kernel.now guest (I.left dev.old.input) below.old.log.now below.new.log.now }
    ensures proceeds { Proceeds I.faults O.faults E.faults result below.old below.new dev.old dev.new }
{
    let [fd, buffer, count, _] = words.reg;
    match below.kernel.output(fd) {
        Some(stream) => {
            load_buffer(space, below.memory, buffer, count)?;
            send_loaded(words, fd, stream, count, dev, below)
        }
        None => {
            let room = room(fd, dev, below)?;
            load_buffer(space, below.memory, buffer, count)?;
            write_loaded(words, fd, count, room, dev, below)
        }
    }
}

/// Writes what stands in host memory, of `count` bytes that are asked for, to an output.
pub(crate) fn send_loaded<I: Source, O: Sink, E: Sink>(
    words: &CallWords,
    fd: u32,
    stream: u8,
    count: u32,
    dev: &mut Devices<I, O, E>,
    below: &mut Below,
) -> Result<Outcome, Stop>
    ensures row { (guest : Guest) → guest.words ≡ words.now → output_of below.old.kernel.now.files fd ≡ Some stream
        → IsCall (write_of below.old.kernel.now guest fd count below.old.memory.now) result below.new.kernel.now guest.memory guest.processor
        (contents I.left O.written E.written dev.old) (contents I.left O.written E.written dev.new) }
    ensures kept { (guest : Guest) → guest.words ≡ words.now → output_of below.old.kernel.now.files fd ≡ Some stream → length below.old.memory.now < 2 ^ 32
        → KeepsCall (write_of below.old.kernel.now guest fd count below.old.memory.now) result below.old.kernel.now guest (I.left dev.old.input) below.old.log.now below.new.log.now }
    ensures proceeds { Proceeds I.faults O.faults E.faults result below.old below.new dev.old dev.new }
{
    let args = [u64::from(fd), FIRST_ADDRESS, u64::from(count), 0, 0, 0];
    let reply = below.native(WRITE, args, dev)?;
    sent_back(below.log, stream, below.memory, reply)?;
    Ok(outcome_of(words, reply))
}

/// Writes what stands in host memory, of `count` bytes that are asked for, to what is no output, as far as
/// there is room.
pub(crate) fn write_loaded<I: Source, O: Sink, E: Sink>(
    words: &CallWords,
    fd: u32,
    count: u32,
    room: Room,
    dev: &mut Devices<I, O, E>,
    below: &mut Below,
) -> Result<Outcome, Stop>
    ensures row { (guest : Guest) → guest.words ≡ words.now → output_of below.old.kernel.now.files fd ≡ None
        → IsRoom below.old.kernel.now.files small_file_limit (λ d. d.position) (opened below.old.kernel.now.files fd) room
        → IsCall (write_of below.old.kernel.now guest fd count below.old.memory.now) result below.new.kernel.now guest.memory guest.processor
        (contents I.left O.written E.written dev.old) (contents I.left O.written E.written dev.new) }
    ensures kept { (guest : Guest) → guest.words ≡ words.now → output_of below.old.kernel.now.files fd ≡ None
        → IsRoom below.old.kernel.now.files small_file_limit (λ d. d.position) (opened below.old.kernel.now.files fd) room
        → KeepsCall (write_of below.old.kernel.now guest fd count below.old.memory.now) result below.old.kernel.now guest (I.left dev.old.input) below.old.log.now below.new.log.now }
    ensures proceeds { Proceeds I.faults O.faults E.faults result below.old below.new dev.old dev.new }
{
    match room {
        Room::Most(most) => {
            let count = most.min(u64::from(count));
            let args = [u64::from(fd), FIRST_ADDRESS, count, 0, 0, 0];
            below.number_call(words, WRITE, args, dev)
        }
        Room::Past { writable, file } => {
            let there = below.memory.as_slice().len();
            Ok(past_outcome(writable, file, count, there))
        }
    }
}
