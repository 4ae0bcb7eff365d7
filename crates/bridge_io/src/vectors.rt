//! Reading into the buffers of a vector: readv(2).
ghost use Rattle.std.specs.Prelude.{◌≡◌, ◌≤◌, ℕ, [], Ok, length, OnOk};
ghost use Rattle.bridge_log.specs.Proceeding.{Proceeds};
ghost use Rattle.bridge_io.specs.inside.Outcomes.{wrong_count};
ghost use Rattle.bridge_log.specs.Fills.{bytes_back};
ghost use Rattle.bridge_log.specs.Keeping.{EffectsLead, KeepsCall};
ghost use Rattle.o32_model.specs.Answered.{IsCall};
ghost use Rattle.o32_model.specs.GuestBytes.{vector, all_accessible, all_copied_out};
ghost use Rattle.o32_model.specs.Step.{Guest};
ghost use Rattle.o32_model.specs.Transfers.{readv_row};
ghost use Rattle.o32_model.specs.Words.{argument};
ghost use Rattle.outside.specs.Streams.{contents};

use bridge_log::{Below, Vector, bytes_back, fresh_room, outcome_of, put_some};
use guest_space::Space;
use host_mem::{FIRST_ADDRESS, HostMem};
use kernel_core::{Errno, NoMemory, Reply, Stop};
use native_numbers::{READ, READV};
use o32_model::{CallWords, Log, Outcome, Range};
use outside::{Devices, Sink, Source};

/// readv(2): EBADF; EINVAL for more than 1,024 buffers, then EFAULT where the vector can't be loaded, then
/// EINVAL for more than 2^31 - 1 bytes; EFAULT where the first byte can't be stored to, EISDIR, EAGAIN. The
/// buffers are filled in order, up to the first byte that may not be stored to.
pub(crate) fn readv<I: Source, O: Sink, E: Sink>(
    words: &CallWords,
    space: &mut Space,
    dev: &mut Devices<I, O, E>,
    below: &mut Below,
) -> Result<Outcome, Stop>
    ensures row { (guest : Guest) → guest.words ≡ words.now → guest.memory ≡ space.old
        → IsCall (readv_row below.old.kernel.now guest (argument words.now 0) (argument words.now 1) (argument words.now 2)) result below.new.kernel.now space.new guest.processor
        (contents I.left O.written E.written dev.old) (contents I.left O.written E.written dev.new) }
    ensures kept { (guest : Guest) → guest.words ≡ words.now → guest.memory ≡ space.old
        → KeepsCall (readv_row below.old.kernel.now guest (argument words.now 0) (argument words.now 1) (argument words.now 2)) result below.old.kernel.now guest (I.left dev.old.input) below.old.log.now below.new.log.now }
    ensures proceeds { Proceeds I.faults O.faults E.faults result below.old below.new dev.old dev.new }
{
    let [fd, address, count, _] = words.reg;
    match Vector::read(space, address, count) {
        Ok(buffers) => fill_buffers(words, fd, &buffers, space, dev, below),
        Err(error) => {
            let args = [u64::from(fd), 0, wrong_count(error), 0, 0, 0];
            below.number_call(words, READV, args, dev)
        }
    }
}

/// How many buffers a vector has at address 0 of host memory, where no byte is, for which the native kernel
/// finds this error: more than there may be, or one that can't be loaded.
pub(crate) fn wrong_count(error: Errno) -> u64
    ensures { result ≡ wrong_count error }
{
    match error {
        Errno::EINVAL => 1025,
        _ => 1,
    }
}

/// Reads into the buffers of a vector, by one native read of as many bytes as they have in all.
fn fill_buffers<I: Source, O: Sink, E: Sink>(
    words: &CallWords,
    fd: u32,
    buffers: &Vector,
    space: &mut Space,
    dev: &mut Devices<I, O, E>,
    below: &mut Below,
) -> Result<Outcome, Stop>
    ensures row { (guest : Guest) (address count : ℕ) → guest.words ≡ words.now → guest.memory ≡ space.old → vector guest.memory address count ≡ Ok buffers.now
        → IsCall (readv_row below.old.kernel.now guest fd address count) result below.new.kernel.now space.new guest.processor
        (contents I.left O.written E.written dev.old) (contents I.left O.written E.written dev.new) }
    ensures kept { (guest : Guest) (address count : ℕ) → guest.words ≡ words.now → guest.memory ≡ space.old → vector guest.memory address count ≡ Ok buffers.now
        → KeepsCall (readv_row below.old.kernel.now guest fd address count) result below.old.kernel.now guest (I.left dev.old.input) below.old.log.now below.new.log.now }
    ensures proceeds { Proceeds I.faults O.faults E.faults result below.old below.new dev.old dev.new }
{
    let total = buffers.total();
    let room = buffers.accessible(space);
    fresh_room(below.memory, room)?;
    let args = [u64::from(fd), FIRST_ADDRESS, u64::from(total), 0, 0, 0];
    let reply = below.native(READ, args, dev)?;
    scatter_back(space, buffers, below.memory, reply, below.log)?;
    Ok(outcome_of(words, reply))
}

/// Writes the bytes of host memory that a reply says were put there to the buffers, one after the other.
/// Nothing is promised of memory where one of them may not be stored to; for a reply that gives none,
/// nothing is written.
fn scatter_back(
    space: &mut Space,
    buffers: &Vector,
    mem: &HostMem,
    reply: Reply,
    log: &mut Log,
) -> Result<(), NoMemory>
    ensures stored { OnOk result (length (bytes_back mem.now reply) ≤ all_accessible space.old buffers.now
        → space.new ≡ all_copied_out space.old buffers.now (bytes_back mem.now reply)) }
    ensures effects { OnOk result (EffectsLead log.old log.new space.old space.new) }
    ensures native { log.new.native ≡ log.old.native }
{
    scatter(space, buffers.ranges(), bytes_back(mem, reply), log)
}

/// Writes the bytes to the buffers, one after the other, and keeps what was written to each.
fn scatter(space: &mut Space, ranges: &[Range], bytes: &[u8], log: &mut Log) -> Result<(), NoMemory>
    ensures stored { OnOk result (length bytes.now ≤ all_accessible space.old ranges.now
        → space.new ≡ all_copied_out space.old ranges.now bytes.now) }
    ensures effects { OnOk result (EffectsLead log.old log.new space.old space.new) }
    ensures native { log.new.native ≡ log.old.native }
{
    let mut rest = bytes;
    for range in ranges {
        let (piece, later) = rest.split_at(rest.len().min(range.length as usize));
        put_some(space, range.address, piece, log)?;
        rest = later;
    }
    Ok(())
}
