//! Writing at a place: pwrite(2).
ghost use Rattle.std.specs.Prelude.{◌≡◌, ◌<◌, ◌^◌, ℤ, Some, true, false};
ghost use Rattle.std.specs.Int.{w64, cast_signed};
ghost use Rattle.bridge_log.specs.Proceeding.{Proceeds};
ghost use Rattle.bridge_log.specs.Looks.{LooksFor};
ghost use Rattle.bridge_io.specs.inside.Plans.{IsPlan};
ghost use Rattle.bridge_io.specs.inside.Rooms.{flags_there, size_there};
ghost use Rattle.bridge_io.specs.inside.Written.{place_write_of};
ghost use Rattle.bridge_log.specs.Keeping.{KeepsCall};
ghost use Rattle.kernel_model.specs.Descriptions.{opened};
ghost use Rattle.o32_model.specs.Answered.{IsCall};
ghost use Rattle.o32_model.specs.Step.{Guest};
ghost use Rattle.o32_model.specs.Transfers.{pwrite_row, small_file_limit};
ghost use Rattle.o32_model.specs.Words.{argument, stack_pair};
ghost use Rattle.outside.specs.Streams.{contents};

use crate::looking::{SMALL_FILE_LIMIT, is_ready, size, write_flags};
use crate::room::{Plan, WriteFlags};
use crate::telling::past_outcome;
use bridge_log::{Below, load_buffer, stack_pair};
use guest_space::Space;
use host_mem::FIRST_ADDRESS;
use kernel_core::{Errno, Stop};
use native_numbers::PWRITE64;
use o32_model::{CallWords, Outcome};
use outside::{Devices, Sink, Source};

/// From here on a place is one below 0.
const FIRST_NEGATIVE: u64 = 1 << 63;

/// A place past every file.
const FAR: u64 = 1 << 62;

/// pwrite(2): as write(2) at a place, which two words on the stack give. EFAULT before all else where one of
/// them can't be read; EINVAL for a place below 0; ESPIPE for a stream or a pipe.
pub(crate) fn pwrite<I: Source, O: Sink, E: Sink>(
    words: &CallWords,
    space: &Space,
    dev: &mut Devices<I, O, E>,
    below: &mut Below,
) -> Result<Outcome, Stop>
    ensures row { (guest : Guest) → guest.words ≡ words.now → guest.memory ≡ space.now
        → IsCall (pwrite_row below.old.kernel.now guest (argument words.now 0) (argument words.now 1) (argument words.now 2) (stack_pair words.now)) result below.new.kernel.now guest.memory guest.processor
        (contents I.left O.written E.written dev.old) (contents I.left O.written E.written dev.new) }
    ensures kept { (guest : Guest) → guest.words ≡ words.now → guest.memory ≡ space.now
        → KeepsCall (pwrite_row below.old.kernel.now guest (argument words.now 0) (argument words.now 1) (argument words.now 2) (stack_pair words.now)) result below.old.kernel.now guest (I.left dev.old.input) below.old.log.now below.new.log.now }
    ensures proceeds { Proceeds I.faults O.faults E.faults result below.old below.new dev.old dev.new }
{
    match stack_pair(words) {
        None => Ok(Outcome::Error(Errno::EFAULT)),
        Some(place) => write_at(words, place, space, dev, below),
    }
}

/// The same, where the place can be read.
fn write_at<I: Source, O: Sink, E: Sink>(
    words: &CallWords,
    place: u64,
    space: &Space,
    dev: &mut Devices<I, O, E>,
    below: &mut Below,
) -> Result<Outcome, Stop>
    ensures row { (guest : Guest) → guest.words ≡ words.now → guest.memory ≡ space.now
        → IsCall (pwrite_row below.old.kernel.now guest (argument words.now 0) (argument words.now 1) (argument words.now 2) (Some place)) result below.new.kernel.now guest.memory guest.processor
        (contents I.left O.written E.written dev.old) (contents I.left O.written E.written dev.new) }
    ensures kept { (guest : Guest) → guest.words ≡ words.now → guest.memory ≡ space.now
        → KeepsCall (pwrite_row below.old.kernel.now guest (argument words.now 0) (argument words.now 1) (argument words.now 2) (Some place)) result below.old.kernel.now guest (I.left dev.old.input) below.old.log.now below.new.log.now }
    ensures proceeds { Proceeds I.faults O.faults E.faults result below.old below.new dev.old dev.new }
{
    let [fd, buffer, count, _] = words.reg;
    let plan = plan(fd, place, dev, below)?;
    load_buffer(space, below.memory, buffer, count)?;
    write_planned(words, fd, count, plan, dev, below)
}

/// Writes what stands in host memory, of `count` bytes that are asked for, as it is planned.
fn write_planned<I: Source, O: Sink, E: Sink>(
    words: &CallWords,
    fd: u32,
    count: u32,
    plan: Plan,
    dev: &mut Devices<I, O, E>,
    below: &mut Below,
) -> Result<Outcome, Stop>
    ensures row { (guest : Guest) (place : ℤ) → guest.words ≡ words.now → IsPlan below.old.kernel.now.files small_file_limit fd place plan
        → IsCall (place_write_of below.old.kernel.now guest fd place count below.old.memory.now) result below.new.kernel.now guest.memory guest.processor
        (contents I.left O.written E.written dev.old) (contents I.left O.written E.written dev.new) }
    ensures kept { (guest : Guest) (place : ℤ) → guest.words ≡ words.now → IsPlan below.old.kernel.now.files small_file_limit fd place plan
        → KeepsCall (place_write_of below.old.kernel.now guest fd place count below.old.memory.now) result below.old.kernel.now guest (I.left dev.old.input) below.old.log.now below.new.log.now }
    ensures proceeds { Proceeds I.faults O.faults E.faults result below.old below.new dev.old dev.new }
{
    match plan {
        Plan::Write { most, place } => {
            let count = most.min(u64::from(count));
            let args = [u64::from(fd), FIRST_ADDRESS, count, place, 0, 0];
            below.number_call(words, PWRITE64, args, dev)
        }
        Plan::Past { writable, file } => {
            let there = below.memory.as_slice().len();
            Ok(past_outcome(writable, file, count, there))
        }
    }
}

/// How bytes are written at a place. One below 0 is left to the native kernel.
fn plan<I: Source, O: Sink, E: Sink>(
    fd: u32,
    place: u64,
    dev: &mut Devices<I, O, E>,
    below: &mut Below,
) -> Result<Plan, Stop>
    ensures looks { LooksFor (IsPlan below.old.kernel.now.files small_file_limit fd (cast_signed w64 place)) result below.old.kernel.now below.new.kernel.now
        (contents I.left O.written E.written dev.old) (contents I.left O.written E.written dev.new) below.old.log.now below.new.log.now }
    ensures proceeds { Proceeds I.faults O.faults E.faults result below.old below.new dev.old dev.new }
{
    let most = u64::MAX;
    if place >= FIRST_NEGATIVE {
        return Ok(Plan::Write { most, place });
    }
    match write_flags(fd, dev, below)? {
        None => Ok(Plan::Write { most, place }),
        Some(flags) => plan_under(fd, place, flags, dev, below),
    }
}

/// The same, by the flags of the descriptor. Without O_LARGEFILE a place from the limit on is as good as one
/// past every file.
fn plan_under<I: Source, O: Sink, E: Sink>(
    fd: u32,
    place: u64,
    flags: WriteFlags,
    dev: &mut Devices<I, O, E>,
    below: &mut Below,
) -> Result<Plan, Stop>
    requires { place < 2 ^ 63 }
    ensures looks { flags_there (opened below.old.kernel.now.files fd) ≡ Some flags
        → LooksFor (IsPlan below.old.kernel.now.files small_file_limit fd (cast_signed w64 place)) result below.old.kernel.now below.new.kernel.now
        (contents I.left O.written E.written dev.old) (contents I.left O.written E.written dev.new) below.old.log.now below.new.log.now }
    ensures proceeds { Proceeds I.faults O.faults E.faults result below.old below.new dev.old dev.new }
{
    let most = u64::MAX;
    if flags.largefile {
        return Ok(Plan::Write { most, place });
    }
    if flags.append {
        return plan_at_end(fd, place, flags, dev, below);
    }
    if place < SMALL_FILE_LIMIT {
        let most = SMALL_FILE_LIMIT - place;
        return Ok(Plan::Write { most, place });
    }
    Ok(Plan::Write { most, place: FAR })
}

/// The same under O_APPEND, which writes at the end of the file.
fn plan_at_end<I: Source, O: Sink, E: Sink>(
    fd: u32,
    place: u64,
    flags: WriteFlags,
    dev: &mut Devices<I, O, E>,
    below: &mut Below,
) -> Result<Plan, Stop>
    requires { place < 2 ^ 63 }
    ensures looks { flags_there (opened below.old.kernel.now.files fd) ≡ Some flags → flags.largefile ≡ false → flags.append ≡ true
        → LooksFor (IsPlan below.old.kernel.now.files small_file_limit fd (cast_signed w64 place)) result below.old.kernel.now below.new.kernel.now
        (contents I.left O.written E.written dev.old) (contents I.left O.written E.written dev.new) below.old.log.now below.new.log.now }
    ensures proceeds { Proceeds I.faults O.faults E.faults result below.old below.new dev.old dev.new }
{
    let most = u64::MAX;
    match size(fd, dev, below)? {
        None => Ok(Plan::Write { most, place }),
        Some(size) => plan_behind(fd, place, flags, size, dev, below),
    }
}

/// The same, by the size of what is open.
fn plan_behind<I: Source, O: Sink, E: Sink>(
    fd: u32,
    place: u64,
    flags: WriteFlags,
    size: u64,
    dev: &mut Devices<I, O, E>,
    below: &mut Below,
) -> Result<Plan, Stop>
    requires { place < 2 ^ 63 }
    ensures looks { flags_there (opened below.old.kernel.now.files fd) ≡ Some flags → flags.largefile ≡ false → flags.append ≡ true
        → size_there below.old.kernel.now.files (opened below.old.kernel.now.files fd) ≡ Some size
        → LooksFor (IsPlan below.old.kernel.now.files small_file_limit fd (cast_signed w64 place)) result below.old.kernel.now below.new.kernel.now
        (contents I.left O.written E.written dev.old) (contents I.left O.written E.written dev.new) below.old.log.now below.new.log.now }
    ensures proceeds { Proceeds I.faults O.faults E.faults result below.old below.new dev.old dev.new }
{
    if size < SMALL_FILE_LIMIT {
        let most = SMALL_FILE_LIMIT - size;
        return Ok(Plan::Write { most, place });
    }
    let file = is_ready(fd, dev, below)?;
    let writable = flags.writable;
    Ok(Plan::Past { writable, file })
}
