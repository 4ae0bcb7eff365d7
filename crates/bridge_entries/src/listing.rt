//! Listing a directory: getdents(2), getdents64(2).
ghost use Rattle.std.specs.Prelude.{◌≡◌, ◌≤◌};
ghost use Rattle.bridge_log.specs.Proceeding.{Proceeds};
ghost use Rattle.bridge_entries.specs.inside.Answers.{IsGiven, narrow};
ghost use Rattle.bridge_entries.specs.inside.Passing.{GoesTo};
ghost use Rattle.bridge_log.specs.Fills.{bytes_back};
ghost use Rattle.bridge_log.specs.Keeping.{KeepsCall};
ghost use Rattle.guest_space.specs.Access.{user_end};
ghost use Rattle.kernel_model.specs.ContentRows.{entries};
ghost use Rattle.kernel_model.specs.Whole.{with_files};
ghost use Rattle.o32_model.specs.Answered.{IsCall};
ghost use Rattle.o32_model.specs.Entries.{entry_form, entry64_form, getdents_row};
ghost use Rattle.o32_model.specs.Step.{Guest};
ghost use Rattle.o32_model.specs.Words.{argument};
ghost use Rattle.outside.specs.Streams.{contents};

use crate::answers::{Answer, Bounds, answer_to};
use crate::passing::{list, position, put_position};
use crate::records::Form;
use crate::showing::show_all;
use bridge_log::{Below, bytes_back, fresh_room, outcome_of, put_some};
use guest_space::Space;
use host_mem::FIRST_ADDRESS;
use kernel_core::Stop;
use native_numbers::GETDENTS64;
use o32_model::{CallWords, Outcome};
use outside::{Devices, Sink, Source};
use std::alloc::Global;

/// How many bytes a record of getdents(2) has at most.
const LONGEST_NARROW: u32 = 268;

/// getdents64(2): EBADF, ENOTDIR, ENOENT, EINVAL, EFAULT. The records of the native call have the program's
/// lengths; their numbers have the other order of bytes.
pub(crate) fn getdents64<I: Source, O: Sink, E: Sink>(
    alloc: Global,
    words: &CallWords,
    space: &mut Space,
    dev: &mut Devices<I, O, E>,
    below: &mut Below,
) -> Result<Outcome, Stop>
    ensures row { (guest : Guest) → guest.words ≡ words.now → guest.memory ≡ space.old
        → IsCall (getdents_row entry64_form below.old.kernel.now guest (argument words.now 0) (argument words.now 1) (argument words.now 2)) result below.new.kernel.now space.new guest.processor
        (contents I.left O.written E.written dev.old) (contents I.left O.written E.written dev.new) }
    ensures kept { (guest : Guest) → guest.words ≡ words.now → guest.memory ≡ space.old
        → KeepsCall (getdents_row entry64_form below.old.kernel.now guest (argument words.now 0) (argument words.now 1) (argument words.now 2)) result below.old.kernel.now guest (I.left dev.old.input) below.old.log.now below.new.log.now }
    ensures proceeds { Proceeds I.faults O.faults E.faults result below.old below.new dev.old dev.new }
{
    below.kernel.files_valid();
    let [fd, buffer, size, _] = words.reg;
    let room = space.writable(buffer, size);
    fresh_room(below.memory, room)?;
    let args = [u64::from(fd), FIRST_ADDRESS, u64::from(size), 0, 0, 0];
    let reply = below.native(GETDENTS64, args, dev)?;
    let shown = show_all(
        alloc,
        Form::Wide,
        room as usize,
        0,
        bytes_back(below.memory, reply),
    )?;
    put_some(space, buffer, shown.bytes.as_slice(), below.log)?;
    Ok(outcome_of(words, reply))
}

/// getdents(2): EBADF, ENOTDIR, ENOENT, EINVAL, EOVERFLOW, EFAULT. A native record has at most twice the bytes of the
/// program's, so the native call is asked for twice as many bytes; the position is then put to the last entry that the
/// program is given, or where it was.
pub(crate) fn getdents<I: Source, O: Sink, E: Sink>(
    alloc: Global,
    words: &CallWords,
    space: &mut Space,
    dev: &mut Devices<I, O, E>,
    below: &mut Below,
) -> Result<Outcome, Stop>
    ensures row { (guest : Guest) → guest.words ≡ words.now → guest.memory ≡ space.old
        → IsCall (getdents_row entry_form below.old.kernel.now guest (argument words.now 0) (argument words.now 1) (argument words.now 2)) result below.new.kernel.now space.new guest.processor
        (contents I.left O.written E.written dev.old) (contents I.left O.written E.written dev.new) }
    ensures kept { (guest : Guest) → guest.words ≡ words.now → guest.memory ≡ space.old
        → KeepsCall (getdents_row entry_form below.old.kernel.now guest (argument words.now 0) (argument words.now 1) (argument words.now 2)) result below.old.kernel.now guest (I.left dev.old.input) below.old.log.now below.new.log.now }
    ensures proceeds { Proceeds I.faults O.faults E.faults result below.old below.new dev.old dev.new }
{
    below.kernel.files_valid();
    let [_, buffer, size, _] = words.reg;
    let room = space.writable(buffer, size);
    let answer = answer_call(alloc, words, room, dev, below)?;
    put_some(space, buffer, answer.bytes.as_slice(), below.log)?;
    Ok(answer.outcome)
}

/// What the program's call comes to, where so many bytes of its buffer can be stored. The position is then as after
/// the call.
fn answer_call<I: Source, O: Sink, E: Sink>(
    alloc: Global,
    words: &CallWords,
    room: u32,
    dev: &mut Devices<I, O, E>,
    below: &mut Below,
) -> Result<Answer, Stop>
    requires { room ≤ user_end }
    ensures goes { GoesTo (IsGiven words.now (entries below.old.kernel.now.files (argument words.now 0) narrow (argument words.now 2) room).came) result below.old.kernel.now
        (with_files below.old.kernel.now (entries below.old.kernel.now.files (argument words.now 0) narrow (argument words.now 2) room).state) below.new.kernel.now
        (contents I.left O.written E.written dev.old) (contents I.left O.written E.written dev.new) below.old.log.now below.new.log.now }
    ensures proceeds { Proceeds I.faults O.faults E.faults result below.old below.new dev.old dev.new }
{
    below.kernel.files_valid();
    let [fd, _, size, _] = words.reg;
    let asked = size.min(room + LONGEST_NARROW);
    let before = position(fd, dev, below)?;
    let reply = list(fd, 2 * asked, dev, below)?;
    let answer = answer_to(
        alloc,
        words,
        Bounds { asked, room },
        before.unwrap_or(0),
        reply,
        bytes_back(below.memory, reply),
    )?;
    match answer.place {
        None => Ok(answer),
        Some(place) => {
            put_position(fd, place, dev, below)?;
            Ok(answer)
        }
    }
}
