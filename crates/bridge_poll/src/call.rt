//! The calls by their words.
ghost use Rattle.std.specs.Prelude.{◌≡◌, ◌==◌, ◌||◌, Ok, Option, Some, None};
ghost use Rattle.bridge_limits.specs.Passed.{KeepsCall, Proceeds};
ghost use Rattle.bridge_poll.specs.Found.{found};
ghost use Rattle.std.specs.Int.{cast_signed, w32};
ghost use Rattle.kernel_model.specs.Readiness as readiness;
ghost use Rattle.kernel_model.specs.Stops.{StopsOnlyIfRose};
ghost use Rattle.o32_calls.specs.Numbers.{poll_number};
ghost use Rattle.o32_calls.specs.declared.times.PollCall.TheVariants.{Poll, Ppoll};
ghost use Rattle.o32_model.specs.Answered.{IsCall};
ghost use Rattle.o32_model.specs.Polling.{poll_row, ppoll_row};
ghost use Rattle.o32_model.specs.Step.{Guest};
ghost use Rattle.o32_model.specs.Table.{machine_call};
ghost use Rattle.o32_model.specs.Words.{argument, signed_argument, stack_word};
ghost use Rattle.outside.specs.Streams.{NoCountFell, contents};

use crate::entries::Entries;
use crate::limited::{Limits, limited};
use bridge_limits::{Below, NativeKernel, OwnMask, TimeForm, TimePlace, mask_at, wait_at};
use guest_space::Space;
use host_mem::HostMem;
use kernel_core::{Errno, Stop};
use mips_exec::Cpu;
use o32_calls::{POLL, PPOLL, PollCall};
use o32_model::{CallWords, Log, Outcome, Seen};
use outside::{Devices, Sink, Source};

const NANOSECONDS_PER_MILLISECOND: u64 = 1_000_000;

/// Whether a number is that of one of these calls.
pub fn is_poll_call(number: u32) -> bool
    ensures { result ≡ ((number == poll_number Poll) || (number == poll_number Ppoll)) }
{
    matches!(number, POLL | PPOLL)
}

/// Makes the call poll(2) or ppoll(2) of the program, by its words: it tells of each entry which events there are, and
/// gives the number of the entries of which any is told, or waits for that. It stops early for want of memory, or by a
/// device.
#[inline(never)]
pub fn poll_call<I: Source, O: Sink, E: Sink>(
    call: PollCall,
    args: &CallWords,
    cpu: &mut Cpu,
    space: &mut Space,
    k: &mut NativeKernel,
    mem: &mut HostMem,
    dev: &mut Devices<I, O, E>,
    log: &mut Log,
    seen: &Seen,
) -> Result<Outcome, Stop>
    requires { args.now.nr ≡ poll_number call }
    ensures row { IsCall (machine_call seen.now k.old (found args.now cpu.old space.old)) result k.new space.new cpu.new
        (contents I.left O.written E.written dev.old) (contents I.left O.written E.written dev.new) }
    ensures kept { KeepsCall (machine_call seen.now k.old (found args.now cpu.old space.old)) result k.old
        (found args.now cpu.old space.old) (I.left dev.old.input) log.old log.new }
    ensures cause { StopsOnlyIfRose I.faults O.faults E.faults result dev.old dev.new }
    ensures counts { NoCountFell I.faults O.faults E.faults dev.old dev.new }
    ensures clock { k.new.clock ≡ k.old.clock }
{
    let below = &mut Below {
        kernel: k,
        memory: mem,
        log,
    };
    match call {
        PollCall::Poll => poll(args, space, dev, below),
        PollCall::Ppoll => ppoll(args, space, dev, below),
    }
}

/// poll(2): milliseconds, and neither a mask nor a time that is stored.
fn poll<I: Source, O: Sink, E: Sink>(
    words: &CallWords,
    space: &mut Space,
    dev: &mut Devices<I, O, E>,
    below: &mut Below,
) -> Result<Outcome, Stop>
    ensures row { (guest : Guest) → guest.words ≡ words.now → guest.memory ≡ space.old
        → IsCall (poll_row below.old.kernel.now guest (argument words.now 0) (argument words.now 1) (signed_argument words.now 2))
        result below.new.kernel.now space.new guest.processor
        (contents I.left O.written E.written dev.old) (contents I.left O.written E.written dev.new) }
    ensures kept { (guest : Guest) → guest.words ≡ words.now → guest.memory ≡ space.old
        → KeepsCall (poll_row below.old.kernel.now guest (argument words.now 0) (argument words.now 1) (signed_argument words.now 2))
        result below.old.kernel.now guest (I.left dev.old.input) below.old.log.now below.new.log.now }
    ensures proceeds { Proceeds I.faults O.faults E.faults result below.old below.new dev.old dev.new }
{
    let [address, count, milliseconds, _] = words.reg;
    let limits = Limits {
        wait: poll_wait(milliseconds),
        own: OwnMask::None,
        size: 0,
        left: None,
    };
    let entries = Entries { address, count };
    limited(words, entries, limits, space, dev, below)
}

/// How long a poll(2) may wait, in nanoseconds, by its milliseconds: without end where they are below 0.
fn poll_wait(milliseconds: u32) -> Option<u64>
    ensures { readiness.poll_wait (cast_signed w32 milliseconds) ≡ Ok result }
{
    if milliseconds.cast_signed() < 0 {
        None
    } else {
        Some(u64::from(milliseconds) * NANOSECONDS_PER_MILLISECOND)
    }
}

/// ppoll(2): the size of the mask is on the stack, and EFAULT where it can't be read; then comes the time.
fn ppoll<I: Source, O: Sink, E: Sink>(
    words: &CallWords,
    space: &mut Space,
    dev: &mut Devices<I, O, E>,
    below: &mut Below,
) -> Result<Outcome, Stop>
    ensures row { (guest : Guest) → guest.words ≡ words.now → guest.memory ≡ space.old
        → IsCall (ppoll_row below.old.kernel.now guest (argument words.now 0) (argument words.now 1) (argument words.now 2)
        (argument words.now 3) (stack_word words.now 0)) result below.new.kernel.now space.new guest.processor
        (contents I.left O.written E.written dev.old) (contents I.left O.written E.written dev.new) }
    ensures kept { (guest : Guest) → guest.words ≡ words.now → guest.memory ≡ space.old
        → KeepsCall (ppoll_row below.old.kernel.now guest (argument words.now 0) (argument words.now 1) (argument words.now 2)
        (argument words.now 3) (stack_word words.now 0)) result below.old.kernel.now guest (I.left dev.old.input) below.old.log.now below.new.log.now }
    ensures proceeds { Proceeds I.faults O.faults E.faults result below.old below.new dev.old dev.new }
{
    match words.stack[0] {
        None => Ok(Outcome::Error(Errno::EFAULT)),
        Some(size) => ppoll_sized(size, words, space, dev, below),
    }
}

/// The same with the size of the mask. An error of the time ends the call, and no time is stored then.
fn ppoll_sized<I: Source, O: Sink, E: Sink>(
    size: u32,
    words: &CallWords,
    space: &mut Space,
    dev: &mut Devices<I, O, E>,
    below: &mut Below,
) -> Result<Outcome, Stop>
    ensures row { (guest : Guest) → guest.words ≡ words.now → guest.memory ≡ space.old
        → IsCall (ppoll_row below.old.kernel.now guest (argument words.now 0) (argument words.now 1) (argument words.now 2)
        (argument words.now 3) (Some size)) result below.new.kernel.now space.new guest.processor
        (contents I.left O.written E.written dev.old) (contents I.left O.written E.written dev.new) }
    ensures kept { (guest : Guest) → guest.words ≡ words.now → guest.memory ≡ space.old
        → KeepsCall (ppoll_row below.old.kernel.now guest (argument words.now 0) (argument words.now 1) (argument words.now 2)
        (argument words.now 3) (Some size)) result below.old.kernel.now guest (I.left dev.old.input) below.old.log.now below.new.log.now }
    ensures proceeds { Proceeds I.faults O.faults E.faults result below.old below.new dev.old dev.new }
{
    let [address, count, time, mask] = words.reg;
    let at = TimePlace {
        form: TimeForm::Nanoseconds,
        address: time,
    };
    match wait_at(space, at) {
        Err(error) => Ok(Outcome::Error(error)),
        Ok(wait) => {
            let limits = Limits {
                wait,
                own: mask_at(space, mask),
                size,
                left: Some(at),
            };
            let entries = Entries { address, count };
            limited(words, entries, limits, space, dev, below)
        }
    }
}
