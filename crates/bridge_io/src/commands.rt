//! fcntl(2).
ghost use Rattle.std.specs.Prelude.{◌≡◌, ◌<◌, ◌≤◌, ℕ, List};
ghost use Rattle.bridge_log.specs.Proceeding.{Proceeds};
ghost use Rattle.bridge_io.specs.inside.Outcomes.{handed, native_status_flags, outcome_flags, told_flags};
ghost use Rattle.bridge_log.specs.Arguments.{AreUnusedZero, IsPlaced};
ghost use Rattle.bridge_log.specs.Keeping.{KeepsCall};
ghost use Rattle.bridge_log.specs.Mirrors.{Mirrors};
ghost use Rattle.kernel_core.specs.Bits as bits;
ghost use Rattle.native_calls.specs.Table.{native_call};
ghost use Rattle.bridge_log.specs.Built.{built_call};
ghost use Rattle.number_tables.specs.OpenNumbers.{o32_open, native_open_read, access_of};
ghost use Rattle.number_tables.specs.OpenNumbers as numbers;
ghost use Rattle.o32_model.specs.Answered.{IsCall};
ghost use Rattle.o32_model.specs.Descriptors.{fcntl_row};
ghost use Rattle.o32_model.specs.Step.{Guest, O32Step};
ghost use Rattle.outside.specs.Streams.{contents};

use crate::numbers::{F_GETFL, F_SETFL};
use bridge_log::{Below, outcome_of};
use kernel_core::{Reply, Stop};
use native_numbers::FCNTL;
use o32_model::{CallWords, Outcome};
use outside::{Devices, Sink, Source};

/// fcntl(2): EBADF; EINVAL for a command that is not listed and for a least descriptor past the last; EMFILE.
/// Flags have other numbers for the native kernel.
pub(crate) fn fcntl<I: Source, O: Sink, E: Sink>(
    words: &CallWords,
    fd: u32,
    command: u32,
    argument: u32,
    dev: &mut Devices<I, O, E>,
    below: &mut Below,
) -> Result<Outcome, Stop>
    ensures row { (guest : Guest) → guest.words ≡ words.now
        → IsCall (fcntl_row below.old.kernel.now guest fd command argument) result below.new.kernel.now guest.memory guest.processor
        (contents I.left O.written E.written dev.old) (contents I.left O.written E.written dev.new) }
    ensures kept { (guest : Guest) → guest.words ≡ words.now
        → KeepsCall (fcntl_row below.old.kernel.now guest fd command argument) result below.old.kernel.now guest (I.left dev.old.input) below.old.log.now below.new.log.now }
    ensures proceeds { Proceeds I.faults O.faults E.faults result below.old below.new dev.old dev.new }
{
    below.kernel.whole();
    below.memory.clear();
    let fd = u64::from(fd);
    if command == 3 {
        return flags_call(words, FCNTL, [fd, F_GETFL, 0, 0, 0, 0], dev, below);
    }
    if command == 4 {
        let args = [fd, F_SETFL, native_status_flags(argument), 0, 0, 0];
        return below.number_call(words, FCNTL, args, dev);
    }
    let args = [fd, u64::from(command), handed(command, argument), 0, 0, 0];
    below.number_call(words, FCNTL, args, dev)
}

/// The last argument that the native call is handed: that of F_DUPFD, F_SETFD, F_SETFL and F_DUPFD_CLOEXEC, and 0 for a
/// command that takes none (fcntl(2)).
fn handed(command: u32, argument: u32) -> u64
    ensures { result ≡ handed command argument }
{
    match command {
        0 | 2 | 4 | 1030 => u64::from(argument),
        _ => 0,
    }
}

/// Makes a native call whose number is flags of open(2).
fn flags_call<I: Source, O: Sink, E: Sink>(
    words: &CallWords,
    nr: u64,
    args: [u64; 6],
    dev: &mut Devices<I, O, E>,
    below: &mut Below,
) -> Result<Outcome, Stop>
    requires built { built_call nr ≡ native_call nr }
    requires unused { AreUnusedZero nr args }
    requires placed { IsPlaced nr below.old.memory.now }
    ensures row { (guest : Guest) (step : List ℕ → O32Step) → guest.words ≡ words.now
        → ((left : List ℕ) → Mirrors guest (told_flags guest.words) (native_call nr args below.old.kernel.now below.old.memory.now left) (step left))
        → IsCall step result below.new.kernel.now guest.memory guest.processor
        (contents I.left O.written E.written dev.old) (contents I.left O.written E.written dev.new) }
    ensures kept { (guest : Guest) (step : List ℕ → O32Step) → guest.words ≡ words.now
        → ((left : List ℕ) → Mirrors guest (told_flags guest.words) (native_call nr args below.old.kernel.now below.old.memory.now left) (step left))
        → KeepsCall step result below.old.kernel.now guest (I.left dev.old.input) below.old.log.now below.new.log.now }
    ensures proceeds { Proceeds I.faults O.faults E.faults result below.old below.new dev.old dev.new }
{
    let reply = below.native(nr, args, dev)?;
    Ok(outcome_flags(words, reply))
}

fn outcome_flags(words: &CallWords, reply: Reply) -> Outcome
    ensures { result ≡ outcome_flags words.now reply }
{
    match reply {
        Reply::Done(number) if number >= 0 => Outcome::Value(o32_flags(number as u64)),
        _ => outcome_of(words, reply),
    }
}

/// The o32 number of the flags whose bits a native number has.
fn o32_flags(number: u64) -> u32
    ensures { result ≡ o32_open (native_open_read number) }
{
    access_number(number)
        + 0x8 * bit(number, 0x400)
        + 0x10 * bit(number, 0x1000)
        + 0x80 * bit(number, 0x800)
        + 0x100 * bit(number, 0x40)
        + 0x200 * bit(number, 0x200)
        + 0x400 * bit(number, 0x80)
        + 0x800 * bit(number, 0x100)
        + 0x2000 * bit(number, 0x8000)
        + 0x4000 * bit(number, 0x100000)
        + 0x10000 * bit(number, 0x10000)
        + 0x20000 * bit(number, 0x20000)
        + 0x80000 * bit(number, 0x80000)
}

/// The access mode in the two low bits, which are not both set.
fn access_number(number: u64) -> u32
    ensures value { result ≡ numbers.access_number (access_of number) }
    ensures at_most { result ≤ 2 }
{
    match number % 4 {
        1 => 1,
        2 => 2,
        _ => 0,
    }
}

/// 1 where the number has this bit, a power of two, and else 0.
pub(crate) fn bit(number: u64, place: u64) -> u32
    requires { 0 < place }
    ensures value { result ≡ bits.one_if (bits.has number place) }
    ensures at_most { result ≤ 1 }
{
    u32::from(number / place % 2 == 1)
}

/// O_APPEND and O_NONBLOCK of o32 flags, by their native numbers.
fn native_status_flags(flags: u32) -> u64
    ensures { result ≡ native_status_flags flags }
{
    let flags = u64::from(flags);
    u64::from(0x400 * bit(flags, 0x8) + 0x800 * bit(flags, 0x80))
}
