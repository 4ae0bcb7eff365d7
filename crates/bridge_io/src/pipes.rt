//! Making pipes: pipe(2), pipe2(2).
ghost use Rattle.std.specs.Prelude.{◌≡◌, ◌<◌, ℕ, List, replicate, true};
ghost use Rattle.bridge_log.specs.Proceeding.{Proceeds};
ghost use Rattle.bridge_io.specs.inside.Outcomes.{outcome_pair, told_pair, native_pipe_flags, int_at, host_place};
ghost use Rattle.bridge_log.specs.Arguments.{AreUnusedZero, takes_address};
ghost use Rattle.bridge_log.specs.Keeping.{KeepsCall};
ghost use Rattle.bridge_log.specs.Mirrors.{Mirrors};
ghost use Rattle.native_calls.specs.Table.{native_call};
ghost use Rattle.bridge_log.specs.Built.{built_call};
ghost use Rattle.o32_model.specs.Answered.{IsCall};
ghost use Rattle.o32_model.specs.Descriptors.{pipe_row, pipe2_row};
ghost use Rattle.o32_model.specs.Step.{Guest, O32Step};
ghost use Rattle.outside.specs.Streams.{contents};

use crate::commands::bit;
use crate::structures::{GuestStructure, Structure, byte_at, store_call};
use bridge_log::{Below, NativeWords, fresh_room, outcome_of};
use guest_space::Space;
use host_mem::{FIRST_ADDRESS, HostMem};
use kernel_core::{Reply, Stop};
use native_numbers::PIPE2;
use o32_model::{CallWords, Outcome};
use outside::{Devices, Sink, Source};

/// How many bytes two descriptors have in memory.
const PAIR_SIZE: u32 = 8;

/// pipe(2): EMFILE. Both descriptors are results, the end that is read first.
pub(crate) fn pipe<I: Source, O: Sink, E: Sink>(
    words: &CallWords,
    dev: &mut Devices<I, O, E>,
    below: &mut Below,
) -> Result<Outcome, Stop>
    ensures row { (guest : Guest) → guest.words ≡ words.now
        → IsCall (pipe_row below.old.kernel.now guest) result below.new.kernel.now guest.memory guest.processor
        (contents I.left O.written E.written dev.old) (contents I.left O.written E.written dev.new) }
    ensures kept { (guest : Guest) → guest.words ≡ words.now
        → KeepsCall (pipe_row below.old.kernel.now guest) result below.old.kernel.now guest (I.left dev.old.input) below.old.log.now below.new.log.now }
    ensures proceeds { Proceeds I.faults O.faults E.faults result below.old below.new dev.old dev.new }
{
    below.kernel.whole();
    let args = [FIRST_ADDRESS, 0, 0, 0, 0, 0];
    pair_call(words, PIPE2, args, dev, below)
}

/// Makes a native call that puts two descriptors into host memory, which are the results.
fn pair_call<I: Source, O: Sink, E: Sink>(
    words: &CallWords,
    nr: u64,
    args: [u64; 6],
    dev: &mut Devices<I, O, E>,
    below: &mut Below,
) -> Result<Outcome, Stop>
    requires built { built_call nr ≡ native_call nr }
    requires unused { AreUnusedZero nr args }
    requires address { takes_address nr ≡ true }
    ensures row { (guest : Guest) (step : List ℕ → O32Step) → guest.words ≡ words.now
        → ((left : List ℕ) → Mirrors guest (told_pair guest.words) (native_call nr args below.old.kernel.now (replicate 8 0) left) (step left))
        → IsCall step result below.new.kernel.now guest.memory guest.processor
        (contents I.left O.written E.written dev.old) (contents I.left O.written E.written dev.new) }
    ensures kept { (guest : Guest) (step : List ℕ → O32Step) → guest.words ≡ words.now
        → ((left : List ℕ) → Mirrors guest (told_pair guest.words) (native_call nr args below.old.kernel.now (replicate 8 0) left) (step left))
        → KeepsCall step result below.old.kernel.now guest (I.left dev.old.input) below.old.log.now below.new.log.now }
    ensures proceeds { Proceeds I.faults O.faults E.faults result below.old below.new dev.old dev.new }
{
    fresh_room(below.memory, PAIR_SIZE)?;
    let reply = below.native(nr, args, dev)?;
    Ok(outcome_pair(words, below.memory, reply))
}

fn outcome_pair(words: &CallWords, mem: &HostMem, reply: Reply) -> Outcome
    ensures { result ≡ outcome_pair words.now mem.now reply }
{
    match reply {
        Reply::Done(number) if number >= 0 => {
            Outcome::Pair(int_at(mem.as_slice(), 0), int_at(mem.as_slice(), 4))
        }
        _ => outcome_of(words, reply),
    }
}

/// The little-endian number of the four bytes from a place on.
fn int_at(bytes: &[u8], place: usize) -> u32
    requires { place < 8 }
    ensures { result ≡ int_at bytes.now place }
{
    u32::from(byte_at(bytes, place))
        + 0x100 * u32::from(byte_at(bytes, place + 1))
        + 0x1_0000 * u32::from(byte_at(bytes, place + 2))
        + 0x100_0000 * u32::from(byte_at(bytes, place + 3))
}

/// pipe2(2): EINVAL for flags other than O_CLOEXEC and O_NONBLOCK, EMFILE. Two ints are stored, the end that
/// is read first; where they can't be, both are closed, and that is EFAULT.
pub(crate) fn pipe2<I: Source, O: Sink, E: Sink>(
    words: &CallWords,
    address: u32,
    flags: u32,
    space: &mut Space,
    dev: &mut Devices<I, O, E>,
    below: &mut Below,
) -> Result<Outcome, Stop>
    ensures row { (guest : Guest) → guest.words ≡ words.now → guest.memory ≡ space.old
        → IsCall (pipe2_row below.old.kernel.now guest address flags) result below.new.kernel.now space.new guest.processor
        (contents I.left O.written E.written dev.old) (contents I.left O.written E.written dev.new) }
    ensures kept { (guest : Guest) → guest.words ≡ words.now → guest.memory ≡ space.old
        → KeepsCall (pipe2_row below.old.kernel.now guest address flags) result below.old.kernel.now guest (I.left dev.old.input) below.old.log.now below.new.log.now }
    ensures proceeds { Proceeds I.faults O.faults E.faults result below.old below.new dev.old dev.new }
{
    below.kernel.whole();
    let place = host_place(space, address, PAIR_SIZE);
    let args = [place, native_pipe_flags(flags), 0, 0, 0, 0];
    let to = GuestStructure {
        address,
        structure: Structure::Pair,
    };
    let call = NativeWords { nr: PIPE2, args };
    store_call(words, to, space, call, dev, below)
}

/// Where a structure stands in host memory: nowhere if the program's can't be stored, so that the native
/// call fails as the program's does.
pub(crate) fn host_place(space: &Space, address: u32, size: u32) -> u64
    ensures { result ≡ host_place space.now address size }
{
    if space.writable(address, size) == size {
        FIRST_ADDRESS
    } else {
        0
    }
}

/// The native number of the flags of pipe2(2), and 1, which is none of them, where there are others.
fn native_pipe_flags(flags: u32) -> u64
    ensures { result ≡ native_pipe_flags flags }
{
    let number = u64::from(flags);
    let cloexec = bit(number, 0x80000);
    let nonblock = bit(number, 0x80);
    if 0x80000 * cloexec + 0x80 * nonblock == flags {
        u64::from(0x80000 * cloexec + 0x800 * nonblock)
    } else {
        1
    }
}
