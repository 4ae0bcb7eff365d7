//! Limits: getrlimit(2), prlimit(2).
ghost use Rattle.std.specs.Prelude.{◌≡◌, IfOk, OnOk, length};
ghost use Rattle.bridge_io.specs.Passed.{KeepsCall, Proceeds};
ghost use Rattle.bridge_system.specs.inside.Tells.{IsTaken};
ghost use Rattle.o32_model.specs.Answered.{IsCall};
ghost use Rattle.o32_model.specs.Small.{getrlimit_row, prlimit_row};
ghost use Rattle.o32_model.specs.Step.{Guest};
ghost use Rattle.o32_model.specs.Words.{argument};
ghost use Rattle.std.specs.Int.{cast_signed, w32};
ghost use Rattle.outside.specs.Streams.{contents};

use crate::rlimit::{limit_in, native_limit_bytes, native_number};
use crate::telling::{Told, ToldAt, tell_call};
use bridge_io::{Below, NativeWords, fresh_room, load_structure};
use guest_space::Space;
use host_mem::{FIRST_ADDRESS, HostMem};
use kernel_core::{NoMemory, Stop};
use native_numbers::PRLIMIT64;
use o32_model::{CallWords, Outcome};
use outside::{Devices, Sink, Source};

/// The size of a limit in host memory, and of one of prlimit(2) in the program's, in bytes (struct rlimit64).
const LIMIT_SIZE: u32 = 16;

/// An address that is not null and where host memory has no byte.
const NOWHERE: u64 = 1;

/// getrlimit(2): EINVAL for no resource, EFAULT. More than 0x7FFF_FFFF is shown as that.
pub(crate) fn getrlimit<I: Source, O: Sink, E: Sink>(
    words: &CallWords,
    resource: u32,
    address: u32,
    space: &mut Space,
    dev: &mut Devices<I, O, E>,
    below: &mut Below,
) -> Result<Outcome, Stop>
    ensures row { (guest : Guest) → guest.words ≡ words.now → guest.memory ≡ space.old
        → IsCall (getrlimit_row below.old.kernel.now guest resource address) result below.new.kernel.now space.new guest.processor
        (contents I.left O.written E.written dev.old) (contents I.left O.written E.written dev.new) }
    ensures kept { (guest : Guest) → guest.words ≡ words.now → guest.memory ≡ space.old
        → KeepsCall (getrlimit_row below.old.kernel.now guest resource address) result below.old.kernel.now guest (I.left dev.old.input) below.old.log.now below.new.log.now }
    ensures proceeds { Proceeds I.faults O.faults E.faults result below.old below.new dev.old dev.new }
{
    below.kernel.limits_fit();
    fresh_room(below.memory, LIMIT_SIZE)?;
    let args = [0, native_number(resource), 0, FIRST_ADDRESS, 0, 0];
    let to = ToldAt {
        address,
        told: Told::Limits,
    };
    let call = NativeWords {
        nr: PRLIMIT64,
        args,
    };
    tell_call(words, to, space, call, dev, below)
}

/// prlimit(2): ESRCH for another process; EINVAL for no resource and for a soft limit above the hard one; EPERM
/// for more descriptors than there are; EFAULT. A null pointer stands for no new limit, and for no place of the
/// old one.
pub(crate) fn prlimit<I: Source, O: Sink, E: Sink>(
    words: &CallWords,
    space: &mut Space,
    dev: &mut Devices<I, O, E>,
    below: &mut Below,
) -> Result<Outcome, Stop>
    ensures row { (guest : Guest) → guest.words ≡ words.now → guest.memory ≡ space.old
        → IsCall (prlimit_row below.old.kernel.now guest (cast_signed w32 (argument words.now 0)) (argument words.now 1) (argument words.now 2) (argument words.now 3)) result below.new.kernel.now space.new guest.processor
        (contents I.left O.written E.written dev.old) (contents I.left O.written E.written dev.new) }
    ensures kept { (guest : Guest) → guest.words ≡ words.now → guest.memory ≡ space.old
        → KeepsCall (prlimit_row below.old.kernel.now guest (cast_signed w32 (argument words.now 0)) (argument words.now 1) (argument words.now 2) (argument words.now 3)) result below.old.kernel.now guest (I.left dev.old.input) below.old.log.now below.new.log.now }
    ensures proceeds { Proceeds I.faults O.faults E.faults result below.old below.new dev.old dev.new }
{
    let [pid, resource, new, old] = words.reg;
    below.kernel.limits_fit();
    let place = take_limit(space, new, below.memory)?;
    if old == 0 {
        let args = [u64::from(pid), native_number(resource), place, 0, 0, 0];
        return below.number_call(words, PRLIMIT64, args, dev);
    }
    let args = [
        u64::from(pid),
        native_number(resource),
        place,
        FIRST_ADDRESS,
        0,
        0,
    ];
    let to = ToldAt {
        address: old,
        told: Told::WideLimits,
    };
    let call = NativeWords {
        nr: PRLIMIT64,
        args,
    };
    tell_call(words, to, space, call, dev, below)
}

/// Makes host memory of a limit in the program's memory, and gives its place there: null where the pointer is, and
/// where no byte is if one of the program's can't be loaded.
fn take_limit(space: &Space, address: u32, mem: &mut HostMem) -> Result<u64, NoMemory>
    ensures taken { IfOk result (λ place. IsTaken space.now address mem.new place) }
    ensures room { OnOk result (length mem.new ≡ 16) }
{
    fresh_room(mem, LIMIT_SIZE)?;
    if address == 0 {
        return Ok(0);
    }
    let mut bytes = [0; 16];
    match load_structure(space, address, &mut bytes) {
        Ok(()) => {
            mem.write(FIRST_ADDRESS, &native_limit_bytes(limit_in(&bytes)));
            Ok(FIRST_ADDRESS)
        }
        Err(_) => Ok(NOWHERE),
    }
}
