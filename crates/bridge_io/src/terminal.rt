//! Requests on terminals and on descriptors: ioctl(2).
ghost use Rattle.std.specs.Prelude.{◌≡◌, [], ◌∷◌, ℕ, List, Some, length, replicate, map, true, IfOk, OnOk};
ghost use Rattle.bridge_log.specs.Proceeding.{Proceeds};
ghost use Rattle.bridge_io.specs.inside.Outcomes.{host_place};
ghost use Rattle.bridge_io.specs.inside.Stores.{Stores, byte_from, places, size};
ghost use Rattle.bridge_io.specs.inside.Purposes.{purpose_of};
ghost use Rattle.bridge_io.specs.inside.Takes.{IsTaken, places_back};
ghost use Rattle.bridge_log.specs.Arguments.{takes_last};
ghost use Rattle.bridge_log.specs.Keeping.{KeepsCall};
ghost use Rattle.bridge_log.specs.Mirrors.{Mirrors};
ghost use Rattle.bridge_log.specs.Outcomes.{by_reply};
ghost use Rattle.native_calls.specs.Table.{native_call};
ghost use Rattle.number_tables.specs.Requests.{request_of_o32};
ghost use Rattle.o32_model.specs.Answered.{IsCall};
ghost use Rattle.o32_model.specs.Step.{Guest, O32Step};
ghost use Rattle.o32_model.specs.Terminal.{ioctl_row};
ghost use Rattle.o32_model.specs.Words.{argument};
ghost use Rattle.outside.specs.Streams.{contents};

use crate::pipes::host_place;
use crate::structures::{GuestStructure, Structure, rearrange, store_call};
use bridge_log::{Below, NativeWords, load_structure};
use guest_space::Space;
use host_mem::HostMem;
use kernel_core::{NoMemory, Request, Stop};
use native_numbers::IOCTL;
use number_tables::{NativeNumber, O32Number};
use o32_model::{CallWords, Outcome};
use outside::{Devices, Sink, Source};

/// What the pointer of a request is for.
#[derive(Clone, Copy)]
pub(crate) enum Purpose {
    /// The kernel stores a structure there.
    Stores(Structure),
    /// The kernel loads one from there.
    Loads(Structure),
    /// It is not looked at.
    Unused,
}

/// ioctl(2): EBADF; ENOTTY for a request that is not listed, and for one on a terminal where there is none;
/// EFAULT. Requests have other numbers for the native kernel, and structures other bytes.
pub(crate) fn ioctl<I: Source, O: Sink, E: Sink>(
    words: &CallWords,
    space: &mut Space,
    dev: &mut Devices<I, O, E>,
    below: &mut Below,
) -> Result<Outcome, Stop>
    ensures row { (guest : Guest) → guest.words ≡ words.now → guest.memory ≡ space.old
        → IsCall (ioctl_row below.old.kernel.now guest (argument words.now 0) (argument words.now 1) (argument words.now 2)) result below.new.kernel.now space.new guest.processor
        (contents I.left O.written E.written dev.old) (contents I.left O.written E.written dev.new) }
    ensures kept { (guest : Guest) → guest.words ≡ words.now → guest.memory ≡ space.old
        → KeepsCall (ioctl_row below.old.kernel.now guest (argument words.now 0) (argument words.now 1) (argument words.now 2)) result below.old.kernel.now guest (I.left dev.old.input) below.old.log.now below.new.log.now }
    ensures proceeds { Proceeds I.faults O.faults E.faults result below.old below.new dev.old dev.new }
{
    let [fd, request, _, _] = words.reg;
    match Request::of_o32(request) {
        Some(found) => listed(words, found, space, dev, below),
        None => plain(words, fd, 0, dev, below),
    }
}

/// Makes a request that is listed.
fn listed<I: Source, O: Sink, E: Sink>(
    words: &CallWords,
    request: Request,
    space: &mut Space,
    dev: &mut Devices<I, O, E>,
    below: &mut Below,
) -> Result<Outcome, Stop>
    ensures row { (guest : Guest) (asked : ℕ) → guest.words ≡ words.now → guest.memory ≡ space.old → request_of_o32 asked ≡ Some request
        → IsCall (ioctl_row below.old.kernel.now guest (argument words.now 0) asked (argument words.now 2)) result below.new.kernel.now space.new guest.processor
        (contents I.left O.written E.written dev.old) (contents I.left O.written E.written dev.new) }
    ensures kept { (guest : Guest) (asked : ℕ) → guest.words ≡ words.now → guest.memory ≡ space.old → request_of_o32 asked ≡ Some request
        → KeepsCall (ioctl_row below.old.kernel.now guest (argument words.now 0) asked (argument words.now 2)) result below.old.kernel.now guest (I.left dev.old.input) below.old.log.now below.new.log.now }
    ensures proceeds { Proceeds I.faults O.faults E.faults result below.old below.new dev.old dev.new }
{
    let [fd, _, _, _] = words.reg;
    let number = request.to_native();
    match purpose_of(request) {
        Purpose::Stores(structure) => show(words, number, structure, space, dev, below),
        Purpose::Loads(structure) => take(words, number, structure, space, dev, below),
        Purpose::Unused => plain(words, fd, number, dev, below),
    }
}

/// What the pointer of a request is for.
fn purpose_of(request: Request) -> Purpose
    ensures { result ≡ purpose_of request }
{
    match request {
        Request::Tcgets => Purpose::Stores(Structure::Settings),
        Request::Tcsets => Purpose::Loads(Structure::Settings),
        Request::Tcsetsw => Purpose::Loads(Structure::Settings),
        Request::Tcsetsf => Purpose::Loads(Structure::Settings),
        Request::Tiocgwinsz => Purpose::Stores(Structure::Window),
        Request::Fionread => Purpose::Stores(Structure::Int),
        Request::Fionbio => Purpose::Loads(Structure::Int),
        Request::Fioclex => Purpose::Unused,
        Request::Fionclex => Purpose::Unused,
    }
}

/// Makes a native request without an argument.
fn plain<I: Source, O: Sink, E: Sink>(
    words: &CallWords,
    fd: u32,
    number: u64,
    dev: &mut Devices<I, O, E>,
    below: &mut Below,
) -> Result<Outcome, Stop>
    ensures row { (guest : Guest) (step : List ℕ → O32Step) → guest.words ≡ words.now
        → ((left : List ℕ) → Mirrors guest (by_reply guest.words) (native_call 29 (fd ∷ number ∷ 0 ∷ 0 ∷ 0 ∷ 0 ∷ []) below.old.kernel.now [] left) (step left))
        → IsCall step result below.new.kernel.now guest.memory guest.processor
        (contents I.left O.written E.written dev.old) (contents I.left O.written E.written dev.new) }
    ensures kept { (guest : Guest) (step : List ℕ → O32Step) → guest.words ≡ words.now
        → ((left : List ℕ) → Mirrors guest (by_reply guest.words) (native_call 29 (fd ∷ number ∷ 0 ∷ 0 ∷ 0 ∷ 0 ∷ []) below.old.kernel.now [] left) (step left))
        → KeepsCall step result below.old.kernel.now guest (I.left dev.old.input) below.old.log.now below.new.log.now }
    ensures proceeds { Proceeds I.faults O.faults E.faults result below.old below.new dev.old dev.new }
{
    below.memory.clear();
    below.number_call(words, IOCTL, [u64::from(fd), number, 0, 0, 0, 0], dev)
}

/// Makes a native request that gives a structure.
fn show<I: Source, O: Sink, E: Sink>(
    words: &CallWords,
    number: u64,
    structure: Structure,
    space: &mut Space,
    dev: &mut Devices<I, O, E>,
    below: &mut Below,
) -> Result<Outcome, Stop>
    requires asked { takes_last 29 ((argument words.now 0) ∷ number ∷ []) ≡ true }
    ensures row { (guest : Guest) (step : List ℕ → O32Step) → guest.words ≡ words.now → guest.memory ≡ space.old
        → ((left : List ℕ) → Stores guest (argument words.now 2) structure
        (native_call 29 ((argument words.now 0) ∷ number ∷ host_place guest.memory (argument words.now 2) (length (places structure)) ∷ 0 ∷ 0 ∷ 0 ∷ []) below.old.kernel.now (replicate (size structure) 0) left) (step left))
        → IsCall step result below.new.kernel.now space.new guest.processor
        (contents I.left O.written E.written dev.old) (contents I.left O.written E.written dev.new) }
    ensures kept { (guest : Guest) (step : List ℕ → O32Step) → guest.words ≡ words.now → guest.memory ≡ space.old
        → ((left : List ℕ) → Stores guest (argument words.now 2) structure
        (native_call 29 ((argument words.now 0) ∷ number ∷ host_place guest.memory (argument words.now 2) (length (places structure)) ∷ 0 ∷ 0 ∷ 0 ∷ []) below.old.kernel.now (replicate (size structure) 0) left) (step left))
        → KeepsCall step result below.old.kernel.now guest (I.left dev.old.input) below.old.log.now below.new.log.now }
    ensures proceeds { Proceeds I.faults O.faults E.faults result below.old below.new dev.old dev.new }
{
    let [fd, _, address, _] = words.reg;
    let place = host_place(space, address, structure.size_for_program());
    let args = [u64::from(fd), number, place, 0, 0, 0];
    let to = GuestStructure { address, structure };
    let call = NativeWords { nr: IOCTL, args };
    store_call(words, to, space, call, dev, below)
}

/// Makes a native request that is given a structure.
fn take<I: Source, O: Sink, E: Sink>(
    words: &CallWords,
    number: u64,
    structure: Structure,
    space: &Space,
    dev: &mut Devices<I, O, E>,
    below: &mut Below,
) -> Result<Outcome, Stop>
    requires asked { takes_last 29 ((argument words.now 0) ∷ number ∷ []) ≡ true }
    ensures row { (guest : Guest) (step : List ℕ → O32Step) → guest.words ≡ words.now → guest.memory ≡ space.now
        → ((left room : List ℕ) (place : ℕ) → IsTaken guest.memory (argument words.now 2) structure room place
        → Mirrors guest (by_reply guest.words) (native_call 29 ((argument words.now 0) ∷ number ∷ place ∷ 0 ∷ 0 ∷ 0 ∷ []) below.old.kernel.now room left) (step left))
        → IsCall step result below.new.kernel.now space.now guest.processor
        (contents I.left O.written E.written dev.old) (contents I.left O.written E.written dev.new) }
    ensures kept { (guest : Guest) (step : List ℕ → O32Step) → guest.words ≡ words.now → guest.memory ≡ space.now
        → ((left room : List ℕ) (place : ℕ) → IsTaken guest.memory (argument words.now 2) structure room place
        → Mirrors guest (by_reply guest.words) (native_call 29 ((argument words.now 0) ∷ number ∷ place ∷ 0 ∷ 0 ∷ 0 ∷ []) below.old.kernel.now room left) (step left))
        → KeepsCall step result below.old.kernel.now guest (I.left dev.old.input) below.old.log.now below.new.log.now }
    ensures proceeds { Proceeds I.faults O.faults E.faults result below.old below.new dev.old dev.new }
{
    let [fd, _, address, _] = words.reg;
    let place = take_structure(space, address, structure, below.memory)?;
    let args = [u64::from(fd), number, place, 0, 0, 0];
    below.number_call(words, IOCTL, args, dev)
}

/// Makes host memory of a structure in the program's memory, and gives its place there, where no byte is if
/// one of the program's can't be loaded.
fn take_structure(
    space: &Space,
    address: u32,
    structure: Structure,
    mem: &mut HostMem,
) -> Result<u64, NoMemory>
    ensures { IfOk result (λ place. IsTaken space.now address structure mem.new place) }
{
    mem.clear();
    let mut buffer = [0; 40];
    let bytes = &mut buffer[..structure.size_for_program() as usize];
    if load_structure(space, address, bytes).is_err() {
        return Ok(0);
    }
    push_structure(bytes, structure, mem)
}

fn push_structure(bytes: &[u8], structure: Structure, mem: &mut HostMem) -> Result<u64, NoMemory>
    requires { mem.old ≡ [] }
    ensures memory { OnOk result (mem.new ≡ map (byte_from bytes.now) (places_back structure)) }
    ensures place { IfOk result (λ place. place ≡ 65536) }
{
    let mut buffer = [0; 36];
    let places = structure.places_back();
    let native = &mut buffer[..places.len()];
    rearrange(bytes, places, native);
    mem.push(native)
}
