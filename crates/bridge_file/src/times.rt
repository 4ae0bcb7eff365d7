//! The call that sets the times of a node: utimensat(2).
ghost use Rattle.std.specs.Prelude.{◌≡◌, ◌<◌, ◌≤◌, List, IfOk, IfSome, None, Ok, OnOk, Option, ℕ, length, option_map, position, true};
ghost use Rattle.byteorder.specs.Endian.{big_number};
ghost use Rattle.bridge_paths.specs.Passed.{KeepsCall, Proceeds};
ghost use Rattle.kernel_model.specs.Came.{given_or_none};
ghost use Rattle.layouts.specs.Number.{value_of};
ghost use Rattle.native_calls.specs.Nodes as native_nodes;
ghost use Rattle.o32_model.specs.Answered.{IsCall};
ghost use Rattle.o32_model.specs.NodeCalls as rows;
ghost use Rattle.o32_model.specs.NodeCalls.{times_at, utimensat_row};
ghost use Rattle.o32_model.specs.PathArguments.{base};
ghost use Rattle.o32_model.specs.Paths.{is_nul, path_limit};
ghost use Rattle.o32_model.specs.Step.{Guest};
ghost use Rattle.o32_model.specs.Times.{spec_in};
ghost use Rattle.o32_model.specs.Words.{argument};
ghost use Rattle.outside.specs.Streams.{contents};
ghost use Rattle.bridge_file.specs.inside.BothTimes.{
  HasPathOrNone,
  both_bytes,
  host_times_or_none,
  path_or_none,
  times_of,
  times_read,
};

use crate::paths::Caller;
use bridge_paths::{Below, load_structure, put_path, read_path};
use byteorder::{BigEndian, ByteOrder};
use guest_space::Space;
use host_mem::HostMem;
use kernel_core::{Bytes, Errno, NoMemory, Stop};
use kernel_model::TimeSpec;
use layouts::{NativeStructure, native_layout, put_record};
use native_numbers::UTIMENSAT;
use o32_model::Outcome;
use outside::{Devices, Sink, Source};
use std::alloc::Global;

/// The times that a node gets.
#[derive(Clone, Copy)]
pub(crate) struct BothTimes {
    /// That of the last access.
    pub(crate) access: TimeSpec,
    /// That of the last modification.
    pub(crate) modified: TimeSpec,
}

/// utimensat(2): what is wrong with the path; EFAULT for times that can't be read; EINVAL for nanoseconds that are
/// none, and for flags other than AT_SYMLINK_NOFOLLOW; EBADF. A null path is the descriptor itself, and without
/// times both are now.
pub(crate) fn utimensat<I: Source, O: Sink, E: Sink>(
    caller: &Caller,
    dev: &mut Devices<I, O, E>,
    below: &mut Below,
) -> Result<Outcome, Stop>
    ensures row { (guest : Guest) → guest.words ≡ caller.now.words.now → guest.memory ≡ caller.now.space.now
        → IsCall (utimensat_row below.old.kernel.now guest (base (argument caller.now.words.now 0)) (argument caller.now.words.now 1) (argument caller.now.words.now 2) (argument caller.now.words.now 3)) result below.new.kernel.now guest.memory guest.processor
        (contents I.left O.written E.written dev.old) (contents I.left O.written E.written dev.new) }
    ensures kept { (guest : Guest) → guest.words ≡ caller.now.words.now → guest.memory ≡ caller.now.space.now
        → KeepsCall (utimensat_row below.old.kernel.now guest (base (argument caller.now.words.now 0)) (argument caller.now.words.now 1) (argument caller.now.words.now 2) (argument caller.now.words.now 3)) result below.old.kernel.now guest (I.left dev.old.input) below.old.log.now below.new.log.now }
    ensures proceeds { Proceeds I.faults O.faults E.faults result below.old below.new dev.old dev.new }
{
    let [_, address, _, _] = caller.words.reg;
    match read_path_or_none(caller.alloc, caller.space, address)? {
        Err(error) => Ok(Outcome::Error(error)),
        Ok(path) => set_times(caller, &path, dev, below),
    }
}

/// The same once the path is read.
fn set_times<I: Source, O: Sink, E: Sink>(
    caller: &Caller,
    path: &Option<Bytes>,
    dev: &mut Devices<I, O, E>,
    below: &mut Below,
) -> Result<Outcome, Stop>
    requires found { path_or_none caller.now.space.now (argument caller.now.words.now 1) ≡ Ok path.now }
    requires short { IfSome path.now (λ path. length path < path_limit) }
    requires plain { IfSome path.now (λ path. position is_nul path ≡ None) }
    ensures row { (guest : Guest) → guest.words ≡ caller.now.words.now → guest.memory ≡ caller.now.space.now
        → IsCall (utimensat_row below.old.kernel.now guest (base (argument caller.now.words.now 0)) (argument caller.now.words.now 1) (argument caller.now.words.now 2) (argument caller.now.words.now 3)) result below.new.kernel.now guest.memory guest.processor
        (contents I.left O.written E.written dev.old) (contents I.left O.written E.written dev.new) }
    ensures kept { (guest : Guest) → guest.words ≡ caller.now.words.now → guest.memory ≡ caller.now.space.now
        → KeepsCall (utimensat_row below.old.kernel.now guest (base (argument caller.now.words.now 0)) (argument caller.now.words.now 1) (argument caller.now.words.now 2) (argument caller.now.words.now 3)) result below.old.kernel.now guest (I.left dev.old.input) below.old.log.now below.new.log.now }
    ensures proceeds { Proceeds I.faults O.faults E.faults result below.old below.new dev.old dev.new }
{
    let [directory, _, times, flags] = caller.words.reg;
    match read_times(caller.space, times) {
        Err(error) => Ok(Outcome::Error(error)),
        Ok(given) => {
            let at = put_path_or_none(below.memory, path)?;
            let times_at = put_times_or_none(below.memory, given)?;
            let args = [u64::from(directory), at, times_at, u64::from(flags), 0, 0];
            below.number_call(caller.words, UTIMENSAT, args, dev)
        }
    }
}

/// The path at an address, which may be null, or what is wrong with it.
fn read_path_or_none(
    alloc: Global,
    space: &Space,
    address: u32,
) -> Result<Result<Option<Bytes>, Errno>, NoMemory>
    ensures answer { IfOk result (λ given. path_or_none space.now address ≡ given) }
    ensures short { IfOk result (λ given. IfOk given (λ path. IfSome path (λ path. length path < path_limit))) }
    ensures plain { IfOk result (λ given. IfOk given (λ path. IfSome path (λ path. position is_nul path ≡ None))) }
{
    if address == 0 {
        return Ok(Ok(None));
    }
    match read_path(alloc, space, address)? {
        Err(error) => Ok(Err(error)),
        Ok(path) => Ok(Ok(Some(path))),
    }
}

/// The times at an address, which may be null, or EFAULT where they can't be read.
fn read_times(space: &Space, address: u32) -> Result<Option<BothTimes>, Errno>
    ensures { times_read result ≡ given_or_none (times_at space.now address) }
{
    if address == 0 {
        return Ok(None);
    }
    let mut bytes = [0; 16];
    load_structure(space, address, &mut bytes)?;
    Ok(Some(both_times(&bytes)))
}

/// Two times, one behind the other.
fn both_times(bytes: &[u8]) -> BothTimes
    requires { length bytes.now ≡ 16 }
    ensures { times_of result ≡ rows.times_in bytes.now }
{
    BothTimes {
        access: time_in(bytes),
        modified: time_in(&bytes[8..]),
    }
}

/// The time in a structure of the program (struct timespec of 32 bits).
fn time_in(bytes: &[u8]) -> TimeSpec
    requires { 8 ≤ length bytes.now }
    ensures { result ≡ spec_in bytes.now }
{
    TimeSpec {
        seconds: signed_in(bytes),
        nanoseconds: signed_in(&bytes[4..]),
    }
}

/// The signed number in four bytes of the program.
fn signed_in(bytes: &[u8]) -> i64
    requires { 4 ≤ length bytes.now }
    ensures { result ≡ value_of true 4 (big_number 4 bytes.now) }
{
    i64::from(BigEndian::read_u32(bytes).cast_signed())
}

/// Two times, one behind the other, as host memory has them.
fn native_bytes(times: BothTimes) -> [u8; 32]
    ensures bytes { result ≡ both_bytes times }
    ensures times { native_nodes.times_in result ≡ times_of times }
{
    let values = [
        i128::from(times.access.seconds),
        i128::from(times.access.nanoseconds),
        i128::from(times.modified.seconds),
        i128::from(times.modified.nanoseconds),
    ];
    let mut bytes = [0; 32];
    put_record(
        native_layout(NativeStructure::Itimerval),
        &values,
        &mut bytes,
    );
    bytes
}

/// Makes host memory a path and a NUL, and gives its address; without a path it is empty, and that is 0.
fn put_path_or_none(mem: &mut HostMem, path: &Option<Bytes>) -> Result<u64, NoMemory>
    ensures { IfOk result (λ address. HasPathOrNone mem.new address path.now) }
{
    mem.clear();
    match path {
        None => Ok(0),
        Some(path) => put_path(mem, path),
    }
}

/// Adds two times to host memory, and gives their address; without times that is 0.
fn put_times_or_none(mem: &mut HostMem, times: Option<BothTimes>) -> Result<u64, NoMemory>
    ensures path { OnOk result ((address : ℕ) (path : Option (List ℕ)) → HasPathOrNone mem.old address path → HasPathOrNone mem.new address path) }
    ensures times { IfOk result (λ address. host_times_or_none mem.new address ≡ Ok (option_map times_of times)) }
{
    match times {
        None => Ok(0),
        Some(times) => {
            let at = mem.push(&native_bytes(times))?;
            Ok(at)
        }
    }
}
