//! o32 calls with paths that are one native call.
ghost use Rattle.std.specs.Prelude.{◌≡◌, ℕ, ◌<◌, List, None, Ok, length, position, slice_set, true};
ghost use Rattle.bridge_paths.specs.Passed.{AreUnusedZero, KeepsCall, Proceeds, built_call, takes_address};
ghost use Rattle.native_calls.specs.Table.{native_call};
ghost use Rattle.o32_model.specs.Answered.{IsCall};
ghost use Rattle.o32_model.specs.Paths.{is_nul, path_at, path_limit};
ghost use Rattle.o32_model.specs.Step.{Guest, O32Step};
ghost use Rattle.outside.specs.Streams.{contents};
ghost use Rattle.bridge_file.specs.inside.Paths.{MirrorsPath, MirrorsPaths};

use crate::paths::Caller;
use bridge_paths::{Below, NativeWords, put_one, put_two, read_path};
use kernel_core::{Bytes, Stop};
use o32_model::Outcome;
use outside::{Devices, Sink, Source};

/// Two paths of a call, of which the second stands behind the first in host memory.
#[derive(Clone, Copy)]
pub(crate) struct TwoPaths {
    /// The first one's address in the program's memory.
    pub(crate) first: u32,
    /// The second one's.
    pub(crate) second: u32,
    /// Which argument of the native call is the second one's address in host memory, from 0.
    pub(crate) place: usize,
}

/// Makes the native call that a call of the program with a path is, over host memory with the path at its
/// first address; what is wrong with a path that can't be read is the outcome, without a native call.
/// `row` and `kept` hold of every o32 call that this native call mirrors.
pub(crate) fn path_call<I: Source, O: Sink, E: Sink>(
    caller: &Caller,
    address: u32,
    call: NativeWords,
    dev: &mut Devices<I, O, E>,
    below: &mut Below,
) -> Result<Outcome, Stop>
    requires built { built_call call.nr ≡ native_call call.nr }
    requires unused { AreUnusedZero call.nr call.args }
    requires address { takes_address call.nr ≡ true }
    ensures row { (guest : Guest) (step : List ℕ → O32Step) → guest.words ≡ caller.now.words.now → guest.memory ≡ caller.now.space.now
        → MirrorsPath guest below.old.kernel.now address (native_call call.nr call.args below.old.kernel.now) step
        → IsCall step result below.new.kernel.now guest.memory guest.processor
        (contents I.left O.written E.written dev.old) (contents I.left O.written E.written dev.new) }
    ensures kept { (guest : Guest) (step : List ℕ → O32Step) → guest.words ≡ caller.now.words.now → guest.memory ≡ caller.now.space.now
        → MirrorsPath guest below.old.kernel.now address (native_call call.nr call.args below.old.kernel.now) step
        → KeepsCall step result below.old.kernel.now guest (I.left dev.old.input) below.old.log.now below.new.log.now }
    ensures proceeds { Proceeds I.faults O.faults E.faults result below.old below.new dev.old dev.new }
{
    match read_path(caller.alloc, caller.space, address)? {
        Err(error) => Ok(Outcome::Error(error)),
        Ok(path) => {
            put_one(below.memory, &path)?;
            below.number_call(caller.words, call.nr, call.args, dev)
        }
    }
}

/// The same with two paths.
pub(crate) fn paths_call<I: Source, O: Sink, E: Sink>(
    caller: &Caller,
    paths: TwoPaths,
    call: NativeWords,
    dev: &mut Devices<I, O, E>,
    below: &mut Below,
) -> Result<Outcome, Stop>
    requires built { built_call call.nr ≡ native_call call.nr }
    requires unused { (at : ℕ) → AreUnusedZero call.nr (slice_set call.args paths.place at) }
    requires address { takes_address call.nr ≡ true }
    requires place { paths.place < 6 }
    ensures row { (guest : Guest) (step : List ℕ → O32Step) → guest.words ≡ caller.now.words.now → guest.memory ≡ caller.now.space.now
        → MirrorsPaths guest below.old.kernel.now paths.first paths.second (λ at. native_call call.nr (slice_set call.args paths.place at) below.old.kernel.now) step
        → IsCall step result below.new.kernel.now guest.memory guest.processor
        (contents I.left O.written E.written dev.old) (contents I.left O.written E.written dev.new) }
    ensures kept { (guest : Guest) (step : List ℕ → O32Step) → guest.words ≡ caller.now.words.now → guest.memory ≡ caller.now.space.now
        → MirrorsPaths guest below.old.kernel.now paths.first paths.second (λ at. native_call call.nr (slice_set call.args paths.place at) below.old.kernel.now) step
        → KeepsCall step result below.old.kernel.now guest (I.left dev.old.input) below.old.log.now below.new.log.now }
    ensures proceeds { Proceeds I.faults O.faults E.faults result below.old below.new dev.old dev.new }
{
    match read_path(caller.alloc, caller.space, paths.first)? {
        Err(error) => Ok(Outcome::Error(error)),
        Ok(one) => second_call(caller, paths, &one, call, dev, below),
    }
}

/// The same once the first path is read.
fn second_call<I: Source, O: Sink, E: Sink>(
    caller: &Caller,
    paths: TwoPaths,
    one: &Bytes,
    call: NativeWords,
    dev: &mut Devices<I, O, E>,
    below: &mut Below,
) -> Result<Outcome, Stop>
    requires built { built_call call.nr ≡ native_call call.nr }
    requires unused { (at : ℕ) → AreUnusedZero call.nr (slice_set call.args paths.place at) }
    requires address { takes_address call.nr ≡ true }
    requires place { paths.place < 6 }
    requires found { path_at caller.now.space.now paths.first ≡ Ok one.now }
    requires short { length one.now < path_limit }
    requires plain { position is_nul one.now ≡ None }
    ensures row { (guest : Guest) (step : List ℕ → O32Step) → guest.words ≡ caller.now.words.now → guest.memory ≡ caller.now.space.now
        → MirrorsPaths guest below.old.kernel.now paths.first paths.second (λ at. native_call call.nr (slice_set call.args paths.place at) below.old.kernel.now) step
        → IsCall step result below.new.kernel.now guest.memory guest.processor
        (contents I.left O.written E.written dev.old) (contents I.left O.written E.written dev.new) }
    ensures kept { (guest : Guest) (step : List ℕ → O32Step) → guest.words ≡ caller.now.words.now → guest.memory ≡ caller.now.space.now
        → MirrorsPaths guest below.old.kernel.now paths.first paths.second (λ at. native_call call.nr (slice_set call.args paths.place at) below.old.kernel.now) step
        → KeepsCall step result below.old.kernel.now guest (I.left dev.old.input) below.old.log.now below.new.log.now }
    ensures proceeds { Proceeds I.faults O.faults E.faults result below.old below.new dev.old dev.new }
{
    match read_path(caller.alloc, caller.space, paths.second)? {
        Err(error) => Ok(Outcome::Error(error)),
        Ok(two) => {
            let at = put_two(below.memory, one, &two)?;
            let args = with_argument(call.args, paths.place, at);
            below.number_call(caller.words, call.nr, args, dev)
        }
    }
}

/// The arguments with another one at a place.
fn with_argument(args: [u64; 6], place: usize, argument: u64) -> [u64; 6]
    requires { place < 6 }
    ensures { result ≡ slice_set args place argument }
{
    let mut args = args;
    args[place] = argument;
    args
}
