//! Structures, whose bytes have another order in the program's memory than in host memory, and calls that
//! give one.
ghost use Rattle.std.specs.Prelude.{◌≡◌, ◌≤◌, ℕ, List, length, map, replicate, slice_index, true, OnOk};
ghost use Rattle.bridge_log.specs.Proceeding.{Proceeds};
ghost use Rattle.bridge_io.specs.inside.Stores.{Stores, bytes_told, byte_from, places, size};
ghost use Rattle.bridge_io.specs.inside.Takes.{places_back};
ghost use Rattle.bridge_log.specs.Arguments.{AreUnusedZero, takes_address};
ghost use Rattle.bridge_log.specs.Keeping.{EffectsLead, KeepsCall};
ghost use Rattle.native_calls.specs.Table.{native_call};
ghost use Rattle.bridge_log.specs.Built.{built_call};
ghost use Rattle.o32_model.specs.Answered.{IsCall};
ghost use Rattle.o32_model.specs.GuestBytes.{with_stored};
ghost use Rattle.o32_model.specs.Step.{Guest, O32Step};
ghost use Rattle.outside.specs.Streams.{contents};

use bridge_log::{Below, NativeWords, fresh_room, outcome_of, put};
use guest_space::Space;
use host_mem::HostMem;
use kernel_core::{NoMemory, Reply, Stop};
use o32_model::{CallWords, Log, Outcome};
use outside::{Devices, Sink, Source};

/// A structure that both worlds have.
#[derive(Clone, Copy)]
pub(crate) enum Structure {
    /// Two descriptors.
    Pair,
    /// An int.
    Int,
    /// The size of a window.
    Window,
    /// The settings of a terminal (struct termios), whose characters have other places in host memory.
    Settings,
}

impl Structure {
    /// How many bytes it has in host memory.
    fn size(self) -> u32
        ensures { result ≡ size self }
    {
        match self {
            Structure::Pair | Structure::Window => 8,
            Structure::Int => 4,
            Structure::Settings => 36,
        }
    }

    /// How many bytes it has in the program's memory.
    pub(crate) fn size_for_program(self) -> u32
        ensures value { result ≡ length (places self) }
        ensures bound { result ≤ 40 }
    {
        match self {
            Structure::Pair | Structure::Window => 8,
            Structure::Int => 4,
            Structure::Settings => 40,
        }
    }

    /// For each of its bytes in the program's memory the place in host memory, or none for a byte that is 0.
    fn places(self) -> &'static [Option<usize>]
        ensures places { result.now ≡ places self }
        ensures bound { length result.now ≤ 40 }
    {
        match self {
            Structure::Pair => &PAIR,
            Structure::Int => &INT,
            Structure::Window => &WINDOW,
            Structure::Settings => &SETTINGS,
        }
    }

    /// For each of its bytes in host memory the place in the program's memory, or none for a byte that is 0.
    pub(crate) fn places_back(self) -> &'static [Option<usize>]
        ensures places { result.now ≡ places_back self }
        ensures bound { length result.now ≤ 36 }
    {
        match self {
            Structure::Pair => &PAIR,
            Structure::Int => &INT,
            Structure::Window => &WINDOW,
            Structure::Settings => &SETTINGS_BACK,
        }
    }
}

/// Two numbers of four bytes, the first byte of each counting most.
static PAIR: [Option<usize>; 8] = [
    Some(3),
    Some(2),
    Some(1),
    Some(0),
    Some(7),
    Some(6),
    Some(5),
    Some(4),
];

/// One such number.
static INT: [Option<usize>; 4] = [Some(3), Some(2), Some(1), Some(0)];

/// Four numbers of two bytes.
static WINDOW: [Option<usize>; 8] = [
    Some(1),
    Some(0),
    Some(3),
    Some(2),
    Some(5),
    Some(4),
    Some(7),
    Some(6),
];

/// Four words of flags, the line and 23 characters (Linux `arch/mips/include/uapi/asm/termbits.h`), of which
/// the native kernel lacks six.
static SETTINGS: [Option<usize>; 40] = [
    Some(3),
    Some(2),
    Some(1),
    Some(0),
    Some(7),
    Some(6),
    Some(5),
    Some(4),
    Some(11),
    Some(10),
    Some(9),
    Some(8),
    Some(15),
    Some(14),
    Some(13),
    Some(12),
    Some(16),
    Some(17), // VINTR
    Some(18), // VQUIT
    Some(19), // VERASE
    Some(20), // VKILL
    Some(23), // VMIN
    Some(22), // VTIME
    Some(33), // VEOL2
    Some(24), // VSWTC
    Some(25), // VSTART
    Some(26), // VSTOP
    Some(27), // VSUSP
    None,
    Some(29), // VREPRINT
    Some(30), // VDISCARD
    Some(31), // VWERASE
    Some(32), // VLNEXT
    Some(21), // VEOF
    Some(28), // VEOL
    None,
    None,
    None,
    None,
    None,
];

/// The same with the 19 characters of the native kernel (Linux `include/uapi/asm-generic/termbits.h`), of
/// which the last two have no name.
static SETTINGS_BACK: [Option<usize>; 36] = [
    Some(3),
    Some(2),
    Some(1),
    Some(0),
    Some(7),
    Some(6),
    Some(5),
    Some(4),
    Some(11),
    Some(10),
    Some(9),
    Some(8),
    Some(15),
    Some(14),
    Some(13),
    Some(12),
    Some(16),
    Some(17), // VINTR
    Some(18), // VQUIT
    Some(19), // VERASE
    Some(20), // VKILL
    Some(33), // VEOF
    Some(22), // VTIME
    Some(21), // VMIN
    Some(24), // VSWTC
    Some(25), // VSTART
    Some(26), // VSTOP
    Some(27), // VSUSP
    Some(34), // VEOL
    Some(29), // VREPRINT
    Some(30), // VDISCARD
    Some(31), // VWERASE
    Some(32), // VLNEXT
    Some(23), // VEOL2
    None,
    None,
];

/// A structure in the program's memory.
#[derive(Clone, Copy)]
pub(crate) struct GuestStructure {
    /// Where it begins.
    pub(crate) address: u32,
    /// Which one it is.
    pub(crate) structure: Structure,
}

/// Makes the native call that a call of the program is, where it gives a structure: over host memory with
/// as many zeros as the structure has bytes, from where it then goes to the program's memory. `row` and
/// `kept` hold of every o32 call that this native call stores for.
pub(crate) fn store_call<I: Source, O: Sink, E: Sink>(
    words: &CallWords,
    to: GuestStructure,
    space: &mut Space,
    call: NativeWords,
    dev: &mut Devices<I, O, E>,
    below: &mut Below,
) -> Result<Outcome, Stop>
    requires built { built_call call.nr ≡ native_call call.nr }
    requires unused { AreUnusedZero call.nr call.args }
    requires address { takes_address call.nr ≡ true }
    ensures row { (guest : Guest) (step : List ℕ → O32Step) → guest.words ≡ words.now → guest.memory ≡ space.old
        → ((left : List ℕ) → Stores guest to.address to.structure (native_call call.nr call.args below.old.kernel.now (replicate (size to.structure) 0) left) (step left))
        → IsCall step result below.new.kernel.now space.new guest.processor
        (contents I.left O.written E.written dev.old) (contents I.left O.written E.written dev.new) }
    ensures kept { (guest : Guest) (step : List ℕ → O32Step) → guest.words ≡ words.now → guest.memory ≡ space.old
        → ((left : List ℕ) → Stores guest to.address to.structure (native_call call.nr call.args below.old.kernel.now (replicate (size to.structure) 0) left) (step left))
        → KeepsCall step result below.old.kernel.now guest (I.left dev.old.input) below.old.log.now below.new.log.now }
    ensures proceeds { Proceeds I.faults O.faults E.faults result below.old below.new dev.old dev.new }
{
    fresh_room(below.memory, to.structure.size())?;
    let reply = below.native(call.nr, call.args, dev)?;
    put_structure(space, to, below.memory, reply, below.log)?;
    Ok(outcome_of(words, reply))
}

/// Writes the structure that stands in host memory after a reply that is no error to the program's memory,
/// where it may be stored whole.
fn put_structure(
    space: &mut Space,
    to: GuestStructure,
    mem: &HostMem,
    reply: Reply,
    log: &mut Log,
) -> Result<(), NoMemory>
    ensures stored { OnOk result (space.new ≡ with_stored space.old to.address (bytes_told to.structure mem.now reply)) }
    ensures effects { OnOk result (EffectsLead log.old log.new space.old space.new) }
    ensures native { log.new.native ≡ log.old.native }
{
    match reply {
        Reply::Done(number) => {
            if number >= 0 {
                put_bytes(space, to, mem, log)?;
            }
            Ok(())
        }
        Reply::Sleep(_) => Ok(()),
    }
}

fn put_bytes(
    space: &mut Space,
    to: GuestStructure,
    mem: &HostMem,
    log: &mut Log,
) -> Result<(), NoMemory>
    ensures stored { OnOk result (space.new ≡ with_stored space.old to.address (map (byte_from mem.now) (places to.structure))) }
    ensures effects { OnOk result (EffectsLead log.old log.new space.old space.new) }
    ensures native { log.new.native ≡ log.old.native }
{
    let places = to.structure.places();
    let mut buffer = [0; 40];
    let bytes = &mut buffer[..places.len()];
    rearrange(mem.as_slice(), places, bytes);
    put(space, to.address, bytes, log)?;
    Ok(())
}

/// Sets each byte to the one at its place, or to 0.
pub(crate) fn rearrange(from: &[u8], places: &[Option<usize>], bytes: &mut [u8])
    requires { length bytes.old ≡ length places.now }
    ensures { bytes.new ≡ map (byte_from from.now) places.now }
{
    for k in 0..bytes.len() {
        bytes[k] = byte_from(from, places[k]);
    }
}

fn byte_from(from: &[u8], place: Option<usize>) -> u8
    ensures { result ≡ byte_from from.now place }
{
    match place {
        None => 0,
        Some(place) => byte_at(from, place),
    }
}

/// The byte at a place, or 0 past the end.
pub(crate) fn byte_at(from: &[u8], place: usize) -> u8
    ensures { result ≡ slice_index from.now place }
{
    if place < from.len() { from[place] } else { 0 }
}
