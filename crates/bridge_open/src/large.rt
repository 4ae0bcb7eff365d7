//! Files that are too large to be opened without O_LARGEFILE.
ghost use Rattle.std.specs.Prelude.{◌≡◌, ℕ, List, Ok, Some};
ghost use Rattle.bridge_paths.specs.Passed.{KeepsCall, Proceeds};
ghost use Rattle.bridge_open.specs.inside.Openings.{IsTooLarge, is_no_entry, outcome_of_large};
ghost use Rattle.kernel_core.specs.OpenSet.{OpenSet};
ghost use Rattle.o32_model.specs.Answered.{IsCall};
ghost use Rattle.o32_model.specs.Opening.{open_row};
ghost use Rattle.o32_model.specs.PathArguments.{base};
ghost use Rattle.o32_model.specs.Paths.{path_at};
ghost use Rattle.o32_model.specs.Step.{Guest};
ghost use Rattle.outside.specs.Streams.{contents};

use bridge_paths::{Below, outcome_of};
use host_mem::FIRST_ADDRESS;
use kernel_core::{Errno, Reply, Stop};
use native_numbers::OPENAT;
use o32_model::{CallWords, Outcome};
use outside::{Devices, Sink, Source};

/// The native number of ENOENT with its sign turned (Linux `include/uapi/asm-generic/errno-base.h`).
const NO_ENTRY: i64 = -2;

/// What a file that is too large comes to: EMFILE where there is no free descriptor, and else EOVERFLOW.
/// That there is one is told by opening the empty path, which is ENOENT then, wherever a path begins.
pub(crate) fn too_large<I: Source, O: Sink, E: Sink>(
    words: &CallWords,
    dev: &mut Devices<I, O, E>,
    below: &mut Below,
) -> Result<Outcome, Stop>
    ensures row { (guest : Guest) (directory address mode : ℕ) (path : List ℕ) (flags : OpenSet) → guest.words ≡ words.now → path_at guest.memory address ≡ Ok path
        → IsTooLarge below.old.kernel.now.files (base directory) path flags
        → IsCall (open_row below.old.kernel.now guest (base directory) address (Some flags) mode) result
        below.new.kernel.now guest.memory guest.processor
        (contents I.left O.written E.written dev.old) (contents I.left O.written E.written dev.new) }
    ensures kept { (guest : Guest) (directory address mode : ℕ) (path : List ℕ) (flags : OpenSet) → guest.words ≡ words.now → path_at guest.memory address ≡ Ok path
        → IsTooLarge below.old.kernel.now.files (base directory) path flags
        → KeepsCall (open_row below.old.kernel.now guest (base directory) address (Some flags) mode) result below.old.kernel.now guest
        (I.left dev.old.input) below.old.log.now below.new.log.now }
    ensures proceeds { Proceeds I.faults O.faults E.faults result below.old below.new dev.old dev.new }
{
    below.memory.clear();
    below.memory.push_zeros(1)?;
    let args = [0, FIRST_ADDRESS, 0, 0, 0, 0];
    let reply = below.native(OPENAT, args, dev)?;
    Ok(outcome_of_large(words, reply))
}

/// What a file that is too large comes to by that reply.
fn outcome_of_large(words: &CallWords, reply: Reply) -> Outcome
    ensures { result ≡ outcome_of_large words.now reply }
{
    if is_no_entry(reply) {
        Outcome::Error(Errno::EOVERFLOW)
    } else {
        outcome_of(words, reply)
    }
}

/// Whether a reply is ENOENT.
fn is_no_entry(reply: Reply) -> bool
    ensures { result ≡ is_no_entry reply }
{
    match reply {
        Reply::Done(number) => number == NO_ENTRY,
        Reply::Sleep(_) => false,
    }
}
