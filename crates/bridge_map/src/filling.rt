//! Bytes of a file that go to the program's memory.
ghost use Rattle.std.specs.Prelude.{◌≡◌, ◌≤◌, ◌<◌, ◌+◌, ◌^◌, ⊤, ℕ, length, List, Some};
ghost use Rattle.bridge_log.specs.Proceeding.{Proceeds};
ghost use Rattle.bridge_map.specs.Shown.{AreStorable, Fills, Shows, count_of};
ghost use Rattle.kernel_core.specs.FileContent.{FileContent};
ghost use Rattle.kernel_model.specs.Transfers.{file_bytes};
ghost use Rattle.outside.specs.Streams.{contents};

use bridge_log::Below;
use guest_space::Space;
use host_mem::FIRST_ADDRESS;
use kernel_core::Stop;
use native_numbers::PREAD64;
use o32_model::{CallWords, Outcome};
use outside::{Devices, Sink, Source};

/// How many bytes one native call reads at most, so that what a mapping costs goes by the file and not by its
/// own length.
const PIECE: u32 = 0x1_0000;

/// A part of a file that goes to the program's memory.
#[derive(Clone, Copy)]
pub(crate) struct FilePart {
    /// The file's descriptor.
    pub(crate) fd: u32,
    /// Where the part begins in the file.
    pub(crate) offset: u64,
    /// Where it goes in memory.
    pub(crate) address: u32,
    /// How many bytes it has at most, as the file may end within it.
    pub(crate) count: u32,
}

/// Reads a part of a file to memory, as far as the file goes, by native calls of a piece each.
pub(crate) fn fill<I: Source, O: Sink, E: Sink>(
    args: &CallWords,
    part: FilePart,
    space: &mut Space,
    dev: &mut Devices<I, O, E>,
    below: &mut Below,
) -> Result<(), Stop>
    requires offset { part.offset < 2 ^ 62 }
    requires range { part.address + part.count < 2 ^ 32 }
    ensures filled { (left : List ℕ) → I.left dev.old.input ≡ Some left
        → (content : FileContent) → Shows below.old.kernel.now.files part.fd content → AreStorable space.old.pages part.address part.count
        → Fills (λ _. ⊤) result below.old.kernel.now below.new.kernel.now left
        (contents I.left O.written E.written dev.old) (contents I.left O.written E.written dev.new)
        space.old space.new below.old.log.now below.new.log.now part.address (file_bytes content part.offset part.count) }
    ensures proceeds { Proceeds I.faults O.faults E.faults result below.old below.new dev.old dev.new }
{
    let FilePart {
        fd,
        offset,
        address,
        count,
    } = part;
    for piece in 0..count.div_ceil(PIECE) {
        let done = piece * PIECE;
        let want = (count - done).min(PIECE);
        let from = offset + u64::from(done);
        let next = FilePart {
            fd,
            offset: from,
            address: address + done,
            count: want,
        };
        let got = fill_piece(args, next, space, dev, below)?;
        if got < want {
            return Ok(());
        }
    }
    Ok(())
}

/// Reads a piece of a file to memory, and answers how many bytes of it there were.
fn fill_piece<I: Source, O: Sink, E: Sink>(
    args: &CallWords,
    part: FilePart,
    space: &mut Space,
    dev: &mut Devices<I, O, E>,
    below: &mut Below,
) -> Result<u32, Stop>
    requires offset { part.offset < 2 ^ 63 }
    requires some { 0 < part.count }
    requires few { part.count ≤ 65536 }
    ensures filled { (left : List ℕ) → I.left dev.old.input ≡ Some left
        → (content : FileContent) → Shows below.old.kernel.now.files part.fd content → AreStorable space.old.pages part.address part.count
        → Fills (λ got. got ≡ length (file_bytes content part.offset part.count)) result below.old.kernel.now below.new.kernel.now left
        (contents I.left O.written E.written dev.old) (contents I.left O.written E.written dev.new)
        space.old space.new below.old.log.now below.new.log.now part.address (file_bytes content part.offset part.count) }
    ensures proceeds { Proceeds I.faults O.faults E.faults result below.old below.new dev.old dev.new }
{
    let FilePart {
        fd,
        offset,
        address,
        count,
    } = part;
    let call = [u64::from(fd), FIRST_ADDRESS, u64::from(count), offset, 0, 0];
    let outcome = below.fill_call(args, address, count, space, PREAD64, call, dev)?;
    Ok(count_of(outcome))
}

/// The result of a call, or 0 where it has none.
fn count_of(outcome: Outcome) -> u32
    ensures { result ≡ count_of outcome }
{
    match outcome {
        Outcome::Value(count) => count,
        _ => 0,
    }
}
