//! Native calls that take and send nothing: where a descriptor's position is, the entries behind it, and how it is
//! put elsewhere.
ghost use Rattle.std.specs.Prelude.{◌≡◌, ℕ, ◌<◌, ◌^◌, List, Some, ⊤};
ghost use Rattle.bridge_log.specs.Proceeding.{Proceeds};
ghost use Rattle.bridge_entries.specs.inside.Listed.{IsListedBy, did_of, place_in, place_there};
ghost use Rattle.bridge_entries.specs.inside.Passing.{GoesTo, IsQuiet, Replied};
ghost use Rattle.bridge_log.specs.Arguments.{AreUnusedZero, IsPlaced};
ghost use Rattle.kernel_core.specs.FileSystem.{IsFileSystem};
ghost use Rattle.kernel_core.specs.declared.reply.Reply.{Reply};
ghost use Rattle.kernel_model.specs.Descriptions.{node_of, opened};
ghost use Rattle.kernel_model.specs.State.{Kernel};
ghost use Rattle.kernel_model.specs.Transfers.{moved_to};
ghost use Rattle.kernel_model.specs.Whole.{with_files};
ghost use Rattle.kernel_model.specs.declared.descriptor.Description.{Description};
ghost use Rattle.native_calls.specs.Table.{native_call};
ghost use Rattle.bridge_log.specs.Built.{built_call};
ghost use Rattle.outside.specs.Streams.{contents};

use crate::numbers::{SEEK_CUR, SEEK_SET};
use bridge_log::{Below, fresh_room};
use host_mem::FIRST_ADDRESS;
use kernel_core::{Reply, Stop};
use native_numbers::{GETDENTS64, LSEEK};
use outside::{Devices, Sink, Source};

/// Makes a native call that takes and sends nothing.
fn quiet<I: Source, O: Sink, E: Sink>(
    nr: u64,
    args: [u64; 6],
    dev: &mut Devices<I, O, E>,
    below: &mut Below,
) -> Result<Reply, Stop>
    requires built { built_call nr ≡ native_call nr }
    requires unused { AreUnusedZero nr args }
    requires placed { IsPlaced nr below.old.memory.now }
    ensures goes { (target : Kernel) (reply : Reply) (memory : List ℕ)
        → ((left : List ℕ) → IsQuiet target reply memory left (native_call nr args below.old.kernel.now below.old.memory.now left))
        → GoesTo (Replied reply memory below.new.memory.now) result below.old.kernel.now target below.new.kernel.now
        (contents I.left O.written E.written dev.old) (contents I.left O.written E.written dev.new) below.old.log.now below.new.log.now }
    ensures proceeds { Proceeds I.faults O.faults E.faults result below.old below.new dev.old dev.new }
{
    below.native(nr, args, dev)
}

/// The position of a descriptor; None where there is none, or where it is greater than any that lseek(2) tells.
pub(crate) fn position<I: Source, O: Sink, E: Sink>(
    fd: u32,
    dev: &mut Devices<I, O, E>,
    below: &mut Below,
) -> Result<Option<u64>, Stop>
    ensures goes { GoesTo (λ found. found ≡ place_there (opened below.old.kernel.now.files fd)) result below.old.kernel.now below.old.kernel.now below.new.kernel.now
        (contents I.left O.written E.written dev.old) (contents I.left O.written E.written dev.new) below.old.log.now below.new.log.now }
    ensures proceeds { Proceeds I.faults O.faults E.faults result below.old below.new dev.old dev.new }
{
    below.memory.clear();
    let args = [u64::from(fd), 0, SEEK_CUR, 0, 0, 0];
    let reply = quiet(LSEEK, args, dev, below)?;
    Ok(place_in(reply))
}

/// The reply's number; None where it is an error.
fn place_in(reply: Reply) -> Option<u64>
    ensures { result ≡ place_in reply }
{
    match reply {
        Reply::Done(number) if number >= 0 => Some(number as u64),
        _ => None,
    }
}

/// Lists the entries behind the position in so many bytes, which become host memory.
pub(crate) fn list<I: Source, O: Sink, E: Sink>(
    fd: u32,
    size: u32,
    dev: &mut Devices<I, O, E>,
    below: &mut Below,
) -> Result<Reply, Stop>
    ensures goes { IsFileSystem below.old.kernel.now.files.nodes
        → GoesTo (λ reply. IsListedBy (did_of below.old.kernel.now fd size size) below.new.memory.now reply) result below.old.kernel.now (did_of below.old.kernel.now fd size size).state below.new.kernel.now
        (contents I.left O.written E.written dev.old) (contents I.left O.written E.written dev.new) below.old.log.now below.new.log.now }
    ensures proceeds { Proceeds I.faults O.faults E.faults result below.old below.new dev.old dev.new }
{
    fresh_room(below.memory, size)?;
    let args = [u64::from(fd), FIRST_ADDRESS, u64::from(size), 0, 0, 0];
    quiet(GETDENTS64, args, dev, below)
}

/// Puts the position of a node's descriptor to a place.
pub(crate) fn put_position<I: Source, O: Sink, E: Sink>(
    fd: u32,
    place: u64,
    dev: &mut Devices<I, O, E>,
    below: &mut Below,
) -> Result<(), Stop>
    ensures goes { (description : Description) (node : ℕ) → opened below.old.kernel.now.files fd ≡ Some description
        → node_of description.object ≡ Some node → place < 2 ^ 31
        → GoesTo (λ _. ⊤) result below.old.kernel.now (with_files below.old.kernel.now (moved_to below.old.kernel.now.files fd description place)) below.new.kernel.now
        (contents I.left O.written E.written dev.old) (contents I.left O.written E.written dev.new) below.old.log.now below.new.log.now }
    ensures proceeds { Proceeds I.faults O.faults E.faults result below.old below.new dev.old dev.new }
{
    below.memory.clear();
    let args = [u64::from(fd), place, SEEK_SET, 0, 0, 0];
    quiet(LSEEK, args, dev, below)?;
    Ok(())
}
