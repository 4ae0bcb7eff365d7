//! The calls that tell a text: readlink(2), readlinkat(2), getcwd(2).
ghost use Rattle.std.specs.Prelude.{◌≡◌, ◌<◌, None, Ok, length, position};
ghost use Rattle.std.specs.Int.{cast_signed, w32};
ghost use Rattle.bridge_paths.specs.Passed.{KeepsCall, Proceeds};
ghost use Rattle.o32_model.specs.Answered.{IsCall};
ghost use Rattle.o32_model.specs.Names.{readlink_row};
ghost use Rattle.o32_model.specs.NodeCalls.{getcwd_row};
ghost use Rattle.o32_model.specs.PathArguments.{base};
ghost use Rattle.o32_model.specs.Paths.{is_nul, path_at, path_limit};
ghost use Rattle.o32_model.specs.Step.{Guest};
ghost use Rattle.outside.specs.Streams.{contents};
ghost use Rattle.bridge_file.specs.inside.Tells.{size_room};

use crate::paths::PathAt;
use crate::telling::{Told, ToldAt, tell_call};
use bridge_paths::{Below, NativeWords, fresh_room, put_room, read_path};
use guest_space::Space;
use host_mem::FIRST_ADDRESS;
use kernel_core::{Bytes, Stop};
use native_numbers::{GETCWD, READLINKAT};
use o32_model::{CallWords, Outcome};
use outside::{Devices, Sink, Source};
use std::alloc::Global;

/// From here on a size is one below 0 (ssize_t).
const FIRST_NEGATIVE: u32 = 1 << 31;

/// A question for the text of a link.
#[derive(Clone, Copy)]
pub(crate) struct LinkQuery {
    /// The link.
    pub(crate) link: PathAt,
    /// The address in the program's memory that its text goes to.
    pub(crate) buffer: u32,
    /// How many bytes have room there, a signed number (ssize_t).
    pub(crate) size: u32,
}

/// readlink(2), readlinkat(2): what is wrong with the path; EINVAL for a size below 1 and for what is no link;
/// EFAULT.
pub(crate) fn readlink<I: Source, O: Sink, E: Sink>(
    alloc: Global,
    words: &CallWords,
    query: LinkQuery,
    space: &mut Space,
    dev: &mut Devices<I, O, E>,
    below: &mut Below,
) -> Result<Outcome, Stop>
    ensures row { (guest : Guest) → guest.words ≡ words.now → guest.memory ≡ space.old
        → IsCall (readlink_row below.old.kernel.now guest (base query.link.directory) query.link.address query.buffer (cast_signed w32 query.size)) result below.new.kernel.now space.new guest.processor
        (contents I.left O.written E.written dev.old) (contents I.left O.written E.written dev.new) }
    ensures kept { (guest : Guest) → guest.words ≡ words.now → guest.memory ≡ space.old
        → KeepsCall (readlink_row below.old.kernel.now guest (base query.link.directory) query.link.address query.buffer (cast_signed w32 query.size)) result below.old.kernel.now guest (I.left dev.old.input) below.old.log.now below.new.log.now }
    ensures proceeds { Proceeds I.faults O.faults E.faults result below.old below.new dev.old dev.new }
{
    match read_path(alloc, space, query.link.address)? {
        Err(error) => Ok(Outcome::Error(error)),
        Ok(path) => link_text(words, query, &path, space, dev, below),
    }
}

/// The same once the path is read.
fn link_text<I: Source, O: Sink, E: Sink>(
    words: &CallWords,
    query: LinkQuery,
    path: &Bytes,
    space: &mut Space,
    dev: &mut Devices<I, O, E>,
    below: &mut Below,
) -> Result<Outcome, Stop>
    requires found { path_at space.old query.link.address ≡ Ok path.now }
    requires short { length path.now < path_limit }
    requires plain { position is_nul path.now ≡ None }
    ensures row { (guest : Guest) → guest.words ≡ words.now → guest.memory ≡ space.old
        → IsCall (readlink_row below.old.kernel.now guest (base query.link.directory) query.link.address query.buffer (cast_signed w32 query.size)) result below.new.kernel.now space.new guest.processor
        (contents I.left O.written E.written dev.old) (contents I.left O.written E.written dev.new) }
    ensures kept { (guest : Guest) → guest.words ≡ words.now → guest.memory ≡ space.old
        → KeepsCall (readlink_row below.old.kernel.now guest (base query.link.directory) query.link.address query.buffer (cast_signed w32 query.size)) result below.old.kernel.now guest (I.left dev.old.input) below.old.log.now below.new.log.now }
    ensures proceeds { Proceeds I.faults O.faults E.faults result below.old below.new dev.old dev.new }
{
    let room = space.writable(query.buffer, size_room(query.size));
    let at = put_room(below.memory, path, room)?;
    let args = [
        u64::from(query.link.directory),
        FIRST_ADDRESS,
        at,
        u64::from(query.size),
        0,
        0,
    ];
    let told = ToldAt {
        what: Told::Text(at),
        address: query.buffer,
    };
    let call = NativeWords {
        nr: READLINKAT,
        args,
    };
    tell_call(words, told, space, call, dev, below)
}

/// How many bytes a text has at most by a size: none by one below 0.
fn size_room(size: u32) -> u32
    ensures { result ≡ size_room size }
{
    if size < FIRST_NEGATIVE { size } else { 0 }
}

/// getcwd(2): ENOENT where the directory was removed, ERANGE for a size that its path with the NUL passes,
/// EFAULT. The result counts the NUL.
pub(crate) fn getcwd<I: Source, O: Sink, E: Sink>(
    words: &CallWords,
    buffer: u32,
    size: u32,
    space: &mut Space,
    dev: &mut Devices<I, O, E>,
    below: &mut Below,
) -> Result<Outcome, Stop>
    ensures row { (guest : Guest) → guest.words ≡ words.now → guest.memory ≡ space.old
        → IsCall (getcwd_row below.old.kernel.now guest buffer size) result below.new.kernel.now space.new guest.processor
        (contents I.left O.written E.written dev.old) (contents I.left O.written E.written dev.new) }
    ensures kept { (guest : Guest) → guest.words ≡ words.now → guest.memory ≡ space.old
        → KeepsCall (getcwd_row below.old.kernel.now guest buffer size) result below.old.kernel.now guest (I.left dev.old.input) below.old.log.now below.new.log.now }
    ensures proceeds { Proceeds I.faults O.faults E.faults result below.old below.new dev.old dev.new }
{
    fresh_room(below.memory, space.writable(buffer, size))?;
    let args = [FIRST_ADDRESS, u64::from(size), 0, 0, 0, 0];
    let told = ToldAt {
        what: Told::Text(FIRST_ADDRESS),
        address: buffer,
    };
    let call = NativeWords { nr: GETCWD, args };
    tell_call(words, told, space, call, dev, below)
}
