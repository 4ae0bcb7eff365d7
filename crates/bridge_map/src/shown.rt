//! Whether a mapping may show what a descriptor has open.
ghost use Rattle.std.specs.Prelude.{◌≡◌, ◌<◌, ◌^◌, ℕ, true, List, Some};
ghost use Rattle.bridge_log.specs.Proceeding.{Proceeds};
ghost use Rattle.bridge_map.specs.Shown.{Judged, Looked, access_error, access_error_told, file_error, file_error_told, file_of};
ghost use Rattle.kernel_model.specs.Descriptions.{opened, reads};
ghost use Rattle.kernel_model.specs.declared.descriptor.Description.{Description};
ghost use Rattle.outside.specs.Streams.{contents};

use crate::numbers::{F_GETFL, O_WRONLY};
use bridge_log::{Below, fresh_room};
use host_mem::FIRST_ADDRESS;
use kernel_core::{Errno, MapKind, Reply, Stop};
use native_numbers::{FCNTL, PREAD64};
use outside::{Devices, Sink, Source};

/// Why a mapping may not show what a descriptor has open, by native calls that change nothing of the kernel:
/// EBADF where it isn't open, EACCES where it isn't open for reading, ENODEV where it is no regular file or the
/// mapping is shared. `offset` is where in the file the mapping begins.
pub(crate) fn refusal<I: Source, O: Sink, E: Sink>(
    fd: u32,
    kind: MapKind,
    offset: u64,
    dev: &mut Devices<I, O, E>,
    below: &mut Below,
) -> Result<Option<Errno>, Stop>
    requires { offset < 2 ^ 63 }
    ensures looked { (left : List ℕ) → I.left dev.old.input ≡ Some left
        → Looked (λ answer. Judged below.old.kernel.now.files kind fd answer) result below.old.kernel.now below.new.kernel.now left
        (contents I.left O.written E.written dev.old) (contents I.left O.written E.written dev.new) below.old.log.now.native below.new.log.now.native }
    ensures effects { below.new.log.now.effects ≡ below.old.log.now.effects }
    ensures proceeds { Proceeds I.faults O.faults E.faults result below.old below.new dev.old dev.new }
{
    if let Some(error) = access_refusal(fd, dev, below)? {
        return Ok(Some(error));
    }
    match kind {
        MapKind::Shared => Ok(Some(Errno::ENODEV)),
        MapKind::Private => file_refusal(fd, offset, dev, below),
    }
}

/// Why a descriptor may not be read: EBADF, EACCES.
fn access_refusal<I: Source, O: Sink, E: Sink>(
    fd: u32,
    dev: &mut Devices<I, O, E>,
    below: &mut Below,
) -> Result<Option<Errno>, Stop>
    ensures looked { (left : List ℕ) → I.left dev.old.input ≡ Some left
        → Looked (λ answer. answer ≡ access_error (opened below.old.kernel.now.files fd)) result below.old.kernel.now below.new.kernel.now left
        (contents I.left O.written E.written dev.old) (contents I.left O.written E.written dev.new) below.old.log.now.native below.new.log.now.native }
    ensures effects { below.new.log.now.effects ≡ below.old.log.now.effects }
    ensures proceeds { Proceeds I.faults O.faults E.faults result below.old below.new dev.old dev.new }
{
    below.memory.clear();
    let reply = below.native(FCNTL, [u64::from(fd), F_GETFL, 0, 0, 0, 0], dev)?;
    Ok(access_error_told(reply))
}

/// Why what is open for reading is no regular file: ENODEV. It is read one byte.
fn file_refusal<I: Source, O: Sink, E: Sink>(
    fd: u32,
    offset: u64,
    dev: &mut Devices<I, O, E>,
    below: &mut Below,
) -> Result<Option<Errno>, Stop>
    requires { offset < 2 ^ 63 }
    ensures looked { (left : List ℕ) → I.left dev.old.input ≡ Some left
        → (description : Description) → opened below.old.kernel.now.files fd ≡ Some description → reads description.flags.access ≡ true
        → Looked (λ answer. answer ≡ file_error (file_of below.old.kernel.now.files description)) result below.old.kernel.now below.new.kernel.now left
        (contents I.left O.written E.written dev.old) (contents I.left O.written E.written dev.new) below.old.log.now.native below.new.log.now.native }
    ensures effects { below.new.log.now.effects ≡ below.old.log.now.effects }
    ensures proceeds { Proceeds I.faults O.faults E.faults result below.old below.new dev.old dev.new }
{
    fresh_room(below.memory, 1)?;
    let args = [u64::from(fd), FIRST_ADDRESS, 1, offset, 0, 0];
    let reply = below.native(PREAD64, args, dev)?;
    Ok(file_error_told(reply))
}

/// What F_GETFL of fcntl(2) tells: an error is EBADF.
fn access_error_told(reply: Reply) -> Option<Errno>
    ensures { result ≡ access_error_told reply }
{
    match reply {
        Reply::Done(flags) if flags < 0 => Some(Errno::EBADF),
        Reply::Done(flags) if flags % 4 == O_WRONLY => Some(Errno::EACCES),
        Reply::Done(_) => None,
        Reply::Sleep(_) => Some(Errno::EBADF),
    }
}

/// What a read at a place tells: any error is ENODEV.
fn file_error_told(reply: Reply) -> Option<Errno>
    ensures { result ≡ file_error_told reply }
{
    match reply {
        Reply::Done(count) if count >= 0 => None,
        _ => Some(Errno::ENODEV),
    }
}
