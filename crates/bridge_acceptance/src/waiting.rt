//! The call where none of the signals pends that it waits for: it waits, or its time is over.
ghost use Rattle.std.specs.Prelude.{◌≡◌, None};
ghost use Rattle.bridge_signal_state.specs.Passed.{LooksFor, Proceeds, error_of};
ghost use Rattle.bridge_acceptance.specs.inside.Accepting.{acceptance, came_of, did};
ghost use Rattle.kernel_model.specs.SignalRows.{first_pending};
ghost use Rattle.kernel_model.specs.SignalSets.{blockable};
ghost use Rattle.o32_model.specs.Suspending.{all_signals};
ghost use Rattle.outside.specs.Streams.{contents};

use crate::accepting::Accepted;
use crate::asked::Wanted;
use crate::numbers::SIGSETSIZE;
use crate::rooms::put_asked;
use bridge_signal_state::Below;
use host_mem::FIRST_ADDRESS;
use kernel_core::{Errno, Reply, Stop};
use native_numbers::RT_SIGTIMEDWAIT;
use number_tables::NativeNumber;
use outside::{Devices, Sink, Source};

/// Makes the native call, which changes nothing where none of the signals pends: EINVAL for a time that is no length of
/// time, and EAGAIN where the time is over.
pub(crate) fn wait<I: Source, O: Sink, E: Sink>(
    asked: Wanted,
    dev: &mut Devices<I, O, E>,
    below: &mut Below,
) -> Result<Accepted, Stop>
    ensures looks { first_pending below.old.kernel.now.signals all_signals (blockable asked.set) ≡ None
        → LooksFor (λ came. acceptance below.old.kernel.now asked ≡ did below.old.kernel.now came) result below.old.kernel.now below.new.kernel.now
        (contents I.left O.written E.written dev.old) (contents I.left O.written E.written dev.new) below.old.log.now below.new.log.now }
    ensures proceeds { Proceeds I.faults O.faults E.faults result below.old below.new dev.old dev.new }
{
    let time = put_asked(asked, below.memory)?;
    let args = [FIRST_ADDRESS, 0, time, SIGSETSIZE, 0, 0];
    let reply = below.look(RT_SIGTIMEDWAIT, args, dev)?;
    Ok(came_of(reply))
}

/// What a reply comes to that tells of no signal.
fn came_of(reply: Reply) -> Accepted
    ensures { result ≡ came_of reply }
{
    match reply {
        Reply::Done(number) => Accepted::Refused(error_of(number.unsigned_abs())),
        Reply::Sleep(wake) => Accepted::Waits(wake.until),
    }
}

/// The error of a native number; no call replies with a number that is none.
fn error_of(number: u64) -> Errno
    ensures { result ≡ error_of number }
{
    Errno::of_native(number).unwrap_or(Errno::ENOSYS)
}
