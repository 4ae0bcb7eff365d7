//! Replies.
ghost use Rattle.std.specs.Prelude.{◌≡◌, ◌≤◌, IfOk};
ghost use Rattle.kernel_model.specs.Came.{came_as};
ghost use Rattle.kernel_model.specs.Transfers.{transfer_limit};
ghost use Rattle.native_calls.specs.Step.{failure, reply_to, value};
ghost use Rattle.native_files.specs.Answers.{MovesWithin, came_of, moved};
ghost use Rattle.native_kernel.specs.inside.Moving.{settled};

use kernel_core::{CoreError, Errno, Reply, Stop};
use native_files::Progress;
use number_tables::NativeNumber;

/// An error as a reply: its native number with the sign turned.
#[tactic(auto, using(crate::proofs::ErrorNumbers::number_is_small))]
pub(crate) fn failure(error: Errno) -> Reply
    ensures { result ≡ failure error }
{
    Reply::Done(-(error.to_native() as i64))
}

/// What a call that tells nothing came to, as a reply.
pub(crate) fn zero(came: Result<(), Errno>) -> Reply
    ensures { result ≡ reply_to value (came_as (λ _. 0) (came_of came)) }
{
    match came {
        Ok(()) => Reply::Done(0),
        Err(error) => failure(error),
    }
}

/// What a call that gives a descriptor came to, as a reply.
pub(crate) fn number(came: Result<u32, Errno>) -> Reply
    ensures { result ≡ reply_to value (came_of came) }
{
    match came {
        Ok(number) => Reply::Done(i64::from(number)),
        Err(error) => failure(error),
    }
}

/// What a call that moves bytes at a place came to, as a reply.
pub(crate) fn counted(came: Result<usize, Errno>) -> Reply
    requires { IfOk came (λ count. count ≤ transfer_limit) }
    ensures { result ≡ reply_to value (came_of came) }
{
    match came {
        Ok(count) => Reply::Done(count as i64),
        Err(error) => failure(error),
    }
}

/// What a transfer came to, as the end of a call.
pub(crate) fn settled(came: Result<Progress, CoreError>) -> Result<Reply, Stop>
    requires { MovesWithin transfer_limit (moved came) }
    ensures { result ≡ settled came }
{
    match came {
        Ok(Progress::Done(count)) => Ok(Reply::Done(count as i64)),
        Ok(Progress::Waits(wake)) => Ok(Reply::Sleep(wake)),
        Err(CoreError::Refused(error)) => Ok(failure(error)),
        Err(CoreError::Stop(stop)) => Err(stop),
    }
}
