//! The calls on ids.
ghost use Rattle.std.specs.Prelude.{◌≡◌};
ghost use Rattle.kernel_model.specs.SignalRows.{own_id, parent_id};
ghost use Rattle.native_calls.specs.Step.{value};

use kernel_core::Reply;

/// The id of the process and of its thread. (This project's own.)
pub(crate) const OWN_ID: i32 = 100;

/// The id of the process's parent. (This project's own.)
const PARENT_ID: i64 = 1;

/// getpid(2).
pub(crate) fn process_id() -> Reply
    ensures { result ≡ value own_id }
{
    Reply::Done(i64::from(OWN_ID))
}

/// getppid(2).
pub(crate) fn parent_id() -> Reply
    ensures { result ≡ value parent_id }
{
    Reply::Done(PARENT_ID)
}
