//! Times in host memory (timespec(3)).
ghost use Rattle.std.specs.Prelude.{◌≡◌, ◌≤◌, length};
ghost use Rattle.native_calls.specs.Times.{time_in};

use crate::structures::double_at;
use kernel_model::TimeSpec;

/// The place of the nanoseconds behind the seconds.
const NANOSECONDS: usize = 8;

/// The time in a structure.
pub(crate) fn time_in(bytes: &[u8]) -> TimeSpec
    requires { 16 ≤ length bytes.now }
    ensures { result ≡ time_in bytes.now }
{
    TimeSpec {
        seconds: double_at(bytes, 0).cast_signed(),
        nanoseconds: double_at(bytes, NANOSECONDS).cast_signed(),
    }
}
