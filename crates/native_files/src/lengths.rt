//! How many bytes a transfer moves at most.
ghost use Rattle.std.specs.Prelude.{◌≡◌};
ghost use Rattle.native_files.specs.inside.Lengths.{most_of};

use kernel_core::Errno;
use kernel_core::limits::GREATEST_TRANSFER;

/// How many bytes are moved at most, of which 0 is a transfer of nothing: `asked` is how many the program
/// names, or what was wrong with its vector, which is the error then. EFAULT where none can be accessed.
pub(crate) fn most_of(asked: Result<u64, Errno>, accessible: usize) -> Result<usize, Errno>
    ensures { result ≡ most_of asked accessible }
{
    match asked {
        Err(error) => Err(error),
        Ok(0) => Ok(0),
        Ok(count) => {
            if accessible == 0 {
                return Err(Errno::EFAULT);
            }
            Ok(
                count
                    .min(accessible as u64)
                    .min(u64::from(GREATEST_TRANSFER)) as usize,
            )
        }
    }
}
