//! The call that tells the working directory: getcwd(2).
ghost use Rattle.std.specs.Prelude.{◌≡◌, IfOk};
ghost use Rattle.native_calls.specs.Nodes.{getcwd_row, with_nul};
ghost use Rattle.native_kernel.specs.inside.Quiet.{IsQuiet};

use crate::kernel::NativeKernel;
use crate::replies::failure;
use crate::structures::store_counted;
use host_mem::HostMem;
use kernel_core::{Bytes, CoreError, NoMemory, Reply};

impl NativeKernel {
    /// getcwd(2): ENOENT where the directory was removed, ERANGE where the program has no room for the path and
    /// its NUL, EFAULT.
    #[tactic(auto, unfolding(native_calls::specs::Nodes::getcwd_row))]
    pub(crate) fn getcwd(
        &self,
        buffer: u64,
        size: u64,
        mem: &mut HostMem,
    ) -> Result<Reply, NoMemory>
        ensures { IfOk result (λ reply. IsQuiet (getcwd_row self.now mem.old buffer size) reply self.now mem.new) }
    {
        match self.files.working_directory(size) {
            Ok(path) => {
                let bytes = with_nul(path)?;
                Ok(store_counted(mem, buffer, bytes.as_slice()))
            }
            Err(CoreError::Refused(error)) => Ok(failure(error)),
            Err(CoreError::Stop(_)) => Err(NoMemory),
        }
    }
}

/// A path and its NUL.
fn with_nul(path: Bytes) -> Result<Vec<u8>, NoMemory>
    ensures { IfOk result (λ bytes. bytes.items ≡ with_nul path) }
{
    let mut bytes = path.into_vec();
    bytes.push(0)?;
    Ok(bytes)
}
