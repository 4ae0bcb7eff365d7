//! pipe2(2).
ghost use Rattle.std.specs.Prelude.{◌≡◌, IfOk, length, option_map};
ghost use Rattle.host_mem.specs.Memory.{is_inside};
ghost use Rattle.kernel_model.specs.Came.{done, told_as};
ghost use Rattle.kernel_model.specs.DescriptorRows.{ends};
ghost use Rattle.native_calls.specs.Descriptors.{given_pair, pair_bytes, pair_size, pipe2_row, pipe_flags};
ghost use Rattle.native_calls.specs.Step.{stores};
ghost use Rattle.native_files.specs.Answers.{flags_of};
ghost use Rattle.native_kernel.specs.inside.Quiet.{IsQuiet};

use crate::descriptors::{O_CLOEXEC, O_NONBLOCK, has};
use crate::kernel::NativeKernel;
use crate::replies::failure;
use byteorder::{ByteOrder, LittleEndian};
use host_mem::HostMem;
use kernel_core::{CoreError, Errno, NoMemory, Reply};
use native_files::{Ends, PipeFlags};

/// Two descriptors, each an int.
const PAIR_SIZE: usize = 8;

impl NativeKernel {
    /// pipe2(2): EINVAL for other flags than O_CLOEXEC and O_NONBLOCK, EMFILE; and EFAULT where the pair
    /// can't be stored.
    #[tactic(auto, unfolding(native_calls::specs::Descriptors::pipe2_row))]
    pub(crate) fn pipe2(
        &mut self,
        address: u64,
        flags: u32,
        mem: &mut HostMem,
    ) -> Result<Reply, NoMemory>
        ensures row { IfOk result (λ reply. IsQuiet (pipe2_row self.old mem.old address flags) reply self.new mem.new) }
        ensures clock { self.new.clock ≡ self.old.clock }
    {
        match self.files.make_pipe(pipe_flags(flags)) {
            Ok(ends) => Ok(self.give_pair(ends, address, mem)),
            Err(CoreError::Refused(error)) => Ok(failure(error)),
            Err(CoreError::Stop(_)) => Err(NoMemory),
        }
    }

    /// Stores the descriptors of a new pipe. Where they can't be stored, both are closed again.
    fn give_pair(&mut self, pair: Ends, address: u64, mem: &mut HostMem) -> Reply
        ensures row { IsQuiet (stores mem.old address (told_as pair_bytes
            (given_pair (is_inside mem.old address pair_size) (done self.old (ends pair.read pair.write))))) result self.new mem.new }
        ensures clock { self.new.clock ≡ self.old.clock }
    {
        let mut bytes = [0; PAIR_SIZE];
        write_pair(pair, &mut bytes);
        if mem.write(address, &bytes) {
            return Reply::Done(0);
        }
        self.files.close_open(pair.read);
        self.files.close_open(pair.write);
        failure(Errno::EFAULT)
    }
}

/// Writes two descriptors, the read end first.
fn write_pair(pair: Ends, bytes: &mut [u8])
    requires { length bytes.old ≡ pair_size }
    ensures { bytes.new ≡ pair_bytes (ends pair.read pair.write) }
{
    LittleEndian::write_u32(bytes, pair.read);
    LittleEndian::write_u32(&mut bytes[4..], pair.write);
}

/// The flags of a new pipe; None where there are others than O_CLOEXEC and O_NONBLOCK.
fn pipe_flags(flags: u32) -> Option<PipeFlags>
    ensures { option_map flags_of result ≡ pipe_flags flags }
{
    let number = u64::from(flags);
    let cloexec = has(number, O_CLOEXEC);
    let nonblock = has(number, O_NONBLOCK);
    if O_CLOEXEC * u64::from(cloexec) + O_NONBLOCK * u64::from(nonblock) == number {
        Some(PipeFlags { cloexec, nonblock })
    } else {
        None
    }
}
