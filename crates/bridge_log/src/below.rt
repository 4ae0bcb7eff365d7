//! The modelled kernel and what its calls read, write and leave.
ghost use Rattle.std.specs.Prelude.{◌≡◌, IfOk};
ghost use Rattle.bridge_log.specs.Arguments.{AreUnusedZero, IsPlaced};
ghost use Rattle.bridge_log.specs.Keeping.{LogsCall, with_call};
ghost use Rattle.bridge_log.specs.Proceeding.{Proceeds};
ghost use Rattle.native_calls.specs.Answered.{IsCall};
ghost use Rattle.native_calls.specs.Table.{native_call};
ghost use Rattle.native_kernel.specs.Built.{built_call};
ghost use Rattle.outside.specs.Streams.{contents};

use crate::calls;
use host_mem::HostMem;
use kernel_core::{Reply, Stop};
use native_kernel::NativeKernel;
use o32_model::Log;
use outside::{Devices, Sink, Source};

/// What a call of the program is made with beside its devices: the modelled kernel, and what the calls of that read, write and
/// leave. It is lent to whatever makes a part of the call, and leads to the same three throughout. (The form is this project's
/// own.)
#[derive(Drop)]
pub struct Below<'a> {
    /// The modelled kernel.
    pub kernel: &'a mut NativeKernel,
    /// Host memory, which its calls read and write.
    pub memory: &'a mut HostMem,
    /// What is kept of its calls, and of what the program's call does.
    pub log: &'a mut Log,
}

impl Below<'_> {
    /// Makes a native call, by its number and six arguments over host memory, and keeps it where native calls
    /// are kept: one entry, and no other. Host memory is copied only then. The number is that of a call that
    /// the kernel has, and arguments that the call doesn't take are 0.
    pub fn native<I: Source, O: Sink, E: Sink>(
        &mut self,
        nr: u64,
        args: [u64; 6],
        dev: &mut Devices<I, O, E>,
    ) -> Result<Reply, Stop>
        requires built { built_call nr ≡ native_call nr }
        requires unused { AreUnusedZero nr args }
        requires placed { IsPlaced nr self.old.memory.now }
        ensures row { IsCall (native_call nr args self.old.kernel.now self.old.memory.now) result self.new.kernel.now self.new.memory.now
            (contents I.left O.written E.written dev.old) (contents I.left O.written E.written dev.new) }
        ensures kept { LogsCall (native_call nr args self.old.kernel.now self.old.memory.now) result self.old.kernel.now
            (I.left dev.old.input) self.old.log.now.native self.new.log.now.native }
        ensures entry { IfOk result (λ reply. self.new.log.now.native ≡ with_call self.old.log.now.native nr args self.old.memory.now self.new.memory.now reply) }
        ensures effects { self.new.log.now.effects ≡ self.old.log.now.effects }
        ensures proceeds { Proceeds I.faults O.faults E.faults result self.old self.new dev.old dev.new }
    {
        calls::native(self.kernel, nr, args, self.memory, dev, self.log)
    }
}
