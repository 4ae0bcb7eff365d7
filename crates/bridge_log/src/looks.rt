//! Native calls that change nothing, by which a call finds out about the kernel.
ghost use Rattle.std.specs.Prelude.{◌≡◌, ℕ, List, IfOk};
ghost use Rattle.bridge_log.specs.Arguments.{AreUnusedZero, IsPlaced};
ghost use Rattle.bridge_log.specs.Keeping.{with_call};
ghost use Rattle.bridge_log.specs.Proceeding.{Proceeds};
ghost use Rattle.bridge_log.specs.Looks.{IsLook, LooksFor, Replied};
ghost use Rattle.kernel_core.specs.declared.reply.Reply.{Reply};
ghost use Rattle.native_calls.specs.Table.{native_call};
ghost use Rattle.native_kernel.specs.Built.{built_call};
ghost use Rattle.outside.specs.Streams.{contents};

use crate::below::Below;
use kernel_core::{Reply, Stop};
use outside::{Devices, Sink, Source};

impl Below<'_> {
    /// Makes a native call that changes nothing, and keeps it as one entry. `looks` holds of every native call that leaves
    /// the kernel, the input and the outputs as they are: what it replies and puts into host memory is found.
    pub fn look<I: Source, O: Sink, E: Sink>(
        &mut self,
        nr: u64,
        args: [u64; 6],
        dev: &mut Devices<I, O, E>,
    ) -> Result<Reply, Stop>
        requires built { built_call nr ≡ native_call nr }
        requires unused { AreUnusedZero nr args }
        requires placed { IsPlaced nr self.old.memory.now }
        ensures looks { (reply : Reply) (memory : List ℕ)
            → ((left : List ℕ) → IsLook self.old.kernel.now reply memory left (native_call nr args self.old.kernel.now self.old.memory.now left))
            → LooksFor (Replied reply memory self.new.memory.now) result self.old.kernel.now self.new.kernel.now
            (contents I.left O.written E.written dev.old) (contents I.left O.written E.written dev.new) self.old.log.now self.new.log.now }
        ensures entry { IfOk result (λ reply. self.new.log.now.native ≡ with_call self.old.log.now.native nr args self.old.memory.now self.new.memory.now reply) }
        ensures proceeds { Proceeds I.faults O.faults E.faults result self.old self.new dev.old dev.new }
    {
        self.native(nr, args, dev)
    }
}
