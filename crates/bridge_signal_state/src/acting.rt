//! Native calls that change the kernel, and neither take input nor send anything.
ghost use Rattle.std.specs.Prelude.{◌≡◌, ℕ, List};
ghost use Rattle.bridge_log.specs.Proceeding.{Proceeds};
ghost use Rattle.bridge_log.specs.Arguments.{AreUnusedZero, IsPlaced};
ghost use Rattle.bridge_signal_state.specs.Acts.{Acts};
ghost use Rattle.bridge_signal_state.specs.Acting.{Answers, IsAct};
ghost use Rattle.kernel_core.specs.declared.reply.Reply.{Reply};
ghost use Rattle.kernel_model.specs.State.{Kernel};
ghost use Rattle.native_calls.specs.Table.{native_call};
ghost use Rattle.bridge_log.specs.Built.{built_call};
ghost use Rattle.outside.specs.Streams.{contents};

use bridge_log::Below;
use kernel_core::{Reply, Stop};
use outside::{Devices, Sink, Source};

/// Makes a native call that takes and sends nothing, and keeps it as one entry.
pub fn act<I: Source, O: Sink, E: Sink>(
    nr: u64,
    args: [u64; 6],
    dev: &mut Devices<I, O, E>,
    below: &mut Below,
) -> Result<Reply, Stop>
    requires built { built_call nr ≡ native_call nr }
    requires unused { AreUnusedZero nr args }
    requires placed { IsPlaced nr below.old.memory.now }
    ensures acts { (to : Kernel) (reply : Reply) (memory : List ℕ)
        → ((left : List ℕ) → IsAct to reply memory left (native_call nr args below.old.kernel.now below.old.memory.now left))
        → Acts (Answers to reply memory below.new.memory.now) result below.old.kernel.now below.new.kernel.now
        (contents I.left O.written E.written dev.old) (contents I.left O.written E.written dev.new) below.old.log.now below.new.log.now }
    ensures proceeds { Proceeds I.faults O.faults E.faults result below.old below.new dev.old dev.new }
{
    below.native(nr, args, dev)
}
