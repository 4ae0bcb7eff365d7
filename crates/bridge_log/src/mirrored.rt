//! o32 calls that are one native call without memory.
ghost use Rattle.std.specs.Prelude.{◌≡◌, ℕ, List, IfOk};
ghost use Rattle.bridge_log.specs.Arguments.{AreUnusedZero, IsPlaced};
ghost use Rattle.bridge_log.specs.Keeping.{KeepsCall, with_call};
ghost use Rattle.bridge_log.specs.Proceeding.{Proceeds};
ghost use Rattle.bridge_log.specs.Mirrors.{Mirrors};
ghost use Rattle.bridge_log.specs.Outcomes.{by_reply, outcome_of};
ghost use Rattle.kernel_core.specs.declared.reply.Reply.{Reply};
ghost use Rattle.native_calls.specs.Table.{native_call};
ghost use Rattle.native_kernel.specs.Built.{built_call};
ghost use Rattle.o32_model.specs.Answered.{IsCall};
ghost use Rattle.o32_model.specs.Step.{Guest, O32Step};
ghost use Rattle.outside.specs.Streams.{contents};

use crate::below::Below;
use crate::outcomes::outcome_of;
use kernel_core::Stop;
use o32_model::{CallWords, Outcome};
use outside::{Devices, Sink, Source};

impl Below<'_> {
    /// Makes the native call that a call of the program is, where its number or its error is the program's
    /// too, and keeps it as one entry. `row` and `kept` hold of every o32 call that this native call
    /// mirrors.
    pub fn number_call<I: Source, O: Sink, E: Sink>(
        &mut self,
        words: &CallWords,
        nr: u64,
        args: [u64; 6],
        dev: &mut Devices<I, O, E>,
    ) -> Result<Outcome, Stop>
        requires built { built_call nr ≡ native_call nr }
        requires unused { AreUnusedZero nr args }
        requires placed { IsPlaced nr self.old.memory.now }
        ensures row { (guest : Guest) (step : List ℕ → O32Step) → guest.words ≡ words.now
            → ((left : List ℕ) → Mirrors guest (by_reply guest.words) (native_call nr args self.old.kernel.now self.old.memory.now left) (step left))
            → IsCall step result self.new.kernel.now guest.memory guest.processor
            (contents I.left O.written E.written dev.old) (contents I.left O.written E.written dev.new) }
        ensures kept { (guest : Guest) (step : List ℕ → O32Step) → guest.words ≡ words.now
            → ((left : List ℕ) → Mirrors guest (by_reply guest.words) (native_call nr args self.old.kernel.now self.old.memory.now left) (step left))
            → KeepsCall step result self.old.kernel.now guest (I.left dev.old.input) self.old.log.now self.new.log.now }
        ensures entry { IfOk result (λ outcome. (reply : Reply)
            × (outcome ≡ outcome_of words.now reply) × (self.new.log.now.native ≡ with_call self.old.log.now.native nr args self.old.memory.now self.new.memory.now reply)) }
        ensures proceeds { Proceeds I.faults O.faults E.faults result self.old self.new dev.old dev.new }
    {
        let reply = self.native(nr, args, dev)?;
        Ok(outcome_of(words, reply))
    }
}
