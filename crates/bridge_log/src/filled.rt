//! o32 calls that are one native call which fills a buffer.
ghost use Rattle.std.specs.Prelude.{◌≡◌, ℕ, List, replicate, true, IfOk};
ghost use Rattle.bridge_log.specs.Arguments.{AreUnusedZero, takes_address};
ghost use Rattle.bridge_log.specs.Fills.{Fills};
ghost use Rattle.bridge_log.specs.Keeping.{KeepsCall, with_call};
ghost use Rattle.bridge_log.specs.Proceeding.{Proceeds};
ghost use Rattle.bridge_log.specs.Outcomes.{outcome_of};
ghost use Rattle.guest_space.specs.Access.{writable_prefix};
ghost use Rattle.kernel_core.specs.declared.reply.Reply.{Reply};
ghost use Rattle.native_calls.specs.Table.{native_call};
ghost use Rattle.native_kernel.specs.Built.{built_call};
ghost use Rattle.o32_model.specs.Answered.{IsCall};
ghost use Rattle.o32_model.specs.Step.{Guest, O32Step};
ghost use Rattle.outside.specs.Streams.{contents};

use crate::below::Below;
use crate::outcomes::outcome_of;
use crate::storing::{bytes_back, put_some};
use bridge_mem::fresh_room;
use guest_space::Space;
use kernel_core::Stop;
use o32_model::{CallWords, Outcome};
use outside::{Devices, Sink, Source};

impl Below<'_> {
    /// Makes the native call that a call of the program is, where it fills a buffer of `count` bytes: over host
    /// memory with as many zeros as bytes of the buffer may be stored to, from where they then go to the
    /// program's buffer. The call is kept as one entry. `row` and `kept` hold of every o32 call that this
    /// native call fills for.
    pub fn fill_call<I: Source, O: Sink, E: Sink>(
        &mut self,
        words: &CallWords,
        buffer: u32,
        count: u32,
        space: &mut Space,
        nr: u64,
        args: [u64; 6],
        dev: &mut Devices<I, O, E>,
    ) -> Result<Outcome, Stop>
        requires built { built_call nr ≡ native_call nr }
        requires unused { AreUnusedZero nr args }
        requires address { takes_address nr ≡ true }
        ensures row { (guest : Guest) (step : List ℕ → O32Step) → guest.words ≡ words.now → guest.memory ≡ space.old
            → (let room = replicate (writable_prefix space.old.pages buffer count) 0 in
            (left : List ℕ) → Fills guest buffer room (native_call nr args self.old.kernel.now room left) (step left))
            → IsCall step result self.new.kernel.now space.new guest.processor
            (contents I.left O.written E.written dev.old) (contents I.left O.written E.written dev.new) }
        ensures kept { (guest : Guest) (step : List ℕ → O32Step) → guest.words ≡ words.now → guest.memory ≡ space.old
            → (let room = replicate (writable_prefix space.old.pages buffer count) 0 in
            (left : List ℕ) → Fills guest buffer room (native_call nr args self.old.kernel.now room left) (step left))
            → KeepsCall step result self.old.kernel.now guest (I.left dev.old.input) self.old.log.now self.new.log.now }
        ensures entry { IfOk result (λ outcome. (reply : Reply) × (outcome ≡ outcome_of words.now reply)
            × (let room = replicate (writable_prefix space.old.pages buffer count) 0 in
            self.new.log.now.native ≡ with_call self.old.log.now.native nr args room self.new.memory.now reply)) }
        ensures proceeds { Proceeds I.faults O.faults E.faults result self.old self.new dev.old dev.new }
    {
        let room = space.writable(buffer, count);
        fresh_room(self.memory, room)?;
        let reply = self.native(nr, args, dev)?;
        put_some(space, buffer, bytes_back(self.memory, reply), self.log)?;
        Ok(outcome_of(words, reply))
    }
}
