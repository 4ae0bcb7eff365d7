//! Laws of the delivery of signals (signal(7)).
ghost use Rattle.std.specs.Prelude.{◌≡◌, None, true};
ghost use Rattle.kernel_model.specs.Always.{AreSignals};
ghost use Rattle.o32_turns.specs.Closing.{whole_end};
ghost use Rattle.o32_turns.specs.Delivering.{deliver, is_delivered};
ghost use Rattle.o32_turns.specs.Machine.{Within};

/// A delivery leaves nothing that can be delivered, unless it has stopped or killed the process, or the processor
/// stands between a branch and its slot: so many rounds as it has are enough, whatever pends, and whichever handlers'
/// frames can be written.
pub fn a_delivery_ends()
    ensures { (within : Within) → AreSignals within.machine.kernel.signals → within.machine.processor.slot ≡ None
        → is_delivered (deliver whole_end within) ≡ true }
{}
