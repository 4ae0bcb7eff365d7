//! What the first four steps of a turn leave as it was.
ghost use Rattle.std.specs.Prelude.{◌≡◌, false};
ghost use Rattle.o32_turns.specs.Machine.{Machine};
ghost use Rattle.turn_records.specs.Turn.{before_instruction, is_touched};

/// Where no event of a turn before its instruction says that registers or memory were changed, they were not: no wait ended
/// or comes again there, and no handler began.
pub fn untouched_before_instruction()
    ensures { (machine : Machine) → is_touched (before_instruction machine) ≡ false
        → (machine.processor ≡ (before_instruction machine).machine.processor)
        × (machine.memory ≡ (before_instruction machine).machine.memory) }
{}
