//! What is due at the beginning of a turn: the events of the schedule.
ghost use Rattle.std.specs.Prelude.{◌≡◌, ◌≤◌, ℕ, List, OnOk};
ghost use Rattle.o32_machine.specs.inside.Logging.{PostsLogged};
ghost use Rattle.mips_exec.specs.Processor.{Processor};
ghost use Rattle.o32_machine.specs.Emulator.{at_clock, coming_of};
ghost use Rattle.o32_turns.specs.Turn.{whole};
ghost use Rattle.o32_turns.specs.Going.{within_of};
ghost use Rattle.o32_turns.specs.Posting.{events_posted};
ghost use Rattle.schedule.specs.Ranges.{IsGivenSchedule};
ghost use Rattle.schedule.specs.declared.events.Due.{Due as Coming};

use bridge_delivery::{event_info, post_event};
use guest_space::Space;
use kernel_core::NoMemory;
use native_kernel::NativeKernel;
use native_log::NativeLog;
use o32_turns::Going;
use schedule::Schedule;

/// Posts the events of a schedule that are due by a time of the clock, in nanoseconds, in their order. The kernel's
/// own clock stands. Each is told in the native log, behind the kernel's time. `space` has the set of signals that a call waits for by name.
pub(crate) fn post_due(
    clock: u64,
    schedule: &mut Schedule,
    going: &mut Going,
    space: &Space,
    k: &mut NativeKernel,
    native: &mut NativeLog,
) -> Result<(), NoMemory>
    requires given { IsGivenSchedule schedule.old }
    requires told { native.old.told ≤ k.old.clock }
    ensures posted { OnOk result ((processor : Processor) (coming : List Coming) (idle : ℕ)
        → events_posted whole (coming_of schedule.old) (within_of going.old processor space.now (at_clock clock k.old) coming idle)
        ≡ within_of going.new processor space.now (at_clock clock k.new) (coming_of schedule.new) idle) }
    ensures given { IsGivenSchedule schedule.new }
    ensures clock { k.new.clock ≡ k.old.clock }
    ensures native { OnOk result (Processor → PostsLogged k.old k.new native.old native.new) }
    ensures told { native.new.told ≤ k.new.clock }
{
    while let Some(due) = schedule.due(clock) {
        native.tell_time(k.clock(), k.next_time())?;
        post_event(due, going, space, k)?;
        native.tell_post(&event_info(due))?;
    }
    Ok(())
}
