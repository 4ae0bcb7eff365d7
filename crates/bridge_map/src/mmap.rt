//! New mappings of no file: mmap(2).
ghost use Rattle.std.specs.Prelude.{◌≡◌, ◌≢◌, ◌≤◌, ◌<◌, ◌+◌, true, [], IfOk, OnErr, OnOk};
ghost use Rattle.bridge_map.specs.Rows.{Leads, guest_of, maps_no_file, placed};
ghost use Rattle.kernel_core.specs.declared.error.Errno.TheVariants.{ENOMEM};
ghost use Rattle.kernel_model.specs.Came.{Refused};
ghost use Rattle.kernel_model.specs.State.{Kernel};
ghost use Rattle.mips_exec.specs.Processor.{Processor};
ghost use Rattle.o32_model.specs.Mappings.{mapped, mmap_in};
ghost use Rattle.o32_model.specs.Step.{outcome_of, value};

use crate::asked::asked_in;
use crate::effects::map;
use crate::place::place_for;
use guest_space::Space;
use kernel_core::address_space::PAGE_SIZE;
use kernel_core::{Errno, MapFlags, NoMemory};
use o32_model::{CallWords, Log, Outcome};

/// mmap(2) and mmap2(2) with MAP_ANONYMOUS, whose offset counts so many bytes. What is ENOMEM is never answered as
/// want of memory.
pub(crate) fn mmap(
    args: &CallWords,
    unit: u32,
    space: &mut Space,
    log: &mut Log,
) -> Result<Outcome, NoMemory>
    requires unit { unit ≤ 4096 }
    requires no_file { maps_no_file args.now ≡ true }
    ensures came { IfOk result (λ outcome. (kernel : Kernel) (processor : Processor)
        → outcome ≡ outcome_of value args.now (mmap_in unit kernel (guest_of args.now processor space.old)).came) }
    ensures stored { OnOk result ((kernel : Kernel) (processor : Processor)
        → space.new ≡ (mmap_in unit kernel (guest_of args.now processor space.old)).state) }
    ensures effects { OnOk result (Leads log.old.effects log.new.effects space.old.pages space.new.pages) }
    ensures no_memory { OnErr result ((kernel : Kernel) (processor : Processor)
        → (mmap_in unit kernel (guest_of args.now processor space.old)).came ≢ Refused ENOMEM) }
    ensures native { log.new.native ≡ log.old.native }
{
    match asked_in(args, unit) {
        Err(error) => Ok(Outcome::Error(error)),
        Ok(asked) => map_zeros(
            space,
            log,
            asked.flags,
            asked.address,
            asked.count,
            asked.protection,
        ),
    }
}

/// Maps so many pages of zeros where the mapping goes.
pub(crate) fn map_zeros(
    space: &mut Space,
    log: &mut Log,
    flags: MapFlags,
    address: u32,
    count: u32,
    protection: u8,
) -> Result<Outcome, NoMemory>
    requires some { 0 < count }
    requires count { count ≤ 1048576 }
    requires protection { protection ≤ 7 }
    ensures came { IfOk result (λ outcome. (words : CallWords) → outcome ≡ outcome_of value words (placed space.old flags address count protection []).came) }
    ensures stored { OnOk result (space.new ≡ (placed space.old flags address count protection []).state) }
    ensures effects { OnOk result (Leads log.old.effects log.new.effects space.old.pages space.new.pages) }
    ensures no_memory { OnErr result ((placed space.old flags address count protection []).came ≢ Refused ENOMEM) }
    ensures native { log.new.native ≡ log.old.native }
{
    match place_for(space, flags, address, count) {
        Err(error) => Ok(Outcome::Error(error)),
        Ok(first) => map_at(space, log, first, count, protection),
    }
}

fn map_at(
    space: &mut Space,
    log: &mut Log,
    first: u32,
    count: u32,
    protection: u8,
) -> Result<Outcome, NoMemory>
    requires some { 0 < count }
    requires ends { first + count ≤ 524280 }
    requires protection { protection ≤ 7 }
    ensures came { IfOk result (λ outcome. (words : CallWords) → outcome ≡ outcome_of value words (mapped space.old first count protection []).came) }
    ensures stored { OnOk result (space.new ≡ (mapped space.old first count protection []).state) }
    ensures effects { OnOk result (Leads log.old.effects log.new.effects space.old.pages space.new.pages) }
    ensures no_memory { OnErr result ((mapped space.old first count protection []).came ≢ Refused ENOMEM) }
    ensures native { log.new.native ≡ log.old.native }
{
    if map(space, log, first, count, protection)? {
        Ok(Outcome::Value(first * PAGE_SIZE))
    } else {
        Ok(Outcome::Error(Errno::ENOMEM))
    }
}
