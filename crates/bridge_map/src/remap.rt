//! A range of pages that gets another size: mremap(2).
ghost use Rattle.std.specs.Prelude.{◌≡◌, ◌≢◌, ◌≤◌, ◌<◌, ◌+◌, ◌-◌, ℕ, Some, None, IfOk, IfSome, OnErr, OnOk};
ghost use Rattle.std.specs.FinMap.{get};
ghost use Rattle.bridge_map.specs.Rows.{Leads, came_at};
ghost use Rattle.guest_space.specs.Mapping.{mapped_run};
ghost use Rattle.guest_space.specs.Remapping.{protection_of};
ghost use Rattle.kernel_core.specs.declared.error.Errno.TheVariants.{ENOMEM};
ghost use Rattle.kernel_model.specs.Came.{Refused};
ghost use Rattle.o32_model.specs.Mappings as rows;
ghost use Rattle.o32_model.specs.Ranges.{resized};
ghost use Rattle.o32_model.specs.Step.{outcome_of, value};
ghost use Rattle.o32_model.specs.Words.{argument};

use crate::moved::{Resized, keep_resized};
use crate::range::{is_aligned, mapped, page_count, page_of};
use guest_space::{MapError, Space};
use kernel_core::address_space::PAGE_SIZE;
use kernel_core::{Errno, NoMemory};
use o32_model::{CallWords, Log, Outcome};

/// mremap(2): an address, a size, a new size and flags. What is ENOMEM is never answered as want of memory.
#[tactic(auto, unfolding(o32_model::specs::Mappings::mremap))]
pub(crate) fn mremap(
    args: &CallWords,
    space: &mut Space,
    log: &mut Log,
) -> Result<Outcome, NoMemory>
    ensures came { IfOk result (λ outcome. outcome ≡ outcome_of value args.now (rows.mremap space.old (argument args.now 0) (argument args.now 1) (argument args.now 2) (argument args.now 3)).came) }
    ensures no_memory { OnErr result ((rows.mremap space.old (argument args.now 0) (argument args.now 1) (argument args.now 2) (argument args.now 3)).came ≢ Refused ENOMEM) }
    ensures stored { OnOk result (space.new ≡ (rows.mremap space.old (argument args.now 0) (argument args.now 1) (argument args.now 2) (argument args.now 3)).state) }
    ensures effects { OnOk result (Leads log.old.effects log.new.effects space.old.pages space.new.pages) }
    ensures native { log.new.native ≡ log.old.native }
{
    if !is_aligned(args.reg[0]) || args.reg[1] == 0 || args.reg[2] == 0 || args.reg[3] > 1 {
        return Ok(Outcome::Error(Errno::EINVAL));
    }
    let first = page_of(args.reg[0]);
    let old = page_count(args.reg[1]);
    if mapped(space, first, old) != old {
        return Ok(Outcome::Error(Errno::EFAULT));
    }
    let new = page_count(args.reg[2]);
    match resize(space, log, first, old, new, args.reg[3] == 1)? {
        Some(at) => Ok(Outcome::Value(at * PAGE_SIZE)),
        None => Ok(Outcome::Error(Errno::ENOMEM)),
    }
}

/// Gives a mapped range another size, and answers its first page afterwards, or None where there is no room for
/// it.
fn resize(
    space: &mut Space,
    log: &mut Log,
    first: u32,
    old: u32,
    new: u32,
    may_move: bool,
) -> Result<Option<u32>, NoMemory>
    requires ends { first + old ≤ 524280 }
    requires some_old { 0 < old }
    requires some_new { 0 < new }
    requires new { new ≤ 1048576 }
    requires mapped { mapped_run space.old.pages first old ≡ old }
    ensures answer { IfOk result (λ at. (resized space.old.pages first old new may_move).came ≡ came_at at) }
    ensures no_memory { OnErr result ((resized space.old.pages first old new may_move).came ≢ Refused ENOMEM) }
    ensures inside { IfOk result (λ at. IfSome at (λ at. at < 524280)) }
    ensures stored { OnOk result (space.new ≡ record space.old { pages = (resized space.old.pages first old new may_move).state }) }
    ensures effects { OnOk result (Leads log.old.effects log.new.effects space.old.pages space.new.pages) }
    ensures native { log.new.native ≡ log.old.native }
{
    space.whole();
    let protection = protection_of(space, first + old - 1);
    match space.remap(first, old, new, may_move) {
        Ok(at) => {
            let range = Resized {
                first,
                old,
                new,
                at,
                protection,
            };
            keep_resized(space, log, range)?;
            Ok(Some(at))
        }
        Err(MapError::Full) => Ok(None),
        Err(MapError::NoPlace) => Ok(None),
        Err(MapError::NoMemory) => Err(NoMemory),
    }
}

/// The protection of a page, where it is mapped.
fn protection_of(space: &Space, number: u32) -> u8
    ensures { result ≡ protection_of (get space.now.pages number) }
{
    match space.page(number) {
        Some(page) => page.protection(),
        None => 0,
    }
}
