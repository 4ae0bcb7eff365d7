//! The calls on ranges that are mapped: munmap(2), mprotect(2), msync(2), madvise(2).
ghost use Rattle.std.specs.Prelude.{◌≡◌, IfOk, OnOk};
ghost use Rattle.bridge_map.specs.Rows.{Leads};
ghost use Rattle.o32_model.specs.Mappings as rows;
ghost use Rattle.o32_model.specs.Step.{outcome_of, value};
ghost use Rattle.o32_model.specs.Words.{argument};

use crate::effects::{protect, unmap};
use crate::range::{is_aligned, is_beyond, mapped, page_count, page_of};
use guest_space::Space;
use kernel_core::{Errno, NoMemory};
use o32_model::{CallWords, Log, Outcome};

/// munmap(2): an address and a length.
#[tactic(auto, unfolding(o32_model::specs::Mappings::munmap))]
pub(crate) fn munmap(
    args: &CallWords,
    space: &mut Space,
    log: &mut Log,
) -> Result<Outcome, NoMemory>
    ensures came { IfOk result (λ outcome. outcome ≡ outcome_of value args.now (rows.munmap space.old (argument args.now 0) (argument args.now 1)).came) }
    ensures stored { OnOk result (space.new ≡ (rows.munmap space.old (argument args.now 0) (argument args.now 1)).state) }
    ensures effects { OnOk result (Leads log.old.effects log.new.effects space.old.pages space.new.pages) }
    ensures native { log.new.native ≡ log.old.native }
{
    let first = page_of(args.reg[0]);
    let count = page_count(args.reg[1]);
    if !is_aligned(args.reg[0]) || args.reg[1] == 0 || is_beyond(first, count) {
        return Ok(Outcome::Error(Errno::EINVAL));
    }
    unmap(space, log, first, count)?;
    Ok(Outcome::Value(0))
}

/// mprotect(2): an address, a length and a protection.
#[tactic(auto, unfolding(o32_model::specs::Mappings::mprotect))]
pub(crate) fn mprotect(
    args: &CallWords,
    space: &mut Space,
    log: &mut Log,
) -> Result<Outcome, NoMemory>
    ensures came { IfOk result (λ outcome. outcome ≡ outcome_of value args.now (rows.mprotect space.old (argument args.now 0) (argument args.now 1) (argument args.now 2)).came) }
    ensures stored { OnOk result (space.new ≡ (rows.mprotect space.old (argument args.now 0) (argument args.now 1) (argument args.now 2)).state) }
    ensures effects { OnOk result (Leads log.old.effects log.new.effects space.old.pages space.new.pages) }
    ensures native { log.new.native ≡ log.old.native }
{
    if !is_aligned(args.reg[0]) {
        return Ok(Outcome::Error(Errno::EINVAL));
    }
    let first = page_of(args.reg[0]);
    let count = page_count(args.reg[1]);
    let run = protect(space, log, first, count, (args.reg[2] % 8) as u8)?;
    if run == count {
        Ok(Outcome::Value(0))
    } else {
        Ok(Outcome::Error(Errno::ENOMEM))
    }
}

/// msync(2): an address, a length and flags.
#[tactic(auto, unfolding(o32_model::specs::Mappings::msync))]
pub(crate) fn msync(args: &CallWords, space: &Space) -> Outcome
    ensures came { result ≡ outcome_of value args.now (rows.msync space.now (argument args.now 0) (argument args.now 1) (argument args.now 2)).came }
    ensures stored { (rows.msync space.now (argument args.now 0) (argument args.now 1) (argument args.now 2)).state ≡ space.now }
{
    let flags = args.reg[2];
    if !is_aligned(args.reg[0]) || flags > 7 || (flags % 2 == 1 && flags / 4 % 2 == 1) {
        return Outcome::Error(Errno::EINVAL);
    }
    let count = page_count(args.reg[1]);
    if mapped(space, page_of(args.reg[0]), count) != count {
        return Outcome::Error(Errno::ENOMEM);
    }
    Outcome::Value(0)
}

/// madvise(2): an address, a length and advice.
#[tactic(auto, unfolding(o32_model::specs::Mappings::madvise))]
pub(crate) fn madvise(args: &CallWords, space: &Space) -> Outcome
    ensures came { result ≡ outcome_of value args.now (rows.madvise space.now (argument args.now 0) (argument args.now 2)).came }
    ensures stored { (rows.madvise space.now (argument args.now 0) (argument args.now 2)).state ≡ space.now }
{
    if !is_aligned(args.reg[0]) || args.reg[2] > 3 {
        return Outcome::Error(Errno::EINVAL);
    }
    Outcome::Value(0)
}
