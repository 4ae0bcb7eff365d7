//! The program break: brk(2).
ghost use Rattle.std.specs.Prelude.{◌≡◌, IfOk, OnOk};
ghost use Rattle.bridge_map.specs.Rows.{Leads, break_effects};
ghost use Rattle.guest_space.specs.Break.{with_break};
ghost use Rattle.o32_model.specs.Logs.{with_more};
ghost use Rattle.o32_model.specs.Mappings as rows;
ghost use Rattle.o32_model.specs.Step.{outcome_of, value};
ghost use Rattle.o32_model.specs.Words.{argument};

use crate::effects::keep;
use crate::range::{USER_PAGES, page_count};
use guest_space::Space;
use kernel_core::{Effect, NoMemory};
use o32_model::{CallWords, Log, Outcome};

/// The protection of the pages that the break adds: read and write.
const BREAK_PROTECTION: u8 = 3;

/// brk(2): an address.
#[tactic(auto, unfolding(o32_model::specs::Mappings::brk))]
pub(crate) fn brk(args: &CallWords, space: &mut Space, log: &mut Log) -> Result<Outcome, NoMemory>
    ensures came { IfOk result (λ outcome. outcome ≡ outcome_of value args.now (rows.brk space.old (argument args.now 0)).came) }
    ensures stored { OnOk result (space.new ≡ (rows.brk space.old (argument args.now 0)).state) }
    ensures effects { OnOk result (Leads log.old.effects log.new.effects space.old.pages space.new.pages) }
    ensures native { log.new.native ≡ log.old.native }
{
    let now = move_break(space, log, args.reg[0])?;
    Ok(Outcome::Value(now))
}

/// Moves the break where it may become the wish, and answers it.
fn move_break(space: &mut Space, log: &mut Log, wish: u32) -> Result<u32, NoMemory>
    ensures answer { IfOk result (λ now. now ≡ (with_break space.old wish).program_break) }
    ensures stored { OnOk result (space.new ≡ with_break space.old wish) }
    ensures effects { OnOk result (Leads log.old.effects log.new.effects space.old.pages space.new.pages) }
    ensures native { log.new.native ≡ log.old.native }
{
    space.whole();
    let from = page_count(space.program_break());
    let now = space.brk(wish)?;
    keep_break(log, from, page_count(now))?;
    Ok(now)
}

/// Keeps that the break moved from one number of pages to another.
fn keep_break(log: &mut Log, from: u32, to: u32) -> Result<(), NoMemory>
    ensures effects { OnOk result (log.new.effects ≡ with_more log.old.effects (break_effects from to)) }
    ensures native { log.new.native ≡ log.old.native }
{
    if from < to {
        let count = to - from;
        return keep(
            log,
            Effect::Map {
                first: from,
                count,
                prot: BREAK_PROTECTION,
            },
        );
    }
    let end = from.min(USER_PAGES);
    if to < end {
        let count = end - to;
        return keep(log, Effect::Unmap { first: to, count });
    }
    Ok(())
}
