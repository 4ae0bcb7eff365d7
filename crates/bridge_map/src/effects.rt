//! Pages that are mapped, protected and taken away, with the effect of it kept where effects are kept.
ghost use Rattle.std.specs.Prelude.{◌≡◌, ◌≢◌, ◌≤◌, ◌+◌, ◌<◌, OnErr, OnOk, IfOk, None, [], ◌∷◌};
ghost use Rattle.bridge_map.specs.Rows.{ActsOnPages, Leads, MapsPages};
ghost use Rattle.guest_space.specs.Mapping.{with_protection, mapped_run};
ghost use Rattle.guest_space.specs.Remapping.{without};
ghost use Rattle.o32_model.specs.Logs.{with_more};
ghost use Rattle.o32_model.specs.Ranges.{with_new_pages};

use crate::range::mapped;
use guest_space::{MapError, Space};
use kernel_core::{Effect, NoMemory};
use o32_model::Log;

/// Keeps an effect on pages, where effects are kept. One that acts on no page is none.
pub(crate) fn keep(log: &mut Log, effect: Effect) -> Result<(), NoMemory>
    requires { ActsOnPages effect }
    ensures effects { OnOk result (log.new.effects ≡ with_more log.old.effects (effect ∷ [])) }
    ensures native { log.new.native ≡ log.old.native }
{
    if let Some(effects) = &mut log.effects {
        effects.push(effect)?;
    }
    Ok(())
}

/// Takes the pages of a range away.
pub(crate) fn unmap(
    space: &mut Space,
    log: &mut Log,
    first: u32,
    count: u32,
) -> Result<(), NoMemory>
    requires some { 0 < count }
    requires begins { first < 524280 }
    requires ends { first + count ≤ 524280 }
    ensures memory { OnOk result (space.new ≡ record space.old { pages = without space.old.pages first count }) }
    ensures effects { OnOk result (Leads log.old.effects log.new.effects space.old.pages space.new.pages) }
    ensures native { log.new.native ≡ log.old.native }
{
    keep(log, Effect::Unmap { first, count })?;
    space.unmap(first, count);
    Ok(())
}

/// Gives the pages of a range up to the first absent one a protection, and answers their number.
#[tactic(auto, using(crate::proofs::Ranges::protects))]
pub(crate) fn protect(
    space: &mut Space,
    log: &mut Log,
    first: u32,
    count: u32,
    protection: u8,
) -> Result<u32, NoMemory>
    requires protection { protection ≤ 7 }
    ensures run { IfOk result (λ run. run ≡ mapped_run space.old.pages first count) }
    ensures memory { IfOk result (λ run. space.new ≡ record space.old { pages = with_protection space.old.pages first run protection }) }
    ensures effects { OnOk result (Leads log.old.effects log.new.effects space.old.pages space.new.pages) }
    ensures native { log.new.native ≡ log.old.native }
{
    let run = mapped(space, first, count);
    if run == 0 {
        return Ok(0);
    }
    protect_run(space, log, first, run, protection)?;
    Ok(run)
}

/// Gives mapped pages a protection.
fn protect_run(
    space: &mut Space,
    log: &mut Log,
    first: u32,
    run: u32,
    protection: u8,
) -> Result<(), NoMemory>
    requires some { 0 < run }
    requires begins { first < 524280 }
    requires ends { first + run ≤ 524280 }
    requires protection { protection ≤ 7 }
    requires mapped { mapped_run space.old.pages first run ≡ run }
    ensures memory { OnOk result (space.new ≡ record space.old { pages = with_protection space.old.pages first run protection }) }
    ensures effects { OnOk result (Leads log.old.effects log.new.effects space.old.pages space.new.pages) }
    ensures native { log.new.native ≡ log.old.native }
{
    let effect = Effect::Protect {
        first,
        count: run,
        prot: protection,
    };
    keep(log, effect)?;
    space.protect(first, run, protection);
    Ok(())
}

/// Maps pages of zeros, whatever stood there, and answers whether that are no more than may be mapped; else
/// nothing changes. Of more than may be mapped it never answers that memory ran out.
#[tactic(auto, using(crate::proofs::Ranges::mappings))]
pub(crate) fn map(
    space: &mut Space,
    log: &mut Log,
    first: u32,
    count: u32,
    protection: u8,
) -> Result<bool, NoMemory>
    requires some { 0 < count }
    requires begins { first < 524280 }
    requires ends { first + count ≤ 524280 }
    requires protection { protection ≤ 7 }
    ensures answer { IfOk result (λ done. MapsPages done space.old.pages space.new.pages first count protection) }
    ensures others { OnOk result (space.new ≡ record space.old { pages = space.new.pages }) }
    ensures no_memory { OnErr result (with_new_pages space.old.pages first count protection ≢ None) }
    ensures effects { OnOk result (Leads log.old.effects log.new.effects space.old.pages space.new.pages) }
    ensures native { log.new.native ≡ log.old.native }
{
    let done = map_pages(space, first, count, protection)?;
    if !done {
        return Ok(false);
    }
    let effect = Effect::Map {
        first,
        count,
        prot: protection,
    };
    keep(log, effect)?;
    Ok(true)
}

fn map_pages(space: &mut Space, first: u32, count: u32, protection: u8) -> Result<bool, NoMemory>
    requires ends { first + count ≤ 524280 }
    requires protection { protection ≤ 7 }
    ensures answer { IfOk result (λ done. MapsPages done space.old.pages space.new.pages first count protection) }
    ensures others { OnOk result (space.new ≡ record space.old { pages = space.new.pages }) }
    ensures no_memory { OnErr result (with_new_pages space.old.pages first count protection ≢ None) }
{
    match space.map(first, count, protection) {
        Ok(()) => Ok(true),
        Err(MapError::Full) => Ok(false),
        Err(MapError::NoPlace) => Ok(false),
        Err(MapError::NoMemory) => Err(NoMemory),
    }
}
