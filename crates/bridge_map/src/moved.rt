//! What a change of size leads over, as effects.
ghost use Rattle.std.specs.Prelude.{◌≡◌, ◌≤◌, ◌<◌, ◌+◌, ◌≢◌, ℕ, ◌++◌, true, Some, OnOk};
ghost use Rattle.std.specs.FinMap.{get};
ghost use Rattle.bridge_map.specs.Rows.{IsWrittenOrZeros, move_effects, page_effects, pages_effects, resize_effects};
ghost use Rattle.guest_space.specs.Memory.{MappedPage};
ghost use Rattle.o32_model.specs.Logs.{with_more};

use crate::effects::keep;
use guest_space::{Page, Space};
use kernel_core::address_space::{PAGE_SIZE, PROT_READ, PROT_WRITE};
use kernel_core::{Bytes, Effect, NoMemory};
use o32_model::Log;

/// A range of pages that got another size.
#[derive(Clone, Copy)]
pub(crate) struct Resized {
    /// Its first page before.
    pub(crate) first: u32,
    /// How many pages it had.
    pub(crate) old: u32,
    /// How many it has.
    pub(crate) new: u32,
    /// Its first page now.
    pub(crate) at: u32,
    /// The protection of the last page that it had.
    pub(crate) protection: u8,
}

/// Keeps what a change of size led over, after it. A page's bytes are copied only where effects are kept.
pub(crate) fn keep_resized(space: &Space, log: &mut Log, range: Resized) -> Result<(), NoMemory>
    requires some { 0 < range.old }
    requires first { range.first + range.old ≤ 524280 }
    requires new { range.new ≤ 1048576 }
    requires at { range.at + range.old ≤ 524280 }
    ensures effects { OnOk result (log.new.effects ≡ with_more log.old.effects (resize_effects space.now.pages range.first range.old range.new range.at range.protection)) }
    ensures native { log.new.native ≡ log.old.native }
    ensures zeros { OnOk result (range.old < range.new → range.at ≢ range.first → (k : ℕ) → k < range.old → IsWrittenOrZeros (get space.now.pages (range.at + k))) }
{
    let Resized {
        first,
        old,
        new,
        at,
        protection,
    } = range;
    if new < old {
        let count = old - new;
        keep(
            log,
            Effect::Unmap {
                first: first + new,
                count,
            },
        )?;
        return Ok(());
    }
    if new == old {
        return Ok(());
    }
    keep_moved(space, log, first, old, at)?;
    let growth = Effect::Map {
        first: at + old,
        count: new - old,
        prot: protection,
    };
    keep(log, growth)?;
    Ok(())
}

/// Keeps that a range was taken away where it stood and stands at page `at`, where that is another place.
fn keep_moved(space: &Space, log: &mut Log, first: u32, old: u32, at: u32) -> Result<(), NoMemory>
    requires some { 0 < old }
    requires at { at + old ≤ 524280 }
    ensures effects { OnOk result (log.new.effects ≡ with_more log.old.effects (move_effects space.now.pages first old at)) }
    ensures native { log.new.native ≡ log.old.native }
    ensures zeros { OnOk result (at ≢ first → (k : ℕ) → k < old → IsWrittenOrZeros (get space.now.pages (at + k))) }
{
    if at == first {
        return Ok(());
    }
    keep(log, Effect::Unmap { first, count: old })?;
    keep_pages(space, log, at, old)?;
    Ok(())
}

/// Keeps that the pages of a range were mapped and written, in order.
fn keep_pages(space: &Space, log: &mut Log, first: u32, count: u32) -> Result<(), NoMemory>
    requires { first + count ≤ 524280 }
    ensures effects { OnOk result (log.new.effects ≡ with_more log.old.effects (pages_effects space.now.pages first count)) }
    ensures native { log.new.native ≡ log.old.native }
    ensures zeros { OnOk result ((k : ℕ) → k < count → IsWrittenOrZeros (get space.now.pages (first + k))) }
{
    for done in 0..count {
        keep_page(space, log, first + done)?;
    }
    Ok(())
}

/// Keeps that a page was mapped and written.
fn keep_page(space: &Space, log: &mut Log, number: u32) -> Result<(), NoMemory>
    requires { number < 524280 }
    ensures effects { OnOk result (log.new.effects ≡ with_more log.old.effects (page_effects number (get space.now.pages number))) }
    ensures native { log.new.native ≡ log.old.native }
    ensures zeros { OnOk result (IsWrittenOrZeros (get space.now.pages number)) }
{
    match space.page(number) {
        None => Ok(()),
        Some(page) => keep_found(page, log, number),
    }
}

fn keep_found(page: &Page, log: &mut Log, number: u32) -> Result<(), NoMemory>
    requires { number < 524280 }
    ensures effects { OnOk result (log.new.effects ≡ with_more log.old.effects (page_effects number (Some page.now))) }
    ensures native { log.new.native ≡ log.old.native }
    ensures zeros { OnOk result (IsWrittenOrZeros (Some page.now)) }
{
    if !page.is_ready() {
        let prot = page.protection();
        return keep(
            log,
            Effect::Map {
                first: number,
                count: 1,
                prot,
            },
        );
    }
    if let Some(effects) = &mut log.effects {
        push_written(page, effects, number)?;
    }
    Ok(())
}

/// Adds that a page was mapped and its bytes written, which takes leave to write, before it got its protection.
fn push_written(page: &Page, effects: &mut Vec<Effect>, number: u32) -> Result<(), NoMemory>
    requires inside { number < 524280 }
    requires ready { page.now.ready ≡ true }
    ensures { OnOk result (effects.new.items ≡ effects.old.items ++ page_effects number (Some page.now)) }
{
    let mut bytes = vec![in *effects.allocator(); 0u8; PAGE_SIZE as usize]?;
    page.read(0, bytes.as_mut_slice());
    effects.push(Effect::Map {
        first: number,
        count: 1,
        prot: PROT_READ + PROT_WRITE,
    })?;
    effects.push(Effect::Write {
        address: number * PAGE_SIZE,
        bytes: Bytes::from(bytes),
    })?;
    effects.push(Effect::Protect {
        first: number,
        count: 1,
        prot: page.protection(),
    })?;
    Ok(())
}
