//! The effects of a record: reading one, and all of them.
ghost use Rattle.std.specs.Prelude.{◌≡◌, [], ◌∷◌, MatchOption};
ghost use Rattle.journal.specs.Reading.{register_at, write_at, pages_at, protection_at, map_at, unmap_at, protect_at, output_at, fields_at, effect_at, many};
ghost use Rattle.journal.specs.Seen.{effect_seen};
ghost use Rattle.journal.specs.inside.Reads.{ReadsBy, behind};

use crate::fields::{bytes_at, place, u8_at, u32_at};
use crate::refusal::BadField;
use std::marker::Model;

/// The number of the first page behind those that an o32 program may have (this project's own).
const USER_PAGES: u32 = 524_280;

/// The number of the thread pointer, the last register of an effect.
const LAST_REGISTER: u8 = 35;

/// All bits of a protection (mmap(2)).
const GREATEST_PROTECTION: u8 = 7;

/// One change of the machine, or one output, as it stands in the bytes of a journal: a
/// `kernel_core::Effect` whose bytes lie there.
#[derive(Clone, Copy)]
pub enum ReadEffect<'a> {
    /// A register is set: 1 to 31 by its number, 32 HI, 33 LO, 34 the pc, 35 the thread pointer.
    Register { r: u8, value: u32 },
    /// Bytes are written from an address on.
    Write { address: u32, bytes: &'a [u8] },
    /// Pages of zeros are mapped: the first, how many, and their protection (mmap(2)), at most 7.
    Map { first: u32, count: u32, prot: u8 },
    /// Pages are unmapped: the first, and how many.
    Unmap { first: u32, count: u32 },
    /// Pages are protected: the first, how many, and their protection, at most 7.
    Protect { first: u32, count: u32, prot: u8 },
    /// Bytes go out on stream 1 or 2.
    Output { stream: u8, bytes: &'a [u8] },
}

#[tactic(auto, unfolding(crate::specs::Reading::register_at))]
fn register_at(file: u64, rest: &[u8]) -> Result<(ReadEffect<'_>, &[u8]), BadField>
    ensures { ReadsBy (λ x. (effect_seen x.0, x.1.now)) result (register_at file rest.now) }
{
    let at = place(file, rest);
    let (r, rest) = u8_at(file, rest)?;
    if r < 1 || r > LAST_REGISTER {
        return Err(BadField { at });
    }
    let (value, rest) = u32_at(file, rest)?;
    Ok((ReadEffect::Register { r, value }, rest))
}

#[tactic(auto, unfolding(crate::specs::Reading::write_at))]
fn write_at(file: u64, rest: &[u8]) -> Result<(ReadEffect<'_>, &[u8]), BadField>
    ensures { ReadsBy (λ x. (effect_seen x.0, x.1.now)) result (write_at file rest.now) }
{
    let (address, rest) = u32_at(file, rest)?;
    let (count, rest) = u32_at(file, rest)?;
    let (bytes, rest) = bytes_at(file, count as usize, rest)?;
    Ok((ReadEffect::Write { address, bytes }, rest))
}

/// A first page, and a count of pages.
#[tactic(auto, unfolding(crate::specs::Reading::pages_at))]
fn pages_at(file: u64, rest: &[u8]) -> Result<((u32, u32), &[u8]), BadField>
    ensures { ReadsBy (λ x. (x.0, x.1.now)) result (pages_at file rest.now) }
{
    let at = place(file, rest);
    let (first, rest) = u32_at(file, rest)?;
    if first >= USER_PAGES {
        return Err(BadField { at });
    }
    let at = place(file, rest);
    let (count, rest) = u32_at(file, rest)?;
    if count > USER_PAGES - first {
        return Err(BadField { at });
    }
    Ok(((first, count), rest))
}

fn protection_at(file: u64, rest: &[u8]) -> Result<(u8, &[u8]), BadField>
    ensures { ReadsBy (λ x. (x.0, x.1.now)) result (protection_at file rest.now) }
{
    let at = place(file, rest);
    let (prot, rest) = u8_at(file, rest)?;
    if prot > GREATEST_PROTECTION {
        return Err(BadField { at });
    }
    Ok((prot, rest))
}

#[tactic(auto, unfolding(crate::specs::Reading::map_at))]
fn map_at(file: u64, rest: &[u8]) -> Result<(ReadEffect<'_>, &[u8]), BadField>
    ensures { ReadsBy (λ x. (effect_seen x.0, x.1.now)) result (map_at file rest.now) }
{
    let ((first, count), rest) = pages_at(file, rest)?;
    let (prot, rest) = protection_at(file, rest)?;
    Ok((ReadEffect::Map { first, count, prot }, rest))
}

#[tactic(auto, unfolding(crate::specs::Reading::unmap_at))]
fn unmap_at(file: u64, rest: &[u8]) -> Result<(ReadEffect<'_>, &[u8]), BadField>
    ensures { ReadsBy (λ x. (effect_seen x.0, x.1.now)) result (unmap_at file rest.now) }
{
    let ((first, count), rest) = pages_at(file, rest)?;
    Ok((ReadEffect::Unmap { first, count }, rest))
}

#[tactic(auto, unfolding(crate::specs::Reading::protect_at))]
fn protect_at(file: u64, rest: &[u8]) -> Result<(ReadEffect<'_>, &[u8]), BadField>
    ensures { ReadsBy (λ x. (effect_seen x.0, x.1.now)) result (protect_at file rest.now) }
{
    let ((first, count), rest) = pages_at(file, rest)?;
    let (prot, rest) = protection_at(file, rest)?;
    Ok((ReadEffect::Protect { first, count, prot }, rest))
}

#[tactic(auto, unfolding(crate::specs::Reading::output_at))]
fn output_at(file: u64, rest: &[u8]) -> Result<(ReadEffect<'_>, &[u8]), BadField>
    ensures { ReadsBy (λ x. (effect_seen x.0, x.1.now)) result (output_at file rest.now) }
{
    let at = place(file, rest);
    let (stream, rest) = u8_at(file, rest)?;
    if stream < 1 || stream > 2 {
        return Err(BadField { at });
    }
    let (count, rest) = u32_at(file, rest)?;
    let (bytes, rest) = bytes_at(file, count as usize, rest)?;
    Ok((ReadEffect::Output { stream, bytes }, rest))
}

/// What stands behind a tag.
fn fields_at(tag: u8, file: u64, rest: &[u8]) -> Result<(ReadEffect<'_>, &[u8]), BadField>
    ensures { ReadsBy (λ x. (effect_seen x.0, x.1.now)) result (fields_at tag file rest.now) }
{
    match tag {
        1 => register_at(file, rest),
        2 => write_at(file, rest),
        3 => map_at(file, rest),
        4 => unmap_at(file, rest),
        5 => protect_at(file, rest),
        _ => output_at(file, rest),
    }
}

#[tactic(auto, unfolding(crate::specs::Reading::effect_at))]
fn effect_at(file: u64, rest: &[u8]) -> Result<(ReadEffect<'_>, &[u8]), BadField>
    ensures { ReadsBy (λ x. (effect_seen x.0, x.1.now)) result (effect_at file rest.now) }
{
    let at = place(file, rest);
    let (tag, rest) = u8_at(file, rest)?;
    if tag < 1 || tag > 6 {
        return Err(BadField { at });
    }
    fields_at(tag, file, rest)
}

/// What stands behind so many effects.
fn behind_effects(count: u32, file: u64, rest: &[u8]) -> Result<&[u8], BadField>
    ensures { ReadsBy (λ x. x.now) result (behind (many effect_at count file rest.now)) }
{
    let mut left = rest;
    for _ in 0..count {
        let (_, after) = effect_at(file, left)?;
        left = after;
    }
    Ok(left)
}

/// So many effects.
pub(crate) fn effects_at(
    count: u32,
    file: u64,
    rest: &[u8],
) -> Result<(Effects<'_>, &[u8]), BadField>
    ensures { ReadsBy (λ x. (x.0, x.1.now)) result (many effect_at count file rest.now) }
{
    let after = behind_effects(count, file, rest)?;
    Ok((Effects { count, file, rest }, after))
}

/// The effects of a record that are left: a list, which is read from the bytes of a journal one by one
/// and takes no memory of its own.
#[derive(Drop)]
pub struct Effects<'a> {
    count: u32,
    file: u64,
    rest: &'a [u8],
}

impl<'a> Model for Effects<'a> {
    ghost use Rattle.std.specs.Prelude.{List};
    ghost use Rattle.kernel_core.specs.declared.record.Effect.{Effect};

    ghost Value = { List Effect };

    ghost use Rattle.journal.specs.inside.Left.{effects_left, AreEffects};

    ghost view = { effects_left };

    ghost invariant = { AreEffects };
}

impl<'a> Effects<'a> {
    /// No effects.
    pub(crate) fn none(rest: &'a [u8]) -> Effects<'a>
        ensures { result ≡ [] }
    {
        Effects {
            count: 0,
            file: 0,
            rest,
        }
    }

    /// Takes the first effect that is left; `None` exactly where none is. Costs a constant.
    pub fn next(&mut self) -> Option<ReadEffect<'a>>
        ensures { MatchOption result ((self.old ≡ []) × (self.new ≡ [])) (λ effect. self.old ≡ effect_seen effect ∷ self.new) }
    {
        if self.count == 0 {
            return None;
        }
        match effect_at(self.file, self.rest) {
            Ok((effect, rest)) => {
                self.count -= 1;
                self.rest = rest;
                Some(effect)
            }
            Err(_) => None,
        }
    }
}
