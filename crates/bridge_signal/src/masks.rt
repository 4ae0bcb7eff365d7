//! The mask, set and told: sigprocmask(2).
ghost use Rattle.std.specs.Prelude.{◌≡◌, ◌-◌, bit_and};
ghost use Rattle.bridge_signal_state.specs.Passed.{Proceeds};
ghost use Rattle.bridge_signal.specs.inside.Asked.{mask_changed, mask_from, mask_set};
ghost use Rattle.bridge_signal.specs.inside.Told.{did};
ghost use Rattle.bridge_signal_state.specs.Acts.{Acts};
ghost use Rattle.kernel_model.specs.SignalRows as rows;
ghost use Rattle.kernel_model.specs.SignalSets as sets;
ghost use Rattle.outside.specs.Streams.{contents};

use crate::asked::MaskSetting;
use bridge_signal_state::{Below, mask, set_mask};
use kernel_core::{Errno, MaskChange, Stop};
use outside::{Devices, Sink, Source};

/// Tells the mask and changes it as is asked, or tells the error.
pub(crate) fn change_mask<I: Source, O: Sink, E: Sink>(
    asked: Result<Option<MaskSetting>, Errno>,
    dev: &mut Devices<I, O, E>,
    below: &mut Below,
) -> Result<Result<[u32; 4], Errno>, Stop>
    ensures acts { Acts (λ told became. mask_changed below.old.kernel.now asked ≡ did became told) result below.old.kernel.now below.new.kernel.now
        (contents I.left O.written E.written dev.old) (contents I.left O.written E.written dev.new) below.old.log.now below.new.log.now }
    ensures proceeds { Proceeds I.faults O.faults E.faults result below.old below.new dev.old dev.new }
{
    match asked {
        Err(error) => Ok(Err(error)),
        Ok(change) => {
            let before = replace_mask(change, dev, below)?;
            Ok(Ok(before))
        }
    }
}

/// Tells the mask, and changes it where there is a change.
fn replace_mask<I: Source, O: Sink, E: Sink>(
    change: Option<MaskSetting>,
    dev: &mut Devices<I, O, E>,
    below: &mut Below,
) -> Result<[u32; 4], Stop>
    ensures acts { Acts (λ before became. (before ≡ below.old.kernel.now.signals.mask) × (became ≡ mask_set below.old.kernel.now change)) result below.old.kernel.now below.new.kernel.now
        (contents I.left O.written E.written dev.old) (contents I.left O.written E.written dev.new) below.old.log.now below.new.log.now }
    ensures proceeds { Proceeds I.faults O.faults E.faults result below.old below.new dev.old dev.new }
{
    let before = mask(dev, below)?;
    set_from(before, change, dev, below)?;
    Ok(before)
}

/// Changes the mask, which was `before`, where there is a change.
fn set_from<I: Source, O: Sink, E: Sink>(
    before: [u32; 4],
    change: Option<MaskSetting>,
    dev: &mut Devices<I, O, E>,
    below: &mut Below,
) -> Result<(), Stop>
    ensures acts { Acts (λ _ became. became ≡ mask_from below.old.kernel.now before change) result below.old.kernel.now below.new.kernel.now
        (contents I.left O.written E.written dev.old) (contents I.left O.written E.written dev.new) below.old.log.now below.new.log.now }
    ensures proceeds { Proceeds I.faults O.faults E.faults result below.old below.new dev.old dev.new }
{
    match change {
        None => Ok(()),
        Some(change) => {
            let becomes = changed_mask(change.how, before, change.set);
            set_mask(becomes, dev, below)
        }
    }
}

/// A mask that is changed by a set.
fn changed_mask(how: MaskChange, mask: [u32; 4], set: [u32; 4]) -> [u32; 4]
    ensures { result ≡ rows.changed_mask how mask set }
{
    match how {
        MaskChange::Block => union(mask, set),
        MaskChange::Unblock => without(mask, set),
        MaskChange::Set => set,
    }
}

/// The signals of two sets.
#[tactic(auto, using(bridge_signal_state::proofs::Passed::union_words))]
fn union(set: [u32; 4], other: [u32; 4]) -> [u32; 4]
    ensures { result ≡ sets.union set other }
{
    [
        set[0] | other[0],
        set[1] | other[1],
        set[2] | other[2],
        set[3] | other[3],
    ]
}

/// The signals of a set that are not in another.
#[tactic(auto, using(bridge_signal_state::proofs::Passed::without_words))]
fn without(set: [u32; 4], other: [u32; 4]) -> [u32; 4]
    ensures { result ≡ sets.without set other }
{
    [
        free_bits(set[0], other[0]),
        free_bits(set[1], other[1]),
        free_bits(set[2], other[2]),
        free_bits(set[3], other[3]),
    ]
}

/// The bits of a word that another does not have.
fn free_bits(word: u32, other: u32) -> u32
    ensures { result ≡ word - bit_and word other }
{
    word - (word & other)
}
