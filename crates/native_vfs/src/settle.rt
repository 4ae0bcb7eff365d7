//! A node that nothing needs any longer goes.
ghost use Rattle.std.specs.Prelude.{◌≡◌, IsSome, true};
ghost use Rattle.std.specs.FinMap.{get};
ghost use Rattle.slab.specs.Slab.{get as slab_get};
ghost use Rattle.kernel_core.specs.Nodes.{is_unused};
ghost use Rattle.kernel_core.specs.Totals.{content_blocks};
ghost use Rattle.native_vfs.specs.inside.Steps.{IsSettled, IsUnnamed, GivesBack};
ghost use Rattle.native_vfs.specs.inside.Stored.{nodes_of, content_of, number_of_key};

use crate::inodes::Inodes;
use crate::numbers::{NUMBER_LEVELS, place_of};
use crate::steps;
use crate::stored::StoredContent;
use number_pool::NumberPool;

/// Where a node has no link and no hold it goes: its number is given back, and its blocks are counted no
/// longer (unlink(2), close(2)). Else nothing changes.
pub(crate) fn settle(inodes: &mut Inodes, key: usize)
    requires live { IsSome (slab_get inodes.old.table key) }
    requires unnamed { is_unused (get (nodes_of inodes.old.table) (number_of_key inodes.old.table key)) ≡ true → IsUnnamed (nodes_of inodes.old.table) (number_of_key inodes.old.table key) }
    ensures settled { IsSettled inodes.old.table inodes.new.table key }
    ensures entries { inodes.new.entries ≡ inodes.old.entries }
{
    let node = &inodes.table[key];
    if node.links > 0 || node.holds > 0 {
        return;
    }
    let number = node.number;
    let kept = kept_blocks(&node.content);
    steps::remove(&mut inodes.table, key);
    inodes.blocks -= kept;
    give_back(&mut inodes.numbers, number);
}

/// How many blocks a file keeps; what is no file keeps none.
fn kept_blocks(content: &StoredContent) -> u32
    ensures { result ≡ content_blocks (content_of content.now) }
{
    match content {
        StoredContent::File(content) => content.blocks(),
        _ => 0,
    }
}

/// Gives back a number that has a place in the pool.
fn give_back(numbers: &mut NumberPool<NUMBER_LEVELS>, number: u64)
    ensures { GivesBack numbers.old numbers.new number }
{
    if let Some(place) = place_of(number) {
        numbers.give_back(place);
    }
}
