//! Extents by their first blocks.
ghost use Rattle.std.specs.Prelude.{◌≡◌, ◌+◌, ◌<◌, ◌≤◌, ◌^◌, [], ◌∷◌, ◌++◌, length, OnOk, OnErr, IfSome, IfNone, IsSome, is_some, option_copied};
ghost use Rattle.std.specs.FinMap as map;
ghost use Rattle.kernel_core.specs.FileContent.{with_zero_tail};
ghost use Rattle.file_blocks.specs.Kept.{NoneFrom};
ghost use Rattle.file_blocks.specs.inside.Pieces.{with_kept_piece};
ghost use Rattle.file_blocks.specs.inside.Extents.{IsLastUpTo, NoneUpTo, IsNextFrom, NoneNextFrom, IsSpot, EndsBefore, NoneEndsBefore, AreExtents, block_at, blocks_in, blocks_from, with_piece_at, with_zeros_at, without_last, replaced, joined};

use crate::extent::Extent;
use paged_bytes::PageBytes;
use std::alloc::{AllocError, Global};
use std::collections::BTreeMap;
use std::marker::Model;
use std::mem::replace;

/// Extents, each by the index of its first block. Contracts see the map of them.
#[derive(Drop)]
pub(crate) struct ExtentList {
    extents: BTreeMap<u64, Extent>,
    alloc: Global,
}

/// Where a block stands: the index of its extent's first block, and its number there.
#[derive(Clone, Copy)]
struct Spot {
    first: u64,
    number: usize,
}

impl Model for ExtentList {
    ghost use Rattle.std.specs.Prelude.{ℕ, List};
    ghost use Rattle.std.specs.FinMap as map;
    ghost use Rattle.std.specs.Coded.{coded_ℕ, coded_list};
    ghost use Rattle.file_blocks.specs.inside.Extents.{Extents};

    ghost Value = { Extents };

    ghost coded = { map.code coded_ℕ (coded_list (coded_list coded_ℕ)) };

    ghost view = { λ s. map.from_entries s.extents.entries };
}

impl ExtentList {
    pub(crate) fn new(alloc: Global) -> ExtentList
        ensures { result ≡ map.empty }
    {
        ExtentList {
            extents: BTreeMap::new(alloc),
            alloc,
        }
    }

    /// The last extent of those that do not begin past the index, where there is one.
    pub(crate) fn up_to(&self, index: u64) -> Option<(u64, &Extent)>
        ensures found { IfSome result (λ at. IsLastUpTo self.now index at.0 at.1.now) }
        ensures none { IfNone result (NoneUpTo self.now index) }
    {
        let (&first, extent) = self.extents.range(..=index).next_back()?;
        Some((first, extent))
    }

    /// The first extent of those that do not begin before the index, where there is one.
    pub(crate) fn from(&self, index: u64) -> Option<(u64, &Extent)>
        ensures found { IfSome result (λ at. IsNextFrom self.now index at.0 at.1.now) }
        ensures none { IfNone result (NoneNextFrom self.now index) }
    {
        let (&first, extent) = self.extents.range(index..).next()?;
        Some((first, extent))
    }

    /// The block of the index, where it is kept.
    pub(crate) fn block(&self, index: u64) -> Option<&PageBytes>
        ensures { option_copied result ≡ block_at self.now index }
    {
        let (first, extent) = self.up_to(index)?;
        extent.block((index - first) as usize)
    }

    /// Writes the bytes into the block of the index from the place on, where it is kept, and tells whether it is.
    pub(crate) fn write(&mut self, index: u64, place: usize, bytes: &[u8]) -> bool
        requires valid { AreExtents self.old }
        requires room { place + length bytes.now ≤ 4096 }
        ensures is_kept { result ≡ is_some (block_at self.old index) }
        ensures valid { AreExtents self.new }
        ensures written { blocks_in self.new ≡ with_kept_piece (blocks_in self.old) index (block_at self.old index) place bytes.now }
        ensures count { map.len (blocks_in self.new) ≡ map.len (blocks_in self.old) }
    {
        let Some(spot) = self.spot(index) else {
            return false;
        };
        self.write_at(spot, place, bytes);
        true
    }

    /// Makes the bytes of the block of the index from the place on 0, where it is kept.
    pub(crate) fn clear_from(&mut self, index: u64, place: usize)
        requires valid { AreExtents self.old }
        requires room { place ≤ 4096 }
        ensures valid { AreExtents self.new }
        ensures cleared { blocks_in self.new ≡ with_zero_tail (blocks_in self.old) index (block_at self.old index) place }
        ensures count { map.len (blocks_in self.new) ≡ map.len (blocks_in self.old) }
    {
        let Some(spot) = self.spot(index) else {
            return;
        };
        self.clear_at(spot, place);
    }

    /// Adds a block that is not kept yet, and joins it with the extents that end before it and begin behind it. After want of
    /// memory all is as it was.
    pub(crate) fn add(&mut self, index: u64, block: PageBytes) -> Result<(), AllocError>
        requires valid { AreExtents self.old }
        requires absent { block_at self.old index ≡ None }
        requires small { index < 2 ^ 32 }
        ensures valid { OnOk result (AreExtents self.new) }
        ensures ok { OnOk result (blocks_in self.new ≡ map.insert (blocks_in self.old) index block) }
        ensures err { OnErr result (self.new ≡ self.old) }
    {
        if let Some(first) = self.ending_before(index) {
            self.grow(first, block, index + 1)?;
            return Ok(());
        }
        self.begin(index, block)?;
        Ok(())
    }

    /// Takes away the block of the index, which is the last one.
    pub(crate) fn remove_last(&mut self, index: u64)
        requires valid { AreExtents self.old }
        requires kept { IsSome (block_at self.old index) }
        requires last { NoneFrom (blocks_in self.old) (index + 1) }
        ensures valid { AreExtents self.new }
        ensures removed { blocks_in self.new ≡ map.remove (blocks_in self.old) index }
        ensures fewer { map.len (blocks_in self.new) + 1 ≡ map.len (blocks_in self.old) }
    {
        let Some(spot) = self.spot(index) else {
            return;
        };
        if spot.number == 0 {
            self.remove(spot.first);
            return;
        }
        self.shorten(spot.first);
    }

    /// Where the block of the index stands, where it is kept.
    fn spot(&self, index: u64) -> Option<Spot>
        ensures found { IfSome result (λ spot. IsSpot self.now index spot.first spot.number) }
        ensures none { IfNone result (block_at self.now index ≡ None) }
    {
        let (first, extent) = self.up_to(index)?;
        let number = (index - first) as usize;
        if number < extent.len() {
            Some(Spot { first, number })
        } else {
            None
        }
    }

    /// Where the extent begins that ends just before the index, where there is one.
    fn ending_before(&self, index: u64) -> Option<u64>
        ensures found { IfSome result (λ first. EndsBefore self.now index first) }
        ensures none { IfNone result (NoneEndsBefore self.now index) }
    {
        let (first, extent) = self.up_to(index)?;
        if index - first == extent.len() as u64 {
            Some(first)
        } else {
            None
        }
    }

    /// Writes the bytes into the block that stands there from the place on.
    fn write_at(&mut self, spot: Spot, place: usize, bytes: &[u8])
        requires there { IsSome (map.get self.old spot.first) }
        requires room { place + length bytes.now ≤ 4096 }
        ensures { self.new ≡ map.insert self.old spot.first (with_piece_at (blocks_from self.old spot.first) spot.number place bytes.now) }
    {
        if let Some(extent) = self.extents.get_mut(&spot.first) {
            extent.write(spot.number, place, bytes);
        }
    }

    /// Makes the bytes of the block that stands there from the place on 0.
    fn clear_at(&mut self, spot: Spot, place: usize)
        requires there { IsSome (map.get self.old spot.first) }
        requires room { place ≤ 4096 }
        ensures { self.new ≡ map.insert self.old spot.first (with_zeros_at (blocks_from self.old spot.first) spot.number place) }
    {
        if let Some(extent) = self.extents.get_mut(&spot.first) {
            extent.clear_from(spot.number, place);
        }
    }

    /// Takes the last block of the extent away.
    fn shorten(&mut self, first: u64)
        requires { IsSome (map.get self.old first) }
        ensures { self.new ≡ map.insert self.old first (without_last (blocks_from self.old first)) }
    {
        if let Some(extent) = self.extents.get_mut(&first) {
            extent.pop();
        }
    }

    /// Takes the extent away, where it is there.
    fn remove(&mut self, first: u64)
        ensures { self.new ≡ map.remove self.old first }
    {
        let _ = self.extents.remove(&first);
    }

    /// Begins an extent with the block, and joins it with the one behind it, where that is there.
    fn begin(&mut self, first: u64, block: PageBytes) -> Result<(), AllocError>
        requires absent { map.get self.old first ≡ None }
        requires small { first < 2 ^ 32 }
        ensures ok { OnOk result (self.new ≡ joined self.old first [] block (first + 1)) }
        ensures err { OnErr result (self.new ≡ self.old) }
    {
        self.extents.insert(first, Extent::new(self.alloc))?;
        if let Err(refused) = self.grow(first, block, first + 1) {
            self.remove(first);
            return Err(refused);
        }
        Ok(())
    }

    /// Adds the block to the extent that begins at `first`, and joins it with the one that begins at `next`, where that is
    /// there.
    fn grow(&mut self, first: u64, block: PageBytes, next: u64) -> Result<(), AllocError>
        requires there { IsSome (map.get self.old first) }
        requires apart { first < next }
        ensures ok { OnOk result (self.new ≡ joined self.old first (blocks_from self.old first) block next) }
        ensures err { OnErr result (self.new ≡ self.old) }
    {
        let mut behind = self.taken(next);
        if let Err(refused) = self.join(first, block, &mut behind) {
            self.give_back(next, behind);
            return Err(refused);
        }
        self.remove(next);
        Ok(())
    }

    /// Takes the blocks of an extent, where it is there, which is empty then.
    fn taken(&mut self, first: u64) -> Extent
        ensures value { result ≡ blocks_from self.old first }
        ensures after { self.new ≡ replaced self.old first (map.get self.old first) [] }
    {
        match self.extents.get_mut(&first) {
            Some(extent) => replace(extent, Extent::new(self.alloc)),
            None => Extent::new(self.alloc),
        }
    }

    /// Gives the blocks to an extent, where it is there, in place of its own.
    fn give_back(&mut self, first: u64, blocks: Extent)
        ensures { self.new ≡ replaced self.old first (map.get self.old first) blocks }
    {
        if let Some(extent) = self.extents.get_mut(&first) {
            *extent = blocks;
        }
    }

    /// Adds a block and the blocks behind it to an extent. After want of memory all is as it was.
    fn join(&mut self, first: u64, block: PageBytes, behind: &mut Extent) -> Result<(), AllocError>
        requires { IsSome (map.get self.old first) }
        ensures ok { OnOk result (self.new ≡ map.insert self.old first (blocks_from self.old first ++ block ∷ behind.old)) }
        ensures err { OnErr result (self.new ≡ self.old) }
        ensures err_behind { OnErr result (behind.new ≡ behind.old) }
    {
        match self.extents.get_mut(&first) {
            Some(extent) => {
                extent.join(block, behind)?;
                Ok(())
            }
            None => Ok(()),
        }
    }
}
