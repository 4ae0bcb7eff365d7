//! The kept blocks of a file, in extents.
ghost use Rattle.std.specs.Prelude.{◌≡◌, ◌+◌, ◌-◌, ◌<◌, ◌≤◌, OnOk, OnErr, IfSome, IfNone, IsSome, None, length, option_copied, is_some};
ghost use Rattle.std.specs.FinMap as map;
ghost use Rattle.kernel_core.specs.FileContent.{with_zero_tail};
ghost use Rattle.file_blocks.specs.Kept.{IsFirstFrom, NoneFrom};
ghost use Rattle.file_blocks.specs.inside.Pieces.{with_kept_piece};

use crate::extent_list::ExtentList;
use paged_bytes::PageBytes;
use std::alloc::{AllocError, Global};
use std::marker::Model;

/// The kept blocks by their indexes: extents, of which no two overlap or touch, and how many blocks those have.
#[derive(Drop)]
pub(crate) struct BlockStore {
    extents: ExtentList,
    count: usize,
}

impl Model for BlockStore {
    ghost use Rattle.std.specs.Prelude.{◌≡◌, ℕ, List};
    ghost use Rattle.std.specs.FinMap as map;
    ghost use Rattle.std.specs.Coded.{coded_ℕ, coded_list};
    ghost use Rattle.kernel_core.specs.FileContent.{Blocks};
    ghost use Rattle.file_blocks.specs.inside.Extents.{blocks_in, AreExtents};

    ghost Value = { Blocks };

    ghost coded = { map.code coded_ℕ (coded_list coded_ℕ) };

    ghost view = { λ s. blocks_in s.extents };

    ghost invariant = { λ s. AreExtents s.extents × (s.count ≡ map.len (blocks_in s.extents)) };
}

impl BlockStore {
    pub(crate) fn new(alloc: Global) -> BlockStore
        ensures { result ≡ map.empty }
    {
        BlockStore {
            extents: ExtentList::new(alloc),
            count: 0,
        }
    }

    pub(crate) fn block(&self, index: u32) -> Option<&PageBytes>
        ensures { option_copied result ≡ map.get self.now index }
    {
        self.extents.block(index as u64)
    }

    pub(crate) fn len(&self) -> usize
        ensures { result ≡ map.len self.now }
    {
        self.count
    }

    /// The greatest index of a block, where there is one.
    pub(crate) fn last_index(&self) -> Option<u32>
        ensures kept { IfSome result (λ last. IsSome (map.get self.now last)) }
        ensures greatest { IfSome result (λ last. NoneFrom self.now (last + 1)) }
        ensures none { IfNone result (NoneFrom self.now 0) }
    {
        let (first, extent) = self.extents.up_to(u32::MAX as u64)?;
        let past = first + extent.len() as u64;
        Some((past - 1) as u32)
    }

    /// The block of the least index that is not below `from`, where there is one.
    pub(crate) fn first_from(&self, from: u32) -> Option<(u32, &PageBytes)>
        ensures found { IfSome result (λ kept. IsFirstFrom self.now from kept.0 kept.1.now) }
        ensures none { IfNone result (NoneFrom self.now from) }
    {
        if let Some(block) = self.block(from) {
            return Some((from, block));
        }
        let (first, extent) = self.extents.from(from as u64)?;
        let block = extent.block(0)?;
        Some((first as u32, block))
    }

    /// Puts a block at an index where none is.
    pub(crate) fn insert(&mut self, index: u32, block: PageBytes) -> Result<(), AllocError>
        requires { map.get self.old index ≡ None }
        ensures ok { OnOk result (self.new ≡ map.insert self.old index block) }
        ensures err { OnErr result (self.new ≡ self.old) }
    {
        self.extents.add(index as u64, block)?;
        self.count += 1;
        Ok(())
    }

    /// Takes away the block of the greatest index.
    pub(crate) fn remove_last(&mut self, last: u32)
        requires kept { IsSome (map.get self.old last) }
        requires greatest { NoneFrom self.old (last + 1) }
        ensures { self.new ≡ map.remove self.old last }
    {
        self.extents.remove_last(last as u64);
        self.count -= 1;
    }

    /// Writes the bytes into the block from the place on, where it is there, and tells whether it is.
    pub(crate) fn write(&mut self, index: u32, place: usize, bytes: &[u8]) -> bool
        requires { place + length bytes.now ≤ 4096 }
        ensures is_kept { result ≡ is_some (map.get self.old index) }
        ensures written { self.new ≡ with_kept_piece self.old index (map.get self.old index) place bytes.now }
    {
        self.extents.write(index as u64, place, bytes)
    }

    /// Makes the bytes of the block from the place on 0, where it is there.
    pub(crate) fn clear_from(&mut self, index: u32, place: usize)
        requires { place ≤ 4096 }
        ensures { self.new ≡ with_zero_tail self.old index (map.get self.old index) place }
    {
        self.extents.clear_from(index as u64, place);
    }
}
