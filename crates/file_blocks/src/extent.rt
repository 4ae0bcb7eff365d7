//! The blocks of one extent.
ghost use Rattle.std.specs.Prelude.{◌≡◌, ◌+◌, ◌≤◌, [], ◌∷◌, ◌++◌, length, slice_get, OnOk, OnErr, option_copied};
ghost use Rattle.file_blocks.specs.inside.Extents.{with_piece_at, with_zeros_at, without_last};

use paged_bytes::PageBytes;
use std::alloc::{AllocError, Global};
use std::collections::VecDeque;
use std::marker::Model;
use std::mem::swap;

/// Blocks that stand one after another, each of 4096 bytes. Contracts see the list of them.
#[derive(Drop)]
pub(crate) struct Extent {
    blocks: VecDeque<PageBytes>,
}

impl Model for Extent {
    ghost use Rattle.std.specs.Prelude.{ℕ, List};

    ghost Value = { List (List ℕ) };

    ghost view = { λ e. e.blocks.items };
}

impl Extent {
    /// An extent with no block as yet.
    pub(crate) fn new(alloc: Global) -> Extent
        ensures { result ≡ [] }
    {
        Extent {
            blocks: VecDeque::new(alloc),
        }
    }

    /// How many blocks there are.
    pub(crate) fn len(&self) -> usize
        ensures { result ≡ length self.now }
    {
        self.blocks.len()
    }

    /// The block of this number, counted from 0, where there is one.
    pub(crate) fn block(&self, number: usize) -> Option<&PageBytes>
        ensures { option_copied result ≡ slice_get self.now number }
    {
        self.blocks.get(number)
    }

    /// Writes the bytes into the block of this number from the place on, where there is one.
    pub(crate) fn write(&mut self, number: usize, place: usize, bytes: &[u8])
        requires { place + length bytes.now ≤ 4096 }
        ensures { self.new ≡ with_piece_at self.old number place bytes.now }
    {
        if let Some(block) = self.blocks.get_mut(number) {
            block.write(place, bytes);
        }
    }

    /// Makes the bytes of the block of this number from the place on 0, where there is one.
    pub(crate) fn clear_from(&mut self, number: usize, place: usize)
        requires { place ≤ 4096 }
        ensures { self.new ≡ with_zeros_at self.old number place }
    {
        if let Some(block) = self.blocks.get_mut(number) {
            block.clear_from(place);
        }
    }

    /// Takes the last block away, where there is one.
    pub(crate) fn pop(&mut self)
        ensures { self.new ≡ without_last self.old }
    {
        let _ = self.blocks.pop_back();
    }

    /// Adds a block, and then those of the extent behind it, which is empty then. After want of memory both are as they were.
    pub(crate) fn join(&mut self, block: PageBytes, behind: &mut Extent) -> Result<(), AllocError>
        ensures ok { OnOk result (self.new ≡ self.old ++ block ∷ behind.old) }
        ensures err { OnErr result (self.new ≡ self.old) }
        ensures err_behind { OnErr result (behind.new ≡ behind.old) }
    {
        self.blocks.push_back(block)?;
        if let Err(refused) = self.take_over(behind) {
            self.pop();
            return Err(refused);
        }
        Ok(())
    }

    /// Adds the blocks of the extent behind this one. The fewer of the two extents' blocks are moved.
    fn take_over(&mut self, behind: &mut Extent) -> Result<(), AllocError>
        ensures ok { OnOk result (self.new ≡ self.old ++ behind.old) }
        ensures err { OnErr result (self.new ≡ self.old) }
        ensures err_behind { OnErr result (behind.new ≡ behind.old) }
    {
        let count = self.blocks.len();
        if behind.blocks.len() <= count {
            self.blocks.append(&mut behind.blocks)?;
            return Ok(());
        }
        behind.blocks.append(&mut self.blocks)?;
        behind.blocks.rotate_right(count);
        swap(self, behind);
        Ok(())
    }
}
