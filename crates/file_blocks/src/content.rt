//! A regular file's content.
ghost use Rattle.std.specs.Prelude.{◌≡◌, ◌+◌, ◌<◌, ◌≤◌, ◌^◌, ℕ, length, take, IfOk, IsOk, OnOk, OnErr, IfSome, IfNone};
ghost use Rattle.std.specs.FinMap as map;
ghost use Rattle.kernel_core.specs.FileContent.{no_content, IsContent, IsBlock, kept_blocks, readable, read_into, size_with, written, longest_write, resized, greatest_size};
ghost use Rattle.file_blocks.specs.Kept.{IsFirstFrom, NoneFrom};

use crate::block_store::BlockStore;
use crate::walk::{cut, read_bytes, write_bytes, write_piece};
use kernel_core::NoMemory;
use std::alloc::Global;
use std::marker::Model;

/// The content of a regular file: its size in bytes, at most 2^44, and the blocks of 4096 bytes that it
/// keeps (inode(7)). A byte below the size of which no block is kept is 0, as in a sparse file
/// (lseek(2)). Contracts see it as a `FileContent` of `kernel_core`, for which `IsContent` holds.
#[derive(Drop)]
pub struct Content {
    size: u64,
    blocks: BlockStore,
    alloc: Global,
}

impl Model for Content {
    ghost use Rattle.std.specs.Prelude.{◌<◌, ◌^◌};
    ghost use Rattle.std.specs.FinMap as map;
    ghost use Rattle.kernel_core.specs.FileContent.{FileContent, file_content_code, IsContent};

    ghost Value = { FileContent };

    ghost coded = { file_content_code };

    ghost view = { λ c. record { size = c.size; blocks = c.blocks } };

    ghost invariant = { λ c. IsContent (record { size = c.size; blocks = c.blocks }) × (map.len c.blocks < 2 ^ 32) };
}

impl Content {
    /// A content with no byte and no block. It takes its blocks from `alloc`, and none yet.
    pub fn new(alloc: Global) -> Content
        ensures value { result ≡ no_content }
        ensures none_kept { kept_blocks result ≡ 0 }
        ensures valid { IsContent result }
    {
        Content {
            size: 0,
            blocks: BlockStore::new(alloc),
            alloc,
        }
    }

    /// The size in bytes (the `st_size` of stat(2)). It takes no memory.
    pub fn size(&self) -> u64
        ensures value { result ≡ self.now.size }
        ensures valid { IsContent self.now }
    {
        self.size
    }

    /// How many blocks of 4096 bytes are kept. (The `st_blocks` of stat(2) counts units of 512 bytes, so it
    /// is eight times that.) It takes no memory.
    pub fn blocks(&self) -> u32
        ensures value { result ≡ kept_blocks self.now }
    {
        self.blocks.len() as u32
    }

    /// Reads the bytes from `at` on into the beginning of `buf`, as many as there are before the end,
    /// and answers their number (pread(2)). The rest of `buf` stays as it was. It takes no memory.
    pub fn read(&self, at: u64, buf: &mut [u8]) -> usize
        ensures count { result ≡ readable self.now at (length buf.old) }
        ensures bytes { buf.new ≡ read_into self.now at buf.old }
    {
        let count = self.count_from(at, buf.len());
        read_bytes(&self.blocks, at, &mut buf[..count]);
        count
    }

    /// Writes the bytes from `at` on and answers how many (pwrite(2)): the longest prefix of them that
    /// takes at most `spare` blocks anew. The size rises to the end of what is written. After NoMemory a
    /// prefix of those bytes is written; it never comes where `spare` is 0. (That blocks are counted is this
    /// project's own.)
    pub fn write(&mut self, at: u64, bytes: &[u8], spare: u32) -> Result<usize, NoMemory>
        requires end { at + length bytes.now ≤ greatest_size }
        requires room { kept_blocks self.old + spare < 2 ^ 32 }
        ensures count { IfOk result (λ n. n ≡ longest_write self.old.blocks at (length bytes.now) spare) }
        ensures within { IfOk result (λ n. n ≤ length bytes.now) }
        ensures ok { IfOk result (λ n. self.new ≡ written self.old at (take n bytes.now)) }
        ensures err { OnErr result ((k : ℕ) × (k ≤ longest_write self.old.blocks at (length bytes.now) spare)
            × (self.new ≡ written self.old at (take k bytes.now))) }
        ensures enough { spare ≡ 0 → IsOk result }

        // However it ends, no more blocks were taken than were to spare.
        ensures kept { kept_blocks self.new ≤ kept_blocks self.old + spare }
        ensures valid { IsContent self.new }
    {
        match write_bytes(&mut self.blocks, self.alloc, at, bytes, spare) {
            Ok(count) => {
                self.size = size_with(self.size, at, count);
                Ok(count)
            }
            Err(interrupted) => {
                self.size = size_with(self.size, at, interrupted.count);
                Err(NoMemory)
            }
        }
    }

    /// Makes `to` the size (ftruncate(2)): bytes below both sizes stay, bytes that are added are 0, and
    /// the blocks past the end go. It takes no memory.
    pub fn set_size(&mut self, to: u64)
        requires { to ≤ greatest_size }
        ensures value { self.new ≡ resized self.old to }
        ensures fewer { kept_blocks self.new ≤ kept_blocks self.old }
        ensures valid { IsContent self.new }
    {
        cut(&mut self.blocks, to);
        self.size = to;
    }

    /// Keeps the block of 4096 bytes at the index, in place of one that is kept there, as it stands in
    /// a file tree's plain data. After NoMemory nothing changed. (This project's own.)
    pub fn load_block(&mut self, index: u32, bytes: &[u8]) -> Result<(), NoMemory>
        requires block { IsBlock self.old.size index bytes.now }
        requires room { kept_blocks self.old + 1 < 2 ^ 32 }
        ensures ok { OnOk result (self.new ≡ record self.old { blocks = map.insert self.old.blocks index bytes.now }) }
        ensures err { OnErr result (self.new ≡ self.old) }
        ensures valid { IsContent self.new }
    {
        let _ = write_piece(&mut self.blocks, self.alloc, index, 0, bytes, 1)?;
        Ok(())
    }

    /// The kept block of the least index that is not below `from`, with its index and its 4096 bytes:
    /// from 0, and then each time from one past the index before, it gives all of them by rising index.
    /// It takes no memory. (This project's own.)
    pub fn first_from(&self, from: u64) -> Option<(u32, &[u8])>
        ensures found { IfSome result (λ kept. IsFirstFrom self.now.blocks from kept.0 kept.1.now) }
        ensures is_block { IfSome result (λ kept. IsBlock self.now.size kept.0 kept.1.now) }
        ensures none { IfNone result (NoneFrom self.now.blocks from) }
        ensures valid { IsContent self.now }
    {
        let blocks = &self.blocks;
        let Ok(from) = u32::try_from(from) else {
            return None;
        };
        let (index, block) = blocks.first_from(from)?;
        Some((index, block.as_slice()))
    }

    /// How many of `count` bytes from `at` on lie before the end.
    fn count_from(&self, at: u64, count: usize) -> usize
        ensures { result ≡ readable self.now at count }
    {
        self.size.saturating_sub(at).min(count as u64) as usize
    }
}

/// The size after a write of `count` bytes at `at`.
fn size_with(size: u64, at: u64, count: usize) -> u64
    requires { at + count ≤ greatest_size }
    ensures { result ≡ size_with size at count }
{
    if count == 0 {
        size
    } else {
        size.max(at + count as u64)
    }
}
