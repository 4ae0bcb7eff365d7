//! Reading a file: its size, and the blocks that it keeps.
ghost use Rattle.std.specs.Prelude.{◌≡◌, ◌≤◌, ◌+◌, ◌^◌, ◌<◌, ◌==◌, not, []};
ghost use Rattle.std.specs.List.{list_any};
ghost use Rattle.fs_image.specs.Reading.{last_index, breaks_index, breaks_tail, block_at, many, file_at};
ghost use Rattle.fs_image.specs.Meaning.{GivesBy};

use crate::fields::{bytes_at, place, refused, rises, u32_at, u64_at};
use crate::refusal::{ImageError, ImageRule};
use kernel_core::limits::{BLOCK_LIMIT, BLOCK_SIZE, GREATEST_SIZE};
use kernel_core::{Block, Bytes, Items, Kind};
use std::alloc::Global;

fn last_index(blocks: &[Block]) -> Option<u32>
    ensures { result ≡ last_index blocks.now }
{
    blocks.last().map(|block| block.index)
}

/// Whether a block's index does not rise, or is not below the file's size.
fn breaks_index(size: u64, before: Option<u32>, index: u32) -> bool
    ensures { result ≡ breaks_index size before index }
{
    !rises(before, index) || u64::from(index) * (BLOCK_SIZE as u64) >= size
}

/// Whether a byte is not 0.
fn has_set_byte(bytes: &[u8]) -> bool
    ensures { result ≡ list_any (λ byte. not (byte == 0)) bytes.now }
{
    bytes.iter().any(|byte| *byte != 0)
}

/// Whether a block has a byte past the file's size that is not 0.
fn breaks_tail(size: u64, index: u32, bytes: &[u8]) -> bool
    ensures { result ≡ breaks_tail size index bytes.now }
{
    let kept = size.saturating_sub(u64::from(index) * (BLOCK_SIZE as u64));
    let kept = kept.min(bytes.len() as u64) as usize;
    has_set_byte(&bytes[kept..])
}

/// A block behind those before.
#[tactic(auto, unfolding(crate::specs::Reading::block_at))]
fn block_at<'a>(
    alloc: Global,
    size: u64,
    before: &[Block],
    file: u64,
    rest: &'a [u8],
) -> Result<(Block, &'a [u8]), ImageError>
    ensures { GivesBy (λ x. (x.0, x.1.now)) result (block_at size before.now file rest.now) }
{
    let at = place(file, rest);
    let (index, rest) = u32_at(file, rest)?;
    if breaks_index(size, last_index(before), index) {
        return Err(refused(ImageRule::Size, at));
    }
    let at = place(file, rest);
    let (bytes, rest) = bytes_at(file, BLOCK_SIZE, rest)?;
    if breaks_tail(size, index, bytes) {
        return Err(refused(ImageRule::Tail, at));
    }
    let bytes = Bytes::from(Vec::from_slice(alloc, bytes)?);
    Ok((Block { index, bytes }, rest))
}

fn blocks_at<'a>(
    alloc: Global,
    count: u32,
    size: u64,
    file: u64,
    rest: &'a [u8],
) -> Result<(Vec<Block>, &'a [u8]), ImageError>
    ensures { GivesBy (λ x. (x.0.items, x.1.now)) result (many (block_at size) count [] file rest.now) }
{
    let mut blocks = Vec::new(alloc);
    let mut left = rest;
    for _ in 0..count {
        let (block, after) = block_at(alloc, size, blocks.as_slice(), file, left)?;
        blocks.push(block)?;
        left = after;
    }
    Ok((blocks, left))
}

/// What stands behind the front of a file. `blocks` is the number of blocks of the files before.
#[tactic(auto, unfolding(crate::specs::Reading::file_at))]
pub(crate) fn file_at<'a>(
    alloc: Global,
    blocks: u64,
    file: u64,
    rest: &'a [u8],
) -> Result<(Kind, &'a [u8]), ImageError>
    requires { blocks ≤ 2 ^ 32 }
    ensures { GivesBy (λ x. (x.0, x.1.now)) result (file_at blocks file rest.now) }
{
    let at = place(file, rest);
    let (size, rest) = u64_at(file, rest)?;
    if size > GREATEST_SIZE {
        return Err(refused(ImageRule::Size, at));
    }
    let at = place(file, rest);
    let (count, rest) = u32_at(file, rest)?;
    if blocks + u64::from(count) > u64::from(BLOCK_LIMIT) {
        return Err(refused(ImageRule::Limit, at));
    }
    let (kept, rest) = blocks_at(alloc, count, size, file, rest)?;
    let blocks = Items::from(kept);
    Ok((Kind::File { size, blocks }, rest))
}
