//! The steps on a file's content, which keep count of the blocks of all files.
ghost use Rattle.std.specs.Prelude.{◌≡◌, ◌+◌, ◌-◌, ◌/◌, ◌<◌, ◌≤◌, ◌==◌, ℕ, is_some, IsSome, IfSome, IfOk, OnErr, length, take};
ghost use Rattle.std.specs.FinMap.{get};
ghost use Rattle.slab.specs.Slab.{get as slab_get};
ghost use Rattle.kernel_core.specs.FileContent.{IsContent, block_size, kept_blocks, longest_write, written, resized, greatest_size};
ghost use Rattle.kernel_core.specs.NodeCalls.{modified_at, write_length};
ghost use Rattle.kernel_core.specs.Nodes.{file_at, file_in};
ghost use Rattle.kernel_core.specs.Totals.{content_blocks, live_blocks};
ghost use Rattle.kernel_core.specs.ValidTree.{block_limit};
ghost use Rattle.native_vfs.specs.inside.Steps.{IsFileStep, IsFileChange, file_written, content_written};
ghost use Rattle.native_vfs.specs.inside.Stored.{nodes_of, content_of, number_of_key};

use crate::inodes::Inodes;
use crate::stored::{Stored, StoredContent};
use file_blocks::Content;
use kernel_core::NoMemory;
use kernel_core::limits::{BLOCK_LIMIT, BLOCK_SIZE};

/// Whether a write to a file from `at` on has no block for its first byte, so that it can write none.
pub(crate) fn is_full(inodes: &Inodes, key: usize, at: u64) -> bool
    requires live { IsSome (slab_get inodes.now.table key) }
    requires file { IsSome (file_at (nodes_of inodes.now.table) (number_of_key inodes.now.table key)) }
    requires few { live_blocks (nodes_of inodes.now.table) ≤ block_limit }
    ensures { IfSome (file_at (nodes_of inodes.now.table) (number_of_key inodes.now.table key)) (λ content. (count : ℕ) → 0 < count → result ≡ (write_length (nodes_of inodes.now.table) content at count == 0)) }
{
    if inodes.blocks < BLOCK_LIMIT {
        return false;
    }
    match &inodes.table[key].content {
        StoredContent::File(content) => !keeps_block(content, at),
        _ => unreachable!(),
    }
}

/// Whether the block of the byte at `at` is kept.
fn keeps_block(content: &Content, at: u64) -> bool
    ensures { result ≡ is_some (get content.now.blocks (at / block_size)) }
{
    let index = at / (BLOCK_SIZE as u64);
    match content.first_from(index) {
        Some((first, _)) => u64::from(first) == index,
        None => false,
    }
}

/// Writes to a file the longest prefix of the bytes for which there are blocks, and answers its length.
/// Where it has a byte, the times of the last modification and change are set. After NoMemory a first
/// part of it is written, and the times are as they were.
pub(crate) fn write(
    inodes: &mut Inodes,
    key: usize,
    at: u64,
    bytes: &[u8],
    now: i128,
) -> Result<usize, NoMemory>
    requires live { IsSome (slab_get inodes.old.table key) }
    requires file { IsSome (file_at (nodes_of inodes.old.table) (number_of_key inodes.old.table key)) }
    requires end { at + length bytes.now ≤ greatest_size }
    requires few { live_blocks (nodes_of inodes.old.table) ≤ block_limit }
    ensures count { IfSome (file_at (nodes_of inodes.old.table) (number_of_key inodes.old.table key)) (λ content. IfOk result (λ n. n ≡ write_length (nodes_of inodes.old.table) content at (length bytes.now))) }
    ensures within { IfOk result (λ n. n ≤ length bytes.now) }
    ensures ok { IfOk result (λ n. IsFileStep inodes.old.table inodes.new.table key (file_written at (take n bytes.now) now)) }
    ensures err { IfSome (file_at (nodes_of inodes.old.table) (number_of_key inodes.old.table key)) (λ content. OnErr result ((k : ℕ) × (k ≤ write_length (nodes_of inodes.old.table) content at (length bytes.now))
        × IsFileStep inodes.old.table inodes.new.table key (content_written at (take k bytes.now)))) }
    ensures entries { inodes.new.entries ≡ inodes.old.entries }
{
    let node = &mut inodes.table[key];
    write_node(node, &mut inodes.blocks, at, bytes, now)
}

/// The same for the node of a file.
fn write_node(
    node: &mut Stored,
    blocks: &mut u32,
    at: u64,
    bytes: &[u8],
    now: i128,
) -> Result<usize, NoMemory>
    requires file { IsSome (file_in (content_of node.old.content)) }
    requires end { at + length bytes.now ≤ greatest_size }
    requires kept { content_blocks (content_of node.old.content) ≤ blocks.old }
    requires few { blocks.old ≤ block_limit }
    ensures count { IfSome (file_in (content_of node.old.content)) (λ content. IfOk result (λ n. n ≡ longest_write content.blocks at (length bytes.now) (block_limit - blocks.old))) }
    ensures within { IfOk result (λ n. n ≤ length bytes.now) }
    ensures number { node.new.number ≡ node.old.number }
    ensures ok { IfOk result (λ n. IsFileChange node.old node.new (file_written at (take n bytes.now) now)) }
    ensures err { IfSome (file_in (content_of node.old.content)) (λ content. OnErr result ((k : ℕ) × (k ≤ longest_write content.blocks at (length bytes.now) (block_limit - blocks.old))
        × IsFileChange node.old node.new (content_written at (take k bytes.now)))) }
    ensures counted { blocks.new + content_blocks (content_of node.old.content) ≡ blocks.old + content_blocks (content_of node.new.content) }
    ensures few { blocks.new ≤ block_limit }
{
    let StoredContent::File(content) = &mut node.content else {
        unreachable!()
    };
    let count = write_counted(content, blocks, at, bytes)?;
    if count > 0 {
        node.modified = now;
        node.changed = now;
    }
    Ok(count)
}

/// Writes to a file's content, and counts the blocks.
fn write_counted(
    content: &mut Content,
    blocks: &mut u32,
    at: u64,
    bytes: &[u8],
) -> Result<usize, NoMemory>
    requires end { at + length bytes.now ≤ greatest_size }
    requires kept { kept_blocks content.old ≤ blocks.old }
    requires few { blocks.old ≤ block_limit }
    ensures count { IfOk result (λ n. n ≡ longest_write content.old.blocks at (length bytes.now) (block_limit - blocks.old)) }
    ensures within { IfOk result (λ n. n ≤ length bytes.now) }
    ensures ok { IfOk result (λ n. content.new ≡ written content.old at (take n bytes.now)) }
    ensures err { OnErr result ((k : ℕ) × (k ≤ longest_write content.old.blocks at (length bytes.now) (block_limit - blocks.old))
        × (content.new ≡ written content.old at (take k bytes.now))) }
    ensures counted { blocks.new + kept_blocks content.old ≡ blocks.old + kept_blocks content.new }
    ensures few { blocks.new ≤ block_limit }
    ensures valid { IsContent content.new }
{
    let others = *blocks - content.blocks();
    let answer = content.write(at, bytes, BLOCK_LIMIT - *blocks);
    *blocks = others + content.blocks();
    answer
}

/// Gives a file another size, and sets the times of its last modification and change.
pub(crate) fn set_size(inodes: &mut Inodes, key: usize, to: u64, now: i128)
    requires live { IsSome (slab_get inodes.old.table key) }
    requires file { IsSome (file_at (nodes_of inodes.old.table) (number_of_key inodes.old.table key)) }
    requires small { to ≤ greatest_size }
    requires few { live_blocks (nodes_of inodes.old.table) ≤ block_limit }
    ensures step { IsFileStep inodes.old.table inodes.new.table key (modified_at now (λ content. resized content to)) }
    ensures entries { inodes.new.entries ≡ inodes.old.entries }
{
    let node = &mut inodes.table[key];
    resize_node(node, &mut inodes.blocks, to, now);
}

/// The same for the node of a file.
fn resize_node(node: &mut Stored, blocks: &mut u32, to: u64, now: i128)
    requires file { IsSome (file_in (content_of node.old.content)) }
    requires small { to ≤ greatest_size }
    requires kept { content_blocks (content_of node.old.content) ≤ blocks.old }
    ensures resized { IsFileChange node.old node.new (modified_at now (λ content. resized content to)) }
    ensures counted { blocks.new + content_blocks (content_of node.old.content) ≡ blocks.old + content_blocks (content_of node.new.content) }
    ensures fewer { blocks.new ≤ blocks.old }
{
    let StoredContent::File(content) = &mut node.content else {
        unreachable!()
    };
    resize_counted(content, blocks, to);
    node.modified = now;
    node.changed = now;
}

/// Gives a file's content another size, and counts the blocks.
fn resize_counted(content: &mut Content, blocks: &mut u32, to: u64)
    requires small { to ≤ greatest_size }
    requires kept { kept_blocks content.old ≤ blocks.old }
    ensures resized { content.new ≡ resized content.old to }
    ensures counted { blocks.new + kept_blocks content.old ≡ blocks.old + kept_blocks content.new }
    ensures fewer { blocks.new ≤ blocks.old }
    ensures valid { IsContent content.new }
{
    let others = *blocks - content.blocks();
    content.set_size(to);
    *blocks = others + content.blocks();
}
