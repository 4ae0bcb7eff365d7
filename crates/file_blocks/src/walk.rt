//! Reads and writes of a file's bytes, a block at a time, and what is cut off.
ghost use Rattle.std.specs.Prelude.{◌≡◌, ◌+◌, ◌*◌, ◌<◌, ◌≤◌, ◌/◌, ◌%◌, ◌^◌, length, take, nat_lt, IfOk, IsOk, OnErr, IfErr};
ghost use Rattle.std.specs.FinMap as map;
ghost use Rattle.kernel_core.specs.FileContent.{bytes_at, with_bytes, longest_write, cut, block_size, greatest_size};
ghost use Rattle.file_blocks.specs.inside.Pieces.{WritesPiece};

use crate::block_store::BlockStore;
use kernel_core::limits::BLOCK_SIZE;
use paged_bytes::{PageBytes, count_in_page, place_in_page};
use std::alloc::{AllocError, Global};

/// A write that want of memory ended: so many bytes were written before.
#[derive(Clone, Copy)]
pub(crate) struct Interrupted {
    pub(crate) count: usize,
}

/// The index of the block in which a byte of the file lies.
pub(crate) fn index_of(at: u64) -> u32
    requires { at < greatest_size }
    ensures { result ≡ at / 4096 }
{
    (at / BLOCK_SIZE as u64) as u32
}

/// Reads a piece of bytes that lies in one block.
fn read_piece(blocks: &BlockStore, at: u64, piece: &mut [u8])
    requires within { at < greatest_size }
    requires room { at % 4096 + length piece.old ≤ 4096 }
    ensures { piece.new ≡ bytes_at blocks.now at (length piece.old) }
{
    match blocks.block(index_of(at)) {
        Some(block) => block.read(place_in_page(at), piece),
        None => piece.fill(0),
    }
}

/// Reads the bytes from `at` on.
pub(crate) fn read_bytes(blocks: &BlockStore, at: u64, buf: &mut [u8])
    requires { 0 < length buf.old → at + length buf.old ≤ greatest_size }
    ensures { buf.new ≡ bytes_at blocks.now at (length buf.old) }
{
    let mut done = 0;
    while done < buf.len() {
        let from = at + done as u64;
        let size = count_in_page(from, buf.len() - done);
        read_piece(blocks, from, &mut buf[done..done + size]);
        done += size;
    }
}

/// Writes a piece into one block, which is taken anew where it is not kept and `spare` is not 0. It
/// answers how many blocks may still be taken, or None where this one may not.
pub(crate) fn write_piece(
    blocks: &mut BlockStore,
    alloc: Global,
    index: u32,
    place: usize,
    piece: &[u8],
    spare: u32,
) -> Result<Option<u32>, AllocError>
    requires { place + length piece.now ≤ 4096 }
    ensures ok { IfOk result (λ left. WritesPiece left blocks.old blocks.new index place piece.now spare) }
    ensures err { OnErr result (blocks.new ≡ blocks.old) }
    ensures enough { spare ≡ 0 → IsOk result }
{
    if blocks.write(index, place, piece) {
        return Ok(Some(spare));
    }
    if spare == 0 {
        return Ok(None);
    }
    let mut block = PageBytes::zeros(alloc)?;
    block.write(place, piece);
    blocks.insert(index, block)?;
    Ok(Some(spare - 1))
}

/// Writes the longest prefix of the bytes that takes at most `spare` blocks anew, from `at` on, and
/// answers its length.
pub(crate) fn write_bytes(
    blocks: &mut BlockStore,
    alloc: Global,
    at: u64,
    bytes: &[u8],
    spare: u32,
) -> Result<usize, Interrupted>
    requires { at + length bytes.now ≤ greatest_size }
    ensures count { IfOk result (λ n. n ≡ longest_write blocks.old at (length bytes.now) spare) }
    ensures within { IfOk result (λ n. n ≤ length bytes.now) }
    ensures ok { IfOk result (λ n. blocks.new ≡ with_bytes blocks.old at (take n bytes.now)) }
    ensures part { IfErr result (λ e. e.count ≤ longest_write blocks.old at (length bytes.now) spare) }
    ensures err_within { IfErr result (λ e. e.count ≤ length bytes.now) }
    ensures err { IfErr result (λ e. blocks.new ≡ with_bytes blocks.old at (take e.count bytes.now)) }
    ensures kept { map.len blocks.new ≤ map.len blocks.old + spare }
    ensures enough { spare ≡ 0 → IsOk result }
{
    let mut left = spare;
    let mut done = 0;
    while done < bytes.len() {
        let from = at + done as u64;
        let size = count_in_page(from, bytes.len() - done);
        let piece = &bytes[done..done + size];
        match write_piece(
            blocks,
            alloc,
            index_of(from),
            place_in_page(from),
            piece,
            left,
        ) {
            Ok(Some(rest)) => left = rest,
            Ok(None) => return Ok(done),
            Err(_) => return Err(Interrupted { count: done }),
        }
        done += size;
    }
    Ok(done)
}

/// Takes away the blocks that do not begin below `size`.
fn remove_past(blocks: &mut BlockStore, size: u64)
    ensures value { blocks.new ≡ map.retain_keys blocks.old (λ index. nat_lt (index * block_size) size) }
    ensures fewer { map.len blocks.new ≤ map.len blocks.old }
{
    while let Some(last) = blocks.last_index() {
        if u64::from(last) * (BLOCK_SIZE as u64) < size {
            return;
        }
        blocks.remove_last(last);
    }
}

/// Takes away the blocks past the size, and makes the bytes past it 0.
pub(crate) fn cut(blocks: &mut BlockStore, size: u64)
    requires { size ≤ greatest_size }
    ensures value { blocks.new ≡ cut blocks.old size }
    ensures fewer { map.len blocks.new ≤ map.len blocks.old }
{
    remove_past(blocks, size);
    let place = place_in_page(size);
    if place > 0 {
        blocks.clear_from(index_of(size), place);
    }
}
