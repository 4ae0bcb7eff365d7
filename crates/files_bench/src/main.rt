//! Writes, rewrites, reads and loads one file's content, for `bench/files.py`. The words are what is done, and how often.
#![tactic(auto)]

use anyhow::{Result, bail};
use file_blocks::Content;
use std::alloc::Global;
use std::env;

/// The bytes of a block, and how many blocks a file of 64 MiB has.
const BLOCK: u64 = 4096;

const DENSE_BLOCKS: u32 = 16_384;

/// How many places a file of 2^31 bytes has for blocks that stand alone, every fifth block of the file.
const SPARSE_PLACES: u32 = 104_857;

/// A write takes at most so many blocks anew.
const SPARE: u32 = 2;

/// Writes all the bytes from the place on.
fn write(content: &mut Content, at: u64, bytes: &[u8]) -> Result<()> {
    let end = at.saturating_add(bytes.len() as u64);
    if end > 1 << 44 || content.blocks() > u32::MAX - SPARE {
        bail!("no room");
    }
    match content.write(at, bytes, SPARE) {
        Ok(count) if count == bytes.len() => Ok(()),
        Ok(_) => bail!("a short write"),
        Err(_) => bail!("out of memory"),
    }
}

/// Appends so many pieces.
fn append(content: &mut Content, piece: &[u8], count: u32) -> Result<()> {
    for _ in 0..count {
        let at = content.size();
        write(content, at, piece)?;
    }
    Ok(())
}

/// The next of a row of numbers that looks like chance.
fn next_number(number: u32) -> u32 {
    number.wrapping_mul(1_664_525).wrapping_add(1_013_904_223)
}

/// Writes so many blocks at places that look like chance, each one of the first `places` multiples of `stride` blocks.
fn write_at_random(
    content: &mut Content,
    piece: &[u8],
    places: u32,
    stride: u32,
    count: u32,
) -> Result<()> {
    let mut number = 1;
    for _ in 0..count {
        number = next_number(number);
        let place = (u64::from(number) * u64::from(places)) >> 32;
        write(
            content,
            place
                .saturating_mul(u64::from(stride))
                .saturating_mul(BLOCK),
            piece,
        )?;
    }
    Ok(())
}

/// Writes a block at each of the first `places` multiples of `stride` blocks.
fn write_each(content: &mut Content, piece: &[u8], places: u32, stride: u32) -> Result<()> {
    for place in 0..places {
        write(
            content,
            u64::from(place) * u64::from(stride).saturating_mul(BLOCK).min(1 << 31),
            piece,
        )?;
    }
    Ok(())
}

/// Writes so many blocks, each before the one written last.
fn write_backwards(content: &mut Content, piece: &[u8], count: u32) -> Result<()> {
    for done in 0..count {
        write(content, u64::from(count - done - 1) * BLOCK, piece)?;
    }
    Ok(())
}

/// Reads so many blocks one after another, and from the beginning again after the last.
fn read(content: &Content, piece: &mut [u8], count: u32) -> Result<()> {
    for done in 0..count {
        if content.read(u64::from(done % DENSE_BLOCKS) * BLOCK, piece) != piece.len() {
            bail!("a short read");
        }
    }
    Ok(())
}

/// Loads so many blocks, as an image has them.
fn load(content: &mut Content, block: &[u8], count: u32) -> Result<()> {
    content.set_size(u64::from(count) * BLOCK);
    for index in 0..count {
        let inside = content.size() / BLOCK > u64::from(index);
        if block.len() != 4096 || !inside || content.blocks() > u32::MAX - SPARE {
            bail!("no room");
        }
        if content.load_block(index, block).is_err() {
            bail!("out of memory");
        }
    }
    Ok(())
}

/// Copies so many blocks into memory that was taken for all of them, to compare with.
fn copy(alloc: Global, block: &[u8], count: u32) -> Result<()> {
    let bytes = (count as usize).saturating_mul(block.len());
    let Ok(mut copied) = Vec::with_capacity(alloc, bytes) else {
        bail!("out of memory");
    };
    for _ in 0..count {
        if copied.extend_from_slice(block).is_err() {
            bail!("out of memory");
        }
    }
    Ok(())
}

/// Does the work so often, on an empty content, and gives it.
fn worked(alloc: Global, work: &str, count: u32) -> Result<Content> {
    let mut content = Content::new(alloc);
    let mut piece = [7u8; 4096];
    match work {
        "append" => append(&mut content, &piece, count)?,
        "bytes" => append(&mut content, &piece[..1], count)?,
        "backwards" => write_backwards(&mut content, &piece, count)?,
        "load" => load(&mut content, &piece, count)?,
        "copy" => copy(alloc, &piece, count)?,
        "holes" => write_at_random(&mut content, &piece, SPARSE_PLACES, 5, count)?,
        "dense" => {
            append(&mut content, &piece, DENSE_BLOCKS)?;
            write_at_random(&mut content, &piece, DENSE_BLOCKS, 1, count)?;
        }
        "sparse" => {
            write_each(&mut content, &piece, SPARSE_PLACES, 5)?;
            write_at_random(&mut content, &piece, SPARSE_PLACES, 5, count)?;
        }
        "read" => {
            append(&mut content, &piece, DENSE_BLOCKS)?;
            read(&content, &mut piece, count)?;
        }
        _ => bail!("no such work"),
    }
    Ok(content)
}

fn main(rt: HostRuntime) -> Result<()> {
    let mut words = env::args(&rt)?.skip(1);
    let (Some(work), Some(count)) = (words.next(), words.next()) else {
        bail!("usage: files_bench WORK COUNT");
    };
    let Ok(count) = count.parse::<u32>() else {
        bail!("the second word is no number");
    };
    let content = worked(rt.alloc(), &work, count)?;
    println!(rt; "{} bytes in {} blocks", content.size(), content.blocks())?;
    Ok(())
}
