//! File trees in words, a node on each line.
//!
//!     1 0o755 100 directory 3 a 2 5 d 3    its number, its mode, its time in seconds, and what it is: a directory, with the
//!                                          cookie, the name and the node of each entry
//!     2 0o644 100 file 5 0 hello           a file of this size, with the index of each block and its first bytes, of which the
//!                                          others are 0; `_` stands for a space
//!     7 0o777 100 link d/b                 a link with its target
use kernel_core::{Block, DirEntry, Kind, Node, Tree};
use native_scripts::Words;
use native_scripts::memory::character;
use std::alloc::Global;
use std::test::Fail;

/// Whether these are the bytes of a text.
fn has_text(bytes: &[u8], text: &str) -> bool {
    for (byte, letter) in bytes.iter().zip(text.as_bytes()) {
        if *byte != character(*letter) {
            return false;
        }
    }
    bytes.len() == text.len()
}

/// Whether a block of 4096 bytes has a text, and zeros behind it.
fn is_block(block: &[u8], text: &str) -> bool {
    match block.split_at_checked(text.len()) {
        Some((first, rest)) => {
            block.len() == 4096 && has_text(first, text) && rest.iter().all(|byte| *byte == 0)
        }
        None => false,
    }
}

fn are_blocks(blocks: &[Block], words: &mut Words) -> Result<bool, Fail> {
    for block in blocks {
        let index = words.number()?;
        let text = words.next()?;
        if u64::from(block.index) != index || !is_block(block.bytes.as_slice(), text) {
            return Ok(false);
        }
    }
    Ok(words.is_over())
}

fn are_entries(entries: &[DirEntry], words: &mut Words) -> Result<bool, Fail> {
    for entry in entries {
        let cookie = words.number()?;
        let name = words.next()?;
        let node = words.number()?;
        let is_named = entry.name.as_slice() == name.as_bytes();
        if !is_named || u64::from(entry.cookie) != cookie || entry.node != node {
            return Ok(false);
        }
    }
    Ok(words.is_over())
}

fn is_file(kind: &Kind, words: &mut Words) -> Result<bool, Fail> {
    let wanted = words.number()?;
    match kind {
        Kind::File { size, blocks } if *size == wanted => are_blocks(blocks.as_slice(), words),
        _ => Ok(false),
    }
}

fn is_directory(kind: &Kind, words: &mut Words) -> Result<bool, Fail> {
    match kind {
        Kind::Dir { entries } => are_entries(entries.as_slice(), words),
        _ => Ok(false),
    }
}

fn is_link(kind: &Kind, words: &mut Words) -> Result<bool, Fail> {
    let wanted = words.next()?;
    match kind {
        Kind::Link { target } => { Ok(target.as_slice() == wanted.as_bytes() && words.is_over()) }
        _ => Ok(false),
    }
}

fn is_node(node: &Node, words: &mut Words) -> Result<bool, Fail> {
    let number = words.number()?;
    let mode = words.number()?;
    let time = words.number()?;
    if node.number != number || u64::from(node.mode) != mode || node.mtime != time.cast_signed() {
        return Ok(false);
    }
    let kind = words.next()?;
    if kind == "file" {
        is_file(&node.kind, words)
    } else if kind == "directory" {
        is_directory(&node.kind, words)
    } else if kind == "link" {
        is_link(&node.kind, words)
    } else {
        Err(Fail::from("no kind of a node"))
    }
}

/// Whether a tree has the nodes of a text and no others.
pub(crate) fn is_tree(alloc: Global, tree: &Tree, text: &str) -> Result<bool, Fail> {
    let nodes = tree.nodes.as_slice();
    let mut place: usize = 0;
    for line in text.lines() {
        let words: Vec<&str> = line.split_whitespace().collect(alloc)?;
        if words.is_empty() {
            continue;
        }
        let node = nodes.get(place).ok_or("a node is missing")?;
        if !is_node(node, &mut Words::new(words.as_slice()))? {
            return Ok(false);
        }
        place = place.saturating_add(1);
    }
    Ok(nodes.len() == place)
}
