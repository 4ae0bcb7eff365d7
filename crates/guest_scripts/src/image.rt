//! The images that programs run over, byte by byte as `docs/RULES.md` has them.
//!
//! A tree is the number of its nodes, and each node its number, its kind, its mode and when it was modified, in seconds; then of a
//! directory the number of its entries, and of each its cookie, its name and its node; of a file its size and what it begins with,
//! or `-`; and of a link its text.
use crate::reading::Words;
use std::alloc::{AllocError, Global};
use std::test::Fail;

/// The tree of one empty root directory, of mode 0755 and time 0.
pub const EMPTY_ROOT: &str = "1
    1 directory 0o755 0 0
";

/// The tree of a root directory of mode 0700 whose entry `f`, of cookie 3, is the empty file 2 of mode 0644; both have the time 1.
pub const ONE_FILE: &str = "2
    1 directory 0o700 1 1 3 f 2
    2 file 0o644 1 0 -
";

/// The tree of most programs: two files and an empty one in a directory `d`, links, a file whose number takes more than 32 bits, and
/// one of 2^31 bytes.
pub const TREE: &str = "9
    1 directory 0o755 1 6 3 d 2 4 f 3 5 l 4 6 o 5 7 big 6 8 wide 0x100000001
    2 directory 0o755 1 2 3 a 7 4 bb 8
    3 file 0o644 1 5 hello
    4 link 0o777 1 f
    5 link 0o777 1 o
    6 file 0o644 1 0x80000000 -
    7 file 0o600 1 0 -
    8 file 0o600 1 0 -
    0x100000001 file 0o644 1 0 -
";

const BLOCK: usize = 4096;

/// The low four bytes of a number.
fn push_word(image: &mut Vec<u8>, number: u64) -> Result<(), AllocError> {
    image.extend_from_slice(&((number % 0x1_0000_0000) as u32).to_be_bytes())
}

/// The low two bytes of a number.
fn push_half(image: &mut Vec<u8>, number: u64) -> Result<(), AllocError> {
    image.extend_from_slice(&((number % 0x1_0000) as u16).to_be_bytes())
}

/// One block, with zeros behind the text.
fn push_block(image: &mut Vec<u8>, text: &str) -> Result<(), AllocError> {
    image.extend_from_slice(&[0, 0, 0, 1, 0, 0, 0, 0])?;
    let end = image.len().saturating_add(BLOCK);
    image.extend_from_slice(text.as_bytes())?;
    image.resize(end, 0)
}

fn push_file(image: &mut Vec<u8>, words: &mut Words) -> Result<(), Fail> {
    let size = words.number()?;
    let text = words.next()?;
    image.extend_from_slice(&size.to_be_bytes())?;
    if text == "-" {
        push_word(image, 0)?;
    } else {
        push_block(image, text)?;
    }
    Ok(())
}

fn push_named(image: &mut Vec<u8>, cookie: u64, name: &str, node: u64) -> Result<(), AllocError> {
    push_word(image, cookie)?;
    image.push((name.len() % 256) as u8)?;
    image.extend_from_slice(name.as_bytes())?;
    image.extend_from_slice(&node.to_be_bytes())
}

fn push_entry(image: &mut Vec<u8>, words: &mut Words) -> Result<(), Fail> {
    let cookie = words.number()?;
    let name = words.next()?;
    let node = words.number()?;
    push_named(image, cookie, name, node)?;
    Ok(())
}

fn push_directory(image: &mut Vec<u8>, words: &mut Words) -> Result<(), Fail> {
    let count = words.number()?;
    push_word(image, count)?;
    for _ in 0..count {
        push_entry(image, words)?;
    }
    Ok(())
}

fn push_link(image: &mut Vec<u8>, words: &mut Words) -> Result<(), Fail> {
    let target = words.next()?;
    push_half(image, target.len() as u64)?;
    image.extend_from_slice(target.as_bytes())?;
    Ok(())
}

/// The number of a kind.
fn kind_of(word: &str) -> u8 {
    if word == "file" {
        1
    } else if word == "directory" {
        2
    } else {
        3
    }
}

/// What each node begins with.
fn push_head(
    image: &mut Vec<u8>,
    number: u64,
    kind: u8,
    mode: u64,
    modified: u64,
) -> Result<(), AllocError> {
    image.extend_from_slice(&number.to_be_bytes())?;
    image.push(kind)?;
    push_half(image, mode)?;
    image.extend_from_slice(&modified.to_be_bytes())
}

fn push_node(image: &mut Vec<u8>, words: &mut Words) -> Result<(), Fail> {
    let number = words.number()?;
    let kind = kind_of(words.next()?);
    let mode = words.number()?;
    let modified = words.number()?;
    push_head(image, number, kind, mode, modified)?;
    match kind {
        1 => push_file(image, words),
        2 => push_directory(image, words),
        _ => push_link(image, words),
    }
}

/// The number of nodes, and each node.
fn push_nodes(image: &mut Vec<u8>, words: &mut Words) -> Result<(), Fail> {
    let count = words.number()?;
    push_word(image, count)?;
    for _ in 0..count {
        push_node(image, words)?;
    }
    Ok(())
}

/// Puts the nodes of a tree behind what each image begins with.
fn push_tree(alloc: Global, image: &mut Vec<u8>, tree: &str) -> Result<(), Fail> {
    let items: Vec<&str> = tree.split_whitespace().collect(alloc)?;
    push_nodes(image, &mut Words::new(items.as_slice()))
}

/// The image of a tree.
pub fn image_of(alloc: Global, tree: &str) -> Result<Vec<u8>, Fail> {
    let mut image = Vec::from_slice(alloc, b"O32IMG1\n")?;
    push_tree(alloc, &mut image, tree)?;
    Ok(image)
}
