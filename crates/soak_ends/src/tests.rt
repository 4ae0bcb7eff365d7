//! The plan for one number, and the lines on trees.
use super::{line_on, soak_plan};
use kernel_core::{Block, Bytes, DirEntry, Items, Kind, Node, Tree};
use std::alloc::{AllocError, Global};
use std::test::Fail;

/// A node with nothing of note but its number and its kind.
fn node(number: u64, kind: Kind) -> Node {
    Node {
        number,
        mode: 0o755,
        mtime: 0,
        kind,
    }
}

/// The bytes of a block that begins with these.
fn block(alloc: Global, index: u32, begin: &[u8]) -> Result<Block, AllocError> {
    let mut bytes = begin.to_vec(alloc)?;
    bytes.resize(4096, 0)?;
    Ok(Block {
        index,
        bytes: Bytes::from(bytes),
    })
}

/// A file of this size with one block.
fn file(alloc: Global, size: u64, block: Block) -> Result<Kind, Fail> {
    let mut blocks = Vec::new(alloc);
    blocks.push(block).ok().ok_or("no memory")?;
    Ok(Kind::File {
        size,
        blocks: Items::from(blocks),
    })
}

/// A tree whose root has one entry of this name, for a node of this kind.
fn tree(alloc: Global, name: &[u8], kind: Kind) -> Result<Tree, Fail> {
    let mut entries = Vec::new(alloc);
    let entry = DirEntry {
        cookie: 3,
        name: Bytes::from(name.to_vec(alloc)?),
        node: 2,
    };
    entries.push(entry).ok().ok_or("no memory")?;
    let root = Kind::Dir {
        entries: Items::from(entries),
    };
    let mut nodes = Vec::new(alloc);
    nodes.push(node(1, root)).ok().ok_or("no memory")?;
    nodes.push(node(2, kind)).ok().ok_or("no memory")?;
    Ok(Tree {
        nodes: Items::from(nodes),
    })
}

/// The line on a tree after two numbers and 28 turns is this one.
fn has_line(alloc: Global, tree: &Tree, wanted: Option<&[u8]>) -> Result<bool, Fail> {
    let line = line_on(alloc, 2, 28, tree).ok().ok_or("no memory")?;
    Ok(match (&line, wanted) {
        (Some(line), Some(wanted)) => line.as_slice() == wanted,
        (None, None) => true,
        _ => false,
    })
}

#[test]
fn plan(rt: HostRuntime) -> Result<(), Fail> {
    let plan = soak_plan(rt.alloc(), 1).ok().ok_or("no memory")?;
    assert!(rt; plan.entry == 0x0040_0000);
    assert!(rt; plan.segments.as_slice().len() == 2);
    Ok(())
}

#[test]
fn last_word_of_the_file(rt: HostRuntime) -> Result<(), Fail> {
    let alloc = rt.alloc();
    let begin = block(alloc, 0, b"\0\0\0\x02\x3C\xA1\xBF\x7B\xFF")?;
    let tree = tree(alloc, b"s", file(alloc, 8, begin)?)?;
    assert!(rt;
        has_line(
            alloc,
            &tree,
            Some(b"soak 2: exited 0, turns 28, bytes 8, sum 3ca1bf7b\n")
        )?
    );
    Ok(())
}

#[test]
fn word_over_two_blocks(rt: HostRuntime) -> Result<(), Fail> {
    let alloc = rt.alloc();
    let second = block(alloc, 1, b"\x01\x02\x03")?;
    let tree = tree(alloc, b"s", file(alloc, 4098, second)?)?;
    assert!(rt;
        has_line(
            alloc,
            &tree,
            Some(b"soak 2: exited 0, turns 28, bytes 4098, sum 00000102\n")
        )?
    );
    Ok(())
}

#[test]
fn no_line(rt: HostRuntime) -> Result<(), Fail> {
    let alloc = rt.alloc();
    let short = tree(alloc, b"s", file(alloc, 3, block(alloc, 0, b"abc")?)?)?;
    let other = tree(alloc, b"t", file(alloc, 4, block(alloc, 0, b"abcd")?)?)?;
    let entries = Items::from(Vec::new(alloc));
    let directory = tree(alloc, b"s", Kind::Dir { entries })?;
    assert!(rt; has_line(alloc, &short, None)?);
    assert!(rt; has_line(alloc, &other, None)?);
    assert!(rt; has_line(alloc, &directory, None)?);
    Ok(())
}
