//! A tree as text.

use kernel_core::{Kind, Node, Tree};
use std::alloc::{AllocError, Global};

/// A line for each node: its number, its mode, its time, and a file's size and the indexes of its blocks, a directory's entries
/// with their cookies and the numbers of their nodes, or a link's target.
pub(crate) fn tree_text(alloc: Global, tree: &Tree) -> Result<String, AllocError> {
    let mut text = String::new(alloc);
    for node in tree.nodes.as_slice() {
        push_node(alloc, &mut text, node)?;
    }
    Ok(text)
}

fn push_node(alloc: Global, text: &mut String, node: &Node) -> Result<(), AllocError> {
    text.push_str(format!(in alloc; "{} {:o} {} ", node.number, node.mode, node.mtime)?.as_str())?;
    match &node.kind {
        Kind::File { size, blocks } => {
            text.push_str(format!(in alloc; "{size}:")?.as_str())?;
            for block in blocks.as_slice() {
                text.push_str(format!(in alloc; " {}", block.index)?.as_str())?;
            }
        }
        Kind::Dir { entries } => {
            text.push_str("dir:")?;
            for entry in entries.as_slice() {
                text.push_str(format!(in alloc; " {}=", entry.cookie)?.as_str())?;
                push_bytes(text, entry.name.as_slice())?;
                text.push_str(format!(in alloc; "={}", entry.node)?.as_str())?;
            }
        }
        Kind::Link { target } => {
            text.push_str("to ")?;
            push_bytes(text, target.as_slice())?;
        }
    }
    text.push('\n')
}

fn push_bytes(text: &mut String, bytes: &[u8]) -> Result<(), AllocError> {
    for byte in bytes {
        text.push(char::from(*byte))?;
    }
    Ok(())
}
