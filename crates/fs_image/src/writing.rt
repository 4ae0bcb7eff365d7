//! Writing a tree as an image.
ghost use Rattle.std.specs.Prelude.{◌≡◌, ◌<◌, ◌≤◌, ◌^◌, ◌+◌, [], ◌∷◌, ◌++◌, List, ℕ, length, All, FitsSigned, OnOk, OnErr};
ghost use Rattle.std.specs.List.{flat_map};
ghost use Rattle.std.specs.Int.{w64, cast_unsigned};
ghost use Rattle.byteorder.specs.Endian.{big_bytes};
ghost use Rattle.kernel_core.specs.ValidTree.{IsValidTree, IsKind, IsEntry, IsTarget, node_limit, block_limit, entry_limit, blocks_of, entries_of};
ghost use Rattle.fs_image.specs.Text.{block_text, entry_text, kind_number, kind_text, head_text, node_text, text_of, tree_text, magic};
ghost use Rattle.fs_image.specs.Adding.{AddsPrefix};
ghost use Rattle.fs_image.specs.inside.Writing.{Adds, CanBeWritten};

use crate::kinds::KindCode;
use crate::nodes::MAGIC;
use byteorder::{BigEndian, ByteOrder};
use kernel_core::{Block, DirEntry, Kind, NoMemory, Node, Tree};

/// Adds the bytes of some pieces, one after the other.
fn put(out: &mut Vec<u8>, pieces: &[&[u8]]) -> Result<(), NoMemory>
    ensures { Adds (flat_map (λ piece. piece.now) pieces.now) result out.old.items out.new.items }
{
    for piece in pieces {
        out.extend_from_slice(piece)?;
    }
    Ok(())
}

fn put_block(out: &mut Vec<u8>, block: &Block) -> Result<(), NoMemory>
    ensures { Adds (block_text block.now) result out.old.items out.new.items }
{
    let index = block.index.to_be_bytes();
    put(out, &[index.as_slice(), block.bytes.as_slice()])
}

fn put_blocks(out: &mut Vec<u8>, blocks: &[Block]) -> Result<(), NoMemory>
    ensures { Adds (flat_map block_text blocks.now) result out.old.items out.new.items }
{
    for block in blocks {
        put_block(out, block)?;
    }
    Ok(())
}

fn put_entry(out: &mut Vec<u8>, entry: &DirEntry) -> Result<(), NoMemory>
    requires { IsEntry entry.now }
    ensures { Adds (entry_text entry.now) result out.old.items out.new.items }
{
    let cookie = entry.cookie.to_be_bytes();
    let name = entry.name.as_slice();
    let count = [name.len() as u8];
    let node = entry.node.to_be_bytes();
    put(
        out,
        &[cookie.as_slice(), count.as_slice(), name, node.as_slice()],
    )
}

fn put_entries(out: &mut Vec<u8>, entries: &[DirEntry]) -> Result<(), NoMemory>
    requires { All IsEntry entries.now }
    ensures { Adds (flat_map entry_text entries.now) result out.old.items out.new.items }
{
    for entry in entries {
        put_entry(out, entry)?;
    }
    Ok(())
}

/// The number by which a node's front tells its kind.
fn kind_number(kind: &Kind) -> u8
    ensures { result ≡ kind_number kind.now }
{
    KindCode::of(kind).number()
}

/// A time as two's complement, high byte first.
fn time_bytes(seconds: i64) -> [u8; 8]
    ensures { result ≡ big_bytes 8 (cast_unsigned w64 seconds) }
{
    let mut bytes = [0; 8];
    BigEndian::write_i64(&mut bytes, seconds);
    bytes
}

fn put_head(out: &mut Vec<u8>, node: &Node) -> Result<(), NoMemory>
    requires { FitsSigned w64 node.now.mtime }
    ensures { Adds (head_text node.now) result out.old.items out.new.items }
{
    let number = node.number.to_be_bytes();
    let kind = [kind_number(&node.kind)];
    let mode = node.mode.to_be_bytes();
    let mtime = time_bytes(node.mtime);
    put(
        out,
        &[
            number.as_slice(),
            kind.as_slice(),
            mode.as_slice(),
            mtime.as_slice(),
        ],
    )
}

fn put_size(out: &mut Vec<u8>, size: u64, count: u32) -> Result<(), NoMemory>
    ensures { Adds (big_bytes 8 size ++ big_bytes 4 count) result out.old.items out.new.items }
{
    let size = size.to_be_bytes();
    let count = count.to_be_bytes();
    put(out, &[size.as_slice(), count.as_slice()])
}

fn put_count(out: &mut Vec<u8>, count: u32) -> Result<(), NoMemory>
    ensures { Adds (big_bytes 4 count) result out.old.items out.new.items }
{
    let count = count.to_be_bytes();
    put(out, &[count.as_slice()])
}

fn put_front(out: &mut Vec<u8>, count: u32) -> Result<(), NoMemory>
    ensures { Adds (magic ++ big_bytes 4 count) result out.old.items out.new.items }
{
    let count = count.to_be_bytes();
    put(out, &[MAGIC.as_slice(), count.as_slice()])
}

fn put_file(out: &mut Vec<u8>, size: u64, blocks: &[Block]) -> Result<(), NoMemory>
    requires { length blocks.now ≤ block_limit }
    ensures { Adds (kind_text (Kind.File size blocks.now)) result out.old.items out.new.items }
{
    put_size(out, size, blocks.len() as u32)?;
    put_blocks(out, blocks)
}

fn put_dir(out: &mut Vec<u8>, entries: &[DirEntry]) -> Result<(), NoMemory>
    requires few { length entries.now ≤ entry_limit }
    requires entries { All IsEntry entries.now }
    ensures { Adds (kind_text (Kind.Dir entries.now)) result out.old.items out.new.items }
{
    put_count(out, entries.len() as u32)?;
    put_entries(out, entries)
}

fn put_link(out: &mut Vec<u8>, target: &[u8]) -> Result<(), NoMemory>
    requires { IsTarget target.now }
    ensures { Adds (kind_text (Kind.Link target.now)) result out.old.items out.new.items }
{
    let count = (target.len() as u16).to_be_bytes();
    put(out, &[count.as_slice(), target])
}

fn put_kind(out: &mut Vec<u8>, kind: &Kind) -> Result<(), NoMemory>
    requires valid { IsKind kind.now }
    requires blocks { length (blocks_of kind.now) ≤ block_limit }
    requires entries { length (entries_of kind.now) ≤ entry_limit }
    ensures { Adds (kind_text kind.now) result out.old.items out.new.items }
{
    match kind {
        Kind::File { size, blocks } => put_file(out, *size, blocks.as_slice()),
        Kind::Dir { entries } => put_dir(out, entries.as_slice()),
        Kind::Link { target } => put_link(out, target.as_slice()),
    }
}

fn put_node(out: &mut Vec<u8>, node: &Node) -> Result<(), NoMemory>
    requires { CanBeWritten node.now }
    ensures { Adds (node_text node.now) result out.old.items out.new.items }
{
    put_head(out, node)?;
    put_kind(out, &node.kind)
}

fn put_nodes(out: &mut Vec<u8>, nodes: &[Node]) -> Result<(), NoMemory>
    requires { All CanBeWritten nodes.now }
    ensures { Adds (flat_map node_text nodes.now) result out.old.items out.new.items }
{
    for node in nodes {
        put_node(out, node)?;
    }
    Ok(())
}

fn put_tree(out: &mut Vec<u8>, nodes: &[Node]) -> Result<(), NoMemory>
    requires written { All CanBeWritten nodes.now }
    requires few { length nodes.now ≤ node_limit }
    ensures { Adds (tree_text nodes.now) result out.old.items out.new.items }
{
    put_front(out, nodes.len() as u32)?;
    put_nodes(out, nodes)
}

/// Adds the one text of a valid tree to `out`. After `NoMemory` a prefix of it was added. Costs by
/// the text's length. (The format is this project's own.)
pub fn encode(tree: &Tree, out: &mut Vec<u8>) -> Result<(), NoMemory>
    requires { IsValidTree tree.now }
    ensures ok { OnOk result (out.new.items ≡ out.old.items ++ text_of tree.now) }
    ensures err { OnErr result (AddsPrefix (text_of tree.now) out.old.items out.new.items) }
{
    put_tree(out, tree.nodes.as_slice())
}
