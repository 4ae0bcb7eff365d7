//! Reading nodes, and the whole file.
ghost use Rattle.std.specs.Prelude.{◌≡◌, ◌≤◌, ◌<◌, ◌+◌, ◌^◌, [], length, IfSome, is_none};
ghost use Rattle.kernel_core.specs.ValidTree.{all_blocks, all_entries, blocks_of, entries_of};
ghost use Rattle.fs_image.specs.Reading.{last_number, breaks_number, breaks_kind, kind_at, node_at, many, reading_of};
ghost use Rattle.fs_image.specs.inside.Kinds.{code_number};
ghost use Rattle.fs_image.specs.Meaning.{GivesBy, Gives};

use crate::directories::{dir_at, link_at};
use crate::fields::{bytes_at, place, refused, u8_at, u16_at, u32_at, u64_at};
use crate::files::file_at;
use crate::kinds::KindCode;
use crate::refusal::{ImageError, ImageRule};
use kernel_core::limits::{GREATEST_MODE, GREATEST_NUMBER, NODE_LIMIT, ROOT_NUMBER};
use kernel_core::{Items, Kind, Node, Tree};
use std::alloc::Global;

/// The first eight bytes of an image.
pub(crate) const MAGIC: [u8; 8] = *b"O32IMG1\n";

fn last_number(nodes: &[Node]) -> Option<u64>
    ensures { result ≡ last_number nodes.now }
{
    nodes.last().map(|node| node.number)
}

/// Whether a number is none, or does not follow the one before.
fn breaks_number(before: Option<u64>, number: u64) -> bool
    ensures { result ≡ breaks_number before number }
{
    let follows = match before {
        Some(before) => before < number,
        None => number == ROOT_NUMBER,
    };
    !follows || number > GREATEST_NUMBER
}

/// The kind that a node's front says; none where it is unknown, or is not that of the root.
fn kind_of_front(number: u64, code: u8) -> Option<KindCode>
    ensures known { is_none result ≡ breaks_kind number code }
    ensures kind { IfSome result (λ kind. code_number kind ≡ code) }
{
    match KindCode::of_number(code) {
        Some(kind) if number != ROOT_NUMBER || matches!(kind, KindCode::Dir) => Some(kind),
        _ => None,
    }
}

/// How many blocks and entries some nodes have.
#[derive(Clone, Copy)]
struct Totals {
    blocks: u64,
    entries: u64,
}

/// What stands behind a node's front, by its kind.
fn kind_at<'a>(
    alloc: Global,
    kind: KindCode,
    totals: Totals,
    file: u64,
    rest: &'a [u8],
) -> Result<(Kind, &'a [u8]), ImageError>
    requires blocks { totals.blocks ≤ 2 ^ 32 }
    requires entries { totals.entries ≤ 2 ^ 32 }
    ensures { GivesBy (λ x. (x.0, x.1.now)) result (kind_at (code_number kind) totals.blocks totals.entries file rest.now) }
{
    match kind {
        KindCode::File => file_at(alloc, totals.blocks, file, rest),
        KindCode::Dir => dir_at(alloc, totals.entries, file, rest),
        KindCode::Link => link_at(alloc, file, rest),
    }
}

/// A node behind those before, which have so many blocks and entries.
#[tactic(auto, unfolding(crate::specs::Reading::node_at))]
fn node_at<'a>(
    alloc: Global,
    before: &[Node],
    totals: Totals,
    file: u64,
    rest: &'a [u8],
) -> Result<(Node, &'a [u8]), ImageError>
    requires blocks { totals.blocks ≡ all_blocks before.now }
    requires entries { totals.entries ≡ all_entries before.now }
    requires few_blocks { totals.blocks ≤ 2 ^ 32 }
    requires few_entries { totals.entries ≤ 2 ^ 32 }
    ensures { GivesBy (λ x. (x.0, x.1.now)) result (node_at before.now file rest.now) }
{
    let at = place(file, rest);
    let (number, rest) = u64_at(file, rest)?;
    if breaks_number(last_number(before), number) {
        return Err(refused(ImageRule::Number, at));
    }
    let at = place(file, rest);
    let (code, rest) = u8_at(file, rest)?;
    let Some(kind) = kind_of_front(number, code) else {
        return Err(refused(ImageRule::Kind, at));
    };
    let at = place(file, rest);
    let (mode, rest) = u16_at(file, rest)?;
    if mode > GREATEST_MODE {
        return Err(refused(ImageRule::Mode, at));
    }
    let (mtime, rest) = u64_at(file, rest)?;
    let (kind, rest) = kind_at(alloc, kind, totals, file, rest)?;
    let mtime = mtime.cast_signed();
    let node = Node {
        number,
        mode,
        mtime,
        kind,
    };
    Ok((node, rest))
}

/// How many blocks and entries some nodes have with one more.
fn totals_with(before: Totals, node: &Node) -> Totals
    requires blocks { before.blocks + length (blocks_of node.now.kind) < 2 ^ 64 }
    requires entries { before.entries + length (entries_of node.now.kind) < 2 ^ 64 }
    ensures blocks { result.blocks ≡ before.blocks + length (blocks_of node.now.kind) }
    ensures entries { result.entries ≡ before.entries + length (entries_of node.now.kind) }
{
    match &node.kind {
        Kind::File { blocks, .. } => Totals {
            blocks: before.blocks + blocks.as_slice().len() as u64,
            entries: before.entries,
        },
        Kind::Dir { entries } => Totals {
            blocks: before.blocks,
            entries: before.entries + entries.as_slice().len() as u64,
        },
        Kind::Link { .. } => before,
    }
}

fn nodes_at<'a>(
    alloc: Global,
    count: u32,
    file: u64,
    rest: &'a [u8],
) -> Result<(Vec<Node>, &'a [u8]), ImageError>
    ensures { GivesBy (λ x. (x.0.items, x.1.now)) result (many node_at count [] file rest.now) }
{
    let mut nodes = Vec::new(alloc);
    let mut totals = Totals {
        blocks: 0,
        entries: 0,
    };
    let mut left = rest;
    for _ in 0..count {
        let (node, after) = node_at(alloc, nodes.as_slice(), totals, file, left)?;
        totals = totals_with(totals, &node);
        nodes.push(node)?;
        left = after;
    }
    Ok((nodes, left))
}

/// The tree that a file says, or the first rule that fails as it is read.
#[tactic(auto, unfolding(crate::specs::Reading::reading_of))]
pub(crate) fn read(alloc: Global, bytes: &[u8]) -> Result<Tree, ImageError>
    ensures { Gives result (reading_of bytes.now) }
{
    let file = bytes.len() as u64;
    let (magic, rest) = bytes_at(file, MAGIC.len(), bytes)?;
    if magic != MAGIC.as_slice() {
        return Err(refused(ImageRule::Magic, 0));
    }
    let at = place(file, rest);
    let (count, rest) = u32_at(file, rest)?;
    if count == 0 || count > NODE_LIMIT {
        return Err(refused(ImageRule::Count, at));
    }
    let (nodes, rest) = nodes_at(alloc, count, file, rest)?;
    if !rest.is_empty() {
        return Err(refused(ImageRule::Rest, place(file, rest)));
    }
    Ok(Tree {
        nodes: Items::from(nodes),
    })
}
