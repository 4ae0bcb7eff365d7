//! What the soak program wrote to its file, as a file tree has it.
ghost use Rattle.std.specs.Prelude.{◌≡◌, ◌==◌, ◌/◌, ◌≤◌, find, option_map};
ghost use Rattle.kernel_core.specs.FileContent.{block_byte};
ghost use Rattle.soak_ends.specs.Written.{byte_in, entries_at, kind_at, last_word, number_in, written_as, written_at, written_by, written_in};

use kernel_core::{Block, DirEntry, Kind, Node, Tree};

/// The number of the root.
const ROOT: u64 = 1;

/// The bytes of a block.
const BLOCK_SIZE: u64 = 4096;

/// The name of the file in the root.
const NAME: &[u8] = b"s";

/// What was written to a file.
#[derive(Clone, Copy)]
pub(crate) struct Written {
    /// How many bytes it has.
    pub bytes: u64,
    /// Its last word.
    pub sum: u32,
}

/// What the node of a number is.
fn kind_at(nodes: &[Node], number: u64) -> Option<&Kind>
    ensures { option_map (λ k. k.now) result ≡ kind_at nodes.now number }
{
    nodes
        .iter()
        .find(|node| node.number == number)
        .map(|node| &node.kind)
}

/// The entries of the root.
fn root_entries(nodes: &[Node]) -> &[DirEntry]
    ensures { result.now ≡ entries_at (kind_at nodes.now 1) }
{
    match kind_at(nodes, ROOT) {
        Some(kind) => kind.entries(),
        None => &[],
    }
}

/// The node that the file's name leads to from a directory.
fn number_in(entries: &[DirEntry]) -> Option<u64>
    ensures { result ≡ number_in entries.now }
{
    entries
        .iter()
        .find(|entry| entry.name.as_slice() == NAME)
        .map(|entry| entry.node)
}

/// The bytes of the block of an index.
fn block_at(blocks: &[Block], index: u64) -> Option<&[u8]>
    ensures { option_map (λ b. b.now) result ≡ option_map (λ b. b.bytes) (find (λ b. b.index == index) blocks.now) }
{
    blocks
        .iter()
        .find(|block| u64::from(block.index) == index)
        .map(|block| block.bytes.as_slice())
}

/// The byte at a place of a block.
fn block_byte(block: Option<&[u8]>, place: usize) -> u8
    ensures { result ≡ block_byte (option_map (λ b. b.now) block.entry) place }
{
    match block {
        Some(bytes) if place < bytes.len() => bytes[place],
        Some(_) | None => 0,
    }
}

/// The byte at a place of a file with these blocks.
fn byte_in(blocks: &[Block], place: u64) -> u8
    ensures { result ≡ byte_in blocks.now place }
{
    let block = block_at(blocks, place / BLOCK_SIZE);
    block_byte(block, (place % BLOCK_SIZE) as usize)
}

/// The last four bytes of a file of so many as a number, high byte first.
fn last_word(size: u64, blocks: &[Block]) -> u32
    requires { 4 ≤ size }
    ensures { result ≡ last_word size blocks.now }
{
    u32::from_be_bytes([
        byte_in(blocks, size - 4),
        byte_in(blocks, size - 3),
        byte_in(blocks, size - 2),
        byte_in(blocks, size - 1),
    ])
}

/// What was written to a node.
fn written_as(kind: &Kind) -> Option<Written>
    ensures { result ≡ written_as kind.now }
{
    match kind {
        Kind::File { size, blocks } if *size >= 4 => Some(Written {
            bytes: *size,
            sum: last_word(*size, blocks.as_slice()),
        }),
        Kind::File { .. } | Kind::Dir { .. } | Kind::Link { .. } => None,
    }
}

/// What was written to a node, where there is one.
fn written_by(kind: Option<&Kind>) -> Option<Written>
    ensures { result ≡ written_by (option_map (λ k. k.now) kind.entry) }
{
    match kind {
        Some(kind) => written_as(kind),
        None => None,
    }
}

/// What was written to the node of a number.
fn written_at(nodes: &[Node], number: Option<u64>) -> Option<Written>
    ensures { result ≡ written_at nodes.now number }
{
    match number {
        Some(number) => written_by(kind_at(nodes, number)),
        None => None,
    }
}

/// What the file of the program has in a tree; `None` where no file of at least four bytes has its name.
pub(crate) fn written_in(tree: &Tree) -> Option<Written>
    ensures { result ≡ written_in tree.now }
{
    let nodes = tree.nodes.as_slice();
    written_at(nodes, number_in(root_entries(nodes)))
}
