//! Small images: what each rule refuses and where, and what is read and written.
ghost use Rattle.kernel_core.specs.ValidTree.{IsValidTree};

use fs_image::{ImageError, ImageRefusal, ImageRule, decode, encode};
use kernel_core::{Kind, Node, Tree};
use std::alloc::{AllocError, Global};
use std::process::Abort;
use std::test::Fail;

/// The kind of a file in the front of a node.
const FILE: u8 = 1;

/// The kind of a directory in the front of a node.
const DIR: u8 = 2;

/// The kind of a link in the front of a node.
const LINK: u8 = 3;

/// The front of a node: its number, kind, mode and time.
fn front(
    out: &mut Vec<u8>,
    number: u64,
    kind: u8,
    mode: u16,
    mtime: i64,
) -> Result<(), AllocError> {
    out.extend_from_slice(&number.to_be_bytes())?;
    out.push(kind)?;
    out.extend_from_slice(&mode.to_be_bytes())?;
    out.extend_from_slice(&mtime.to_be_bytes())?;
    Ok(())
}

/// A count of nodes, blocks or entries.
fn count(out: &mut Vec<u8>, count: u32) -> Result<(), AllocError> {
    out.extend_from_slice(&count.to_be_bytes())?;
    Ok(())
}

/// An entry with a name of one byte.
fn entry(out: &mut Vec<u8>, cookie: u32, name: u8, node: u64) -> Result<(), AllocError> {
    out.extend_from_slice(&cookie.to_be_bytes())?;
    out.extend_from_slice(&[1, name])?;
    out.extend_from_slice(&node.to_be_bytes())?;
    Ok(())
}

/// The file 2, of two blocks and three bytes, which keeps its third block alone.
fn file(out: &mut Vec<u8>) -> Result<(), AllocError> {
    front(out, 2, FILE, 0o644, 5)?;
    out.extend_from_slice(&8195_u64.to_be_bytes())?;
    count(out, 1)?;
    out.extend_from_slice(&2_u32.to_be_bytes())?;
    out.extend_from_slice(&[6, 7, 8])?;
    for _ in 3..4096 {
        out.push(0)?;
    }
    Ok(())
}

/// The image of an empty root.
fn empty_root(alloc: Global) -> Result<Vec<u8>, AllocError> {
    let mut out = Vec::from_slice(alloc, b"O32IMG1\n".as_slice())?;
    count(&mut out, 1)?;
    front(&mut out, 1, DIR, 0o755, 0)?;
    count(&mut out, 0)?;
    Ok(out)
}

/// The nodes of [`image`].
fn nodes(out: &mut Vec<u8>) -> Result<(), AllocError> {
    count(out, 4)?;
    front(out, 1, DIR, 0o755, -1)?;
    count(out, 3)?;
    entry(out, 3, b'a', 2)?;
    entry(out, 4, b'b', 2)?;
    entry(out, 9, b'd', 3)?;
    file(out)?;
    front(out, 3, DIR, 0o700, 7)?;
    count(out, 1)?;
    entry(out, 3, b'l', 4)?;
    front(out, 4, LINK, 0o777, 8)?;
    out.extend_from_slice(&[0, 1, b'x'])?;
    Ok(())
}

/// A root at 12 with `a` and `b`, both the file 2, and the directory 3 as `d`, with entries at 35,
/// 49 and 63; the file at 77, of 8195 bytes of which the third block is kept, at 108; the directory
/// at 4208 with `l` at 4231, the link 4; and the link at 4245, to `x`. 4267 bytes.
fn image(alloc: Global) -> Result<Vec<u8>, AllocError> {
    let mut out = Vec::from_slice(alloc, b"O32IMG1\n".as_slice())?;
    nodes(&mut out)?;
    Ok(out)
}

/// The refusal of some bytes, and None where they are accepted.
fn refusal_of(alloc: Global, bytes: &[u8]) -> Result<Option<ImageRefusal>, Fail> {
    match decode(alloc, bytes) {
        Ok(_) => Ok(None),
        Err(ImageError::Refused(refusal)) => Ok(Some(refusal)),
        Err(ImageError::NoMemory) => Err(Fail::from("out of memory")),
    }
}

/// The refusal by a rule at an offset.
fn refused(rule: ImageRule, at: u64) -> Option<ImageRefusal> {
    Some(ImageRefusal {
        rule: rule.number(),
        at,
    })
}

/// Bytes of [`image`] that are changed, by their places; the rule that fails then, and its offset.
type Row<'a> = (&'a [(usize, u8)], ImageRule, u64);

/// The image with some bytes changed.
fn changed(alloc: Global, changes: &[(usize, u8)]) -> Result<Vec<u8>, AllocError> {
    let mut bytes = image(alloc)?;
    for (place, value) in changes {
        if let Some(byte) = bytes.as_mut_slice().get_mut(*place) {
            *byte = *value;
        }
    }
    Ok(bytes)
}

/// The first row that does not come out as it says, counted from 0.
fn first_wrong(alloc: Global, rows: &[Row<'_>]) -> Result<Option<usize>, Fail> {
    for (row, (changes, rule, at)) in rows.iter().enumerate() {
        let bytes = changed(alloc, changes)?;
        if refusal_of(alloc, bytes.as_slice())? != refused(*rule, *at) {
            return Ok(Some(row));
        }
    }
    Ok(None)
}

#[test]
fn rules_have_the_numbers_1_to_14(rt: HostRuntime) -> Result<(), Fail> {
    let rules = [
        ImageRule::Short,
        ImageRule::Magic,
        ImageRule::Count,
        ImageRule::Number,
        ImageRule::Kind,
        ImageRule::Mode,
        ImageRule::Size,
        ImageRule::Tail,
        ImageRule::Cookie,
        ImageRule::Name,
        ImageRule::Target,
        ImageRule::Tree,
        ImageRule::Limit,
        ImageRule::Rest,
    ];
    for (rule, number) in rules.into_iter().zip(1..=14) {
        assert_eq!(rt; rule.number(), number);
    }
    Ok(())
}

#[test]
fn refuses_fronts(rt: HostRuntime) -> Result<(), Fail> {
    let rows: [Row; 10] = [
        (&[(0, b'o')], ImageRule::Magic, 0),
        // No node, and 131,076 nodes.
        (&[(11, 0)], ImageRule::Count, 8),
        (&[(9, 2)], ImageRule::Count, 8),
        // Not 1 at first, equal to the one before, above 2^63 - 1.
        (&[(19, 2)], ImageRule::Number, 12),
        (&[(84, 1)], ImageRule::Number, 77),
        (&[(77, 0x80)], ImageRule::Number, 77),
        // The root a file, and kinds that are unknown.
        (&[(20, 1)], ImageRule::Kind, 20),
        (&[(85, 0)], ImageRule::Kind, 85),
        (&[(85, 4)], ImageRule::Kind, 85),
        // A bit above the twelve.
        (&[(21, 0x10)], ImageRule::Mode, 21),
    ];
    assert_eq!(rt; first_wrong(rt.alloc(), &rows)?, None);
    Ok(())
}

#[test]
fn refuses_files(rt: HostRuntime) -> Result<(), Fail> {
    let rows: [Row; 6] = [
        // The size, an index past it, and a size at which the index is.
        (&[(98, 0x20)], ImageRule::Size, 96),
        (&[(111, 3)], ImageRule::Size, 108),
        (&[(103, 0)], ImageRule::Size, 108),
        // The first byte past the size, also where that is one less.
        (&[(115, 1)], ImageRule::Tail, 112),
        (&[(114, 1), (103, 2)], ImageRule::Tail, 112),
        // 131,073 blocks.
        (&[(105, 2)], ImageRule::Limit, 104),
    ];
    assert_eq!(rt; first_wrong(rt.alloc(), &rows)?, None);
    Ok(())
}

#[test]
fn refuses_directories_and_links(rt: HostRuntime) -> Result<(), Fail> {
    let rows: [Row; 13] = [
        // Below 3, equal to the one before, above 2^31 - 1.
        (&[(38, 2)], ImageRule::Cookie, 35),
        (&[(52, 3)], ImageRule::Cookie, 49),
        (&[(35, 0x80)], ImageRule::Cookie, 35),
        (&[(39, 0)], ImageRule::Name, 39),
        (&[(40, b'/')], ImageRule::Name, 40),
        (&[(40, 0)], ImageRule::Name, 40),
        (&[(40, b'.')], ImageRule::Name, 40),
        // A name twice stands at the second.
        (&[(54, b'a')], ImageRule::Name, 54),
        // A target of no byte, of 4097 bytes, and with NUL.
        (&[(4265, 0)], ImageRule::Name, 4264),
        (&[(4264, 0x10)], ImageRule::Name, 4264),
        (&[(4266, 0)], ImageRule::Name, 4266),
        // 196,611 entries in the root, and 131,073 in the other directory.
        (&[(32, 3)], ImageRule::Limit, 31),
        (&[(4228, 2)], ImageRule::Limit, 4227),
    ];
    assert_eq!(rt; first_wrong(rt.alloc(), &rows)?, None);
    Ok(())
}

#[test]
fn refuses_trees(rt: HostRuntime) -> Result<(), Fail> {
    let rows: [Row; 7] = [
        // There is no node 9.
        (&[(48, 9)], ImageRule::Target, 35),
        (&[(4244, 9)], ImageRule::Target, 4231),
        // The root named, a directory named twice and not at all, a link not named, and a directory
        // that names itself alone.
        (&[(48, 1)], ImageRule::Tree, 12),
        (&[(48, 3)], ImageRule::Tree, 4208),
        (&[(76, 2)], ImageRule::Tree, 4208),
        (&[(4244, 2)], ImageRule::Tree, 4245),
        (&[(76, 2), (4244, 3)], ImageRule::Tree, 4208),
    ];
    assert_eq!(rt; first_wrong(rt.alloc(), &rows)?, None);
    Ok(())
}

#[test]
fn looks_at_the_rules_in_order(rt: HostRuntime) -> Result<(), Fail> {
    let rows: [Row; 2] = [
        // A limit is met in reading, before the nodes of entries.
        (&[(4228, 2), (48, 9)], ImageRule::Limit, 4227),
        // The nodes of entries come before the names of nodes.
        (&[(48, 1), (4244, 9)], ImageRule::Target, 4231),
    ];
    assert_eq!(rt; first_wrong(rt.alloc(), &rows)?, None);
    Ok(())
}

#[test]
fn accepts_what_breaks_no_rule(rt: HostRuntime) -> Result<(), Fail> {
    let alloc = rt.alloc();
    let bytes = image(alloc)?;
    assert_eq!(rt; bytes.len(), 4267);
    assert_eq!(rt; refusal_of(alloc, bytes.as_slice())?, None);
    let bytes = empty_root(alloc)?;
    assert_eq!(rt; bytes.len(), 35);
    assert_eq!(rt; refusal_of(alloc, bytes.as_slice())?, None);
    Ok(())
}

#[test]
fn refuses_bytes_that_follow(rt: HostRuntime) -> Result<(), Fail> {
    let alloc = rt.alloc();
    let mut bytes = empty_root(alloc)?;
    bytes.push(0)?;
    assert_eq!(rt;
        refusal_of(alloc, bytes.as_slice())?,
        refused(ImageRule::Rest, 35)
    );
    Ok(())
}

#[test]
fn a_short_file_is_short_before_it_is_of_another_format(rt: HostRuntime) -> Result<(), Fail> {
    let alloc = rt.alloc();
    let short = refusal_of(alloc, b"O32IMG2".as_slice())?;
    assert_eq!(rt; short, refused(ImageRule::Short, 7));
    let other = refusal_of(alloc, b"O32IMG2\n".as_slice())?;
    assert_eq!(rt; other, refused(ImageRule::Magic, 0));
    Ok(())
}

#[test]
fn cut_anywhere_it_is_short(rt: HostRuntime) -> Result<(), Fail> {
    let alloc = rt.alloc();
    let bytes = image(alloc)?;
    for length in 0..bytes.len() {
        let cut = bytes.get(..length).ok_or("length")?;
        assert_eq!(rt;
            refusal_of(alloc, cut)?,
            refused(ImageRule::Short, length as u64)
        );
    }
    Ok(())
}

/// What a node holds, in numbers; 0 for a block or an entry that is not there.
#[derive(Clone, Copy, Debug, PartialEq, Eq)]
enum Content {
    File {
        size: u64,
        blocks: usize,
        first_index: u32,
    },
    Dir {
        entries: usize,
        last_cookie: u32,
        last_node: u64,
    },
    Link {
        target_len: usize,
    },
}

fn content_of(kind: &Kind) -> Content {
    match kind {
        Kind::File { size, blocks } => Content::File {
            size: *size,
            blocks: blocks.as_slice().len(),
            first_index: blocks.as_slice().first().map_or(0, |block| block.index),
        },
        Kind::Dir { entries } => Content::Dir {
            entries: entries.as_slice().len(),
            last_cookie: entries.as_slice().last().map_or(0, |entry| entry.cookie),
            last_node: entries.as_slice().last().map_or(0, |entry| entry.node),
        },
        Kind::Link { target } => Content::Link {
            target_len: target.len(),
        },
    }
}

/// A node's number, mode and time, and what it holds.
fn told(node: &Node) -> (u64, u16, i64, Content) {
    (node.number, node.mode, node.mtime, content_of(&node.kind))
}

/// What the nodes of [`image`] are.
fn nodes_of_image() -> [(u64, u16, i64, Content); 4] {
    let root = Content::Dir {
        entries: 3,
        last_cookie: 9,
        last_node: 3,
    };
    let file = Content::File {
        size: 8195,
        blocks: 1,
        first_index: 2,
    };
    let dir = Content::Dir {
        entries: 1,
        last_cookie: 3,
        last_node: 4,
    };
    let link = Content::Link { target_len: 1 };
    [
        (1, 0o755, -1, root),
        (2, 0o644, 5, file),
        (3, 0o700, 7, dir),
        (4, 0o777, 8, link),
    ]
}

#[test]
fn a_tree_and_its_text(rt: HostRuntime) -> Result<(), Fail> {
    let bytes = image(rt.alloc())?;
    comes_in_and_out(&rt, rt.alloc(), bytes.as_slice())
}

fn comes_in_and_out(rt: &impl Abort, alloc: Global, bytes: &[u8]) -> Result<(), Fail> {
    let tree = decode(alloc, bytes).map_err(|_| "refused")?;
    comes_out(rt, alloc, &tree, bytes)
}

/// The text of a tree.
fn text_of(alloc: Global, tree: &Tree) -> Result<Vec<u8>, &'static str>
    requires { IsValidTree tree.now }
{
    let mut text = Vec::new(alloc);
    encode(tree, &mut text).map_err(|_| "memory")?;
    Ok(text)
}

fn comes_out(rt: &impl Abort, alloc: Global, tree: &Tree, bytes: &[u8]) -> Result<(), Fail>
    requires { IsValidTree tree.now }
{
    let text = text_of(alloc, tree)?;
    assert!(rt; text.as_slice() == bytes);
    comes_in_again(rt, alloc, text.as_slice())
}

fn comes_in_again(rt: &impl Abort, alloc: Global, text: &[u8]) -> Result<(), Fail> {
    let again = decode(alloc, text).map_err(|_| "refused")?;
    has_the_nodes(rt, &again);
    Ok(())
}

fn has_the_nodes(rt: &impl Abort, tree: &Tree) {
    assert_eq!(rt; tree.nodes.as_slice().len(), 4);
    for (node, wanted) in tree.nodes.as_slice().iter().zip(nodes_of_image()) {
        assert_eq!(rt; told(node), wanted);
    }
}
