//! The limits of a whole file system, which are this project's own.

use crate::steps::Look::{Facts, Next, Times, Tree};
use crate::steps::Step::{Clock, Do, Name, Refuse, See, Write, WriteSevens};
use crate::steps::{Step, first_wrong, first_wrong_of_file};
use file_system_scripts::files::Call::{
    Create, Hold, Link, Mkdir, Release, Rename, SetSize, Symlink, Unlink,
};
use file_system_scripts::files::Which::{self, At, Named};
use file_system_scripts::files::{Answer, Files};
use std::alloc::Global;
use std::test::Fail;

/// Makes a file for each number, after which there are 65,536 nodes, the root among them; and the first wrong step then.
fn wrong_at_all_nodes(
    alloc: Global,
    files: &mut Files,
    steps: &[Step],
) -> Result<Option<usize>, Fail> {
    for number in 2..=65_536 {
        let path = format!(in alloc; "/{number}")?;
        files.create(path.as_str(), 0o644)?;
    }
    Ok(first_wrong(files, steps))
}

fn wrong_of_nodes(alloc: Global, steps: &[Step]) -> Result<Option<usize>, Fail> {
    let mut files = Files::new(alloc)?;
    wrong_at_all_nodes(alloc, &mut files, steps)
}

/// The steps of [`has_at_most_65536_nodes`].
static HAS_AT_MOST_65536_NODES_STEPS: [Step; 12] = [
    Refuse(Create("/x", 0o644), "ENOSPC"),
    Refuse(Mkdir("/x", 0o755), "ENOSPC"),
    Refuse(Symlink("x", "/x"), "ENOSPC"),
    Refuse(Create("/2", 0o644), "EEXIST"),
    Do(Link("/2", "/x")),
    Name("/40000"),
    Do(Unlink("/40000")),
    Refuse(Mkdir("/y", 0o755), "ENOSPC"),
    Do(Release),
    Do(Mkdir("/y", 0o755)),
    See(Facts(At("/y"), 40_000, 0o040_755, 2, 4096, 8)),
    Refuse(Create("/z", 0o644), "ENOSPC"),
];

#[test]
fn has_at_most_65536_nodes(rt: HostRuntime) -> Result<(), Fail> {
    assert_eq!(rt;
        wrong_of_nodes(rt.alloc(), &HAS_AT_MOST_65536_NODES_STEPS)?,
        None
    );
    Ok(())
}

/// Makes a link in `/d` to `/f` for each number from 3 on, after which there are 131,072 entries; and the first wrong step
/// then.
fn wrong_at_all_entries(
    alloc: Global,
    files: &mut Files,
    steps: &[Step],
) -> Result<Option<usize>, Fail> {
    for number in 3..=131_072 {
        let path = format!(in alloc; "/d/{number}")?;
        files.link("/f", path.as_str())?;
    }
    Ok(first_wrong(files, steps))
}

fn wrong_of_entries(alloc: Global, steps: &[Step]) -> Result<Option<usize>, Fail> {
    let mut files = Files::with(alloc, &[Create("/f", 0o644), Mkdir("/d", 0o755)])?;
    wrong_at_all_entries(alloc, &mut files, steps)
}

/// The steps of [`has_at_most_131072_entries`].
static HAS_AT_MOST_131072_ENTRIES_STEPS: [Step; 9] = [
    See(Facts(At("/f"), 2, 0o100_644, 131_071, 0, 0)),
    Refuse(Create("/x", 0o644), "ENOSPC"),
    Refuse(Mkdir("/x", 0o755), "ENOSPC"),
    Refuse(Symlink("x", "/x"), "ENOSPC"),
    Refuse(Link("/f", "/x"), "ENOSPC"),
    Do(Rename("/d/3", "/x")),
    Do(Unlink("/x")),
    Do(Link("/f", "/y")),
    Refuse(Create("/z", 0o644), "ENOSPC"),
];

#[test]
fn has_at_most_131072_entries(rt: HostRuntime) -> Result<(), Fail> {
    assert_eq!(rt;
        wrong_of_entries(rt.alloc(), &HAS_AT_MOST_131072_ENTRIES_STEPS)?,
        None
    );
    Ok(())
}

/// The file that has nearly all blocks.
const F: Which = At("/f");

/// Another file.
const G: Which = At("/g");

/// The place behind its blocks.
const END: u64 = 268_427_264;

/// The greatest size of a file.
const GREATEST: u64 = 17_592_186_044_416;

/// Gives `/f` 65,534 blocks; and the first wrong step then.
fn wrong_at_all_blocks(files: &mut Files, steps: &[Step]) -> Answer<Option<usize>> {
    for block in 0..65_534u64 {
        files.write(At("/f"), block * 4096, b"x")?;
    }
    Ok(first_wrong(files, steps))
}

fn wrong_of_blocks(alloc: Global, steps: &[Step]) -> Answer<Option<usize>> {
    let mut files = Files::with(alloc, &[Create("/f", 0o644), Create("/g", 0o644)])?;
    wrong_at_all_blocks(&mut files, steps)
}

/// The steps of [`keeps_at_most_65536_blocks`].
static KEEPS_AT_MOST_65536_BLOCKS_STEPS: [Step; 14] = [
    See(Facts(F, 2, 0o100_644, 1, 268_423_169, 524_272)),
    Clock(5),
    WriteSevens(G, 100, 9000, Ok(8092)),
    See(Facts(G, 3, 0o100_644, 1, 8192, 16)),
    Clock(6),
    WriteSevens(G, 8192, 9000, Err("ENOSPC")),
    See(Times(G, 1, 5, 5)),
    WriteSevens(G, 8190, 9000, Ok(2)),
    Write(F, END, "", Ok(0)),
    Write(F, END, "x", Err("ENOSPC")),
    Do(SetSize(G, 4096)),
    WriteSevens(F, END, 9000, Ok(4096)),
    Do(Unlink("/f")),
    WriteSevens(G, 0, 9000, Ok(9000)),
];

#[test]
fn keeps_at_most_65536_blocks(rt: HostRuntime) -> Result<(), Fail> {
    assert_eq!(rt;
        wrong_of_blocks(rt.alloc(), &KEEPS_AT_MOST_65536_BLOCKS_STEPS)?,
        None
    );
    Ok(())
}

/// The steps of [`blocks_of_a_held_file_are_kept`].
static BLOCKS_OF_A_HELD_FILE_ARE_KEPT_STEPS: [Step; 7] = [
    WriteSevens(G, 0, 8192, Ok(8192)),
    Write(G, GREATEST, "x", Err("EFBIG")),
    Name("/f"),
    Do(Unlink("/f")),
    Write(G, 8192, "x", Err("ENOSPC")),
    Do(Release),
    Write(G, 8192, "x", Ok(1)),
];

#[test]
fn blocks_of_a_held_file_are_kept(rt: HostRuntime) -> Result<(), Fail> {
    assert_eq!(rt;
        wrong_of_blocks(rt.alloc(), &BLOCKS_OF_A_HELD_FILE_ARE_KEPT_STEPS)?,
        None
    );
    Ok(())
}

/// The steps of [`gives_out_the_cookie_2147483647`].
static GIVES_OUT_THE_COOKIE_2147483647_STEPS: [Step; 3] = [
    Do(Create("/x", 0o644)),
    See(Next(At("/"), 2_147_483_646, Some((2_147_483_647, "x", 3)))),
    Refuse(Create("/y", 0o644), "ENOSPC"),
];

#[test]
fn gives_out_the_cookie_2147483647(rt: HostRuntime) -> Result<(), Fail> {
    assert_eq!(rt;
        first_wrong_of_file(
            rt.alloc(),
            (2_147_483_646, 2, 0),
            &GIVES_OUT_THE_COOKIE_2147483647_STEPS
        )?,
        None
    );
    Ok(())
}

/// The steps of [`a_cookie_is_at_most_2147483647`].
static A_COOKIE_IS_AT_MOST_2147483647_STEPS: [Step; 10] = [
    Refuse(Create("/x", 0o644), "ENOSPC"),
    Refuse(Mkdir("/x", 0o755), "ENOSPC"),
    Refuse(Symlink("f", "/x"), "ENOSPC"),
    Refuse(Link("/f", "/x"), "ENOSPC"),
    Refuse(Rename("/f", "/x"), "ENOSPC"),
    Refuse(Create("/f", 0o644), "EEXIST"),
    See(Tree("1 755 0 dir: 2147483647=f=2\n2 644 0 0:\n")),
    See(Times(At("/"), 0, 0, 0)),
    Do(Unlink("/f")),
    Refuse(Create("/f", 0o644), "ENOSPC"),
];

#[test]
fn a_cookie_is_at_most_2147483647(rt: HostRuntime) -> Result<(), Fail> {
    assert_eq!(rt;
        first_wrong_of_file(
            rt.alloc(),
            (2_147_483_647, 2, 0),
            &A_COOKIE_IS_AT_MOST_2147483647_STEPS
        )?,
        None
    );
    Ok(())
}
