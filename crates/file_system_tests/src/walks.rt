//! Walks of paths, as path_resolution(7) and symlink(7) tell, and this project's own rules of their order.

use file_system_scripts::files::Call::{Create, Hold, Mkdir, Rmdir, Symlink};
use file_system_scripts::files::Which::{At, Named};
use file_system_scripts::files::{Answer, Files, Found};
use native_vfs::{NodeKind, ends_with_slash};
use std::alloc::Global;
use std::process::Abort;
use std::test::Fail;

/// The number of the directory, the name and the number of the node that a walk is to find.
type Wanted = Answer<(u64, &'static str, Option<u64>)>;

const ROOT: u64 = 1;

const A: u64 = 2;

const D: u64 = 3;

const E: u64 = 4;

const F: u64 = 5;

/// The walk finds this node.
fn at(dir: u64, name: &'static str, node: u64) -> Wanted {
    Ok((dir, name, Some(node)))
}

/// The walk finds a name that is not there.
fn none(dir: u64, name: &'static str) -> Wanted {
    Ok((dir, name, None))
}

/// A file system of files, directories and links, which have the numbers from 2 on in this order.
fn planted(alloc: Global) -> Answer<Files> {
    let calls = [
        Create("/a", 0o644),
        Mkdir("/d", 0o755),
        Mkdir("/d/e", 0o755),
        Create("/d/f", 0o644),
        Create("/b", 0o644),
        Symlink("l", "/l"),
        Symlink("d", "/dl"),
        Symlink("d/", "/ds"),
        Symlink("/d/f", "/al"),
        Symlink("f", "/d/r"),
        Symlink("d/../a", "/up"),
        Symlink("none", "/hang"),
        Symlink("none/", "/hangs"),
        Symlink("a", "/fl"),
        Symlink("a/", "/fs"),
        Symlink("dl/e", "/two"),
        Symlink("dl/", "/twos"),
        Symlink("/", "/sl"),
    ];
    Files::with(alloc, &calls)
}

/// Whether a walk answers what is wanted.
fn is_wanted(found: &Answer<Found>, wanted: &Wanted) -> bool {
    match (found, wanted) {
        (Ok(found), Ok((dir, name, node))) => {
            found.dir == *dir && found.name.as_slice() == name.as_bytes() && found.node == *node
        }
        (Err(error), Err(name)) => *error == *name,
        _ => false,
    }
}

/// Whether the walk from the directory of a path answers what is wanted, with this choice for a last link.
fn walks(
    files: &mut Files,
    from: &'static str,
    path: &str,
    follow: bool,
    wanted: &Wanted,
) -> Answer<bool> {
    files.start_at(At(from));
    Ok(is_wanted(&files.walk(path, follow), wanted))
}

#[test]
fn walks_without_links(rt: HostRuntime) -> Result<(), Fail> {
    let mut files = planted(rt.alloc())?;
    walks_without_links_in(&rt, &mut files)
}

fn walks_without_links_in(rt: &impl Abort, files: &mut Files) -> Result<(), Fail> {
    for (from, path, wanted) in [
        ("/", "", Err("ENOENT")),
        ("/d", "", Err("ENOENT")),
        ("/a", "", Err("ENOENT")),
        ("/a", "/d", at(ROOT, "d", D)),
        ("/", "/", at(ROOT, "", ROOT)),
        ("/d", "///", at(ROOT, "", ROOT)),
        ("/", ".", at(ROOT, ".", ROOT)),
        ("/d", ".", at(D, ".", D)),
        ("/d", "./", at(D, ".", D)),
        ("/", "/d/.", at(D, ".", D)),
        ("/", "/d/..", at(D, "..", ROOT)),
        ("/", "..", at(ROOT, "..", ROOT)),
        ("/", "/..", at(ROOT, "..", ROOT)),
        ("/d/e", "..", at(E, "..", D)),
        ("/d/e", "../..", at(D, "..", ROOT)),
        ("/", "a", at(ROOT, "a", A)),
        ("/", "/a", at(ROOT, "a", A)),
        ("/d", "/a", at(ROOT, "a", A)),
        ("/d", "a", none(D, "a")),
        ("/", "d//e", at(D, "e", E)),
        ("/", "//d///e//", at(D, "e", E)),
        ("/", "d/e/", at(D, "e", E)),
        ("/", "a/", Err("ENOTDIR")),
        ("/", "a/.", Err("ENOTDIR")),
        ("/", "/a/b", Err("ENOTDIR")),
        ("/", "a/..", Err("ENOTDIR")),
        ("/", "none", none(ROOT, "none")),
        ("/", "none/", none(ROOT, "none")),
        ("/", "none/b", Err("ENOENT")),
        ("/", "none/..", Err("ENOENT")),
        ("/", "d/e/none", none(E, "none")),
    ] {
        for follow in [false, true] {
            let right = walks(files, from, path, follow, &wanted)?;
            assert!(rt; right, "{path} from {from}, {follow}");
        }
    }
    Ok(())
}

#[test]
fn tells_the_root_kinds_and_slashes(rt: HostRuntime) -> Result<(), Fail> {
    let files = planted(rt.alloc())?;
    tells_the_root_kinds_and_slashes_in(&rt, &files)
}

fn tells_the_root_kinds_and_slashes_in(rt: &impl Abort, files: &Files) -> Result<(), Fail> {
    assert_eq!(rt; files.root()?, ROOT);
    assert!(rt; files.is_of_kind(At("/a"), NodeKind::File)?);
    assert!(rt; files.is_of_kind(At("/d"), NodeKind::Directory)?);
    assert!(rt; files.is_of_kind(At("/dl"), NodeKind::Link)?);
    assert!(rt; ends_with_slash(b"d/e/"));
    assert!(rt; !ends_with_slash(b"d/e"));
    assert!(rt; !ends_with_slash(b""));
    Ok(())
}

#[test]
fn walks_over_links(rt: HostRuntime) -> Result<(), Fail> {
    let mut files = planted(rt.alloc())?;
    walks_over_links_in(&rt, &mut files)
}

fn walks_over_links_in(rt: &impl Abort, files: &mut Files) -> Result<(), Fail> {
    for (from, path, wanted) in [
        ("/", "l/", Err("ELOOP")),
        ("/", "l/b", Err("ELOOP")),
        ("/", "dl/", at(ROOT, "d", D)),
        ("/", "dl/e", at(D, "e", E)),
        ("/", "dl/.", at(D, ".", D)),
        ("/", "dl/..", at(D, "..", ROOT)),
        ("/", "ds/e", at(D, "e", E)),
        ("/", "d/r/", Err("ENOTDIR")),
        ("/", "up/b", Err("ENOTDIR")),
        ("/", "hang/", none(ROOT, "none")),
        ("/", "hang/b", Err("ENOENT")),
        ("/", "hangs/", none(ROOT, "none")),
        ("/", "fl/", Err("ENOTDIR")),
        ("/", "two/..", at(E, "..", D)),
        ("/", "sl/d/e", at(D, "e", E)),
        ("/", "sl/..", at(ROOT, "..", ROOT)),
        ("/d", "/sl/", at(ROOT, "", ROOT)),
    ] {
        for follow in [false, true] {
            let right = walks(files, from, path, follow, &wanted)?;
            assert!(rt; right, "{path} from {from}, {follow}");
        }
    }
    Ok(())
}

#[test]
fn follows_a_last_link_as_the_call_says(rt: HostRuntime) -> Result<(), Fail> {
    let mut files = planted(rt.alloc())?;
    follows_a_last_link_as_the_call_says_in(&rt, &mut files)
}

fn follows_a_last_link_as_the_call_says_in(rt: &impl Abort, files: &mut Files) -> Result<(), Fail> {
    for (from, path, kept, followed) in [
        ("/", "/l", at(ROOT, "l", 7), Err("ELOOP")),
        ("/", "dl", at(ROOT, "dl", 8), at(ROOT, "d", D)),
        ("/", "ds", at(ROOT, "ds", 9), at(ROOT, "d", D)),
        ("/d/e", "/al", at(ROOT, "al", 10), at(D, "f", F)),
        ("/", "d/r", at(D, "r", 11), at(D, "f", F)),
        ("/", "up", at(ROOT, "up", 12), at(ROOT, "a", A)),
        ("/", "hang", at(ROOT, "hang", 13), none(ROOT, "none")),
        ("/", "hangs", at(ROOT, "hangs", 14), Err("ENOENT")),
        ("/", "fl", at(ROOT, "fl", 15), at(ROOT, "a", A)),
        ("/", "fs", at(ROOT, "fs", 16), Err("ENOTDIR")),
        ("/", "two", at(ROOT, "two", 17), at(D, "e", E)),
        ("/", "twos", at(ROOT, "twos", 18), at(ROOT, "d", D)),
        ("/", "sl", at(ROOT, "sl", 19), at(ROOT, "", ROOT)),
    ] {
        for (follow, wanted) in [(false, &kept), (true, &followed)] {
            let right = walks(files, from, path, follow, wanted)?;
            assert!(rt; right, "{path} from {from}, {follow}");
        }
    }
    Ok(())
}

/// Makes the links `/c1` to `a` and from `/c2` on each to the one before.
fn make_chain(alloc: Global, files: &mut Files, length: u32) -> Result<(), Fail> {
    for link in 1..=length {
        let target = match link {
            1 => String::from_str(alloc, "a")?,
            _ => format!(in alloc; "c{}", link - 1)?,
        };
        let name = format!(in alloc; "/c{link}")?;
        files.symlink(target.as_str(), name.as_str())?;
    }
    Ok(())
}

#[test]
fn follows_forty_links(rt: HostRuntime) -> Result<(), Fail> {
    let mut files = planted(rt.alloc())?;
    follows_forty_links_in(&rt, rt.alloc(), &mut files)
}

fn follows_forty_links_in(rt: &impl Abort, alloc: Global, files: &mut Files) -> Result<(), Fail> {
    make_chain(alloc, files, 41)?;
    let there_and_back = "dl/../".repeat(alloc, 20)?;
    for (before, path, follow, wanted) in [
        ("", "c40", true, at(ROOT, "a", A)),
        ("", "c41", true, Err("ELOOP")),
        ("", "c41", false, at(ROOT, "c41", 60)),
        ("", "c40/", false, Err("ENOTDIR")),
        ("", "c41/", false, Err("ELOOP")),
        (there_and_back.as_str(), "c20", true, at(ROOT, "a", A)),
        (there_and_back.as_str(), "c21", true, Err("ELOOP")),
    ] {
        let whole = format!(in alloc; "{before}{path}")?;
        let right = walks(files, "/", whole.as_str(), follow, &wanted)?;
        assert!(rt; right, "{whole}, {follow}");
    }
    Ok(())
}

#[test]
fn names_have_at_most_255_bytes(rt: HostRuntime) -> Result<(), Fail> {
    let mut files = planted(rt.alloc())?;
    names_have_at_most_255_bytes_in(&rt, rt.alloc(), &mut files)
}

fn names_have_at_most_255_bytes_in(
    rt: &impl Abort,
    alloc: Global,
    files: &mut Files,
) -> Result<(), Fail> {
    let longest = "x".repeat(alloc, 255)?;
    for (before, more, after, error) in [
        ("/", "", "", None),
        ("/", "x", "", Some("ENAMETOOLONG")),
        ("/a/", "x", "", Some("ENAMETOOLONG")),
        ("/none/", "x", "", Some("ENOENT")),
        ("/", "x", "/a", Some("ENAMETOOLONG")),
        ("/l/", "x", "", Some("ELOOP")),
    ] {
        let path = format!(in alloc; "{before}{longest}{more}{after}")?;
        let made = files.create(path.as_str(), 0o644);
        assert_eq!(rt; made.err(), error, "{before}, {after}");
    }
    let path = format!(in alloc; "/{longest}")?;
    let found = files.walk(path.as_str(), true)?;
    assert_eq!(rt; found.name.as_slice(), longest.as_bytes());
    assert_eq!(rt; found.node, Some(20));
    Ok(())
}

#[test]
fn a_removed_directory_names_itself_alone(rt: HostRuntime) -> Result<(), Fail> {
    let mut files = planted(rt.alloc())?;
    a_removed_directory_names_itself_alone_in(&rt, &mut files)
}

fn a_removed_directory_names_itself_alone_in(
    rt: &impl Abort,
    files: &mut Files,
) -> Result<(), Fail> {
    files.name("/d/e")?;
    files.call(Rmdir("/d/e"))?;
    files.start_at(Named);
    for (path, wanted) in [
        (".", at(E, ".", E)),
        ("./", at(E, ".", E)),
        ("..", none(E, "..")),
        ("../", none(E, "..")),
        ("../a", Err("ENOENT")),
        ("../x", Err("ENOENT")),
        ("x", none(E, "x")),
        ("x/y", Err("ENOENT")),
        ("/a", at(ROOT, "a", A)),
        ("/d/e", none(D, "e")),
    ] {
        for follow in [false, true] {
            let right = is_wanted(&files.walk(path, follow), &wanted);
            assert!(rt; right, "{path}, {follow}");
        }
    }
    Ok(())
}
