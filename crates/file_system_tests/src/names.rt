//! The calls that make a name and that take one away: what each leaves, and each of its errors.

use crate::steps::Look::{Facts, Next, Parent, Read, Target, Times, Tree};
use crate::steps::Step::{self, Clock, Do, Name, Refuse, See, Start, Write};
use crate::steps::first_wrong_after;
use file_system_scripts::files::Call::{
    self, Create, Hold, Link, Mkdir, Release, Rename, Rmdir, Symlink, Unlink,
};
use file_system_scripts::files::Which::{At, Named};
use std::test::Fail;

/// The steps of [`makes_nodes`].
static MAKES_NODES_STEPS: [Step; 28] = [
    Clock(5),
    Do(Mkdir("/d", 0o700)),
    See(Facts(At("/d"), 2, 0o040_700, 2, 4096, 8)),
    See(Times(At("/d"), 5, 5, 5)),
    See(Facts(At("/"), 1, 0o040_755, 3, 4096, 8)),
    See(Times(At("/"), 0, 5, 5)),
    See(Parent("/d/..", 1)),
    See(Parent("/..", 1)),
    Clock(6),
    Do(Create("/d/f", 0o4644)),
    See(Facts(At("/d/f"), 3, 0o104_644, 1, 0, 0)),
    See(Times(At("/d/f"), 6, 6, 6)),
    See(Facts(At("/d"), 2, 0o040_700, 2, 4096, 8)),
    See(Times(At("/d"), 5, 6, 6)),
    Clock(7),
    Do(Symlink("d/f", "/s")),
    See(Facts(At("/s"), 4, 0o120_777, 1, 3, 0)),
    See(Times(At("/s"), 7, 7, 7)),
    See(Target(At("/s"), "d/f")),
    Clock(8),
    Do(Link("/d/f", "/g")),
    See(Facts(At("/g"), 3, 0o104_644, 2, 0, 0)),
    See(Times(At("/d/f"), 6, 6, 8)),
    See(Times(At("/"), 0, 8, 8)),
    See(Next(At("/"), 0, Some((3, "d", 2)))),
    See(Next(At("/"), 3, Some((4, "s", 4)))),
    See(Next(At("/"), 4, Some((5, "g", 3)))),
    See(Next(At("/"), 5, None)),
];

#[test]
fn makes_nodes(rt: HostRuntime) -> Result<(), Fail> {
    assert_eq!(rt;
        first_wrong_after(rt.alloc(), &[], &MAKES_NODES_STEPS)?,
        None
    );
    Ok(())
}

/// The steps of [`takes_names_away`].
static TAKES_NAMES_AWAY_STEPS: [Step; 20] = [
    Do(Mkdir("/d", 0o755)),
    Do(Create("/d/f", 0o644)),
    Do(Link("/d/f", "/g")),
    Do(Create("/h", 0o644)),
    Clock(5),
    Do(Unlink("/d/f")),
    See(Facts(At("/g"), 3, 0o100_644, 1, 0, 0)),
    See(Times(At("/g"), 1, 1, 5)),
    See(Times(At("/d"), 1, 5, 5)),
    See(Next(At("/d"), 0, None)),
    See(Times(At("/"), 0, 1, 1)),
    Clock(6),
    Do(Rmdir("/d")),
    See(Facts(At("/"), 1, 0o040_755, 2, 4096, 8)),
    See(Times(At("/"), 0, 6, 6)),
    See(Next(At("/"), 0, Some((4, "g", 3)))),
    Clock(7),
    Do(Unlink("/h")),
    See(Next(At("/"), 4, None)),
    See(Times(At("/"), 0, 7, 7)),
];

#[test]
fn takes_names_away(rt: HostRuntime) -> Result<(), Fail> {
    assert_eq!(rt;
        first_wrong_after(rt.alloc(), &[], &TAKES_NAMES_AWAY_STEPS)?,
        None
    );
    Ok(())
}

/// The steps of [`numbers_come_again_and_cookies_do_not`].
static NUMBERS_COME_AGAIN_AND_COOKIES_DO_NOT_STEPS: [Step; 12] = [
    Do(Create("/a", 0o644)),
    Do(Create("/b", 0o644)),
    Do(Create("/c", 0o644)),
    Do(Create("/d", 0o644)),
    Do(Unlink("/d")),
    Do(Unlink("/b")),
    Do(Create("/e", 0o644)),
    Do(Create("/f", 0o644)),
    Do(Create("/g", 0o644)),
    See(Next(At("/"), 5, Some((7, "e", 3)))),
    See(Next(At("/"), 7, Some((8, "f", 5)))),
    See(Next(At("/"), 8, Some((9, "g", 6)))),
];

#[test]
fn numbers_come_again_and_cookies_do_not(rt: HostRuntime) -> Result<(), Fail> {
    assert_eq!(rt;
        first_wrong_after(
            rt.alloc(),
            &[],
            &NUMBERS_COME_AGAIN_AND_COOKIES_DO_NOT_STEPS
        )?,
        None
    );
    Ok(())
}

/// Files, directories and a link, among which every call of two of the tests is refused.
const PLANTED: [Call; 5] = [
    Create("/f", 0o644),
    Create("/g", 0o644),
    Mkdir("/d", 0o755),
    Mkdir("/d/e", 0o755),
    Symlink("d", "/s"),
];

/// What they are as text.
const PLANTED_TREE: &str = "1 755 0 dir: 3=f=2 4=g=3 5=d=4 6=s=6\n2 644 0 0:\n3 644 0 0:\n\
4 755 0 dir: 3=e=5\n5 755 0 dir:\n6 777 0 to d\n";

/// The steps of [`refuses_to_make_names`].
static REFUSES_TO_MAKE_NAMES_STEPS: [Step; 20] = [
    Clock(5_000_000_000),
    Refuse(Create("/f", 0o644), "EEXIST"),
    Refuse(Create("/d", 0o644), "EEXIST"),
    Refuse(Create("/s", 0o644), "EEXIST"),
    Refuse(Create("/", 0o644), "EEXIST"),
    Refuse(Create("/d/..", 0o644), "EEXIST"),
    Refuse(Create("/f/x", 0o644), "ENOTDIR"),
    Refuse(Mkdir("/f", 0o755), "EEXIST"),
    Refuse(Mkdir("/d/.", 0o755), "EEXIST"),
    Refuse(Mkdir("/none/x", 0o755), "ENOENT"),
    Refuse(Symlink("f", "/g"), "EEXIST"),
    Refuse(Symlink("", "/x"), "ENOENT"),
    Refuse(Symlink("", "/g"), "ENOENT"),
    Refuse(Link("/f", "/g"), "EEXIST"),
    Refuse(Link("/f", "/f"), "EEXIST"),
    Refuse(Link("/d", "/x"), "EPERM"),
    Refuse(Link("/d", "/f"), "EPERM"),
    See(Tree(PLANTED_TREE)),
    Do(Create("/x", 0o644)),
    See(Facts(At("/x"), 7, 0o100_644, 1, 0, 0)),
];

#[test]
fn refuses_to_make_names(rt: HostRuntime) -> Result<(), Fail> {
    assert_eq!(rt;
        first_wrong_after(rt.alloc(), &PLANTED, &REFUSES_TO_MAKE_NAMES_STEPS)?,
        None
    );
    Ok(())
}

/// The steps of [`refuses_to_take_names_away`].
static REFUSES_TO_TAKE_NAMES_AWAY_STEPS: [Step; 19] = [
    Clock(5_000_000_000),
    Refuse(Unlink("/none"), "ENOENT"),
    Refuse(Unlink("/f/"), "ENOTDIR"),
    Refuse(Unlink("/d"), "EISDIR"),
    Refuse(Unlink("/d/e/."), "EISDIR"),
    Refuse(Unlink("/"), "EISDIR"),
    Refuse(Rmdir("/none"), "ENOENT"),
    Refuse(Rmdir("/d/e/."), "EINVAL"),
    Refuse(Rmdir("/."), "EINVAL"),
    Refuse(Rmdir("/d/e/.."), "ENOTEMPTY"),
    Refuse(Rmdir("/d/.."), "ENOTEMPTY"),
    Refuse(Rmdir("/"), "EBUSY"),
    Refuse(Rmdir("/f"), "ENOTDIR"),
    Refuse(Rmdir("/s"), "ENOTDIR"),
    Refuse(Rmdir("/s/"), "ENOTEMPTY"),
    Refuse(Rmdir("/d"), "ENOTEMPTY"),
    See(Tree(PLANTED_TREE)),
    Do(Create("/x", 0o644)),
    See(Facts(At("/x"), 7, 0o100_644, 1, 0, 0)),
];

#[test]
fn refuses_to_take_names_away(rt: HostRuntime) -> Result<(), Fail> {
    assert_eq!(rt;
        first_wrong_after(rt.alloc(), &PLANTED, &REFUSES_TO_TAKE_NAMES_AWAY_STEPS)?,
        None
    );
    Ok(())
}

/// The steps of [`makes_nothing_in_a_removed_directory`].
static MAKES_NOTHING_IN_A_REMOVED_DIRECTORY_STEPS: [Step; 26] = [
    Do(Mkdir("/d", 0o755)),
    Do(Mkdir("/d/e", 0o755)),
    Do(Create("/f", 0o644)),
    Name("/d/e"),
    Clock(2),
    Do(Rmdir("/d/e")),
    See(Facts(Named, 3, 0o040_755, 0, 4096, 8)),
    See(Times(Named, 1, 1, 1)),
    Start(Named),
    Refuse(Create("x", 0o644), "ENOENT"),
    Refuse(Mkdir("x", 0o755), "ENOENT"),
    Refuse(Symlink("f", "x"), "ENOENT"),
    Refuse(Link("/f", "x"), "ENOENT"),
    Refuse(Rename("/f", "x"), "ENOENT"),
    Refuse(Rename("/d", "x"), "ENOENT"),
    Refuse(Rename("..", "/x"), "ENOENT"),
    Refuse(Rename("/f", ".."), "EBUSY"),
    Refuse(Unlink("x"), "ENOENT"),
    Refuse(Rmdir(".."), "ENOENT"),
    Refuse(Rmdir("."), "EINVAL"),
    Refuse(Create(".", 0o644), "EEXIST"),
    Do(Create("/x", 0o644)),
    See(Facts(At("/x"), 5, 0o100_644, 1, 0, 0)),
    Do(Release),
    Do(Create("/y", 0o644)),
    See(Facts(At("/y"), 3, 0o100_644, 1, 0, 0)),
];

#[test]
fn makes_nothing_in_a_removed_directory(rt: HostRuntime) -> Result<(), Fail> {
    assert_eq!(rt;
        first_wrong_after(rt.alloc(), &[], &MAKES_NOTHING_IN_A_REMOVED_DIRECTORY_STEPS)?,
        None
    );
    Ok(())
}

/// The steps of [`a_symbolic_link_has_names_of_its_own`].
static A_SYMBOLIC_LINK_HAS_NAMES_OF_ITS_OWN_STEPS: [Step; 10] = [
    Do(Symlink("none", "/s")),
    Clock(5),
    Do(Link("/s", "/t")),
    See(Facts(At("/t"), 2, 0o120_777, 2, 4, 0)),
    See(Times(At("/s"), 1, 1, 5)),
    Do(Unlink("/s")),
    See(Target(At("/t"), "none")),
    Do(Unlink("/t")),
    Do(Create("/f", 0o644)),
    See(Facts(At("/f"), 2, 0o100_644, 1, 0, 0)),
];

#[test]
fn a_symbolic_link_has_names_of_its_own(rt: HostRuntime) -> Result<(), Fail> {
    assert_eq!(rt;
        first_wrong_after(rt.alloc(), &[], &A_SYMBOLIC_LINK_HAS_NAMES_OF_ITS_OWN_STEPS)?,
        None
    );
    Ok(())
}

/// The steps of [`a_missing_name_before_a_slash_is_a_directory_to_be`].
static A_MISSING_NAME_BEFORE_A_SLASH_IS_A_DIRECTORY_TO_BE_STEPS: [Step; 8] = [
    Do(Mkdir("/x/", 0o755)),
    Do(Rename("/x/", "/y/")),
    See(Next(At("/"), 0, Some((4, "y", 2)))),
    Do(Symlink("none", "/h")),
    Do(Mkdir("/h/", 0o755)),
    See(Facts(At("/none"), 4, 0o040_755, 2, 4096, 8)),
    See(Target(At("/h"), "none")),
    Refuse(Mkdir("/h/", 0o755), "EEXIST"),
];

#[test]
fn a_missing_name_before_a_slash_is_a_directory_to_be(rt: HostRuntime) -> Result<(), Fail> {
    assert_eq!(rt;
        first_wrong_after(
            rt.alloc(),
            &[],
            &A_MISSING_NAME_BEFORE_A_SLASH_IS_A_DIRECTORY_TO_BE_STEPS
        )?,
        None
    );
    Ok(())
}

/// The steps of [`a_named_file_stays_without_a_hold`].
static A_NAMED_FILE_STAYS_WITHOUT_A_HOLD_STEPS: [Step; 6] = [
    Do(Create("/f", 0o644)),
    Name("/f"),
    Do(Release),
    See(Facts(At("/f"), 2, 0o100_644, 1, 0, 0)),
    Do(Create("/g", 0o644)),
    See(Facts(At("/g"), 3, 0o100_644, 1, 0, 0)),
];

#[test]
fn a_named_file_stays_without_a_hold(rt: HostRuntime) -> Result<(), Fail> {
    assert_eq!(rt;
        first_wrong_after(rt.alloc(), &[], &A_NAMED_FILE_STAYS_WITHOUT_A_HOLD_STEPS)?,
        None
    );
    Ok(())
}

/// The steps of [`an_unlinked_file_stays_as_long_as_it_is_held`].
static AN_UNLINKED_FILE_STAYS_AS_LONG_AS_IT_IS_HELD_STEPS: [Step; 14] = [
    Do(Create("/f", 0o644)),
    Name("/f"),
    Do(Hold(Named)),
    Do(Unlink("/f")),
    Do(Release),
    See(Facts(Named, 2, 0o100_644, 0, 0, 0)),
    Write(Named, 0, "text", Ok(4)),
    See(Read(Named, 0, 4, *b"text")),
    Do(Create("/f", 0o600)),
    See(Facts(At("/f"), 3, 0o100_600, 1, 0, 0)),
    Do(Release),
    Do(Create("/g", 0o600)),
    See(Facts(At("/g"), 2, 0o100_600, 1, 0, 0)),
    See(Read(At("/g"), 0, 0, [1; 4])),
];

#[test]
fn an_unlinked_file_stays_as_long_as_it_is_held(rt: HostRuntime) -> Result<(), Fail> {
    assert_eq!(rt;
        first_wrong_after(
            rt.alloc(),
            &[],
            &AN_UNLINKED_FILE_STAYS_AS_LONG_AS_IT_IS_HELD_STEPS
        )?,
        None
    );
    Ok(())
}
