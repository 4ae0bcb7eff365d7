//! rename(2): what it leaves, and each of its errors.

use crate::steps::Look::{Facts, Parent, Times, Tree};
use crate::steps::Step::{self, Clock, Do, Name, Refuse, See, Start};
use crate::steps::first_wrong_after;
use file_system_scripts::files::Call::{
    self, Create, Hold, Link, Mkdir, Release, Rename, Symlink, Unlink,
};
use file_system_scripts::files::Which::{At, Named};
use std::test::Fail;

/// Files, directories and a link, which have the numbers from 2 on in this order.
const PLANTED: [Call; 10] = [
    Create("/f", 0o644),
    Create("/g", 0o644),
    Mkdir("/d", 0o755),
    Mkdir("/d/e", 0o755),
    Create("/d/h", 0o644),
    Mkdir("/empty", 0o755),
    Mkdir("/full", 0o755),
    Create("/full/i", 0o644),
    Symlink("f", "/s"),
    Link("/f", "/k"),
];

/// What they are as text.
const PLANTED_TREE: &str = "1 755 0 dir: 3=f=2 4=g=3 5=d=4 6=empty=7 7=full=8 8=s=10 9=k=2\n\
2 644 0 0:\n3 644 0 0:\n4 755 0 dir: 3=e=5 4=h=6\n5 755 0 dir:\n6 644 0 0:\n7 755 0 dir:\n\
8 755 0 dir: 3=i=9\n9 644 0 0:\n10 777 0 to f\n";

/// The steps of [`refuses_renames`].
static REFUSES_RENAMES_STEPS: [Step; 27] = [
    Clock(5_000_000_000),
    Refuse(Rename("/none", "/x"), "ENOENT"),
    Refuse(Rename("/none", "/."), "ENOENT"),
    Refuse(Rename("/d/.", "/x"), "EBUSY"),
    Refuse(Rename("/d/..", "/x"), "EBUSY"),
    Refuse(Rename("/", "/x"), "EBUSY"),
    Refuse(Rename("/f", "/d/."), "EBUSY"),
    Refuse(Rename("/f", "/d/e/.."), "EBUSY"),
    Refuse(Rename("/f", "/"), "EBUSY"),
    Refuse(Rename("/d", "/d/."), "EBUSY"),
    Refuse(Rename("/d", "/d/x"), "EINVAL"),
    Refuse(Rename("/d", "/d/e/x"), "EINVAL"),
    Refuse(Rename("/d", "/d/e"), "EINVAL"),
    Refuse(Rename("/d", "/d/h"), "EINVAL"),
    Refuse(Rename("/d", "/f"), "ENOTDIR"),
    Refuse(Rename("/d", "/s"), "ENOTDIR"),
    Refuse(Rename("/d", "/full"), "ENOTEMPTY"),
    Refuse(Rename("/d/e", "/d"), "ENOTEMPTY"),
    Refuse(Rename("/f", "/d"), "EISDIR"),
    Refuse(Rename("/f", "/empty"), "EISDIR"),
    Refuse(Rename("/s", "/empty"), "EISDIR"),
    Refuse(Rename("/d/h", "/d"), "EISDIR"),
    Refuse(Rename("/f", "/g/x"), "ENOTDIR"),
    Refuse(Rename("/f", "/none/x"), "ENOENT"),
    See(Tree(PLANTED_TREE)),
    Do(Create("/x", 0o644)),
    See(Facts(At("/x"), 11, 0o100_644, 1, 0, 0)),
];

#[test]
fn refuses_renames(rt: HostRuntime) -> Result<(), Fail> {
    assert_eq!(rt;
        first_wrong_after(rt.alloc(), &PLANTED, &REFUSES_RENAMES_STEPS)?,
        None
    );
    Ok(())
}

/// The steps of [`renames_one_node_to_itself`].
static RENAMES_ONE_NODE_TO_ITSELF_STEPS: [Step; 9] = [
    Clock(9),
    Do(Rename("/f", "/f")),
    Do(Rename("/f", "/k")),
    Do(Rename("/k", "/f")),
    Do(Rename("/d", "/d")),
    See(Times(At("/f"), 1, 1, 1)),
    See(Times(At("/d"), 1, 1, 1)),
    See(Times(At("/"), 0, 1, 1)),
    See(Tree(PLANTED_TREE)),
];

#[test]
fn renames_one_node_to_itself(rt: HostRuntime) -> Result<(), Fail> {
    assert_eq!(rt;
        first_wrong_after(rt.alloc(), &PLANTED, &RENAMES_ONE_NODE_TO_ITSELF_STEPS)?,
        None
    );
    Ok(())
}

/// The steps of [`renames_over_a_file`].
static RENAMES_OVER_A_FILE_STEPS: [Step; 16] = [
    Do(Create("/f", 0o644)),
    Do(Create("/g", 0o644)),
    Do(Create("/h", 0o644)),
    Name("/g"),
    Clock(5_000_000_000),
    Do(Rename("/f", "/g")),
    See(Facts(At("/g"), 2, 0o100_644, 1, 0, 0)),
    See(Times(At("/g"), 1, 1, 5_000_000_000)),
    See(Facts(Named, 3, 0o100_644, 0, 0, 0)),
    See(Times(Named, 1, 1, 5_000_000_000)),
    See(Times(At("/"), 0, 5_000_000_000, 5_000_000_000)),
    Clock(6_000_000_000),
    Do(Rename("/h", "/g")),
    See(Tree("1 755 6 dir: 7=g=4\n4 644 0 0:\n")),
    Do(Create("/i", 0o644)),
    See(Facts(At("/i"), 2, 0o100_644, 1, 0, 0)),
];

#[test]
fn renames_over_a_file(rt: HostRuntime) -> Result<(), Fail> {
    assert_eq!(rt;
        first_wrong_after(rt.alloc(), &[], &RENAMES_OVER_A_FILE_STEPS)?,
        None
    );
    Ok(())
}

/// The steps of [`renames_over_one_of_two_names`].
static RENAMES_OVER_ONE_OF_TWO_NAMES_STEPS: [Step; 8] = [
    Clock(9),
    Do(Rename("/g", "/k")),
    See(Facts(At("/f"), 2, 0o100_644, 1, 0, 0)),
    See(Times(At("/f"), 1, 1, 9)),
    Do(Rename("/f", "/s")),
    See(Facts(At("/s"), 2, 0o100_644, 1, 0, 0)),
    Do(Create("/x", 0o644)),
    See(Facts(At("/x"), 10, 0o100_644, 1, 0, 0)),
];

#[test]
fn renames_over_one_of_two_names(rt: HostRuntime) -> Result<(), Fail> {
    assert_eq!(rt;
        first_wrong_after(rt.alloc(), &PLANTED, &RENAMES_OVER_ONE_OF_TWO_NAMES_STEPS)?,
        None
    );
    Ok(())
}

/// The steps of [`renames_between_directories`].
static RENAMES_BETWEEN_DIRECTORIES_STEPS: [Step; 19] = [
    Do(Mkdir("/d", 0o755)),
    Do(Mkdir("/d/e", 0o755)),
    Do(Create("/d/e/f", 0o644)),
    Do(Mkdir("/g", 0o755)),
    Do(Symlink("f", "/d/s")),
    Clock(5),
    Do(Rename("/d/e", "/g/x")),
    See(Parent("/g/x/..", 5)),
    See(Facts(At("/g/x"), 3, 0o040_755, 2, 4096, 8)),
    See(Facts(At("/d"), 2, 0o040_755, 2, 4096, 8)),
    See(Facts(At("/g"), 5, 0o040_755, 3, 4096, 8)),
    See(Times(At("/g/x"), 1, 1, 5)),
    See(Times(At("/d"), 1, 5, 5)),
    See(Times(At("/g"), 1, 5, 5)),
    Clock(6),
    Do(Rename("/d/s", "/g/s")),
    Do(Rename("/g/x/f", "/g/f")),
    Do(Rename("/g/x", "/g/y")),
    See(Tree(
        "1 755 0 dir: 3=d=2 4=g=5\n2 755 0 dir:\n3 755 0 dir:\n4 644 0 0:\n\
5 755 0 dir: 4=s=6 5=f=4 6=y=3\n6 777 0 to f\n",
    )),
];

#[test]
fn renames_between_directories(rt: HostRuntime) -> Result<(), Fail> {
    assert_eq!(rt;
        first_wrong_after(rt.alloc(), &[], &RENAMES_BETWEEN_DIRECTORIES_STEPS)?,
        None
    );
    Ok(())
}

/// The steps of [`renames_over_an_empty_directory`].
static RENAMES_OVER_AN_EMPTY_DIRECTORY_STEPS: [Step; 22] = [
    Do(Mkdir("/d", 0o755)),
    Do(Create("/d/f", 0o644)),
    Do(Mkdir("/e", 0o755)),
    Do(Mkdir("/e/g", 0o755)),
    Do(Mkdir("/e/h", 0o755)),
    Name("/e/g"),
    Clock(5),
    Do(Rename("/d", "/e/g")),
    See(Facts(At("/e/g"), 2, 0o040_755, 2, 4096, 8)),
    See(Parent("/e/g/..", 4)),
    See(Facts(Named, 5, 0o040_755, 0, 4096, 8)),
    See(Times(Named, 1, 1, 1)),
    See(Facts(At("/e"), 4, 0o040_755, 4, 4096, 8)),
    See(Tree(
        "1 755 0 dir: 4=e=4\n2 755 0 dir: 3=f=3\n3 644 0 0:\n4 755 0 dir: 4=h=6 5=g=2\n\
6 755 0 dir:\n",
    )),
    Do(Unlink("/e/g/f")),
    Do(Rename("/e/h", "/e/g")),
    See(Facts(At("/e"), 4, 0o040_755, 3, 4096, 8)),
    Start(Named),
    Refuse(Rename("..", "/x"), "ENOENT"),
    Do(Release),
    Do(Create("/i", 0o644)),
    See(Facts(At("/i"), 2, 0o100_644, 1, 0, 0)),
];

#[test]
fn renames_over_an_empty_directory(rt: HostRuntime) -> Result<(), Fail> {
    assert_eq!(rt;
        first_wrong_after(rt.alloc(), &[], &RENAMES_OVER_AN_EMPTY_DIRECTORY_STEPS)?,
        None
    );
    Ok(())
}
