//! Trees that go in and come out.

use crate::steps::Look::{Facts, Next, Parent, Read, Times, Tree};
use crate::steps::Step::{self, Clock, Do, See, Write};
use crate::steps::{first_wrong_loaded, first_wrong_of_file, first_wrong_reloaded};
use file_system_scripts::files::Call::{
    self, Create, Hold, Link, Mkdir, Rmdir, SetMode, SetSize, SetTimes, Symlink, Unlink,
};
use file_system_scripts::files::Which::At;
use std::test::Fail;

/// A tree with each kind of node.
const TREE: &str = "1 755 0 dir: 3=d=2 4=g=5\n2 755 0 dir: 3=f=3 4=s=4 5=h=5 6=e=6\n\
3 644 2 20000: 0 3\n4 777 0 to ../f\n5 7070 -1 0:\n6 755 0 dir:\n";

/// The steps that make it.
const MAKING: [Step; 14] = [
    Do(Mkdir("/d", 0o755)),
    Do(Create("/d/f", 0o644)),
    Do(Symlink("../f", "/d/s")),
    Do(Create("/g", 0o644)),
    Do(Link("/g", "/d/h")),
    Do(Mkdir("/d/e", 0o755)),
    Clock(2_999_999_999),
    Write(At("/d/f"), 3 * 4096, "text", Ok(4)),
    Write(At("/d/f"), 5, "more", Ok(4)),
    Do(SetSize(At("/d/f"), 20_000)),
    Clock(8_000_000_000),
    Do(SetTimes(At("/g"), Some(9_000_000_000), Some(-1))),
    Do(SetMode(At("/g"), 0o7070)),
    See(Tree(TREE)),
];

/// The steps of [`a_tree_goes_in_and_comes_out`].
static A_TREE_GOES_IN_AND_COMES_OUT_STEPS: [Step; 9] = [
    See(Tree(TREE)),
    See(Facts(At("/d"), 2, 0o040_755, 3, 4096, 8)),
    See(Parent("/d/e/..", 2)),
    See(Facts(At("/d/f"), 3, 0o100_644, 1, 20_000, 16)),
    See(Times(At("/d/f"), 2_000_000_000, 2_000_000_000, 2_000_000_000)),
    See(Facts(At("/d/h"), 5, 0o107_070, 2, 0, 0)),
    See(Times(At("/g"), -1_000_000_000, -1_000_000_000, -1_000_000_000)),
    See(Read(At("/d/f"), 3 * 4096 - 2, 4, *b"\0\0te")),
    See(Read(At("/d/f"), 3 * 4096 + 2, 4, *b"xt\0\0")),
];

#[test]
fn a_tree_goes_in_and_comes_out(rt: HostRuntime) -> Result<(), Fail> {
    assert_eq!(rt;
        first_wrong_reloaded(rt.alloc(), &MAKING, &A_TREE_GOES_IN_AND_COMES_OUT_STEPS)?,
        (None, None)
    );
    Ok(())
}

/// The steps of [`a_tree_has_what_hangs_below_the_root`].
static A_TREE_HAS_WHAT_HANGS_BELOW_THE_ROOT_STEPS: [Step; 12] = [
    Do(Mkdir("/d", 0o755)),
    Do(Mkdir("/d/e", 0o755)),
    Do(Create("/f", 0o644)),
    Do(Create("/g", 0o644)),
    Do(Hold(At("/d/e"))),
    Do(Hold(At("/f"))),
    Do(Hold(At("/g"))),
    Clock(2_000_000_000),
    Do(Rmdir("/d/e")),
    Clock(3_000_000_000),
    Do(Unlink("/f")),
    See(Tree("1 755 3 dir: 3=d=2 5=g=5\n2 755 2 dir:\n5 644 0 0:\n")),
];

/// The steps behind them.
static A_TREE_HAS_WHAT_HANGS_BELOW_THE_ROOT_THEN: [Step; 5] = [
    Clock(4_000_000_000),
    Do(Create("/x", 0o600)),
    Do(Create("/y", 0o600)),
    Do(Create("/z", 0o600)),
    See(Tree(
        "1 755 4 dir: 3=d=2 5=g=5 6=x=3 7=y=4 8=z=6\n2 755 2 dir:\n3 600 4 0:\n\
4 600 4 0:\n5 644 0 0:\n6 600 4 0:\n",
    )),
];

#[test]
fn a_tree_has_what_hangs_below_the_root(rt: HostRuntime) -> Result<(), Fail> {
    assert_eq!(rt;
        first_wrong_reloaded(
            rt.alloc(),
            &A_TREE_HAS_WHAT_HANGS_BELOW_THE_ROOT_STEPS,
            &A_TREE_HAS_WHAT_HANGS_BELOW_THE_ROOT_THEN
        )?,
        (None, None)
    );
    Ok(())
}

/// The steps of [`a_loaded_directory_goes_on_after_its_entries`].
static A_LOADED_DIRECTORY_GOES_ON_AFTER_ITS_ENTRIES_STEPS: [Step; 2] = [
    Do(Create("/d/c", 0o644)),
    See(Next(At("/d"), 3, Some((4, "c", 4)))),
];

/// The calls before the steps of [`a_loaded_directory_goes_on_after_its_entries`].
static A_LOADED_DIRECTORY_GOES_ON_AFTER_ITS_ENTRIES_CALLS: [Call; 4] = [
    Mkdir("/d", 0o755),
    Create("/d/a", 0o644),
    Create("/d/b", 0o644),
    Unlink("/d/b"),
];

#[test]
fn a_loaded_directory_goes_on_after_its_entries(rt: HostRuntime) -> Result<(), Fail> {
    assert_eq!(rt;
        first_wrong_loaded(
            rt.alloc(),
            &A_LOADED_DIRECTORY_GOES_ON_AFTER_ITS_ENTRIES_CALLS,
            &A_LOADED_DIRECTORY_GOES_ON_AFTER_ITS_ENTRIES_STEPS
        )?,
        None
    );
    Ok(())
}

/// The steps of [`a_tree_may_have_the_greatest_number_and_the_least_time`].
static A_TREE_MAY_HAVE_THE_GREATEST_NUMBER_AND_THE_LEAST_TIME_STEPS: [Step; 4] = [
    See(Tree(
        "1 755 0 dir: 3=f=9223372036854775807\n\
9223372036854775807 644 -9223372036854775808 0:\n",
    )),
    Do(Unlink("/f")),
    Do(Create("/g", 0o644)),
    See(Facts(At("/g"), 2, 0o100_644, 1, 0, 0)),
];

#[test]
fn a_tree_may_have_the_greatest_number_and_the_least_time(rt: HostRuntime) -> Result<(), Fail> {
    assert_eq!(rt;
        first_wrong_of_file(
            rt.alloc(),
            (3, 9_223_372_036_854_775_807, i64::MIN),
            &A_TREE_MAY_HAVE_THE_GREATEST_NUMBER_AND_THE_LEAST_TIME_STEPS
        )?,
        None
    );
    Ok(())
}
