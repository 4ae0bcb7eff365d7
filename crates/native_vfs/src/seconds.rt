//! The times of a file tree, in seconds, and those of nodes, in nanoseconds.
ghost use Rattle.std.specs.Prelude.{◌≡◌};
ghost use Rattle.kernel_core.specs.FileSystem.{IsTime};
ghost use Rattle.kernel_core.specs.LoadedTree as tree;

const NANOSECONDS_PER_SECOND: i128 = 1_000_000_000;

/// A time of a tree as one of a node.
pub(crate) fn nanoseconds(seconds: i64) -> i128
    ensures { result ≡ tree.nanoseconds seconds }
{
    i128::from(seconds) * NANOSECONDS_PER_SECOND
}

/// A time of a node as one of a tree, rounded down.
pub(crate) fn whole_seconds(time: i128) -> i64
    requires { IsTime time }
    ensures { result ≡ tree.whole_seconds time }
{
    time.div_euclid(NANOSECONDS_PER_SECOND) as i64
}
