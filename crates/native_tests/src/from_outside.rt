//! What comes from outside: devices that fail, the clock and posted signals; and the tree at the end.

use crate::calls::{first_wrong, first_wrong_of_streams, kernel_of};
use native_kernel::NativeKernel;
use native_scripts::trees::{EMPTY_TREE, tree_of};
use std::alloc::Global;
use std::test::Fail;

/// The first two calls of each stream fail. A call that does not come to a stream, and one of no byte, is none of them.
const FAILING: &str = "
    write 0 at 3 : room 3 ! ebadf
    write 1 at 0 : room 3 = 0
    read 0 at 3 : room 3 stops read_fault
    write 1 at 3 : room 3 stops write_fault
    write 2 at 3 : room 3 stops write_fault
    read 1 at 3 : room 3 ! ebadf
    read 0 at 3 : room 3 stops read_fault
    write 1 at 3 : room 3 stops write_fault
    read 0 at 3 : room 3 = 2 : <xy> room 1
    write 1 at 3 : room 3 = 3
    write 2 at 3 : room 3 stops write_fault
    output <zzz>
    errors
";

const CLOCK_AND_POSTS: &str = "
    next_time none
    deliverable no
    post usr1 queued
    post usr1 dropped
    deliverable yes
    clock 5000
";

#[test]
fn devices_that_fail(rt: HostRuntime) -> Result<(), Fail> {
    assert_eq!(rt;
        first_wrong_of_streams(rt.alloc(), "xy", &[1, 2], FAILING)?,
        None
    );
    Ok(())
}

/// How many nodes the tree of a kernel has after these steps.
fn nodes_after(alloc: Global, kernel: &mut NativeKernel, text: &str) -> Result<usize, Fail> {
    if first_wrong(alloc, kernel, text)?.is_some() {
        return Err(Fail::from("a step came out otherwise"));
    }
    match kernel.tree() {
        Ok(tree) => Ok(tree.nodes.as_slice().len()),
        Err(_) => Err(Fail::from("no memory")),
    }
}

fn nodes_of_new(alloc: Global) -> Result<usize, Fail> {
    let mut kernel = kernel_of(alloc, tree_of(alloc, EMPTY_TREE)?, "")?;
    nodes_after(alloc, &mut kernel, CLOCK_AND_POSTS)
}

#[test]
fn clock_posts_and_tree(rt: HostRuntime) -> Result<(), Fail> {
    assert_eq!(rt; nodes_of_new(rt.alloc())?, 1);
    Ok(())
}
