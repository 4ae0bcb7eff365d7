//! A tree that is loaded, changed by a hundred calls and given back.

use crate::calls::{first_wrong, kernel_of};
use crate::tree_texts::is_tree;
use native_kernel::NativeKernel;
use native_scripts::trees::{EMPTY_TREE, tree_of};
use std::alloc::Global;
use std::test::Fail;

/// What makes the tree that is loaded, at 100 s: its node 5 is free, and some of its entries went again.
const MAKING: &str = "
    openat at_fdcwd '/a o_creat+o_wronly 0o644 = 3
    write 3 <hello> 5 = 5
    mkdirat at_fdcwd '/x 0o700 = 0
    unlinkat at_fdcwd '/x at_removedir = 0
    mkdirat at_fdcwd '/d 0o711 = 0
    openat at_fdcwd '/d/b o_creat+o_wronly 0o600 = 4
    pwrite64 4 <tail> 4 8192 = 4
    ftruncate 4 10000 = 0
    mkdirat at_fdcwd '/x 0o700 = 0
    mkdirat at_fdcwd '/d/e 0o700 = 0
    symlinkat 'd/b at_fdcwd '/l = 0
    unlinkat at_fdcwd '/x at_removedir = 0
    utimensat 4 0 at : long 0 0 -1 0 = 0
    close 4 = 0
";

/// The tree that is loaded.
const BEFORE: &str = "
    1 0o755 100 directory 3 a 2 5 d 3 7 l 7
    2 0o644 100 file 5 0 hello
    3 0o711 100 directory 3 b 4 4 e 6
    4 0o600 -1 file 10000 2 tail
    6 0o700 100 directory
    7 0o777 100 link d/b
";

/// The clock begins at 1,000 s and moves on by one second at a time. First the file `/a` and the directory `/d` change,
/// and the file behind `/l`.
const CONTENTS_CHANGE: &str = "
    openat at_fdcwd '/a o_rdwr = 3
    lseek 3 0 2 = 5
    write 3 <_world> 6 = 6
    pwrite64 3 <J> 1 0 = 1
    ftruncate 3 9 = 0
    fchmod 3 0o640 = 0
    close 3 = 0
    truncate '/l 8193 = 0
    fchmodat at_fdcwd '/d 0o750 = 0
    utimensat at_fdcwd at+32 at : long 0 0 -5 1 '/d/b = 0
";

/// Names come and go: the directory `/new` is the node 5, and `/d/e` the node 7 that `/l` had.
const NAMES_CHANGE: &str = "
    clock 1000000000
    mkdirat at_fdcwd '/new 0o777 = 0
    openat at_fdcwd '/new/f o_creat+o_wronly 0o666 = 3
    write 3 <x> 1 = 1
    close 3 = 0
    linkat at_fdcwd '/new/f at_fdcwd '/d/g = 0
    symlinkat 'f at_fdcwd '/new/s = 0
    renameat at_fdcwd '/d/e at_fdcwd '/new/e = 0
    unlinkat at_fdcwd '/l = 0
    umask 0 = 0o022
    mkdirat at_fdcwd '/d/e 0o1777 = 0
";

/// Ten files in `/d/e`, the nodes 10 to 19; half of them go, and half get other names.
const TEN_FILES: &str = "
    clock 2000000000
    openat at_fdcwd '/d/e/0 o_creat+o_excl+o_wronly 0o600 = 3
    openat at_fdcwd '/d/e/1 o_creat+o_excl+o_wronly 0o600 = 4
    openat at_fdcwd '/d/e/2 o_creat+o_excl+o_wronly 0o600 = 5
    openat at_fdcwd '/d/e/3 o_creat+o_excl+o_wronly 0o600 = 6
    openat at_fdcwd '/d/e/4 o_creat+o_excl+o_wronly 0o600 = 7
    openat at_fdcwd '/d/e/5 o_creat+o_excl+o_wronly 0o600 = 8
    openat at_fdcwd '/d/e/6 o_creat+o_excl+o_wronly 0o600 = 9
    openat at_fdcwd '/d/e/7 o_creat+o_excl+o_wronly 0o600 = 10
    openat at_fdcwd '/d/e/8 o_creat+o_excl+o_wronly 0o600 = 11
    openat at_fdcwd '/d/e/9 o_creat+o_excl+o_wronly 0o600 = 12
    write 3 <0> 1 = 1
    write 4 <1> 1 = 1
    write 5 <2> 1 = 1
    write 6 <3> 1 = 1
    write 7 <4> 1 = 1
    write 8 <5> 1 = 1
    write 9 <6> 1 = 1
    write 10 <7> 1 = 1
    write 11 <8> 1 = 1
    write 12 <9> 1 = 1
    close 3 = 0
    close 4 = 0
    close 5 = 0
    close 6 = 0
    close 7 = 0
    close 8 = 0
    close 9 = 0
    close 10 = 0
    close 11 = 0
    close 12 = 0
    clock 3000000000
    unlinkat at_fdcwd '/d/e/0 = 0
    unlinkat at_fdcwd '/d/e/2 = 0
    unlinkat at_fdcwd '/d/e/4 = 0
    unlinkat at_fdcwd '/d/e/6 = 0
    unlinkat at_fdcwd '/d/e/8 = 0
    renameat at_fdcwd '/d/e/1 at_fdcwd '/d/e/a = 0
    renameat at_fdcwd '/d/e/3 at_fdcwd '/d/e/b = 0
    renameat at_fdcwd '/d/e/5 at_fdcwd '/d/e/c = 0
    renameat at_fdcwd '/d/e/7 at_fdcwd '/d/e/d = 0
    renameat at_fdcwd '/d/e/9 at_fdcwd '/new/9 = 0
";

/// A name is replaced, directories move, and one is the working one.
const DIRECTORIES_MOVE: &str = "
    clock 4000000000
    renameat at_fdcwd '/d/e/a at_fdcwd '/d/e/b = 0
    renameat at_fdcwd '/d/e at_fdcwd '/e = 0
    chdir '/e = 0
    symlinkat '../a at_fdcwd 's = 0
    readlinkat at_fdcwd 's at+2 8 : room 4 = 4 : <../a>
    openat at_fdcwd 's o_wronly+o_append = 3
    write 3 <!> 1 = 1
    close 3 = 0
    mkdirat at_fdcwd 't 0o700 = 0
    mkdirat at_fdcwd 't/u 0o700 = 0
    chdir 't/u = 0
    faccessat at_fdcwd '../../t/u 7 = 0
    chdir '/ = 0
    unlinkat at_fdcwd '/e/t/u at_removedir = 0
    renameat at_fdcwd '/e/t at_fdcwd '/t = 0
";

/// A file with holes, one without a name, which no tree has, and calls that are refused.
const HOLES_AND_REFUSALS: &str = "
    clock 5000000000
    openat at_fdcwd '/t/big o_creat+o_rdwr 0o600 = 3
    pwrite64 3 <end> 3 12288 = 3
    pwrite64 3 <ab> 2 4096 = 2
    ftruncate 3 12289 = 0
    lseek 3 0 2 = 12289
    fsync 3 = 0
    close 3 = 0
    linkat at_fdcwd '/t/big at_fdcwd '/t/big2 = 0
    unlinkat at_fdcwd '/t/big = 0
    openat at_fdcwd '/gone o_creat+o_rdwr 0o600 = 3
    unlinkat at_fdcwd '/gone = 0
    write 3 <lost> 4 = 4
    mkdirat at_fdcwd '/w 0o755 = 0
    symlinkat '/t/big2 at_fdcwd '/w/l = 0
    linkat at_fdcwd '/w/l at_fdcwd '/w/k at_symlink_follow = 0
    fchmodat at_fdcwd '/w/l 0o7777 = 0
    renameat at_fdcwd '/w/l at_fdcwd '/w/m = 0
    mkdirat at_fdcwd '/w 0o700 ! eexist
    renameat at_fdcwd '/t at_fdcwd '/t/x ! einval
    unlinkat at_fdcwd '/w ! eisdir
    unlinkat at_fdcwd '/w at_removedir ! enotempty
    truncate '/a -1 ! einval
    linkat at_fdcwd '/w at_fdcwd '/y ! eperm
    symlinkat ' at_fdcwd '/y ! enoent
    unlinkat at_fdcwd '/new/9 = 0
";

/// The tree that is given back.
const AFTER: &str = "
    1 0o755 1005 directory 3 a 2 5 d 3 8 new 5 9 e 7 10 t 12 12 w 16
    2 0o640 1004 file 10 0 Jello_wor!
    3 0o750 1004 directory 3 b 4 5 g 8
    4 0o600 -5 file 8193 2 t
    5 0o755 1005 directory 3 f 8 4 s 9 5 e 6
    6 0o700 100 directory
    7 0o1777 1004 directory 15 c 15 16 d 17 17 b 11 18 s 10
    8 0o644 1001 file 1 0 x
    9 0o777 1001 link f
    10 0o777 1004 link ../a
    11 0o600 1002 file 1 0 1
    12 0o700 1005 directory 5 big2 13
    13 0o7777 1005 file 12289 1 ab 3 e
    15 0o600 1002 file 1 0 5
    16 0o755 1005 directory 4 k 13 5 m 18
    17 0o600 1002 file 1 0 7
    18 0o777 1005 link /t/big2
";

/// What changes the tree.
const CHANGES: [&str; 5] = [
    CONTENTS_CHANGE,
    NAMES_CHANGE,
    TEN_FILES,
    DIRECTORIES_MOVE,
    HOLES_AND_REFUSALS,
];

/// Whether a kernel has the tree of a text.
fn has_tree(alloc: Global, kernel: &NativeKernel, text: &str) -> Result<bool, Fail> {
    match kernel.tree() {
        Ok(tree) => is_tree(alloc, &tree, text),
        Err(_) => Err(Fail::from("no memory")),
    }
}

/// A kernel that begins with the tree of another one.
fn loaded(alloc: Global, kernel: &NativeKernel) -> Result<NativeKernel, Fail> {
    match kernel.tree() {
        Ok(tree) => kernel_of(alloc, tree, "epoch 1000 0\n"),
        Err(_) => Err(Fail::from("no memory")),
    }
}

/// The first change that does not come out as it should: the number of its text and its line, both counted from 0.
fn first_wrong_change(
    alloc: Global,
    kernel: &mut NativeKernel,
) -> Result<Option<(usize, usize)>, Fail> {
    for (number, text) in CHANGES.iter().enumerate() {
        if let Some(place) = first_wrong(alloc, kernel, text)? {
            return Ok(Some((number, place)));
        }
    }
    Ok(None)
}

/// Changes the tree, and tells the first change that does not come out so.
fn change(alloc: Global, kernel: &mut NativeKernel) -> Result<Option<(usize, usize)>, Fail> {
    if let Some(wrong) = first_wrong_change(alloc, kernel)? {
        return Ok(Some(wrong));
    }
    if !has_tree(alloc, kernel, AFTER)? {
        return Err(Fail::from("the tree that is given back"));
    }
    Ok(None)
}

/// The same of a kernel with the tree of another one.
fn change_loaded(alloc: Global, kernel: &NativeKernel) -> Result<Option<(usize, usize)>, Fail> {
    let mut kernel = loaded(alloc, kernel)?;
    change(alloc, &mut kernel)
}

/// Makes the tree, and then changes it in another kernel.
fn make_and_change(
    alloc: Global,
    kernel: &mut NativeKernel,
) -> Result<Option<(usize, usize)>, Fail> {
    if first_wrong(alloc, kernel, MAKING)?.is_some() {
        return Err(Fail::from("what makes the tree"));
    }
    if !has_tree(alloc, kernel, BEFORE)? {
        return Err(Fail::from("the tree that is made"));
    }
    change_loaded(alloc, kernel)
}

fn first_wrong_of_two_kernels(alloc: Global) -> Result<Option<(usize, usize)>, Fail> {
    let mut kernel = kernel_of(alloc, tree_of(alloc, EMPTY_TREE)?, "epoch 100 0\n")?;
    make_and_change(alloc, &mut kernel)
}

#[test]
fn changed_tree(rt: HostRuntime) -> Result<(), Fail> {
    assert_eq!(rt; first_wrong_of_two_kernels(rt.alloc())?, None);
    Ok(())
}
