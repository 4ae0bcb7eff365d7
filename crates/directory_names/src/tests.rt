//! Each call once with ample memory: look-ups, the order of the entries, and cookies, which are never
//! used again, up to the greatest.
ghost use Rattle.kernel_core.specs.ValidTree.{IsName};

use super::{Directory, NodeRef};
use kernel_core::Bytes;
use std::alloc::Global;
use std::test::Fail;

/// Adds the name as an entry of its own.
fn add(
    alloc: Global,
    directory: &mut Directory,
    name: &[u8],
    node: (u64, usize),
) -> Result<(), Fail>
    requires { IsName name.now }
{
    directory.reserve().ok().ok_or("no memory")?;
    if directory.find(name).is_some() || directory.greatest() >= 2_147_483_647 {
        return Err("not added".into());
    }
    let (number, key) = node;
    directory.add(Bytes::from(name.to_vec(alloc)?), NodeRef { number, key });
    Ok(())
}

/// Loads the name with its cookie.
fn load(
    alloc: Global,
    directory: &mut Directory,
    cookie: u32,
    name: &[u8],
    node: (u64, usize),
) -> Result<(), Fail>
    requires { IsName name.now }
{
    if directory.find(name).is_some() || cookie <= directory.greatest() || cookie > 2_147_483_647 {
        return Err("not loaded".into());
    }
    let (number, key) = node;
    directory
        .load(
            cookie,
            Bytes::from(name.to_vec(alloc)?),
            NodeRef { number, key },
        )
        .ok()
        .ok_or("no memory")?;
    Ok(())
}

/// The number and the key of the node that a name stands for.
fn found(directory: &Directory, name: &[u8]) -> Option<(u64, usize)> {
    directory.find(name).map(|node| (node.number, node.key))
}

/// The cookie, the name and the node's number of the entry after a cookie.
fn after(directory: &Directory, cookie: u32) -> Option<(u32, &[u8], u64)> {
    let entry = directory.entry_after(cookie)?;
    Some((entry.cookie, entry.name, entry.node.number))
}

#[test]
fn names_and_cookies(rt: HostRuntime) -> Result<(), Fail> {
    let mut directory = Directory::new(rt.alloc());
    assert!(rt; directory.is_empty());
    assert_eq!(rt; (directory.len(), directory.greatest()), (0, 2));
    assert!(rt; after(&directory, 0).is_none());
    add(rt.alloc(), &mut directory, b"a", (10, 7))?;
    add(rt.alloc(), &mut directory, b"b", (11, 8))?;
    add(rt.alloc(), &mut directory, b"ab", (10, 7))?;
    assert_eq!(rt; (directory.len(), directory.greatest()), (3, 5));
    for (name, node) in [
        (b"a".as_slice(), Some((10, 7))),
        (b"b".as_slice(), Some((11, 8))),
        (b"ab".as_slice(), Some((10, 7))),
        (b"".as_slice(), None),
        (b"abc".as_slice(), None),
        (b"A".as_slice(), None),
    ] {
        assert_eq!(rt; found(&directory, name), node);
    }
    Ok(())
}

#[test]
fn removal_keeps_order_and_cookies(rt: HostRuntime) -> Result<(), Fail> {
    let mut directory = Directory::new(rt.alloc());
    add(rt.alloc(), &mut directory, b"one", (21, 1))?;
    add(rt.alloc(), &mut directory, b"two", (22, 2))?;
    add(rt.alloc(), &mut directory, b"three", (23, 3))?;
    add(rt.alloc(), &mut directory, b"four", (24, 4))?;
    directory.remove(b"two");
    directory.remove(b"four");
    directory.remove(b"five");
    assert_eq!(rt; (directory.len(), directory.greatest()), (2, 6));
    assert_eq!(rt; found(&directory, b"two"), None);
    assert_eq!(rt; found(&directory, b"three"), Some((23, 3)));
    add(rt.alloc(), &mut directory, b"two", (25, 5))?;
    assert!(rt; !directory.is_empty());
    for (cookie, entry) in [
        (0, Some((3, b"one".as_slice(), 21))),
        (2, Some((3, b"one".as_slice(), 21))),
        (3, Some((5, b"three".as_slice(), 23))),
        (4, Some((5, b"three".as_slice(), 23))),
        (5, Some((7, b"two".as_slice(), 25))),
        (6, Some((7, b"two".as_slice(), 25))),
        (7, None),
        (u32::MAX, None),
    ] {
        assert!(rt; after(&directory, cookie) == entry, "after {cookie}");
    }
    Ok(())
}

#[test]
fn loads_up_to_the_greatest_cookie(rt: HostRuntime) -> Result<(), Fail> {
    let mut directory = Directory::new(rt.alloc());
    load(rt.alloc(), &mut directory, 5, b"five", (31, 0))?;
    assert_eq!(rt; directory.greatest(), 5);
    add(rt.alloc(), &mut directory, b"six", (32, 1))?;
    load(rt.alloc(), &mut directory, 2_147_483_647, b"last", (33, 2))?;
    assert_eq!(rt; (directory.len(), directory.greatest()), (3, 2_147_483_647));
    assert!(rt; after(&directory, 5) == Some((6, b"six".as_slice(), 32)));
    assert!(rt; after(&directory, 6) == Some((2_147_483_647, b"last".as_slice(), 33)));
    assert!(rt; after(&directory, 2_147_483_647).is_none());
    directory.remove(b"last");
    assert_eq!(rt; directory.greatest(), 2_147_483_647);
    Ok(())
}
