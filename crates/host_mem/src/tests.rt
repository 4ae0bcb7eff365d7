//! Each call with ample memory, at the borders of what is there.
use super::HostMem;
use std::test::Fail;

#[test]
fn structures_at_multiples_of_eight(rt: HostRuntime) -> Result<(), Fail> {
    let mut memory = HostMem::new(rt.alloc());
    for (text, address) in [
        (b"abc".as_slice(), 65_536),
        (b"".as_slice(), 65_544),
        (b"12345678".as_slice(), 65_544),
        (b"z".as_slice(), 65_552),
    ] {
        assert_eq!(rt; memory.push(text).ok(), Some(address));
    }
    for (address, len, bytes) in [
        (65_536, 4, Some(b"abc\0".as_slice())),
        (65_542, 3, Some(b"\0\x001".as_slice())),
        (65_552, 1, Some(b"z".as_slice())),
        (65_553, 0, Some(b"".as_slice())),
        (65_552, 2, None),
        (65_554, 0, None),
        (65_535, 1, None),
        (65_535, 0, None),
        (u64::MAX, 1, None),
        (65_536, u64::MAX, None),
    ] {
        assert!(rt; memory.read(address, len) == bytes, "{len} at {address}");
    }
    Ok(())
}

#[test]
fn writes_and_clears(rt: HostRuntime) -> Result<(), Fail> {
    let mut memory = HostMem::new(rt.alloc());
    memory.push(b"abcdef").ok().ok_or("no memory")?;
    for (address, bytes, done) in [
        (65_537, b"XY".as_slice(), true),
        (65_541, b"Z".as_slice(), true),
        (65_541, b"12".as_slice(), false),
        (65_535, b"1".as_slice(), false),
        (65_542, b"".as_slice(), true),
        (65_543, b"".as_slice(), false),
    ] {
        assert_eq!(rt; memory.write(address, bytes), done, "at {address}");
    }
    assert!(rt; memory.read(65_536, 6) == Some(b"aXYdeZ".as_slice()));
    memory.clear();
    assert!(rt; memory.read(65_536, 1).is_none());
    assert!(rt; memory.read(65_536, 0) == Some(b"".as_slice()));
    Ok(())
}

#[test]
fn zeros_and_bytes_in_place(rt: HostRuntime) -> Result<(), Fail> {
    let mut memory = HostMem::new(rt.alloc());
    memory.push(b"abc").ok().ok_or("no memory")?;
    assert_eq!(rt; memory.push_zeros(2).ok(), Some(65_544));
    assert!(rt; memory.as_slice() == b"abc\0\0\0\0\0\0\0".as_slice());
    for byte in memory.as_mut_slice() {
        *byte = b'x';
    }
    assert!(rt; memory.read(65_543, 3) == Some(b"xxx".as_slice()));
    Ok(())
}

#[test]
fn room_to_the_end(rt: HostRuntime) -> Result<(), Fail> {
    let mut memory = HostMem::new(rt.alloc());
    assert_eq!(rt; memory.room_from(65_536), 0);
    memory.push(b"abcdef").ok().ok_or("no memory")?;
    for (address, room) in [
        (65_536, 6),
        (65_541, 1),
        (65_542, 0),
        (65_543, 0),
        (65_535, 0),
        (0, 0),
        (u64::MAX, 0),
    ] {
        assert_eq!(rt; memory.room_from(address), room, "from {address}");
    }
    Ok(())
}
