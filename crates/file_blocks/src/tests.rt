//! Each call with ample memory: prefixes by the blocks to spare, sparse reads, cuts, borders of blocks, and the walk.
use super::Content;
use std::alloc::Global;
use std::test::Fail;

/// The count of a write that keeps to what `write` requires.
fn write(content: &mut Content, at: u64, bytes: &[u8], spare: u32) -> Result<usize, Fail> {
    let end = at.saturating_add(bytes.len() as u64);
    if end > 1 << 44 || content.blocks() > 99 || spare > 99 {
        return Err("no such write")?;
    }
    Ok(content.write(at, bytes, spare).ok().ok_or("no memory")?)
}

/// A content with these bytes written at these places, with ample blocks to spare.
fn with_writes(alloc: Global, writes: &[(u64, &[u8])]) -> Result<Content, Fail> {
    let mut content = Content::new(alloc);
    for (at, bytes) in writes {
        if write(&mut content, *at, bytes, 16)? != bytes.len() {
            return Err("a short write")?;
        }
    }
    Ok(content)
}

/// Loads a block that lies below the size.
fn load(content: &mut Content, index: u32, bytes: &[u8]) -> Result<(), Fail> {
    let inside = content.size() / 4096 > u64::from(index);
    if bytes.len() != 4096 || !inside || content.blocks() > 99 {
        return Err("no such block")?;
    }
    Ok(content.load_block(index, bytes).ok().ok_or("no memory")?)
}

#[test]
fn writes_as_far_as_blocks_are_to_spare(rt: HostRuntime) -> Result<(), Fail> {
    // Where, how many bytes, how many blocks to spare; then the count, the size and the blocks.
    let bytes = [7u8; 9000];
    for (at, length, spare, count, size, blocks) in [
        (0, 5000, 1, 4096, 4096, 1),
        (0, 5000, 2, 5000, 5000, 2),
        (0, 5000, 0, 0, 0, 0),
        (4095, 2, 1, 1, 4096, 1),
        (100, 9000, 2, 8092, 8192, 2),
        (1 << 44, 0, 3, 0, 0, 0),
        ((1 << 44) - 2, 2, 1, 2, 1 << 44, 1),
    ] {
        let mut content = Content::new(rt.alloc());
        let written = write(&mut content, at, &bytes[..length], spare)?;
        assert_eq!(rt; written, count);
        assert_eq!(rt; (content.size(), content.blocks()), (size, blocks));
    }
    Ok(())
}

#[test]
fn a_kept_block_takes_nothing_anew(rt: HostRuntime) -> Result<(), Fail> {
    let mut content = with_writes(rt.alloc(), &[(4096, b"second")])?;
    assert_eq!(rt; write(&mut content, 8190, b"abcd", 0)?, 2);
    assert_eq!(rt; write(&mut content, 4094, b"abcd", 0)?, 0);
    assert_eq!(rt; (content.size(), content.blocks()), (8192, 1));
    Ok(())
}

#[test]
fn reads_across_borders_and_holes(rt: HostRuntime) -> Result<(), Fail> {
    let content = with_writes(rt.alloc(), &[(4094, b"abcd"), (12288, b"e")])?;
    assert_eq!(rt; (content.size(), content.blocks()), (12289, 3));
    for (at, count, text) in [
        (4092, 8, b"\0\0abcd\0\0"),
        (4096, 8, b"cd\0\0\0\0\0\0"),
        (8192, 8, b"\0\0\0\0\0\0\0\0"),
        (12286, 3, b"\0\0e....."),
        (12289, 0, b"........"),
        (u64::MAX, 0, b"........"),
    ] {
        let mut buffer = *b"........";
        assert_eq!(rt; content.read(at, &mut buffer), count);
        assert_eq!(rt; buffer, *text);
    }
    Ok(())
}

#[test]
fn a_cut_leaves_zeros(rt: HostRuntime) -> Result<(), Fail> {
    // From 9000 bytes of 7 to a size, and then to 9000 again: the blocks after each, and the bytes at the cut.
    for (to, blocks, at, text) in [
        (5000, 2, 4998, [7u8, 7, 0, 0]),
        (4096, 1, 4094, [7, 7, 0, 0]),
        (4097, 2, 4095, [7, 7, 0, 0]),
        (0, 0, 0, [0, 0, 0, 0]),
        (9000, 3, 8996, [7, 7, 7, 7]),
        (1 << 44, 3, 8998, [7, 7, 0, 0]),
    ] {
        let mut content = with_writes(rt.alloc(), &[(0, &[7u8; 9000])])?;
        content.set_size(to);
        assert_eq!(rt; (content.size(), content.blocks()), (to, blocks));
        content.set_size(9002);
        let mut buffer = [1u8; 4];
        assert_eq!(rt; content.read(at, &mut buffer), 4);
        assert_eq!(rt; buffer, text);
    }
    Ok(())
}

#[test]
fn a_block_between_two_is_read_with_both(rt: HostRuntime) -> Result<(), Fail> {
    let mut content = with_writes(rt.alloc(), &[(0, &[1u8; 4096]), (8192, &[3u8; 4096])])?;
    assert_eq!(rt; content.blocks(), 2);
    assert_eq!(rt; write(&mut content, 4096, &[2u8; 4096], 1)?, 4096);
    assert_eq!(rt; content.blocks(), 3);
    for (at, text) in [(4095, [1u8, 2]), (8191, [2, 3])] {
        let mut buffer = [0u8; 2];
        assert_eq!(rt; content.read(at, &mut buffer), 2);
        assert_eq!(rt; buffer, text);
    }
    Ok(())
}

#[test]
fn a_file_cut_and_made_longer_is_zeros_there(rt: HostRuntime) -> Result<(), Fail> {
    let mut content = with_writes(rt.alloc(), &[(0, &[7u8; 10_000])])?;
    assert_eq!(rt; content.blocks(), 3);
    content.set_size(5000);
    content.set_size(10_000);
    assert_eq!(rt; (content.size(), content.blocks()), (10_000, 2));
    let mut buffer = [1u8; 5000];
    assert_eq!(rt; content.read(5000, &mut buffer), 5000);
    assert!(rt; buffer.iter().all(|byte| *byte == 0));
    Ok(())
}

#[test]
fn loads_and_walks(rt: HostRuntime) -> Result<(), Fail> {
    let mut content = Content::new(rt.alloc());
    content.set_size(5 * 4096);
    for (index, byte) in [(4, 40u8), (1, 10), (3, 30)] {
        load(&mut content, index, &[byte; 4096])?;
    }
    assert_eq!(rt; (content.size(), content.blocks()), (20480, 3));
    for (from, found) in [
        (0, Some((1, 10))),
        (1, Some((1, 10))),
        (2, Some((3, 30))),
        (4, Some((4, 40))),
        (5, None),
        (1 << 32, None),
    ] {
        let kept = content
            .first_from(from)
            .map(|(index, bytes)| (index, bytes[4095]));
        assert_eq!(rt; kept, found);
    }
    let mut buffer = [1u8; 2];
    assert_eq!(rt; content.read(3 * 4096 - 1, &mut buffer), 2);
    assert_eq!(rt; buffer, [0, 30]);
    Ok(())
}
