//! Each call with ample memory, over bytes that end on an absent page.
use super::{
    PathError, Vector, args, fresh_room, load_buffer, load_structure, path, register_words,
    signed_word_at, six_words, stack_pair, store_buffer, store_structure, word_at,
};
use guest_space::Space;
use host_mem::{FIRST_ADDRESS, HostMem};
use kernel_core::Errno;
use mips_exec::Cpu;
use std::alloc::Global;
use std::test::Fail;

/// Page 0 and pages 0x10 and 0x11 readable and writable, 0x12 readable alone, whose last eight bytes
/// are `last`; the page behind is absent.
fn sample(alloc: Global, last: &[u8; 8]) -> Result<Space, Fail> {
    let mut space = Space::new(alloc).ok().ok_or("no memory")?;
    space.map(0, 1, 3).ok().ok_or("not mapped")?;
    space.map(0x10, 3, 3).ok().ok_or("not mapped")?;
    space.copy_out(0x1_2FF8, last).ok().ok_or("not written")?;
    space.protect(0x12, 1, 1);
    Ok(space)
}

#[test]
fn words_of_a_call(rt: HostRuntime) -> Result<(), Fail> {
    let space = sample(rt.alloc(), b"\x11\x22\x33\x44\0\0\0\x05")?;
    let mut cpu = Cpu::new(0x40_0000);
    for (register, value) in [(2, 4003), (4, 10), (5, 20), (6, 30), (7, 40)] {
        cpu.set_register(register, value);
    }
    for (sp, stack, pair, six) in [
        (
            0x1_2FE8,
            [Some(0x1122_3344), Some(5), None, None],
            Some(0x1122_3344_0000_0005),
            [10, 20, 30, 40, 0x1122_3344, 5],
        ),
        (
            0x1_2FEC,
            [Some(5), None, None, None],
            None,
            [10, 20, 30, 40, 5, 0],
        ),
        (
            0xFFFF_FFF0,
            [Some(0), Some(0), Some(0), Some(0)],
            Some(0),
            [10, 20, 30, 40, 0, 0],
        ),
    ] {
        cpu.set_register(29, sp);
        let words = args(&space, &cpu);
        assert_eq!(rt; words.nr, 4003);
        assert!(rt; words.reg == [10, 20, 30, 40]);
        assert!(rt; words.stack == stack, "at {sp}");
        assert!(rt; stack_pair(&words) == pair, "at {sp}");
        assert!(rt; six_words(&words) == six, "at {sp}");
    }
    let words = register_words(&cpu);
    assert_eq!(rt; words.nr, 4003);
    assert!(rt; words.reg == [10, 20, 30, 40]);
    assert!(rt; words.stack == [None; 4]);
    Ok(())
}

#[test]
fn words_of_a_structure(rt: HostRuntime) -> Result<(), Fail> {
    let bytes = b"\x00\xFF\xFF\xFF\xFE\x7F\x00\x00\x01";
    for (place, word, signed) in [
        (0, 0x00FF_FFFF, 0x00FF_FFFF),
        (1, 0xFFFF_FFFE, -2),
        (5, 0x7F00_0001, 0x7F00_0001),
    ] {
        assert!(rt; word_at(bytes, place) == word, "at {place}");
        assert!(rt; signed_word_at(bytes, place) == signed, "at {place}");
    }
    Ok(())
}

/// The length of the path at an address, or the words that tell why there is none.
fn path_at(alloc: Global, space: &Space, address: u32) -> (&'static str, usize) {
    match path(alloc, space, address) {
        Ok(bytes) => ("path", bytes.len()),
        Err(PathError::Fault) => ("fault", 0),
        Err(PathError::TooLong) => ("too long", 0),
        Err(PathError::NoMemory) => ("no memory", 0),
    }
}

#[test]
fn paths_up_to_a_nul(rt: HostRuntime) -> Result<(), Fail> {
    let mut space = sample(rt.alloc(), b"/tmp/\0xy")?;
    space.map(0x20, 2, 3).ok().ok_or("not mapped")?;
    space.map(0x30, 1, 3).ok().ok_or("not mapped")?;
    let page = vec![in rt.alloc(); b'a'; 4096].ok().ok_or("no memory")?;
    for address in [0x2_0000, 0x3_0000] {
        space.copy_out(address, &page).ok().ok_or("not written")?;
    }
    for (address, answer) in [
        (0x1_2FF8, ("path", 5)),
        (0x1_2FFD, ("path", 0)),
        (0x1_2FFE, ("fault", 0)),
        (0x1_3000, ("fault", 0)),
        (0xFFFF_FFFF, ("fault", 0)),
        (0x2_0000, ("too long", 0)),
        (0x2_0001, ("path", 4095)),
        (0x2_0FC1, ("path", 63)),
        (0x2_0FC0, ("path", 64)),
        (0x3_0000, ("too long", 0)),
        (0x3_0001, ("fault", 0)),
    ] {
        assert!(rt;
            path_at(rt.alloc(), &space, address) == answer,
            "at {address}"
        );
    }
    let found = path(rt.alloc(), &space, 0x1_2FF8).ok().ok_or("no path")?;
    assert!(rt; found.as_slice() == b"/tmp/".as_slice());
    Ok(())
}

#[test]
fn structures_whole_or_not_at_all(rt: HostRuntime) -> Result<(), Fail> {
    let mut space = sample(rt.alloc(), b"12345678")?;
    let mut bytes = *b"none";
    assert!(rt; load_structure(&space, 0x1_2FFD, &mut bytes) == Err(Errno::EFAULT));
    assert!(rt; bytes == *b"none");
    assert!(rt; load_structure(&space, 0x1_2FFC, &mut bytes) == Ok(()));
    assert!(rt; bytes == *b"5678");
    for (address, stored) in [(0x1_1FFD, false), (0x1_3000, false), (0x1_1FFC, true)] {
        assert_eq!(rt;
            store_structure(&mut space, address, b"abcd").ok(),
            Some(stored)
        );
    }
    assert!(rt; load_structure(&space, 0x1_1FFC, &mut bytes) == Ok(()));
    assert!(rt; bytes == *b"abcd");
    Ok(())
}

#[test]
fn buffers_by_their_prefix(rt: HostRuntime) -> Result<(), Fail> {
    let mut space = sample(rt.alloc(), b"12345678")?;
    let mut mem = HostMem::new(rt.alloc());
    for (address, count, bytes) in [
        (0x1_2FFB, 3, b"456".as_slice()),
        (0x1_2FFB, 9, b"45678".as_slice()),
        (0x1_3000, 9, b"".as_slice()),
        (0x1_2FFB, 0, b"".as_slice()),
    ] {
        assert!(rt; load_buffer(&space, &mut mem, address, count).is_ok());
        assert!(rt; mem.as_slice() == bytes, "{count} at {address}");
    }
    assert!(rt; fresh_room(&mut mem, 3).is_ok());
    assert!(rt; mem.as_slice() == b"\0\0\0".as_slice());
    mem.write(FIRST_ADDRESS, b"xyz");
    for (address, count) in [(0x1_1FFE, 2), (0x1_1FFE, 3), (0x1_1FF0, 9)] {
        assert!(rt; store_buffer(&mut space, &mem, address, count).is_ok());
    }
    assert!(rt; load_buffer(&space, &mut mem, 0x1_1FF0, 16).is_ok());
    assert!(rt; mem.as_slice() == b"xyz\0\0\0\0\0\0\0\0\0\0\0xy".as_slice());
    Ok(())
}

/// A vector of three buffers at 0x1_0000, of which four bytes, two of four and none may be loaded.
const VECTOR: [u8; 24] = [
    0, 1, 0x01, 0x00, 0, 0, 0, 4, 0, 1, 0x2F, 0xFE, 0, 0, 0, 4, 0, 1, 0x02, 0x00, 0, 0, 0, 4,
];

#[test]
fn vectors_and_their_errors(rt: HostRuntime) -> Result<(), Fail> {
    let mut space = sample(rt.alloc(), b"\x80\0\0\0\x40\0\0\0")?;
    space.copy_out(0x1_0000, &VECTOR).ok().ok_or("not written")?;
    let greatest = b"\0\0\0\0\x7F\xFF\xFF\xFF\0\0\0\0\0\0\0\x01";
    space
        .copy_out(0x1_0100, greatest)
        .ok()
        .ok_or("not written")?;
    for (address, count, error) in [
        (0x1_0100, 1, None),
        (0x1_0100, 2, Some(Errno::EINVAL)),
        (0x1_0000, 1025, Some(Errno::EINVAL)),
        (0x1_3000, 1025, Some(Errno::EINVAL)),
        (0x1_2FF0, 3, Some(Errno::EFAULT)),
        (0x1_2FF4, 1, Some(Errno::EINVAL)),
        (0x1_2FF0, 2, None),
        (0x1_3000, 0, None),
        (0x1_1000, 1024, None),
    ] {
        assert!(rt;
            Vector::read(&space, address, count).err() == error,
            "{count} at {address}"
        );
    }
    Ok(())
}

#[test]
fn bytes_of_vectors(rt: HostRuntime) -> Result<(), Fail> {
    let mut space = sample(rt.alloc(), b"12345678")?;
    space.copy_out(0x1_0000, &VECTOR).ok().ok_or("not written")?;
    space.copy_out(0x1_0100, b"abcd").ok().ok_or("not written")?;
    let mut mem = HostMem::new(rt.alloc());
    let vector = Vector::read(&space, 0x1_0000, 3).ok().ok_or("no vector")?;
    assert_eq!(rt; (vector.total(), vector.accessible(&space)), (12, 4));
    assert_eq!(rt; vector.ranges().len(), 3);
    assert!(rt; vector.load(&space, &mut mem).is_ok());
    assert!(rt; mem.as_slice() == b"abcd78".as_slice());
    space.protect(0x12, 1, 3);
    assert_eq!(rt; vector.accessible(&space), 6);
    assert!(rt; fresh_room(&mut mem, 6).is_ok());
    mem.write(FIRST_ADDRESS, b"ABCDEF");
    assert!(rt; vector.store(&mut space, &mem, 5).is_ok());
    assert!(rt; vector.load(&space, &mut mem).is_ok());
    assert!(rt; mem.as_slice() == b"ABCDE8".as_slice());
    Ok(())
}
