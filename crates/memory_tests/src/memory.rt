//! Each call once with ample memory, and the worked rows of a write whose last bytes lie on an absent page.

use guest_space::{Denied, MapError, Space, StoreError, Why};
use std::alloc::Global;
use std::process::Abort;
use std::test::Fail;

/// The words that tell an answer of a load or a store.
fn told(why: Why) -> &'static str {
    match why {
        Why::Absent => "absent",
        Why::Forbidden => "forbidden",
        Why::Beyond => "beyond",
    }
}

fn load_answer(answer: Result<u32, Denied>) -> (&'static str, u32) {
    match answer {
        Ok(value) => ("value", value),
        Err(denied) => (told(denied.why), denied.addr),
    }
}

fn store_answer(answer: Result<(), StoreError>) -> (&'static str, u32) {
    match answer {
        Ok(()) => ("written", 0),
        Err(StoreError::Denied(denied)) => (told(denied.why), denied.addr),
        Err(StoreError::NoMemory) => ("no memory", 0),
    }
}

fn map_answer(answer: Result<(), MapError>) -> &'static str {
    match answer {
        Ok(()) => "mapped",
        Err(MapError::Full) => "full",
        Err(MapError::NoPlace) => "no place",
        Err(MapError::NoMemory) => "no memory",
    }
}

/// Pages 0x10 and 0x11 readable and writable, 0x12 readable, 0x13 executable, 0x14 with no permission,
/// and the last page of user space.
fn map_sample(space: &mut Space) -> Result<(), Fail> {
    space.set_break(0x2_0000);
    for (first, count, protection) in [
        (0x10, 2, 3),
        (0x12, 1, 1),
        (0x13, 1, 4),
        (0x14, 1, 0),
        (0x7_FFF7, 1, 3),
    ] {
        space
            .map(first, count, protection)
            .ok()
            .ok_or("not mapped")?;
    }
    Ok(())
}

fn sample(alloc: Global) -> Result<Space, Fail> {
    let mut space = Space::new(alloc).ok().ok_or("no memory")?;
    map_sample(&mut space)?;
    Ok(space)
}

#[test]
fn loads_and_stores(rt: HostRuntime) -> Result<(), Fail> {
    let mut space = sample(rt.alloc())?;
    loads_and_stores_in(&rt, &mut space)
}

fn loads_and_stores_in(rt: &impl Abort, space: &mut Space) -> Result<(), Fail> {
    assert_eq!(rt;
        store_answer(space.store(0x1_0FFE, 4, 0x1122_3344)),
        ("written", 0)
    );
    for (addr, n, value) in [
        (0x1_0FFE, 4, 0x1122_3344),
        (0x1_0FFE, 1, 0x11),
        (0x1_0FFF, 2, 0x2233),
        (0x1_1000, 2, 0x3344),
        (0x1_1001, 1, 0x44),
        (0x1_0FFC, 4, 0x1122),
        (0x1_2000, 4, 0),
        (0x1_3000, 1, 0),
    ] {
        assert_eq!(rt; load_answer(space.load(addr, n)), ("value", value));
    }
    assert_eq!(rt; load_answer(space.fetch(0x1_1000)), ("value", 0x3344_0000));
    Ok(())
}

#[test]
fn loads_and_stores_of_one_page(rt: HostRuntime) -> Result<(), Fail> {
    let mut space = sample(rt.alloc())?;
    loads_and_stores_of_one_page_in(&rt, &mut space)
}

fn loads_and_stores_of_one_page_in(rt: &impl Abort, space: &mut Space) -> Result<(), Fail> {
    for (address, n, value, is_stored) in [
        (0x1_0FFC, 4, 0x1122_3344, true),
        (0x1_0001, 1, 0xABCD_EF55, true),
        (0x1_0FFE, 4, 7, false),
        (0x1_2000, 4, 7, false),
        (0x1_5000, 2, 7, false),
        (0x7FFF_8000, 1, 7, false),
    ] {
        assert_eq!(rt; space.store_in_page(address, n, value), is_stored);
    }
    for (address, n, value) in [
        (0x1_0FFC, 4, Some(0x1122_3344)),
        (0x1_0FFD, 2, Some(0x2233)),
        (0x1_0000, 4, Some(0x55_0000)),
        (0x1_1000, 4, Some(0)),
        (0x1_2000, 4, Some(0)),
        (0x1_0FFE, 4, None),
        (0x1_4000, 4, None),
        (0x1_5000, 1, None),
        (0x7FFF_8000, 1, None),
    ] {
        assert_eq!(rt; space.load_in_page(address, n), value);
    }
    Ok(())
}

/// The word at an address of a page whose bytes are lent, and none where they are not or the word leaves the page.
fn lent_word(space: &Space, address: u32) -> Option<u32> {
    let bytes = space.code_page(address)?;
    if address % 4096 > 4092 {
        return None;
    }
    Some(space.word_in_page(bytes, address))
}

#[test]
fn lends_pages_that_were_written(rt: HostRuntime) -> Result<(), Fail> {
    let mut space = sample(rt.alloc())?;
    lends_pages_that_were_written_in(&rt, &mut space)
}

fn lends_pages_that_were_written_in(rt: &impl Abort, space: &mut Space) -> Result<(), Fail> {
    assert_eq!(rt; lent_word(space, 0x1_0000), None);
    assert_eq!(rt;
        store_answer(space.store(0x1_0FFC, 4, 0x1122_3344)),
        ("written", 0)
    );
    for (address, word) in [
        (0x1_0FFC, Some(0x1122_3344)),
        (0x1_0FFA, Some(0x1122)),
        (0x1_0FFD, None),
        (0x1_1000, None),
        (0x1_5000, None),
        (0x7FFF_8000, None),
    ] {
        assert_eq!(rt; lent_word(space, address), word);
    }
    assert_eq!(rt; space.protect(0x10, 1, 0), 1);
    assert_eq!(rt; lent_word(space, 0x1_0FFC), None);
    assert_eq!(rt; space.page_count(), 6);
    space.unmap(0x10, 1);
    assert_eq!(rt; space.page_count(), 5);
    Ok(())
}

#[test]
fn names_the_first_denied_byte(rt: HostRuntime) -> Result<(), Fail> {
    let mut space = sample(rt.alloc())?;
    names_the_first_denied_byte_in(&rt, &mut space)
}

fn names_the_first_denied_byte_in(rt: &impl Abort, space: &mut Space) -> Result<(), Fail> {
    for (addr, n, why, at) in [
        (0xFFFF, 2, "absent", 0xFFFF),
        (0x1_4000, 1, "forbidden", 0x1_4000),
        (0x1_3FFE, 4, "forbidden", 0x1_4000),
        (0x7FFF_7FFD, 4, "beyond", 0x7FFF_8000),
        (0x7FFF_8000, 1, "beyond", 0x7FFF_8000),
        (0xFFFF_FFFE, 4, "beyond", 0xFFFF_FFFE),
    ] {
        assert_eq!(rt; load_answer(space.load(addr, n)), (why, at));
    }
    for (addr, n, why, at) in [
        (0x1_1FFE, 4, "forbidden", 0x1_2000),
        (0x1_3000, 4, "forbidden", 0x1_3000),
        (0x1_5000, 1, "absent", 0x1_5000),
        (0x7FFF_7FFF, 2, "beyond", 0x7FFF_8000),
    ] {
        assert_eq!(rt; store_answer(space.store(addr, n, 0xFFFF_FFFF)), (why, at));
    }
    assert_eq!(rt; load_answer(space.load(0x1_1FFE, 2)), ("value", 0));
    Ok(())
}

#[test]
fn copies_and_prefixes(rt: HostRuntime) -> Result<(), Fail> {
    let mut space = sample(rt.alloc())?;
    copies_and_prefixes_in(&rt, &mut space)
}

fn copies_and_prefixes_in(rt: &impl Abort, space: &mut Space) -> Result<(), Fail> {
    let text = b"eight by";
    assert_eq!(rt;
        store_answer(space.copy_out(0x1_0FFD, text)),
        ("written", 0)
    );
    let mut back = [0u8; 8];
    assert!(rt; space.copy_in(0x1_0FFD, &mut back).is_ok());
    assert_eq!(rt; back, *text);
    assert_eq!(rt;
        store_answer(space.copy_out(0x1_1FFD, text)),
        ("forbidden", 0x1_2000)
    );
    assert!(rt; space.copy_in(0x1_3FFD, &mut back).is_err());
    assert_eq!(rt; back, *text);
    for (addr, n, readable, writable) in [
        (0x1_3FFD, 8, 3, 0),
        (0x1_0FFD, 8, 8, 8),
        (0x1_1FFD, 8, 8, 3),
        (0x1_5000, 8, 0, 0),
        (0x7FFF_7FFD, 8, 3, 3),
        (0xFFFF_FFFD, 8, 0, 0),
        (0x1_0000, 0x7FFF_F000, 0x4000, 0x2000),
    ] {
        assert_eq!(rt;
            (space.readable(addr, n), space.writable(addr, n)),
            (readable, writable)
        );
    }
    Ok(())
}

#[test]
fn maps_and_protects(rt: HostRuntime) -> Result<(), Fail> {
    let mut space = sample(rt.alloc())?;
    maps_and_protects_in(&rt, &mut space)
}

fn maps_and_protects_in(rt: &impl Abort, space: &mut Space) -> Result<(), Fail> {
    assert_eq!(rt; map_answer(space.map(0, 131_073, 3)), "full");
    assert_eq!(rt; map_answer(space.map(0, 0, 7)), "mapped");
    assert_eq!(rt; store_answer(space.store(0x1_0000, 1, 9)), ("written", 0));
    assert_eq!(rt; space.protect(0x10, 8, 1), 5);
    assert_eq!(rt;
        store_answer(space.store(0x1_0000, 1, 7)),
        ("forbidden", 0x1_0000)
    );
    assert_eq!(rt; load_answer(space.load(0x1_0000, 1)), ("value", 9));
    assert_eq!(rt; load_answer(space.load(0x1_4000, 1)), ("value", 0));
    assert_eq!(rt; map_answer(space.map(0x10, 1, 2)), "mapped");
    assert_eq!(rt; load_answer(space.load(0x1_0000, 1)), ("value", 0));
    assert_eq!(rt; space.protect(0x15, 2, 1), 0);
    Ok(())
}

/// The words that tell the answer of a change of size, and the first page.
fn remapped(
    space: &mut Space,
    first: u32,
    old: u32,
    new: u32,
    may_move: bool,
) -> (&'static str, u32) {
    if first > 0x7_FFE0 || old == 0 || old > 16 || new == 0 || space.mapped(first, old) != old {
        return ("no range", 0);
    }
    match space.remap(first, old, new, may_move) {
        Ok(first) => ("at", first),
        Err(MapError::Full) => ("full", 0),
        Err(MapError::NoPlace) => ("no place", 0),
        Err(MapError::NoMemory) => ("no memory", 0),
    }
}

#[test]
fn unmaps_and_counts(rt: HostRuntime) -> Result<(), Fail> {
    let mut space = sample(rt.alloc())?;
    unmaps_and_counts_in(&rt, &mut space)
}

fn unmaps_and_counts_in(rt: &impl Abort, space: &mut Space) -> Result<(), Fail> {
    for (first, count, mapped, free) in [
        (0x10, 8, 5, false),
        (0xF, 8, 0, false),
        (0xE, 2, 0, true),
        (0x15, 0x7_FFE2, 0, true),
        (0x15, 0x7_FFE3, 0, false),
        (0x12, 0, 0, true),
    ] {
        assert_eq!(rt;
            (space.mapped(first, count), space.is_free(first, count)),
            (mapped, free)
        );
    }
    assert_eq!(rt; store_answer(space.store(0x1_0000, 1, 9)), ("written", 0));
    space.unmap(0x10, 1);
    space.unmap(0x12, 2);
    for (first, count, mapped, free) in [
        (0x10, 1, 0, true),
        (0x11, 4, 1, false),
        (0x14, 1, 1, false),
    ] {
        assert_eq!(rt;
            (space.mapped(first, count), space.is_free(first, count)),
            (mapped, free)
        );
    }
    assert_eq!(rt; load_answer(space.load(0x1_0000, 1)), ("absent", 0x1_0000));
    assert_eq!(rt; map_answer(space.map(0x10, 1, 1)), "mapped");
    assert_eq!(rt; load_answer(space.load(0x1_0000, 1)), ("value", 0));
    Ok(())
}

#[test]
fn the_page_limit_from_both_sides(rt: HostRuntime) -> Result<(), Fail> {
    let mut space = Space::new(rt.alloc()).ok().ok_or("no memory")?;
    the_page_limit_from_both_sides_in(&rt, &mut space)
}

fn the_page_limit_from_both_sides_in(rt: &impl Abort, space: &mut Space) -> Result<(), Fail> {
    assert_eq!(rt; map_answer(space.map(0x100, 131_071, 3)), "mapped");
    assert_eq!(rt; map_answer(space.map(0x7_0000, 2, 3)), "full");
    assert_eq!(rt; remapped(space, 0x100, 1, 3, true), ("full", 0));
    assert_eq!(rt; map_answer(space.map(0x7_0000, 1, 3)), "mapped");
    assert_eq!(rt; map_answer(space.map(0x7_0000, 2, 3)), "full");
    assert_eq!(rt; map_answer(space.map(0x100, 0x1_0000, 3)), "mapped");
    assert_eq!(rt; remapped(space, 0x7_0000, 1, 2, false), ("full", 0));
    assert_eq!(rt; space.brk(0x1000).ok(), Some(0));
    space.unmap(0x100, 1);
    assert_eq!(rt; space.brk(0x1000).ok(), Some(0x1000));
    Ok(())
}

#[test]
fn the_greatest_place(rt: HostRuntime) -> Result<(), Fail> {
    let mut space = sample(rt.alloc())?;
    the_greatest_place_in(&rt, &mut space)
}

fn the_greatest_place_in(rt: &impl Abort, space: &mut Space) -> Result<(), Fail> {
    assert_eq!(rt; space.place(1), Some(0x6_FFFF));
    assert_eq!(rt; space.place(0x6_0000), Some(0x1_0000));
    assert_eq!(rt; space.place(0x6_0001), None);
    assert_eq!(rt; space.place(u32::MAX), None);
    assert_eq!(rt; map_answer(space.map(0x6_FFFD, 1, 1)), "mapped");
    for (pages, first) in [
        (1, 0x6_FFFF),
        (2, 0x6_FFFE),
        (3, 0x6_FFFA),
        (0x5_FFFD, 0x1_0000),
    ] {
        assert_eq!(rt; space.place(pages), Some(first));
    }
    assert_eq!(rt; space.place(0x5_FFFE), None);
    assert_eq!(rt; map_answer(space.map(0x1_0000, 1, 1)), "mapped");
    assert_eq!(rt; space.place(0x5_FFFC), Some(0x1_0001));
    assert_eq!(rt; space.place(0x5_FFFD), None);
    Ok(())
}

#[test]
fn places_go_down_page_by_page(rt: HostRuntime) -> Result<(), Fail> {
    let mut space = sample(rt.alloc())?;
    places_go_down_page_by_page_in(&rt, &mut space)
}

fn places_go_down_page_by_page_in(rt: &impl Abort, space: &mut Space) -> Result<(), Fail> {
    for mapped in 0..3000 {
        assert_eq!(rt; space.place(1), Some(0x6_FFFF - mapped));
        assert_eq!(rt; map_answer(space.map(0x6_FFFF - mapped, 1, 3)), "mapped");
    }
    space.unmap(0x6_FA00, 2);
    for (pages, first) in [(1, 0x6_FA01), (2, 0x6_FA00), (3, 0x6_F445)] {
        assert_eq!(rt; space.place(pages), Some(first));
    }
    assert!(rt; space.is_free(0x1_0000, 0x5_F448));
    assert!(rt; !space.is_free(0x1_0000, 0x5_F449));
    assert_eq!(rt; space.mapped(0x6_F448, 0xBB8), 0x5B8);
    Ok(())
}

#[test]
fn ranges_get_another_size(rt: HostRuntime) -> Result<(), Fail> {
    let mut space = sample(rt.alloc())?;
    ranges_get_another_size_in(&rt, &mut space)
}

fn ranges_get_another_size_in(rt: &impl Abort, space: &mut Space) -> Result<(), Fail> {
    assert_eq!(rt;
        store_answer(space.store(0x1_1000, 4, 0x5566_7788)),
        ("written", 0)
    );
    assert_eq!(rt; remapped(space, 0x10, 2, 3, false), ("no place", 0));
    assert_eq!(rt; remapped(space, 0x14, 1, 3, false), ("at", 0x14));
    assert_eq!(rt;
        load_answer(space.load(0x1_6FFF, 1)),
        ("forbidden", 0x1_6FFF)
    );
    assert_eq!(rt; remapped(space, 0x10, 2, 3, true), ("at", 0x6_FFFD));
    assert_eq!(rt;
        load_answer(space.load(0x6_FFFE_000, 4)),
        ("value", 0x5566_7788)
    );
    assert_eq!(rt; load_answer(space.load(0x6_FFFF_FFC, 4)), ("value", 0));
    assert_eq!(rt; load_answer(space.load(0x1_1000, 4)), ("absent", 0x1_1000));
    assert_eq!(rt; remapped(space, 0x6_FFFD, 3, 1, false), ("at", 0x6_FFFD));
    assert_eq!(rt;
        load_answer(space.load(0x6_FFFE_000, 4)),
        ("absent", 0x6FFF_E000)
    );
    assert_eq!(rt; map_answer(space.map(0x7_F7EE, 1, 3)), "mapped");
    assert_eq!(rt; remapped(space, 0x7_F7EE, 1, 3, false), ("no place", 0));
    assert_eq!(rt; remapped(space, 0x7_F7EE, 1, 2, false), ("at", 0x7_F7EE));
    Ok(())
}

#[test]
fn moves_the_break(rt: HostRuntime) -> Result<(), Fail> {
    let mut space = sample(rt.alloc())?;
    moves_the_break_in(&rt, &mut space)
}

fn moves_the_break_in(rt: &impl Abort, space: &mut Space) -> Result<(), Fail> {
    for (to, now) in [
        (0x1_FFFF, 0x2_0000),
        (0x2_0001, 0x2_0001),
        (0x2_2000, 0x2_2000),
        (0x7000_0001, 0x2_2000),
        (0x2_1000, 0x2_1000),
        (0x2_0000, 0x2_0000),
        (0x2_1800, 0x2_1800),
    ] {
        assert_eq!(rt; space.brk(to).ok(), Some(now));
        assert_eq!(rt; space.mapped(0x20, 8), (now + 0xFFF) / 0x1000 - 0x20);
    }
    assert_eq!(rt; store_answer(space.store(0x2_1FFC, 4, 7)), ("written", 0));
    assert_eq!(rt; map_answer(space.map(0x23, 1, 1)), "mapped");
    assert_eq!(rt; space.brk(0x2_3001).ok(), Some(0x2_1800));
    assert_eq!(rt; space.brk(0x2_3000).ok(), Some(0x2_3000));
    assert_eq!(rt; load_answer(space.load(0x2_1FFC, 4)), ("value", 7));
    Ok(())
}
