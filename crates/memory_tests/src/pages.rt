//! Each call with ample memory, and the limits of page numbers and of places in a page from both sides.

use raw_pages::{PageStore, WriteError};
use std::alloc::Global;
use std::process::Abort;
use std::test::Fail;

/// The last page number of user space.
const LAST: u32 = 524_279;

fn told(answer: Result<(), WriteError>) -> &'static str {
    match answer {
        Ok(()) => "written",
        Err(WriteError::Absent) => "absent",
        Err(WriteError::Forbidden) => "forbidden",
        Err(WriteError::NoMemory) => "no memory",
    }
}

/// The first four and the last four bytes of a page.
fn ends(store: &PageStore, page: u32) -> ([u8; 4], [u8; 4]) {
    let mut first = *b"....";
    let mut last = *b"....";
    store.read(page, 0, &mut first);
    store.read(page, 4092, &mut last);
    (first, last)
}

/// Pages 0 and 1023 to read and write, 1024 to read, and the last one with all leave.
fn map_sample(store: &mut PageStore) -> Result<(), Fail> {
    for (page, protection) in [(0, 3), (1023, 3), (1024, 1), (LAST, 7)] {
        store.map(page, protection).ok().ok_or("not mapped")?;
    }
    Ok(())
}

fn sample(alloc: Global) -> Result<PageStore, Fail> {
    let mut store = PageStore::new(alloc).ok().ok_or("no memory")?;
    map_sample(&mut store)?;
    Ok(store)
}

#[test]
fn pages_are_found_by_their_numbers(rt: HostRuntime) -> Result<(), Fail> {
    let mut store = sample(rt.alloc())?;
    pages_are_found_by_their_numbers_in(&rt, &mut store)
}

fn pages_are_found_by_their_numbers_in(rt: &impl Abort, store: &mut PageStore) -> Result<(), Fail> {
    for (page, protection) in [
        (0, Some(3)),
        (1, None),
        (1023, Some(3)),
        (1024, Some(1)),
        (2047, None),
        (LAST, Some(7)),
        (LAST + 1, None),
        (1_048_575, None),
        (1_048_576, None),
        (u32::MAX, None),
    ] {
        assert_eq!(rt; store.prot(page), protection, "page {page}");
        assert_eq!(rt; store.is_mapped(page), protection.is_some(), "page {page}");
        assert!(rt; !store.ready(page));
    }
    assert_eq!(rt; store.len(), 4);
    store.unmap(1023);
    store.unmap(1023);
    store.unmap(2048);
    assert_eq!(rt; store.len(), 3);
    assert_eq!(rt; store.prot(1023), None);
    store.protect(0, 4);
    store.protect(1023, 4);
    assert_eq!(rt; (store.prot(0), store.prot(1023)), (Some(4), None));
    Ok(())
}

#[test]
fn a_run_of_pages_goes_across_tables(rt: HostRuntime) -> Result<(), Fail> {
    let mut store = sample(rt.alloc())?;
    a_run_of_pages_goes_across_tables_in(&rt, &mut store)
}

fn a_run_of_pages_goes_across_tables_in(
    rt: &impl Abort,
    store: &mut PageStore,
) -> Result<(), Fail> {
    store.write(1023, 0, b"gone").ok().ok_or("not written")?;
    store.map_run(1022, 1027, 5).ok().ok_or("not mapped")?;
    store.map_run(7, 0, 5).ok().ok_or("not mapped")?;
    for (page, protection) in [
        (0, Some(3)),
        (7, None),
        (1021, None),
        (1022, Some(5)),
        (1023, Some(5)),
        (1024, Some(5)),
        (2047, Some(5)),
        (2048, Some(5)),
        (2049, None),
        (LAST, Some(7)),
    ] {
        assert_eq!(rt; store.prot(page), protection, "page {page}");
    }
    assert_eq!(rt; (store.len(), store.ready(1023)), (1029, false));
    assert_eq!(rt; ends(store, 1023), ([0; 4], [0; 4]));
    Ok(())
}

#[test]
fn bytes_stay_until_the_page_is_mapped_anew(rt: HostRuntime) -> Result<(), Fail> {
    let mut store = sample(rt.alloc())?;
    bytes_stay_until_the_page_is_mapped_anew_in(&rt, &mut store)
}

fn bytes_stay_until_the_page_is_mapped_anew_in(
    rt: &impl Abort,
    store: &mut PageStore,
) -> Result<(), Fail> {
    assert_eq!(rt; ends(store, LAST), ([0; 4], [0; 4]));
    store.write(LAST, 0, b"abcd").ok().ok_or("not written")?;
    store.write(LAST, 4095, b"z").ok().ok_or("not written")?;
    store.write(LAST, 1, b"BC").ok().ok_or("not written")?;
    store.write(LAST, 4091, b"stu").ok().ok_or("not written")?;
    assert_eq!(rt; ends(store, LAST), (*b"aBCd", *b"tu\0z"));
    assert!(rt; store.ready(LAST));
    assert!(rt; !store.ready(0));
    assert_eq!(rt; ends(store, 0), ([0; 4], [0; 4]));
    store.protect(LAST, 0);
    assert_eq!(rt; ends(store, LAST), (*b"aBCd", *b"tu\0z"));
    store.map(LAST, 3).ok().ok_or("not mapped")?;
    assert_eq!(rt; ends(store, LAST), ([0; 4], [0; 4]));
    assert!(rt; !store.ready(LAST));
    assert_eq!(rt; store.len(), 4);
    Ok(())
}

#[test]
fn a_write_may_test_the_page_first(rt: HostRuntime) -> Result<(), Fail> {
    let mut store = sample(rt.alloc())?;
    a_write_may_test_the_page_first_in(&rt, &mut store)
}

fn a_write_may_test_the_page_first_in(rt: &impl Abort, store: &mut PageStore) -> Result<(), Fail> {
    for (page, at, answer) in [
        (0, 0, "written"),
        (1, 0, "absent"),
        (1023, 4092, "written"),
        (1024, 0, "forbidden"),
        (4096, 0, "absent"),
    ] {
        assert_eq!(rt;
            told(store.write_if_allowed(page, at, b"word")),
            answer,
            "page {page}"
        );
        assert_eq!(rt; store.ready(page), answer == "written", "page {page}");
    }
    assert_eq!(rt; ends(store, 0), (*b"word", [0; 4]));
    assert_eq!(rt; ends(store, 1023), ([0; 4], *b"word"));
    let page = store.page(1023).ok_or("not found")?;
    assert_eq!(rt;
        (page.byte(4095), page.half(4094), page.word(4092)),
        (b'd', *b"rd", *b"word")
    );
    assert_eq!(rt; page.bytes().map(|bytes| bytes[4093]), Some(b'o'));
    let page = store.page(1024).ok_or("not found")?;
    assert!(rt; page.bytes().is_none());
    assert_eq!(rt;
        (page.byte(4095), page.half(4094), page.word(0)),
        (0, [0; 2], [0; 4])
    );
    assert_eq!(rt; (page.protection(), page.is_ready()), (1, false));
    Ok(())
}

#[test]
fn a_page_moves_with_its_bytes(rt: HostRuntime) -> Result<(), Fail> {
    let mut store = sample(rt.alloc())?;
    a_page_moves_with_its_bytes_in(&rt, &mut store)
}

fn a_page_moves_with_its_bytes_in(rt: &impl Abort, store: &mut PageStore) -> Result<(), Fail> {
    store.write(1023, 0, b"page").ok().ok_or("not written")?;
    if store.is_mapped(300_000) {
        return Err(Fail::from("the place is taken"));
    }
    store.move_page(1023, 300_000).ok().ok_or("not moved")?;
    if store.is_mapped(6) {
        return Err(Fail::from("the place is taken"));
    }
    store.move_page(5, 6).ok().ok_or("not moved")?;
    assert_eq!(rt;
        (store.prot(1023), store.prot(300_000), store.prot(6)),
        (None, Some(3), None)
    );
    assert_eq!(rt; ends(store, 300_000), (*b"page", [0; 4]));
    assert!(rt; store.ready(300_000));
    assert_eq!(rt; store.len(), 4);
    store.clear(300_000);
    store.clear(5);
    assert_eq!(rt; ends(store, 300_000), ([0; 4], [0; 4]));
    assert!(rt; !store.ready(300_000));
    assert_eq!(rt; store.prot(300_000), Some(3));
    Ok(())
}

#[test]
fn the_last_page_below_a_number_is_found(rt: HostRuntime) -> Result<(), Fail> {
    let mut store = sample(rt.alloc())?;
    the_last_page_below_a_number_is_found_in(&rt, &mut store)
}

fn the_last_page_below_a_number_is_found_in(
    rt: &impl Abort,
    store: &mut PageStore,
) -> Result<(), Fail> {
    for (end, last) in [
        (1_048_576, Some(LAST)),
        (LAST + 1, Some(LAST)),
        (LAST, Some(1024)),
        (1025, Some(1024)),
        (1024, Some(1023)),
        (1023, Some(0)),
        (1, Some(0)),
        (0, None),
    ] {
        assert_eq!(rt; store.last_below(end), last, "end {end}");
    }
    store.unmap(0);
    assert_eq!(rt; store.last_below(1023), None);
    Ok(())
}

/// Maps all pages of the second table of 1024, to read.
fn fill_second_table(store: &mut PageStore) -> Result<(), Fail> {
    for page in 1024..2048 {
        store.map(page, 1).ok().ok_or("not mapped")?;
    }
    Ok(())
}

#[test]
fn the_last_number_of_a_range_is_found(rt: HostRuntime) -> Result<(), Fail> {
    let mut store = sample(rt.alloc())?;
    fill_second_table(&mut store)?;
    the_last_number_of_a_range_is_found_in(&rt, &mut store)
}

fn the_last_number_of_a_range_is_found_in(
    rt: &impl Abort,
    store: &mut PageStore,
) -> Result<(), Fail> {
    for (first, end, mapped, free) in [
        (0, 3000, Some(2047), Some(2999)),
        (0, 2048, Some(2047), Some(1022)),
        (1023, 2048, Some(2047), None),
        (1024, 1500, Some(1499), None),
        (1, 1023, None, Some(1022)),
        (5, 5, None, None),
        (7, 5, None, None),
        (2048, LAST, None, Some(LAST - 1)),
        (0, 1_048_576, Some(LAST), Some(1_048_575)),
    ] {
        assert_eq!(rt;
            store.last_mapped(first, end),
            mapped,
            "from {first} to {end}"
        );
        assert_eq!(rt; store.last_free(first, end), free, "from {first} to {end}");
    }
    store.unmap(1500);
    assert_eq!(rt; store.last_free(1024, 2048), Some(1500));
    assert_eq!(rt; store.last_mapped(1024, 1501), Some(1499));
    for page in 1024..2048 {
        store.unmap(page);
    }
    assert_eq!(rt; store.last_mapped(0, 2048), Some(1023));
    assert_eq!(rt; store.last_free(0, 2048), Some(2047));
    Ok(())
}
