//! Each call with ample memory, at the borders of a page.
use super::{PAGE_SIZE, PageBytes, count_in_page, place_in_page};
use std::test::Fail;

#[test]
fn places(rt: HostRuntime) {
    for (at, place, count, inside) in [
        (0, 0, 5000, 4096),
        (4095, 4095, 2, 1),
        (4096, 0, 7, 7),
        (u64::MAX, 4095, 9, 1),
        (10, 10, 0, 0),
    ] {
        assert_eq!(rt;
            (place_in_page(at), count_in_page(at, count)),
            (place, inside)
        );
    }
}

#[test]
fn pieces_of_a_page(rt: HostRuntime) -> Result<(), Fail> {
    let mut page = PageBytes::zeros(rt.alloc()).ok().ok_or("no memory")?;
    assert_eq!(rt; page.as_slice().len(), PAGE_SIZE);
    page.write(4093, b"xyz");
    page.write(1, b"ab");
    for (place, text) in [(0, b"\0ab\0"), (4092, b"\0xyz"), (4089, b"\0\0\0\0")] {
        let mut piece = *b"....";
        page.read(place, &mut piece);
        assert_eq!(rt; piece, *text);
    }
    page.clear_from(4094);
    page.clear_from(4096);
    let mut piece = *b"....";
    page.read(4092, &mut piece);
    assert_eq!(rt; piece, *b"\0x\0\0");
    Ok(())
}
