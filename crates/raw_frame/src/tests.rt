//! Frames with and without a block, of numbers, of arrays and of vectors.
use super::Frame;
use std::alloc::Global;
use std::mem::replace;
use std::test::Fail;

/// What the frame has; its block, where there is one, is given back.
fn emptied(frame: Frame<u32>) -> Option<u32> {
    if frame.is_full() {
        Some(*frame.into_box())
    } else {
        frame.discard();
        None
    }
}

/// A frame of the number, or one with no block where there is no memory.
fn full_if_room(alloc: Global, number: u32) -> Frame<u32> {
    match Box::new(alloc, number) {
        Ok(block) => Frame::full(block),
        Err(_) => Frame::empty(alloc),
    }
}

#[test]
fn a_frame_shows_what_was_written(rt: HostRuntime) -> Result<(), Fail> {
    let mut frame = Frame::full(Box::new(rt.alloc(), 7u32)?);
    assert!(rt; frame.is_full());
    assert_eq!(rt; frame.get().copied(), Some(7));
    *frame.get_mut() = 9;
    assert_eq!(rt; frame.get().copied(), Some(9));
    assert_eq!(rt; *frame.into_box(), 9);
    Ok(())
}

#[test]
fn an_empty_frame_shows_nothing(rt: HostRuntime) {
    let frame: Frame<u32> = Frame::empty(rt.alloc());
    assert!(rt; !frame.is_full());
    assert_eq!(rt; frame.get().copied(), None);
    frame.discard();
}

#[test]
fn a_block_moves_from_frame_to_frame(rt: HostRuntime) -> Result<(), Fail> {
    let mut first = Frame::full(Box::new(rt.alloc(), 7u32)?);
    let second = replace(&mut first, Frame::empty(rt.alloc()));
    assert_eq!(rt; (emptied(first), emptied(second)), (None, Some(7)));
    Ok(())
}

#[test]
fn a_part_of_an_array_is_written_in_its_place(rt: HostRuntime) -> Result<(), Fail> {
    let mut frame = Frame::full(Box::new(rt.alloc(), [0u8; 16])?);
    frame.get_mut()[15] = 5;
    frame.get_mut()[0] = 4;
    let bytes = *frame.into_box();
    assert_eq!(rt; (bytes[0], bytes[1], bytes[14], bytes[15]), (4, 0, 0, 5));
    Ok(())
}

#[test]
fn the_memory_of_a_value_goes_with_it(rt: HostRuntime) -> Result<(), Fail> {
    let mut text = Vec::new(rt.alloc());
    text.push(b'a')?;
    let mut frame = Frame::full(Box::new(rt.alloc(), text)?);
    assert_eq!(rt; frame.get().map_or(0, |text| text.len()), 1);
    frame.get_mut().clear();
    assert_eq!(rt; frame.get().map_or(1, |text| text.len()), 0);
    drop(frame.into_box());
    Ok(())
}

#[test]
fn without_memory_there_is_no_block(rt: HostRuntime) {
    let frame = full_if_room(rt.alloc(), 7);
    let full = frame.is_full();
    assert_eq!(rt; emptied(frame), full.then_some(7));
}
