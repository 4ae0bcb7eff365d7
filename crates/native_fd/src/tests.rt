//! Each call with ample memory: the least descriptors and numbers, shared descriptions, and which go last.
use super::{DESCRIPTORS, Table};
use std::alloc::Global;
use std::test::Fail;

/// A call and what it answers, or a look at what there is.
#[derive(Clone, Copy)]
enum Step {
    /// Opens the least descriptor that is free, which is this one, with this description.
    Open(u32, u8),
    /// Closes a descriptor, with which this description goes.
    Close(u32, Option<u8>),
    /// Another descriptor of the first one's description, with which the description goes that was there.
    Duplicate(u32, u32, Option<u8>),
    /// Another description for the descriptor.
    Set(u32, u8),
    /// From here on the descriptor is closed on execve(2).
    CloseOnExec(u32),
    /// The least descriptor from one on that is free.
    Lowest(u32, Option<u32>),
    /// The number and the description of the descriptor.
    Leads(u32, Option<u32>, Option<u8>),
    /// Whether the descriptor is closed on execve(2).
    IsClosedOnExec(u32, bool),
}

fn open(table: &mut Table<u8>, item: u8) -> Option<u32> {
    let fd = table.lowest(0)?;
    table.insert(fd, item).ok()?;
    Some(fd)
}

fn comes_out(table: &mut Table<u8>, step: Step) -> bool {
    match step {
        Step::Open(fd, item) => open(table, item) == Some(fd),
        Step::Close(fd, last) => table.close(fd) == last,
        Step::Duplicate(fd, onto, last) => onto < DESCRIPTORS && table.dup_to(fd, onto) == last,
        Step::Set(fd, item) => {
            table.set(fd, item);
            true
        }
        Step::CloseOnExec(fd) => {
            table.set_cloexec(fd, true);
            true
        }
        Step::Lowest(from, fd) => table.lowest(from) == fd,
        Step::Leads(fd, number, item) => table.number(fd) == number && table.get(fd) == item,
        Step::IsClosedOnExec(fd, on) => table.cloexec(fd) == on,
    }
}

/// The first step that does not come out as it says, counted from 0, at a table in which nothing is open.
fn first_wrong(alloc: Global, steps: &[Step]) -> Result<Option<usize>, Fail> {
    let mut table = Table::new(alloc).ok().ok_or("no memory")?;
    for (place, step) in steps.iter().enumerate() {
        if !comes_out(&mut table, *step) {
            return Ok(Some(place));
        }
    }
    Ok(None)
}

#[test]
fn least_descriptors_and_numbers(rt: HostRuntime) -> Result<(), Fail> {
    let steps = [
        Step::Open(0, 10),
        Step::Open(1, 11),
        Step::Open(2, 12),
        Step::Open(3, 13),
        Step::Close(1, Some(11)),
        Step::Lowest(0, Some(1)),
        Step::Lowest(2, Some(4)),
        Step::Lowest(1023, Some(1023)),
        Step::Lowest(1024, None),
        Step::Leads(1, None, None),
        Step::Close(1, None),
        Step::Duplicate(3, 9, None),
        Step::Open(1, 20),
        Step::Leads(0, Some(0), Some(10)),
        Step::Leads(1, Some(1), Some(20)),
        Step::Leads(3, Some(3), Some(13)),
        Step::Leads(9, Some(3), Some(13)),
        Step::Leads(8, None, None),
    ];
    assert_eq!(rt; first_wrong(rt.alloc(), &steps)?, None);
    Ok(())
}

#[test]
fn the_last_descriptor_takes_the_description_along(rt: HostRuntime) -> Result<(), Fail> {
    let steps = [
        Step::Open(0, 1),
        Step::Open(1, 2),
        Step::CloseOnExec(0),
        Step::Duplicate(0, 5, None),
        Step::IsClosedOnExec(0, true),
        Step::IsClosedOnExec(5, false),
        Step::IsClosedOnExec(7, false),
        Step::Set(5, 7),
        Step::Leads(0, Some(0), Some(7)),
        Step::Leads(5, Some(0), Some(7)),
        Step::Close(0, None),
        Step::Close(5, Some(7)),
        Step::Duplicate(1, 3, None),
        Step::Open(0, 9),
        Step::Leads(0, Some(0), Some(9)),
        Step::Duplicate(0, 1, None),
        Step::Duplicate(0, 3, Some(2)),
    ];
    assert_eq!(rt; first_wrong(rt.alloc(), &steps)?, None);
    Ok(())
}

#[test]
fn all_descriptors(rt: HostRuntime) -> Result<(), Fail> {
    let mut table = Table::new(rt.alloc()).ok().ok_or("no memory")?;
    for fd in 0..DESCRIPTORS {
        if open(&mut table, 3) != Some(fd) {
            return Err("not the least".into());
        }
    }
    assert_eq!(rt; open(&mut table, 4), None);
    assert!(rt; comes_out(&mut table, Step::Leads(1023, Some(1023), Some(3))));
    assert!(rt; comes_out(&mut table, Step::Close(500, Some(3))));
    assert!(rt; comes_out(&mut table, Step::Lowest(0, Some(500))));
    assert!(rt; comes_out(&mut table, Step::Lowest(501, None)));
    Ok(())
}
