//! Each call with ample memory: bytes come out in the order in which they went in, round the ring, and no
//! more go in than there is room for.
use super::{PIPE_SIZE, Pipe};
use std::alloc::Global;
use std::test::Fail;

fn new_pipe(alloc: Global) -> Result<Pipe, Fail> {
    Ok(Pipe::new(alloc).ok().ok_or("no memory")?)
}

#[test]
fn first_in_first_out(rt: HostRuntime) -> Result<(), Fail> {
    let mut pipe = new_pipe(rt.alloc())?;
    assert!(rt; pipe.is_empty());
    assert_eq!(rt; (pipe.put(b"abcde"), pipe.len()), (5, 5));
    let mut buffer = *b"....";
    assert_eq!(rt; (pipe.take(&mut buffer[..2]), pipe.len()), (2, 3));
    assert_eq!(rt; buffer, *b"ab..");
    assert_eq!(rt; (pipe.put(b"f"), pipe.take(&mut buffer)), (1, 4));
    assert_eq!(rt; buffer, *b"cdef");
    assert_eq!(rt; (pipe.take(&mut buffer), pipe.len()), (0, 0));
    assert_eq!(rt; buffer, *b"cdef");
    Ok(())
}

#[test]
fn no_more_than_there_is_room_for(rt: HostRuntime) -> Result<(), Fail> {
    let mut pipe = new_pipe(rt.alloc())?;
    let bytes = vec![in rt.alloc(); 7u8; 40_000]?;
    assert_eq!(rt; pipe.put(bytes.as_slice()), 40_000);
    assert_eq!(rt; pipe.put(bytes.as_slice()), 25_536);
    assert_eq!(rt; (pipe.put(b"x"), pipe.len()), (0, PIPE_SIZE));
    let mut buffer = *b"..";
    assert_eq!(rt; pipe.take(&mut buffer), 2);
    assert_eq!(rt; pipe.put(b"xyz"), 2);
    let mut rest = vec![in rt.alloc(); 0u8; 70_000]?;
    assert_eq!(rt; pipe.take(rest.as_mut_slice()), PIPE_SIZE);
    assert!(rt; rest.as_slice().starts_with(&[7, 7]) && pipe.is_empty());
    assert_eq!(rt; rest.get(65_534).copied(), Some(b'x'));
    assert_eq!(rt; rest.get(65_535).copied(), Some(b'y'));
    Ok(())
}
