//! Lines of each event and each entry.
use super::{native_line, trace_line};
use kernel_core::{Bytes, Delivery, Event, LogEntry, NoMemory, Reply, Sig, Wake};
use std::alloc::Global;
use std::test::Fail;

/// The lines of events in order, each in the turn that stands beside it.
fn traced(out: &mut Vec<u8>, rows: &[(u64, Event)]) -> Result<(), NoMemory> {
    for (turn, event) in rows {
        trace_line(*turn, event, out)?;
    }
    Ok(())
}

fn signals_and_waits() -> [(u64, Event); 10] {
    [
        (1, Event::Post { sig: Sig::Alrm }),
        (1, Event::Dropped { sig: Sig::Usr1 }),
        (2, Event::Cont),
        (
            3,
            Event::Fault {
                sig: Sig::Segv,
                code: 1,
                addr: 0x2000_0000,
            },
        ),
        (
            4,
            Event::Signal {
                sig: Sig::Segv,
                delivery: Delivery::Handler,
            },
        ),
        (
            4,
            Event::Signal {
                sig: Sig::Chld,
                delivery: Delivery::Ignored,
            },
        ),
        (
            4,
            Event::Signal {
                sig: Sig::Stop,
                delivery: Delivery::Stop,
            },
        ),
        (
            5,
            Event::Wait {
                nr: 4166,
                args: [0x7FFF_6F00, 0, 1, u32::MAX],
            },
        ),
        (6, Event::Done { v0: 4, a3: 1 }),
        (6, Event::Restart { nr: 4253 }),
    ]
}

fn calls_and_ends() -> [(u64, Event); 6] {
    [
        (
            6,
            Event::Call {
                nr: 4004,
                args: [1, 0x0040_0100, 3, 0],
                v0: 3,
                a3: 0,
            },
        ),
        (7, Event::Return),
        (9, Event::Exit { status: 7 }),
        (10, Event::Killed { sig: Sig::Pipe }),
        (5, Event::Budget),
        (1_000_000_000_000, Event::Blocked),
    ]
}

#[test]
fn each_event(rt: HostRuntime) -> Result<(), Fail> {
    let mut out = Vec::new(rt.alloc());
    traced(&mut out, &signals_and_waits())?;
    traced(&mut out, &calls_and_ends())?;
    assert_eq!(rt;
        out.as_slice(),
        b"\
1 post 14\n1 drop 16\n2 cont\n3 fault 11 1 20000000\n4 signal 11 handler\n4 signal 18 ignored\n4 signal 23 stop\n\
5 wait 4166 7fff6f00 00000000 00000001 ffffffff\n6 done 00000004 1\n6 restart 4253\n\
6 call 4004 00000001 00400100 00000003 00000000 = 00000003 0\n7 return\n9 exit 7\n10 killed 13\n5 budget\n1000000000000 blocked\n"
            .as_slice()
    );
    Ok(())
}

/// The entry of a call over this host memory.
fn call(alloc: Global, before: &[u8], after: &[u8], reply: Reply) -> Result<LogEntry, NoMemory> {
    Ok(LogEntry::Call {
        nr: 0,
        args: [3, 0x10000, 16, 0, u64::MAX, 0x0123_4567_89AB_CDEF],
        before: Bytes::from(Vec::from_slice(alloc, before)?),
        after: Bytes::from(Vec::from_slice(alloc, after)?),
        reply,
    })
}

fn add_calls(alloc: Global, out: &mut Vec<u8>) -> Result<(), NoMemory> {
    let asleep = Reply::Sleep(Wake {
        done: 0,
        until: None,
    });
    let with_deadline = Reply::Sleep(Wake {
        done: 4096,
        until: Some(1_000_000_000),
    });
    native_line(2, &call(alloc, &[], &[], Reply::Done(-9))?, out)?;
    native_line(3, &call(alloc, &[0, 171], &[72, 105], Reply::Done(2))?, out)?;
    native_line(4, &call(alloc, &[255], &[255], asleep)?, out)?;
    native_line(5, &call(alloc, &[], &[1], with_deadline)?, out)
}

fn add_posts(out: &mut Vec<u8>) -> Result<(), NoMemory> {
    let sent = LogEntry::Post {
        sig: Sig::Usr1,
        code: -1,
        value: u32::MAX,
    };
    let timer = LogEntry::Post {
        sig: Sig::Bus,
        code: 0x80,
        value: 0,
    };
    native_line(1, &LogEntry::Clock { ns: 1_000 }, out)?;
    native_line(1, &sent, out)?;
    native_line(1, &timer, out)
}

#[test]
fn each_entry(rt: HostRuntime) -> Result<(), Fail> {
    let mut out = Vec::new(rt.alloc());
    add_posts(&mut out)?;
    add_calls(rt.alloc(), &mut out)?;
    assert_eq!(rt;
        out.as_slice(),
        b"\
1 clock 1000\n1 post 10 -1 4294967295\n1 post 7 128 0\n\
2 call 0 0000000000000003 0000000000010000 0000000000000010 0000000000000000 ffffffffffffffff 0123456789abcdef - - = -9\n\
3 call 0 0000000000000003 0000000000010000 0000000000000010 0000000000000000 ffffffffffffffff 0123456789abcdef 00ab 4869 = 2\n\
4 call 0 0000000000000003 0000000000010000 0000000000000010 0000000000000000 ffffffffffffffff 0123456789abcdef ff ff = sleep 0 -\n\
5 call 0 0000000000000003 0000000000010000 0000000000000010 0000000000000000 ffffffffffffffff 0123456789abcdef - 01 = sleep 4096 1000000000\n"
            .as_slice()
    );
    Ok(())
}
