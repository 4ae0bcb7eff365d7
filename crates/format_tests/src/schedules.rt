//! Worked texts: what no clause says is that the definitions mean this format.

use schedule::{
    Due, Events, RandomBytes, Schedule, ScheduleError, Winsize, first_event_line, parse,
};
use std::alloc::Global;
use std::process::Abort;
use std::test::Fail;

/// The line and the rule that a text is refused with.
fn refusal_of(alloc: Global, text: &[u8]) -> Option<(u64, u8)> {
    match parse(alloc, text) {
        Err(ScheduleError::Refused(refusal)) => Some((refusal.line, refusal.rule)),
        _ => None,
    }
}

#[test]
fn refuses_by_the_first_rule_at_the_first_line(rt: HostRuntime) {
    for (text, line, rule) in [
        ("at 5 kill 14\nat 4 kill 14\n", 2, 7),
        ("quantum 0\n", 1, 4),
        ("at 5 kill 14", 1, 8),
        ("tty 1 2\nQuantum\t", 2, 8),
        ("quantum\t1\n", 1, 1),
        ("tty 1 \u{7f}\n", 1, 1),
        ("\n", 1, 2),
        ("Quantum 1\n", 1, 2),
        ("at x stop 1\n", 1, 2),
        ("at  5 kill 3\n", 1, 2),
        ("at 5\n", 1, 3),
        ("quantum 1 2\n", 1, 3),
        ("quantum 01\n", 1, 3),
        ("epoch 99999999999999999999 +1\n", 1, 3),
        ("random \n", 1, 3),
        ("random 0\n", 1, 3),
        ("random 0A\n", 1, 3),
        ("quantum 99999999999999999999\n", 1, 4),
        ("quantum 1\nat 1 kill 1\nquantum 1\n", 3, 5),
        ("at 1 kill 1\nquantum 1\n", 2, 6),
    ] {
        assert_eq!(rt;
            refusal_of(rt.alloc(), text.as_bytes()),
            Some((line, rule)),
            "{text:?}"
        );
    }
}

#[test]
fn keeps_each_range_from_both_sides(rt: HostRuntime) {
    for text in [
        "",
        "quantum 1\n",
        "quantum 1000000\n",
        "epoch 0 0\n",
        "epoch 1099511627776 999999999\n",
        "tty 0 0\n",
        "tty 65535 65535\n",
        "random 00\n",
        "at 0 kill 1\n",
        "at 1152921504606846976 kill 128\n",
        "at 0 queue 1 0\n",
        "at 0 queue 128 4294967295\n",
    ] {
        assert!(rt; parse(rt.alloc(), text.as_bytes()).is_ok(), "{text:?}");
    }
    for text in [
        "quantum 1000001\n",
        "epoch 1099511627777 0\n",
        "epoch 0 1000000000\n",
        "tty 65536 0\n",
        "tty 0 65536\n",
        "at 1152921504606846977 kill 1\n",
        "at 0 kill 0\n",
        "at 0 kill 129\n",
        "at 0 queue 0 0\n",
        "at 0 queue 129 0\n",
        "at 0 queue 1 4294967296\n",
    ] {
        assert_eq!(rt;
            refusal_of(rt.alloc(), text.as_bytes()),
            Some((1, 4)),
            "{text:?}"
        );
    }
}

#[test]
fn keeps_the_range_of_random_bytes(rt: HostRuntime) -> Result<(), Fail> {
    let mut text = Vec::from_slice(rt.alloc(), b"random ")?;
    for _ in 0..4096 {
        text.extend_from_slice(b"7f")?;
    }
    text.push(b'\n')?;
    let schedule = parse(rt.alloc(), text.as_slice())?;
    assert_eq!(rt; schedule.random.as_slice().len(), 4096);
    text.pop();
    text.extend_from_slice(b"00\n")?;
    assert_eq!(rt; refusal_of(rt.alloc(), text.as_slice()), Some((1, 4)));
    Ok(())
}

#[test]
fn gives_settings_and_events(rt: HostRuntime) -> Result<(), Fail> {
    let text = "quantum 7\nepoch 3 4\ntty 25 80\nrandom 0aff\nat 5 kill 14\nat 5 queue 33 9\n";
    let mut schedule = parse(rt.alloc(), text.as_bytes())?;
    has_the_settings(&rt, &schedule);
    gives_the_events(&rt, &mut schedule);
    let events = Events::from_vec(schedule.events.into_vec());
    assert_eq!(rt; events.as_slice(), [KILL, QUEUE].as_slice());
    let random = RandomBytes::from_vec(schedule.random.into_vec());
    assert_eq!(rt; random.as_slice(), [10, 255].as_slice());
    Ok(())
}

/// The first event of that text.
const KILL: Due = Due {
    time: 5,
    sig: 14,
    value: None,
};

/// Its second event.
const QUEUE: Due = Due {
    time: 5,
    sig: 33,
    value: Some(9),
};

fn has_the_settings(rt: &impl Abort, schedule: &Schedule) {
    assert_eq!(rt;
        (schedule.quantum, schedule.epoch_s, schedule.epoch_n),
        (7, 3, 4)
    );
    assert_eq!(rt; schedule.tty, Some(Winsize { rows: 25, cols: 80 }));
    assert_eq!(rt; schedule.random.as_slice(), [10, 255].as_slice());
}

fn gives_the_events(rt: &impl Abort, schedule: &mut Schedule) {
    assert_eq!(rt; schedule.next(), Some(5));
    assert_eq!(rt; schedule.due(4), None);
    assert_eq!(rt; schedule.due(5), Some(KILL));
    assert_eq!(rt; schedule.due(6), Some(QUEUE));
    assert_eq!(rt; (schedule.next(), schedule.due(u64::MAX)), (None, None));
}

#[test]
fn gives_the_values_of_absent_settings(rt: HostRuntime) -> Result<(), Fail> {
    let schedule = parse(rt.alloc(), b"")?;
    assert_eq!(rt;
        (schedule.quantum, schedule.epoch_s, schedule.epoch_n),
        (1000, 0, 0)
    );
    assert_eq!(rt; schedule.tty, None);
    assert_eq!(rt; schedule.random.as_slice(), [0].as_slice());
    assert!(rt; schedule.events.is_empty());
    Ok(())
}

#[test]
fn tells_the_line_of_the_first_event(rt: HostRuntime) {
    for (text, line) in [
        ("", None),
        ("quantum 1\ntty 1 1\n", None),
        ("at 0 kill 1\n", Some(1)),
        ("quantum 1\nrandom 00\nat 0 kill 1\nat 1 kill 1\n", Some(3)),
        ("quantum at\n", None),
        ("tty 1 1\nat 0 kill 1", Some(2)),
    ] {
        assert_eq!(rt; first_event_line(text.as_bytes()), line, "{text:?}");
    }
}
