use super::*;
use bitflags::Flags;
use std::test::Fail;

#[test]
fn bytes_are_the_list(rt: HostRuntime) -> Result<(), Fail> {
    let bytes = Bytes::from([7, 0, 255].to_vec(rt.alloc())?);
    assert!(rt; bytes.as_slice() == [7, 0, 255].as_slice());
    assert_eq!(rt; bytes.len(), 3);
    assert!(rt; !bytes.is_empty());
    assert!(rt; Bytes::from(Vec::new(rt.alloc())).is_empty());
    assert!(rt; bytes.into_vec().as_slice() == [7, 0, 255].as_slice());
    Ok(())
}

#[test]
fn items_are_the_list(rt: HostRuntime) -> Result<(), Fail> {
    let items = Items::from([7, 0, 255].to_vec(rt.alloc())?);
    assert!(rt; items.as_slice() == [7, 0, 255].as_slice());
    assert!(rt; items.into_vec().as_slice() == [7, 0, 255].as_slice());
    Ok(())
}

#[test]
fn real_time_signals_are_32_to_128(rt: HostRuntime) {
    for number in 0..=255 {
        let within = 32 <= number && number <= 128;
        assert!(rt; RealTime::new(number).is_some() == within);
    }
}

#[test]
fn want_of_memory_stops_a_call(rt: HostRuntime) {
    assert!(rt; Stop::from(NoMemory) == Stop::NoMemory);
    assert!(rt; CoreError::from(NoMemory) == CoreError::Stop(Stop::NoMemory));
}

#[test]
fn errors_and_stops_go_up(rt: HostRuntime) {
    assert!(rt; CoreError::from(Errno::EPERM) == CoreError::Refused(Errno::EPERM));
    assert!(rt; CoreError::from(Stop::ReadFault) == CoreError::Stop(Stop::ReadFault));
}

#[test]
fn open_flags_keep_their_names(rt: HostRuntime) {
    let bits = OpenBits::APPEND.union(OpenBits::CLOEXEC);
    let flags = OpenFlags::new(Access::Write, bits);
    assert!(rt; flags.access() == Access::Write && flags.bits() == bits);
    assert!(rt; flags.append() && flags.cloexec());
    assert!(rt; !flags.dsync() && !flags.nonblock() && !flags.creat() && !flags.trunc());
    assert!(rt; !flags.excl() && !flags.noctty() && !flags.largefile() && !flags.sync());
    assert!(rt; !flags.directory() && !flags.nofollow());
    let all = OpenFlags::new(Access::Write, OpenBits::all());
    assert!(rt; all.dsync() && all.nonblock() && all.creat() && all.trunc() && all.excl());
    assert!(rt; all.noctty() && all.largefile() && all.sync() && all.directory() && all.nofollow());
}

#[test]
fn bits_without_a_name_are_dropped(rt: HostRuntime) {
    let unnamed = OpenBits::from_bits_retain(0xF000);
    assert!(rt; OpenFlags::new(Access::Read, unnamed).bits() == OpenBits::empty());
    let unnamed = EventBits::from_bits_retain(0xFC00);
    assert!(rt; PollBits::new(unnamed) == PollBits::new(EventBits::empty()));
    let unnamed = SaBits::from_bits_retain(0x80);
    assert!(rt; SaFlags::new(unnamed) == SaFlags::new(SaBits::empty()));
    let unnamed = MapBits::from_bits_retain(0xF8);
    let none = MapFlags::new(MapKind::Shared, MapBits::empty());
    assert!(rt; MapFlags::new(MapKind::Shared, unnamed) == none);
}

#[test]
fn other_flags_keep_their_names(rt: HostRuntime) {
    let actions = SaFlags::new(SaBits::NOCLDSTOP.union(SaBits::RESETHAND));
    assert!(rt; actions.nocldstop() && actions.resethand());
    assert!(rt; !actions.siginfo() && !actions.nocldwait() && !actions.onstack());
    assert!(rt; !actions.restart() && !actions.nodefer());
    let events = PollBits::new(EventBits::IN.union(EventBits::WRBAND));
    assert!(rt; events.input() && events.wrband() && !events.pri() && !events.output());
    assert!(rt; !events.err() && !events.hup() && !events.nval() && !events.rdnorm());
    assert!(rt; !events.rdband() && !events.wrnorm());
    let map = MapFlags::new(MapKind::Private, MapBits::FIXED.union(MapBits::ANONYMOUS));
    assert!(rt; map.kind() == MapKind::Private);
    assert!(rt; map.fixed() && map.anonymous() && !map.noreserve());
}
