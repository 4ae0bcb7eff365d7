//! Which signal is next, by the numbers of Linux `arch/mips/include/uapi/asm/signal.h`.

use super::{accepted, choose};
use kernel_core::{RealTime, Sig};
use std::test::Fail;

/// STOP, 23, and CONT, 25, whose native numbers are in the other order.
const STOP_AND_CONT: [u32; 4] = [0x0140_0000, 0, 0, 0];

const STOP: [u32; 4] = [0x0040_0000, 0, 0, 0];

const LAST: [u32; 4] = [0, 0, 0, 0x8000_0000];

const NONE: [u32; 4] = [0; 4];

const ALL: [u32; 4] = [u32::MAX; 4];

#[test]
fn the_lowest_that_is_not_blocked(rt: HostRuntime) -> Result<(), Fail> {
    assert!(rt; choose(STOP_AND_CONT, NONE) == Some(Sig::Stop));
    assert!(rt; choose(STOP_AND_CONT, STOP) == Some(Sig::Cont));
    assert!(rt; choose(ALL, NONE) == Some(Sig::Hup));
    assert!(rt; choose(LAST, STOP) == RealTime::new(128).map(Sig::RealTime));
    assert!(rt; choose(NONE, NONE).is_none());
    assert!(rt; choose(ALL, ALL).is_none());
    Ok(())
}

#[test]
fn the_lowest_that_is_named(rt: HostRuntime) -> Result<(), Fail> {
    assert!(rt; accepted(STOP_AND_CONT, ALL) == Some(Sig::Cont));
    assert!(rt; accepted(ALL, STOP).is_none());
    assert!(rt; accepted(ALL, LAST) == RealTime::new(128).map(Sig::RealTime));
    assert!(rt; accepted(ALL, ALL) == Some(Sig::Hup));
    assert!(rt; accepted(NONE, ALL).is_none());
    Ok(())
}
