//! Worked rows: numbers beside the calls that have them (Linux `arch/mips/include/uapi/asm/unistd.h`, the o32 table).

use crate::{BridgedCall, FileCall, IoCall, NameCall, O32Call, PlainCall, SystemCall};

/// Numbers that no call has.
const NONE: [u32; 6] = [0, 3, 4000, 4002, 4354, u32::MAX];

#[test]
fn first_and_last_calls_are_found(rt: HostRuntime) {
    let exit = O32Call::of(4001);
    assert!(rt; matches!(exit, Some(O32Call::Plain(PlainCall::Exit))));
    let getrandom = O32Call::of(4353);
    assert!(rt;
        matches!(
            getrandom,
            Some(O32Call::Bridged(BridgedCall::System(SystemCall::Getrandom)))
        )
    );
}

#[test]
fn calls_of_groups_are_found(rt: HostRuntime) {
    let write = O32Call::of(4004);
    assert!(rt;
        matches!(
            write,
            Some(O32Call::Bridged(BridgedCall::Io(IoCall::Write)))
        )
    );
    let symlinkat = O32Call::of(4297);
    assert!(rt;
        matches!(
            symlinkat,
            Some(O32Call::Bridged(BridgedCall::File(FileCall::Name(NameCall::Symlinkat))))
        )
    );
}

#[test]
fn no_call_has_these_numbers(rt: HostRuntime) {
    for number in &NONE {
        assert!(rt; O32Call::of(*number).is_none());
    }
}
