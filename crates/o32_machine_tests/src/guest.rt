//! Programs that make calls, one after the other, and look at what each gives.
use crate::emulators::{Look, Streams, look_at, new_streams, run};
use guest_scripts::calls::read;
use guest_scripts::guest::code_of;
use kernel_core::Finish;
use o32_machine::Emulator;
use std::alloc::Global;
use std::test::Fail;

/// `lui $sp, 0x41` and `ori $sp, $sp, 0x20`: with the room that the program takes below it, the stack is where the data begin.
const TO_STACK: [u32; 2] = [0x3C1D_0041, 0x37BD_0020];

/// What the input has.
const INPUT: &[u8] = b"abcdef";

/// How many calls a program can make, since its status is the place of one.
const MOST_CALLS: usize = 255;

/// The status with which an emulator exits; None where it ends otherwise, or exits with 0 and wrote anything else.
fn status_of(emulator: &mut Emulator, streams: &mut Streams, out: &[u8]) -> Option<u8> {
    match run(emulator, streams) {
        Some(Finish::Exited(status)) if status > 0 || streams.out.bytes() == out => Some(status),
        _ => None,
    }
}

/// The same over new streams, where this has to be written.
#[derive(Clone, Copy)]
struct StatusOver<'a> {
    out: &'a [u8],
}

impl Look for StatusOver<'_> {
    type Seen = Option<u8>;

    fn see(&self, alloc: Global, emulator: &mut Emulator) -> Result<Option<u8>, Fail> {
        let mut streams = new_streams(alloc, INPUT, &[])?;
        Ok(status_of(emulator, &mut streams, self.out))
    }
}

/// The place of the first call of a script that gives anything else, counted from 1, or 0; None where the program ends
/// otherwise or writes anything else.
pub(crate) fn first_wrong(alloc: Global, text: &str, out: &[u8]) -> Result<Option<u8>, Fail> {
    let script = read(alloc, text)?;
    if script.calls.is_empty() || script.calls.len() > MOST_CALLS {
        return Err(Fail::from("no calls, or too many"));
    }
    let code = code_of(alloc, &TO_STACK, &script.calls)?;
    look_at(alloc, &code, &StatusOver { out })
}
