//! What a call finds out about the native timer, by a native call that changes nothing.
ghost use Rattle.std.specs.Prelude.{◌≡◌, ◌+◌, ◌≤◌};
ghost use Rattle.bridge_log.specs.Proceeding.{Proceeds};
ghost use Rattle.bridge_log.specs.Looks.{LooksFor};
ghost use Rattle.bridge_timer.specs.inside.Shown.{shown_at, shown_in, time_in, word_in};
ghost use Rattle.outside.specs.Streams.{contents};

use crate::shown::{MicroTime, Shown};
use bridge_log::{Below, fresh_room};
use byteorder::{ByteOrder, LittleEndian};
use host_mem::{FIRST_ADDRESS, HostMem};
use kernel_core::{Reply, Stop};
use native_numbers::GETITIMER;
use outside::{Devices, Sink, Source};

/// How many bytes a value of the timer has in host memory (struct itimerval).
const NATIVE_SIZE: u32 = 32;

/// What the native timer with a number shows; None where there is none.
pub(crate) fn timer_shown<I: Source, O: Sink, E: Sink>(
    which: u32,
    dev: &mut Devices<I, O, E>,
    below: &mut Below,
) -> Result<Option<Shown>, Stop>
    ensures looks { LooksFor (λ shown. shown ≡ shown_at below.old.kernel.now which) result below.old.kernel.now below.new.kernel.now
        (contents I.left O.written E.written dev.old) (contents I.left O.written E.written dev.new) below.old.log.now below.new.log.now }
    ensures proceeds { Proceeds I.faults O.faults E.faults result below.old below.new dev.old dev.new }
{
    fresh_room(below.memory, NATIVE_SIZE)?;
    let args = [u64::from(which), FIRST_ADDRESS, 0, 0, 0, 0];
    let reply = below.look(GETITIMER, args, dev)?;
    Ok(shown_in(below.memory, reply))
}

/// What a call with this reply put at the beginning of host memory; None after an error.
fn shown_in(mem: &HostMem, reply: Reply) -> Option<Shown>
    ensures { result ≡ shown_in mem.now reply }
{
    match reply {
        Reply::Done(number) if number >= 0 => Some(Shown {
            period: time_in(mem, 0),
            left: time_in(mem, 16),
        }),
        _ => None,
    }
}

/// A time in host memory, by its place.
fn time_in(mem: &HostMem, place: u64) -> MicroTime
    requires { place ≤ 16 }
    ensures { result ≡ time_in mem.now place }
{
    MicroTime {
        seconds: word_in(mem, place),
        microseconds: word_in(mem, place + 8),
    }
}

/// The low 32 bits of a number in host memory, by its place.
fn word_in(mem: &HostMem, place: u64) -> u32
    requires { place ≤ 24 }
    ensures { result ≡ word_in mem.now place }
{
    match mem.read(FIRST_ADDRESS + place, 4) {
        Some(bytes) => LittleEndian::read_u32(bytes),
        None => 0,
    }
}
