//! What a call finds out about the native clocks, by native calls that change nothing.
ghost use Rattle.std.specs.Prelude.{◌≡◌, ◌<◌, option_map, if◌then◌else◌};
ghost use Rattle.bridge_log.specs.Proceeding.{Proceeds};
ghost use Rattle.bridge_log.specs.Looks.{LooksFor};
ghost use Rattle.bridge_wait.specs.inside.Shown.{clock_of, is_over, resolution_of, time_in, time_of, word_in};
ghost use Rattle.kernel_core.specs.declared.reply.Reply.{Reply};
ghost use Rattle.kernel_model.specs.Clock.{clock_time};
ghost use Rattle.o32_model.specs.Clocks.{is_late};
ghost use Rattle.outside.specs.Streams.{contents};

use crate::clock_times::ClockTime;
use crate::numbers::{CLOCK_MONOTONIC, CLOCK_REALTIME, TIMER_ABSTIME};
use crate::times::push_time;
use bridge_log::{Below, fresh_room};
use byteorder::{ByteOrder, LittleEndian};
use host_mem::{FIRST_ADDRESS, HostMem};
use kernel_core::{Reply, Stop};
use native_numbers::{CLOCK_GETRES, CLOCK_GETTIME, CLOCK_NANOSLEEP};
use outside::{Devices, Sink, Source};

/// How many bytes a time has in host memory (struct timespec).
const NATIVE_SIZE: u32 = 16;

/// The first second that no time_t of 32 bits holds.
const FIRST_LATE_SECOND: i64 = 0x8000_0000;

/// What the native clock with an id shows; None where there is none.
pub(crate) fn clock_shown<I: Source, O: Sink, E: Sink>(
    clock: u32,
    dev: &mut Devices<I, O, E>,
    below: &mut Below,
) -> Result<Option<ClockTime>, Stop>
    ensures looks { LooksFor (λ shown. shown ≡ option_map time_of (clock_time below.old.kernel.now below.old.kernel.now.clock clock)) result below.old.kernel.now below.new.kernel.now
        (contents I.left O.written E.written dev.old) (contents I.left O.written E.written dev.new) below.old.log.now below.new.log.now }
    ensures proceeds { Proceeds I.faults O.faults E.faults result below.old below.new dev.old dev.new }
{
    fresh_room(below.memory, NATIVE_SIZE)?;
    let args = [u64::from(clock), FIRST_ADDRESS, 0, 0, 0, 0];
    let reply = below.look(CLOCK_GETTIME, args, dev)?;
    Ok(time_in(below.memory, reply))
}

/// The resolution of the native clock with an id; None where there is none.
pub(crate) fn clock_resolution<I: Source, O: Sink, E: Sink>(
    clock: u32,
    dev: &mut Devices<I, O, E>,
    below: &mut Below,
) -> Result<Option<ClockTime>, Stop>
    ensures looks { LooksFor (λ shown. shown ≡ option_map time_of (resolution_of clock)) result below.old.kernel.now below.new.kernel.now
        (contents I.left O.written E.written dev.old) (contents I.left O.written E.written dev.new) below.old.log.now below.new.log.now }
    ensures proceeds { Proceeds I.faults O.faults E.faults result below.old below.new dev.old dev.new }
{
    fresh_room(below.memory, NATIVE_SIZE)?;
    let args = [u64::from(clock), FIRST_ADDRESS, 0, 0, 0, 0];
    let reply = below.look(CLOCK_GETRES, args, dev)?;
    Ok(time_in(below.memory, reply))
}

/// Whether second 2^31 has come by CLOCK_REALTIME, or else by CLOCK_MONOTONIC: a sleep until then ends at once, and
/// else it would wait. The numbers of a time need not be told for this.
pub(crate) fn is_late<I: Source, O: Sink, E: Sink>(
    real: bool,
    dev: &mut Devices<I, O, E>,
    below: &mut Below,
) -> Result<bool, Stop>
    ensures looks { LooksFor (λ late. late ≡ is_late (clock_of below.old.kernel.now real)) result below.old.kernel.now below.new.kernel.now
        (contents I.left O.written E.written dev.old) (contents I.left O.written E.written dev.new) below.old.log.now below.new.log.now }
    ensures proceeds { Proceeds I.faults O.faults E.faults result below.old below.new dev.old dev.new }
{
    below.memory.clear();
    let place = push_time(FIRST_LATE_SECOND, 0, below.memory)?;
    let args = [sleep_clock(real), TIMER_ABSTIME, place, 0, 0, 0];
    let reply = below.look(CLOCK_NANOSLEEP, args, dev)?;
    Ok(is_over(reply))
}

/// CLOCK_REALTIME or CLOCK_MONOTONIC, as an argument.
fn sleep_clock(real: bool) -> u64
    ensures { result ≡ (if real then 0 else 1) }
{
    u64::from(if real {
        CLOCK_REALTIME
    } else {
        CLOCK_MONOTONIC
    })
}

/// Whether a sleep with this reply has ended.
fn is_over(reply: Reply) -> bool
    ensures { result ≡ is_over reply }
{
    matches!(reply, Reply::Done(_))
}

/// The time that a call with this reply put at the beginning of host memory; None after an error.
fn time_in(mem: &HostMem, reply: Reply) -> Option<ClockTime>
    ensures { result ≡ time_in mem.now reply }
{
    match reply {
        Reply::Done(number) if number >= 0 => Some(ClockTime {
            seconds: word_in(mem, 0),
            nanoseconds: word_in(mem, 8),
        }),
        _ => None,
    }
}

/// The low 32 bits of a number in host memory, by its place.
fn word_in(mem: &HostMem, place: u64) -> u32
    requires { place < 16 }
    ensures { result ≡ word_in mem.now place }
{
    match mem.read(FIRST_ADDRESS + place, 4) {
        Some(bytes) => LittleEndian::read_u32(bytes),
        None => 0,
    }
}
