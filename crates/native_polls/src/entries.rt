//! The entries of poll(2) (struct pollfd).
ghost use Rattle.std.specs.Prelude.{◌≡◌, ◌*◌, ◌≤◌, ◌&&◌, length, pos, slice_index_or};
ghost use Rattle.kernel_core.specs.Bits.{one_if};
ghost use Rattle.kernel_core.specs.PollSet.{poll_set};
ghost use Rattle.kernel_core.specs.inside.EventBits.{poll_bits as bits_of_set};
ghost use Rattle.kernel_model.specs.Readiness.{is_any, told};
ghost use Rattle.layouts.specs.Shape.{record_values};
ghost use Rattle.native_calls.specs.Polls.{pollfd, unless_negative};
ghost use Rattle.native_polls.specs.inside.Entries.{told_in};

use crate::readiness::Readiness;
use crate::structures::{short_at, word_at};
use bitflags::Flags;
use kernel_core::{EventBits, PollBits};
use number_tables::poll_bits_in_native;

/// The size of an entry, in bytes.
pub(crate) const ENTRY_SIZE: usize = 8;

/// Where an entry has the events that are asked for.
const EVENTS: usize = 4;

/// What is told of the entry that some bytes begin with.
pub(crate) fn told_in<F: Readiness>(files: &F, bytes: &[u8]) -> PollBits
    requires { 8 ≤ length bytes.now }
    ensures { result ≡ told_in (F.files files.now) bytes.now }
{
    let asked = poll_bits_in_native(u64::from(short_at(bytes, EVENTS)));
    match descriptor_in(bytes) {
        None => set_of(0),
        Some(fd) => told(asked, files.ready(fd)),
    }
}

/// The descriptor of an entry, and none where it is below 0.
fn descriptor_in(bytes: &[u8]) -> Option<u32>
    requires { 8 ≤ length bytes.now }
    ensures { result ≡ unless_negative (slice_index_or (record_values pollfd bytes.now) 0 (pos 0)) }
{
    let fd = word_at(bytes, 0).cast_signed();
    if fd < 0 {
        None
    } else {
        Some(fd.unsigned_abs())
    }
}

/// Those of the events that are there that are asked for; POLLERR, POLLHUP and POLLNVAL are told unasked.
fn told(asked: PollBits, there: PollBits) -> PollBits
    ensures { result ≡ told asked there }
{
    set_of(told_bits(asked, there))
}

/// The set of these events.
fn set_of(bits: u16) -> PollBits
    ensures { result ≡ poll_set bits }
{
    PollBits::new(EventBits::from_bits_retain(bits))
}

fn told_bits(asked: PollBits, there: PollBits) -> u16
    ensures { result ≡ bits_of_set (told asked there) }
{
    bit_if(EventBits::IN, asked.input(), there.input())
        + bit_if(EventBits::PRI, asked.pri(), there.pri())
        + bit_if(EventBits::OUT, asked.output(), there.output())
        + bit_if(EventBits::ERR, true, there.err())
        + bit_if(EventBits::HUP, true, there.hup())
        + bit_if(EventBits::NVAL, true, there.nval())
        + bit_if(EventBits::RDNORM, asked.rdnorm(), there.rdnorm())
        + bit_if(EventBits::RDBAND, asked.rdband(), there.rdband())
        + bit_if(EventBits::WRNORM, asked.wrnorm(), there.wrnorm())
        + bit_if(EventBits::WRBAND, asked.wrband(), there.wrband())
}

/// The bit of an event that is there, where it is told, and else 0.
fn bit_if(bit: EventBits, told: bool, there: bool) -> u16
    ensures { result ≡ bit.0 * one_if (told && there) }
{
    if told && there { bit.bits() } else { 0 }
}

/// Whether any event is told.
pub(crate) fn is_any(events: PollBits) -> bool
    ensures { result ≡ is_any events }
{
    events.input()
        || events.pri()
        || events.output()
        || events.err()
        || events.hup()
        || events.nval()
        || events.rdnorm()
        || events.rdband()
        || events.wrnorm()
        || events.wrband()
}
