//! Sets of events (poll(2)).
ghost use Rattle.std.specs.Prelude.{◌≡◌, ◌*◌};
ghost use Rattle.kernel_core.specs.Bits.{one_if};
ghost use Rattle.kernel_core.specs.inside.EventBits.{poll_bits as bits_of_set};
ghost use Rattle.kernel_model.specs.Readiness.{ready_for};
ghost use Rattle.native_files.specs.inside.Events.{set_of};

use bitflags::Flags;
use kernel_core::{EventBits, PollBits};

/// What a descriptor may be ready for.
#[derive(Clone, Copy)]
pub(crate) struct Events {
    /// POLLIN and POLLRDNORM.
    pub(crate) reading: bool,
    /// POLLOUT and POLLWRNORM.
    pub(crate) writing: bool,
    /// POLLERR.
    pub(crate) error: bool,
    /// POLLHUP.
    pub(crate) hung_up: bool,
    /// POLLNVAL.
    pub(crate) closed: bool,
}

/// Ready for reading, for writing, and nothing else.
pub(crate) fn ready_for(reading: bool, writing: bool) -> PollBits
    ensures { result ≡ ready_for reading writing }
{
    poll_bits(Events {
        reading,
        writing,
        error: false,
        hung_up: false,
        closed: false,
    })
}

pub(crate) fn poll_bits(events: Events) -> PollBits
    ensures { result ≡ set_of events }
{
    PollBits::new(EventBits::from_bits_retain(bits(events)))
}

fn bits(events: Events) -> u16
    ensures { result ≡ bits_of_set (set_of events) }
{
    bit_if(EventBits::IN, events.reading)
        + bit_if(EventBits::OUT, events.writing)
        + bit_if(EventBits::ERR, events.error)
        + bit_if(EventBits::HUP, events.hung_up)
        + bit_if(EventBits::NVAL, events.closed)
        + bit_if(EventBits::RDNORM, events.reading)
        + bit_if(EventBits::WRNORM, events.writing)
}

/// The bit of an event where it is there, and else 0.
fn bit_if(bit: EventBits, there: bool) -> u16
    ensures { result ≡ bit.0 * one_if there }
{
    if there { bit.bits() } else { 0 }
}
