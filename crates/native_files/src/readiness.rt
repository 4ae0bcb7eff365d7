//! Which descriptors are ready (poll(2), select(2)).
ghost use Rattle.std.specs.Prelude.{◌≡◌};
ghost use Rattle.kernel_model.specs.Descriptions.{reads, writes};
ghost use Rattle.kernel_model.specs.Readiness.{ready};

use crate::events::{Events, poll_bits, ready_for};
use crate::files::Files;
use kernel_core::{Access, PollBits};
use kernel_model::Object;

impl Files {
    /// What a descriptor is ready for (poll(2)). A stream is ready as its access mode says, a node both
    /// ways. A read end is ready with bytes, and hung up without writers; a write end is ready with readers
    /// and room for 4,096 bytes, and in error without readers. One that is not open is POLLNVAL.
    #[tactic(auto, unfolding(kernel_model::specs::Readiness::ready))]
    pub fn ready(&self, fd: u32) -> PollBits
        ensures { result ≡ ready self.now fd }
    {
        match self.opened(fd) {
            None => poll_bits(Events {
                reading: false,
                writing: false,
                error: false,
                hung_up: false,
                closed: true,
            }),
            Some(description) => match description.object {
                Object::Stream(_) => {
                    let access = description.flags.access();
                    ready_for(reads(access), writes(access))
                }
                Object::ReadEnd(pipe) => self.flow.read_end_ready(pipe),
                Object::WriteEnd(pipe) => self.flow.write_end_ready(pipe),
                Object::Node(_) => ready_for(true, true),
            },
        }
    }
}

pub(crate) fn reads(access: Access) -> bool
    ensures { result ≡ reads access }
{
    match access {
        Access::Read => true,
        Access::Write => false,
        Access::ReadWrite => true,
    }
}

pub(crate) fn writes(access: Access) -> bool
    ensures { result ≡ writes access }
{
    match access {
        Access::Read => false,
        Access::Write => true,
        Access::ReadWrite => true,
    }
}
