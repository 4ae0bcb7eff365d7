//! The files of the kernel, as a call asks for them that waits for descriptors.

use kernel_core::PollBits;
use native_files::Files;
use native_polls::Readiness;

/// What tells which descriptors of these files are ready.
#[derive(Drop)]
pub(crate) struct OpenFiles<'a>(pub(crate) &'a Files);

impl<'a> Readiness for OpenFiles<'a> {
    ghost files = { λ it. it.0.now };

    fn ready(&self, fd: u32) -> PollBits {
        self.0.ready(fd)
    }
}
